//! The functions of a unit after a refused growth: the same calls give what they would have given.

ghost use Rattle.std.specs.Prelude.{[], None};
ghost use Rattle.addr2line_lines.specs.CachedNames.{AreNamesIn};
ghost use Rattle.addr2line_lines.specs.References.{sup_scope};

use super::details::NESTED;
use crate::sections::{dwarf_of, fault_code, first_unit};
use crate::vectors::LINE;
use addr2line_lines::{FileUnits, Functions, Scope};
use gimli::read::{EndianSlice, Error};
use gimli::{Dwarf, Unit};
use std::alloc::Global;

// A function [0x10, 0x30) with 17 inlined functions, each inside the one before.
const DEEP_INFO: &[u8] = b"\x63\0\0\0\x04\0\0\0\0\0\x02\x01\x02\x10\0\x20\x03\x10\0\x20\
    \x03\x10\0\x20\x03\x10\0\x20\x03\x10\0\x20\x03\x10\0\x20\x03\x10\0\x20\x03\x10\0\x20\
    \x03\x10\0\x20\x03\x10\0\x20\x03\x10\0\x20\x03\x10\0\x20\x03\x10\0\x20\x03\x10\0\x20\
    \x03\x10\0\x20\x03\x10\0\x20\x03\x10\0\x20\x03\x10\0\x20\0\0\0\0\0\0\0\0\0\0\0\0\0\0\0\0\0\0\0";

// Its detail is read, 17 functions are inlined at its address, and its detail stays read.
const DEEP_WANT: [u64; 3] = [1, 17, 1];

// What a call on the function at 0x18 gives, or a fault's number.
fn deep_answer<'a>(
    alloc: Global,
    functions: &mut Functions<EndianSlice<'a>>,
    dwarf: &Dwarf<EndianSlice<'a>>,
    unit: &Unit<EndianSlice<'a>>,
    call: usize,
) -> u64
    requires unit { AreNamesIn (sup_scope (record { sections = dwarf.now; units = [] }))
        unit.now functions.old.names }
    ensures unit { AreNamesIn (sup_scope (record { sections = dwarf.now; units = [] }))
        unit.now functions.new.names }
{
    let Some(place) = functions.find(0x18) else {
        return 0;
    };
    let answer = if call == 1 {
        let chain = functions.find_inlined_functions(alloc, place, 0x18);
        chain.map(|chain| chain.len() as u64)
    } else {
        let file = FileUnits { dwarf, units: None };
        functions
            .read(Scope { file, sup: None }, unit, place)
            .map(|()| 1)
    };
    answer.unwrap_or_else(|error| u64::from(fault_code(error)))
}

// The answers of the calls, the second where the first was refused; and how often one was.
fn deep_answers<'a>(
    alloc: Global,
    functions: Functions<EndianSlice<'a>>,
    dwarf: &Dwarf<EndianSlice<'a>>,
    unit: &Unit<EndianSlice<'a>>,
    refused: u64,
) -> ([u64; 3], u64)
    requires unit { AreNamesIn (sup_scope (record { sections = dwarf.now; units = [] }))
        unit.now functions.names }
{
    let mut functions = functions;
    let mut refused = refused;
    let mut codes = [0; 3];
    for (call, code) in codes.iter_mut().enumerate() {
        *code = deep_answer(alloc, &mut functions, dwarf, unit, call);
        if *code == u64::from(fault_code(Error::OutOfMemory)) {
            refused = refused.wrapping_add(1);
            *code = deep_answer(alloc, &mut functions, dwarf, unit, call);
        }
    }
    (codes, refused)
}

// The numbers where memory is refused.
fn are_refused(answers: ([u64; 3], u64)) -> bool {
    answers.0 == [u64::from(fault_code(Error::OutOfMemory)); 3]
}

// The answers of functions that are parsed now.
fn answers_by_functions<'a>(
    alloc: Global,
    dwarf: &Dwarf<EndianSlice<'a>>,
    unit: &Unit<EndianSlice<'a>>,
    refused: u64,
) -> ([u64; 3], u64) {
    let file = FileUnits { dwarf, units: None };
    match Functions::parse(alloc, Scope { file, sup: None }, unit) {
        Ok(functions) => deep_answers(alloc, functions, dwarf, unit, refused),
        Err(error) => ([u64::from(fault_code(error)); 3], refused),
    }
}

// The same, once more where that is refused.
fn answers_in_unit<'a>(
    alloc: Global,
    dwarf: &Dwarf<EndianSlice<'a>>,
    unit: &Unit<EndianSlice<'a>>,
    refused: u64,
) -> ([u64; 3], u64) {
    let answers = answers_by_functions(alloc, dwarf, unit, refused);
    if are_refused(answers) {
        return answers_by_functions(alloc, dwarf, unit, refused.wrapping_add(1));
    }
    answers
}

// The same of a unit that is read now.
fn answers_by_unit(alloc: Global, dwarf: &Dwarf<EndianSlice<'_>>, refused: u64) -> ([u64; 3], u64) {
    match first_unit(alloc, dwarf) {
        Ok(unit) => answers_in_unit(alloc, dwarf, &unit, refused),
        Err(error) => ([u64::from(fault_code(error)); 3], refused),
    }
}

// The same, once more where that is refused.
fn answers_of_deep(alloc: Global) -> ([u64; 3], u64) {
    let dwarf = dwarf_of(NESTED, DEEP_INFO, &LINE);
    let answers = answers_by_unit(alloc, &dwarf, 0);
    if are_refused(answers) {
        return answers_by_unit(alloc, &dwarf, 1);
    }
    answers
}

// Each growth is refused in turn by `tools/refuse_growths`.
#[test]
fn a_refused_growth_leaves_functions(rt: HostRuntime) {
    assert_eq!(rt; answers_of_deep(rt.alloc()).0, DEEP_WANT);
}

#[test]
fn each_growth_of_functions_is_granted(rt: HostRuntime) {
    assert_eq!(rt; answers_of_deep(rt.alloc()), (DEEP_WANT, 0));
}
