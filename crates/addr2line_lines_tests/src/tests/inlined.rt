//! The inlined functions at an address, from the outside in.

ghost use Rattle.std.specs.Prelude.{[], None};
ghost use Rattle.addr2line_lines.specs.CachedNames.{AreNamesIn};
ghost use Rattle.addr2line_lines.specs.References.{sup_scope};

use crate::sections::{dwarf_of, first_unit};
use addr2line_lines::{FileUnits, Functions, Scope};
use gimli::read::EndianSlice;
use gimli::{Dwarf, Unit};
use std::alloc::Global;

// A root entry without attributes, a function with DW_AT_low_pc and DW_AT_high_pc, and inlined
// functions with these and DW_AT_call_line, and without attributes; all have children.
const ABBREV: &[u8] = b"\x01\x11\x01\0\0\x02\x2e\x01\x11\x01\x12\x0b\0\0\
    \x03\x1d\x01\x11\x01\x12\x0b\x59\x0b\0\0\x04\x1d\x01\0\0\0";

// In the function [0, 0x30) the inlined functions, by the lines of their calls: 0 [0, 10), and
// inside it 1 [0, 2) and 2 [6, 8).
const SIBLINGS: &[u8] = b"\x20\0\0\0\x04\0\0\0\0\0\x02\x01\x02\0\0\x30\
    \x03\0\0\x0a\0\x03\0\0\x02\x01\0\x03\x06\0\x02\x02\0\0\0\0";

// 0 [0, 5), inside it 1 [0, 2); and 2 [5, 10), inside it 3 [6, 8).
const COUSINS: &[u8] = b"\x26\0\0\0\x04\0\0\0\0\0\x02\x01\x02\0\0\x30\
    \x03\0\0\x05\0\x03\0\0\x02\x01\0\0\x03\x05\0\x05\x02\x03\x06\0\x02\x03\0\0\0\0";

// One without ranges, inside it 0 [0, 10); 1 [3, 6); and 2 [0, 10), inside it 3 [2, 4).
const OVERLAPPING: &[u8] = b"\x28\0\0\0\x04\0\0\0\0\0\x02\x01\x02\0\0\x30\
    \x04\x03\0\0\x0a\0\0\0\x03\x03\0\x03\x01\0\x03\0\0\x0a\x02\x03\x02\0\x02\x03\0\0\0\0";

// 0 [0, 9), 1 [0, 8) and 2 [0, 9).
const EQUAL: &[u8] = b"\x20\0\0\0\x04\0\0\0\0\0\x02\x01\x02\0\0\x30\
    \x03\0\0\x09\0\0\x03\0\0\x08\x01\0\x03\0\0\x09\x02\0\0\0";

// No inlined function.
const NONE: &[u8] = b"\x0e\0\0\0\x04\0\0\0\0\0\x02\x01\x02\0\0\x30\0\0";

// The lines of calls, from the outside in, as digits after a 1.
fn digits_of(functions: &Functions<EndianSlice<'_>>, chain: &[usize]) -> u64 {
    let mut digits = 1u64;
    for place in chain {
        let line = functions
            .inlined(*place)
            .map_or(9, |inlined| inlined.call_line);
        digits = digits.wrapping_mul(10).wrapping_add(u64::from(line));
    }
    digits
}

// The same of the inlined functions at an address of the first function; 0 for a fault.
fn chain_by<'a>(
    alloc: Global,
    functions: Functions<EndianSlice<'a>>,
    dwarf: &Dwarf<EndianSlice<'a>>,
    unit: &Unit<EndianSlice<'a>>,
    probe: u64,
) -> u64
    requires unit { AreNamesIn (sup_scope (record { sections = dwarf.now; units = [] }))
        unit.now functions.names }
{
    let mut functions = functions;
    let file = FileUnits { dwarf, units: None };
    if functions.read(Scope { file, sup: None }, unit, 0).is_err() {
        return 0;
    }
    match functions.find_inlined_functions(alloc, 0, probe) {
        Ok(chain) => digits_of(&functions, chain.as_slice()),
        Err(_) => 0,
    }
}

fn chain_in<'a>(
    alloc: Global,
    dwarf: &Dwarf<EndianSlice<'a>>,
    unit: &Unit<EndianSlice<'a>>,
    probe: u64,
) -> u64 {
    let file = FileUnits { dwarf, units: None };
    match Functions::parse(alloc, Scope { file, sup: None }, unit) {
        Ok(functions) => chain_by(alloc, functions, dwarf, unit, probe),
        Err(_) => 0,
    }
}

fn chain_at(alloc: Global, abbrev: &[u8], info: &[u8], probe: u64) -> u64 {
    let dwarf = dwarf_of(abbrev, info, &[]);
    match first_unit(alloc, &dwarf) {
        Ok(unit) => chain_in(alloc, &dwarf, &unit, probe),
        Err(_) => 0,
    }
}

#[test]
fn inlined_functions_are_picked_from_the_outside_in(rt: HostRuntime) {
    let cases: [(&[u8], u64, u64); 6] = [
        (SIBLINGS, 7, 102),
        (SIBLINGS, 4, 10),
        (COUSINS, 7, 123),
        // Of depth 0 the range that begins last ends before the address.
        (OVERLAPPING, 7, 1),
        // Of equal begins the greatest end counts, of these the last.
        (EQUAL, 8, 12),
        (NONE, u64::MAX, 1),
    ];
    for (info, probe, want) in cases {
        assert_eq!(rt; chain_at(rt.alloc(), ABBREV, info, probe), want);
    }
}

// The same as the function and its inlined functions above, but that with DW_AT_high_pc as a LEB128
// number, and these without children.
const WIDE_ABBREV: &[u8] = b"\x01\x11\x01\0\0\x02\x2e\x01\x11\x01\x12\x0f\0\0\
    \x03\x1d\0\x11\x01\x12\x0b\x59\x0b\0\0\0";

// In the function [0, 2^33) the inlined functions, by the lines of their calls: 1 [1, 2) and
// 2 [2^32 + 1, 2^32 + 2).
const WIDE: &[u8] = b"\x2e\0\0\0\x04\0\0\0\0\0\x08\x01\
    \x02\0\0\0\0\0\0\0\0\x80\x80\x80\x80\x20\
    \x03\x01\0\0\0\0\0\0\0\x01\x01\x03\x01\0\0\0\x01\0\0\0\x01\x02\0\0";

#[test]
fn inlined_functions_may_be_far_apart(rt: HostRuntime) {
    for (probe, want) in [(1, 11), (2, 1), (0x1_0000_0001, 12)] {
        assert_eq!(rt; chain_at(rt.alloc(), WIDE_ABBREV, WIDE, probe), want);
    }
}

// The same as the function and its inlined functions above, but these with DW_AT_call_file as a
// LEB128 number before the line, and without children.
const FILES_ABBREV: &[u8] = b"\x01\x11\x01\0\0\x02\x2e\x01\x11\x01\x12\x0b\0\0\
    \x03\x1d\0\x11\x01\x12\x0b\x58\x0f\x59\x0b\0\0\0";

// Calls whose files have the indexes 1, 2^32 - 2, 2^32 - 1, 2^32 and 2^64 - 1.
const FILES: &[u8] = b"\x41\0\0\0\x04\0\0\0\0\0\x02\x01\x02\0\0\x30\
    \x03\0\0\x01\x01\x01\x03\x01\0\x01\xfe\xff\xff\xff\x0f\x02\
    \x03\x02\0\x01\xff\xff\xff\xff\x0f\x03\x03\x03\0\x01\x80\x80\x80\x80\x10\x04\
    \x03\x04\0\x01\xff\xff\xff\xff\xff\xff\xff\xff\xff\x01\x05\0\0";

// The indexes of files of the calls of the first function, and the lines; zeros for a fault.
fn calls_by<'a>(
    functions: Functions<EndianSlice<'a>>,
    dwarf: &Dwarf<EndianSlice<'a>>,
    unit: &Unit<EndianSlice<'a>>,
) -> [(u64, u32); 5]
    requires unit { AreNamesIn (sup_scope (record { sections = dwarf.now; units = [] }))
        unit.now functions.names }
{
    let mut functions = functions;
    let mut calls = [(0, 0); 5];
    let file = FileUnits { dwarf, units: None };
    if functions.read(Scope { file, sup: None }, unit, 0).is_err() {
        return calls;
    }
    for place in 0..5 {
        if let Some(inlined) = functions.inlined(place) {
            calls[place] = (inlined.call_file.unwrap_or(0), inlined.call_line);
        }
    }
    calls
}

fn calls_in<'a>(
    alloc: Global,
    dwarf: &Dwarf<EndianSlice<'a>>,
    unit: &Unit<EndianSlice<'a>>,
) -> [(u64, u32); 5] {
    let file = FileUnits { dwarf, units: None };
    match Functions::parse(alloc, Scope { file, sup: None }, unit) {
        Ok(functions) => calls_by(functions, dwarf, unit),
        Err(_) => [(0, 0); 5],
    }
}

fn calls_of(alloc: Global, abbrev: &[u8], info: &[u8]) -> [(u64, u32); 5] {
    let dwarf = dwarf_of(abbrev, info, &[]);
    match first_unit(alloc, &dwarf) {
        Ok(unit) => calls_in(alloc, &dwarf, &unit),
        Err(_) => [(0, 0); 5],
    }
}

#[test]
fn the_file_of_a_call_may_have_any_index(rt: HostRuntime) {
    let want = [
        (1, 1),
        (0xffff_fffe, 2),
        (0xffff_ffff, 3),
        (0x1_0000_0000, 4),
        (u64::MAX, 5),
    ];
    assert_eq!(rt; calls_of(rt.alloc(), FILES_ABBREV, FILES), want);
}
