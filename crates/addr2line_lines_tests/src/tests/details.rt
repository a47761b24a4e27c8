//! Worked cases: names of functions and the inlined functions at addresses, and the faults that
//! refuse them.

ghost use Rattle.std.specs.Prelude.{[], None};
ghost use Rattle.addr2line_lines.specs.CachedNames.{AreNamesIn};
ghost use Rattle.addr2line_lines.specs.References.{sup_scope};

use crate::sections::{dwarf_of, first_unit};
use crate::vectors::{LINE, NAMED, NAMED_INFO, OPEN_FUNCTION, OPEN_UNIT, TWO_FUNCTIONS};
use addr2line_lines::{FileUnits, Functions, Scope};
use gimli::read::{EndianSlice, Error, Reader};
use gimli::{Dwarf, Unit};
use std::alloc::{AllocError, Global};

/// A root entry without attributes, and functions and inlined functions with children and with
/// DW_AT_low_pc and DW_AT_high_pc.
pub const NESTED: &[u8] =
    b"\x01\x11\x01\0\0\x02\x2e\x01\x11\x01\x12\x0b\0\0\x03\x1d\x01\x11\x01\x12\x0b\0\0\0";

// A root entry without attributes, a function with a range and an origin, an entry with an origin
// alone, and one with a name alone.
const ORIGINS: &[u8] = b"\x01\x11\x01\0\0\x02\x2e\0\x11\x01\x12\x0b\x31\x11\0\0\
    \x03\x2e\0\x31\x11\0\0\x04\x2e\0\x03\x08\0\0\0";

// A root entry without attributes, a function with children and a range, an inlined function with
// an origin and a range, an entry with a name alone, and one with an origin alone.
const REFERRING: &[u8] = b"\x01\x11\x01\0\0\x02\x2e\x01\x11\x01\x12\x0b\0\0\
    \x03\x1d\0\x31\x11\x11\x01\x12\x0b\0\0\x04\x2e\0\x03\x08\0\0\x05\x2e\0\x31\x11\0\0\0";

// An entry at 0x0c whose origin is a closing entry, "g" at 0x0e, and functions [0x10, 0x20) with
// inlined functions of both names, "g" first, [0x20, 0x30) with one of the first, and [0x30, 0x40)
// with "g".
const FAULTY_ORIGIN: &[u8] = b"\x31\0\0\0\x04\0\0\0\0\0\x02\x01\x05\x1f\x04g\0\
    \x02\x10\0\x10\x03\x0e\x10\0\x08\x03\x0c\x18\0\x08\0\x02\x20\0\x10\x03\x0c\x20\0\x08\0\
    \x02\x30\0\x10\x03\x0e\x30\0\x08\0\0";

// The bytes of a header and of a root entry without attributes.
const FRONT_LEN: u32 = 12;

// The bytes of a function or of an inlined function in a unit of address size 2.
const RANGE_LEN: u32 = 4;

// Where the first entry begins that an origin leads to.
const FIRST_ORIGIN: u8 = 17;

// The first byte of a name, 0 where there is none.
fn letter(name: Option<&EndianSlice<'_>>) -> u64 {
    match name {
        Some(name) => name.to_slice().first().map_or(0, |byte| u64::from(*byte)),
        None => 0,
    }
}

// The name of an inlined function, where its entry begins, and the line of its call.
fn inlined_code(functions: &Functions<EndianSlice<'_>>, place: Option<usize>) -> [u64; 3] {
    match place.and_then(|place| functions.inlined(place)) {
        Some(inlined) => [
            letter(inlined.name()),
            inlined.dw_die_offset.0,
            u64::from(inlined.call_line),
        ],
        None => [0; 3],
    }
}

// Reads the detail of the function of a place, whose references lead to no other unit.
fn read_at<'a>(
    functions: &mut Functions<EndianSlice<'a>>,
    dwarf: &Dwarf<EndianSlice<'a>>,
    unit: &Unit<EndianSlice<'a>>,
    place: usize,
) -> Result<(), Error>
    requires unit { AreNamesIn (sup_scope (record { sections = dwarf.now; units = [] }))
        unit.now functions.old.names }
    ensures unit { AreNamesIn (sup_scope (record { sections = dwarf.now; units = [] }))
        unit.now functions.new.names }
{
    let file = FileUnits { dwarf, units: None };
    functions.read(Scope { file, sup: None }, unit, place)
}

// What stands at an address: the name of the function, how many functions are inlined there, and
// the innermost of these.
fn answer<'a>(
    alloc: Global,
    functions: &mut Functions<EndianSlice<'a>>,
    dwarf: &Dwarf<EndianSlice<'a>>,
    unit: &Unit<EndianSlice<'a>>,
    probe: u64,
) -> Result<[u64; 5], Error>
    requires unit { AreNamesIn (sup_scope (record { sections = dwarf.now; units = [] }))
        unit.now functions.old.names }
    ensures unit { AreNamesIn (sup_scope (record { sections = dwarf.now; units = [] }))
        unit.now functions.new.names }
{
    let Some(place) = functions.find(probe) else {
        return Ok([0; 5]);
    };
    read_at(functions, dwarf, unit, place)?;
    let chain = functions.find_inlined_functions(alloc, place, probe)?;
    let [a, b, c] = inlined_code(functions, chain.last().copied());
    Ok([letter(functions.name(place)), chain.len() as u64, a, b, c])
}

// The same, and for a refusal its number and its offset.
fn told<'a>(
    alloc: Global,
    functions: &mut Functions<EndianSlice<'a>>,
    dwarf: &Dwarf<EndianSlice<'a>>,
    unit: &Unit<EndianSlice<'a>>,
    probe: u64,
) -> [u64; 5]
    requires unit { AreNamesIn (sup_scope (record { sections = dwarf.now; units = [] }))
        unit.now functions.old.names }
    ensures unit { AreNamesIn (sup_scope (record { sections = dwarf.now; units = [] }))
        unit.now functions.new.names }
{
    match answer(alloc, functions, dwarf, unit, probe) {
        Ok(answer) => answer,
        Err(Error::NoEntryAtGivenOffset(offset)) => [1, offset, 0, 0, 0],
        Err(Error::OffsetOutOfBounds) => [2, 0, 0, 0, 0],
        Err(Error::UnexpectedEof) => [3, 0, 0, 0, 0],
        Err(_) => [4, 0, 0, 0, 0],
    }
}

// The answers at addresses, one after another.
fn answers_by<'a, const N: usize>(
    alloc: Global,
    functions: Functions<EndianSlice<'a>>,
    dwarf: &Dwarf<EndianSlice<'a>>,
    unit: &Unit<EndianSlice<'a>>,
    probes: [u64; N],
) -> [[u64; 5]; N]
    requires unit { AreNamesIn (sup_scope (record { sections = dwarf.now; units = [] }))
        unit.now functions.names }
{
    let mut functions = functions;
    let mut answers = [[0; 5]; N];
    for i in 0..N {
        answers[i] = told(alloc, &mut functions, dwarf, unit, probes[i]);
    }
    answers
}

// The same of a unit; fives where its functions can't be read.
fn answers_in<'a, const N: usize>(
    alloc: Global,
    dwarf: &Dwarf<EndianSlice<'a>>,
    unit: &Unit<EndianSlice<'a>>,
    probes: [u64; N],
) -> [[u64; 5]; N] {
    let file = FileUnits { dwarf, units: None };
    match Functions::parse(alloc, Scope { file, sup: None }, unit) {
        Ok(functions) => answers_by(alloc, functions, dwarf, unit, probes),
        Err(_) => [[5; 5]; N],
    }
}

// The same of sections; fives where the unit can't be read.
fn answers_of<const N: usize>(
    alloc: Global,
    abbrev: &[u8],
    info: &[u8],
    probes: [u64; N],
) -> [[u64; 5]; N] {
    let dwarf = dwarf_of(abbrev, info, &LINE);
    match first_unit(alloc, &dwarf) {
        Ok(unit) => answers_in(alloc, &dwarf, &unit, probes),
        Err(_) => [[5; 5]; N],
    }
}

// The bytes of a unit with one of them changed.
fn changed(place: usize, byte: u8) -> [u8; 71] {
    let mut info = *NAMED_INFO;
    if let Some(changed) = info.get_mut(place) {
        *changed = byte;
    }
    info
}

#[test]
fn a_function_has_its_details(rt: HostRuntime) {
    let cases: [(usize, u8, [u64; 5]); 4] = [
        (0, 0x43, [0x66, 1, 0x67, 0x31, 7]),
        // The origin of the inlined entry is the entry itself, a closing entry, or past the unit.
        (0x32, 0x31, [0x66, 1, 0, 0x31, 7]),
        (0x32, 0x45, [1, 0x45, 0, 0, 0]),
        (0x32, 0x47, [2, 0, 0, 0, 0]),
    ];
    for (place, byte, want) in cases {
        let info = changed(place, byte);
        // Asked twice: a fault is the same again.
        assert_eq!(rt;
            answers_of(rt.alloc(), NAMED, &info, [0x24, 0x24]),
            [want, want]
        );
    }
}

#[test]
fn a_closing_entry_may_be_missing_after_a_function(rt: HostRuntime) {
    let cases: [(&[u8], [u64; 5]); 2] = [
        (OPEN_UNIT, [0x66, 0, 0, 0, 0]),
        (OPEN_FUNCTION, [3, 0, 0, 0, 0]),
    ];
    for (info, want) in cases {
        assert_eq!(rt;
            answers_of(rt.alloc(), NAMED, info, [0x18, 0x18]),
            [want, want]
        );
    }
}

#[test]
fn the_order_of_lookups_shows_in_no_answer(rt: HostRuntime) {
    let f = [0x66, 1, 0x67, 0x31, 7];
    let e = [0x65, 1, 0x67, 0x55, 9];
    let probes = [0x24, 0x44, 0x24, 0x44];
    assert_eq!(rt;
        answers_of(rt.alloc(), NAMED, TWO_FUNCTIONS, probes),
        [f, e, f, e]
    );
    let probes = [0x44, 0x24, 0x44, 0x24];
    assert_eq!(rt;
        answers_of(rt.alloc(), NAMED, TWO_FUNCTIONS, probes),
        [e, f, e, f]
    );
}

#[test]
fn functions_that_refer_to_a_faulty_entry_have_its_fault(rt: HostRuntime) {
    let fault = [1, 0x1f, 0, 0, 0];
    let g = [0, 1, 0x67, 0x2e, 0];
    let cases: [([u64; 4], [[u64; 5]; 4]); 2] = [
        ([0x10, 0x20, 0x30, 0x10], [fault, fault, g, fault]),
        ([0x30, 0x20, 0x10, 0x30], [g, fault, fault, g]),
    ];
    for (probes, want) in cases {
        assert_eq!(rt;
            answers_of(rt.alloc(), REFERRING, FAULTY_ORIGIN, probes),
            want
        );
    }
}

// A header of version 4 and a root entry of code 1, before as many bytes more.
fn front(alloc: Global, address_size: u8, len: u32) -> Result<Vec<u8>, AllocError> {
    let mut info = Vec::new(alloc);
    for byte in len.wrapping_add(FRONT_LEN).wrapping_sub(4).to_le_bytes() {
        info.push(byte)?;
    }
    for byte in [4, 0, 0, 0, 0, 0, address_size, 1] {
        info.push(byte)?;
    }
    Ok(info)
}

// A function [0x10, 0x30) with as many inlined functions, each inside the one before.
fn nested(alloc: Global, count: u32) -> Result<Vec<u8>, AllocError> {
    let entries = count.wrapping_add(1);
    let len = entries.wrapping_mul(RANGE_LEN + 1).wrapping_add(1);
    let mut info = front(alloc, 2, len)?;
    for place in 0..entries {
        for byte in [if place == 0 { 2 } else { 3 }, 0x10, 0, 0x20] {
            info.push(byte)?;
        }
    }
    for _ in 0..entries.wrapping_add(1) {
        info.push(0)?;
    }
    Ok(info)
}

// The inlined functions at 0x18; nines where there is no memory.
fn nested_answer(alloc: Global, count: u32) -> [[u64; 5]; 1] {
    match nested(alloc, count) {
        Ok(info) => answers_of(alloc, NESTED, &info, [0x18]),
        Err(_) => [[9; 5]],
    }
}

#[test]
fn inlined_functions_may_be_nested_deeply(rt: HostRuntime) {
    for (count, innermost) in [(16, 76), (17, 80), (10_000, 40_012)] {
        let want = [0, u64::from(count), 0, innermost, 0];
        assert_eq!(rt; nested_answer(rt.alloc(), count), [want]);
    }
}

// A function [0x10, 0x30) whose origin is the first of as many entries, each the origin of the one
// before; the last alone has a name.
fn origins(alloc: Global, count: u8) -> Result<Vec<u8>, AllocError> {
    let len = u32::from(count).wrapping_mul(2).wrapping_add(7);
    let mut info = front(alloc, 2, len)?;
    for byte in [2, 0x10, 0, 0x20, FIRST_ORIGIN] {
        info.push(byte)?;
    }
    for place in 1..count {
        info.push(3)?;
        info.push(place.wrapping_mul(2).wrapping_add(FIRST_ORIGIN))?;
    }
    for byte in [4, 0x6e, 0, 0] {
        info.push(byte)?;
    }
    Ok(info)
}

// The name of that function; nines where there is no memory.
fn origins_answer(alloc: Global, count: u8) -> [[u64; 5]; 1] {
    match origins(alloc, count) {
        Ok(info) => answers_of(alloc, ORIGINS, &info, [0x18]),
        Err(_) => [[9; 5]],
    }
}

#[test]
fn the_16th_entry_of_a_chain_is_the_last_to_give_a_name(rt: HostRuntime) {
    for (count, name) in [(1, 0x6e), (16, 0x6e), (17, 0)] {
        assert_eq!(rt; origins_answer(rt.alloc(), count), [[name, 0, 0, 0, 0]]);
    }
}
