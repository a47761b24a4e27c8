//! Worked cases: the functions of a unit, and which of them counts at an address.

use crate::sections::{dwarf_of, first_unit, little};
use crate::vectors::{LINE, LIST, NAMED, NAMED_INFO};
use addr2line_lines::{FileUnits, FunctionAddress, Functions, Scope, Segments};
use gimli::read::{EndianSlice, Error, Range};
use gimli::{DebugRanges, Dwarf, Unit};
use std::alloc::Global;

// "f" begins at the greatest address and has 0x10 of them: the sum wraps.
const WRAPPED_INFO: &[u8] = b"\x43\0\0\0\x04\0\0\0\0\0\x08\x01\0\0\0\0\x2f\x77\0\x10\0\0\0\0\0\0\0\
    \x20\0\0\0\x04\x67\0\x02\x66\0\xff\xff\xff\xff\xff\xff\xff\xff\x10\0\0\0\x03\x1f\0\0\0\x20\0\0\0\
    \0\0\0\0\x08\0\0\0\x01\x07\0\0\0";

// A root entry without attributes, and functions with DW_AT_low_pc and DW_AT_high_pc.
const PLAIN: &[u8] = b"\x01\x11\x01\0\0\x02\x2e\0\x11\x01\x12\x06\0\0\0";

// [0x10, 0x30) at 0xc, and [0x20, 0x28) at 0x19.
const NESTED_INFO: &[u8] = b"\x23\0\0\0\x04\0\0\0\0\0\x08\x01\x02\x10\0\0\0\0\0\0\0\x20\0\0\0\
    \x02\x20\0\0\0\0\0\0\0\x08\0\0\0\0";

// [0x10, 0x20) at 0xc and at 0x19.
const EQUAL_INFO: &[u8] = b"\x23\0\0\0\x04\0\0\0\0\0\x08\x01\x02\x10\0\0\0\0\0\0\0\x10\0\0\0\
    \x02\x10\0\0\0\0\0\0\0\x10\0\0\0\0";

// A root entry without attributes, a function with DW_AT_ranges, and one with DW_AT_low_pc and
// DW_AT_high_pc.
const LISTED: &[u8] = b"\x01\x11\x01\0\0\x02\x2e\0\x55\x17\0\0\x03\x2e\0\x11\x01\x12\x0b\0\0\0";

// The ranges of a list at 0xc, and [45, 60) at 0x11.
const LISTED_INFO: &[u8] = b"\x12\0\0\0\x04\0\0\0\0\0\x02\x01\x02\0\0\0\0\x03\x2d\0\x0f\0";

// Where the function at an address begins, 0 where there is none.
fn offset_at(functions: &Functions<EndianSlice<'_>>, probe: u64) -> u64 {
    match functions.find(probe) {
        Some(place) => functions.offset(place).map_or(0, |offset| offset.0),
        None => 0,
    }
}

// Where the functions at three addresses begin, 0 where there is none; a refusal's number.
fn functions_in<'a>(
    alloc: Global,
    dwarf: &Dwarf<EndianSlice<'a>>,
    unit: &Unit<EndianSlice<'a>>,
    probes: [u64; 3],
) -> [u64; 3] {
    let file = FileUnits { dwarf, units: None };
    match Functions::parse(alloc, Scope { file, sup: None }, unit) {
        Ok(functions) => probes.map(|probe| offset_at(&functions, probe)),
        Err(error) => refused(error),
    }
}

fn refused(error: Error) -> [u64; 3] {
    match error {
        Error::UnknownAbbreviation => [1, 0, 1],
        _ => [2, 0, 2],
    }
}

// The same of sections.
fn told(alloc: Global, abbrev: &[u8], info: &[u8], probes: [u64; 3]) -> [u64; 3] {
    let mut dwarf = dwarf_of(abbrev, info, &LINE);
    dwarf.debug_ranges = DebugRanges::from(little(&LIST));
    match first_unit(alloc, &dwarf) {
        Ok(unit) => functions_in(alloc, &dwarf, &unit, probes),
        Err(error) => refused(error),
    }
}

#[test]
fn the_function_of_an_address_is_found(rt: HostRuntime) {
    let cases: [(&[u8], &[u8], [u64; 3], [u64; 3]); 6] = [
        (NAMED, NAMED_INFO, [0xf, 0x24, 0x30], [0, 0x22, 0]),
        (NAMED, WRAPPED_INFO, [0xf, 0x24, u64::MAX], [0; 3]),
        // The table lacks the code of the first entry.
        (&NAMED[..24], NAMED_INFO, [0xf, 0x24, 0x30], [1, 0, 1]),
        (PLAIN, NESTED_INFO, [0x24, 0x2a, 0x30], [0x19, 0xc, 0]),
        (PLAIN, EQUAL_INFO, [0x10, 0x1f, 0x20], [0xc, 0xc, 0]),
        (LISTED, LISTED_INFO, [47, 52, 60], [0xc, 0x11, 0xc]),
    ];
    for (abbrev, info, probes, want) in cases {
        assert_eq!(rt; told(rt.alloc(), abbrev, info, probes), want);
    }
}

// The functions at three addresses, 9 where there is none, 99 where no memory is left.
fn shortest_at(alloc: Global, ranges: &[(u64, u64, usize)], probes: [u64; 3]) -> [usize; 3] {
    let mut addresses = Vec::new(alloc);
    for (begin, end, function) in ranges {
        let range = Range {
            begin: *begin,
            end: *end,
        };
        let function = *function;
        if addresses.push(FunctionAddress { range, function }).is_err() {
            return [99; 3];
        }
    }
    match Segments::new(alloc, addresses) {
        Ok(segments) => probes.map(|probe| segments.find(probe).unwrap_or(9)),
        Err(_) => [99; 3],
    }
}

#[test]
fn the_shortest_range_counts(rt: HostRuntime) {
    let cases: [(&[(u64, u64, usize)], [u64; 3], [usize; 3]); 4] = [
        (
            &[(0x10, 0x30, 0), (0x20, 0x28, 1)],
            [0x24, 0x2a, 0x30],
            [1, 0, 9],
        ),
        (
            &[(0x10, 0x20, 1), (0x10, 0x20, 0)],
            [0xf, 0x10, 0x1f],
            [9, 0, 0],
        ),
        (
            &[(0, 100, 0), (40, 50, 0), (45, 60, 1)],
            [47, 52, 60],
            [0, 1, 0],
        ),
        (&[], [0, 1, u64::MAX], [9, 9, 9]),
    ];
    for (ranges, probes, want) in cases {
        assert_eq!(rt; shortest_at(rt.alloc(), ranges, probes), want);
    }
}
