//! Worked cases: the ranges of addresses that the attributes of a unit's root entry give.

use crate::sections::{dwarf_of, first_unit, little};
use addr2line_lines::read_ranges;
use addr2line_units::attributes::read_unit_attributes;
use gimli::read::{EndianSlice, Error, Range};
use gimli::{DebugRanges, DebugRngLists, Dwarf, UnitRef};
use std::alloc::Global;

// DW_AT_low_pc and DW_AT_high_pc, an address and a size.
const LOW_HIGH: &[u8] = b"\x01\x11\0\x11\x01\x12\x06\0\0\0";

// DW_AT_low_pc, DW_AT_high_pc as an address, and then as a size.
const LOW_HIGH_SIZE: &[u8] = b"\x01\x11\0\x11\x01\x12\x01\x12\x06\0\0\0";

// DW_AT_ranges as a section offset, DW_AT_low_pc, and DW_AT_high_pc as a size.
const RANGES: &[u8] = b"\x01\x11\0\x55\x17\x11\x01\x12\x06\0\0\0";

// DW_AT_ranges as two section offsets, and DW_AT_low_pc.
const RANGES_TWICE: &[u8] = b"\x01\x11\0\x55\x17\x55\x17\x11\x01\0\0\0";

// DW_AT_ranges as a section offset and then as a constant, DW_AT_low_pc, and DW_AT_high_pc as a
// size.
const RANGES_TAKEN_AWAY: &[u8] = b"\x01\x11\0\x55\x17\x55\x0f\x11\x01\x12\x06\0\0\0";

// DW_AT_rnglists_base, DW_AT_low_pc, and DW_AT_ranges as an index.
const RANGES_INDEX: &[u8] = b"\x01\x11\0\x74\x17\x11\x01\x55\x23\0\0\0";

// Offsets [0x10, 0x20), the base 0x100, and offsets [0x1, 0x5); then an empty list, and a list that
// the section's end cuts after [0x10, 0x20).
const LISTS: &[u8] = b"\x10\0\0\0\x20\0\0\0\xff\xff\xff\xff\0\x01\0\0\x01\0\0\0\x05\0\0\0\
    \0\0\0\0\0\0\0\0\0\0\0\0\0\0\0\0\x10\0\0\0\x20\0\0\0\x01";

// A header, a table of one offset, 4, at 12, and offsets [0x10, 0x20) and 8 bytes from 0x100 on.
const RNGLISTS: &[u8] = b"\x1a\0\0\0\x05\0\x08\0\x01\0\0\0\x04\0\0\0\x04\x10\x20\x07\0\x01\0\0\0\
    \0\0\0\x08\0";

// A unit of one entry with a table of abbreviations, and range lists of both kinds.
fn unit_of<'a>(abbrev: &'a [u8], info: &'a [u8]) -> Dwarf<EndianSlice<'a>> {
    let mut dwarf = dwarf_of(abbrev, info, &[]);
    dwarf.debug_ranges = DebugRanges::from(little(LISTS));
    dwarf.debug_rnglists = DebugRngLists::from(little(RNGLISTS));
    dwarf
}

// The begins and ends of the first two ranges, 0 where there is none.
fn first_two(ranges: &[Range]) -> [u64; 4] {
    let mut told = [0; 4];
    for (i, range) in ranges.iter().enumerate().take(2) {
        told[2 * i] = range.begin;
        told[2 * i + 1] = range.end;
    }
    told
}

// The number of a refusal, where the begin of the second range would stand alone.
fn refused(error: Error) -> [u64; 4] {
    match error {
        Error::UnexpectedEof => [0, 0, 1, 0],
        Error::OffsetOutOfBounds => [0, 0, 2, 0],
        _ => [0, 0, 3, 0],
    }
}

// The ranges of the root of a unit.
fn root_ranges(alloc: Global, unit: UnitRef<'_, EndianSlice<'_>>) -> Result<Vec<Range>, Error> {
    read_ranges(alloc, unit, &read_unit_attributes(unit)?.ranges)
}

fn ranges_in(alloc: Global, unit: UnitRef<'_, EndianSlice<'_>>) -> [u64; 4] {
    match root_ranges(alloc, unit) {
        Ok(ranges) => first_two(&ranges),
        Err(error) => refused(error),
    }
}

// The same of the first unit.
fn told(alloc: Global, abbrev: &[u8], info: &[u8]) -> [u64; 4] {
    let dwarf = unit_of(abbrev, info);
    match first_unit(alloc, &dwarf) {
        Ok(unit) => ranges_in(alloc, UnitRef::new(&dwarf, &unit)),
        Err(error) => refused(error),
    }
}

#[test]
fn attributes_give_ranges(rt: HostRuntime) {
    let cases: [(&[u8], &[u8], [u64; 4]); 12] = [
        (
            LOW_HIGH,
            b"\x14\0\0\0\x04\0\0\0\0\0\x08\x01\x10\0\0\0\0\0\0\0\x20\0\0\0",
            [0x10, 0x30, 0, 0],
        ),
        // The sum passes 64 bits: reversed.
        (
            LOW_HIGH,
            b"\x14\0\0\0\x04\0\0\0\0\0\x08\x01\xff\xff\xff\xff\xff\xff\xff\xff\x10\0\0\0",
            [0; 4],
        ),
        // A size of 0: empty.
        (
            LOW_HIGH,
            b"\x14\0\0\0\x04\0\0\0\0\0\x08\x01\x10\0\0\0\0\0\0\0\0\0\0\0",
            [0; 4],
        ),
        // The address counts before the size.
        (
            LOW_HIGH_SIZE,
            b"\x14\0\0\0\x04\0\0\0\0\0\x04\x01\x10\0\0\0\x18\0\0\0\x20\0\0\0",
            [0x10, 0x18, 0, 0],
        ),
        // A list counts before low_pc, which is its base.
        (
            RANGES,
            b"\x14\0\0\0\x04\0\0\0\0\0\x04\x01\0\0\0\0\0\x10\0\0\x20\0\0\0",
            [0x1010, 0x1020, 0x101, 0x105],
        ),
        // An empty list.
        (
            RANGES,
            b"\x14\0\0\0\x04\0\0\0\0\0\x04\x01\x20\0\0\0\0\x10\0\0\x20\0\0\0",
            [0; 4],
        ),
        // A list whose end is missing, and one past the section's end.
        (
            RANGES,
            b"\x14\0\0\0\x04\0\0\0\0\0\x04\x01\x28\0\0\0\0\x10\0\0\x20\0\0\0",
            [0, 0, 1, 0],
        ),
        (
            RANGES,
            b"\x14\0\0\0\x04\0\0\0\0\0\x04\x01\x32\0\0\0\0\x10\0\0\x20\0\0\0",
            [0, 0, 2, 0],
        ),
        // The second list counts, at 0 and at 0x20.
        (
            RANGES_TWICE,
            b"\x14\0\0\0\x04\0\0\0\0\0\x04\x01\x20\0\0\0\0\0\0\0\0\x10\0\0",
            [0x1010, 0x1020, 0x101, 0x105],
        ),
        (
            RANGES_TWICE,
            b"\x14\0\0\0\x04\0\0\0\0\0\x04\x01\0\0\0\0\x20\0\0\0\0\x10\0\0",
            [0; 4],
        ),
        // A constant takes the list away.
        (
            RANGES_TAKEN_AWAY,
            b"\x15\0\0\0\x04\0\0\0\0\0\x04\x01\0\0\0\0\0\0\x10\0\0\x20\0\0\0",
            [0x1000, 0x1020, 0, 0],
        ),
        // Index 0 of the table at 12, version 5.
        (
            RANGES_INDEX,
            b"\x16\0\0\0\x05\0\x01\x08\0\0\0\0\x01\x0c\0\0\0\0\x10\0\0\0\0\0\0\0",
            [0x1010, 0x1020, 0x100, 0x108],
        ),
    ];
    for (abbrev, info, want) in cases {
        assert_eq!(rt; told(rt.alloc(), abbrev, info), want);
    }
}
