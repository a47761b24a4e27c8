//! Indexes and packages by hand, from the formats of DWARF 5, section 7.3.5, and of the GNU form.

use crate::{DwarfPackage, UnitIndex};
use gimli::{
    DebugAbbrev, DebugInfo, DebugLine, DebugRngLists, DebugStr, DebugStrOffsets, Dwarf, DwoId,
    EndianSlice, Error, Reader, RunTimeEndian,
};

// The identifiers of two units, which begin at one slot, and three that no unit has: the first ones
// of an empty slot, of the first unit's slot, and of all empty slots.
const FIRST: u64 = 0x1;

const SECOND: u64 = 0x0000_0002_0000_0005;

const AT_EMPTY: u64 = 0x2;

const AT_FIRST: u64 = 0x9;

const ZERO: u64 = 0;

// Four columns, of .debug_info.dwo, .debug_abbrev.dwo, .debug_str_offsets.dwo and
// .debug_rnglists.dwo; two units; four slots: the second unit's, the first one's, and two that are
// empty. Then the offsets and the sizes of both units.
const VERSION_5: &[u8] = b"\x05\0\0\0\x04\0\0\0\x02\0\0\0\x04\0\0\0\
    \x05\0\0\0\x02\0\0\0\x01\0\0\0\0\0\0\0\0\0\0\0\0\0\0\0\0\0\0\0\0\0\0\0\
    \x02\0\0\0\x01\0\0\0\0\0\0\0\0\0\0\0\
    \x01\0\0\0\x03\0\0\0\x06\0\0\0\x08\0\0\0\
    \0\0\0\0\x02\0\0\0\x04\0\0\0\x01\0\0\0\
    \x03\0\0\0\x04\0\0\0\0\0\0\0\0\0\0\0\
    \x03\0\0\0\x02\0\0\0\x04\0\0\0\x02\0\0\0\
    \x05\0\0\0\x01\0\0\0\x04\0\0\0\x01\0\0\0";

// The same with the highest byte of each number first.
const VERSION_5_BIG: &[u8] = b"\0\x05\0\0\0\0\0\x04\0\0\0\x02\0\0\0\x04\
    \0\0\0\x02\0\0\0\x05\0\0\0\0\0\0\0\x01\0\0\0\0\0\0\0\0\0\0\0\0\0\0\0\0\
    \0\0\0\x02\0\0\0\x01\0\0\0\0\0\0\0\0\
    \0\0\0\x01\0\0\0\x03\0\0\0\x06\0\0\0\x08\
    \0\0\0\0\0\0\0\x02\0\0\0\x04\0\0\0\x01\
    \0\0\0\x03\0\0\0\x04\0\0\0\0\0\0\0\0\
    \0\0\0\x03\0\0\0\x02\0\0\0\x04\0\0\0\x02\
    \0\0\0\x05\0\0\0\x01\0\0\0\x04\0\0\0\x01";

// The same in the GNU form, where 8 is the number of another section.
const GNU: &[u8] = b"\x02\0\0\0\x04\0\0\0\x02\0\0\0\x04\0\0\0\
    \x05\0\0\0\x02\0\0\0\x01\0\0\0\0\0\0\0\0\0\0\0\0\0\0\0\0\0\0\0\0\0\0\0\
    \x02\0\0\0\x01\0\0\0\0\0\0\0\0\0\0\0\
    \x01\0\0\0\x03\0\0\0\x06\0\0\0\x08\0\0\0\
    \0\0\0\0\x02\0\0\0\x04\0\0\0\x01\0\0\0\
    \x03\0\0\0\x04\0\0\0\0\0\0\0\0\0\0\0\
    \x03\0\0\0\x02\0\0\0\x04\0\0\0\x02\0\0\0\
    \x05\0\0\0\x01\0\0\0\x04\0\0\0\x01\0\0\0";

// The GNU form with the highest byte of each number first.
const GNU_BIG: &[u8] = b"\0\0\0\x02\0\0\0\x04\0\0\0\x02\0\0\0\x04\
    \0\0\0\x02\0\0\0\x05\0\0\0\0\0\0\0\x01\0\0\0\0\0\0\0\0\0\0\0\0\0\0\0\0\
    \0\0\0\x02\0\0\0\x01\0\0\0\0\0\0\0\0\
    \0\0\0\x01\0\0\0\x03\0\0\0\x06\0\0\0\x08\
    \0\0\0\0\0\0\0\x02\0\0\0\x04\0\0\0\x01\
    \0\0\0\x03\0\0\0\x04\0\0\0\0\0\0\0\0\
    \0\0\0\x03\0\0\0\x02\0\0\0\x04\0\0\0\x02\
    \0\0\0\x05\0\0\0\x01\0\0\0\x04\0\0\0\x01";

// One unit with the identifier 7 in one slot, whose row number is 2.
const PAST_ROWS: &[u8] = b"\x05\0\0\0\0\0\0\0\x01\0\0\0\x01\0\0\0\x07\0\0\0\0\0\0\0\x02\0\0\0";

// Headers alone: no slot; a unit without a slot; three slots; a version of neither form.
const NO_SLOT: &[u8] = b"\x05\0\0\0\0\0\0\0\0\0\0\0\0\0\0\0";

const NO_SLOT_LEFT: &[u8] = b"\x05\0\0\0\0\0\0\0\x01\0\0\0\0\0\0\0";

const THREE_SLOTS: &[u8] = b"\x05\0\0\0\0\0\0\0\0\0\0\0\x03\0\0\0";

const VERSION_3: &[u8] = b"\x03\0\0\0\0\0\0\0\0\0\0\0\0\0\0\0";

const LITTLE: RunTimeEndian = RunTimeEndian::Little;

const BIG: RunTimeEndian = RunTimeEndian::Big;

// Another number for each fault that the cases meet.
fn fault(error: Error) -> u32 {
    match error {
        Error::UnexpectedEof => 1001,
        Error::OffsetOutOfBounds => 1002,
        Error::UnknownVersion => 1003,
        _ => 1004,
    }
}

// The row of an identifier, 0 for none, or why the index is refused.
fn row(bytes: &[u8], order: RunTimeEndian, id: u64) -> u32 {
    match UnitIndex::parse(EndianSlice::new(bytes, order)) {
        Ok(index) => index.find(id).unwrap_or(0),
        Err(error) => fault(error),
    }
}

// The parts of .debug_info.dwo, .debug_abbrev.dwo, .debug_str_offsets.dwo, .debug_rnglists.dwo and
// .debug_line.dwo in a row, or why the index or the row is refused.
fn parts(bytes: &[u8], order: RunTimeEndian, row: u32) -> [u32; 10] {
    let index = match UnitIndex::parse(EndianSlice::new(bytes, order)) {
        Ok(index) => index,
        Err(error) => return [fault(error); 10],
    };
    match index.sections(row) {
        Ok(parts) => [
            parts.debug_info.offset,
            parts.debug_info.size,
            parts.debug_abbrev.offset,
            parts.debug_abbrev.size,
            parts.debug_str_offsets.offset,
            parts.debug_str_offsets.size,
            parts.debug_rnglists.offset,
            parts.debug_rnglists.size,
            parts.debug_line.offset,
            parts.debug_line.size,
        ],
        Err(error) => [fault(error); 10],
    }
}

#[test]
fn rows_are_found_by_identifiers(rt: HostRuntime) {
    for (bytes, order) in [
        (VERSION_5, LITTLE),
        (VERSION_5_BIG, BIG),
        (GNU, LITTLE),
        (GNU_BIG, BIG),
    ] {
        for (id, want) in [
            (FIRST, 1),
            (SECOND, 2),
            (AT_EMPTY, 0),
            (AT_FIRST, 0),
            (ZERO, 0),
        ] {
            assert_eq!(rt; row(bytes, order, id), want, "{id}");
        }
    }
    assert_eq!(rt; row(NO_SLOT, LITTLE, 7), 0);
    assert_eq!(rt; row(PAST_ROWS, LITTLE, 7), 2);
    // Its one slot is full, and has another identifier.
    assert_eq!(rt; row(PAST_ROWS, LITTLE, 8), 0);
}

#[test]
fn rows_name_parts(rt: HostRuntime) {
    let first = [0, 3, 2, 2, 4, 4, 1, 2, 0, 0];
    let second = [3, 5, 4, 1, 0, 4, 0, 1, 0, 0];
    for (bytes, order) in [(VERSION_5, LITTLE), (VERSION_5_BIG, BIG)] {
        assert_eq!(rt; parts(bytes, order, 1), first);
        assert_eq!(rt; parts(bytes, order, 2), second);
    }
    for (bytes, order) in [(GNU, LITTLE), (GNU_BIG, BIG)] {
        assert_eq!(rt; parts(bytes, order, 1), [0, 3, 2, 2, 4, 4, 0, 0, 0, 0]);
        assert_eq!(rt; parts(bytes, order, 2), [3, 5, 4, 1, 0, 4, 0, 0, 0, 0]);
    }
    for row in [0, 3] {
        assert_eq!(rt; parts(VERSION_5, LITTLE, row), [1002; 10]);
    }
    assert_eq!(rt; parts(PAST_ROWS, LITTLE, 2), [1002; 10]);
}

#[test]
fn headers_and_tables_are_whole(rt: HostRuntime) {
    for (bytes, want) in [
        (NO_SLOT_LEFT, 1002),
        (THREE_SLOTS, 1002),
        (VERSION_3, 1003),
        (&VERSION_5[..15], 1001),
        (&VERSION_5[..143], 1001),
        (VERSION_5, 0),
    ] {
        assert_eq!(rt; row(bytes, LITTLE, AT_EMPTY), want);
    }
}

fn slice(bytes: &[u8]) -> EndianSlice<'_> {
    EndianSlice::new(bytes, LITTLE)
}

// What is found of a package of these bytes of .debug_info.dwo: how many bytes the sections of the
// unit have, or 0 for none, or why it is refused.
fn lengths(info: &[u8], id: u64) -> [u64; 6] {
    let cu_index = match UnitIndex::parse(slice(VERSION_5)) {
        Ok(index) => index,
        Err(error) => return [u64::from(fault(error)); 6],
    };
    let package = DwarfPackage {
        cu_index,
        debug_abbrev: DebugAbbrev::from(slice(b"..abc")),
        debug_info: DebugInfo::from(slice(info)),
        debug_line: DebugLine::from(slice(b"")),
        debug_rnglists: DebugRngLists::from(slice(b"rst")),
        debug_str: DebugStr::from(slice(b"s\0")),
        debug_str_offsets: DebugStrOffsets::from(slice(b"01234567")),
    };
    match package.find_cu(DwoId(id)) {
        Ok(Some(dwarf)) => section_lengths(&dwarf),
        Ok(None) => [0; 6],
        Err(error) => [u64::from(fault(error)); 6],
    }
}

// How many bytes sections have, and the first byte of .debug_info.
fn section_lengths(dwarf: &Dwarf<EndianSlice<'_>>) -> [u64; 6] {
    let first = match dwarf.debug_info.section.to_slice().first() {
        Some(byte) => u64::from(*byte),
        None => 0,
    };
    [
        dwarf.debug_info.section.len(),
        dwarf.debug_abbrev.section.len(),
        dwarf.debug_str_offsets.section.len(),
        dwarf.debug_rnglists.section.len(),
        dwarf.debug_str.section.len(),
        first,
    ]
}

#[test]
fn a_unit_has_its_parts(rt: HostRuntime) {
    let info = b"abcABCDE";
    assert_eq!(rt; lengths(info, FIRST), [3, 2, 4, 2, 2, 97]);
    assert_eq!(rt; lengths(info, SECOND), [5, 1, 4, 1, 2, 65]);
    assert_eq!(rt; lengths(info, AT_EMPTY), [0; 6]);
    // The second unit's part ends past the section: that unit alone is refused.
    assert_eq!(rt; lengths(b"abcABCD", FIRST), [3, 2, 4, 2, 2, 97]);
    assert_eq!(rt; lengths(b"abcABCD", SECOND), [1002; 6]);
}
