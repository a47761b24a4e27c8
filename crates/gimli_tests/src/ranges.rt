//! Worked cases: range lists of both kinds, and where they begin.

use bytes::Bytes;
use gimli::{
    AttributeValue, DebugAbbrev, DebugAddr, DebugAranges, DebugInfo, DebugLine, DebugLineStr,
    DebugRanges, DebugRngLists, DebugStr, DebugStrOffsets, DwForm, Dwarf, DwarfFileType,
    EndianBytes, EndianSlice, Error, Reader, RngListIter, RunTimeEndian, Unit, UnitRef,
};
use std::alloc::Global;

// A unit without attributes and without children.
const ABBREV: &[u8] = b"\x01\x11\0\0\0\0";

// Units of these versions and address sizes.
const VERSION_2: &[u8] = b"\x08\0\0\0\x02\0\0\0\0\0\x08\x01";

const VERSION_3: &[u8] = b"\x08\0\0\0\x03\0\0\0\0\0\x08\x01";

const VERSION_4: &[u8] = b"\x08\0\0\0\x04\0\0\0\0\0\x04\x01";

const VERSION_5: &[u8] = b"\x09\0\0\0\x05\0\x01\x08\0\0\0\0\x01";

const VERSION_5_SHORT: &[u8] = b"\x09\0\0\0\x05\0\x01\x04\0\0\0\0\x01";

// A unit of version 3 in 64-bit DWARF.
const VERSION_3_LONG: &[u8] = b"\xff\xff\xff\xff\x0c\0\0\0\0\0\0\0\x03\0\0\0\0\0\0\0\0\0\x08\x01";

// Units with the highest byte of each number first.
const VERSION_4_BIG: &[u8] = b"\0\0\0\x08\0\x04\0\0\0\0\x04\x01";

const VERSION_5_BIG: &[u8] = b"\0\0\0\x09\0\x05\x01\x08\0\0\0\0\x01";

// A head of 8 bytes, and the addresses 0x10 and 0x20.
const ADDR: &[u8] = b"headhead\x10\0\0\0\0\0\0\0\x20\0\0\0\0\0\0\0";

// Offsets [0x10, 0x20), the base 0x100, and offsets [0x1, 0x5).
pub const RANGES_32: &[u8] = b"\x10\0\0\0\x20\0\0\0\xff\xff\xff\xff\0\x01\0\0\x01\0\0\0\x05\0\0\0\
    \0\0\0\0\0\0\0\0";

// The same list with the highest byte of each number first.
const RANGES_32_BIG: &[u8] = b"\0\0\0\x10\0\0\0\x20\xff\xff\xff\xff\0\0\x01\0\0\0\0\x01\0\0\0\x05\
    \0\0\0\0\0\0\0\0";

// Offsets [0x10, 0x20), and 8 bytes from 0x100 on.
const RNGLIST: &[u8] = b"\x04\x10\x20\x07\0\x01\0\0\0\0\0\0\x08\0";

// The same list with the highest byte of each number first.
const RNGLIST_BIG: &[u8] = b"\x04\x10\x20\x07\0\0\0\0\0\0\x01\0\x08\0";

// A header, a table of one offset, 4, at 12, and the list.
pub const RNGLISTS: &[u8] =
    b"\x1a\0\0\0\x05\0\x08\0\x01\0\0\0\x04\0\0\0\x04\x10\x20\x07\0\x01\0\0\0\
    \0\0\0\x08\0";

// Forms.
const DATA_4: DwForm = DwForm::DW_FORM_data4;

const DATA_8: DwForm = DwForm::DW_FORM_data8;

const SEC_OFFSET: DwForm = DwForm::DW_FORM_sec_offset;

const RNGLISTX: DwForm = DwForm::DW_FORM_rnglistx;

const UDATA: DwForm = DwForm::DW_FORM_udata;

// The answers of a refusal, which no range of a case begins at.
const OTHER: u64 = 0xdead_0000;

const EOF: u64 = 0xdead_0001;

const OUTSIDE: u64 = 0xdead_0002;

const BAD_LEB: u64 = 0xdead_0003;

const UNKNOWN: u64 = 0xdead_0004;

// Where there is none.
const NONE: u64 = 0xdead_0005;

// What a call answers at the end and after a refusal.
const END: (u64, u64) = (NONE, NONE);

fn fault(error: Error) -> u64 {
    match error {
        Error::UnexpectedEof => EOF,
        Error::OffsetOutOfBounds => OUTSIDE,
        Error::BadLeb128 => BAD_LEB,
        Error::UnknownRangeListEntry => UNKNOWN,
        _ => OTHER,
    }
}

// Sections, of which these are given; beside them a table of addresses.
fn slices<'a>(
    info: &'a [u8],
    ranges: &'a [u8],
    rnglists: &'a [u8],
    order: RunTimeEndian,
    file_type: DwarfFileType,
) -> Dwarf<EndianSlice<'a>> {
    Dwarf {
        debug_abbrev: DebugAbbrev::from(EndianSlice::new(ABBREV, order)),
        debug_addr: DebugAddr::from(EndianSlice::new(ADDR, order)),
        debug_aranges: DebugAranges::from(EndianSlice::new(&[], order)),
        debug_info: DebugInfo::from(EndianSlice::new(info, order)),
        debug_line: DebugLine::from(EndianSlice::new(&[], order)),
        debug_line_str: DebugLineStr::from(EndianSlice::new(&[], order)),
        debug_ranges: DebugRanges::from(EndianSlice::new(ranges, order)),
        debug_rnglists: DebugRngLists::from(EndianSlice::new(rnglists, order)),
        debug_str: DebugStr::from(EndianSlice::new(&[], order)),
        debug_str_offsets: DebugStrOffsets::from(EndianSlice::new(&[], order)),
        file_type,
        sup: None,
    }
}

fn shared(bytes: &'static [u8], order: RunTimeEndian) -> EndianBytes {
    EndianBytes::new(Bytes::from_static(bytes), order)
}

// The same over shared bytes, of a file of its own.
fn counted(
    info: &'static [u8],
    ranges: &'static [u8],
    rnglists: &'static [u8],
    order: RunTimeEndian,
) -> Dwarf<EndianBytes> {
    Dwarf {
        debug_abbrev: DebugAbbrev::from(shared(ABBREV, order)),
        debug_addr: DebugAddr::from(shared(ADDR, order)),
        debug_aranges: DebugAranges::from(shared(&[], order)),
        debug_info: DebugInfo::from(shared(info, order)),
        debug_line: DebugLine::from(shared(&[], order)),
        debug_line_str: DebugLineStr::from(shared(&[], order)),
        debug_ranges: DebugRanges::from(shared(ranges, order)),
        debug_rnglists: DebugRngLists::from(shared(rnglists, order)),
        debug_str: DebugStr::from(shared(&[], order)),
        debug_str_offsets: DebugStrOffsets::from(shared(&[], order)),
        file_type: DwarfFileType::Main,
        sup: None,
    }
}

// The unit, whose base is 0x1000, whose addresses begin at 8 and whose range lists at 12.
fn only_unit<R: Reader>(alloc: Global, dwarf: &Dwarf<R>) -> Result<Unit<R>, Error> {
    let Some(header) = dwarf.units()?.next()? else {
        return Err(Error::MissingUnitDie);
    };
    let mut unit = dwarf.unit(alloc, header)?;
    unit.low_pc = 0x1000;
    unit.addr_base = 8;
    unit.rnglists_base = 12;
    Ok(unit)
}

pub fn next_code<R: Reader>(ranges: &mut RngListIter<'_, R>) -> (u64, u64) {
    match ranges.next() {
        Ok(Some(range)) => (range.begin, range.end),
        Ok(None) => END,
        Err(error) => (fault(error), 0),
    }
}

// What three calls answer of the unit's list at an offset.
fn list_answers<R: Reader>(unit: UnitRef<'_, R>, offset: u64) -> [(u64, u64); 3] {
    match unit.ranges(offset) {
        Ok(mut ranges) => [
            next_code(&mut ranges),
            next_code(&mut ranges),
            next_code(&mut ranges),
        ],
        Err(error) => [(fault(error), 2); 3],
    }
}

fn ranges_code<R: Reader>(alloc: Global, dwarf: &Dwarf<R>, offset: u64) -> [(u64, u64); 3] {
    match only_unit(alloc, dwarf) {
        Ok(unit) => list_answers(UnitRef::new(dwarf, &unit), offset),
        Err(error) => [(fault(error), 1); 3],
    }
}

fn ranges_of<R: Reader>(alloc: Global, dwarf: Dwarf<R>, offset: u64) -> [(u64, u64); 3] {
    ranges_code(alloc, &dwarf, offset)
}

#[test]
fn a_list_of_a_section_gives_its_ranges(rt: HostRuntime) {
    use RunTimeEndian::{Big, Little};
    let both = [(0x1010, 0x1020), (0x101, 0x105), END];
    let newer = [(0x1010, 0x1020), (0x100, 0x108), END];
    let outside = [(OUTSIDE, 2); 3];
    // The list of the other section is of the other kind.
    let cases: [(
        &'static [u8],
        &'static [u8],
        &'static [u8],
        RunTimeEndian,
        u64,
        [(u64, u64); 3],
    ); 9] = [
        (VERSION_4, RANGES_32, RNGLIST, Little, 0, both),
        (VERSION_4_BIG, RANGES_32_BIG, RNGLIST_BIG, Big, 0, both),
        (VERSION_5, RANGES_32, RNGLIST, Little, 0, newer),
        (VERSION_5_BIG, RANGES_32_BIG, RNGLIST_BIG, Big, 0, newer),
        (VERSION_5, &[], RNGLISTS, Little, 16, newer),
        (
            VERSION_4,
            RANGES_32,
            &[],
            Little,
            8,
            [(0x101, 0x105), END, END],
        ),
        (VERSION_4, RANGES_32, &[], Little, 32, [(EOF, 0), END, END]),
        (VERSION_4, RANGES_32, &[], Little, 33, outside),
        (VERSION_5, &[], RNGLIST, Little, 15, outside),
    ];
    for (info, ranges, rnglists, order, offset, want) in cases {
        let found = [
            ranges_of(
                rt.alloc(),
                slices(info, ranges, rnglists, order, DwarfFileType::Main),
                offset,
            ),
            ranges_of(rt.alloc(), counted(info, ranges, rnglists, order), offset),
        ];
        assert_eq!(rt; found, [want, want]);
    }
}

// What three calls answer of the list with which both sections begin.
fn list_code(alloc: Global, info: &[u8], list: &[u8]) -> [(u64, u64); 3] {
    let order = RunTimeEndian::Little;
    ranges_of(
        alloc,
        slices(info, list, list, order, DwarfFileType::Main),
        0,
    )
}

#[test]
fn each_entry_gives_its_range_or_its_fault(rt: HostRuntime) {
    let cases: [(&[u8], [(u64, u64); 3]); 16] = [
        // The base at index 1, and offsets from it.
        (b"\x01\x01\x04\x01\x05\0", [(0x21, 0x25), END, END]),
        // From index 0 to index 1, and 8 bytes from index 1 on.
        (
            b"\x02\0\x01\x03\x01\x08\0",
            [(0x10, 0x20), (0x20, 0x28), END],
        ),
        // The base 0x200, and offsets from it.
        (
            b"\x05\0\x02\0\0\0\0\0\0\x04\x01\x02\0",
            [(0x201, 0x202), END, END],
        ),
        // From 0x300 to 0x310, and offsets of two bytes from the first base.
        (
            b"\x06\0\x03\0\0\0\0\0\0\x10\x03\0\0\0\0\0\0\x04\x80\x01\x90\x02\0",
            [(0x300, 0x310), (0x1080, 0x1110), END],
        ),
        // What follows the end is no entry of the list.
        (b"\0\x04\x10\x20\0", [END, END, END]),
        // An empty and a reversed range.
        (
            b"\x04\x10\x10\x04\x20\x10\x04\x01\x02\0",
            [(0x1001, 0x1002), END, END],
        ),
        // Offsets from all ones, and from all ones less one.
        (
            b"\x05\xff\xff\xff\xff\xff\xff\xff\xff\x04\x03\x10\x05\xfe\xff\xff\xff\xff\xff\xff\xff\
                \x04\x03\x10\0",
            [END, END, END],
        ),
        // From all ones less one to all ones.
        (
            b"\x06\xfe\xff\xff\xff\xff\xff\xff\xff\xff\xff\xff\xff\xff\xff\xff\xff\0",
            [END, END, END],
        ),
        // A length that passes all ones.
        (
            b"\x07\xf0\xff\xff\xff\xff\xff\xff\xff\x20\0",
            [END, END, END],
        ),
        (b"\x04\x10\x20\x09", [(0x1010, 0x1020), (UNKNOWN, 0), END]),
        (b"\x04\x10", [(EOF, 0), END, END]),
        (b"\x04\x10\x20", [(0x1010, 0x1020), (EOF, 0), END]),
        (
            b"\x04\x80\x80\x80\x80\x80\x80\x80\x80\x80\x02\0\0",
            [(BAD_LEB, 0), END, END],
        ),
        // Index 2 is at the section's end, and so is the address of a base that is never used.
        (b"\x02\0\x02\0", [(OUTSIDE, 0), END, END]),
        (b"\x01\x02\0", [(OUTSIDE, 0), END, END]),
        // An entry is read before its indexes are looked up.
        (b"\x02\x02", [(EOF, 0), END, END]),
    ];
    for (list, want) in cases {
        assert_eq!(rt; list_code(rt.alloc(), VERSION_5, list), want);
    }
}

#[test]
fn addresses_are_of_the_size_of_the_unit(rt: HostRuntime) {
    let cases: [(&[u8], &[u8], [(u64, u64); 3]); 6] = [
        // The base 0xfffff000 and offsets past it.
        (
            VERSION_5_SHORT,
            b"\x05\0\xf0\xff\xff\x04\x90\x20\xa0\x20\0",
            [(0x10, 0x20), END, END],
        ),
        // A sum of all ones less one, up to all ones.
        (
            VERSION_5_SHORT,
            b"\x04\xfe\xdf\xff\xff\x0f\xff\xdf\xff\xff\x0f\x04\x01\x02\0",
            [(0x1001, 0x1002), END, END],
        ),
        // Offsets from all ones less one, and the list's end.
        (
            VERSION_4,
            b"\xff\xff\xff\xff\xfe\xff\xff\xff\x03\0\0\0\x10\0\0\0\0\0\0\0\0\0\0\0",
            [END, END, END],
        ),
        (
            VERSION_4,
            &RANGES_32[..12],
            [(0x1010, 0x1020), (EOF, 0), END],
        ),
        (
            VERSION_2,
            b"\x01\0\0\0\0\0\0\0\x02\0\0\0\0\0\0\0\0\0\0\0\0\0\0\0\0\0\0\0\0\0\0\0",
            [(0x1001, 0x1002), END, END],
        ),
        // All ones of four bytes are offsets in eight.
        (
            VERSION_3,
            b"\xff\xff\xff\xff\0\0\0\0\0\0\0\0\x01\0\0\0\0\0\0\0\0\0\0\0\0\0\0\0\0\0\0\0",
            [(0x1_0000_0fff, 0x1_0000_1000), END, END],
        ),
    ];
    for (info, list, want) in cases {
        assert_eq!(rt; list_code(rt.alloc(), info, list), want);
    }
}

// A value of one of these forms.
fn value_of<R>(form: DwForm, number: u32) -> AttributeValue<R> {
    match form {
        DwForm::DW_FORM_data4 => AttributeValue::Data4(number),
        DwForm::DW_FORM_data8 => AttributeValue::Data8(u64::from(number)),
        DwForm::DW_FORM_sec_offset => AttributeValue::SecOffset(u64::from(number)),
        DwForm::DW_FORM_rnglistx => AttributeValue::DebugRngListsIndex(u64::from(number)),
        _ => AttributeValue::Udata(u64::from(number)),
    }
}

fn offset_answer<R: Reader>(unit: UnitRef<'_, R>, value: AttributeValue<R>) -> u64 {
    match unit.attr_ranges_offset(value) {
        Ok(Some(offset)) => offset,
        Ok(None) => NONE,
        Err(error) => fault(error),
    }
}

// The offset that a value stands for in a unit whose range lists begin at a base.
fn offset_code<R: Reader>(
    alloc: Global,
    dwarf: &Dwarf<R>,
    base: u64,
    value: AttributeValue<R>,
) -> u64 {
    match only_unit(alloc, dwarf) {
        Ok(mut unit) => {
            unit.rnglists_base = base;
            offset_answer(UnitRef::new(dwarf, &unit), value)
        }
        Err(error) => fault(error),
    }
}

fn offset_of<R: Reader>(
    alloc: Global,
    dwarf: Dwarf<R>,
    base: u64,
    value: AttributeValue<R>,
) -> u64 {
    offset_code(alloc, &dwarf, base, value)
}

#[test]
fn a_value_of_ranges_stands_for_an_offset(rt: HostRuntime) {
    use DwarfFileType::{Dwo, Main};
    let cases: [(&[u8], DwarfFileType, u64, DwForm, u32, u64); 17] = [
        (VERSION_5, Main, 12, SEC_OFFSET, 4, 4),
        (VERSION_5, Dwo, 12, SEC_OFFSET, 4, 4),
        (VERSION_4, Main, 12, SEC_OFFSET, 4, 4),
        (VERSION_4, Dwo, 12, SEC_OFFSET, 4, 16),
        (VERSION_4, Dwo, u64::MAX, SEC_OFFSET, 4, OUTSIDE),
        // Offset 4 from 12; and the entry at bytes 28 to 31 of 30.
        (VERSION_5, Main, 12, RNGLISTX, 0, 16),
        (VERSION_5, Main, 12, RNGLISTX, 4, OUTSIDE),
        (VERSION_5, Main, u64::MAX, RNGLISTX, 0, OUTSIDE),
        (VERSION_5, Dwo, 12, RNGLISTX, 0, 16),
        // The entry at 12 has eight bytes.
        (VERSION_3_LONG, Main, 12, RNGLISTX, 0, 0x0720_1004_0000_0010),
        (VERSION_3, Main, 12, DATA_4, 5, 5),
        (VERSION_3, Dwo, 12, DATA_4, 5, 17),
        (VERSION_3_LONG, Main, 12, DATA_4, 5, NONE),
        (VERSION_3_LONG, Main, 12, DATA_8, 6, 6),
        (VERSION_3, Main, 12, DATA_8, 6, NONE),
        (VERSION_4, Main, 12, DATA_4, 5, NONE),
        (VERSION_5, Main, 12, UDATA, 4, NONE),
    ];
    for (info, file_type, base, form, number, want) in cases {
        let dwarf = slices(info, &[], RNGLISTS, RunTimeEndian::Little, file_type);
        let value = value_of(form, number);
        assert_eq!(rt; offset_of(rt.alloc(), dwarf, base, value), want);
    }
}
