//! Worked cases: headers, records, entries, strings and addresses, and refused growths.

pub mod abbreviations;
pub mod nesting;

use bytes::Bytes;
use gimli::{
    AttributeSpecification, AttributeValue, DebugAbbrev, DebugAddr, DebugAranges, DebugInfo,
    DebugLine, DebugLineStr, DebugRanges, DebugRngLists, DebugStr, DebugStrOffsets, Dwarf,
    DwarfFileType, EndianBytes, EndianSlice, EntriesRaw, Error, Format, Reader, RunTimeEndian,
    Unit, UnitHeader, UnitOffset, UnitRef, UnitType,
};
use std::alloc::{AllocError, Global};

// A unit with DW_AT_stmt_list, DW_AT_comp_dir, DW_AT_low_pc and DW_AT_high_pc.
pub const ABBREV: &[u8] = b"\x01\x11\0\x10\x17\x1b\x08\x11\x01\x12\x06\0\0\0";

// The unit [0x10, 0x30) in "/w", version 4.
pub const INFO: &[u8] = b"\x1b\0\0\0\x04\0\0\0\0\0\x08\x01\0\0\0\0/w\0\x10\0\0\0\0\0\0\0\x20\0\0\0";

// The same unit with the highest byte of each number first.
const INFO_BIG: &[u8] = b"\0\0\0\x1b\0\x04\0\0\0\0\x08\x01\0\0\0\0/w\0\0\0\0\0\0\0\0\x10\0\0\0\x20";

// The same unit in 64-bit DWARF.
pub const INFO_64: &[u8] = b"\xff\xff\xff\xff\x23\0\0\0\0\0\0\0\x04\0\0\0\0\0\0\0\0\0\x08\x01\
    \0\0\0\0\0\0\0\0/w\0\x10\0\0\0\0\0\0\0\x20\0\0\0";

// The same, whose length is one of those that are reserved.
const RESERVED: &[u8] = b"\xf0\xff\xff\xff\x23\0\0\0\0\0\0\0\x04\0\0\0\0\0\0\0\0\0\x08\x01\
    \0\0\0\0\0\0\0\0/w\0\x10\0\0\0\0\0\0\0\x20\0\0\0";

// A line program without rows, of a file "a.c".
pub const LINE: &[u8] =
    b"\x33\0\0\0\x04\0\x1b\0\0\0\x01\x01\x01\xfb\x0e\x0d\0\x01\x01\x01\x01\0\0\0\x01\0\0\x01\
    \0a.c\0\0\0\0\0\0\x09\x02\x10\0\0\0\0\0\0\0\x01\xf4\x02\x10\0\x01\x01";

// The same program with the highest byte of each number first.
const LINE_BIG: &[u8] =
    b"\0\0\0\x33\0\x04\0\0\0\x1b\x01\x01\x01\xfb\x0e\x0d\0\x01\x01\x01\x01\0\0\0\x01\0\0\x01\
    \0a.c\0\0\0\0\0\0\x09\x02\0\0\0\0\0\0\0\x10\x01\xf4\x02\x10\0\x01\x01";

// A skeleton unit, version 5, whose header has an identifier.
const SKELETON: &[u8] = b"\x2a\0\0\0\x05\0\x04\x08\0\0\0\0\x88\x77\x66\x55\x44\x33\x22\x11\x01\
    \0\0\0\0/w\0s.dwo\0\x10\0\0\0\0\0\0\0\x20\0\0\0";

// A head of 8 bytes, and the addresses 0x10 and 0x20.
const ADDR: &[u8] = b"headhead\x10\0\0\0\0\0\0\0\x20\0\0\0\0\0\0\0";

// The same addresses with the highest byte of each first.
const ADDR_BIG: &[u8] = b"headhead\0\0\0\0\0\0\0\x10\0\0\0\0\0\0\0\x20";

// A head of 8 bytes, and the offsets 0 and 2.
const STR_OFFSETS: &[u8] = b"headhead\0\0\0\0\x02\0\0\0";

// The same offsets with the highest byte of each first.
const STR_OFFSETS_BIG: &[u8] = b"headhead\0\0\0\0\0\0\0\x02";

// The answers of a refusal, past all that is compared with them.
const OOM: u64 = u64::MAX;

const EOF: u64 = u64::MAX - 1;

const OUTSIDE: u64 = u64::MAX - 2;

const NO_STRING: u64 = u64::MAX - 3;

const NO_SUP: u64 = u64::MAX - 4;

const RESERVED_LENGTH: u64 = u64::MAX - 7;

const OTHER: u64 = u64::MAX - 5;

// Nothing where something might be.
const NONE: u64 = u64::MAX - 6;

pub fn fault(error: Error) -> u64 {
    match error {
        Error::OutOfMemory => OOM,
        Error::UnexpectedEof => EOF,
        Error::OffsetOutOfBounds => OUTSIDE,
        Error::ExpectedString => NO_STRING,
        Error::NoSupplementary => NO_SUP,
        Error::UnknownReservedLength => RESERVED_LENGTH,
        _ => OTHER,
    }
}

// Bytes as a number in base 256, after a 1 that keeps their number.
pub fn spelled(bytes: &[u8]) -> u64 {
    let mut number = 1u64;
    for byte in bytes {
        number = number.wrapping_mul(256).wrapping_add(u64::from(*byte));
    }
    number
}

// The bytes whose numbers are in this order.
fn in_order(order: RunTimeEndian, little: &'static [u8], big: &'static [u8]) -> &'static [u8] {
    match order {
        RunTimeEndian::Little => little,
        RunTimeEndian::Big => big,
    }
}

// Sections, of which these are given; beside them strings, and tables whose entries begin at 8.
pub fn slices<'a>(info: &'a [u8], line: &'a [u8], order: RunTimeEndian) -> Dwarf<EndianSlice<'a>> {
    Dwarf {
        debug_abbrev: DebugAbbrev::from(EndianSlice::new(ABBREV, order)),
        debug_addr: DebugAddr::from(EndianSlice::new(in_order(order, ADDR, ADDR_BIG), order)),
        debug_aranges: DebugAranges::from(EndianSlice::new(&[], order)),
        debug_info: DebugInfo::from(EndianSlice::new(info, order)),
        debug_line: DebugLine::from(EndianSlice::new(line, order)),
        debug_line_str: DebugLineStr::from(EndianSlice::new(b"/w\0", order)),
        debug_ranges: DebugRanges::from(EndianSlice::new(&[], order)),
        debug_rnglists: DebugRngLists::from(EndianSlice::new(&[], order)),
        debug_str: DebugStr::from(EndianSlice::new(b"x\0main\0cut", order)),
        debug_str_offsets: DebugStrOffsets::from(EndianSlice::new(
            in_order(order, STR_OFFSETS, STR_OFFSETS_BIG),
            order,
        )),
        file_type: DwarfFileType::Main,
        sup: None,
    }
}

pub fn shared(bytes: &'static [u8], order: RunTimeEndian) -> EndianBytes {
    EndianBytes::new(Bytes::from_static(bytes), order)
}

// The same over shared bytes.
pub fn counted(
    info: &'static [u8],
    line: &'static [u8],
    order: RunTimeEndian,
) -> Dwarf<EndianBytes> {
    Dwarf {
        debug_abbrev: DebugAbbrev::from(shared(ABBREV, order)),
        debug_addr: DebugAddr::from(shared(in_order(order, ADDR, ADDR_BIG), order)),
        debug_aranges: DebugAranges::from(shared(&[], order)),
        debug_info: DebugInfo::from(shared(info, order)),
        debug_line: DebugLine::from(shared(line, order)),
        debug_line_str: DebugLineStr::from(shared(b"/w\0", order)),
        debug_ranges: DebugRanges::from(shared(&[], order)),
        debug_rnglists: DebugRngLists::from(shared(&[], order)),
        debug_str: DebugStr::from(shared(b"x\0main\0cut", order)),
        debug_str_offsets: DebugStrOffsets::from(shared(
            in_order(order, STR_OFFSETS, STR_OFFSETS_BIG),
            order,
        )),
        file_type: DwarfFileType::Main,
        sup: None,
    }
}

fn copied(alloc: Global, bytes: &[u8], order: RunTimeEndian) -> Result<EndianBytes, AllocError> {
    Ok(EndianBytes::new(Bytes::copy_from_slice(alloc, bytes)?, order))
}

// The same with other units, line programs and strings.
fn holding<R: Reader>(dwarf: Dwarf<R>, info: R, line: R, strings: R) -> Dwarf<R> {
    let mut dwarf = dwarf;
    dwarf.debug_info = DebugInfo::from(info);
    dwarf.debug_line = DebugLine::from(line);
    dwarf.debug_str = DebugStr::from(strings);
    dwarf
}

// The same, where the bytes that strings and line programs are parts of stand in memory of their
// own.
fn held(alloc: Global, order: RunTimeEndian) -> Result<Dwarf<EndianBytes>, AllocError> {
    let info = copied(alloc, INFO, order)?;
    let line = copied(alloc, LINE, order)?;
    let strings = copied(alloc, b"x\0main\0cut", order)?;
    Ok(holding(counted(INFO, LINE, order), info, line, strings))
}

fn type_code(unit_type: UnitType) -> u64 {
    match unit_type {
        UnitType::Compile => 1,
        UnitType::TypeUnit => 2,
        UnitType::Partial => 3,
        UnitType::Skeleton => 4,
        UnitType::SplitCompile => 5,
        UnitType::SplitType => 6,
    }
}

// The version, address size, bytes of an offset, kind and offset of a header.
fn header_code<R: Reader>(header: &UnitHeader<R>) -> [u64; 5] {
    let width = match header.format() {
        Format::Dwarf32 => 4,
        Format::Dwarf64 => 8,
    };
    [
        u64::from(header.version()),
        u64::from(header.address_size()),
        width,
        type_code(header.type_()),
        header.offset().0,
    ]
}

// The first header, and then what a second call answers: NONE at the end.
pub fn headers_code<R: Reader>(dwarf: &Dwarf<R>) -> ([u64; 5], u64) {
    let mut units = match dwarf.units() {
        Ok(units) => units,
        Err(error) => return ([fault(error); 5], 0),
    };
    let first = match units.next() {
        Ok(Some(header)) => header_code(&header),
        Ok(None) => [NONE; 5],
        Err(error) => [fault(error); 5],
    };
    let second = match units.next() {
        Ok(Some(_)) => 1,
        Ok(None) => NONE,
        Err(error) => fault(error),
    };
    (first, second)
}

fn headers_of<R: Reader>(dwarf: Dwarf<R>) -> ([u64; 5], u64) {
    headers_code(&dwarf)
}

#[test]
fn a_header_has_its_fields(rt: HostRuntime) {
    let cases: [(&'static [u8], RunTimeEndian, ([u64; 5], u64)); 7] = [
        (INFO, RunTimeEndian::Little, ([4, 8, 4, 1, 0], NONE)),
        (INFO_BIG, RunTimeEndian::Big, ([4, 8, 4, 1, 0], NONE)),
        (INFO_64, RunTimeEndian::Little, ([4, 8, 8, 1, 0], NONE)),
        (SKELETON, RunTimeEndian::Little, ([5, 8, 4, 4, 0], NONE)),
        (
            RESERVED,
            RunTimeEndian::Little,
            ([RESERVED_LENGTH; 5], NONE),
        ),
        (&INFO[..30], RunTimeEndian::Little, ([EOF; 5], NONE)),
        (&[], RunTimeEndian::Little, ([NONE; 5], NONE)),
    ];
    for (info, order, want) in cases {
        let found = [
            headers_of(slices(info, LINE, order)),
            headers_of(counted(info, LINE, order)),
        ];
        assert_eq!(rt; found, [want, want]);
    }
}

pub fn first_unit<R: Reader>(alloc: Global, dwarf: &Dwarf<R>) -> Result<Unit<R>, Error> {
    match dwarf.units()?.next()? {
        Some(header) => dwarf.unit(alloc, header),
        None => Err(Error::MissingUnitDie),
    }
}

// The directory, low_pc, name, identifier, and whether there is a line program.
pub fn record_code<R: Reader>(alloc: Global, dwarf: &Dwarf<R>) -> [u64; 5] {
    let unit = match first_unit(alloc, dwarf) {
        Ok(unit) => unit,
        Err(error) => return [fault(error); 5],
    };
    let comp_dir = match &unit.comp_dir {
        Some(text) => spelled(text.to_slice()),
        None => NONE,
    };
    let dwo_id = match unit.dwo_id {
        Some(id) => id.0,
        None => NONE,
    };
    [
        comp_dir,
        unit.low_pc,
        u64::from(unit.name.is_some()),
        dwo_id,
        u64::from(unit.line_program.is_some()),
    ]
}

fn record_of<R: Reader>(alloc: Global, dwarf: Dwarf<R>) -> [u64; 5] {
    record_code(alloc, &dwarf)
}

#[test]
fn a_unit_is_what_its_root_says(rt: HostRuntime) {
    let plain = [0x1_2f77, 0x10, 0, NONE, 1];
    // The root's low_pc is read from the bytes of its text, since the abbreviation isn't a
    // skeleton's.
    let skeleton = [0x1_2f77, 0x0010_006f_7764_2e73, 0, 0x1122_3344_5566_7788, 1];
    let cases: [(&'static [u8], &'static [u8], RunTimeEndian, [u64; 5]); 4] = [
        (INFO, LINE, RunTimeEndian::Little, plain),
        (INFO_BIG, LINE_BIG, RunTimeEndian::Big, plain),
        (INFO_64, LINE, RunTimeEndian::Little, plain),
        (SKELETON, LINE, RunTimeEndian::Little, skeleton),
    ];
    for (info, line, order, want) in cases {
        let found = [
            record_of(rt.alloc(), slices(info, line, order)),
            record_of(rt.alloc(), counted(info, line, order)),
        ];
        assert_eq!(rt; found, [want, want]);
    }
}

// The names of the next attributes, by their specifications, at most four.
fn attribute_names<R: Reader>(
    entries: &mut EntriesRaw<'_, R>,
    specifications: &[AttributeSpecification],
) -> Result<[u64; 4], Error> {
    let mut names = [0; 4];
    let mut count = 0;
    for specification in specifications {
        let attribute = entries.read_attribute(*specification)?;
        if count < 4 {
            names[count] = attribute.name().0;
            count += 1;
        }
    }
    Ok(names)
}

// Where the root begins, its tag, its attributes' names, and where it ends.
fn root_code<R: Reader>(entries: &mut EntriesRaw<'_, R>) -> Result<[u64; 7], Error> {
    let start = entries.next_offset().0;
    let Some(abbreviation) = entries.read_abbreviation()? else {
        return Err(Error::MissingUnitDie);
    };
    let [a, b, c, d] = attribute_names(entries, abbreviation.attributes())?;
    let end = if entries.is_empty() {
        entries.next_offset().0
    } else {
        NONE
    };
    Ok([start, abbreviation.tag().0, a, b, c, d, end])
}

fn unit_entries_code<R: Reader>(unit: UnitRef<'_, R>) -> Result<[u64; 7], Error> {
    let mut entries = unit.entries_raw(None)?;
    root_code(&mut entries)
}

fn entries_code<R: Reader>(alloc: Global, dwarf: &Dwarf<R>) -> Result<[u64; 7], Error> {
    let unit = first_unit(alloc, dwarf)?;
    unit_entries_code(UnitRef::new(dwarf, &unit))
}

fn entries_answer<R: Reader>(alloc: Global, dwarf: &Dwarf<R>) -> [u64; 7] {
    match entries_code(alloc, dwarf) {
        Ok(code) => code,
        Err(error) => [fault(error); 7],
    }
}

fn entries_of<R: Reader>(alloc: Global, dwarf: Dwarf<R>) -> [u64; 7] {
    entries_answer(alloc, &dwarf)
}

// What the unit of each byte order answers.
const ENTRIES: [u64; 7] = [11, 0x11, 0x10, 0x1b, 0x11, 0x12, 31];

#[test]
fn entries_are_read_one_by_one(rt: HostRuntime) {
    let cases: [(&'static [u8], &'static [u8], RunTimeEndian, [u64; 7]); 3] = [
        (INFO, LINE, RunTimeEndian::Little, ENTRIES),
        (INFO_BIG, LINE_BIG, RunTimeEndian::Big, ENTRIES),
        (
            INFO_64,
            LINE,
            RunTimeEndian::Little,
            [23, 0x11, 0x10, 0x1b, 0x11, 0x12, 47],
        ),
    ];
    for (info, line, order, want) in cases {
        let found = [
            entries_of(rt.alloc(), slices(info, line, order)),
            entries_of(rt.alloc(), counted(info, line, order)),
        ];
        assert_eq!(rt; found, [want, want]);
    }
}

// Where the entries from five offsets on begin.
fn starts_code<R: Reader>(unit: UnitRef<'_, R>) -> [u64; 5] {
    [
        start_code(unit, 12),
        start_code(unit, 0),
        start_code(unit, 10),
        start_code(unit, 31),
        start_code(unit, u64::MAX),
    ]
}

// Strings by nine values.
fn strings_code<R: Reader>(unit: UnitRef<'_, R>, own: R) -> [u64; 9] {
    [
        string_code(unit, AttributeValue::String(own)),
        string_code(unit, AttributeValue::DebugStrRef(2)),
        string_code(unit, AttributeValue::DebugLineStrRef(0)),
        string_code(unit, AttributeValue::DebugStrOffsetsIndex(1)),
        string_code(unit, AttributeValue::DebugStrRef(7)),
        string_code(unit, AttributeValue::DebugStrRef(11)),
        string_code(unit, AttributeValue::DebugStrOffsetsIndex(2)),
        string_code(unit, AttributeValue::DebugStrRefSup(0)),
        string_code(unit, AttributeValue::Udata(0)),
    ]
}

// Addresses by four indexes.
fn addresses_code<R: Reader>(unit: UnitRef<'_, R>) -> [u64; 4] {
    [
        address_code(unit, 0),
        address_code(unit, 1),
        address_code(unit, 2),
        address_code(unit, u64::MAX),
    ]
}

type Places = ([u64; 5], [u64; 9], [u64; 4]);

// Entries, strings and addresses of the unit.
fn unit_places<R: Reader>(unit: UnitRef<'_, R>, own: R) -> Places {
    (
        starts_code(unit),
        strings_code(unit, own),
        addresses_code(unit),
    )
}

// The same of the first unit, whose offsets of strings and addresses begin at 8.
fn places_code<R: Reader>(alloc: Global, dwarf: &Dwarf<R>, own: R) -> Result<Places, Error> {
    let mut unit = first_unit(alloc, dwarf)?;
    unit.str_offsets_base = 8;
    unit.addr_base = 8;
    Ok(unit_places(UnitRef::new(dwarf, &unit), own))
}

fn address_code<R: Reader>(unit: UnitRef<'_, R>, index: u64) -> u64 {
    match unit.address(index) {
        Ok(address) => address,
        Err(error) => fault(error),
    }
}

fn start_code<R: Reader>(unit: UnitRef<'_, R>, offset: u64) -> u64 {
    match unit.entries_raw(Some(UnitOffset(offset))) {
        Ok(entries) => entries.next_offset().0,
        Err(error) => fault(error),
    }
}

pub fn string_code<R: Reader>(unit: UnitRef<'_, R>, value: AttributeValue<R>) -> u64 {
    match unit.attr_string(value) {
        Ok(text) => spelled(text.to_slice()),
        Err(error) => fault(error),
    }
}

fn places_answer<R: Reader>(alloc: Global, dwarf: &Dwarf<R>, own: R) -> Places {
    match places_code(alloc, dwarf, own) {
        Ok(code) => code,
        Err(error) => {
            let fault = fault(error);
            ([fault; 5], [fault; 9], [fault; 4])
        }
    }
}

// What the unit of each byte order answers.
const PLACES: Places = (
    [12, OUTSIDE, OUTSIDE, OUTSIDE, OUTSIDE],
    [
        0x16f_776e,
        0x1_6d61_696e,
        0x1_2f77,
        0x1_6d61_696e,
        EOF,
        OUTSIDE,
        OUTSIDE,
        NO_SUP,
        NO_STRING,
    ],
    [0x10, 0x20, OUTSIDE, OUTSIDE],
);

// 0 where they are these.
fn places_of<R: Reader>(alloc: Global, dwarf: Dwarf<R>, own: R) -> u64 {
    places_met(places_answer(alloc, &dwarf, own))
}

#[test]
fn strings_addresses_and_offsets_are_found_or_refused(rt: HostRuntime) {
    let cases: [(&'static [u8], &'static [u8], RunTimeEndian); 2] = [
        (INFO, LINE, RunTimeEndian::Little),
        (INFO_BIG, LINE_BIG, RunTimeEndian::Big),
    ];
    for (info, line, order) in cases {
        let slice = EndianSlice::new(b"own", order);
        let found = [
            places_of(rt.alloc(), slices(info, line, order), slice),
            places_of(
                rt.alloc(),
                counted(info, line, order),
                shared(b"own", order),
            ),
        ];
        assert_eq!(rt; found, [0; 2]);
    }
}

// 0 for what is granted, OOM for that in its place, OTHER for any other answer.
fn entries_met(found: [u64; 7]) -> u64 {
    if found == ENTRIES {
        0
    } else if found == [OOM; 7] {
        OOM
    } else {
        OTHER
    }
}

// The same of numbers, of which each may be refused alone.
fn numbers_met(found: &[u64], granted: &[u64]) -> u64 {
    let mut met = 0;
    for (found, granted) in found.iter().zip(granted) {
        if *found == OOM {
            met = OOM;
        } else if found != granted {
            return OTHER;
        }
    }
    met
}

// The same of places.
fn places_met((starts, strings, addresses): Places) -> u64 {
    let met = [
        numbers_met(&starts, &PLACES.0),
        numbers_met(&strings, &PLACES.1),
        numbers_met(&addresses, &PLACES.2),
    ];
    numbers_met(&met, &[0; 3])
}

// The entries and the places, where there is a string of their own.
fn each_of<R: Reader>(alloc: Global, dwarf: Dwarf<R>, own: Result<R, AllocError>) -> [u64; 2] {
    let entries = entries_met(entries_answer(alloc, &dwarf));
    match own {
        Ok(own) => [entries, places_of(alloc, dwarf, own)],
        Err(_) => [entries, OOM],
    }
}

// The same of shared bytes.
fn each_of_shared(alloc: Global, order: RunTimeEndian) -> [u64; 2] {
    match held(alloc, order) {
        Ok(dwarf) => each_of(alloc, dwarf, copied(alloc, b"own", order)),
        Err(_) => [OOM; 2],
    }
}

// The entries of borrowed bytes, and the entries and the places of shared ones.
fn each(alloc: Global) -> [u64; 3] {
    let order = RunTimeEndian::Little;
    let borrowed = entries_met(entries_of(alloc, slices(INFO, LINE, order)));
    let [entries, places] = each_of_shared(alloc, order);
    [borrowed, entries, places]
}

// A refused growth, wherever it is met, is OutOfMemory and changes no answer.
#[test]
fn a_refused_growth_is_out_of_memory(rt: HostRuntime) {
    let [borrowed, entries, places] = each(rt.alloc());
    assert!(rt; borrowed != OTHER && entries != OTHER && places != OTHER);
}

#[test]
fn each_growth_is_granted(rt: HostRuntime) {
    assert_eq!(rt; each(rt.alloc()), [0; 3]);
}
