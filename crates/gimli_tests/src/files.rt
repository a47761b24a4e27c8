//! Worked cases of files together: sections by name, supplementary and split files, address ranges.

use crate::tests::{counted, first_unit, shared, spelled};
use gimli::{
    AttributeValue, DebugAbbrev, DebugAddr, DebugInfoOffset, Dwarf, DwarfFileType, EndianBytes,
    EndianSlice, Error, Reader, RunTimeEndian, SectionId, ToUnitOffset, Unit,
};
use std::alloc::Global;

const ORDER: RunTimeEndian = RunTimeEndian::Little;

// A skeleton unit with DW_AT_stmt_list, DW_AT_comp_dir, DW_AT_dwo_name, DW_AT_low_pc and
// DW_AT_high_pc.
pub const ABBREV: &[u8] = b"\x01\x4a\0\x10\x17\x1b\x08\x76\x08\x11\x01\x12\x06\0\0\0";

// The unit [0x10, 0x30) in "/w" whose entries are in "s.dwo", version 5.
pub const INFO: &[u8] = b"\x2a\0\0\0\x05\0\x04\x08\0\0\0\0\x88\x77\x66\x55\x44\x33\x22\x11\x01\
    \0\0\0\0/w\0s.dwo\0\x10\0\0\0\0\0\0\0\x20\0\0\0";

// A line program of a file "a.c", version 5.
pub const LINE: &[u8] =
    b"\x40\0\0\0\x05\0\x08\0\x24\0\0\0\x01\x01\x01\xfb\x0e\x0d\0\x01\x01\x01\x01\
    \0\0\0\x01\0\0\x01\x01\x01\x08\x01/w\0\x02\x01\x08\x02\x0b\x01a.c\0\0\0\x09\x02\x10\0\0\0\0\0\0\0\
    \x04\0\x01\xf4\x02\x10\0\x01\x01";

// The range [0x10, 0x30) of the unit at 0, and a pair whose sum passes 32 bits.
pub const ARANGES: &[u8] = b"\x24\0\0\0\x02\0\0\0\0\0\x04\0\0\0\0\0\x10\0\0\0\x20\0\0\0\
    \xf0\xff\xff\xff\x20\0\0\0\0\0\0\0\0\0\0\0";

// The bytes of a section of the file.
fn bytes_of(id: SectionId) -> &'static [u8] {
    match id {
        SectionId::DebugAbbrev => ABBREV,
        SectionId::DebugInfo => INFO,
        SectionId::DebugLine => LINE,
        SectionId::DebugAranges => ARANGES,
        SectionId::DebugStr => b"own\0",
        _ => b"",
    }
}

// The bytes of a section of its supplementary file.
fn sup_bytes_of(id: SectionId) -> &'static [u8] {
    match id {
        SectionId::DebugStr => b"x\0sup\0",
        _ => b"",
    }
}

fn slice_of(bytes: &'static [u8]) -> EndianSlice<'static> {
    EndianSlice::new(bytes, ORDER)
}

// Another number for each fault that the cases meet.
fn fault(error: Error) -> u64 {
    match error {
        Error::OutOfMemory => 1001,
        Error::UnexpectedEof => 1002,
        Error::OffsetOutOfBounds => 1003,
        Error::NoSupplementary => 1004,
        Error::UnknownVersion => 1005,
        Error::UnsupportedSegmentSize => 1006,
        _ => 1007,
    }
}

fn string_code<R: Reader>(dwarf: &Dwarf<R>, unit: &Unit<R>, value: AttributeValue<R>) -> u64 {
    match dwarf.attr_string(unit, value) {
        Ok(text) => spelled(text.to_slice()),
        Err(error) => fault(error),
    }
}

// The offset in the unit of an offset in the section, 999 where it is none.
fn offset_code<R: Reader>(unit: &Unit<R>, offset: u64) -> u64 {
    match DebugInfoOffset(offset).to_unit_offset(&unit.header) {
        Some(offset) => offset.0,
        None => 999,
    }
}

// The split name, a supplementary string, and three offsets.
fn names_code<R: Reader>(dwarf: &Dwarf<R>, unit: &Unit<R>) -> [u64; 5] {
    let name = match unit.dwo_name() {
        Ok(Some(value)) => string_code(dwarf, unit, value),
        Ok(None) => 0,
        Err(error) => fault(error),
    };
    [
        name,
        string_code(dwarf, unit, AttributeValue::DebugStrRefSup(2)),
        offset_code(unit, 19),
        offset_code(unit, 20),
        offset_code(unit, 46),
    ]
}

// A unit's low_pc and bases after another unit's were taken over, whose low_pc is 7, whose
// addresses begin at 8 and whose range lists begin at 9.
fn taken_over_code<R: Reader>(unit: &mut Unit<R>, main: &mut Unit<R>) -> [u64; 3] {
    main.low_pc = 7;
    main.addr_base = 8;
    main.rnglists_base = 9;
    unit.copy_relocated_attributes(main);
    [unit.low_pc, unit.addr_base, unit.rnglists_base]
}

// The same of a unit and the file's first unit.
fn bases_code<R: Reader>(alloc: Global, dwarf: &Dwarf<R>, unit: &mut Unit<R>) -> [u64; 3] {
    match first_unit(alloc, dwarf) {
        Ok(mut main) => taken_over_code(unit, &mut main),
        Err(error) => [fault(error); 3],
    }
}

fn unit_code<R: Reader>(alloc: Global, dwarf: &Dwarf<R>, unit: &mut Unit<R>) -> [u64; 8] {
    let [name, sup, before, first, past] = names_code(dwarf, unit);
    let [low_pc, addr_base, rnglists_base] = bases_code(alloc, dwarf, unit);
    [
        name,
        sup,
        before,
        first,
        past,
        low_pc,
        addr_base,
        rnglists_base,
    ]
}

// The names and offsets of the file's first unit, and its bases after they were taken over.
fn unit_answer<R: Reader>(alloc: Global, dwarf: &Dwarf<R>) -> [u64; 8] {
    match first_unit(alloc, dwarf) {
        Ok(mut unit) => unit_code(alloc, dwarf, &mut unit),
        Err(error) => [fault(error); 8],
    }
}

const S_DWO: u64 = 0x1_732e_6477_6f;

fn load_slices() -> Result<Dwarf<EndianSlice<'static>>, Error> {
    Dwarf::load(|id| -> Result<EndianSlice<'_>, Error> { Ok(slice_of(bytes_of(id))) })
}

fn add_slices_sup(alloc: Global, file: &mut Dwarf<EndianSlice<'static>>) -> Result<(), Error> {
    file.load_sup(alloc, |id| -> Result<EndianSlice<'_>, Error> {
        Ok(slice_of(sup_bytes_of(id)))
    })
}

// What the unit of a file says without its supplementary file, and with it.
fn both_units(alloc: Global, file: &mut Dwarf<EndianSlice<'static>>) -> [[u64; 8]; 2] {
    let alone = unit_answer(alloc, file);
    match add_slices_sup(alloc, file) {
        Ok(()) => [alone, unit_answer(alloc, file)],
        Err(error) => [alone, [fault(error); 8]],
    }
}

fn units_of_slices(alloc: Global) -> [[u64; 8]; 2] {
    match load_slices() {
        Ok(mut file) => both_units(alloc, &mut file),
        Err(error) => [[fault(error); 8]; 2],
    }
}

#[test]
fn a_file_has_its_split_name_and_its_supplementary_strings(rt: HostRuntime) {
    let alone = [S_DWO, 1004, 999, 20, 999, 7, 8, 0];
    assert_eq!(rt; units_of_slices(rt.alloc()), [alone, WITH_SUP]);
}

// A section that can't be had refuses the file.
fn refused_code(refused: SectionId) -> u64 {
    let answer: Result<Dwarf<EndianSlice<'_>>, Error> = Dwarf::load(|id| -> Result<
        EndianSlice<'_>,
        Error,
    > {
        if id == refused {
            Err(Error::UnknownVersion)
        } else {
            Ok(slice_of(bytes_of(id)))
        }
    });
    match answer {
        Ok(dwarf) => spelled(dwarf.debug_str.section.to_slice()),
        Err(error) => fault(error),
    }
}

#[test]
fn a_refused_section_refuses_the_file(rt: HostRuntime) {
    let codes = [SectionId::DebugAbbrev, SectionId::DebugStrOffsets].map(refused_code);
    assert_eq!(rt; codes, [1005; 2]);
}

fn kind_code(file_type: DwarfFileType) -> u64 {
    match file_type {
        DwarfFileType::Main => 0,
        DwarfFileType::Dwo => 1,
    }
}

// A string of the supplementary file.
fn sup_code<R: Reader>(alloc: Global, dwarf: &Dwarf<R>) -> u64 {
    match first_unit(alloc, dwarf) {
        Ok(unit) => string_code(dwarf, &unit, AttributeValue::DebugStrRefSup(2)),
        Err(error) => fault(error),
    }
}

// What a split file takes of its parent: its kind, the length of the addresses, and a string of the
// parent's supplementary file.
fn split_code<R: Reader>(alloc: Global, split: &mut Dwarf<R>, parent: &Dwarf<R>) -> [u64; 3] {
    match split.make_dwo(parent) {
        Ok(()) => [
            kind_code(split.file_type),
            split.debug_addr.section.len(),
            sup_code(alloc, split),
        ],
        Err(error) => [fault(error); 3],
    }
}

// The same of a parent with addresses and its supplementary file.
fn split_of(
    alloc: Global,
    split: &mut Dwarf<EndianSlice<'static>>,
    parent: &mut Dwarf<EndianSlice<'static>>,
) -> [u64; 3] {
    parent.debug_addr = DebugAddr::from(slice_of(b"\x01\x02\x03"));
    match add_slices_sup(alloc, parent) {
        Ok(()) => split_code(alloc, split, parent),
        Err(error) => [fault(error); 3],
    }
}

fn split_of_parent(alloc: Global, parent: &mut Dwarf<EndianSlice<'static>>) -> [u64; 3] {
    match load_slices() {
        Ok(mut split) => split_of(alloc, &mut split, parent),
        Err(error) => [fault(error); 3],
    }
}

fn split_of_slices(alloc: Global) -> [u64; 3] {
    match load_slices() {
        Ok(mut parent) => split_of_parent(alloc, &mut parent),
        Err(error) => [fault(error); 3],
    }
}

#[test]
fn a_split_file_takes_its_parents_addresses(rt: HostRuntime) {
    assert_eq!(rt; split_of_slices(rt.alloc()), [1, 3, 0x173_7570]);
}

fn with_abbreviations<R: Reader>(file: Dwarf<R>, abbreviations: R) -> Dwarf<R> {
    let mut file = file;
    file.debug_abbrev = DebugAbbrev::from(abbreviations);
    file
}

// The file over shared bytes.
fn shared_file() -> Dwarf<EndianBytes> {
    with_abbreviations(counted(INFO, LINE, ORDER), shared(ABBREV, ORDER))
}

fn add_shared_sup(alloc: Global, file: &mut Dwarf<EndianBytes>) -> Result<(), Error> {
    file.load_sup(alloc, |id| -> Result<EndianBytes, Error> {
        Ok(shared(sup_bytes_of(id), ORDER))
    })
}

// Adds the supplementary file, and asks for it once more where it was refused; how often it was.
fn add_sup_again(alloc: Global, file: &mut Dwarf<EndianBytes>) -> u64 {
    let mut refused = 0u64;
    for _ in 0..2 {
        if add_shared_sup(alloc, file).is_ok() {
            return refused;
        }
        refused = refused.wrapping_add(1);
    }
    refused
}

const WITH_SUP: [u64; 8] = [S_DWO, 0x173_7570, 999, 20, 999, 7, 8, 0];

const TAKEN: [u64; 3] = [1, 24, 0x173_7570];

// What its unit says, the second answer where the first was refused; and how often that and a
// growth before it were refused.
fn unit_again<R: Reader>(alloc: Global, (file, refused): (Dwarf<R>, u64)) -> ([u64; 8], u64) {
    let first = unit_answer(alloc, &file);
    if first == WITH_SUP {
        (first, refused)
    } else {
        (unit_answer(alloc, &file), refused.wrapping_add(1))
    }
}

// What a split file takes of its parent, in the same way.
fn taken_again<R: Reader>(
    alloc: Global,
    (parent, refused): (Dwarf<R>, u64),
    split: Dwarf<R>,
) -> ([u64; 3], u64) {
    let mut split = split;
    let first = split_code(alloc, &mut split, &parent);
    if first == TAKEN {
        (first, refused)
    } else {
        (
            split_code(alloc, &mut split, &parent),
            refused.wrapping_add(1),
        )
    }
}

// The file over shared bytes with its supplementary file, and how often that was refused.
fn file_with_sup(alloc: Global) -> (Dwarf<EndianBytes>, u64) {
    let mut file = shared_file();
    let refused = add_sup_again(alloc, &mut file);
    (file, refused)
}

// The same of such files.
fn unit_of_shared(alloc: Global) -> ([u64; 8], u64) {
    unit_again(alloc, file_with_sup(alloc))
}

fn taken_of_shared(alloc: Global) -> ([u64; 3], u64) {
    taken_again(alloc, file_with_sup(alloc), shared_file())
}

// A refused growth leaves a file as it was: the same call is granted after it.
#[test]
fn a_refused_growth_leaves_a_file_as_it_was(rt: HostRuntime) {
    assert_eq!(rt; unit_of_shared(rt.alloc()).0, WITH_SUP);
    assert_eq!(rt; taken_of_shared(rt.alloc()).0, TAKEN);
}

#[test]
fn each_growth_of_a_file_is_granted(rt: HostRuntime) {
    assert_eq!(rt; unit_of_shared(rt.alloc()).1, 0);
    assert_eq!(rt; taken_of_shared(rt.alloc()).1, 0);
}

// The unit of the first set and its first two ranges' ends, 0 where there is none, and what stands
// after the set: 0 at the end.
pub fn aranges_code(bytes: &[u8]) -> [u64; 5] {
    let section = gimli::DebugAranges::from(EndianSlice::new(bytes, ORDER));
    let mut sets = section.headers();
    let mut code = [0; 5];
    match sets.next() {
        Ok(Some(set)) => {
            code[0] = set.debug_info_offset().0;
            let mut ranges = set.entries();
            if let Some(range) = ranges.next() {
                code[1] = range.begin;
                code[2] = range.end;
            }
            if let Some(range) = ranges.next() {
                code[3] = range.end;
            }
        }
        Ok(None) => {}
        Err(error) => code[0] = fault(error),
    }
    code[4] = match sets.next() {
        Ok(Some(_)) => 1,
        Ok(None) => 0,
        Err(error) => fault(error),
    };
    code
}

#[test]
fn address_ranges_are_listed_by_sets(rt: HostRuntime) {
    // A segment size of 1, at byte 11.
    let segments: &[u8] = b"\x24\0\0\0\x02\0\0\0\0\0\x04\x01\0\0\0\0\x10\0\0\0\x20\0\0\0\
        \xf0\xff\xff\xff\x20\0\0\0\0\0\0\0\0\0\0\0";
    // Addresses of 8 bytes: 4 bytes of padding, one pair, and a short tail; the unit is at 0x2e.
    let wide: &[u8] =
        b"\x24\0\0\0\x02\0\x2e\0\0\0\x08\0\0\0\0\0\x10\0\0\0\0\0\0\0\x02\0\0\0\0\0\0\0\
        \x01\0\0\0\0\0\0\0";
    let cases: [(&[u8], [u64; 5]); 6] = [
        (ARANGES, [0, 0x10, 0x30, 0, 0]),
        (&ARANGES[..39], [1002, 0, 0, 0, 0]),
        (&[], [0, 0, 0, 0, 0]),
        (segments, [1006, 0, 0, 0, 0]),
        (wide, [0x2e, 0x10, 0x12, 0, 0]),
        (b"\x02\0\0\0\x03\0", [1005, 0, 0, 0, 0]),
    ];
    for (bytes, want) in cases {
        assert_eq!(rt; aranges_code(bytes), want);
    }
}
