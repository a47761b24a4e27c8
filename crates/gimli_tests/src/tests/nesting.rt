//! The items of units: their offsets and depths, passed over by each call.

use super::{EOF, LINE, NONE, fault, first_unit, slices};
use gimli::{
    Abbreviation, DebugAbbrev, Dwarf, EndianSlice, EntriesRaw, Error, Reader, RunTimeEndian,
    UnitRef,
};
use std::alloc::Global;

// A unit, a subprogram with children and one without, and an inlined function.
pub const ABBREV: &[u8] = b"\x01\x11\x01\x10\x17\x1b\x08\x11\x01\x12\x06\0\0\
    \x02\x2e\x01\x03\x08\x11\x01\x12\x06\0\0\
    \x03\x1d\0\x31\x13\x11\x01\x12\x06\x58\x0b\x59\x0b\x57\x0b\0\0\
    \x04\x2e\0\x03\x08\0\0\0";

// The unit: a subprogram, another one with an inlined function inside, and two closing entries.
pub const NESTED: &[u8] = b"\x43\0\0\0\x04\0\0\0\0\0\x08\
    \x01\0\0\0\0/w\0\x10\0\0\0\0\0\0\0\x20\0\0\0\
    \x04g\0\
    \x02f\0\x10\0\0\0\0\0\0\0\x20\0\0\0\
    \x03\x1f\0\0\0\x20\0\0\0\0\0\0\0\x08\0\0\0\x01\x07\0\
    \0\0";

const NESTED_LEN: usize = 0x47;

// How the attributes of an entry are passed over.
#[derive(Clone, Copy, Debug, PartialEq, Eq)]
enum Way {
    BySpecifications,
    ByAbbreviation,
    Reading,
}

fn pass<R: Reader>(
    entries: &mut EntriesRaw<'_, R>,
    abbreviation: &Abbreviation,
    way: Way,
) -> Result<(), Error> {
    match way {
        Way::BySpecifications => entries.skip_attributes(abbreviation.attributes()),
        Way::ByAbbreviation => entries.skip_attributes_of(abbreviation),
        Way::Reading => {
            for specification in abbreviation.attributes() {
                entries.read_attribute(*specification)?;
            }
            Ok(())
        }
    }
}

// Where the next item begins, its depth, and its tag, 0 of a closing entry; the place and depth of
// the unit's end, and NONE.
fn next_item<R: Reader>(entries: &mut EntriesRaw<'_, R>, way: Way) -> Result<[u64; 3], Error> {
    let offset = entries.next_offset().0;
    let depth = entries.next_depth().cast_unsigned() as u64;
    if entries.is_empty() {
        return Ok([offset, depth, NONE]);
    }
    match entries.read_abbreviation()? {
        None => Ok([offset, depth, 0]),
        Some(abbreviation) => {
            pass(entries, abbreviation, way)?;
            Ok([offset, depth, abbreviation.tag().0])
        }
    }
}

// The next item, or the fault, the depth and the place where it stands.
fn item_code<R: Reader>(entries: &mut EntriesRaw<'_, R>, way: Way) -> [u64; 3] {
    match next_item(entries, way) {
        Ok(item) => item,
        Err(error) => [
            fault(error),
            entries.next_depth().cast_unsigned() as u64,
            entries.next_offset().0,
        ],
    }
}

// Seven items, or fewer and then the end or the fault over and over.
fn unit_items<R: Reader>(unit: UnitRef<'_, R>, way: Way) -> Result<[[u64; 3]; 7], Error> {
    let mut entries = unit.entries_raw(None)?;
    let mut rows = [[0; 3]; 7];
    for row in &mut rows {
        *row = item_code(&mut entries, way);
    }
    Ok(rows)
}

fn items<R: Reader>(
    alloc: Global,
    dwarf: Dwarf<R>,
    abbreviations: R,
    way: Way,
) -> Result<[[u64; 3]; 7], Error> {
    let mut dwarf = dwarf;
    dwarf.debug_abbrev = DebugAbbrev::from(abbreviations);
    let unit = first_unit(alloc, &dwarf)?;
    unit_items(UnitRef::new(&dwarf, &unit), way)
}

// How many of the seven items of the first bytes of NESTED, as a unit of that length, aren't these;
// 1000 where the unit can't be read.
fn wrong_items(alloc: Global, len: u8, way: Way, want: &[[u64; 3]; 7]) -> u64 {
    let order = RunTimeEndian::Little;
    let mut info = [0; NESTED_LEN];
    for (byte, nested) in info.iter_mut().zip(NESTED) {
        *byte = *nested;
    }
    info[0] = len.wrapping_sub(4);
    let dwarf = slices(&info[..NESTED_LEN.min(usize::from(len))], LINE, order);
    let Ok(rows) = items(alloc, dwarf, EndianSlice::new(ABBREV, order), way) else {
        return 1000;
    };
    let mut wrong = 0u64;
    for (row, wanted) in rows.iter().zip(want) {
        if row != wanted {
            wrong = wrong.wrapping_add(1);
        }
    }
    wrong
}

// Where the items of NESTED begin, their depths and their tags.
const ROOT: [u64; 3] = [0xb, 0, 0x11];

const FIRST: [u64; 3] = [0x1f, 1, 0x2e];

const SECOND: [u64; 3] = [0x22, 1, 0x2e];

const INLINED: [u64; 3] = [0x31, 2, 0x1d];

const CLOSING: [u64; 3] = [0x45, 2, 0];

const LAST: [u64; 3] = [0x46, 1, 0];

#[test]
fn items_are_nested(rt: HostRuntime) {
    let end = [0x47, 0, NONE];
    let open = [0x46, 1, NONE];
    let inside = [0x45, 2, NONE];
    let missing = [0x44, 2, NONE];
    let cases: [(u8, [[u64; 3]; 7]); 5] = [
        (0x47, [ROOT, FIRST, SECOND, INLINED, CLOSING, LAST, end]),
        (0x46, [ROOT, FIRST, SECOND, INLINED, CLOSING, open, open]),
        (0x45, [ROOT, FIRST, SECOND, INLINED, inside, inside, inside]),
        (
            0x44,
            [
                ROOT,
                FIRST,
                SECOND,
                [EOF, 2, 0x44],
                missing,
                missing,
                missing,
            ],
        ),
        (
            0x32,
            [
                ROOT,
                FIRST,
                SECOND,
                [EOF, 2, 0x32],
                [0x32, 2, NONE],
                [0x32, 2, NONE],
                [0x32, 2, NONE],
            ],
        ),
    ];
    for (len, want) in cases {
        let ways = [
            wrong_items(rt.alloc(), len, Way::BySpecifications, &want),
            wrong_items(rt.alloc(), len, Way::ByAbbreviation, &want),
            wrong_items(rt.alloc(), len, Way::Reading, &want),
        ];
        assert_eq!(rt; ways, [0; 3]);
    }
}

// How many entries stand inside one another.
const LEVELS: u64 = 10_000;

// The depth after the next item, if it is an entry.
fn pass_item<R: Reader>(entries: &mut EntriesRaw<'_, R>) -> Result<Option<isize>, Error> {
    match entries.read_abbreviation()? {
        Some(abbreviation) => {
            entries.skip_attributes_of(abbreviation)?;
            Ok(Some(entries.next_depth()))
        }
        None => Ok(None),
    }
}

// How many items are read, the depth after the entries, and the depth after the closing entries.
fn pass_items<R: Reader>(entries: &mut EntriesRaw<'_, R>) -> Result<[u64; 3], Error> {
    let mut count = 0u64;
    let mut deepest = 0;
    for _ in 0..3 * LEVELS {
        if entries.is_empty() {
            break;
        }
        if let Some(depth) = pass_item(entries)? {
            deepest = depth;
        }
        count = count.wrapping_add(1);
    }
    Ok([
        count,
        deepest.cast_unsigned() as u64,
        entries.next_depth().cast_unsigned() as u64,
    ])
}

fn unit_depths<R: Reader>(unit: UnitRef<'_, R>) -> Result<[u64; 3], Error> {
    let mut entries = unit.entries_raw(None)?;
    pass_items(&mut entries)
}

fn depths<R: Reader>(alloc: Global, dwarf: Dwarf<R>, abbreviations: R) -> Result<[u64; 3], Error> {
    let mut dwarf = dwarf;
    dwarf.debug_abbrev = DebugAbbrev::from(abbreviations);
    let unit = first_unit(alloc, &dwarf)?;
    unit_depths(UnitRef::new(&dwarf, &unit))
}

// The same of a unit of as many entries inside one another, and one closing entry more.
fn deep(alloc: Global) -> Result<[u64; 3], Error> {
    let mut info = Vec::new(alloc);
    // 7 bytes of a header after the length, the entries, and the closing entries.
    for byte in [0x28, 0x4e, 0, 0, 4, 0, 0, 0, 0, 0, 8] {
        info.push(byte)?;
    }
    for _ in 0..LEVELS {
        info.push(1)?;
    }
    for _ in 0..LEVELS + 1 {
        info.push(0)?;
    }
    let order = RunTimeEndian::Little;
    let abbreviations = EndianSlice::new(b"\x01\x11\x01\0\0\0", order);
    depths(alloc, slices(&info, &[], order), abbreviations)
}

#[test]
fn entries_nest_as_deep_as_there_are_bytes(rt: HostRuntime) {
    let found = deep(rt.alloc()).unwrap_or([0; 3]);
    assert_eq!(rt; found, [20_001, 10_000, u64::MAX]);
}
