//! Units that share abbreviation tables, read through one cache.

use super::{counted, fault, shared, slices};
use gimli::{
    AbbreviationsCache, DebugAbbrev, Dwarf, EndianBytes, EndianSlice, Error, Reader, RunTimeEndian,
    Unit, UnitRef,
};
use std::alloc::Global;

// At 0 a compilation unit with DW_AT_comp_dir and DW_AT_low_pc; at 10 an abbreviation with
// DW_AT_low_pc, and its code again.
const ABBREV: &[u8] = b"\x01\x11\0\x1b\x08\x11\x01\0\0\0\x01\x11\0\x11\x01\0\0\x01";

// Units from 0x10, 0x20, 0x30, 0x40 and 0x50 on in "/w", whose tables are at 0, 10, 0, 10 and 19.
const INFO: &[u8] = b"\x13\0\0\0\x04\0\0\0\0\0\x08\x01/w\0\x10\0\0\0\0\0\0\0\
    \x13\0\0\0\x04\0\x0a\0\0\0\x08\x01/w\0\x20\0\0\0\0\0\0\0\
    \x13\0\0\0\x04\0\0\0\0\0\x08\x01/w\0\x30\0\0\0\0\0\0\0\
    \x13\0\0\0\x04\0\x0a\0\0\0\x08\x01/w\0\x40\0\0\0\0\0\0\0\
    \x13\0\0\0\x04\0\x13\0\0\0\x08\x01/w\0\x50\0\0\0\0\0\0\0";

const ORDER: RunTimeEndian = RunTimeEndian::Little;

// The answer of a repeated code, past all that is compared with it.
const REPEATED: u64 = 1001;

// The answer of an offset outside of the section.
const OUTSIDE: u64 = 1002;

// The address of a unit, and above it the tag of its root.
fn root_code<R: Reader>(dwarf: &Dwarf<R>, unit: &Unit<R>) -> Result<u64, Error> {
    match UnitRef::new(dwarf, unit)
        .entries_raw(None)?
        .read_abbreviation()?
    {
        Some(abbreviation) => Ok(abbreviation.tag().0.wrapping_mul(0x100) | unit.low_pc),
        None => Ok(0),
    }
}

fn unit_code<R: Reader>(dwarf: &Dwarf<R>, answer: Result<Unit<R>, Error>) -> u64 {
    match answer {
        Ok(unit) => root_code(dwarf, &unit).unwrap_or(0),
        Err(Error::BadAbbreviation) => REPEATED,
        Err(Error::OffsetOutOfBounds) => OUTSIDE,
        Err(error) => fault(error),
    }
}

fn cached_codes<R: Reader>(alloc: Global, dwarf: &Dwarf<R>) -> Result<[u64; 5], Error> {
    let mut abbreviations = AbbreviationsCache::new(alloc, dwarf);
    let mut headers = dwarf.units()?;
    let mut codes = [0; 5];
    for code in &mut codes {
        if let Some(header) = headers.next()? {
            *code = unit_code(dwarf, abbreviations.unit(alloc, header));
        }
    }
    Ok(codes)
}

// The five units, read through one cache.
fn units_code<R: Reader>(alloc: Global, dwarf: Dwarf<R>) -> [u64; 5] {
    cached_codes(alloc, &dwarf).unwrap_or([0; 5])
}

fn borrowed_file() -> Dwarf<EndianSlice<'static>> {
    let mut dwarf = slices(INFO, &[], ORDER);
    dwarf.debug_abbrev = DebugAbbrev::from(EndianSlice::new(ABBREV, ORDER));
    dwarf
}

fn shared_file() -> Dwarf<EndianBytes> {
    let mut dwarf = counted(INFO, &[], ORDER);
    dwarf.debug_abbrev = DebugAbbrev::from(shared(ABBREV, ORDER));
    dwarf
}

#[test]
fn units_of_one_table_share_it_or_its_fault(rt: HostRuntime) {
    let found = [
        units_code(rt.alloc(), borrowed_file()),
        units_code(rt.alloc(), shared_file()),
    ];
    let want = [0x1110, REPEATED, 0x1130, REPEATED, OUTSIDE];
    assert_eq!(rt; found, [want; 2]);
}
