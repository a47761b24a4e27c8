//! The sections of one unit, and its lines, locations and faults as numbers.

use crate::vectors::ABBREV;
use addr2line_lines::{Lines, Location};
use gimli::read::{EndianSlice, Error, Reader, RunTimeEndian};
use gimli::{
    DebugAbbrev, DebugAddr, DebugAranges, DebugInfo, DebugLine, DebugLineStr, DebugRanges,
    DebugRngLists, DebugStr, DebugStrOffsets, Dwarf, DwarfFileType, Unit,
};
use std::alloc::Global;

/// A reader of bytes in little endian.
pub fn little(bytes: &[u8]) -> EndianSlice<'_> {
    EndianSlice::new(bytes, RunTimeEndian::Little)
}

/// The sections, of which all but three are empty.
pub fn dwarf_of<'a>(abbrev: &'a [u8], info: &'a [u8], line: &'a [u8]) -> Dwarf<EndianSlice<'a>> {
    Dwarf {
        debug_abbrev: DebugAbbrev::from(little(abbrev)),
        debug_addr: DebugAddr::from(little(&[])),
        debug_aranges: DebugAranges::from(little(&[])),
        debug_info: DebugInfo::from(little(info)),
        debug_line: DebugLine::from(little(line)),
        debug_line_str: DebugLineStr::from(little(&[])),
        debug_ranges: DebugRanges::from(little(&[])),
        debug_rnglists: DebugRngLists::from(little(&[])),
        debug_str: DebugStr::from(little(&[])),
        debug_str_offsets: DebugStrOffsets::from(little(&[])),
        file_type: DwarfFileType::Main,
        sup: None,
    }
}

/// The first unit.
pub fn first_unit<R: Reader>(alloc: Global, dwarf: &Dwarf<R>) -> Result<Unit<R>, Error> {
    match dwarf.units()?.next()? {
        Some(header) => dwarf.unit(alloc, header),
        None => Err(Error::MissingUnitDie),
    }
}

/// The lines of the first unit of these sections.
pub fn lines_in(alloc: Global, abbrev: &[u8], info: &[u8], line: &[u8]) -> Result<Lines, Error> {
    let dwarf = dwarf_of(abbrev, info, line);
    match first_unit(alloc, &dwarf) {
        Ok(unit) => Lines::parse(alloc, &dwarf, &unit),
        Err(error) => Err(error),
    }
}

/// The lines of the unit with this program.
pub fn lines_of(alloc: Global, info: &[u8], line: &[u8]) -> Result<Lines, Error> {
    lines_in(alloc, &ABBREV, info, line)
}

/// A fault as a number above those of locations.
pub fn fault_code(error: Error) -> u32 {
    match error {
        Error::UnexpectedEof => 9_000_000,
        Error::OutOfMemory => 9_100_000,
        Error::UnknownReservedLength => 9_200_000,
        Error::UnsupportedSegmentSize => 9_300_000,
        Error::OffsetOutOfBounds => 9_400_000,
        Error::UnknownToken => 9_500_000,
        Error::UnknownAbbreviation => 9_600_000,
        _ => 8_000_000,
    }
}

/// A location as a number: a million for "/w/a.c", two for no file, three for another, four for
/// "/v/a.c"; a thousand for each line, and the column, 999 for none.
pub fn location_code(location: Location<'_>) -> u32 {
    let file = match location.file {
        Some("/w/a.c") => 1_000_000,
        Some("/v/a.c") => 4_000_000,
        None => 2_000_000,
        Some(_) => 3_000_000,
    };
    let line = location.line.unwrap_or(0).min(900) * 1_000;
    file + line + location.column.unwrap_or(999).min(999)
}
