//! Passing over all entries of all units.

ghost use Rattle.std.specs.Prelude.{◌<◌, length, OnOk};

use crate::mixed;
use gimli::{
    DebugAbbrev, DebugAddr, DebugAranges, DebugInfo, DebugLine, DebugLineStr, DebugRanges,
    DebugRngLists, DebugStr, DebugStrOffsets, Dwarf, DwarfFileType, EntriesRaw, Error, Reader,
    Unit, UnitRef,
};
use std::alloc::Global;

// A section, after its length in eight bytes.
fn section<R: Reader + Drop>(input: &mut R) -> Result<R, Error> {
    let len = input.read_u64()?;
    input.split(len)
}

// The sections of a file of three: abbreviations, line programs and units.
fn sections<R: Reader + Drop>(input: &mut R) -> Result<Dwarf<R>, Error> {
    let debug_abbrev = section(input)?;
    let debug_line = section(input)?;
    let debug_info = section(input)?;
    Ok(Dwarf {
        debug_abbrev: DebugAbbrev::from(debug_abbrev),
        debug_addr: DebugAddr::from(input.split(0)?),
        debug_aranges: DebugAranges::from(input.split(0)?),
        debug_info: DebugInfo::from(debug_info),
        debug_line: DebugLine::from(debug_line),
        debug_line_str: DebugLineStr::from(input.split(0)?),
        debug_ranges: DebugRanges::from(input.split(0)?),
        debug_rnglists: DebugRngLists::from(input.split(0)?),
        debug_str: DebugStr::from(input.split(0)?),
        debug_str_offsets: DebugStrOffsets::from(input.split(0)?),
        file_type: DwarfFileType::Main,
        sup: None,
    })
}

// The checksum with the offset and the tag of the next item, where that is an entry.
#[tactic(auto, using(gimli::proofs::EntryLemmas::abbreviation_takes, gimli_read::proofs::SkipLemmas::attributes_leave))]
fn with_item<R: Reader + Drop>(sum: u64, entries: &mut EntriesRaw<'_, R>) -> Result<u64, Error>
    ensures shorter { OnOk result (length entries.new.cursor.left.bytes
        < length entries.old.cursor.left.bytes) }
{
    let offset = entries.next_offset().0;
    match entries.read_abbreviation()? {
        None => Ok(sum),
        Some(abbreviation) => {
            entries.skip_attributes_of(abbreviation)?;
            Ok(mixed(sum, offset ^ abbreviation.tag().0))
        }
    }
}

// The checksum with the offsets and the tags of a unit's entries.
fn with_entries<R: Reader + Drop>(
    sum: u64,
    dwarf: &Dwarf<R>,
    unit: &Unit<R>,
) -> Result<u64, Error> {
    let mut sum = sum;
    let mut entries = UnitRef::new(dwarf, unit).entries_raw(None)?;
    while !entries.is_empty() {
        sum = with_item(sum, &mut entries)?;
    }
    Ok(sum)
}

/// The checksum of the offsets and the tags of all entries of all units.
pub fn entries_checksum<R: Reader + Drop>(alloc: Global, input: &mut R) -> Result<u64, Error> {
    let dwarf = sections(input)?;
    let mut sum = 0;
    let mut headers = dwarf.units()?;
    while let Some(header) = headers.next()? {
        let unit = dwarf.unit(alloc, header)?;
        sum = with_entries(sum, &dwarf, &unit)?;
    }
    Ok(sum)
}
