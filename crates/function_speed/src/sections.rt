//! The sections of a file, and its units.

ghost use Rattle.std.specs.Prelude.{IfOk};
ghost use Rattle.addr2line_lines.specs.References.{AreInOrder};

use gimli::{
    DebugAbbrev, DebugAddr, DebugAranges, DebugInfo, DebugLine, DebugLineStr, DebugRanges,
    DebugRngLists, DebugStr, DebugStrOffsets, Dwarf, DwarfFileType, Error, Reader, Unit,
};
use std::alloc::Global;

// A section, after its length in eight bytes.
fn section<R: Reader + Drop>(input: &mut R) -> Result<R, Error> {
    let len = input.read_u64()?;
    input.split(len)
}

/// The sections of a file of nine, which stand in the order of their names.
pub fn read_sections<R: Reader + Drop>(input: &mut R) -> Result<Dwarf<R>, Error> {
    let debug_abbrev = section(input)?;
    let debug_addr = section(input)?;
    let debug_info = section(input)?;
    let debug_line = section(input)?;
    let debug_line_str = section(input)?;
    let debug_ranges = section(input)?;
    let debug_rnglists = section(input)?;
    let debug_str = section(input)?;
    let debug_str_offsets = section(input)?;
    Ok(Dwarf {
        debug_abbrev: DebugAbbrev::from(debug_abbrev),
        debug_addr: DebugAddr::from(debug_addr),
        debug_aranges: DebugAranges::from(input.split(0)?),
        debug_info: DebugInfo::from(debug_info),
        debug_line: DebugLine::from(debug_line),
        debug_line_str: DebugLineStr::from(debug_line_str),
        debug_ranges: DebugRanges::from(debug_ranges),
        debug_rnglists: DebugRngLists::from(debug_rnglists),
        debug_str: DebugStr::from(debug_str),
        debug_str_offsets: DebugStrOffsets::from(debug_str_offsets),
        file_type: DwarfFileType::Main,
        sup: None,
    })
}

/// The units of a file, in the order of `.debug_info`.
pub fn read_units<R: Reader + Drop>(alloc: Global, dwarf: &Dwarf<R>) -> Result<Vec<Unit<R>>, Error>
    ensures made { IfOk result (λ units. AreInOrder units.items) }
{
    let mut units = Vec::new(alloc);
    let mut headers = dwarf.units()?;
    while let Some(header) = headers.next()? {
        units.push(dwarf.unit(alloc, header)?)?;
    }
    Ok(units)
}
