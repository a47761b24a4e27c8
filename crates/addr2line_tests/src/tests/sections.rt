//! The sections of files, and the contexts over them.

use addr2line::Context;
use addr2line::gimli::read::{EndianBytes, EndianSlice, Error, Reader, RunTimeEndian};
use addr2line::gimli::{
    DebugAbbrev, DebugAddr, DebugAranges, DebugInfo, DebugLine, DebugLineStr, DebugRanges,
    DebugRngLists, DebugStr, DebugStrOffsets, Dwarf, DwarfFileType,
};
use addr2line_lines_tests::sections::little;
use bytes::Bytes;
use std::alloc::Global;
use std::rc::Rc;

/// The sections of a file; the others are empty.
#[derive(Clone, Copy)]
pub struct Sections<'a> {
    pub abbrev: &'a [u8],
    pub info: &'a [u8],
    pub line: &'a [u8],
    pub aranges: &'a [u8],
    pub ranges: &'a [u8],
}

/// Three sections.
pub fn three_sections<'a>(abbrev: &'a [u8], info: &'a [u8], line: &'a [u8]) -> Sections<'a> {
    Sections {
        abbrev,
        info,
        line,
        aranges: &[],
        ranges: &[],
    }
}

/// The sections over borrowed bytes.
pub fn borrowed(sections: Sections<'_>, file_type: DwarfFileType) -> Dwarf<EndianSlice<'_>> {
    Dwarf {
        debug_abbrev: DebugAbbrev::from(little(sections.abbrev)),
        debug_addr: DebugAddr::from(little(&[])),
        debug_aranges: DebugAranges::from(little(sections.aranges)),
        debug_info: DebugInfo::from(little(sections.info)),
        debug_line: DebugLine::from(little(sections.line)),
        debug_line_str: DebugLineStr::from(little(&[])),
        debug_ranges: DebugRanges::from(little(sections.ranges)),
        debug_rnglists: DebugRngLists::from(little(&[])),
        debug_str: DebugStr::from(little(&[])),
        debug_str_offsets: DebugStrOffsets::from(little(&[])),
        file_type,
        sup: None,
    }
}

// A reader of shared bytes in little endian.
fn little_shared(bytes: &'static [u8]) -> EndianBytes {
    EndianBytes::new(Bytes::from_static(bytes), RunTimeEndian::Little)
}

/// The same over shared bytes.
pub fn shared(sections: Sections<'static>, file_type: DwarfFileType) -> Dwarf<EndianBytes> {
    Dwarf {
        debug_abbrev: DebugAbbrev::from(little_shared(sections.abbrev)),
        debug_addr: DebugAddr::from(little_shared(&[])),
        debug_aranges: DebugAranges::from(little_shared(sections.aranges)),
        debug_info: DebugInfo::from(little_shared(sections.info)),
        debug_line: DebugLine::from(little_shared(sections.line)),
        debug_line_str: DebugLineStr::from(little_shared(&[])),
        debug_ranges: DebugRanges::from(little_shared(sections.ranges)),
        debug_rnglists: DebugRngLists::from(little_shared(&[])),
        debug_str: DebugStr::from(little_shared(&[])),
        debug_str_offsets: DebugStrOffsets::from(little_shared(&[])),
        file_type,
        sup: None,
    }
}

/// A context of the sections, each by itself.
pub fn by_sections(
    alloc: Global,
    sections: Sections<'_>,
) -> Result<Context<EndianSlice<'_>>, Error> {
    Context::from_sections(
        alloc,
        DebugAbbrev::from(little(sections.abbrev)),
        DebugAddr::from(little(&[])),
        DebugAranges::from(little(sections.aranges)),
        DebugInfo::from(little(sections.info)),
        DebugLine::from(little(sections.line)),
        DebugLineStr::from(little(&[])),
        DebugRanges::from(little(sections.ranges)),
        DebugRngLists::from(little(&[])),
        DebugStr::from(little(&[])),
        DebugStrOffsets::from(little(&[])),
        little(&[]),
    )
}

/// How a context is made of the sections of a file, and how its calls are made.
#[derive(Clone, Copy)]
pub enum Way {
    /// By `from_dwarf`, and each call by itself.
    Whole,
    /// By `from_arc_dwarf`, of sections in an `Rc`, and each call by itself.
    InRc,
    /// By `from_dwarf`, and all calls by `replay`.
    Replayed,
}

/// A context that is made this way.
pub fn made<R: Reader>(alloc: Global, way: Way, dwarf: Dwarf<R>) -> Result<Context<R>, Error> {
    match way {
        Way::InRc => match Rc::new(alloc, dwarf) {
            Ok(dwarf) => Context::from_arc_dwarf(alloc, dwarf),
            Err(_) => Err(Error::OutOfMemory),
        },
        Way::Whole | Way::Replayed => Context::from_dwarf(alloc, dwarf),
    }
}
