//! Files as sections, read by both readers.

use crate::compared::{Outcome, compare_files};
use addr2line::{Context, UnitToken};
use addr2line_lines_tests::vectors::{LINE_V5, MAIN_INFO, WAITING_ABBREV};
use bytes::Bytes;
use gimli::read::{EndianBytes, EndianSlice, Error, Reader, RunTimeEndian};
use gimli::{
    DebugAbbrev, DebugAddr, DebugAranges, DebugInfo, DebugLine, DebugLineStr, DebugRanges,
    DebugRngLists, DebugStr, DebugStrOffsets, Dwarf, DwarfFileType,
};
use std::alloc::{AllocError, Global};

/// The sections of a file, and those of the split file of its units; the others are empty.
#[derive(Clone, Copy)]
pub struct Sections<'a> {
    /// `.debug_abbrev`.
    pub abbrev: &'a [u8],
    /// `.debug_info`.
    pub info: &'a [u8],
    /// `.debug_line`.
    pub line: &'a [u8],
    /// `.debug_aranges`.
    pub aranges: &'a [u8],
    /// `.debug_ranges`.
    pub ranges: &'a [u8],
    /// `.debug_rnglists`.
    pub rnglists: &'a [u8],
    /// `.debug_abbrev.dwo`.
    pub split_abbrev: &'a [u8],
    /// `.debug_info.dwo`.
    pub split_info: &'a [u8],
}

/// How many sections there are.
pub const SECTIONS: usize = 8;

impl Sections<'static> {
    /// The section of a place among them.
    pub fn section(self, place: usize) -> &'static [u8] {
        match place {
            0 => self.abbrev,
            1 => self.info,
            2 => self.line,
            3 => self.aranges,
            4 => self.ranges,
            5 => self.rnglists,
            6 => self.split_abbrev,
            _ => self.split_info,
        }
    }

    /// These sections with other bytes in the place of one.
    pub fn with<'b>(self, place: usize, bytes: &'b [u8]) -> Sections<'b> {
        Sections {
            abbrev: if place == 0 { bytes } else { self.abbrev },
            info: if place == 1 { bytes } else { self.info },
            line: if place == 2 { bytes } else { self.line },
            aranges: if place == 3 { bytes } else { self.aranges },
            ranges: if place == 4 { bytes } else { self.ranges },
            rnglists: if place == 5 { bytes } else { self.rnglists },
            split_abbrev: if place == 6 { bytes } else { self.split_abbrev },
            split_info: if place == 7 { bytes } else { self.split_info },
        }
    }
}

const ORDER: RunTimeEndian = RunTimeEndian::Little;

fn borrowed(bytes: &[u8]) -> EndianSlice<'_> {
    EndianSlice::new(bytes, ORDER)
}

fn borrowed_main(sections: Sections<'_>) -> Dwarf<EndianSlice<'_>> {
    Dwarf {
        debug_abbrev: DebugAbbrev::from(borrowed(sections.abbrev)),
        debug_addr: DebugAddr::from(borrowed(&[])),
        debug_aranges: DebugAranges::from(borrowed(sections.aranges)),
        debug_info: DebugInfo::from(borrowed(sections.info)),
        debug_line: DebugLine::from(borrowed(sections.line)),
        debug_line_str: DebugLineStr::from(borrowed(&[])),
        debug_ranges: DebugRanges::from(borrowed(sections.ranges)),
        debug_rnglists: DebugRngLists::from(borrowed(sections.rnglists)),
        debug_str: DebugStr::from(borrowed(&[])),
        debug_str_offsets: DebugStrOffsets::from(borrowed(&[])),
        file_type: DwarfFileType::Main,
        sup: None,
    }
}

fn borrowed_split(sections: Sections<'_>) -> Dwarf<EndianSlice<'_>> {
    let main = borrowed_main(Sections {
        abbrev: sections.split_abbrev,
        info: sections.split_info,
        line: &[],
        aranges: &[],
        ranges: &[],
        rnglists: &[],
        split_abbrev: &[],
        split_info: &[],
    });
    Dwarf {
        file_type: DwarfFileType::Dwo,
        ..main
    }
}

// The sections of a file and of its split file, over shared bytes.
#[derive(Drop)]
struct Copies {
    abbrev: EndianBytes,
    info: EndianBytes,
    line: EndianBytes,
    aranges: EndianBytes,
    ranges: EndianBytes,
    rnglists: EndianBytes,
    split_abbrev: EndianBytes,
    split_info: EndianBytes,
}

fn copied(alloc: Global, bytes: &[u8]) -> Result<EndianBytes, AllocError> {
    Ok(EndianBytes::new(Bytes::copy_from_slice(alloc, bytes)?, ORDER))
}

fn copy_all(alloc: Global, sections: Sections<'_>) -> Result<Copies, AllocError> {
    Ok(Copies {
        abbrev: copied(alloc, sections.abbrev)?,
        info: copied(alloc, sections.info)?,
        line: copied(alloc, sections.line)?,
        aranges: copied(alloc, sections.aranges)?,
        ranges: copied(alloc, sections.ranges)?,
        rnglists: copied(alloc, sections.rnglists)?,
        split_abbrev: copied(alloc, sections.split_abbrev)?,
        split_info: copied(alloc, sections.split_info)?,
    })
}

fn empty() -> EndianBytes {
    EndianBytes::new(Bytes::from_static(&[]), ORDER)
}

// A file of two sections.
fn two_sections(abbrev: EndianBytes, info: EndianBytes) -> Dwarf<EndianBytes> {
    Dwarf {
        debug_abbrev: DebugAbbrev::from(abbrev),
        debug_addr: DebugAddr::from(empty()),
        debug_aranges: DebugAranges::from(empty()),
        debug_info: DebugInfo::from(info),
        debug_line: DebugLine::from(empty()),
        debug_line_str: DebugLineStr::from(empty()),
        debug_ranges: DebugRanges::from(empty()),
        debug_rnglists: DebugRngLists::from(empty()),
        debug_str: DebugStr::from(empty()),
        debug_str_offsets: DebugStrOffsets::from(empty()),
        file_type: DwarfFileType::Dwo,
        sup: None,
    }
}

fn shared_files(copies: Copies) -> (Dwarf<EndianBytes>, Dwarf<EndianBytes>) {
    let Copies {
        abbrev,
        info,
        line,
        aranges,
        ranges,
        rnglists,
        split_abbrev,
        split_info,
    } = copies;
    let mut main = two_sections(abbrev, info);
    main.debug_line = DebugLine::from(line);
    main.debug_aranges = DebugAranges::from(aranges);
    main.debug_ranges = DebugRanges::from(ranges);
    main.debug_rnglists = DebugRngLists::from(rnglists);
    main.file_type = DwarfFileType::Main;
    (main, two_sections(split_abbrev, split_info))
}

fn compare_borrowed(alloc: Global, sections: Sections<'_>, tokens: &[UnitToken]) -> Outcome {
    let main = borrowed_main(sections);
    compare_files(alloc, main, borrowed_split(sections), tokens)
}

fn compare_copies(alloc: Global, copies: Copies, tokens: &[UnitToken]) -> Outcome {
    let (main, split) = shared_files(copies);
    compare_files(alloc, main, split, tokens)
}

fn compare_shared(alloc: Global, sections: Sections<'_>, tokens: &[UnitToken]) -> Outcome {
    match copy_all(alloc, sections) {
        Ok(copies) => compare_copies(alloc, copies, tokens),
        Err(_) => Outcome::OutOfMemory,
    }
}

/// What the comparison comes to over borrowed and over shared bytes.
pub fn compare(alloc: Global, sections: Sections<'_>, tokens: &[UnitToken]) -> [Outcome; 2] {
    [
        compare_borrowed(alloc, sections, tokens),
        compare_shared(alloc, sections, tokens),
    ]
}

fn tokens_in(alloc: Global, info: &[u8]) -> Result<Vec<UnitToken>, Error> {
    let dwarf = borrowed_main(Sections {
        abbrev: WAITING_ABBREV,
        info,
        line: &LINE_V5,
        aranges: &[],
        ranges: &[],
        rnglists: &[],
        split_abbrev: &[],
        split_info: &[],
    });
    let mut context = Context::from_dwarf(alloc, dwarf)?;
    let mut tokens = Vec::new(alloc);
    for load in &context.preload_units(0x18)? {
        tokens.push(load.unit)?;
    }
    Ok(tokens)
}

/// The tokens of the units 0, 1 and 2, as a context of three units names them that wait for split
/// files.
pub fn tokens(alloc: Global) -> Result<Vec<UnitToken>, Error> {
    let mut info = Vec::new(alloc);
    for _ in 0..3 {
        info.extend_from_slice(MAIN_INFO)?;
    }
    tokens_in(alloc, info.as_slice())
}
