//! A package: the sections of split units by their identifiers (DWARF 5, section 7.3.5).

ghost use Rattle.std.specs.Prelude.{◌≡◌, true, is_ok, Ok};
ghost use Rattle.package.specs.Common.{ExactlyUnlessOomFor, gives_some};
ghost use Rattle.package.specs.Package.{are_within, is_within, part_bytes, sections_by_id, sections_in_row, unit_sections};
ghost use Rattle.package.specs.UnitBytes.{as_five, as_four, four_nothings, unit_bytes};

use crate::unit_index::{NOTHING, SectionPart, UnitIndex, UnitSections};
use gimli::{
    DebugAbbrev, DebugAddr, DebugAranges, DebugInfo, DebugLine, DebugLineStr, DebugRanges,
    DebugRngLists, DebugStr, DebugStrOffsets, Dwarf, DwarfFileType, DwoId, Error, Reader,
};
use std::marker::Model;

/// A package of split files, `.dwp`. A section that it hasn't is an empty reader.
#[derive(Drop)]
pub struct DwarfPackage<R: Reader> {
    /// `.debug_cu_index`.
    pub cu_index: UnitIndex<R>,
    /// `.debug_abbrev.dwo`.
    pub debug_abbrev: DebugAbbrev<R>,
    /// `.debug_info.dwo`.
    pub debug_info: DebugInfo<R>,
    /// `.debug_line.dwo`.
    pub debug_line: DebugLine<R>,
    /// `.debug_rnglists.dwo`.
    pub debug_rnglists: DebugRngLists<R>,
    /// `.debug_str.dwo`, which all units share.
    pub debug_str: DebugStr<R>,
    /// `.debug_str_offsets.dwo`.
    pub debug_str_offsets: DebugStrOffsets<R>,
}

impl<R: Reader> Model for DwarfPackage<R> {
    ghost use Rattle.package.specs.Package.{Package};

    ghost Value = { Package };

    ghost view = { λ p. record {
      cu_index = p.cu_index;
      debug_abbrev = R.section p.debug_abbrev.section;
      debug_info = R.section p.debug_info.section;
      debug_line = R.section p.debug_line.section;
      debug_rnglists = R.section p.debug_rnglists.section;
      debug_str = R.section p.debug_str.section;
      debug_str_offsets = R.section p.debug_str_offsets.section;
    } };
}

// Whether a part is within a section.
fn is_within<R: Reader>(section: &R, part: SectionPart) -> bool
    ensures gives { result ≡ is_within part (R.section section.now) }
{
    u64::from(part.offset) + u64::from(part.size) <= section.len()
}

// The bytes of a part.
fn read_part<R: Reader>(section: &R, part: SectionPart) -> Result<R, Error>
    requires within { is_within part (R.section section.now) ≡ true }
    ensures gives { ExactlyUnlessOomFor R.shares is_ok R.section result
        (Ok (part_bytes part (R.section section.now))) }
{
    let mut rest = section.duplicate()?;
    rest.skip(u64::from(part.offset))?;
    rest.split(u64::from(part.size))
}

// No bytes, in the order of a section, four times.
fn read_nothings<R: Reader>(section: &R) -> Result<(R, R, R, R), Error>
    ensures gives { ExactlyUnlessOomFor R.shares is_ok (as_four R.section) result
        (Ok (four_nothings (R.section section.now))) }
{
    Ok((
        read_part(section, NOTHING)?,
        read_part(section, NOTHING)?,
        read_part(section, NOTHING)?,
        read_part(section, NOTHING)?,
    ))
}

impl<R: Reader> DwarfPackage<R> {
    // Whether the parts of a unit are within the sections.
    fn has(&self, parts: UnitSections) -> bool
        ensures gives { result ≡ are_within parts self.now }
    {
        is_within(&self.debug_abbrev.section, parts.debug_abbrev)
            && is_within(&self.debug_info.section, parts.debug_info)
            && is_within(&self.debug_line.section, parts.debug_line)
            && is_within(&self.debug_rnglists.section, parts.debug_rnglists)
            && is_within(&self.debug_str_offsets.section, parts.debug_str_offsets)
    }

    // The bytes of the parts of a unit, in the order of the sections' names.
    fn read_parts(&self, parts: UnitSections) -> Result<(R, R, R, R, R), Error>
        requires within { are_within parts self.now ≡ true }
        ensures gives { ExactlyUnlessOomFor R.shares is_ok (as_five R.section) result
            (Ok (unit_bytes parts self.now)) }
    {
        Ok((
            read_part(&self.debug_abbrev.section, parts.debug_abbrev)?,
            read_part(&self.debug_info.section, parts.debug_info)?,
            read_part(&self.debug_line.section, parts.debug_line)?,
            read_part(&self.debug_rnglists.section, parts.debug_rnglists)?,
            read_part(&self.debug_str_offsets.section, parts.debug_str_offsets)?,
        ))
    }

    // The sections of a unit with these parts.
    fn read_sections(&self, parts: UnitSections) -> Result<Dwarf<R>, Error>
        requires within { are_within parts self.now ≡ true }
        ensures gives { ExactlyUnlessOomFor R.shares is_ok (λ d. d) result
            (Ok (unit_sections self.now parts)) }
    {
        let (debug_abbrev, debug_info, debug_line, debug_rnglists, debug_str_offsets) =
            self.read_parts(parts)?;
        let strings = &self.debug_str.section;
        let (debug_addr, debug_aranges, debug_line_str, debug_ranges) = read_nothings(strings)?;
        Ok(Dwarf {
            debug_abbrev: DebugAbbrev::from(debug_abbrev),
            debug_addr: DebugAddr::from(debug_addr),
            debug_aranges: DebugAranges::from(debug_aranges),
            debug_info: DebugInfo::from(debug_info),
            debug_line: DebugLine::from(debug_line),
            debug_line_str: DebugLineStr::from(debug_line_str),
            debug_ranges: DebugRanges::from(debug_ranges),
            debug_rnglists: DebugRngLists::from(debug_rnglists),
            debug_str: DebugStr::from(strings.duplicate()?),
            debug_str_offsets: DebugStrOffsets::from(debug_str_offsets),
            file_type: DwarfFileType::Dwo,
            sup: None,
        })
    }

    // The sections of the unit of a row, counted from 1.
    #[tactic(auto, unfolding(crate::specs::Package::sections_in_row))]
    fn sections_in_row(&self, row: u32) -> Result<Dwarf<R>, Error>
        ensures gives { ExactlyUnlessOomFor R.shares is_ok (λ d. d) result
            (sections_in_row self.now row) }
    {
        let parts = self.cu_index.sections(row)?;
        if !self.has(parts) {
            return Err(Error::OffsetOutOfBounds);
        }
        self.read_sections(parts)
    }

    /// The sections of the split unit that has an identifier, as those of a split file; none where
    /// the index hasn't the identifier. They are parts of the package's sections, and all of its
    /// strings; `.debug_rnglists.dwo` only by an index of version 5. The other sections are empty,
    /// and there is no supplementary file.
    ///
    /// Refused `OffsetOutOfBounds` where the identifier's row is none of the index, or a part isn't
    /// wholly in its section; else `OutOfMemory` where there is such a unit and bytes are shared.
    /// Source: DWARF 5, sections 7.3.2 and 7.3.5.
    pub fn find_cu(&self, id: DwoId) -> Result<Option<Dwarf<R>>, Error>
        ensures gives { ExactlyUnlessOomFor R.shares gives_some (λ d. d) result
            (sections_by_id self.now id.0) }
    {
        match self.cu_index.find(id.0) {
            Some(row) => Ok(Some(self.sections_in_row(row)?)),
            None => Ok(None),
        }
    }
}
