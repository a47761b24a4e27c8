//! The sections of a file together, and what is read from several of them.

ghost use Rattle.std.specs.Prelude.{◌≡◌, ◌||◌, Ok, OnErr, is_ok, is_some};
ghost use Rattle.gimli.specs.Common.{ExactlyUnlessOomFor, ExactlyUnlessOomIf};
ghost use Rattle.gimli.specs.Split.{split_sections};
ghost use Rattle.gimli.specs.UnitsLeft.{all_headers};

use crate::sections::{
    DebugAbbrev, DebugAddr, DebugAranges, DebugInfo, DebugLine, DebugLineStr, DebugRanges,
    DebugRngLists, DebugStr, DebugStrOffsets,
};
use crate::units::UnitHeaders;
use gimli_read::{Error, Reader};
use std::marker::Model;
use std::rc::Rc;

/// What kind of file sections come from.
#[derive(Clone, Copy, Debug, PartialEq, Eq)]
pub enum DwarfFileType {
    /// A file of its own, or the file that split files belong to.
    Main,
    /// A split file (DWARF 5, section 7.3.2).
    Dwo,
}

/// The sections of a supplementary file, which several files share (DWARF 5, section 7.3.6). Its
/// units, entries and strings are read through a `Dwarf` of duplicates of its sections, without a
/// supplementary file of its own.
#[derive(Drop)]
pub struct SupDwarf<R: Reader> {
    /// `.debug_abbrev`.
    pub debug_abbrev: DebugAbbrev<R>,
    /// `.debug_addr`.
    pub debug_addr: DebugAddr<R>,
    /// `.debug_aranges`.
    pub debug_aranges: DebugAranges<R>,
    /// `.debug_info`.
    pub debug_info: DebugInfo<R>,
    /// `.debug_line`.
    pub debug_line: DebugLine<R>,
    /// `.debug_line_str`.
    pub debug_line_str: DebugLineStr<R>,
    /// `.debug_ranges`.
    pub debug_ranges: DebugRanges<R>,
    /// `.debug_rnglists`.
    pub debug_rnglists: DebugRngLists<R>,
    /// `.debug_str`.
    pub debug_str: DebugStr<R>,
    /// `.debug_str_offsets`.
    pub debug_str_offsets: DebugStrOffsets<R>,
}

impl<R: Reader> Model for SupDwarf<R> {
    ghost use Rattle.gimli.specs.Sections.{SupSections};

    ghost Value = { SupSections };

    ghost view = { λ d. record {
      debug_abbrev = R.section d.debug_abbrev.section;
      debug_addr = R.section d.debug_addr.section;
      debug_aranges = R.section d.debug_aranges.section;
      debug_info = R.section d.debug_info.section;
      debug_line = R.section d.debug_line.section;
      debug_line_str = R.section d.debug_line_str.section;
      debug_ranges = R.section d.debug_ranges.section;
      debug_rnglists = R.section d.debug_rnglists.section;
      debug_str = R.section d.debug_str.section;
      debug_str_offsets = R.section d.debug_str_offsets.section;
    } };
}

/// The sections of a file.
#[derive(Drop)]
pub struct Dwarf<R: Reader> {
    /// `.debug_abbrev`.
    pub debug_abbrev: DebugAbbrev<R>,
    /// `.debug_addr`.
    pub debug_addr: DebugAddr<R>,
    /// `.debug_aranges`.
    pub debug_aranges: DebugAranges<R>,
    /// `.debug_info`.
    pub debug_info: DebugInfo<R>,
    /// `.debug_line`.
    pub debug_line: DebugLine<R>,
    /// `.debug_line_str`.
    pub debug_line_str: DebugLineStr<R>,
    /// `.debug_ranges`.
    pub debug_ranges: DebugRanges<R>,
    /// `.debug_rnglists`.
    pub debug_rnglists: DebugRngLists<R>,
    /// `.debug_str`.
    pub debug_str: DebugStr<R>,
    /// `.debug_str_offsets`.
    pub debug_str_offsets: DebugStrOffsets<R>,
    /// What kind of file they come from.
    pub file_type: DwarfFileType,
    /// The sections of the supplementary file, if the file has one.
    pub sup: Option<Rc<SupDwarf<R>>>,
}

impl<R: Reader> Model for Dwarf<R> {
    ghost use Rattle.std.specs.Prelude.{option_map};
    ghost use Rattle.gimli.specs.Sections.{Sections};

    ghost Value = { Sections };

    ghost view = { λ d. record {
      debug_abbrev = R.section d.debug_abbrev.section;
      debug_addr = R.section d.debug_addr.section;
      debug_aranges = R.section d.debug_aranges.section;
      debug_info = R.section d.debug_info.section;
      debug_line = R.section d.debug_line.section;
      debug_line_str = R.section d.debug_line_str.section;
      debug_ranges = R.section d.debug_ranges.section;
      debug_rnglists = R.section d.debug_rnglists.section;
      debug_str = R.section d.debug_str.section;
      debug_str_offsets = R.section d.debug_str_offsets.section;
      file_type = d.file_type;
      sup = option_map (λ s. s.value) d.sup;
    } };
}

impl<R: Reader> Dwarf<R> {
    /// The headers of the units of `.debug_info`. Refused `OutOfMemory` alone, where bytes are
    /// shared.
    pub fn units(&self) -> Result<UnitHeaders<R>, Error>
        ensures gives { ExactlyUnlessOomFor R.shares is_ok (λ u. u) result
            (Ok (all_headers self.now.debug_info)) }
    {
        Ok(UnitHeaders::new(self.debug_info.section.duplicate()?))
    }

    /// Makes these the sections of a split file of `parent`: what only the main file has is taken
    /// from there, `.debug_addr`, `.debug_ranges` and the supplementary file.
    ///
    /// Refused `OutOfMemory` alone, where bytes are shared or `parent` has a supplementary file;
    /// then nothing is changed. Source: DWARF 5, section 7.3.2.2.
    pub fn make_dwo(&mut self, parent: &Dwarf<R>) -> Result<(), Error>
        ensures gives { ExactlyUnlessOomIf (R.shares || is_some parent.now.sup) (λ _. self.new)
            result (Ok (split_sections self.old parent.now)) }
        ensures refused { OnErr result (self.new ≡ self.old) }
    {
        let debug_addr = parent.debug_addr.section.duplicate()?;
        let debug_ranges = parent.debug_ranges.section.duplicate()?;
        let sup = match &parent.sup {
            Some(sup) => Some(sup.clone()?),
            None => None,
        };
        self.file_type = DwarfFileType::Dwo;
        self.debug_addr = DebugAddr::from(debug_addr);
        self.debug_ranges = DebugRanges::from(debug_ranges);
        self.sup = sup;
        Ok(())
    }
}
