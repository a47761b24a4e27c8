//! Asking a caller for the sections of a file.

ghost use Rattle.std.specs.Prelude.{◌≡◌, option_map, IfOk, Result, None};
ghost use Rattle.gimli.specs.Asked.{section_name, dwo_section_name, all_sections, Asked, section_list, sup_section_list, Supplies};
ghost use Rattle.gimli.specs.Sections.{SupSections};
ghost use Rattle.gimli.specs.Common.{OutOfMemory};
ghost use Rattle.std.specs.Result.{result_map_both};
ghost use Rattle.gimli.specs.declared.dwarf.DwarfFileType.TheVariants.{Main};

use crate::dwarf::{Dwarf, DwarfFileType, SupDwarf};
use crate::sections::{
    DebugAbbrev, DebugAddr, DebugAranges, DebugInfo, DebugLine, DebugLineStr, DebugRanges,
    DebugRngLists, DebugStr, DebugStrOffsets,
};
use gimli_read::{Error, Reader};
use std::alloc::Global;
use std::rc::Rc;

/// A section that DWARF is read from (DWARF 5, section 7.5 and appendix B).
#[derive(Clone, Copy, Debug, PartialEq, Eq)]
pub enum SectionId {
    /// `.debug_abbrev`.
    DebugAbbrev,
    /// `.debug_addr`.
    DebugAddr,
    /// `.debug_aranges`.
    DebugAranges,
    /// `.debug_info`.
    DebugInfo,
    /// `.debug_line`.
    DebugLine,
    /// `.debug_line_str`.
    DebugLineStr,
    /// `.debug_ranges`.
    DebugRanges,
    /// `.debug_rnglists`.
    DebugRngLists,
    /// `.debug_str`.
    DebugStr,
    /// `.debug_str_offsets`.
    DebugStrOffsets,
}

impl SectionId {
    /// The name of the section. Takes no memory.
    pub fn name(self) -> &'static str
        ensures gives { result.now ≡ section_name self }
    {
        match self {
            SectionId::DebugAbbrev => ".debug_abbrev",
            SectionId::DebugAddr => ".debug_addr",
            SectionId::DebugAranges => ".debug_aranges",
            SectionId::DebugInfo => ".debug_info",
            SectionId::DebugLine => ".debug_line",
            SectionId::DebugLineStr => ".debug_line_str",
            SectionId::DebugRanges => ".debug_ranges",
            SectionId::DebugRngLists => ".debug_rnglists",
            SectionId::DebugStr => ".debug_str",
            SectionId::DebugStrOffsets => ".debug_str_offsets",
        }
    }

    /// The name of the section in a split file, none where split files don't have it. Takes no
    /// memory. Source: DWARF 5, section 7.3.2.2.
    pub fn dwo_name(self) -> Option<&'static str>
        ensures gives { option_map (λ name. name.now) result ≡ dwo_section_name self }
    {
        match self {
            SectionId::DebugAbbrev => Some(".debug_abbrev.dwo"),
            SectionId::DebugInfo => Some(".debug_info.dwo"),
            SectionId::DebugLine => Some(".debug_line.dwo"),
            SectionId::DebugRngLists => Some(".debug_rnglists.dwo"),
            SectionId::DebugStr => Some(".debug_str.dwo"),
            SectionId::DebugStrOffsets => Some(".debug_str_offsets.dwo"),
            _ => None,
        }
    }
}

impl<R: Reader> SupDwarf<R> {
    // The sections that `f` gives, asked for in the order of their names, up to its first refusal.
    fn load<E, F: FnMut(SectionId) -> Result<R, E>>(mut f: F) -> Result<SupDwarf<R>, E>
        requires { F.IsAlwaysCallable f }
        ensures gives { Asked R.section F.step f all_sections
            (result_map_both sup_section_list (λ e. e) result) }
    {
        Ok(SupDwarf {
            debug_abbrev: DebugAbbrev::from(f(SectionId::DebugAbbrev)?),
            debug_addr: DebugAddr::from(f(SectionId::DebugAddr)?),
            debug_aranges: DebugAranges::from(f(SectionId::DebugAranges)?),
            debug_info: DebugInfo::from(f(SectionId::DebugInfo)?),
            debug_line: DebugLine::from(f(SectionId::DebugLine)?),
            debug_line_str: DebugLineStr::from(f(SectionId::DebugLineStr)?),
            debug_ranges: DebugRanges::from(f(SectionId::DebugRanges)?),
            debug_rnglists: DebugRngLists::from(f(SectionId::DebugRngLists)?),
            debug_str: DebugStr::from(f(SectionId::DebugStr)?),
            debug_str_offsets: DebugStrOffsets::from(f(SectionId::DebugStrOffsets)?),
        })
    }
}

impl<R: Reader> Dwarf<R> {
    /// The sections of a file that `f` gives, asked for in the order of their names. A
    /// section that the file hasn't is an empty reader.
    ///
    /// Refused as `f` first refuses; then it is asked no more. Takes no memory but what `f` takes.
    /// Source: DWARF 5, section 7.5 and appendix B.
    pub fn load<E: From<Error>, F: FnMut(SectionId) -> Result<R, E>>(f: F) -> Result<Dwarf<R>, E>
        requires { F.IsAlwaysCallable f }
        ensures gives { Asked R.section F.step f all_sections
            (result_map_both section_list (λ e. e) result) }
        ensures made { IfOk result (λ d. (d.file_type ≡ Main) × (d.sup ≡ None)) }
    {
        let SupDwarf {
            debug_abbrev,
            debug_addr,
            debug_aranges,
            debug_info,
            debug_line,
            debug_line_str,
            debug_ranges,
            debug_rnglists,
            debug_str,
            debug_str_offsets,
        } = SupDwarf::load(f)?;
        Ok(Dwarf {
            debug_abbrev,
            debug_addr,
            debug_aranges,
            debug_info,
            debug_line,
            debug_line_str,
            debug_ranges,
            debug_rnglists,
            debug_str,
            debug_str_offsets,
            file_type: DwarfFileType::Main,
            sup: None,
        })
    }

    /// Takes the sections of the supplementary file that `f` gives, asked for in the order of their
    /// names. A section that the file hasn't is an empty reader.
    ///
    /// Refused as `f` first refuses; then it is asked no more. Takes memory to share the sections:
    /// where that is refused the answer is made from `OutOfMemory`. Refused, nothing is changed.
    /// Source: DWARF 5, section 7.3.6.
    pub fn load_sup<E: From<Error>, F: FnMut(SectionId) -> Result<R, E>>(
        &mut self,
        alloc: Global,
        f: F,
    ) -> Result<(), E>
        requires { F.IsAlwaysCallable f }
        ensures gives { (loaded : Result SupSections _)
            × Asked R.section F.step f all_sections
            (result_map_both sup_section_list (λ e. e) loaded)
            × Supplies (E.from_gives OutOfMemory) loaded result self.old self.new }
    {
        let sup = SupDwarf::load(f)?;
        match Rc::new(alloc, sup) {
            Ok(sup) => {
                self.sup = Some(sup);
                Ok(())
            }
            Err(_) => Err(E::from(Error::OutOfMemory)),
        }
    }
}
