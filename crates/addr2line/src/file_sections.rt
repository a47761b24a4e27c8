//! ELF files, and their sections that DWARF is read from.

ghost use Rattle.std.specs.Prelude.{◌≡◌, [], Err, IfErr, option_map};
ghost use Rattle.addr2line.specs.Common.{NotElf, LoadsUnlessOom, object_file_of};
ghost use Rattle.elf.specs.FileImage.{image_bytes};
ghost use Rattle.addr2line.specs.FileSections.{as_file, section_by, sections_by};

use crate::compressed::CompressedSections;
use bytes::Bytes;
use elf::{ElfFile, FileImage, LoaderError};
use gimli::read::{EndianBytes, Reader, RunTimeEndian};
use gimli::{
    DebugAbbrev, DebugAddr, DebugAranges, DebugInfo, DebugLine, DebugLineStr, DebugRanges,
    DebugRngLists, DebugStr, DebugStrOffsets, Dwarf, DwarfFileType, SectionId, SupDwarf,
};
use std::alloc::Global;
use std::rc::Rc;

// The ELF file that bytes are. Byte 5 of them gives their order, whatever is given here.
pub(crate) fn parse_bytes(alloc: Global, bytes: Bytes) -> Result<ElfFile, LoaderError>
    ensures gives { LoadsUnlessOom (λ f. f) result (object_file_of bytes) }
    ensures refused { IfErr (object_file_of bytes) (λ e. result ≡ Err e) }
{
    ElfFile::parse(alloc, EndianBytes::new(bytes, RunTimeEndian::Little))
}

// The ELF file of which pieces were read.
pub(crate) fn parse_image(alloc: Global, file: FileImage) -> Result<ElfFile, LoaderError>
    ensures gives { LoadsUnlessOom (λ f. f) result (object_file_of (image_bytes file)) }
    ensures empty { image_bytes file ≡ [] → result ≡ Err NotElf }
{
    ElfFile::parse_image(alloc, file)
}

// What gives the sections of a file, main or split. It gives them as any reader, since a function
// that owns shared bytes lets go of them in many steps on each way out.
pub(crate) trait SectionSource<R: Reader> {
    ghost use Rattle.gimli_read.specs.Section.{Section};
    ghost use Rattle.gimli.specs.declared.load.SectionId.{SectionId};
    ghost use Rattle.elf.specs.Loading.{Loading, LoadsUnlessOom};

    // The section of a name, or the fault.
    ghost given: { Self → SectionId → Loading Section };

    // Reads the section of a name.
    fn section(&self, id: SectionId) -> Result<R, LoaderError>
        ensures gives { LoadsUnlessOom R.section result (given self.now id) };
}

// A file whose sections are read, and what becomes of those that are compressed.
#[derive(Clone, Copy)]
pub(crate) struct OpenFile<'a> {
    pub(crate) alloc: Global,
    pub(crate) compressed: CompressedSections,
    pub(crate) object: &'a ElfFile,
}

impl OpenFile<'_> {
    // The section of a name.
    fn named(&self, name: &str) -> Result<EndianBytes, LoaderError>
        ensures gives { LoadsUnlessOom (λ b. b) result
            (section_by self.now.compressed name.now self.now.object.now) }
    {
        match self.compressed {
            CompressedSections::Refused => self.object.section(name),
            CompressedSections::Decompressed => self.object.decompressed_section(self.alloc, name),
        }
    }
}

// A file that isn't split.
#[derive(Clone, Copy)]
pub(crate) struct MainFile<'a>(pub(crate) OpenFile<'a>);

impl SectionSource<EndianBytes> for MainFile<'_> {
    ghost use Rattle.addr2line.specs.FileSections.{main_section};

    ghost given = { λ s id. main_section s.0.compressed s.0.object.now id };

    fn section(&self, id: SectionId) -> Result<EndianBytes, LoaderError> {
        self.0.named(id.name())
    }
}

// A split file.
#[derive(Clone, Copy)]
pub(crate) struct SplitFile<'a>(pub(crate) OpenFile<'a>);

impl SectionSource<EndianBytes> for SplitFile<'_> {
    ghost use Rattle.addr2line.specs.FileSections.{split_section};

    ghost given = { λ s id. split_section s.0.compressed s.0.object.now id };

    fn section(&self, id: SectionId) -> Result<EndianBytes, LoaderError> {
        match id.dwo_name() {
            Some(name) => self.0.named(name),
            None => Ok(EndianBytes::new(Bytes::new(), RunTimeEndian::Little)),
        }
    }
}

// The sections of a file, in the order of their names.
pub(crate) fn read_sections<R: Reader, S: SectionSource<R>>(
    file: &S,
) -> Result<SupDwarf<R>, LoaderError>
    ensures gives { LoadsUnlessOom (λ d. d) result (sections_by (S.given file.now)) }
{
    Ok(SupDwarf {
        debug_abbrev: DebugAbbrev::from(file.section(SectionId::DebugAbbrev)?),
        debug_addr: DebugAddr::from(file.section(SectionId::DebugAddr)?),
        debug_aranges: DebugAranges::from(file.section(SectionId::DebugAranges)?),
        debug_info: DebugInfo::from(file.section(SectionId::DebugInfo)?),
        debug_line: DebugLine::from(file.section(SectionId::DebugLine)?),
        debug_line_str: DebugLineStr::from(file.section(SectionId::DebugLineStr)?),
        debug_ranges: DebugRanges::from(file.section(SectionId::DebugRanges)?),
        debug_rnglists: DebugRngLists::from(file.section(SectionId::DebugRngLists)?),
        debug_str: DebugStr::from(file.section(SectionId::DebugStr)?),
        debug_str_offsets: DebugStrOffsets::from(file.section(SectionId::DebugStrOffsets)?),
    })
}

// Sections as those of a file of a kind, with a supplementary file or none. Takes no memory.
pub(crate) fn as_dwarf<R: Reader>(
    sections: SupDwarf<R>,
    file_type: DwarfFileType,
    sup: Option<Rc<SupDwarf<R>>>,
) -> Dwarf<R>
    ensures gives { result ≡ as_file file_type (option_map (λ s. s.value) sup) sections }
{
    Dwarf {
        debug_abbrev: sections.debug_abbrev,
        debug_addr: sections.debug_addr,
        debug_aranges: sections.debug_aranges,
        debug_info: sections.debug_info,
        debug_line: sections.debug_line,
        debug_line_str: sections.debug_line_str,
        debug_ranges: sections.debug_ranges,
        debug_rnglists: sections.debug_rnglists,
        debug_str: sections.debug_str,
        debug_str_offsets: sections.debug_str_offsets,
        file_type,
        sup,
    }
}
