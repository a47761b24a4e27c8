//! A whole file.

ghost use Rattle.std.specs.Prelude.{◌≡◌, [], None, Some, false, not, slice_get, true, option_map, IfErr, IfOk, IfSome, IsOk};
ghost use Rattle.elf.specs.Common.{Exactly};
ghost use Rattle.elf.specs.Wanted.{is_wanted_section, is_wanted_text};
ghost use Rattle.elf.specs.Compressed.{copied_if, first_zdebug, inflated_contents, packed_in, zdebug_packed_in, unpacked_contents, decompressed_of, zdebug_of, missing_decompressed, decompression_of};
ghost use Rattle.elf.specs.Loading.{LoadsAtCost, LoadsUnlessOomFor};
ghost use Rattle.elf.specs.declared.error.LoaderError.TheVariants.{OutOfMemory};
ghost use Rattle.elf.specs.FileImage.{image_bytes};
ghost use Rattle.elf.specs.FileTables.{AreReadable, HasTables, is_packed};
ghost use Rattle.elf.specs.ObjectFile.{ObjectFile, object_file_of, name_table_of, gives_sections};
ghost use Rattle.elf.specs.Layout.{layout_of};
ghost use Rattle.elf.specs.Symbols.{named_address, nearest_symbol, symbol_bytes, symbol_names_of, symbols_of, symbol_at, usable_in};
ghost use Rattle.elf.specs.SymbolTable.{IsSymbolTable};
ghost use Rattle.elf.specs.SectionBytes.{bytes_at, is_nobits, is_outside, section_bytes_in};
ghost use Rattle.elf.specs.Sections.{section_names_of, number_named, first_named, section_range_at, empty_contents, contents_of, missing_section, section_at, gives_bytes_of_file};

use crate::compressed;
use crate::constants::SHN_XINDEX;
use crate::error::LoaderError;
use crate::header::{self, Ident};
use crate::image::FileImage;
use crate::layout::Class;
use crate::section::{self, SectionHeader};
use crate::symbol::{self, Symbol, SymbolEntry};
use bytes::Bytes;
use gimli_read::{EndianBytes, Range, Reader, RunTimeEndian};
use std::alloc::Global;
use std::marker::Model;

/// An ELF file: its bytes, which its sections share, and its headers.
#[derive(Drop)]
pub struct ElfFile {
    file: FileImage,
    class: Class,
    endian: RunTimeEndian,
    is_relocatable: bool,
    sections: Vec<SectionHeader>,
    name_table: u64,
    section_names: EndianBytes,
    symbol_names: EndianBytes,
    symbols: Vec<SymbolEntry>,
}

impl Model for ElfFile {
    ghost Value = { ObjectFile };

    ghost view = { λ f. record {
      bytes = image_bytes f.file;
      class = f.class;
      endian = f.endian;
      is_relocatable = f.is_relocatable;
      sections = f.sections.items;
      name_table = f.name_table;
    } };

    ghost invariant = { λ f. record {
      tables : HasTables (image_bytes f.file) f.endian f.class f.sections.items f.name_table
          f.section_names f.symbol_names f.symbols.items;
      readable : AreReadable f.file f.section_names.bytes f.sections.items;
    } };
}

/// The number of the section that has the sections' names.
pub(crate) fn name_table_in(index: u64, sections: &[SectionHeader]) -> u64
    ensures gives { result ≡ name_table_of index sections.now }
{
    if index != SHN_XINDEX {
        return index;
    }
    match sections.first() {
        Some(section) => section.link,
        None => 0,
    }
}

// The string tables of a file, and its sorted symbols.
#[derive(Drop)]
struct Tables {
    section_names: EndianBytes,
    symbol_names: EndianBytes,
    symbols: Vec<SymbolEntry>,
}

// The sorted symbols of a file, by the table of their names.
fn read_symbols(
    alloc: Global,
    file: &FileImage,
    sections: &[SectionHeader],
    names: &[u8],
    ident: Ident,
) -> Result<Vec<SymbolEntry>, LoaderError>
    ensures gives { IfOk result (λ v. IsSymbolTable (usable_in ident.endian (layout_of ident.class)
        names.now (symbol_bytes (image_bytes file.now) sections.now)) v.items) }
    ensures none { sections.now ≡ [] → IsOk result }
    ensures refused { IfErr result (λ e. e ≡ OutOfMemory) }
{
    let table = symbol::table_bytes(file, sections, ident.endian)?;
    Ok(symbol::sorted(alloc, table.to_slice(), names, ident)?)
}

// The string tables of a file, and its sorted symbols.
fn read_tables(
    alloc: Global,
    file: &FileImage,
    sections: &[SectionHeader],
    name_table: u64,
    ident: Ident,
) -> Result<Tables, LoaderError>
    ensures gives { IfOk result (λ t. HasTables (image_bytes file.now) ident.endian ident.class
        sections.now name_table t.section_names t.symbol_names t.symbols.items) }
    ensures none { sections.now ≡ [] → IsOk result }
    ensures refused { IfErr result (λ e. e ≡ OutOfMemory) }
{
    let number = symbol::names_number(sections);
    let symbol_names = section::string_table(file, sections, number, ident.endian)?;
    let symbols = read_symbols(alloc, file, sections, symbol_names.to_slice(), ident)?;
    Ok(Tables {
        section_names: section::string_table(file, sections, name_table, ident.endian)?,
        symbol_names,
        symbols,
    })
}

impl ElfFile {
    /// The file that the bytes are. Byte 5 alone gives their order, whatever the reader's is.
    ///
    /// | Refusal | When |
    /// |---|---|
    /// | `NotElf` | the bytes don't begin with the whole magic |
    /// | `BadElf` | a header isn't wholly in the file; an unknown class, byte order or entry size |
    /// | `OutOfMemory` | a growth was refused; the file has a section |
    ///
    /// Source: System V ABI, Object Files.
    pub fn parse(alloc: Global, bytes: EndianBytes) -> Result<ElfFile, LoaderError>
        ensures gives { LoadsUnlessOomFor gives_sections result (object_file_of bytes.bytes) }
    {
        ElfFile::parse_image(alloc, FileImage::whole(alloc, bytes))
    }

    /// The same of a file of which only some pieces were read.
    #[tactic(auto, unfolding(crate::specs::ObjectFile::object_file_of))]
    pub fn parse_image(alloc: Global, file: FileImage) -> Result<ElfFile, LoaderError>
        ensures gives { LoadsUnlessOomFor gives_sections result
            (object_file_of (image_bytes file)) }
    {
        let ident = header::read_ident(&file)?;
        let header = header::read_header(&file, ident)?;
        let start = header.start as u64;
        let sections = section::headers(alloc, &file, start, header.count, ident)?;
        let name_table = name_table_in(header.name_index, &sections);
        let tables = read_tables(alloc, &file, &sections, name_table, ident)?;
        let file = section::with_readable(file, &sections, tables.section_names.to_slice())?;
        Ok(ElfFile {
            file,
            class: ident.class,
            endian: ident.endian,
            is_relocatable: header.is_relocatable,
            sections,
            name_table,
            section_names: tables.section_names,
            symbol_names: tables.symbol_names,
            symbols: tables.symbols,
        })
    }

    /// The bytes of the first section of a name, in the file's byte order; they are shared with the
    /// file. Empty where there is no such section, or it is NOBITS. Takes memory for one byte or
    /// more.
    ///
    /// | Refusal, in this order | When |
    /// |---|---|
    /// | `BadElf` | the section isn't wholly within the file |
    /// | `CompressedSection` | it is compressed, or there only with `.zdebug_` for `.debug_` |
    /// | `RelocationsNeeded` | a relocatable file has a nonempty REL or RELA section for it |
    /// | `OutOfMemory` | a growth was refused; the section has a byte |
    #[tactic(auto, unfolding(crate::specs::Sections::section_at))]
    pub fn section(&self, name: &str) -> Result<EndianBytes, LoaderError>
        ensures gives { LoadsUnlessOomFor gives_bytes_of_file result
            (section_at name.now self.now) }
    {
        match self.first_named(name.as_bytes()) {
            Some((number, section)) => self.contents(number, &section),
            None => self.missing_section(name.as_bytes()),
        }
    }

    /// The bytes of the first section of a name, decompressed where zlib compressed them: behind a
    /// compression header, or in a section with `.zdebug_` for `.debug_` where there is none of the
    /// name; such a one has no stream where it is NOBITS. All else is as `section` has it. Takes
    /// memory for what they inflate to, where the stream takes any, and else where `section` does.
    ///
    /// | Refusal, in this order | When |
    /// |---|---|
    /// | `BadElf` | it isn't wholly within the file, or no whole header stands before its stream |
    /// | `CompressedSection` | it is compressed, and not by zlib |
    /// | `RelocationsNeeded` | a relocatable file has a nonempty REL or RELA section for it |
    /// | `BadElf` | its stream is damaged, or inflates to another size than the header tells |
    /// | `OutOfMemory` | a growth was refused; the stream, or a part of the file, takes memory |
    ///
    /// A growth may be refused before the damage of a stream is met, and for a name that `SectionId`
    /// doesn't name before any other refusal, since what is read may have to be copied.
    #[tactic(auto, unfolding(crate::specs::Compressed::decompression_of))]
    pub fn decompressed_section(
        &self,
        alloc: Global,
        name: &str,
    ) -> Result<EndianBytes, LoaderError>
        ensures gives { LoadsAtCost (λ b. b) result (decompression_of name.now self.now) }
    {
        match self.first_named(name.as_bytes()) {
            Some((number, section)) => self.decompressed(alloc, number, &section),
            None => self.missing_decompressed(alloc, name.as_bytes()),
        }
    }

    /// The addresses of the first section of a name, whatever its type and flags; none where
    /// there is no such section, or where its end passes 64 bits. Takes no memory.
    pub fn section_range(&self, name: &[u8]) -> Option<Range>
        ensures gives { result ≡ section_range_at name.now self.now }
    {
        let (_, section) = self.first_named(name)?;
        section.addresses()
    }

    /// The symbol of a probe: the one with the greatest address not above it, if its size is 0 or
    /// the probe is below its end. The last address, `u64::MAX`, has none. Takes no memory.
    ///
    /// Of several at one address objects and functions come before untyped ones, then global and
    /// weak ones before others, then the later one in the file. Only those symbols are looked at
    /// that have a section and a nonempty UTF-8 name, and are untyped, objects or functions. They
    /// are those of the first SYMTAB, else of the first DYNSYM.
    #[tactic(auto, unfolding(crate::specs::Symbols::symbol_at))]
    pub fn symbol(&self, probe: u64) -> Option<Symbol<'_>>
        ensures gives { option_map named_address result ≡ symbol_at probe self.now }
    {
        let entry = self.nearest(probe)?;
        if !entry.covers(probe) {
            return None;
        }
        let name = entry.name(self.symbol_names())?;
        Some(Symbol::new(name, entry.address))
    }

    // The symbol at the probe or nearest below it.
    fn nearest(&self, probe: u64) -> Option<SymbolEntry>
        ensures gives { result ≡ nearest_symbol probe (symbols_of self.now) }
    {
        symbol::nearest_in(&self.symbols, probe)
    }

    // The table of the symbols' names.
    fn symbol_names(&self) -> &[u8]
        ensures gives { result.now ≡ symbol_names_of self.now }
    {
        self.symbol_names.to_slice()
    }

    // The table of the sections' names.
    fn section_names(&self) -> &[u8]
        ensures gives { result.now ≡ section_names_of self.now }
    {
        self.section_names.to_slice()
    }

    // The number of the first section of a name.
    fn number_named(&self, name: &[u8]) -> Option<usize>
        ensures gives { result ≡ number_named name.now self.now }
    {
        let names = self.section_names();
        self.sections
            .iter()
            .position(|section| section.is_named(names, name))
    }

    // That section, beside its number.
    fn first_named(&self, name: &[u8]) -> Option<(usize, SectionHeader)>
        ensures gives { result ≡ first_named name.now self.now }
    {
        let number = self.number_named(name)?;
        let section = self.sections.get(number)?;
        Some((number, *section))
    }

    // No bytes.
    fn empty_contents(&self) -> EndianBytes
        ensures gives { result ≡ empty_contents self.now }
    {
        EndianBytes::new(Bytes::new(), self.endian)
    }

    // The bytes of a section.
    #[tactic(auto, unfolding(crate::specs::Sections::contents_of))]
    fn contents(&self, number: usize, section: &SectionHeader) -> Result<EndianBytes, LoaderError>
        ensures gives { LoadsUnlessOomFor gives_bytes_of_file result
            (contents_of self.now number section.now) }
    {
        if section.is_nobits() {
            return Ok(self.empty_contents());
        }
        if section.is_outside(&self.file) {
            return Err(LoaderError::BadElf);
        }
        if section.is_compressed() {
            return Err(LoaderError::CompressedSection);
        }
        if self.is_relocatable && section::is_relocated(&self.sections, number) {
            return Err(LoaderError::RelocationsNeeded);
        }
        self.file.share(section.offset, section.size, self.endian)
    }

    // The answer for a name that no section has.
    fn missing_section(&self, name: &[u8]) -> Result<EndianBytes, LoaderError>
        ensures gives { Exactly (λ r. r) result (missing_section name.now self.now) }
    {
        if section::has_zdebug(&self.sections, self.section_names(), name) {
            return Err(LoaderError::CompressedSection);
        }
        Ok(self.empty_contents())
    }

    // The bytes of a section in the file's order, which a stream has.
    #[tactic(auto, unfolding(crate::specs::Compressed::unpacked_contents))]
    fn unpacked_contents(
        &self,
        alloc: Global,
        number: usize,
        size: u64,
        text: &[u8],
    ) -> Result<EndianBytes, LoaderError>
        ensures gives { LoadsAtCost (λ b. b) result
            (unpacked_contents self.now number (size, text.now)) }
    {
        if self.is_relocatable && section::is_relocated(&self.sections, number) {
            return Err(LoaderError::RelocationsNeeded);
        }
        let bytes = compressed::unpacked(alloc, size, text)?;
        match Bytes::from_vec(bytes) {
            Ok(bytes) => Ok(EndianBytes::new(bytes, self.endian)),
            Err(_) => Err(LoaderError::OutOfMemory),
        }
    }

    // The bytes of a packed section that are in the file, if they stand in one piece, as those of
    // each do that lookups ask for.
    fn packed_bytes(&self, number: usize, section: &SectionHeader) -> Option<&[u8]>
        requires of_number { slice_get self.now.sections number ≡ Some section.now }
        requires packed { is_packed (section_names_of self.now) section.now ≡ true }
        requires within { is_outside self.now.bytes section.now ≡ false }
        ensures gives { IfSome result (λ b. b.now ≡ bytes_at self.now.bytes section.now) }
        ensures none { result ≡ None
            → is_wanted_section (section_names_of self.now) section.now ≡ false }
    {
        self.file.slice(section.offset, section.size)
    }

    // What the bytes of a section inflate to, behind a compression header.
    fn inflated(&self, alloc: Global, number: usize, own: &[u8]) -> Result<EndianBytes, LoaderError>
        ensures gives { LoadsAtCost (λ b. b) result (inflated_contents self.now number
            (packed_in self.now.endian (layout_of self.now.class).address_size own.now)) }
    {
        let (size, text) = compressed::packed(own, self.class, self.endian)?;
        self.unpacked_contents(alloc, number, size, text)
    }

    // The same of a section with `.zdebug_` for `.debug_`.
    fn inflated_zdebug(
        &self,
        alloc: Global,
        number: usize,
        own: &[u8],
    ) -> Result<EndianBytes, LoaderError>
        ensures gives { LoadsAtCost (λ b. b) result
            (inflated_contents self.now number (zdebug_packed_in own.now)) }
    {
        let (size, text) = compressed::zdebug_packed(own)?;
        self.unpacked_contents(alloc, number, size, text)
    }

    // A copy of the bytes of a section that are in the file. Takes memory.
    fn copied_bytes(&self, section: &SectionHeader) -> Result<EndianBytes, LoaderError>
        requires within { is_outside self.now.bytes section.now ≡ false }
        ensures gives { IfOk result (λ b. b.bytes ≡ bytes_at self.now.bytes section.now) }
        ensures refused { IfErr result (λ e. e ≡ OutOfMemory) }
    {
        self.file.share(section.offset, section.size, self.endian)
    }

    // The bytes of a section, decompressed where they are compressed.
    #[tactic(auto, unfolding(crate::specs::Compressed::decompressed_of))]
    fn decompressed(
        &self,
        alloc: Global,
        number: usize,
        section: &SectionHeader,
    ) -> Result<EndianBytes, LoaderError>
        requires of_number { slice_get self.now.sections number ≡ Some section.now }
        ensures gives { LoadsAtCost (λ b. b) result
            (copied_if (not (is_wanted_section (section_names_of self.now) section.now))
            (decompressed_of self.now number section.now)) }
    {
        if section.is_nobits() || section.is_outside(&self.file) || !section.is_compressed() {
            return self.contents(number, section);
        }
        match self.packed_bytes(number, section) {
            Some(own) => self.inflated(alloc, number, own),
            None => {
                let copy = self.copied_bytes(section)?;
                self.inflated(alloc, number, copy.to_slice())
            }
        }
    }

    // The bytes of a section with `.zdebug_` for `.debug_`.
    #[tactic(auto, unfolding(crate::specs::Compressed::zdebug_of))]
    fn zdebug(
        &self,
        alloc: Global,
        number: usize,
        section: &SectionHeader,
    ) -> Result<EndianBytes, LoaderError>
        requires of_number { slice_get self.now.sections number ≡ Some section.now }
        requires packed { is_packed (section_names_of self.now) section.now ≡ true }
        ensures gives { LoadsAtCost (λ b. b) result
            (copied_if (not (is_wanted_section (section_names_of self.now) section.now))
            (zdebug_of self.now number section.now)) }
    {
        if section.is_nobits() {
            return self.inflated_zdebug(alloc, number, &[]);
        }
        if section.is_outside(&self.file) {
            return Err(LoaderError::BadElf);
        }
        match self.packed_bytes(number, section) {
            Some(own) => self.inflated_zdebug(alloc, number, own),
            None => {
                let copy = self.copied_bytes(section)?;
                self.inflated_zdebug(alloc, number, copy.to_slice())
            }
        }
    }

    // The first section with `.zdebug_` for the `.debug_` of a name, beside its number.
    fn first_zdebug(&self, name: &[u8]) -> Option<(usize, SectionHeader)>
        ensures gives { result ≡ first_zdebug name.now self.now }
    {
        let number = section::zdebug_number(&self.sections, self.section_names(), name)?;
        let section = self.sections.get(number)?;
        Some((number, *section))
    }

    // The answer for a name that no section has.
    #[tactic(auto, unfolding(crate::specs::Compressed::missing_decompressed))]
    fn missing_decompressed(&self, alloc: Global, name: &[u8]) -> Result<EndianBytes, LoaderError>
        ensures gives { LoadsAtCost (λ b. b) result
            (copied_if (not (is_wanted_text name.now)) (missing_decompressed name.now self.now)) }
    {
        match self.first_zdebug(name) {
            Some((number, section)) => self.zdebug(alloc, number, &section),
            None => Ok(self.empty_contents()),
        }
    }
}
