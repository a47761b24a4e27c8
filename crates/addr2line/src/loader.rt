//! Loaders: contexts of ELF files, with their symbols and their split files.

ghost use Rattle.std.specs.Prelude.{◌≡◌, Err, IfOk, IfSome, None, Option, Some, false, is_some, option_map, true};
ghost use Rattle.addr2line.specs.Common.{Io, NotElf, Loading, LoadsUnlessOom, Sections, SupSections, frames_left, location_of};
ghost use Rattle.elf.specs.declared.error.LoaderError.TheVariants.{OutOfMemory};
ghost use Rattle.elf.specs.Sections.{section_range_at};
ghost use Rattle.elf.specs.Symbols.{NamedAddress, named_address, symbol_at};
ghost use Rattle.addr2line_lines.specs.LentLocation.{as_location};
ghost use Rattle.addr2line_units.specs.LocationsLeft.{locations_left};
ghost use Rattle.addr2line.specs.declared.compressed.CompressedSections.TheVariants.{Decompressed, Refused};
ghost use Rattle.addr2line.specs.Context.{Locates, LocatesRange};
ghost use Rattle.addr2line.specs.Files.{HasEmptyFile, HasNoFile, as_read};
ghost use Rattle.addr2line.specs.Loaded.{AreSectionsOf, AreSupOfBytes, IsFileOfBytes, IsLoaded, as_sup, context_at, dwarf_at, loaded, main_with_sup, object_at, sup_at};
ghost use Rattle.addr2line.specs.Loader.{AfterLoads, AfterLocation, AfterLocationRange, FindsFramesByFiles, as_loader};
ghost use Rattle.addr2line.specs.SplitFiles.{of_file};

use crate::by_files::answer_loads;
use crate::compressed::CompressedSections;
use crate::context::Context;
use crate::file_sections::{MainFile, OpenFile, as_dwarf, parse_image, read_sections};
use crate::files::{FileSource, HostFiles};
use crate::kept_files::KeptFiles;
use addr2line_lines::Location;
use addr2line_units::FrameIter;
use addr2line_units::locations::LocationRangeIter;
use elf::{ElfFile, LoaderError, Symbol};
use gimli::read::{EndianBytes, Range, Reader};
use gimli::{Dwarf, DwarfFileType, SupDwarf};
use std::alloc::Global;
use std::rc::Rc;

// The ELF file at a path.
#[tactic(auto, unfolding(crate::specs::Loaded::object_at))]
fn open<F: FileSource>(alloc: Global, files: &F, path: &str) -> Result<ElfFile, LoaderError>
    ensures gives { IfSome (F.files files.now) (λ held. LoadsUnlessOom (λ f. f) result
        (object_at held path.now)) }
    ensures none { HasNoFile (F.files files.now) path.now → result ≡ Err Io }
    ensures empty { HasEmptyFile (F.files files.now) path.now → result ≡ Err NotElf }
    ensures made { IfOk result IsFileOfBytes }
{
    match files.read_image(alloc, path)? {
        Some(file) => parse_image(alloc, file),
        None => Err(LoaderError::Io),
    }
}

// The sections of a supplementary file, shared, or their fault.
pub(crate) fn share_sup<R: Reader>(
    alloc: Global,
    sections: Result<SupDwarf<R>, LoaderError>,
) -> Result<Option<Rc<SupDwarf<R>>>, LoaderError>
    ensures gives { (given : Loading SupSections) → LoadsUnlessOom (λ s. s) sections given
        → LoadsUnlessOom (option_map (λ s. s.value)) result (as_sup given) }
{
    Ok(Some(Rc::new(alloc, sections?)?))
}

// The sections of the supplementary file, if one is named.
#[tactic(auto, unfolding(crate::specs::Loaded::sup_at))]
fn read_sup<F: FileSource>(
    alloc: Global,
    files: &F,
    compressed: CompressedSections,
    path: Option<&str>,
) -> Result<Option<Rc<SupDwarf<EndianBytes>>>, LoaderError>
    ensures gives { IfSome (F.files files.now) (λ held.
        LoadsUnlessOom (option_map (λ s. s.value)) result
        (sup_at (as_read compressed held) (option_map (λ p. p.now) path.entry))) }
    ensures made { IfOk result (λ s. AreSupOfBytes compressed (is_some path.entry)
        (option_map (λ x. x.value) s)) }
{
    let Some(path) = path else {
        return Ok(None);
    };
    let object = open(alloc, files, path)?;
    let file = OpenFile {
        alloc,
        compressed,
        object: &object,
    };
    share_sup(alloc, read_sections(&MainFile(file)))
}

// The sections of a main file with those of a supplementary one, or the fault of these.
pub(crate) fn with_sup<R: Reader>(
    main: SupDwarf<R>,
    sup: Result<Option<Rc<SupDwarf<R>>>, LoaderError>,
) -> Result<Dwarf<R>, LoaderError>
    ensures gives { (given : Loading (Option SupSections))
        → LoadsUnlessOom (option_map (λ s. s.value)) sup given
        → LoadsUnlessOom (λ d. d) result (main_with_sup main given) }
{
    Ok(as_dwarf(main, DwarfFileType::Main, sup?))
}

// The sections of a main file and of the supplementary file, if one is named.
#[tactic(auto, unfolding(crate::specs::Loaded::dwarf_at))]
fn read_dwarf<F: FileSource>(
    alloc: Global,
    files: &F,
    compressed: CompressedSections,
    object: &ElfFile,
    sup_path: Option<&str>,
) -> Result<Dwarf<EndianBytes>, LoaderError>
    ensures gives { IfSome (F.files files.now) (λ held. LoadsUnlessOom (λ d. d) result
        (dwarf_at (as_read compressed held) object.now
        (option_map (λ p. p.now) sup_path.entry))) }
    ensures made { IfOk result (AreSectionsOf compressed (is_some sup_path.entry) object.now) }
{
    let main = read_sections(&MainFile(OpenFile {
        alloc,
        compressed,
        object,
    }))?;
    with_sup(main, read_sup(alloc, files, compressed, sup_path))
}

// The context of sections, or their fault.
pub(crate) fn context_of<R: Reader>(
    alloc: Global,
    dwarf: Result<Dwarf<R>, LoaderError>,
) -> Result<Context<R>, LoaderError>
    ensures gives { (given : Loading Sections) → LoadsUnlessOom (λ d. d) dwarf given
        → LoadsUnlessOom (λ c. c) result (context_at given) }
{
    Ok(Context::from_dwarf(alloc, dwarf?)?)
}

/// The debug information of an ELF file: a context of its sections, its symbols, and the files
/// `F` that answer for its split files. A split file that has answered is kept by its path and its
/// stamp, and of one that answered nothing its identifier, a few words.
#[derive(Drop)]
pub struct LoaderOver<F: FileSource> {
    alloc: Global,
    files: F,
    compressed: CompressedSections,
    kept: KeptFiles,
    object: ElfFile,
    context: Context<EndianBytes>,
}

/// A loader over the files of the host.
pub type Loader = LoaderOver<HostFiles>;

impl<F: FileSource> LoaderOver<F> {
    ghost use Rattle.addr2line.specs.BorrowedLoader.{LendsFiles, LoaderEndsAs};

    /// A loader of the ELF file at `path`, with the supplementary file at `sup_path`, if there is
    /// one.
    ///
    /// | Refusal, in this order | When |
    /// |---|---|
    /// | `Io` | the file can't be read |
    /// | `NotElf`, `BadElf` | as `ElfFile::parse` is refused |
    /// | `BadElf`, `CompressedSection`, `RelocationsNeeded` | the first section by name is |
    /// | all of these | as those before, of the supplementary file |
    /// | `Dwarf` | as `Context::from_dwarf` is refused |
    ///
    /// May fail with `OutOfMemory` instead, but not where it is known that no file is at `path`, or
    /// one without a byte. No section is copied. Source: DWARF 5, sections 7.3.6 and 7.5. Own: the
    /// order.
    pub fn over(
        alloc: Global,
        files: F,
        path: &str,
        sup_path: Option<&str>,
    ) -> Result<LoaderOver<F>, LoaderError>
        ensures gives { IfSome (F.files files) (λ held.
            LoadsUnlessOom (λ l. (l.object, l.context)) result
            (loaded (as_read Refused held) path.now (option_map (λ p. p.now) sup_path.entry))) }
        ensures none { HasNoFile (F.files files) path.now → result ≡ Err Io }
        ensures empty { HasEmptyFile (F.files files) path.now → result ≡ Err NotElf }
        ensures made { IfOk result
            (λ l. IsLoaded Refused (is_some sup_path.entry) l.object l.context) }
        ensures files { IfOk result (λ l. l.files ≡ files) }
        ensures kept { IfOk result (λ l. l.compressed ≡ Refused) }
    {
        LoaderOver::over_with(alloc, files, CompressedSections::Refused, path, sup_path)
    }

    /// The same, but that a section compressed by zlib has the bytes that it inflates to: one with
    /// `SHF_COMPRESSED` and `ELFCOMPRESS_ZLIB`, and one with `.zdebug_` for `.debug_` where there
    /// is none of the name. So it is for the main, the supplementary and the split files.
    ///
    /// Refused as `over` is, but `BadElf` where the header of such a section isn't whole, its
    /// stream is damaged, or it inflates to another size than the header tells, and
    /// `CompressedSection` for another compression alone. A split file with such a fault is
    /// answered none. Takes memory for what a section inflates to, as its stream is read. Source:
    /// as `over`, System V ABI, Section Compression; RFC 1950, RFC 1951.
    pub fn over_decompressing(
        alloc: Global,
        files: F,
        path: &str,
        sup_path: Option<&str>,
    ) -> Result<LoaderOver<F>, LoaderError>
        ensures gives { IfSome (F.files files) (λ held.
            LoadsUnlessOom (λ l. (l.object, l.context)) result
            (loaded (as_read Decompressed held) path.now
            (option_map (λ p. p.now) sup_path.entry))) }
        ensures none { HasNoFile (F.files files) path.now → result ≡ Err Io }
        ensures empty { HasEmptyFile (F.files files) path.now → result ≡ Err NotElf }
        ensures made { IfOk result
            (λ l. IsLoaded Decompressed (is_some sup_path.entry) l.object l.context) }
        ensures files { IfOk result (λ l. l.files ≡ files) }
        ensures kept { IfOk result (λ l. l.compressed ≡ Decompressed) }
    {
        LoaderOver::over_with(
            alloc,
            files,
            CompressedSections::Decompressed,
            path,
            sup_path,
        )
    }

    /// `over` or `over_decompressing`, by what becomes of sections that are compressed.
    #[tactic(auto, unfolding(crate::specs::Loaded::loaded))]
    pub fn over_with(
        alloc: Global,
        files: F,
        compressed: CompressedSections,
        path: &str,
        sup_path: Option<&str>,
    ) -> Result<LoaderOver<F>, LoaderError>
        ensures gives { IfSome (F.files files) (λ held.
            LoadsUnlessOom (λ l. (l.object, l.context)) result
            (loaded (as_read compressed held) path.now
            (option_map (λ p. p.now) sup_path.entry))) }
        ensures none { HasNoFile (F.files files) path.now → result ≡ Err Io }
        ensures empty { HasEmptyFile (F.files files) path.now → result ≡ Err NotElf }
        ensures made { IfOk result
            (λ l. IsLoaded compressed (is_some sup_path.entry) l.object l.context) }
        ensures files { IfOk result (λ l. l.files ≡ files) }
        ensures kept { IfOk result (λ l. l.compressed ≡ compressed) }
    {
        let object = open(alloc, &files, path)?;
        let dwarf = read_dwarf(alloc, &files, compressed, &object, sup_path);
        let context = context_of(alloc, dwarf)?;
        Ok(LoaderOver {
            alloc,
            files,
            compressed,
            kept: KeptFiles::new(alloc),
            object,
            context,
        })
    }

    /// The files that answer loads. Takes no memory.
    pub fn files_mut(&mut self) -> &mut F
        ensures gives { result.now ≡ self.old.files }
        ensures* ends { LendsFiles 𝓛 F.row self.entry result }
    {
        &mut self.files
    }

    /// What is subtracted from addresses before they are looked up: 0. Takes no memory.
    pub fn relative_address_base(&self) -> u64
        ensures gives { result ≡ 0 }
    {
        0
    }

    /// The location of an address, as `Context::find_location` gives it. No other lines are parsed,
    /// and what was parsed stays parsed.
    ///
    /// Refused `Dwarf` as that is; may fail with `OutOfMemory` instead. Takes no memory where the
    /// lines that it asks for are parsed, nor where no unit covers `probe`.
    pub fn find_location(&mut self, probe: u64) -> Result<Option<Location<'_>>, LoaderError>
        ensures gives { Locates OutOfMemory as_location self.old.context probe result
            (of_file (location_of self.old.context.sections probe)) }
        ensures* ends { LoaderEndsAs 𝓛 F.row F.files self.entry
            (AfterLocation probe result (as_loader F.files self.old)) }
    {
        match self.context.find_location(probe) {
            Ok(location) => Ok(location),
            Err(error) => Err(LoaderError::from(error)),
        }
    }

    /// The rows that a range of addresses meets, as `Context::find_location_range` gives them. No
    /// other lines are parsed, and what was parsed stays parsed.
    ///
    /// Refused `OutOfMemory` alone; takes no memory where the lines are parsed, or there are none.
    pub fn find_location_range(
        &mut self,
        low: u64,
        high: u64,
    ) -> Result<LocationRangeIter<'_, EndianBytes>, LoaderError>
        ensures gives { LocatesRange OutOfMemory true locations_left self.old.context low high
            result }
        ensures* ends { LoaderEndsAs 𝓛 F.row F.files self.entry
            (AfterLocationRange low high result (as_loader F.files self.old)) }
    {
        match self.context.find_location_range(low, high) {
            Ok(rows) => Ok(rows),
            Err(error) => Err(LoaderError::from(error)),
        }
    }

    /// The frames at an address, as `Context::find_frames` gives them where each load that it waits
    /// for is answered by the files as they are now.
    ///
    /// The path of a split file is the load's `path` where that begins with `/`, else its
    /// `comp_dir`, a `/` unless that is empty or ends in one, and `path`. A load without a path, a
    /// file that isn't there, one whose first unit has another identifier or none, and a faulty one
    /// are answered none. An answer stays: a file counts that was there when its unit was first
    /// asked for frames. A file that was read for another unit is read again only where its stamp
    /// (`FileSource::stamp`) differs from the one that it had before it was read, it has none, or it
    /// answered nothing and has the identifier of this unit.
    ///
    /// | Refusal | When |
    /// |---|---|
    /// | `PathNotUtf8` | the path of a split file that is wanted isn't UTF-8; its unit stays open |
    /// | `Dwarf` | as `Context::find_frames` is refused |
    ///
    /// May fail with `OutOfMemory` instead, which is never cached; a unit whose load was wanted, or
    /// being answered, stays open then. Takes no memory where no unit covers `probe`, nor where it
    /// waits for no load, all that it asks for is cached and at most 16 inlined functions stand
    /// there. No unit covers 2^64 - 1. Source: DWARF 5, sections 3.1.2 and 7.3.2. Own: the path,
    /// and what counts as none.
    pub fn find_frames(&mut self, probe: u64) -> Result<FrameIter<'_, EndianBytes>, LoaderError>
        ensures gives { FindsFramesByFiles frames_left (as_loader F.files self.old) probe result }
        ensures* ends { LoaderEndsAs 𝓛 F.row F.files self.entry
            (AfterLoads frames_left probe result (as_loader F.files self.old)) }
    {
        match answer_loads(
            self.alloc,
            &self.files,
            self.compressed,
            &mut self.kept,
            &mut self.context,
            probe,
        )? {
            Ok(()) => Ok(self.context.found_frames()),
            Err(error) => Err(LoaderError::from(error)),
        }
    }

    /// The name of the symbol of an address, as `ElfFile::symbol` chooses it. Takes no memory.
    pub fn find_symbol(&self, probe: u64) -> Option<&str>
        ensures gives { option_map (λ name. name.now) result
            ≡ option_map (λ (s : NamedAddress). s.name) (symbol_at probe self.now.object) }
    {
        let symbol = self.object.symbol(probe)?;
        Some(symbol.name())
    }

    /// The symbol of an address, as `ElfFile::symbol` chooses it. Takes no memory.
    pub fn find_symbol_info(&self, probe: u64) -> Option<Symbol<'_>>
        ensures gives { option_map named_address result ≡ symbol_at probe self.now.object }
    {
        self.object.symbol(probe)
    }

    /// The addresses of the first section of a name, whatever its type and flags; none where there
    /// is no such section, or where its end passes 64 bits. Takes no memory.
    pub fn get_section_range(&self, name: &[u8]) -> Option<Range>
        ensures gives { result ≡ section_range_at name.now self.now.object }
    {
        self.object.section_range(name)
    }
}

impl LoaderOver<HostFiles> {
    /// A loader of a file of the host, as `over` makes it.
    pub fn new(rt: HostRuntime, path: &str) -> Result<Loader, LoaderError>
        ensures made { IfOk result (λ l. IsLoaded Refused false l.object l.context) }
        ensures kept { IfOk result (λ l. l.compressed ≡ Refused) }
    {
        LoaderOver::over(rt.alloc(), HostFiles::new(rt), path, None)
    }

    /// A loader of a file of the host, as `over_decompressing` makes it.
    pub fn new_decompressing(rt: HostRuntime, path: &str) -> Result<Loader, LoaderError>
        ensures made { IfOk result (λ l. IsLoaded Decompressed false l.object l.context) }
        ensures kept { IfOk result (λ l. l.compressed ≡ Decompressed) }
    {
        LoaderOver::over_decompressing(rt.alloc(), HostFiles::new(rt), path, None)
    }

    /// A loader of a file of the host with a supplementary file, as `over` makes it.
    pub fn new_with_sup(rt: HostRuntime, path: &str, sup_path: &str) -> Result<Loader, LoaderError>
        ensures made { IfOk result (λ l. IsLoaded Refused true l.object l.context) }
        ensures kept { IfOk result (λ l. l.compressed ≡ Refused) }
    {
        LoaderOver::over(rt.alloc(), HostFiles::new(rt), path, Some(sup_path))
    }
}
