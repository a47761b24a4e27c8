//! The split files of units, which answer their loads.

ghost use Rattle.std.specs.Prelude.{◌≡◌, ◌⊎◌, Err, IfErr, IfOk, IfSome, IsErr, None, Ok, Option, Some, option_and_then, option_map};
ghost use Rattle.addr2line.specs.Common.{Exactly, result_map, Sections, PathNotUtf8, Loading, LoadsUnlessOom};
ghost use Rattle.elf.specs.declared.error.LoaderError.TheVariants.{OutOfMemory};
ghost use Rattle.elf.specs.FileImage.{image_bytes};
ghost use Rattle.addr2line.specs.declared.compressed.CompressedSections.TheVariants.{Refused};
ghost use Rattle.addr2line.specs.FileSections.{split_section};
ghost use Rattle.addr2line.specs.Files.{as_read, as_read_if_known};
ghost use Rattle.addr2line.specs.declared.kept_files.SplitFound.TheVariants.{Other};
ghost use Rattle.addr2line.specs.KeptFiles.{AnswersLoadStamped, KeepsAnswer, KeepsAnswering, KeepsByFiles, KeepsStamped};
ghost use Rattle.addr2line.specs.SplitFiles.{Answers, AreOfSomeFile, AnswersLoadBy, AnswersLoadByPath, HasOtherId, IfWanted, IsOtherId, bytes_or_none, first_id_by, first_id_of, found_as, id_of_unit, is_absolute, is_same_id, or_none, path_in, separated, split_at_path, split_by, split_of, split_path, utf8_path, wanted_by};

use crate::compressed::CompressedSections;
use crate::file_sections::{
    OpenFile, SectionSource, SplitFile, as_dwarf, parse_bytes, parse_image, read_sections,
};
use crate::files::{FileSource, FileStamp};
use crate::kept_files::{KeptFiles, SplitFound};
use addr2line_units::unit::{SplitDwarfLoad, read_first_unit};
use bytes::Bytes;
use elf::{ElfFile, FileImage, LoaderError};
use gimli::read::{EndianBytes, Reader};
use gimli::{Dwarf, DwarfFileType, DwoId, Unit};
use std::alloc::{AllocError, Global};
use std::rc::Rc;
use std::str;

// The bytes of a text that may be there.
fn bytes_of<R: Reader>(text: &Option<R>) -> &[u8]
    ensures gives { result.now ≡ bytes_or_none (option_map R.section text.now) }
{
    match text {
        Some(text) => text.to_slice(),
        None => &[],
    }
}

// Whether the name of a file begins with `/`.
fn begins_with_slash(name: &[u8]) -> bool
    ensures gives { result ≡ is_absolute name.now }
{
    match name.first() {
        Some(byte) => *byte == b'/',
        None => false,
    }
}

// A directory with what separates it from a name.
fn separated_directory(alloc: Global, directory: &[u8]) -> Result<Vec<u8>, AllocError>
    ensures gives { IfOk result (λ path. path.items ≡ separated directory.now) }
{
    let mut path = Vec::from_slice(alloc, directory)?;
    match directory.last() {
        Some(byte) if *byte != b'/' => path.push(b'/')?,
        _ => {}
    }
    Ok(path)
}

// The path of a name in a directory.
fn join(alloc: Global, directory: &[u8], name: &[u8]) -> Result<Vec<u8>, AllocError>
    ensures gives { IfOk result (λ path. path.items ≡ path_in directory.now name.now) }
{
    if begins_with_slash(name) {
        return Vec::from_slice(alloc, name);
    }
    let mut path = separated_directory(alloc, directory)?;
    path.extend_from_slice(name)?;
    Ok(path)
}

// The path of a split file, none where it has no name.
fn path_of<R: Reader>(
    alloc: Global,
    load: &SplitDwarfLoad<R>,
) -> Result<Option<Vec<u8>>, AllocError>
    ensures gives { IfOk result (λ path. option_map (λ (v : _). v.items) path
        ≡ split_path load.now) }
    ensures none { split_path load.now ≡ None → result ≡ Ok None }
{
    match &load.path {
        Some(name) => Ok(Some(join(alloc, bytes_of(&load.comp_dir), name.to_slice())?)),
        None => Ok(None),
    }
}

// A path as a text, if it is UTF-8.
fn text_of(path: &[u8]) -> Result<&str, LoaderError>
    ensures gives { Exactly (λ text. text.now) result (utf8_path path.now) }
    ensures kept { IfOk result (λ text. text.now ≡ path.now) }
    ensures refused { IfErr result (λ e. e ≡ PathNotUtf8) }
{
    match str::from_utf8(path) {
        Ok(text) => Ok(text),
        Err(_) => Err(LoaderError::PathNotUtf8),
    }
}

// Whether an identifier is the one that is wanted.
fn is_same(wanted: DwoId, id: Option<DwoId>) -> bool
    ensures gives { result ≡ is_same_id wanted id }
{
    match id {
        Some(id) => id.0 == wanted.0,
        None => false,
    }
}

// The identifier of a unit, if there is one that has it.
fn id_of<R: Reader>(unit: &Option<Unit<R>>) -> Option<DwoId>
    ensures gives { result ≡ id_of_unit unit.now }
{
    match unit {
        Some(unit) => unit.dwo_id,
        None => None,
    }
}

// The sections of a file as those of the split file of a load, or the identifier that they have
// where they belong to another unit.
fn read_split<R: Reader, S: SectionSource<R>>(
    alloc: Global,
    file: &S,
    load: &SplitDwarfLoad<R>,
) -> Result<SplitFound<Rc<Dwarf<R>>>, LoaderError>
    ensures gives { LoadsUnlessOom (wanted_by (λ d. d.value)) result
        (split_by (S.given file.now) load.now) }
    ensures other { IfOk result (IsOtherId load.now (first_id_by (S.given file.now))) }
{
    let mut dwarf = as_dwarf(read_sections(file)?, DwarfFileType::Dwo, None);
    let id = id_of(&read_first_unit(alloc, &dwarf)?);
    if !is_same(load.dwo_id, id) {
        return Ok(SplitFound::Other(id));
    }
    dwarf.make_dwo(&load.parent)?;
    Ok(SplitFound::Wanted(Rc::new(alloc, dwarf)?))
}

// The sections of the split file of a load that an ELF file has, by what becomes of those that are
// compressed.
fn read_split_object(
    alloc: Global,
    compressed: CompressedSections,
    load: &SplitDwarfLoad<EndianBytes>,
    object: &ElfFile,
) -> Result<SplitFound<Rc<Dwarf<EndianBytes>>>, LoaderError>
    ensures gives { LoadsUnlessOom (wanted_by (λ d. d.value)) result
        (split_by (split_section compressed object.now) load.now) }
    ensures other { IfOk result
        (IsOtherId load.now (first_id_by (split_section compressed object.now))) }
{
    let file = OpenFile {
        alloc,
        compressed,
        object,
    };
    read_split(alloc, &SplitFile(file), load)
}

// A split file that answers a load, and the sections that it answers with.
#[derive(Drop)]
struct AnsweringFile {
    object: ElfFile,
    sections: Rc<Dwarf<EndianBytes>>,
}

// The split file of a load that a file is of which pieces were read, or its identifier where it
// belongs to another unit.
#[tactic(auto, unfolding(crate::specs::SplitFiles::split_of, crate::specs::SplitFiles::first_id_of))]
fn read_split_file(
    alloc: Global,
    compressed: CompressedSections,
    load: &SplitDwarfLoad<EndianBytes>,
    file: FileImage,
) -> Result<SplitFound<AnsweringFile>, LoaderError>
    ensures gives { LoadsUnlessOom (wanted_by (λ f. f.sections.value)) result
        (split_of compressed load.now (image_bytes file)) }
    ensures made { IfOk result (λ found. IfWanted found (λ f.
        Answers compressed load.now f.object f.sections.value)) }
    ensures other { IfOk result
        (IsOtherId load.now (first_id_of compressed (image_bytes file))) }
{
    let object = parse_image(alloc, file)?;
    match read_split_object(alloc, compressed, load, &object)? {
        SplitFound::Wanted(sections) => Ok(SplitFound::Wanted(AnsweringFile { object, sections })),
        SplitFound::Other(id) => Ok(SplitFound::Other(id)),
    }
}

// What is wanted of what was found.
fn wanted<T: Drop>(found: Result<SplitFound<T>, LoaderError>) -> Result<Option<T>, LoaderError>
    ensures gives { (view : T → Sections) (given : Loading (Option Sections))
        → LoadsUnlessOom (wanted_by view) found given
        → LoadsUnlessOom (option_map view) result given }
    ensures refused { IfErr result (λ e. found ≡ Err e) }
{
    match found {
        Ok(SplitFound::Wanted(found)) => Ok(Some(found)),
        Ok(SplitFound::Other(_)) => Ok(None),
        Err(error) => Err(error),
    }
}

/// The sections of the split file of a load that the bytes of a file are, none where the file is
/// that of another unit or of none.
///
/// The bytes are shared, and none is copied. Refused as `ElfFile::parse` is, then as a section by
/// name is, then `Dwarf` for the first unit and for what it needs of the sections that have the
/// load's unit. May fail with `OutOfMemory` instead. Source: DWARF 5, sections 3.1.2 and 7.3.2.
pub fn read_split_sections(
    alloc: Global,
    load: &SplitDwarfLoad<EndianBytes>,
    bytes: Bytes,
) -> Result<Option<Rc<Dwarf<EndianBytes>>>, LoaderError>
    ensures gives { LoadsUnlessOom (option_map (λ d. d.value)) result
        (split_of Refused load.now bytes) }
{
    read_split_sections_with(alloc, CompressedSections::Refused, load, bytes)
}

/// The same, by what becomes of sections that are compressed. One that is decompressed takes as
/// much memory as its bytes, and is refused as `ElfFile::decompressed_section` is.
#[tactic(auto, unfolding(crate::specs::SplitFiles::split_of))]
pub fn read_split_sections_with(
    alloc: Global,
    compressed: CompressedSections,
    load: &SplitDwarfLoad<EndianBytes>,
    bytes: Bytes,
) -> Result<Option<Rc<Dwarf<EndianBytes>>>, LoaderError>
    ensures gives { LoadsUnlessOom (option_map (λ d. d.value)) result
        (split_of compressed load.now bytes) }
{
    let object = parse_bytes(alloc, bytes)?;
    wanted(read_split_object(alloc, compressed, load, &object))
}

// What was found, or a file of no unit in place of a fault.
fn without_fault<T: Drop>(
    found: Result<SplitFound<T>, LoaderError>,
) -> Result<SplitFound<T>, LoaderError>
    ensures gives { (view : T → Sections) (given : Loading (Option Sections))
        → LoadsUnlessOom (wanted_by view) found given
        → LoadsUnlessOom (wanted_by view) result (Ok (or_none given)) }
    ensures found { IfOk result (λ read. (found ≡ Ok read) ⊎ (IsErr found × (read ≡ Other None))) }
    ensures refused { IfErr result (λ e. e ≡ OutOfMemory) }
{
    match found {
        Ok(found) => Ok(found),
        Err(LoaderError::OutOfMemory) => Err(LoaderError::OutOfMemory),
        Err(_) => Ok(SplitFound::Other(None)),
    }
}

// What the file at a path has for a load, nothing where no file can be read there.
fn read_answering<F: FileSource>(
    alloc: Global,
    files: &F,
    compressed: CompressedSections,
    load: &SplitDwarfLoad<EndianBytes>,
    path: &str,
) -> Result<Option<SplitFound<AnsweringFile>>, LoaderError>
    ensures gives { IfSome (F.files files.now) (λ held.
        LoadsUnlessOom (option_and_then (wanted_by (λ f. f.sections.value))) result
        (Ok (split_at_path (as_read compressed held) load.now path.now))) }
    ensures made { IfOk result (λ read. IfSome read (λ found. IfWanted found (λ f.
        Answers compressed load.now f.object f.sections.value))) }
    ensures other { IfOk result (λ read. IfSome read (HasOtherId load.now)) }
    ensures refused { IfErr result (λ e. e ≡ OutOfMemory) }
{
    match files.read_image(alloc, path)? {
        Some(file) => {
            let found = read_split_file(alloc, compressed, load, file);
            Ok(Some(without_fault(found)?))
        }
        None => Ok(None),
    }
}

// What is kept of a file, and the sections that it answers a load with.
fn as_kept(
    found: SplitFound<AnsweringFile>,
) -> (SplitFound<ElfFile>, Option<Rc<Dwarf<EndianBytes>>>)
    ensures gives { result.0 ≡ found_as (λ f. f.object) found }
    ensures sections { option_map (λ d. d.value) result.1
        ≡ wanted_by (λ f. f.sections.value) found }
{
    match found {
        SplitFound::Wanted(file) => (SplitFound::Wanted(file.object), Some(file.sections)),
        SplitFound::Other(id) => (SplitFound::Other(id), None),
    }
}

// The sections of the file at a path with a stamp for a load. The file is read, and kept in place
// of what was kept for the path: itself if it has sections, so that of the files that a hostile
// unit names only those are held that answer.
fn read_stamped<F: FileSource>(
    alloc: Global,
    files: &F,
    compressed: CompressedSections,
    kept: &mut KeptFiles,
    load: &SplitDwarfLoad<EndianBytes>,
    path: &str,
    stamp: FileStamp,
) -> Result<Option<Rc<Dwarf<EndianBytes>>>, LoaderError>
    ensures made { IfOk result (λ found. IfSome found (λ d.
        AreOfSomeFile compressed load.now d.value)) }
    ensures refused { IfErr result (λ e. e ≡ OutOfMemory) }
    ensures after { KeepsStamped compressed load.now path.now stamp
        (result_map (option_map (λ d. d.value)) result) kept.old kept.new }
{
    kept.remove(path);
    let Some(found) = read_answering(alloc, files, compressed, load, path)? else {
        return Ok(None);
    };
    let (found, sections) = as_kept(found);
    // A refused growth is no refusal of the answer: nothing is kept, and the file is read again.
    match kept.put(path, stamp, found) {
        Ok(()) => {}
        Err(_) => {}
    }
    Ok(sections)
}

// The sections of the file at a path with a stamp for a load. Where it is kept with this stamp they
// are its sections, and none where another identifier than the load's is kept. Else it is read.
fn answer_stamped<F: FileSource>(
    alloc: Global,
    files: &F,
    compressed: CompressedSections,
    kept: &mut KeptFiles,
    load: &SplitDwarfLoad<EndianBytes>,
    path: &str,
    stamp: FileStamp,
) -> Result<Option<Rc<Dwarf<EndianBytes>>>, LoaderError>
    ensures gives { AnswersLoadStamped (λ d. d.value) compressed load.now path.now stamp kept.old
        result }
    ensures after { KeepsStamped compressed load.now path.now stamp
        (result_map (option_map (λ d. d.value)) result) kept.old kept.new }
{
    match kept.find(path, stamp) {
        Some(SplitFound::Wanted(object)) => {
            wanted(without_fault(read_split_object(alloc, compressed, load, object)))
        }
        Some(SplitFound::Other(id)) => {
            if is_same(load.dwo_id, *id) {
                read_stamped(alloc, files, compressed, kept, load, path, stamp)
            } else {
                Ok(None)
            }
        }
        None => read_stamped(alloc, files, compressed, kept, load, path, stamp),
    }
}

// The sections of the file at a path for a load, none where it has none.
fn answer_at<F: FileSource>(
    alloc: Global,
    files: &F,
    compressed: CompressedSections,
    kept: &mut KeptFiles,
    load: &SplitDwarfLoad<EndianBytes>,
    path: &str,
) -> Result<Option<Rc<Dwarf<EndianBytes>>>, LoaderError>
    ensures gives { AnswersLoadBy (λ d. d.value) compressed load.now
        (as_read_if_known compressed (F.files files.now))
        (λ held. Ok (split_at_path held load.now path.now)) (λ e. e ≡ OutOfMemory) result }
    ensures after { KeepsByFiles (F.files files.now) (KeepsAnswering compressed load.now path.now
        (result_map (option_map (λ d. d.value)) result)) kept.old kept.new }
{
    // The stamp is asked for before the file is read: one that changes in between has another stamp
    // at the next call.
    if let Some(stamp) = files.stamp(path) {
        return answer_stamped(alloc, files, compressed, kept, load, path, stamp);
    }
    match read_answering(alloc, files, compressed, load, path)? {
        Some(SplitFound::Wanted(file)) => Ok(Some(file.sections)),
        _ => Ok(None),
    }
}

// The answer to the load of a unit, by the files or by one that is kept. Takes no memory where the
// load has no path.
#[tactic(auto, unfolding(crate::specs::SplitFiles::given_by_files))]
pub(crate) fn answer_to<F: FileSource>(
    alloc: Global,
    files: &F,
    compressed: CompressedSections,
    kept: &mut KeptFiles,
    load: &SplitDwarfLoad<EndianBytes>,
) -> Result<Option<Rc<Dwarf<EndianBytes>>>, LoaderError>
    ensures gives { AnswersLoadByPath (λ d. d.value) compressed load.now
        (as_read_if_known compressed (F.files files.now)) result }
    ensures after { KeepsByFiles (F.files files.now) (KeepsAnswer compressed load.now
        (result_map (option_map (λ d. d.value)) result)) kept.old kept.new }
{
    let Some(path) = path_of(alloc, load)? else {
        return Ok(None);
    };
    answer_at(alloc, files, compressed, kept, load, text_of(&path)?)
}
