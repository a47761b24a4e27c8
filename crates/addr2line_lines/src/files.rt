//! The texts of a unit's files.

ghost use Rattle.std.specs.Prelude.{◌≡◌, Ok, map, option_map, option_copied, string_bytes};
ghost use Rattle.addr2line_lines.specs.Common.{ExactlyUnlessOom, as_value};
ghost use Rattle.addr2line_lines.specs.FileTexts.{bytes_if_some, optional_string, file_directory, text_of_file, texts_of, at_least_one, texts_after, own_name_first, file_texts};

use crate::path::{make_file_text, make_own_text};
use gimli::line::{FileEntry, LineProgramHeader};
use gimli::read::{AttributeValue, DWARF_5, Error, Reader};
use gimli::{Dwarf, Unit};
use std::alloc::Global;

// The directory that counts for a file.
fn directory_of<R: Reader>(
    header: &LineProgramHeader<R>,
    file: &FileEntry<R>,
) -> Result<Option<AttributeValue<R>>, Error>
    ensures gives { ExactlyUnlessOom (option_map (as_value R.section)) result
        (Ok (file_directory header.now file.now)) }
{
    if file.directory_index() == 0 {
        return Ok(None);
    }
    file.directory(header)
}

// The string of a value, where there is one.
fn optional_string<R: Reader>(
    dwarf: &Dwarf<R>,
    unit: &Unit<R>,
    value: Option<AttributeValue<R>>,
) -> Result<Option<R>, Error>
    ensures gives { ExactlyUnlessOom (option_map R.section) result
        (optional_string dwarf.now unit.now
        (option_map (as_value R.section) value)) }
{
    match value {
        None => Ok(None),
        Some(value) => Ok(Some(dwarf.attr_string(unit, value)?)),
    }
}

// The bytes of a reader, where there is one.
fn bytes_of<R: Reader>(reader: &Option<R>) -> Option<&[u8]>
    ensures gives { option_copied result ≡ bytes_if_some (option_map R.section reader.now) }
{
    match reader {
        Some(reader) => Some(reader.to_slice()),
        None => None,
    }
}

// The text of a file.
#[tactic(auto, unfolding(crate::specs::FileTexts::text_of_file))]
fn file_text<R: Reader>(
    alloc: Global,
    dwarf: &Dwarf<R>,
    unit: &Unit<R>,
    header: &LineProgramHeader<R>,
    file: &FileEntry<R>,
) -> Result<String, Error>
    ensures gives { ExactlyUnlessOom (λ text. string_bytes text) result
        (text_of_file dwarf.now unit.now
        header.now file.now) }
{
    let value = directory_of(header, file)?;
    let directory = optional_string(dwarf, unit, value)?;
    let path = dwarf.attr_string(unit, file.path_name()?)?;
    let base = bytes_of(&unit.comp_dir);
    let below = bytes_of(&directory);
    Ok(make_file_text(alloc, base, below, path.to_slice())?)
}

// Adds the texts of files, one after another.
fn push_texts<R: Reader>(
    alloc: Global,
    dwarf: &Dwarf<R>,
    unit: &Unit<R>,
    header: &LineProgramHeader<R>,
    files: &[FileEntry<R>],
    texts: &mut Vec<String>,
) -> Result<(), Error>
    ensures gives { ExactlyUnlessOom (λ _. map string_bytes texts.new.items) result
        (texts_after (map string_bytes texts.old.items)
        (texts_of dwarf.now unit.now
        header.now files.now)) }
{
    for file in files {
        texts.push(file_text(alloc, dwarf, unit, header, file)?)?;
    }
    Ok(())
}

// The texts of a unit's files by index.
fn read_texts<R: Reader>(
    alloc: Global,
    dwarf: &Dwarf<R>,
    unit: &Unit<R>,
    header: &LineProgramHeader<R>,
    files: &[FileEntry<R>],
) -> Result<Vec<String>, Error>
    ensures gives { ExactlyUnlessOom (λ v. map string_bytes v.items) result
        (texts_of dwarf.now unit.now
        header.now files.now) }
{
    let mut texts = Vec::new(alloc);
    push_texts(alloc, dwarf, unit, header, files, &mut texts)?;
    Ok(texts)
}

// The texts of a unit's files below version 5: first the unit's own name.
fn read_own_name_first<R: Reader>(
    alloc: Global,
    dwarf: &Dwarf<R>,
    unit: &Unit<R>,
    header: &LineProgramHeader<R>,
    files: &[FileEntry<R>],
) -> Result<Vec<String>, Error>
    ensures gives { ExactlyUnlessOom (λ v. map string_bytes v.items) result
        (own_name_first dwarf.now unit.now
        header.now files.now) }
{
    let mut texts = Vec::new(alloc);
    let own = make_own_text(alloc, bytes_of(&unit.comp_dir), bytes_of(&unit.name))?;
    texts.push(own)?;
    push_texts(alloc, dwarf, unit, header, files, &mut texts)?;
    Ok(texts)
}

// An empty text where there is none.
fn fill(alloc: Global, texts: &mut Vec<String>) -> Result<(), Error>
    ensures gives { ExactlyUnlessOom (λ _. map string_bytes texts.new.items) result
        (Ok (at_least_one (map string_bytes texts.old.items))) }
{
    if texts.is_empty() {
        texts.push(String::new(alloc))?;
    }
    Ok(())
}

/// The texts of a unit's files by index, from 0 on; `header` is its program's, `files` are those of
/// the header with the ones that the program defines.
///
/// Refused by the first text that can't be read, by index, and `OutOfMemory`.
pub(crate) fn read_file_texts<R: Reader>(
    alloc: Global,
    dwarf: &Dwarf<R>,
    unit: &Unit<R>,
    header: &LineProgramHeader<R>,
    files: &[FileEntry<R>],
) -> Result<Vec<String>, Error>
    ensures gives { ExactlyUnlessOom (λ v. map string_bytes v.items) result
        (file_texts dwarf.now unit.now
        header.now files.now) }
{
    if header.version() < DWARF_5 {
        return read_own_name_first(alloc, dwarf, unit, header, files);
    }
    let mut texts = read_texts(alloc, dwarf, unit, header, files)?;
    fill(alloc, &mut texts)?;
    Ok(texts)
}
