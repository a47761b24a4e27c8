//! The tables of version 5: entries whose values a format lists.

ghost use Rattle.std.specs.Prelude.{◌≡◌, ◌==◌, not, false, true, count_by, length, map, Ok};
ghost use Rattle.gimli_line.specs.Common.{ExactlyUnlessOomIf, ReadsUnlessOomIf, Reads, ExactlyAtCost, as_value};
ghost use Rattle.gimli_line.specs.EntryTables.{format_at, is_path, is_bad_path, is_sound_format, no_entry, with_value, values_at, formatted_entry_at};
ghost use Rattle.gimli_line.specs.Stored.{stored_times, formats_at_cost, entry_front_at_cost, entry_table_at_cost};

use crate::constants::{DW_LNCT_directory_index, DW_LNCT_path};
use crate::header::FileEntry;
use gimli_read::{AttributeValue, DwForm, Encoding, Error, Reader, read_value};
use std::alloc::Global;
use std::marker::Model;

/// What a value of a table's entries is, and its form.
#[derive(Clone, Copy)]
pub struct EntryFormat {
    /// The content type.
    pub content_type: u64,
    /// The form.
    pub form: DwForm,
}

/// What is read of an entry.
#[derive(Drop)]
pub struct EntryValues<R: Reader> {
    /// The path, once it is read.
    pub path_name: Option<AttributeValue<R>>,
    /// The directory, by its index.
    pub directory_index: u64,
}

impl<R: Reader> Model for EntryValues<R> {
    ghost use Rattle.std.specs.Option.{option_map};
    ghost use Rattle.gimli_read.specs.Form.{as_value};
    ghost use Rattle.gimli_line.specs.EntryTables.{EntryValues};

    ghost Value = { EntryValues };

    ghost view = { λ e. record {
      path_name = option_map (as_value R.section) e.path_name;
      directory_index = e.directory_index;
    } };
}

// What a value of the entries is, and its form.
#[tactic(auto, unfolding(crate::specs::EntryTables::format_at))]
fn read_format<R: Reader>(input: &mut R) -> Result<EntryFormat, Error>
    ensures gives { Reads R.section input.old input.new result format_at }
{
    let content_type = input.read_uleb128()?;
    let form = DwForm(input.read_uleb128()?);
    Ok(EntryFormat { content_type, form })
}

// Reads `count` formats.
fn read_times_format<R: Reader>(
    alloc: Global,
    count: u8,
    input: &mut R,
) -> Result<Vec<EntryFormat>, Error>
    ensures gives { ExactlyAtCost R.shares (λ v. (v.items, R.section input.new)) result
        (stored_times false format_at count (R.section input.old)) }
{
    let mut formats = Vec::new(alloc);
    for _ in 0..count {
        formats.push(read_format(input)?)?;
    }
    Ok(formats)
}

// Reads a count, and as many formats.
#[tactic(auto, unfolding(crate::specs::EntryTables::formats_at, crate::specs::Stored::stored_formats_at))]
fn read_formats<R: Reader>(alloc: Global, input: &mut R) -> Result<Vec<EntryFormat>, Error>
    ensures gives { ExactlyAtCost R.shares (λ v. (v.items, R.section input.new)) result
        (formats_at_cost (R.section input.old)) }
{
    let count = input.read_u8()?;
    read_times_format(alloc, count, input)
}

// Whether a value is a path of no form of strings.
fn has_bad_path(format: EntryFormat) -> bool
    ensures gives { result ≡ is_bad_path format }
{
    format.content_type == DW_LNCT_path && !format.form.is_string()
}

fn count_paths(formats: &[EntryFormat]) -> usize
    ensures gives { result ≡ count_by is_path formats.now }
{
    formats
        .iter()
        .filter(|format| format.content_type == DW_LNCT_path)
        .count()
}

fn count_bad_paths(formats: &[EntryFormat]) -> usize
    ensures gives { result ≡ count_by is_bad_path formats.now }
{
    formats
        .iter()
        .filter(|format| has_bad_path(**format))
        .count()
}

// Whether a format has exactly one path, of a form of strings.
fn is_sound(formats: &[EntryFormat]) -> bool
    ensures gives { result ≡ is_sound_format formats.now }
{
    count_paths(formats) == 1 && count_bad_paths(formats) == 0
}

// Takes a value into an entry.
fn take_value<R: Reader>(entry: &mut EntryValues<R>, content_type: u64, value: AttributeValue<R>)
    ensures gives { entry.new ≡ with_value content_type (as_value R.section value) entry.old }
{
    match content_type {
        DW_LNCT_path => entry.path_name = Some(value),
        DW_LNCT_directory_index => entry.directory_index = value.udata_value().unwrap_or(0),
        _ => {}
    }
}

// The values of an entry.
fn read_values<R: Reader>(
    encoding: Encoding,
    formats: &[EntryFormat],
    input: &mut R,
) -> Result<EntryValues<R>, Error>
    ensures gives { ReadsUnlessOomIf R.shares R.section input.old input.new result
        (values_at encoding formats.now no_entry) }
{
    let mut entry = EntryValues {
        path_name: None,
        directory_index: 0,
    };
    for format in formats {
        let value = read_value(input, encoding, format.form)?;
        take_value(&mut entry, format.content_type, value);
    }
    Ok(entry)
}

// An entry of a table of version 5.
#[tactic(auto, unfolding(crate::specs::EntryTables::formatted_entry_at))]
fn read_entry<R: Reader>(
    encoding: Encoding,
    formats: &[EntryFormat],
    input: &mut R,
) -> Result<FileEntry<R>, Error>
    ensures gives { ReadsUnlessOomIf R.shares R.section input.old input.new result
        (formatted_entry_at encoding formats.now) }
{
    let EntryValues {
        path_name,
        directory_index,
    } = read_values(encoding, formats, input)?;
    match path_name {
        None => Err(Error::BadLineHeader),
        Some(path_name) => Ok(FileEntry {
            path_name,
            directory_index,
        }),
    }
}

// Reads `count` entries of a table of version 5.
fn read_entries<R: Reader>(
    alloc: Global,
    encoding: Encoding,
    formats: &[EntryFormat],
    count: u64,
    input: &mut R,
) -> Result<Vec<FileEntry<R>>, Error>
    ensures gives { ExactlyAtCost R.shares (λ v. (v.items, R.section input.new)) result
        (stored_times true (formatted_entry_at encoding formats.now) count
        (R.section input.old)) }
{
    let mut files = Vec::new(alloc);
    for _ in 0..count {
        files.push(read_entry(encoding, formats, input)?)?;
    }
    Ok(files)
}

// What stands before the entries of a table: what the values of each are, and how many there are.
#[tactic(auto, unfolding(crate::specs::EntryTables::entry_front_at))]
fn read_front<R: Reader>(alloc: Global, input: &mut R) -> Result<(Vec<EntryFormat>, u64), Error>
    ensures gives { ExactlyAtCost R.shares
        (λ x. (record { formats = x.0.items; count = x.1 }, R.section input.new)) result
        (entry_front_at_cost (R.section input.old)) }
{
    let formats = read_formats(alloc, input)?;
    let count = input.read_uleb128()?;
    if count != 0 && !is_sound(&formats) {
        return Err(Error::BadLineHeader);
    }
    Ok((formats, count))
}

/// Reads a table of version 5: directories or files. Takes memory only where bytes are shared, or
/// the table has a format that can be read.
#[tactic(auto, unfolding(crate::specs::EntryTables::entry_table_at, crate::specs::Stored::stored_entry_table_at))]
pub(crate) fn read_table<R: Reader>(
    alloc: Global,
    encoding: Encoding,
    input: &mut R,
) -> Result<Vec<FileEntry<R>>, Error>
    ensures gives { ExactlyAtCost R.shares (λ v. (v.items, R.section input.new)) result
        (entry_table_at_cost encoding (R.section input.old)) }
{
    let (formats, count) = read_front(alloc, input)?;
    read_entries(alloc, encoding, &formats, count, input)
}

/// The paths of entries. Takes memory only where there is an entry.
pub(crate) fn paths_of<R: Reader>(
    alloc: Global,
    entries: Vec<FileEntry<R>>,
) -> Result<Vec<AttributeValue<R>>, Error>
    ensures gives { ExactlyUnlessOomIf (not (length entries.items == 0))
        (λ v. map (as_value R.section) v.items) result
        (Ok (map (λ f. f.path_name) entries.items)) }
{
    let mut paths = Vec::new(alloc);
    for entry in entries {
        paths.push(entry.path_name)?;
    }
    Ok(paths)
}
