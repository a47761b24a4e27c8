//! The tables of a header: directories and files.

ghost use Rattle.std.specs.Option.{option_map};
ghost use Rattle.std.specs.Prelude.{◌≡◌, is_ok, map};
ghost use Rattle.gimli_line.specs.Common.{ExactlyUnlessOomFor, ReadsUnlessOomIf, as_value, ExactlyAtCost, ReadsAtCost};
ghost use Rattle.gimli_line.specs.Stored.{stored_run, old_tables_at_cost, new_tables_at_cost, tables_at_cost};
ghost use Rattle.gimli_line.specs.Tables.{directory_at, file_at};

use crate::entry_tables::{paths_of, read_table};
use crate::header::FileEntry;
use crate::opcode::read_file_with_path;
use gimli_read::{AttributeValue, DWARF_5, Encoding, Error, Reader};
use std::alloc::Global;
use std::marker::Model;

/// Directories and files.
#[derive(Drop)]
pub struct HeaderTables<R: Reader> {
    /// The directories.
    pub include_directories: Vec<AttributeValue<R>>,
    /// The files.
    pub file_names: Vec<FileEntry<R>>,
}

impl<R: Reader> Model for HeaderTables<R> {
    ghost use Rattle.std.specs.Prelude.{is_ok, map};
    ghost use Rattle.gimli_read.specs.Form.{as_value};
    ghost use Rattle.gimli_line.specs.Tables.{Tables};

    ghost Value = { Tables };

    ghost view = { λ t. record {
      include_directories = map (as_value R.section) t.include_directories.items;
      file_names = t.file_names.items;
    } };
}

// A directory of versions 2 to 4.
#[tactic(auto, unfolding(crate::specs::Tables::directory_at))]
fn read_directory<R: Reader>(input: &mut R) -> Result<Option<AttributeValue<R>>, Error>
    ensures gives { ExactlyUnlessOomFor R.shares is_ok
        (λ d. (option_map (as_value R.section) d, R.section input.new)) result
        (directory_at (R.section input.old)) }
{
    let path = input.read_null_terminated()?;
    if path.is_empty() {
        return Ok(None);
    }
    Ok(Some(AttributeValue::String(path)))
}

// A file of the table of versions 2 to 4.
#[tactic(auto, unfolding(crate::specs::Tables::file_at))]
fn read_file<R: Reader>(input: &mut R) -> Result<Option<FileEntry<R>>, Error>
    ensures gives { ReadsUnlessOomIf R.shares R.section input.old input.new result file_at }
{
    let path = input.read_null_terminated()?;
    if path.is_empty() {
        return Ok(None);
    }
    Ok(Some(read_file_with_path(path, input)?))
}

// The directories of versions 2 to 4.
fn read_directories<R: Reader>(
    alloc: Global,
    input: &mut R,
) -> Result<Vec<AttributeValue<R>>, Error>
    ensures gives { ExactlyAtCost R.shares
        (λ v. (map (as_value R.section) v.items, R.section input.new)) result
        (stored_run directory_at (R.section input.old)) }
{
    let mut directories = Vec::new(alloc);
    while let Some(directory) = read_directory(input)? {
        directories.push(directory)?;
    }
    Ok(directories)
}

// The files of versions 2 to 4.
fn read_files<R: Reader>(alloc: Global, input: &mut R) -> Result<Vec<FileEntry<R>>, Error>
    ensures gives { ExactlyAtCost R.shares (λ v. (v.items, R.section input.new)) result
        (stored_run file_at (R.section input.old)) }
{
    let mut files = Vec::new(alloc);
    while let Some(file) = read_file(input)? {
        files.push(file)?;
    }
    Ok(files)
}

// The tables of versions 2 to 4.
#[tactic(auto, unfolding(crate::specs::Tables::old_tables_at, crate::specs::Stored::stored_old_tables_at))]
fn read_old_tables<R: Reader>(alloc: Global, input: &mut R) -> Result<HeaderTables<R>, Error>
    ensures gives { ReadsAtCost R.shares R.section input.old input.new result
        old_tables_at_cost }
{
    let include_directories = read_directories(alloc, input)?;
    let file_names = read_files(alloc, input)?;
    Ok(HeaderTables {
        include_directories,
        file_names,
    })
}

// The tables of version 5.
#[tactic(auto, unfolding(crate::specs::Tables::new_tables_at, crate::specs::Stored::stored_new_tables_at))]
fn read_new_tables<R: Reader>(
    alloc: Global,
    encoding: Encoding,
    input: &mut R,
) -> Result<HeaderTables<R>, Error>
    ensures gives { ReadsAtCost R.shares R.section input.old input.new result
        (new_tables_at_cost encoding) }
{
    let directories = read_table(alloc, encoding, input)?;
    let file_names = read_table(alloc, encoding, input)?;
    Ok(HeaderTables {
        include_directories: paths_of(alloc, directories)?,
        file_names,
    })
}

/// Reads the tables of a header. Takes memory only where bytes are shared, or a table has something
/// to be stored.
#[tactic(auto, unfolding(crate::specs::Tables::tables_at, crate::specs::Stored::stored_tables_at))]
pub(crate) fn read_tables<R: Reader>(
    alloc: Global,
    encoding: Encoding,
    input: &mut R,
) -> Result<HeaderTables<R>, Error>
    ensures gives { ReadsAtCost R.shares R.section input.old input.new result
        (tables_at_cost encoding) }
{
    if encoding.version < DWARF_5 {
        return read_old_tables(alloc, input);
    }
    read_new_tables(alloc, encoding, input)
}
