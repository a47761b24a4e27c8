//! A location in a source file.

ghost use Rattle.std.specs.Prelude.{◌≡◌, [], map, slice_get, option_copied, string_bytes};
ghost use Rattle.addr2line_lines.specs.Location.{location_of_row};
ghost use Rattle.addr2line_lines.specs.LentLocation.{as_location};

use crate::row::Row;

/// A location in a source file.
#[derive(Clone, Copy, Debug, PartialEq, Eq)]
pub struct Location<'a> {
    /// The text of the file, as the unit's files have it.
    pub file: Option<&'a str>,
    /// The line, counted from 1.
    pub line: Option<u32>,
    /// The column, counted from 1; 0 is the left edge. There is one where there is a line.
    pub column: Option<u32>,
}

/// The text of a file by its index, `None` past the last one.
pub(crate) fn file_text(files: &[String], index: u64) -> Option<&str>
    ensures gives { option_copied result ≡ slice_get (map string_bytes files.now) index }
{
    Some(files.get(index as usize)?.as_str())
}

/// The location that a row gives.
pub(crate) fn row_location(files: &[String], row: Row) -> Location<'_>
    ensures gives { as_location result ≡ location_of_row (map string_bytes files.now) row }
{
    let file = file_text(files, row.file_index);
    if row.line == 0 {
        return Location {
            file,
            line: None,
            column: None,
        };
    }
    Location {
        file,
        line: Some(row.line),
        column: Some(row.column),
    }
}

impl<'a> Location<'a> {
    /// The location that a row gives where there are no files. Takes no memory.
    pub fn without_file(row: Row) -> Location<'a>
        ensures gives { as_location result ≡ location_of_row [] row }
    {
        row_location(&[], row)
    }
}
