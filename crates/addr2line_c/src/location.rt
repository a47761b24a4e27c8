//! Locations, as C gets them.

ghost use Rattle.std.specs.Prelude.{◌≡◌, ◌++◌, ℕ, List, length, option_map};
ghost use Rattle.addr2line_lines.specs.LentLocation.{as_location};
ghost use Rattle.addr2line_c.specs.Filled.{IsFilled};
ghost use Rattle.addr2line_c.specs.Texts.{optional_text, zero_ended};
ghost use Rattle.addr2line_c.specs.Written.{location_column, location_file, location_line, written_location};

use crate::parts::{NumberPart, TextPart, number_part, put_text};
use addr2line::Location;

/// A location in a source file, as C gets it.
#[repr(C)]
#[derive(Clone, Copy)]
pub struct WrittenLocation {
    /// The text of the file.
    pub file: TextPart,
    /// The line, counted from 1.
    pub line: NumberPart,
    /// The column, counted from 1; 0 is the left edge.
    pub column: NumberPart,
}

// The bytes of the file of a location.
fn location_file<'a>(location: Option<Location<'a>>) -> Option<&'a [u8]>
    ensures gives { option_map (λ t. t.now) result
        ≡ location_file (option_map as_location location.entry) }
{
    let file = location?.file?;
    Some(file.as_bytes())
}

// The line of a location.
fn location_line(location: Option<Location<'_>>) -> Option<u32>
    ensures gives { result ≡ location_line (option_map as_location location.entry) }
{
    location?.line
}

// The column of a location.
fn location_column(location: Option<Location<'_>>) -> Option<u32>
    ensures gives { result ≡ location_column (option_map as_location location.entry) }
{
    location?.column
}

/// A location that may be there, with its text after those of the buffer.
pub(crate) fn put_location(
    buffer: &mut [u8],
    used: &mut usize,
    location: Option<Location<'_>>,
) -> WrittenLocation
    ensures gives { (before : List (List ℕ)) → IsFilled used.old buffer.old (zero_ended before)
        → IsFilled used.new buffer.new (zero_ended (before
        ++ optional_text (location_file (option_map as_location location.entry)))) }
    ensures made { (before : List (List ℕ)) → IsFilled used.old buffer.old (zero_ended before)
        → result ≡ written_location before (option_map as_location location.entry) }
    ensures kept { length buffer.new ≡ length buffer.old }
{
    let file = put_text(buffer, used, location_file(location));
    WrittenLocation {
        file,
        line: number_part(location_line(location)),
        column: number_part(location_column(location)),
    }
}
