//! What flags ask for.

ghost use Rattle.std.specs.Prelude.{◌≡◌};
ghost use Rattle.addr2line_c.specs.Flags.{compressed_by, names_by};

use addr2line::{CompressedSections, Style};

/// What becomes of compressed sections by the flags of opening, if there are no others.
pub(crate) fn compressed_by(flags: u32) -> Option<CompressedSections>
    ensures gives { result ≡ compressed_by flags }
{
    match flags {
        0 => Some(CompressedSections::Refused),
        1 => Some(CompressedSections::Decompressed),
        _ => None,
    }
}

/// The style of names by the flags of a lookup, none for names as they are, if there are no others.
pub(crate) fn names_by(flags: u32) -> Option<Option<Style>>
    ensures gives { result ≡ names_by flags }
{
    match flags {
        0 => Some(None),
        1 => Some(Some(Style::Legacy)),
        2 | 3 => Some(Some(Style::Rust)),
        _ => None,
    }
}
