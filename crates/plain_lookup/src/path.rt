//! Texts of files, put together by their parts.

use gimli::read::{Error, Reader};
use std::alloc::Global;

const SLASH: u8 = b'/';

const BACKSLASH: u8 = b'\\';

// Whether the text begins with the separator, or has it at byte 2 after a colon.
fn has_root(text: &[u8], separator: u8) -> bool {
    text.first().copied() == Some(separator)
        || (text.get(1).copied() == Some(b':') && text.get(2).copied() == Some(separator))
}

/// The path with a text pushed: a text with a root replaces it, else a separator stands between
/// where there is a path that doesn't end in it.
pub fn push(alloc: Global, path: String, text: &str) -> Result<String, Error> {
    if has_root(text.as_bytes(), SLASH) || has_root(text.as_bytes(), BACKSLASH) {
        return Ok(String::from_str(alloc, text)?);
    }
    let mut path = path;
    let is_backslash = has_root(path.as_bytes(), BACKSLASH);
    let separator = if is_backslash { BACKSLASH } else { SLASH };
    if !path.is_empty() && path.as_bytes().last().copied() != Some(separator) {
        path.push_str(if is_backslash { "\\" } else { "/" })?;
    }
    path.push_str(text)?;
    Ok(path)
}

/// The path with the text of a reader pushed, decoded lossily.
pub fn push_reader<R: Reader>(alloc: Global, path: String, text: &R) -> Result<String, Error> {
    let text = text.to_string_lossy(alloc)?;
    push(alloc, path, text.as_str())
}
