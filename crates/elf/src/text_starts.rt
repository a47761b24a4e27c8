//! The places of a string table where texts in UTF-8 begin, found for all places at once.
//!
//! Many symbols may share one long name, or have parts of it for names. So the table is read
//! once, and no text is read for each symbol that has it: from its last byte to its first, unless
//! it is ASCII alone, as most tables are.

ghost use Rattle.std.specs.List.{list_all};
ghost use Rattle.std.specs.Prelude.{◌≡◌, ◌<◌, length, drop, true, IfOk, IsOk};
ghost use Rattle.std.specs.Char.{is_ascii};
ghost use Rattle.elf.specs.TextStarts.{AreStarts, begins_at, begins_text, is_ascii_table, text_starts, IsTextDistance};

use gimli_read::is_utf8;
use std::alloc::{AllocError, Global};

// The greatest number of bytes of a character in UTF-8.
const MAX_LEN_UTF8: usize = 4;

// How many bytes after the front of `tail` the nearest text in UTF-8 begins, up to its next zero
// byte; `None` without a zero byte. `next` is the same for the tail after the first byte.
fn text_distance(tail: &[u8], next: Option<usize>) -> Option<usize>
    requires some { 0 < length tail.now }
    requires next { IsTextDistance (drop 1 tail.now) next }
    ensures gives { IsTextDistance tail.now result }
{
    if tail[0] == 0 {
        return Some(0);
    }
    let distance = next? + 1;
    // After a text's first character its rest begins a text too, so the nearest one is within
    // four bytes.
    if distance > MAX_LEN_UTF8 {
        return Some(distance);
    }
    if is_utf8(&tail[..distance]) {
        Some(0)
    } else {
        Some(distance)
    }
}

// Whether a text begins at the front, by its distance.
fn is_start(tail: &[u8], distance: Option<usize>) -> bool
    requires distance { IsTextDistance tail.now distance }
    ensures gives { result ≡ begins_text tail.now }
{
    match distance {
        Some(distance) => distance == 0,
        None => false,
    }
}

/// At which places of a string table a text in UTF-8 begins that ends at a zero byte.
#[derive(Drop)]
pub(crate) enum TextStarts {
    /// At each.
    Everywhere,
    /// Whether at a place, for each of them.
    Marked(Vec<bool>),
}

impl TextStarts {
    /// Whether a text begins at a place.
    pub(crate) fn begins_at(&self, place: usize) -> bool
        ensures gives { result ≡ begins_at self.now place }
    {
        match self {
            TextStarts::Everywhere => true,
            TextStarts::Marked(marks) => matches!(marks.get(place), Some(true)),
        }
    }
}

// Whether all bytes are ASCII.
fn is_ascii(bytes: &[u8]) -> bool
    ensures gives { result ≡ list_all is_ascii bytes.now }
{
    bytes.is_ascii()
}

// Whether a table is ASCII alone and its last byte is zero.
fn is_ascii_table(table: &[u8]) -> bool
    ensures gives { result ≡ is_ascii_table table.now }
{
    match table.last() {
        Some(byte) => *byte == 0 && is_ascii(table),
        None => false,
    }
}

// A mark for each place of a table, whether a text begins there.
fn marks(alloc: Global, table: &[u8]) -> Result<Vec<bool>, AllocError>
    ensures gives { IfOk result (λ v. v.items ≡ text_starts table.now) }
{
    let mut starts = Vec::new(alloc);
    let mut distance = None;
    for read in 0..table.len() {
        let (_, tail) = table.split_at(table.len() - 1 - read);
        distance = text_distance(tail, distance);
        starts.push(is_start(tail, distance))?;
    }
    starts.reverse();
    Ok(starts)
}

/// At which places of a table a text in UTF-8 begins. Takes no memory for a table that is ASCII
/// alone and ends in a zero byte, else a mark for each of its bytes.
pub(crate) fn text_starts(alloc: Global, table: &[u8]) -> Result<TextStarts, AllocError>
    ensures gives { IfOk result (AreStarts table.now) }
    ensures none { is_ascii_table table.now ≡ true → IsOk result }
{
    if is_ascii_table(table) {
        return Ok(TextStarts::Everywhere);
    }
    Ok(TextStarts::Marked(marks(alloc, table)?))
}
