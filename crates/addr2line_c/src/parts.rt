//! Parts of what C gets: texts by offset and length, and numbers, each with whether it is there.

ghost use Rattle.std.specs.Prelude.{◌≡◌, ◌++◌, ℕ, List, length, option_map};
ghost use Rattle.addr2line_c.specs.Filled.{IsFilled};
ghost use Rattle.addr2line_c.specs.Parts.{number_part, offset_part};
ghost use Rattle.addr2line_c.specs.Texts.{optional_text, zero_ended, text_after};

use crate::fill::fill;

/// A text in the caller's buffer, with a zero byte after it.
#[repr(C)]
#[derive(Clone, Copy)]
pub struct TextPart {
    /// Where it begins, in bytes from the start of the buffer.
    pub offset: usize,
    /// How many bytes it has, without the zero byte after it.
    pub length: usize,
    /// 1, and 0 where there is no such text.
    pub is_there: u32,
}

/// A number that may be there.
#[repr(C)]
#[derive(Clone, Copy)]
pub struct NumberPart {
    /// The number, and 0 where there is none.
    pub value: u32,
    /// 1, and 0 where there is none.
    pub is_there: u32,
}

/// An offset that may be there.
#[repr(C)]
#[derive(Clone, Copy)]
pub struct OffsetPart {
    /// The offset, and 0 where there is none.
    pub value: u64,
    /// 1, and 0 where there is none.
    pub is_there: u32,
}

/// Adds a text that may be there after those of the buffer.
pub(crate) fn put_text(buffer: &mut [u8], used: &mut usize, text: Option<&[u8]>) -> TextPart
    ensures gives { (before : List (List ℕ)) → IsFilled used.old buffer.old (zero_ended before)
        → IsFilled used.new buffer.new
        (zero_ended (before ++ optional_text (option_map (λ t. t.now) text.entry))) }
    ensures made { (before : List (List ℕ)) → IsFilled used.old buffer.old (zero_ended before)
        → result ≡ text_after before (option_map (λ t. t.now) text.entry) }
    ensures kept { length buffer.new ≡ length buffer.old }
{
    let Some(text) = text else {
        return TextPart {
            offset: 0,
            length: 0,
            is_there: 0,
        };
    };
    let offset = *used;
    let after = fill(buffer, offset, text);
    *used = fill(buffer, after, b"\0");
    TextPart {
        offset,
        length: text.len(),
        is_there: 1,
    }
}

/// A number that may be there.
pub(crate) fn number_part(number: Option<u32>) -> NumberPart
    ensures gives { result ≡ number_part number }
{
    match number {
        Some(value) => NumberPart { value, is_there: 1 },
        None => NumberPart {
            value: 0,
            is_there: 0,
        },
    }
}

/// An offset that may be there.
pub(crate) fn offset_part(offset: Option<u64>) -> OffsetPart
    ensures gives { result ≡ offset_part offset }
{
    match offset {
        Some(value) => OffsetPart { value, is_there: 1 },
        None => OffsetPart {
            value: 0,
            is_there: 0,
        },
    }
}
