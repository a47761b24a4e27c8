//! The text of an element of a legacy name.

ghost use Rattle.std.specs.Prelude.{◌≡◌, ◌≤◌, ◌<◌, ◌+◌, ◌++◌, ◌==◌, ◌∷◌, length, IfSome, IfOk, OnOk, string_bytes, true};
ghost use Rattle.std.specs.Char.{is_ascii};
ghost use Rattle.std.specs.List.{list_all, position};
ghost use Rattle.std.specs.Str.{byte};
ghost use Rattle.addr2line_units.specs.LegacyElements.{is_dot, is_first};
ghost use Rattle.addr2line_units.specs.LegacyText.{bare_of, joint_text, element_text, escape_char, escape_in, numbered_char, plain_from, shown_char};

use super::digits::{is_lower_hex_text, number_up_to};
use std::alloc::AllocError;

/// Whether a dot stands first.
fn starts_with_dot(bytes: &[u8]) -> bool
    ensures { result ≡ is_first is_dot bytes.now }
{
    match bytes.first() {
        Some(first) => *first == b'.',
        None => false,
    }
}

/// The character of a number, if it is one and no control.
fn char_of(number: u32) -> Option<char>
    ensures { result ≡ shown_char number }
{
    let shown = char::from_u32(number)?;
    if shown.is_control() {
        None
    } else {
        Some(shown)
    }
}

/// The character that the digits after `u` name.
fn numbered(body: &[u8]) -> Option<char>
    ensures { result ≡ numbered_char body.now }
{
    let (first, digits) = body.split_first()?;
    if *first != b'u' || digits.is_empty() || !is_lower_hex_text(digits) {
        return None;
    }
    char_of(number_up_to(digits, 16, u64::from(char::MAX))? as u32)
}

/// The character that stands between two dollars.
#[tactic(auto, unfolding(crate::specs::LegacyText::escape_char))]
fn escaped(body: &[u8]) -> Option<char>
    ensures { result ≡ escape_char body.now }
{
    if body == b"SP".as_slice() {
        Some('@')
    } else if body == b"BP".as_slice() {
        Some('*')
    } else if body == b"RF".as_slice() {
        Some('&')
    } else if body == b"LT".as_slice() {
        Some('<')
    } else if body == b"GT".as_slice() {
        Some('>')
    } else if body == b"LP".as_slice() {
        Some('(')
    } else if body == b"RP".as_slice() {
        Some(')')
    } else if body == b"C".as_slice() {
        Some(',')
    } else {
        numbered(body)
    }
}

/// The place of the first dollar.
fn dollar_in(bytes: &[u8]) -> Option<usize>
    ensures gives { result ≡ position (λ b. b == byte "$") bytes.now }
    ensures within { IfSome result (λ k. k < length bytes.now) }
{
    bytes.iter().position(|b| *b == b'$')
}

/// The escape after a dollar: its character, and how many bytes it takes.
#[tactic(auto, unfolding(crate::specs::LegacyText::escape_in))]
fn escape_after(rest: &[u8]) -> Option<(char, usize)>
    ensures gives { result ≡ escape_in rest.now }
    ensures within { IfSome result (λ e. e.1 ≤ length rest.now) }
{
    let len = dollar_in(rest)?;
    let (body, _) = rest.split_at(len);
    let shown = escaped(body)?;
    Some((shown, len + 1))
}

/// Adds ASCII bytes.
pub(super) fn push_ascii(out: &mut String, bytes: &[u8]) -> Result<(), AllocError>
    requires { list_all is_ascii bytes.now ≡ true }
    ensures { OnOk result (string_bytes out.new ≡ string_bytes out.old ++ bytes.now) }
{
    for b in bytes {
        out.push(*b as char)?;
    }
    Ok(())
}

/// Adds the text of a dollar and what follows it, up to the answer, which is left.
#[tactic(auto, using(crate::proofs::LegacySteps::plain_steps))]
fn push_escape<'a>(out: &mut String, rest: &'a [u8]) -> Result<&'a [u8], AllocError>
    requires { list_all is_ascii rest.now ≡ true }
    ensures gives { IfOk result (λ left. string_bytes out.new ++ plain_from 0 left.now
        ≡ string_bytes out.old ++ plain_from 0 (byte "$" ∷ rest.now)) }
    ensures left { IfOk result (λ left. (length left.now ≤ length rest.now)
        × (list_all is_ascii left.now ≡ true)) }
{
    match escape_after(rest) {
        Some((shown, len)) => {
            out.push(shown)?;
            let (_, left) = rest.split_at(len);
            Ok(left)
        }
        None => {
            out.push('$')?;
            push_ascii(out, rest)?;
            let (_, left) = rest.split_at(rest.len());
            Ok(left)
        }
    }
}

/// Adds the text of what stands first, up to the answer, which is left.
#[tactic(auto, using(crate::proofs::LegacySteps::plain_steps))]
fn push_piece<'a>(out: &mut String, first: u8, rest: &'a [u8]) -> Result<&'a [u8], AllocError>
    requires first { first < 128 }
    requires rest { list_all is_ascii rest.now ≡ true }
    ensures gives { IfOk result (λ left. string_bytes out.new ++ plain_from 0 left.now
        ≡ string_bytes out.old ++ plain_from 0 (first ∷ rest.now)) }
    ensures left { IfOk result (λ left. (length left.now ≤ length rest.now)
        × (list_all is_ascii left.now ≡ true)) }
{
    if first == b'$' {
        return push_escape(out, rest);
    }
    if first == b'.' && starts_with_dot(rest) {
        out.push_str("::")?;
        let (_, left) = rest.split_at(1);
        return Ok(left);
    }
    out.push(first as char)?;
    Ok(rest)
}

/// Adds the text of an element's bytes, read from the left.
#[tactic(auto, using(crate::proofs::LegacySteps::plain_steps))]
fn push_plain(out: &mut String, bytes: &[u8]) -> Result<(), AllocError>
    requires { list_all is_ascii bytes.now ≡ true }
    ensures { OnOk result (string_bytes out.new ≡ string_bytes out.old ++ plain_from 0 bytes.now) }
{
    let mut left = bytes;
    while let Some((first, rest)) = left.split_first() {
        left = push_piece(out, *first, rest)?;
    }
    Ok(())
}

/// The element without the underscore of a leading `_$`.
fn bare(element: &[u8]) -> &[u8]
    ensures { result.now ≡ bare_of element.now }
{
    if element.starts_with(b"_$".as_slice()) {
        &element[1..]
    } else {
        element
    }
}

/// Adds the text of an element, after two colons unless it is the first.
#[tactic(auto, unfolding(crate::specs::LegacyText::element_text))]
pub(super) fn push_element(
    out: &mut String,
    element: &[u8],
    is_first: bool,
) -> Result<(), AllocError>
    requires { list_all is_ascii element.now ≡ true }
    ensures { OnOk result (string_bytes out.new
        ≡ string_bytes out.old ++ joint_text is_first (element_text element.now)) }
{
    if !is_first {
        out.push_str("::")?;
    }
    push_plain(out, bare(element))
}
