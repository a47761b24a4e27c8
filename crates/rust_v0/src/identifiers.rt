//! Identifiers: words after their lengths, and Punycode.

ghost use Rattle.std.specs.Prelude.{◌≡◌, None, Some, Ok, ◌≤◌, ◌<◌, ◌+◌, ◌++◌, length, true, false, is_err, IfSome, IfOk, IsOkAnd, OnOk, MatchOption, MatchResult, string_bytes, option_map};
ghost use Rattle.std.specs.Char.{is_ascii, is_ascii_digit};
ghost use Rattle.std.specs.List.{list_all, prefix_len};
ghost use Rattle.idna.specs.declared.Errors.TheVariants.{Invalid, OutOfMemory};
ghost use Rattle.rust_v0.specs.Identifiers.{ascii_part, decoded, digits_part, hyphenated, identifier_at, if_few, is_decodable, is_puny_digit, length_digits, split_word, without_underscore, word_at};
ghost use Rattle.rust_v0.specs.State.{identifier_of};

use crate::numbers::{after, value_in};
use idna::{Errors, punycode};
use std::alloc::{AllocError, Global};

/// A word, which may be Punycode.
#[derive(Clone, Copy)]
pub(crate) struct Identifier<'a> {
    /// The bytes that stand in the name.
    pub(crate) word: &'a [u8],
    /// Whether they are Punycode, with `_` for `-`.
    pub(crate) is_punycode: bool,
}

/// How many decimal digits stand first.
fn digits_len(bytes: &[u8]) -> usize
    ensures gives { result ≡ prefix_len is_ascii_digit bytes.now }
    ensures within { result ≤ length bytes.now }
{
    bytes.iter().take_while(|b| b.is_ascii_digit()).count()
}

/// How many digits a length has: a `0` stands alone.
fn length_digits(bytes: &[u8]) -> usize
    ensures gives { result ≡ length_digits bytes.now }
    ensures within { result ≤ length bytes.now }
{
    match after(b'0', bytes) {
        Some(_) => 1,
        None => digits_len(bytes),
    }
}

/// Whether only ASCII stands there.
#[tactic(auto, using(crate::proofs::AsciiLemmas::listed_ascii, crate::proofs::AsciiLemmas::not_listed_ascii))]
pub(crate) fn is_ascii_text(bytes: &[u8]) -> bool
    ensures { result ≡ list_all is_ascii bytes.now }
{
    bytes.is_ascii()
}

/// So many bytes, all of them ASCII, and what follows them.
fn split_word(len: u64, bytes: &[u8]) -> Option<(&[u8], &[u8])>
    ensures gives { MatchOption result (split_word len bytes.now ≡ None)
        (λ w. split_word len bytes.now ≡ Some (w.0.now, w.1.now)) }
    ensures within { IfSome result (λ w. list_all is_ascii w.0.now ≡ true) }
{
    if len > bytes.len() as u64 {
        return None;
    }
    let (word, rest) = bytes.split_at(len as usize);
    if is_ascii_text(word) {
        Some((word, rest))
    } else {
        None
    }
}

/// What follows a `_`, or all where none stands first.
fn without_underscore(bytes: &[u8]) -> &[u8]
    ensures { result.now ≡ without_underscore bytes.now }
{
    after(b'_', bytes).unwrap_or(bytes)
}

/// The word after its length, and what follows it.
#[tactic(auto, unfolding(crate::specs::Identifiers::word_at))]
pub(crate) fn word_at(bytes: &[u8]) -> Option<(&[u8], &[u8])>
    ensures gives { MatchOption result (word_at bytes.now ≡ None)
        (λ w. word_at bytes.now ≡ Some (w.0.now, w.1.now)) }
    ensures within { IfSome result (λ w. list_all is_ascii w.0.now ≡ true) }
{
    let (digits, rest) = bytes.split_at(length_digits(bytes));
    if digits.is_empty() {
        return None;
    }
    split_word(value_in(10, digits)?, without_underscore(rest))
}

/// The bytes up to the last `_`, and those after it: all of them where there is none.
#[tactic(auto, unfolding(crate::specs::Identifiers::ascii_part, crate::specs::Identifiers::digits_part))]
fn split_punycode(word: &[u8]) -> (&[u8], &[u8])
    ensures ascii { result.0.now ≡ ascii_part word.now }
    ensures digits { result.1.now ≡ digits_part word.now }
{
    let mut at = word.len();
    while at > 0 && word[at - 1] != b'_' {
        at -= 1;
    }
    if at == 0 {
        (&[], word)
    } else {
        (&word[..at - 1], &word[at..])
    }
}

/// An identifier, and what follows it.
#[tactic(auto, unfolding(crate::specs::Identifiers::identifier_at))]
pub(crate) fn identifier_at(bytes: &[u8]) -> Option<(Identifier<'_>, &[u8])>
    ensures gives { MatchOption result (identifier_at bytes.now ≡ None)
        (λ i. identifier_at bytes.now ≡ Some (identifier_of i.0, i.1.now)) }
    ensures within { IfSome result (λ i. list_all is_ascii i.0.word.now ≡ true) }
{
    match after(b'u', bytes) {
        None => {
            let (word, rest) = word_at(bytes)?;
            Some((
                Identifier {
                    word,
                    is_punycode: false,
                },
                rest,
            ))
        }
        Some(spelled) => {
            let (word, rest) = word_at(spelled)?;
            let (_, digits) = split_punycode(word);
            if digits.is_empty() {
                return None;
            }
            Some((
                Identifier {
                    word,
                    is_punycode: true,
                },
                rest,
            ))
        }
    }
}

/// The most characters that Punycode is shown as.
const MOST_CHARACTERS: usize = 128;

/// The most bytes that are read as Punycode.
const MOST_PUNYCODE: usize = 1024;

/// Whether only digits of Punycode stand there.
fn is_puny_text(digits: &[u8]) -> bool
    ensures { result ≡ list_all is_puny_digit digits.now }
{
    digits
        .iter()
        .all(|b| b.is_ascii_lowercase() || b.is_ascii_digit())
}

/// Adds ASCII bytes.
fn push_ascii(out: &mut String, bytes: &[u8]) -> Result<(), AllocError>
    requires { list_all is_ascii bytes.now ≡ true }
    ensures { OnOk result (string_bytes out.new ≡ string_bytes out.old ++ bytes.now) }
{
    for b in bytes {
        out.push(*b as char)?;
    }
    Ok(())
}

/// The Punycode of a word, with `-` for its last `_`.
#[tactic(auto, using(crate::proofs::AsciiLemmas::ascii_part_ascii, crate::proofs::AsciiLemmas::digits_part_ascii), unfolding(crate::specs::Identifiers::hyphenated))]
pub(crate) fn hyphenated(alloc: Global, word: &[u8]) -> Result<String, AllocError>
    requires { list_all is_ascii word.now ≡ true }
    ensures { IfOk result (λ t. string_bytes t ≡ hyphenated word.now) }
{
    let (ascii, digits) = split_punycode(word);
    let mut text = String::new(alloc);
    if !ascii.is_empty() {
        push_ascii(&mut text, ascii)?;
        text.push('-')?;
    }
    push_ascii(&mut text, digits)?;
    Ok(text)
}

/// Whether the word is read as Punycode at all.
fn is_decodable(word: &[u8], spelled: &str) -> bool
    requires { spelled.now ≡ hyphenated word.now }
    ensures { result ≡ is_decodable word.now }
{
    let (_, digits) = split_punycode(word);
    spelled.len() <= MOST_PUNYCODE && is_puny_text(digits)
}

/// The characters, if they are at most 128.
fn if_few(chars: Vec<char>) -> Option<Vec<char>>
    ensures { option_map (λ v. v.items) result ≡ if_few (Some chars.items) }
{
    if chars.len() <= MOST_CHARACTERS {
        Some(chars)
    } else {
        None
    }
}

/// What a decoding gave: nothing where the Punycode is invalid.
fn if_valid(given: Result<Vec<char>, Errors>) -> Result<Option<Vec<char>>, AllocError>
    ensures { MatchResult given
        (λ chars. IsOkAnd result (λ found.
        option_map (λ v. v.items) found ≡ if_few (Some chars.items)))
        (λ e. (e ≡ Invalid → result ≡ Ok None) × (e ≡ OutOfMemory → is_err result ≡ true)) }
{
    match given {
        Ok(chars) => Ok(if_few(chars)),
        Err(Errors::OutOfMemory) => Err(AllocError),
        Err(Errors::Invalid) => Ok(None),
    }
}

/// The characters that Punycode stands for, if it is valid, its digits are lower case, and it has at
/// most 1,024 bytes and 128 characters.
#[tactic(auto, unfolding(crate::specs::Identifiers::decoded))]
pub(crate) fn decoded(
    alloc: Global,
    word: &[u8],
    spelled: &str,
) -> Result<Option<Vec<char>>, AllocError>
    requires { spelled.now ≡ hyphenated word.now }
    ensures gives { IfOk result (λ found. option_map (λ v. v.items) found ≡ decoded word.now) }
    ensures none { is_decodable word.now ≡ false → result ≡ Ok None }
{
    if !is_decodable(word, spelled) {
        return Ok(None);
    }
    if_valid(punycode::decode(alloc, spelled))
}
