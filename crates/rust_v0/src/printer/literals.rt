//! Literals: integers, `bool`s, characters, strings.

ghost use Rattle.std.specs.Prelude.{◌≡◌, ◌<◌, None, Some, IfOk, MatchOption, true, false, chars};
ghost use Rattle.std.specs.Str.{is_utf8};
ghost use Rattle.std.specs.Char.{is_ascii};
ghost use Rattle.std.specs.List.{list_all};
ghost use Rattle.rust_v0.specs.State.{Gives, Moves, state_of};
ghost use Rattle.rust_v0.specs.Shown.{say_quoted};
ghost use Rattle.rust_v0.specs.Leaves.{as_scalar, boolean, boolean_text, bytes_of, character, digit_pairs, hex_digits, integer, literal, nibble_of, say_integer, say_string, scalar, sign, string};

use crate::numbers::{nibbles, value_in};
use crate::printer::Printer;
use crate::stop::{Fault, Stop};
use std::alloc::{AllocError, Global};

/// The value of a hexadecimal digit.
fn nibble_of(b: u8) -> u8
    ensures gives { result ≡ nibble_of b }
    ensures bound { result < 16 }
{
    match b {
        b'0'..=b'9' => b - b'0',
        b'a'..=b'f' => b - b'a' + 10,
        _ => 0,
    }
}

/// The bytes that pairs of hexadecimal digits spell.
fn bytes_of(alloc: Global, digits: &[u8]) -> Result<Vec<u8>, AllocError>
    ensures { IfOk result (λ bytes. bytes.items ≡ bytes_of digits.now) }
{
    let mut bytes = Vec::new(alloc);
    let mut rest = digits;
    while let [high, low, after @ ..] = rest {
        bytes.push(nibble_of(*high) * 16 + nibble_of(*low))?;
        rest = after;
    }
    Ok(bytes)
}

/// A Unicode scalar value.
fn scalar_of(number: u64) -> Option<char>
    ensures { result ≡ as_scalar number }
{
    if number > u64::from(char::MAX) {
        return None;
    }
    char::from_u32(number as u32)
}

/// `false` or `true`.
fn boolean_text(number: u64) -> Option<&'static str>
    ensures { MatchOption result (boolean_text number ≡ None)
        (λ text. boolean_text number ≡ Some text.now) }
{
    match number {
        0 => Some("false"),
        1 => Some("true"),
        _ => None,
    }
}

/// Bytes as text, if they are UTF-8.
#[tactic(auto, using(crate::proofs::AsciiLemmas::utf8_yes, crate::proofs::AsciiLemmas::utf8_no))]
fn text_of(bytes: &[u8]) -> Option<&str>
    ensures { MatchOption result (is_utf8 bytes.now ≡ false)
        (λ text. (is_utf8 bytes.now ≡ true) × (text.now ≡ bytes.now)) }
{
    match std::str::from_utf8(bytes) {
        Ok(text) => Some(text),
        Err(_) => None,
    }
}

/// The characters of a text.
fn chars_of(alloc: Global, text: &str) -> Result<Vec<char>, AllocError>
    ensures { IfOk result (λ cs. cs.items ≡ chars text.now) }
{
    text.chars().collect(alloc)
}

impl<'a> Printer<'a> {
    /// Hexadecimal digits, up to their `_`.
    fn hex_digits(&mut self) -> Result<&'a [u8], Fault>
        ensures gives { Gives (λ digits. digits.now) result (state_of self.new)
            (hex_digits (state_of self.old)) }
        ensures within { IfOk result (λ digits. list_all is_ascii digits.now ≡ true) }
    {
        let (digits, rest) = nibbles(self.rest).ok_or(Fault)?;
        self.rest = rest;
        Ok(digits)
    }

    /// Adds an integer: in decimal below 2^64, and else its digits as they stand.
    fn say_integer(&mut self, digits: &[u8]) -> Result<(), Stop>
        requires { list_all is_ascii digits.now ≡ true }
        ensures { Moves result (state_of self.new) (say_integer digits.now (state_of self.old)) }
    {
        match value_in(16, digits) {
            Some(number) => self.say_decimal(number),
            None => {
                self.say("0x")?;
                self.say_ascii(digits)
            }
        }
    }

    /// An integer.
    #[tactic(auto, unfolding(crate::specs::Leaves::integer))]
    pub(crate) fn integer(&mut self) -> Result<(), Stop>
        ensures { Moves result (state_of self.new) (integer (state_of self.old)) }
    {
        let digits = self.hex_digits()?;
        self.say_integer(digits)
    }

    /// The sign of an integer.
    #[tactic(auto, unfolding(crate::specs::Leaves::sign))]
    pub(crate) fn sign(&mut self) -> Result<(), Stop>
        ensures { Moves result (state_of self.new) (sign (state_of self.old)) }
    {
        if self.skip(b'n') {
            self.say("-")
        } else {
            Ok(())
        }
    }

    /// The value of hexadecimal digits of at most 64 bits.
    #[tactic(auto, unfolding(crate::specs::Leaves::literal))]
    fn literal(&mut self) -> Result<u64, Fault>
        ensures { Gives (λ n. n) result (state_of self.new) (literal (state_of self.old)) }
    {
        let digits = self.hex_digits()?;
        value_in(16, digits).ok_or(Fault)
    }

    /// `false` or `true`.
    #[tactic(auto, unfolding(crate::specs::Leaves::boolean))]
    pub(crate) fn boolean(&mut self) -> Result<(), Stop>
        ensures { Moves result (state_of self.new) (boolean (state_of self.old)) }
    {
        let number = self.literal()?;
        let text = boolean_text(number).ok_or(Fault)?;
        self.say(text)
    }

    /// The character of a literal.
    #[tactic(auto, unfolding(crate::specs::Leaves::scalar))]
    fn scalar(&mut self) -> Result<char, Fault>
        ensures { Gives (λ c. c) result (state_of self.new) (scalar (state_of self.old)) }
    {
        let number = self.literal()?;
        scalar_of(number).ok_or(Fault)
    }

    /// A character.
    #[tactic(auto, unfolding(crate::specs::Leaves::character))]
    pub(crate) fn character(&mut self) -> Result<(), Stop>
        ensures { Moves result (state_of self.new) (character (state_of self.old)) }
    {
        let c = self.scalar()?;
        self.say("'")?;
        self.say_escaped('\'', c)?;
        self.say("'")
    }

    /// Adds characters as they stand in a string.
    fn say_quoted(&mut self, chars: &[char]) -> Result<(), Stop>
        ensures { Moves result (state_of self.new)
            (say_quoted chars.now (state_of self.old)) }
    {
        for c in chars {
            self.say_escaped('"', *c)?;
        }
        Ok(())
    }

    /// Adds bytes as a string.
    #[tactic(auto, using(crate::proofs::HiddenLemmas::string_hidden))]
    fn say_string(&mut self, bytes: &[u8]) -> Result<(), Stop>
        ensures { Moves result (state_of self.new) (say_string bytes.now (state_of self.old)) }
    {
        let text = text_of(bytes).ok_or(Fault)?;
        if self.mode.is_hidden() {
            return Ok(());
        }
        let chars = chars_of(self.alloc, text)?;
        self.say("\"")?;
        self.say_quoted(&chars)?;
        self.say("\"")
    }

    /// Hexadecimal digits, two for each byte.
    #[tactic(auto, unfolding(crate::specs::Leaves::digit_pairs))]
    fn digit_pairs(&mut self) -> Result<&'a [u8], Fault>
        ensures { Gives (λ digits. digits.now) result (state_of self.new)
            (digit_pairs (state_of self.old)) }
    {
        let digits = self.hex_digits()?;
        if digits.len() % 2 == 1 {
            return Err(Fault);
        }
        Ok(digits)
    }

    /// A string.
    #[tactic(auto, unfolding(crate::specs::Leaves::string))]
    pub(crate) fn string(&mut self) -> Result<(), Stop>
        ensures { Moves result (state_of self.new) (string (state_of self.old)) }
    {
        let digits = self.digit_pairs()?;
        let bytes = bytes_of(self.alloc, digits)?;
        self.say_string(&bytes)
    }
}
