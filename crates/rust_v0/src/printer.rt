//! What is read, and the text so far.

ghost use Rattle.std.specs.Prelude.{◌≡◌, true, IfOk};
ghost use Rattle.std.specs.Char.{is_ascii};
ghost use Rattle.std.specs.List.{list_all};
ghost use Rattle.rust_v0.specs.Leaves.{counted_in, identifier, letter, number};
ghost use Rattle.rust_v0.specs.State.{Gives, Skips, identifier_of, is_hidden, state_of};

mod leaves;
mod lifetimes;
mod literals;
mod shown;

use crate::identifiers::{Identifier, identifier_at};
use crate::numbers::{after, counted, number_62};
use crate::stop::Fault;
use std::alloc::Global;

/// What becomes of a text.
#[derive(Clone, Copy)]
pub(crate) enum Mode {
    /// It is written.
    Written,
    /// It is left out, and what stands at the places that references name isn't read.
    Hidden,
}

impl Mode {
    /// Whether texts are left out.
    pub(crate) fn is_hidden(self) -> bool
        ensures { result ≡ is_hidden self }
    {
        match self {
            Mode::Written => false,
            Mode::Hidden => true,
        }
    }
}

/// The bytes of a name that are left to read, what may still be read and shown, and the text.
#[derive(Drop)]
pub(crate) struct Printer<'a> {
    /// All bytes after the prefix.
    pub(crate) name: &'a [u8],
    /// Those that are left to read.
    pub(crate) rest: &'a [u8],
    /// How many productions may still be read.
    pub(crate) left: u32,
    /// How many bytes of text may still be shown.
    pub(crate) room: usize,
    /// How many lifetimes the binders around here bind.
    pub(crate) bound: u64,
    /// Whether the last path of a trait was left without its last `>`.
    pub(crate) is_open: bool,
    /// What becomes of a text.
    pub(crate) mode: Mode,
    /// The text so far.
    pub(crate) text: String,
    /// Where Punycode and strings are decoded.
    pub(crate) alloc: Global,
}

impl<'a> Printer<'a> {
    /// Whether that byte stands first, which is then passed over.
    pub(crate) fn skip(&mut self, b: u8) -> bool
        ensures { Skips result b (state_of self.old) (state_of self.new) }
    {
        match after(b, self.rest) {
            Some(rest) => {
                self.rest = rest;
                true
            }
            None => false,
        }
    }

    /// A number in base 62.
    pub(crate) fn number(&mut self) -> Result<u64, Fault>
        ensures { Gives (λ n. n) result (state_of self.new) (number (state_of self.old)) }
    {
        let (number, rest) = number_62(self.rest).ok_or(Fault)?;
        self.rest = rest;
        Ok(number)
    }

    /// One more than the number after that letter, and zero without it.
    pub(crate) fn counted(&mut self, letter: u8) -> Result<u64, Fault>
        ensures { Gives (λ n. n) result (state_of self.new)
            (counted_in letter (state_of self.old)) }
    {
        let (number, rest) = counted(letter, self.rest).ok_or(Fault)?;
        self.rest = rest;
        Ok(number)
    }

    /// An identifier.
    pub(crate) fn identifier(&mut self) -> Result<Identifier<'a>, Fault>
        ensures gives { Gives identifier_of result (state_of self.new)
            (identifier (state_of self.old)) }
        ensures within { IfOk result (λ i. list_all is_ascii i.word.now ≡ true) }
    {
        let (identifier, rest) = identifier_at(self.rest).ok_or(Fault)?;
        self.rest = rest;
        Ok(identifier)
    }

    /// A letter of either case.
    pub(crate) fn letter(&mut self) -> Result<u8, Fault>
        ensures { Gives (λ c. c) result (state_of self.new) (letter (state_of self.old)) }
    {
        let (letter, rest) = self.rest.split_first().ok_or(Fault)?;
        if !letter.is_ascii_alphabetic() {
            return Err(Fault);
        }
        self.rest = rest;
        Ok(*letter)
    }
}
