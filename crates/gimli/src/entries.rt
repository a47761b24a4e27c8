//! The entries of a unit.

ghost use Rattle.std.specs.Prelude.{◌≡◌, ◌<◌, ◌≤◌, ◌+◌, ◌-◌, ◌^◌, ◌==◌, [], length, None, Ok, option_map, OnErr, unsigned_abs};
ghost use Rattle.gimli.specs.Common.{Exactly, ExactlyUnlessOomFor, attribute_at, attributes_at, rest_of};
ghost use Rattle.gimli_read.specs.HeldBytes.{gives_attribute_bytes};
ghost use Rattle.gimli_read.specs.NumberValue.{number_at};
ghost use Rattle.gimli.specs.Entry.{depth_after_entry, depth_after_closing};
ghost use Rattle.gimli.specs.EntryCursor.{entries_at, entry_abbreviation_at};

use crate::unit::UnitHeader;
use gimli_read::{
    Abbreviation, Abbreviations, Attribute, AttributeSpecification, CLOSING_CODE, Encoding, Error,
    NumberValue, Reader, UnitOffset, read_attribute, read_number, skip_attribute, skip_attributes,
    skip_attributes_of,
};
use std::marker::Model;

/// The entries of a unit from some offset on, one by one.
#[derive(Drop)]
pub struct EntriesRaw<'a, R: Reader> {
    // What is left of the unit.
    input: R,
    encoding: Encoding,
    abbreviations: &'a Abbreviations,
    // The number of bytes of the unit with its header.
    unit_length: u64,
    // How many entries are open around the next one, counted from where the reading began.
    depth: isize,
}

impl<'a, R: Reader> Model for EntriesRaw<'a, R> {
    ghost use Rattle.gimli.specs.EntryCursor.{EntriesLeft, IsInUnit};

    ghost Value = { EntriesLeft };

    ghost view = { λ e. record {
      unit = record {
        encoding = e.encoding;
        abbreviations = e.abbreviations.now;
        length = e.unit_length;
      };
      cursor = record { left = R.section e.input; depth = e.depth };
    } };

    ghost invariant = { λ e. IsInUnit e.unit_length (R.section e.input) e.depth };
}

// The depth after an entry: one more where it has children.
#[tactic(auto, using(crate::proofs::EntryLemmas::deeper_fits))]
fn depth_after_entry(has_children: bool, depth: isize) -> isize
    requires in_range { unsigned_abs depth + 1 < 2 ^ 63 }
    ensures gives { result ≡ depth_after_entry has_children depth }
{
    if has_children { depth + 1 } else { depth }
}

// The depth after a closing entry: one less.
#[tactic(auto, using(crate::proofs::EntryLemmas::shallower_fits))]
fn depth_after_closing(depth: isize) -> isize
    requires in_range { unsigned_abs depth + 1 < 2 ^ 63 }
    ensures gives { result ≡ depth_after_closing depth }
{
    depth - 1
}

// Passes over an attribute, at once where its form alone says how many bytes it has.
#[inline(always)]
fn skip_one<R: Reader>(
    input: &mut R,
    encoding: Encoding,
    specification: AttributeSpecification,
) -> Result<(), Error>
    ensures gives { Exactly (λ _. R.section input.new) result
        (rest_of (attribute_at encoding specification (R.section input.old))) }
{
    match specification.size(encoding) {
        Some(size) => input.skip(u64::from(size)),
        None => skip_attribute(input, encoding, specification),
    }
}

impl<'a, R: Reader> EntriesRaw<'a, R> {
    // The entries of the unit of this header, of which these bytes are left. Takes no memory.
    pub(crate) fn new(
        header: &UnitHeader<R>,
        abbreviations: &'a Abbreviations,
        input: R,
    ) -> EntriesRaw<'a, R>
        requires in_unit { length (R.section input).bytes ≤ length header.now.entries.bytes }
        ensures gives { result ≡ entries_at header.now abbreviations.now (R.section input) }
    {
        EntriesRaw {
            input,
            encoding: header.encoding,
            abbreviations,
            unit_length: header.header_length + header.entries.len(),
            depth: 0,
        }
    }

    /// Whether the unit's end is reached. Takes no memory.
    pub fn is_empty(&self) -> bool
        ensures gives { result ≡ (length self.now.cursor.left.bytes == 0) }
    {
        self.input.is_empty()
    }

    /// Where the next entry begins, in bytes from the start of the unit's length. Takes no memory.
    pub fn next_offset(&self) -> UnitOffset
        ensures gives { result.0 ≡ self.now.unit.length - length self.now.cursor.left.bytes }
    {
        UnitOffset(self.unit_length - self.input.len())
    }

    /// The depth of the next entry: 0 where the reading began, one more in an entry with children.
    /// Takes no memory.
    pub fn next_depth(&self) -> isize
        ensures gives { result ≡ self.now.cursor.depth }
    {
        self.depth
    }

    // Reads the code of the next entry. After a refusal the bytes that are left aren't said.
    #[inline(always)]
    #[tactic(auto, unfolding(crate::specs::EntryCursor::entry_abbreviation_at, crate::specs::Entry::entry_code_at), using(crate::proofs::EntryLemmas::code_takes, crate::proofs::EntryLemmas::entry_in_unit, crate::proofs::EntryLemmas::closing_in_unit, crate::proofs::EntryLemmas::still_in_unit, crate::proofs::EntryLemmas::next_fits))]
    fn read_code(&mut self) -> Result<Option<&'a Abbreviation>, Error>
        ensures gives { Exactly (λ a. (option_map (λ r. r.now) a, self.new.cursor)) result
            (entry_abbreviation_at self.old.unit.abbreviations self.old.cursor) }
        ensures unit { self.new.unit ≡ self.old.unit }
        ensures depth { OnErr result (self.new.cursor.depth ≡ self.old.cursor.depth) }
    {
        let code = self.input.read_uleb128()?;
        if code == CLOSING_CODE {
            self.depth = depth_after_closing(self.depth);
            return Ok(None);
        }
        let abbreviations = self.abbreviations;
        let abbreviation = match abbreviations.get(code) {
            Some(abbreviation) => abbreviation,
            None => return Err(Error::UnknownAbbreviation),
        };
        self.depth = depth_after_entry(abbreviation.has_children(), self.depth);
        Ok(Some(abbreviation))
    }

    /// Reads the code of the next entry: its abbreviation, or none of a closing entry.
    ///
    /// Refused `UnexpectedEof` and `BadLeb128` for the code, and `UnknownAbbreviation` where the
    /// unit's table hasn't it. After a refusal nothing is left to read, at the same depth. Takes no
    /// memory.
    /// Source: DWARF 5, section 7.5.2.
    #[inline(always)]
    #[tactic(auto, using(crate::proofs::EntryLemmas::still_in_unit))]
    pub fn read_abbreviation(&mut self) -> Result<Option<&'a Abbreviation>, Error>
        ensures gives { Exactly (λ a. (option_map (λ r. r.now) a, self.new.cursor)) result
            (entry_abbreviation_at self.old.unit.abbreviations self.old.cursor) }
        ensures refused { OnErr result (self.new.cursor.left.bytes ≡ []) }
        ensures unit { self.new.unit ≡ self.old.unit }
        ensures depth { OnErr result (self.new.cursor.depth ≡ self.old.cursor.depth) }
    {
        match self.read_code() {
            Ok(abbreviation) => Ok(abbreviation),
            Err(error) => {
                self.input.skip(self.input.len())?;
                Err(error)
            }
        }
    }

    /// Reads the next attribute's value, by its specification.
    ///
    /// Refused as `read_attribute` of the section reader is: `UnknownForm`, `UnexpectedEof`,
    /// `BadLeb128`, `UnsupportedAddressSize`, and `OutOfMemory` for a value that holds bytes, at a
    /// reader that shares them. After a refusal nothing is left to read.
    #[inline(always)]
    #[tactic(auto, using(crate::proofs::EntryLemmas::attribute_leaves, crate::proofs::EntryLemmas::still_in_unit))]
    pub fn read_attribute(
        &mut self,
        specification: AttributeSpecification,
    ) -> Result<Attribute<R>, Error>
        ensures gives { ExactlyUnlessOomFor R.shares gives_attribute_bytes
            (λ a. (a, self.new.cursor.left)) result
            (attribute_at self.old.unit.encoding specification self.old.cursor.left) }
        ensures refused { OnErr result (self.new.cursor.left.bytes ≡ []) }
        ensures unit { self.new.unit ≡ self.old.unit }
        ensures depth { self.new.cursor.depth ≡ self.old.cursor.depth }
    {
        match read_attribute(&mut self.input, self.encoding, specification) {
            Ok(attribute) => Ok(attribute),
            Err(error) => {
                self.input.skip(self.input.len())?;
                Err(error)
            }
        }
    }

    /// Reads the next attribute's value as a number, where its specification says that it is one of
    /// a frequent form; else nothing is read, and the answer is none. Takes no memory.
    ///
    /// Refused as `read_number` of the section reader is: `UnexpectedEof`, `BadLeb128` and
    /// `UnsupportedAddressSize`. After a refusal nothing is left to read.
    #[inline(always)]
    #[tactic(auto, using(crate::proofs::EntryLemmas::number_leaves, crate::proofs::EntryLemmas::still_in_unit))]
    pub fn read_number(
        &mut self,
        specification: AttributeSpecification,
    ) -> Result<Option<NumberValue>, Error>
        ensures gives { Exactly (λ n. (n, self.new.cursor.left)) result
            (number_at self.old.unit.encoding specification self.old.cursor.left) }
        ensures none { result ≡ Ok None → self.new.cursor.left ≡ self.old.cursor.left }
        ensures refused { OnErr result (self.new.cursor.left.bytes ≡ []) }
        ensures unit { self.new.unit ≡ self.old.unit }
        ensures depth { self.new.cursor.depth ≡ self.old.cursor.depth }
    {
        match read_number(&mut self.input, self.encoding, specification) {
            Ok(number) => Ok(number),
            Err(error) => {
                self.input.skip(self.input.len())?;
                Err(error)
            }
        }
    }

    /// Passes over the next attribute, which is read and dropped, or passed over at once where its
    /// form alone says how many bytes it has. Takes no memory.
    ///
    /// Refused as `read_attribute` is, but for `OutOfMemory`. After a refusal nothing is left to
    /// read.
    #[inline(always)]
    #[tactic(auto, using(crate::proofs::EntryLemmas::rest_leaves, crate::proofs::EntryLemmas::still_in_unit))]
    pub fn skip_attribute(&mut self, specification: AttributeSpecification) -> Result<(), Error>
        ensures gives { Exactly (λ _. self.new.cursor.left) result (rest_of (attribute_at
            self.old.unit.encoding specification self.old.cursor.left)) }
        ensures refused { OnErr result (self.new.cursor.left.bytes ≡ []) }
        ensures unit { self.new.unit ≡ self.old.unit }
        ensures depth { self.new.cursor.depth ≡ self.old.cursor.depth }
    {
        match skip_one(&mut self.input, self.encoding, specification) {
            Ok(()) => Ok(()),
            Err(error) => {
                self.input.skip(self.input.len())?;
                Err(error)
            }
        }
    }

    /// Passes over the next attributes, which are read and dropped one after another. Takes no
    /// memory.
    ///
    /// Refused as `read_attribute` is at the first that can't be read, but for `OutOfMemory`. After
    /// a refusal nothing is left to read.
    #[inline(always)]
    #[tactic(auto, using(crate::proofs::EntryLemmas::none_passed, gimli_read::proofs::SkipLemmas::attributes_leave, crate::proofs::EntryLemmas::still_in_unit))]
    pub fn skip_attributes(
        &mut self,
        specifications: &[AttributeSpecification],
    ) -> Result<(), Error>
        ensures gives { Exactly (λ _. self.new.cursor.left) result (rest_of (attributes_at
            self.old.unit.encoding specifications.now self.old.cursor.left)) }
        ensures refused { OnErr result (self.new.cursor.left.bytes ≡ []) }
        ensures unit { self.new.unit ≡ self.old.unit }
        ensures depth { self.new.cursor.depth ≡ self.old.cursor.depth }
    {
        if specifications.is_empty() {
            return Ok(());
        }
        match skip_attributes(&mut self.input, self.encoding, specifications) {
            Ok(()) => Ok(()),
            Err(error) => {
                self.input.skip(self.input.len())?;
                Err(error)
            }
        }
    }

    /// Passes over all attributes of an entry of this abbreviation, as `skip_attributes` does; at
    /// once where their forms alone say how many bytes they have. Takes no memory.
    ///
    /// Refused as `skip_attributes` is. After a refusal nothing is left to read.
    #[inline(always)]
    #[tactic(auto, using(gimli_read::proofs::SkipLemmas::attributes_leave, crate::proofs::EntryLemmas::still_in_unit))]
    pub fn skip_attributes_of(&mut self, abbreviation: &Abbreviation) -> Result<(), Error>
        ensures gives { Exactly (λ _. self.new.cursor.left) result (rest_of (attributes_at
            self.old.unit.encoding abbreviation.now.attributes self.old.cursor.left)) }
        ensures refused { OnErr result (self.new.cursor.left.bytes ≡ []) }
        ensures unit { self.new.unit ≡ self.old.unit }
        ensures depth { self.new.cursor.depth ≡ self.old.cursor.depth }
    {
        match skip_attributes_of(&mut self.input, self.encoding, abbreviation) {
            Ok(()) => Ok(()),
            Err(error) => {
                self.input.skip(self.input.len())?;
                Err(error)
            }
        }
    }
}
