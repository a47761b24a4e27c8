//! The address ranges of units (DWARF 5, section 6.1.2).

ghost use Rattle.std.specs.Prelude.{◌≡◌, ◌+◌, ◌*◌, ◌<◌, true, drop, [], IfErr};
ghost use Rattle.std.specs.List.{slice_get};
ghost use Rattle.gimli.specs.Common.{is_address_size, Exactly};
ghost use Rattle.gimli_read.specs.Yields.{next_given};
ghost use Rattle.gimli.specs.Aranges.{pair_size, padding, arange_fields_at, arange_set_at, next_set_at, arange_sets_of, next_pair_at, arange_of, aranges_of};

use crate::constants::ARANGES_VERSION;
use crate::sections::DebugAranges;
use gimli_line::greatest_address;
use gimli_read::{
    DebugInfoOffset, EndianSlice, Error, Format, Range, Reader, read_address_size,
    read_initial_length,
};
use std::marker::Model;

/// A set of `.debug_aranges`: ranges of addresses that belong to one unit.
#[derive(Drop)]
pub struct ArangeHeader<R: Reader> {
    // Where the unit begins.
    debug_info_offset: DebugInfoOffset,
    address_size: u8,
    // The bytes of the pairs.
    pairs: R,
}

impl<R: Reader> Model for ArangeHeader<R> {
    ghost use Rattle.std.specs.Prelude.{◌≡◌, true};
    ghost use Rattle.gimli_read.specs.Number.{is_address_size};
    ghost use Rattle.gimli.specs.Aranges.{ArangeSet};

    ghost Value = { ArangeSet };

    ghost view = { λ h. record {
      debug_info_offset = h.debug_info_offset;
      address_size = h.address_size;
      pairs = R.section h.pairs;
    } };

    ghost invariant = { λ h. is_address_size h.address_size ≡ true };
}

impl<R: Reader> ArangeHeader<R> {
    /// Where the unit of these ranges begins, in bytes from the start of `.debug_info`. Takes no
    /// memory.
    pub fn debug_info_offset(&self) -> DebugInfoOffset
        ensures gives { result ≡ self.now.debug_info_offset }
    {
        self.debug_info_offset
    }

    /// The ranges of the set, in its order. Takes no memory.
    pub fn entries(&self) -> ArangeEntryIter<'_>
        ensures gives { result ≡ aranges_of self.now.address_size self.now.pairs }
    {
        ArangeEntryIter {
            address_size: self.address_size,
            input: EndianSlice::new(self.pairs.to_slice(), self.pairs.endian()),
        }
    }
}

// The bytes of a pair of an address and a length.
fn pair_size(address_size: u8) -> u64
    ensures gives { result ≡ pair_size address_size }
{
    2 * u64::from(address_size)
}

// How many bytes are missing after `len` bytes up to a multiple of the size of a pair.
fn padding(address_size: u8, len: u64) -> u64
    requires size { 0 < address_size }
    ensures gives { result ≡ padding (pair_size address_size) len }
{
    let size = pair_size(address_size);
    (size - len % size) % size
}

// The fields after the length of a set of `set_length` bytes.
#[tactic(auto, unfolding(crate::specs::Aranges::arange_fields_at))]
fn read_fields<'a>(
    set_length: u64,
    format: Format,
    mut input: EndianSlice<'a>,
) -> Result<ArangeHeader<EndianSlice<'a>>, Error>
    ensures gives { Exactly (λ h. h) result (arange_fields_at set_length format input.entry) }
{
    if input.read_u16()? != ARANGES_VERSION {
        return Err(Error::UnknownVersion);
    }
    let debug_info_offset = DebugInfoOffset(input.read_offset(format)?);
    let address_size = read_address_size(&mut input)?;
    if input.read_u8()? != 0 {
        return Err(Error::UnsupportedSegmentSize);
    }
    let read = set_length.saturating_sub(input.len());
    input.skip(padding(address_size, read))?;
    Ok(ArangeHeader {
        debug_info_offset,
        address_size,
        pairs: input,
    })
}

// The set at the front.
#[tactic(auto, unfolding(crate::specs::Aranges::arange_set_at))]
fn read_set<'a>(input: &mut EndianSlice<'a>) -> Result<ArangeHeader<EndianSlice<'a>>, Error>
    ensures gives { Exactly (λ h. (h, input.new)) result (arange_set_at input.old) }
{
    let len = input.len();
    let (length, format) = read_initial_length(input)?;
    let set = input.split(length)?;
    let set_length = len.saturating_sub(input.len());
    read_fields(set_length, format, set)
}

/// The sets of `.debug_aranges`, one after another.
#[derive(Drop)]
pub struct ArangeHeaderIter<'a> {
    input: EndianSlice<'a>,
}

impl<'a> Model for ArangeHeaderIter<'a> {
    ghost use Rattle.std.specs.Prelude.{List, Result};
    ghost use Rattle.gimli_read.specs.declared.error.Error.{Error};
    ghost use Rattle.gimli.specs.Aranges.{ArangeSet, arange_sets_of};

    ghost Value = { List (Result ArangeSet Error) };

    ghost view = { λ a. arange_sets_of a.input };
}

impl<R: Reader> DebugAranges<R> {
    /// The sets of the section. Takes no memory.
    pub fn headers(&self) -> ArangeHeaderIter<'_>
        ensures gives { result ≡ arange_sets_of (R.section self.now.section) }
    {
        ArangeHeaderIter {
            input: EndianSlice::new(self.section.to_slice(), self.section.endian()),
        }
    }
}

impl<'a> ArangeHeaderIter<'a> {
    // The next set, or none at the section's end.
    #[tactic(auto, unfolding(crate::specs::Aranges::next_set_at))]
    fn read_next_set(
        input: &mut EndianSlice<'a>,
    ) -> Result<Option<ArangeHeader<EndianSlice<'a>>>, Error>
        ensures gives { Exactly (λ h. (h, input.new)) result (next_set_at input.old) }
    {
        if input.is_empty() {
            return Ok(None);
        }
        Ok(Some(read_set(input)?))
    }

    /// The next set, or none at the section's end. Takes no memory.
    ///
    /// Refused `UnknownReservedLength`, `UnexpectedEof`, `UnknownVersion`, `UnsupportedAddressSize`
    /// and `UnsupportedSegmentSize` by the header's fields in their order: then no further set is
    /// given. Source: DWARF 5, section 6.1.2.
    pub fn next(&mut self) -> Result<Option<ArangeHeader<EndianSlice<'a>>>, Error>
        ensures gives { Exactly (λ h. (h, self.new)) result (next_given self.old) }
        ensures refused { IfErr result (λ e. self.new ≡ []) }
    {
        match ArangeHeaderIter::read_next_set(&mut self.input) {
            Ok(header) => Ok(header),
            Err(error) => {
                self.input.skip(self.input.len())?;
                Err(error)
            }
        }
    }
}

/// The ranges of a set, one after another.
#[derive(Drop)]
pub struct ArangeEntryIter<'a> {
    address_size: u8,
    // The pairs that are left.
    input: EndianSlice<'a>,
}

impl<'a> Model for ArangeEntryIter<'a> {
    ghost use Rattle.std.specs.Prelude.{◌≡◌, true, List};
    ghost use Rattle.gimli_read.specs.declared.range.Range.{Range};
    ghost use Rattle.gimli_read.specs.Number.{is_address_size};
    ghost use Rattle.gimli.specs.Aranges.{aranges_of};

    ghost Value = { List Range };

    ghost view = { λ e. aranges_of e.address_size e.input };

    ghost invariant = { λ e. is_address_size e.address_size ≡ true };
}

// The next address and length, or none where fewer bytes are left than a pair has.
#[tactic(auto, unfolding(crate::specs::Aranges::next_pair_at))]
fn read_next_pair(
    input: &mut EndianSlice<'_>,
    address_size: u8,
) -> Result<Option<(u64, u64)>, Error>
    ensures gives { Exactly (λ p. (p, input.new)) result (next_pair_at address_size input.old) }
{
    if input.len() < pair_size(address_size) {
        return Ok(None);
    }
    let address = input.read_address(address_size)?;
    let length = input.read_address(address_size)?;
    Ok(Some((address, length)))
}

// The addresses of a pair, where it has some and all are of the size.
fn range_of_pair(address_size: u8, pair: (u64, u64)) -> Option<Range>
    requires size { is_address_size address_size ≡ true }
    ensures gives { result ≡ arange_of address_size pair }
{
    let (begin, length) = pair;
    if length == 0 {
        return None;
    }
    match begin.checked_add(length) {
        Some(end) if end <= greatest_address(address_size) => Some(Range { begin, end }),
        _ => None,
    }
}

impl<'a> ArangeEntryIter<'a> {
    /// The next range. Passed over are pairs of length 0, pairs whose sum is greater than the
    /// greatest address of their size, and a tail that is shorter than a pair. Takes no memory.
    pub fn next(&mut self) -> Option<Range>
        ensures gives { result ≡ slice_get self.old 0 }
        ensures left { self.new ≡ drop 1 self.old }
    {
        loop {
            match read_next_pair(&mut self.input, self.address_size) {
                Ok(Some(pair)) => {
                    if let Some(range) = range_of_pair(self.address_size, pair) {
                        return Some(range);
                    }
                }
                Ok(None) => return None,
                // Not met: a pair's bytes are there, and its size is one of the four.
                Err(_) => return None,
            }
        }
    }
}
