//! The ranges of range lists, and where these begin.

ghost use Rattle.std.specs.Prelude.{◌≡◌, true};
ghost use Rattle.gimli.specs.Common.{is_address_size, Exactly, is_tombstone};
ghost use Rattle.gimli_read.specs.Yields.{Yields};
ghost use Rattle.gimli.specs.Ranges.{sum_of_size, range_of, range_of_length, range_from_base, range_of_entry, ranges_from, range_lists_of, ranges_at};
ghost use Rattle.gimli.specs.RangesLeft.{FindsRange};

use crate::rnglists::{RangeListEntry, read_range_list_entry};
use crate::text::read_from;
use crate::unit_ref::UnitRef;
use gimli_line::greatest_address;
use gimli_read::{DWARF_5, EndianSlice, Error, Range, Reader, is_address_size};
use std::marker::Model;

// A sum, as an address of a size.
#[tactic(auto, using(crate::proofs::RangeLemmas::masked_sum))]
fn sum_of_size(size: u8, a: u64, b: u64) -> u64
    requires size { is_address_size size ≡ true }
    ensures gives { result ≡ sum_of_size size a b }
{
    a.wrapping_add(b) & greatest_address(size)
}

// Whether an address stands for code that isn't there.
fn is_tombstone(size: u8, address: u64) -> bool
    requires size { is_address_size size ≡ true }
    ensures gives { result ≡ is_tombstone size address }
{
    greatest_address(size) <= address.saturating_add(1)
}

// A range of addresses, unless it is passed over.
fn range_of(size: u8, begin: u64, end: u64) -> Option<Range>
    requires size { is_address_size size ≡ true }
    ensures gives { result ≡ range_of size begin end }
{
    if is_tombstone(size, begin) {
        return None;
    }
    if begin < end {
        Some(Range { begin, end })
    } else {
        None
    }
}

// The range of a begin and a length, unless it is passed over.
fn range_of_length(size: u8, begin: u64, length: u64) -> Option<Range>
    requires size { is_address_size size ≡ true }
    ensures gives { result ≡ range_of_length size begin length }
{
    range_of(size, begin, sum_of_size(size, begin, length))
}

// The range of two offsets from a base, unless it is passed over.
fn range_from_base(size: u8, base: u64, begin: u64, end: u64) -> Option<Range>
    requires size { is_address_size size ≡ true }
    ensures gives { result ≡ range_from_base size base begin end }
{
    if is_tombstone(size, base) {
        return None;
    }
    range_of(
        size,
        sum_of_size(size, base, begin),
        sum_of_size(size, base, end),
    )
}

// The range of an entry, if it gives one; the base becomes that of the entries after it.
#[tactic(auto, unfolding(crate::specs::Ranges::range_of_entry))]
fn range_of_entry<R: Reader>(
    unit: UnitRef<'_, R>,
    base: &mut u64,
    entry: RangeListEntry,
) -> Result<Option<Range>, Error>
    requires size { is_address_size unit.unit.now.header.encoding.address_size ≡ true }
    ensures gives { Exactly (λ range. (range, base.new)) result
        (range_of_entry unit.entry.dwarf.now unit.entry.unit.now base.old entry) }
{
    let size = unit.encoding().address_size;
    match entry {
        RangeListEntry::BaseAddressx { index } => {
            *base = unit.address(index)?;
            Ok(None)
        }
        RangeListEntry::BaseAddress { address } => {
            *base = address;
            Ok(None)
        }
        RangeListEntry::OffsetPair { begin, end } => Ok(range_from_base(size, *base, begin, end)),
        RangeListEntry::StartxEndx {
            begin_index,
            end_index,
        } => {
            let begin = unit.address(begin_index)?;
            let end = unit.address(end_index)?;
            Ok(range_of(size, begin, end))
        }
        RangeListEntry::StartxLength {
            begin_index,
            length,
        } => {
            let begin = unit.address(begin_index)?;
            Ok(range_of_length(size, begin, length))
        }
        RangeListEntry::StartEnd { begin, end } => Ok(range_of(size, begin, end)),
        RangeListEntry::StartLength { begin, length } => Ok(range_of_length(size, begin, length)),
    }
}

// Takes entries up to the next range, or to the list's end.
fn find_range<R: Reader>(
    unit: UnitRef<'_, R>,
    base: &mut u64,
    input: &mut EndianSlice<'_>,
) -> Result<Option<Range>, Error>
    requires size { is_address_size unit.unit.now.header.encoding.address_size ≡ true }
    ensures gives { FindsRange
        (ranges_from unit.entry.dwarf.now unit.entry.unit.now base.old input.old) result
        (ranges_from unit.entry.dwarf.now unit.entry.unit.now base.new input.new) }
{
    let encoding = unit.encoding();
    while let Some(entry) = read_range_list_entry(encoding, input)? {
        if let Some(range) = range_of_entry(unit, base, entry)? {
            return Ok(Some(range));
        }
    }
    Ok(None)
}

// The section of a unit's range lists.
fn range_lists_of<'a, R: Reader>(unit: UnitRef<'a, R>) -> EndianSlice<'a>
    ensures gives { result ≡ range_lists_of unit.entry.dwarf.now unit.entry.unit.now }
{
    let dwarf = unit.dwarf;
    let section = if unit.encoding().version < DWARF_5 {
        &dwarf.debug_ranges.section
    } else {
        &dwarf.debug_rnglists.section
    };
    EndianSlice::new(section.to_slice(), section.endian())
}

/// The ranges of a range list, one by one.
#[derive(Drop)]
pub struct RngListIter<'a, R: Reader> {
    unit: UnitRef<'a, R>,
    // What is left of the section.
    input: EndianSlice<'a>,
    // What offsets count from.
    base_address: u64,
    // Whether the list's end was reached, or a fault was given.
    ended: bool,
}

impl<'a, R: Reader> Model for RngListIter<'a, R> {
    ghost use Rattle.std.specs.Prelude.{◌≡◌, true, List, [], Result, if◌then◌else◌};
    ghost use Rattle.gimli_read.specs.declared.error.Error.{Error};
    ghost use Rattle.gimli_read.specs.declared.range.Range.{Range};
    ghost use Rattle.gimli_read.specs.Number.{is_address_size};
    ghost use Rattle.gimli.specs.Ranges.{ranges_from};

    ghost Value = { List (Result Range Error) };

    ghost view = { λ a. if a.ended then []
        else ranges_from a.unit.dwarf.now a.unit.unit.now a.base_address a.input };

    ghost invariant = { λ a. is_address_size a.unit.unit.now.header.encoding.address_size ≡ true };
}

impl<'a, R: Reader> RngListIter<'a, R> {
    // The ranges of the unit's list at an offset. Takes no memory.
    pub(crate) fn new(unit: UnitRef<'a, R>, offset: u64) -> Result<RngListIter<'a, R>, Error>
        ensures gives { Exactly (λ ranges. ranges) result
            (ranges_at unit.entry.dwarf.now unit.entry.unit.now offset) }
    {
        if !is_address_size(unit.encoding().address_size) {
            return Err(Error::UnsupportedAddressSize);
        }
        let input = read_from(&range_lists_of(unit), offset)?;
        let record = unit.unit;
        Ok(RngListIter {
            unit,
            input,
            base_address: record.low_pc,
            ended: false,
        })
    }

    /// The next range of addresses, as the file has them; none at the list's end, and after a
    /// refusal.
    ///
    /// Empty and reversed ranges are passed over, and those of code that isn't there: which begin
    /// at all ones or all ones less one, or count from a base of these. Refused `UnexpectedEof`,
    /// `BadLeb128` and `UnknownRangeListEntry` where an entry can't be read, and
    /// `OffsetOutOfBounds` for an index whose address isn't wholly in `.debug_addr`. Takes no
    /// memory. Source: DWARF 5, section 2.17.3; DWARF 4, section 2.17.3.
    pub fn next(&mut self) -> Result<Option<Range>, Error>
        ensures gives { Yields self.old result self.new }
    {
        if self.ended {
            return Ok(None);
        }
        let found = find_range(self.unit, &mut self.base_address, &mut self.input);
        self.ended = !matches!(found, Ok(Some(_)));
        found
    }
}
