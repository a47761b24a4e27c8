//! The ranges of the units of a context, with those that `.debug_aranges` lists, and the search for
//! those that hold an address.

ghost use Rattle.std.specs.Prelude.{◌≡◌, ◌++◌, [], true, IfErr, IsOk, OnOk, filter, length, nat_lt, Ok, min};
ghost use Rattle.std.specs.List.{AllByRecursion};
ghost use Rattle.std.specs.Iterator.{YieldsFirst, item_count};
ghost use Rattle.addr2line_units.specs.Common.{OutOfMemory, ExactlyAtCost, ExactlyUnlessOomIf, arange_sets_of};
ghost use Rattle.addr2line_units.specs.UnitsIndexed.{aranges_read};
ghost use Rattle.addr2line_lines.specs.InOrder.{in_order};
ghost use Rattle.addr2line_lines.specs.LastAddress.{last_address};
ghost use Rattle.addr2line_units.specs.IndexAranges.{is_arange_of, offset_sooner, set_aranges};
ghost use Rattle.addr2line_units.specs.UnitsMemory.{aranges_in_at_cost};
ghost use Rattle.addr2line_units.specs.IndexLeastBegins.{EndFits, is_between, with_least_begins};
ghost use Rattle.addr2line_units.specs.IndexCover.{cover, cover_range, ends_sooner, from_place};
ghost use Rattle.addr2line_units.specs.RangeIterLeft.{ranges_left};

use crate::range_iter::UnitRangeIter;
use gimli::read::{DebugInfoOffset, EndianSlice, Error, Range, Reader};
use gimli::{ArangeHeader, DebugAranges};
use std::alloc::{AllocError, Global};
use std::marker::Model;
use std::snapshot::Snapshot;

/// A range of addresses that `.debug_aranges` lists for a unit.
#[derive(Clone, Copy)]
pub struct UnitArange {
    /// Where the unit begins, in bytes from the start of `.debug_info`.
    pub unit_offset: DebugInfoOffset,
    /// The addresses.
    pub range: Range,
}

/// The ranges of all sets.
#[derive(Drop)]
pub struct UnitAranges {
    // Those of one unit side by side, in the order of their sets.
    aranges: Vec<UnitArange>,
    // All in the order of their sets, for contracts alone: it has no bytes.
    listed: Snapshot<Vec<UnitArange>>,
}

impl Model for UnitAranges {
    ghost use Rattle.std.specs.Prelude.{◌≡◌, List};
    ghost use Rattle.addr2line_lines.specs.InOrder.{in_order};
    ghost use Rattle.addr2line_units.specs.declared.index.UnitArange.{UnitArange};
    ghost use Rattle.addr2line_units.specs.IndexAranges.{offset_sooner};

    ghost Value = { List UnitArange };

    ghost view = { λ a. a.listed.value.items };

    ghost invariant = { λ a. a.aranges.items ≡ in_order offset_sooner a.listed.value.items };
}

// Adds the ranges of a set. Refused `OutOfMemory` alone.
fn push_set(aranges: &mut Vec<UnitArange>, set: &ArangeHeader<EndianSlice<'_>>) -> Result<(), Error>
    ensures gives { OnOk result (aranges.new.items ≡ aranges.old.items ++ set_aranges set.now) }
    ensures refused { IfErr result (λ e. (e ≡ OutOfMemory)
        × (nat_lt 0 (length (set_aranges set.now)) ≡ true)) }
{
    let unit_offset = set.debug_info_offset();
    let mut ranges = set.entries();
    while let Some(range) = ranges.next() {
        aranges.push(UnitArange { unit_offset, range })?;
    }
    Ok(())
}

// The ranges of all sets, in their order.
fn read_sets<R: Reader>(alloc: Global, section: &DebugAranges<R>) -> Result<Vec<UnitArange>, Error>
    ensures gives { ExactlyAtCost R.shares (λ a. a.items) result
        (aranges_in_at_cost (arange_sets_of (R.section section.now.section))) }
{
    let mut aranges = Vec::new(alloc);
    let mut sets = section.headers();
    while let Some(set) = sets.next()? {
        push_set(&mut aranges, &set)?;
    }
    Ok(aranges)
}

// Puts the ranges of one unit side by side, in the order of their sets.
fn sort_by_unit(aranges: &mut Vec<UnitArange>) -> Result<(), AllocError>
    ensures gives { OnOk result (aranges.new.items ≡ in_order offset_sooner aranges.old.items) }
    ensures memory { aranges.old.items ≡ [] → IsOk result }
{
    aranges.sort_by_key(|arange| arange.unit_offset.0)
}

impl UnitAranges {
    /// The ranges of all sets of `.debug_aranges`.
    ///
    /// Refused by the first fault of a set's header (`UnknownReservedLength`, `UnexpectedEof`,
    /// `UnknownVersion`, `UnsupportedAddressSize`, `UnsupportedSegmentSize`); where a set before it
    /// lists a range it may fail with `OutOfMemory` instead. Source: DWARF 5, section 6.1.2.
    pub fn parse<R: Reader>(alloc: Global, section: &DebugAranges<R>) -> Result<UnitAranges, Error>
        ensures gives { ExactlyAtCost R.shares (λ a. a) result
            (aranges_read (R.section section.now.section)) }
    {
        let mut aranges = read_sets(alloc, section)?;
        let listed = Snapshot::of(&aranges);
        sort_by_unit(&mut aranges)?;
        Ok(UnitAranges { aranges, listed })
    }

    /// The ranges of the unit at an offset. Takes no memory.
    pub fn find(&self, unit_offset: DebugInfoOffset) -> &[UnitArange]
        ensures gives { result.now ≡ filter (is_arange_of unit_offset.0) self.now }
    {
        let first = self
            .aranges
            .partition_point(|a| a.unit_offset.0 < unit_offset.0);
        let rest = &self.aranges[first..];
        let count = rest.partition_point(|a| a.unit_offset.0 <= unit_offset.0);
        &rest[..count]
    }
}

/// A range of addresses that leads to a unit.
#[derive(Clone, Copy)]
pub struct UnitRange {
    /// The place of the unit in the list of units.
    pub unit: usize,
    /// The addresses.
    pub range: Range,
}

// A range, and the least begin of it and of all after it.
#[derive(Clone, Copy)]
pub(crate) struct IndexedRange {
    pub(crate) unit_range: UnitRange,
    pub(crate) least_begin: u64,
}

/// The ranges that lead to units.
#[derive(Drop)]
pub struct UnitRanges {
    // By end, then by unit, then by begin.
    ranges: Vec<IndexedRange>,
    // The same as they are listed, for contracts alone: it has no bytes.
    listed: Snapshot<Vec<UnitRange>>,
}

impl Model for UnitRanges {
    ghost use Rattle.std.specs.Prelude.{List};
    ghost use Rattle.addr2line_units.specs.IndexLeastBegins.{AreIndexed};
    ghost use Rattle.addr2line_units.specs.declared.index.UnitRange.{UnitRange};

    ghost Value = { List UnitRange };

    ghost view = { λ t. t.listed.value.items };

    ghost invariant = { λ t. AreIndexed t.listed.value.items t.ranges.items };
}

// Puts ranges in order of end, then unit, then begin.
fn sort_ranges(ranges: &mut Vec<UnitRange>)
    ensures gives { ranges.new.items ≡ in_order ends_sooner ranges.old.items }
    ensures kept { length ranges.new.items ≡ length ranges.old.items }
{
    ranges.sort_unstable_by_key(|r| (r.range.end, r.unit, r.range.begin));
}

// A range beside the least begin of it and of all after it.
fn index_range(unit_range: UnitRange, least_after: u64) -> IndexedRange
    ensures kept { result.unit_range ≡ unit_range }
    ensures gives { result.least_begin ≡ min least_after unit_range.range.begin }
    ensures bound { EndFits unit_range }
{
    let least_begin = least_after.min(unit_range.range.begin);
    IndexedRange {
        unit_range,
        least_begin,
    }
}

// Each range beside the least begin of it and of all after it.
//
// Refused `OutOfMemory` alone, and only where there is a range.
fn add_least_begins(alloc: Global, mut ranges: Vec<UnitRange>) -> Result<Vec<IndexedRange>, Error>
    ensures gives { ExactlyUnlessOomIf (nat_lt 0 (length ranges.items)) (λ v. v.items) result
        (Ok (with_least_begins ranges.items)) }
    ensures bound { OnOk result (AllByRecursion EndFits ranges.items) }
{
    let mut indexed = Vec::with_capacity(alloc, ranges.len())?;
    let mut least_begin = u64::MAX;
    while let Some(unit_range) = ranges.pop() {
        let range = index_range(unit_range, least_begin);
        least_begin = range.least_begin;
        indexed.push(range)?;
    }
    indexed.reverse();
    Ok(indexed)
}

impl UnitRanges {
    /// The table of ranges that are listed in any order.
    ///
    /// Refused `OutOfMemory` alone, and only where there is a range.
    pub fn new(alloc: Global, mut ranges: Vec<UnitRange>) -> Result<UnitRanges, Error>
        ensures gives { ExactlyUnlessOomIf (nat_lt 0 (length ranges.items)) (λ t. t) result
            (Ok ranges.items) }
    {
        let listed = Snapshot::of(&ranges);
        sort_ranges(&mut ranges);
        let ranges = add_least_begins(alloc, ranges)?;
        Ok(UnitRanges { ranges, listed })
    }

    // The ranges that end past `low` and begin at or below `last`, in order.
    fn find_between(&self, low: u64, last: u64) -> UnitRangeIter<'_>
        ensures gives { ranges_left result
            ≡ filter (is_between low last) (in_order ends_sooner self.now) }
        ensures last { low ≡ last_address → ranges_left result ≡ [] }
    {
        let first = self
            .ranges
            .partition_point(|r| r.unit_range.range.end <= low);
        UnitRangeIter {
            ranges: &self.ranges[first..],
            last,
        }
    }

    /// The ranges that end past `low` and begin below `high`, in order. Takes no memory.
    ///
    /// `low` may be above `high`.
    #[tactic(auto, using(crate::proofs::IndexLemmas::overlaps_found, crate::proofs::IndexLemmas::none_overlaps))]
    pub fn find_range(&self, low: u64, high: u64) -> UnitRangeIter<'_>
        ensures gives { ranges_left result ≡ cover_range low high self.now }
    {
        let Some(last) = high.checked_sub(1) else {
            return UnitRangeIter {
                ranges: &[],
                last: 0,
            };
        };
        self.find_between(low, last)
    }

    /// The ranges that hold `probe`, in order. Takes no memory.
    ///
    /// None holds the greatest address, since none ends past it.
    #[tactic(auto, using(crate::proofs::IndexLemmas::covers_found))]
    pub fn find(&self, probe: u64) -> UnitRangeIter<'_>
        ensures gives { ranges_left result ≡ cover probe self.now }
        ensures last { probe ≡ last_address → ranges_left result ≡ [] }
    {
        self.find_between(probe, probe)
    }
}

impl UnitRange {
    // Whether the range stands before another one, in order of end, then unit, then begin.
    fn ends_sooner(&self, other: &UnitRange) -> bool
        ensures gives { result ≡ ends_sooner self.now other.now }
    {
        let (range, place) = (self.range, other.range);
        (range.end, self.unit, range.begin) < (place.end, other.unit, place.begin)
    }
}

impl<'a> UnitRangeIter<'a> {
    /// Passes over the ranges before a place, none without one. Takes no memory.
    pub fn skip_to(&mut self, place: Option<UnitRange>)
        ensures left { ranges_left self.new ≡ from_place place (ranges_left self.old) }
    {
        let Some(place) = place else { return };
        let passed = self
            .ranges
            .partition_point(|r| r.unit_range.ends_sooner(&place));
        self.ranges = &self.ranges[passed..];
    }
}

impl<'a> Iterator for UnitRangeIter<'a> {
    type Item = UnitRange;

    ghost next_gives = { YieldsFirst ranges_left };

    ghost remaining = { item_count ranges_left };

    /// The next range. Takes no memory.
    #[tactic(auto, using(crate::proofs::IndexLeastBeginLemmas::all_late, crate::proofs::IndexLeastBeginLemmas::later_least, crate::proofs::IndexLeastBeginLemmas::later_ordered))]
    fn next(&mut self) -> Option<UnitRange> {
        loop {
            let (first, rest) = self.ranges.split_first()?;
            // One range that begins too late ends no search: after [90, 95) stands [0, 100).
            if first.least_begin > self.last {
                return None;
            }
            self.ranges = rest;
            if first.unit_range.range.begin <= self.last {
                return Some(first.unit_range);
            }
        }
    }
}
