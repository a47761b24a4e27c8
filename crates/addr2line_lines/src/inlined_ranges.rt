//! The ranges of inlined functions, as they are stored.

ghost use Rattle.std.specs.Prelude.{◌≡◌, ◌≤◌, ◌++◌, drop, length, take, Ok};
ghost use Rattle.addr2line_lines.specs.Common.{ExactlyUnlessOomIf};
ghost use Rattle.addr2line_lines.specs.CachedDetails.{between};
ghost use Rattle.addr2line_lines.specs.InOrder.{IsInOrder, in_order};
ghost use Rattle.addr2line_lines.specs.InlinedOrder.{inlined_sooner, places_chain};
ghost use Rattle.addr2line_lines.specs.InlineRoom.{exceeds_inline_room};
ghost use Rattle.addr2line_lines.specs.StoredRanges.{address_of_halves, is_narrow_range, range_fits, range_of_short, upper_half};

use crate::picks::{InlinedFunctionAddress, InlinedPlaces, find_chain, sort_inlined_from};
use crate::rows::HALF;
use crate::short_list::{ListStore, Short, ShortList, Stored};
use gimli::read::{Error, Range};
use std::alloc::Global;

// The greatest depth and the greatest place that have 32 bits.
const GREATEST_NARROW: usize = 0xffff_ffff;

/// A range of an inlined function in sixteen bytes, beside the upper half of its addresses.
#[derive(Clone, Copy)]
pub(crate) struct ShortRange {
    depth: u32,
    // The lower halves of the addresses.
    begin: u32,
    end: u32,
    function: u32,
}

// The upper half of an address.
#[inline(always)]
fn upper_half(address: u64) -> u32
    ensures gives { result ≡ upper_half address }
{
    (address / HALF) as u32
}

// The address of two halves.
#[inline(always)]
fn address_of(upper: u32, lower: u32) -> u64
    ensures gives { result ≡ address_of_halves upper lower }
{
    u64::from(upper) * HALF + u64::from(lower)
}

// Whether a depth and a place have 32 bits.
#[inline(always)]
fn are_narrow(range: InlinedFunctionAddress) -> bool
    ensures gives { result ≡ is_narrow_range range }
{
    range.depth <= GREATEST_NARROW && range.function <= GREATEST_NARROW
}

impl Stored for ShortRange {
    type Whole = InlinedFunctionAddress;

    ghost whole = { range_of_short };

    #[inline(always)]
    fn whole(self, base: u32) -> InlinedFunctionAddress {
        InlinedFunctionAddress {
            depth: self.depth as usize,
            range: Range {
                begin: address_of(base, self.begin),
                end: address_of(base, self.end),
            },
            function: self.function as usize,
        }
    }
}

impl Short for ShortRange {
    ghost base_of = { λ r. upper_half r.range.begin };

    ghost fits = { range_fits };

    #[inline(always)]
    fn base_of(element: InlinedFunctionAddress) -> u32 {
        upper_half(element.range.begin)
    }

    #[inline(always)]
    fn fits(base: u32, element: InlinedFunctionAddress) -> bool {
        upper_half(element.range.begin) == base
            && upper_half(element.range.end) == base
            && are_narrow(element)
    }

    #[inline(always)]
    fn shorten(_base: u32, element: InlinedFunctionAddress) -> ShortRange {
        ShortRange {
            depth: element.depth as u32,
            begin: (element.range.begin % HALF) as u32,
            end: (element.range.end % HALF) as u32,
            function: element.function as u32,
        }
    }
}

/// Ranges of inlined functions, in sixteen bytes each until one doesn't fit.
pub(crate) type InlinedRanges = ShortList<ShortRange>;

impl ShortList<ShortRange> {
    /// Puts the ranges from a place on in order of depth, then begin, then end, then function.
    /// Takes no memory.
    pub(crate) fn sort_from(&mut self, start: usize)
        requires within { start ≤ length self.old.elements }
        ensures gives { self.new.elements ≡ take start self.old.elements
            ++ in_order inlined_sooner (drop start self.old.elements) }
        ensures width { self.new.width ≡ self.old.width }
    {
        match &mut self.store {
            ListStore::Short(upper, ranges) => sort_inlined_from(*upper, ranges, start),
            ListStore::Whole(ranges) => sort_inlined_from(0, ranges, start),
        }
    }

    /// The inlined functions at `probe`, from the outside in: those of depth 0, 1 and so on, up to
    /// the first depth without one, of the ranges from a place up to another, which are in order.
    ///
    /// Refused `OutOfMemory` alone, and only where there are more than 16. Source: Own.
    pub(crate) fn find_chain(
        &self,
        alloc: Global,
        begin: usize,
        end: usize,
        probe: u64,
    ) -> Result<InlinedPlaces, Error>
        requires begin { begin ≤ end }
        requires end { end ≤ length self.now.elements }
        requires ordered { IsInOrder inlined_sooner (between begin end self.now.elements) }
        ensures gives { ExactlyUnlessOomIf
            (exceeds_inline_room (places_chain probe (between begin end self.now.elements)))
            (λ chain. chain.items) result
            (Ok (places_chain probe (between begin end self.now.elements))) }
    {
        match &self.store {
            ListStore::Short(upper, ranges) => {
                find_chain(alloc, *upper, &ranges[begin..end], probe)
            }
            ListStore::Whole(ranges) => find_chain(alloc, 0, &ranges[begin..end], probe),
        }
    }
}
