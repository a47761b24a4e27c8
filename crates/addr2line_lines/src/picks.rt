//! The inlined functions at an address.

ghost use Rattle.std.specs.Prelude.{◌≡◌, ◌≤◌, ◌++◌, ℕ, IfOk, List, Ok, drop, length, map, take};
ghost use Rattle.std.specs.List.Sorted.{IsNonDecreasingBy};
ghost use Rattle.addr2line_lines.specs.Common.{ExactlyUnlessOomIf};
ghost use Rattle.addr2line_lines.specs.InOrder.{IsInOrder, in_order};
ghost use Rattle.addr2line_lines.specs.InlinedEntries.{InlinedEntry};
ghost use Rattle.addr2line_lines.specs.InlinedOrder.{IsChainOf, inlined_sooner, inlined_place, place_at, places_chain};
ghost use Rattle.addr2line_lines.specs.InlineRoom.{exceeds_inline_room};

use crate::short_list::Stored;
use gimli::read::{Error, Range};
use smallvec::SmallVec;
use std::alloc::Global;

/// The places of the inlined functions at an address, the outermost first. Up to 16 need no memory.
pub type InlinedPlaces = SmallVec<usize, 16>;

/// A range of an inlined function.
#[derive(Clone, Copy)]
pub(crate) struct InlinedFunctionAddress {
    /// The number of inlined entries around the function's entry.
    pub depth: usize,
    /// The addresses.
    pub range: Range,
    /// The place of the function in the list of inlined functions, which has the order of entries.
    pub function: usize,
}

impl Stored for InlinedFunctionAddress {
    type Whole = InlinedFunctionAddress;

    ghost whole = { λ _ range. range };

    #[inline(always)]
    fn whole(self, _base: u32) -> InlinedFunctionAddress {
        self
    }
}

/// Puts ranges in order of depth, then begin, then end, then function. Takes no memory.
pub(crate) fn sort_inlined<S: Stored<Whole = InlinedFunctionAddress>>(upper: u32, ranges: &mut [S])
    ensures gives { map (S.whole upper) ranges.new
        ≡ in_order inlined_sooner (map (S.whole upper) ranges.old) }
    ensures after { IsInOrder inlined_sooner (map (S.whole upper) ranges.new) }
{
    ranges.sort_unstable_by_key(|r| {
        let whole = r.whole(upper);
        (
            whole.depth,
            whole.range.begin,
            whole.range.end,
            whole.function,
        )
    });
}

/// Puts the ranges from a place on in order. Takes no memory.
pub(crate) fn sort_inlined_from<S: Stored<Whole = InlinedFunctionAddress>>(
    upper: u32,
    ranges: &mut Vec<S>,
    start: usize,
)
    requires within { start ≤ length ranges.old.items }
    ensures gives { map (S.whole upper) ranges.new.items
        ≡ take start (map (S.whole upper) ranges.old.items)
        ++ in_order inlined_sooner (drop start (map (S.whole upper) ranges.old.items)) }
{
    sort_inlined(upper, &mut ranges[start..]);
}

/// The function of a depth that is picked for `probe`, of ranges in order: by the range that begins
/// last at or below `probe`, of these the one that ends last, of these the last function; none
/// where that range doesn't hold `probe`. Takes no memory.
///
/// Source: Own.
pub(crate) fn find_inlined<S: Stored<Whole = InlinedFunctionAddress>>(
    upper: u32,
    ranges: &[S],
    depth: usize,
    probe: u64,
) -> Option<usize>
    requires ordered { IsInOrder inlined_sooner (map (S.whole upper) ranges.now) }
    ensures found { result ≡ place_at probe depth (map (S.whole upper) ranges.now) }
{
    let past = ranges.partition_point(|r| {
        let whole = r.whole(upper);
        whole.depth < depth || (whole.depth == depth && whole.range.begin <= probe)
    });
    if past == 0 {
        return None;
    }
    let range = ranges[past - 1].whole(upper);
    if range.depth == depth && probe < range.range.end {
        Some(range.function)
    } else {
        None
    }
}

/// The inlined functions at `probe`, from the outside in: those of depth 0, 1 and so on, up to the
/// first depth without one, of ranges in order.
///
/// Refused `OutOfMemory` alone, and only where there are more than 16. Source: Own.
pub(crate) fn find_chain<S: Stored<Whole = InlinedFunctionAddress>>(
    alloc: Global,
    upper: u32,
    ranges: &[S],
    probe: u64,
) -> Result<InlinedPlaces, Error>
    requires ordered { IsInOrder inlined_sooner (map (S.whole upper) ranges.now) }
    ensures gives { ExactlyUnlessOomIf
        (exceeds_inline_room (places_chain probe (map (S.whole upper) ranges.now)))
        (λ chain. chain.items) result
        (Ok (places_chain probe (map (S.whole upper) ranges.now))) }
    ensures found { (listed : List InlinedFunctionAddress) → (entry_of : ℕ → InlinedEntry)
        → IsNonDecreasingBy inlined_place listed
        → map (S.whole upper) ranges.now ≡ in_order inlined_sooner listed
        → IfOk result (λ chain. IsChainOf probe entry_of listed chain.items) }
{
    let mut chain = SmallVec::new(alloc);
    for depth in 0..ranges.len() {
        match find_inlined(upper, ranges, depth, probe) {
            Some(function) => chain.push(function)?,
            None => break,
        }
    }
    Ok(chain)
}
