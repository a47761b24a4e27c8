//! Of the functions at an address the one with the shortest range.

ghost use Rattle.std.specs.Prelude.{◌≡◌, ◌+◌, ◌*◌, ◌≤◌, ◌^◌, ◌-◌, ◌++◌, ℕ, List, [], Ok, None, IfOk, IfErr, IsOk, OnOk, ◌<◌, ◌↔◌, length, max, nat_lt, slice_index_or, true};
ghost use Rattle.std.specs.BinaryHeap.{heap_items};
ghost use Rattle.std.specs.List.Sorted.{IsNonDecreasingBy, IsPermutation};
ghost use Rattle.addr2line_lines.specs.Common.{OutOfMemory, ExactlyUnlessOomIf};
ghost use Rattle.addr2line_lines.specs.LastAddress.{last_address};
ghost use Rattle.addr2line_lines.specs.Segments.{AreDisjoint, AreSegments, address_begin, first_end, shortest_function_at, as_running, segment_to};
ghost use Rattle.addr2line_lines.specs.Sweep.{IsBegunFrom, IsGreatestFirst, IsSweptBy, is_outdone};

use gimli::read::{Error, Range};
use std::alloc::Global;
use std::cmp::Reverse;
use std::collections::BinaryHeap;
use std::marker::Model;
use std::snapshot::Snapshot;

/// A range of a function.
#[derive(Clone, Copy)]
pub struct FunctionAddress {
    /// The addresses.
    pub range: Range,
    /// The place of the function in the list of functions.
    pub function: usize,
}

// A range that runs: its length, its function and its end; the shortest is the greatest.
fn as_running(address: FunctionAddress) -> Reverse<(u64, usize, u64)>
    ensures gives { result ≡ as_running address }
{
    let Range { begin, end } = address.range;
    Reverse((end.saturating_sub(begin), address.function, end))
}

// A walk over addresses, which cuts ranges into segments.
#[derive(Drop)]
struct Sweep {
    // Where the walk stands: all below is cut.
    at: u64,
    running: BinaryHeap<Reverse<(u64, usize, u64)>>,
    segments: Vec<FunctionAddress>,
}

impl Sweep {
    fn new(alloc: Global) -> Sweep
        ensures empty { (result.at ≡ 0) × (heap_items result.running ≡ [])
            × (result.segments.items ≡ []) }
        ensures none { (addresses : List FunctionAddress) → IsSweptBy addresses 0 result }
    {
        Sweep {
            at: 0,
            running: BinaryHeap::new(alloc),
            segments: Vec::new(alloc),
        }
    }

    // The end of the shortest running range, where it is no greater than `limit`.
    fn first_end(&self, limit: u64) -> Option<u64>
        ensures gives { result ≡ first_end limit (heap_items self.now.running) }
        ensures none { limit ≡ last_address → result ≡ None → heap_items self.now.running ≡ [] }
    {
        match self.running.peek() {
            Some(Reverse((_, _, end))) if *end <= limit => Some(*end),
            _ => None,
        }
    }

    // Whether the first running range is shorter than another range, or as long and of no greater
    // place, and ends no sooner.
    fn is_outdone(&self, range: &Reverse<(u64, usize, u64)>) -> bool
        ensures gives { result ≡ is_outdone range.now (heap_items self.now.running) }
    {
        match self.running.peek() {
            Some(first) => first >= range && first.0.2 >= range.0.2,
            None => false,
        }
    }

    // Goes on to an address, up to which the first running range is the shortest.
    //
    // Refused `OutOfMemory` alone.
    fn advance(&mut self, until: u64) -> Result<(), Error>
        ensures after { OnOk result (self.new.at ≡ max self.old.at until) }
        ensures gives { OnOk result (self.new.segments.items ≡ self.old.segments.items
            ++ segment_to until self.old.at (heap_items self.old.running)) }
        ensures kept { heap_items self.new.running ≡ heap_items self.old.running }
        ensures known { IsGreatestFirst (heap_items self.old.running) }
        ensures refused { IfErr result (λ e. e ≡ OutOfMemory) }
    {
        if let Some(Reverse((_, function, _))) = self.running.peek() {
            if self.at < until {
                let function = *function;
                let range = Range {
                    begin: self.at,
                    end: until,
                };
                self.segments.push(FunctionAddress { range, function })?;
            }
        }
        self.at = self.at.max(until);
        Ok(())
    }

    // Goes on through the ends of running ranges up to a limit.
    //
    // Refused `OutOfMemory` alone.
    fn close(&mut self, limit: u64) -> Result<(), Error>
        ensures after { (addresses : List FunctionAddress) → (next : ℕ)
            → IsBegunFrom addresses next limit → IsSweptBy addresses next self.old
            → OnOk result (IsSweptBy addresses next self.new) }
        ensures none { OnOk result (first_end limit (heap_items self.new.running) ≡ None) }
        ensures empty { limit ≡ last_address → OnOk result (heap_items self.new.running ≡ []) }
        ensures bound { OnOk result (length self.new.segments.items
            + length (heap_items self.new.running)
            ≤ length self.old.segments.items + length (heap_items self.old.running)) }
        ensures refused { IfErr result (λ e. e ≡ OutOfMemory) }
        ensures exact { heap_items self.old.running ≡ [] → IsOk result }
    {
        while let Some(end) = self.first_end(limit) {
            self.advance(end)?;
            self.running.pop();
        }
        Ok(())
    }

    // Goes on to where a range begins, which then runs. One that is outdone is never the shortest,
    // and is passed over.
    //
    // Refused `OutOfMemory` alone.
    fn enter(&mut self, address: FunctionAddress) -> Result<(), Error>
        requires closed { first_end address.range.begin (heap_items self.old.running) ≡ None }
        ensures after { (addresses : List FunctionAddress) → (next : ℕ) → (d : FunctionAddress)
            → IsBegunFrom addresses next address.range.begin → next < length addresses
            → slice_index_or addresses next d ≡ address → IsSweptBy addresses next self.old
            → OnOk result (IsSweptBy addresses (next + 1) self.new) }
        ensures bound { OnOk result (length self.new.segments.items
            + length (heap_items self.new.running)
            ≤ length self.old.segments.items + length (heap_items self.old.running) + 2) }
        ensures kept { is_outdone (as_running address) (heap_items self.old.running) ≡ true
            → (result ≡ Ok tt) × (self.new ≡ self.old) }
        ensures refused { IfErr result (λ e. e ≡ OutOfMemory) }
    {
        let range = as_running(address);
        if self.is_outdone(&range) {
            return Ok(());
        }
        self.advance(address.range.begin)?;
        self.running.push(range)?;
        Ok(())
    }
}

// The segments of ranges that are sorted by begin.
//
// Refused `OutOfMemory` alone, and only where there is a range.
fn cut(alloc: Global, addresses: &[FunctionAddress]) -> Result<Vec<FunctionAddress>, Error>
    requires sorted { IsNonDecreasingBy address_begin addresses.now }
    ensures gives { IfOk result (λ v. AreSegments addresses.now v.items) }
    ensures refused { IfErr result (λ e. (e ≡ OutOfMemory) × (0 < length addresses.now)) }
{
    let mut sweep = Sweep::new(alloc);
    for address in addresses {
        let address = *address;
        sweep.close(address.range.begin)?;
        sweep.enter(address)?;
    }
    sweep.close(u64::MAX)?;
    Ok(sweep.segments)
}

// Whether each range has addresses, and ends no later than any later one begins.
fn are_disjoint(addresses: &[FunctionAddress]) -> bool
    ensures gives { (result ≡ true) ↔ AreDisjoint addresses.now }
{
    let mut past = 0;
    for address in addresses {
        let Range { begin, end } = address.range;
        if begin < past || end <= begin {
            return false;
        }
        past = end;
    }
    true
}

// Puts ranges in order of begin.
fn sort_addresses(addresses: &mut Vec<FunctionAddress>)
    ensures after { IsNonDecreasingBy address_begin addresses.new.items }
    ensures kept { IsPermutation addresses.old.items addresses.new.items }
{
    addresses.sort_unstable_by_key(|address| address.range.begin);
}

/// The ranges of functions, cut into disjoint segments.
#[derive(Drop)]
pub struct Segments {
    // Sorted, at most twice as many as ranges.
    segments: Vec<FunctionAddress>,
    // The ranges as they were listed, for contracts alone: it has no bytes.
    listed: Snapshot<Vec<FunctionAddress>>,
}

impl Model for Segments {
    ghost use Rattle.std.specs.Prelude.{List};
    ghost use Rattle.addr2line_lines.specs.Segments.{AreSegments};
    ghost use Rattle.addr2line_lines.specs.declared.segments.FunctionAddress.{FunctionAddress};

    ghost Value = { List FunctionAddress };

    ghost view = { λ s. s.listed.value.items };

    ghost invariant = { λ s. AreSegments s.listed.value.items s.segments.items };
}

impl Segments {
    /// The segments of ranges that are listed in any order.
    ///
    /// Refused `OutOfMemory` alone, and only where there is a range.
    pub fn new(alloc: Global, mut addresses: Vec<FunctionAddress>) -> Result<Segments, Error>
        ensures gives { ExactlyUnlessOomIf (nat_lt 0 (length addresses.items)) (λ s. s) result
            (Ok addresses.items) }
    {
        let listed = Snapshot::of(&addresses);
        sort_addresses(&mut addresses);
        let segments = if are_disjoint(&addresses) {
            addresses
        } else {
            cut(alloc, &addresses)?
        };
        Ok(Segments { segments, listed })
    }

    /// The function with the shortest range that holds `probe`, of equal lengths the first listed
    /// function; none where no range holds it. Takes no memory.
    pub fn find(&self, probe: u64) -> Option<usize>
        ensures found { result ≡ shortest_function_at probe self.now }
    {
        let past = self.segments.partition_point(|s| s.range.begin <= probe);
        if past == 0 {
            return None;
        }
        let segment = self.segments[past - 1];
        if probe < segment.range.end {
            Some(segment.function)
        } else {
            None
        }
    }
}
