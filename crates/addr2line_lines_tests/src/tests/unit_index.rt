//! Worked cases: the ranges of units that hold an address or meet a range.

use addr2line_units::index::{UnitRange, UnitRanges};
use addr2line_units::range_iter::UnitRangeIter;
use gimli::read::{Error, Range};
use std::alloc::Global;

// A range that leads to a unit, from `begin` to below `end`.
fn leads_to(unit: usize, begin: u64, end: u64) -> UnitRange {
    UnitRange {
        unit,
        range: Range { begin, end },
    }
}

fn table(alloc: Global, listed: &[UnitRange]) -> Result<UnitRanges, Error> {
    let mut ranges = Vec::new(alloc);
    ranges.extend_from_slice(listed)?;
    UnitRanges::new(alloc, ranges)
}

// The unit of a range, 9 where there is none.
fn unit_code(range: Option<UnitRange>) -> usize {
    match range {
        Some(range) => range.unit,
        None => 9,
    }
}

// The units of the first three ranges.
fn unit_codes(mut ranges: UnitRangeIter<'_>) -> [usize; 3] {
    let first = unit_code(ranges.next());
    let second = unit_code(ranges.next());
    [first, second, unit_code(ranges.next())]
}

// What four ranges and an address find among ranges that overlap.
fn found_among(ranges: &UnitRanges) -> [[usize; 3]; 5] {
    [
        unit_codes(ranges.find_range(20, 25)),
        unit_codes(ranges.find_range(20, 20)),
        unit_codes(ranges.find_range(25, 15)),
        unit_codes(ranges.find_range(15, 12)),
        unit_codes(ranges.find(20)),
    ]
}

// The same; eights where no memory is left.
fn found_in(alloc: Global, listed: &[UnitRange]) -> [[usize; 3]; 5] {
    match table(alloc, listed) {
        Ok(ranges) => found_among(&ranges),
        Err(_) => [[8; 3]; 5],
    }
}

#[test]
fn ranges_are_found_in_order_of_their_ends(rt: HostRuntime) {
    let listed = [
        leads_to(0, 0, 100),
        leads_to(1, 10, 20),
        leads_to(2, 20, 30),
    ];
    let want = [[2, 0, 9], [0, 9, 9], [0, 9, 9], [1, 0, 9], [2, 0, 9]];
    assert_eq!(rt; found_in(rt.alloc(), &listed), want);
}

// The units found at an address; eights where no memory is left.
fn found_at(alloc: Global, listed: &[UnitRange], probe: u64) -> [usize; 3] {
    match table(alloc, listed) {
        Ok(ranges) => unit_codes(ranges.find(probe)),
        Err(_) => [8; 3],
    }
}

#[test]
fn a_unit_of_two_such_ranges_is_found_twice(rt: HostRuntime) {
    let listed = [leads_to(0, 0, 40), leads_to(0, 5, 50)];
    assert_eq!(rt; found_at(rt.alloc(), &listed, 6), [0, 0, 9]);
}
