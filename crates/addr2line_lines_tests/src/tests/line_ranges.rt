//! The rows of a range of addresses, the ranges of sequences, and looks, by the lines of one unit.

use crate::sections::{fault_code, lines_of};
use crate::vectors::{
    FOUR_SEQUENCES, INFO_WIDE, SAME_ADDRESS, SHARED_BLOCK, THREE_SEQUENCES, TWO_HUNDRED_ROWS,
    ZERO_LENGTH, ZERO_LENGTH_AND_ANOTHER,
};
use addr2line_lines::{Count, Lines};
use gimli::read::{Error, Range};
use std::alloc::Global;

// No item.
const NONE: [u64; 3] = [0, 0, 0];

// The first five items of a range: the address, the length of the span, and the line.
fn items_of(lines: &Lines, [begin, end, low, high]: [u64; 4]) -> [[u64; 3]; 5] {
    let mut items = [NONE; 5];
    let found = lines.find_location_range(Range { begin, end }, low, high);
    for (item, (address, length, location)) in items.iter_mut().zip(found) {
        *item = [address, length, location.line.map_or(0, u64::from)];
    }
    items
}

// The same by the line program; eights where there are no lines.
fn items_in(alloc: Global, line: &[u8], range: [u64; 4]) -> [[u64; 3]; 5] {
    match lines_of(alloc, &INFO_WIDE, line) {
        Ok(lines) => items_of(&lines, range),
        Err(_) => [[8; 3]; 5],
    }
}

#[test]
fn a_range_meets_rows_with_their_whole_spans(rt: HostRuntime) {
    let cases: [(&[u8], [u64; 4], [[u64; 3]; 5]); 6] = [
        (
            &SAME_ADDRESS,
            [0x10, 0x30, 0x18, 0x21],
            [[0x10, 0x10, 2], [0x20, 0x10, 3], NONE, NONE, NONE],
        ),
        // The range's ends are reversed.
        (
            &SAME_ADDRESS,
            [0x10, 0x30, 0x1c, 0x14],
            [[0x10, 0x10, 2], NONE, NONE, NONE, NONE],
        ),
        (
            &ZERO_LENGTH,
            [0, 0x40, 0, 0x40],
            [[0x10, 0x10, 1], [0x20, 0, 2], NONE, NONE, NONE],
        ),
        (
            &ZERO_LENGTH_AND_ANOTHER,
            [0, 0x40, 0, 0x40],
            [[0x10, 0x10, 1], [0x20, 0, 2], [0x20, 8, 5], NONE, NONE],
        ),
        (
            &THREE_SEQUENCES,
            [0, 0x30, 0, 0x30],
            [[0, 4, 2], [0, 8, 1], [0x10, 0x20, 3], NONE, NONE],
        ),
        (
            &FOUR_SEQUENCES,
            [0, 0x30, 0, 0x30],
            [[0, 4, 2], [0, 8, 1], [2, 1, 4], [0x10, 0x20, 3], NONE],
        ),
    ];
    for (line, range, want) in cases {
        assert_eq!(rt; items_in(rt.alloc(), line, range), want);
    }
}

// The first four ranges of the sequences; eights where there are no lines.
fn ranges_in(alloc: Global, line: &[u8]) -> [[u64; 2]; 4] {
    let Ok(lines) = lines_of(alloc, &INFO_WIDE, line) else {
        return [[8; 2]; 4];
    };
    let mut ranges = [[0, 0]; 4];
    for (range, found) in ranges.iter_mut().zip(lines.ranges()) {
        *range = [found.begin, found.end];
    }
    ranges
}

#[test]
fn sequences_have_ranges_in_order(rt: HostRuntime) {
    let want = [[0, 4], [0, 8], [2, 3], [0x10, 0x30]];
    assert_eq!(rt; ranges_in(rt.alloc(), &FOUR_SEQUENCES), want);
}

// The line at an address, with and without the count of looks, and with that which a search raises
// as it runs; 0 for none.
fn lines_at(lines: &Lines, probe: u64) -> [u32; 3] {
    let mut steps = Count::new();
    let counted = lines.find_location_counted(&mut steps, probe);
    let plain = lines.find_location(probe);
    let (watched, _) = lines.find_location_watched(probe);
    [counted, plain, watched].map(|found| found.and_then(|location| location.line).unwrap_or(0))
}

// The same at four addresses by the line program; a fault's number where there are no lines.
fn lines_in(alloc: Global, line: &[u8], probes: [u64; 4]) -> [[u32; 3]; 4] {
    match lines_of(alloc, &INFO_WIDE, line) {
        Ok(lines) => probes.map(|probe| lines_at(&lines, probe)),
        Err(error) => [[fault_code(error); 3]; 4],
    }
}

#[test]
fn a_lookup_that_counts_answers_alike(rt: HostRuntime) {
    let cases: [(&[u8], [u64; 4], [u32; 4]); 3] = [
        (&FOUR_SEQUENCES, [2, 5, 0x18, 8], [4, 0, 3, 0]),
        // The fourth block has rows of one sequence, or of both.
        (
            &TWO_HUNDRED_ROWS,
            [0x120a, 0x131f, 0x1320, 6],
            [131, 200, 0, 0],
        ),
        (&SHARED_BLOCK, [0x120a, 0x131f, 0x1320, 6], [131, 200, 0, 2]),
    ];
    for (line, probes, want) in cases {
        assert_eq!(rt;
            lines_in(rt.alloc(), line, probes),
            want.map(|line| [line; 3])
        );
    }
}

// The least and the most looks of searches: of those that find a row, and of the others.
#[derive(Clone, Copy, Debug)]
struct Steps {
    least: u64,
    most: u64,
    other_least: u64,
    other_most: u64,
}

impl Steps {
    // One more search.
    fn add(&mut self, lines: &Lines, probe: u64) {
        let (found, number) = lines.find_location_watched(probe);
        if found.is_some() {
            self.least = self.least.min(number);
            self.most = self.most.max(number);
        } else {
            self.other_least = self.other_least.min(number);
            self.other_most = self.other_most.max(number);
        }
    }

    // Whether a search for a row looks at a sequence and a row at least, any other at a sequence,
    // and none more often than that.
    fn are_bounded(self, most: u64) -> bool {
        self.least >= 2 && self.most <= most && self.other_least >= 1 && self.other_most <= most
    }
}

// The looks of searches for all addresses up to 0x2000; none are bounded where there are no lines.
fn steps_in(alloc: Global, line: &[u8]) -> Steps {
    let mut steps = Steps {
        least: u64::MAX,
        most: 0,
        other_least: u64::MAX,
        other_most: 0,
    };
    match lines_of(alloc, &INFO_WIDE, line) {
        Ok(lines) => {
            for probe in 0..0x2000 {
                steps.add(&lines, probe);
            }
        }
        Err(_) => steps.most = u64::MAX,
    }
    steps
}

#[test]
fn a_search_looks_at_few_blocks_and_rows(rt: HostRuntime) {
    // The digits of the number of sequences and of that of the four blocks, and the rows of one.
    let cases: [(&[u8], u64); 2] = [(&TWO_HUNDRED_ROWS, 1 + 3 + 64), (&SHARED_BLOCK, 2 + 3 + 64)];
    for (line, most) in cases {
        let steps = steps_in(rt.alloc(), line);
        assert!(rt; steps.are_bounded(most), "{steps:?}");
    }
}

// The lines at four addresses, as each way gives them.
const FOUR_LINES: [[u32; 3]; 4] = [[4; 3], [0; 3], [3; 3], [0; 3]];

fn four_lines(alloc: Global) -> [[u32; 3]; 4] {
    lines_in(alloc, &FOUR_SEQUENCES, [2, 5, 0x18, 8])
}

// The same by a second parse where the first is refused memory.
fn parsed_again(alloc: Global) -> [[u32; 3]; 4] {
    let lines = four_lines(alloc);
    if lines == [[fault_code(Error::OutOfMemory); 3]; 4] {
        return four_lines(alloc);
    }
    lines
}

#[test]
fn growths_that_are_granted_give_lines(rt: HostRuntime) {
    assert_eq!(rt; four_lines(rt.alloc()), FOUR_LINES);
}

// Each growth is refused in turn by `tools/refuse_growths`.
#[test]
fn a_refused_growth_is_parsed_again(rt: HostRuntime) {
    assert_eq!(rt; parsed_again(rt.alloc()), FOUR_LINES);
}
