//! Contexts: the rows that a range of addresses meets, unit range after unit range.

use super::codes::Codes;
use super::replies::Call;
use super::sections::{Sections, Way, three_sections};
use super::told::{Replies, alone, numbers, told_each, told_shared};
use super::units::{TWO_INFO, TWO_LINES};
use addr2line_lines_tests::vectors::{
    ABBREV, FOUR_SEQUENCES, INFO, SAME_ADDRESS, THREE_SEQUENCES, ZERO_LENGTH,
    ZERO_LENGTH_AND_ANOTHER,
};
use std::alloc::Global;

// An item: its address, the length of its span, and the number of its location.
type Item = [u64; 3];

// No item, and the fault UnexpectedEof.
const NONE: Item = [0, 0, 0];

const EOF: Item = [0, 0, 9_000_000];

// The first six items of a range with faults, and without.
fn items_calls([low, high]: [u64; 2]) -> [Call; 4] {
    [
        Call::Rows(low, high, 0),
        Call::Rows(low, high, 3),
        Call::RowsAlone(low, high, 0),
        Call::RowsAlone(low, high, 3),
    ]
}

fn items_of(alloc: Global, sections: Sections<'_>, range: [u64; 2]) -> Replies<4> {
    told_each(alloc, sections, items_calls(range))
}

// No more items.
const END: Codes = Codes(NONE, NONE, NONE);

// `INFO` with another begin, and another number of addresses.
fn info_of(low: u8, size: u8) -> [u8; 31] {
    let mut info = INFO;
    info[19] = low;
    info[27] = size;
    info
}

#[test]
fn rows_of_one_unit_are_met(rt: HostRuntime) {
    let two = Codes([0x10, 0x10, 1_001_000], [0x20, 0, 1_002_000], NONE);
    let three = Codes(
        [0, 4, 1_002_000],
        [0, 8, 1_001_000],
        [0x10, 0x20, 1_003_000],
    );
    let cases: [(&[u8], [u8; 2], [u64; 2], Codes, Codes); 7] = [
        (
            &SAME_ADDRESS,
            [0x10, 0x20],
            [0x18, 0x21],
            Codes([0x10, 0x10, 1_002_000], [0x20, 0x10, 1_003_000], NONE),
            END,
        ),
        // The ends are reversed.
        (
            &SAME_ADDRESS,
            [0x10, 0x20],
            [0x1c, 0x14],
            Codes([0x10, 0x10, 1_002_000], NONE, NONE),
            END,
        ),
        (&ZERO_LENGTH, [0, 0x40], [0, 0x40], two, END),
        (
            &ZERO_LENGTH_AND_ANOTHER,
            [0, 0x40],
            [0, 0x40],
            Codes(
                [0x10, 0x10, 1_001_000],
                [0x20, 0, 1_002_000],
                [0x20, 8, 1_005_000],
            ),
            END,
        ),
        (&THREE_SEQUENCES, [0, 0x30], [0, 0x30], three, END),
        (
            &FOUR_SEQUENCES,
            [0, 0x30],
            [0, 0x30],
            Codes([0, 4, 1_002_000], [0, 8, 1_001_000], [2, 1, 1_004_000]),
            Codes([0x10, 0x20, 1_003_000], NONE, NONE),
        ),
        // No unit covers the range.
        (&FOUR_SEQUENCES, [0, 0x30], [0x30, u64::MAX], END, END),
    ];
    for (line, [low, size], range, first, rest) in cases {
        let info = info_of(low, size);
        let told = items_of(rt.alloc(), three_sections(&ABBREV, &info, line), range);
        assert_eq!(rt; told, ([first, rest, first, rest], 0));
    }
}

#[test]
fn the_last_sequence_that_begins_counts(rt: HostRuntime) {
    let info = info_of(0, 0x30);
    let calls = [Call::Location(2), Call::Location(5), Call::Location(0x18)];
    let cases: [(&[u8], [u64; 3]); 2] = [
        (&THREE_SEQUENCES, [1_001_000, 1_001_000, 1_003_000]),
        (&FOUR_SEQUENCES, [1_004_000, 0, 1_003_000]),
    ];
    for (line, want) in cases {
        let told = told_each(rt.alloc(), three_sections(&ABBREV, &info, line), calls);
        assert_eq!(rt; numbers(told), (want, 0));
    }
}

// The rows of the two units.
const W_1: Item = [0x10, 0x10, 1_001_000];

const W_3: Item = [0x20, 0x10, 1_003_000];

const V_1: Item = [0x40, 0x10, 4_001_000];

const V_3: Item = [0x50, 0x10, 4_003_000];

// All of them.
const BOTH: [Codes; 2] = [Codes(W_1, W_3, V_1), Codes(V_3, NONE, NONE)];

#[test]
fn rows_of_two_units_are_met(rt: HostRuntime) {
    // The first unit ends last: [0x10, 0x70).
    let mut wide = TWO_INFO;
    wide[27] = 0x60;
    let mut cut = TWO_LINES;
    cut[53] = 0x7f;
    let mut cut_later = TWO_LINES;
    cut_later[108] = 0x7f;
    let inner = Codes(W_3, V_1, NONE);
    let later_first = [Codes(V_1, V_3, W_1), Codes(W_3, NONE, NONE)];
    let later = Codes(V_1, V_3, NONE);
    let cases: [(&[u8], &[u8], [u64; 2], [Codes; 2], [Codes; 2]); 6] = [
        (&TWO_INFO, &TWO_LINES, [0, 0x100], BOTH, BOTH),
        (
            &TWO_INFO,
            &TWO_LINES,
            [0x2f, 0x41],
            [inner, END],
            [inner, END],
        ),
        (&wide, &TWO_LINES, [0, 0x100], later_first, later_first),
        // A fault stands in the place of the unit's rows, and the next unit goes on.
        (
            &TWO_INFO,
            &cut,
            [0, 0x100],
            [Codes(EOF, V_1, V_3), END],
            [Codes(NONE, V_1, V_3), END],
        ),
        (
            &TWO_INFO,
            &cut_later,
            [0, 0x100],
            [Codes(W_1, W_3, EOF), END],
            [Codes(W_1, W_3, NONE), END],
        ),
        // The faulty unit isn't met.
        (&TWO_INFO, &cut, [0x30, 0x100], [later, END], [later, END]),
    ];
    for (info, line, range, [a, b], [c, d]) in cases {
        let told = items_of(rt.alloc(), three_sections(&ABBREV, info, line), range);
        assert_eq!(rt; told, ([a, b, c, d], 0));
    }
}

#[test]
fn rows_over_shared_bytes_are_met_alike(rt: HostRuntime) {
    let files = alone(&ABBREV, &TWO_INFO, &TWO_LINES);
    let told = told_shared(rt.alloc(), files, Way::Whole, items_calls([0, 0x100]));
    let [first, rest] = BOTH;
    assert_eq!(rt; told, ([first, rest, first, rest], 0));
}

#[test]
fn empty_sections_have_no_rows(rt: HostRuntime) {
    let told = items_of(rt.alloc(), three_sections(&[], &[], &[]), [0, u64::MAX]);
    assert_eq!(rt; told, ([END; 4], 0));
}
