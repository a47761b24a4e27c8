//! Worked cases: recorded calls, made again.

use super::codes::{Codes, DONE, NONE, REFUSED, first};
use super::recorded::WAITS;
use super::replies::{Answer, Call};
use super::sections::{Way, three_sections};
use super::told::{Files, Replies, alone, told_borrowed, told_both};
use addr2line_lines_tests::vectors::{
    ABBREV, FOUR_SEQUENCES, INFO_WIDE, LINE_V5, MAIN_INFO, SAME_ADDRESS, SPLIT_ABBREV, SPLIT_INFO,
    THREE_SEQUENCES, WAITING_ABBREV, ZERO_LENGTH, ZERO_LENGTH_AND_ANOTHER,
};
use std::alloc::Global;

// The unit that waits, and its split file.
fn files() -> Files<'static> {
    Files {
        main: three_sections(WAITING_ABBREV, MAIN_INFO, &LINE_V5),
        split: three_sections(SPLIT_ABBREV, SPLIT_INFO, &[]),
    }
}

fn frames(answer: Answer) -> Call {
    Call::Frames(0x18, answer)
}

fn unit(answer: Answer) -> Call {
    Call::Unit(0x18, answer)
}

// "h", a location without a function, and a line.
const H: Codes = Codes([0x17, 0x68, 1_001_000], [0; 3], [0; 3]);

const LINE_1: Codes = Codes([0, 0, 1_001_000], [0; 3], [0; 3]);

const LINE_3: Codes = Codes([0, 0, 1_003_000], [0; 3], [0; 3]);

// The unit at 0 of the main file, and of the split file.
const MAIN: Codes = Codes([0, 1, 1], [0; 3], [0; 3]);

const SPLIT: Codes = Codes([0, 2, 1], [0; 3], [0; 3]);

const UNKNOWN: Codes = Codes([0, 0, 9_500_000], [0; 3], [0; 3]);

// The load of the unit.
const LOAD: Codes = Codes([1, 0x1122_3344_5566_7788, 1], [0; 3], [0; 3]);

#[test]
fn the_first_answer_decides_until_it_is_forgotten(rt: HostRuntime) {
    let cases = [
        [
            (frames(Answer::Drop), WAITS),
            (frames(Answer::Abandon), WAITS),
            (frames(Answer::Nothing), LINE_1),
            (Call::Load(0), DONE),
            (frames(Answer::Drop), LINE_1),
            (Call::Location(0x20), LINE_3),
            (unit(Answer::Drop), MAIN),
            (Call::ParseFunctions, DONE),
            (Call::LoadNothing(1), UNKNOWN),
        ],
        [
            (Call::ParseLines, DONE),
            (frames(Answer::Nothing), LINE_1),
            (Call::Forget(0), DONE),
            (frames(Answer::Drop), WAITS),
            (frames(Answer::Split), H),
            (Call::LoadNothing(0), DONE),
            (frames(Answer::Drop), H),
            (Call::Forget(1), UNKNOWN),
            (unit(Answer::Drop), SPLIT),
        ],
        [
            (Call::Preload(0x18), LOAD),
            (unit(Answer::Abandon), WAITS),
            (unit(Answer::Split), SPLIT),
            (Call::Preload(0x18), NONE),
            (Call::ParseInlined, DONE),
            (frames(Answer::Nothing), H),
            (Call::Location(0x30), NONE),
            (Call::Forget(0), DONE),
            (unit(Answer::Nothing), MAIN),
        ],
    ];
    for case in cases {
        let want = (case.map(|(_, want)| want), 0);
        let told = told_both(
            rt.alloc(),
            files(),
            Way::Replayed,
            case.map(|(call, _)| call),
        );
        assert_eq!(rt; told, [want; 2]);
    }
}

// The first six rows of a range, which are replied twice, from the first on and from the fourth.
fn rows_of(alloc: Global, line: &[u8], [low, high]: [u64; 2]) -> Replies<2> {
    let calls = [Call::Rows(low, high, 0), Call::Rows(low, high, 3)];
    let files = alone(&ABBREV, &INFO_WIDE, line);
    told_borrowed(alloc, files, Way::Replayed, calls)
}

#[test]
fn the_rows_of_a_range_are_replied(rt: HostRuntime) {
    let none = [0; 3];
    let first = [0x10, 0x10, 1_001_000];
    let second = [0x20, 0, 1_002_000];
    let cases: [(&[u8], [u64; 2], [[u64; 3]; 5]); 6] = [
        (
            &SAME_ADDRESS,
            [0x18, 0x21],
            [
                [0x10, 0x10, 1_002_000],
                [0x20, 0x10, 1_003_000],
                none,
                none,
                none,
            ],
        ),
        (
            &SAME_ADDRESS,
            [0x1c, 0x14],
            [[0x10, 0x10, 1_002_000], none, none, none, none],
        ),
        (&ZERO_LENGTH, [0, 0x40], [first, second, none, none, none]),
        (
            &ZERO_LENGTH_AND_ANOTHER,
            [0, 0x40],
            [first, second, [0x20, 8, 1_005_000], none, none],
        ),
        (
            &THREE_SEQUENCES,
            [0, 0x30],
            [
                [0, 4, 1_002_000],
                [0, 8, 1_001_000],
                [0x10, 0x20, 1_003_000],
                none,
                none,
            ],
        ),
        (
            &FOUR_SEQUENCES,
            [0, 0x30],
            [
                [0, 4, 1_002_000],
                [0, 8, 1_001_000],
                [2, 1, 1_004_000],
                [0x10, 0x20, 1_003_000],
                none,
            ],
        ),
    ];
    for (line, range, want) in cases {
        let [a, b, c, d, e] = want;
        let want = [Codes(a, b, c), Codes(d, e, none)];
        assert_eq!(rt; rows_of(rt.alloc(), line, range), (want, 0));
    }
}

// Both rows of the unit.
const ROWS: Codes = Codes([0x10, 0x10, 1_001_000], [0x20, 0x10, 1_003_000], [0; 3]);

const GROWING: [Call; 3] = [
    Call::ParseLines,
    Call::Frames(0x18, Answer::Split),
    Call::Rows(0, 0x40, 0),
];

fn told(alloc: Global) -> Replies<3> {
    told_borrowed(alloc, files(), Way::Replayed, GROWING)
}

// The replies of a context that is made once more where it was refused.
fn told_again(alloc: Global) -> [Codes; 3] {
    let (codes, _) = told(alloc);
    if codes == [REFUSED; 3] {
        return told(alloc).0;
    }
    codes
}

// Each growth is refused in turn by `tools/refuse_growths`.
#[test]
fn a_refused_growth_leaves_a_beginning_of_the_calls(rt: HostRuntime) {
    assert_eq!(rt; told_again(rt.alloc()), [DONE, H, ROWS]);
}
