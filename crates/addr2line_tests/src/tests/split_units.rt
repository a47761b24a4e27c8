//! Worked cases: lookups that wait for split files, and the calls that answer them elsewhere.

use super::codes::{Codes, DONE, NONE, REFUSED, first};
use super::replies::{Answer, Call};
use super::sections::{Way, three_sections};
use super::told::{Files, Replies, TWO_WAITING_INFO, alone, told_borrowed, told_both};
use addr2line_lines_tests::vectors::{
    LINE_V5, MAIN_INFO, SPLIT_ABBREV, SPLIT_INFO, WAITING_ABBREV,
};
use std::alloc::Global;

// The lookup waits for a load: its identifier, and that its names are these.
const WAITS: Codes = Codes([0x1122_3344_5566_7788, 1, 1], [0; 3], [0; 3]);

// "h" without the language of the split unit, at line 1.
const H: Codes = Codes([0x17, 0x68, 1_001_000], [0; 3], [0; 3]);

// A location without a function: lines 1 and 3.
const LINE_1: Codes = Codes([0, 0, 1_001_000], [0; 3], [0; 3]);

const LINE_3: Codes = Codes([0, 0, 1_003_000], [0; 3], [0; 3]);

// The main unit and the split unit, both at 0.
const MAIN: Codes = Codes([0, 4, 1], [0; 3], [0; 3]);

const SPLIT: Codes = Codes([0, 5, 1], [0; 3], [0; 3]);

// The fault UnknownToken.
const UNKNOWN: Codes = Codes([0, 0, 9_500_000], [0; 3], [0; 3]);

fn frames(answer: Answer) -> Call {
    Call::Frames(0x18, answer)
}

fn unit(answer: Answer) -> Call {
    Call::Unit(0x18, answer)
}

// The unit and its split file.
fn files() -> Files<'static> {
    Files {
        main: three_sections(WAITING_ABBREV, MAIN_INFO, &LINE_V5),
        split: three_sections(SPLIT_ABBREV, SPLIT_INFO, &[]),
    }
}

#[test]
fn a_split_unit_is_decided_by_its_first_answer(rt: HostRuntime) {
    let cases = [
        [
            // The unit stays open while no lookup is answered.
            (frames(Answer::Drop), WAITS),
            (frames(Answer::Abandon), WAITS),
            (frames(Answer::IntoLoad), WAITS),
            (unit(Answer::Abandon), WAITS),
            (unit(Answer::IntoLoad), WAITS),
            (Call::Preload(0x18), first([1, 0x1122_3344_5566_7788, 0])),
            (frames(Answer::Split), H),
            (frames(Answer::Drop), H),
            (Call::Frames(u64::MAX, Answer::Drop), NONE),
        ],
        [
            (frames(Answer::Drop), WAITS),
            (frames(Answer::Abandon), WAITS),
            (frames(Answer::Nothing), LINE_1),
            (Call::Load(0), DONE),
            (frames(Answer::Drop), LINE_1),
            (Call::Location(0x20), LINE_3),
            (unit(Answer::Drop), MAIN),
            (Call::ParseFunctions, DONE),
            (Call::LoadNothing(1), UNKNOWN),
        ],
        [
            (Call::ParseLines, DONE),
            (frames(Answer::Nothing), LINE_1),
            (Call::Forget(0), DONE),
            (frames(Answer::Drop), WAITS),
            (frames(Answer::Split), H),
            (Call::LoadNothing(0), DONE),
            (frames(Answer::Drop), H),
            (Call::Forget(1), UNKNOWN),
            (unit(Answer::Drop), SPLIT),
        ],
        [
            (frames(Answer::Skip), LINE_1),
            (frames(Answer::Drop), LINE_1),
            (Call::Forget(0), DONE),
            (unit(Answer::Skip), MAIN),
            (Call::Forget(0), DONE),
            (unit(Answer::Nothing), MAIN),
            (Call::Forget(0), DONE),
            (unit(Answer::Split), SPLIT),
            (frames(Answer::Drop), H),
        ],
        [
            // Parses decide the unit by none.
            (Call::ParseFunctions, DONE),
            (frames(Answer::Drop), LINE_1),
            (Call::Forget(0), DONE),
            (Call::Load(0), DONE),
            (Call::ParseInlined, DONE),
            (frames(Answer::Drop), H),
            (Call::Preload(0x18), NONE),
            (Call::Location(0x18), LINE_1),
            (Call::Unit(u64::MAX, Answer::Drop), NONE),
        ],
    ];
    for case in cases {
        let want = (case.map(|(_, want)| want), 0);
        let told = told_both(rt.alloc(), files(), Way::InRc, case.map(|(call, _)| call));
        assert_eq!(rt; told, [want; 2]);
    }
}

#[test]
fn loads_are_listed_in_the_order_of_units(rt: HostRuntime) {
    let calls = [Call::Preload(15), Call::Preload(5)];
    let want = ([first([2, 2, 1]), first([1, 1, 0])], 0);
    let waiting = alone(WAITING_ABBREV, TWO_WAITING_INFO, &LINE_V5);
    let told = told_both(rt.alloc(), waiting, Way::InRc, calls);
    assert_eq!(rt; told, [want; 2]);
}

// Calls that ask for memory, and what they give.
const GROWING: [Call; 6] = [
    Call::ParseLines,
    Call::Frames(0x18, Answer::Split),
    Call::Unit(0x18, Answer::Drop),
    Call::ParseInlined,
    Call::Preload(0x18),
    Call::Location(0x20),
];

const GROWN: [Codes; 6] = [DONE, H, SPLIT, DONE, NONE, LINE_3];

fn told(alloc: Global) -> Replies<6> {
    told_borrowed(alloc, files(), Way::InRc, GROWING)
}

// The answers of a context that is made once more where it was refused.
fn told_again(alloc: Global) -> [Codes; 6] {
    let (codes, _) = told(alloc);
    if codes == [REFUSED; 6] {
        return told(alloc).0;
    }
    codes
}

// Each growth is refused in turn by `tools/refuse_growths`.
#[test]
fn a_refused_growth_leaves_lookups(rt: HostRuntime) {
    assert_eq!(rt; told_again(rt.alloc()), GROWN);
}

#[test]
fn each_growth_of_lookups_is_granted(rt: HostRuntime) {
    assert_eq!(rt; told(rt.alloc()), (GROWN, 0));
}
