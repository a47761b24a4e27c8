//! Contexts of two units after a refused growth: the same calls give what they would have given.

use super::codes::{Codes, DONE, REFUSED};
use super::replies::Call;
use super::sections::Way;
use super::told::{Replies, alone, told_shared};
use super::units::{TWO_INFO, TWO_LINES};
use addr2line_lines_tests::vectors::ABBREV;
use std::alloc::Global;

const CALLS: [Call; 7] = [
    Call::Location(0x10),
    Call::Location(0x40),
    Call::Location(0x20),
    Call::Location(0x50),
    Call::RowsAlone(0, 0x100, 0),
    Call::RowsAlone(0, 0x100, 3),
    Call::ParseLines,
];

// Lines 1 and 3 of both units, the rows of a range, and what parsing all lines says.
const WANT: [Codes; 7] = [
    Codes([0, 0, 1_001_000], [0; 3], [0; 3]),
    Codes([0, 0, 4_001_000], [0; 3], [0; 3]),
    Codes([0, 0, 1_003_000], [0; 3], [0; 3]),
    Codes([0, 0, 4_003_000], [0; 3], [0; 3]),
    Codes(
        [0x10, 0x10, 1_001_000],
        [0x20, 0x10, 1_003_000],
        [0x40, 0x10, 4_001_000],
    ),
    Codes([0x50, 0x10, 4_003_000], [0; 3], [0; 3]),
    DONE,
];

fn told(alloc: Global) -> Replies<7> {
    let files = alone(&ABBREV, &TWO_INFO, &TWO_LINES);
    told_shared(alloc, files, Way::Whole, CALLS)
}

// The answers of a context that is made once more where it was refused.
fn told_again(alloc: Global) -> [Codes; 7] {
    let (codes, _) = told(alloc);
    if codes == [REFUSED; 7] {
        return told(alloc).0;
    }
    codes
}

// Each growth is refused in turn by `tools/refuse_growths`.
#[test]
fn a_refused_growth_leaves_both_units(rt: HostRuntime) {
    assert_eq!(rt; told_again(rt.alloc()), WANT);
}

#[test]
fn each_growth_of_two_units_is_granted(rt: HostRuntime) {
    assert_eq!(rt; told(rt.alloc()), (WANT, 0));
}
