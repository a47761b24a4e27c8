//! Worked cases: lookups of frames and of units in one file.

use super::codes::{Codes, DONE, NONE, first};
use super::replies::{Answer, Call};
use super::sections::{Sections, Way};
use super::told::{Files, Replies, alone, told_both};
use addr2line_lines_tests::vectors::{
    LINE, LIST, NAMED, NAMED_INFO, OPEN_FUNCTION, OPEN_UNIT, TWO_FUNCTIONS,
};
use std::alloc::Global;

/// "g" at 0x31 at line 3, called at line 7 without a column by "f" at 0x22.
pub const INLINED: Codes = Codes([0x31, 0x67, 1_003_000], [0x22, 0x66, 1_007_999], [0; 3]);

/// "f" alone, at line 3.
pub const ALONE: Codes = Codes([0x22, 0x66, 1_003_000], [0; 3], [0; 3]);

// "g" at 0x55 without a location, called at line 9 by "e" at 0x46.
const SECOND: Codes = Codes([0x55, 0x67, 0], [0x46, 0x65, 1_009_999], [0; 3]);

// The unit at 0, which is whole.
const WHOLE: Codes = Codes([0, 1, 1], [0; 3], [0; 3]);

// The fault UnexpectedEof.
const EOF: Codes = Codes([0, 0, 9_000_000], [0; 3], [0; 3]);

fn frames(probe: u64) -> Call {
    Call::Frames(probe, Answer::Drop)
}

fn unit(probe: u64) -> Call {
    Call::Unit(probe, Answer::Drop)
}

// The answers of a context of a unit with its lines, over borrowed and over shared bytes.
fn told_named<const N: usize>(
    alloc: Global,
    info: &'static [u8],
    calls: [Call; N],
) -> [Replies<N>; 2] {
    told_both(alloc, alone(NAMED, info, &LINE), Way::InRc, calls)
}

#[test]
fn inlined_functions_stand_before_their_callers(rt: HostRuntime) {
    let calls = [
        frames(0x24),
        frames(0x24),
        frames(0x2a),
        frames(0x30),
        unit(0x24),
        unit(0x30),
        frames(u64::MAX),
        unit(u64::MAX),
        // The unit has no load that is answered.
        Call::Preload(0x24),
        Call::Forget(0),
        frames(0x24),
        frames(0x2a),
        frames(0x30),
    ];
    let want = [
        INLINED, INLINED, ALONE, NONE, WHOLE, NONE, NONE, NONE, NONE, DONE, INLINED, ALONE, NONE,
    ];
    // The unit is whole, or lacks its closing entry.
    for info in [NAMED_INFO, OPEN_UNIT] {
        assert_eq!(rt; told_named(rt.alloc(), info, calls), [(want, 0); 2]);
    }
}

#[test]
fn functions_are_found_in_any_order(rt: HostRuntime) {
    let [first, second] = [frames(0x24), frames(0x44)];
    let cases = [
        ([first, second, first], [INLINED, SECOND, INLINED]),
        ([second, first, second], [SECOND, INLINED, SECOND]),
        ([Call::ParseInlined, second, first], [DONE, SECOND, INLINED]),
    ];
    for (calls, want) in cases {
        assert_eq!(rt;
            told_named(rt.alloc(), TWO_FUNCTIONS, calls),
            [(want, 0); 2]
        );
    }
}

#[test]
fn a_function_without_its_end_refuses_frames(rt: HostRuntime) {
    let calls = [
        Call::Location(0x18),
        frames(0x18),
        frames(0x18),
        // The unit is passed over.
        unit(0x18),
    ];
    let line_1 = first([0, 0, 1_001_000]);
    let want = [line_1, EOF, EOF, NONE];
    assert_eq!(rt;
        told_named(rt.alloc(), OPEN_FUNCTION, calls),
        [(want, 0); 2]
    );
}

/// A root entry and functions and inlined functions, all with children, DW_AT_low_pc and
/// DW_AT_high_pc; and a function with DW_AT_ranges.
pub const RANGED: &[u8] = b"\x01\x11\x01\x11\x01\x12\x0b\0\0\x02\x2e\x01\x11\x01\x12\x0b\0\0\
    \x03\x1d\x01\x11\x01\x12\x0b\0\0\x04\x2e\0\x55\x17\0\0\0";

// In [0, 100): [0x10, 0x30) at 0xf, and [0x20, 0x28) at 0x14.
const NESTED: &[u8] = b"\x16\0\0\0\x04\0\0\0\0\0\x02\x01\0\0\x64\x02\x10\0\x20\0\x02\x20\0\x08\0\0";

// In [0, 100): [0x10, 0x20) at 0xf and at 0x14.
const EQUAL: &[u8] = b"\x16\0\0\0\x04\0\0\0\0\0\x02\x01\0\0\x64\x02\x10\0\x10\0\x02\x10\0\x10\0\0";

// In [0, 100): the ranges of `LIST` at 0xf, and [45, 60) at 0x14.
const LISTED: &[u8] = b"\x16\0\0\0\x04\0\0\0\0\0\x02\x01\0\0\x64\x04\0\0\0\0\x02\x2d\0\x0f\0\0";

// In [0, 100): the function [0, 0x30) at 0xf, in which [0, 10) at 0x13 is inlined, in which [0, 2)
// at 0x17 and [6, 8) at 0x1c are inlined.
const SIBLINGS: &[u8] = b"\x20\0\0\0\x04\0\0\0\0\0\x02\x01\0\0\x64\x02\0\0\x30\x03\0\0\x0a\
    \x03\0\0\x02\0\x03\x06\0\x02\0\0\0\0";

/// A call whose file, line and column aren't said.
pub const UNSAID: u64 = 2_000_999;

fn only(offset: u64) -> Codes {
    first([offset, 0, 0])
}

// The frames at three addresses of a unit without lines, over borrowed and over shared bytes.
fn told_ranged(alloc: Global, info: &'static [u8], probes: [u64; 3]) -> [Replies<3>; 2] {
    let Files { main, split } = alone(RANGED, info, &[]);
    let main = Sections {
        ranges: &LIST,
        ..main
    };
    told_both(alloc, Files { main, split }, Way::InRc, probes.map(frames))
}

#[test]
fn functions_that_overlap_have_one_at_each_address(rt: HostRuntime) {
    let gap = Codes([0x1c, 0, 0], [0x13, 0, UNSAID], [0xf, 0, UNSAID]);
    let cases: [(&'static [u8], [u64; 3], [Codes; 3]); 4] = [
        (NESTED, [0x24, 0x2a, 0x30], [only(0x14), only(0xf), NONE]),
        (EQUAL, [0x10, 0x1f, 0x20], [only(0xf), only(0xf), NONE]),
        (LISTED, [47, 52, 60], [only(0xf), only(0x14), only(0xf)]),
        (SIBLINGS, [7, 0x30, u64::MAX], [gap, NONE, NONE]),
    ];
    for (info, probes, want) in cases {
        assert_eq!(rt; told_ranged(rt.alloc(), info, probes), [(want, 0); 2]);
    }
}

#[test]
fn empty_sections_answer_nothing_to_each_call(rt: HostRuntime) {
    let unknown = first([0, 0, 9_500_000]);
    let cases = [
        (Call::Location(0x18), NONE),
        (Call::Rows(0, u64::MAX, 0), NONE),
        (Call::RowsAlone(0, u64::MAX, 0), NONE),
        (frames(0x18), NONE),
        (unit(0x18), NONE),
        (Call::Preload(0x18), NONE),
        (Call::LoadNothing(0), unknown),
        (Call::Forget(0), unknown),
        (Call::ParseLines, DONE),
        (Call::ParseFunctions, DONE),
        (Call::ParseInlined, DONE),
    ];
    let want = (cases.map(|(_, want)| want), 0);
    for way in [Way::InRc, Way::Replayed] {
        let told = told_both(
            rt.alloc(),
            alone(&[], &[], &[]),
            way,
            cases.map(|(call, _)| call),
        );
        assert_eq!(rt; told, [want; 2]);
    }
}
