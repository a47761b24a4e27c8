//! Contexts: which sections make one, and what its lookups answer at each call.

use super::codes::{Codes, first};
use super::replies::Call;
use super::sections::{Way, three_sections};
use super::told::{alone, numbers, told_borrowed, told_each};
use addr2line_lines_tests::vectors::{ABBREV, INFO, INFO_WIDE, LINE, LINE_V5};
use std::alloc::Global;

// The same unit, version 5.
const INFO_V5: [u8; 32] = [
    0x1c, 0x00, 0x00, 0x00, 0x05, 0x00, 0x01, 0x08, 0x00, 0x00, 0x00, 0x00, 0x01, 0x00, 0x00, 0x00,
    0x00, 0x2f, 0x77, 0x00, 0x10, 0x00, 0x00, 0x00, 0x00, 0x00, 0x00, 0x00, 0x20, 0x00, 0x00, 0x00,
];

// The same unit in 64-bit DWARF.
const INFO_64: [u8; 47] = [
    0xff, 0xff, 0xff, 0xff, 0x23, 0x00, 0x00, 0x00, 0x00, 0x00, 0x00, 0x00, 0x04, 0x00, 0x00, 0x00,
    0x00, 0x00, 0x00, 0x00, 0x00, 0x00, 0x08, 0x01, 0x00, 0x00, 0x00, 0x00, 0x00, 0x00, 0x00, 0x00,
    0x2f, 0x77, 0x00, 0x10, 0x00, 0x00, 0x00, 0x00, 0x00, 0x00, 0x00, 0x20, 0x00, 0x00, 0x00,
];

// The unit without addresses of its own.
const NO_RANGE_ABBREV: &[u8] = b"\x01\x11\0\x10\x17\x1b\x08\0\0\0";

const NO_RANGE_INFO: &[u8] = b"\x0f\0\0\0\x04\0\0\0\0\0\x08\x01\0\0\0\0/w\0";

const CALLS: [Call; 8] = [
    Call::Location(0xf),
    Call::Location(0x10),
    Call::Location(0x1f),
    Call::Location(0x20),
    Call::Location(0x2f),
    Call::Location(0x30),
    Call::Location(0x10),
    Call::Location(u64::MAX),
];

// Lines 1 and 3 of "/w/a.c" at column 0.
const FOUND: [u64; 8] = [
    0, 1_001_000, 1_001_000, 1_003_000, 1_003_000, 0, 1_001_000, 0,
];

const NOTHING: [u64; 8] = [0; 8];

// The fault UnexpectedEof.
const EOF: Codes = Codes([0, 0, 9_000_000], [0; 3], [0; 3]);

// A fault of the unit's lines is given at each address of the unit, and again.
const FAULT: [u64; 8] = [
    0, 9_000_000, 9_000_000, 9_000_000, 9_000_000, 0, 9_000_000, 0,
];

#[test]
fn lookups_over_three_sections(rt: HostRuntime) {
    let mut cut = LINE;
    cut[53] = 0x7f;
    // The sequence begins at the last address, where no code is.
    let mut tombstone = LINE;
    tombstone[40..48].fill(0xff);
    let cases: [(&[u8], &[u8], &[u8], [u64; 8]); 8] = [
        (&ABBREV, &INFO, &LINE, FOUND),
        (&ABBREV, &INFO_V5, &LINE_V5, FOUND),
        (&ABBREV, &INFO_64, &LINE, FOUND),
        // No unit, and a unit whose record is faulty.
        (&[], &[], &[], NOTHING),
        (&ABBREV, &INFO, &[], NOTHING),
        (&ABBREV, &INFO, &cut, FAULT),
        (&ABBREV, &INFO, &tombstone, NOTHING),
        // The ranges of the unit are those of its sequences.
        (NO_RANGE_ABBREV, NO_RANGE_INFO, &LINE, FOUND),
    ];
    for (abbrev, info, line, want) in cases {
        let told = told_each(rt.alloc(), three_sections(abbrev, info, line), CALLS);
        assert_eq!(rt; numbers(told), (want, 0));
    }
}

#[test]
fn sections_in_one_value_answer_alike(rt: HostRuntime) {
    let plain = alone(&ABBREV, &INFO, &LINE);
    let without_ranges = alone(NO_RANGE_ABBREV, NO_RANGE_INFO, &LINE);
    for way in [Way::Whole, Way::InRc] {
        for files in [plain, without_ranges] {
            let told = told_borrowed(rt.alloc(), files, way, CALLS);
            assert_eq!(rt; numbers(told), (FOUND, 0));
        }
    }
}

// What making a context of one unit says.
fn made(alloc: Global, info: &[u8]) -> Codes {
    let ([codes], _) = told_each(alloc, three_sections(&ABBREV, info, &LINE), [Call::NoCall]);
    codes
}

// How often the section, cut to each number of bytes from 1 on, is refused UnexpectedEof.
fn refused_cuts(alloc: Global) -> u64 {
    let mut refused = 0u64;
    for len in 1..INFO.len() {
        refused = refused.wrapping_add(u64::from(made(alloc, &INFO[..len]) == EOF));
    }
    refused
}

#[test]
fn a_unit_that_is_cut_refuses_the_context(rt: HostRuntime) {
    assert_eq!(rt; refused_cuts(rt.alloc()), 30);
}

#[test]
fn a_reserved_length_refuses_the_context(rt: HostRuntime) {
    let mut reserved = INFO_64;
    reserved[0] = 0xf0;
    assert_eq!(rt; made(rt.alloc(), &reserved), first([0, 0, 9_200_000]));
}

#[test]
fn growths_that_are_granted_give_locations(rt: HostRuntime) {
    let told = told_each(rt.alloc(), three_sections(&ABBREV, &INFO, &LINE), CALLS);
    assert_eq!(rt; numbers(told), (FOUND, 0));
}

// The answers of a context that is made once more where it was refused, each address asked twice.
fn told_again(alloc: Global) -> [u64; 4] {
    let wide = three_sections(&ABBREV, &INFO_WIDE, &LINE);
    let [first, second] = [Call::Location(0x10), Call::Location(0x20)];
    let calls = [first, first, second, second];
    let (codes, _) = numbers(told_each(alloc, wide, calls));
    if codes == [9_100_000; 4] {
        return numbers(told_each(alloc, wide, calls)).0;
    }
    codes
}

// Each growth is refused in turn by `tools/refuse_growths`.
#[test]
fn a_refused_growth_is_never_cached(rt: HostRuntime) {
    let want = [1_001_000, 1_001_000, 1_003_000, 1_003_000];
    assert_eq!(rt; told_again(rt.alloc()), want);
}
