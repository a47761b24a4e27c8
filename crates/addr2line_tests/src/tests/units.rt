//! Contexts of several units: which units and ranges they have, and what refuses them.

use super::replies::Call;
use super::sections::{Sections, Way, borrowed, three_sections};
use super::told::{alone, numbers, told_borrowed, told_by, told_each, told_shared};
use addr2line::Context;
use addr2line::gimli::read::{EndianSlice, Error};
use addr2line::gimli::{DwarfFileType, SectionId};
use addr2line_lines_tests::sections::little;
use addr2line_lines_tests::vectors::{ABBREV, INFO, LINE};
use std::alloc::Global;

/// `INFO`, and after it the same unit at 0x1f with its line program at 0x37, in "/v", [0x40, 0x60).
pub const TWO_INFO: [u8; 62] = *b"\x1b\0\0\0\x04\0\0\0\0\0\x08\x01\0\0\0\0/w\0\x10\0\0\0\0\0\0\0\
    \x20\0\0\0\x1b\0\0\0\x04\0\0\0\0\0\x08\x01\x37\0\0\0/v\0\x40\0\0\0\0\0\0\0\x20\0\0\0";

/// `LINE`, and after it the same program at 0x37 whose sequence begins at 0x40.
pub const TWO_LINES: [u8; 110] = *b"\x33\0\0\0\x04\0\x1b\0\0\0\x01\x01\x01\xfb\x0e\x0d\0\x01\x01\
    \x01\x01\0\0\0\x01\0\0\x01\0a.c\0\0\0\0\0\0\x09\x02\x10\0\0\0\0\0\0\0\x01\xf4\x02\x10\0\x01\x01\
    \x33\0\0\0\x04\0\x1b\0\0\0\x01\x01\x01\xfb\x0e\x0d\0\x01\x01\x01\x01\0\0\0\x01\0\0\x01\0a.c\
    \0\0\0\0\0\0\x09\x02\x40\0\0\0\0\0\0\0\x01\xf4\x02\x10\0\x01\x01";

// DW_AT_stmt_list and DW_AT_comp_dir alone.
const NO_RANGE_ABBREV: &[u8] = b"\x01\x11\0\x10\x17\x1b\x08\0\0\0";

const NO_RANGE_INFO: &[u8] = b"\x0f\0\0\0\x04\0\0\0\0\0\x08\x01\0\0\0\0/w\0";

// The range [0x10, 0x30) of the unit at 0, and a pair whose sum passes 32 bits.
const ARANGES: [u8; 40] = *b"\x24\0\0\0\x02\0\0\0\0\0\x04\0\0\0\0\0\x10\0\0\0\x20\0\0\0\
    \xf0\xff\xff\xff\x20\0\0\0\0\0\0\0\0\0\0\0";

// The locations of eight addresses, and then of all lines that they are parsed.
const PARSED_LAST: [Call; 9] = [
    Call::Location(0xf),
    Call::Location(0x10),
    Call::Location(0x2f),
    Call::Location(0x30),
    Call::Location(0x40),
    Call::Location(0x5f),
    Call::Location(0x60),
    Call::Location(u64::MAX),
    Call::ParseLines,
];

// The same with all lines parsed first.
const PARSED_FIRST: [Call; 9] = [
    Call::ParseLines,
    Call::Location(0xf),
    Call::Location(0x10),
    Call::Location(0x2f),
    Call::Location(0x30),
    Call::Location(0x40),
    Call::Location(0x5f),
    Call::Location(0x60),
    Call::Location(u64::MAX),
];

// All lines are parsed, or the fault UnexpectedEof.
const DONE: u64 = 1;

const EOF: u64 = 9_000_000;

// Lines 1 and 3 of "/w/a.c", and of "/v/a.c".
const W_1: u64 = 1_001_000;

const W_3: u64 = 1_003_000;

const V_1: u64 = 4_001_000;

const V_3: u64 = 4_003_000;

// The locations of the addresses, and what parsing all lines says after them.
fn parsed_last(alloc: Global, sections: Sections<'_>) -> ([u64; 9], u64) {
    numbers(told_each(alloc, sections, PARSED_LAST))
}

// The same with what parsing says before them.
fn parsed_first(alloc: Global, sections: Sections<'_>) -> ([u64; 9], u64) {
    let ([parsed, a, b, c, d, e, f, g, h], refused) = numbers(told_each(
        alloc,
        sections,
        PARSED_FIRST,
    ));
    ([a, b, c, d, e, f, g, h, parsed], refused)
}

#[test]
fn locations_are_found_in_two_units(rt: HostRuntime) {
    let found = [0, W_1, W_3, 0, V_1, V_3, 0, 0, DONE];
    // Both units have the addresses [0x10, 0x60): the first that has a row gives it.
    let mut covered = TWO_INFO;
    covered[27] = 0x50;
    covered[50] = 0x10;
    covered[58] = 0x50;
    // The record of the first unit is faulty: its line program would begin at 0x80.
    let mut outside = TWO_INFO;
    outside[12] = 0x80;
    // The end of a sequence is cut off, in the first and in the second program.
    let mut cut = TWO_LINES;
    cut[53] = 0x7f;
    let mut cut_later = TWO_LINES;
    cut_later[108] = 0x7f;
    let cases: [(&[u8], &[u8], [u64; 9]); 6] = [
        (&TWO_INFO, &TWO_LINES, found),
        (&covered, &TWO_LINES, found),
        (&outside, &TWO_LINES, [0, 0, 0, 0, V_1, V_3, 0, 0, DONE]),
        (&TWO_INFO, &cut, [0, EOF, EOF, 0, V_1, V_3, 0, 0, EOF]),
        (&TWO_INFO, &cut_later, [0, W_1, W_3, 0, EOF, EOF, 0, 0, EOF]),
        (&covered, &cut, [0, EOF, EOF, EOF, EOF, EOF, 0, 0, EOF]),
    ];
    for (info, line, want) in cases {
        let two = three_sections(&ABBREV, info, line);
        let told = [parsed_first(rt.alloc(), two), parsed_last(rt.alloc(), two)];
        assert_eq!(rt; told, [(want, 0); 2]);
    }
}

#[test]
fn empty_sections_have_no_location(rt: HostRuntime) {
    let told = parsed_last(rt.alloc(), three_sections(&[], &[], &[]));
    assert_eq!(rt; told, ([0, 0, 0, 0, 0, 0, 0, 0, DONE], 0));
}

#[test]
fn shared_bytes_of_two_units_answer_alike(rt: HostRuntime) {
    let files = alone(&ABBREV, &TWO_INFO, &TWO_LINES);
    let told = told_shared(rt.alloc(), files, Way::Whole, PARSED_LAST);
    let want = [0, W_1, W_3, 0, V_1, V_3, 0, 0, DONE];
    assert_eq!(rt; numbers(told), (want, 0));
}

#[test]
fn units_of_types_and_partial_units_cover_nothing(rt: HostRuntime) {
    // The two units, the first of version 5.
    let later = [0, 0, 0, 0, V_1, V_3, 0, 0, DONE];
    let later_cut = [0, 0, 0, 0, V_1, V_3, 0, 0, EOF];
    let both = [0, W_1, W_3, 0, V_1, V_3, 0, 0, DONE];
    let compiled = *b"\x1c\0\0\0\x05\0\x01\x08\0\0\0\0\x01\0\0\0\0/w\0\x10\0\0\0\0\0\0\0\x20\0\0\0\
        \x1b\0\0\0\x04\0\0\0\0\0\x08\x01\x37\0\0\0/v\0\x40\0\0\0\0\0\0\0\x20\0\0\0";
    let mut partial = compiled;
    partial[6] = 3;
    // The same with a signature and the offset of a type.
    let types = *b"\x28\0\0\0\x05\0\x02\x08\0\0\0\0\x88\x77\x66\x55\x44\x33\x22\x11\x18\0\0\0\
        \x01\0\0\0\0/w\0\x10\0\0\0\0\0\0\0\x20\0\0\0\
        \x1b\0\0\0\x04\0\0\0\0\0\x08\x01\x37\0\0\0/v\0\x40\0\0\0\0\0\0\0\x20\0\0\0";
    let mut split_types = types;
    split_types[6] = 6;
    let mut cut = TWO_LINES;
    cut[53] = 0x7f;
    let cases: [(&[u8], &[u8], [u64; 9]); 6] = [
        (&compiled, &TWO_LINES, both),
        (&partial, &TWO_LINES, later),
        (&types, &TWO_LINES, later),
        (&split_types, &TWO_LINES, later),
        // A partial unit has lines, whose fault is told; the others are no units of the context.
        (&partial, &cut, later_cut),
        (&types, &cut, later),
    ];
    // A set gives the unit at 0 the range [0x10, 0x30), if it may have one.
    for (info, line, want) in cases {
        let two = three_sections(&ABBREV, info, line);
        let aranges = &ARANGES;
        let told = parsed_last(rt.alloc(), Sections { aranges, ..two });
        assert_eq!(rt; told, (want, 0));
    }
}

#[test]
fn sets_of_address_ranges_lead_to_units(rt: HostRuntime) {
    // The range [0x10, 0x20), and the set of a unit at 0x1f.
    let mut short = ARANGES;
    short[20] = 0x10;
    let mut other = ARANGES;
    other[6] = 0x1f;
    let both = [0, W_1, W_3, 0, 0, 0, 0, 0, DONE];
    let first = [0, W_1, 0, 0, 0, 0, 0, 0, DONE];
    let cases: [(&[u8], &[u8], &[u8], [u64; 9]); 6] = [
        (&ABBREV, &INFO, &ARANGES, both),
        // The set counts before the attributes.
        (&ABBREV, &INFO, &short, first),
        (&ABBREV, &INFO, &other, both),
        // The unit has no range of its own: a set gives it one, or its sequence.
        (NO_RANGE_ABBREV, NO_RANGE_INFO, &short, first),
        (NO_RANGE_ABBREV, NO_RANGE_INFO, &other, both),
        (NO_RANGE_ABBREV, NO_RANGE_INFO, &[], both),
    ];
    for (abbrev, info, aranges, want) in cases {
        let one = three_sections(abbrev, info, &LINE);
        let told = parsed_last(rt.alloc(), Sections { aranges, ..one });
        assert_eq!(rt; told, (want, 0));
    }
}

#[test]
fn sequences_give_a_unit_its_ranges(rt: HostRuntime) {
    let want = ([0, W_1, W_3, 0, 0, 0, 0, 0, DONE], 0);
    let files = alone(NO_RANGE_ABBREV, NO_RANGE_INFO, &LINE);
    let told = [
        parsed_last(rt.alloc(), files.main),
        numbers(told_borrowed(rt.alloc(), files, Way::Whole, PARSED_LAST)),
        numbers(told_borrowed(rt.alloc(), files, Way::InRc, PARSED_LAST)),
        numbers(told_shared(rt.alloc(), files, Way::InRc, PARSED_LAST)),
    ];
    assert_eq!(rt; told, [want; 4]);
}

#[test]
fn lines_that_are_faulty_give_no_range(rt: HostRuntime) {
    let mut cut = LINE;
    cut[53] = 0x7f;
    let told = parsed_last(
        rt.alloc(),
        three_sections(NO_RANGE_ABBREV, NO_RANGE_INFO, &cut),
    );
    assert_eq!(rt; told, ([0, 0, 0, 0, 0, 0, 0, 0, EOF], 0));
}

// What making a context of two units' lines says: 1, or a fault's number.
fn made(alloc: Global, abbrev: &[u8], info: &[u8], aranges: &[u8]) -> u64 {
    let two = three_sections(abbrev, info, &TWO_LINES);
    let ([code], _) = numbers(told_each(alloc, Sections { aranges, ..two }, [Call::NoCall]));
    code
}

#[test]
fn the_first_fault_refuses_the_context(rt: HostRuntime) {
    let mut segments = ARANGES;
    segments[11] = 1;
    let mut reserved = TWO_INFO;
    reserved[31] = 0xf0;
    reserved[32] = 0xff;
    reserved[33] = 0xff;
    reserved[34] = 0xff;
    // DW_AT_ranges, 0x32 past the section's end, in a unit before one with a reserved length.
    let abbrev: &[u8] = b"\x01\x11\0\x55\x17\0\0\0";
    let past: &[u8] = b"\x0c\0\0\0\x04\0\0\0\0\0\x08\x01\x32\0\0\0\xf0\xff\xff\xff";
    let alloc = rt.alloc();
    let codes = [
        made(alloc, &ABBREV, &TWO_INFO, &ARANGES),
        // The sets are read before the units.
        made(alloc, &ABBREV, &INFO[..30], &segments),
        made(alloc, &ABBREV, &INFO[..30], &ARANGES),
        // The header of the second unit.
        made(alloc, &ABBREV, &TWO_INFO[..61], &[]),
        made(alloc, &ABBREV, &reserved, &[]),
        // The ranges of a unit are read before the next header.
        made(alloc, abbrev, past, &[]),
    ];
    assert_eq!(rt; codes, [1, 9_300_000, EOF, EOF, 9_200_000, 9_400_000]);
}

// The bytes of a section of a supplementary file.
fn sup_bytes_of(id: SectionId, info: &[u8]) -> &[u8] {
    match id {
        SectionId::DebugAbbrev => &ABBREV,
        SectionId::DebugInfo => info,
        SectionId::DebugLine => &TWO_LINES,
        _ => &[],
    }
}

// What making a context of the one unit says, where the supplementary file has these units.
fn made_with_sup(alloc: Global, sup: &[u8]) -> ([u64; 1], u64) {
    let mut dwarf = borrowed(three_sections(&ABBREV, &INFO, &LINE), DwarfFileType::Main);
    let loaded = dwarf.load_sup(alloc, |id| -> Result<EndianSlice<'_>, Error> {
        Ok(little(sup_bytes_of(id, sup)))
    });
    let context = match loaded {
        Ok(()) => Context::from_dwarf(alloc, dwarf),
        Err(error) => Err(error),
    };
    numbers(told_by(alloc, context, [Call::NoCall]))
}

#[test]
fn a_fault_of_a_supplementary_header_refuses_the_context(rt: HostRuntime) {
    // The second record is faulty: no entry has the code 2.
    let mut no_code = TWO_INFO;
    no_code[42] = 2;
    let cases: [(&[u8], u64); 5] = [
        (&[], 1),
        (&TWO_INFO, 1),
        (&no_code, 1),
        (&TWO_INFO[..61], EOF),
        (b"\xf0\xff\xff\xff", 9_200_000),
    ];
    for (sup, want) in cases {
        assert_eq!(rt; made_with_sup(rt.alloc(), sup), ([want], 0));
    }
}
