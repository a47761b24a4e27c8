//! A unit with an inlined function, of which one section is cut at each of its bytes.

use super::codes::{Codes, NONE, first};
use super::lookups::{ALONE, INLINED};
use super::replies::{Answer, Call};
use super::sections::three_sections;
use super::told::told_each;
use addr2line_lines_tests::vectors::{LINE, NAMED, NAMED_INFO};
use std::alloc::Global;

// What a context gives, and gives again: nothing; the fault UnexpectedEof, and there is none; all
// frames; or a location, and the fault UnknownAbbreviation in place of frames.
const NOTHING: u8 = 0;

const NO_CONTEXT: u8 = 1;

const ALL_FRAMES: u8 = 2;

const NO_FRAMES: u8 = 3;

const ANOTHER_ANSWER: u8 = 9;

// The length of the longest of the sections, and 1.
const LENGTHS: usize = 72;

const CALLS: [Call; 6] = [
    Call::Location(0x24),
    Call::Frames(0x24, Answer::Drop),
    Call::Location(0x24),
    Call::Frames(0x24, Answer::Drop),
    Call::Frames(0x2a, Answer::Drop),
    Call::Frames(0x30, Answer::Drop),
];

const LINE_3: Codes = Codes([0, 0, 1_003_000], [0; 3], [0; 3]);

const EOF: Codes = Codes([0, 0, 9_000_000], [0; 3], [0; 3]);

const UNKNOWN: Codes = Codes([0, 0, 9_600_000], [0; 3], [0; 3]);

// Which of these the answers are.
fn kind_of(codes: [Codes; 6]) -> u8 {
    if codes == [NONE; 6] {
        NOTHING
    } else if codes == [EOF; 6] {
        NO_CONTEXT
    } else if codes == [LINE_3, INLINED, LINE_3, INLINED, ALONE, NONE] {
        ALL_FRAMES
    } else if codes == [LINE_3, UNKNOWN, LINE_3, UNKNOWN, UNKNOWN, NONE] {
        NO_FRAMES
    } else {
        ANOTHER_ANSWER
    }
}

// The first bytes, all of them where there aren't so many.
fn cut(bytes: &[u8], len: usize) -> &[u8] {
    &bytes[..len.min(bytes.len())]
}

// Which section is cut.
#[derive(Clone, Copy)]
enum Section {
    Abbrev,
    Info,
    Line,
}

fn kind_at(alloc: Global, section: Section, len: usize) -> u8 {
    let sections = match section {
        Section::Abbrev => three_sections(cut(NAMED, len), NAMED_INFO, &LINE),
        Section::Info => three_sections(NAMED, cut(NAMED_INFO, len), &LINE),
        Section::Line => three_sections(NAMED, NAMED_INFO, cut(&LINE, len)),
    };
    let (codes, _) = told_each(alloc, sections, CALLS);
    kind_of(codes)
}

// What is given where the section is cut to each number of bytes.
fn kinds_of(alloc: Global, section: Section) -> [u8; LENGTHS] {
    let mut kinds = [ANOTHER_ANSWER; LENGTHS];
    for (len, kind) in kinds.iter_mut().enumerate() {
        *kind = kind_at(alloc, section, len);
    }
    kinds
}

#[test]
fn each_cut_of_a_section_has_its_answer(rt: HostRuntime) {
    let mut info = [NO_CONTEXT; LENGTHS];
    info[0] = NOTHING;
    info[NAMED_INFO.len()] = ALL_FRAMES;
    let mut line = [ALL_FRAMES; LENGTHS];
    line[..LINE.len()].fill(NOTHING);
    // The table ends where a code would stand, after each of its four abbreviations.
    let mut abbrev = [ALL_FRAMES; LENGTHS];
    abbrev[..48].fill(NOTHING);
    for len in [13, 24, 41] {
        abbrev[len] = NO_FRAMES;
    }
    for (section, want) in [
        (Section::Info, info),
        (Section::Line, line),
        (Section::Abbrev, abbrev),
    ] {
        assert_eq!(rt; kinds_of(rt.alloc(), section), want);
    }
}
