//! Whole programs, over both readers.

use super::{Answer, DROPPED_END, PLAIN, PLAIN5, answers, at, both_answers, code_of, end, of_file};
use gimli_line::read_line_program;
use gimli_read::{EndianSlice, RunTimeEndian};
use std::alloc::Global;

// `PLAIN5` in big endian order.
const BIG5: [u8; 68] = [
    0, 0, 0, 0x40, 0, 5, 8, 0, 0, 0, 0, 0x24, 1, 1, 1, 0xfb, 0x0e, 0x0d, 0, 1, 1, 1, 1, 0, 0, 0, 1,
    0, 0, 1, 1, 1, 8, 1, 0x2f, 0x77, 0, 2, 1, 8, 2, 0x0b, 1, 0x61, 0x2e, 0x63, 0, 0, 0, 9, 2, 0, 0,
    0, 0, 0, 0, 0, 0x10, 4, 0, 1, 0xf4, 2, 0x10, 0, 1, 1,
];

// `PLAIN` at the greatest address, which stands for code that isn't there.
const TOMBSTONE: [u8; 55] = [
    0x33, 0, 0, 0, 4, 0, 0x1b, 0, 0, 0, 1, 1, 1, 0xfb, 0x0e, 0x0d, 0, 1, 1, 1, 1, 0, 0, 0, 1, 0, 0,
    1, 0, 0x61, 0x2e, 0x63, 0, 0, 0, 0, 0, 0, 9, 2, 0xff, 0xff, 0xff, 0xff, 0xff, 0xff, 0xff, 0xff,
    1, 0xf4, 2, 0x10, 0, 1, 1,
];

// `PLAIN` with a second row at the first one's address.
const SAME_ADDRESS: [u8; 56] = [
    0x34, 0, 0, 0, 4, 0, 0x1b, 0, 0, 0, 1, 1, 1, 0xfb, 0x0e, 0x0d, 0, 1, 1, 1, 1, 0, 0, 0, 1, 0, 0,
    1, 0, 0x61, 0x2e, 0x63, 0, 0, 0, 0, 0, 0, 9, 2, 0x10, 0, 0, 0, 0, 0, 0, 0, 1, 0x13, 0xf3, 2,
    0x10, 0, 1, 1,
];

// Versions 2 and 3 have one operation an instruction, and no field for it.
const VERSION_2: [u8; 32] = [
    0x1c, 0, 0, 0, 2, 0, 0x13, 0, 0, 0, 1, 1, 0xfb, 0x0e, 0x0d, 0, 1, 1, 1, 1, 0, 0, 0, 1, 0, 0, 1,
    0, 0, 2, 5, 1,
];

const VERSION_3: [u8; 32] = [
    0x1c, 0, 0, 0, 3, 0, 0x13, 0, 0, 0, 1, 1, 0xfb, 0x0e, 0x0d, 0, 1, 1, 1, 1, 0, 0, 0, 1, 0, 0, 1,
    0, 0, 2, 5, 1,
];

// 64-bit DWARF.
const LONG: [u8; 45] = [
    0xff, 0xff, 0xff, 0xff, 0x21, 0, 0, 0, 0, 0, 0, 0, 4, 0, 0x14, 0, 0, 0, 0, 0, 0, 0, 1, 1, 1,
    0xfb, 0x0e, 0x0d, 0, 1, 1, 1, 1, 0, 0, 0, 1, 0, 0, 1, 0, 0, 2, 5, 1,
];

// Standard opcode 13, which has two numbers.
const UNKNOWN_STANDARD: [u8; 36] = [
    0x20, 0, 0, 0, 4, 0, 0x15, 0, 0, 0, 1, 1, 1, 0xfb, 0x0e, 0x0e, 0, 1, 1, 1, 1, 0, 0, 0, 1, 0, 0,
    1, 2, 0, 0, 0x0d, 0x81, 1, 5, 1,
];

// Opcode base 4: opcode 9 is special.
const LOW_BASE: [u8; 22] = [
    0x12, 0, 0, 0, 4, 0, 0x0b, 0, 0, 0, 1, 1, 1, 0, 4, 4, 0, 1, 1, 0, 0, 9,
];

#[test]
fn each_program_gives_its_rows(rt: HostRuntime) {
    let plain = [at(0x10, 1), at(0x20, 3), end(0x30, 3)];
    let plain5 = [
        of_file(at(0x10, 1), 0),
        of_file(at(0x20, 3), 0),
        of_file(end(0x30, 3), 0),
    ];
    let dropped = [[0, 1, 3, 0, DROPPED_END]];
    let same = [at(0x10, 1), at(0x10, 2), at(0x20, 3), end(0x30, 3)];
    let cases: [(&[u8], RunTimeEndian, u8, &[Answer]); 10] = [
        (&PLAIN, RunTimeEndian::Little, 8, &plain),
        (&PLAIN5, RunTimeEndian::Little, 4, &plain5),
        (&BIG5, RunTimeEndian::Big, 4, &plain5),
        (&TOMBSTONE, RunTimeEndian::Little, 8, &dropped),
        (&SAME_ADDRESS, RunTimeEndian::Little, 8, &same),
        (&VERSION_2, RunTimeEndian::Little, 4, &[at(5, 1)]),
        (&VERSION_3, RunTimeEndian::Little, 4, &[at(5, 1)]),
        (&LONG, RunTimeEndian::Little, 4, &[at(5, 1)]),
        (&UNKNOWN_STANDARD, RunTimeEndian::Little, 4, &[at(0, 1)]),
        (&LOW_BASE, RunTimeEndian::Little, 4, &[at(1, 2)]),
    ];
    for (bytes, order, size, wanted) in cases {
        assert_eq!(rt;
            both_answers(rt.alloc(), bytes, order, size),
            [answers(wanted); 2]
        );
    }
}

// The refusal of a header, 0 for none.
fn refusal(alloc: Global, bytes: &[u8]) -> u64 {
    match read_line_program(alloc, EndianSlice::new(bytes, RunTimeEndian::Little), 8) {
        Ok(_) => 0,
        Err(error) => code_of(error),
    }
}

// The first length of some bytes that isn't refused `UnexpectedEof`.
fn least_length(alloc: Global, bytes: &[u8]) -> usize {
    for len in 0..bytes.len() {
        if refusal(alloc, &bytes[..len]) != 2 {
            return len;
        }
    }
    bytes.len()
}

// The same of the lengths that a byte may say.
fn least_byte(alloc: Global, bytes: &[u8; 68], place: usize) -> u8 {
    for len in 0..=255 {
        let mut changed = *bytes;
        if place < 68 {
            changed[place] = len;
        }
        if refusal(alloc, &changed) != 2 {
            return len;
        }
    }
    0
}

// `PLAIN`, and bytes after it that belong to no program.
fn padded() -> [u8; 68] {
    let mut bytes = [0; 68];
    for (to, from) in bytes.iter_mut().zip(&PLAIN) {
        *to = *from;
    }
    bytes
}

#[test]
fn a_cut_program_or_header_is_refused(rt: HostRuntime) {
    let alloc = rt.alloc();
    let cut = [least_length(alloc, &PLAIN), least_length(alloc, &PLAIN5)];
    assert_eq!(rt; cut, [55, 68]);
    let short = [
        least_byte(alloc, &padded(), 6),
        least_byte(alloc, &PLAIN5, 8),
    ];
    assert_eq!(rt; short, [0x1b, 0x24]);
}

// The refusal of `PLAIN5` with one byte changed.
fn changed_refusal(alloc: Global, place: usize, byte: u8) -> u64 {
    let mut bytes = PLAIN5;
    if place < 68 {
        bytes[place] = byte;
    }
    refusal(alloc, &bytes)
}

#[test]
fn a_faulty_field_is_refused_by_its_own_fault(rt: HostRuntime) {
    let cases = [
        (0, 0x40, 0),
        (3, 0xff, 2),
        (4, 6, 5),
        (4, 1, 5),
        (6, 3, 7),
        (7, 1, 8),
        (12, 0, 18),
        (13, 0, 18),
        (16, 0, 18),
        (17, 0, 18),
        // The directories' one value is no path, and the path is no string.
        (31, 2, 18),
        (32, 0x0b, 18),
        // The files have two paths.
        (40, 1, 18),
        // The directory's index has no known form, and none that a table may have.
        (41, 0x02, 11),
        (41, 0x21, 11),
    ];
    for (place, byte, wanted) in cases {
        assert_eq!(rt;
            changed_refusal(rt.alloc(), place, byte),
            wanted,
            "at {place}"
        );
    }
}

// `PLAIN5` with one value for each file, its path, and 2^42 - 1 files, of which two are there.
const COUNTED5: [u8; 68] = [
    0x40, 0, 0, 0, 5, 0, 8, 0, 0x24, 0, 0, 0, 1, 1, 1, 0xfb, 0x0e, 0x0d, 0, 1, 1, 1, 1, 0, 0, 0, 1,
    0, 0, 1, 1, 1, 8, 1, 0x2f, 0x77, 0, 1, 1, 8, 0xff, 0xff, 0xff, 0xff, 0xff, 0x7f, 0, 0, 0, 9, 2,
    0x10, 0, 0, 0, 0, 0, 0, 0, 4, 0, 1, 0xf4, 2, 0x10, 0, 1, 1,
];

#[test]
fn a_count_of_files_past_the_header_takes_no_memory(rt: HostRuntime) {
    assert_eq!(rt; refusal(rt.alloc(), &COUNTED5), 2);
}
