//! Tables of many abbreviations, which take memory.

use super::replies::Call;
use super::sections::three_sections;
use super::told::{numbers, told_each};
use addr2line_lines_tests::vectors::LINE;
use std::alloc::{AllocError, Global};

const ABBREVIATIONS: u16 = 2_000;

// A tag, no children, DW_AT_stmt_list, DW_AT_comp_dir, DW_AT_low_pc and DW_AT_high_pc.
const ENTRY: [u8; 12] = [
    0x11, 0x00, 0x10, 0x17, 0x1b, 0x08, 0x11, 0x01, 0x12, 0x06, 0x00, 0x00,
];

// The unit [0x10, 0x30) in "/w", version 4, before and after its code of two bytes.
const BEFORE_CODE: &[u8] = b"\x1c\0\0\0\x04\0\0\0\0\0\x08";

const AFTER_CODE: &[u8] = b"\0\0\0\0/w\0\x10\0\0\0\0\0\0\0\x20\0\0\0";

// A code in two bytes.
fn code(number: u16) -> [u8; 2] {
    [
        (number & 0x7f) as u8 | 0x80,
        (number.wrapping_shr(7) & 0x7f) as u8,
    ]
}

// A table of so many codes from the first on, all of the same entry.
fn table(alloc: Global, first: u16) -> Result<Vec<u8>, AllocError> {
    let mut table = Vec::new(alloc);
    for place in 0..ABBREVIATIONS {
        table.extend_from_slice(&code(first.wrapping_add(place)))?;
        table.extend_from_slice(&ENTRY)?;
    }
    table.push(0)?;
    Ok(table)
}

fn info(alloc: Global, number: u16) -> Result<Vec<u8>, AllocError> {
    let mut info = Vec::new(alloc);
    info.extend_from_slice(BEFORE_CODE)?;
    info.extend_from_slice(&code(number))?;
    info.extend_from_slice(AFTER_CODE)?;
    Ok(info)
}

// The lines at 0x10 and 0x20, and how often memory was refused.
fn told(alloc: Global, first: u16, number: u16) -> ([u64; 2], u64) {
    let calls = [Call::Location(0x10), Call::Location(0x20)];
    match (table(alloc, first), info(alloc, number)) {
        (Ok(abbrev), Ok(info)) => numbers(told_each(
            alloc,
            three_sections(&abbrev, &info, &LINE),
            calls,
        )),
        _ => ([9; 2], 1),
    }
}

#[test]
fn an_entry_is_found_in_a_large_table(rt: HostRuntime) {
    // Codes that are their places, and codes that aren't.
    for (first, number) in [(1, 2_000), (1, 1_025), (100, 2_099), (100, 100)] {
        assert_eq!(rt;
            told(rt.alloc(), first, number),
            ([1_001_000, 1_003_000], 0)
        );
    }
}
