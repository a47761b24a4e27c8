//! The texts of files: each below its directory, and that below the unit's, unless it is absolute.

use crate::sections::lines_in;
use std::alloc::Global;

// DW_AT_stmt_list, with DW_AT_comp_dir and DW_AT_name; with DW_AT_comp_dir; alone.
const ABBREV: &[u8] = b"\x01\x11\0\x10\x17\x1b\x08\x03\x08\0\0\x02\x11\0\x10\x17\x1b\x08\0\0\
    \x03\x11\0\x10\x17\0\0\0";

// No rows, the directory "src", and the files "src/a.rs", "a.c", "D:/b.c", "a.c" in "src", and one
// whose name isn't UTF-8; version 4.
const LINE: &[u8] = b"\x4a\0\0\0\x04\0\x44\0\0\0\x01\x01\x01\xfb\x0e\x0d\0\x01\x01\x01\x01\0\0\0\
    \x01\0\0\x01src\0\0src/a.rs\0\0\0\0a.c\0\0\0\0D:/b.c\0\0\0\0a.c\0\x01\0\0a\xff.c\0\0\0\0\0";

// Whether the text of a file of the unit is this one: 1, or 2 for another, 3 for no such file, 4
// for a fault.
fn text_code(alloc: Global, info: &[u8], index: u64, want: &str) -> u8 {
    match lines_in(alloc, ABBREV, info, LINE) {
        Ok(lines) => match lines.file(index) {
            Some(text) if text == want => 1,
            Some(_) => 2,
            None => 3,
        },
        Err(_) => 4,
    }
}

#[test]
fn a_file_stands_below_its_directory_and_the_units(rt: HostRuntime) {
    let cases: [(&[u8], u64, &str); 8] = [
        // Units in "/home/u", "C:\w", "/x", "" and "/w".
        (
            b"\x14\0\0\0\x04\0\0\0\0\0\x08\x02\0\0\0\0/home/u\0",
            1,
            "/home/u/src/a.rs",
        ),
        (
            b"\x11\0\0\0\x04\0\0\0\0\0\x08\x02\0\0\0\0C:\\w\0",
            2,
            "C:\\w\\a.c",
        ),
        (b"\x0f\0\0\0\x04\0\0\0\0\0\x08\x02\0\0\0\0/x\0", 3, "D:/b.c"),
        (b"\x0d\0\0\0\x04\0\0\0\0\0\x08\x02\0\0\0\0\0", 2, "a.c"),
        (
            b"\x0f\0\0\0\x04\0\0\0\0\0\x08\x02\0\0\0\0/w\0",
            4,
            "/w/src/a.c",
        ),
        // A unit without a directory.
        (
            b"\x0c\0\0\0\x04\0\0\0\0\0\x08\x03\0\0\0\0",
            5,
            "a\u{fffd}.c",
        ),
        // Index 0 is the unit's own name: in "/w" it is "a.c", or there is none.
        (
            b"\x13\0\0\0\x04\0\0\0\0\0\x08\x01\0\0\0\0/w\0a.c\0",
            0,
            "/w/a.c",
        ),
        (b"\x0f\0\0\0\x04\0\0\0\0\0\x08\x02\0\0\0\0/w\0", 0, ""),
    ];
    for (info, index, want) in cases {
        assert_eq!(rt; (text_code(rt.alloc(), info, index, want), want), (1, want));
    }
}
