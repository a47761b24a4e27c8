//! The files that are changed.

use crate::files::Sections;
use addr2line_lines_tests::vectors::{
    ABBREV, INFO, LINE, LINE_V5, MAIN_INFO, NAMED, NAMED_INFO, SPLIT_ABBREV, SPLIT_INFO,
    WAITING_ABBREV,
};

// The unit [0x10, 0x30), version 5.
const INFO_5: &[u8] = b"\x1c\0\0\0\x05\0\x01\x08\0\0\0\0\x01\0\0\0\0/w\0\x10\0\0\0\0\0\0\0\
    \x20\0\0\0";

// The same of 64-bit DWARF, version 4.
const INFO_64: &[u8] = b"\xff\xff\xff\xff\x23\0\0\0\0\0\0\0\x04\0\0\0\0\0\0\0\0\0\x08\x01\
    \0\0\0\0\0\0\0\0/w\0\x10\0\0\0\0\0\0\0\x20\0\0\0";

// The range [0x10, 0x30) of the unit at 0, and a pair whose sum passes 32 bits.
const ARANGES_32: &[u8] = b"\x24\0\0\0\x02\0\0\0\0\0\x04\0\0\0\0\0\x10\0\0\0\x20\0\0\0\
    \xf0\xff\xff\xff\x20\0\0\0\0\0\0\0\0\0\0\0";

// A root entry with DW_AT_low_pc, and a function with a name; both with DW_AT_ranges as an offset.
const RANGES_ABBREV: &[u8] = b"\x01\x11\x01\x11\x01\x55\x17\0\0\x02\x2e\0\x03\x08\x55\x17\0\0\0";

// The unit and the function "f" of the list at 0, from 0x1000 on, with addresses of 4 bytes.
const RANGES_INFO: &[u8] = b"\x18\0\0\0\x04\0\0\0\0\0\x04\x01\0\x10\0\0\0\0\0\0\x02f\0\0\0\0\0\0";

// [0x1010, 0x1020) from 0x1000 on, and [0x101, 0x105) from 0x100 on.
const RANGES_32: &[u8] = b"\x10\0\0\0\x20\0\0\0\xff\xff\xff\xff\0\x01\0\0\x01\0\0\0\x05\0\0\0\
    \0\0\0\0\0\0\0\0";

// The same unit and function, version 5, with addresses of 8 bytes.
const RNGLIST_INFO: &[u8] = b"\x1d\0\0\0\x05\0\x01\x08\0\0\0\0\x01\0\x10\0\0\0\0\0\0\0\0\0\0\
    \x02f\0\0\0\0\0\0";

// A list: [0x1010, 0x1020) from 0x1000 on, and [0x100, 0x108).
const RNGLIST: &[u8] = b"\x04\x10\x20\x07\0\x01\0\0\0\0\0\0\x08\0";

// The same entries with DW_AT_rnglists_base in the root, and DW_AT_ranges as an index.
const RNGLISTS_ABBREV: &[u8] = b"\x01\x11\x01\x74\x17\x11\x01\x55\x23\0\0\
    \x02\x2e\0\x03\x08\x55\x23\0\0\0";

// The lists from 12 on, and the one of index 0.
const RNGLISTS_INFO: &[u8] = b"\x1b\0\0\0\x05\0\x01\x08\0\0\0\0\x01\x0c\0\0\0\
    \0\x10\0\0\0\0\0\0\0\x02f\0\0\0";

// A header of one offset, and the list.
const RNGLISTS: &[u8] = b"\x1a\0\0\0\x05\0\x08\0\x01\0\0\0\x04\0\0\0\
    \x04\x10\x20\x07\0\x01\0\0\0\0\0\0\x08\0";

// A unit with DW_AT_comp_dir, DW_AT_dwo_name, DW_AT_low_pc and DW_AT_high_pc.
const SKELETON_ABBREV: &[u8] = b"\x01\x4a\0\x1b\x08\x76\x08\x11\x01\x12\x06\0\0\0";

// The units [0, 100) and [10, 20) without lines, which both wait for split files.
const TWO_SKELETONS: &[u8] = b"\x26\0\0\0\x05\0\x04\x08\0\0\0\0\x01\0\0\0\0\0\0\0\
    \x01/w\0s.dwo\0\0\0\0\0\0\0\0\0\x64\0\0\0\
    \x26\0\0\0\x05\0\x04\x08\0\0\0\0\x02\0\0\0\0\0\0\0\
    \x01/w\0s.dwo\0\x0a\0\0\0\0\0\0\0\x0a\0\0\0";

// A root entry of a unit with lines, functions with a name, and inlined functions with the line of
// their call; all with a range.
const OVERLAPS_ABBREV: &[u8] = b"\x01\x11\x01\x10\x17\x11\x01\x12\x0b\0\0\x02\x2e\x01\x03\x08\x11\
    \x01\x12\x0b\0\0\x03\x1d\x01\x11\x01\x12\x0b\x59\x0b\0\0\0";

// In [0, 100): the function "a" [0, 0x30), in which [0, 10) is inlined twice, in the first of which
// [0, 2) and [6, 8) are inlined; and "b" and "c", both [0x10, 0x20).
const OVERLAPS_INFO: &[u8] = b"\x6d\0\0\0\x04\0\0\0\0\0\x08\x01\0\0\0\0\0\0\0\0\0\0\0\0\x64\x02\
    \x61\0\0\0\0\0\0\0\0\0\x30\x03\0\0\0\0\0\0\0\0\x0a\x05\x03\0\0\0\0\0\0\0\0\x02\x06\0\x03\x06\
    \0\0\0\0\0\0\0\x02\x07\0\0\x03\0\0\0\0\0\0\0\0\x0a\x08\0\0\x02\x62\0\x10\0\0\0\0\0\0\0\x10\0\
    \x02\x63\0\x10\0\0\0\0\0\0\0\x10\0\0";

// Sequences of one row each: [0, 8) of line 1, [0, 8) of line 2, [0x10, 0x30) of line 3.
const OVERLAPS_LINE: &[u8] = b"\x58\0\0\0\x04\0\x1b\0\0\0\x01\x01\x01\xfb\x0e\x0d\0\x01\x01\x01\
    \x01\0\0\0\x01\0\0\x01\0\x61\x2e\x63\0\0\0\0\0\0\x09\x02\0\0\0\0\0\0\0\0\x01\x02\x08\0\x01\
    \x01\0\x09\x02\0\0\0\0\0\0\0\0\x03\x01\x01\x02\x08\0\x01\x01\0\x09\x02\x10\0\0\0\0\0\0\0\x03\
    \x02\x01\x02\x20\0\x01\x01";

/// The names of the files.
pub const NAMES: [&str; 11] = [
    "plain",
    "inlined",
    "plain5",
    "plain64",
    "split",
    "ranges32",
    "rnglist",
    "rnglists",
    "aranges32",
    "two-splits",
    "overlaps",
];

// A file of three sections, whose units have no split file.
fn alone(abbrev: &'static [u8], info: &'static [u8], line: &'static [u8]) -> Sections<'static> {
    Sections {
        abbrev,
        info,
        line,
        aranges: &[],
        ranges: &[],
        rnglists: &[],
        split_abbrev: &[],
        split_info: &[],
    }
}

// A file whose units wait for the split file with the function "h".
fn waiting(abbrev: &'static [u8], info: &'static [u8], line: &'static [u8]) -> Sections<'static> {
    Sections {
        split_abbrev: SPLIT_ABBREV,
        split_info: SPLIT_INFO,
        ..alone(abbrev, info, line)
    }
}

/// The file of a name; none where there is no such file.
pub fn vector(name: &str) -> Option<Sections<'static>> {
    match name {
        "plain" => Some(alone(&ABBREV, &INFO, &LINE)),
        "inlined" => Some(alone(NAMED, NAMED_INFO, &LINE)),
        "plain5" => Some(alone(&ABBREV, INFO_5, &LINE_V5)),
        "plain64" => Some(alone(&ABBREV, INFO_64, &LINE)),
        "split" => Some(waiting(WAITING_ABBREV, MAIN_INFO, &LINE_V5)),
        "ranges32" => Some(Sections {
            ranges: RANGES_32,
            ..alone(RANGES_ABBREV, RANGES_INFO, &[])
        }),
        "rnglist" => Some(Sections {
            rnglists: RNGLIST,
            ..alone(RANGES_ABBREV, RNGLIST_INFO, &[])
        }),
        "rnglists" => Some(Sections {
            rnglists: RNGLISTS,
            ..alone(RNGLISTS_ABBREV, RNGLISTS_INFO, &[])
        }),
        "aranges32" => Some(Sections {
            aranges: ARANGES_32,
            ..alone(&ABBREV, &INFO, &LINE)
        }),
        "two-splits" => Some(waiting(SKELETON_ABBREV, TWO_SKELETONS, &[])),
        "overlaps" => Some(alone(OVERLAPS_ABBREV, OVERLAPS_INFO, OVERLAPS_LINE)),
        _ => None,
    }
}
