//! Many units that wait for split files at one address.

use super::codes::{Codes, NONE};
use super::replies::{Answer, Call};
use super::sections::three_sections;
use super::told::{Replies, told_each};
use addr2line_lines_tests::vectors::{LINE, WAITING_ABBREV};
use std::alloc::{AllocError, Global};

// So many that a lookup which began anew after each answer would pass half a million units.
const UNITS: usize = 1_000;

// The unit [0, 100), which waits for the split file with the identifier 1.
const UNIT: &[u8] = b"\x2a\0\0\0\x05\0\x04\x08\0\0\0\0\x01\0\0\0\0\0\0\0\
    \x01\0\0\0\0/w\0s.dwo\0\0\0\0\0\0\0\0\0\x64\0\0\0";

// An address that they cover, and at which none has a line.
const PROBE: u64 = 0x40;

fn info(alloc: Global) -> Result<Vec<u8>, AllocError> {
    let mut info = Vec::new(alloc);
    for _ in 0..UNITS {
        info.extend_from_slice(UNIT)?;
    }
    Ok(info)
}

// The answers over these units, none where memory was refused.
fn told<const N: usize>(alloc: Global, calls: [Call; N]) -> Option<Replies<N>> {
    let info = info(alloc).ok()?;
    let sections = three_sections(WAITING_ABBREV, &info, &LINE);
    Some(told_each(alloc, sections, calls))
}

// The first load, and all loads.
const WAITS: Codes = Codes([1, 1, 1], [0; 3], [0; 3]);

const ALL_WAIT: Codes = Codes([UNITS as u64, 1, 1], [0; 3], [0; 3]);

#[test]
fn many_units_that_wait_are_each_asked_once(rt: HostRuntime) {
    let calls = [
        (Call::Preload(PROBE), ALL_WAIT),
        (Call::Frames(PROBE, Answer::Abandon), WAITS),
        (Call::Unit(PROBE, Answer::Nothing), WAITS),
        (Call::Frames(PROBE, Answer::Skip), NONE),
        (Call::Preload(PROBE), NONE),
    ];
    let want = Some((calls.map(|(_, want)| want), 0));
    assert_eq!(rt; told(rt.alloc(), calls.map(|(call, _)| call)), want);
}
