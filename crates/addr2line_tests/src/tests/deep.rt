//! Inlined functions that are nested as deeply as the bytes allow.

use super::codes::next_code;
use super::lookups::{RANGED, UNSAID};
use super::sections::{borrowed, three_sections};
use addr2line::gimli::DwarfFileType;
use addr2line::gimli::read::Reader;
use addr2line::{Context, FrameIter, LookupResult};
use std::alloc::{AllocError, Global};

const INLINED: u32 = 10_000;

// The header after its length, and the root entry of [0, 100).
const FRONT: [u8; 11] = [4, 0, 0, 0, 0, 0, 2, 1, 0, 0, 0x64];

// How many frames there are, the first two of them, and the last.
type Counted = (u64, [[u64; 3]; 3]);

// A function [0x10, 0x30) with inlined functions of the same range, each inside the one before.
fn nested(alloc: Global) -> Result<Vec<u8>, AllocError> {
    let entries = INLINED + 1;
    let mut info = Vec::new(alloc);
    // Of each entry four bytes and a closing one; and that of the root.
    info.extend_from_slice(&(entries * 5 + 12).to_le_bytes())?;
    info.extend_from_slice(&FRONT)?;
    for place in 0..entries {
        info.extend_from_slice(&[if place == 0 { 2 } else { 3 }, 0x10, 0, 0x20])?;
    }
    for _ in 0..entries + 1 {
        info.push(0)?;
    }
    Ok(info)
}

fn counted<R: Reader>(frames: FrameIter<'_, R>) -> Counted {
    let mut frames = frames;
    let first = next_code(&mut frames);
    let second = next_code(&mut frames);
    let mut last = second;
    let mut count = 2u64;
    for _ in 0..u64::MAX {
        let code = next_code(&mut frames);
        if code == [0; 3] {
            break;
        }
        last = code;
        count = count.wrapping_add(1);
    }
    (count, [first, second, last])
}

// The frames at 0x18; nines where there are none, eights where they wait.
fn counted_in<R: Reader>(context: &mut Context<R>) -> Counted {
    match context.find_frames(0x18) {
        LookupResult::Output(Ok(frames)) => counted(frames),
        LookupResult::Output(Err(_)) => (9, [[9; 3]; 3]),
        LookupResult::Load { continuation } => {
            continuation.abandon();
            (9, [[8; 3]; 3])
        }
    }
}

// The frames of a unit without lines; nines where there is no context.
fn counted_at(alloc: Global, info: &[u8]) -> Counted {
    let sections = borrowed(three_sections(RANGED, info, &[]), DwarfFileType::Main);
    match Context::from_dwarf(alloc, sections) {
        Ok(context) => {
            let mut context = context;
            counted_in(&mut context)
        }
        Err(_) => (9, [[9; 3]; 3]),
    }
}

fn deep_frames(alloc: Global) -> Counted {
    match nested(alloc) {
        Ok(info) => counted_at(alloc, &info),
        Err(_) => (9, [[9; 3]; 3]),
    }
}

#[test]
fn each_of_ten_thousand_inlined_functions_is_a_frame(rt: HostRuntime) {
    // The entries stand four bytes apart from 0xf on, the innermost last.
    let want = [[40_015, 0, 0], [40_011, 0, UNSAID], [0xf, 0, UNSAID]];
    assert_eq!(rt; deep_frames(rt.alloc()), (10_001, want));
}
