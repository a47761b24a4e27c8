//! Each use that prints nothing and answers no split file, once, over `plain`: lines 1 and 3 of
//! [0x10, 0x30), no function.

use crate::address_range::lines_between;
use crate::recorded_calls::replies_at;
use crate::samples::{depth_at, warm_up};
use crate::sections::{NamedSection, context_of, line_at};
use addr2line::gimli::read::Reader;
use addr2line::{Context, Reply};
use addr2line_lines_tests::vectors::{ABBREV, INFO, LINE};
use std::alloc::Global;

const SECTIONS: [NamedSection<'static>; 3] = [
    (".debug_abbrev", &ABBREV),
    (".debug_info", &INFO),
    (".debug_line", &LINE),
];

const FAULT: u64 = 99;

fn line_number<R: Reader>(context: &mut Context<R>, address: u64) -> u64 {
    match line_at(context, address) {
        Ok(Some(line)) => u64::from(line),
        Ok(None) => 0,
        Err(_) => FAULT,
    }
}

// The address, the length and the line of the second row of all.
fn second_row<R: Reader>(alloc: Global, context: &mut Context<R>) -> [u64; 3] {
    match lines_between(alloc, context, 0, u64::MAX) {
        Ok(runs) => match runs.as_slice() {
            [_, run] => [run.address, run.length, u64::from(run.line.unwrap_or(0))],
            _ => [0; 3],
        },
        Err(_) => [FAULT; 3],
    }
}

fn depth<R: Reader>(context: &mut Context<R>, address: u64) -> u64 {
    match warm_up(context) {
        Ok(()) => match depth_at(context, address) {
            Ok(depth) => depth as u64,
            Err(_) => FAULT,
        },
        Err(_) => FAULT,
    }
}

// How many replies there are to three calls, and how many frames the second has.
fn replies<R: Reader>(alloc: Global, context: &mut Context<R>) -> [u64; 2] {
    match replies_at(alloc, context, 0x10) {
        Ok(replies) => match replies.as_slice() {
            [_, Reply::Frames(Ok(frames)), _] => [3, frames.len() as u64],
            _ => [0; 2],
        },
        Err(_) => [FAULT; 2],
    }
}

fn answers<R: Reader>(alloc: Global, context: &mut Context<R>) -> [u64; 9] {
    let [address, length, line] = second_row(alloc, context);
    let [count, frames] = replies(alloc, context);
    [
        line_number(context, 0x10),
        line_number(context, 0x30),
        address,
        length,
        line,
        depth(context, 0x10),
        depth(context, 0x30),
        count,
        frames,
    ]
}

fn answers_of_sections(alloc: Global) -> [u64; 9] {
    match context_of(alloc, &SECTIONS) {
        Ok(context) => {
            let mut context = context;
            answers(alloc, &mut context)
        }
        Err(_) => [FAULT; 9],
    }
}

#[test]
fn each_use_gives_what_the_sections_say(rt: HostRuntime) {
    let want = [1, 0, 0x20, 0x10, 3, 1, 0, 3, 1];
    assert_eq!(rt; answers_of_sections(rt.alloc()), want);
}
