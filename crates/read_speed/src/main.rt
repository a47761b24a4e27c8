//! The program `read_speed`: reads the numbers of a file in one way, and prints their checksum
//! alone.
//!
//! Arguments: a way and a file. The way is `nothing`, or one of `u32`, `uleb128`, `sleb128`,
//! `split` and `duplicate` with `-slice` for borrowed bytes or `-bytes` for shared ones. It is
//! timed from outside, by tools/read_speed. The way `entries` takes a file of three sections, each
//! after its length in eight bytes, and passes over the entries of all units.
#![tactic(auto)]

mod entries;

use crate::entries::entries_checksum;
use bytes::Bytes;
use gimli_read::{EndianBytes, EndianSlice, Reader, RunTimeEndian};
use std::alloc::Global;
use std::process::ExitCode;
use std::{env, fs};

// How many bytes a part has.
const PART: u64 = 4;

// The checksum with one more number. Their order counts too.
fn mixed(sum: u64, number: u64) -> u64 {
    sum.rotate_left(1) ^ number
}

// The words of 32 bits, up to the first that isn't whole.
fn words<R: Reader>(input: &mut R) -> u64 {
    let mut sum = 0;
    while let Ok(word) = input.read_u32() {
        sum = mixed(sum, u64::from(word));
    }
    sum
}

// The unsigned numbers, up to the first that can't be read.
fn unsigned<R: Reader>(input: &mut R) -> u64 {
    let mut sum = 0;
    while let Ok(number) = input.read_uleb128() {
        sum = mixed(sum, number);
    }
    sum
}

// The signed numbers, up to the first that can't be read.
fn signed<R: Reader>(input: &mut R) -> u64 {
    let mut sum = 0;
    while let Ok(number) = input.read_sleb128() {
        sum = mixed(sum, number.cast_unsigned());
    }
    sum
}

// The first byte of each part, up to the first part that isn't whole.
fn parts<R: Reader + Drop>(input: &mut R) -> u64 {
    let mut sum = 0;
    while let Ok(mut part) = input.split(PART) {
        if let Ok(byte) = part.read_u8() {
            sum = mixed(sum, u64::from(byte));
        }
    }
    sum
}

// The first byte of each part, read by a duplicate, up to the first part that isn't whole.
fn duplicates<R: Reader + Drop>(input: &mut R) -> u64 {
    let mut sum = 0;
    while let Ok(mut copy) = input.duplicate() {
        if let Ok(byte) = copy.read_u8() {
            sum = mixed(sum, u64::from(byte));
        }
        if input.skip(PART).is_err() {
            return sum;
        }
    }
    sum
}

// The checksum of a way, if it is one.
fn checksum_of<R: Reader + Drop>(alloc: Global, way: &str, input: &mut R) -> Option<u64> {
    match way {
        "u32" => Some(words(input)),
        "uleb128" => Some(unsigned(input)),
        "sleb128" => Some(signed(input)),
        "split" => Some(parts(input)),
        "duplicate" => Some(duplicates(input)),
        "entries" => entries_checksum(alloc, input).ok(),
        _ => None,
    }
}

// The checksum of a file's bytes, if the way is one and there is memory.
fn checksum(alloc: Global, way: &str, bytes: Vec<u8>) -> Option<u64> {
    if way == "nothing" {
        return Some(0);
    }
    if let Some(way) = way.strip_suffix("-slice") {
        let mut input = EndianSlice::new(bytes.as_slice(), RunTimeEndian::Little);
        return checksum_of(alloc, way, &mut input);
    }
    let way = way.strip_suffix("-bytes")?;
    let bytes = Bytes::from_vec(bytes).ok()?;
    let mut input = EndianBytes::new(bytes, RunTimeEndian::Little);
    checksum_of(alloc, way, &mut input)
}

fn main(rt: HostRuntime) -> ExitCode {
    let alloc: Global = rt.alloc();
    let Ok(args) = env::args(&rt) else {
        return ExitCode::from(1);
    };
    let Ok(words) = args.collect::<Vec<String>>(alloc) else {
        return ExitCode::from(1);
    };
    let [_, way, path] = words.as_slice() else {
        return ExitCode::from(2);
    };
    let Ok(bytes) = fs::read(&rt, path.as_str()) else {
        return ExitCode::from(1);
    };
    match checksum(alloc, way.as_str(), bytes) {
        None => ExitCode::from(2),
        Some(sum) => match println!(rt; "{sum}") {
            Ok(()) => ExitCode::SUCCESS,
            Err(_) => ExitCode::from(1),
        },
    }
}
