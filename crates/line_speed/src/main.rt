//! The program `line_speed`: a checksum of rows, of cached lines, or of lookups in them.
//!
//! Arguments: a mode and a file. The modes `borrowed` and `shared` take a `.debug_line` section,
//! whose rows are read over borrowed or shared bytes. The modes `cached` and `lookups` take a file
//! of four sections, each after its length in eight bytes: the lines of all units are cached, and a
//! thousand addresses are looked up, or a million more.
#![tactic(auto)]

mod cached;
mod checksum;

use crate::cached::cached_checksum;
use crate::checksum::checksum_of;
use bytes::Bytes;
use gimli_read::{EndianBytes, EndianSlice, Error, RunTimeEndian};
use std::alloc::Global;
use std::process::ExitCode;
use std::{env, fs, io};

// A sum with one more number.
fn mixed(sum: u64, number: u64) -> u64 {
    sum.wrapping_mul(31).wrapping_add(number)
}

// The checksum of a section, read over the reader that the mode names; none for another mode.
fn sum_of(alloc: Global, mode: &str, bytes: Vec<u8>) -> Option<Result<u64, Error>> {
    if mode == "borrowed" {
        let section = EndianSlice::new(&bytes, RunTimeEndian::Little);
        return Some(checksum_of(alloc, section));
    }
    if mode == "shared" {
        return match Bytes::from_vec(bytes) {
            Ok(bytes) => Some(checksum_of(alloc, EndianBytes::new(bytes, RunTimeEndian::Little))),
            Err(_) => Some(Err(Error::OutOfMemory)),
        };
    }
    let lookups = match mode {
        "cached" => 1_000,
        "lookups" => 1_001_000,
        _ => return None,
    };
    let mut input = EndianSlice::new(&bytes, RunTimeEndian::Little);
    Some(cached_checksum(alloc, &mut input, lookups))
}

// The checksum of the file that the words name, in the mode that they name; none for other words.
fn told(
    rt: &(impl std::rt::Env + std::fs::Files + AllocGlobal),
) -> io::Result<Option<Result<u64, Error>>> {
    let alloc: Global = rt.alloc();
    let words: Vec<String> = env::args(rt)?.collect(alloc)?;
    if words.len() != 3 {
        return Ok(None);
    }
    let bytes = fs::read(rt, words[2].as_str())?;
    Ok(sum_of(alloc, words[1].as_str(), bytes))
}

fn main(rt: HostRuntime) -> ExitCode {
    match told(&rt) {
        Ok(Some(Ok(sum))) => match println!(rt; "{sum:016x}") {
            Ok(()) => ExitCode::SUCCESS,
            Err(_) => ExitCode::from(1),
        },
        Ok(None) => ExitCode::from(2),
        _ => ExitCode::from(1),
    }
}
