//! The program `function_speed`: a checksum of the functions of all units, or of their details.
//!
//! Arguments: a mode and a file of nine sections, each after its length in eight bytes, and after
//! them an address past all code. The mode `nothing` only reads the file, `units` reads the units,
//! `functions` reads the functions of all units and looks up addresses, and `details` the details
//! of each of them too. It is timed from outside, by tools/function_speed.
#![tactic(auto)]

mod functions;
mod sections;

use crate::functions::functions_checksum;
use crate::sections::{read_sections, read_units};
use gimli::{EndianSlice, Error, Reader, RunTimeEndian};
use std::alloc::Global;
use std::process::ExitCode;
use std::{env, fs, io};

// A sum with one more number.
fn mixed(sum: u64, number: u64) -> u64 {
    sum.wrapping_mul(31).wrapping_add(number)
}

// What is read of a file.
#[derive(Clone, Copy)]
enum Mode {
    Units,
    Functions,
    Details,
}

// The mode of a name.
fn mode_of(name: &str) -> Option<Mode> {
    match name {
        "units" => Some(Mode::Units),
        "functions" => Some(Mode::Functions),
        "details" => Some(Mode::Details),
        _ => None,
    }
}

// The checksum of the sections of a file.
fn sum_of(alloc: Global, mode: Mode, bytes: &[u8]) -> Result<u64, Error> {
    let mut input = EndianSlice::new(bytes, RunTimeEndian::Little);
    let dwarf = read_sections(&mut input)?;
    let limit = input.read_u64()?;
    let units = read_units(alloc, &dwarf)?;
    match mode {
        Mode::Units => Ok(units.len() as u64),
        Mode::Functions => functions_checksum(alloc, &dwarf, &units, limit, false),
        Mode::Details => functions_checksum(alloc, &dwarf, &units, limit, true),
    }
}

// The checksum of the file that the words name, in the mode that they name; none for other words.
fn told(
    rt: &(impl std::rt::Env + std::fs::Files + AllocGlobal),
) -> io::Result<Option<Result<u64, Error>>> {
    let alloc: Global = rt.alloc();
    let words: Vec<String> = env::args(rt)?.collect(alloc)?;
    if words.len() != 3 {
        return Ok(None);
    }
    let bytes = fs::read(rt, words[2].as_str())?;
    if words[1].as_str() == "nothing" {
        return Ok(Some(Ok(0)));
    }
    match mode_of(words[1].as_str()) {
        Some(mode) => Ok(Some(sum_of(alloc, mode, &bytes))),
        None => Ok(None),
    }
}

fn main(rt: HostRuntime) -> ExitCode {
    match told(&rt) {
        Ok(Some(Ok(sum))) => match println!(rt; "{sum:016x}") {
            Ok(()) => ExitCode::SUCCESS,
            Err(_) => ExitCode::from(1),
        },
        Ok(None) => ExitCode::from(2),
        _ => ExitCode::from(1),
    }
}
