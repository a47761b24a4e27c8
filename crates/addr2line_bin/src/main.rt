//! The program `addr2line`: files, lines and functions of addresses.
#![tactic(auto)]

mod address;
mod address_text;
mod all_addresses;
mod calls;
mod command;
mod command_line;
mod exit;
mod frame_text;
mod handed;
mod input;
mod json_text;
mod lookups;
mod options;
mod printing;
mod probe_text;
mod program;
mod program_name;
mod response_files;
mod stream;
#[cfg(test)]
mod tests;
mod version;
mod whole_run;
mod word_answers;

use crate::handed::Handed;
use crate::input::ReaderInput;
use crate::stream::Written;
use crate::whole_run::run_program;
use addr2line::HostFiles;
use std::alloc::{AllocError, Global};
use std::env;
use std::io::{BufReader, ErrorKind};
use std::process::ExitCode;

// The words of the command line.
fn words_of(rt: &(impl std::rt::Env + AllocGlobal)) -> Result<Vec<String>, ErrorKind> {
    match env::args(rt) {
        Ok(args) => args.collect(rt.alloc()).map_err(|_| ErrorKind::OutOfMemory),
        Err(error) => Err(error.kind()),
    }
}

fn main(rt: HostRuntime) -> ExitCode {
    let alloc: Global = rt.alloc();
    let words = words_of(&rt);
    let input = match BufReader::new(alloc, rt.reader()) {
        Ok(reader) => Ok(ReaderInput::new(Handed(reader))),
        Err(_) => Err(AllocError),
    };
    let mut out = Written::new(Handed(rt.stdout()));
    let mut err = Written::new(Handed(rt.stderr()));
    run_program(alloc, HostFiles::new(rt), words, input, &mut out, &mut err)
}
