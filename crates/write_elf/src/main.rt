//! The program `write_elf`: writes an ELF file whose sections are files of this folder, to
//! standard output.
//!
//! Each word names a section and the file of its bytes.
#![tactic(auto)]

use elf_writer::{SHAPES, elf_file, plain};
use std::alloc::Global;
use std::io::Write;
use std::process::ExitCode;
use std::{env, fs, io};

// The words after the program's name.
fn words_of(rt: &(impl std::rt::Env + AllocGlobal)) -> io::Result<Vec<String>> {
    Ok(env::args(rt)?.skip(1).collect(rt.alloc())?)
}

// The file that the words ask for, of 64 bits and little endian.
fn file_of(rt: &(impl std::rt::Env + std::fs::Files + AllocGlobal)) -> io::Result<Vec<u8>> {
    let alloc: Global = rt.alloc();
    let words = words_of(rt)?;
    let mut contents = Vec::new(alloc);
    for word in &words {
        contents.push(fs::read(rt, word.as_str())?)?;
    }
    let mut sections = Vec::new(alloc);
    for (word, bytes) in words.iter().zip(contents.iter()) {
        sections.push(plain(word.as_str(), bytes.as_slice()))?;
    }
    Ok(elf_file(alloc, SHAPES[0], &sections)?)
}

fn main(rt: HostRuntime) -> ExitCode {
    let Ok(file) = file_of(&rt) else {
        return ExitCode::from(1);
    };
    match rt.stdout().write_all(file.as_slice()) {
        Ok(()) => ExitCode::SUCCESS,
        Err(_) => ExitCode::from(1),
    }
}
