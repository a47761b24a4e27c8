//! The program `inflate_file`: inflates the zlib streams of a file, and writes what each gives.
//!
//! A stream is its length of four bytes, the most bytes that it may inflate to, of eight, both
//! little endian, and its bytes. Of each one byte is written, 0 where it is refused, and otherwise
//! 1, the length of what it inflates to, of eight bytes, and those bytes.
#![tactic(auto)]

ghost use Rattle.std.specs.Prelude.{◌<◌, length, IfSome};

use inflate::inflate;
use std::alloc::Global;
use std::io::Write;
use std::process::ExitCode;
use std::{env, fs, io};

// A stream, the most bytes that it may inflate to, and what comes after it.
#[derive(Drop)]
struct Stream<'a> {
    bytes: &'a [u8],
    size: u64,
    rest: &'a [u8],
}

// The stream that a file begins with.
fn stream_of(file: &[u8]) -> Option<Stream<'_>>
    ensures shorter { IfSome result (λ s. length s.rest.now < length file.now) }
{
    if file.len() < 12 {
        return None;
    }
    let (h, rest) = file.split_at(12);
    let len = u32::from_le_bytes([h[0], h[1], h[2], h[3]]) as usize;
    let size = u64::from_le_bytes([h[4], h[5], h[6], h[7], h[8], h[9], h[10], h[11]]);
    if rest.len() < len {
        return None;
    }
    let (bytes, rest) = rest.split_at(len);
    Some(Stream { bytes, size, rest })
}

// Writes what a stream gives.
fn write_answer(output: &mut impl Write, alloc: Global, stream: &Stream<'_>) -> io::Result<()> {
    match inflate(alloc, stream.bytes, stream.size) {
        Ok(bytes) => {
            output.write_all([1].as_slice())?;
            output.write_all((bytes.len() as u64).to_le_bytes().as_slice())?;
            output.write_all(bytes.as_slice())
        }
        Err(_) => output.write_all([0].as_slice()),
    }
}

// Writes what each stream of a file gives.
fn write_answers(output: &mut impl Write, alloc: Global, file: &[u8]) -> io::Result<()> {
    let mut rest = file;
    while let Some(stream) = stream_of(rest) {
        write_answer(output, alloc, &stream)?;
        rest = stream.rest;
    }
    Ok(())
}

fn main(rt: HostRuntime) -> ExitCode {
    let alloc: Global = rt.alloc();
    let Ok(args) = env::args(&rt) else {
        return ExitCode::from(1);
    };
    let Ok(words) = args.collect::<Vec<String>>(alloc) else {
        return ExitCode::from(1);
    };
    let [_, path] = words.as_slice() else {
        return ExitCode::from(2);
    };
    let Ok(file) = fs::read(&rt, path.as_str()) else {
        return ExitCode::from(1);
    };
    match write_answers(&mut rt.stdout(), alloc, file.as_slice()) {
        Ok(()) => ExitCode::SUCCESS,
        Err(_) => ExitCode::from(1),
    }
}
