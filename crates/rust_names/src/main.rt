//! The program `rust_names`: writes the lines of a file, and of each v0 name of Rust its text.
#![tactic(auto)]

ghost use Rattle.std.specs.Prelude.{◌<◌, length, IfSome};

use rust_v0::demangle_v0;
use std::alloc::Global;
use std::io::Write;
use std::process::ExitCode;
use std::{env, fs, io};

// A line, and what comes after it.
#[derive(Drop)]
struct Line<'a> {
    bytes: &'a [u8],
    rest: &'a [u8],
}

// The first line of a file, if that has one, without its end.
fn line_of(file: &[u8]) -> Option<Line<'_>>
    ensures shorter { IfSome result (λ line. length line.rest.now < length file.now) }
{
    if file.is_empty() {
        return None;
    }
    match file.iter().position(|b| *b == b'\n') {
        Some(end) => Some(Line {
            bytes: &file[..end],
            rest: &file[end + 1..],
        }),
        None => Some(Line {
            bytes: file,
            rest: &[],
        }),
    }
}

// Writes a line, or the text of the name that it is.
fn write_line(output: &mut impl Write, alloc: Global, line: &[u8]) -> io::Result<()> {
    if let Ok(name) = std::str::from_utf8(line) {
        if let Some(text) = demangle_v0(alloc, name)? {
            output.write_all(text.as_bytes())?;
            return output.write_all(b"\n".as_slice());
        }
    }
    output.write_all(line)?;
    output.write_all(b"\n".as_slice())
}

// Writes each line of a file.
fn write_lines(output: &mut impl Write, alloc: Global, file: &[u8]) -> io::Result<()> {
    let mut rest = file;
    while let Some(line) = line_of(rest) {
        write_line(output, alloc, line.bytes)?;
        rest = line.rest;
    }
    Ok(())
}

fn main(rt: HostRuntime) -> ExitCode {
    let alloc: Global = rt.alloc();
    let Ok(args) = env::args(&rt) else {
        return ExitCode::from(1);
    };
    let Ok(words) = args.collect::<Vec<String>>(alloc) else {
        return ExitCode::from(1);
    };
    let [_, path] = words.as_slice() else {
        return ExitCode::from(2);
    };
    let Ok(file) = fs::read(&rt, path.as_str()) else {
        return ExitCode::from(1);
    };
    match write_lines(&mut rt.stdout(), alloc, file.as_slice()) {
        Ok(()) => ExitCode::SUCCESS,
        Err(_) => ExitCode::from(1),
    }
}
