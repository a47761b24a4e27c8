//! Worked command lines.

ghost use Rattle.std.specs.Prelude.{◌≤◌};

use crate::command_line::{Misuse, Request, WordFault, command_line};
use crate::options::{Options, Probes};
use addr2line::{CompressedSections, Style};
use clap::error::ErrorKind;
use std::alloc::Global;
use std::test::Fail;

// The words of a line, with one space between two.
fn words_in(alloc: Global, line: &str) -> Result<Vec<String>, Fail> {
    let mut words = Vec::new(alloc);
    for word in line.split(' ') {
        words.push(String::from_str(alloc, word)?)?;
    }
    Ok(words)
}

// 1 for legacy names, 2 for v0 names too.
fn names_digit(names: Option<Style>) -> u32
    ensures { result ≤ 2 }
{
    match names {
        None => 0,
        Some(Style::Legacy) => 1,
        Some(Style::Rust) => 2,
    }
}

// At the front 2 for `All`, 3 for addresses or 4 for lines; then a digit for each switch, in the
// order of `Style`, and at last 1 for the texts of LLVM or 2 for JSON.
fn digits_of(options: &Options) -> u32 {
    let probes = match &options.probes {
        Probes::All => 20_000_000,
        Probes::Words(_) => 30_000_000,
        Probes::Lines => 40_000_000,
    };
    probes
        + u32::from(options.style.functions) * 1_000_000
        + u32::from(options.style.pretty) * 100_000
        + u32::from(options.style.inlines) * 10_000
        + u32::from(options.style.addresses) * 1_000
        + u32::from(options.style.basenames) * 100
        + names_digit(options.style.names) * 10
        + u32::from(options.style.llvm)
        + u32::from(options.style.json) * 2
}

// The digits of what a line asks for; below ten for what is wrong with it.
fn code_of(alloc: Global, line: &str) -> Result<u32, Fail> {
    let words = words_in(alloc, line)?;
    Ok(match command_line(alloc, words.as_slice()) {
        Ok(request) => digits_of(&request.options),
        Err(WordFault::Misuse(Misuse::AllAndAddresses)) => 1,
        Err(WordFault::Misuse(Misuse::NoFile)) => 6,
        Err(WordFault::Misuse(Misuse::OutputStyle)) => 7,
        Err(WordFault::Misuse(Misuse::RecursionLimit)) => 8,
        Err(WordFault::Misuse(Misuse::NameStyle)) => 9,
        Err(WordFault::Clap(error)) => match error.kind() {
            ErrorKind::DisplayHelp => 2,
            ErrorKind::DisplayVersion => 3,
            _ => 4,
        },
        Err(WordFault::OutOfMemory) => 5,
    })
}

// The texts of a request: the program's name, its file, the file beside it, whether sections are
// decompressed, the section, and the addresses, each behind its own mark.
fn texts_of(alloc: Global, request: &Request) -> Result<String, Fail> {
    let mut texts = String::new(alloc);
    texts.push_str(request.options.name.as_str())?;
    texts.push_str(" of ")?;
    texts.push_str(request.exe.as_str())?;
    if let Some(sup) = &request.sup {
        texts.push_str(" and ")?;
        texts.push_str(sup.as_str())?;
    }
    if request.compressed == CompressedSections::Decompressed {
        texts.push_str(" decompressed")?;
    }
    if let Some(section) = &request.options.section {
        texts.push_str(" in ")?;
        texts.push_str(section.as_str())?;
    }
    if let Probes::Words(words) = &request.options.probes {
        for word in words {
            texts.push_str(" at ")?;
            texts.push_str(word.as_str())?;
        }
    }
    Ok(texts)
}

#[test]
fn each_switch_stands_by_its_letter_and_its_name(rt: HostRuntime) -> Result<(), Fail> {
    let cases = [
        ("addr2line -e f", 40_000_000),
        ("addr2line --exe f -f", 41_000_000),
        ("addr2line -e f --functions", 41_000_000),
        ("addr2line -e f -p", 40_100_000),
        ("addr2line -e f --pretty-print", 40_100_000),
        ("addr2line -e f -i", 40_010_000),
        ("addr2line -e f --inlines", 40_010_000),
        ("addr2line -e f -a", 40_001_000),
        ("addr2line -e f --addresses", 40_001_000),
        ("addr2line -e f -s", 40_000_100),
        ("addr2line -e f --basenames", 40_000_100),
        ("addr2line -e f -C", 40_000_010),
        ("addr2line -e f --demangle", 40_000_010),
        ("addr2line -e f --demangle=rust", 40_000_020),
        ("addr2line --demangle=auto -e f -C", 40_000_020),
        ("addr2line -e f -C --demangle=none", 40_000_000),
        ("addr2line --demangle -e f -- --demangle=rust", 30_000_010),
        ("addr2line -e f --llvm", 40_000_001),
        ("addr2line -e f --output-style=LLVM", 40_000_001),
        ("addr2line -e f --output-style JSON", 40_000_002),
        ("addr2line -e f --output-style=GNU", 40_000_000),
        ("addr2line -e f --llvm --output-style=GNU", 40_000_000),
        ("addr2line -e f --llvm --output-style=JSON", 40_000_002),
        ("addr2line -e f -b elf64-x86-64 --functions", 41_000_000),
        ("addr2line -e f --target=elf32-i386", 40_000_000),
        ("addr2line -afpsiCe f --llvm 10", 31_111_111),
        ("addr2line -e f --all", 20_000_000),
        ("addr2line -e f 10 -f", 31_000_000),
    ];
    for (line, want) in cases {
        assert_eq!(rt; code_of(rt.alloc(), line)?, want);
    }
    Ok(())
}

#[test]
fn words_that_ask_for_nothing_are_told_apart(rt: HostRuntime) -> Result<(), Fail> {
    let cases = [
        ("addr2line", 6),
        ("addr2line 10", 6),
        ("addr2line -e f --all 10", 1),
        ("addr2line --all", 6),
        ("addr2line -e f --output-style=gnu", 7),
        ("addr2line -e f --llvm --output-style=", 7),
        ("addr2line -e f --demangle=gnu-v3", 9),
        ("addr2line -e f --demangle=", 9),
        ("addr2line -e f --demangle=rust --demangle=rust", 4),
        ("addr2line -e f -r", 8),
        ("addr2line -e f -R", 8),
        ("addr2line --no-recurse-limit", 8),
        ("addr2line -e f --recurse-limit --output-style=x", 8),
        ("addr2line -v", 3),
        ("addr2line -e f -v 10", 3),
        ("addr2line --help", 2),
        ("addr2line -h", 2),
        ("addr2line --version", 3),
        ("addr2line -V", 3),
        ("addr2line -e", 4),
        ("addr2line -e f -e g", 4),
        ("addr2line -e f -f -f", 4),
        ("addr2line -e f -x", 4),
        ("addr2line -e f -10", 4),
        ("addr2line -e f --unknown", 4),
    ];
    for (line, want) in cases {
        assert_eq!(rt; code_of(rt.alloc(), line)?, want);
    }
    Ok(())
}

#[test]
fn each_value_stands_in_its_place(rt: HostRuntime) -> Result<(), Fail> {
    let cases = [
        ("addr2line -e f", "addr2line of f"),
        ("/usr/bin/a2l -e f", "a2l of f"),
        ("a/.. -e f", "addr2line of f"),
        ("a2l --exe=f --sup g", "a2l of f and g"),
        ("a2l -ef -j .text", "a2l of f in .text"),
        ("a2l --section .x --sup=g -e f", "a2l of f and g in .x"),
        (
            "a2l 2 -e f 0x10 2 -- -3",
            "a2l of f at 2 at 0x10 at 2 at -3",
        ),
        ("a2l -e f --llvm --all --sup g", "a2l of f and g"),
        (
            "a2l --decompress -e f -j .x --sup g",
            "a2l of f and g decompressed in .x",
        ),
    ];
    for (line, want) in cases {
        let words = words_in(rt.alloc(), line)?;
        let texts = match command_line(rt.alloc(), words.as_slice()) {
            Ok(request) => texts_of(rt.alloc(), &request)?,
            Err(_) => String::new(rt.alloc()),
        };
        assert_eq!(rt; texts.as_str(), want);
    }
    Ok(())
}
