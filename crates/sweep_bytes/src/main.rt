//! The program `sweep_bytes`: compares the two lookups over files of which a byte is changed or a
//! section is cut.
//!
//! The first word says what is changed: `cuts`, each section to each lesser number of bytes; `all`,
//! each byte to each value; else values of two hexadecimal digits with commas between them, as
//! `00,ff`, each byte to each of them. The others name the files; without them it takes all.
#![tactic(auto)]

use lookup_comparison::{Counts, NAMES, Sweep, vector};
use std::alloc::Global;
use std::process::ExitCode;
use std::{env, io};

// What is changed.
#[derive(Drop)]
enum Changes {
    Cuts,
    Values(Vec<u8>),
}

// Each value of a byte.
fn all_values(alloc: Global) -> io::Result<Vec<u8>> {
    let mut values = Vec::new(alloc);
    for value in 0..=u8::MAX {
        values.push(value)?;
    }
    Ok(values)
}

// The values of a word; none where a part of it is no number of a byte.
fn values_of(alloc: Global, word: &str) -> io::Result<Option<Vec<u8>>> {
    let mut values = Vec::new(alloc);
    for part in word.split(',') {
        match u8::from_str_radix(part, 16) {
            Ok(value) => values.push(value)?,
            Err(_) => return Ok(None),
        }
    }
    Ok(Some(values))
}

fn changes_of(alloc: Global, word: &str) -> io::Result<Option<Changes>> {
    match word {
        "cuts" => Ok(Some(Changes::Cuts)),
        "all" => Ok(Some(Changes::Values(all_values(alloc)?))),
        _ => Ok(values_of(alloc, word)?.map(Changes::Values)),
    }
}

// A line of a file's counts, and of its first difference.
fn tell(rt: &impl Print, name: &str, sweep: &Sweep) -> io::Result<()> {
    let Counts {
        files,
        replies,
        differing: differ,
        refused,
    } = sweep.counts;
    println!(rt;
        "{name}: {files} files, {replies} equal replies, {differ} files differ, {refused} refused"
    )?;
    match &sweep.found {
        Some(found) => println!(rt; "{found:?}"),
        None => Ok(()),
    }
}

// Sweeps one file: whether no reply differs.
fn sweep_file(rt: &impl Print, alloc: Global, name: &str, changes: &Changes) -> io::Result<bool> {
    let Some(sections) = vector(name) else {
        println!(rt; "{name}: no such file")?;
        return Ok(false);
    };
    let Ok(mut sweep) = Sweep::new(alloc, sections) else {
        return Ok(false);
    };
    match changes {
        Changes::Cuts => sweep.cut_sections(),
        Changes::Values(values) => sweep.change_bytes(values.as_slice())?,
    }
    tell(rt, name, &sweep)?;
    Ok(sweep.counts.differing == 0 && sweep.counts.refused == 0)
}

// Sweeps these files, or all of them: whether no reply differs.
fn sweep_files(
    rt: &impl Print,
    alloc: Global,
    changes: &Changes,
    names: &[String],
) -> io::Result<bool> {
    let mut alike = true;
    for name in names {
        alike = sweep_file(rt, alloc, name.as_str(), changes)? && alike;
    }
    if names.is_empty() {
        for name in NAMES {
            alike = sweep_file(rt, alloc, name, changes)? && alike;
        }
    }
    Ok(alike)
}

// Whether the words are right and no reply differs.
fn run(rt: &(impl std::rt::Env + Print + AllocGlobal)) -> io::Result<bool> {
    let alloc: Global = rt.alloc();
    let words: Vec<String> = env::args(rt)?.skip(1).collect(alloc)?;
    let Some((first, names)) = words.split_first() else {
        return Ok(false);
    };
    match changes_of(alloc, first.as_str())? {
        Some(changes) => sweep_files(rt, alloc, &changes, names),
        None => Ok(false),
    }
}

fn main(rt: HostRuntime) -> ExitCode {
    match run(&rt) {
        Ok(true) => ExitCode::SUCCESS,
        Ok(false) | Err(_) => ExitCode::from(1),
    }
}
