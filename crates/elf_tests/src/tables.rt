//! Tables of cases, as texts.
//!
//! A line of a table is a case: what it is; a place in the file and the bytes that are put there,
//! as often as needed; the wanted answer. Numbers are hexadecimal. A test finds no line whose
//! answer is another one.

use crate::answers::{EMPTY, digits, open, refusal, section_number, symbol_numbers};
use elf::{ElfFile, LoaderError};
use elf_writer::{SHAPES, Section, Shape, Symbol, elf_file, plain, symbol_tables};
use std::alloc::Global;

const SHT_SYMTAB: u32 = 2;

// A number that no answer has: a case that can't be read.
const UNREADABLE: u64 = 0;

// Puts bytes at a place of a file; `None` where that can't be done.
fn put(file: &mut [u8], place: &str, bytes: &str) -> Option<()> {
    let mut at = usize::from_str_radix(place.trim(), 16).ok()?;
    for byte in bytes.split_whitespace() {
        *file.get_mut(at)? = u8::from_str_radix(byte, 16).ok()?;
        at = at.saturating_add(1);
    }
    Some(())
}

// Makes the changes of a case.
fn change(file: &mut [u8], changes: &str) -> Option<()> {
    for change in changes.split(';') {
        if let Some((place, bytes)) = change.split_once(':') {
            put(file, place, bytes)?;
        }
    }
    Some(())
}

// The bytes of a table's words as digits.
fn hex(front: u64, words: &str) -> u64 {
    let mut number = front;
    for word in words.split_whitespace() {
        match u8::from_str_radix(word, 16) {
            Ok(byte) => number = digits(number, &[byte]),
            Err(_) => return UNREADABLE,
        }
    }
    number
}

/// The wanted number of a section, of a table's words.
pub(crate) fn section_wanted(words: &str) -> u64 {
    match words {
        "NotElf" => refusal(LoaderError::NotElf),
        "BadElf" => refusal(LoaderError::BadElf),
        "CompressedSection" => refusal(LoaderError::CompressedSection),
        "RelocationsNeeded" => refusal(LoaderError::RelocationsNeeded),
        "empty" => EMPTY,
        bytes => hex(EMPTY, bytes),
    }
}

/// The number of .debug_info.
pub(crate) fn section_found(alloc: Global, file: &[u8]) -> u64 {
    match open(alloc, file) {
        Ok(file) => section_number(&file, ".debug_info"),
        Err(error) => refusal(error),
    }
}

// The wanted name and address of a symbol, of a table's words.
fn symbol_wanted(words: &str) -> [u64; 2] {
    match words.split_once(' ') {
        Some((name, address)) => [digits(0, name.as_bytes()), hex(0, address)],
        None => [0, 0],
    }
}

// The name and address of the symbol at 0x18.
fn symbol_found(alloc: Global, file: &[u8]) -> [u64; 2] {
    match open(alloc, file) {
        Ok(file) => symbol_numbers(file.symbol(0x18)),
        Err(error) => [refusal(error), 0],
    }
}

// Whether a case has its answer; `None` where it can't be read, or a growth was refused.
fn is_section_right(alloc: Global, file: &[u8], case: &str) -> Option<bool> {
    let (changes, want) = case.rsplit_once(';')?;
    let mut file = Vec::from_slice(alloc, file).ok()?;
    change(&mut file, changes)?;
    Some(section_found(alloc, &file) == section_wanted(want.trim()))
}

/// The first line whose answer is another one.
pub(crate) fn first_wrong_section<'a>(alloc: Global, file: &[u8], cases: &'a str) -> &'a str {
    for case in cases.lines() {
        if is_section_right(alloc, file, case) != Some(true) {
            return case;
        }
    }
    "none"
}

// Whether a case has its answer; `None` where it can't be read, or a growth was refused.
fn is_symbol_right(alloc: Global, file: &[u8], case: &str) -> Option<bool> {
    let (changes, want) = case.rsplit_once(';')?;
    let mut file = Vec::from_slice(alloc, file).ok()?;
    change(&mut file, changes)?;
    Some(symbol_found(alloc, &file) == symbol_wanted(want.trim()))
}

/// The first line whose answer is another one.
pub(crate) fn first_wrong_symbol<'a>(alloc: Global, file: &[u8], cases: &'a str) -> &'a str {
    for case in cases.lines() {
        if is_symbol_right(alloc, file, case) != Some(true) {
            return case;
        }
    }
    "none"
}

/// The same in a file of 64 bits, little endian, with these symbols.
pub(crate) fn first_wrong_change<'a>(
    alloc: Global,
    symbols: &[Symbol<'_>],
    cases: &'a str,
) -> &'a str {
    match symbols_file(alloc, SHAPES[0], symbols) {
        Some(file) => first_wrong_symbol(alloc, &file, cases),
        None => "no file",
    }
}

// Whether a probe has its symbol; `None` where the case can't be read.
fn is_probe_right(file: &ElfFile, case: &str) -> Option<bool> {
    let (probe, want) = case.split_once(';')?;
    Some(symbol_numbers(file.symbol(hex(0, probe))) == symbol_wanted(want.trim()))
}

/// The first line, of a probe and its symbol, whose answer is another one.
pub(crate) fn first_wrong_probe<'a>(alloc: Global, file: &[u8], cases: &'a str) -> &'a str {
    let Ok(file) = open(alloc, file) else {
        return "no file";
    };
    for case in cases.lines() {
        if is_probe_right(&file, case) != Some(true) {
            return case;
        }
    }
    "none"
}

/// A file with .text, a symbol table and its strings.
pub(crate) fn symbols_file(alloc: Global, shape: Shape, symbols: &[Symbol<'_>]) -> Option<Vec<u8>> {
    symbols_file_as(alloc, shape, SHT_SYMTAB, symbols)
}

/// A file with .text, a symbol table of that kind and its strings.
pub(crate) fn symbols_file_as(
    alloc: Global,
    shape: Shape,
    kind: u32,
    symbols: &[Symbol<'_>],
) -> Option<Vec<u8>> {
    let tables = symbol_tables(alloc, shape, symbols).ok()?;
    let entries = Section {
        kind,
        link: 3,
        ..plain(".symtab", &tables.symbols)
    };
    let strings = plain(".strtab", &tables.strings);
    elf_file(alloc, shape, &[plain(".text", &[0]), entries, strings]).ok()
}
