//! Refused growths: with any one growth refused the calls say so, and the same call after it is
//! right.

use crate::answers::{EMPTY, digits, refusal, section_number, symbol_numbers};
use bytes::Bytes;
use elf::{ElfFile, LoaderError};
use gimli_read::{EndianBytes, Reader, RunTimeEndian};
use std::alloc::Global;

// Of 64 bits, little endian: .symtab with the null symbol and 22 symbols of the name "a", the
// first at 0x40 and each next one a byte lower, .strtab, and the names of the sections.
const FILE: [u8; 902] = [
    0x7f, 0x45, 0x4c, 0x46, 2, 1, 1, 0, 0, 0, 0, 0, 0, 0, 0, 0, 2, 0, 0x3e, 0, 1, 0, 0, 0, 0, 0, 0,
    0, 0, 0, 0, 0, 0, 0, 0, 0, 0, 0, 0, 0, 0x86, 2, 0, 0, 0, 0, 0, 0, 0, 0, 0, 0, 0x40, 0, 0, 0, 0,
    0, 0x40, 0, 4, 0, 3, 0, 0, 0, 0, 0, 0, 0, 0, 0, 0, 0, 0, 0, 0, 0, 0, 0, 0, 0, 0, 0, 0, 0, 0, 0,
    1, 0, 0, 0, 2, 0, 1, 0, 0x40, 0, 0, 0, 0, 0, 0, 0, 0, 0, 0, 0, 0, 0, 0, 0, 1, 0, 0, 0, 2, 0, 1,
    0, 0x3f, 0, 0, 0, 0, 0, 0, 0, 0, 0, 0, 0, 0, 0, 0, 0, 1, 0, 0, 0, 2, 0, 1, 0, 0x3e, 0, 0, 0, 0,
    0, 0, 0, 0, 0, 0, 0, 0, 0, 0, 0, 1, 0, 0, 0, 2, 0, 1, 0, 0x3d, 0, 0, 0, 0, 0, 0, 0, 0, 0, 0, 0,
    0, 0, 0, 0, 1, 0, 0, 0, 2, 0, 1, 0, 0x3c, 0, 0, 0, 0, 0, 0, 0, 0, 0, 0, 0, 0, 0, 0, 0, 1, 0, 0,
    0, 2, 0, 1, 0, 0x3b, 0, 0, 0, 0, 0, 0, 0, 0, 0, 0, 0, 0, 0, 0, 0, 1, 0, 0, 0, 2, 0, 1, 0, 0x3a,
    0, 0, 0, 0, 0, 0, 0, 0, 0, 0, 0, 0, 0, 0, 0, 1, 0, 0, 0, 2, 0, 1, 0, 0x39, 0, 0, 0, 0, 0, 0, 0,
    0, 0, 0, 0, 0, 0, 0, 0, 1, 0, 0, 0, 2, 0, 1, 0, 0x38, 0, 0, 0, 0, 0, 0, 0, 0, 0, 0, 0, 0, 0, 0,
    0, 1, 0, 0, 0, 2, 0, 1, 0, 0x37, 0, 0, 0, 0, 0, 0, 0, 0, 0, 0, 0, 0, 0, 0, 0, 1, 0, 0, 0, 2, 0,
    1, 0, 0x36, 0, 0, 0, 0, 0, 0, 0, 0, 0, 0, 0, 0, 0, 0, 0, 1, 0, 0, 0, 2, 0, 1, 0, 0x35, 0, 0, 0,
    0, 0, 0, 0, 0, 0, 0, 0, 0, 0, 0, 0, 1, 0, 0, 0, 2, 0, 1, 0, 0x34, 0, 0, 0, 0, 0, 0, 0, 0, 0, 0,
    0, 0, 0, 0, 0, 1, 0, 0, 0, 2, 0, 1, 0, 0x33, 0, 0, 0, 0, 0, 0, 0, 0, 0, 0, 0, 0, 0, 0, 0, 1, 0,
    0, 0, 2, 0, 1, 0, 0x32, 0, 0, 0, 0, 0, 0, 0, 0, 0, 0, 0, 0, 0, 0, 0, 1, 0, 0, 0, 2, 0, 1, 0,
    0x31, 0, 0, 0, 0, 0, 0, 0, 0, 0, 0, 0, 0, 0, 0, 0, 1, 0, 0, 0, 2, 0, 1, 0, 0x30, 0, 0, 0, 0, 0,
    0, 0, 0, 0, 0, 0, 0, 0, 0, 0, 1, 0, 0, 0, 2, 0, 1, 0, 0x2f, 0, 0, 0, 0, 0, 0, 0, 0, 0, 0, 0, 0,
    0, 0, 0, 1, 0, 0, 0, 2, 0, 1, 0, 0x2e, 0, 0, 0, 0, 0, 0, 0, 0, 0, 0, 0, 0, 0, 0, 0, 1, 0, 0, 0,
    2, 0, 1, 0, 0x2d, 0, 0, 0, 0, 0, 0, 0, 0, 0, 0, 0, 0, 0, 0, 0, 1, 0, 0, 0, 2, 0, 1, 0, 0x2c, 0,
    0, 0, 0, 0, 0, 0, 0, 0, 0, 0, 0, 0, 0, 0, 1, 0, 0, 0, 2, 0, 1, 0, 0x2b, 0, 0, 0, 0, 0, 0, 0, 0,
    0, 0, 0, 0, 0, 0, 0, 0, 0x61, 0, 0, 0x2e, 0x73, 0x79, 0x6d, 0x74, 0x61, 0x62, 0, 0x2e, 0x73,
    0x74, 0x72, 0x74, 0x61, 0x62, 0, 0x2e, 0x73, 0x68, 0x73, 0x74, 0x72, 0x74, 0x61, 0x62, 0, 0, 0,
    0, 0, 0, 0, 0, 0, 0, 0, 0, 0, 0, 0, 0, 0, 0, 0, 0, 0, 0, 0, 0, 0, 0, 0, 0, 0, 0, 0, 0, 0, 0, 0,
    0, 0, 0, 0, 0, 0, 0, 0, 0, 0, 0, 0, 0, 0, 0, 0, 0, 0, 0, 0, 0, 0, 0, 0, 0, 0, 0, 0, 0, 0, 1, 0,
    0, 0, 2, 0, 0, 0, 0, 0, 0, 0, 0, 0, 0, 0, 0, 0, 0, 0, 0, 0, 0, 0, 0x40, 0, 0, 0, 0, 0, 0, 0,
    0x28, 2, 0, 0, 0, 0, 0, 0, 2, 0, 0, 0, 0, 0, 0, 0, 1, 0, 0, 0, 0, 0, 0, 0, 0, 0, 0, 0, 0, 0, 0,
    0, 9, 0, 0, 0, 3, 0, 0, 0, 0, 0, 0, 0, 0, 0, 0, 0, 0, 0, 0, 0, 0, 0, 0, 0, 0x68, 2, 0, 0, 0, 0,
    0, 0, 3, 0, 0, 0, 0, 0, 0, 0, 0, 0, 0, 0, 0, 0, 0, 0, 1, 0, 0, 0, 0, 0, 0, 0, 0, 0, 0, 0, 0, 0,
    0, 0, 0x11, 0, 0, 0, 3, 0, 0, 0, 0, 0, 0, 0, 0, 0, 0, 0, 0, 0, 0, 0, 0, 0, 0, 0, 0x6b, 2, 0, 0,
    0, 0, 0, 0, 0x1b, 0, 0, 0, 0, 0, 0, 0, 0, 0, 0, 0, 0, 0, 0, 0, 1, 0, 0, 0, 0, 0, 0, 0, 0, 0, 0,
    0, 0, 0, 0, 0,
];

// The file, by a parse whose growth may be refused, and then by another one.
fn parsed(alloc: Global) -> Result<ElfFile, LoaderError> {
    let bytes = EndianBytes::new(Bytes::from_static(&FILE), RunTimeEndian::Little);
    match ElfFile::parse(alloc, bytes) {
        Err(LoaderError::OutOfMemory) => {
            let bytes = EndianBytes::new(Bytes::from_static(&FILE), RunTimeEndian::Little);
            ElfFile::parse(alloc, bytes)
        }
        answer => answer,
    }
}

// The strings of the file, by a call whose growth may be refused, and then by another one.
fn strings(file: &ElfFile) -> u64 {
    match file.section(".strtab") {
        Err(LoaderError::OutOfMemory) => section_number(file, ".strtab"),
        Ok(bytes) => digits(EMPTY, bytes.to_slice()),
        Err(error) => refusal(error),
    }
}

// The symbols at two addresses, and the strings.
fn numbers(file: &ElfFile) -> [u64; 5] {
    let [first, lowest] = symbol_numbers(file.symbol(0x2b));
    let [second, middle] = symbol_numbers(file.symbol(0x30));
    [first, lowest, second, middle, strings(file)]
}

const NUMBERS: [u64; 5] = [0x61, 0x2b, 0x61, 0x30, 0x1_006100];

// The same of a file that may be refused.
fn numbers_of(answer: Result<ElfFile, LoaderError>) -> [u64; 5] {
    match answer {
        Ok(file) => numbers(&file),
        Err(error) => [refusal(error), 0, 0, 0, 0],
    }
}

// With each growth of the calls refused in turn the calls after it are right.
#[test]
fn a_refused_growth_is_answered_and_the_next_call_is_right(rt: HostRuntime) {
    assert_eq!(rt; numbers_of(parsed(rt.alloc())), NUMBERS);
}

// The strings of a file of shared bytes, by one call, and its numbers.
fn ample(alloc: Global) -> Option<(u64, [u64; 5])> {
    let bytes = Bytes::copy_from_slice(alloc, &FILE).ok()?;
    let file = ElfFile::parse(alloc, EndianBytes::new(bytes, RunTimeEndian::Little)).ok()?;
    Some((section_number(&file, ".strtab"), numbers(&file)))
}

#[test]
fn with_ample_memory_all_is_read(rt: HostRuntime) {
    assert_eq!(rt; ample(rt.alloc()), Some((0x1_006100, NUMBERS)));
}

// The numbers of a file of shared bytes, or its refusal.
fn shared_numbers(alloc: Global) -> [u64; 5] {
    match Bytes::copy_from_slice(alloc, &FILE) {
        Ok(bytes) => numbers_of(ElfFile::parse(
            alloc,
            EndianBytes::new(bytes, RunTimeEndian::Little),
        )),
        Err(_) => OUT_OF_MEMORY,
    }
}

const OUT_OF_MEMORY: [u64; 5] = [28, 0, 0, 0, 0];

// A file of shared bytes: a refused section leaves it as it was.
#[test]
fn a_refused_growth_leaves_the_file(rt: HostRuntime) {
    let found = shared_numbers(rt.alloc());
    assert!(rt; found == NUMBERS || found == OUT_OF_MEMORY);
}
