//! Answers as numbers.

use bytes::Bytes;
use elf::{ElfFile, LoaderError, Symbol};
use gimli_read::{EndianBytes, Range, Reader, RunTimeEndian};
use std::alloc::Global;

/// A section without bytes.
pub(crate) const EMPTY: u64 = 1;

/// The file that the bytes are, by a reader of that byte order.
pub(crate) fn open_as(
    alloc: Global,
    bytes: &[u8],
    endian: RunTimeEndian,
) -> Result<ElfFile, LoaderError> {
    let bytes = Bytes::copy_from_slice(alloc, bytes)?;
    ElfFile::parse(alloc, EndianBytes::new(bytes, endian))
}

/// The file that the bytes are.
pub(crate) fn open(alloc: Global, bytes: &[u8]) -> Result<ElfFile, LoaderError> {
    open_as(alloc, bytes, RunTimeEndian::Little)
}

/// The bytes as the digits of a number in base 256, after those of `front`.
pub(crate) fn digits(front: u64, bytes: &[u8]) -> u64 {
    let mut number = front;
    for byte in bytes {
        number = number.wrapping_mul(256).wrapping_add(u64::from(*byte));
    }
    number
}

/// A refusal, by its place in the list of all.
pub(crate) fn refusal(error: LoaderError) -> u64 {
    match error {
        LoaderError::Io => 21,
        LoaderError::NotElf => 22,
        LoaderError::BadElf => 23,
        LoaderError::CompressedSection => 24,
        LoaderError::RelocationsNeeded => 25,
        LoaderError::PathNotUtf8 => 26,
        LoaderError::Dwarf(_) => 27,
        LoaderError::OutOfMemory => 28,
    }
}

/// The bytes of a section after a 1, or its refusal.
pub(crate) fn section_number(file: &ElfFile, name: &str) -> u64 {
    match file.section(name) {
        Ok(bytes) => digits(EMPTY, bytes.to_slice()),
        Err(error) => refusal(error),
    }
}

/// The byte order of a section: 1 for little, 2 for big, 0 for a refusal.
pub(crate) fn order_number(file: &ElfFile, name: &str) -> u64 {
    match file.section(name) {
        Ok(bytes) => match bytes.endian() {
            RunTimeEndian::Little => 1,
            RunTimeEndian::Big => 2,
        },
        Err(_) => 0,
    }
}

/// The bounds of a range; two zeros for none.
pub(crate) fn bounds(range: Option<Range>) -> [u64; 2] {
    match range {
        Some(range) => [range.begin, range.end],
        None => [0, 0],
    }
}

/// The name of a symbol as digits, and its address; two zeros for none.
pub(crate) fn symbol_numbers(symbol: Option<Symbol<'_>>) -> [u64; 2] {
    match symbol {
        Some(symbol) => [digits(0, symbol.name().as_bytes()), symbol.address()],
        None => [0, 0],
    }
}
