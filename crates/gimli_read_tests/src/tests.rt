//! Worked numbers, texts, tables and values, over both readers.

mod forms;
mod growths;
mod numbers;
mod passing;
mod skipping;
mod tables;

use bytes::Bytes;
use gimli_read::{
    Abbreviations, AttributeSpecification, EndianBytes, EndianSlice, Error, Reader, RunTimeEndian,
};
use std::alloc::{AllocError, Global};

// An answer as a number: a fault stands past all numbers of 128 bits less a few.
const OOM: u128 = u128::MAX;

const EOF: u128 = u128::MAX - 1;

const LEB: u128 = u128::MAX - 2;

const LENGTH: u128 = u128::MAX - 3;

const SIZE: u128 = u128::MAX - 4;

const BAD: u128 = u128::MAX - 5;

const FORM: u128 = u128::MAX - 6;

const OTHER: u128 = u128::MAX - 7;

fn fault(error: Error) -> u128 {
    match error {
        Error::OutOfMemory => OOM,
        Error::UnexpectedEof => EOF,
        Error::BadLeb128 => LEB,
        Error::UnknownReservedLength => LENGTH,
        Error::UnsupportedAddressSize => SIZE,
        Error::BadAbbreviation => BAD,
        Error::UnknownForm => FORM,
        _ => OTHER,
    }
}

// Bytes as a number in base 256, after a 1 that keeps their number; of more than 14 bytes, their
// number alone.
fn spelled(bytes: &[u8]) -> u128 {
    if bytes.len() > 14 {
        return bytes.len() as u128;
    }
    let mut number = 1u128;
    for byte in bytes {
        number = number.wrapping_mul(256).wrapping_add(u128::from(*byte));
    }
    number
}

fn borrowed(bytes: &[u8], endian: RunTimeEndian) -> EndianSlice<'_> {
    EndianSlice::new(bytes, endian)
}

fn digit(byte: u8) -> u8 {
    match byte {
        b'0'..=b'9' => byte.wrapping_sub(b'0'),
        _ => byte.wrapping_sub(b'a').wrapping_add(10),
    }
}

// The bytes that a word spells in hexadecimal, at most twenty, and how many they are; `-` is none.
fn bytes(word: &str) -> ([u8; 20], usize) {
    let mut bytes = [0; 20];
    let mut len = 0;
    let mut high = None;
    for digit_byte in word.as_bytes() {
        match high {
            None => high = Some(digit(*digit_byte).wrapping_mul(16)),
            Some(high_digit) => {
                if let Some(byte) = bytes.get_mut(len) {
                    *byte = digit(*digit_byte).wrapping_add(high_digit);
                    len += 1;
                }
                high = None;
            }
        }
    }
    (bytes, len)
}

fn front(bytes: &[u8], len: usize) -> &[u8] {
    bytes.get(..len).unwrap_or(bytes)
}

// The first six words of a line, empty ones past its end.
fn words(line: &str) -> [&str; 6] {
    let mut words = line.split_whitespace();
    [
        words.next().unwrap_or(""),
        words.next().unwrap_or(""),
        words.next().unwrap_or(""),
        words.next().unwrap_or(""),
        words.next().unwrap_or(""),
        words.next().unwrap_or(""),
    ]
}

// The number that a word spells in hexadecimal.
fn number(word: &str) -> u64 {
    u64::from_str_radix(word, 16).unwrap_or(u64::MAX)
}

// What a word says: a fault by its name, or a number in hexadecimal.
fn answer(word: &str) -> u128 {
    match word {
        "eof" => EOF,
        "leb" => LEB,
        "length" => LENGTH,
        "size" => SIZE,
        "bad" => BAD,
        "form" => FORM,
        _ => u128::from(number(word)),
    }
}

// A reader that shares a copy of the bytes.
fn shared(alloc: Global, bytes: &[u8], endian: RunTimeEndian) -> Result<EndianBytes, AllocError> {
    Ok(EndianBytes::new(Bytes::copy_from_slice(alloc, bytes)?, endian))
}

// The bytes of an input as a text, or a refusal.
fn text<R: Reader>(alloc: Global, input: Result<R, AllocError>) -> u128 {
    let Ok(input) = input else {
        return OOM;
    };
    match input.to_string_lossy(alloc) {
        Ok(text) => spelled(text.as_bytes()),
        Err(error) => fault(error),
    }
}

// An attribute by the name call_line (0x59) of a form below 0x4000, as a table has it; 9 is its
// value in the table.
fn specification(alloc: Global, form: u64, constant: u8) -> Result<AttributeSpecification, Error> {
    let [low, high, ..] = form.wrapping_mul(2).to_le_bytes();
    let low = (low / 2) | 0x80;
    let with = [1, 0x11, 0, 0x59, low, high, constant, 0, 0, 0];
    let without = [1, 0x11, 0, 0x59, low, high, 0, 0, 0];
    let bytes = if form == 0x21 {
        with.as_slice()
    } else {
        without.as_slice()
    };
    let table = Abbreviations::parse(alloc, borrowed(bytes, RunTimeEndian::Little))?;
    match table.get(1).and_then(|it| it.attributes().first()) {
        Some(found) => Ok(*found),
        None => Err(Error::UnknownAbbreviation),
    }
}
