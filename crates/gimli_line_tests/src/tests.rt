//! Answers as plain numbers, and the programs that several tests read.

mod files;
mod growths;
mod opcodes;
mod programs;

use bytes::Bytes;
use gimli_line::{LineRow, LineRows, read_line_program};
use gimli_read::{AttributeValue, EndianBytes, EndianSlice, Error, Reader, RunTimeEndian};
use std::alloc::{AllocError, Global};

// One file a.c, version 4, address size 8.
const PLAIN: [u8; 55] = [
    0x33, 0, 0, 0, 4, 0, 0x1b, 0, 0, 0, 1, 1, 1, 0xfb, 0x0e, 0x0d, 0, 1, 1, 1, 1, 0, 0, 0, 1, 0, 0,
    1, 0, 0x61, 0x2e, 0x63, 0, 0, 0, 0, 0, 0, 9, 2, 0x10, 0, 0, 0, 0, 0, 0, 0, 1, 0xf4, 2, 0x10, 0,
    1, 1,
];

// The same in version 5, with the directory /w.
const PLAIN5: [u8; 68] = [
    0x40, 0, 0, 0, 5, 0, 8, 0, 0x24, 0, 0, 0, 1, 1, 1, 0xfb, 0x0e, 0x0d, 0, 1, 1, 1, 1, 0, 0, 0, 1,
    0, 0, 1, 1, 1, 8, 1, 0x2f, 0x77, 0, 2, 1, 8, 2, 0x0b, 1, 0x61, 0x2e, 0x63, 0, 0, 0, 9, 2, 0x10,
    0, 0, 0, 0, 0, 0, 0, 4, 0, 1, 0xf4, 2, 0x10, 0, 1, 1,
];

// An answer of `next_row`: address, file, line, column, and what it is.
type Answer = [u64; 5];

// What an answer is.
const ROW: u64 = 0;

const END: u64 = 1;

const DROPPED_END: u64 = 2;

const NONE: u64 = 3;

const FAULT: u64 = 4;

// As many answers as the longest of these programs gives, and two more.
type Answers = [Answer; 9];

// A row of file 1 at column 0.
fn at(address: u64, line: u64) -> Answer {
    [address, 1, line, 0, ROW]
}

// The row that ends a sequence there.
fn end(address: u64, line: u64) -> Answer {
    [address, 1, line, 0, END]
}

// The same of another file.
fn of_file(answer: Answer, file: u64) -> Answer {
    [answer[0], file, answer[2], answer[3], answer[4]]
}

// A fault, by its number.
fn fault(code: u64) -> Answer {
    [code, 0, 0, 0, FAULT]
}

// These answers, and then none for ever.
fn answers(first: &[Answer]) -> Answers {
    let mut all = [[0, 0, 0, 0, NONE]; 9];
    for (to, from) in all.iter_mut().zip(first) {
        *to = *from;
    }
    all
}

// The number of a refusal.
fn code_of(error: Error) -> u64 {
    match error {
        Error::OutOfMemory => 1,
        Error::UnexpectedEof => 2,
        Error::UnknownVersion => 5,
        Error::UnsupportedAddressSize => 7,
        Error::UnsupportedSegmentSize => 8,
        Error::UnknownForm => 11,
        Error::BadLineHeader => 18,
        Error::AddressOverflow => 19,
        _ => 99,
    }
}

fn row_code(row: LineRow) -> Answer {
    let kind = match (row.end_sequence, row.dropped) {
        (false, false) => ROW,
        (true, false) => END,
        (true, true) => DROPPED_END,
        (false, true) => 9,
    };
    [row.address, row.file_index, row.line, row.column, kind]
}

// The next answers of rows.
fn next_answers<R: Reader>(rows: &mut LineRows<R>) -> Answers {
    let mut all = answers(&[]);
    for answer in &mut all {
        *answer = match rows.next_row() {
            Ok(Some(row)) => row_code(row),
            Ok(None) => [0, 0, 0, 0, NONE],
            Err(error) => fault(code_of(error)),
        };
    }
    all
}

// The answers of a program; where its header is refused, that fault alone.
fn program_answers<R: Reader>(alloc: Global, input: R, address_size: u8) -> Answers {
    match read_line_program(alloc, input, address_size) {
        Ok(program) => match program.rows() {
            Ok(mut rows) => next_answers(&mut rows),
            Err(error) => answers(&[fault(code_of(error))]),
        },
        Err(error) => answers(&[fault(code_of(error))]),
    }
}

fn shared(alloc: Global, bytes: &[u8], order: RunTimeEndian) -> Result<EndianBytes, AllocError> {
    Ok(EndianBytes::new(Bytes::copy_from_slice(alloc, bytes)?, order))
}

// The answers of a program over borrowed and over shared bytes; of these the fault where they can't
// be had.
fn both_answers(alloc: Global, bytes: &[u8], order: RunTimeEndian, size: u8) -> [Answers; 2] {
    let borrowed = program_answers(alloc, EndianSlice::new(bytes, order), size);
    let counted = match shared(alloc, bytes, order) {
        Ok(input) => program_answers(alloc, input, size),
        Err(_) => answers(&[fault(code_of(Error::OutOfMemory))]),
    };
    [borrowed, counted]
}

// A text, by the number of the one that it is: 0 for another value.
fn text_code<R: Reader>(value: Result<AttributeValue<R>, Error>) -> u64 {
    match value {
        Ok(AttributeValue::String(text)) => match text.to_slice() {
            b"a.c" => 100,
            b"b.c" => 101,
            b"/w" => 102,
            _ => 103,
        },
        Ok(_) => 0,
        Err(error) => code_of(error),
    }
}
