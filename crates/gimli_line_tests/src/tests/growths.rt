//! Growths that are refused: `rt try --test --fail-alloc N` refuses each in turn.

use super::{PLAIN5, answers, at, code_of, end, next_answers, row_code, shared, text_code};
use gimli_line::{LineProgramHeader, LineRows, read_line_program};
use gimli_read::{EndianSlice, Error, Reader, RunTimeEndian};
use std::alloc::Global;

// Version 4: the file a.c in the table, a row, the file b.c defined, a row, and the end.
const DEFINING: [u8; 52] = [
    0x30, 0, 0, 0, 4, 0, 0x1b, 0, 0, 0, 1, 1, 1, 0xfb, 0x0e, 0x0d, 0, 1, 1, 1, 1, 0, 0, 0, 1, 0, 0,
    1, 0, 0x61, 0x2e, 0x63, 0, 0, 0, 0, 0, 1, 0, 8, 3, 0x62, 0x2e, 0x63, 0, 0, 0, 0, 0x13, 0, 1, 1,
];

// What a reading is: right, out of memory, or wrong.
const RIGHT: u64 = 0;

const OUT_OF_MEMORY: u64 = 1;

const WRONG: u64 = 2;

// The path of a file, 0 where there is none: the second answer where the first was refused.
fn path_code<R: Reader>(header: &LineProgramHeader<R>, index: u64) -> u64 {
    match header.file(index) {
        None => 0,
        Some(file) => match text_code(file.path_name()) {
            1 => text_code(file.path_name()),
            code => code,
        },
    }
}

// The rows after the first, where the second is refused: none, and the file isn't there.
fn refused_code<R: Reader>(rows: &mut LineRows<R>) -> u64 {
    let after = next_answers(rows);
    let files = [path_code(rows.header(), 1), path_code(rows.header(), 2)];
    if after == answers(&[]) && files == [100, 0] {
        OUT_OF_MEMORY
    } else {
        WRONG
    }
}

// The rows of the program that defines a file. The first takes no memory, the second the file's.
fn rows_code<R: Reader>(rows: &mut LineRows<R>) -> u64 {
    match rows.next_row() {
        Ok(Some(row)) => {
            if row_code(row) != at(0, 1) {
                return WRONG;
            }
        }
        _ => return WRONG,
    }
    match rows.next_row() {
        Err(Error::OutOfMemory) => return refused_code(rows),
        Ok(Some(row)) => {
            if row_code(row) != at(0, 2) {
                return WRONG;
            }
        }
        _ => return WRONG,
    }
    let rest = next_answers(rows);
    let files = [path_code(rows.header(), 1), path_code(rows.header(), 2)];
    if rest == answers(&[end(0, 2)]) && files == [100, 101] {
        RIGHT
    } else {
        WRONG
    }
}

// The program that defines a file; its rows are asked for again where they are refused.
fn defining_code<R: Reader>(alloc: Global, input: R) -> u64 {
    let program = match read_line_program(alloc, input, 8) {
        Ok(program) => program,
        Err(error) => return code_of(error),
    };
    match program.rows() {
        Ok(mut rows) => rows_code(&mut rows),
        Err(Error::OutOfMemory) => {
            if program.rows().is_ok() {
                OUT_OF_MEMORY
            } else {
                WRONG
            }
        }
        Err(_) => WRONG,
    }
}

// The directory of the one file of `PLAIN5`.
fn directory_code<R: Reader>(header: &LineProgramHeader<R>) -> u64 {
    match header.file(0) {
        None => WRONG,
        Some(file) => match file.directory(header) {
            Ok(Some(directory)) => text_code(Ok(directory)),
            Ok(None) => WRONG,
            Err(error) => code_of(error),
        },
    }
}

// The one file of `PLAIN5`, and its directory.
fn plain_code<R: Reader>(alloc: Global, input: R) -> u64 {
    let program = match read_line_program(alloc, input, 8) {
        Ok(program) => program,
        Err(error) => return code_of(error),
    };
    let header = program.header();
    match (path_code(header, 0), directory_code(header)) {
        (100, 102) => RIGHT,
        (100, 1) => OUT_OF_MEMORY,
        _ => WRONG,
    }
}

// Both over borrowed and shared bytes.
fn codes(alloc: Global) -> [u64; 4] {
    let order = RunTimeEndian::Little;
    let counted = match shared(alloc, &DEFINING, order) {
        Ok(input) => defining_code(alloc, input),
        Err(_) => OUT_OF_MEMORY,
    };
    let counted_plain = match shared(alloc, &PLAIN5, order) {
        Ok(input) => plain_code(alloc, input),
        Err(_) => OUT_OF_MEMORY,
    };
    [
        defining_code(alloc, EndianSlice::new(&DEFINING, order)),
        counted,
        plain_code(alloc, EndianSlice::new(&PLAIN5, order)),
        counted_plain,
    ]
}

#[test]
fn a_refused_growth_is_out_of_memory(rt: HostRuntime) {
    let right = codes(rt.alloc()).map(|code| code == RIGHT || code == OUT_OF_MEMORY);
    assert_eq!(rt; right, [true; 4]);
}

#[test]
fn with_ample_memory_no_growth_is_refused(rt: HostRuntime) {
    assert_eq!(rt; codes(rt.alloc()), [RIGHT; 4]);
}
