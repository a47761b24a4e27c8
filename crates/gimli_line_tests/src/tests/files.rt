//! Files and directories of programs.

use super::opcodes::{USUAL, program};
use super::{PLAIN, PLAIN5, code_of, shared, text_code};
use gimli_line::{LineProgramHeader, LineRows, read_line_program};
use gimli_read::{EndianSlice, Error, Reader, RunTimeEndian};
use std::alloc::{AllocError, Global};

// A file: its path, its directory's index and the directory; 9 where there is no such file.
fn file_code<R: Reader>(header: &LineProgramHeader<R>, index: u64) -> [u64; 3] {
    let Some(file) = header.file(index) else {
        return [9, 9, 9];
    };
    let directory = match file.directory(header) {
        Ok(None) => 9,
        Ok(Some(directory)) => text_code(Ok(directory)),
        Err(error) => code_of(error),
    };
    [
        text_code(file.path_name()),
        file.directory_index(),
        directory,
    ]
}

// The version of a program, its number of files, and the files of three indexes.
fn files_code<R: Reader>(rows: &LineRows<R>) -> [[u64; 3]; 4] {
    let header = rows.header();
    let head = [
        u64::from(header.version()),
        header.file_names().len() as u64,
        0,
    ];
    [
        head,
        file_code(header, 0),
        file_code(header, 1),
        file_code(header, 2),
    ]
}

// What is said of the files at once, and after each of the next two rows.
type Files = [[[u64; 3]; 4]; 3];

// A fault in place of all that is said.
fn refused(error: Error) -> Files {
    [[[code_of(error), 0, 0]; 4]; 3]
}

fn rows_files<R: Reader>(rows: &mut LineRows<R>) -> Result<Files, Error> {
    let first = files_code(rows);
    rows.next_row()?;
    let second = files_code(rows);
    rows.next_row()?;
    Ok([first, second, files_code(rows)])
}

fn program_files<R: Reader>(alloc: Global, input: Result<R, AllocError>) -> Files {
    let Ok(input) = input else {
        return refused(Error::OutOfMemory);
    };
    match read_line_program(alloc, input, 8) {
        Ok(program) => match program.rows() {
            Ok(mut rows) => rows_files(&mut rows).unwrap_or_else(refused),
            Err(error) => refused(error),
        },
        Err(error) => refused(error),
    }
}

// The files of a program over both readers.
fn both_files(alloc: Global, bytes: &[u8]) -> [Files; 2] {
    let little = RunTimeEndian::Little;
    [
        program_files(alloc, Ok(EndianSlice::new(bytes, little))),
        program_files(alloc, shared(alloc, bytes, little)),
    ]
}

// The files of a program of opcodes.
fn opcode_files(alloc: Global, opcodes: &[u8]) -> Files {
    let little = RunTimeEndian::Little;
    match program(alloc, little, USUAL, opcodes) {
        Ok(bytes) => program_files(alloc, Ok(EndianSlice::new(&bytes, little))),
        Err(_) => refused(Error::OutOfMemory),
    }
}

#[test]
fn files_have_a_path_and_a_directory(rt: HostRuntime) {
    let none = [9, 9, 9];
    // From 1 below version 5, where directory 0 is the unit's own.
    let plain = [[4, 1, 0], none, [100, 0, 9], none];
    let plain5 = [[5, 1, 0], [100, 0, 102], none, none];
    let cases: [(&[u8], [[u64; 3]; 4]); 2] = [(&PLAIN, plain), (&PLAIN5, plain5)];
    for (bytes, want) in cases {
        assert_eq!(rt; both_files(rt.alloc(), bytes), [[want; 3]; 2]);
    }
    // A file that is defined follows those of the table, from the next row on.
    let before = [[4, 0, 0], none, none, none];
    let after = [[4, 1, 0], none, [103, 2, 9], none];
    let found = opcode_files(rt.alloc(), &[1, 0, 6, 3, 0x62, 0, 2, 0, 0, 1]);
    assert_eq!(rt; found, [before, before, after]);
}
