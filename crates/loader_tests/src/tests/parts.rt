//! Files of which a loader reads the parts that lookups ask for.

use super::sources::by_parts;
use super::symbols::symbol_at;
use super::{
    H, MAIN, PLAIN, SPLIT, fault_code, files_of, plain_file, split_files, text_of, told, told_in,
};
use addr2line::{FileSource, LoaderError, LoaderOver, MemoryFiles};
use addr2line_lines_tests::vectors::{ABBREV, INFO, LINE, MAIN_INFO, SPLIT_ABBREV, SPLIT_INFO};
use elf_writer::{SHAPES, Section, elf_file, named_symbol, plain, symbol_tables};
use std::alloc::{AllocError, Global};

const SHT_SYMTAB: u32 = 2;

// Bytes that no lookup asks for, between two parts.
const APART: usize = 0x12000;

// A file whose sections of debug information, and whose symbols, stand apart.
fn file_apart(alloc: Global) -> Result<Vec<u8>, AllocError> {
    let apart = Vec::from_elem(alloc, 0x90u8, APART)?;
    let tables = symbol_tables(alloc, SHAPES[0], &[named_symbol(b"a", 0x02, 0x10, 0x10)])?;
    let text = Section {
        address: 0x10,
        ..plain(".text", &apart)
    };
    let symtab = Section {
        kind: SHT_SYMTAB,
        link: 8,
        ..plain(".symtab", &tables.symbols)
    };
    elf_file(
        alloc,
        SHAPES[0],
        &[
            text,
            plain(".debug_abbrev", &ABBREV),
            plain(".data", &apart),
            plain(".debug_info", &INFO),
            plain(".debug_loc", &apart),
            plain(".debug_line", &LINE),
            symtab,
            plain(".strtab", &tables.strings),
        ],
    )
}

// A main file, by what it is.
#[derive(Clone, Copy)]
enum Main {
    Apart,
    Plain,
    Bytes(&'static [u8]),
}

fn main_bytes(alloc: Global, main: Main) -> Result<Vec<u8>, AllocError> {
    match main {
        Main::Apart => file_apart(alloc),
        Main::Plain => plain_file(alloc),
        Main::Bytes(bytes) => Vec::from_slice(alloc, bytes),
    }
}

fn files_with(alloc: Global, main: Main) -> Result<MemoryFiles, AllocError> {
    files_of(alloc, main_bytes(alloc, main)?)
}

// The addresses of `.text` and the line at 0x20, what stands at 0x18, and the symbol there; or a
// fault's number.
fn answers<F: FileSource>(
    alloc: Global,
    loader: Result<LoaderOver<F>, LoaderError>,
) -> [[u64; 3]; 3] {
    match loader {
        Ok(loader) => {
            let mut loader = loader;
            let text = text_of(&mut loader);
            let [name, line] = told(alloc, &mut loader);
            [text, [name, line, 0], symbol_at(&loader, 0x18)]
        }
        Err(error) => [[fault_code(error), 1, 0]; 3],
    }
}

// The answers of files.
fn answers_in<F: FileSource>(alloc: Global, files: Result<F, AllocError>) -> [[u64; 3]; 3] {
    match files {
        Ok(files) => answers(alloc, LoaderOver::over(alloc, files, MAIN, Some(PLAIN))),
        Err(_) => [[28, 2, 0]; 3],
    }
}

// The answers of a main file that is read whole and by parts.
fn answers_of(alloc: Global, main: Main) -> [[[u64; 3]; 3]; 2] {
    [
        answers_in(alloc, files_with(alloc, main)),
        answers_in(alloc, by_parts(files_with(alloc, main))),
    ]
}

#[test]
fn parts_answer_as_the_whole_file(rt: HostRuntime) {
    let cases = [
        Main::Apart,
        Main::Plain,
        Main::Bytes(b""),
        Main::Bytes(b"\x7fELF"),
        Main::Bytes(b"no ELF file, but one that has more bytes than the header of any has"),
    ];
    for main in cases {
        let found = answers_of(rt.alloc(), main);
        assert_eq!(rt; found[1], found[0]);
    }
}

#[test]
fn parts_of_a_file_apart_are_found(rt: HostRuntime) {
    let found = answers_of(rt.alloc(), Main::Apart);
    assert_eq!(rt; found[1][2], [0x61, 0x61, 0x10]);
    assert_eq!(rt; found[1][0], [0x10, 0x12010, 3]);
}

// A split file whose sections stand apart.
fn split_apart(alloc: Global) -> Result<Vec<u8>, AllocError> {
    let apart = Vec::from_elem(alloc, 0x90u8, APART)?;
    elf_file(
        alloc,
        SHAPES[0],
        &[
            plain(".text", &apart),
            plain(".debug_abbrev.dwo", SPLIT_ABBREV),
            plain(".data", &apart),
            plain(".debug_info.dwo", SPLIT_INFO),
            plain(".debug_loc.dwo", &apart),
        ],
    )
}

fn split_apart_files(alloc: Global) -> Result<MemoryFiles, AllocError> {
    let mut files = split_files(alloc, MAIN_INFO, SPLIT, None)?;
    files.put(SPLIT, split_apart(alloc)?.as_slice())?;
    Ok(files)
}

// What loaders find at 0x18, read whole and by parts.
fn told_apart(alloc: Global) -> [[[u64; 2]; 2]; 2] {
    [
        told_in(alloc, split_apart_files(alloc), None),
        told_in(alloc, by_parts(split_apart_files(alloc)), None),
    ]
}

#[test]
fn parts_of_a_split_file_apart_are_found(rt: HostRuntime) {
    assert_eq!(rt; told_apart(rt.alloc()), [[H; 2]; 2]);
}
