//! What a loader says of symbols.

use super::sources::by_parts;
use super::{MAIN, fault_code, letter};
use addr2line::{FileSource, LoaderOver, MemoryFiles};
use elf_writer::{SHAPES, Section, elf_file, named_symbol, plain, symbol_tables};
use std::alloc::{AllocError, Global};

const SHT_SYMTAB: u32 = 2;

// A file of `.text` at 0x10, and three symbols there.
fn symbols_file(alloc: Global) -> Result<Vec<u8>, AllocError> {
    let symbols = [
        named_symbol(b"a", 0x02, 0x10, 0x10),
        named_symbol(b"b", 0x12, 0x10, 8),
        named_symbol(b"c", 0x10, 0x10, 0),
    ];
    let tables = symbol_tables(alloc, SHAPES[0], &symbols)?;
    let text = Section {
        address: 0x10,
        ..plain(".text", &[0x90; 0x20])
    };
    let symtab = Section {
        kind: SHT_SYMTAB,
        link: 3,
        ..plain(".symtab", &tables.symbols)
    };
    let sections = [text, symtab, plain(".strtab", &tables.strings)];
    elf_file(alloc, SHAPES[0], &sections)
}

fn symbols_files(alloc: Global) -> Result<MemoryFiles, AllocError> {
    let mut files = MemoryFiles::new(alloc);
    files.put(MAIN, symbols_file(alloc)?.as_slice())?;
    Ok(files)
}

// The name of the symbol of an address, alone and beside its own address.
pub(super) fn symbol_at<F: FileSource>(loader: &LoaderOver<F>, probe: u64) -> [u64; 3] {
    let name = loader.find_symbol(probe).map_or(0, |name| letter(name));
    match loader.find_symbol_info(probe) {
        Some(symbol) => [name, letter(symbol.name()), symbol.address()],
        None => [name, 0, 0],
    }
}

// The base address, and the symbols of two addresses, or a fault's number.
fn symbols_in<F: FileSource>(alloc: Global, files: Result<F, AllocError>) -> [[u64; 3]; 3] {
    let Ok(files) = files else {
        return [[28, 2, 0]; 3];
    };
    match LoaderOver::over(alloc, files, MAIN, None) {
        Ok(loader) => [
            [loader.relative_address_base(), 0, 0],
            symbol_at(&loader, 0x12),
            symbol_at(&loader, 0x18),
        ],
        Err(error) => [[fault_code(error), 1, 0]; 3],
    }
}

// The same of files that are read whole and by parts.
fn symbols_told(alloc: Global) -> [[[u64; 3]; 3]; 2] {
    [
        symbols_in(alloc, symbols_files(alloc)),
        symbols_in(alloc, by_parts(symbols_files(alloc))),
    ]
}

#[test]
fn the_symbol_of_an_address_is_told(rt: HostRuntime) {
    let want = [[0; 3], [0x62, 0x62, 0x10], [0; 3]];
    assert_eq!(rt; symbols_told(rt.alloc()), [want; 2]);
}
