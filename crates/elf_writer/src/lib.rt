//! Writes ELF files, for tests and stored runs (System V ABI, Object Files).
//!
//! A file is its header, the sections' bytes, the table of their names, and the section headers. No
//! clause says what is written: tests read it back, and a stored run compares it.
#![tactic(auto)]

ghost use Rattle.std.specs.Prelude.{◌≤◌};

use std::alloc::{AllocError, Global};

const HALF_SIZE: usize = 2;

const WORD_SIZE: usize = 4;

const SHT_PROGBITS: u32 = 1;

const SHT_STRTAB: u32 = 3;

const ET_EXEC: u16 = 2;

const EM_X86_64: u64 = 62;

/// The class and byte order of a file, and its e_type.
#[derive(Clone, Copy)]
pub struct Shape {
    pub is_64: bool,
    pub is_big: bool,
    pub e_type: u16,
}

/// Each class in each byte order, as a program that was linked.
pub const SHAPES: [Shape; 4] = [
    Shape {
        is_64: true,
        is_big: false,
        e_type: ET_EXEC,
    },
    Shape {
        is_64: true,
        is_big: true,
        e_type: ET_EXEC,
    },
    Shape {
        is_64: false,
        is_big: false,
        e_type: ET_EXEC,
    },
    Shape {
        is_64: false,
        is_big: true,
        e_type: ET_EXEC,
    },
];

/// A section to be written.
#[derive(Clone, Copy)]
pub struct Section<'a> {
    pub name: &'a str,
    pub kind: u32,
    pub flags: u64,
    pub address: u64,
    pub link: u32,
    pub info: u32,
    pub bytes: &'a [u8],
}

/// A section of plain bytes (PROGBITS).
pub fn plain<'a>(name: &'a str, bytes: &'a [u8]) -> Section<'a> {
    Section {
        name,
        kind: SHT_PROGBITS,
        flags: 0,
        address: 0,
        link: 0,
        info: 0,
        bytes,
    }
}

/// A symbol to be written.
#[derive(Clone, Copy)]
pub struct Symbol<'a> {
    pub name: &'a [u8],
    pub info: u8,
    pub section: u16,
    pub address: u64,
    pub size: u64,
}

/// A symbol of section 1.
pub fn named_symbol(name: &[u8], info: u8, address: u64, size: u64) -> Symbol<'_> {
    Symbol {
        name,
        info,
        section: 1,
        address,
        size,
    }
}

// A number of `size` bytes.
fn put(out: &mut Vec<u8>, shape: Shape, number: u64, size: usize) -> Result<(), AllocError>
    requires fits { size ≤ 8 }
{
    if shape.is_big {
        let bytes = number.to_be_bytes();
        out.extend_from_slice(&bytes[8 - size..])
    } else {
        let bytes = number.to_le_bytes();
        out.extend_from_slice(&bytes[..size])
    }
}

// An address, an offset or a size, as wide as an address of the class.
fn put_wide(out: &mut Vec<u8>, shape: Shape, number: u64) -> Result<(), AllocError> {
    put(out, shape, number, if shape.is_64 { 8 } else { 4 })
}

// A section header: its name's place, its bytes' place and size, and the rest.
fn put_section(
    out: &mut Vec<u8>,
    shape: Shape,
    name: usize,
    offset: usize,
    size: usize,
    section: &Section<'_>,
) -> Result<(), AllocError> {
    put(out, shape, name as u64, WORD_SIZE)?;
    put(out, shape, u64::from(section.kind), WORD_SIZE)?;
    put_wide(out, shape, section.flags)?;
    put_wide(out, shape, section.address)?;
    put_wide(out, shape, offset as u64)?;
    put_wide(out, shape, size as u64)?;
    put(out, shape, u64::from(section.link), WORD_SIZE)?;
    put(out, shape, u64::from(section.info), WORD_SIZE)?;
    put_wide(out, shape, 1)?;
    put_wide(out, shape, 0)
}

// The file's header: the place of the section headers, their count, and which has the names.
fn put_file(
    out: &mut Vec<u8>,
    shape: Shape,
    sections_at: usize,
    names: usize,
) -> Result<(), AllocError> {
    out.extend_from_slice(b"\x7fELF")?;
    put(out, shape, if shape.is_64 { 2 } else { 1 }, 1)?;
    out.push(if shape.is_big { 2 } else { 1 })?;
    out.push(1)?;
    out.extend_from_slice(&[0; 9])?;
    put(out, shape, u64::from(shape.e_type), HALF_SIZE)?;
    put(out, shape, EM_X86_64, HALF_SIZE)?;
    put(out, shape, 1, WORD_SIZE)?;
    put_wide(out, shape, 0)?;
    put_wide(out, shape, 0)?;
    put_wide(out, shape, sections_at as u64)?;
    put(out, shape, 0, WORD_SIZE)?;
    put(out, shape, if shape.is_64 { 64 } else { 52 }, HALF_SIZE)?;
    put(out, shape, 0, WORD_SIZE)?;
    put(out, shape, if shape.is_64 { 64 } else { 40 }, HALF_SIZE)?;
    put(out, shape, (names as u64).saturating_add(1), HALF_SIZE)?;
    put(out, shape, names as u64, HALF_SIZE)
}

/// A file of these sections, and of the table of their names after them. Refused `AllocError`.
pub fn elf_file(
    alloc: Global,
    shape: Shape,
    sections: &[Section<'_>],
) -> Result<Vec<u8>, AllocError> {
    let start: usize = if shape.is_64 { 64 } else { 52 };
    let mut body = Vec::new(alloc);
    let mut headers = Vec::new(alloc);
    let mut names = Vec::new(alloc);
    names.push(0)?;
    // Section 0 is all zeros.
    let header_size: usize = if shape.is_64 { 64 } else { 40 };
    headers.extend_from_slice(&[0; 64][..header_size])?;
    for section in sections {
        let offset = start.saturating_add(body.len());
        put_section(
            &mut headers,
            shape,
            names.len(),
            offset,
            section.bytes.len(),
            section,
        )?;
        names.extend_from_slice(section.name.as_bytes())?;
        names.push(0)?;
        body.extend_from_slice(section.bytes)?;
    }
    let table = Section {
        kind: SHT_STRTAB,
        ..plain("", &[])
    };
    let name = names.len();
    names.extend_from_slice(b".shstrtab\0")?;
    let offset = start.saturating_add(body.len());
    put_section(&mut headers, shape, name, offset, names.len(), &table)?;
    body.extend_from_slice(&names)?;
    let mut file = Vec::new(alloc);
    put_file(
        &mut file,
        shape,
        start.saturating_add(body.len()),
        sections.len().saturating_add(1),
    )?;
    file.extend_from_slice(&body)?;
    file.extend_from_slice(&headers)?;
    Ok(file)
}

/// A symbol table and the table of its names.
#[derive(Drop)]
pub struct SymbolTables {
    pub symbols: Vec<u8>,
    pub strings: Vec<u8>,
}

/// The tables of these symbols, the null symbol first. Refused `AllocError`.
pub fn symbol_tables(
    alloc: Global,
    shape: Shape,
    symbols: &[Symbol<'_>],
) -> Result<SymbolTables, AllocError> {
    let mut entries = Vec::new(alloc);
    let mut strings = Vec::new(alloc);
    strings.push(0)?;
    let none = Symbol {
        section: 0,
        ..named_symbol(b"", 0, 0, 0)
    };
    put_symbol(&mut entries, shape, 0, &none)?;
    for symbol in symbols {
        put_symbol(&mut entries, shape, strings.len(), symbol)?;
        strings.extend_from_slice(symbol.name)?;
        strings.push(0)?;
    }
    Ok(SymbolTables {
        symbols: entries,
        strings,
    })
}

// An entry of a symbol table.
fn put_symbol(
    out: &mut Vec<u8>,
    shape: Shape,
    name: usize,
    symbol: &Symbol<'_>,
) -> Result<(), AllocError> {
    put(out, shape, name as u64, WORD_SIZE)?;
    if !shape.is_64 {
        put(out, shape, symbol.address, WORD_SIZE)?;
        put(out, shape, symbol.size, WORD_SIZE)?;
    }
    out.push(symbol.info)?;
    out.push(0)?;
    put(out, shape, u64::from(symbol.section), HALF_SIZE)?;
    if shape.is_64 {
        put(out, shape, symbol.address, 8)?;
        put(out, shape, symbol.size, 8)?;
    }
    Ok(())
}
