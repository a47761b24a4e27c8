//! Files of which parts are read: large ones, and small ones whose sections are made to cost much.

use crate::answers::{EMPTY, refusal, section_number};
use elf::{ElfFile, PartSource, read_wanted};
use std::alloc::{AllocError, Global};

const SHF_COMPRESSED: u64 = 0x800;

const SHT_PROGBITS: u64 = 1;

const SHT_STRTAB: u64 = 3;

const HEADER_SIZE: u64 = 64;

// A file of `len` bytes: the first ones, zeros, and others from a place on. Parts of more than
// `most` bytes can't be read, nor one that begins before the place and ends behind it.
#[derive(Drop)]
struct SparseFile {
    front: Vec<u8>,
    back_at: u64,
    back: Vec<u8>,
    len: u64,
    most: usize,
}

// The `len` bytes from a place of a text, behind which zeros stand.
fn padded(alloc: Global, text: &[u8], start: u64, len: usize) -> Result<Vec<u8>, AllocError> {
    let all = text.len();
    let begin = (start as usize).min(all);
    let end = begin.saturating_add(len).min(all);
    let mut bytes = Vec::from_slice(alloc, &text[begin..end])?;
    bytes.resize(len, 0)?;
    Ok(bytes)
}

impl PartSource for SparseFile {
    fn len(&self) -> u64 {
        self.len
    }

    fn part(&self, alloc: Global, start: u64, len: usize) -> Result<Option<Vec<u8>>, AllocError> {
        if len > self.most {
            return Ok(None);
        }
        if start >= self.back_at {
            let start = start.saturating_sub(self.back_at);
            return Ok(Some(padded(alloc, &self.back, start, len)?));
        }
        if start.saturating_add(len as u64) > self.back_at {
            return Ok(None);
        }
        Ok(Some(padded(alloc, &self.front, start, len)?))
    }
}

// Adds a number of `size` bytes.
fn put(out: &mut Vec<u8>, number: u64, size: usize) -> Result<(), AllocError> {
    out.extend_from_slice(&number.to_le_bytes()[..size.min(8)])
}

// Adds the header of a file with so many section headers from a place on; one has the names.
fn put_header(out: &mut Vec<u8>, start: u64, count: u64, names: u64) -> Result<(), AllocError> {
    out.extend_from_slice(b"\x7fELF\x02\x01\x01\0\0\0\0\0\0\0\0\0".as_slice())?;
    for (number, size) in [(2, 2), (62, 2), (1, 4), (0, 8), (0, 8), (start, 8), (0, 4)] {
        put(out, number, size)?;
    }
    for number in [64, 0, 0, 64, count, names] {
        put(out, number, 2)?;
    }
    Ok(())
}

// Adds a section header of 64 bits: name, type, flags, offset and size.
fn put_section(out: &mut Vec<u8>, fields: [u64; 5]) -> Result<(), AllocError> {
    let [name, kind, flags, offset, size] = fields;
    put(out, name, 4)?;
    put(out, kind, 4)?;
    for number in [flags, 0, offset, size, 0, 0, 0] {
        put(out, number, 8)?;
    }
    Ok(())
}

// What the names are followed by, as far as it is read.
const NAMES: &[u8] = b"\0.debug_info\0.debug_loclists\0";

const INFO_NAME: u64 = 1;

const LOCLISTS_NAME: u64 = 13;

// A file that begins with these bytes, behind which zeros stand.
fn begins_with(alloc: Global, front: Vec<u8>, len: u64, most: usize) -> SparseFile {
    SparseFile {
        front,
        back_at: u64::MAX,
        back: Vec::new(alloc),
        len,
        most,
    }
}

// A file with `count` sections `.debug_info` of a byte, each so many bytes behind the one before.
// The section headers stand behind them, so that each reading of one has to find the last piece.
fn many_sections(alloc: Global, count: u64, apart: u64) -> Result<SparseFile, AllocError> {
    let back_at = apart.saturating_mul(count.saturating_add(1));
    let names = back_at.saturating_add(count.saturating_add(1).saturating_mul(HEADER_SIZE));
    let mut front = Vec::new(alloc);
    put_header(&mut front, back_at, count.saturating_add(1), count)?;
    let mut back = Vec::new(alloc);
    for i in 0..count {
        let offset = apart.saturating_mul(i.saturating_add(1)).saturating_sub(1);
        put_section(&mut back, [INFO_NAME, SHT_PROGBITS, 0, offset, 1])?;
    }
    put_section(&mut back, [0, SHT_STRTAB, 0, names, NAMES.len() as u64])?;
    back.extend_from_slice(NAMES)?;
    Ok(SparseFile {
        front,
        back_at,
        len: back_at.saturating_add(back.len() as u64),
        back,
        most: usize::MAX,
    })
}

// A file of 100 GB, nearly all of which is a compressed section that no lookup asks for.
fn large_section(alloc: Global) -> Result<SparseFile, AllocError> {
    let mut front = Vec::new(alloc);
    put_header(&mut front, HEADER_SIZE, 3, 2)?;
    put_section(&mut front, [INFO_NAME, SHT_PROGBITS, 0, 64, 1])?;
    put_section(
        &mut front,
        [LOCLISTS_NAME, SHT_PROGBITS, SHF_COMPRESSED, 4096, 100 << 30],
    )?;
    put_section(&mut front, [0, SHT_STRTAB, 0, 256, NAMES.len() as u64])?;
    front.extend_from_slice(NAMES)?;
    Ok(begins_with(alloc, front, 101 << 30, 4096))
}

// A file of 100 GB with this header alone.
fn large_file(alloc: Global, start: u64, count: u64) -> Result<SparseFile, AllocError> {
    let mut front = Vec::new(alloc);
    put_header(&mut front, start, count, 0)?;
    Ok(begins_with(alloc, front, 100 << 30, 4096))
}

// A file of 100 GB that begins with this text.
fn large_text(alloc: Global, text: &[u8]) -> Result<SparseFile, AllocError> {
    Ok(begins_with(alloc, Vec::from_slice(alloc, text)?, 100 << 30, 4096))
}

// A file whose section names are one long text, which so many sections share.
fn long_name(alloc: Global, count: u64, len: usize) -> Result<SparseFile, AllocError> {
    let mut front = Vec::new(alloc);
    put_header(&mut front, HEADER_SIZE, count.saturating_add(1), count)?;
    let names = count.saturating_add(2).saturating_mul(HEADER_SIZE);
    for _ in 0..count {
        put_section(&mut front, [0, SHT_PROGBITS, 0, 64, 1])?;
    }
    put_section(&mut front, [0, SHT_STRTAB, 0, names, len as u64])?;
    let all = front.len().saturating_add(len);
    front.resize(all, b'z')?;
    front.push(0)?;
    let len = front.len() as u64;
    Ok(begins_with(alloc, front, len, usize::MAX))
}

const REFUSED_GROWTH: u64 = 31;

const UNREAD: u64 = 32;

// The bytes of `.debug_info` after a 1, or why there are none.
fn info_of(alloc: Global, file: Result<SparseFile, AllocError>) -> u64 {
    let Ok(file) = file else {
        return REFUSED_GROWTH;
    };
    match read_wanted(alloc, &file) {
        Ok(Some(image)) => match ElfFile::parse_image(alloc, image) {
            Ok(file) => section_number(&file, ".debug_info"),
            Err(error) => refusal(error),
        },
        Ok(None) => UNREAD,
        Err(_) => REFUSED_GROWTH,
    }
}

const NOT_ELF: u64 = 22;

const BAD_ELF: u64 = 23;

#[test]
fn a_large_file_is_not_read_whole(rt: HostRuntime) {
    let alloc = rt.alloc();
    let found = [
        info_of(alloc, large_text(alloc, b"no ELF file")),
        info_of(alloc, large_text(alloc, b"\x7fELF\x03\x01")),
        info_of(alloc, large_file(alloc, 0, 0)),
        info_of(alloc, large_file(alloc, 0x40, 0)),
        info_of(alloc, large_file(alloc, 0x40, 2)),
        info_of(alloc, large_file(alloc, 200 << 30, 0)),
        info_of(alloc, large_file(alloc, 200 << 30, 2)),
        info_of(alloc, large_section(alloc)),
    ];
    assert_eq!(rt;
        found,
        [
            NOT_ELF, BAD_ELF, EMPTY, EMPTY, EMPTY, BAD_ELF, BAD_ELF, 0x101
        ]
    );
}

#[test]
fn many_sections_of_a_name_are_read(rt: HostRuntime) {
    let alloc = rt.alloc();
    assert_eq!(rt; info_of(alloc, many_sections(alloc, 5000, 8192)), 0x100);
}

#[test]
fn a_long_name_is_not_read_to_its_end(rt: HostRuntime) {
    let alloc = rt.alloc();
    assert_eq!(rt; info_of(alloc, long_name(alloc, 2000, 1_000_000)), EMPTY);
}
