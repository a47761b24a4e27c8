//! Sections that zlib compressed. The stream is zlib's own of three bytes, at level 9.

use crate::answers::{EMPTY, digits, open, refusal, section_number};
use elf::ElfFile;
use elf_writer::{SHAPES, Section, Shape, elf_file, plain};
use gimli_read::Reader;
use std::alloc::Global;

const SHF_COMPRESSED: u64 = 0x800;

// Compression headers of zlib and of a size of 3, for each of the shapes.
const HEADERS: [&[u8]; 4] = [
    b"\x01\0\0\0\0\0\0\0\x03\0\0\0\0\0\0\0\x01\0\0\0\0\0\0\0",
    b"\0\0\0\x01\0\0\0\0\0\0\0\0\0\0\0\x03\0\0\0\0\0\0\0\x01",
    b"\x01\0\0\0\x03\0\0\0\x01\0\0\0",
    b"\0\0\0\x01\0\0\0\x03\0\0\0\x01",
];

// The header of the first shape with a size of 4, and with another compression.
const OTHER_SIZE: &[u8] = b"\x01\0\0\0\0\0\0\0\x04\0\0\0\0\0\0\0\x01\0\0\0\0\0\0\0";

// The same with a size of 2^62, for which no memory is taken.
const LARGE_SIZE: &[u8] = b"\x01\0\0\0\0\0\0\0\0\0\0\0\0\0\0\x40\x01\0\0\0\0\0\0\0";

const ZSTD: &[u8] = b"\x02\0\0\0\0\0\0\0\x03\0\0\0\0\0\0\0\x01\0\0\0\0\0\0\0";

// What stands before the stream in a section with `.zdebug_`.
const ZLIB: &[u8] = b"ZLIB\0\0\0\0\0\0\0\x03";

// The bytes 1, 2, 3.
const STREAM: &[u8] = b"\x78\xda\x63\x64\x62\x06\x00\x00\x0d\x00\x07";

const INFLATED: u64 = 0x1_010203;

// The decompressed bytes of `.debug_info` after a 1, or the refusal; then the same of `section`.
fn both_numbers(alloc: Global, file: &ElfFile) -> [u64; 2] {
    let decompressed = match file.decompressed_section(alloc, ".debug_info") {
        Ok(bytes) => digits(EMPTY, bytes.to_slice()),
        Err(error) => refusal(error),
    };
    [decompressed, section_number(file, ".debug_info")]
}

// Those of a file with one section of this name and these flags, whose bytes are two parts.
fn numbers(
    alloc: Global,
    shape: Shape,
    name: &str,
    flags: u64,
    front: &[u8],
    rest: &[u8],
) -> Option<[u64; 2]> {
    let mut bytes = Vec::from_slice(alloc, front).ok()?;
    bytes.extend_from_slice(rest).ok()?;
    let section = Section {
        flags,
        ..plain(name, bytes.as_slice())
    };
    let file = elf_file(alloc, shape, &[section]).ok()?;
    Some(both_numbers(alloc, &open(alloc, file.as_slice()).ok()?))
}

#[test]
fn each_class_and_order_has_its_header(rt: HostRuntime) {
    let [a, b, c, d] = HEADERS;
    for (shape, header) in [(0, a), (1, b), (2, c), (3, d)] {
        let found = numbers(
            rt.alloc(),
            SHAPES[shape],
            ".debug_info",
            SHF_COMPRESSED,
            header,
            STREAM,
        );
        assert_eq!(rt; found, Some([INFLATED, 24]), "shape {shape}");
    }
}

#[test]
fn damage_and_other_compressions_are_refused(rt: HostRuntime) {
    let cut = &STREAM[..10];
    let cases: [(&str, u64, &[u8], &[u8], [u64; 2]); 8] = [
        (".debug_info", SHF_COMPRESSED, OTHER_SIZE, STREAM, [23, 24]),
        (".debug_info", SHF_COMPRESSED, LARGE_SIZE, STREAM, [23, 24]),
        (".debug_info", SHF_COMPRESSED, ZSTD, STREAM, [24, 24]),
        (".debug_info", SHF_COMPRESSED, HEADERS[0], cut, [23, 24]),
        (".debug_info", SHF_COMPRESSED, STREAM, &[], [23, 24]),
        (".debug_info", 0, &[4, 5], &[6], [0x1_040506, 0x1_040506]),
        (".zdebug_info", 0, ZLIB, STREAM, [INFLATED, 24]),
        (".zdebug_info", 0, &ZLIB[..11], &[], [23, 24]),
    ];
    for (name, flags, front, rest, want) in cases {
        let found = numbers(rt.alloc(), SHAPES[0], name, flags, front, rest);
        assert_eq!(rt; found, Some(want), "{name} {front:?}");
    }
}
