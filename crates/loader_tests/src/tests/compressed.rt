//! Files whose sections are compressed. The streams are zlib's own, at level 9.

use super::sources::by_parts;
use super::{ABBREVS, H, LINE_1, MAIN, PLAIN, SPLIT, told_or_fault};
use addr2line::{CompressedSections, FileSource, LoaderOver, MemoryFiles};
use addr2line_lines_tests::vectors::{
    ABBREV, INFO, LINE, LINE_V5, MAIN_INFO, SPLIT_ABBREV, SPLIT_INFO,
};
use elf_writer::{SHAPES, Section, elf_file, plain};
use std::alloc::{AllocError, Global};

const SHF_COMPRESSED: u64 = 0x800;

const ELFCOMPRESS_ZLIB: u8 = 1;

const ELFCOMPRESS_ZSTD: u8 = 2;

const MAIN_INFO_STREAM: &[u8] = b"\x78\xda\xd3\x62\x60\x60\x60\x65\x60\xe1\x00\x52\x0c\x1d\xe5\x69\
    \xa1\x2e\xc6\x4a\x82\x8c\x20\x8e\x7e\x39\x43\xb1\x5e\x4a\x79\x3e\x83\x00\x03\x04\x28\x00\x31\
    \x00\x83\x08\x05\x62";

const SPLIT_INFO_STREAM: &[u8] = b"\x78\xda\x53\x66\x60\x60\x60\x65\x60\xe5\x00\x52\x0c\x1d\xe5\
    \x69\xa1\x2e\xc6\x4a\x82\x8c\x32\x0c\x4c\x19\x0c\x02\x0c\x10\xa0\x00\x22\x00\x4c\x7b\x03\x51";

const INFO_STREAM: &[u8] = b"\x78\xda\x93\x66\x60\x60\x60\x61\x00\x01\x0e\x46\x10\xa9\x5f\xce\x20\
    \xc0\x00\x01\x0a\x40\x0c\x00\x0f\x0f\x00\xff";

// How a section stands in its file: as it is; behind a header; in a section with `.zdebug_`; behind
// a header that tells a byte more; without the stream's last byte; by another compression.
#[derive(Clone, Copy)]
enum Packing {
    Plain,
    Header,
    Zdebug,
    OtherSize,
    Cut,
    Zstd,
}

// The unit of a file: its bytes, the stream of them, and its section's names.
#[derive(Clone, Copy)]
struct Unit {
    bytes: &'static [u8],
    stream: &'static [u8],
    names: [&'static str; 2],
}

const MAIN_UNIT: Unit = Unit {
    bytes: MAIN_INFO,
    stream: MAIN_INFO_STREAM,
    names: [".debug_info", ".zdebug_info"],
};

const SPLIT_UNIT: Unit = Unit {
    bytes: SPLIT_INFO,
    stream: SPLIT_INFO_STREAM,
    names: [".debug_info.dwo", ".zdebug_info.dwo"],
};

const PLAIN_UNIT: Unit = Unit {
    bytes: &INFO,
    stream: INFO_STREAM,
    names: [".debug_info", ".zdebug_info"],
};

// A compression header of 64 bits, little endian, and a stream.
fn behind_header(
    alloc: Global,
    kind: u8,
    size: usize,
    stream: &[u8],
) -> Result<Vec<u8>, AllocError> {
    let mut bytes = Vec::from_slice(alloc, &[kind, 0, 0, 0, 0, 0, 0, 0])?;
    bytes.extend_from_slice(&(size as u64).to_le_bytes())?;
    bytes.extend_from_slice(&[1, 0, 0, 0, 0, 0, 0, 0])?;
    bytes.extend_from_slice(stream)?;
    Ok(bytes)
}

// "ZLIB", the size, and a stream.
fn behind_word(alloc: Global, size: usize, stream: &[u8]) -> Result<Vec<u8>, AllocError> {
    let mut bytes = Vec::from_slice(alloc, b"ZLIB")?;
    bytes.extend_from_slice(&(size as u64).to_be_bytes())?;
    bytes.extend_from_slice(stream)?;
    Ok(bytes)
}

// The bytes of a unit's section.
fn section_bytes(alloc: Global, unit: Unit, packing: Packing) -> Result<Vec<u8>, AllocError> {
    let size = unit.bytes.len();
    let cut = &unit.stream[..unit.stream.len().saturating_sub(1)];
    match packing {
        Packing::Plain => Vec::from_slice(alloc, unit.bytes),
        Packing::Header => behind_header(alloc, ELFCOMPRESS_ZLIB, size, unit.stream),
        Packing::Zdebug => behind_word(alloc, size, unit.stream),
        Packing::OtherSize => {
            behind_header(alloc, ELFCOMPRESS_ZLIB, size.saturating_add(1), unit.stream)
        }
        Packing::Cut => behind_header(alloc, ELFCOMPRESS_ZLIB, size, cut),
        Packing::Zstd => behind_header(alloc, ELFCOMPRESS_ZSTD, size, unit.stream),
    }
}

// Its section.
fn section_of(unit: Unit, packing: Packing, bytes: &[u8]) -> Section<'_> {
    let [name, zdebug_name] = unit.names;
    match packing {
        Packing::Plain => plain(name, bytes),
        Packing::Zdebug => plain(zdebug_name, bytes),
        _ => Section {
            flags: SHF_COMPRESSED,
            ..plain(name, bytes)
        },
    }
}

// A file of a unit and two more sections.
fn file_of(
    alloc: Global,
    unit: Unit,
    packing: Packing,
    sections: [Section<'_>; 2],
) -> Result<Vec<u8>, AllocError> {
    let bytes = section_bytes(alloc, unit, packing)?;
    let [a, b] = sections;
    elf_file(
        alloc,
        SHAPES[0],
        &[a, section_of(unit, packing, bytes.as_slice()), b],
    )
}

// A main file, its supplementary file and its split file, whose units stand so.
fn files_of(alloc: Global, packings: [Packing; 3]) -> Result<MemoryFiles, AllocError> {
    let [main, sup, split] = packings;
    let main_rest = [
        plain(".debug_abbrev", ABBREVS),
        plain(".debug_line", &LINE_V5),
    ];
    let sup_rest = [plain(".debug_abbrev", &ABBREV), plain(".debug_line", &LINE)];
    let split_rest = [
        plain(".debug_abbrev.dwo", SPLIT_ABBREV),
        plain(".debug_str.dwo", b"\0"),
    ];
    let mut files = MemoryFiles::new(alloc);
    files.put(MAIN, &file_of(alloc, MAIN_UNIT, main, main_rest)?)?;
    files.put(PLAIN, &file_of(alloc, PLAIN_UNIT, sup, sup_rest)?)?;
    files.put(SPLIT, &file_of(alloc, SPLIT_UNIT, split, split_rest)?)?;
    Ok(files)
}

// What a loader finds at 0x18, asked twice, or a fault's number.
fn told_in<F: FileSource>(
    alloc: Global,
    compressed: CompressedSections,
    files: Result<F, AllocError>,
) -> [[u64; 2]; 2] {
    let Ok(files) = files else {
        return [[28, 2]; 2];
    };
    let loader = match compressed {
        CompressedSections::Refused => LoaderOver::over(alloc, files, MAIN, Some(PLAIN)),
        CompressedSections::Decompressed => {
            LoaderOver::over_decompressing(alloc, files, MAIN, Some(PLAIN))
        }
    };
    told_or_fault(alloc, loader)
}

// The same of files whose units stand so, read whole and by parts.
fn told_by(
    alloc: Global,
    compressed: CompressedSections,
    packings: [Packing; 3],
) -> [[[u64; 2]; 2]; 2] {
    [
        told_in(alloc, compressed, files_of(alloc, packings)),
        told_in(alloc, compressed, by_parts(files_of(alloc, packings))),
    ]
}

// What `over` and what `over_decompressing` tells, where the units of the main, the supplementary
// and the split file stand so. A split file that is refused counts as missing.
#[test]
fn compressed_sections_are_read_on_request(rt: HostRuntime) {
    use Packing::{Cut, Header, OtherSize, Plain, Zdebug, Zstd};
    let refused = [24, 1];
    let damaged = [23, 1];
    let cases = [
        ([Plain, Plain, Plain], H, H),
        ([Header, Plain, Plain], refused, H),
        ([Zdebug, Plain, Plain], refused, H),
        ([Plain, Header, Plain], refused, H),
        ([Plain, Zdebug, Plain], refused, H),
        ([Plain, Plain, Header], LINE_1, H),
        ([Plain, Plain, Zdebug], LINE_1, H),
        ([Header, Zdebug, Header], refused, H),
        ([OtherSize, Plain, Plain], refused, damaged),
        ([Cut, Plain, Plain], refused, damaged),
        ([Zstd, Plain, Plain], refused, refused),
        ([Plain, OtherSize, Plain], refused, damaged),
        ([Plain, Cut, Plain], refused, damaged),
        ([Plain, Zstd, Plain], refused, refused),
        ([Plain, Plain, OtherSize], LINE_1, LINE_1),
        ([Plain, Plain, Cut], LINE_1, LINE_1),
        ([Plain, Plain, Zstd], LINE_1, LINE_1),
    ];
    for (packings, plainly, decompressed) in cases {
        let found = [
            told_by(rt.alloc(), CompressedSections::Refused, packings),
            told_by(rt.alloc(), CompressedSections::Decompressed, packings),
        ];
        assert_eq!(rt; found, [[[plainly; 2]; 2], [[decompressed; 2]; 2]]);
    }
}
