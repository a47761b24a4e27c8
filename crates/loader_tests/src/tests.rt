//! Worked cases: split files, symbols and sections of ELF files, and why a file can't be loaded.

mod compressed;
mod growths;
mod host;
mod kept;
mod late;
mod parts;
mod sources;
mod symbols;

use addr2line::gimli::read::{Error, Reader};
use addr2line::{FileSource, FrameIter, FunctionName, LoaderError, LoaderOver, MemoryFiles, Range};
use addr2line_lines_tests::vectors::{
    ABBREV, INFO, LINE, LINE_V5, MAIN_INFO, SPLIT_ABBREV, SPLIT_INFO,
};
use elf_writer::{SHAPES, Section, elf_file, plain};
use sources::{PutFiles, by_parts};
use std::alloc::{AllocError, Global};
use std::borrow::CowStr;

const MAIN: &str = "/p/main";

const PLAIN: &str = "/p/plain";

const SPLIT: &str = "/w/s.dwo";

// The unit waits for "/w/s.dwo".
const WHOLE_PATH_INFO: &[u8] = b"\x2c\0\0\0\x05\0\x04\x08\0\0\0\0\x88\x77\x66\x55\x44\x33\x22\x11\
    \x01\0\0\0\0/\0/w/s.dwo\0\x10\0\0\0\0\0\0\0\x20\0\0\0";

// The directory ends in `/`.
const SLASH_INFO: &[u8] = b"\x2b\0\0\0\x05\0\x04\x08\0\0\0\0\x88\x77\x66\x55\x44\x33\x22\x11\
    \x01\0\0\0\0/w/\0s.dwo\0\x10\0\0\0\0\0\0\0\x20\0\0\0";

// Units that wait: one as the vector has it, one without DW_AT_dwo_name, and one without
// DW_AT_comp_dir.
const ABBREVS: &[u8] = b"\x01\x4a\0\x10\x17\x1b\x08\x76\x08\x11\x01\x12\x06\0\0\
    \x02\x4a\0\x10\x17\x1b\x08\x11\x01\x12\x06\0\0\
    \x03\x4a\0\x10\x17\x76\x08\x11\x01\x12\x06\0\0\0";

const NO_PATH_INFO: &[u8] = b"\x24\0\0\0\x05\0\x04\x08\0\0\0\0\x88\x77\x66\x55\x44\x33\x22\x11\
    \x02\0\0\0\0/w\0\x10\0\0\0\0\0\0\0\x20\0\0\0";

const NO_DIRECTORY_INFO: &[u8] = b"\x27\0\0\0\x05\0\x04\x08\0\0\0\0\x88\x77\x66\x55\x44\x33\x22\
    \x11\x03\0\0\0\0s.dwo\0\x10\0\0\0\0\0\0\0\x20\0\0\0";

const EMPTY_DIRECTORY_INFO: &[u8] = b"\x28\0\0\0\x05\0\x04\x08\0\0\0\0\x88\x77\x66\x55\x44\x33\
    \x22\x11\x01\0\0\0\0\0s.dwo\0\x10\0\0\0\0\0\0\0\x20\0\0\0";

// The unit without a directory waits for "/w/s.dwo".
const WHOLE_PATH_ALONE_INFO: &[u8] = b"\x2a\0\0\0\x05\0\x04\x08\0\0\0\0\x88\x77\x66\x55\x44\
    \x33\x22\x11\x03\0\0\0\0/w/s.dwo\0\x10\0\0\0\0\0\0\0\x20\0\0\0";

// The directory is no UTF-8.
const NO_TEXT_DIRECTORY_INFO: &[u8] = b"\x2a\0\0\0\x05\0\x04\x08\0\0\0\0\x88\x77\x66\x55\x44\
    \x33\x22\x11\x01\0\0\0\0/\xff\0s.dwo\0\x10\0\0\0\0\0\0\0\x20\0\0\0";

// The name is no UTF-8.
const NO_TEXT_INFO: &[u8] = b"\x2a\0\0\0\x05\0\x04\x08\0\0\0\0\x88\x77\x66\x55\x44\x33\x22\x11\
    \x01\0\0\0\0/w\0s.dw\xff\0\x10\0\0\0\0\0\0\0\x20\0\0\0";

// The split unit with another identifier.
const FOREIGN_INFO: &[u8] = b"\x23\0\0\0\x05\0\x05\x08\0\0\0\0\x89\x77\x66\x55\x44\x33\x22\x11\
    \x01\x1c\0\x02h\0\x10\0\0\0\0\0\0\0\x20\0\0\0\0";

// The split unit without its last byte.
const CUT_INFO: &[u8] = b"\x23\0\0\0\x05\0\x05\x08\0\0\0\0\x88\x77\x66\x55\x44\x33\x22\x11\
    \x01\x1c\0\x02h\0\x10\0\0\0\0\0\0\0\x20\0\0\0";

// "h" with the location of line 1, and the location alone.
const H: [u64; 2] = [0x6868, 1];

const LINE_1: [u64; 2] = [0, 1];

// A fault's number in the order of `LoaderError`, from 21.
fn fault_code(error: LoaderError) -> u64 {
    match error {
        LoaderError::Io => 21,
        LoaderError::NotElf => 22,
        LoaderError::BadElf => 23,
        LoaderError::CompressedSection => 24,
        LoaderError::RelocationsNeeded => 25,
        LoaderError::PathNotUtf8 => 26,
        LoaderError::Dwarf(_) => 27,
        LoaderError::OutOfMemory => 28,
    }
}

// The first byte of a name's text, 0 for none.
fn letter(text: &str) -> u64 {
    text.as_bytes().first().map_or(0, |byte| u64::from(*byte))
}

// The first byte of a text that may be refused.
fn letter_of(text: Result<CowStr<'_>, Error>) -> u64 {
    match text {
        Ok(text) => letter(text.as_str()),
        Err(_) => 1,
    }
}

// The first bytes of a name and of its text in its language.
fn name_code<R: Reader>(alloc: Global, name: &FunctionName<'_, R>) -> u64 {
    let raw = letter_of(name.raw_name(alloc));
    raw.wrapping_mul(256)
        .wrapping_add(letter_of(name.demangle(alloc)))
}

// The name and the line of the first frame, or a fault's number.
fn frame_code<R: Reader>(alloc: Global, frames: Result<FrameIter<'_, R>, LoaderError>) -> [u64; 2] {
    let mut frames = match frames {
        Ok(frames) => frames,
        Err(error) => return [fault_code(error), 0],
    };
    match frames.next() {
        Ok(Some(frame)) => {
            let line = frame
                .location
                .map_or(0, |location| location.line.unwrap_or(0));
            let name = match &frame.function {
                Some(name) => name_code(alloc, name),
                None => 0,
            };
            [name, u64::from(line)]
        }
        Ok(None) => [0, 0],
        Err(_) => [9, 9],
    }
}

// The sections of a unit as a file of `.text` at an address with a size.
fn file_of(
    alloc: Global,
    address: u64,
    size: usize,
    sections: [&[u8]; 3],
) -> Result<Vec<u8>, AllocError> {
    let [abbrev, info, line] = sections;
    let text = Section {
        address,
        ..plain(".text", &[0x90; 0x20][..size.min(0x20)])
    };
    elf_file(
        alloc,
        SHAPES[0],
        &[
            text,
            plain(".debug_abbrev", abbrev),
            plain(".debug_info", info),
            plain(".debug_line", line),
        ],
    )
}

fn main_file(alloc: Global, info: &[u8]) -> Result<Vec<u8>, AllocError> {
    file_of(alloc, 0x10, 0x20, [ABBREVS, info, &LINE_V5])
}

fn plain_file(alloc: Global) -> Result<Vec<u8>, AllocError> {
    file_of(alloc, 0x10, 0x20, [&ABBREV, &INFO, &LINE])
}

fn split_file(alloc: Global, info: &[u8]) -> Result<Vec<u8>, AllocError> {
    elf_file(
        alloc,
        SHAPES[0],
        &[
            plain(".debug_abbrev.dwo", SPLIT_ABBREV),
            plain(".debug_info.dwo", info),
        ],
    )
}

// The bytes at the path of a split file: a file of this unit, or these bytes.
#[derive(Clone, Copy)]
enum Split {
    Unit(&'static [u8]),
    Bytes(&'static [u8]),
}

fn split_bytes(alloc: Global, split: Split) -> Result<Vec<u8>, AllocError> {
    match split {
        Split::Unit(info) => split_file(alloc, info),
        Split::Bytes(bytes) => Vec::from_slice(alloc, bytes),
    }
}

// A main file, and a plain file.
fn files_of(alloc: Global, main: Vec<u8>) -> Result<MemoryFiles, AllocError> {
    let mut files = MemoryFiles::new(alloc);
    files.put(MAIN, main.as_slice())?;
    files.put(PLAIN, plain_file(alloc)?.as_slice())?;
    Ok(files)
}

fn put_split<F: PutFiles>(
    alloc: Global,
    files: &mut F,
    path: &str,
    split: Split,
) -> Result<(), AllocError> {
    let split = split_bytes(alloc, split)?;
    files.put_file(path, split.as_slice())
}

// A main file of the unit, a plain file, and what stands at a path, if there is something.
fn split_files(
    alloc: Global,
    info: &[u8],
    path: &str,
    split: Option<Split>,
) -> Result<MemoryFiles, AllocError> {
    let mut files = files_of(alloc, main_file(alloc, info)?)?;
    if let Some(split) = split {
        put_split(alloc, &mut files, path, split)?;
    }
    Ok(files)
}

// What a loader finds at 0x18.
fn told<F: FileSource>(alloc: Global, loader: &mut LoaderOver<F>) -> [u64; 2] {
    frame_code(alloc, loader.find_frames(0x18))
}

// The same, asked twice, or a fault's number.
fn told_or_fault<F: FileSource>(
    alloc: Global,
    loader: Result<LoaderOver<F>, LoaderError>,
) -> [[u64; 2]; 2] {
    match loader {
        Ok(loader) => {
            let mut loader = loader;
            [told(alloc, &mut loader), told(alloc, &mut loader)]
        }
        Err(error) => [[fault_code(error), 1]; 2],
    }
}

// The same of files.
fn told_in<F: FileSource>(
    alloc: Global,
    files: Result<F, AllocError>,
    sup: Option<&str>,
) -> [[u64; 2]; 2] {
    match files {
        Ok(files) => told_or_fault(alloc, LoaderOver::over(alloc, files, MAIN, sup)),
        Err(_) => [[28, 2]; 2],
    }
}

// The same of a unit and what stands at the path of its split file, read whole and by parts.
fn told_split(
    alloc: Global,
    info: &[u8],
    path: &str,
    split: Option<Split>,
    sup: Option<&str>,
) -> [[[u64; 2]; 2]; 2] {
    [
        told_in(alloc, split_files(alloc, info, path, split), sup),
        told_in(alloc, by_parts(split_files(alloc, info, path, split)), sup),
    ]
}

#[test]
fn a_split_file_is_found_by_its_path(rt: HostRuntime) {
    let whole = Some(Split::Unit(SPLIT_INFO));
    let cases = [
        (MAIN_INFO, SPLIT, whole, H),
        (SLASH_INFO, SPLIT, whole, H),
        (WHOLE_PATH_INFO, SPLIT, whole, H),
        (WHOLE_PATH_ALONE_INFO, SPLIT, whole, H),
        (NO_DIRECTORY_INFO, "s.dwo", whole, H),
        (EMPTY_DIRECTORY_INFO, "s.dwo", whole, H),
        (NO_PATH_INFO, SPLIT, whole, LINE_1),
        (MAIN_INFO, SPLIT, None, LINE_1),
        // A path that is no UTF-8 leaves the unit open.
        (NO_TEXT_INFO, SPLIT, whole, [26, 0]),
        (NO_TEXT_DIRECTORY_INFO, SPLIT, whole, [26, 0]),
    ];
    for (info, path, split, want) in cases {
        for sup in [None, Some(PLAIN)] {
            let found = told_split(rt.alloc(), info, path, split, sup);
            assert_eq!(rt; found, [[want; 2]; 2]);
        }
    }
}

// A main file: of `.text` at an address with a size, one whose unit isn't whole, or these bytes.
#[derive(Clone, Copy)]
enum Main {
    Text(u64, usize),
    Cut,
    Bytes(&'static [u8]),
}

fn main_bytes(alloc: Global, main: Main) -> Result<Vec<u8>, AllocError> {
    match main {
        Main::Text(address, size) => file_of(alloc, address, size, [&ABBREV, &INFO, &LINE]),
        Main::Cut => file_of(alloc, 0x10, 0x20, [&ABBREV, &INFO[..20], &LINE]),
        Main::Bytes(bytes) => Vec::from_slice(alloc, bytes),
    }
}

fn plain_files(alloc: Global, main: Main) -> Result<MemoryFiles, AllocError> {
    files_of(alloc, main_bytes(alloc, main)?)
}

// The line at 0x20, or a fault's number.
fn line_of<F: FileSource>(loader: &mut LoaderOver<F>) -> u64 {
    match loader.find_location(0x20) {
        Ok(Some(location)) => u64::from(location.line.unwrap_or(0)),
        Ok(None) => 0,
        Err(error) => fault_code(error),
    }
}

// The addresses of `.text` in a file, and the line at 0x20.
fn text_of<F: FileSource>(loader: &mut LoaderOver<F>) -> [u64; 3] {
    let line = line_of(loader);
    match loader.get_section_range(b".text") {
        Some(Range { begin, end }) => [begin, end, line],
        None => [0, 0, line],
    }
}

// The same of files and paths, or a fault's number.
fn text_in<F: FileSource>(
    alloc: Global,
    files: Result<F, AllocError>,
    path: &str,
    sup: Option<&str>,
) -> [u64; 3] {
    let Ok(files) = files else {
        return [28, 0, 8];
    };
    match LoaderOver::over(alloc, files, path, sup) {
        Ok(loader) => {
            let mut loader = loader;
            text_of(&mut loader)
        }
        Err(error) => [fault_code(error), 0, 9],
    }
}

// The same of a main file, read whole and by parts.
fn text_at(alloc: Global, main: Main, path: &str, sup: Option<&str>) -> [[u64; 3]; 2] {
    [
        text_in(alloc, plain_files(alloc, main), path, sup),
        text_in(alloc, by_parts(plain_files(alloc, main)), path, sup),
    ]
}

#[test]
fn files_are_loaded_or_refused_in_their_order(rt: HostRuntime) {
    let none = "/p/none";
    let whole = Main::Text(0x10, 0x20);
    let cases = [
        (whole, MAIN, None, [0x10, 0x30, 3]),
        (Main::Text(u64::MAX, 2), MAIN, None, [0, 0, 3]),
        (whole, MAIN, Some(PLAIN), [0x10, 0x30, 3]),
        (whole, none, Some(none), [21, 0, 9]),
        (whole, MAIN, Some(none), [21, 0, 9]),
        (Main::Bytes(b"h"), MAIN, Some(none), [22, 0, 9]),
        // The supplementary file is read before the units.
        (Main::Cut, MAIN, Some(none), [21, 0, 9]),
        (Main::Cut, MAIN, None, [27, 0, 9]),
    ];
    for (main, path, sup, want) in cases {
        assert_eq!(rt; text_at(rt.alloc(), main, path, sup), [want; 2]);
    }
}
