//! A loader after a refused growth: the same calls give what they would have given.

use super::sources::by_parts;
use super::{H, MAIN, SPLIT, Split, fault_code, line_of, split_files, told};
use addr2line::{FileSource, LoaderOver, MemoryFiles};
use addr2line_lines_tests::vectors::{MAIN_INFO, SPLIT_INFO};
use std::alloc::{AllocError, Global};

// The name and the line of the first frame at 0x18, and the line at 0x20; a fault's number.
type Found = ([u64; 2], u64);

// No loader, or no files.
const REFUSED: [Found; 2] = [([28, 1], 28), ([28, 2], 28)];

// Whether memory was refused for the frames, or for a text of the name.
fn is_refused([name, line]: [u64; 2]) -> bool {
    (name == 28 && line == 0) || name / 256 == 1 || name % 256 == 1
}

// What a loader finds, each asked once more where memory was refused for it.
fn found_by<F: FileSource>(alloc: Global, loader: LoaderOver<F>) -> Found {
    let mut loader = loader;
    let mut frame = told(alloc, &mut loader);
    if is_refused(frame) {
        frame = told(alloc, &mut loader);
    }
    let mut line = line_of(&mut loader);
    if line == 28 {
        line = line_of(&mut loader);
    }
    (frame, line)
}

fn found_in<F: FileSource>(alloc: Global, files: Result<F, AllocError>) -> Found {
    match files {
        Ok(files) => match LoaderOver::over(alloc, files, MAIN, None) {
            Ok(loader) => found_by(alloc, loader),
            Err(error) => ([fault_code(error), 1], 28),
        },
        Err(_) => ([28, 2], 28),
    }
}

fn files(alloc: Global) -> Result<MemoryFiles, AllocError> {
    split_files(alloc, MAIN_INFO, SPLIT, Some(Split::Unit(SPLIT_INFO)))
}

// The same of files that are read whole, by a second loader where the first is refused memory.
fn found_whole(alloc: Global) -> Found {
    let first = found_in(alloc, files(alloc));
    if REFUSED.contains(&first) {
        return found_in(alloc, files(alloc));
    }
    first
}

// The same of files that are read by parts.
fn found_by_parts(alloc: Global) -> Found {
    let first = found_in(alloc, by_parts(files(alloc)));
    if REFUSED.contains(&first) {
        return found_in(alloc, by_parts(files(alloc)));
    }
    first
}

// Each growth is refused in turn by `tools/refuse_growths`.
#[test]
fn a_refused_growth_leaves_the_loader(rt: HostRuntime) {
    let found = [found_whole(rt.alloc()), found_by_parts(rt.alloc())];
    assert_eq!(rt; found, [(H, 3); 2]);
}
