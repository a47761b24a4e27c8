//! Files that are there late, and reads that are refused memory.

use super::sources::{PutFiles, by_parts};
use super::{
    CUT_INFO, FOREIGN_INFO, H, LINE_1, MAIN, SPLIT, Split, fault_code, frame_code, put_split,
    split_files, told,
};
use addr2line::{FileSource, LoaderOver};
use addr2line_lines_tests::vectors::{MAIN_INFO, SPLIT_INFO};
use elf::FileImage;
use std::alloc::{AllocError, Global};

// Files, and whether a read of them is refused memory.
#[derive(Drop)]
struct RefusingFiles<F: PutFiles> {
    files: F,
    refuses: bool,
}

impl<F: PutFiles> FileSource for RefusingFiles<F> {
    fn read(&self, alloc: Global, path: &str) -> Result<Option<Vec<u8>>, AllocError> {
        if self.refuses {
            return Err(AllocError);
        }
        self.files.read(alloc, path)
    }

    fn read_image(&self, alloc: Global, path: &str) -> Result<Option<FileImage>, AllocError> {
        if self.refuses {
            return Err(AllocError);
        }
        self.files.read_image(alloc, path)
    }
}

// Puts the split file where a loader looks for it; 28 if memory was refused.
fn put_late<F: PutFiles>(alloc: Global, files: &mut RefusingFiles<F>) -> u64 {
    files.refuses = false;
    match put_split(alloc, &mut files.files, SPLIT, Split::Unit(SPLIT_INFO)) {
        Ok(()) => 0,
        Err(_) => 28,
    }
}

// What a loader finds at the last address, and at 0x18 before and after the split file is put at
// its path, where the first read of it may be refused memory.
fn told_late<F: PutFiles>(
    alloc: Global,
    loader: &mut LoaderOver<RefusingFiles<F>>,
    refuses: bool,
) -> [[u64; 2]; 4] {
    loader.files_mut().refuses = refuses;
    let last = frame_code(alloc, loader.find_frames(u64::MAX));
    let first = told(alloc, loader);
    let put = put_late(alloc, loader.files_mut());
    [last, first, [put, 0], told(alloc, loader)]
}

// The same of files, or a fault's number.
fn told_late_in<F: PutFiles>(
    alloc: Global,
    files: Result<F, AllocError>,
    refuses: bool,
) -> [[u64; 2]; 4] {
    let Ok(files) = files else {
        return [[28, 2]; 4];
    };
    let files = RefusingFiles {
        files,
        refuses: false,
    };
    match LoaderOver::over(alloc, files, MAIN, None) {
        Ok(loader) => {
            let mut loader = loader;
            told_late(alloc, &mut loader, refuses)
        }
        Err(error) => [[fault_code(error), 1]; 4],
    }
}

// The same of what stands at the path of the split file, read whole and by parts.
fn told_late_of(alloc: Global, split: Option<Split>, refuses: bool) -> [[[u64; 2]; 4]; 2] {
    [
        told_late_in(alloc, split_files(alloc, MAIN_INFO, SPLIT, split), refuses),
        told_late_in(
            alloc,
            by_parts(split_files(alloc, MAIN_INFO, SPLIT, split)),
            refuses,
        ),
    ]
}

#[test]
fn the_first_answer_to_a_load_stays(rt: HostRuntime) {
    let cases = [
        // None, another one, one that is no ELF file, and one whose unit isn't whole.
        (None, false, LINE_1, LINE_1),
        (Some(Split::Unit(FOREIGN_INFO)), false, LINE_1, LINE_1),
        (Some(Split::Bytes(b"h")), false, LINE_1, LINE_1),
        (Some(Split::Unit(CUT_INFO)), false, LINE_1, LINE_1),
        // A refusal leaves the unit open.
        (Some(Split::Unit(SPLIT_INFO)), true, [28, 0], H),
        (None, true, [28, 0], H),
    ];
    for (split, refuses, first, second) in cases {
        let want = [[0, 0], first, [0, 0], second];
        assert_eq!(rt; told_late_of(rt.alloc(), split, refuses), [want; 2]);
    }
}
