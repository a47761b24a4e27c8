//! Split files that a loader has read, and when they are read again.

use super::sources::{PutFiles, by_parts};
use super::{FOREIGN_INFO, MAIN, SPLIT, Split, fault_code, frame_code, put_split, split_files};
use addr2line::{FileSource, FileStamp, FileTime, LoaderOver};
use elf::FileImage;
use std::alloc::{AllocError, Global};

// Three units [0x10, 0x30), [0x30, 0x50) and [0x50, 0x70), which wait for "/w/s.dwo" and have one
// identifier.
const THREE_INFO: &[u8] = b"\x2a\0\0\0\x05\0\x04\x08\0\0\0\0\x88\x77\x66\x55\x44\x33\x22\x11\
    \x01\0\0\0\0/w\0s.dwo\0\x10\0\0\0\0\0\0\0\x20\0\0\0\
    \x2a\0\0\0\x05\0\x04\x08\0\0\0\0\x88\x77\x66\x55\x44\x33\x22\x11\
    \x01\0\0\0\0/w\0s.dwo\0\x30\0\0\0\0\0\0\0\x20\0\0\0\
    \x2a\0\0\0\x05\0\x04\x08\0\0\0\0\x88\x77\x66\x55\x44\x33\x22\x11\
    \x01\0\0\0\0/w\0s.dwo\0\x50\0\0\0\0\0\0\0\x20\0\0\0";

// The same three, of which the second has another identifier.
const MIXED_INFO: &[u8] = b"\x2a\0\0\0\x05\0\x04\x08\0\0\0\0\x88\x77\x66\x55\x44\x33\x22\x11\
    \x01\0\0\0\0/w\0s.dwo\0\x10\0\0\0\0\0\0\0\x20\0\0\0\
    \x2a\0\0\0\x05\0\x04\x08\0\0\0\0\x89\x77\x66\x55\x44\x33\x22\x11\
    \x01\0\0\0\0/w\0s.dwo\0\x30\0\0\0\0\0\0\0\x20\0\0\0\
    \x2a\0\0\0\x05\0\x04\x08\0\0\0\0\x88\x77\x66\x55\x44\x33\x22\x11\
    \x01\0\0\0\0/w\0s.dwo\0\x50\0\0\0\0\0\0\0\x20\0\0\0";

// The split unit with "h" [0x10, 0x70), and with "i" in its place.
const H_INFO: &[u8] = b"\x23\0\0\0\x05\0\x05\x08\0\0\0\0\x88\x77\x66\x55\x44\x33\x22\x11\
    \x01\x1c\0\x02h\0\x10\0\0\0\0\0\0\0\x60\0\0\0\0";

const I_INFO: &[u8] = b"\x23\0\0\0\x05\0\x05\x08\0\0\0\0\x88\x77\x66\x55\x44\x33\x22\x11\
    \x01\x1c\0\x02i\0\x10\0\0\0\0\0\0\0\x60\0\0\0\0";

// The same with "i" and the other identifier.
const OTHER_INFO: &[u8] = b"\x23\0\0\0\x05\0\x05\x08\0\0\0\0\x89\x77\x66\x55\x44\x33\x22\x11\
    \x01\x1c\0\x02i\0\x10\0\0\0\0\0\0\0\x60\0\0\0\0";

const HAS_H: Split = Split::Unit(H_INFO);

const HAS_I: Split = Split::Unit(I_INFO);

const OTHER: Split = Split::Unit(OTHER_INFO);

// One that has another identifier, and one without a byte, which answer nothing.
const FOREIGN: Split = Split::Unit(FOREIGN_INFO);

const EMPTY: Split = Split::Bytes(b"");

const H: u64 = 0x6868;

const I: u64 = 0x6969;

// What stands at the path of the split file by then, and the stamp that is told of it.
type Step = (Split, Option<FileStamp>);

// Files, of which the split file has a stamp, or none has.
#[derive(Drop)]
struct StampedFiles<F: PutFiles> {
    files: F,
    stamp: Option<FileStamp>,
}

impl<F: PutFiles> FileSource for StampedFiles<F> {
    fn read(&self, alloc: Global, path: &str) -> Result<Option<Vec<u8>>, AllocError> {
        self.files.read(alloc, path)
    }

    fn read_image(&self, alloc: Global, path: &str) -> Result<Option<FileImage>, AllocError> {
        self.files.read_image(alloc, path)
    }

    fn stamp(&self, path: &str) -> Option<FileStamp> {
        if path != SPLIT {
            return None;
        }
        self.stamp
    }
}

const STAMP: FileStamp = FileStamp {
    device: 1,
    inode: 2,
    len: 3,
    modified: FileTime {
        seconds: 4,
        nanoseconds: 5,
    },
    changed: FileTime {
        seconds: 6,
        nanoseconds: 7,
    },
};

// That stamp, but for one of its seven numbers.
fn other_at(place: usize) -> FileStamp {
    let mut stamp = STAMP;
    match place {
        0 => stamp.device = 9,
        1 => stamp.inode = 9,
        2 => stamp.len = 9,
        3 => stamp.modified.seconds = 9,
        4 => stamp.modified.nanoseconds = 9,
        5 => stamp.changed.seconds = 9,
        _ => stamp.changed.nanoseconds = 9,
    }
    stamp
}

// The name that a loader finds at an address after a step, or a fault's number.
fn told_after<F: PutFiles>(
    alloc: Global,
    loader: &mut LoaderOver<StampedFiles<F>>,
    (split, stamp): Step,
    probe: u64,
) -> u64 {
    let files = loader.files_mut();
    files.stamp = stamp;
    if put_split(alloc, &mut files.files, SPLIT, split).is_err() {
        return 28;
    }
    let [name, _] = frame_code(alloc, loader.find_frames(probe));
    name
}

// The names that a loader finds in three units, each after a step.
fn told_in_turn<F: PutFiles>(
    alloc: Global,
    loader: &mut LoaderOver<StampedFiles<F>>,
    [first, second, third]: [Step; 3],
) -> [u64; 3] {
    [
        told_after(alloc, loader, first, 0x18),
        told_after(alloc, loader, second, 0x38),
        told_after(alloc, loader, third, 0x58),
    ]
}

// The same of files, or a fault's number.
fn told_in<F: PutFiles>(alloc: Global, files: Result<F, AllocError>, steps: [Step; 3]) -> [u64; 3] {
    let Ok(files) = files else {
        return [28, 0, 0];
    };
    let files = StampedFiles { files, stamp: None };
    match LoaderOver::over(alloc, files, MAIN, None) {
        Ok(loader) => {
            let mut loader = loader;
            told_in_turn(alloc, &mut loader, steps)
        }
        Err(error) => [fault_code(error), 1, 0],
    }
}

// The same of three units whose split file is one, read whole and by parts.
fn told(alloc: Global, info: &[u8], steps: [Step; 3]) -> [[u64; 3]; 2] {
    [
        told_in(alloc, split_files(alloc, info, SPLIT, None), steps),
        told_in(
            alloc,
            by_parts(split_files(alloc, info, SPLIT, None)),
            steps,
        ),
    ]
}

#[test]
fn a_split_file_is_read_once_for_a_stamp(rt: HostRuntime) {
    let one = Some(STAMP);
    let two = Some(other_at(0));
    let cases = [
        // What stands there by then doesn't count as long as the stamp is the same.
        ([(HAS_H, one), (EMPTY, one), (HAS_I, one)], [H, H, H]),
        // With another stamp it does, and the file is kept in place of the one before.
        ([(HAS_H, one), (HAS_I, two), (EMPTY, two)], [H, I, I]),
        ([(HAS_H, one), (HAS_I, two), (HAS_H, one)], [H, I, H]),
        ([(HAS_H, one), (EMPTY, two), (HAS_I, one)], [H, 0, I]),
        // Without a stamp it does, and what was kept before is still the file of its stamp.
        ([(HAS_H, None), (HAS_I, None), (EMPTY, None)], [H, I, 0]),
        ([(HAS_H, None), (HAS_I, one), (EMPTY, one)], [H, I, I]),
        ([(HAS_H, one), (HAS_I, None), (EMPTY, one)], [H, I, H]),
        // That a file answers nothing is known as long as the stamp is the same.
        ([(FOREIGN, one), (HAS_H, one), (HAS_I, one)], [0, 0, 0]),
        ([(EMPTY, one), (HAS_H, one), (HAS_I, one)], [0, 0, 0]),
        ([(FOREIGN, one), (HAS_H, two), (HAS_I, two)], [0, H, H]),
        ([(EMPTY, one), (HAS_H, two), (EMPTY, two)], [0, H, H]),
    ];
    for (steps, want) in cases {
        assert_eq!(rt; told(rt.alloc(), THREE_INFO, steps), [want; 2]);
    }
}

#[test]
fn a_file_of_another_unit_is_read_for_that_unit(rt: HostRuntime) {
    let one = Some(STAMP);
    let two = Some(other_at(0));
    let cases = [
        // The unit that it is of reads it once more, and it is kept then.
        ([(OTHER, one), (OTHER, one), (HAS_H, one)], [0, I, 0]),
        ([(OTHER, one), (EMPTY, one), (HAS_H, one)], [0, 0, 0]),
        ([(OTHER, one), (HAS_H, one), (HAS_H, one)], [0, 0, H]),
        // Of a file that is refused nobody is.
        ([(EMPTY, one), (OTHER, one), (HAS_H, one)], [0, 0, 0]),
        ([(EMPTY, one), (OTHER, two), (HAS_H, one)], [0, I, H]),
    ];
    for (steps, want) in cases {
        assert_eq!(rt; told(rt.alloc(), MIXED_INFO, steps), [want; 2]);
    }
}

#[test]
fn each_part_of_a_stamp_counts(rt: HostRuntime) {
    for place in 0..7 {
        let other = Some(other_at(place));
        let steps = [(HAS_H, Some(STAMP)), (HAS_I, other), (EMPTY, other)];
        assert_eq!(rt; told(rt.alloc(), THREE_INFO, steps), [[H, I, I]; 2]);
    }
}
