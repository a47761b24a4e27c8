//! Locations, rows, frames, units, loads and faults as numbers.

use addr2line::gimli::read::{Error, Reader};
use addr2line::gimli::{UnitRef, UnitType};
use addr2line::{Frame, FrameIter, FunctionName, Location, LocationRangeIter, SplitDwarfLoad};
use addr2line_lines_tests::sections::{fault_code, location_code};

/// Three frames: of each where its entry begins, the first byte of its name with its language, and
/// its location; 0 for none. Or three rows: of each its address, its length and its location. Any
/// other answer stands in the first place, a location and a fault in its last number.
#[derive(Clone, Copy, Debug, PartialEq, Eq)]
pub struct Codes(pub [u64; 3], pub [u64; 3], pub [u64; 3]);

/// Nothing is found.
pub const NONE: Codes = Codes([0; 3], [0; 3], [0; 3]);

/// A call was made that gives nothing else.
pub const DONE: Codes = Codes([0, 0, 1], [0; 3], [0; 3]);

/// Growths that were refused.
pub const REFUSED: Codes = Codes([0, 0, 9_100_000], [0; 3], [0; 3]);

/// The only frame, or another answer.
pub fn first(code: [u64; 3]) -> Codes {
    Codes(code, [0; 3], [0; 3])
}

pub fn fault_codes(error: Error) -> Codes {
    first([0, 0, u64::from(fault_code(error))])
}

pub fn done_codes(done: Result<(), Error>) -> Codes {
    match done {
        Ok(()) => DONE,
        Err(error) => fault_codes(error),
    }
}

pub fn located_codes(found: Result<Option<Location<'_>>, Error>) -> Codes {
    match found {
        Ok(Some(location)) => first([0, 0, u64::from(location_code(location))]),
        Ok(None) => NONE,
        Err(error) => fault_codes(error),
    }
}

fn row_code(row: Option<(u64, u64, Location<'_>)>) -> [u64; 3] {
    match row {
        Some((address, length, location)) => [address, length, u64::from(location_code(location))],
        None => [0; 3],
    }
}

// The next row, or a fault in its place where faults are told.
fn next_row_code<R: Reader>(rows: &mut LocationRangeIter<'_, R>, tells_faults: bool) -> [u64; 3] {
    if !tells_faults {
        return row_code(rows.next());
    }
    match rows.next_loc() {
        Ok(row) => row_code(row),
        Err(error) => [0, 0, u64::from(fault_code(error))],
    }
}

/// Three rows from this one on.
pub fn rows_codes<R: Reader>(
    rows: Result<LocationRangeIter<'_, R>, Error>,
    from: usize,
    tells_faults: bool,
) -> Codes {
    let mut rows = match rows {
        Ok(rows) => rows,
        Err(error) => return fault_codes(error),
    };
    for _ in 0..from {
        let _skipped = next_row_code(&mut rows, tells_faults);
    }
    let first = next_row_code(&mut rows, tells_faults);
    let second = next_row_code(&mut rows, tells_faults);
    Codes(first, second, next_row_code(&mut rows, tells_faults))
}

// The first byte of a name, and 256 for each number of its language.
fn name_code<R: Reader>(name: &FunctionName<'_, R>) -> u64 {
    let letter = name
        .name
        .to_slice()
        .first()
        .map_or(1, |byte| u64::from(*byte));
    letter
        + name
            .language
            .map_or(0, |language| u64::from(language.0) * 256)
}

fn frame_code<R: Reader>(frame: &Frame<'_, R>) -> [u64; 3] {
    let offset = frame.dw_die_offset.map_or(0, |offset| offset.0);
    let name = match &frame.function {
        Some(name) => name_code(name),
        None => 0,
    };
    let location = frame
        .location
        .map_or(0, |location| u64::from(location_code(location)));
    [offset, name, location]
}

/// The next frame; nines for a fault.
pub fn next_code<R: Reader>(frames: &mut FrameIter<'_, R>) -> [u64; 3] {
    match frames.next() {
        Ok(Some(frame)) => frame_code(&frame),
        Ok(None) => [0; 3],
        Err(_) => [9; 3],
    }
}

fn frame_codes<R: Reader>(frames: FrameIter<'_, R>) -> Codes {
    let mut frames = frames;
    let first = next_code(&mut frames);
    let second = next_code(&mut frames);
    Codes(first, second, next_code(&mut frames))
}

pub fn frames_or_fault<R: Reader>(frames: Result<FrameIter<'_, R>, Error>) -> Codes {
    match frames {
        Ok(frames) => frame_codes(frames),
        Err(error) => fault_codes(error),
    }
}

// Where a unit begins, its kind, and 1.
pub fn unit_codes<R: Reader>(unit: Result<Option<UnitRef<'_, R>>, Error>) -> Codes {
    match unit {
        Ok(Some(found)) => {
            let unit = found.unit;
            let kind = match unit.header.type_() {
                UnitType::Compile => 1,
                UnitType::Skeleton => 4,
                UnitType::SplitCompile => 5,
                UnitType::TypeUnit | UnitType::Partial | UnitType::SplitType => 0,
            };
            first([unit.header.offset().0, kind, 1])
        }
        Ok(None) => NONE,
        Err(error) => fault_codes(error),
    }
}

// Whether the text is there and is this one.
fn has_text<R: Reader>(reader: &Option<R>, text: &[u8]) -> u64 {
    match reader {
        Some(reader) => u64::from(reader.to_slice() == text),
        None => 0,
    }
}

// The identifier of a load, whether its directory is "/w", and whether its path is "s.dwo".
pub fn load_codes<R: Reader>(load: &SplitDwarfLoad<R>) -> Codes {
    let dir = has_text(&load.comp_dir, b"/w");
    let path = has_text(&load.path, b"s.dwo");
    first([load.dwo_id.0, dir, path])
}

// How many loads there are, and the identifiers of the first two.
pub fn loads_codes<R: Reader>(loads: &[SplitDwarfLoad<R>]) -> Codes {
    let [a, b] = [0, 1].map(|i: usize| loads.get(i).map_or(0, |load| load.dwo_id.0));
    first([loads.len() as u64, a, b])
}
