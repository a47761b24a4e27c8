//! Worked cases: the frames of an address, and the texts of their names.

ghost use Rattle.std.specs.Prelude.{[], None};
ghost use Rattle.addr2line_lines.specs.CachedNames.{AreNamesIn};
ghost use Rattle.addr2line_lines.specs.References.{sup_scope};

use crate::sections::{dwarf_of, first_unit, little, location_code};
use crate::vectors::{LINE, NAMED, NAMED_INFO};
use addr2line_lines::{FileUnits, Functions, Lines, Scope};
use addr2line_units::{Frame, FrameIter, FunctionName};
use gimli::read::{DwLang, EndianSlice};
use gimli::{Dwarf, Unit};
use std::alloc::Global;

// A frame by where its entry begins, the first byte of its name and its location; 0 for none.
type FrameCode = [u64; 3];

// The first byte of a name; 1 where it can't be read.
fn letter(alloc: Global, name: &FunctionName<'_, EndianSlice<'_>>) -> u64 {
    match name.raw_name(alloc) {
        Ok(text) => text
            .as_str()
            .as_bytes()
            .first()
            .map_or(0, |byte| u64::from(*byte)),
        Err(_) => 1,
    }
}

fn frame_code(alloc: Global, frame: &Frame<'_, EndianSlice<'_>>) -> FrameCode {
    let offset = frame.dw_die_offset.map_or(0, |offset| offset.0);
    let name = match &frame.function {
        Some(name) => letter(alloc, name),
        None => 0,
    };
    let location = frame
        .location
        .map_or(0, |location| u64::from(location_code(location)));
    [offset, name, location]
}

// The next three frames; nines for a fault.
fn codes_of(alloc: Global, frames: FrameIter<'_, EndianSlice<'_>>) -> [FrameCode; 3] {
    let mut frames = frames;
    let mut codes = [[0; 3]; 3];
    for i in 0..3 {
        match frames.next() {
            Ok(Some(frame)) => codes[i] = frame_code(alloc, &frame),
            Ok(None) => {}
            Err(_) => codes[i] = [9; 3],
        }
    }
    codes
}

// A fault in the place of frames.
const FAULT: [FrameCode; 3] = [[8; 3]; 3];

// The frames at an address of a function of a unit without a language.
fn frames_at(
    alloc: Global,
    functions: &Functions<EndianSlice<'_>>,
    place: usize,
    lines: &Lines,
    probe: u64,
) -> [FrameCode; 3] {
    let location = lines.find_location(probe);
    match functions.find_inlined_functions(alloc, place, probe) {
        Ok(inlined) => codes_of(
            alloc,
            FrameIter::new_function(
                functions,
                place,
                inlined.as_slice(),
                Some(lines),
                None,
                location,
            ),
        ),
        Err(_) => FAULT,
    }
}

// The same of the function with the address, or its location alone.
fn frames_by<'a>(
    alloc: Global,
    functions: Functions<EndianSlice<'a>>,
    dwarf: &Dwarf<EndianSlice<'a>>,
    unit: &Unit<EndianSlice<'a>>,
    lines: &Lines,
    probe: u64,
) -> [FrameCode; 3]
    requires unit { AreNamesIn (sup_scope (record { sections = dwarf.now; units = [] }))
        unit.now functions.names }
{
    let mut functions = functions;
    let Some(place) = functions.find(probe) else {
        return codes_of(alloc, FrameIter::new_location(lines.find_location(probe)));
    };
    let file = FileUnits { dwarf, units: None };
    match functions.read(Scope { file, sup: None }, unit, place) {
        Ok(()) => frames_at(alloc, &functions, place, lines, probe),
        Err(_) => FAULT,
    }
}

fn frames_with<'a>(
    alloc: Global,
    lines: Lines,
    dwarf: &Dwarf<EndianSlice<'a>>,
    unit: &Unit<EndianSlice<'a>>,
    probe: u64,
) -> [FrameCode; 3] {
    let file = FileUnits { dwarf, units: None };
    match Functions::parse(alloc, Scope { file, sup: None }, unit) {
        Ok(functions) => frames_by(alloc, functions, dwarf, unit, &lines, probe),
        Err(_) => FAULT,
    }
}

// The same of a unit.
fn frames_in<'a>(
    alloc: Global,
    dwarf: &Dwarf<EndianSlice<'a>>,
    unit: &Unit<EndianSlice<'a>>,
    probe: u64,
) -> [FrameCode; 3] {
    match Lines::parse(alloc, dwarf, unit) {
        Ok(lines) => frames_with(alloc, lines, dwarf, unit, probe),
        Err(_) => FAULT,
    }
}

// The same of the first unit.
fn told(alloc: Global, probe: u64) -> [FrameCode; 3] {
    let dwarf = dwarf_of(NAMED, NAMED_INFO, &LINE);
    match first_unit(alloc, &dwarf) {
        Ok(unit) => frames_in(alloc, &dwarf, &unit, probe),
        Err(_) => FAULT,
    }
}

#[test]
fn the_innermost_inlined_function_is_the_first_frame(rt: HostRuntime) {
    let none = [0; 3];
    let cases: [(u64, [FrameCode; 3]); 3] = [
        // "g" at 0x31 at line 3, called at line 7 without a column by "f" at 0x22.
        (
            0x24,
            [[0x31, 0x67, 1_003_000], [0x22, 0x66, 1_007_999], none],
        ),
        (0x2a, [[0x22, 0x66, 1_003_000], none, none]),
        (0x30, [none; 3]),
    ];
    for (probe, want) in cases {
        assert_eq!(rt; told(rt.alloc(), probe), want);
    }
}

// Whether the texts of a name are these: that of the file, and that in its language.
fn has_texts(alloc: Global, name: &[u8], language: Option<DwLang>, texts: [&str; 2]) -> bool {
    let bytes = little(name);
    let name = FunctionName {
        name: &bytes,
        language,
    };
    match (name.raw_name(alloc), name.demangle(alloc)) {
        (Ok(raw), Ok(text)) => raw.as_str() == texts[0] && text.as_str() == texts[1],
        _ => false,
    }
}

#[test]
fn a_name_has_the_text_of_its_language(rt: HostRuntime) {
    let cases: [(&[u8], Option<DwLang>, [&str; 2]); 3] = [
        (b"_ZN4test1aE", None, ["_ZN4test1aE", "test::a"]),
        (
            b"_ZN4test1aE",
            Some(DwLang(2)),
            ["_ZN4test1aE", "_ZN4test1aE"],
        ),
        (b"a\xff", None, ["a\u{fffd}", "a\u{fffd}"]),
    ];
    for (name, language, texts) in cases {
        assert_eq!(rt; has_texts(rt.alloc(), name, language, texts), true);
    }
}
