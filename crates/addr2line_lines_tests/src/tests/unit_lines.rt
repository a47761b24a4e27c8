//! The lines of a unit: the texts of its files, its rows, and the range of its root.

use crate::sections::{dwarf_of, fault_code, first_unit, lines_of};
use crate::vectors::{ABBREV, INFO, LINE};
use addr2line_lines::{Lines, RangeAttributes};
use addr2line_units::attributes::read_unit_attributes;
use gimli::UnitRef;
use gimli::read::{Error, Range};
use std::alloc::Global;

// The text of a file: 1 for an empty one, 2 for "/w/a.c", 3 for another; 0 where there is none.
fn file_code(lines: &Lines, index: u64) -> u32 {
    match lines.file(index) {
        Some("") => 1,
        Some("/w/a.c") => 2,
        Some(_) => 3,
        None => 0,
    }
}

// The texts of the files 0 to 2, and the line at 0x20; a fault's number in each place.
fn files_and_line(alloc: Global) -> [u32; 4] {
    match lines_of(alloc, &INFO, &LINE) {
        Ok(lines) => {
            let [own, first, past] = [0, 1, 2].map(|index| file_code(&lines, index));
            let location = lines.find_location(0x20);
            [
                own,
                first,
                past,
                location.and_then(|location| location.line).unwrap_or(0),
            ]
        }
        Err(error) => [fault_code(error); 4],
    }
}

// The range of the unit's root.
fn root_range(alloc: Global) -> Result<Option<Range>, Error> {
    let dwarf = dwarf_of(&ABBREV, &INFO, &LINE);
    let unit = first_unit(alloc, &dwarf)?;
    Ok(
        read_unit_attributes(UnitRef::new(&dwarf, &unit))?
            .ranges
            .range(),
    )
}

// The same by its begin and its end, without any attribute too; zeros where there is none.
fn root_ranges(alloc: Global) -> [u64; 4] {
    let none = RangeAttributes::new()
        .range()
        .map_or([0; 2], |range| [range.begin, range.end]);
    let found = match root_range(alloc) {
        Ok(range) => range.map_or([0; 2], |range| [range.begin, range.end]),
        Err(error) => [u64::from(fault_code(error)); 2],
    };
    [found[0], found[1], none[0], none[1]]
}

#[test]
fn the_lines_of_a_unit(rt: HostRuntime) {
    assert_eq!(rt; files_and_line(rt.alloc()), [1, 2, 0, 3]);
    assert_eq!(rt; root_ranges(rt.alloc()), [0x10, 0x30, 0, 0]);
}
