//! Locations by the lines of one unit.

use crate::calls::{Place, Row};
use crate::lines::{Lines, Span};
use crate::pick::pick;
use gimli::read::{Error, Range};
use std::alloc::Global;

// The low 32 bits of a number.
fn low_bits(number: u64) -> u32 {
    (number & 0xffff_ffff) as u32
}

// The number, none where it is 0.
fn nonzero(number: u32) -> Option<u32> {
    if number == 0 { None } else { Some(number) }
}

/// The text of the file of an index; none past the table.
pub fn file_of(alloc: Global, lines: &Lines, index: u64) -> Result<Option<String>, Error> {
    for (place, text) in lines.files.iter().enumerate() {
        if place as u64 == index {
            return Ok(Some(String::from_str(alloc, text.as_str())?));
        }
    }
    Ok(None)
}

// The place of a row: line 0 gives neither line nor column.
fn place_of(alloc: Global, lines: &Lines, span: Span) -> Result<Place, Error> {
    let line = nonzero(low_bits(span.row.line));
    let column = match line {
        Some(_) => Some(low_bits(span.row.column)),
        None => None,
    };
    Ok(Place {
        file: file_of(alloc, lines, span.row.file_index)?,
        line,
        column,
    })
}

/// The place of a call: each of line and column 0 is none.
pub fn call_place(
    alloc: Global,
    lines: &Lines,
    [file, line, column]: [Option<u64>; 3],
) -> Result<Place, Error> {
    let file = match file {
        Some(index) => file_of(alloc, lines, index)?,
        None => None,
    };
    Ok(Place {
        file,
        line: nonzero(low_bits(line.unwrap_or(0))),
        column: nonzero(low_bits(column.unwrap_or(0))),
    })
}

/// The location of an address: of the picked sequence, the row whose span holds it.
pub fn location_of(alloc: Global, lines: &Lines, probe: u64) -> Result<Option<Place>, Error> {
    let mut listed = Vec::new(alloc);
    for (place, sequence) in lines.sequences.iter().enumerate() {
        let range = Range {
            begin: sequence.start,
            end: sequence.end,
        };
        listed.push((range, place))?;
    }
    let Some(place) = pick(listed.as_slice(), probe) else {
        return Ok(None);
    };
    let Some(sequence) = lines.sequences.get(place) else {
        return Ok(None);
    };
    for span in &sequence.spans {
        if span.row.address <= probe && probe < span.end {
            return Ok(Some(place_of(alloc, lines, *span)?));
        }
    }
    Ok(None)
}

/// The rows of a unit below `high` whose spans end above `low`, sequence after sequence by start,
/// end and place in the program.
pub fn rows_of(
    alloc: Global,
    lines: &Lines,
    low: u64,
    high: u64,
    rows: &mut Vec<Result<Row, Error>>,
) -> Result<(), Error> {
    let mut order = Vec::new(alloc);
    for (place, sequence) in lines.sequences.iter().enumerate() {
        order.push((sequence.start, sequence.end, place))?;
    }
    order.sort()?;
    for (_, _, place) in &order {
        if let Some(sequence) = lines.sequences.get(*place) {
            for span in &sequence.spans {
                if span.row.address < high && span.end > low {
                    rows.push(Ok(Row {
                        address: span.row.address,
                        length: span.end.wrapping_sub(span.row.address),
                        place: place_of(alloc, lines, *span)?,
                    }))?;
                }
            }
        }
    }
    Ok(())
}
