//! The sequences of a unit's line program with their spans, and the texts of its files.

use crate::path::push_reader;
use gimli::read::{AttributeValue, DWARF_5, Error, Reader};
use gimli::{Dwarf, FileEntry, LineProgramHeader, LineRow, Unit};
use std::alloc::Global;

/// The addresses that one row describes, and the row.
#[derive(Clone, Copy)]
pub struct Span {
    /// Where it ends.
    pub end: u64,
    /// The row.
    pub row: LineRow,
}

/// The rows up to an end row, each address once.
#[derive(Drop)]
pub struct Sequence {
    /// The address of the first row.
    pub start: u64,
    /// The address of the end row.
    pub end: u64,
    /// The spans, by address.
    pub spans: Vec<Span>,
}

/// The sequences of a unit, in the order of the program, and its files by index.
#[derive(Drop)]
pub struct Lines {
    /// The sequences whose start is below their end.
    pub sequences: Vec<Sequence>,
    /// The texts of the files.
    pub files: Vec<String>,
}

impl Lines {
    // The addresses of rows and the ends of sequences.
    pub(crate) fn list_ends(&self, found: &mut Vec<u64>) -> Result<(), Error> {
        for sequence in &self.sequences {
            for span in &sequence.spans {
                found.push(span.row.address)?;
            }
            found.push(sequence.end)?;
        }
        Ok(())
    }
}

// The spans of a sequence: of rows at one address the last counts, and it runs to the least greater
// address of a row, or to the end.
fn spans_of(alloc: Global, rows: &[LineRow], end: u64) -> Result<Vec<Span>, Error> {
    let mut spans = Vec::new(alloc);
    for (place, row) in rows.iter().enumerate() {
        let is_last = !rows
            .iter()
            .skip(place)
            .skip(1)
            .any(|other| other.address == row.address);
        if is_last {
            let mut next = end;
            for other in rows {
                if other.address > row.address && other.address < next {
                    next = other.address;
                }
            }
            spans.push(Span {
                end: next,
                row: *row,
            })?;
        }
    }
    Ok(spans)
}

// The sequence of these rows, if it describes an address and counts.
fn sequence_of(alloc: Global, rows: &[LineRow], end: LineRow) -> Result<Option<Sequence>, Error> {
    let Some(first) = rows.first() else {
        return Ok(None);
    };
    if end.dropped || first.address >= end.address {
        return Ok(None);
    }
    Ok(Some(Sequence {
        start: first.address,
        end: end.address,
        spans: spans_of(alloc, rows, end.address)?,
    }))
}

// The sequences of the rows of a program. Rows that no end row follows count for nothing.
fn sequences_of(alloc: Global, rows: &[LineRow]) -> Result<Vec<Sequence>, Error> {
    let mut sequences = Vec::new(alloc);
    let mut group = Vec::new(alloc);
    for row in rows {
        if row.end_sequence {
            if let Some(sequence) = sequence_of(alloc, group.as_slice(), *row)? {
                sequences.push(sequence)?;
            }
            group.clear();
        } else {
            group.push(*row)?;
        }
    }
    Ok(sequences)
}

// The text of a file: the unit's directory, the file's unless its index is 0, and its path.
fn file_text<R: Reader>(
    alloc: Global,
    dwarf: &Dwarf<R>,
    unit: &Unit<R>,
    header: &LineProgramHeader<R>,
    file: &FileEntry<R>,
) -> Result<String, Error> {
    let mut text = directory_text(alloc, unit)?;
    if file.directory_index() != 0 {
        if let Some(directory) = file.directory(header)? {
            text = push_value(alloc, dwarf, unit, text, directory)?;
        }
    }
    push_value(alloc, dwarf, unit, text, file.path_name()?)
}

// The unit's directory, or no text.
fn directory_text<R: Reader>(alloc: Global, unit: &Unit<R>) -> Result<String, Error> {
    match &unit.comp_dir {
        Some(directory) => push_reader(alloc, String::new(alloc), directory),
        None => Ok(String::new(alloc)),
    }
}

fn push_value<R: Reader>(
    alloc: Global,
    dwarf: &Dwarf<R>,
    unit: &Unit<R>,
    text: String,
    value: AttributeValue<R>,
) -> Result<String, Error> {
    let part = dwarf.attr_string(unit, value)?;
    push_reader(alloc, text, &part)
}

// The text of index 0 in versions 2 to 4: the unit's own name, or none.
fn own_text<R: Reader>(alloc: Global, unit: &Unit<R>) -> Result<String, Error> {
    match &unit.name {
        Some(name) => push_reader(alloc, directory_text(alloc, unit)?, name),
        None => Ok(String::new(alloc)),
    }
}

// The texts of all files, by index.
fn file_texts<R: Reader>(
    alloc: Global,
    dwarf: &Dwarf<R>,
    unit: &Unit<R>,
    header: &LineProgramHeader<R>,
) -> Result<Vec<String>, Error> {
    let mut texts = Vec::new(alloc);
    if header.version() < DWARF_5 {
        texts.push(own_text(alloc, unit)?)?;
    }
    for file in header.file_names() {
        texts.push(file_text(alloc, dwarf, unit, header, file)?)?;
    }
    if texts.is_empty() {
        texts.push(String::new(alloc))?;
    }
    Ok(texts)
}

/// The lines of a unit; none where it has no line program.
///
/// Refused by the first fault of its rows, else of the texts of its files.
pub fn lines_of<R: Reader>(
    alloc: Global,
    dwarf: &Dwarf<R>,
    unit: &Unit<R>,
) -> Result<Lines, Error> {
    let mut listed = Vec::new(alloc);
    let Some(program) = &unit.line_program else {
        return Ok(Lines {
            sequences: Vec::new(alloc),
            files: Vec::new(alloc),
        });
    };
    let mut rows = program.rows()?;
    for _ in 0..u64::MAX {
        match rows.next_row()? {
            Some(row) => listed.push(row)?,
            None => break,
        }
    }
    let files = file_texts(alloc, dwarf, unit, rows.header())?;
    Ok(Lines {
        sequences: sequences_of(alloc, listed.as_slice())?,
        files,
    })
}
