//! Sequences, from the rows of a line program.

ghost use Rattle.std.specs.Prelude.{◌≡◌, ◌+◌, [], ◌∷◌, ◌++◌, drop, map, length, option_map, true, false, IfOk, IfSome, Ok, OnErr, OnOk};
ghost use Rattle.std.specs.List.{AllByRecursion};
ghost use Rattle.addr2line_lines.specs.Common.{last, ExactlyUnlessOom, result_map};
ghost use Rattle.addr2line_lines.specs.Rows.{read_all};
ghost use Rattle.addr2line_lines.specs.UnitLines.{IsFaultAtOnce};
ghost use Rattle.addr2line_lines.specs.Sequences.{sequences_of};
ghost use Rattle.gimli_line.specs.Rises.{NeverFalls};
ghost use Rattle.addr2line_lines.specs.Packed.{IsAmong, RowsEndBy, packed_rows_in, unpacked};
ghost use Rattle.addr2line_lines.specs.Building.{closed, built_ended, has_address, need_width, nothing_stored, stored_rows, without_last};
ghost use Rattle.addr2line_lines.specs.StoredRows.{stores, width_after};

use crate::row::{Row, stored_row};
use crate::rows::Rows;
use gimli_line::{LineRow, LineRows, RowSink};
use gimli_read::{Error, Reader};
use std::alloc::{AllocError, Global};
use std::marker::Model;

/// The rows up to an end row, of each address one, by address: a place among the unit's rows.
#[derive(Clone, Copy)]
pub struct LineSequence {
    /// The address of the first row.
    pub start: u64,
    /// The end address, which is no longer of the sequence.
    pub end: u64,
    /// The place of the first row.
    pub first: usize,
    /// The number of rows.
    pub len: usize,
}

// The sequence of the rows from place `first` on with their end row, if they are one.
fn closed(rows: &Rows, first: usize, end: LineRow) -> Option<LineSequence>
    ensures gives { option_map (unpacked rows.now.rows) result ≡
        closed (drop first rows.now.rows) end }
    ensures found { IfSome result (λ s. s.first ≡ first) }
    ensures whole { IfSome result (λ s. s.first + s.len ≡ length rows.now.rows) }
{
    let len = rows.len().saturating_sub(first);
    if len == 0 || end.dropped {
        return None;
    }
    let start = rows.address(first);
    if start >= end.address {
        return None;
    }
    Some(LineSequence {
        start,
        end: end.address,
        first,
        len,
    })
}

// The rows so far, and the sequences of those before the first one of the sequence that goes on.
#[derive(Drop)]
struct Builder {
    alloc: Global,
    rows: Rows,
    sequences: Vec<LineSequence>,
    first: usize,
}

impl Model for Builder {
    ghost use Rattle.addr2line_lines.specs.Building.{StoredBuilt, built, IsBuilder};

    ghost Value = { StoredBuilt };

    ghost view = { λ b. record {
      built = built b.rows.rows b.sequences.items b.first;
      width = b.rows.width;
    } };

    ghost invariant = { λ b. IsBuilder b.rows.rows b.sequences.items b.first };
}

impl Builder {
    // Nothing yet.
    fn new(alloc: Global) -> Builder
        ensures gives { result ≡ nothing_stored }
    {
        Builder {
            alloc,
            rows: Rows::new(alloc),
            sequences: Vec::new(alloc),
            first: 0,
        }
    }

    // Ends the sequence that goes on; where it is none, its rows are dropped.
    fn close(&mut self, end: LineRow) -> Result<(), AllocError>
        ensures gives { OnOk result (self.new.built ≡ built_ended self.old.built end) }
        ensures width { OnOk result (self.new.width ≡ self.old.width) }
    {
        match closed(&self.rows, self.first, end) {
            Some(sequence) => {
                self.sequences.push(sequence)?;
                self.first = self.rows.len();
            }
            None => self.rows.truncate(self.first),
        }
        Ok(())
    }

    // Takes a row of the sequence that goes on: it replaces the last one, if that has its address,
    // or follows it. To replace one is refused only where it can't be stored as the others are.
    #[inline(always)]
    fn put(&mut self, row: Row) -> Result<(), AllocError>
        ensures gives { OnOk result (self.new.built ≡ record self.old.built {
          pending = without_last row.address self.old.built.pending ++ row ∷ [];
        }) }
        ensures width { OnOk result (self.new.width
            ≡ width_after (stored_rows self.old.built) self.old.width row) }
        ensures memory { OnErr result (has_address row.address (last self.old.built.pending) ≡ true
            → stores self.old.width row ≡ false) }
    {
        self.rows.put(self.alloc, self.first, row)
    }

    // The rows and the sequences, without the rows that no end row follows.
    fn finish(self) -> UnitRows
        ensures gives { map (unpacked result.rows.rows) result.sequences.items ≡
            self.built.sequences }
        ensures width { result.rows.width ≡ self.width }
        ensures within { AllByRecursion (RowsEndBy (length result.rows.rows))
            result.sequences.items }
        ensures whole { length result.rows.rows ≡ packed_rows_in result.sequences.items }
    {
        let mut rows = self.rows;
        let mut sequences = self.sequences;
        rows.truncate(self.first);
        rows.shrink();
        sequences.shrink_to_fit();
        UnitRows { rows, sequences }
    }
}

impl RowSink for Builder {
    ghost use Rattle.addr2line_lines.specs.Building.{stored_taken};

    ghost taken = { stored_taken };

    // An end row ends the sequence that goes on.
    #[inline(always)]
    fn take(&mut self, row: LineRow) -> Result<(), AllocError> {
        if row.end_sequence {
            return self.close(row);
        }
        self.put(stored_row(&row))
    }
}

/// The rows of a unit, and its sequences among them in the program's order.
#[derive(Drop)]
pub(crate) struct UnitRows {
    /// The rows of the sequences, in the program's order.
    pub rows: Rows,
    /// The sequences.
    pub sequences: Vec<LineSequence>,
}

// Within a sequence the addresses of the rows to come don't fall.
fn never_falls<R: Reader>(rows: &LineRows<R>)
    ensures law { IfOk (read_all rows.now.left) NeverFalls }
{
    rows.rises();
}

/// The rows and sequences of a line program. Rows take twelve bytes each, unless one that isn't an
/// end row has a file index or a column past 65,535, or another upper half of its address than the
/// first row that is stored; where none is stored any more, the next one takes its place.
///
/// Refused with the program's fault; may fail with `OutOfMemory` instead, unless the fault comes
/// before the first row and before a file is defined.
pub(crate) fn read_sequences<R: Reader>(
    alloc: Global,
    rows: &mut LineRows<R>,
) -> Result<UnitRows, Error>
    ensures gives { ExactlyUnlessOom (λ u. map (unpacked u.rows.rows) u.sequences.items) result
        (result_map sequences_of (read_all rows.old.left)) }
    ensures width { IfOk result (λ u.
        result_map need_width (read_all rows.old.left) ≡ Ok u.rows.width) }
    ensures within { IfOk result (λ u. AllByRecursion (IsAmong u.rows.rows) u.sequences.items) }
    ensures whole { IfOk result (λ u.
        length u.rows.rows ≡ packed_rows_in u.sequences.items) }
    ensures files { OnOk result
        (rows.new.header.file_names ≡ rows.old.header.file_names ++ rows.old.to_define) }
    ensures exact { IsFaultAtOnce rows.old result }
{
    never_falls(rows);
    let mut builder = Builder::new(alloc);
    rows.take_rows(&mut builder)?;
    Ok(builder.finish())
}
