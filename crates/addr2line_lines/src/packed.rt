//! The rows and the sequences of a unit, as they are searched.

ghost use Rattle.std.specs.Prelude.{◌≡◌, [], ◌<◌, ◌^◌, length, slice_get, Some, IfOk, OnOk, OnErr};
ghost use Rattle.std.specs.List.{AllByRecursion};
ghost use Rattle.addr2line_lines.specs.InOrder.{in_order};
ghost use Rattle.addr2line_lines.specs.StoredRows.{Short};
ghost use Rattle.addr2line_lines.specs.Packed.{AreBlocks, IsAmong, row_address_at, IsTable, packed_rows_in, packed_sooner};

use crate::count::Count;
use crate::row::Row;
use crate::rows::Rows;
use crate::search::{BLOCK_ROWS, Table};
use crate::sequence::{LineSequence, UnitRows};
use std::alloc::{AllocError, Global};
use std::marker::Model;
use std::snapshot::Snapshot;

/// The rows of a unit, the first address of each block of them, and the sequences.
#[derive(Drop)]
pub(crate) struct PackedRows {
    rows: Rows,
    coarse: Vec<u64>,
    // By start, then end, then place in the program.
    sequences: Vec<LineSequence>,
    // The same in the program's order, for contracts alone: it has no bytes.
    listed: Snapshot<Vec<LineSequence>>,
}

impl Model for PackedRows {
    ghost use Rattle.addr2line_lines.specs.Packed.{IsPacked, Packed};

    ghost Value = { Packed };

    ghost view = { λ p. record {
      rows = p.rows.rows;
      width = p.rows.width;
      listed = p.listed.value.items;
      sequences = p.sequences.items;
    } };

    ghost invariant = { λ p. IsPacked p.rows.rows p.coarse.items p.listed.value.items
        p.sequences.items };
}

// The first address of each block.
fn first_addresses(alloc: Global, rows: &Rows) -> Result<Vec<u64>, AllocError>
    ensures gives { IfOk result (λ coarse. AreBlocks rows.now.rows coarse.items) }
{
    let count = rows.len() / BLOCK_ROWS + usize::from(rows.len() % BLOCK_ROWS > 0);
    let mut coarse = Vec::with_capacity(alloc, count)?;
    for block in 0..count {
        coarse.push(rows.address(BLOCK_ROWS * block))?;
    }
    Ok(coarse)
}

// Puts sequences in order of start, then end, then place in the program.
//
// Fails only where a growth is refused, and then their order is as before.
fn sort_sequences(sequences: &mut Vec<LineSequence>) -> Result<(), AllocError>
    ensures gives { OnOk result (sequences.new.items ≡
        in_order packed_sooner sequences.old.items) }
    ensures refused { OnErr result (sequences.new.items ≡ sequences.old.items) }
{
    sequences.sort_by_key(|sequence| (sequence.start, sequence.end))
}

impl PackedRows {
    /// No rows and no sequences. Takes no memory.
    pub(crate) fn none(alloc: Global) -> PackedRows
        ensures rows { result.rows ≡ [] }
        ensures width { result.width ≡ Short 0 }
        ensures sequences { result.listed ≡ [] }
    {
        let sequences = Vec::new(alloc);
        PackedRows {
            rows: Rows::new(alloc),
            coarse: Vec::new(alloc),
            listed: Snapshot::of(&sequences),
            sequences,
        }
    }

    /// Rows and sequences, which are put in order. Fails only where a growth is refused.
    pub(crate) fn new(alloc: Global, unit: UnitRows) -> Result<PackedRows, AllocError>
        requires among { AllByRecursion (IsAmong unit.rows.rows) unit.sequences.items }
        requires no_others { length unit.rows.rows ≡ packed_rows_in unit.sequences.items }
        ensures rows { IfOk result (λ p. p.rows ≡ unit.rows.rows) }
        ensures width { IfOk result (λ p. p.width ≡ unit.rows.width) }
        ensures sequences { IfOk result (λ p. p.listed ≡ unit.sequences.items) }
    {
        let coarse = first_addresses(alloc, &unit.rows)?;
        let listed = Snapshot::of(&unit.sequences);
        let mut sequences = unit.sequences;
        sort_sequences(&mut sequences)?;
        Ok(PackedRows {
            rows: unit.rows,
            coarse,
            sequences,
            listed,
        })
    }

    /// A row by its place.
    pub(crate) fn row(&self, place: usize) -> Row
        requires within { place < length self.now.rows }
        ensures gives { slice_get self.now.rows place ≡ Some result }
    {
        self.rows.row(place)
    }

    /// The address of a row by its place.
    pub(crate) fn address(&self, place: usize) -> u64
        requires within { place < length self.now.rows }
        ensures gives { result ≡ row_address_at self.now.rows place }
    {
        self.rows.address(place)
    }

    /// The sequences, in order.
    pub(crate) fn sequences(&self) -> &[LineSequence]
        ensures gives { result.now ≡ self.now.sequences }
    {
        &self.sequences
    }

    /// What holds of the rows and sequences.
    pub(crate) fn known(&self)
        ensures sequences { IsTable self.now.sequences self.now.rows }
        ensures gives { self.now.sequences ≡ in_order packed_sooner self.now.listed }
        ensures within { AllByRecursion (IsAmong self.now.rows) self.now.listed }
        ensures bound { length self.now.sequences < 2 ^ 64 }
        ensures whole { length self.now.rows ≡ packed_rows_in self.now.listed }
    {
        let _rows = self.rows.len();
        let _sequences = self.sequences.len();
    }
}

/// Rows and sequences that are looked at, and how often that was.
#[derive(Drop)]
pub(crate) struct CountedRows<'a> {
    /// What is searched.
    pub packed: &'a PackedRows,
    /// How often it was looked at.
    pub steps: Count,
}

impl<'a> Table for CountedRows<'a> {
    ghost steps = { λ l. l.steps };

    ghost sequences = { λ l. l.packed.now.sequences };

    ghost rows = { λ l. l.packed.now.rows };

    fn len(&self) -> usize {
        let packed = self.packed;
        packed.sequences.len()
    }

    fn sequence(&mut self, place: usize) -> LineSequence {
        self.steps.tick();
        let packed = self.packed;
        packed.sequences[place]
    }

    fn block(&mut self, place: usize) -> u64 {
        self.steps.tick();
        let packed = self.packed;
        packed.coarse[place]
    }

    fn row(&mut self, place: usize) -> Row {
        self.steps.tick();
        let packed = self.packed;
        packed.rows.row(place)
    }
}
