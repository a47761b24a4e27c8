//! The search for the row of an address, in any table whose reads count.

ghost use Rattle.std.specs.Prelude.{◌≡◌, ℕ, ◌+◌, ◌-◌, ◌*◌, ◌%◌, ◌<◌, ◌≤◌, ◌^◌, List, length, map, IfSome, Some, slice_get};
ghost use Rattle.addr2line_lines.specs.Common.{last};
ghost use Rattle.addr2line_lines.specs.Digits.{digits};
ghost use Rattle.addr2line_lines.specs.InOrder.{IsInOrder};
ghost use Rattle.addr2line_lines.specs.Packed.{ArePastFrom, IsAmong, IsTable, row_address_at, packed_sooner, packed_start, unpacked};
ghost use Rattle.addr2line_lines.specs.Counts.{block_rows, blocks, most_steps};
ghost use Rattle.addr2line_lines.specs.Pick.{at_or_below};
ghost use Rattle.addr2line_lines.specs.Spans.{row_address, row_at};
ghost use Rattle.addr2line_lines.specs.declared.row.Row.{Row as TableRow};
ghost use Rattle.addr2line_lines.specs.declared.sequence.LineSequence.{LineSequence as TableSequence};

use crate::row::Row;
use crate::sequence::LineSequence;

/// The number of rows of a block.
pub(crate) const BLOCK_ROWS: usize = 64;

/// Sequences and rows that are looked at one by one; each look counts.
pub(crate) trait Table {
    /// How often it was looked at.
    ghost steps: { Self → ℕ };

    ghost sequences: { Self → List TableSequence };

    ghost rows: { Self → List TableRow };

    /// The number of sequences.
    fn len(&self) -> usize
        ensures gives { result ≡ length (sequences self.now) };

    /// A look at a sequence.
    fn sequence(&mut self, place: usize) -> LineSequence
        requires within { place < length (sequences self.old) }
        ensures gives { slice_get (sequences self.old) place ≡ Some result }
        ensures steps { steps self.new ≡ steps self.old + 1 }
        ensures sequences { sequences self.new ≡ sequences self.old }
        ensures rows { rows self.new ≡ rows self.old };

    /// A look at the first address of a block.
    fn block(&mut self, place: usize) -> u64
        requires within { block_rows * place < length (rows self.old) }
        ensures gives { result ≡ row_address_at (rows self.old) (block_rows * place) }
        ensures steps { steps self.new ≡ steps self.old + 1 }
        ensures sequences { sequences self.new ≡ sequences self.old }
        ensures rows { rows self.new ≡ rows self.old };

    /// A look at a row.
    fn row(&mut self, place: usize) -> Row
        requires within { place < length (rows self.old) }
        ensures gives { slice_get (rows self.old) place ≡ Some result }
        ensures steps { steps self.new ≡ steps self.old + 1 }
        ensures sequences { sequences self.new ≡ sequences self.old }
        ensures rows { rows self.new ≡ rows self.old };
}

// The last of the sequences that start at or below the probe.
fn last_sequence<T: Table>(table: &mut T, probe: u64) -> Option<LineSequence>
    requires ordered { IsInOrder packed_sooner (T.sequences table.old) }
    ensures found { result ≡ last (at_or_below packed_start probe (T.sequences table.old)) }
    ensures bound { T.steps table.new
        ≤ T.steps table.old + digits (length (T.sequences table.old)) }
    ensures steps { T.steps table.old ≤ T.steps table.new }
    ensures sequences { T.sequences table.new ≡ T.sequences table.old }
    ensures rows { T.rows table.new ≡ T.rows table.old }
{
    let mut low = 0;
    let mut high = table.len();
    let mut best = None;
    while low < high {
        let middle = low + (high - low) / 2;
        let sequence = table.sequence(middle);
        if sequence.start <= probe {
            best = Some(sequence);
            low = middle + 1;
        } else {
            high = middle;
        }
    }
    best
}

// Where the walk begins: at the last block inside the sequence whose first row is at or below the
// probe, else at the sequence's first row.
fn first_row<T: Table>(table: &mut T, sequence: LineSequence, probe: u64) -> usize
    requires few { length (T.rows table.old) < 2 ^ 64 }
    requires among { IsAmong (T.rows table.old) sequence }
    requires below { sequence.start ≤ probe }
    ensures within { (sequence.first ≤ result) × (result < sequence.first + sequence.len) }
    ensures found { row_address_at (T.rows table.old) result ≤ probe }
    ensures none { ArePastFrom probe (T.rows table.old) sequence
        (result - result % block_rows + block_rows) }
    ensures bound { T.steps table.new
        ≤ T.steps table.old + digits (blocks (length (T.rows table.old))) }
    ensures steps { T.steps table.old ≤ T.steps table.new }
    ensures sequences { T.sequences table.new ≡ T.sequences table.old }
    ensures rows { T.rows table.new ≡ T.rows table.old }
{
    let last = sequence.first + (sequence.len - 1);
    let mut best = sequence.first;
    // Each step takes half, rounded up, whichever way the test goes, so that it needs no branch.
    let mut size = last / BLOCK_ROWS - best / BLOCK_ROWS + 1;
    while size > 1 {
        let half = size / 2;
        let middle = best / BLOCK_ROWS + half;
        if table.block(middle) <= probe {
            best = BLOCK_ROWS * middle;
        }
        size -= half;
    }
    best
}

// The last row of the sequence at or below the probe, by a walk inside one block.
fn last_row<T: Table>(table: &mut T, sequence: LineSequence, from: usize, probe: u64) -> Row
    requires few { length (T.rows table.old) < 2 ^ 64 }
    requires among { IsAmong (T.rows table.old) sequence }
    requires from { sequence.first ≤ from }
    requires inside { from < sequence.first + sequence.len }
    requires below { row_address_at (T.rows table.old) from ≤ probe }
    requires past { ArePastFrom probe (T.rows table.old) sequence
        (from - from % block_rows + block_rows) }
    ensures found { Some result ≡
        last (at_or_below row_address probe (unpacked (T.rows table.old) sequence).rows) }
    ensures bound { T.steps table.new ≤ T.steps table.old + block_rows }
    ensures steps { T.steps table.old < T.steps table.new }
    ensures sequences { T.sequences table.new ≡ T.sequences table.old }
    ensures rows { T.rows table.new ≡ T.rows table.old }
{
    let left = sequence.len - (from - sequence.first);
    let until = from + left.min(BLOCK_ROWS - from % BLOCK_ROWS);
    for next in from + 1..until {
        if table.row(next).address > probe {
            return table.row(next - 1);
        }
    }
    table.row(until - 1)
}

/// The row of the picked sequence whose span holds the probe. Takes no memory.
pub(crate) fn search<T: Table>(table: &mut T, probe: u64) -> Option<Row>
    requires table { IsTable (T.sequences table.old) (T.rows table.old) }
    ensures found { result ≡
        row_at probe (map (unpacked (T.rows table.old)) (T.sequences table.old)) }
    ensures bound { T.steps table.new ≤ T.steps table.old
        + most_steps (length (T.sequences table.old)) (length (T.rows table.old)) }
    ensures steps { T.steps table.old ≤ T.steps table.new }
    ensures some { IfSome result (λ row. T.steps table.old < T.steps table.new) }
    ensures sequences { T.sequences table.new ≡ T.sequences table.old }
    ensures rows { T.rows table.new ≡ T.rows table.old }
{
    let sequence = last_sequence(table, probe)?;
    if probe >= sequence.end {
        return None;
    }
    let from = first_row(table, sequence, probe);
    Some(last_row(table, sequence, from, probe))
}
