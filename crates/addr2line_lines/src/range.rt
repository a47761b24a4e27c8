//! The rows of a unit that a range of addresses meets.

ghost use Rattle.std.specs.Prelude.{◌≡◌, ◌+◌, ◌<◌, ◌≤◌, ◌^◌, [], ◌∷◌, filter, flat_map, length, map};
ghost use Rattle.std.specs.Iterator.{YieldsFirst, YieldsFirstBy, item_count};
ghost use Rattle.std.specs.String.{string_bytes};
ghost use Rattle.addr2line_lines.specs.Packed.{IsAmong, unpacked};
ghost use Rattle.addr2line_lines.specs.RangeLocations.{located, located_in, meets};
ghost use Rattle.addr2line_lines.specs.RangesLeft.{packed_range, located_rows_left, as_located, as_span, spans_left, spans_of_sequence};
ghost use Rattle.addr2line_lines.specs.Spans.{spans};

use crate::location::{Location, row_location};
use crate::packed::PackedRows;
use crate::row::Row;
use crate::sequence::LineSequence;
use crate::spans::SequenceSpans;
use gimli_read::Range;
use std::marker::Model;

// A row and the end of its span.
#[derive(Clone, Copy)]
struct LineSpan {
    row: Row,
    end: u64,
}

impl LineSpan {
    // Whether the span begins below `high` and ends past `low`.
    fn meets(&self, low: u64, high: u64) -> bool
        ensures gives { result ≡ meets low high (as_span self.now) }
    {
        self.row.address < high && low < self.end
    }
}

// The span of the row at a place: up to the address of the next row before `until`, else up to
// `end`.
fn span_at(packed: &PackedRows, place: usize, until: usize, end: u64) -> LineSpan
    requires within { place < until }
    requires inside { until ≤ length packed.now.rows }
    ensures gives { spans_left end packed.now.rows place until ≡
        as_span result ∷ spans_left end packed.now.rows (place + 1) until }
{
    let row = packed.row(place);
    let next = place + 1;
    let end = if next < until {
        packed.address(next)
    } else {
        end
    };
    LineSpan { row, end }
}

// A span as the iterator gives it.
fn located(files: &[String], span: LineSpan) -> (u64, u64, Location<'_>)
    ensures gives { as_located result ≡ located (map string_bytes files.now) (as_span span) }
{
    let length = span.end.saturating_sub(span.row.address);
    (span.row.address, length, row_location(files, span.row))
}

impl<'a> SequenceSpans<'a> {
    // No rows.
    fn none(packed: &'a PackedRows) -> SequenceSpans<'a>
        ensures gives { spans_of_sequence result ≡ [] }
    {
        SequenceSpans {
            packed,
            place: 0,
            until: 0,
            end: 0,
            low: 0,
            high: 0,
        }
    }

    // The rows of a sequence.
    fn new(packed: &'a PackedRows, sequence: LineSequence, low: u64, high: u64) -> SequenceSpans<'a>
        requires few { length packed.now.rows < 2 ^ 64 }
        requires among { IsAmong packed.now.rows sequence }
        ensures gives { spans_of_sequence result ≡ filter (meets low high)
            (spans sequence.end (unpacked packed.now.rows sequence).rows) }
    {
        SequenceSpans {
            packed,
            place: sequence.first,
            until: sequence.first + sequence.len,
            end: sequence.end,
            low,
            high,
        }
    }

    // The next of them.
    fn next_span(&mut self) -> Option<LineSpan>
        ensures gives { YieldsFirstBy as_span spans_of_sequence self.old result self.new }
    {
        while self.place < self.until {
            let span = span_at(self.packed, self.place, self.until, self.end);
            self.place += 1;
            if span.meets(self.low, self.high) {
                return Some(span);
            }
        }
        None
    }
}

/// The rows of a unit's lines that a range of addresses meets: for each its address, the length of
/// its span, and its location.
#[derive(Drop)]
pub struct LineLocationRangeIter<'a> {
    files: &'a [String],
    packed: &'a PackedRows,
    low: u64,
    high: u64,
    // The place of the next sequence, and what is left of the one before it.
    next: usize,
    current: SequenceSpans<'a>,
}

impl<'a> LineLocationRangeIter<'a> {
    /// Those between `low` and `high`.
    pub(crate) fn new(
        files: &'a [String],
        packed: &'a PackedRows,
        low: u64,
        high: u64,
    ) -> LineLocationRangeIter<'a>
        ensures gives { located_rows_left result
            ≡ flat_map (located_in (map string_bytes files.now) low high)
            (map (unpacked packed.now.rows) packed.now.sequences) }
    {
        LineLocationRangeIter {
            files,
            packed,
            low,
            high,
            next: 0,
            current: SequenceSpans::none(packed),
        }
    }
}

impl<'a> Iterator for LineLocationRangeIter<'a> {
    type Item = (u64, u64, Location<'a>);

    ghost next_gives = { YieldsFirstBy as_located located_rows_left };

    ghost remaining = { item_count located_rows_left };

    /// The next row: its address, the length of its span, and its location. Takes no memory.
    fn next(&mut self) -> Option<(u64, u64, Location<'a>)> {
        loop {
            if let Some(span) = self.current.next_span() {
                return Some(located(self.files, span));
            }
            let packed = self.packed;
            packed.known();
            let sequence = *packed.sequences().get(self.next)?;
            self.current = SequenceSpans::new(packed, sequence, self.low, self.high);
            self.next += 1;
        }
    }
}

/// The ranges of the sequences of a unit's lines.
#[derive(Drop)]
pub struct LineRanges<'a> {
    sequences: &'a [LineSequence],
}

impl<'a> Model for LineRanges<'a> {
    ghost use Rattle.std.specs.Prelude.{List, map};
    ghost use Rattle.gimli_read.specs.declared.range.Range.{Range};
    ghost use Rattle.addr2line_lines.specs.RangesLeft.{packed_range};

    ghost Value = { List Range };

    ghost view = { λ r. map packed_range r.sequences.now };
}

impl<'a> LineRanges<'a> {
    /// Those of sequences.
    pub(crate) fn new(sequences: &'a [LineSequence]) -> LineRanges<'a>
        ensures gives { result ≡ map packed_range sequences.now }
    {
        LineRanges { sequences }
    }
}

impl<'a> Iterator for LineRanges<'a> {
    type Item = Range;

    ghost next_gives = { YieldsFirst (λ r. r) };

    ghost remaining = { item_count (λ r. r) };

    /// The range of the next sequence. Takes no memory.
    fn next(&mut self) -> Option<Range> {
        let (sequence, rest) = self.sequences.split_first()?;
        self.sequences = rest;
        Some(Range {
            begin: sequence.start,
            end: sequence.end,
        })
    }
}
