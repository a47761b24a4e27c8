//! The rows that a range of addresses meets, as C gets them.

ghost use Rattle.std.specs.Prelude.{◌≡◌, ◌≢◌, ◌++◌, ℕ, List, IfErr, IfOk, Ok, drop, length, nat_le, take};
ghost use Rattle.gimli_read.specs.declared.error.Error.TheVariants.{OutOfMemory as RefusedMemory};
ghost use Rattle.addr2line_c.specs.Common.{result_map, Sections, OutOfMemory, spans_of, IsReadyForRange};
ghost use Rattle.addr2line_lines.specs.RangesLeft.{as_located};
ghost use Rattle.addr2line_units.specs.LocationsLeft.{locations_left};
ghost use Rattle.addr2line_c.specs.declared.status.Status.TheVariants.{Refused};
ghost use Rattle.addr2line_c.specs.Answered.{IfNothing, done_if};
ghost use Rattle.addr2line_c.specs.Filled.{IsFilled};
ghost use Rattle.addr2line_c.specs.Left.{LeavesRange, was_made};
ghost use Rattle.addr2line_c.specs.Status.{after_reply};
ghost use Rattle.addr2line_c.specs.Texts.{zero_ended};
ghost use Rattle.addr2line_c.specs.WrittenSpans.{SaysSpans, spans_from, texts_of_span, texts_of_spans, written_span, written_spans};

use crate::fill::fill;
use crate::location::{WrittenLocation, put_location};
use crate::status::{Status, done_if, status_of_error};
use addr2line::gimli::read::{Error, Reader};
use addr2line::{Context, Location, LocationRangeIter};

/// A row that a range of addresses meets, as C gets it.
#[repr(C)]
#[derive(Clone, Copy)]
pub struct WrittenSpan {
    /// The address of the row, as the file has it.
    pub address: u64,
    /// How many addresses it describes.
    pub length: u64,
    /// Its location.
    pub location: WrittenLocation,
    /// 0, and the status of a fault that stands in the place of a unit's rows.
    pub status: u32,
}

// A row, or the fault in its place, with its text after those of the buffer.
fn put_span(
    buffer: &mut [u8],
    used: &mut usize,
    span: Result<(u64, u64, Location<'_>), Error>,
) -> WrittenSpan
    ensures gives { (before : List (List ℕ)) → IsFilled used.old buffer.old (zero_ended before)
        → IsFilled used.new buffer.new (zero_ended (before
        ++ texts_of_span (result_map as_located span.entry))) }
    ensures made { (before : List (List ℕ)) → IsFilled used.old buffer.old (zero_ended before)
        → result ≡ written_span before (result_map as_located span.entry) }
    ensures kept { length buffer.new ≡ length buffer.old }
{
    match span {
        Ok((address, length, location)) => WrittenSpan {
            address,
            length,
            location: put_location(buffer, used, Some(location)),
            status: Status::Done.number(),
        },
        Err(error) => WrittenSpan {
            address: 0,
            length: 0,
            location: put_location(buffer, used, None),
            status: status_of_error(error).number(),
        },
    }
}

// Passes over rows and faults.
fn skip_spans<R: Reader>(spans: &mut LocationRangeIter<'_, R>, count: u64)
    ensures gives { locations_left spans.new ≡ drop count (locations_left spans.old) }
{
    let mut left = count;
    while left > 0 {
        if let Ok(None) = spans.next_loc() {
            return;
        }
        left -= 1;
    }
}

// The rows and faults that are left, as many as `out` has room for, with their texts in the buffer.
// Gives how many these are, and writes how many bytes their texts need.
fn put_spans<R: Reader>(
    spans: &mut LocationRangeIter<'_, R>,
    out: &mut [WrittenSpan],
    buffer: &mut [u8],
    needed: &mut usize,
) -> usize
    ensures gives { IsFilled result out.new
        (written_spans (take (length out.old) (locations_left spans.old))) }
    ensures left { IsFilled needed.new buffer.new
        (zero_ended (texts_of_spans (take (length out.old) (locations_left spans.old)))) }
    ensures kept { (length out.new ≡ length out.old) × (length buffer.new ≡ length buffer.old) }
{
    let mut count = 0;
    *needed = 0;
    while count < out.len() {
        let Some(span) = spans.next_loc().transpose() else {
            return count;
        };
        let written = put_span(buffer, needed, span);
        count = fill(out, count, &[written]);
    }
    count
}

// What was found of rows, from the one that has `first` before it on, with their texts in the
// buffer.
fn put_found_spans<R: Reader>(
    found: Result<LocationRangeIter<'_, R>, Error>,
    first: u64,
    out: &mut [WrittenSpan],
    count: &mut usize,
    buffer: &mut [u8],
    needed: &mut usize,
) -> Status
    ensures gives { (d : Sections) (low high : ℕ)
        → IfOk found.entry (λ spans. spans_of d low high ≡ Ok (locations_left spans))
        → IfErr found.entry (λ e. e ≡ RefusedMemory) → SaysSpans (spans_from d low high first
        (length out.old)) out.new count.new buffer.new needed.new result }
    ensures none { IfNothing result ((count.new ≡ 0) × (needed.new ≡ 0)) }
    ensures whole { result ≡ after_reply (was_made found.entry)
        (done_if (nat_le needed.new (length buffer.new))) }
{
    *count = 0;
    *needed = 0;
    match found {
        Ok(spans) => {
            let mut spans = spans;
            skip_spans(&mut spans, first);
            *count = put_spans(&mut spans, out, buffer, needed);
            done_if(*needed <= buffer.len())
        }
        Err(error) => status_of_error(error),
    }
}

/// The rows that a range of addresses meets, from the one that has `first` rows and faults before
/// it on, as many as `out` has room for, with their texts in the buffer.
pub(crate) fn find_spans<R: Reader>(
    context: &mut Context<R>,
    low: u64,
    high: u64,
    first: u64,
    out: &mut [WrittenSpan],
    count: &mut usize,
    buffer: &mut [u8],
    needed: &mut usize,
) -> Status
    ensures gives { SaysSpans (spans_from context.old.sections low high first (length out.old))
        out.new count.new buffer.new needed.new result }
    ensures none { IfNothing result ((count.new ≡ 0) × (needed.new ≡ 0)) }
    ensures left { LeavesRange low high (nat_le needed.new (length buffer.new)) result
        context.old context.new }
    ensures memory { IsReadyForRange context.old low high → result ≢ Refused OutOfMemory }
{
    put_found_spans(
        context.find_location_range(low, high),
        first,
        out,
        count,
        buffer,
        needed,
    )
}
