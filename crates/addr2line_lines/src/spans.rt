//! What is left of a sequence that a range of addresses meets.

ghost use Rattle.std.specs.Prelude.{◌≤◌, length};

use crate::packed::PackedRows;

// The rows of a sequence that are still to come and that a range meets: from a place up to another.
// It has no `Model`, so that what holds one is seen to hold nothing but references.
#[derive(Drop)]
pub(crate) struct SequenceSpans<'a> {
    pub(crate) packed: &'a PackedRows,
    pub(crate) place: usize,
    pub(crate) until: usize,
    pub(crate) end: u64,
    pub(crate) low: u64,
    pub(crate) high: u64,
    ghost inside: { until ≤ length packed.now.rows },
}
