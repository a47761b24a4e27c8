//! The ranges of units that a search finds.

ghost use Rattle.addr2line_units.specs.IndexLeastBegins.{AreLeastBegins, AreOrdered};

use crate::index::IndexedRange;

/// The ranges that a search finds, in the order of their table.
// It has no `Model`, so that what holds one is seen to hold nothing but references.
#[derive(Drop)]
pub struct UnitRangeIter<'a> {
    pub(crate) ranges: &'a [IndexedRange],
    // The last address at which a range may begin.
    pub(crate) last: u64,
    ghost least: { AreLeastBegins ranges.now },
    ghost ordered: { AreOrdered ranges.now },
}
