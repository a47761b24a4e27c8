//! Inlined entries and their ranges, as they are found.

ghost use Rattle.std.specs.Prelude.{◌≡◌};
ghost use Rattle.addr2line_lines.specs.Common.{ExactlyUnlessOomIf, ranges_at};
ghost use Rattle.addr2line_lines.specs.FoundInlined.{IsFoundMore, first_found, none_inlined, as_lists, with_inlined_found, with_inlined_list, with_inlined_ranges};
ghost use Rattle.addr2line_lines.specs.Grown.{IsGrown};
ghost use Rattle.addr2line_lines.specs.FoundAttributes.{as_attributes};
ghost use Rattle.addr2line_lines.specs.RangeAttributes.{begins_well, gives_a_range};

use crate::function::RangeAttributes;
use crate::inlined::InlinedAttributes;
use crate::inlined_functions::{InlinedCall, InlinedFunctions};
use crate::inlined_ranges::InlinedRanges;
use crate::picks::InlinedFunctionAddress;
use gimli::UnitRef;
use gimli::read::{Error, Reader, UnitOffset};
use std::alloc::Global;

// Inlined entries, and their ranges.
#[derive(Drop)]
pub(crate) struct InlinedLists<R: Reader> {
    alloc: Global,
    pub(crate) functions: InlinedFunctions<R>,
    pub(crate) ranges: InlinedRanges,
}

// Adds the ranges of a range list.
fn push_range_list<R: Reader>(
    unit: UnitRef<'_, R>,
    offset: u64,
    depth: usize,
    function: usize,
    ranges: &mut InlinedRanges,
) -> Result<(), Error>
    ensures gives { ExactlyUnlessOomIf
        (begins_well (ranges_at unit.entry.dwarf.now unit.entry.unit.now offset))
        (λ _. ranges.new.elements) result (with_inlined_list unit.entry.dwarf.now
        unit.entry.unit.now offset depth function ranges.old.elements) }
    ensures kept { IsGrown ranges.old.elements ranges.new.elements }
{
    let mut list = unit.ranges(offset)?;
    while let Some(range) = list.next()? {
        ranges.push(InlinedFunctionAddress {
            depth,
            range,
            function,
        })?;
    }
    Ok(())
}

// Adds the ranges of the range attributes of an inlined entry.
#[tactic(auto, using(crate::proofs::NestingLemmas::grown_not, crate::proofs::NestingLemmas::grown_by, crate::proofs::NestingLemmas::grown_on))]
fn push_ranges<R: Reader>(
    unit: UnitRef<'_, R>,
    attributes: &RangeAttributes,
    depth: usize,
    function: usize,
    ranges: &mut InlinedRanges,
) -> Result<(), Error>
    ensures gives { ExactlyUnlessOomIf
        (gives_a_range unit.entry.dwarf.now unit.entry.unit.now attributes.now)
        (λ _. ranges.new.elements) result (with_inlined_ranges unit.entry.dwarf.now
        unit.entry.unit.now attributes.now depth function ranges.old.elements) }
    ensures kept { IsGrown ranges.old.elements ranges.new.elements }
{
    match attributes.ranges_offset {
        Some(offset) => push_range_list(unit, offset, depth, function, ranges),
        None => {
            if let Some(range) = attributes.range() {
                ranges.push(InlinedFunctionAddress {
                    depth,
                    range,
                    function,
                })?;
            }
            Ok(())
        }
    }
}

impl<R: Reader> InlinedLists<R> {
    // None of either.
    pub(crate) fn new(alloc: Global) -> InlinedLists<R>
        ensures gives { as_lists result ≡ none_inlined }
    {
        InlinedLists {
            alloc,
            functions: InlinedFunctions::new(alloc),
            ranges: InlinedRanges::new(alloc),
        }
    }

    // Keeps the first inlined entries, and the first ranges.
    pub(crate) fn truncate(&mut self, functions: usize, ranges: usize)
        ensures gives { as_lists self.new ≡
            first_found functions ranges (as_lists self.old) }
    {
        self.functions.truncate(functions);
        self.ranges.truncate(ranges);
    }

    // Adds the inlined entry of attributes, if they give a range.
    pub(crate) fn add(
        &mut self,
        unit: UnitRef<'_, R>,
        offset: UnitOffset,
        depth: usize,
        attributes: InlinedAttributes<R>,
    ) -> Result<(), Error>
        ensures gives { ExactlyUnlessOomIf (gives_a_range unit.entry.dwarf.now unit.entry.unit.now
            attributes.ranges) (λ _. as_lists self.new) result (with_inlined_found
            unit.entry.dwarf.now unit.entry.unit.now offset.0 depth (as_lists self.old)
            (as_attributes R.section attributes)) }
        ensures kept { IsFoundMore (as_lists self.old) (as_lists self.new) }
    {
        let InlinedAttributes { ranges, name, call } = attributes;
        let before = self.ranges.len();
        let function = self.functions.len();
        push_ranges(unit, &ranges, depth, function, &mut self.ranges)?;
        if self.ranges.len() > before {
            let name = name.share(self.alloc)?;
            self.functions.push(name, InlinedCall { offset, call })?;
        }
        Ok(())
    }
}
