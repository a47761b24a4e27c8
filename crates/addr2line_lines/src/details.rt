//! The cached details of the functions of a view, one after another.

ghost use Rattle.std.specs.List.{AllByRecursion};
ghost use Rattle.std.specs.Prelude.{◌≡◌, ◌<◌, IfErr, IfOk, Ok, OnErr, length, map, option_map, slice_get};
ghost use Rattle.addr2line_lines.specs.Common.{ExactlyUnlessOomIf, ExactlyAtCost};
ghost use Rattle.addr2line_lines.specs.CostedSteps.{on_parts};
ghost use Rattle.addr2line_lines.specs.StoredDetails.{detail_at_cost};
ghost use Rattle.addr2line_lines.specs.FoundInlined.{entry_among};
ghost use Rattle.addr2line_lines.specs.CachedNames.{AreNamesIn};
ghost use Rattle.addr2line_lines.specs.CachedDetails.{AreDetailsMore, IsDetailPlace, IsNextPlace, IsRefusedThen, cached_chain, detail_of, no_details, as_details};
ghost use Rattle.addr2line_lines.specs.InlineRoom.{exceeds_inline_room};
ghost use Rattle.addr2line_lines.specs.References.{IsScope};
ghost use Rattle.addr2line_lines.specs.LentInlined.{as_inlined};
ghost use Rattle.addr2line_lines.specs.Scopes.{as_scope};

use crate::detail::read_detail;
use crate::inlined_functions::InlinedFunction;
use crate::inlined_lists::InlinedLists;
use crate::inlined_ranges::InlinedRanges;
use crate::names::UnitNames;
use crate::nesting::Nesting;
use crate::picks::InlinedPlaces;
use crate::references::Scope;
use gimli::Unit;
use gimli::read::{Error, Reader, UnitOffset};
use std::alloc::Global;
use std::snapshot::Snapshot;

/// Where the details of a function stand among those that are cached.
#[derive(Drop)]
pub(crate) struct FunctionDetail {
    /// The place of its name.
    pub(crate) name: usize,
    /// Where its inlined entries begin.
    pub(crate) inlined_begin: usize,
    /// Where they end.
    pub(crate) inlined_end: usize,
    /// Where its ranges begin.
    pub(crate) ranges_begin: usize,
    /// Where they end.
    pub(crate) ranges_end: usize,
    /// All ranges, as they were before those of this function were put in order; for contracts
    /// alone, it has no bytes.
    pub(crate) listed: Snapshot<InlinedRanges>,
}

/// The details of functions: their names, and their inlined entries and the ranges of these, those
/// of each function one after another.
#[derive(Drop)]
pub(crate) struct Details<R: Reader> {
    names: Vec<Option<R>>,
    inlined: InlinedLists<R>,
    // The names of entries that are referred to, or their faults.
    known: UnitNames<R>,
    // The entries that are open while details are read, here for its memory alone.
    nesting: Nesting,
}

impl<R: Reader> Details<R> {
    /// Those of no function of a unit. Takes no memory.
    pub(crate) fn new(alloc: Global, scope: Scope<'_, R>, unit: &Unit<R>) -> Details<R>
        ensures gives { as_details R.section result ≡ no_details (as_scope scope.entry) unit.now }
    {
        Details {
            names: Vec::new(alloc),
            inlined: InlinedLists::new(alloc),
            known: UnitNames::new(alloc, scope, unit),
            nesting: Nesting::new(alloc),
        }
    }

    // Adds the details of a function. A refused one may leave some of its inlined entries and
    // ranges, and names of entries that are referred to, or a fault.
    fn add(
        &mut self,
        scope: Scope<'_, R>,
        unit: &Unit<R>,
        offset: UnitOffset,
    ) -> Result<FunctionDetail, Error>
        requires in_order { IsScope (as_scope scope) }
        requires unit { AreNamesIn (as_scope scope) unit.now self.old.known }
        ensures gives { ExactlyAtCost R.shares (detail_of (as_details R.section self.new)) result
            (on_parts (detail_at_cost (as_scope scope.entry) unit.now offset.0)) }
        ensures kept { AreDetailsMore (as_details R.section self.old)
            (as_details R.section self.new) }
        ensures within { IfOk result (IsDetailPlace (as_details R.section self.new)) }
        ensures after { IfOk result (IsNextPlace (as_details R.section self.old)
            (as_details R.section self.new)) }
        ensures names { OnErr result (map (option_map R.section) self.new.names.items ≡
            map (option_map R.section) self.old.names.items) }
    {
        let name = self.names.len();
        let inlined_begin = self.inlined.functions.len();
        let ranges_begin = self.inlined.ranges.len();
        let read = read_detail(
            scope,
            unit,
            offset,
            &mut self.nesting,
            &mut self.inlined,
            &mut self.known,
        )?;
        self.names.push(read)?;
        let listed = Snapshot::of(&self.inlined.ranges);
        self.inlined.ranges.sort_from(ranges_begin);
        Ok(FunctionDetail {
            name,
            inlined_begin,
            inlined_end: self.inlined.functions.len(),
            ranges_begin,
            ranges_end: self.inlined.ranges.len(),
            listed,
        })
    }

    /// Adds the details of the function whose entry begins at an offset of a unit, in bytes from
    /// the start of the unit's length: its name, and the inlined entries inside it that have a
    /// range, without those of nested subprograms.
    ///
    /// Refused `OffsetOutOfBounds` where no entry of the unit can begin there,
    /// `NoEntryAtGivenOffset` at a closing entry, and by the first fault of an entry up to the end
    /// of the function, of a reference that a name follows, of range attributes or of a range list;
    /// `UnexpectedEof` where closing entries are missing. May fail with `OutOfMemory` instead, but
    /// with a reader that doesn't share its bytes only where nothing is refused, or the function's
    /// own entry has no fault and, before any fault, an inlined entry gives a range or an entry
    /// inside it has children. After a refusal what is cached is what was cached before, but that
    /// names of entries that are referred to, and their faults, may have been added; none was after
    /// `OutOfMemory`. Source: DWARF 5, section 3.3.8.
    pub(crate) fn read(
        &mut self,
        scope: Scope<'_, R>,
        unit: &Unit<R>,
        offset: UnitOffset,
    ) -> Result<FunctionDetail, Error>
        requires in_order { IsScope (as_scope scope) }
        requires unit { AreNamesIn (as_scope scope) unit.now self.old.known }
        ensures gives { ExactlyAtCost R.shares (detail_of (as_details R.section self.new)) result
            (on_parts (detail_at_cost (as_scope scope.entry) unit.now offset.0)) }
        ensures kept { AreDetailsMore (as_details R.section self.old)
            (as_details R.section self.new) }
        ensures within { IfOk result (IsDetailPlace (as_details R.section self.new)) }
        ensures after { IfOk result (IsNextPlace (as_details R.section self.old)
            (as_details R.section self.new)) }
        ensures refused { IfErr result (IsRefusedThen (as_details R.section self.old)
            (as_details R.section self.new)) }
    {
        let functions = self.inlined.functions.len();
        let ranges = self.inlined.ranges.len();
        let known = self.known.len();
        match self.add(scope, unit, offset) {
            Ok(detail) => Ok(detail),
            Err(error) => {
                self.inlined.truncate(functions, ranges);
                match error {
                    Error::OutOfMemory => {
                        self.known.truncate(known);
                        Err(error)
                    }
                    _ => Err(error),
                }
            }
        }
    }

    /// The name of a function, where there is one that can be read. Takes no memory.
    pub(crate) fn name(&self, detail: &FunctionDetail) -> Option<&R>
        requires place { IsDetailPlace (as_details R.section self.now) detail.now }
        ensures gives { option_map (λ r. R.section r.now) result ≡
            (detail_of (as_details R.section self.now) detail.now).name }
    {
        self.names[detail.name].as_ref()
    }

    /// The places of the inlined functions of a function at `probe`, from the outside in: of those
    /// of depth 0, 1 and so on, up to the first depth without one.
    ///
    /// Refused `OutOfMemory` alone, and only where there are more than 16. Source: Own.
    pub(crate) fn find_inlined_functions(
        &self,
        alloc: Global,
        detail: &FunctionDetail,
        probe: u64,
    ) -> Result<InlinedPlaces, Error>
        requires place { IsDetailPlace (as_details R.section self.now) detail.now }
        ensures gives { ExactlyUnlessOomIf
            (exceeds_inline_room (cached_chain (as_details R.section self.now) detail.now probe))
            (λ chain. map (entry_among (as_details R.section self.now).found.entries) chain.items)
            result (Ok (cached_chain (as_details R.section self.now) detail.now probe)) }
        ensures within { IfOk result (λ chain. AllByRecursion
            (λ n. n < length (as_details R.section self.now).found.entries) chain.items) }
    {
        let ranges = &self.inlined.ranges;
        ranges.find_chain(alloc, detail.ranges_begin, detail.ranges_end, probe)
    }

    /// The inlined function of a place; none past the last one. Takes no memory.
    pub(crate) fn inlined(&self, function: usize) -> Option<InlinedFunction<'_, R>>
        ensures gives { option_map (as_inlined R.section) result ≡
            slice_get (as_details R.section self.now).found.entries function }
    {
        self.inlined.functions.get(function)
    }
}
