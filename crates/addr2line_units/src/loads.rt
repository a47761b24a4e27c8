//! The answers to the loads of units, and the loads that an address waits for.

ghost use Rattle.std.specs.Prelude.{◌≡◌, Err, IfErr, IfOk, None, OnOk, Ok, Some, option_map, true, ◌++◌, not, IfSome};
ghost use Rattle.std.specs.Option.{option_to_list};
ghost use Rattle.addr2line_units.specs.Common.{OutOfMemory, IsUnlessOom, fault_of};
ghost use Rattle.addr2line_units.specs.UnitViewCached.{verdict_in};
ghost use Rattle.addr2line_units.specs.Loads.{forget_result, load_of_number, load_result, loads_along};
ghost use Rattle.addr2line_units.specs.UnitsCached.{AreOfUnit};
ghost use Rattle.addr2line_units.specs.UnitsAfter.{AfterForget, AfterLoad, AfterPreloadAlong};
ghost use Rattle.addr2line_units.specs.UnitsAsked.{AfterNewLoad};
ghost use Rattle.addr2line_units.specs.UnitAfter.{AfterAnswerIn, AfterEntries, AfterForgettingIn, AfterNewLoadIn};
ghost use Rattle.addr2line_units.specs.LoadsListed.{MarksUnit, if_new, is_marked};
ghost use Rattle.addr2line_units.specs.RangeIterLeft.{ranges_left};

use crate::entries::{EntriesCache, LazyFunctions, UnitCache};
use crate::frames::FramesStop;
use crate::range_iter::UnitRangeIter;
use crate::unit::{SplitDwarfLoad, UnitToken, read_load};
use crate::units::{Sources, Units};
use gimli::read::{Error, Reader};
use gimli::{Dwarf, Unit};
use std::alloc::Global;
use std::collections::BTreeSet;
use std::rc::Rc;

impl<R: Reader> EntriesCache<R> {
    // The fault of the unit's view, if it has one, where the unit is decided. Takes no memory.
    fn check_view(&self, dwarf: &Dwarf<R>, dw_unit: &Unit<R>) -> Result<(), Error>
        ensures gives { IfSome (verdict_in dwarf.now dw_unit.now self.now.view.state) (λ known.
            IfSome known (λ view. result ≡ fault_of view)) }
    {
        self.view.unit_ref(dwarf, dw_unit)?;
        Ok(())
    }
}

impl<R: Reader> UnitCache<R> {
    // Forgets the answer, if there is one, and what was read of its view: the unit waits for one
    // again. Takes no memory.
    fn forget(&mut self)
        ensures after { AfterForgettingIn self.old self.new }
    {
        if self.entries.view.is_answered() {
            self.entries.view.forget();
            self.entries.functions = LazyFunctions::Unread;
        }
    }

    // Decides the unit by an answer if it is open, and else leaves it as it is. Refused
    // `OutOfMemory` alone, and only of an open unit that is given sections; then all that is cached
    // stays, and only that it was looked at may be new.
    pub(crate) fn answer(
        &mut self,
        alloc: Global,
        sources: &Sources<R>,
        dw_unit: &Unit<R>,
        sections: Option<Rc<Dwarf<R>>>,
    ) -> Result<(), Error>
        requires unit { AreOfUnit sources.now dw_unit.now self.old }
        ensures after { AfterEntries (AfterAnswerIn R.shares sources.now.file.sections dw_unit.now
            (option_map (λ d. d.value) sections) result) sources.now dw_unit.now self.old self.new }
    {
        self.check_split(sources, dw_unit);
        let view = &mut self.entries.view;
        if view.is_open() {
            view.decide(alloc, &sources.dwarf, dw_unit, sections)?;
        }
        Ok(())
    }
}

impl<R: Reader> Units<R> {
    /// Answers the load of a unit: decides it if it is open, and else leaves it as it is. No lookup
    /// is stored any more.
    ///
    /// Refused `UnknownToken` where there is no such unit; then nothing of any unit is changed.
    /// Refused by the fault of the view that the unit has then; the unit is decided all the same.
    /// May fail with `OutOfMemory` instead, only of an open unit that is given sections, and where
    /// bytes are shared or the header of their first unit can be read.
    pub fn load_unit(
        &mut self,
        token: UnitToken,
        sections: Option<Rc<Dwarf<R>>>,
    ) -> Result<(), Error>
        ensures gives { IsUnlessOom result (load_result self.old.scope.file.sections
            self.old.scope.file.units self.old.answers token.number
            (option_map (λ d. d.value) sections)) }
        ensures after { AfterLoad R.shares token.number (option_map (λ d. d.value) sections) result
            self.old self.new }
    {
        self.stop = FramesStop::FindsNothing;
        let scope = self.sources.scope();
        let Some(dw_unit) = scope.file.as_slice().get(token.number) else {
            return Err(Error::UnknownToken);
        };
        let cache = &mut self.caches[token.number];
        let answered = cache.answer(self.alloc, &self.sources, dw_unit, sections);
        cache.is_own();
        answered?;
        cache.entries.check_view(scope.file.dwarf, dw_unit)
    }

    /// Takes the answer to the load of a unit back, if there is one, with what was read of its
    /// view; its lines stay. No lookup is stored any more. Takes no memory.
    ///
    /// Refused `UnknownToken` where there is no such unit; then nothing of any unit is changed.
    pub fn forget(&mut self, token: UnitToken) -> Result<(), Error>
        ensures gives { result ≡ forget_result self.old.scope.file.units token.number }
        ensures after { AfterForget token.number self.old self.new }
    {
        self.stop = FramesStop::FindsNothing;
        if token.number >= self.len() {
            return Err(Error::UnknownToken);
        }
        let cache = &mut self.caches[token.number];
        cache.forget();
        cache.is_own();
        Ok(())
    }
}

// Marks the unit of a number, and tells whether it wasn't marked. Refused `OutOfMemory` alone.
fn mark_unit(marks: &mut BTreeSet<usize>, number: usize) -> Result<bool, Error>
    ensures gives { IfOk result (λ fresh. fresh ≡ not (is_marked marks.old.keys number)) }
    ensures left { OnOk result (MarksUnit number marks.old.keys marks.new.keys) }
    ensures refused { IfErr result (λ e. e ≡ OutOfMemory) }
{
    Ok(marks.insert(number)?)
}

impl<R: Reader> UnitCache<R> {
    // The load of the unit of a number, if it waits for one and isn't marked, which it is then.
    // Whether it waits is read, unless that was done.
    fn new_load(
        &mut self,
        sources: &Sources<R>,
        dw_unit: &Unit<R>,
        marks: &mut BTreeSet<usize>,
        number: usize,
    ) -> Result<Option<SplitDwarfLoad<R>>, Error>
        requires unit { AreOfUnit sources.now dw_unit.now self.old }
        ensures after { AfterEntries (AfterNewLoadIn sources.now.file.sections number dw_unit.now
            marks.old.keys marks.new.keys result) sources.now dw_unit.now self.old self.new }
    {
        self.check_split(sources, dw_unit);
        if !self.entries.view.is_open() {
            return Ok(None);
        }
        if !mark_unit(marks, number)? {
            return Ok(None);
        }
        read_load(&sources.dwarf, number, dw_unit)
    }
}

// Adds a load, if there is one. Refused `OutOfMemory` alone, and only where there is one.
fn push_if<R: Reader>(
    loads: &mut Vec<SplitDwarfLoad<R>>,
    load: Option<SplitDwarfLoad<R>>,
) -> Result<(), Error>
    ensures gives { OnOk result (loads.new.items ≡ loads.old.items ++ option_to_list load) }
    ensures refused { IfErr result (λ e. e ≡ OutOfMemory) }
    ensures none { load ≡ None → result ≡ Ok tt }
{
    if let Some(load) = load {
        loads.push(load)?;
    }
    Ok(())
}

impl<R: Reader> Units<R> {
    // The load of the unit of a number, as `UnitCache::new_load` has it; none where there is no
    // such unit.
    fn new_load_at(
        &mut self,
        marks: &mut BTreeSet<usize>,
        number: usize,
    ) -> Result<Option<SplitDwarfLoad<R>>, Error>
        ensures gives { IfOk result (λ load. load ≡ if_new marks.old.keys (load_of_number
            self.old.scope.file.sections self.old.scope.file.units self.old.answers number)) }
        ensures after { AfterNewLoad number marks.old.keys marks.new.keys result self.old
            self.new }
    {
        self.stop = FramesStop::FindsNothing;
        let sources = &self.sources;
        let scope = sources.scope();
        let Some(dw_unit) = scope.file.as_slice().get(number) else {
            return Ok(None);
        };
        let cache = &mut self.caches[number];
        let load = cache.new_load(sources, dw_unit, marks, number);
        cache.is_own();
        load
    }

    /// The loads of the open units that ranges lead to, each once, in the order of its first range.
    /// Whether a unit is open is read and cached; nothing is read of others.
    ///
    /// Refused `OutOfMemory` alone, and not where none of these units is open.
    pub fn preload(
        &mut self,
        mut ranges: UnitRangeIter<'_>,
    ) -> Result<Vec<SplitDwarfLoad<R>>, Error>
        ensures gives { IfOk result (λ loads. loads.items ≡ loads_along (load_of_number
            self.old.scope.file.sections self.old.scope.file.units self.old.answers)
            (ranges_left ranges.entry)) }
        ensures after { AfterPreloadAlong (ranges_left ranges.entry) result self.old self.new }
    {
        self.reset();
        let mut loads = Vec::new(self.alloc);
        let mut marks = BTreeSet::new(self.alloc);
        while let Some(range) = ranges.next() {
            let load = self.new_load_at(&mut marks, range.unit)?;
            push_if(&mut loads, load)?;
        }
        Ok(loads)
    }
}
