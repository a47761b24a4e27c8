//! What is cached of the entries of a unit: its functions, and what stands at an address.

use crate::unit::{LazyLines, LinesCache, UnitView};
use crate::units::Sources;
use addr2line_lines::{Count, Functions, InlinedPlaces, Row, Scope};
use gimli::read::{Error, Reader};
use gimli::{Dwarf, Unit};
use std::alloc::Global;
use std::marker::Model;
use std::snapshot::Snapshot;

// What is cached of the functions of a view. They stand in a box, so that what is cached of a unit
// is small before anybody asks for them.
#[derive(Drop)]
pub(crate) enum LazyFunctions<R: Reader> {
    // Nobody has asked for them yet.
    Unread,
    // There are none.
    Absent,
    // They were read, with the details that were asked for.
    Read(Box<Functions<R>>),
    // They can't be read, for this reason.
    Faulty(Error),
}

// The place of the function at an address among those of a view, and those of the inlined functions
// there, from the outside in.
#[derive(Drop)]
pub(crate) struct FunctionPlace {
    pub(crate) place: usize,
    pub(crate) inlined: InlinedPlaces,
}

impl<R: Reader> LazyFunctions<R> {
    ghost use Rattle.std.specs.Prelude.{◌≡◌, IfErr, IfOk};
    ghost use Rattle.addr2line_units.specs.Common.{as_scope};
    ghost use Rattle.addr2line_units.specs.EntriesFunctions.{were_read};
    ghost use Rattle.addr2line_units.specs.UnitAfter.{AfterCachingFunctions, AreNewFunctionsOf, IsRefusalOf};

    // The functions of a view, or their fault, as they are cached. Refused `OutOfMemory` alone, and
    // only where the functions take memory.
    fn parse(alloc: Global, scope: Scope<'_, R>, view: &Unit<R>) -> Result<LazyFunctions<R>, Error>
        ensures read { IfOk result (AreNewFunctionsOf (as_scope scope.entry) view.now) }
        ensures refused { IfErr result (IsRefusalOf R.shares (as_scope scope.entry) view.now) }
    {
        match Functions::parse(alloc, scope, view) {
            Ok(functions) => match functions.offset(0) {
                Some(_) => Ok(LazyFunctions::Read(Box::new(alloc, functions)?)),
                None => Ok(LazyFunctions::Absent),
            },
            Err(error) => match error {
                Error::OutOfMemory => Err(error),
                _ => Ok(LazyFunctions::Faulty(error)),
            },
        }
    }

    // Whether the functions were read.
    fn were_read(&self) -> bool
        ensures gives { result ≡ were_read self.now }
    {
        !matches!(self, LazyFunctions::Unread)
    }

    // Reads the functions of a view, unless they were read, and caches them, or their fault.
    // Refused `OutOfMemory` alone, and only where the functions take memory.
    pub(crate) fn cache(
        &mut self,
        alloc: Global,
        scope: Scope<'_, R>,
        view: &Unit<R>,
    ) -> Result<(), Error>
        ensures after { AfterCachingFunctions R.shares (as_scope scope.entry) view.now result
            self.old self.new }
    {
        if !self.were_read() {
            *self = LazyFunctions::parse(alloc, scope, view)?;
        }
        Ok(())
    }
}

/// What is cached of the entries of a unit: its view, and the functions in it.
#[derive(Drop)]
pub(crate) struct EntriesCache<R: Reader> {
    pub(crate) view: UnitView<R>,
    pub(crate) functions: LazyFunctions<R>,
}

impl<R: Reader> EntriesCache<R> {
    ghost use Rattle.std.specs.Prelude.{◌≡◌, None};
    ghost use Rattle.addr2line_units.specs.EntriesOwn.{AreFresh, first_answer_of};
    ghost use Rattle.addr2line_units.specs.UnitAfter.{AfterCheck};

    // Before anybody asks for something. Takes no memory.
    fn new() -> EntriesCache<R>
        ensures answer { first_answer_of result ≡ None }
        ensures empty { AreFresh result }
    {
        EntriesCache {
            view: UnitView::new(),
            functions: LazyFunctions::Unread,
        }
    }

    // Looks whether the unit waits for an answer, unless that was done. Takes no memory.
    fn check_split(&mut self, dwarf: &Dwarf<R>, dw_unit: &Unit<R>)
        ensures after { AfterCheck dwarf.now dw_unit.now self.old self.new }
    {
        self.view.check_split(dwarf, dw_unit);
    }
}

// The unit whose entries are cached, once it was looked at.
#[derive(Drop)]
pub(crate) enum LookedAt<R: Reader> {
    Nothing,
    Unit(Snapshot<Sources<R>>, Snapshot<Unit<R>>),
}

/// What is cached of a unit: its lines with its language, and its entries.
#[derive(Drop)]
pub(crate) struct UnitCache<R: Reader> {
    pub(crate) lines: LinesCache,
    pub(crate) entries: EntriesCache<R>,
    // The unit of which the entries are, for contracts alone: it has no bytes.
    unit: Snapshot<LookedAt<R>>,
}

impl<R: Reader> Model for UnitCache<R> {
    ghost use Rattle.addr2line_units.specs.EntriesOwn.{AreOwnEntries, CachedUnit, looked_at_unit};

    ghost Value = { CachedUnit R };

    ghost view = { λ c. record {
      lines = c.lines;
      entries = c.entries;
      unit = looked_at_unit c.unit.value;
    } };

    ghost invariant = { λ c. AreOwnEntries (looked_at_unit c.unit.value) c.entries };
}

// What a unit has at an address.
#[derive(Drop)]
pub(crate) enum UnitFrames {
    // It waits for an answer.
    Open,
    // The function and the row at the address, as far as there are.
    Here {
        function: Option<FunctionPlace>,
        row: Option<Row>,
    },
}

impl<R: Reader> UnitCache<R> {
    ghost use Rattle.std.specs.Prelude.{◌≡◌, true};
    ghost use Rattle.addr2line_units.specs.Common.{ExactlyUnlessOom};
    ghost use Rattle.addr2line_units.specs.UnitAfter.{AfterCheck, AfterEntries, AfterFramesIn, AfterFunctionIn};
    ghost use Rattle.addr2line_units.specs.EntriesCached.{frames_of_place, frames_or};
    ghost use Rattle.addr2line_units.specs.EntriesEmpty.{has_nothing};
    ghost use Rattle.addr2line_units.specs.EntriesFrames.{function_in};
    ghost use Rattle.addr2line_units.specs.EntriesFunctions.{found_in_cache};
    ghost use Rattle.addr2line_units.specs.EntriesOwn.{AreOwnEntries, first_answer_of};
    ghost use Rattle.addr2line_units.specs.UnitsCached.{AreOfUnit, IsFresh};
    ghost use Rattle.addr2line_units.specs.UnitViewCached.{is_decided};

    // Lines alone, before anybody asks for something of the entries. Takes no memory.
    pub(crate) fn new(lines: LinesCache) -> UnitCache<R>
        ensures gives { result.lines ≡ lines }
        ensures empty { IsFresh result }
    {
        UnitCache {
            lines,
            entries: EntriesCache::new(),
            unit: Snapshot::of(&LookedAt::Nothing),
        }
    }

    // Looks whether the unit waits for an answer, unless that was done. Takes no memory.
    pub(crate) fn check_split(&mut self, sources: &Sources<R>, dw_unit: &Unit<R>)
        requires unit { AreOfUnit sources.now dw_unit.now self.old }
        ensures after { AfterEntries (AfterCheck sources.now.file.sections dw_unit.now) sources.now
            dw_unit.now self.old self.new }
    {
        self.entries.check_split(&sources.dwarf, dw_unit);
        let sources = Snapshot::of(sources);
        self.unit = Snapshot::of(&LookedAt::Unit(sources, Snapshot::of(dw_unit)));
    }

    // The entries are those of the unit that was looked at: a caller that has the cache in a list
    // doesn't know it by itself. It does nothing.
    pub(crate) fn is_own(&self)
        ensures known { AreOwnEntries self.now.unit self.now.entries }
    {
        let _ = &self.entries;
    }

    // Whether it is known that the unit has nothing at any address: neither functions, in a view
    // that has no fault, nor lines.
    pub(crate) fn has_nothing(&self) -> bool
        ensures gives { result ≡ has_nothing self.now }
    {
        matches!(self.entries.functions, LazyFunctions::Absent)
            && matches!(self.lines.lines, LazyLines::Absent)
            && self.entries.view.has_view()
    }

    // The function at an address in the view of the unit, which is decided, none where no function
    // holds it. The functions and its detail are read and cached, unless they are, their faults
    // too.
    //
    // Refused by the first fault of the view, its functions and the detail; may fail with
    // `OutOfMemory` instead, only where something of these isn't cached, and the functions take
    // memory, or there are more than 16 inlined functions.
    fn find_function(
        &mut self,
        alloc: Global,
        sources: &Sources<R>,
        dw_unit: &Unit<R>,
        probe: u64,
    ) -> Result<Option<FunctionPlace>, Error>
        requires unit { AreOfUnit sources.now dw_unit.now self.old }
        requires decided { is_decided self.old.entries.view.state ≡ true }
        ensures gives { ExactlyUnlessOom (found_in_cache self.new.entries.functions) result
            (function_in sources.now dw_unit.now (first_answer_of self.old.entries) probe) }
        ensures after { AfterEntries (AfterFunctionIn R.shares sources.now dw_unit.now probe result)
            sources.now dw_unit.now self.old self.new }
    {
        let unit = self.entries.view.unit_ref(&sources.dwarf, dw_unit)?;
        let scope = self.entries.view.scope_of(sources.scope());
        self.entries.functions.cache(alloc, scope, unit.unit)?;
        let functions = match &mut self.entries.functions {
            LazyFunctions::Read(functions) => functions,
            LazyFunctions::Absent => return Ok(None),
            LazyFunctions::Faulty(error) => return Err(*error),
            // After `cache` they were read.
            LazyFunctions::Unread => return Ok(None),
        };
        let Some(place) = functions.find(probe) else {
            return Ok(None);
        };
        functions.read(scope, unit.unit, place)?;
        let LazyFunctions::Read(functions) = &self.entries.functions else {
            // They are those that were read.
            return Ok(None);
        };
        let inlined = functions.find_inlined_functions(alloc, place, probe)?;
        Ok(Some(FunctionPlace { place, inlined }))
    }

    // What the unit has at an address, unless it waits for an answer. Its view is decided if it
    // needs no answer, and what is read is cached: the functions of the view, the detail of the
    // function there, and the lines of the unit, their faults too.
    //
    // Refused by the first fault of the view, its functions, the detail and the lines; may fail
    // with `OutOfMemory` instead, only where something of these isn't cached and takes memory, or
    // there are more than 16 inlined functions.
    pub(crate) fn find_frames(
        &mut self,
        alloc: Global,
        sources: &Sources<R>,
        dw_unit: &Unit<R>,
        steps: &mut Count,
        probe: u64,
    ) -> Result<UnitFrames, Error>
        requires unit { AreOfUnit sources.now dw_unit.now self.old }
        ensures gives { ExactlyUnlessOom (frames_of_place self.new.lines self.new.entries) result
            (frames_or sources.now dw_unit.now probe self.old) }
        ensures after { AfterFramesIn R.shares sources.now dw_unit.now probe result self.old
            self.new steps.old steps.new }
    {
        self.check_split(sources, dw_unit);
        if self.entries.view.is_open() {
            return Ok(UnitFrames::Open);
        }
        let function = self.find_function(alloc, sources, dw_unit, probe)?;
        let lines = &mut self.lines;
        let row = lines.find_row(alloc, &sources.dwarf, dw_unit, steps, probe)?;
        Ok(UnitFrames::Here { function, row })
    }
}
