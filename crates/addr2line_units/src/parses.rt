//! Parses of the functions of all units.

ghost use Rattle.std.specs.Prelude.{◌≡◌, true};
ghost use Rattle.addr2line_units.specs.Common.{IsUnlessOom};
ghost use Rattle.addr2line_units.specs.UnitAfter.{AfterEntries};
ghost use Rattle.addr2line_units.specs.EntriesFunctions.{cached_fault};
ghost use Rattle.addr2line_units.specs.EntriesOwn.{first_answer_of};
ghost use Rattle.addr2line_units.specs.Parses.{read_of_number, read_of_unit, read_of_units, read_of_view};
ghost use Rattle.addr2line_units.specs.ParsesAfter.{AfterReadingAt, AfterReadingUnit, AfterReadingView};
ghost use Rattle.addr2line_units.specs.UnitsAfter.{AfterReading};
ghost use Rattle.addr2line_units.specs.UnitsCached.{AreOfUnit};
ghost use Rattle.addr2line_units.specs.UnitView.{verdict};
ghost use Rattle.addr2line_units.specs.UnitViewCached.{is_decided};

use crate::entries::{LazyFunctions, UnitCache};
use crate::frames::FramesStop;
use crate::units::{Sources, Units};
use gimli::Unit;
use gimli::read::{Error, Reader};
use std::alloc::Global;

/// What is read of each unit.
#[derive(Clone, Copy)]
pub enum ReadingDepth {
    /// Its functions.
    Functions,
    /// Its functions, and the detail of each.
    Details,
}

impl<R: Reader> LazyFunctions<R> {
    // The fault of the functions that were read, if they have one.
    fn fault(&self) -> Result<(), Error>
        ensures gives { result ≡ cached_fault self.now }
    {
        match self {
            LazyFunctions::Faulty(error) => Err(*error),
            LazyFunctions::Read(_) | LazyFunctions::Absent | LazyFunctions::Unread => Ok(()),
        }
    }
}

impl<R: Reader> UnitCache<R> {
    // Reads the functions in the view of the unit, which is decided, and their details where these
    // are asked for, as `read_functions` does.
    fn read_in_view(
        &mut self,
        alloc: Global,
        sources: &Sources<R>,
        dw_unit: &Unit<R>,
        depth: ReadingDepth,
    ) -> Result<(), Error>
        requires unit { AreOfUnit sources.now dw_unit.now self.old }
        requires decided { is_decided self.old.entries.view.state ≡ true }
        ensures gives { IsUnlessOom result (read_of_view depth sources.now
            (verdict sources.now.file.sections dw_unit.now (first_answer_of self.old.entries))) }
        ensures after { AfterEntries (AfterReadingView R.shares depth sources.now dw_unit.now
            result) sources.now dw_unit.now self.old self.new }
    {
        let unit = self.entries.view.unit_ref(&sources.dwarf, dw_unit)?;
        let scope = self.entries.view.scope_of(sources.scope());
        self.entries.functions.cache(alloc, scope, unit.unit)?;
        if matches!(depth, ReadingDepth::Functions) {
            return self.entries.functions.fault();
        }
        let functions = match &mut self.entries.functions {
            LazyFunctions::Read(functions) => functions,
            LazyFunctions::Faulty(error) => return Err(*error),
            LazyFunctions::Absent => return Ok(()),
            // After `cache` they were read.
            LazyFunctions::Unread => return Ok(()),
        };
        functions.read_all(scope, unit.unit)
    }

    // Reads the functions of the unit's view, and their details where these are asked for, unless
    // they were read, and caches them, or their faults. A unit that waits for an answer is decided
    // by none first.
    //
    // Refused by the first fault of the view, its functions and the details; may fail with
    // `OutOfMemory` instead, only where something of these isn't cached, and the functions take
    // memory. Nothing more is known where the view and what is read of it are cached, up to the
    // first fault.
    fn read_functions(
        &mut self,
        alloc: Global,
        sources: &Sources<R>,
        dw_unit: &Unit<R>,
        depth: ReadingDepth,
    ) -> Result<(), Error>
        requires unit { AreOfUnit sources.now dw_unit.now self.old }
        ensures gives { IsUnlessOom result (read_of_unit depth sources.now dw_unit.now
            (first_answer_of self.old.entries)) }
        ensures after { AfterEntries (AfterReadingUnit R.shares depth sources.now dw_unit.now
            result) sources.now dw_unit.now self.old self.new }
    {
        self.is_own();
        self.answer(alloc, sources, dw_unit, None)?;
        self.read_in_view(alloc, sources, dw_unit, depth)
    }
}

impl<R: Reader> Units<R> {
    // Reads the functions of the unit of a number, as `UnitCache::read_functions` does; nothing
    // where there is no such unit. No lookup is stored any more.
    fn read_functions_in(&mut self, number: usize, depth: ReadingDepth) -> Result<(), Error>
        ensures gives { IsUnlessOom result (read_of_number depth self.old.scope
            self.old.scope.file.units self.old.answers number) }
        ensures after { AfterReadingAt R.shares depth number result self.old self.new }
    {
        self.stop = FramesStop::FindsNothing;
        let scope = self.sources.scope();
        let Some(dw_unit) = scope.file.as_slice().get(number) else {
            return Ok(());
        };
        let cache = &mut self.caches[number];
        let read = cache.read_functions(self.alloc, &self.sources, dw_unit, depth);
        cache.is_own();
        read
    }

    /// Reads the functions of all units in their order, or their functions and the details of these
    /// in the order of the entries, up to the first fault, and caches them, that fault too. A unit
    /// that waits for an answer is decided by none first. The units behind the first fault are left
    /// as they are.
    ///
    /// Refused by the first fault of a view, its functions and the details; may fail with
    /// `OutOfMemory` instead, which is never cached: then the units before some unit are decided
    /// and read, of that unit something is left to read, though it may be decided, and those behind
    /// it are left as they are. Takes no memory where of each unit up to the first fault what it
    /// reads is cached, that fault too, or the functions take none to read; changes nothing where
    /// all of it is cached. Source: DWARF 5, sections 3.3.1 and 3.3.8.
    pub fn read_functions(&mut self, depth: ReadingDepth) -> Result<(), Error>
        ensures gives { IsUnlessOom result (read_of_units depth self.old.scope
            self.old.scope.file.units self.old.answers) }
        ensures after { AfterReading R.shares depth result self.old self.new }
    {
        self.reset();
        let count = self.len();
        for number in 0..count {
            self.read_functions_in(number, depth)?;
        }
        Ok(())
    }
}
