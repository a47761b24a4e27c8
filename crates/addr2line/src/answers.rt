//! Answers to the loads of units.

ghost use Rattle.std.specs.Prelude.{IfOk, option_map};
ghost use Rattle.addr2line.specs.AfterLookups.{HasPassed, IsStored};
ghost use Rattle.addr2line.specs.Skips.{AfterSkippingLoads};
ghost use Rattle.addr2line.specs.AfterAnswering.{AfterAnsweringOver};

use crate::context::Context;
use addr2line_units::frames::OnFault;
use addr2line_units::index::UnitRange;
use gimli::Dwarf;
use gimli::read::{Error, Reader};
use std::rc::Rc;

impl<R: Reader> Context<R> {
    // Answers the load of the unit of a number. Refused `OutOfMemory` alone, and only where
    // sections are given, and bytes are shared or the header of their first unit can be read.
    pub(crate) fn answer(
        &mut self,
        number: usize,
        sections: Option<Rc<Dwarf<R>>>,
    ) -> Result<(), Error>
        ensures after { AfterAnsweringOver R.shares number (option_map (λ d. d.value) sections)
            result self.old self.new }
    {
        self.units.answer(number, sections)
    }

    // Stores what a lookup comes to, where each load that it waits for is answered `None`. What it
    // asks for is read and cached.
    pub(crate) fn skip_loads(
        &mut self,
        probe: u64,
        faults: OnFault,
    ) -> Result<Option<UnitRange>, Error>
        ensures gives { IsStored faults probe result self.new }
        ensures after { AfterSkippingLoads R.shares faults probe result self.old self.new }
        ensures passed { IfOk result (HasPassed faults self.new probe) }
    {
        let mut place = None;
        loop {
            place = self.walk(place, probe, faults)?;
            match self.waits_for() {
                Some(number) => self.answer(number, None)?,
                None => return Ok(place),
            }
        }
    }
}
