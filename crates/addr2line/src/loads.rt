//! Answers to loads outside a lookup, and what forgets them.

ghost use Rattle.std.specs.Prelude.{◌≡◌, IfOk, option_map};
ghost use Rattle.addr2line.specs.Common.{IsUnlessOom, token_number, result_map};
ghost use Rattle.addr2line.specs.Loads.{AfterForgetting, forget_reply, load_reply, AfterLoadingOver, AfterPreloadCall};
ghost use Rattle.addr2line.specs.Lookups.{loads_at};

use crate::context::Context;
use addr2line_units::unit::{SplitDwarfLoad, UnitToken};
use gimli::Dwarf;
use gimli::read::{Error, Reader};
use std::rc::Rc;

impl<R: Reader> Context<R> {
    /// The loads of the open units that cover an address, each once, in the order in which a lookup
    /// asks the units. Whether a unit is open is read and cached; nothing is read of others.
    ///
    /// `probe` is an address as the file has it. Refused `OutOfMemory` alone; takes no memory where
    /// no unit that covers the address is open. Where none covers it, as at 2^64 - 1, there are no
    /// loads.
    ///
    /// Source: DWARF 5, section 7.3.2. Own: the order.
    pub fn preload_units(&mut self, probe: u64) -> Result<Vec<SplitDwarfLoad<R>>, Error>
        ensures gives { IfOk result (λ loads. loads.items
            ≡ loads_at self.old.sections self.old.answers probe) }
        ensures after { AfterPreloadCall probe (result_map (λ loads. loads.items) result)
            self.old self.new }
    {
        self.units.preload(self.ranges.find(probe))
    }

    /// Answers the load of a unit: decides it if it is open, by the sections of its split file or
    /// none, and else leaves it as it is.
    ///
    /// Refused `UnknownToken` where there is no such unit, and then nothing is changed; refused by
    /// the fault of the view that the unit has then, and the unit is decided all the same. May fail
    /// with `OutOfMemory` instead, where the unit is open and is given sections, and where bytes
    /// are shared or the header of their first unit can be read; then all first answers are as
    /// before.
    /// A token of another context counts by its number.
    ///
    /// Source: DWARF 5, section 7.3.2. Own: which answer counts.
    pub fn load_unit(
        &mut self,
        unit: UnitToken,
        sections: Option<Rc<Dwarf<R>>>,
    ) -> Result<(), Error>
        ensures gives { IsUnlessOom result (load_reply self.old.sections
            self.old.answers (token_number unit) (option_map (λ d. d.value) sections)) }
        ensures after { AfterLoadingOver R.shares (token_number unit)
            (option_map (λ d. d.value) sections) result self.old self.new }
    {
        self.units.load_unit(unit, sections)
    }

    /// Takes the answer to the load of a unit back, if there is one, with what was read of its
    /// view: the unit is open again. Its lines stay. Takes no memory.
    ///
    /// Refused `UnknownToken` alone, where there is no such unit; then nothing is changed. A unit
    /// that is decided without an answer, and one that is open, stay as they are. Source: own.
    pub fn forget(&mut self, unit: UnitToken) -> Result<(), Error>
        ensures gives { result ≡ forget_reply self.old.sections (token_number unit) }
        ensures after { AfterForgetting (token_number unit) self.old self.new }
    {
        self.units.forget(unit)
    }
}
