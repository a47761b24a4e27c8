//! Lookups of units, which may wait for split files.

ghost use Rattle.std.specs.Prelude.{option_map};
ghost use Rattle.addr2line.specs.Common.{Skip};
ghost use Rattle.addr2line_units.specs.SupScope.{as_unit};
ghost use Rattle.addr2line.specs.Borrowed.{RestsAs};
ghost use Rattle.addr2line.specs.AfterLookups.{AfterFramesOver};
ghost use Rattle.addr2line.specs.Lookups.{unit_value};
ghost use Rattle.addr2line.specs.WaitingLookups.{BeginsLookup, SuspendsIn};

use crate::context::Context;
use crate::kinds::{Lent, LookupKind};
use crate::suspended::{Suspended, look_up};
use addr2line_units::continuation::LookupResult;
use addr2line_units::frames::OnFault;
use addr2line_units::unit::SplitDwarfLoad;
use gimli::UnitRef;
use gimli::read::Reader;

/// The sections and the unit of a view; units that have a fault are passed over.
#[derive(Drop)]
pub struct DwarfAndUnit;

impl LookupKind for DwarfAndUnit {
    ghost faults = { Skip };

    fn on_fault() -> OnFault {
        OnFault::Skip
    }
}

impl<'ctx, R: Reader + 'ctx> Lent<'ctx, Context<R>> for DwarfAndUnit {
    ghost use Rattle.std.specs.Prelude.{Option};
    ghost use Rattle.gimli.specs.Sections.{Sections};
    ghost use Rattle.gimli.specs.Unit.{UnitRecord};

    type Found = Option<UnitRef<'ctx, R>>;

    ghost Value = { Option (Sections × UnitRecord) };

    ghost see = { λ u. option_map as_unit u };

    ghost value_of = { unit_value };

    fn found(ctx: &'ctx Context<R>) -> Option<UnitRef<'ctx, R>> {
        ctx.found_unit()
    }
}

/// The rest of a lookup of a unit that waits for a split file.
pub type UnitLookup<'ctx, R> = Suspended<'ctx, R, DwarfAndUnit, SplitDwarfLoad<R>>;

impl<R: Reader> Context<R> {
    /// The sections and the unit whose entries say what stands at an address: the view of the
    /// first unit among those that cover it that has a function or a location there; none where
    /// no unit has. It passes over each unit in which its view, functions, detail or lines have a
    /// fault.
    ///
    /// `probe` is an address as the file has it. Units are asked in the order of `find_location`.
    /// The lookup waits for an answer where it comes to a unit whose entries stand in a split file
    /// and that has no answer yet. What it reads of a unit is cached, faults too, and nothing is
    /// read of units that it doesn't ask.
    ///
    /// Refused `OutOfMemory` alone, which is never cached. An output takes no memory where all that
    /// it asks for is cached, or takes none to read, as `find_frames` has it, and at most 16
    /// inlined functions stand there. Where no unit covers `probe`, as at 2^64 - 1, it waits for
    /// nothing and takes no memory.
    ///
    /// Source: DWARF 5, sections 2.17, 3.3, 3.1.2 and 7.3.2. Own: which unit counts, and what a
    /// lookup waits for.
    pub fn find_dwarf_and_unit(&mut self, probe: u64) -> LookupResult<UnitLookup<'_, R>>
        ensures gives { BeginsLookup Skip unit_value (λ u. option_map as_unit u) self.old probe
            result (λ c. SuspendsIn Skip self.entry probe c.ctx c.probe c.number c.load) }
        ensures* ends { RestsAs 𝓛 (λ c. c.ctx.ghost_name) R.row R.Reader self.entry result
            (λ o n. AfterFramesOver R.shares Skip probe o self.old n) }
    {
        look_up(self, None, probe)
    }
}
