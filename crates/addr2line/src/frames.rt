//! Lookups of frames, which may wait for split files.

ghost use Rattle.addr2line.specs.Common.{Stop, frames_left};
ghost use Rattle.addr2line.specs.Borrowed.{RestsAs};
ghost use Rattle.addr2line.specs.AfterLookups.{AfterFramesOver};
ghost use Rattle.addr2line.specs.Lookups.{frames_value};
ghost use Rattle.addr2line.specs.WaitingLookups.{BeginsLookup, SuspendsIn};

use crate::context::Context;
use crate::kinds::{Lent, LookupKind};
use crate::suspended::{Suspended, look_up};
use addr2line_units::FrameIter;
use addr2line_units::continuation::LookupResult;
use addr2line_units::frames::OnFault;
use addr2line_units::unit::SplitDwarfLoad;
use gimli::read::Reader;

/// Frames, up to the first fault of a unit that is asked.
#[derive(Drop)]
pub struct Frames;

impl LookupKind for Frames {
    ghost faults = { Stop };

    fn on_fault() -> OnFault {
        OnFault::Stop
    }
}

impl<'ctx, R: Reader + 'ctx> Lent<'ctx, Context<R>> for Frames {
    ghost use Rattle.std.specs.Prelude.{List};
    ghost use Rattle.addr2line_units.specs.Frames.{FrameRecord};

    type Found = FrameIter<'ctx, R>;

    ghost Value = { List FrameRecord };

    ghost see = { λ i. frames_left i };

    ghost value_of = { frames_value };

    fn found(ctx: &'ctx Context<R>) -> FrameIter<'ctx, R> {
        ctx.found_frames()
    }
}

/// The rest of a lookup of frames that waits for a split file.
pub type FramesLookup<'ctx, R> = Suspended<'ctx, R, Frames, SplitDwarfLoad<R>>;

impl<R: Reader> Context<R> {
    /// The frames at an address, from the innermost inlined function out: of the first unit among
    /// those that cover it that has a function or a location there; none where no unit has.
    ///
    /// `probe` is an address as the file has it. Units are asked in the order of `find_location`.
    /// The lookup waits for an answer where it comes to a unit whose entries stand in a split file
    /// and that has no answer yet. What it reads of a unit, views, functions, details and lines,
    /// is cached, faults too. Nothing is read of units that it doesn't ask, nor the detail of a
    /// function but that of the one at `probe`.
    ///
    /// Refused by the first fault of the view, the functions, the detail or the lines of a unit
    /// that it asks; may fail with `OutOfMemory` instead, which is never cached. An output takes no
    /// memory where all that it asks for is cached, or takes none to read, and at most 16 inlined
    /// functions stand there. Unless readers share their bytes, functions take none where a view
    /// has none, nor do some lines that have a fault, as `Lines::parse` has it. Where no unit
    /// covers `probe`, as at 2^64 - 1, it waits for nothing and takes no memory.
    ///
    /// Source: DWARF 5, sections 2.17, 3.3, 3.1.2 and 7.3.2. Own: which unit counts, and what a
    /// lookup waits for.
    pub fn find_frames(&mut self, probe: u64) -> LookupResult<FramesLookup<'_, R>>
        ensures gives { BeginsLookup Stop frames_value frames_left self.old probe result
            (λ c. SuspendsIn Stop self.entry probe c.ctx c.probe c.number c.load) }
        ensures* ends { RestsAs 𝓛 (λ c. c.ctx.ghost_name) R.row R.Reader self.entry result
            (λ o n. AfterFramesOver R.shares Stop probe o self.old n) }
    {
        look_up(self, None, probe)
    }
}
