//! What the last lookup has come to, and what is lent of it.

ghost use Rattle.std.specs.Prelude.{◌≡◌, IfErr, IfOk};
ghost use Rattle.addr2line.specs.Common.{OutOfMemory, frames_left, Waits, frames_found, waiting_unit};
ghost use Rattle.addr2line_units.specs.SupScope.{as_unit};
ghost use Rattle.addr2line.specs.AfterLookups.{IsStored, AfterWalk, HasPassed};
ghost use Rattle.addr2line.specs.Lookups.{IsLoadOf, unit_value, view_found};
ghost use Rattle.std.specs.Prelude.{option_map};

use crate::context::Context;
use addr2line_units::FrameIter;
use addr2line_units::frames::{Asks, OnFault};
use addr2line_units::index::UnitRange;
use addr2line_units::unit::SplitDwarfLoad;
use gimli::UnitRef;
use gimli::read::{Error, Reader};

impl<R: Reader> Context<R> {
    // Stores what a lookup of frames or of a unit comes to. What it asks for is read and cached. It
    // goes on at a place up to which it has asked, or begins where there is none, and gives the one
    // at which it stops.
    pub(crate) fn walk(
        &mut self,
        place: Option<UnitRange>,
        probe: u64,
        faults: OnFault,
    ) -> Result<Option<UnitRange>, Error>
        requires passed { HasPassed faults self.old probe place }
        ensures gives { IsStored faults probe result self.new }
        ensures after { AfterWalk R.shares faults probe result self.old self.new }
        ensures passed { IfOk result (HasPassed faults self.new probe) }
    {
        let mut ranges = self.ranges.find(probe);
        ranges.skip_to(place);
        self.units.walk(ranges, probe, Asks::Frames(faults))
    }

    // The unit that the last lookup waits for, if it waits for one.
    pub(crate) fn waits_for(&self) -> Option<usize>
        ensures gives { result ≡ waiting_unit self.now.stop }
    {
        self.units.waits_for()
    }

    // The load of the unit that the last lookup waits for. Refused `OutOfMemory` alone.
    pub(crate) fn load_of(&self, number: usize) -> Result<SplitDwarfLoad<R>, Error>
        requires waits { self.now.stop ≡ Waits number }
        ensures gives { IfOk result (λ l. IsLoadOf self.now.sections number l) }
        ensures refused { IfErr result (λ e. e ≡ OutOfMemory) }
    {
        self.units.load(number)
    }

    // The frames that the last lookup has found, none where it waits or has found nothing.
    pub(crate) fn found_frames(&self) -> FrameIter<'_, R>
        ensures gives { frames_left result ≡ frames_found self.now.stop }
    {
        self.units.frames()
    }

    // The sections and the unit of the view of the unit in which the last lookup has found
    // something, none where it waits or has found nothing, or where that view can't be read.
    pub(crate) fn found_unit(&self) -> Option<UnitRef<'_, R>>
        ensures gives { option_map as_unit result ≡ unit_value self.now.stop
            (view_found self.now.sections self.now.answers self.now.stop) }
    {
        self.units.unit()
    }
}
