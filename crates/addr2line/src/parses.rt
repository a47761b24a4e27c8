//! Parses of the functions of all units.

ghost use Rattle.addr2line.specs.Common.{IsUnlessOom};
ghost use Rattle.addr2line_units.specs.declared.parses.ReadingDepth.TheVariants as depths;
ghost use Rattle.addr2line.specs.Loads.{parse_reply, AfterParseOver};

use crate::context::Context;
use addr2line_units::parses::ReadingDepth;
use gimli::read::{Error, Reader};

impl<R: Reader> Context<R> {
    // Reads the functions of all units, with or without their details.
    fn read_functions(&mut self, depth: ReadingDepth) -> Result<(), Error>
        ensures gives { IsUnlessOom result
            (parse_reply depth self.old.sections self.old.answers) }
        ensures after { AfterParseOver R.shares depth result self.old self.new }
    {
        self.units.read_functions(depth)
    }

    /// Parses the functions of all units in their order, up to the first fault, and caches them,
    /// the fault too. A unit that waits for an answer is decided by none first; the units behind
    /// the first fault are left as they are.
    ///
    /// Refused by the first fault of a view or its functions; may fail with `OutOfMemory` instead,
    /// which is never cached: then the units before some unit are decided and parsed, of that unit
    /// something is left to parse, though it may be decided, and those behind it are left as they
    /// are. Takes no memory where of each unit up to the first fault the functions are cached, that
    /// fault too, or take none to read: unless readers share their bytes they take none where a
    /// view has none. So the same call after it gives the same, until a unit is forgotten or
    /// answered.
    ///
    /// Source: DWARF 5, section 3.3.
    pub fn parse_functions(&mut self) -> Result<(), Error>
        ensures gives { IsUnlessOom result
            (parse_reply depths.Functions self.old.sections self.old.answers) }
        ensures after { AfterParseOver R.shares depths.Functions result self.old self.new }
    {
        self.read_functions(ReadingDepth::Functions)
    }

    /// Parses the functions of all units and the details of these, as `parse_functions` does.
    ///
    /// Refused by the first fault of a view, its functions or, in the order of the entries, a
    /// detail; may fail with `OutOfMemory` instead, which is never cached. Takes no memory where of
    /// each unit up to the first fault these are cached, that fault too, or the functions take none
    /// to read. So the same call after it gives the same, until a unit is forgotten or answered.
    /// Once it isn't refused, and where `parse_lines` isn't either, lookups of frames don't wait
    /// and have no fault, and take no memory where at most 16 inlined functions stand at the
    /// address, until a unit is forgotten.
    ///
    /// Source: DWARF 5, sections 3.3 and 3.3.8.
    pub fn parse_inlined_functions(&mut self) -> Result<(), Error>
        ensures gives { IsUnlessOom result
            (parse_reply depths.Details self.old.sections self.old.answers) }
        ensures after { AfterParseOver R.shares depths.Details result self.old self.new }
    {
        self.read_functions(ReadingDepth::Details)
    }
}
