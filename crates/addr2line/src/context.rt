//! Contexts: what lookups are made in.

ghost use Rattle.std.specs.Prelude.{◌≡◌, Ok};
ghost use Rattle.addr2line.specs.Common.{OutOfMemory, IsUnlessOom, ExactlyUnlessOomIf, location_of, spans_of};
ghost use Rattle.addr2line_lines.specs.LentLocation.{as_location};
ghost use Rattle.addr2line_units.specs.UnitsIndexed.{context_takes_memory};
ghost use Rattle.addr2line_units.specs.LocationsLeft.{locations_left};
ghost use Rattle.addr2line.specs.Context.{main_sections, new_context, lines_of_all, AfterLookupOver, AfterRangeLookup, IsReadyForRange, Locates, LocatesRange, AfterParsingLines};

use addr2line_lines::Location;
use addr2line_units::frames::Asks;
use addr2line_units::index::UnitRanges;
use addr2line_units::locations::LocationRangeIter;
use addr2line_units::units::Units;
use gimli::read::{Error, Reader};
use gimli::{
    DebugAbbrev, DebugAddr, DebugAranges, DebugInfo, DebugLine, DebugLineStr, DebugRanges,
    DebugRngLists, DebugStr, DebugStrOffsets, Dwarf, DwarfFileType,
};
use std::alloc::Global;
use std::marker::Model;
use std::rc::Rc;

/// What addresses are looked up in: the units of a file, with what is parsed of them, and the
/// ranges of addresses that lead to them.
#[derive(Drop)]
pub struct Context<R: Reader> {
    pub(crate) alloc: Global,
    pub(crate) ranges: UnitRanges,
    pub(crate) units: Units<R>,
}

impl<R: Reader> Model for Context<R> {
    ghost use Rattle.addr2line.specs.Context.{ContextState, IsContext, as_context};

    ghost Value = { ContextState };

    ghost view = { λ c. as_context c.units };

    ghost invariant = { λ c. IsContext c.ranges c.units };
}

impl<R: Reader> Context<R> {
    ghost use Rattle.addr2line.specs.Borrowed.{EndsAs};

    /// A context of the sections of a file.
    ///
    /// The sets of `.debug_aranges` are read, then the headers, records and range attributes of all
    /// units, then the headers and records of the supplementary file. The line program of a unit is
    /// run here only where no range is listed for it: by its range list if it has one,
    /// else by `.debug_aranges`, else by its other attributes.
    ///
    /// Refused by the first fault of a set's header, of a unit's header, or of the range attributes
    /// or range list of a unit whose record can be read, each unit whole before the next header;
    /// then by that of a header of the supplementary file. May fail with `OutOfMemory` instead. A
    /// type unit and a unit whose record is faulty are passed over; a partial unit of version 5 has
    /// no range. Source: DWARF 5, sections 2.17, 3.1 and 6.1.2.
    pub fn from_dwarf(alloc: Global, dwarf: Dwarf<R>) -> Result<Context<R>, Error>
        ensures gives { IsUnlessOom result (new_context dwarf) }
    {
        let dwarf = Rc::new(alloc, dwarf)?;
        Context::from_arc_dwarf(alloc, dwarf)
    }

    /// A context of the sections of a file that others may hold too.
    ///
    /// Refused as `from_dwarf` is; each step takes memory only if those before it have no fault.
    /// The sets of `.debug_aranges` take memory where one lists a range, up to their first fault.
    /// The units take memory where bytes are shared, or where the header can be read of a unit that
    /// is no type unit and whose abbreviations begin in their section. The supplementary file takes
    /// memory where bytes are shared, or where it has such a unit, a type unit too.
    pub fn from_arc_dwarf(alloc: Global, dwarf: Rc<Dwarf<R>>) -> Result<Context<R>, Error>
        ensures gives { ExactlyUnlessOomIf (context_takes_memory R.shares dwarf.value) (λ c. c)
            result (new_context dwarf.value) }
    {
        let (units, ranges) = Units::parse(alloc, dwarf)?;
        Ok(Context {
            alloc,
            ranges,
            units,
        })
    }

    /// A context of the sections of a file, each by itself. `default_section` decides nothing.
    ///
    /// Refused as `from_dwarf` is.
    pub fn from_sections(
        alloc: Global,
        debug_abbrev: DebugAbbrev<R>,
        debug_addr: DebugAddr<R>,
        debug_aranges: DebugAranges<R>,
        debug_info: DebugInfo<R>,
        debug_line: DebugLine<R>,
        debug_line_str: DebugLineStr<R>,
        debug_ranges: DebugRanges<R>,
        debug_rnglists: DebugRngLists<R>,
        debug_str: DebugStr<R>,
        debug_str_offsets: DebugStrOffsets<R>,
        default_section: R,
    ) -> Result<Context<R>, Error>
        ensures gives { IsUnlessOom result (new_context (main_sections R.section
            debug_abbrev.section debug_addr.section debug_aranges.section debug_info.section
            debug_line.section debug_line_str.section debug_ranges.section
            debug_rnglists.section debug_str.section debug_str_offsets.section)) }
    {
        let _ = default_section;
        Context::from_dwarf(
            alloc,
            Dwarf {
                debug_abbrev,
                debug_addr,
                debug_aranges,
                debug_info,
                debug_line,
                debug_line_str,
                debug_ranges,
                debug_rnglists,
                debug_str,
                debug_str_offsets,
                file_type: DwarfFileType::Main,
                sup: None,
            },
        )
    }

    /// The location of an address: its file, line and column; none where no unit covers it, or
    /// where no row has it. No unit covers 2^64 - 1.
    ///
    /// `probe` is an address as the file has it. Of the ranges that hold it, by end, then unit,
    /// then begin, the first whose unit has a location gives it. The lines of each unit up to it
    /// are parsed at the first such lookup, and stay parsed, their fault too; no other lines are
    /// parsed.
    ///
    /// Refused by the first such fault; may fail with `OutOfMemory` instead, which is never cached.
    /// Takes no memory where the lines that it asks for are parsed, or take none to read, as
    /// `Lines::parse` has it; nor where no unit covers `probe`.
    ///
    /// Source: DWARF 5, section 6.2. Own: which of several sequences counts, and which unit.
    pub fn find_location(&mut self, probe: u64) -> Result<Option<Location<'_>>, Error>
        ensures gives { Locates OutOfMemory as_location self.old probe result
            (location_of self.old.sections probe) }
        ensures* ends { EndsAs 𝓛 R.row R.Reader self.entry
            (AfterLookupOver R.shares probe result self.old) }
    {
        let ranges = self.ranges.find(probe);
        self.units.walk(ranges, probe, Asks::Location)?;
        Ok(self.units.location())
    }

    /// The rows that the addresses from `low` up to `high` meet, each with its address, the length
    /// of its span, and its location: unit range after unit range, by end, then unit, then begin.
    ///
    /// Addresses are as the file has them; `low` may be above `high`. The lines of each unit that
    /// is met are parsed, unless they are, and stay parsed, their fault too; no other lines are
    /// parsed. A fault is given in the place of the unit's rows.
    ///
    /// Refused `OutOfMemory` alone, which is never cached; takes no memory where the lines are
    /// parsed, or take none to read, as `Lines::parse` has it.
    ///
    /// Source: DWARF 5, section 6.2.2. Own: the order, and what is met.
    pub fn find_location_range(
        &mut self,
        low: u64,
        high: u64,
    ) -> Result<LocationRangeIter<'_, R>, Error>
        ensures gives { LocatesRange OutOfMemory R.shares locations_left self.old low high result }
        ensures* ends { EndsAs 𝓛 R.row R.Reader self.entry
            (AfterRangeLookup low high result self.old) }
    {
        self.units.cache_lines(self.ranges.find_range(low, high))?;
        Ok(self.cached_rows(low, high))
    }

    // The rows of a range whose lines are parsed. Takes no memory.
    fn cached_rows(&self, low: u64, high: u64) -> LocationRangeIter<'_, R>
        requires parsed { IsReadyForRange self.now low high }
        ensures gives { spans_of self.now.sections low high ≡ Ok (locations_left result) }
    {
        let ranges = self.ranges.find_range(low, high);
        self.units.find_location_range(ranges, low, high)
    }

    /// Parses the lines of all units in their order, unless they are parsed, up to the first fault;
    /// they stay parsed, and that fault is cached too. The lines of the units behind it are left as
    /// they are.
    ///
    /// Refused by the first fault; may fail with `OutOfMemory` instead, which is never cached.
    /// Takes no memory where the lines up to the first fault are parsed, or take none to read, as
    /// `Lines::parse` has it. Once it isn't refused, `find_location` takes no memory and finds no
    /// fault.
    pub fn parse_lines(&mut self) -> Result<(), Error>
        ensures gives { IsUnlessOom result (lines_of_all self.old.sections) }
        ensures after { AfterParsingLines R.shares result self.old self.new }
    {
        self.units.parse_lines()
    }
}
