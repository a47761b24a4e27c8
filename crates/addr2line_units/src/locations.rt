//! Lookups of locations among units, by their lines alone: what one unit is asked for, and the
//! location that the last lookup has found; the rows that a range of addresses meets.

ghost use Rattle.std.specs.Prelude.{◌≡◌, IfErr, option_map, slice_get};
ghost use Rattle.addr2line_units.specs.Common.{OutOfMemory, ExactlyUnlessOom, IsUnlessOom, fault_of, result_map, location_of_row, as_location};
ghost use Rattle.addr2line_lines.specs.RangesLeft.{located_rows_left, as_located};
ghost use Rattle.addr2line_units.specs.declared.frames.Asks.TheVariants as lookups;
ghost use Rattle.addr2line_units.specs.FramesLookup.{location_found};
ghost use Rattle.addr2line_units.specs.UnitsAsked.{AfterAsk, AfterCachingAt, CountsUnits, stop_at};
ghost use Rattle.addr2line_units.specs.UnitsAfter.{AfterCaching, AfterLineParse};
ghost use Rattle.addr2line_units.specs.UnitLinesCached.{cached_files, lines_result_at, cached_spans, lines_at};
ghost use Rattle.addr2line_units.specs.Locations.{all_lines, spans_along};
ghost use Rattle.addr2line_units.specs.LocationsLeft.{locations_left};
ghost use Rattle.addr2line_units.specs.LocationsParsed.{AreParsed};
ghost use Rattle.addr2line_units.specs.RangeIterLeft.{ranges_left};
ghost use Rattle.addr2line_units.specs.LocationsRange.{YieldsOn, YieldsRow, cached_along, rows_or_fault};

use crate::entries::UnitCache;
use crate::frames::{FramesStop, row_stop};
use crate::index::UnitRange;
use crate::range_iter::UnitRangeIter;
use crate::unit::LazyLines;
use crate::units::Units;
use addr2line_lines::{LineLocationRangeIter, Location, Row};
use gimli::read::{Error, Range, Reader};

/// The rows that a range of addresses meets, unit range after unit range.
// It has no `Model`, so that what a lookup lends is seen to hold nothing but references.
#[derive(Drop)]
pub struct LocationRangeIter<'ctx, R: Reader> {
    caches: &'ctx Vec<UnitCache<R>>,
    // The unit ranges that are left.
    ranges: UnitRangeIter<'ctx>,
    low: u64,
    high: u64,
    // What is left of the unit range before them.
    rows: Option<LineLocationRangeIter<'ctx>>,
}

// What cached lines have in a unit range.
fn rows_of<'ctx>(
    lines: &'ctx LazyLines,
    range: Range,
    low: u64,
    high: u64,
) -> Result<Option<LineLocationRangeIter<'ctx>>, Error>
    ensures gives { rows_or_fault (result_map (option_map located_rows_left) result)
        ≡ cached_spans range low high lines.now }
{
    match lines {
        LazyLines::Unread | LazyLines::Absent => Ok(None),
        LazyLines::Read(lines) => Ok(Some(lines.find_location_range(range, low, high))),
        LazyLines::Faulty(error) => Err(*error),
    }
}

// What the cached lines of the unit of a number have in a range of it.
fn rows_in<'ctx, R: Reader>(
    caches: &'ctx Vec<UnitCache<R>>,
    range: UnitRange,
    low: u64,
    high: u64,
) -> Result<Option<LineLocationRangeIter<'ctx>>, Error>
    ensures gives { rows_or_fault (result_map (option_map located_rows_left) result)
        ≡ cached_spans range.range low high (lines_at caches.now.items range.unit) }
{
    match caches.get(range.unit) {
        Some(cache) => rows_of(&cache.lines.lines, range.range, low, high),
        None => Ok(None),
    }
}

impl<'ctx, R: Reader> LocationRangeIter<'ctx, R> {
    // What the cached lines of units have in unit ranges. Takes no memory.
    pub(crate) fn new(
        caches: &'ctx Vec<UnitCache<R>>,
        ranges: UnitRangeIter<'ctx>,
        low: u64,
        high: u64,
    ) -> LocationRangeIter<'ctx, R>
        ensures gives { locations_left result ≡ cached_along caches.now.items low high
            (ranges_left ranges.entry) }
    {
        LocationRangeIter {
            caches,
            ranges,
            low,
            high,
            rows: None,
        }
    }

    /// The next row: its address, as the file has it, the length of its span, and its location;
    /// none at the end. Takes no memory.
    ///
    /// Refused by the fault of a unit's lines, in the place of its rows; a later call goes on with
    /// the next unit range. Source: DWARF 5, section 6.2.2.
    pub fn next_loc(&mut self) -> Result<Option<(u64, u64, Location<'ctx>)>, Error>
        ensures gives { YieldsOn (locations_left self.old)
            (result_map (option_map as_located) result) (locations_left self.new) }
    {
        loop {
            if let Some(rows) = &mut self.rows {
                if let Some(row) = rows.next() {
                    return Ok(Some(row));
                }
            }
            let Some(range) = self.ranges.next() else {
                return Ok(None);
            };
            self.rows = rows_in(self.caches, range, self.low, self.high)?;
        }
    }
}

impl<'ctx, R: Reader> Iterator for LocationRangeIter<'ctx, R> {
    type Item = (u64, u64, Location<'ctx>);

    ghost use Rattle.std.specs.Iterator.{item_count};

    ghost next_gives = { λ old result new. YieldsRow (locations_left old)
        (option_map as_located result) (locations_left new) };

    ghost remaining = { item_count locations_left };

    /// The next row, as `next_loc` gives it; none also in the place of a fault. Takes no memory.
    fn next(&mut self) -> Option<(u64, u64, Location<'ctx>)> {
        match self.next_loc() {
            Ok(row) => row,
            Err(_) => None,
        }
    }
}

// The location of a row in cached lines.
pub(crate) fn location_of(lines: &LazyLines, row: Row) -> Location<'_>
    ensures gives { as_location result ≡ location_of_row (cached_files lines.now) row }
{
    match lines {
        LazyLines::Read(lines) => lines.location(row),
        LazyLines::Faulty(_) | LazyLines::Absent | LazyLines::Unread => {
            Location::without_file(row)
        }
    }
}

impl<R: Reader> Units<R> {
    // How many units there are.
    pub(crate) fn len(&self) -> usize
        ensures gives { CountsUnits result self.now }
    {
        self.caches.len()
    }

    // Asks the unit of a number for the row of an address in its lines, which are cached then, or
    // their fault, and stores what the lookup comes to there.
    pub(crate) fn ask_lines(&mut self, number: usize, probe: u64) -> Result<(), Error>
        ensures gives { ExactlyUnlessOom (λ _. self.new.stop) result
            (stop_at lookups.Location probe self.old number) }
        ensures after { AfterAsk R.shares lookups.Location number probe result self.old self.new }
    {
        self.stop = FramesStop::FindsNothing;
        let scope = self.sources.scope();
        let Some(dw_unit) = scope.file.as_slice().get(number) else {
            return Ok(());
        };
        let cache = &mut self.caches[number];
        let row = cache.lines.find_row(
            self.alloc,
            scope.file.dwarf,
            dw_unit,
            &mut self.steps,
            probe,
        )?;
        self.stop = row_stop(number, row);
        Ok(())
    }

    // Reads the lines of the unit of a number, unless they are cached, and caches them, or their
    // fault.
    fn read_lines_in(&mut self, number: usize) -> Result<(), Error>
        ensures gives { IsUnlessOom result (lines_result_at self.old.scope.file.sections
            (slice_get self.old.units number)) }
        ensures after { AfterCachingAt R.shares number result self.old self.new }
    {
        self.stop = FramesStop::FindsNothing;
        let scope = self.sources.scope();
        let Some(dw_unit) = scope.file.as_slice().get(number) else {
            return Ok(());
        };
        let cache = &mut self.caches[number];
        cache
            .lines
            .read_lines(self.alloc, scope.file.dwarf, dw_unit)
    }

    // Caches the lines of the unit of a number, or their fault, if there is such a unit. Refused
    // `OutOfMemory` alone.
    fn cache_lines_in(&mut self, number: usize) -> Result<(), Error>
        ensures gives { IfErr result (λ e. e ≡ OutOfMemory) }
        ensures after { AfterCachingAt R.shares number result self.old self.new }
    {
        match self.read_lines_in(number) {
            Err(Error::OutOfMemory) => Err(Error::OutOfMemory),
            Err(_) | Ok(()) => Ok(()),
        }
    }

    /// The location of the address of the last lookup, by the lines of the unit in which it has
    /// found something, if it has one there. Takes no memory.
    pub fn location(&self) -> Option<Location<'_>>
        ensures gives { option_map as_location result ≡ location_found self.now.stop }
    {
        let FramesStop::Finds(place) = &self.stop else {
            return None;
        };
        let cache = &self.caches[place.unit];
        Some(location_of(&cache.lines.lines, place.row?))
    }

    /// Parses the lines of the units that ranges lead to, unless they are; they stay parsed, and
    /// their faults too. No other lines are parsed.
    ///
    /// Refused `OutOfMemory` alone, which is never cached; takes no memory where the lines are
    /// parsed, or take none to read, as `Lines::parse` has it.
    pub fn cache_lines(&mut self, mut ranges: UnitRangeIter<'_>) -> Result<(), Error>
        ensures after { AfterCaching R.shares (ranges_left ranges.entry) result self.old self.new }
    {
        self.reset();
        while let Some(range) = ranges.next() {
            self.cache_lines_in(range.unit)?;
        }
        Ok(())
    }

    /// The rows that the addresses from `low` up to `high` meet in ranges of units whose lines are
    /// parsed. Takes no memory.
    pub fn find_location_range<'x>(
        &'x self,
        ranges: UnitRangeIter<'x>,
        low: u64,
        high: u64,
    ) -> LocationRangeIter<'x, R>
        requires parsed { AreParsed self.now.parsed (ranges_left ranges) }
        ensures gives { locations_left result ≡ spans_along self.now.scope.file.sections
            self.now.units low high (ranges_left ranges.entry) }
    {
        LocationRangeIter::new(&self.caches, ranges, low, high)
    }

    /// Parses the lines of all units in their order, unless they are parsed, up to the first fault;
    /// they stay parsed, and that fault is cached too. The lines of the units behind it are left as
    /// they are.
    ///
    /// Refused by the first fault; may fail with `OutOfMemory` instead, which is never cached.
    /// Takes no memory where the lines up to the first fault are parsed, or take none to read, as
    /// `Lines::parse` has it.
    pub fn parse_lines(&mut self) -> Result<(), Error>
        ensures gives { IsUnlessOom result
            (fault_of (all_lines self.old.scope.file.sections self.old.units)) }
        ensures after { AfterLineParse R.shares result self.old self.new }
    {
        self.reset();
        let count = self.len();
        for number in 0..count {
            self.read_lines_in(number)?;
        }
        Ok(())
    }
}
