//! Lookups among units: what the last one has come to; what is lent of it, the frames with names of
//! functions, and the unit; and an answer to its load.

ghost use Rattle.std.specs.Prelude.{◌≡◌, ◌+◌, ◌<◌, IfOk, IfSome, IsOk, IsOkUnless, [], length, map, option_and_then, option_map, reverse, slice_get, IfErr, true, Err, Ok, Some, false};
ghost use Rattle.std.specs.Cow.{cow_str_bytes};
ghost use Rattle.std.specs.Iterator.{YieldsFirst};
ghost use Rattle.std.specs.List.{AllByRecursion};
ghost use Rattle.std.specs.Option.{option_copied};
ghost use Rattle.std.specs.Str.{IsUtf8};
ghost use Rattle.addr2line_units.specs.Common.{OutOfMemory, result_map, ExactlyUnlessOom, cached_name, cached_offset_at, as_location, location_of_row, as_file_record};
ghost use Rattle.addr2line_lines.specs.FoundInlined.{entry_among};
ghost use Rattle.addr2line_lines.specs.LentInlined.{as_inlined};
ghost use Rattle.addr2line_units.specs.Frames.{call_location, found_frames, frames_from, if_counted, location_frames};
ghost use Rattle.addr2line_units.specs.FramesLeft.{entry_frame, files_if, frames_left, place_frame};
ghost use Rattle.addr2line_units.specs.EntriesFunctions.{ArePlacesIn, function_of_place, cached_functions};
ghost use Rattle.addr2line_units.specs.FramesLent.{YieldsFrame, language_text, name_text, raw_text, as_frame, as_name};
ghost use Rattle.addr2line_units.specs.UnitsAfter.{AfterWalkAlong, AfterAnswer, HasPassedTo};
ghost use Rattle.addr2line_units.specs.UnitsAsked.{AfterAsk, found_stop, row_stop, stop_at};
ghost use Rattle.addr2line_units.specs.EntriesEmpty.{HasNothingAt};
ghost use Rattle.addr2line_units.specs.FramesCached.{found_after_fault};
ghost use Rattle.addr2line_units.specs.FramesLookup.{FindsNothing, has_stopped, Waits, frames_found, unit_found};
ghost use Rattle.addr2line_units.specs.declared.frames.Asks.TheVariants as lookups;
ghost use Rattle.addr2line_units.specs.RangeIterLeft.{ranges_left};
ghost use Rattle.addr2line_units.specs.UnitsState.{stop_of, waiting_unit};
ghost use Rattle.addr2line_units.specs.EntriesCached.{AreRead};
ghost use Rattle.addr2line_units.specs.UnitLinesCached.{cached_files};
ghost use Rattle.addr2line_units.specs.SupScope.{as_unit, sup_file};
ghost use Rattle.addr2line_units.specs.UnitView.{load_of_unit};

use crate::entries::{FunctionPlace, LazyFunctions, UnitCache, UnitFrames};
use crate::index::UnitRange;
use crate::legacy::demangle_auto;
use crate::locations::location_of;
use crate::range_iter::UnitRangeIter;
use crate::sup::SupUnits;
use crate::unit::{LazyLines, SplitDwarfLoad, read_load};
use crate::units::Units;
use addr2line_lines::{FileUnits, Functions, InlinedFunction, Lines, Location, Row, Scope};
use gimli::read::{DwLang, Error, Reader, UnitOffset};
use gimli::{Dwarf, UnitRef};
use std::alloc::Global;
use std::borrow::CowStr;
use std::mem;
use std::rc::Rc;

/// The name of a function, and the language of the main unit.
// It has no `Model` and owns nothing, so that what a lookup lends is seen to hold nothing but
// references: whoever is lent it knows what its lender is afterwards.
#[derive(Drop)]
pub struct FunctionName<'ctx, R: Reader> {
    /// The bytes of the name, as the file has them.
    pub name: &'ctx R,
    /// The language of the main unit, if it says one.
    pub language: Option<DwLang>,
}

impl<'ctx, R: Reader> FunctionName<'ctx, R> {
    /// The name as the file has it, with U+FFFD for each piece that is no UTF-8.
    ///
    /// Refused `OutOfMemory` alone, and never where the name is UTF-8. Source: own.
    pub fn raw_name(&self, alloc: Global) -> Result<CowStr<'ctx>, Error>
        ensures gives { IfOk result (λ text. cow_str_bytes text
            ≡ raw_text (as_name R.section self.now)) }
        ensures exact { IsUtf8 (R.section self.now.name.now).bytes → IsOk result }
        ensures refused { IsOkUnless result OutOfMemory }
    {
        let name = self.name;
        name.to_string_lossy(alloc)
    }

    /// The text of the name in its language, as `demangle_auto` gives it.
    ///
    /// Refused `OutOfMemory` alone, and never where the name is UTF-8 and has no text in its
    /// language. Source: own.
    pub fn demangle(&self, alloc: Global) -> Result<CowStr<'ctx>, Error>
        ensures gives { IfOk result (λ text. cow_str_bytes text
            ≡ name_text (as_name R.section self.now)) }
        ensures refused { IsOkUnless result OutOfMemory }
        ensures none { IsUtf8 (R.section self.now.name.now).bytes
            → language_text (as_name R.section self.now) ≡ None → IsOk result }
    {
        let name = self.raw_name(alloc)?;
        demangle_auto(alloc, name, self.language)
    }
}

/// A function at an address with its location there, or a location without a function.
#[derive(Drop)]
pub struct Frame<'ctx, R: Reader> {
    /// Where the entry of the function begins, in bytes from the start of the unit's length; none
    /// without a function.
    pub dw_die_offset: Option<UnitOffset>,
    /// The name of the function, if it has one that can be read.
    pub function: Option<FunctionName<'ctx, R>>,
    /// The location of the address, or that of the call of the frame before.
    pub location: Option<Location<'ctx>>,
}

// A number that counts, none of 0.
fn if_counted(number: u32) -> Option<u32>
    ensures gives { result ≡ if_counted number }
{
    if number == 0 { None } else { Some(number) }
}

// The text of the file of a call, if there is one.
fn call_file<'ctx>(lines: Option<&'ctx Lines>, index: Option<u64>) -> Option<&'ctx str>
    ensures gives { option_copied result
        ≡ option_and_then (slice_get (files_if lines.entry)) index }
{
    lines?.file(index?)
}

// Where an inlined function was called.
fn call_location<'ctx, R: Reader>(
    lines: Option<&'ctx Lines>,
    entry: InlinedFunction<'_, R>,
) -> Location<'ctx>
    ensures gives { as_location result
        ≡ call_location (files_if lines.entry) (as_inlined R.section entry.entry).call }
{
    Location {
        file: call_file(lines, entry.call_file),
        line: if_counted(entry.call_line),
        column: if_counted(entry.call_column),
    }
}

// The place of the innermost of inlined functions, which isn't among them then.
fn take_innermost(inlined: &mut &[usize]) -> Option<usize>
    ensures gives { YieldsFirst (λ s. reverse s.now) inlined.old result inlined.new }
{
    let (innermost, rest) = inlined.split_last()?;
    *inlined = rest;
    Some(*innermost)
}

// The frames of a function that are left.
#[derive(Drop)]
struct FunctionFrames<'ctx, R: Reader> {
    functions: &'ctx Functions<R>,
    // The place of the function.
    place: usize,
    // The places of its inlined functions that are left, from the outside in.
    inlined: &'ctx [usize],
    // The lines of the main unit, if it has a line program; the files of calls are theirs.
    lines: Option<&'ctx Lines>,
    language: Option<DwLang>,
    // The location of the next frame.
    location: Option<Location<'ctx>>,
}

impl<'ctx, R: Reader> FunctionFrames<'ctx, R> {
    // The name of a function.
    fn function_name(&self, name: Option<&'ctx R>) -> Option<FunctionName<'ctx, R>>
        ensures gives { option_map (as_name R.section) result ≡ option_map
            (λ n. record { name = R.section n.now; language = self.now.language }) name.entry }
    {
        Some(FunctionName {
            name: name?,
            language: self.language,
        })
    }

    // The frame of an inlined function; without one a frame with neither offset nor function.
    fn inlined_frame(&self, entry: Option<InlinedFunction<'ctx, R>>) -> Frame<'ctx, R>
        ensures gives { as_frame R.section result ≡ entry_frame self.now.language
            (option_map (as_inlined R.section) entry.entry)
            (option_map as_location self.now.location) }
    {
        match entry {
            Some(entry) => Frame {
                dw_die_offset: Some(entry.dw_die_offset),
                function: self.function_name(entry.name()),
                location: self.location,
            },
            None => Frame {
                dw_die_offset: None,
                function: None,
                location: self.location,
            },
        }
    }

    // Where an inlined function was called.
    fn call_of(&self, entry: Option<InlinedFunction<'ctx, R>>) -> Option<Location<'ctx>>
        ensures gives { option_map as_location result ≡ option_map
            (λ e. call_location (files_if self.now.lines) (as_inlined R.section e).call)
            entry.entry }
    {
        Some(call_location(self.lines, entry?))
    }

    // The frame of the function itself.
    fn own_frame(&self) -> Frame<'ctx, R>
        ensures gives { as_frame R.section result ≡ place_frame self.now.language
            self.now.functions.now self.now.place (option_map as_location self.now.location) }
    {
        let functions = self.functions;
        Frame {
            dw_die_offset: functions.offset(self.place),
            function: self.function_name(functions.name(self.place)),
            location: self.location,
        }
    }
}

// What frames are left of.
#[derive(Drop)]
enum FrameState<'ctx, R: Reader> {
    Empty,
    Located(Option<Location<'ctx>>),
    Function(FunctionFrames<'ctx, R>),
}

/// The frames of an address.
// It has no `Model` and owns nothing, so that what a lookup lends is seen to hold nothing but
// references: whoever is lent it knows what its lender is afterwards.
#[derive(Drop)]
pub struct FrameIter<'ctx, R: Reader> {
    state: FrameState<'ctx, R>,
}

impl<'ctx, R: Reader> FrameIter<'ctx, R> {
    /// No frames. Takes no memory.
    pub fn new_empty() -> FrameIter<'ctx, R>
        ensures gives { frames_left result ≡ [] }
    {
        FrameIter {
            state: FrameState::Empty,
        }
    }

    /// The frame of a location without a function; none without a location. Takes no memory.
    pub fn new_location(location: Option<Location<'ctx>>) -> FrameIter<'ctx, R>
        ensures gives { frames_left result
            ≡ location_frames (option_map as_location location.entry) }
    {
        FrameIter {
            state: FrameState::Located(location),
        }
    }

    /// The frames of the function of a place and of the functions that are inlined in it. Takes no
    /// memory.
    ///
    /// `inlined` has the places of these from the outside in, as
    /// `Functions::find_inlined_functions` gives them; `lines` and `language` are those of the
    /// main unit, as far as it has them, and `location` is that of the address. Source: DWARF 5,
    /// section 3.3.8. Own: the order of `next`.
    #[tactic(auto, using(crate::proofs::FramesLeftLemmas::function_frames, crate::proofs::FramesLeftLemmas::function_frames_count))]
    pub fn new_function(
        functions: &'ctx Functions<R>,
        place: usize,
        inlined: &'ctx [usize],
        lines: Option<&'ctx Lines>,
        language: Option<DwLang>,
        location: Option<Location<'ctx>>,
    ) -> FrameIter<'ctx, R>
        requires within { AllByRecursion (λ n. n < length functions.now.inlined) inlined.now }
        ensures gives { IfSome (cached_offset_at functions.now place) (λ offset. frames_left result
            ≡ frames_from (files_if lines.entry) language offset (cached_name functions.now place)
            (reverse (map (entry_among functions.now.inlined) inlined.now))
            (option_map as_location location.entry)) }
        ensures whole { length (frames_left result) ≡ length inlined.now + 1 }
    {
        FrameIter {
            state: FrameState::Function(FunctionFrames {
                functions,
                place,
                inlined,
                lines,
                language,
                location,
            }),
        }
    }

    /// The next frame, the innermost inlined function's first; none at the end, and from then on.
    /// Takes no memory.
    ///
    /// The first frame has the location of the address, each next one that of the call of the frame
    /// before. Never refused. Source: DWARF 5, section 3.3.8. Own: the order, that of a call line 0
    /// is no line and column 0 no column, and that a file past the files of the main unit is none.
    pub fn next(&mut self) -> Result<Option<Frame<'ctx, R>>, Error>
        ensures gives { YieldsFrame (frames_left self.old)
            (result_map (option_map (as_frame R.section)) result) (frames_left self.new) }
    {
        match mem::replace(&mut self.state, FrameState::Empty) {
            FrameState::Empty | FrameState::Located(None) => Ok(None),
            FrameState::Located(Some(location)) => Ok(Some(Frame {
                dw_die_offset: None,
                function: None,
                location: Some(location),
            })),
            FrameState::Function(frames) => {
                let mut frames = frames;
                let Some(inlined) = take_innermost(&mut frames.inlined) else {
                    return Ok(Some(frames.own_frame()));
                };
                let functions = frames.functions;
                let entry = functions.inlined(inlined);
                let frame = frames.inlined_frame(entry);
                frames.location = frames.call_of(entry);
                self.state = FrameState::Function(frames);
                Ok(Some(frame))
            }
        }
    }
}

// The frames of the function of a place among those that are cached, or the frame of a location
// alone. Takes no memory.
fn frames_of<'ctx, R: Reader>(
    functions: &'ctx LazyFunctions<R>,
    place: &'ctx Option<FunctionPlace>,
    lines: Option<&'ctx Lines>,
    language: Option<DwLang>,
    location: Option<Location<'ctx>>,
) -> FrameIter<'ctx, R>
    requires within { IfSome place.now (ArePlacesIn (cached_functions functions.now)) }
    ensures gives { frames_left result ≡ found_frames (files_if lines.entry) language
        (option_map (function_of_place (cached_functions functions.now)) place.now)
        (option_map as_location location.entry) }
{
    let Some(found) = place else {
        return FrameIter::new_location(location);
    };
    match functions {
        LazyFunctions::Read(functions) => FrameIter::new_function(
            functions,
            found.place,
            found.inlined.as_slice(),
            lines,
            language,
            location,
        ),
        // A place is one among functions that were read.
        LazyFunctions::Faulty(_) | LazyFunctions::Absent | LazyFunctions::Unread => {
            FrameIter::new_location(location)
        }
    }
}

/// What becomes of a fault of a unit that a lookup asks.
#[derive(Clone, Copy)]
pub enum OnFault {
    /// It ends the lookup.
    Stop,
    /// The lookup goes on with the next unit.
    Skip,
}

/// What a lookup asks each unit for.
#[derive(Clone, Copy)]
pub enum Asks {
    /// The row of the address in its lines alone, up to the first fault of lines.
    Location,
    /// Its frames, and what becomes of a fault.
    Frames(OnFault),
}

// A unit by its number, and the function and the row at an address there, as far as there are.
#[derive(Drop)]
pub struct FramePlace {
    pub(crate) unit: usize,
    pub(crate) function: Option<FunctionPlace>,
    pub(crate) row: Option<Row>,
}

// What a lookup comes to.
#[derive(Drop)]
pub enum FramesStop {
    // The unit of this number waits for an answer.
    Waits(usize),
    // A function or a location.
    Finds(FramePlace),
    FindsNothing,
}

// A fault as it is, or nothing in its place where a lookup passes over it.
fn after_fault(found: Result<UnitFrames, Error>, faults: OnFault) -> Result<UnitFrames, Error>
    ensures gives { result ≡ found_after_fault faults found }
{
    match (found, faults) {
        (Err(Error::OutOfMemory), _) => Err(Error::OutOfMemory),
        (Err(_), OnFault::Skip) => Ok(UnitFrames::Here {
            function: None,
            row: None,
        }),
        (found, _) => found,
    }
}

// What a lookup comes to in the unit of a number.
fn stop_at(number: usize, found: UnitFrames) -> FramesStop
    ensures gives { result ≡ found_stop number found }
{
    match found {
        UnitFrames::Open => FramesStop::Waits(number),
        UnitFrames::Here {
            function: None,
            row: None,
        } => FramesStop::FindsNothing,
        UnitFrames::Here { function, row } => FramesStop::Finds(FramePlace {
            unit: number,
            function,
            row,
        }),
    }
}

// What a lookup comes to in the unit of a number, by the row there.
pub(crate) fn row_stop(number: usize, row: Option<Row>) -> FramesStop
    ensures gives { result ≡ row_stop number row }
{
    match row {
        None => FramesStop::FindsNothing,
        row => FramesStop::Finds(FramePlace {
            unit: number,
            function: None,
            row,
        }),
    }
}

impl<R: Reader> Units<R> {
    // Forgets what the last lookup has come to.
    pub(crate) fn reset(&mut self)
        ensures gives { self.new ≡ record self.old { stop = FindsNothing } }
    {
        self.stop = FramesStop::FindsNothing;
    }

    // Whether the lookup has ended.
    fn has_stopped(&self) -> bool
        ensures gives { result ≡ has_stopped self.now.stop }
    {
        !matches!(self.stop, FramesStop::FindsNothing)
    }

    // Whether it is known that no lookup of frames finds anything in the unit of a number.
    fn has_nothing(&self, number: usize) -> bool
        ensures empty { result ≡ true → HasNothingAt self.now number }
    {
        match self.caches.get(number) {
            Some(cache) => cache.has_nothing(),
            None => false,
        }
    }

    // Asks the unit of a number for its frames, and stores what the lookup comes to there. What is
    // read of the unit is cached, its fault too. A unit of which it is known that it has nothing at
    // any address is passed by one test.
    fn ask_frames(&mut self, number: usize, probe: u64, faults: OnFault) -> Result<(), Error>
        ensures gives { ExactlyUnlessOom (λ _. self.new.stop) result
            (stop_at (lookups.Frames faults) probe self.old number) }
        ensures after { AfterAsk R.shares (lookups.Frames faults) number probe result self.old
            self.new }
    {
        if self.has_nothing(number) {
            self.reset();
            return Ok(());
        }
        self.ask_unit(number, probe, faults)
    }

    // Asks the unit of a number, as `ask_frames` has it. It is a call of its own, so that a unit
    // that is passed, or asked for a location, doesn't pay for the room that what is found takes.
    #[inline(never)]
    fn ask_unit(&mut self, number: usize, probe: u64, faults: OnFault) -> Result<(), Error>
        ensures gives { ExactlyUnlessOom (λ _. self.new.stop) result
            (stop_at (lookups.Frames faults) probe self.old number) }
        ensures after { AfterAsk R.shares (lookups.Frames faults) number probe result self.old
            self.new }
    {
        self.stop = FramesStop::FindsNothing;
        let scope = self.sources.scope();
        let Some(dw_unit) = scope.file.as_slice().get(number) else {
            return Ok(());
        };
        let cache = &mut self.caches[number];
        let steps = &mut self.steps;
        let found = cache.find_frames(self.alloc, &self.sources, dw_unit, steps, probe);
        cache.is_own();
        let found = after_fault(found, faults)?;
        self.stop = stop_at(number, found);
        Ok(())
    }

    // Asks the unit of a number for what a lookup asks for, and stores what it comes to there.
    fn ask(&mut self, number: usize, probe: u64, asks: Asks) -> Result<(), Error>
        ensures gives { ExactlyUnlessOom (λ _. self.new.stop) result
            (stop_at asks probe self.old number) }
        ensures after { AfterAsk R.shares asks number probe result self.old self.new }
    {
        match asks {
            Asks::Location => self.ask_lines(number, probe),
            Asks::Frames(faults) => self.ask_frames(number, probe, faults),
        }
    }

    /// Asks the units that ranges lead to, and stores what the lookup comes to: the first unit that
    /// waits for an answer, that has a fault, unless faults are passed over, or that has a function
    /// or a location; for a location its lines alone are asked. What is read of the units up to it
    /// is cached, their faults too, and nothing is read of others. Gives the range at which it
    /// stops, if it stops at one: nothing is found in the units of those before it.
    ///
    /// Refused by that fault; may fail with `OutOfMemory` instead, only where something of what is
    /// asked for isn't cached and takes memory, or there are more than 16 inlined functions.
    /// Unless readers share their bytes, functions take none where a view has none, nor do some
    /// lines that have a fault, as `Lines::parse` has it.
    pub fn walk(
        &mut self,
        mut ranges: UnitRangeIter<'_>,
        probe: u64,
        asks: Asks,
    ) -> Result<Option<UnitRange>, Error>
        ensures gives { ExactlyUnlessOom (λ _. self.new.stop) result
            (stop_of asks probe self.old (ranges_left ranges.entry)) }
        ensures after { AfterWalkAlong R.shares asks probe (ranges_left ranges.entry) result
            self.old self.new }
        ensures passed { IfOk result (HasPassedTo asks probe self.new (ranges_left ranges.entry)) }
    {
        self.reset();
        while let Some(range) = ranges.next() {
            self.ask(range.unit, probe, asks)?;
            if self.has_stopped() {
                return Ok(Some(range));
            }
        }
        Ok(None)
    }
}

impl<R: Reader> SupUnits<R> {
    // Where references to the supplementary file lead, if there is one. Takes no memory.
    pub(crate) fn file(&self) -> Option<FileUnits<'_, R>>
        ensures gives { option_map as_file_record result ≡ sup_file self.now }
    {
        match &self.dwarf {
            Some(dwarf) => Some(FileUnits {
                dwarf,
                units: Some(&self.units),
            }),
            None => None,
        }
    }
}

// The frames of the function and the row at an address in a unit, by what is cached. Takes no
// memory.
fn frames_in_unit<'ctx, R: Reader>(
    cache: &'ctx UnitCache<R>,
    function: &'ctx Option<FunctionPlace>,
    row: Option<Row>,
) -> FrameIter<'ctx, R>
    requires function { IfSome function.now
        (ArePlacesIn (cached_functions cache.now.entries.functions)) }
    requires read { AreRead cache.now.lines.lines }
    ensures gives { frames_left result
        ≡ found_frames (cached_files cache.now.lines.lines) cache.now.lines.lang
        (option_map (function_of_place (cached_functions cache.now.entries.functions)) function.now)
        (option_map (location_of_row (cached_files cache.now.lines.lines)) row) }
{
    let lines = match &cache.lines.lines {
        LazyLines::Read(lines) => Some(&**lines),
        LazyLines::Absent => None,
        LazyLines::Faulty(_) | LazyLines::Unread => return FrameIter::new_empty(),
    };
    let location = match row {
        Some(row) => Some(location_of(&cache.lines.lines, row)),
        None => None,
    };
    frames_of(
        &cache.entries.functions,
        function,
        lines,
        cache.lines.lang,
        location,
    )
}

impl<R: Reader> Units<R> {
    /// The unit that the last lookup waits for, if it waits for one.
    pub fn waits_for(&self) -> Option<usize>
        ensures gives { result ≡ waiting_unit self.now.stop }
    {
        match &self.stop {
            FramesStop::Waits(number) => Some(*number),
            FramesStop::Finds(_) | FramesStop::FindsNothing => None,
        }
    }

    /// The load of the unit that the last lookup waits for. Refused `OutOfMemory` alone.
    pub fn load(&self, number: usize) -> Result<SplitDwarfLoad<R>, Error>
        requires waits { self.now.stop ≡ Waits number }
        ensures gives { IfOk result (λ l. option_map
            (load_of_unit self.now.scope.file.sections number)
            (slice_get self.now.scope.file.units number) ≡ Some (Ok (Some l))) }
        ensures refused { IfErr result (λ e. e ≡ OutOfMemory) }
    {
        let sources = &self.sources;
        let dw_unit = &sources.units[number];
        match read_load(&sources.dwarf, number, dw_unit)? {
            Some(load) => Ok(load),
            None => unreachable!(),
        }
    }

    /// The frames that the last lookup has found, none where it waits or has found nothing. Takes
    /// no memory.
    pub fn frames(&self) -> FrameIter<'_, R>
        ensures gives { frames_left result ≡ frames_found self.now.stop }
    {
        let FramesStop::Finds(place) = &self.stop else {
            return FrameIter::new_empty();
        };
        frames_in_unit(&self.caches[place.unit], &place.function, place.row)
    }

    /// The sections and the unit of the view of the unit in which the last lookup has found
    /// something, none where it waits or has found nothing, or where the unit is open or its view
    /// has a fault. Takes no memory.
    pub fn unit(&self) -> Option<UnitRef<'_, R>>
        ensures gives { option_map as_unit result ≡ unit_found self.now.scope.file.sections
            self.now.scope.file.units self.now.answers self.now.stop }
    {
        let FramesStop::Finds(place) = &self.stop else {
            return None;
        };
        let sources = &self.sources;
        let dw_unit = &sources.units[place.unit];
        let cache = &self.caches[place.unit];
        cache.entries.view.readable(&sources.dwarf, dw_unit)
    }

    /// Decides the unit of a number by an answer to its load if it is open, and else leaves it as
    /// it is.
    ///
    /// Refused `OutOfMemory` alone, and only where sections are given, whose bytes are shared or
    /// the header of whose first unit can be read.
    pub fn answer(&mut self, number: usize, sections: Option<Rc<Dwarf<R>>>) -> Result<(), Error>
        ensures after { AfterAnswer R.shares number (option_map (λ d. d.value) sections) result
            self.old self.new }
    {
        self.stop = FramesStop::FindsNothing;
        let scope = self.sources.scope();
        let Some(dw_unit) = scope.file.as_slice().get(number) else {
            return Ok(());
        };
        let cache = &mut self.caches[number];
        let answered = cache.answer(self.alloc, &self.sources, dw_unit, sections);
        cache.is_own();
        answered
    }
}
