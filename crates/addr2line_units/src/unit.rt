//! What is cached of one unit but its functions: its lines, and its view, which is where its
//! entries are read that say what stands at an address.

ghost use Rattle.std.specs.Prelude.{◌≡◌, ◌&&◌, true, false, not, map, Ok, Err, IfOk, IfSome, is_some, length, nat_lt, option_map, None, Some};
ghost use Rattle.addr2line_units.specs.Common.{Exactly, ExactlyUnlessOom, ExactlyUnlessOomIf, OutOfMemory, Sections, UnitRecord, location_of_row, IsScope, as_scope};
ghost use Rattle.addr2line_units.specs.UnitsRanged.{is_partial, is_type_unit, listed_unit_ranges, asks_lines, ranged_unit};
ghost use Rattle.addr2line_units.specs.EntriesMemory.{lines_take_memory};
ghost use Rattle.addr2line_units.specs.IndexAranges.{range_in};
ghost use Rattle.addr2line_units.specs.UnitLinesCached.{as_unit_at_first, cached_lines_result, cached_files, cached_steps, cached_ranges, cached_row, unit_at_first, lines_result, lines_result_or, location_or, cached_lines, is_uncached, unparsed_lines};
ghost use Rattle.addr2line_units.specs.UnitAfter.{AfterLinesOf, AfterRowIn, AfterViewAnswer, AfterViewCheck, AfterViewForgetting, CountsSteps};
ghost use Rattle.addr2line_units.specs.UnitsIndexed.{as_ranged_unit};
ghost use Rattle.addr2line_units.specs.LoadsMemory.{answer_takes_memory, first_unit_takes_memory};
ghost use Rattle.addr2line_units.specs.UnitViewCached.{answer_in, has_view, parts_or_fault, answer_of_view, as_sections, split_file_by, split_file_in, split_unit, unboxed, verdict_in, view_in, waits, was_checked, verdict_or};
ghost use Rattle.addr2line_units.specs.UnitView.{first_unit, load_of_unit, parts_of, split_name_of, verdict, view_scope};
ghost use Rattle.addr2line_units.specs.FramesLookup.{readable_view};

use crate::attributes::read_unit_attributes;
use crate::index::{UnitArange, UnitAranges};
use addr2line_lines::{Count, FileUnits, Lines, RangeAttributes, Row, Scope, read_ranges};
use gimli::read::{DwLang, Error, Range, Reader};
use gimli::{Dwarf, DwoId, Unit, UnitRef, UnitType};
use std::alloc::Global;
use std::marker::Model;
use std::rc::Rc;

/// The lines of a unit, read when they are first asked for. They stand in a box, so that a unit is
/// small whose lines nobody has asked for.
#[derive(Drop)]
pub enum LazyLines {
    /// Nobody has asked for them yet.
    Unread,
    /// There are none, as where the unit has no line program.
    Absent,
    /// They were read.
    Read(Box<Lines>),
    /// They can't be read, for this reason.
    Faulty(Error),
}

/// The lines of a unit, which are cached when they are first asked for, and its language.
#[derive(Drop)]
pub struct LinesCache {
    /// Its language.
    pub lang: Option<DwLang>,
    /// Its lines.
    pub lines: LazyLines,
}

// Whether a unit describes types alone.
pub(crate) fn is_type_unit(unit_type: UnitType) -> bool
    ensures gives { result ≡ is_type_unit unit_type }
{
    matches!(unit_type, UnitType::TypeUnit | UnitType::SplitType)
}

// Whether a unit is one that others import.
fn is_partial(unit_type: UnitType) -> bool
    ensures gives { result ≡ is_partial unit_type }
{
    matches!(unit_type, UnitType::Partial)
}

// The ranges that are listed for a unit. Refused `OutOfMemory` alone.
fn copy_ranges(alloc: Global, listed: &[UnitArange]) -> Result<Vec<Range>, Error>
    ensures gives { ExactlyUnlessOomIf (nat_lt 0 (length listed.now)) (λ v. v.items) result
        (Ok (map range_in listed.now)) }
{
    let mut ranges = Vec::with_capacity(alloc, listed.len())?;
    for arange in listed {
        ranges.push(arange.range)?;
    }
    Ok(ranges)
}

// The ranges that `.debug_aranges` or the attributes of a unit give.
fn read_listed_ranges<R: Reader>(
    alloc: Global,
    unit: UnitRef<'_, R>,
    aranges: &UnitAranges,
    attributes: &RangeAttributes,
) -> Result<Vec<Range>, Error>
    ensures gives { ExactlyUnlessOom (λ v. v.items) result (listed_unit_ranges unit.entry.dwarf.now
        aranges.now unit.entry.unit.now attributes.now) }
{
    if attributes.ranges_offset.is_none() {
        let record = unit.unit;
        let listed = aranges.find(record.header.offset());
        if !listed.is_empty() {
            return copy_ranges(alloc, listed);
        }
    }
    read_ranges(alloc, unit, attributes)
}

// The language of a unit whose record was read, and the ranges that `.debug_aranges` or its
// attributes give.
#[tactic(auto, unfolding(crate::specs::UnitsRanged::listed_in_unit))]
pub(crate) fn read_ranged_unit<R: Reader>(
    alloc: Global,
    unit: UnitRef<'_, R>,
    aranges: &UnitAranges,
) -> Result<(Option<DwLang>, Vec<Range>), Error>
    ensures gives { ExactlyUnlessOomIf (not (is_partial unit.entry.unit.now.header.unit_type))
        (λ x. as_ranged_unit unit.entry.unit.now x.0 x.1.items) result
        (ranged_unit unit.entry.dwarf.now aranges.now unit.entry.unit.now) }
{
    let record = unit.unit;
    if is_partial(record.header.type_()) {
        return Ok((None, Vec::new(alloc)));
    }
    let attributes = read_unit_attributes(unit)?;
    let ranges = read_listed_ranges(alloc, unit, aranges, &attributes.ranges)?;
    Ok((attributes.language, ranges))
}

// The lines of a unit before they are asked for: a unit without a line program has none. Takes no
// memory.
fn lines_at_first<R: Reader>(unit: &Unit<R>) -> LazyLines
    ensures gives { result ≡ unparsed_lines unit.now.line_program }
{
    match &unit.line_program {
        Some(_) => LazyLines::Unread,
        None => LazyLines::Absent,
    }
}

// The lines of a unit, or their fault, as they are cached. Refused `OutOfMemory` alone, and only
// where the lines take memory.
fn parse_lines<R: Reader>(
    alloc: Global,
    dwarf: &Dwarf<R>,
    unit: &Unit<R>,
) -> Result<LazyLines, Error>
    ensures gives { ExactlyUnlessOomIf (lines_take_memory R.shares unit.now) cached_lines_result
        result (Ok (lines_result dwarf.now unit.now)) }
{
    let Some(_) = &unit.line_program else {
        return Ok(LazyLines::Absent);
    };
    match Lines::parse(alloc, dwarf, unit) {
        Ok(lines) => Ok(LazyLines::Read(Box::new(alloc, lines)?)),
        Err(Error::OutOfMemory) => Err(Error::OutOfMemory),
        Err(error) => Ok(LazyLines::Faulty(error)),
    }
}

// The cached fault, if there is one.
fn check_lines(lines: &LazyLines) -> Result<(), Error>
    ensures gives { Exactly (λ _. cached_lines lines.now) result (cached_lines_result lines.now) }
{
    match lines {
        LazyLines::Faulty(error) => Err(*error),
        LazyLines::Read(_) | LazyLines::Absent | LazyLines::Unread => Ok(()),
    }
}

// Whether nothing is cached yet.
fn is_uncached(lines: &LazyLines) -> bool
    ensures gives { result ≡ is_uncached lines.now }
{
    matches!(lines, LazyLines::Unread)
}

// The ranges of the sequences of cached lines. Refused `OutOfMemory` alone, and only where there
// are some.
fn sequence_ranges(alloc: Global, lines: &LazyLines) -> Result<Vec<Range>, Error>
    ensures gives { ExactlyUnlessOomIf (nat_lt 0 (length (cached_ranges lines.now)))
        (λ v. v.items) result (Ok (cached_ranges lines.now)) }
{
    let mut ranges = Vec::new(alloc);
    let LazyLines::Read(lines) = lines else {
        return Ok(ranges);
    };
    let mut sequences = lines.ranges();
    while let Some(range) = sequences.next() {
        ranges.push(range)?;
    }
    Ok(ranges)
}

// The lines of a unit as they are cached from the start, and the ranges that lead to it: those that
// are listed, or where there are none those of its line sequences, and none of a partial unit; its
// lines are parsed only for these, and cached, their fault too. Refused `OutOfMemory` alone, and
// only where line sequences are asked for, and the lines take memory.
pub(crate) fn lines_and_ranges<R: Reader>(
    alloc: Global,
    dwarf: &Dwarf<R>,
    dw_unit: &Unit<R>,
    lang: Option<DwLang>,
    listed: Vec<Range>,
) -> Result<(LinesCache, Vec<Range>), Error>
    ensures gives { ExactlyUnlessOomIf (asks_lines (as_ranged_unit dw_unit.now lang listed.items)
        && lines_take_memory R.shares dw_unit.now) (λ x. as_unit_at_first x.0 x.1.items) result
        (Ok (unit_at_first dwarf.now (as_ranged_unit dw_unit.now lang listed.items))) }
{
    if !listed.is_empty() || is_partial(dw_unit.header.type_()) {
        let lines = lines_at_first(dw_unit);
        return Ok((LinesCache { lang, lines }, listed));
    }
    let lines = parse_lines(alloc, dwarf, dw_unit)?;
    let ranges = sequence_ranges(alloc, &lines)?;
    Ok((LinesCache { lang, lines }, ranges))
}

// The row of an address in cached lines.
fn find_cached_row(lines: &LazyLines, steps: &mut Count, probe: u64) -> Option<Row>
    ensures gives { result ≡ cached_row probe lines.now }
    ensures after { CountsSteps (cached_steps lines.now) (is_some result) steps.old steps.new }
{
    match lines {
        LazyLines::Read(lines) => lines.find_row(steps, probe),
        LazyLines::Faulty(_) | LazyLines::Absent | LazyLines::Unread => None,
    }
}

impl LinesCache {
    // Caches the lines of the unit, or their fault, unless they are cached. Refused `OutOfMemory`
    // alone, and only where the lines take memory.
    pub(crate) fn cache_lines<R: Reader>(
        &mut self,
        alloc: Global,
        dwarf: &Dwarf<R>,
        dw_unit: &Unit<R>,
    ) -> Result<(), Error>
        ensures gives { ExactlyUnlessOom (λ _. cached_lines_result self.new.lines) result
            (Ok (lines_result_or dwarf.now dw_unit.now self.old.lines)) }
        ensures after { AfterLinesOf R.shares dwarf.now dw_unit.now result self.old self.new }
    {
        if is_uncached(&self.lines) {
            self.lines = parse_lines(alloc, dwarf, dw_unit)?;
        }
        Ok(())
    }

    // Reads the lines of the unit, unless they are cached, and caches them, or their fault.
    pub(crate) fn read_lines<R: Reader>(
        &mut self,
        alloc: Global,
        dwarf: &Dwarf<R>,
        dw_unit: &Unit<R>,
    ) -> Result<(), Error>
        ensures gives { ExactlyUnlessOom (λ _. cached_lines self.new.lines) result
            (lines_result_or dwarf.now dw_unit.now self.old.lines) }
        ensures after { AfterLinesOf R.shares dwarf.now dw_unit.now result self.old self.new }
    {
        self.cache_lines(alloc, dwarf, dw_unit)?;
        check_lines(&self.lines)
    }

    // The row of an address in the unit, whose lines are read and cached, unless they are. Refused
    // by their fault; may fail with `OutOfMemory` instead, only where they aren't cached and take
    // memory.
    pub(crate) fn find_row<R: Reader>(
        &mut self,
        alloc: Global,
        dwarf: &Dwarf<R>,
        dw_unit: &Unit<R>,
        steps: &mut Count,
        probe: u64,
    ) -> Result<Option<Row>, Error>
        ensures gives { ExactlyUnlessOom (option_map (location_of_row (cached_files
            self.new.lines))) result
            (location_or dwarf.now dw_unit.now probe self.old.lines) }
        ensures after { AfterRowIn R.shares dwarf.now dw_unit.now result self.old self.new steps.old
            steps.new }
    {
        self.read_lines(alloc, dwarf, dw_unit)?;
        Ok(find_cached_row(&self.lines, steps, probe))
    }
}

/// Names a unit of a context by its number, of another context the unit of the same number.
#[derive(Clone, Copy, Debug, PartialEq, Eq)]
pub struct UnitToken {
    pub(crate) number: usize,
}

/// What a lookup asks for where the entries of a unit stand in a split file.
#[derive(Drop)]
pub struct SplitDwarfLoad<R: Reader> {
    /// The identifier that the unit shares with its split unit.
    pub dwo_id: DwoId,
    /// The directory of the unit's compilation, where it can be read.
    pub comp_dir: Option<R>,
    /// The name of the split file, where the unit has one.
    pub path: Option<R>,
    /// The sections that have the unit.
    pub parent: Rc<Dwarf<R>>,
    /// The unit.
    pub unit: UnitToken,
}

impl<R: Reader> Model for SplitDwarfLoad<R> {
    ghost use Rattle.std.specs.Prelude.{option_map};
    ghost use Rattle.addr2line_units.specs.UnitView.{SplitLoad};

    ghost Value = { SplitLoad };

    ghost view = { λ l. record {
      unit = l.unit.number;
      dwo_id = l.dwo_id;
      comp_dir = option_map R.section l.comp_dir;
      path = option_map R.section l.path;
      parent = l.parent.value;
    } };
}

// The first answer to the load of a unit, and the split unit that it gives: none where it has no
// sections, or these no unit; or the fault of that. The unit stands in a box, since most units have
// no answer, and a context has room for one beside each.
#[derive(Drop)]
struct AnsweredLoad<R: Reader> {
    sections: Option<Rc<Dwarf<R>>>,
    unit: Result<Option<Box<Unit<R>>>, Error>,
}

// What is cached of a unit's view.
#[derive(Drop)]
enum ViewState<R: Reader> {
    // The unit wasn't looked at yet.
    Undecided,
    // It waits for an answer.
    Open,
    // The unit itself, which needs no answer.
    Main,
    // The fault of the split file's name.
    Unnamed(Error),
    Answered(AnsweredLoad<R>),
}

// A unit's view.
#[derive(Drop)]
pub(crate) struct UnitView<R: Reader> {
    state: ViewState<R>,
}

// The name of the split file of a unit.
#[tactic(auto, unfolding(crate::specs::UnitView::split_name_of))]
fn read_split_name<R: Reader>(dwarf: &Dwarf<R>, unit: &Unit<R>) -> Result<Option<R>, Error>
    ensures gives { ExactlyUnlessOomIf R.shares (option_map R.section) result
        (split_name_of dwarf.now unit.now) }
{
    match unit.dwo_name()? {
        Some(value) => Ok(Some(dwarf.attr_string(unit, value)?)),
        None => Ok(None),
    }
}

// A directory, if there is one. Refused `OutOfMemory` alone, where bytes are shared.
fn duplicate_if<R: Reader>(reader: &Option<R>) -> Result<Option<R>, Error>
    ensures gives { ExactlyUnlessOomIf R.shares (option_map R.section) result
        (Ok (option_map R.section reader.now)) }
{
    match reader {
        Some(reader) => Ok(Some(reader.duplicate()?)),
        None => Ok(None),
    }
}

// The load of a unit of a number, none where it needs no answer. `OutOfMemory` only where it has
// the identifier of a split unit.
#[tactic(auto, unfolding(crate::specs::UnitView::load_of_unit))]
pub(crate) fn read_load<R: Reader>(
    dwarf: &Rc<Dwarf<R>>,
    number: usize,
    unit: &Unit<R>,
) -> Result<Option<SplitDwarfLoad<R>>, Error>
    ensures gives { ExactlyUnlessOomIf (is_some unit.now.dwo_id) (λ l. l) result
        (load_of_unit dwarf.now.value number unit.now) }
{
    let Some(dwo_id) = unit.dwo_id else {
        return Ok(None);
    };
    let path = read_split_name(dwarf, unit)?;
    let comp_dir = duplicate_if(&unit.comp_dir)?;
    let parent = dwarf.clone()?;
    Ok(Some(SplitDwarfLoad {
        dwo_id,
        comp_dir,
        path,
        parent,
        unit: UnitToken { number },
    }))
}

/// The first unit of sections, `None` where they have no unit.
///
/// Refused for its header, else as `Dwarf::unit` is. May fail with `OutOfMemory` instead, where
/// bytes are shared, or the header can be read and `Dwarf::unit` takes memory for it. Source: DWARF
/// 5, section 7.5.1.
pub fn read_first_unit<R: Reader>(alloc: Global, dwarf: &Dwarf<R>) -> Result<Option<Unit<R>>, Error>
    ensures gives { ExactlyUnlessOomIf (first_unit_takes_memory R.shares dwarf.now) (λ u. u) result
        (first_unit dwarf.now) }
{
    let mut headers = dwarf.units()?;
    match headers.next()? {
        Some(header) => Ok(Some(dwarf.unit(alloc, header)?)),
        None => Ok(None),
    }
}

// The split unit of an answer, with what its main unit relocates.
fn read_split_unit<R: Reader>(
    alloc: Global,
    main: &Unit<R>,
    sections: &Option<Rc<Dwarf<R>>>,
) -> Result<Option<Box<Unit<R>>>, Error>
    ensures gives { ExactlyUnlessOomIf (answer_takes_memory R.shares
        (option_map (λ d. d.value) sections.now)) (option_map (λ b. b.value)) result
        (split_unit main.now (option_map (λ d. d.value) sections.now)) }
{
    let Some(dwarf) = sections else {
        return Ok(None);
    };
    let Some(mut unit) = read_first_unit(alloc, dwarf)? else {
        return Ok(None);
    };
    unit.copy_relocated_attributes(main);
    Ok(Some(Box::new(alloc, unit)?))
}

// Whether a unit waits for an answer, its view, or the fault of its split file's name. Takes no
// memory.
fn first_state<R: Reader>(dwarf: &Dwarf<R>, unit: &Unit<R>) -> ViewState<R>
    ensures gives { verdict_in dwarf.now unit.now result
        ≡ Some (verdict dwarf.now unit.now None) }
    ensures answer { answer_in result ≡ None }
{
    if unit.dwo_id.is_none() {
        return ViewState::Main;
    }
    match unit.check_dwo_name(dwarf) {
        Ok(()) => ViewState::Open,
        Err(error) => ViewState::Unnamed(error),
    }
}

impl<R: Reader> AnsweredLoad<R> {
    // The sections that the answer has, where they have a unit.
    fn split_file(&self) -> Option<&Dwarf<R>>
        ensures gives { option_map (λ d. d.now) result
            ≡ split_file_by (as_sections self.now) (unboxed self.now.unit) }
    {
        match (&self.sections, &self.unit) {
            (Some(split), Ok(Some(_))) => Some(split),
            _ => None,
        }
    }

    // The sections and the unit of the view that the answer decides for, or the fault.
    fn unit_ref<'x>(
        &'x self,
        dwarf: &'x Dwarf<R>,
        dw_unit: &'x Unit<R>,
    ) -> Result<UnitRef<'x, R>, Error>
        ensures gives { Exactly (λ r. (r.dwarf.now, r.unit.now)) result
            (parts_or_fault (view_in dwarf.now dw_unit.now self.now)) }
    {
        match (&self.sections, &self.unit) {
            (_, Err(error)) => Err(*error),
            (Some(split), Ok(Some(unit))) => Ok(UnitRef::new(split, unit)),
            _ => Ok(UnitRef::new(dwarf, dw_unit)),
        }
    }
}

impl<R: Reader> UnitView<R> {
    // A view of a unit that wasn't looked at yet. Takes no memory.
    pub(crate) fn new() -> UnitView<R>
        ensures answer { answer_of_view result ≡ None }
        ensures empty { was_checked result.state ≡ false }
    {
        UnitView {
            state: ViewState::Undecided,
        }
    }

    // Looks whether the unit needs an answer, unless that was done. Takes no memory.
    pub(crate) fn check_split(&mut self, dwarf: &Dwarf<R>, dw_unit: &Unit<R>)
        ensures after { AfterViewCheck dwarf.now dw_unit.now self.old self.new }
    {
        if matches!(self.state, ViewState::Undecided) {
            self.state = first_state(dwarf, dw_unit);
        }
    }

    // Whether the unit waits for an answer, as far as it was looked at.
    pub(crate) fn is_open(&self) -> bool
        ensures gives { result ≡ waits self.now.state }
    {
        matches!(self.state, ViewState::Open)
    }

    // Whether the view is known, and has no fault.
    pub(crate) fn has_view(&self) -> bool
        ensures gives { result ≡ has_view self.now.state }
    {
        match &self.state {
            ViewState::Main => true,
            ViewState::Answered(answer) => answer.unit.is_ok(),
            ViewState::Undecided | ViewState::Open | ViewState::Unnamed(_) => false,
        }
    }

    // Whether the unit has an answer.
    pub(crate) fn is_answered(&self) -> bool
        ensures gives { result ≡ is_some (answer_of_view self.now) }
    {
        matches!(self.state, ViewState::Answered(_))
    }

    // Decides the unit by an answer. Refused `OutOfMemory` alone, and only where it has sections;
    // then nothing is changed.
    pub(crate) fn decide(
        &mut self,
        alloc: Global,
        dwarf: &Dwarf<R>,
        dw_unit: &Unit<R>,
        sections: Option<Rc<Dwarf<R>>>,
    ) -> Result<(), Error>
        ensures after { AfterViewAnswer R.shares dwarf.now dw_unit.now
            (option_map (λ d. d.value) sections) result self.old self.new }
    {
        let unit = match read_split_unit(alloc, dw_unit, &sections) {
            Ok(unit) => Ok(unit),
            Err(Error::OutOfMemory) => return Err(Error::OutOfMemory),
            Err(error) => Err(error),
        };
        self.state = ViewState::Answered(AnsweredLoad { sections, unit });
        Ok(())
    }

    // Forgets the answer, if there is one: the unit waits for one again. Takes no memory.
    pub(crate) fn forget(&mut self)
        ensures after { AfterViewForgetting self.old self.new }
    {
        if matches!(self.state, ViewState::Answered(_)) {
            self.state = ViewState::Open;
        }
    }

    // The sections and the unit of the view of a unit that is decided, or the fault. Takes no
    // memory.
    pub(crate) fn unit_ref<'x>(
        &'x self,
        dwarf: &'x Dwarf<R>,
        dw_unit: &'x Unit<R>,
    ) -> Result<UnitRef<'x, R>, Error>
        ensures gives { IfSome (verdict_in dwarf.now dw_unit.now self.now.state) (λ known.
            IfSome known (λ view. Exactly (λ r. (r.dwarf.now, r.unit.now)) result
            (parts_or_fault view))) }
    {
        match &self.state {
            ViewState::Undecided | ViewState::Open | ViewState::Main => {
                Ok(UnitRef::new(dwarf, dw_unit))
            }
            ViewState::Unnamed(error) => Err(*error),
            ViewState::Answered(answer) => answer.unit_ref(dwarf, dw_unit),
        }
    }

    // The sections and the unit of the view; none where the unit is open or its view has a fault.
    // Takes no memory.
    pub(crate) fn readable<'x>(
        &'x self,
        dwarf: &'x Dwarf<R>,
        dw_unit: &'x Unit<R>,
    ) -> Option<UnitRef<'x, R>>
        ensures gives { option_map (λ r. (r.dwarf.now, r.unit.now)) result
            ≡ option_map parts_of (readable_view (verdict_or dwarf.now dw_unit.now
            self.now.state)) }
    {
        match &self.state {
            ViewState::Undecided => match first_state(dwarf, dw_unit) {
                ViewState::Main => Some(UnitRef::new(dwarf, dw_unit)),
                _ => None,
            },
            ViewState::Open | ViewState::Unnamed(_) => None,
            ViewState::Main => Some(UnitRef::new(dwarf, dw_unit)),
            ViewState::Answered(answer) => answer.unit_ref(dwarf, dw_unit).ok(),
        }
    }

    // The sections of the split file that has the unit of the view, if it is in one.
    fn split_file(&self) -> Option<&Dwarf<R>>
        ensures gives { option_map (λ d. d.now) result ≡ split_file_in self.now.state }
    {
        match &self.state {
            ViewState::Answered(answer) => answer.split_file(),
            ViewState::Undecided | ViewState::Open | ViewState::Main | ViewState::Unnamed(_) => {
                None
            }
        }
    }

    // Where references lead from the view, from the main unit where `scope` says. Takes no memory.
    pub(crate) fn scope_of<'x>(&'x self, scope: Scope<'x, R>) -> Scope<'x, R>
        ensures gives { (d : Sections) (u : UnitRecord) → IfSome (verdict_or d u self.now.state)
            (λ view. IfOk view (λ v.
            as_scope result ≡ view_scope (as_scope scope.entry) v)) }
        ensures kept { IsScope (as_scope scope.entry) → IsScope (as_scope result) }
    {
        match self.split_file() {
            Some(dwarf) => Scope {
                file: FileUnits { dwarf, units: None },
                sup: scope.sup,
            },
            None => scope,
        }
    }
}
