//! The functions of a unit.

ghost use Rattle.std.specs.List.{AllByRecursion};
ghost use Rattle.std.specs.Prelude.{◌≡◌, ◌<◌, ◌==◌, false, length, map, option_and_then, option_map, slice_get, IfOk, IfSome, None, Ok, OnOk, Some};
ghost use Rattle.addr2line_lines.specs.Common.{ExactlyAtCost, ExactlyUnlessOomIf, ranges_at};
ghost use Rattle.addr2line_lines.specs.CachedNames.{AreNamesIn, no_names};
ghost use Rattle.addr2line_lines.specs.Finding.{FindsUnlessOomIf};
ghost use Rattle.addr2line_lines.specs.InlinedChain.{inlined_chain};
ghost use Rattle.addr2line_lines.specs.FoundInlined.{entry_among};
ghost use Rattle.addr2line_lines.specs.FoundRanges.{is_function};
ghost use Rattle.addr2line_lines.specs.FunctionCache.{read_at};
ghost use Rattle.addr2line_lines.specs.FunctionDetails.{AfterReadingAll, AreUnread, IsReadAt, read_once};
ghost use Rattle.addr2line_lines.specs.FunctionTable.{AreListed, cached_inlined, cached_name, function_place_at, cached_offset_at};
ghost use Rattle.addr2line_lines.specs.Functions.{function_offset_at, functions_of, functions_take_memory, is_subprogram};
ghost use Rattle.addr2line_lines.specs.InlineRoom.{exceeds_inline_room};
ghost use Rattle.addr2line_lines.specs.RangeAttributes.{begins_well, gives_a_range};
ghost use Rattle.addr2line_lines.specs.References.{IsScope, in_scope};
ghost use Rattle.addr2line_lines.specs.LentInlined.{as_inlined};
ghost use Rattle.addr2line_lines.specs.Scopes.{as_scope};
ghost use Rattle.addr2line_lines.specs.FoundFunctions.{AreFoundUnread, next_found_at, found_in, item_takes_memory, none_found, as_functions, with_attributes, with_range_list, with_ranges};

use crate::details::{Details, FunctionDetail};
use crate::function::{RangeAttributes, has_range_attribute, read_range_attributes};
use crate::inlined_functions::InlinedFunction;
use crate::picks::InlinedPlaces;
use crate::references::Scope;
use crate::segments::{FunctionAddress, Segments};
use gimli::read::{Abbreviation, DwTag, Error, Reader, UnitOffset};
use gimli::{EntriesRaw, Unit, UnitRef};
use smallvec::SmallVec;
use std::alloc::Global;
use std::marker::Model;

// What is cached of the detail of a function.
#[derive(Drop)]
enum LazyDetail {
    Unread,
    Read(FunctionDetail),
    // The fault of what could not be read.
    Faulty(Error),
}

// A function.
#[derive(Drop)]
struct LazyFunction {
    // Where its entry begins, in bytes from the start of the unit's length.
    dw_die_offset: UnitOffset,
    detail: LazyDetail,
}

// What is found of a unit's functions.
#[derive(Drop)]
struct FunctionLists {
    functions: Vec<LazyFunction>,
    addresses: Vec<FunctionAddress>,
}

// Adds the ranges of a range list.
fn push_range_list<R: Reader>(
    unit: UnitRef<'_, R>,
    offset: u64,
    function: usize,
    addresses: &mut Vec<FunctionAddress>,
) -> Result<(), Error>
    ensures gives { ExactlyUnlessOomIf
        (begins_well (ranges_at unit.entry.dwarf.now unit.entry.unit.now offset))
        (λ _. addresses.new.items) result (with_range_list unit.entry.dwarf.now
        unit.entry.unit.now offset function addresses.old.items) }
{
    let mut list = unit.ranges(offset)?;
    while let Some(range) = list.next()? {
        addresses.push(FunctionAddress { range, function })?;
    }
    Ok(())
}

// Adds the ranges of the range attributes of a function.
fn push_ranges<R: Reader>(
    unit: UnitRef<'_, R>,
    attributes: &RangeAttributes,
    function: usize,
    addresses: &mut Vec<FunctionAddress>,
) -> Result<(), Error>
    ensures gives { ExactlyUnlessOomIf
        (gives_a_range unit.entry.dwarf.now unit.entry.unit.now attributes.now)
        (λ _. addresses.new.items) result (with_ranges unit.entry.dwarf.now unit.entry.unit.now
        attributes.now function addresses.old.items) }
{
    match attributes.ranges_offset {
        Some(offset) => push_range_list(unit, offset, function, addresses),
        None => {
            if let Some(range) = attributes.range() {
                addresses.push(FunctionAddress { range, function })?;
            }
            Ok(())
        }
    }
}

impl FunctionLists {
    fn new(alloc: Global) -> FunctionLists
        ensures gives { as_functions result ≡ none_found }
        ensures empty { AreFoundUnread result }
    {
        FunctionLists {
            functions: Vec::new(alloc),
            addresses: Vec::new(alloc),
        }
    }

    // Adds the function of an entry, if its range attributes give a range.
    fn add<R: Reader>(
        &mut self,
        unit: UnitRef<'_, R>,
        offset: UnitOffset,
        attributes: &RangeAttributes,
    ) -> Result<(), Error>
        ensures gives { ExactlyUnlessOomIf
            (gives_a_range unit.entry.dwarf.now unit.entry.unit.now attributes.now)
            (λ _. as_functions self.new) result (with_attributes unit.entry.dwarf.now
            unit.entry.unit.now attributes.now offset.0 (as_functions self.old)) }
        ensures empty { AreFoundUnread self.old → AreFoundUnread self.new }
    {
        let before = self.addresses.len();
        let function = self.functions.len();
        push_ranges(unit, attributes, function, &mut self.addresses)?;
        if self.addresses.len() > before {
            self.functions.push(LazyFunction {
                dw_die_offset: offset,
                detail: LazyDetail::Unread,
            })?;
        }
        Ok(())
    }
}

// Whether an abbreviation is that of functions' entries.
fn is_subprogram(abbreviation: &Abbreviation) -> bool
    ensures gives { result ≡ is_subprogram abbreviation.now }
{
    abbreviation.tag() == DwTag::DW_TAG_subprogram
}

// Whether an abbreviation is that of functions' entries, which may have ranges.
fn is_function(abbreviation: &Abbreviation) -> bool
    ensures gives { result ≡ is_function abbreviation.now }
{
    is_subprogram(abbreviation) && has_range_attribute(abbreviation.attributes())
}

// Reads the next item, and adds its function, if it is a function's entry.
fn read_item<R: Reader>(
    unit: UnitRef<'_, R>,
    entries: &mut EntriesRaw<'_, R>,
    found: &mut FunctionLists,
) -> Result<(), Error>
    requires encoding { entries.old.unit.encoding ≡ unit.unit.now.header.encoding }
    requires some { (length entries.old.cursor.left.bytes == 0) ≡ false }
    ensures gives { FindsUnlessOomIf (item_takes_memory R.shares unit.entry.dwarf.now
        unit.entry.unit.now entries.old.unit entries.old.cursor) entries.old.cursor
        entries.new.cursor (as_functions found.old) (as_functions found.new) result
        (next_found_at unit.entry.dwarf.now unit.entry.unit.now entries.old.unit) }
    ensures empty { AreFoundUnread found.old → AreFoundUnread found.new }
    ensures unit { entries.new.unit ≡ entries.old.unit }
    ensures shorter { OnOk result
        (length entries.new.cursor.left.bytes < length entries.old.cursor.left.bytes) }
{
    let offset = entries.next_offset();
    match entries.read_abbreviation()? {
        None => Ok(()),
        Some(abbreviation) => {
            if is_function(abbreviation) {
                let attributes = read_range_attributes(unit, entries, abbreviation.attributes())?;
                found.add(unit, offset, &attributes)
            } else {
                entries.skip_attributes_of(abbreviation)
            }
        }
    }
}

// What is found of the functions of a unit, up to its end.
fn read_functions<R: Reader>(alloc: Global, unit: UnitRef<'_, R>) -> Result<FunctionLists, Error>
    ensures gives { ExactlyUnlessOomIf (functions_take_memory R.shares unit.entry.dwarf.now
        unit.entry.unit.now) as_functions result
        (found_in unit.entry.dwarf.now unit.entry.unit.now) }
    ensures empty { IfOk result AreFoundUnread }
{
    let mut entries = unit.entries_raw(None)?;
    let mut found = FunctionLists::new(alloc);
    while !entries.is_empty() {
        read_item(unit, &mut entries, &mut found)?;
    }
    Ok(found)
}

// The detail of the function of a place, if it was read.
fn read_detail_of(functions: &[LazyFunction], place: usize) -> Option<&FunctionDetail>
    ensures gives { option_map (λ p. p.now) result ≡ read_at functions.now place }
{
    match &functions.get(place)?.detail {
        LazyDetail::Read(detail) => Some(detail),
        LazyDetail::Faulty(_) | LazyDetail::Unread => None,
    }
}

/// The functions of a view, the search for that of an address, and their details, each read when it
/// is first asked for and cached then, its fault too.
#[derive(Drop)]
pub struct Functions<R: Reader> {
    // In the order of their entries.
    functions: Vec<LazyFunction>,
    addresses: Segments,
    details: Details<R>,
}

impl<R: Reader> Model for Functions<R> {
    ghost use Rattle.std.specs.Prelude.{map};
    ghost use Rattle.addr2line_lines.specs.FoundFunctions.{function_offsets, function_range_of};
    ghost use Rattle.addr2line_lines.specs.FunctionCache.{AreCachedFunctions, as_function};
    ghost use Rattle.addr2line_lines.specs.FunctionCache.{read_at};
    ghost use Rattle.addr2line_lines.specs.FunctionTable.{FunctionTable};
    ghost use Rattle.addr2line_lines.specs.CachedDetails.{as_details};

    ghost Value = { FunctionTable };

    ghost view = { λ f. record {
      ranges = map (function_range_of (function_offsets f.functions.items)) f.addresses;
      functions = map (as_function (as_details R.section f.details)) f.functions.items;
      inlined = (as_details R.section f.details).found.entries;
      names = (as_details R.section f.details).known;
    } };

    ghost invariant = { λ f. AreCachedFunctions f.functions.items f.addresses
        (as_details R.section f.details) };
}

impl<R: Reader> Functions<R> {
    /// The functions of a unit: its subprogram entries, at any depth, whose range attributes give a
    /// range, each once, in their order. No detail is read. `scope` says where references of the
    /// unit lead: details and the names that they lead to are read later, of this unit alone.
    ///
    /// All entries of the unit are read. Refused by the first fault of an entry, of its range
    /// attributes or of its range list; may fail with `OutOfMemory` instead, only where a function
    /// has a range before any fault, or where a reader's parts share its bytes. Source: DWARF 5,
    /// sections 2.17 and 3.3.
    pub fn parse(alloc: Global, scope: Scope<'_, R>, unit: &Unit<R>) -> Result<Functions<R>, Error>
        ensures gives { ExactlyUnlessOomIf (functions_take_memory R.shares
            (as_scope scope.entry).file.sections unit.now) (λ f. f.ranges) result
            (functions_of (as_scope scope.entry).file.sections unit.now) }
        ensures empty { IfOk result AreUnread }
        ensures functions { IfOk result AreListed }
        ensures names { IfOk result (λ f.
            f.names ≡ no_names (Some (in_scope (as_scope scope.entry) unit.now))) }
    {
        let FunctionLists {
            functions,
            addresses,
        } = read_functions(alloc, UnitRef::new(scope.file.dwarf, unit))?;
        let addresses = Segments::new(alloc, addresses)?;
        Ok(Functions {
            functions,
            addresses,
            details: Details::new(alloc, scope, unit),
        })
    }

    /// The place of the function at an address: of the function with the shortest range that holds
    /// `probe`, of equal lengths of the first; none where no range holds it. Takes no memory.
    pub fn find(&self, probe: u64) -> Option<usize>
        ensures found { option_and_then (cached_offset_at self.now) result
            ≡ function_offset_at probe self.now.ranges }
        ensures gives { result ≡ function_place_at probe self.now }
        ensures within { IfSome result (λ n. n < length self.now.functions) }
    {
        self.addresses.find(probe)
    }

    /// Where the entry begins of the function of a place, in bytes from the start of the unit's
    /// length; none past the last function. Takes no memory.
    pub fn offset(&self, place: usize) -> Option<UnitOffset>
        ensures gives { option_map (λ o. o.0) result ≡ cached_offset_at self.now place }
    {
        let function = self.functions.get(place)?;
        Some(function.dw_die_offset)
    }

    /// Reads the detail of the function of a place, unless it is cached: its name, and the inlined
    /// functions inside it, without those of nested subprograms. It is cached then, its fault too.
    ///
    /// `unit` and `scope` are those of `parse`. The names that references in the unit give may be
    /// cached too, and their faults. Refused by the first fault of an entry up to the end of the
    /// function, of a reference that a name follows, of range attributes or of a range list;
    /// `UnexpectedEof` where closing entries are missing. May fail with `OutOfMemory` instead,
    /// which is not cached: where a reader's parts share its bytes, where nothing is refused, or
    /// where the function's own entry has no fault and, before any fault, an inlined entry gives a
    /// range or an entry inside it has children. Past the last function nothing is read. Takes no
    /// memory where the detail or its fault is cached. Source: DWARF 5, section 3.3.8.
    pub fn read(&mut self, scope: Scope<'_, R>, unit: &Unit<R>, place: usize) -> Result<(), Error>
        requires in_order { IsScope (as_scope scope) }
        requires unit { AreNamesIn (as_scope scope) unit.now self.old.names }
        ensures gives { ExactlyAtCost R.shares (λ x. x) result (read_once (as_scope scope.entry)
            unit.now (slice_get self.old.functions place)) }
        ensures after { IsReadAt (as_scope scope.entry) unit.now place self.old result self.new }
    {
        let Some(function) = self.functions.get(place) else {
            return Ok(());
        };
        match &function.detail {
            LazyDetail::Read(_) => Ok(()),
            LazyDetail::Faulty(error) => Err(*error),
            LazyDetail::Unread => {
                let offset = function.dw_die_offset;
                self.read_unread(scope, unit, offset, place)
            }
        }
    }

    /// Reads the details of all functions in turn, in the order of their entries, as `read` does,
    /// up to the first fault, which is cached too, or to the first one that memory is refused for.
    /// What was cached stays cached, and the details before that one are cached then. Of the
    /// functions behind it nothing more is cached.
    ///
    /// `unit` and `scope` are those of `parse`. Refused by the first fault of a detail; may fail
    /// with `OutOfMemory` instead, which is not cached, only where `read` may for the function that
    /// it came to. Takes no memory, and changes nothing, where the details up to the first fault
    /// are cached, and that fault. Source: DWARF 5, section 3.3.8.
    pub fn read_all(&mut self, scope: Scope<'_, R>, unit: &Unit<R>) -> Result<(), Error>
        requires in_order { IsScope (as_scope scope) }
        requires unit { AreNamesIn (as_scope scope) unit.now self.old.names }
        ensures after { AfterReadingAll R.shares (as_scope scope.entry) unit.now result self.old
            self.new }
    {
        let count = self.functions.len();
        for place in 0..count {
            self.read(scope, unit, place)?;
        }
        Ok(())
    }

    // Reads the detail of a function of which nothing is cached.
    fn read_unread(
        &mut self,
        scope: Scope<'_, R>,
        unit: &Unit<R>,
        offset: UnitOffset,
        place: usize,
    ) -> Result<(), Error>
        requires in_order { IsScope (as_scope scope) }
        requires unit { AreNamesIn (as_scope scope) unit.now self.old.names }
        requires unread { slice_get self.old.functions place
            ≡ Some (record { offset = offset.0; detail = None }) }
        ensures gives { ExactlyAtCost R.shares (λ x. x) result (read_once (as_scope scope.entry)
            unit.now (slice_get self.old.functions place)) }
        ensures after { IsReadAt (as_scope scope.entry) unit.now place self.old result self.new }
    {
        match self.details.read(scope, unit, offset) {
            Ok(detail) => {
                self.functions[place].detail = LazyDetail::Read(detail);
                Ok(())
            }
            Err(error) => match error {
                Error::OutOfMemory => Err(error),
                _ => {
                    self.functions[place].detail = LazyDetail::Faulty(error);
                    Err(error)
                }
            },
        }
    }

    /// The cached name of the function of a place; none where there is none, its detail has a fault
    /// or isn't read. Takes no memory.
    pub fn name(&self, place: usize) -> Option<&R>
        ensures gives { option_map (λ r. R.section r.now) result ≡ cached_name self.now place }
    {
        self.details.name(read_detail_of(&self.functions, place)?)
    }

    /// The places of the inlined functions at `probe` of the function of a place, from the outside
    /// in: of those of depth 0, 1 and so on, up to the first depth without one. Empty where the
    /// detail has a fault or isn't read.
    ///
    /// Refused `OutOfMemory` alone, and only where there are more than 16. Source: Own.
    pub fn find_inlined_functions(
        &self,
        alloc: Global,
        place: usize,
        probe: u64,
    ) -> Result<InlinedPlaces, Error>
        ensures gives { ExactlyUnlessOomIf
            (exceeds_inline_room (inlined_chain probe (cached_inlined self.now place)))
            (λ chain. map (entry_among self.now.inlined) chain.items) result
            (Ok (inlined_chain probe (cached_inlined self.now place))) }
        ensures within { IfOk result (λ chain. AllByRecursion
            (λ n. n < length self.now.inlined) chain.items) }
    {
        match read_detail_of(&self.functions, place) {
            Some(detail) => self.details.find_inlined_functions(alloc, detail, probe),
            None => Ok(SmallVec::new(alloc)),
        }
    }

    /// The inlined function of a place, as `find_inlined_functions` gives it; none past the last
    /// one. Takes no memory.
    pub fn inlined(&self, function: usize) -> Option<InlinedFunction<'_, R>>
        ensures gives { option_map (as_inlined R.section) result
            ≡ slice_get self.now.inlined function }
    {
        self.details.inlined(function)
    }
}
