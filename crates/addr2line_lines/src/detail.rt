//! The details of functions.

ghost use Rattle.std.specs.Prelude.{◌≡◌, ◌<◌, [], None, Ok, OnOk, int_lt, length, option_map, pos};
ghost use Rattle.addr2line_lines.specs.Common.{rest_of, ExactlyUnlessOomIf, attributes_at, ExactlyAtCost};
ghost use Rattle.addr2line_lines.specs.CostedSteps.{on_parts};
ghost use Rattle.addr2line_lines.specs.Finding.{FindsAtCost};
ghost use Rattle.addr2line_lines.specs.CachedNames.{AreNamesIn, AreNamesMore};
ghost use Rattle.addr2line_lines.specs.FoundInlined.{IsFoundMore, named_lists, as_lists};
ghost use Rattle.addr2line_lines.specs.FoundNames.{name_after};
ghost use Rattle.addr2line_lines.specs.FoundDetails.{detail_found_at, function_found_at};
ghost use Rattle.addr2line_lines.specs.FoundItems.{entry_found_at, inside_found, item_found_at, as_around};
ghost use Rattle.addr2line_lines.specs.References.{IsScope};
ghost use Rattle.addr2line_lines.specs.Scopes.{as_scope};

use crate::found_name::FoundName;
use crate::inlined::read_inlined_attributes;
use crate::inlined_lists::InlinedLists;
use crate::name::NameSink;
use crate::names::UnitNames;
use crate::nesting::{Nesting, kind_of};
use crate::references::Scope;
use gimli::read::{Abbreviation, AttributeSpecification, Error, Reader, UnitOffset};
use gimli::{EntriesRaw, Unit, UnitRef, take_attributes};

// The name by the attributes of specifications, for the function alone. A value that can't be read
// is a fault before that of a reference, so the first of these waits until all are read.
fn read_name<R: Reader>(
    scope: Scope<'_, R>,
    unit: &Unit<R>,
    entries: &mut EntriesRaw<'_, R>,
    specifications: &[AttributeSpecification],
    names: &mut UnitNames<R>,
) -> Result<Option<R>, Error>
    requires in_order { IsScope (as_scope scope) }
    requires unit { AreNamesIn (as_scope scope) unit.now names.old }
    requires encoding { entries.old.unit.encoding ≡ unit.now.header.encoding }
    ensures gives { ExactlyUnlessOomIf R.shares (option_map R.section) result
        (name_after (as_scope scope.entry) unit.now (Ok None)
        (attributes_at unit.now.header.encoding specifications.now entries.old.cursor.left)) }
    ensures left { OnOk result (rest_of (attributes_at unit.now.header.encoding
        specifications.now entries.old.cursor.left) ≡ Ok entries.new.cursor.left) }
    ensures unit { entries.new.unit ≡ entries.old.unit }
    ensures depth { entries.new.cursor.depth ≡ entries.old.cursor.depth }
    ensures names { AreNamesMore names.old names.new }
{
    let sink = NameSink { scope, unit };
    let mut name = FoundName::none();
    take_attributes(&sink, entries, specifications, &mut name, names)?;
    name.own()
}

// Adds the inlined entry whose attributes follow, if it is in no nested subprogram; passes over
// the attributes of any other entry.
fn read_entry<R: Reader>(
    scope: Scope<'_, R>,
    unit: &Unit<R>,
    entries: &mut EntriesRaw<'_, R>,
    offset: UnitOffset,
    abbreviation: &Abbreviation,
    nesting: &Nesting,
    found: &mut InlinedLists<R>,
    names: &mut UnitNames<R>,
) -> Result<(), Error>
    requires in_order { IsScope (as_scope scope) }
    requires unit { AreNamesIn (as_scope scope) unit.now names.old }
    requires encoding { entries.old.unit.encoding ≡ unit.now.header.encoding }
    ensures gives { FindsAtCost R.shares entries.old.cursor.left entries.new.cursor.left
        (as_lists found.old) (as_lists found.new) result
        (entry_found_at (as_scope scope.entry) unit.now nesting.now offset.0 abbreviation.now) }
    ensures kept { IsFoundMore (as_lists found.old) (as_lists found.new) }
    ensures unit { entries.new.unit ≡ entries.old.unit }
    ensures depth { entries.new.cursor.depth ≡ entries.old.cursor.depth }
    ensures names { AreNamesMore names.old names.new }
{
    if nesting.lists(kind_of(abbreviation)) {
        let specifications = abbreviation.attributes();
        let attributes = read_inlined_attributes(scope, unit, entries, specifications, names)?;
        let unit = UnitRef::new(scope.file.dwarf, unit);
        found.add(unit, offset, nesting.depth(), attributes)
    } else {
        entries.skip_attributes_of(abbreviation)
    }
}

// Reads the next item inside a function, and adds its inlined entry, if it is one.
fn read_item<R: Reader>(
    scope: Scope<'_, R>,
    unit: &Unit<R>,
    entries: &mut EntriesRaw<'_, R>,
    nesting: &mut Nesting,
    found: &mut InlinedLists<R>,
    names: &mut UnitNames<R>,
) -> Result<(), Error>
    requires in_order { IsScope (as_scope scope) }
    requires unit { AreNamesIn (as_scope scope) unit.now names.old }
    requires encoding { entries.old.unit.encoding ≡ unit.now.header.encoding }
    ensures gives { FindsAtCost R.shares entries.old.cursor entries.new.cursor
        (as_around found.old nesting.old) (as_around found.new nesting.new) result
        (item_found_at (as_scope scope.entry) unit.now entries.old.unit) }
    ensures kept { IsFoundMore (as_lists found.old) (as_lists found.new) }
    ensures unit { entries.new.unit ≡ entries.old.unit }
    ensures shorter { OnOk result
        (length entries.new.cursor.left.bytes < length entries.old.cursor.left.bytes) }
    ensures names { AreNamesMore names.old names.new }
{
    let offset = entries.next_offset();
    match entries.read_abbreviation()? {
        None => {
            nesting.close();
            Ok(())
        }
        Some(abbreviation) => {
            read_entry(
                scope,
                unit,
                entries,
                offset,
                abbreviation,
                nesting,
                found,
                names,
            )?;
            nesting.enter(kind_of(abbreviation), abbreviation.has_children())
        }
    }
}

// Whether the next item is inside the function with which the reading began.
fn is_inside<R: Reader>(entries: &EntriesRaw<'_, R>) -> bool
    ensures gives { result ≡ int_lt (pos 0) entries.now.cursor.depth }
{
    entries.next_depth() > 0
}

// Adds the inlined entries inside a function, whose own entry was the first that was read.
fn read_inside<R: Reader>(
    scope: Scope<'_, R>,
    unit: &Unit<R>,
    entries: &mut EntriesRaw<'_, R>,
    nesting: &mut Nesting,
    found: &mut InlinedLists<R>,
    names: &mut UnitNames<R>,
) -> Result<(), Error>
    requires in_order { IsScope (as_scope scope) }
    requires unit { AreNamesIn (as_scope scope) unit.now names.old }
    requires encoding { entries.old.unit.encoding ≡ unit.now.header.encoding }
    ensures gives { ExactlyAtCost R.shares (λ _. as_lists found.new) result
        (on_parts (inside_found (as_scope scope.entry) unit.now entries.old.unit
        entries.old.cursor (as_around found.old []))) }
    ensures kept { IsFoundMore (as_lists found.old) (as_lists found.new) }
    ensures names { AreNamesMore names.old names.new }
{
    nesting.clear();
    while is_inside(entries) {
        read_item(scope, unit, entries, nesting, found, names)?;
    }
    Ok(())
}

// Reads the name of the function whose attributes follow, and adds its inlined entries.
#[tactic(auto, using(crate::proofs::NestingLemmas::found_same, crate::proofs::NestingLemmas::found_on))]
fn read_function<R: Reader>(
    scope: Scope<'_, R>,
    unit: &Unit<R>,
    entries: &mut EntriesRaw<'_, R>,
    abbreviation: &Abbreviation,
    nesting: &mut Nesting,
    found: &mut InlinedLists<R>,
    names: &mut UnitNames<R>,
) -> Result<Option<R>, Error>
    requires in_order { IsScope (as_scope scope) }
    requires unit { AreNamesIn (as_scope scope) unit.now names.old }
    requires encoding { entries.old.unit.encoding ≡ unit.now.header.encoding }
    ensures gives { ExactlyAtCost R.shares (named_lists R.section found.new) result
        (on_parts (function_found_at (as_scope scope.entry) unit.now entries.old.unit
        entries.old.cursor (as_lists found.old) abbreviation.now)) }
    ensures kept { IsFoundMore (as_lists found.old) (as_lists found.new) }
    ensures names { AreNamesMore names.old names.new }
{
    let name = read_name(scope, unit, entries, abbreviation.attributes(), names)?;
    read_inside(scope, unit, entries, nesting, found, names)?;
    Ok(name)
}

// Reads the name of the function whose entry begins at an offset, and adds its inlined entries.
pub(crate) fn read_detail<R: Reader>(
    scope: Scope<'_, R>,
    unit: &Unit<R>,
    offset: UnitOffset,
    nesting: &mut Nesting,
    found: &mut InlinedLists<R>,
    names: &mut UnitNames<R>,
) -> Result<Option<R>, Error>
    requires in_order { IsScope (as_scope scope) }
    requires unit { AreNamesIn (as_scope scope) unit.now names.old }
    ensures gives { ExactlyAtCost R.shares (named_lists R.section found.new) result (on_parts
        (detail_found_at (as_scope scope.entry) unit.now offset.0 (as_lists found.old))) }
    ensures kept { IsFoundMore (as_lists found.old) (as_lists found.new) }
    ensures names { AreNamesMore names.old names.new }
{
    let mut entries = UnitRef::new(scope.file.dwarf, unit).entries_raw(Some(offset))?;
    match entries.read_abbreviation()? {
        Some(abbreviation) => {
            read_function(
                scope,
                unit,
                &mut entries,
                abbreviation,
                nesting,
                found,
                names,
            )
        }
        None => Err(Error::NoEntryAtGivenOffset(offset.0)),
    }
}
