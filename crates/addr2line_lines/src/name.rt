//! The names of functions and inlined entries.

ghost use Rattle.std.specs.Prelude.{◌≡◌, Ok, Some, option_map};
ghost use Rattle.gimli_read.specs.declared.value.AttributeValue.TheVariants as values;
ghost use Rattle.addr2line_lines.specs.Common.{as_value, ExactlyUnlessOomIf};
ghost use Rattle.addr2line_lines.specs.CachedNames.{AreNamesIn, AreNamesMore};
ghost use Rattle.addr2line_lines.specs.FoundNames.{found_name, is_name_attribute, linkage_and_found, as_name_or_origin, as_place, with_linkage, with_string};
ghost use Rattle.addr2line_lines.specs.Names.{is_linkage_name, is_origin, named_at, no_name, or_referred_name, readable, referred_name, visited, with_name};
ghost use Rattle.addr2line_lines.specs.References.{IsScope};
ghost use Rattle.addr2line_lines.specs.Scopes.{as_scope};

use crate::found_name::FoundName;
use crate::names::UnitNames;
use crate::references::{EntryPlace, Scope, referred};
use gimli::read::{
    Attribute, AttributeSpecification, AttributeValue, DwAt, Error, NumberValue, Reader, UnitOffset,
};
use gimli::{
    AttributeSink, EntriesRaw, NoNames, Unit, UnitRef, WantedNames, pass_over, split_at_wanted,
};

// The most entries that are visited for one name.
const MOST_VISITED: u64 = 16;

// Whether an attribute is a linkage name.
fn is_linkage_name(name: DwAt) -> bool
    ensures gives { result ≡ is_linkage_name name }
{
    name == DwAt::DW_AT_linkage_name || name == DwAt::DW_AT_MIPS_linkage_name
}

/// Whether an attribute refers to an entry that has the name. Takes no memory.
#[inline(always)]
pub(crate) fn is_origin(name: DwAt) -> bool
    ensures gives { result ≡ is_origin name }
{
    name == DwAt::DW_AT_abstract_origin || name == DwAt::DW_AT_specification
}

/// Whether an attribute may give its entry a name. Takes no memory.
pub(crate) fn is_name_attribute(name: DwAt) -> bool
    ensures gives { result ≡ is_name_attribute name }
{
    is_linkage_name(name) || name == DwAt::DW_AT_name || is_origin(name)
}

/// The attributes that may give their entry a name.
pub(crate) struct NameWanted;

impl WantedNames for NameWanted {
    ghost use Rattle.addr2line_lines.specs.FoundNames.{is_name_attribute};

    ghost wanted = { is_name_attribute };

    fn is_wanted_name(name: DwAt) -> bool {
        is_name_attribute(name)
    }
}

// The string of a value, none where it can't be read. Refused `OutOfMemory` alone.
fn readable<R: Reader>(
    scope: Scope<'_, R>,
    unit: &Unit<R>,
    value: AttributeValue<R>,
) -> Result<Option<R>, Error>
    ensures gives { ExactlyUnlessOomIf R.shares (option_map R.section) result
        (Ok (readable (as_scope scope.entry) unit.now (as_value R.section value))) }
{
    let file = scope.file;
    match UnitRef::new(file.dwarf, unit).attr_string(value) {
        Ok(string) => Ok(Some(string)),
        Err(error) => match error {
            Error::OutOfMemory => Err(Error::OutOfMemory),
            _ => Ok(None),
        },
    }
}

// What an entry that is referred to says of its name: a string, or where else to look.
#[derive(Drop)]
struct NameOrOrigin<R: Reader> {
    name: Option<R>,
    origin: Option<AttributeValue<R>>,
}

impl<R: Reader> NameOrOrigin<R> {
    // Before the first attribute.
    fn new() -> NameOrOrigin<R>
        ensures gives { as_name_or_origin R.section result ≡ no_name }
    {
        NameOrOrigin {
            name: None,
            origin: None,
        }
    }

    // Sets the name to a string, if it is one.
    fn set_name(&mut self, string: Option<R>)
        ensures gives { as_name_or_origin R.section self.new
            ≡ with_string (option_map R.section string) (as_name_or_origin R.section self.old) }
    {
        if string.is_some() {
            self.name = string;
        }
    }

    // Sets where else to look.
    fn set_origin(&mut self, value: AttributeValue<R>)
        ensures gives { as_name_or_origin R.section self.new
            ≡ record (as_name_or_origin R.section self.old) {
              origin = Some (as_value R.section value);
            } }
    {
        self.origin = Some(value);
    }

    // Takes one more attribute in, and answers a linkage name instead.
    fn take(
        &mut self,
        scope: Scope<'_, R>,
        unit: &Unit<R>,
        attribute: Attribute<R>,
    ) -> Result<Option<R>, Error>
        ensures gives { ExactlyUnlessOomIf R.shares (λ linkage. with_linkage
            (option_map R.section linkage) (as_name_or_origin R.section self.new)) result
            (Ok (linkage_and_found (as_scope scope.entry) unit.now
            (as_name_or_origin R.section self.old) attribute)) }
    {
        let name = attribute.name();
        let value = attribute.value();
        if is_linkage_name(name) {
            return readable(scope, unit, value);
        }
        if name == DwAt::DW_AT_name {
            let string = readable(scope, unit, value)?;
            self.set_name(string);
            return Ok(None);
        }
        if is_origin(name) {
            self.set_origin(value);
            return Ok(None);
        }
        Ok(None)
    }
}

// What an entry says of its name, by its attributes up to the first linkage name that can be read.
fn read_names<R: Reader>(
    place: EntryPlace<'_, R>,
    entries: &mut EntriesRaw<'_, R>,
    specifications: &[AttributeSpecification],
) -> Result<NameOrOrigin<R>, Error>
    requires encoding { entries.old.unit.encoding ≡ place.unit.now.header.encoding }
    ensures gives { ExactlyUnlessOomIf R.shares (as_name_or_origin R.section) result
        (named_at (as_scope place.entry.scope) place.entry.unit.now specifications.now
        entries.old.cursor.left no_name) }
{
    let mut found = NameOrOrigin::new();
    let mut rest = specifications;
    while let Some(next) = split_at_wanted::<NameWanted>(rest) {
        pass_over(entries, next.before)?;
        let attribute = entries.read_attribute(next.specification)?;
        if let Some(name) = found.take(place.scope, place.unit, attribute)? {
            return Ok(NameOrOrigin {
                name: Some(name),
                origin: None,
            });
        }
        rest = next.after;
    }
    pass_over(entries, rest)?;
    Ok(found)
}

// What the entry at a place says of its name.
fn visit<R: Reader>(place: EntryPlace<'_, R>) -> Result<NameOrOrigin<R>, Error>
    ensures gives { ExactlyUnlessOomIf R.shares (as_name_or_origin R.section) result
        (visited (as_place place.entry)) }
{
    let file = place.scope.file;
    let unit = UnitRef::new(file.dwarf, place.unit);
    let mut entries = unit.entries_raw(Some(place.offset))?;
    match entries.read_abbreviation()? {
        Some(abbreviation) => read_names(place, &mut entries, abbreviation.attributes()),
        None => Err(Error::NoEntryAtGivenOffset(place.offset.0)),
    }
}

// The name by the entry that a value refers to, and by those that the last reference of each names.
fn referred_name<'a, R: Reader>(
    mut scope: Scope<'a, R>,
    mut unit: &'a Unit<R>,
    mut value: AttributeValue<R>,
) -> Result<Option<R>, Error>
    requires in_order { IsScope (as_scope scope) }
    ensures gives { ExactlyUnlessOomIf R.shares (option_map R.section) result
        (referred_name (as_scope scope.entry) unit.now (as_value R.section value)) }
{
    for _ in 0..MOST_VISITED {
        let Some(place) = referred(scope, unit, &value)? else {
            return Ok(None);
        };
        let NameOrOrigin { name, origin } = visit(place)?;
        if name.is_some() {
            return Ok(name);
        }
        let Some(origin) = origin else {
            return Ok(None);
        };
        scope = place.scope;
        unit = place.unit;
        value = origin;
    }
    Ok(None)
}

// The string of a value as the name of an entry, none where it can't be read. Refused `OutOfMemory`
// alone.
fn readable_name<R: Reader>(
    scope: Scope<'_, R>,
    unit: &Unit<R>,
    value: AttributeValue<R>,
) -> Result<FoundName<R>, Error>
    ensures gives { ExactlyUnlessOomIf R.shares (found_name R.section) result
        (Ok (readable (as_scope scope.entry) unit.now (as_value R.section value))) }
{
    let name = readable(scope, unit, value)?;
    Ok(FoundName::Own(name))
}

// The name by the entry that a value refers to, for the entry with that value alone.
fn referred_name_anew<R: Reader>(
    scope: Scope<'_, R>,
    unit: &Unit<R>,
    value: AttributeValue<R>,
) -> Result<FoundName<R>, Error>
    requires in_order { IsScope (as_scope scope) }
    ensures gives { ExactlyUnlessOomIf R.shares (found_name R.section) result
        (referred_name (as_scope scope.entry) unit.now (as_value R.section value)) }
{
    let name = referred_name(scope, unit, value)?;
    Ok(FoundName::Own(name))
}

impl<R: Reader> UnitNames<R> {
    // The name by the entry at an offset of the unit: the cached one, else it is read, and may be
    // cached then. So may a fault, but never `OutOfMemory`.
    fn find_or_read(
        &mut self,
        scope: Scope<'_, R>,
        unit: &Unit<R>,
        offset: UnitOffset,
    ) -> Result<FoundName<R>, Error>
        requires in_order { IsScope (as_scope scope) }
        requires unit { AreNamesIn (as_scope scope) unit.now self.old }
        ensures gives { ExactlyUnlessOomIf R.shares (found_name R.section) result
            (referred_name (as_scope scope.entry) unit.now (values.UnitRef offset)) }
        ensures names { AreNamesMore self.old self.new }
    {
        if let Some(found) = self.cached.find(offset) {
            let name = found?;
            return Ok(FoundName::Shared(name));
        }
        match referred_name(scope, unit, AttributeValue::UnitRef(offset)) {
            Ok(name) => Ok(self.cached.add(offset, name)),
            Err(error) => match error {
                Error::OutOfMemory => Err(error),
                _ => {
                    self.cached.add_fault(offset, error);
                    Err(error)
                }
            },
        }
    }
}

// The name by the entry that a value refers to, which may be cached if that is one of the unit.
fn referred_name_once<R: Reader>(
    scope: Scope<'_, R>,
    unit: &Unit<R>,
    value: AttributeValue<R>,
    names: &mut UnitNames<R>,
) -> Result<FoundName<R>, Error>
    requires in_order { IsScope (as_scope scope) }
    requires unit { AreNamesIn (as_scope scope) unit.now names.old }
    ensures gives { ExactlyUnlessOomIf R.shares (found_name R.section) result
        (referred_name (as_scope scope.entry) unit.now (as_value R.section value)) }
    ensures names { AreNamesMore names.old names.new }
{
    match value {
        AttributeValue::UnitRef(offset) => names.find_or_read(scope, unit, offset),
        value => referred_name_anew(scope, unit, value),
    }
}

/// The name that was found, else that by the entry at an offset of the unit, as `find_or_read`
/// gives it.
pub(crate) fn name_by_origin<R: Reader>(
    scope: Scope<'_, R>,
    unit: &Unit<R>,
    name: FoundName<R>,
    offset: UnitOffset,
    names: &mut UnitNames<R>,
) -> Result<FoundName<R>, Error>
    requires in_order { IsScope (as_scope scope) }
    requires unit { AreNamesIn (as_scope scope) unit.now names.old }
    ensures gives { ExactlyUnlessOomIf R.shares (found_name R.section) result
        (or_referred_name (as_scope scope.entry) unit.now (found_name R.section name)
        (values.UnitRef offset)) }
    ensures names { AreNamesMore names.old names.new }
{
    if name.is_some() {
        return Ok(name);
    }
    names.find_or_read(scope, unit, offset)
}

/// The name after one more attribute of the entry itself.
#[tactic(auto, unfolding(crate::specs::Names::with_name))]
pub(crate) fn take_name<R: Reader>(
    scope: Scope<'_, R>,
    unit: &Unit<R>,
    name: FoundName<R>,
    attribute: Attribute<R>,
    names: &mut UnitNames<R>,
) -> Result<FoundName<R>, Error>
    requires in_order { IsScope (as_scope scope) }
    requires unit { AreNamesIn (as_scope scope) unit.now names.old }
    ensures gives { ExactlyUnlessOomIf R.shares (found_name R.section) result
        (with_name (as_scope scope.entry) unit.now (found_name R.section name) attribute) }
    ensures names { AreNamesMore names.old names.new }
{
    let attribute_name = attribute.name();
    let value = attribute.value();
    if is_linkage_name(attribute_name) {
        let linkage = readable(scope, unit, value)?;
        return Ok(name.or_linkage_name(linkage));
    }
    if name.is_some() {
        return Ok(name);
    }
    if attribute_name == DwAt::DW_AT_name {
        readable_name(scope, unit, value)
    } else if is_origin(attribute_name) {
        referred_name_once(scope, unit, value, names)
    } else {
        Ok(FoundName::none())
    }
}

/// Takes in what attributes say of the name of an entry of a unit.
#[derive(Drop)]
pub(crate) struct NameSink<'a, R: Reader> {
    /// Where references of the entry lead.
    pub(crate) scope: Scope<'a, R>,
    /// The unit.
    pub(crate) unit: &'a Unit<R>,
}

impl<R: Reader> AttributeSink<R, Attribute<R>> for NameSink<'_, R> {
    ghost use Rattle.std.specs.Prelude.{Option};
    ghost use Rattle.gimli_read.specs.Section.{Section};
    ghost use Rattle.addr2line_lines.specs.CachedNames.{GrowNames};
    ghost use Rattle.addr2line_lines.specs.FoundNames.{found_name};
    ghost use Rattle.addr2line_lines.specs.Names.{with_name};
    ghost use Rattle.addr2line_lines.specs.Scopes.{as_scope};

    type Names = NameWanted;

    type Numbers = NoNames;

    type Found = FoundName<R>;

    type Cache = UnitNames<R>;

    const FEW_BETWEEN: bool = false;

    ghost seen = { λ a. a };

    ghost Said = { Option Section };

    ghost said = { found_name R.section };

    ghost with_attribute = { λ s name a. with_name (as_scope s.scope) s.unit.now name a };

    ghost Grows = { λ s old new. GrowNames (as_scope s.scope) s.unit.now old new };

    fn take(
        &self,
        found: &mut FoundName<R>,
        attribute: Attribute<R>,
        names: &mut UnitNames<R>,
    ) -> Result<(), Error> {
        let before = found.take();
        *found = take_name(self.scope, self.unit, before, attribute, names)?;
        Ok(())
    }

    fn take_number(
        &self,
        _found: &mut FoundName<R>,
        _name: DwAt,
        _number: NumberValue,
        _names: &mut UnitNames<R>,
    ) -> Result<(), Error> {
        Ok(())
    }
}
