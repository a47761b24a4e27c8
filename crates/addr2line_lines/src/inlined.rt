//! Inlined entries: what their attributes say.

ghost use Rattle.std.specs.Prelude.{◌≡◌, Ok, OnOk, option_and_then};
ghost use Rattle.std.specs.Option.{option_or};
ghost use Rattle.addr2line_lines.specs.Common.{rest_of, ExactlyUnlessOomIf, attributes_at};
ghost use Rattle.addr2line_lines.specs.CachedNames.{AreNamesIn, AreNamesMore};
ghost use Rattle.addr2line_lines.specs.InlinedEntries.{constant_bits, counted_file, no_call, no_inlined_attributes, with_call_constant};
ghost use Rattle.addr2line_lines.specs.FoundAttributes.{inlined_attributes_after, is_call, as_attributes};
ghost use Rattle.addr2line_lines.specs.FoundNumbers.{is_number_name};
ghost use Rattle.addr2line_lines.specs.References.{IsScope};
ghost use Rattle.addr2line_lines.specs.Scopes.{as_scope};

use crate::found_name::FoundName;
use crate::function::{RangeAttributes, is_address_name, is_range_name};
use crate::name::{is_name_attribute, is_origin, name_by_origin, take_name};
use crate::names::UnitNames;
use crate::references::Scope;
use crate::row::low_bits;
use gimli::read::{Attribute, AttributeSpecification, DWARF_5, DwAt, Error, NumberValue, Reader};
use gimli::{AttributeSink, EntriesRaw, Unit, UnitRef, WantedNames, take_attributes};

/// Where a function was called that is inlined.
#[derive(Clone, Copy)]
pub struct CallSite {
    /// The index of the file, if there is one that counts.
    pub file: Option<u64>,
    /// The low 32 bits of the line; 0 where there is none.
    pub line: u32,
    /// The low 32 bits of the column; 0 where there is none.
    pub column: u32,
}

// The index of a file, if it counts in a version.
fn counted_file(version: u16, index: u64) -> Option<u64>
    ensures gives { result ≡ counted_file version index }
{
    if index > 0 || version == DWARF_5 {
        Some(index)
    } else {
        None
    }
}

// The low 32 bits of a constant, 0 of another value.
fn constant_bits(constant: Option<u64>) -> u32
    ensures gives { result ≡ constant_bits constant }
{
    low_bits(constant.unwrap_or(0))
}

impl CallSite {
    // Before the first attribute.
    fn new() -> CallSite
        ensures gives { result ≡ no_call }
    {
        CallSite {
            file: None,
            line: 0,
            column: 0,
        }
    }

    // The index of the file by one more attribute.
    fn file_after(self, version: u16, constant: Option<u64>) -> Option<u64>
        ensures gives { result ≡ option_or
            (option_and_then (counted_file version) constant) self.file }
    {
        match constant {
            Some(index) => counted_file(version, index).or(self.file),
            None => self.file,
        }
    }

    // Takes one more attribute in, by its name and its constant, if its value is one.
    fn take(self, version: u16, name: DwAt, constant: Option<u64>) -> CallSite
        ensures gives { result ≡ with_call_constant version self name constant }
    {
        match name {
            DwAt::DW_AT_call_file => CallSite {
                file: self.file_after(version, constant),
                line: self.line,
                column: self.column,
            },
            DwAt::DW_AT_call_line => CallSite {
                file: self.file,
                line: constant_bits(constant),
                column: self.column,
            },
            DwAt::DW_AT_call_column => CallSite {
                file: self.file,
                line: self.line,
                column: constant_bits(constant),
            },
            _ => self,
        }
    }
}

// What attributes of an inlined entry say.
#[derive(Drop)]
pub(crate) struct InlinedAttributes<R: Reader> {
    pub(crate) ranges: RangeAttributes,
    pub(crate) name: FoundName<R>,
    pub(crate) call: CallSite,
}

// Whether an attribute says of a call.
fn is_call(name: DwAt) -> bool
    ensures gives { result ≡ is_call name }
{
    matches!(
        name,
        DwAt::DW_AT_call_file | DwAt::DW_AT_call_line | DwAt::DW_AT_call_column
    )
}

// Whether an attribute's value is a number in most forms.
#[inline(always)]
fn is_number_name(name: DwAt) -> bool
    ensures gives { result ≡ is_number_name name }
{
    is_call(name) || is_address_name(name) || is_origin(name)
}

impl<R: Reader> InlinedAttributes<R> {
    // Before the first attribute.
    fn new() -> InlinedAttributes<R>
        ensures gives { as_attributes R.section result ≡ no_inlined_attributes }
    {
        InlinedAttributes {
            ranges: RangeAttributes::new(),
            name: FoundName::none(),
            call: CallSite::new(),
        }
    }
}

// The attributes that say something of an inlined entry.
struct InlinedWanted;

impl WantedNames for InlinedWanted {
    ghost use Rattle.addr2line_lines.specs.FoundAttributes.{is_inlined_attribute};

    ghost wanted = { is_inlined_attribute };

    fn is_wanted_name(name: DwAt) -> bool {
        is_range_name(name) || is_name_attribute(name) || is_call(name)
    }
}

// Those of them whose values are numbers in most forms.
struct InlinedNumbers;

impl WantedNames for InlinedNumbers {
    ghost use Rattle.addr2line_lines.specs.FoundNumbers.{is_number_name};

    ghost wanted = { is_number_name };

    #[inline(always)]
    fn is_wanted_name(name: DwAt) -> bool {
        is_number_name(name)
    }
}

// Takes in what attributes say of an inlined entry of a unit.
#[derive(Drop)]
struct InlinedSink<'a, R: Reader> {
    scope: Scope<'a, R>,
    unit: &'a Unit<R>,
}

impl<R: Reader> AttributeSink<R, Attribute<R>> for InlinedSink<'_, R> {
    ghost use Rattle.addr2line_lines.specs.CachedNames.{GrowNames};
    ghost use Rattle.addr2line_lines.specs.FoundAttributes.{as_attributes};
    ghost use Rattle.addr2line_lines.specs.InlinedEntries.{InlinedAttributes, with_inlined_attribute};
    ghost use Rattle.addr2line_lines.specs.Scopes.{as_scope};

    type Names = InlinedWanted;

    type Numbers = InlinedNumbers;

    type Found = InlinedAttributes<R>;

    type Cache = UnitNames<R>;

    const FEW_BETWEEN: bool = true;

    ghost seen = { λ a. a };

    ghost Said = { InlinedAttributes };

    ghost said = { as_attributes R.section };

    ghost with_attribute = { λ s x a.
        with_inlined_attribute (as_scope s.scope) s.unit.now x a };

    ghost Grows = { λ s old new. GrowNames (as_scope s.scope) s.unit.now old new };

    #[inline(always)]
    fn take(
        &self,
        found: &mut InlinedAttributes<R>,
        attribute: Attribute<R>,
        names: &mut UnitNames<R>,
    ) -> Result<(), Error> {
        let unit = self.unit;
        let name = attribute.name();
        if is_call(name) {
            let constant = attribute.udata_value();
            found.call = found.call.take(unit.header.version(), name, constant);
        } else if is_range_name(name) {
            let unit = UnitRef::new(self.scope.file.dwarf, unit);
            found.ranges = found.ranges.take(unit, attribute)?;
        } else {
            let before = found.name.take();
            found.name = take_name(self.scope, unit, before, attribute, names)?;
        }
        Ok(())
    }

    #[inline(always)]
    fn take_number(
        &self,
        found: &mut InlinedAttributes<R>,
        name: DwAt,
        number: NumberValue,
        names: &mut UnitNames<R>,
    ) -> Result<(), Error> {
        let unit = self.unit;
        if is_call(name) {
            let constant = number.constant();
            found.call = found.call.take(unit.header.version(), name, constant);
        } else if is_range_name(name) {
            found.ranges.take_number(name, number);
        } else if let NumberValue::UnitRef(offset) = number {
            let before = found.name.take();
            found.name = name_by_origin(self.scope, unit, before, offset, names)?;
        }
        Ok(())
    }
}

// What the attributes of specifications say of an inlined entry. A value that can't be read is a
// fault before that of an index or a reference, so the first of these waits until all are read.
pub(crate) fn read_inlined_attributes<R: Reader>(
    scope: Scope<'_, R>,
    unit: &Unit<R>,
    entries: &mut EntriesRaw<'_, R>,
    specifications: &[AttributeSpecification],
    names: &mut UnitNames<R>,
) -> Result<InlinedAttributes<R>, Error>
    requires in_order { IsScope (as_scope scope) }
    requires unit { AreNamesIn (as_scope scope) unit.now names.old }
    requires encoding { entries.old.unit.encoding ≡ unit.now.header.encoding }
    ensures gives { ExactlyUnlessOomIf R.shares (as_attributes R.section) result
        (inlined_attributes_after (as_scope scope.entry) unit.now (Ok no_inlined_attributes)
        (attributes_at unit.now.header.encoding specifications.now entries.old.cursor.left)) }
    ensures left { OnOk result (rest_of (attributes_at unit.now.header.encoding
        specifications.now entries.old.cursor.left) ≡ Ok entries.new.cursor.left) }
    ensures unit { entries.new.unit ≡ entries.old.unit }
    ensures depth { entries.new.cursor.depth ≡ entries.old.cursor.depth }
    ensures names { AreNamesMore names.old names.new }
{
    let sink = InlinedSink { scope, unit };
    let mut found = InlinedAttributes::new();
    take_attributes(&sink, entries, specifications, &mut found, names)?;
    Ok(found)
}
