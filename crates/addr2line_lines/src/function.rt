//! The addresses of entries.

ghost use Rattle.std.specs.Prelude.{◌≡◌, Ok, OnOk};
ghost use Rattle.std.specs.List.{list_any};
ghost use Rattle.std.specs.Option.{option_to_list};
ghost use Rattle.addr2line_lines.specs.Common.{Exactly, ExactlyUnlessOomIf, rest_of, as_value, attributes_at, ranges_at};
ghost use Rattle.addr2line_lines.specs.FoundRanges.{is_address_name, is_range_specification, is_range_name};
ghost use Rattle.addr2line_lines.specs.FoundNumbers.{with_range_number};
ghost use Rattle.addr2line_lines.specs.RangeAttributes.{attr_address, no_range_attributes, with_range_attribute, range_attributes_after, range_between, ranges_of, all_ranges, attribute_ranges, begins_well, gives_a_range};

use gimli::read::{
    Attribute, AttributeSpecification, AttributeValue, DwAt, Error, NumberValue, Range, Reader,
};
use gimli::{AttributeSink, EntriesRaw, UnitRef, WantedNames, take_attributes};
use std::alloc::Global;

/// What the attributes of an entry say of its addresses, the last of each counting.
#[derive(Clone, Copy)]
pub struct RangeAttributes {
    /// The first address.
    pub low_pc: Option<u64>,
    /// The end address, which is no longer of the entry.
    pub high_pc: Option<u64>,
    /// The number of addresses.
    pub size: Option<u64>,
    /// Where the range list begins, in bytes from the start of the section that `UnitRef::ranges`
    /// reads; none where there is no list.
    pub ranges_offset: Option<u64>,
}

// The address that a value stands for, none of a value of another class.
fn attr_address<R: Reader>(
    unit: UnitRef<'_, R>,
    value: &AttributeValue<R>,
) -> Result<Option<u64>, Error>
    ensures gives { Exactly (λ a. a) result (attr_address unit.entry.dwarf.now
        unit.entry.unit.now (as_value R.section value.now)) }
{
    match value {
        AttributeValue::Addr(address) => Ok(Some(*address)),
        AttributeValue::DebugAddrIndex(index) => Ok(Some(unit.address(*index)?)),
        _ => Ok(None),
    }
}

// A range, unless it is empty or reversed.
fn range_between(begin: u64, end: u64) -> Option<Range>
    ensures gives { option_to_list result ≡ range_between begin end }
{
    if begin < end {
        Some(Range { begin, end })
    } else {
        None
    }
}

impl RangeAttributes {
    /// Before the first attribute. Takes no memory.
    pub fn new() -> RangeAttributes
        ensures gives { result ≡ no_range_attributes }
    {
        RangeAttributes {
            low_pc: None,
            high_pc: None,
            size: None,
            ranges_offset: None,
        }
    }

    /// Takes one more attribute in: `DW_AT_low_pc`, `DW_AT_high_pc` or `DW_AT_ranges`; another one
    /// changes nothing. Takes no memory.
    ///
    /// An address counts, also by its index, for the first two, and a constant of `DW_AT_high_pc`
    /// as the size; other values change nothing. A value of `DW_AT_ranges` that stands for no list
    /// takes an earlier list away.
    ///
    /// Refused as `UnitRef::address` is, where the value of one of the first two is an index, and
    /// as `UnitRef::attr_ranges_offset` is, at `DW_AT_ranges`. Source: DWARF 5, section 2.17. Own:
    /// of attributes of one name the last that counts.
    #[tactic(auto, unfolding(crate::specs::RangeAttributes::with_range_attribute))]
    pub fn take<R: Reader>(
        self,
        unit: UnitRef<'_, R>,
        attribute: Attribute<R>,
    ) -> Result<RangeAttributes, Error>
        ensures gives { Exactly (λ r. r) result (with_range_attribute unit.entry.dwarf.now
            unit.entry.unit.now self attribute) }
    {
        let name = attribute.name();
        let size = attribute.udata_value();
        let value = attribute.value();
        match name {
            DwAt::DW_AT_low_pc => {
                let low = attr_address(unit, &value)?;
                Ok(RangeAttributes {
                    low_pc: low.or(self.low_pc),
                    high_pc: self.high_pc,
                    size: self.size,
                    ranges_offset: self.ranges_offset,
                })
            }
            DwAt::DW_AT_high_pc => {
                let high = attr_address(unit, &value)?;
                Ok(RangeAttributes {
                    low_pc: self.low_pc,
                    high_pc: high.or(self.high_pc),
                    size: size.or(self.size),
                    ranges_offset: self.ranges_offset,
                })
            }
            // A value of another class takes an earlier list away, as there is one list at most.
            DwAt::DW_AT_ranges => Ok(RangeAttributes {
                low_pc: self.low_pc,
                high_pc: self.high_pc,
                size: self.size,
                ranges_offset: unit.attr_ranges_offset(value)?,
            }),
            _ => Ok(self),
        }
    }

    /// Takes a number in, as `take` does an attribute of low_pc or high_pc; one of another name
    /// changes nothing. Takes no memory.
    #[inline(always)]
    pub(crate) fn take_number(&mut self, name: DwAt, number: NumberValue)
        ensures gives { self.new ≡ with_range_number self.old name number }
    {
        match name {
            DwAt::DW_AT_low_pc => {
                self.low_pc = number.address().or(self.low_pc);
            }
            DwAt::DW_AT_high_pc => {
                self.high_pc = number.address().or(self.high_pc);
                self.size = number.constant().or(self.size);
            }
            _ => {}
        }
    }

    /// The range from low_pc on: up to the high_pc address, else of the size; none where it is
    /// empty or reversed. It counts only where there is no range list. Takes no memory.
    pub fn range(&self) -> Option<Range>
        ensures gives { option_to_list result ≡ ranges_of self.now }
    {
        let low = self.low_pc?;
        match (self.high_pc, self.size) {
            (Some(high), _) => range_between(low, high),
            (None, Some(size)) => range_between(low, low.wrapping_add(size)),
            (None, None) => None,
        }
    }
}

/// Whether an attribute says of its entry's ranges. Takes no memory. Source: DWARF 5, section 2.17.
pub(crate) fn is_range_name(name: DwAt) -> bool
    ensures gives { result ≡ is_range_name name }
{
    name == DwAt::DW_AT_low_pc || name == DwAt::DW_AT_high_pc || name == DwAt::DW_AT_ranges
}

/// Whether an attribute says where the addresses of an entry begin or end. Takes no memory.
/// Source: DWARF 5, section 2.17.
#[inline(always)]
pub(crate) fn is_address_name(name: DwAt) -> bool
    ensures gives { result ≡ is_address_name name }
{
    name == DwAt::DW_AT_low_pc || name == DwAt::DW_AT_high_pc
}

/// Whether any of these attributes says of its entry's ranges. Takes no memory. Source: DWARF 5,
/// section 2.17.
pub(crate) fn has_range_attribute(specifications: &[AttributeSpecification]) -> bool
    ensures gives { result ≡ list_any is_range_specification specifications.now }
{
    specifications
        .iter()
        .any(|specification| is_range_name(specification.name()))
}

// The attributes that say of their entry's ranges.
struct RangeWanted;

impl WantedNames for RangeWanted {
    ghost use Rattle.addr2line_lines.specs.FoundRanges.{is_range_name};

    ghost wanted = { is_range_name };

    fn is_wanted_name(name: DwAt) -> bool {
        is_range_name(name)
    }
}

// Those of them that say where addresses begin or end.
struct RangeNumbers;

impl WantedNames for RangeNumbers {
    ghost use Rattle.addr2line_lines.specs.FoundRanges.{is_address_name};

    ghost wanted = { is_address_name };

    #[inline(always)]
    fn is_wanted_name(name: DwAt) -> bool {
        is_address_name(name)
    }
}

// Takes range attributes of an entry of a unit in.
#[derive(Drop)]
struct RangeSink<'a, R: Reader> {
    unit: UnitRef<'a, R>,
}

impl<R: Reader> AttributeSink<R, Attribute<R>> for RangeSink<'_, R> {
    ghost use Rattle.addr2line_lines.specs.declared.function.RangeAttributes.{RangeAttributes};
    ghost use Rattle.addr2line_lines.specs.RangeAttributes.{with_range_attribute};

    type Names = RangeWanted;

    type Numbers = RangeNumbers;

    type Found = RangeAttributes;

    type Cache = ();

    const FEW_BETWEEN: bool = false;

    ghost seen = { λ a. a };

    ghost Said = { RangeAttributes };

    ghost said = { λ r. r };

    ghost with_attribute = { λ s r a.
        with_range_attribute s.unit.dwarf.now s.unit.unit.now r a };

    ghost Grows = { λ _ _ _. Unit {0} };

    fn take(
        &self,
        found: &mut RangeAttributes,
        attribute: Attribute<R>,
        _cache: &mut (),
    ) -> Result<(), Error> {
        *found = found.take(self.unit, attribute)?;
        Ok(())
    }

    #[inline(always)]
    fn take_number(
        &self,
        found: &mut RangeAttributes,
        name: DwAt,
        number: NumberValue,
        _cache: &mut (),
    ) -> Result<(), Error> {
        found.take_number(name, number);
        Ok(())
    }
}

/// The range attributes among those of specifications. A value that can't be read is a fault before
/// that of an index, of an address or a range list, so the first of these waits until all values
/// are read.
pub(crate) fn read_range_attributes<R: Reader>(
    unit: UnitRef<'_, R>,
    entries: &mut EntriesRaw<'_, R>,
    specifications: &[AttributeSpecification],
) -> Result<RangeAttributes, Error>
    requires encoding { entries.old.unit.encoding ≡ unit.unit.now.header.encoding }
    ensures gives { ExactlyUnlessOomIf R.shares (λ r. r) result (range_attributes_after
        unit.entry.dwarf.now unit.entry.unit.now (Ok no_range_attributes)
        (attributes_at unit.entry.unit.now.header.encoding specifications.now
        entries.old.cursor.left)) }
    ensures left { OnOk result (rest_of (attributes_at unit.entry.unit.now.header.encoding
        specifications.now entries.old.cursor.left) ≡ Ok entries.new.cursor.left) }
    ensures unit { entries.new.unit ≡ entries.old.unit }
    ensures depth { entries.new.cursor.depth ≡ entries.old.cursor.depth }
{
    let sink = RangeSink { unit };
    let mut ranges = RangeAttributes::new();
    take_attributes(&sink, entries, specifications, &mut ranges, &mut ())?;
    Ok(ranges)
}

// The ranges of the range list at an offset, in its order.
fn read_range_list<R: Reader>(
    alloc: Global,
    unit: UnitRef<'_, R>,
    offset: u64,
) -> Result<Vec<Range>, Error>
    ensures gives { ExactlyUnlessOomIf
        (begins_well (ranges_at unit.entry.dwarf.now unit.entry.unit.now offset)) (λ v. v.items)
        result (all_ranges (ranges_at unit.entry.dwarf.now unit.entry.unit.now offset)) }
{
    let mut list = unit.ranges(offset)?;
    let mut ranges = Vec::new(alloc);
    while let Some(range) = list.next()? {
        ranges.push(range)?;
    }
    Ok(ranges)
}

/// The ranges of addresses of an entry with these attributes, as the file has them.
///
/// Those of the range list where there is one, in its order, else that of `RangeAttributes::range`.
/// Refused `UnsupportedAddressSize` and by the first fault of the range list; may fail with
/// `OutOfMemory` instead, only where a range comes before any fault. Source: DWARF 5, section 2.17.
pub fn read_ranges<R: Reader>(
    alloc: Global,
    unit: UnitRef<'_, R>,
    attributes: &RangeAttributes,
) -> Result<Vec<Range>, Error>
    ensures gives { ExactlyUnlessOomIf
        (gives_a_range unit.entry.dwarf.now unit.entry.unit.now attributes.now) (λ v. v.items)
        result (attribute_ranges unit.entry.dwarf.now unit.entry.unit.now attributes.now) }
{
    match attributes.ranges_offset {
        Some(offset) => read_range_list(alloc, unit, offset),
        None => {
            let mut ranges = Vec::new(alloc);
            if let Some(range) = attributes.range() {
                ranges.push(range)?;
            }
            Ok(ranges)
        }
    }
}
