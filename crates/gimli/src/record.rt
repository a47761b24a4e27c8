//! The record of a unit: what its root entry's attributes give.

ghost use Rattle.std.specs.Prelude.{◌≡◌};
ghost use Rattle.gimli.specs.Common.{ExactlyUnlessOomIf, as_value};
ghost use Rattle.gimli.specs.Record.{address_value, section_offset, line_offset, dwo_name_attribute, with_root_attribute, no_root_values, root_values_of};

use crate::entries::EntriesRaw;
use crate::sink::{AttributeSink, NoNames, take_attributes};
use crate::unit::UnitHeader;
use crate::wanted::WantedNames;
use gimli_read::{
    Abbreviations, Attribute, AttributeValue, DWARF_4, DWARF_5, DwAt, Encoding, Error, Format,
    NumberValue, Reader,
};
use std::marker::Model;

/// A value of the class address (DWARF 5, section 7.5.5).
#[derive(Clone, Copy)]
pub enum AddressValue {
    /// The address.
    Address(u64),
    /// Its index in `.debug_addr`.
    Index(u64),
}

/// The values of a root entry's attributes that a unit's record is made of, of each the last.
#[derive(Drop)]
pub(crate) struct RootAttributes<R: Reader> {
    pub(crate) name: Option<AttributeValue<R>>,
    pub(crate) comp_dir: Option<AttributeValue<R>>,
    pub(crate) low_pc: Option<AddressValue>,
    pub(crate) stmt_list: Option<u64>,
    pub(crate) str_offsets_base: Option<u64>,
    pub(crate) addr_base: Option<u64>,
    pub(crate) rnglists_base: Option<u64>,
    pub(crate) dwo_id: Option<u64>,
    pub(crate) dwo_name: Option<AttributeValue<R>>,
}

impl<R: Reader> Model for RootAttributes<R> {
    ghost use Rattle.std.specs.Prelude.{option_map};
    ghost use Rattle.gimli_read.specs.Form.{as_value};
    ghost use Rattle.gimli.specs.Record.{RootValues};

    ghost Value = { RootValues };

    ghost view = { λ r. record {
      name = option_map (as_value R.section) r.name;
      comp_dir = option_map (as_value R.section) r.comp_dir;
      low_pc = r.low_pc;
      stmt_list = r.stmt_list;
      str_offsets_base = r.str_offsets_base;
      addr_base = r.addr_base;
      rnglists_base = r.rnglists_base;
      dwo_id = r.dwo_id;
      dwo_name = option_map (as_value R.section) r.dwo_name;
    } };
}

// A value of the class address.
fn address_value<R: Reader>(value: &AttributeValue<R>) -> Option<AddressValue>
    ensures gives { result ≡ address_value (as_value R.section value.now) }
{
    match value {
        AttributeValue::Addr(address) => Some(AddressValue::Address(*address)),
        AttributeValue::DebugAddrIndex(index) => Some(AddressValue::Index(*index)),
        _ => None,
    }
}

// A value of the class section offset.
fn section_offset<R: Reader>(value: &AttributeValue<R>) -> Option<u64>
    ensures gives { result ≡ section_offset (as_value R.section value.now) }
{
    match value {
        AttributeValue::SecOffset(offset) => Some(*offset),
        _ => None,
    }
}

/// A value of the class section offset under DW_AT_stmt_list or DW_AT_ranges, which up to version 3
/// may be a constant as wide as an offset.
pub(crate) fn line_offset<R: Reader>(encoding: Encoding, value: &AttributeValue<R>) -> Option<u64>
    ensures gives { result ≡ line_offset encoding (as_value R.section value.now) }
{
    match value {
        AttributeValue::SecOffset(offset) => Some(*offset),
        AttributeValue::Data4(offset) => {
            if encoding.version < DWARF_4 && encoding.format == Format::Dwarf32 {
                Some(u64::from(*offset))
            } else {
                None
            }
        }
        AttributeValue::Data8(offset) => {
            if encoding.version < DWARF_4 && encoding.format == Format::Dwarf64 {
                Some(*offset)
            } else {
                None
            }
        }
        _ => None,
    }
}

// The attribute that names a split file.
fn dwo_name_attribute(encoding: Encoding) -> DwAt
    ensures gives { result ≡ dwo_name_attribute encoding }
{
    if encoding.version < DWARF_5 {
        DwAt::DW_AT_GNU_dwo_name
    } else {
        DwAt::DW_AT_dwo_name
    }
}

impl<R: Reader> RootAttributes<R> {
    // Before the first attribute.
    pub(crate) fn new() -> RootAttributes<R>
        ensures gives { result ≡ no_root_values }
    {
        RootAttributes {
            name: None,
            comp_dir: None,
            low_pc: None,
            stmt_list: None,
            str_offsets_base: None,
            addr_base: None,
            rnglists_base: None,
            dwo_id: None,
            dwo_name: None,
        }
    }

    // Takes one more attribute in. A call of its own, so that a root without such attributes
    // doesn't clear what it stores values in.
    #[inline(never)]
    pub(crate) fn take(&mut self, encoding: Encoding, attribute: Attribute<R>)
        ensures gives { self.new ≡ with_root_attribute encoding self.old attribute }
    {
        let constant = attribute.udata_value();
        let name = attribute.name();
        let value = attribute.value();
        match name {
            DwAt::DW_AT_name => self.name = Some(value),
            DwAt::DW_AT_comp_dir => self.comp_dir = Some(value),
            DwAt::DW_AT_low_pc => self.low_pc = address_value(&value).or(self.low_pc),
            DwAt::DW_AT_stmt_list => {
                self.stmt_list = line_offset(encoding, &value).or(self.stmt_list);
            }
            DwAt::DW_AT_str_offsets_base => {
                self.str_offsets_base = section_offset(&value).or(self.str_offsets_base);
            }
            DwAt::DW_AT_addr_base | DwAt::DW_AT_GNU_addr_base => {
                self.addr_base = section_offset(&value).or(self.addr_base);
            }
            DwAt::DW_AT_rnglists_base | DwAt::DW_AT_GNU_ranges_base => {
                self.rnglists_base = section_offset(&value).or(self.rnglists_base);
            }
            DwAt::DW_AT_GNU_dwo_id => self.dwo_id = constant.or(self.dwo_id),
            _ if name == dwo_name_attribute(encoding) => self.dwo_name = Some(value),
            _ => {}
        }
    }
}

// The attributes of a root entry that may give a value of the unit's record.
struct RootWanted;

impl WantedNames for RootWanted {
    ghost use Rattle.gimli.specs.WantedAttributes.{is_root_name};

    ghost wanted = { is_root_name };

    fn is_wanted_name(name: DwAt) -> bool {
        matches!(
            name,
            DwAt::DW_AT_name
                | DwAt::DW_AT_comp_dir
                | DwAt::DW_AT_low_pc
                | DwAt::DW_AT_stmt_list
                | DwAt::DW_AT_str_offsets_base
                | DwAt::DW_AT_addr_base
                | DwAt::DW_AT_GNU_addr_base
                | DwAt::DW_AT_rnglists_base
                | DwAt::DW_AT_GNU_ranges_base
                | DwAt::DW_AT_GNU_dwo_id
                | DwAt::DW_AT_GNU_dwo_name
                | DwAt::DW_AT_dwo_name
        )
    }
}

// Takes in the attributes of a root entry, whose values are of an encoding.
#[derive(Clone, Copy)]
struct RootSink {
    encoding: Encoding,
}

impl<R: Reader> AttributeSink<R, Attribute<R>> for RootSink {
    ghost use Rattle.std.specs.Prelude.{Ok};
    ghost use Rattle.gimli.specs.Record.{RootValues, with_root_attribute};

    type Names = RootWanted;

    type Numbers = NoNames;

    type Found = RootAttributes<R>;

    type Cache = ();

    const FEW_BETWEEN: bool = false;

    ghost seen = { λ a. a };

    ghost Said = { RootValues };

    ghost said = { λ root. root };

    ghost with_attribute = { λ s root a. Ok (with_root_attribute s.encoding root a) };

    ghost Grows = { λ _ _ _. Unit {0} };

    #[inline(always)]
    fn take(
        &self,
        found: &mut RootAttributes<R>,
        attribute: Attribute<R>,
        _cache: &mut (),
    ) -> Result<(), Error> {
        found.take(self.encoding, attribute);
        Ok(())
    }

    fn take_number(
        &self,
        _found: &mut RootAttributes<R>,
        _name: DwAt,
        _number: NumberValue,
        _cache: &mut (),
    ) -> Result<(), Error> {
        Ok(())
    }
}

/// The values of the attributes of a unit's root entry.
///
/// Refused `UnexpectedEof` where no entry is, `MissingUnitDie` at a closing entry,
/// `UnknownAbbreviation`, what an attribute's value is refused for, and `OutOfMemory` where readers
/// share their bytes.
pub(crate) fn read_root<R: Reader>(
    header: &UnitHeader<R>,
    abbreviations: &Abbreviations,
) -> Result<RootAttributes<R>, Error>
    ensures gives { ExactlyUnlessOomIf R.shares (λ r. r) result
        (root_values_of header.now.encoding abbreviations.now header.now.entries) }
{
    let mut entries = EntriesRaw::new(header, abbreviations, header.entries.duplicate()?);
    match entries.read_abbreviation()? {
        Some(abbreviation) => {
            let sink = RootSink {
                encoding: header.encoding,
            };
            let specifications = abbreviation.attributes();
            let mut root = RootAttributes::new();
            take_attributes(&sink, &mut entries, specifications, &mut root, &mut ())?;
            Ok(root)
        }
        None => Err(Error::MissingUnitDie),
    }
}
