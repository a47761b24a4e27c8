//! The values of attributes, by form.

ghost use Rattle.std.specs.Prelude.{◌≡◌, OnErr};
ghost use Rattle.gimli_read.specs.Reading.{Exactly, Reads, ReadsUnlessOomFor};
ghost use Rattle.gimli_read.specs.HeldBytes.{gives_attribute_bytes, ReadsValueUnlessOom};
ghost use Rattle.gimli_read.specs.Number.{fixed_at};
ghost use Rattle.gimli_read.specs.FormEncoding.{forms_from_blocks, forms_from_constants, forms_from_flags, forms_from_strings, reference_forms, form_in};
ghost use Rattle.gimli_read.specs.EncodedValue.{address_or_offset_at, encoded_at};
ghost use Rattle.gimli_read.specs.Form.{as_value, direct_at, form_at, value_at, attribute_at, constant_of};

use crate::abbrev::AttributeSpecification;
use crate::constants::{DWARF_2, DwAt, DwForm};
use crate::endian::{Encoding, RunTimeEndian};
use crate::error::Error;
use crate::reader::Reader;
use byteorder::{BigEndian, ByteOrder, LittleEndian};
use std::marker::Model;

/// An offset in bytes from the start of a unit's length field.
#[derive(Clone, Copy, Debug, PartialEq, Eq)]
pub struct UnitOffset(pub u64);

/// An offset in bytes from the start of `.debug_info`.
#[derive(Clone, Copy, Debug, PartialEq, Eq)]
pub struct DebugInfoOffset(pub u64);

/// The value of an attribute, as its form alone gives it (DWARF 5, section 7.5.5).
#[derive(Drop)]
pub enum AttributeValue<R> {
    /// An address, as the file has it.
    Addr(u64),
    /// Bytes.
    Block(R),
    /// A constant of one byte.
    Data1(u8),
    /// A constant of two bytes.
    Data2(u16),
    /// A constant of four bytes.
    Data4(u32),
    /// A constant of eight bytes.
    Data8(u64),
    /// A constant of sixteen bytes.
    Data16(u128),
    /// A signed LEB128 constant.
    Sdata(i64),
    /// An unsigned LEB128 constant.
    Udata(u64),
    /// An expression.
    Exprloc(R),
    /// Whether something holds.
    Flag(bool),
    /// An offset in a section that the attribute's name decides.
    SecOffset(u64),
    /// The index of an address in `.debug_addr`.
    DebugAddrIndex(u64),
    /// An entry of the same unit.
    UnitRef(UnitOffset),
    /// An entry of `.debug_info`.
    DebugInfoRef(DebugInfoOffset),
    /// An entry of the supplementary file's `.debug_info`.
    DebugInfoRefSup(DebugInfoOffset),
    /// The signature of a type unit.
    DebugTypesRef(u64),
    /// The index of a location list.
    DebugLocListsIndex(u64),
    /// The index of a range list in `.debug_rnglists`.
    DebugRngListsIndex(u64),
    /// The offset of a string in `.debug_str`.
    DebugStrRef(u64),
    /// The offset of a string in the supplementary file's `.debug_str`.
    DebugStrRefSup(u64),
    /// The index of a string in `.debug_str_offsets`.
    DebugStrOffsetsIndex(u64),
    /// The offset of a string in `.debug_line_str`.
    DebugLineStrRef(u64),
    /// A text, without the zero byte that ends it.
    String(R),
}

impl<R> AttributeValue<R> {
    /// The value of a constant that isn't negative; none for another value. Takes no memory.
    pub fn udata_value(&self) -> Option<u64>
        ensures gives { result ≡ constant_of self.now }
    {
        match self {
            AttributeValue::Data1(n) => Some(u64::from(*n)),
            AttributeValue::Data2(n) => Some(u64::from(*n)),
            AttributeValue::Data4(n) => Some(u64::from(*n)),
            AttributeValue::Data8(n) => Some(*n),
            AttributeValue::Udata(n) => Some(*n),
            AttributeValue::Sdata(n) => u64::try_from(*n).ok(),
            _ => None,
        }
    }
}

// A number of three bytes.
fn read_u24<R: Reader>(input: &mut R) -> Result<u32, Error>
    ensures gives { Reads R.section input.old input.new result (fixed_at 3) }
    ensures refused { OnErr result (R.section input.new ≡ R.section input.old) }
{
    let bytes = input.to_slice();
    if bytes.len() < 3 {
        return Err(Error::UnexpectedEof);
    }
    let number = match input.endian() {
        RunTimeEndian::Little => LittleEndian::read_u24(bytes),
        RunTimeEndian::Big => BigEndian::read_u24(bytes),
    };
    input.skip(3)?;
    Ok(number)
}

// A number of sixteen bytes.
fn read_u128<R: Reader>(input: &mut R) -> Result<u128, Error>
    ensures gives { Reads R.section input.old input.new result (fixed_at 16) }
    ensures refused { OnErr result (R.section input.new ≡ R.section input.old) }
{
    let bytes = input.to_slice();
    if bytes.len() < 16 {
        return Err(Error::UnexpectedEof);
    }
    let number = match input.endian() {
        RunTimeEndian::Little => LittleEndian::read_u128(bytes),
        RunTimeEndian::Big => BigEndian::read_u128(bytes),
    };
    input.skip(16)?;
    Ok(number)
}

// A reference by section offset.
fn read_ref_addr<R: Reader>(input: &mut R, encoding: Encoding) -> Result<u64, Error>
    ensures gives { Reads R.section input.old input.new result (address_or_offset_at encoding) }
    ensures refused { OnErr result (R.section input.new ≡ R.section input.old) }
{
    if encoding.version == DWARF_2 {
        input.read_address(encoding.address_size)
    } else {
        input.read_offset(encoding.format)
    }
}

// A value of a form of references. Refused `UnknownForm` for another form.
fn read_reference_form<R: Reader>(
    input: &mut R,
    encoding: Encoding,
    form: DwForm,
) -> Result<AttributeValue<R>, Error>
    ensures gives { ReadsValueUnlessOom R.shares R.section input.old input.new result
        (encoded_at encoding (form_in reference_forms form.0)) }
{
    match form {
        DwForm::DW_FORM_ref1 => Ok(AttributeValue::UnitRef(UnitOffset(u64::from(
            input.read_u8()?,
        )))),
        DwForm::DW_FORM_ref2 => {
            Ok(AttributeValue::UnitRef(UnitOffset(u64::from(input.read_u16()?))))
        }
        DwForm::DW_FORM_ref4 => {
            Ok(AttributeValue::UnitRef(UnitOffset(u64::from(input.read_u32()?))))
        }
        DwForm::DW_FORM_ref8 => Ok(AttributeValue::UnitRef(UnitOffset(input.read_u64()?))),
        DwForm::DW_FORM_ref_udata => Ok(AttributeValue::UnitRef(UnitOffset(input.read_uleb128()?))),
        DwForm::DW_FORM_ref_addr => {
            Ok(AttributeValue::DebugInfoRef(DebugInfoOffset(read_ref_addr(input, encoding)?)))
        }
        DwForm::DW_FORM_ref_sup4 => {
            Ok(AttributeValue::DebugInfoRefSup(DebugInfoOffset(u64::from(input.read_u32()?))))
        }
        DwForm::DW_FORM_ref_sup8 => {
            Ok(AttributeValue::DebugInfoRefSup(DebugInfoOffset(input.read_u64()?)))
        }
        DwForm::DW_FORM_GNU_ref_alt => Ok(AttributeValue::DebugInfoRefSup(DebugInfoOffset(
            input.read_offset(encoding.format)?,
        ))),
        DwForm::DW_FORM_ref_sig8 => Ok(AttributeValue::DebugTypesRef(input.read_u64()?)),
        _ => Err(Error::UnknownForm),
    }
}

// A value of a form of strings. Another form is left to `read_reference_form`.
fn read_string_form<R: Reader>(
    input: &mut R,
    encoding: Encoding,
    form: DwForm,
) -> Result<AttributeValue<R>, Error>
    ensures gives { ReadsValueUnlessOom R.shares R.section input.old input.new result
        (encoded_at encoding (form_in forms_from_strings form.0)) }
{
    match form {
        DwForm::DW_FORM_string => Ok(AttributeValue::String(input.read_null_terminated()?)),
        DwForm::DW_FORM_strp => Ok(AttributeValue::DebugStrRef(input.read_offset(
            encoding.format,
        )?)),
        DwForm::DW_FORM_line_strp => {
            Ok(AttributeValue::DebugLineStrRef(input.read_offset(encoding.format)?))
        }
        DwForm::DW_FORM_strp_sup => {
            Ok(AttributeValue::DebugStrRefSup(input.read_offset(encoding.format)?))
        }
        DwForm::DW_FORM_GNU_strp_alt => {
            Ok(AttributeValue::DebugStrRefSup(input.read_offset(encoding.format)?))
        }
        DwForm::DW_FORM_strx => Ok(AttributeValue::DebugStrOffsetsIndex(input.read_uleb128()?)),
        DwForm::DW_FORM_GNU_str_index => {
            Ok(AttributeValue::DebugStrOffsetsIndex(input.read_uleb128()?))
        }
        DwForm::DW_FORM_strx1 => {
            Ok(AttributeValue::DebugStrOffsetsIndex(u64::from(input.read_u8()?)))
        }
        DwForm::DW_FORM_strx2 => {
            Ok(AttributeValue::DebugStrOffsetsIndex(u64::from(input.read_u16()?)))
        }
        DwForm::DW_FORM_strx3 => {
            Ok(AttributeValue::DebugStrOffsetsIndex(u64::from(read_u24(input)?)))
        }
        DwForm::DW_FORM_strx4 => {
            Ok(AttributeValue::DebugStrOffsetsIndex(u64::from(input.read_u32()?)))
        }
        _ => read_reference_form(input, encoding, form),
    }
}

// A value of a form of flags, section offsets or list indices. Another form is left to
// `read_string_form`.
fn read_flag_form<R: Reader>(
    input: &mut R,
    encoding: Encoding,
    form: DwForm,
) -> Result<AttributeValue<R>, Error>
    ensures gives { ReadsValueUnlessOom R.shares R.section input.old input.new result
        (encoded_at encoding (form_in forms_from_flags form.0)) }
{
    match form {
        DwForm::DW_FORM_flag => Ok(AttributeValue::Flag(input.read_u8()? != 0)),
        DwForm::DW_FORM_flag_present => Ok(AttributeValue::Flag(true)),
        DwForm::DW_FORM_sec_offset => {
            Ok(AttributeValue::SecOffset(input.read_offset(encoding.format)?))
        }
        DwForm::DW_FORM_loclistx => Ok(AttributeValue::DebugLocListsIndex(input.read_uleb128()?)),
        DwForm::DW_FORM_rnglistx => Ok(AttributeValue::DebugRngListsIndex(input.read_uleb128()?)),
        _ => read_string_form(input, encoding, form),
    }
}

// A value of a form of constants. Another form is left to `read_flag_form`.
fn read_constant_form<R: Reader>(
    input: &mut R,
    encoding: Encoding,
    form: DwForm,
) -> Result<AttributeValue<R>, Error>
    ensures gives { ReadsValueUnlessOom R.shares R.section input.old input.new result
        (encoded_at encoding (form_in forms_from_constants form.0)) }
{
    match form {
        DwForm::DW_FORM_data1 => Ok(AttributeValue::Data1(input.read_u8()?)),
        DwForm::DW_FORM_data2 => Ok(AttributeValue::Data2(input.read_u16()?)),
        DwForm::DW_FORM_data4 => Ok(AttributeValue::Data4(input.read_u32()?)),
        DwForm::DW_FORM_data8 => Ok(AttributeValue::Data8(input.read_u64()?)),
        DwForm::DW_FORM_data16 => Ok(AttributeValue::Data16(read_u128(input)?)),
        DwForm::DW_FORM_sdata => Ok(AttributeValue::Sdata(input.read_sleb128()?)),
        DwForm::DW_FORM_udata => Ok(AttributeValue::Udata(input.read_uleb128()?)),
        _ => read_flag_form(input, encoding, form),
    }
}

// A value of a form of blocks or expressions. Another form is left to `read_constant_form`.
fn read_block_form<R: Reader>(
    input: &mut R,
    encoding: Encoding,
    form: DwForm,
) -> Result<AttributeValue<R>, Error>
    ensures gives { ReadsValueUnlessOom R.shares R.section input.old input.new result
        (encoded_at encoding (form_in forms_from_blocks form.0)) }
{
    match form {
        DwForm::DW_FORM_block1 => {
            let len = u64::from(input.read_u8()?);
            Ok(AttributeValue::Block(input.split(len)?))
        }
        DwForm::DW_FORM_block2 => {
            let len = u64::from(input.read_u16()?);
            Ok(AttributeValue::Block(input.split(len)?))
        }
        DwForm::DW_FORM_block4 => {
            let len = u64::from(input.read_u32()?);
            Ok(AttributeValue::Block(input.split(len)?))
        }
        DwForm::DW_FORM_block => {
            let len = input.read_uleb128()?;
            Ok(AttributeValue::Block(input.split(len)?))
        }
        DwForm::DW_FORM_exprloc => {
            let len = input.read_uleb128()?;
            Ok(AttributeValue::Exprloc(input.split(len)?))
        }
        _ => read_constant_form(input, encoding, form),
    }
}

// A value of a form other than indirect and implicit_const: of a form of addresses; another form is
// left to `read_block_form`. The classes of forms have a function each, since the proof of one
// match grows faster than its arms.
#[tactic(auto, unfolding(crate::specs::FormEncoding::form_encoding_of))]
fn read_direct<R: Reader>(
    input: &mut R,
    encoding: Encoding,
    form: DwForm,
) -> Result<AttributeValue<R>, Error>
    ensures gives { ReadsValueUnlessOom R.shares R.section input.old input.new result
        (direct_at encoding form.0) }
{
    match form {
        DwForm::DW_FORM_addr => Ok(AttributeValue::Addr(input.read_address(
            encoding.address_size,
        )?)),
        DwForm::DW_FORM_addrx => Ok(AttributeValue::DebugAddrIndex(input.read_uleb128()?)),
        DwForm::DW_FORM_GNU_addr_index => Ok(AttributeValue::DebugAddrIndex(input.read_uleb128()?)),
        DwForm::DW_FORM_addrx1 => Ok(AttributeValue::DebugAddrIndex(u64::from(input.read_u8()?))),
        DwForm::DW_FORM_addrx2 => Ok(AttributeValue::DebugAddrIndex(u64::from(input.read_u16()?))),
        DwForm::DW_FORM_addrx3 => Ok(AttributeValue::DebugAddrIndex(u64::from(read_u24(input)?))),
        DwForm::DW_FORM_addrx4 => Ok(AttributeValue::DebugAddrIndex(u64::from(input.read_u32()?))),
        _ => read_block_form(input, encoding, form),
    }
}

// The form that indirections lead to.
pub(crate) fn read_form<R: Reader>(input: &mut R) -> Result<DwForm, Error>
    ensures gives { Exactly (λ f. (f.0, R.section input.new)) result
        (form_at (R.section input.old)) }
{
    let mut form = input.read_uleb128()?;
    while form == DwForm::DW_FORM_indirect.0 {
        form = input.read_uleb128()?;
    }
    Ok(DwForm(form))
}

/// Reads the value of an attribute of any form but implicit_const (DWARF 5, section 7.5.5).
///
/// Refused `UnknownForm` for another form, also after indirections, the refusals of a number of the
/// form, `UnexpectedEof` where bytes are missing, and `OutOfMemory` for a block, an expression or a
/// string at a reader that shares its bytes. After a refusal the reader may stand anywhere.
#[inline(always)]
#[tactic(auto, unfolding(crate::specs::Form::value_at))]
pub fn read_value<R: Reader>(
    input: &mut R,
    encoding: Encoding,
    form: DwForm,
) -> Result<AttributeValue<R>, Error>
    ensures gives { ReadsValueUnlessOom R.shares R.section input.old input.new result
        (value_at encoding form.0) }
{
    if form == DwForm::DW_FORM_indirect {
        let form = read_form(input)?;
        return read_direct(input, encoding, form);
    }
    read_direct(input, encoding, form)
}

/// An attribute of an entry: its name, and its value as its form alone gives it.
#[derive(Drop)]
pub struct Attribute<R: Reader> {
    name: DwAt,
    value: AttributeValue<R>,
}

impl<R: Reader> Model for Attribute<R> {
    ghost use Rattle.gimli_read.specs.Form.{NamedValue, as_value};

    ghost Value = { NamedValue };

    ghost view = { λ a. record { name = a.name; value = as_value R.section a.value } };
}

impl<R: Reader> Attribute<R> {
    /// What the attribute says. Takes no memory.
    pub fn name(&self) -> DwAt
        ensures gives { result ≡ self.now.name }
    {
        self.name
    }

    /// The value, by its form alone. Takes no memory.
    pub fn value(self) -> AttributeValue<R>
        ensures gives { as_value R.section result ≡ self.value }
    {
        self.value
    }

    /// The value of a constant that isn't negative; none for another value. Takes no memory.
    pub fn udata_value(&self) -> Option<u64>
        ensures gives { result ≡ constant_of self.now.value }
    {
        self.value.udata_value()
    }
}

/// Reads the value of an attribute by its specification (DWARF 5, section 7.5.5).
///
/// Refused `UnknownForm` for a form that isn't known, the refusals of a number of the form,
/// `UnexpectedEof` where bytes are missing, and `OutOfMemory` as `read_value` is. After a refusal
/// the reader may stand anywhere.
#[inline(always)]
#[tactic(auto, unfolding(crate::specs::Form::attribute_at))]
pub fn read_attribute<R: Reader>(
    input: &mut R,
    encoding: Encoding,
    specification: AttributeSpecification,
) -> Result<Attribute<R>, Error>
    ensures gives { ReadsUnlessOomFor R.shares gives_attribute_bytes R.section
        input.old input.new result (attribute_at encoding specification) }
{
    let name = specification.name();
    if specification.form() == DwForm::DW_FORM_implicit_const {
        return match specification.constant() {
            Some(constant) => Ok(Attribute {
                name,
                value: AttributeValue::Sdata(constant),
            }),
            None => Err(Error::UnknownForm),
        };
    }
    let value = read_value(input, encoding, specification.form())?;
    Ok(Attribute { name, value })
}
