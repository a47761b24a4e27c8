//! Values of frequent forms, read as plain numbers.

ghost use Rattle.std.specs.Prelude.{◌≡◌, None, Ok};
ghost use Rattle.gimli_read.specs.Reading.{Reads};
ghost use Rattle.gimli_read.specs.NumberValue.{implicit_number, number_address, number_at, number_constant};

use crate::abbrev::AttributeSpecification;
use crate::constants::DwForm;
use crate::endian::Encoding;
use crate::error::Error;
use crate::reader::Reader;
use crate::value::UnitOffset;

/// A value that is a number.
#[derive(Clone, Copy)]
pub enum NumberValue {
    /// An address, as the file has it.
    Address(u64),
    /// A constant that isn't negative.
    Constant(u64),
    /// An entry of the same unit.
    UnitRef(UnitOffset),
}

impl NumberValue {
    /// The constant; none of another value. Takes no memory.
    #[inline(always)]
    pub fn constant(self) -> Option<u64>
        ensures gives { result ≡ number_constant self }
    {
        match self {
            NumberValue::Constant(number) => Some(number),
            _ => None,
        }
    }

    /// The address; none of another value. Takes no memory.
    #[inline(always)]
    pub fn address(self) -> Option<u64>
        ensures gives { result ≡ number_address self }
    {
        match self {
            NumberValue::Address(number) => Some(number),
            _ => None,
        }
    }
}

// An implicit constant as a number.
#[inline(always)]
fn implicit_number(constant: Option<i64>) -> Option<NumberValue>
    ensures gives { result ≡ implicit_number constant }
{
    let number = u64::try_from(constant?).ok()?;
    Some(NumberValue::Constant(number))
}

/// Reads the value of an attribute as a number, where its form is addr, data1, data2, data4, data8,
/// udata or ref4, or implicit_const with a constant that isn't negative (DWARF 5, section 7.5.5).
/// Of another form nothing is read, and the answer is none. Takes no memory.
///
/// Refused as `read_attribute` is for such a form. After a refusal the reader may stand anywhere.
#[inline(always)]
#[tactic(auto, unfolding(crate::specs::Form::attribute_at, crate::specs::Form::value_at, crate::specs::FormEncoding::form_encoding_of))]
pub fn read_number<R: Reader>(
    input: &mut R,
    encoding: Encoding,
    specification: AttributeSpecification,
) -> Result<Option<NumberValue>, Error>
    ensures gives { Reads R.section input.old input.new result
        (number_at encoding specification) }
    ensures none { result ≡ Ok None → R.section input.new ≡ R.section input.old }
{
    match specification.form() {
        DwForm::DW_FORM_addr => {
            let address = input.read_address(encoding.address_size)?;
            Ok(Some(NumberValue::Address(address)))
        }
        DwForm::DW_FORM_data1 => Ok(Some(NumberValue::Constant(u64::from(input.read_u8()?)))),
        DwForm::DW_FORM_data2 => Ok(Some(NumberValue::Constant(u64::from(input.read_u16()?)))),
        DwForm::DW_FORM_data4 => Ok(Some(NumberValue::Constant(u64::from(input.read_u32()?)))),
        DwForm::DW_FORM_data8 => Ok(Some(NumberValue::Constant(input.read_u64()?))),
        DwForm::DW_FORM_udata => Ok(Some(NumberValue::Constant(input.read_uleb128()?))),
        DwForm::DW_FORM_ref4 => {
            Ok(Some(NumberValue::UnitRef(UnitOffset(u64::from(input.read_u32()?)))))
        }
        DwForm::DW_FORM_implicit_const => Ok(implicit_number(specification.constant())),
        _ => Ok(None),
    }
}
