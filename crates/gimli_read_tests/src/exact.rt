//! Callers that see exact answers, which no refused growth replaces.

ghost use Rattle.std.specs.Prelude.{◌≡◌, ◌≤◌, length};
ghost use Rattle.gimli_read.specs.Section.{first};
ghost use Rattle.gimli_read.specs.Reading.{Exactly, mapped};
ghost use Rattle.gimli_read.specs.Number.{fixed_at, split_at, null_terminated_at};
ghost use Rattle.gimli_read.specs.Form.{as_value, value_at, attribute_at};
ghost use Rattle.gimli_read.specs.declared.constants.TheConstants.DwForm.{DW_FORM_data1};
ghost use Rattle.gimli_read.specs.declared.value.AttributeValue.TheVariants.{Data1};

use gimli_read::{
    Attribute, AttributeSpecification, AttributeValue, DwForm, Encoding, EndianBytes, EndianSlice,
    Error, Reader, read_attribute, read_value,
};

/// A part of borrowed bytes. Takes no memory.
pub fn part_of<'a>(input: &mut EndianSlice<'a>, len: u64) -> Result<EndianSlice<'a>, Error>
    ensures gives { Exactly (λ r. (r, input.new)) result (split_at len input.old) }
{
    input.split(len)
}

/// The first of borrowed bytes, where there are enough. Never refused.
pub fn first_of<'a>(input: &mut EndianSlice<'a>, len: u64) -> EndianSlice<'a>
    requires enough { len ≤ length input.old.bytes }
    ensures gives { result ≡ first len input.old }
{
    match input.split(len) {
        Ok(front) => front,
        Err(_) => unreachable!(),
    }
}

/// A second reader of borrowed bytes. Never refused.
pub fn same_as<'a>(input: &EndianSlice<'a>) -> EndianSlice<'a>
    ensures gives { result ≡ input.now }
{
    match input.duplicate() {
        Ok(same) => same,
        Err(_) => unreachable!(),
    }
}

/// A text of borrowed bytes. Takes no memory.
pub fn text_of<'a>(input: &mut EndianSlice<'a>) -> Result<EndianSlice<'a>, Error>
    ensures gives { Exactly (λ r. (r, input.new)) result (null_terminated_at input.old) }
{
    input.read_null_terminated()
}

/// The value of a form in borrowed bytes. Takes no memory.
pub fn value_of<'a>(
    input: &mut EndianSlice<'a>,
    encoding: Encoding,
    form: DwForm,
) -> Result<AttributeValue<EndianSlice<'a>>, Error>
    ensures gives { Exactly (λ v. (as_value (λ r. r) v, input.new)) result
        (value_at encoding form.0 input.old) }
{
    read_value(input, encoding, form)
}

/// An attribute in borrowed bytes. Takes no memory.
pub fn attribute_of<'a>(
    input: &mut EndianSlice<'a>,
    encoding: Encoding,
    specification: AttributeSpecification,
) -> Result<Attribute<EndianSlice<'a>>, Error>
    ensures gives { Exactly (λ a. (a, input.new)) result
        (attribute_at encoding specification input.old) }
{
    read_attribute(input, encoding, specification)
}

/// A constant of one byte in shared bytes. Takes no memory.
#[tactic(auto, unfolding(gimli_read::specs::Form::value_at, gimli_read::specs::FormEncoding::form_encoding_of))]
pub fn constant_of(
    input: &mut EndianBytes,
    encoding: Encoding,
) -> Result<AttributeValue<EndianBytes>, Error>
    ensures gives { Exactly (λ v. (as_value (λ r. r) v, input.new)) result
        (mapped Data1 (fixed_at 1 input.old)) }
{
    read_value(input, encoding, DwForm::DW_FORM_data1)
}

/// All of shared bytes. Never refused, since a part that is the whole takes no memory.
pub fn all_of(input: &mut EndianBytes) -> EndianBytes
    ensures gives { result.bytes ≡ input.old.bytes }
{
    match input.split(input.len()) {
        Ok(all) => all,
        Err(_) => unreachable!(),
    }
}
