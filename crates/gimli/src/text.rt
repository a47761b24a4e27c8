//! Strings and addresses by offset and by index (DWARF 5, sections 7.26 and 7.27).

ghost use Rattle.std.specs.Prelude.{◌≡◌, is_ok, option_map};
ghost use Rattle.gimli.specs.Common.{Exactly, ExactlyUnlessOomFor, fault_of, as_value};
ghost use Rattle.gimli.specs.Unit.{attr_string_of};
ghost use Rattle.gimli.specs.StringPlaces.{as_string_place, string_place_of, sup_strings};
ghost use Rattle.gimli.specs.Text.{from_offset, string_at, string_length_at, indexed_number, string_of, string_takes_memory};

use crate::dwarf::Dwarf;
use crate::unit_record::Unit;
use gimli_read::{AttributeValue, EndianSlice, Error, Format, Reader};

/// A section from an offset on, in bytes.
///
/// Refused `OffsetOutOfBounds` where the section ends before, else `OutOfMemory` where bytes are
/// shared.
#[inline(always)]
pub(crate) fn read_from<R: Reader>(section: &R, offset: u64) -> Result<R, Error>
    ensures gives { ExactlyUnlessOomFor R.shares is_ok R.section result
        (from_offset offset (R.section section.now)) }
{
    if section.len() < offset {
        return Err(Error::OffsetOutOfBounds);
    }
    let mut rest = section.duplicate()?;
    rest.skip(offset)?;
    Ok(rest)
}

// The length of the string at an offset. Takes no memory.
#[tactic(auto, unfolding(crate::specs::Text::string_at))]
fn read_string_length<R: Reader>(section: &R, offset: u64) -> Result<u64, Error>
    ensures gives { Exactly (λ n. n) result
        (string_length_at offset (R.section section.now)) }
{
    let mut rest = EndianSlice::new(section.to_slice(), section.endian());
    if rest.len() < offset {
        return Err(Error::OffsetOutOfBounds);
    }
    rest.skip(offset)?;
    Ok(rest.read_null_terminated()?.len())
}

// The string at an offset. Only a string that is there takes memory.
#[tactic(auto, unfolding(crate::specs::Text::string_at))]
fn read_string_at<R: Reader>(section: &R, offset: u64) -> Result<R, Error>
    ensures gives { ExactlyUnlessOomFor R.shares is_ok R.section result
        (string_at offset (R.section section.now)) }
{
    let len = read_string_length(section, offset)?;
    let mut rest = read_from(section, offset)?;
    let string = rest.split(len)?;
    Ok(string)
}

/// The number of an index in a table of numbers of `size` bytes, which begins at `base`. Takes no
/// memory.
///
/// Refused `OffsetOutOfBounds` where the number isn't wholly in the section, and
/// `UnsupportedAddressSize` for a size other than 1, 2, 4 and 8.
#[tactic(auto, unfolding(crate::specs::Text::indexed_number))]
pub(crate) fn read_indexed_number<R: Reader>(
    section: &R,
    size: u8,
    base: u64,
    index: u64,
) -> Result<u64, Error>
    ensures gives { Exactly (λ n. n) result
        (indexed_number size base index (R.section section.now)) }
{
    let bytes = section.to_slice();
    let len = bytes.len() as u64;
    let width = u64::from(size);
    let Some(from_base) = index.checked_mul(width) else {
        return Err(Error::OffsetOutOfBounds);
    };
    let Some(offset) = base.checked_add(from_base) else {
        return Err(Error::OffsetOutOfBounds);
    };
    if offset > len || len - offset < width {
        return Err(Error::OffsetOutOfBounds);
    }
    EndianSlice::new(&bytes[offset as usize..], section.endian()).read_address(size)
}

// Where the string of a value stands: in the value itself, or in a section from an offset on.
#[derive(Drop)]
enum StringPlace<T, S> {
    InValue(S),
    InSection(T, u64),
}

// The strings of the supplementary file.
fn sup_strings<R: Reader>(dwarf: &Dwarf<R>) -> Result<&R, Error>
    ensures gives { Exactly (λ s. R.section s.now) result (sup_strings dwarf.now.sup) }
{
    match &dwarf.sup {
        Some(sup) => Ok(&sup.debug_str.section),
        None => Err(Error::NoSupplementary),
    }
}

// Where the string of a value stands. Takes no memory.
#[tactic(auto, unfolding(crate::specs::StringPlaces::string_place_of))]
fn string_place<'a, R: Reader, S: Reader>(
    dwarf: &'a Dwarf<R>,
    format: Format,
    base: u64,
    value: AttributeValue<S>,
) -> Result<StringPlace<&'a R, S>, Error>
    ensures gives { Exactly (as_string_place (λ s. R.section s.now) S.section) result
        (string_place_of dwarf.now format base (as_value S.section value)) }
{
    let (section, offset) = match value {
        AttributeValue::String(string) => return Ok(StringPlace::InValue(string)),
        AttributeValue::DebugStrRef(offset) => (&dwarf.debug_str.section, offset),
        AttributeValue::DebugLineStrRef(offset) => (&dwarf.debug_line_str.section, offset),
        AttributeValue::DebugStrRefSup(offset) => (sup_strings(dwarf)?, offset),
        AttributeValue::DebugStrOffsetsIndex(index) => {
            let offsets = &dwarf.debug_str_offsets.section;
            let offset = read_indexed_number(offsets, format.word_size(), base, index)?;
            (&dwarf.debug_str.section, offset)
        }
        _ => return Err(Error::ExpectedString),
    };
    Ok(StringPlace::InSection(section, offset))
}

/// The string that a value stands for, without the zero byte that ends it. `base` is where the
/// unit's offsets of strings begin, in bytes.
///
/// Refused `ExpectedString` for a value of no string form, `OffsetOutOfBounds`, `UnexpectedEof`
/// where no zero byte ends it, and `NoSupplementary` for a string of a supplementary file that
/// isn't there; else `OutOfMemory` where bytes are shared and the value doesn't hold the string
/// itself.
#[tactic(auto, using(crate::proofs::StringPlaces::string_there, crate::proofs::StringPlaces::string_here, crate::proofs::StringPlaces::string_unplaced, crate::proofs::StringPlaces::there_takes))]
pub(crate) fn read_string<R: Reader>(
    dwarf: &Dwarf<R>,
    format: Format,
    base: u64,
    value: AttributeValue<R>,
) -> Result<R, Error>
    ensures gives { ExactlyUnlessOomFor
        (string_takes_memory R.shares (as_value R.section value)) is_ok R.section result
        (string_of dwarf.now format base (as_value R.section value)) }
{
    match string_place(dwarf, format, base, value)? {
        StringPlace::InValue(string) => Ok(string),
        StringPlace::InSection(section, offset) => read_string_at(section, offset),
    }
}

// Refused as the string at an offset is. Takes no memory.
fn check_string_at<R: Reader>(section: &R, offset: u64) -> Result<(), Error>
    ensures gives { Exactly (λ x. x) result
        (fault_of (string_at offset (R.section section.now))) }
{
    read_string_length(section, offset)?;
    Ok(())
}

/// Refused as the string that a value stands for is (`read_string`), but that it takes no memory.
#[tactic(auto, using(crate::proofs::StringPlaces::string_there, crate::proofs::StringPlaces::string_here, crate::proofs::StringPlaces::fault_unplaced))]
pub(crate) fn check_string<R: Reader, S: Reader>(
    dwarf: &Dwarf<R>,
    format: Format,
    base: u64,
    value: AttributeValue<S>,
) -> Result<(), Error>
    ensures gives { Exactly (λ x. x) result (fault_of (string_of dwarf.now format base
        (as_value S.section value))) }
{
    match string_place(dwarf, format, base, value)? {
        StringPlace::InValue(_) => Ok(()),
        StringPlace::InSection(section, offset) => check_string_at(section, offset),
    }
}

impl<R: Reader> Dwarf<R> {
    /// The string that a value of an attribute of the unit stands for, without the zero byte that
    /// ends it.
    ///
    /// Refused `ExpectedString` for a value of no string form, `OffsetOutOfBounds`, `UnexpectedEof`
    /// where no zero byte ends it, and `NoSupplementary` for a string of a supplementary file that
    /// isn't there; else `OutOfMemory` where bytes are shared and the value doesn't hold the string
    /// itself. Source: DWARF 5, sections 7.5.5 and 7.26.
    pub fn attr_string(&self, unit: &Unit<R>, value: AttributeValue<R>) -> Result<R, Error>
        ensures gives { ExactlyUnlessOomFor
            (string_takes_memory R.shares (as_value R.section value)) is_ok R.section result
            (attr_string_of self.now unit.now (as_value R.section value)) }
    {
        read_string(
            self,
            unit.header.encoding.format,
            unit.str_offsets_base,
            value,
        )
    }
}
