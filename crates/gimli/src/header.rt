//! Reading the headers of units.

ghost use Rattle.std.specs.Prelude.{◌<◌, ◌^◌};
ghost use Rattle.gimli.specs.Common.{Exactly, Reads, ReadsUnlessOomIf};
ghost use Rattle.gimli.specs.Header.{unit_type_at, type_fields_at};
ghost use Rattle.gimli.specs.Header.{fields_4_at, fields_5_at, header_fields_at, unit_header_at};

use crate::constants::{
    DW_UT_compile, DW_UT_partial, DW_UT_skeleton, DW_UT_split_compile, DW_UT_split_type, DW_UT_type,
};
use crate::unit::{DwoId, UnitHeader, UnitType};
use gimli_read::{
    DWARF_2, DWARF_5, DebugInfoOffset, Encoding, Error, Format, Reader, read_address_size,
    read_initial_length,
};

// A unit type.
#[tactic(auto, unfolding(crate::specs::Header::unit_type_at))]
fn read_unit_type<R: Reader>(input: &mut R) -> Result<UnitType, Error>
    ensures gives { Reads R.section input.old input.new result unit_type_at }
{
    match input.read_u8()? {
        DW_UT_compile => Ok(UnitType::Compile),
        DW_UT_type => Ok(UnitType::TypeUnit),
        DW_UT_partial => Ok(UnitType::Partial),
        DW_UT_skeleton => Ok(UnitType::Skeleton),
        DW_UT_split_compile => Ok(UnitType::SplitCompile),
        DW_UT_split_type => Ok(UnitType::SplitType),
        _ => Err(Error::UnknownUnitType),
    }
}

// The fields that only some unit types have, after those that every unit of version 5 has.
fn read_type_fields<R: Reader>(
    input: &mut R,
    format: Format,
    unit_type: UnitType,
) -> Result<Option<DwoId>, Error>
    ensures gives { Reads R.section input.old input.new result (type_fields_at format unit_type) }
{
    match unit_type {
        UnitType::Compile | UnitType::Partial => Ok(None),
        UnitType::Skeleton | UnitType::SplitCompile => Ok(Some(DwoId(input.read_u64()?))),
        UnitType::TypeUnit | UnitType::SplitType => {
            input.skip(8)?;
            input.read_offset(format)?;
            Ok(None)
        }
    }
}

// The fields after the version, of version 5, in a unit at `offset`; `unit_length`
// counts the field that gives it.
#[tactic(auto, unfolding(crate::specs::Header::fields_5_at))]
fn read_fields_5<R: Reader>(
    offset: u64,
    unit_length: u64,
    format: Format,
    mut input: R,
) -> Result<UnitHeader<R>, Error>
    requires in_range { unit_length < 2 ^ 63 }
    ensures gives { Exactly (λ h. h) result
        (fields_5_at offset unit_length format (R.section input)) }
{
    let unit_type = read_unit_type(&mut input)?;
    let address_size = read_address_size(&mut input)?;
    let debug_abbrev_offset = input.read_offset(format)?;
    let dwo_id = read_type_fields(&mut input, format, unit_type)?;
    let left = input.to_slice().len() as u64;
    Ok(UnitHeader {
        encoding: Encoding {
            address_size,
            format,
            version: DWARF_5,
        },
        unit_type,
        offset: DebugInfoOffset(offset),
        debug_abbrev_offset,
        dwo_id,
        header_length: unit_length.saturating_sub(left),
        entries: input,
    })
}

// The fields after the version, of versions 2 to 4.
#[tactic(auto, unfolding(crate::specs::Header::fields_4_at))]
fn read_fields_4<R: Reader>(
    offset: u64,
    unit_length: u64,
    format: Format,
    version: u16,
    mut input: R,
) -> Result<UnitHeader<R>, Error>
    requires in_range { unit_length < 2 ^ 63 }
    ensures gives { Exactly (λ h. h) result
        (fields_4_at offset unit_length format version (R.section input)) }
{
    let debug_abbrev_offset = input.read_offset(format)?;
    let address_size = read_address_size(&mut input)?;
    let left = input.to_slice().len() as u64;
    Ok(UnitHeader {
        encoding: Encoding {
            address_size,
            format,
            version,
        },
        unit_type: UnitType::Compile,
        offset: DebugInfoOffset(offset),
        debug_abbrev_offset,
        dwo_id: None,
        header_length: unit_length.saturating_sub(left),
        entries: input,
    })
}

// The fields after the length.
#[tactic(auto, unfolding(crate::specs::Header::header_fields_at))]
fn read_fields<R: Reader>(
    offset: u64,
    unit_length: u64,
    format: Format,
    mut input: R,
) -> Result<UnitHeader<R>, Error>
    requires in_range { unit_length < 2 ^ 63 }
    ensures gives { Exactly (λ h. h) result
        (header_fields_at offset unit_length format (R.section input)) }
{
    let version = input.read_u16()?;
    if version < DWARF_2 || version > DWARF_5 {
        return Err(Error::UnknownVersion);
    }
    if version < DWARF_5 {
        return read_fields_4(offset, unit_length, format, version, input);
    }
    read_fields_5(offset, unit_length, format, input)
}

/// The header of the unit at the front of what is left of a section of `section_length` bytes.
#[tactic(auto, unfolding(crate::specs::Header::unit_header_at))]
pub(crate) fn read_header<R: Reader>(
    section_length: u64,
    input: &mut R,
) -> Result<UnitHeader<R>, Error>
    ensures gives { ReadsUnlessOomIf R.shares R.section input.old input.new result
        (unit_header_at section_length) }
{
    let len = input.to_slice().len() as u64;
    let (length, format) = read_initial_length(input)?;
    let unit = input.split(length)?;
    let offset = section_length.saturating_sub(len);
    let unit_length = len.saturating_sub(input.len());
    read_fields(offset, unit_length, format, unit)
}
