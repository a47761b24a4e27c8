//! Where the range lists of attributes begin.

ghost use Rattle.std.specs.Prelude.{◌≡◌};
ghost use Rattle.gimli.specs.Common.{as_value, Exactly};
ghost use Rattle.gimli.specs.RangesOffset.{offset_from_base, ranges_base, rnglists_offset, offset_with_base, ranges_offset_of};

use crate::dwarf::{Dwarf, DwarfFileType};
use crate::record::line_offset;
use crate::text::read_indexed_number;
use crate::unit_record::Unit;
use gimli_read::{AttributeValue, DWARF_5, Error, Reader};

// An offset that counts from a base.
fn offset_from_base(base: u64, offset: u64) -> Result<Option<u64>, Error>
    ensures gives { Exactly (λ n. n) result (offset_from_base base offset) }
{
    match base.checked_add(offset) {
        Some(sum) => Ok(Some(sum)),
        None => Err(Error::OffsetOutOfBounds),
    }
}

// Where the section offsets of a unit's range lists count from.
fn ranges_base<R: Reader>(file_type: DwarfFileType, unit: &Unit<R>) -> u64
    ensures gives { result ≡ ranges_base file_type unit.now }
{
    match file_type {
        DwarfFileType::Main => 0,
        DwarfFileType::Dwo => {
            if unit.header.encoding.version < DWARF_5 {
                unit.rnglists_base
            } else {
                0
            }
        }
    }
}

// The offset of a list by its index in the unit's table of offsets.
fn rnglists_offset<R: Reader>(
    dwarf: &Dwarf<R>,
    unit: &Unit<R>,
    index: u64,
) -> Result<Option<u64>, Error>
    ensures gives { Exactly (λ n. n) result (rnglists_offset dwarf.now unit.now index) }
{
    let size = unit.header.encoding.format.word_size();
    let base = unit.rnglists_base;
    let offset = read_indexed_number(&dwarf.debug_rnglists.section, size, base, index)?;
    offset_from_base(base, offset)
}

// A section offset, if it is one, with its base.
fn offset_with_base<R: Reader>(
    dwarf: &Dwarf<R>,
    unit: &Unit<R>,
    offset: Option<u64>,
) -> Result<Option<u64>, Error>
    ensures gives { Exactly (λ n. n) result (offset_with_base dwarf.now unit.now offset) }
{
    match offset {
        None => Ok(None),
        Some(offset) => offset_from_base(ranges_base(dwarf.file_type, unit), offset),
    }
}

/// The offset of the list that a value of DW_AT_ranges stands for, none of a value of another
/// class.
#[tactic(auto, unfolding(crate::specs::RangesOffset::ranges_offset_of))]
pub(crate) fn read_ranges_offset<R: Reader>(
    dwarf: &Dwarf<R>,
    unit: &Unit<R>,
    value: &AttributeValue<R>,
) -> Result<Option<u64>, Error>
    ensures gives { Exactly (λ n. n) result
        (ranges_offset_of dwarf.now unit.now (as_value R.section value.now)) }
{
    match value {
        AttributeValue::DebugRngListsIndex(index) => rnglists_offset(dwarf, unit, *index),
        _ => offset_with_base(dwarf, unit, line_offset(unit.header.encoding, value)),
    }
}
