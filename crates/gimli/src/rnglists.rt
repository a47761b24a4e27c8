//! The entries of range lists.

ghost use Rattle.std.specs.Prelude.{◌≡◌, true};
ghost use Rattle.gimli.specs.Common.{is_address_size, Reads};
ghost use Rattle.gimli.specs.RangeListEntries.{rnglists_fields_at, rnglists_entry_at, entry_of_pair, ranges_entry_at, range_list_entry_at};

use crate::constants::{
    DW_RLE_base_address, DW_RLE_base_addressx, DW_RLE_end_of_list, DW_RLE_offset_pair,
    DW_RLE_start_end, DW_RLE_start_length, DW_RLE_startx_endx, DW_RLE_startx_length,
};
use gimli_line::greatest_address;
use gimli_read::{DWARF_5, Encoding, EndianSlice, Error, Reader};

/// An entry of a range list, but for the list's end (DWARF 5, section 2.17.3).
#[derive(Clone, Copy)]
pub enum RangeListEntry {
    /// The base from here on, by its index in `.debug_addr`.
    BaseAddressx { index: u64 },
    /// A range between two addresses by their indexes in `.debug_addr`.
    StartxEndx { begin_index: u64, end_index: u64 },
    /// A range of this length from an address by its index in `.debug_addr`.
    StartxLength { begin_index: u64, length: u64 },
    /// A range between two offsets from the base.
    OffsetPair { begin: u64, end: u64 },
    /// The base from here on.
    BaseAddress { address: u64 },
    /// A range between two addresses.
    StartEnd { begin: u64, end: u64 },
    /// A range of this length from an address.
    StartLength { begin: u64, length: u64 },
}

// The fields of an entry of `.debug_rnglists` that has this kind.
#[tactic(auto, unfolding(crate::specs::RangeListEntries::rnglists_fields_at))]
fn read_rnglists_fields(
    size: u8,
    kind: u8,
    input: &mut EndianSlice<'_>,
) -> Result<RangeListEntry, Error>
    ensures gives { Reads (λ s. s) input.old input.new result (rnglists_fields_at size kind) }
{
    match kind {
        DW_RLE_base_addressx => {
            let index = input.read_uleb128()?;
            Ok(RangeListEntry::BaseAddressx { index })
        }
        DW_RLE_startx_endx => {
            let begin_index = input.read_uleb128()?;
            let end_index = input.read_uleb128()?;
            Ok(RangeListEntry::StartxEndx {
                begin_index,
                end_index,
            })
        }
        DW_RLE_startx_length => {
            let begin_index = input.read_uleb128()?;
            let length = input.read_uleb128()?;
            Ok(RangeListEntry::StartxLength {
                begin_index,
                length,
            })
        }
        DW_RLE_offset_pair => {
            let begin = input.read_uleb128()?;
            let end = input.read_uleb128()?;
            Ok(RangeListEntry::OffsetPair { begin, end })
        }
        DW_RLE_base_address => {
            let address = input.read_address(size)?;
            Ok(RangeListEntry::BaseAddress { address })
        }
        DW_RLE_start_end => {
            let begin = input.read_address(size)?;
            let end = input.read_address(size)?;
            Ok(RangeListEntry::StartEnd { begin, end })
        }
        DW_RLE_start_length => {
            let begin = input.read_address(size)?;
            let length = input.read_uleb128()?;
            Ok(RangeListEntry::StartLength { begin, length })
        }
        _ => Err(Error::UnknownRangeListEntry),
    }
}

// The next entry of a list of `.debug_rnglists`, none at the list's end.
#[tactic(auto, unfolding(crate::specs::RangeListEntries::rnglists_entry_at))]
fn read_rnglists_entry(
    size: u8,
    input: &mut EndianSlice<'_>,
) -> Result<Option<RangeListEntry>, Error>
    ensures gives { Reads (λ s. s) input.old input.new result (rnglists_entry_at size) }
{
    let kind = input.read_u8()?;
    if kind == DW_RLE_end_of_list {
        return Ok(None);
    }
    let entry = read_rnglists_fields(size, kind, input)?;
    Ok(Some(entry))
}

// What a pair of addresses of `.debug_ranges` is: none at the list's end.
fn entry_of_pair(size: u8, begin: u64, end: u64) -> Option<RangeListEntry>
    requires size { is_address_size size ≡ true }
    ensures gives { result ≡ entry_of_pair size begin end }
{
    if begin == 0 && end == 0 {
        return None;
    }
    if begin == greatest_address(size) {
        return Some(RangeListEntry::BaseAddress { address: end });
    }
    Some(RangeListEntry::OffsetPair { begin, end })
}

// The next entry of a list of `.debug_ranges`, none at the list's end.
#[tactic(auto, unfolding(crate::specs::RangeListEntries::ranges_entry_at))]
fn read_ranges_entry(size: u8, input: &mut EndianSlice<'_>) -> Result<Option<RangeListEntry>, Error>
    requires size { is_address_size size ≡ true }
    ensures gives { Reads (λ s. s) input.old input.new result (ranges_entry_at size) }
{
    let begin = input.read_address(size)?;
    let end = input.read_address(size)?;
    Ok(entry_of_pair(size, begin, end))
}

/// The next entry of a list, none at the list's end. After a refusal the reader may stand anywhere.
#[tactic(auto, unfolding(crate::specs::RangeListEntries::range_list_entry_at))]
pub(crate) fn read_range_list_entry(
    encoding: Encoding,
    input: &mut EndianSlice<'_>,
) -> Result<Option<RangeListEntry>, Error>
    requires size { is_address_size encoding.address_size ≡ true }
    ensures gives { Reads (λ s. s) input.old input.new result (range_list_entry_at encoding) }
{
    if encoding.version < DWARF_5 {
        read_ranges_entry(encoding.address_size, input)
    } else {
        read_rnglists_entry(encoding.address_size, input)
    }
}
