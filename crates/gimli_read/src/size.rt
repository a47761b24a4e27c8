//! How many bytes values take whose form alone says so.

ghost use Rattle.std.specs.Prelude.{◌≡◌, ◌+◌, Some, IfSome, true};
ghost use Rattle.gimli_read.specs.FormEncoding.{form_encoding_of};
ghost use Rattle.gimli_read.specs.Number.{is_address_size};
ghost use Rattle.gimli_read.specs.ValueSize.{encoded_size, address_bytes, bytes_of, counted_bytes, no_size, is_usual, total_bytes, AddsCounted, AddsSize};

use crate::constants::{DWARF_2, DWARF_5, DwForm};
use crate::endian::{Encoding, Format};

/// What says how many bytes a value has (DWARF 5, section 7.5.6).
#[derive(Clone, Copy)]
pub enum ValueSize {
    /// The form: so many in every unit.
    Bytes(u8),
    /// The size of an address.
    Address,
    /// The width of an offset.
    Offset,
    /// In version 2 the size of an address, else the width of an offset.
    AddressOrOffset,
    /// The value itself, an unsigned LEB128 number.
    Number,
    /// An unsigned LEB128 number before it: how many bytes follow.
    Block,
    /// The zero byte that ends it.
    Text,
    /// Something else, or nothing where the form has no value of its own.
    Other,
}

// The encoding of a usual unit.
const USUAL: Encoding = Encoding {
    address_size: 8,
    format: Format::Dwarf32,
    version: DWARF_5,
};

// What says how many bytes a value of a form has. DW_FORM_implicit_const has none in an entry.
#[inline(always)]
#[tactic(auto, unfolding(crate::specs::FormEncoding::form_encoding_of))]
pub(crate) fn size_of_form(form: DwForm) -> ValueSize
    ensures gives { result ≡ encoded_size (form_encoding_of form.0) }
{
    match form {
        DwForm::DW_FORM_flag_present => ValueSize::Bytes(0),
        DwForm::DW_FORM_addrx1
        | DwForm::DW_FORM_data1
        | DwForm::DW_FORM_flag
        | DwForm::DW_FORM_strx1
        | DwForm::DW_FORM_ref1 => ValueSize::Bytes(1),
        DwForm::DW_FORM_addrx2
        | DwForm::DW_FORM_data2
        | DwForm::DW_FORM_strx2
        | DwForm::DW_FORM_ref2 => ValueSize::Bytes(2),
        DwForm::DW_FORM_addrx3 | DwForm::DW_FORM_strx3 => ValueSize::Bytes(3),
        DwForm::DW_FORM_addrx4
        | DwForm::DW_FORM_data4
        | DwForm::DW_FORM_strx4
        | DwForm::DW_FORM_ref4
        | DwForm::DW_FORM_ref_sup4 => ValueSize::Bytes(4),
        DwForm::DW_FORM_data8
        | DwForm::DW_FORM_ref8
        | DwForm::DW_FORM_ref_sup8
        | DwForm::DW_FORM_ref_sig8 => ValueSize::Bytes(8),
        DwForm::DW_FORM_data16 => ValueSize::Bytes(16),
        DwForm::DW_FORM_addr => ValueSize::Address,
        DwForm::DW_FORM_sec_offset
        | DwForm::DW_FORM_strp
        | DwForm::DW_FORM_line_strp
        | DwForm::DW_FORM_strp_sup
        | DwForm::DW_FORM_GNU_strp_alt
        | DwForm::DW_FORM_GNU_ref_alt => ValueSize::Offset,
        DwForm::DW_FORM_ref_addr => ValueSize::AddressOrOffset,
        DwForm::DW_FORM_addrx
        | DwForm::DW_FORM_GNU_addr_index
        | DwForm::DW_FORM_udata
        | DwForm::DW_FORM_loclistx
        | DwForm::DW_FORM_rnglistx
        | DwForm::DW_FORM_strx
        | DwForm::DW_FORM_GNU_str_index
        | DwForm::DW_FORM_ref_udata => ValueSize::Number,
        DwForm::DW_FORM_block | DwForm::DW_FORM_exprloc => ValueSize::Block,
        DwForm::DW_FORM_string => ValueSize::Text,
        _ => ValueSize::Other,
    }
}

/// Whether an address may have so many bytes: 1, 2, 4 or 8. Takes no memory.
pub fn is_address_size(size: u8) -> bool
    ensures gives { result ≡ is_address_size size }
{
    matches!(size, 1 | 2 | 4 | 8)
}

// The bytes of an address, none where no address has that size.
pub(crate) fn address_bytes(encoding: Encoding) -> Option<u8>
    ensures gives { result ≡ address_bytes encoding }
{
    if !is_address_size(encoding.address_size) {
        return None;
    }
    Some(encoding.address_size)
}

impl ValueSize {
    // The bytes of a value in a unit of this encoding, where its form alone says so.
    #[inline(always)]
    pub(crate) fn bytes(self, encoding: Encoding) -> Option<u8>
        ensures gives { result ≡ bytes_of encoding self }
    {
        match self {
            ValueSize::Bytes(bytes) => Some(bytes),
            ValueSize::Address => address_bytes(encoding),
            ValueSize::Offset => Some(encoding.format.word_size()),
            ValueSize::AddressOrOffset => {
                if encoding.version == DWARF_2 {
                    address_bytes(encoding)
                } else {
                    Some(encoding.format.word_size())
                }
            }
            ValueSize::Number | ValueSize::Block | ValueSize::Text | ValueSize::Other => None,
        }
    }
}

// Whether values have the sizes that they have in most units: addresses of eight bytes in 32-bit
// DWARF, past version 2.
#[inline(always)]
pub(crate) fn is_usual(encoding: Encoding) -> bool
    ensures gives { result ≡ is_usual encoding }
{
    encoding.address_size == 8 && encoding.version > DWARF_2 && encoding.format.word_size() == 4
}

// The bytes, addresses and offsets of values.
#[derive(Clone, Copy)]
struct CountedSize {
    // The bytes of the values that have as many in every unit.
    bytes: u32,
    // How many addresses there are.
    addresses: u32,
    // How many offsets.
    offsets: u32,
    // How many that are addresses in version 2, else offsets.
    addresses_or_offsets: u32,
}

impl CountedSize {
    // With one more value; none where it has no known size, and where a number gets too large.
    fn with(self, size: ValueSize) -> Option<CountedSize>
        ensures found { IfSome result (AddsCounted size self) }
    {
        let mut total = self;
        match size {
            ValueSize::Bytes(bytes) => total.bytes = total.bytes.checked_add(u32::from(bytes))?,
            ValueSize::Address => total.addresses = total.addresses.checked_add(1)?,
            ValueSize::Offset => total.offsets = total.offsets.checked_add(1)?,
            ValueSize::AddressOrOffset => {
                total.addresses_or_offsets = total.addresses_or_offsets.checked_add(1)?;
            }
            ValueSize::Number | ValueSize::Block | ValueSize::Text | ValueSize::Other => {
                return None;
            }
        }
        Some(total)
    }

    // The bytes in a unit of this encoding.
    fn bytes(self, encoding: Encoding) -> u64
        ensures gives { result ≡ counted_bytes encoding self }
    {
        let address = u64::from(encoding.address_size);
        let offset = u64::from(encoding.format.word_size());
        let either = if encoding.version == DWARF_2 {
            address
        } else {
            offset
        };
        u64::from(self.bytes)
            + u64::from(self.addresses) * address
            + u64::from(self.offsets) * offset
            + u64::from(self.addresses_or_offsets) * either
    }
}

/// How many bytes the values of an entry have together, where the forms alone say so.
#[derive(Clone, Copy)]
pub struct TotalSize {
    // In a usual unit, so that nothing has to be counted there.
    usual: u32,
    counted: CountedSize,
}

impl TotalSize {
    // Of no value.
    pub(crate) fn new() -> TotalSize
        ensures gives { result ≡ no_size }
    {
        TotalSize {
            usual: 0,
            counted: CountedSize {
                bytes: 0,
                addresses: 0,
                offsets: 0,
                addresses_or_offsets: 0,
            },
        }
    }

    // With one more value; none where it has no known size, and where a number gets too large.
    #[tactic(auto, using(crate::proofs::UsualSize::adds_size))]
    pub(crate) fn with(self, size: ValueSize) -> Option<TotalSize>
        ensures found { IfSome result (AddsSize size self) }
    {
        let more = size.bytes(USUAL)?;
        Some(TotalSize {
            usual: self.usual.checked_add(u32::from(more))?,
            counted: self.counted.with(size)?,
        })
    }

    // The bytes in a unit of this encoding.
    #[inline(always)]
    pub(crate) fn bytes(self, encoding: Encoding) -> u64
        ensures gives { result ≡ total_bytes encoding self }
    {
        if is_usual(encoding) {
            u64::from(self.usual)
        } else {
            self.counted.bytes(encoding)
        }
    }
}
