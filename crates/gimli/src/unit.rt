//! Units and what their headers say.

ghost use Rattle.std.specs.Prelude.{◌≡◌, ℕ, option_map};
ghost use Rattle.gimli.specs.Offsets.{unit_offset_of};

use gimli_read::{DebugInfoOffset, Encoding, EndianSlice, Format, Reader, UnitOffset};
use std::marker::Model;

/// What kind of unit a unit is (DWARF 5, section 7.5.1).
#[derive(Clone, Copy, Debug, PartialEq, Eq)]
pub enum UnitType {
    /// A full compilation unit; below version 5 every unit.
    Compile,
    /// A type unit.
    TypeUnit,
    /// A partial unit, which others import.
    Partial,
    /// A skeleton unit, whose entries stand in a split file.
    Skeleton,
    /// A compilation unit of a split file.
    SplitCompile,
    /// A type unit of a split file.
    SplitType,
}

/// The identifier that a skeleton unit and its split unit share.
#[derive(Clone, Copy, Debug, PartialEq, Eq)]
pub struct DwoId(pub u64);

/// The header of a unit of `.debug_info` (DWARF 5, section 7.5.1).
#[derive(Drop)]
pub struct UnitHeader<R: Reader> {
    // The sizes of the unit's values.
    pub(crate) encoding: Encoding,
    pub(crate) unit_type: UnitType,
    // Where the unit begins.
    pub(crate) offset: DebugInfoOffset,
    // Where in `.debug_abbrev` its abbreviations begin, in bytes.
    pub(crate) debug_abbrev_offset: u64,
    // Its identifier as a split unit, where the header has one.
    pub(crate) dwo_id: Option<DwoId>,
    // The number of bytes before the root entry.
    pub(crate) header_length: u64,
    pub(crate) entries: R,
}

impl<R: Reader> Model for UnitHeader<R> {
    ghost use Rattle.std.specs.Prelude.{◌<◌, ◌+◌, ◌^◌, length};
    ghost use Rattle.gimli.specs.Header.{UnitHeaderFields};

    ghost Value = { UnitHeaderFields };

    ghost view = { λ h. record {
      encoding = h.encoding;
      unit_type = h.unit_type;
      offset = h.offset;
      debug_abbrev_offset = h.debug_abbrev_offset;
      dwo_id = h.dwo_id;
      header_length = h.header_length;
      entries = R.section h.entries;
    } };

    ghost invariant = { λ h. h.header_length + length (R.section h.entries).bytes < 2 ^ 63 };
}

impl<R: Reader> UnitHeader<R> {
    // The same header over borrowed bytes. Takes no memory.
    pub(crate) fn borrowed(&self) -> UnitHeader<EndianSlice<'_>>
        ensures gives { result ≡ self.now }
    {
        UnitHeader {
            encoding: self.encoding,
            unit_type: self.unit_type,
            offset: self.offset,
            debug_abbrev_offset: self.debug_abbrev_offset,
            dwo_id: self.dwo_id,
            header_length: self.header_length,
            entries: EndianSlice::new(self.entries.to_slice(), self.entries.endian()),
        }
    }

    /// The version of DWARF, from 2 to 5. Takes no memory.
    pub fn version(&self) -> u16
        ensures gives { result ≡ self.now.encoding.version }
    {
        self.encoding.version
    }

    /// The number of bytes of an address: 1, 2, 4 or 8. Takes no memory.
    pub fn address_size(&self) -> u8
        ensures gives { result ≡ self.now.encoding.address_size }
    {
        self.encoding.address_size
    }

    /// How wide the unit's offsets are. Takes no memory.
    pub fn format(&self) -> Format
        ensures gives { result ≡ self.now.encoding.format }
    {
        self.encoding.format
    }

    /// The kind of unit; below version 5 always a compilation unit. Takes no memory.
    pub fn type_(&self) -> UnitType
        ensures gives { result ≡ self.now.unit_type }
    {
        self.unit_type
    }

    /// Where the unit begins, in bytes from the start of `.debug_info`. Takes no memory.
    pub fn offset(&self) -> DebugInfoOffset
        ensures gives { result ≡ self.now.offset }
    {
        self.offset
    }
}

/// An offset in `.debug_info`, seen from a unit. It stands in a trait since the offset itself is of
/// the crate below.
pub trait ToUnitOffset {
    /// Where in `.debug_info` this is, in bytes.
    ghost place: { Self → ℕ };

    /// The offset in the unit of a header, in bytes from the start of the unit's length; none
    /// before the header's end and from the unit's end on. Takes no memory.
    fn to_unit_offset<R: Reader>(&self, header: &UnitHeader<R>) -> Option<UnitOffset>
        ensures gives { option_map (λ n. n.0) result ≡ unit_offset_of (place self.now) header.now };
}

impl ToUnitOffset for DebugInfoOffset {
    ghost place = { λ offset. offset.0 };

    fn to_unit_offset<R: Reader>(&self, header: &UnitHeader<R>) -> Option<UnitOffset> {
        let offset = self.0.checked_sub(header.offset.0)?;
        let end = header.header_length + header.entries.len();
        if offset < header.header_length || offset >= end {
            return None;
        }
        Some(UnitOffset(offset))
    }
}
