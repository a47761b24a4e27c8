//! A unit with the sections that it is read from.

ghost use Rattle.std.specs.Prelude.{◌≡◌, is_ok, option_map};
ghost use Rattle.gimli.specs.Common.{Exactly, ExactlyUnlessOomFor, as_value};
ghost use Rattle.gimli.specs.Text.{indexed_number, string_takes_memory};
ghost use Rattle.gimli.specs.Unit.{attr_string_of};
ghost use Rattle.gimli.specs.Entries.{entry_bytes_from};
ghost use Rattle.gimli.specs.EntryCursor.{entries_from};
ghost use Rattle.gimli.specs.Ranges.{ranges_at};
ghost use Rattle.gimli.specs.RangesOffset.{ranges_offset_of};

use crate::dwarf::Dwarf;
use crate::entries::EntriesRaw;
use crate::ranges::RngListIter;
use crate::ranges_offset::read_ranges_offset;
use crate::text::read_indexed_number;
use crate::unit::UnitHeader;
use crate::unit_record::Unit;
use gimli_read::{AttributeValue, Encoding, Error, Reader, UnitOffset};
use std::alloc::AllocError;

/// A unit with the sections of its file.
pub struct UnitRef<'a, R: Reader> {
    /// The sections.
    pub dwarf: &'a Dwarf<R>,
    /// The unit.
    pub unit: &'a Unit<R>,
}

impl<R: Reader> Copy for UnitRef<'_, R> {}

impl<R: Reader> Clone for UnitRef<'_, R> {
    fn clone(&self) -> Result<Self, AllocError> {
        Ok(*self)
    }
}

// The bytes of the entries from an offset on, or from the root entry.
fn read_entry_bytes<R: Reader>(
    header: &UnitHeader<R>,
    offset: Option<UnitOffset>,
) -> Result<R, Error>
    ensures gives { ExactlyUnlessOomFor R.shares is_ok R.section result
        (entry_bytes_from header.now (option_map (λ o. o.0) offset)) }
{
    let len = header.entries.len();
    let Some(UnitOffset(offset)) = offset else {
        return header.entries.duplicate();
    };
    if offset < header.header_length {
        return Err(Error::OffsetOutOfBounds);
    }
    let start = offset - header.header_length;
    if start >= len {
        return Err(Error::OffsetOutOfBounds);
    }
    let mut entries = header.entries.duplicate()?;
    entries.skip(start)?;
    Ok(entries)
}

impl<'a, R: Reader> UnitRef<'a, R> {
    /// The unit with its sections. Takes no memory.
    pub fn new(dwarf: &'a Dwarf<R>, unit: &'a Unit<R>) -> UnitRef<'a, R>
        ensures dwarf { result.dwarf.now ≡ dwarf.now }
        ensures unit { result.unit.now ≡ unit.now }
    {
        UnitRef { dwarf, unit }
    }

    // The sizes of the unit's values.
    pub(crate) fn encoding(&self) -> Encoding
        ensures gives { result ≡ self.now.unit.now.header.encoding }
    {
        let unit = self.unit;
        unit.header.encoding
    }

    /// The entries from an offset on, or from the root entry, at depth 0.
    ///
    /// The offset is in bytes from the start of the unit's length. Refused `OffsetOutOfBounds`
    /// where it is before the header's end or not below the unit's end; else `OutOfMemory` where
    /// bytes are shared.
    pub fn entries_raw(&self, offset: Option<UnitOffset>) -> Result<EntriesRaw<'a, R>, Error>
        ensures gives { ExactlyUnlessOomFor R.shares is_ok (λ e. e) result
            (entries_from self.now.unit.now (option_map (λ o. o.0) offset)) }
    {
        let unit = self.unit;
        let input = read_entry_bytes(&unit.header, offset)?;
        Ok(EntriesRaw::new(&unit.header, &unit.abbreviations, input))
    }

    /// The string that a value stands for, without the zero byte that ends it. Refused as
    /// `Dwarf::attr_string` is.
    pub fn attr_string(&self, value: AttributeValue<R>) -> Result<R, Error>
        ensures gives { ExactlyUnlessOomFor
            (string_takes_memory R.shares (as_value R.section value)) is_ok R.section result
            (attr_string_of self.now.dwarf.now self.now.unit.now (as_value R.section value)) }
    {
        self.dwarf.attr_string(self.unit, value)
    }

    /// The address of an index in `.debug_addr`, as the file has it. Takes no memory.
    ///
    /// Refused `OffsetOutOfBounds` where its entry isn't wholly in the section, and
    /// `UnsupportedAddressSize`.
    pub fn address(&self, index: u64) -> Result<u64, Error>
        ensures gives { Exactly (λ a. a) result
            (indexed_number self.now.unit.now.header.encoding.address_size
            self.now.unit.now.addr_base index self.now.dwarf.now.debug_addr) }
    {
        let unit = self.unit;
        let dwarf = self.dwarf;
        let size = unit.header.encoding.address_size;
        read_indexed_number(&dwarf.debug_addr.section, size, unit.addr_base, index)
    }

    /// Where the range list begins that a value of `DW_AT_ranges` stands for, in bytes from the
    /// start of the section that `ranges` reads; none for a value of another class. Takes no
    /// memory.
    ///
    /// A section offset, which in a split file below version 5 counts from the unit's
    /// `rnglists_base`; in versions 2 and 3 also data4 in 32-bit and data8 in 64-bit DWARF. Or an
    /// index in the table of offsets at `rnglists_base`, from which these count. Refused
    /// `OffsetOutOfBounds` where the index's entry isn't wholly in the section, or the offset is
    /// 2^64 or more. Source: DWARF 5, sections 2.17.3, 7.5.5 and 7.28.
    pub fn attr_ranges_offset(&self, value: AttributeValue<R>) -> Result<Option<u64>, Error>
        ensures gives { Exactly (λ n. n) result
            (ranges_offset_of self.now.dwarf.now self.now.unit.now (as_value R.section value)) }
    {
        read_ranges_offset(self.dwarf, self.unit, &value)
    }

    /// The ranges of the range list at an offset in bytes: in `.debug_ranges` below version 5, else
    /// in `.debug_rnglists`. Takes no memory.
    ///
    /// Refused `OffsetOutOfBounds` where the section ends before, and `UnsupportedAddressSize`.
    /// Source: DWARF 5, sections 2.17.3 and 7.25; DWARF 4, section 7.23.
    pub fn ranges(&self, offset: u64) -> Result<RngListIter<'a, R>, Error>
        ensures gives { Exactly (λ ranges. ranges) result
            (ranges_at self.now.dwarf.now self.now.unit.now offset) }
    {
        RngListIter::new(*self, offset)
    }
}
