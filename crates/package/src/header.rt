//! The header of an index, and where its tables stand (DWARF 5, section 7.3.5.3).

ghost use Rattle.std.specs.Prelude.{◌≡◌, ◌≤◌, ◌<◌, ◌+◌, ◌*◌, ◌^◌, nat_lt};
ghost use Rattle.package.specs.Common.{Exactly};
ghost use Rattle.package.specs.Index.{columns_place, index_header_at, is_slot_count, offsets_place, rows_place, sizes_place, tables_end, version_at, version_of};

use crate::constants::{GNU_INDEX_VERSION, INDEX_HEADER_SIZE, INDEX_VERSION};
use gimli_read::{EndianSlice, Error, Reader};

/// The version of an index, and how many columns, rows and slots it has.
#[derive(Clone, Copy)]
pub(crate) struct IndexHeader {
    pub(crate) version: u16,
    pub(crate) section_count: u32,
    pub(crate) unit_count: u32,
    pub(crate) slot_count: u32,
}

// The version that the first four bytes, or the first two, say.
fn version_of(word: u32, half: u16) -> Result<u16, Error>
    ensures gives { Exactly (λ version. version) result (version_of word half) }
{
    if word == u32::from(GNU_INDEX_VERSION) {
        return Ok(GNU_INDEX_VERSION);
    }
    if half == INDEX_VERSION {
        return Ok(INDEX_VERSION);
    }
    Err(Error::UnknownVersion)
}

// The version of an index.
#[tactic(auto, unfolding(crate::specs::Index::version_at))]
fn read_version<R: Reader>(section: &R) -> Result<u16, Error>
    ensures gives { Exactly (λ version. version) result (version_at (R.section section.now)) }
{
    let word = EndianSlice::new(section.to_slice(), section.endian()).read_u32()?;
    let half = EndianSlice::new(section.to_slice(), section.endian()).read_u16()?;
    version_of(word, half)
}

// Whether an index of so many units may have so many slots.
fn is_slot_count(unit_count: u32, slot_count: u32) -> bool
    ensures gives { result ≡ is_slot_count unit_count slot_count }
{
    (slot_count == 0 || slot_count.is_power_of_two()) && unit_count <= slot_count
}

/// The header of an index. Takes no memory.
///
/// Refused `UnexpectedEof`, `UnknownVersion`, and `OffsetOutOfBounds` for a number of slots that is
/// neither 0 nor a power of two, or less than that of the units.
#[tactic(auto, unfolding(crate::specs::Index::index_header_at))]
pub(crate) fn read_header<R: Reader>(section: &R) -> Result<IndexHeader, Error>
    ensures gives { Exactly (λ header. header) result (index_header_at (R.section section.now)) }
{
    let version = read_version(section)?;
    let mut counts = EndianSlice::new(section.to_slice(), section.endian());
    counts.skip(4)?;
    let section_count = counts.read_u32()?;
    let unit_count = counts.read_u32()?;
    let slot_count = counts.read_u32()?;
    if !is_slot_count(unit_count, slot_count) {
        return Err(Error::OffsetOutOfBounds);
    }
    Ok(IndexHeader {
        version,
        section_count,
        unit_count,
        slot_count,
    })
}

impl IndexHeader {
    /// Where the row numbers of the slots begin, in bytes from the start of the index.
    pub(crate) fn rows_place(self) -> u64
        ensures gives { result ≡ rows_place self }
        ensures bound { result < 2 ^ 40 }
    {
        INDEX_HEADER_SIZE + 8 * u64::from(self.slot_count)
    }

    /// Where the section numbers of the columns begin.
    pub(crate) fn columns_place(self) -> u64
        ensures gives { result ≡ columns_place self }
        ensures bound { result < 2 ^ 40 }
    {
        self.rows_place() + 4 * u64::from(self.slot_count)
    }

    /// Where the offsets begin.
    pub(crate) fn offsets_place(self) -> u64
        ensures gives { result ≡ offsets_place self }
        ensures bound { result < 2 ^ 40 }
    {
        self.columns_place() + 4 * u64::from(self.section_count)
    }

    // How many numbers the table of offsets has, and that of sizes.
    fn cells(self) -> u64
        ensures gives { result ≡ self.section_count * self.unit_count }
    {
        u64::from(self.section_count) * u64::from(self.unit_count)
    }

    /// Where the sizes begin.
    pub(crate) fn sizes_place(self) -> u64
        requires bound { tables_end self < 2 ^ 64 }
        ensures gives { result ≡ sizes_place self }
    {
        self.offsets_place() + 4 * self.cells()
    }

    /// Whether an index of so many bytes ends before its tables do.
    pub(crate) fn ends_after(self, len: u64) -> bool
        ensures gives { result ≡ nat_lt len (tables_end self) }
    {
        let front = self.offsets_place();
        if len < front {
            return true;
        }
        self.cells() > (len - front) / 8
    }

    /// Where a number stands in a table of rows that begins at a place.
    pub(crate) fn cell_place(self, table: u64, row: u32, column: u32) -> u64
        requires row { row < self.unit_count }
        requires column { column < self.section_count }
        requires bound { table + 4 * (self.section_count * self.unit_count) < 2 ^ 64 }
        ensures gives { result ≡ table + 4 * (row * self.section_count) + 4 * column }
        ensures within { result + 4 ≤ table + 4 * (self.section_count * self.unit_count) }
    {
        let cell = u64::from(row) * u64::from(self.section_count) + u64::from(column);
        table + 4 * cell
    }
}
