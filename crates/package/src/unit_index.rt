//! The index of a package (DWARF 5, section 7.3.5.3).

ghost use Rattle.std.specs.List.{position};
ghost use Rattle.std.specs.Prelude.{◌≡◌, ◌<◌, ◌==◌, ◌^◌, length, slice_index, IfSome};
ghost use Rattle.package.specs.Common.{Exactly};
ghost use Rattle.package.specs.Index.{index_at};
ghost use Rattle.package.specs.Parts.{cell_of, part_by_number, rnglists_part_of, sections_of};
ghost use Rattle.package.specs.Search.{probe, row_by_id, step_of};

use crate::constants::{
    DW_SECT_ABBREV, DW_SECT_INFO, DW_SECT_LINE, DW_SECT_RNGLISTS, DW_SECT_STR_OFFSETS,
    INDEX_HEADER_SIZE, INDEX_VERSION,
};
use crate::header::{IndexHeader, read_header};
use crate::numbers::{long_at, word_at};
use gimli_read::{Error, Reader};
use std::marker::Model;

/// A part of a section of a package.
#[derive(Clone, Copy, Debug, PartialEq, Eq)]
pub struct SectionPart {
    /// Where it begins, in bytes from the start of the section.
    pub offset: u32,
    /// How many bytes it has.
    pub size: u32,
}

/// No part of a section.
pub(crate) const NOTHING: SectionPart = SectionPart { offset: 0, size: 0 };

/// Which parts of a package's sections belong to a unit, none of a section that it hasn't.
#[derive(Clone, Copy, Debug, PartialEq, Eq)]
pub struct UnitSections {
    /// Of `.debug_abbrev.dwo`.
    pub debug_abbrev: SectionPart,
    /// Of `.debug_info.dwo`.
    pub debug_info: SectionPart,
    /// Of `.debug_line.dwo`.
    pub debug_line: SectionPart,
    /// Of `.debug_rnglists.dwo`.
    pub debug_rnglists: SectionPart,
    /// Of `.debug_str_offsets.dwo`.
    pub debug_str_offsets: SectionPart,
}

/// The index of a package, `.debug_cu_index`: the rows of units by their identifiers, and which
/// parts of sections belong to the unit of a row.
#[derive(Drop)]
pub struct UnitIndex<R: Reader> {
    section: R,
    header: IndexHeader,
}

impl<R: Reader> Model for UnitIndex<R> {
    ghost use Rattle.std.specs.Prelude.{◌≤◌, ◌<◌, ◌^◌, length};
    ghost use Rattle.package.specs.Index.{Index, index_by_header, tables_end};

    ghost Value = { Index };

    ghost view = { λ i. index_by_header i.header (R.section i.section) };

    ghost invariant = { λ i. (tables_end i.header ≤ length (R.section i.section).bytes)
        × (tables_end i.header < 2 ^ 64) };
}

// How far the slots of an identifier are apart.
fn step_of(id: u64, slot_count: u32) -> u64
    requires some { 0 < slot_count }
    ensures gives { result ≡ step_of id slot_count }
    ensures bound { result < 2 ^ 32 }
{
    ((id >> 32) % u64::from(slot_count)) | 1
}

// The slot that is looked at for an identifier after so many others.
#[tactic(auto, unfolding(crate::specs::Search::probe))]
fn probe(id: u64, slot_count: u32, others: u32) -> u32
    requires some { 0 < slot_count }
    ensures gives { result ≡ probe id slot_count others }
    ensures within { result < slot_count }
{
    let slots = u64::from(slot_count);
    let step = step_of(id, slot_count);
    let passed = u64::from(others) * step;
    ((id % slots + passed) % slots) as u32
}

impl<R: Reader> UnitIndex<R> {
    /// The index that a section begins with. Only its header is read, and the tables are read where
    /// they are asked for. Takes no memory.
    ///
    /// Refused `UnexpectedEof` where the header or the tables aren't wholly in the section,
    /// `UnknownVersion` for a version that is neither 5 nor 2 of the GNU form, and
    /// `OffsetOutOfBounds` where the number of slots is neither 0 nor a power of two, or is less
    /// than that of the units. Source: DWARF 5, section 7.3.5.3.
    #[tactic(auto, unfolding(crate::specs::Index::index_at))]
    pub fn parse(section: R) -> Result<UnitIndex<R>, Error>
        ensures gives { Exactly (λ index. index) result (index_at (R.section section)) }
    {
        let header = read_header(&section)?;
        if header.ends_after(section.len()) {
            return Err(Error::UnexpectedEof);
        }
        Ok(UnitIndex { section, header })
    }

    /// The version: 5, or 2 of the GNU form. Takes no memory.
    pub fn version(&self) -> u16
        ensures gives { result ≡ self.now.version }
    {
        self.header.version
    }

    /// The number of columns, each for a section. Takes no memory.
    pub fn section_count(&self) -> u32
        ensures gives { result ≡ length self.now.columns }
    {
        self.header.section_count
    }

    /// The number of rows, each for a unit. Takes no memory.
    pub fn unit_count(&self) -> u32
        ensures gives { result ≡ length self.now.offsets }
        ensures rows { result ≡ length self.now.sizes }
    {
        self.header.unit_count
    }

    /// The number of slots, empty ones too. Takes no memory.
    pub fn slot_count(&self) -> u32
        ensures gives { result ≡ length self.now.ids }
        ensures rows { result ≡ length self.now.rows }
    {
        self.header.slot_count
    }

    // The identifier in a slot.
    fn id_at(&self, slot: u32) -> u64
        requires within { slot < length self.now.ids }
        ensures gives { result ≡ slice_index self.now.ids slot }
    {
        long_at(&self.section, INDEX_HEADER_SIZE + 8 * u64::from(slot))
    }

    // The row number in a slot, 0 in an empty one.
    fn row_at(&self, slot: u32) -> u32
        requires within { slot < length self.now.rows }
        ensures gives { result ≡ slice_index self.now.rows slot }
    {
        word_at(
            &self.section,
            self.header.rows_place() + 4 * u64::from(slot),
        )
    }

    /// The row of the unit that has an identifier, counted from 1, as the index has it; none where
    /// no slot has the identifier. Takes no memory.
    ///
    /// Looks at no more slots than there are. Source: DWARF 5, section 7.3.5.3.
    pub fn find(&self, id: u64) -> Option<u32>
        ensures gives { result ≡ row_by_id self.now id }
    {
        let slots = self.slot_count();
        for others in 0..slots {
            let slot = probe(id, slots, others);
            let row = self.row_at(slot);
            if row == 0 {
                return None;
            }
            let found = self.id_at(slot);
            if found == id {
                return Some(row);
            }
        }
        None
    }

    // The number of a column's section.
    fn column_at(&self, column: u32) -> u32
        requires within { column < length self.now.columns }
        ensures gives { result ≡ slice_index self.now.columns column }
    {
        word_at(
            &self.section,
            self.header.columns_place() + 4 * u64::from(column),
        )
    }

    // The first column for a section.
    fn column(&self, section: u32) -> Option<u32>
        ensures found { result ≡ position (λ n. n == section) self.now.columns }
        ensures within { IfSome result (λ column. column < length self.now.columns) }
    {
        let count = self.section_count();
        for column in 0..count {
            let number = self.column_at(column);
            if number == section {
                return Some(column);
            }
        }
        None
    }

    // Where a part begins, by its row, from 0, and its column.
    fn offset_at(&self, row: u32, column: u32) -> u32
        requires row { row < length self.now.offsets }
        requires column { column < length self.now.columns }
        ensures gives { result ≡ cell_of self.now.offsets row column }
    {
        let table = self.header.offsets_place();
        word_at(&self.section, self.header.cell_place(table, row, column))
    }

    // How many bytes a part has.
    fn size_at(&self, row: u32, column: u32) -> u32
        requires row { row < length self.now.sizes }
        requires column { column < length self.now.columns }
        ensures gives { result ≡ cell_of self.now.sizes row column }
    {
        let table = self.header.sizes_place();
        word_at(&self.section, self.header.cell_place(table, row, column))
    }

    // The part of a section that belongs to the unit of a row, from 0.
    fn part(&self, row: u32, section: u32) -> SectionPart
        requires offsets { row < length self.now.offsets }
        requires sizes { row < length self.now.sizes }
        ensures gives { result ≡ part_by_number self.now row section }
    {
        match self.column(section) {
            Some(column) => SectionPart {
                offset: self.offset_at(row, column),
                size: self.size_at(row, column),
            },
            None => NOTHING,
        }
    }

    // The part of the range lists of version 5.
    fn rnglists_part(&self, row: u32) -> SectionPart
        requires offsets { row < length self.now.offsets }
        requires sizes { row < length self.now.sizes }
        ensures gives { result ≡ rnglists_part_of self.now row }
    {
        if self.version() == INDEX_VERSION {
            self.part(row, DW_SECT_RNGLISTS)
        } else {
            NOTHING
        }
    }

    /// Which parts of sections belong to the unit of a row, counted from 1. They may lie past the
    /// ends of their sections. Takes no memory.
    ///
    /// Refused `OffsetOutOfBounds` for a row that the index hasn't. Source: DWARF 5, section
    /// 7.3.5.3.
    #[tactic(auto, unfolding(crate::specs::Parts::sections_of))]
    pub fn sections(&self, row: u32) -> Result<UnitSections, Error>
        ensures gives { Exactly (λ sections. sections) result (sections_of self.now row) }
    {
        if row == 0 || row > self.unit_count() {
            return Err(Error::OffsetOutOfBounds);
        }
        let place = row - 1;
        Ok(UnitSections {
            debug_abbrev: self.part(place, DW_SECT_ABBREV),
            debug_info: self.part(place, DW_SECT_INFO),
            debug_line: self.part(place, DW_SECT_LINE),
            debug_rnglists: self.rnglists_part(place),
            debug_str_offsets: self.part(place, DW_SECT_STR_OFFSETS),
        })
    }
}
