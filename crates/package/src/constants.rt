//! Constants of packages (DWARF 5, section 7.3.5), in the standard's spelling where it has one.

// The version of an index, of two bytes.
pub(crate) const INDEX_VERSION: u16 = 5;

// The version of an index of the GNU form, of four bytes.
pub(crate) const GNU_INDEX_VERSION: u16 = 2;

// How many bytes the header of an index has.
pub(crate) const INDEX_HEADER_SIZE: u64 = 16;

// The numbers of sections.
pub(crate) const DW_SECT_INFO: u32 = 1;

pub(crate) const DW_SECT_ABBREV: u32 = 3;

pub(crate) const DW_SECT_LINE: u32 = 4;

pub(crate) const DW_SECT_STR_OFFSETS: u32 = 6;

// In the GNU form this is the number of another section.
pub(crate) const DW_SECT_RNGLISTS: u32 = 8;
