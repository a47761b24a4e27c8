//! Constants of DWARF that units have, in the standard's spelling.

// The types of units (DWARF 5, section 7.5.1).
#[allow(non_upper_case_globals)]
pub(crate) const DW_UT_compile: u8 = 0x01;

#[allow(non_upper_case_globals)]
pub(crate) const DW_UT_type: u8 = 0x02;

#[allow(non_upper_case_globals)]
pub(crate) const DW_UT_partial: u8 = 0x03;

#[allow(non_upper_case_globals)]
pub(crate) const DW_UT_skeleton: u8 = 0x04;

#[allow(non_upper_case_globals)]
pub(crate) const DW_UT_split_compile: u8 = 0x05;

#[allow(non_upper_case_globals)]
pub(crate) const DW_UT_split_type: u8 = 0x06;

// The version of the sets of `.debug_aranges` (DWARF 5, section 6.1.2).
pub(crate) const ARANGES_VERSION: u16 = 2;

// How many bytes the header of a table of offsets of strings has in 32-bit and in 64-bit DWARF
// (DWARF 5, section 7.26).
pub(crate) const STR_OFFSETS_HEADER_32: u64 = 8;

pub(crate) const STR_OFFSETS_HEADER_64: u64 = 16;

// The same of a table of range lists (DWARF 5, section 7.28).
pub(crate) const RNGLISTS_HEADER_32: u64 = 12;

pub(crate) const RNGLISTS_HEADER_64: u64 = 20;

// The kinds of range list entries (DWARF 5, section 7.25).
#[allow(non_upper_case_globals)]
pub(crate) const DW_RLE_end_of_list: u8 = 0x00;

#[allow(non_upper_case_globals)]
pub(crate) const DW_RLE_base_addressx: u8 = 0x01;

#[allow(non_upper_case_globals)]
pub(crate) const DW_RLE_startx_endx: u8 = 0x02;

#[allow(non_upper_case_globals)]
pub(crate) const DW_RLE_startx_length: u8 = 0x03;

#[allow(non_upper_case_globals)]
pub(crate) const DW_RLE_offset_pair: u8 = 0x04;

#[allow(non_upper_case_globals)]
pub(crate) const DW_RLE_base_address: u8 = 0x05;

#[allow(non_upper_case_globals)]
pub(crate) const DW_RLE_start_end: u8 = 0x06;

#[allow(non_upper_case_globals)]
pub(crate) const DW_RLE_start_length: u8 = 0x07;
