//! The opcodes and content types of line programs (DWARF 5, section 7.22), by the names of the
//! standard, where it has one.

/// The last special opcode.
pub(crate) const LAST_SPECIAL_OPCODE: u8 = 255;

/// An extended opcode follows. The standard has no name for it.
pub(crate) const DW_LNS_extended_op: u8 = 0x00;

/// Appends a row.
pub(crate) const DW_LNS_copy: u8 = 0x01;

/// Advances by operations.
pub(crate) const DW_LNS_advance_pc: u8 = 0x02;

/// Moves the line.
pub(crate) const DW_LNS_advance_line: u8 = 0x03;

/// Sets the file.
pub(crate) const DW_LNS_set_file: u8 = 0x04;

/// Sets the column.
pub(crate) const DW_LNS_set_column: u8 = 0x05;

/// Turns the mark of statements round.
pub(crate) const DW_LNS_negate_stmt: u8 = 0x06;

/// Marks the begin of a basic block.
pub(crate) const DW_LNS_set_basic_block: u8 = 0x07;

/// Advances by the operations of the last special opcode.
pub(crate) const DW_LNS_const_add_pc: u8 = 0x08;

/// Adds bytes to the address.
pub(crate) const DW_LNS_fixed_advance_pc: u8 = 0x09;

/// Marks the end of a prologue.
pub(crate) const DW_LNS_set_prologue_end: u8 = 0x0a;

/// Marks the begin of an epilogue.
pub(crate) const DW_LNS_set_epilogue_begin: u8 = 0x0b;

/// Sets the instruction set.
pub(crate) const DW_LNS_set_isa: u8 = 0x0c;

/// Ends a sequence.
pub(crate) const DW_LNE_end_sequence: u8 = 0x01;

/// Sets the address.
pub(crate) const DW_LNE_set_address: u8 = 0x02;

/// Adds a file to the header's, in versions 2 to 4.
pub(crate) const DW_LNE_define_file: u8 = 0x03;

/// Sets the discriminator.
pub(crate) const DW_LNE_set_discriminator: u8 = 0x04;

/// The path of a directory or file.
pub(crate) const DW_LNCT_path: u64 = 0x01;

/// The directory of a file, by its index.
pub(crate) const DW_LNCT_directory_index: u64 = 0x02;
