//! The numbers that a line program is run by.

/// What of a header the registers of a program depend on.
#[derive(Clone, Copy)]
pub struct LineEncoding {
    /// The number of bytes of an address.
    pub address_size: u8,
    /// The number of bytes that an instruction has at least.
    pub minimum_instruction_length: u8,
    /// How many operations an instruction may have.
    pub maximum_operations_per_instruction: u8,
    /// The least line advance of a special opcode.
    pub line_base: i8,
    /// How many line advances special opcodes have.
    pub line_range: u8,
    /// The first special opcode.
    pub opcode_base: u8,
}
