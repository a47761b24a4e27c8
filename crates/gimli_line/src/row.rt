//! Rows of the line table.

/// One row: from its address on, up to the next row's, the code is of this line.
#[derive(Clone, Copy, Debug, PartialEq, Eq)]
pub struct LineRow {
    /// The address, as the file has it.
    pub address: u64,
    /// The file, by its index in the header.
    pub file_index: u64,
    /// The line, counted from 1; 0 for none.
    pub line: u64,
    /// The column, counted from 1; 0 for the line's begin.
    pub column: u64,
    /// Whether it only ends a sequence; its address is the first one after the sequence.
    pub end_sequence: bool,
    /// Whether it is the end row of a discarded sequence.
    pub dropped: bool,
}
