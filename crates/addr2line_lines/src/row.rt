//! Rows, as they are stored.

ghost use Rattle.std.specs.Prelude.{◌≡◌};
ghost use Rattle.addr2line_lines.specs.LowBits.{low_bits};
ghost use Rattle.addr2line_lines.specs.Sequences.{stored_row};

use gimli_line::LineRow;

/// A row of a sequence, as it is stored.
#[derive(Clone, Copy)]
pub struct Row {
    /// The address, as the file has it.
    pub address: u64,
    /// The index of the file.
    pub file_index: u64,
    /// The low bits of the line, 0 where there is none.
    pub line: u32,
    /// The low bits of the column.
    pub column: u32,
}

/// The low 32 bits of a line or a column. Takes no memory.
pub(crate) fn low_bits(number: u64) -> u32
    ensures gives { result ≡ low_bits number }
{
    (number % (1 << 32)) as u32
}

/// A row as it is stored.
pub(crate) fn stored_row(row: &LineRow) -> Row
    ensures gives { result ≡ stored_row row.now }
{
    Row {
        address: row.address,
        file_index: row.file_index,
        line: low_bits(row.line),
        column: low_bits(row.column),
    }
}
