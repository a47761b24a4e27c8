//! What takes rows.

ghost use Rattle.std.specs.Prelude.{◌≡◌, OnOk};

use crate::row::LineRow;
use std::alloc::AllocError;

/// What takes the rows of a line program, one after another.
pub trait RowSink {
    ghost use Rattle.gimli_line.specs.declared.row.LineRow.{LineRow};

    /// What a row makes of it.
    ghost taken: { Self → LineRow → Self };

    /// Takes the next row. Fails only where a growth is refused.
    fn take(&mut self, row: LineRow) -> Result<(), AllocError>
        ensures gives { OnOk result (self.new ≡ taken self.old row) };
}
