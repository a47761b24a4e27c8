//! Laws of line programs: functions with empty bodies, whose contracts say what holds of the
//! definitions.

ghost use Rattle.gimli_line.specs.FaultLaws.{ProgramsAreNotRefused};
ghost use Rattle.gimli_line.specs.Rises.{rows_before, NeverFalls, RowsRise};

use crate::program::LineRows;
use gimli_read::Reader;

/// Within a sequence the addresses of a program's rows do not fall, whatever its opcodes: a law,
/// with no code.
pub fn rows_laws()
    ensures law { RowsRise }
{}

/// No reading of a line program gives `OutOfMemory`: whatever the bytes are, it gives a value or
/// another fault, in the header and its tables, in an instruction and among the rows.
pub fn fault_laws()
    ensures law { ProgramsAreNotRefused }
{}

impl<R: Reader> LineRows<R> {
    /// Within a sequence the addresses of the rows to come do not fall: a law, with no code.
    pub fn rises(&self)
        ensures law { NeverFalls (rows_before self.now.left) }
    {
        let _ = &self.header;
    }
}
