//! Line programs: their headers, and the rows that they give.
#![tactic(auto)]

mod address_size;
#[allow(non_upper_case_globals)]
mod constants;
mod copies;
mod encoding;
mod entry_tables;
mod files;
mod frequent;
mod header;
mod laws;
mod opcode;
mod parameters;
mod program;
mod read;
mod registers;
mod row;
mod sink;
mod standard;
mod tables;

pub use crate::address_size::greatest_address;
pub use crate::header::{FileEntry, LineProgramHeader};
pub use crate::laws::{fault_laws, rows_laws};
pub use crate::program::{IncompleteLineProgram, LineRows};
pub use crate::read::read_line_program;
pub use crate::row::LineRow;
pub use crate::sink::RowSink;
