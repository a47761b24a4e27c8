//! All rows of a range of addresses.

use addr2line::Context;
use addr2line::gimli::read::{Error, Reader};
use std::alloc::Global;

/// A run of addresses that stand in one line: its first address, its length in bytes, the line.
#[derive(Clone, Copy, Debug, PartialEq, Eq)]
pub struct LineRun {
    pub address: u64,
    pub length: u64,
    pub line: Option<u32>,
}

/// The lines of the addresses in [low, high), row after row. The first fault of a unit's lines is
/// refused.
pub fn lines_between<R: Reader>(
    alloc: Global,
    context: &mut Context<R>,
    low: u64,
    high: u64,
) -> Result<Vec<LineRun>, Error> {
    let mut rows = context.find_location_range(low, high)?;
    let mut runs = Vec::new(alloc);
    while let Some((address, length, location)) = rows.next_loc()? {
        runs.push(LineRun {
            address,
            length,
            line: location.line,
        })?;
    }
    Ok(runs)
}
