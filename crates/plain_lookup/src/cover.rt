//! The units whose ranges hold an address or meet a range, by end, unit and begin.

use crate::index::Index;
use gimli::read::{Error, Range, Reader};
use std::alloc::Global;

impl<R: Reader> Index<R> {
    /// The ranges that meet the addresses from `low` to below `high`, with their units. The ends may
    /// be reversed.
    pub fn cover(&self, alloc: Global, low: u64, high: u64) -> Result<Vec<(usize, Range)>, Error> {
        let mut found = Vec::new(alloc);
        for (end, unit, begin) in &self.ranges {
            if low < *end && high > *begin {
                let range = Range {
                    begin: *begin,
                    end: *end,
                };
                found.push((*unit, range))?;
            }
        }
        Ok(found)
    }

    /// The units of the ranges that hold the address.
    pub fn cover_of(&self, alloc: Global, probe: u64) -> Result<Vec<usize>, Error> {
        let mut found = Vec::new(alloc);
        for (end, unit, begin) in &self.ranges {
            if *begin <= probe && probe < *end {
                found.push(*unit)?;
            }
        }
        Ok(found)
    }
}
