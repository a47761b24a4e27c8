//! The functions of a view: its subprograms with their ranges.

use crate::ranges::NO_WORDS;
use gimli::read::{Abbreviation, DwTag, Error, Range, Reader, UnitOffset};
use gimli::{EntriesRaw, UnitRef};
use std::alloc::Global;

// The ranges of the entry whose attributes come next.
fn entry_ranges<R: Reader>(
    alloc: Global,
    view: UnitRef<'_, R>,
    entries: &mut EntriesRaw<'_, R>,
    abbreviation: &Abbreviation,
) -> Result<Vec<Range>, Error> {
    let mut words = NO_WORDS;
    for specification in abbreviation.attributes() {
        let attribute = entries.read_attribute(*specification)?;
        words = words.with(view, attribute)?;
    }
    words.ranges(alloc, view)
}

/// Each subprogram of the unit with each of its ranges, in the order of the entries.
///
/// Refused by the first fault of an entry or of the ranges of a subprogram.
pub fn functions_of<R: Reader>(
    alloc: Global,
    view: UnitRef<'_, R>,
) -> Result<Vec<(UnitOffset, Range)>, Error> {
    let mut found = Vec::new(alloc);
    let mut entries = view.entries_raw(None)?;
    for _ in 0..u64::MAX {
        if entries.is_empty() {
            break;
        }
        let offset = entries.next_offset();
        if let Some(abbreviation) = entries.read_abbreviation()? {
            if abbreviation.tag() == DwTag::DW_TAG_subprogram {
                for range in &entry_ranges(alloc, view, &mut entries, abbreviation)? {
                    found.push((offset, *range))?;
                }
            } else {
                entries.skip_attributes(abbreviation.attributes())?;
            }
        }
    }
    Ok(found)
}
