//! Each byte of a file changed, and each of its sections cut.

use crate::compared::{Difference, Outcome};
use crate::files::{SECTIONS, Sections, compare, tokens};
use addr2line::UnitToken;
use gimli::read::Error;
use std::alloc::{AllocError, Global};

/// How a file was changed.
#[derive(Clone, Copy, Debug)]
pub struct Change {
    /// The place of the section among `Sections`.
    pub section: usize,
    /// The place of the byte that was changed, or the number of bytes that were left.
    pub place: usize,
    /// What it was changed to; none where the section was cut.
    pub value: Option<u8>,
}

/// A changed file over which the two lookups differ.
#[derive(Debug, Drop)]
pub struct Found {
    /// The change.
    pub change: Change,
    /// Whether the bytes were shared.
    pub is_shared: bool,
    /// What differs.
    pub difference: Difference,
}

/// How many files were read, each by one of the readers, how many replies were equal, and over how
/// many files there was a difference or no memory.
#[derive(Clone, Copy, Debug, PartialEq, Eq)]
pub struct Counts {
    /// Files that were compared.
    pub files: u64,
    /// Replies that are equal.
    pub replies: u64,
    /// Files over which a reply differs.
    pub differing: u64,
    /// Files that weren't compared, since a growth was refused.
    pub refused: u64,
}

/// A file of which bytes are changed, and what the comparisons come to.
#[derive(Drop)]
pub struct Sweep {
    alloc: Global,
    sections: Sections<'static>,
    tokens: Vec<UnitToken>,
    /// How much was compared.
    pub counts: Counts,
    /// The first difference.
    pub found: Option<Found>,
}

impl Sweep {
    /// A file, of which nothing is compared yet.
    pub fn new(alloc: Global, sections: Sections<'static>) -> Result<Sweep, Error> {
        Ok(Sweep {
            alloc,
            sections,
            tokens: tokens(alloc)?,
            counts: Counts {
                files: 0,
                replies: 0,
                differing: 0,
                refused: 0,
            },
            found: None,
        })
    }

    // One more file.
    fn add(&mut self, change: Change, is_shared: bool, outcome: Outcome) {
        self.counts.files = self.counts.files.wrapping_add(1);
        match outcome {
            Outcome::Same(replies) => {
                self.counts.replies = self.counts.replies.wrapping_add(replies as u64);
            }
            Outcome::Differs(difference) => {
                self.counts.differing = self.counts.differing.wrapping_add(1);
                if self.found.is_none() {
                    self.found = Some(Found {
                        change,
                        is_shared,
                        difference,
                    });
                }
            }
            Outcome::OutOfMemory => self.counts.refused = self.counts.refused.wrapping_add(1),
        }
    }

    // The file with these bytes in the place of a section, read by both readers.
    fn compare(&mut self, bytes: &[u8], change: Change) {
        let sections = self.sections.with(change.section, bytes);
        let [borrowed, shared] = compare(self.alloc, sections, self.tokens.as_slice());
        self.add(change, false, borrowed);
        self.add(change, true, shared);
    }

    // One byte of a section changed to each of these values.
    fn change_byte(
        &mut self,
        section: usize,
        place: usize,
        values: &[u8],
    ) -> Result<(), AllocError> {
        let mut changed = self.sections.section(section).to_vec(self.alloc)?;
        for value in values {
            if let Some(byte) = changed.get_mut(place) {
                *byte = *value;
            }
            let change = Change {
                section,
                place,
                value: Some(*value),
            };
            self.compare(changed.as_slice(), change);
        }
        Ok(())
    }

    /// Compares the file with each of its bytes changed to each of these values in turn.
    pub fn change_bytes(&mut self, values: &[u8]) -> Result<(), AllocError> {
        for section in 0..SECTIONS {
            for place in 0..self.sections.section(section).len() {
                self.change_byte(section, place, values)?;
            }
        }
        Ok(())
    }

    /// Compares the file with each of its sections cut to each lesser number of bytes in turn.
    pub fn cut_sections(&mut self) {
        for section in 0..SECTIONS {
            let bytes = self.sections.section(section);
            for place in 0..bytes.len() {
                let change = Change {
                    section,
                    place,
                    value: None,
                };
                self.compare(&bytes[..place], change);
            }
        }
    }
}
