//! The name of a function, and its inlined functions.

use crate::index::Known;
use crate::names::{View, readable, reference_of, referred_name};
use crate::ranges::{NO_WORDS, RangeWords};
use gimli::EntriesRaw;
use gimli::read::{
    Abbreviation, Attribute, DWARF_5, DwAt, DwTag, Error, Range, Reader, UnitOffset,
};
use std::alloc::Global;

/// What the attributes of an entry say: its name, its ranges, and the file, line and column where
/// it is called.
#[derive(Drop)]
pub struct Words<R: Reader> {
    /// The name.
    pub name: Option<R>,
    /// What is said of the ranges.
    pub ranges: RangeWords,
    /// File, line and column of the call.
    pub site: [Option<u64>; 3],
}

/// An inlined function.
#[derive(Drop)]
pub struct Inlined<R: Reader> {
    /// Where its entry begins.
    pub offset: UnitOffset,
    /// How many inlined entries are around it.
    pub depth: usize,
    /// Its ranges.
    pub ranges: Vec<Range>,
    /// What its attributes say.
    pub words: Words<R>,
}

/// A function's name, and its inlined functions in the order of their entries.
#[derive(Drop)]
pub struct Detail<R: Reader> {
    /// The name.
    pub name: Option<R>,
    /// The inlined functions.
    pub inlined: Vec<Inlined<R>>,
}

impl<R: Reader> Words<R> {
    // One more attribute. A reference is followed only where no attribute before it gave a name.
    fn take<'m>(
        &mut self,
        known: Known<'m, R>,
        view: View<'m, R>,
        attribute: Attribute<R>,
    ) -> Result<(), Error> {
        match attribute.name() {
            DwAt::DW_AT_linkage_name | DwAt::DW_AT_MIPS_linkage_name => {
                if let Some(name) = readable(view.unit, attribute.value())? {
                    self.name = Some(name);
                }
            }
            DwAt::DW_AT_name if self.name.is_none() => {
                self.name = readable(view.unit, attribute.value())?;
            }
            DwAt::DW_AT_abstract_origin | DwAt::DW_AT_specification if self.name.is_none() => {
                self.name = referred_name(known, view, reference_of(attribute.value()))?;
            }
            DwAt::DW_AT_call_file => self.take_file(view, attribute.udata_value()),
            DwAt::DW_AT_call_line => self.site[1] = attribute.udata_value(),
            DwAt::DW_AT_call_column => self.site[2] = attribute.udata_value(),
            _ => self.ranges = self.ranges.with(view.unit, attribute)?,
        }
        Ok(())
    }

    // The file of the call counts if it is above 0, and always in version 5.
    fn take_file(&mut self, view: View<'_, R>, file: Option<u64>) {
        if let Some(index) = file {
            let record = view.unit;
            let unit = record.unit;
            if index > 0 || unit.header.version() == DWARF_5 {
                self.site[0] = Some(index);
            }
        }
    }
}

// What the attributes say that come next.
fn read_words<'m, R: Reader>(
    known: Known<'m, R>,
    view: View<'m, R>,
    entries: &mut EntriesRaw<'_, R>,
    abbreviation: &Abbreviation,
) -> Result<Words<R>, Error> {
    let mut words = Words {
        name: None,
        ranges: NO_WORDS,
        site: [None; 3],
    };
    for specification in abbreviation.attributes() {
        let attribute = entries.read_attribute(*specification)?;
        words.take(known, view, attribute)?;
    }
    Ok(words)
}

// Which entries are open around the next one: the depths of the inlined ones, and that of a nested
// subprogram.
#[derive(Drop)]
struct Around {
    inlined: Vec<isize>,
    nested: Option<isize>,
}

impl Around {
    // Leaves the entries that an entry of this depth isn't inside of.
    fn leave(&mut self, depth: isize) {
        self.inlined.retain(|open| *open < depth);
        if let Some(nested) = self.nested {
            if depth <= nested {
                self.nested = None;
            }
        }
    }
}

impl<R: Reader> Detail<R> {
    // The ends of the ranges of inlined functions.
    pub(crate) fn list_ends(&self, found: &mut Vec<u64>) -> Result<(), Error> {
        for inlined in &self.inlined {
            for range in &inlined.ranges {
                found.extend_from_slice(&[range.begin, range.end])?;
            }
        }
        Ok(())
    }

    // The entry at an offset, whose attributes come next.
    fn visit<'m>(
        &mut self,
        alloc: Global,
        known: Known<'m, R>,
        view: View<'m, R>,
        entries: &mut EntriesRaw<'_, R>,
        (offset, abbreviation): (UnitOffset, &Abbreviation),
        (depth, around): (isize, &mut Around),
    ) -> Result<(), Error> {
        let is_inlined = abbreviation.tag() == DwTag::DW_TAG_inlined_subroutine;
        if around.nested.is_some() || !is_inlined {
            if around.nested.is_none() && abbreviation.tag() == DwTag::DW_TAG_subprogram {
                around.nested = Some(depth);
            }
            return entries.skip_attributes(abbreviation.attributes());
        }
        let words = read_words(known, view, entries, abbreviation)?;
        let ranges = words.ranges.ranges(alloc, view.unit)?;
        self.inlined.push(Inlined {
            offset,
            depth: around.inlined.len(),
            ranges,
            words,
        })?;
        around.inlined.push(depth)?;
        Ok(())
    }
}

/// The detail of the function whose entry begins at an offset: the entry itself, and what follows
/// until the depth is back at its own, without nested subprograms.
///
/// Refused by the first fault of an entry, of a name's chain or of ranges, and `UnexpectedEof` where
/// the unit ends before.
pub fn detail_of<'m, R: Reader>(
    alloc: Global,
    known: Known<'m, R>,
    view: View<'m, R>,
    offset: UnitOffset,
) -> Result<Detail<R>, Error> {
    let mut entries = view.unit.entries_raw(Some(offset))?;
    let mut detail = Detail {
        name: None,
        inlined: Vec::new(alloc),
    };
    let mut around = Around {
        inlined: Vec::new(alloc),
        nested: None,
    };
    if let Some(abbreviation) = entries.read_abbreviation()? {
        detail.name = read_words(known, view, &mut entries, abbreviation)?.name;
    }
    for _ in 0..u64::MAX {
        let depth = entries.next_depth();
        if depth <= 0 {
            break;
        }
        let offset = entries.next_offset();
        if let Some(abbreviation) = entries.read_abbreviation()? {
            around.leave(depth);
            let entry = (offset, abbreviation);
            detail.visit(
                alloc,
                known,
                view,
                &mut entries,
                entry,
                (depth, &mut around),
            )?;
        }
    }
    Ok(detail)
}
