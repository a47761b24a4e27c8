//! The units of a file, and the ranges that lead to them.

use crate::lines::lines_of;
use crate::ranges::{NO_WORDS, RangeWords};
use gimli::read::{DwAt, DwLang, Error, Range, Reader};
use gimli::{
    DebugAbbrev, DebugAddr, DebugAranges, DebugInfo, DebugInfoOffset, DebugLine, DebugLineStr,
    DebugRanges, DebugRngLists, DebugStr, DebugStrOffsets, Dwarf, DwarfFileType, SupDwarf, Unit,
    UnitHeader, UnitRef, UnitType,
};
use std::alloc::{AllocError, Global};

/// A unit that is kept, and its language.
#[derive(Drop)]
pub struct KeptUnit<R: Reader> {
    /// The unit.
    pub unit: Unit<R>,
    /// What its root says of its language.
    pub language: Option<DwLang>,
}

/// The sections of the supplementary file, and its units.
#[derive(Drop)]
pub struct SupFile<R: Reader> {
    /// The sections.
    pub sections: Dwarf<R>,
    /// The units whose records are right.
    pub units: Vec<KeptUnit<R>>,
}

/// The units of a file, the ranges of each by end, unit and begin, and the supplementary file.
#[derive(Drop)]
pub struct Index<R: Reader> {
    /// The units, by their numbers.
    pub units: Vec<KeptUnit<R>>,
    /// End, unit and begin of each range.
    pub ranges: Vec<(u64, usize, u64)>,
    /// The supplementary file.
    pub sup: Option<SupFile<R>>,
}

/// The units of a file with its sections.
pub struct Known<'m, R: Reader> {
    /// The sections.
    pub sections: &'m Dwarf<R>,
    /// The units.
    pub index: &'m Index<R>,
}

impl<R: Reader> Copy for Known<'_, R> {}

impl<R: Reader> Clone for Known<'_, R> {
    fn clone(&self) -> Result<Self, AllocError> {
        Ok(*self)
    }
}

// The ranges of all sets of `.debug_aranges`, each with its unit's offset.
fn aranges_of<R: Reader>(
    alloc: Global,
    sections: &Dwarf<R>,
) -> Result<Vec<(DebugInfoOffset, Range)>, Error> {
    let mut listed = Vec::new(alloc);
    let mut sets = sections.debug_aranges.headers();
    for _ in 0..u64::MAX {
        let Some(set) = sets.next()? else {
            break;
        };
        let offset = set.debug_info_offset();
        let mut pairs = set.entries();
        for _ in 0..u64::MAX {
            match pairs.next() {
                Some(range) => listed.push((offset, range))?,
                None => break,
            }
        }
    }
    Ok(listed)
}

// Whether a unit describes types alone.
fn is_of_types(unit_type: UnitType) -> bool {
    matches!(unit_type, UnitType::TypeUnit | UnitType::SplitType)
}

// The unit of a header; none where its record is faulty.
fn kept<R: Reader>(
    alloc: Global,
    sections: &Dwarf<R>,
    header: UnitHeader<R>,
) -> Result<Option<Unit<R>>, Error> {
    match sections.unit(alloc, header) {
        Ok(unit) => Ok(Some(unit)),
        Err(Error::OutOfMemory) => Err(Error::OutOfMemory),
        Err(_) => Ok(None),
    }
}

// What the root of a unit says of ranges, and its language.
fn read_root<R: Reader>(view: UnitRef<'_, R>) -> Result<(RangeWords, Option<DwLang>), Error> {
    let mut words = NO_WORDS;
    let mut language = None;
    let mut entries = view.entries_raw(None)?;
    if let Some(abbreviation) = entries.read_abbreviation()? {
        for specification in abbreviation.attributes() {
            let attribute = entries.read_attribute(*specification)?;
            if attribute.name() == DwAt::DW_AT_language {
                language = match attribute.udata_value() {
                    Some(number) if number <= 0xffff => Some(DwLang(number as u16)),
                    _ => language,
                };
            } else {
                words = words.with(view, attribute)?;
            }
        }
    }
    Ok((words, language))
}

// The ranges of a unit: of its list, else those that are listed for it, else of its addresses; where
// these are none, of its sequences, if its lines can be read.
fn unit_ranges<R: Reader>(
    alloc: Global,
    view: UnitRef<'_, R>,
    words: RangeWords,
    aranges: &[(DebugInfoOffset, Range)],
) -> Result<Vec<Range>, Error> {
    let mut ranges = Vec::new(alloc);
    if words.list.is_none() {
        let unit = view.unit;
        for (offset, range) in aranges {
            if *offset == unit.header.offset() {
                ranges.push(*range)?;
            }
        }
    }
    if ranges.is_empty() {
        ranges = words.ranges(alloc, view)?;
    }
    if ranges.is_empty() {
        return sequence_ranges(alloc, view);
    }
    Ok(ranges)
}

fn sequence_ranges<R: Reader>(alloc: Global, view: UnitRef<'_, R>) -> Result<Vec<Range>, Error> {
    let mut ranges = Vec::new(alloc);
    match lines_of(alloc, view.dwarf, view.unit) {
        Ok(lines) => {
            for sequence in &lines.sequences {
                ranges.push(Range {
                    begin: sequence.start,
                    end: sequence.end,
                })?;
            }
            Ok(ranges)
        }
        Err(Error::OutOfMemory) => Err(Error::OutOfMemory),
        Err(_) => Ok(ranges),
    }
}

impl<R: Reader> Index<R> {
    // One more unit, with its ranges.
    fn add(
        &mut self,
        alloc: Global,
        sections: &Dwarf<R>,
        unit: Unit<R>,
        aranges: &[(DebugInfoOffset, Range)],
    ) -> Result<(), Error> {
        let number = self.units.len();
        let mut language = None;
        if unit.header.type_() != UnitType::Partial {
            let view = UnitRef::new(sections, &unit);
            let (words, said) = read_root(view)?;
            language = said;
            for range in &unit_ranges(alloc, view, words, aranges)? {
                self.ranges.push((range.end, number, range.begin))?;
            }
        }
        self.units.push(KeptUnit { unit, language })?;
        Ok(())
    }

    fn add_units(
        &mut self,
        alloc: Global,
        sections: &Dwarf<R>,
        aranges: &[(DebugInfoOffset, Range)],
    ) -> Result<(), Error> {
        let mut headers = sections.units()?;
        for _ in 0..u64::MAX {
            let Some(header) = headers.next()? else {
                break;
            };
            if !is_of_types(header.type_()) {
                if let Some(unit) = kept(alloc, sections, header)? {
                    self.add(alloc, sections, unit, aranges)?;
                }
            }
        }
        Ok(())
    }

    /// The units of a file and their ranges.
    ///
    /// Refused by the first fault of a set's header of `.debug_aranges`, then of a unit's header or
    /// ranges, unit after unit, then of a header of the supplementary file.
    pub fn new(alloc: Global, sections: &Dwarf<R>) -> Result<Index<R>, Error> {
        let aranges = aranges_of(alloc, sections)?;
        let mut index = Index {
            units: Vec::new(alloc),
            ranges: Vec::new(alloc),
            sup: None,
        };
        index.add_units(alloc, sections, aranges.as_slice())?;
        index.ranges.sort()?;
        if let Some(sup) = &sections.sup {
            index.sup = Some(read_sup(alloc, sup)?);
        }
        Ok(index)
    }
}

// The sections of a supplementary file as those of a file.
fn sup_sections<R: Reader>(sup: &SupDwarf<R>) -> Result<Dwarf<R>, Error> {
    Ok(Dwarf {
        debug_abbrev: DebugAbbrev::from(sup.debug_abbrev.section.duplicate()?),
        debug_addr: DebugAddr::from(sup.debug_addr.section.duplicate()?),
        debug_aranges: DebugAranges::from(sup.debug_aranges.section.duplicate()?),
        debug_info: DebugInfo::from(sup.debug_info.section.duplicate()?),
        debug_line: DebugLine::from(sup.debug_line.section.duplicate()?),
        debug_line_str: DebugLineStr::from(sup.debug_line_str.section.duplicate()?),
        debug_ranges: DebugRanges::from(sup.debug_ranges.section.duplicate()?),
        debug_rnglists: DebugRngLists::from(sup.debug_rnglists.section.duplicate()?),
        debug_str: DebugStr::from(sup.debug_str.section.duplicate()?),
        debug_str_offsets: DebugStrOffsets::from(sup.debug_str_offsets.section.duplicate()?),
        file_type: DwarfFileType::Main,
        sup: None,
    })
}

// The units of a supplementary file whose records are right.
fn read_sup<R: Reader>(alloc: Global, sup: &SupDwarf<R>) -> Result<SupFile<R>, Error> {
    let sections = sup_sections(sup)?;
    let mut units = Vec::new(alloc);
    let mut headers = sections.units()?;
    for _ in 0..u64::MAX {
        let Some(header) = headers.next()? else {
            break;
        };
        if let Some(unit) = kept(alloc, &sections, header)? {
            units.push(KeptUnit {
                unit,
                language: None,
            })?;
        }
    }
    Ok(SupFile { sections, units })
}
