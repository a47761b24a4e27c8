//! The units of a supplementary file.

ghost use Rattle.std.specs.Prelude.{◌≡◌, ◌++◌, [], IfErr, IfOk, None, Ok, option_map};
ghost use Rattle.addr2line_units.specs.Common.{OutOfMemory, ExactlyAtCost, ExactlyUnlessOomIf, all_headers, sup_sections};
ghost use Rattle.addr2line_units.specs.UnitsMemory.{put_to, sup_units_at_cost, sup_unit_of_header_at_cost, units_of_at_cost};

use gimli::read::{Error, Reader};
use gimli::{
    AbbreviationsCache, DebugAbbrev, DebugAddr, DebugAranges, DebugInfo, DebugLine, DebugLineStr,
    DebugRanges, DebugRngLists, DebugStr, DebugStrOffsets, Dwarf, DwarfFileType, SupDwarf, Unit,
    UnitHeader,
};
use std::alloc::Global;

/// The units of a supplementary file, which entries of a file may refer to.
#[derive(Drop)]
pub struct SupUnits<R: Reader> {
    /// The sections of the supplementary file, if there is one.
    pub dwarf: Option<Dwarf<R>>,
    /// Its units, in the order of its `.debug_info`.
    pub units: Vec<Unit<R>>,
}

// The sections of a supplementary file as those of a file of its own. Refused `OutOfMemory` alone,
// where bytes are shared.
fn duplicate_sections<R: Reader>(sup: &SupDwarf<R>) -> Result<Dwarf<R>, Error>
    ensures gives { ExactlyUnlessOomIf R.shares (λ d. d) result (Ok (sup_sections sup.now)) }
{
    Ok(Dwarf {
        debug_abbrev: DebugAbbrev::from(sup.debug_abbrev.section.duplicate()?),
        debug_addr: DebugAddr::from(sup.debug_addr.section.duplicate()?),
        debug_aranges: DebugAranges::from(sup.debug_aranges.section.duplicate()?),
        debug_info: DebugInfo::from(sup.debug_info.section.duplicate()?),
        debug_line: DebugLine::from(sup.debug_line.section.duplicate()?),
        debug_line_str: DebugLineStr::from(sup.debug_line_str.section.duplicate()?),
        debug_ranges: DebugRanges::from(sup.debug_ranges.section.duplicate()?),
        debug_rnglists: DebugRngLists::from(sup.debug_rnglists.section.duplicate()?),
        debug_str: DebugStr::from(sup.debug_str.section.duplicate()?),
        debug_str_offsets: DebugStrOffsets::from(sup.debug_str_offsets.section.duplicate()?),
        file_type: DwarfFileType::Main,
        sup: None,
    })
}

// The unit of a header, none where its record is faulty. Refused `OutOfMemory` alone.
fn read_sup_unit<R: Reader>(
    alloc: Global,
    abbreviations: &mut AbbreviationsCache<'_, R>,
    header: UnitHeader<R>,
) -> Result<Option<Unit<R>>, Error>
    ensures gives { ExactlyAtCost R.shares (λ u. u) result
        (sup_unit_of_header_at_cost abbreviations.old.dwarf header) }
    ensures refused { IfErr result (λ e. e ≡ OutOfMemory) }
    ensures dwarf { abbreviations.new.dwarf ≡ abbreviations.old.dwarf }
{
    match abbreviations.unit(alloc, header) {
        Ok(unit) => Ok(Some(unit)),
        Err(Error::OutOfMemory) => Err(Error::OutOfMemory),
        Err(_) => Ok(None),
    }
}

// Adds the unit of a header, unless its record is faulty. Refused `OutOfMemory` alone.
fn push_sup_unit<R: Reader>(
    alloc: Global,
    abbreviations: &mut AbbreviationsCache<'_, R>,
    header: UnitHeader<R>,
    units: &mut Vec<Unit<R>>,
) -> Result<(), Error>
    ensures gives { ExactlyAtCost R.shares (λ _. units.new.items) result
        (put_to (◌++◌) units.old.items
        (sup_unit_of_header_at_cost abbreviations.old.dwarf header)) }
    ensures dwarf { abbreviations.new.dwarf ≡ abbreviations.old.dwarf }
    ensures refused { IfErr result (λ e. e ≡ OutOfMemory) }
{
    if let Some(unit) = read_sup_unit(alloc, abbreviations, header)? {
        units.push(unit)?;
    }
    Ok(())
}

// The units of a supplementary file whose record can be read.
fn read_sup_units<R: Reader>(alloc: Global, dwarf: &Dwarf<R>) -> Result<Vec<Unit<R>>, Error>
    ensures gives { ExactlyAtCost R.shares (λ v. v.items) result
        (units_of_at_cost (sup_unit_of_header_at_cost dwarf.now)
        (all_headers dwarf.now.debug_info)) }
{
    let mut headers = dwarf.units()?;
    let mut abbreviations = AbbreviationsCache::new(alloc, dwarf);
    let mut units = Vec::new(alloc);
    while let Some(header) = headers.next()? {
        push_sup_unit(alloc, &mut abbreviations, header, &mut units)?;
    }
    Ok(units)
}

impl<R: Reader> SupUnits<R> {
    /// No units. Takes no memory.
    pub fn new(alloc: Global) -> SupUnits<R>
        ensures gives { result.units.items ≡ [] }
        ensures dwarf { result.dwarf ≡ None }
    {
        SupUnits {
            dwarf: None,
            units: Vec::new(alloc),
        }
    }

    /// The units of the supplementary file, if there is one, whose record can be read.
    ///
    /// Refused by the first fault of a unit's header; may fail with `OutOfMemory` instead, where
    /// that of a unit with abbreviations can be read, a type unit too, or bytes are shared. Takes
    /// no memory where there is no supplementary file. Source: DWARF 5, sections 3.1 and 7.3.6.
    pub fn parse(alloc: Global, dwarf: &Dwarf<R>) -> Result<SupUnits<R>, Error>
        ensures gives { ExactlyAtCost R.shares (λ s. s.units.items) result
            (sup_units_at_cost dwarf.now.sup) }
        ensures dwarf { IfOk result (λ s. s.dwarf ≡ option_map sup_sections dwarf.now.sup) }
    {
        let Some(sup) = &dwarf.sup else {
            return Ok(SupUnits::new(alloc));
        };
        let dwarf = duplicate_sections(sup)?;
        let units = read_sup_units(alloc, &dwarf)?;
        Ok(SupUnits {
            dwarf: Some(dwarf),
            units,
        })
    }
}
