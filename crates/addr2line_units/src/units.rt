//! The units of a context, and the ranges that lead to them.

ghost use Rattle.std.specs.Prelude.{◌≡◌, ◌++◌, [], ◌∷◌, IfErr, IsOk, Ok, OnOk, map, option_map};
ghost use Rattle.addr2line_units.specs.Common.{OutOfMemory, ExactlyAtCost, ExactlyUnlessOom, ExactlyUnlessOomIf, as_scope};
ghost use Rattle.addr2line_units.specs.UnitsIndexed.{appended, context_takes_memory, index_read, indexed_with, no_index, as_ranged_unit, with_header};
ghost use Rattle.addr2line_units.specs.UnitsRanged.{range_of_unit};
ghost use Rattle.addr2line_units.specs.UnitsMemory.{unit_of_header_at_cost};
ghost use Rattle.addr2line_units.specs.UnitsState.{new_units};

use crate::entries::UnitCache;
use crate::frames::FramesStop;
use crate::index::{UnitAranges, UnitRange, UnitRanges};
use crate::sup::SupUnits;
use crate::unit::{is_type_unit, lines_and_ranges, read_ranged_unit};
use addr2line_lines::{Count, FileUnits, Scope};
use gimli::read::{DwLang, Error, Range, Reader};
use gimli::{AbbreviationsCache, Dwarf, Unit, UnitHeader, UnitRef};
use std::alloc::Global;
use std::marker::Model;
use std::rc::Rc;

/// The sections of a file, its units, and those of the supplementary file: what never changes.
#[derive(Drop)]
pub(crate) struct Sources<R: Reader> {
    pub(crate) dwarf: Rc<Dwarf<R>>,
    // In the order of `.debug_info`.
    pub(crate) units: Vec<Unit<R>>,
    pub(crate) sup: SupUnits<R>,
}

impl<R: Reader> Model for Sources<R> {
    ghost use Rattle.addr2line_units.specs.Common.{IsScope, Scope};
    ghost use Rattle.addr2line_units.specs.SupScope.{scope_in};

    ghost Value = { Scope };

    ghost view = { λ s. scope_in s.dwarf.value s.units.items s.sup };

    ghost invariant = { λ s. IsScope (scope_in s.dwarf.value s.units.items s.sup) };
}

/// The units of a context, with what is cached of them.
#[derive(Drop)]
pub struct Units<R: Reader> {
    pub(crate) alloc: Global,
    pub(crate) sources: Sources<R>,
    // What is cached of each unit, in the order of the units.
    pub(crate) caches: Vec<UnitCache<R>>,
    // What the last lookup has come to, from which it is lent.
    pub(crate) stop: FramesStop,
    // How often the lines of units were looked at, for contracts alone: it has no bytes.
    pub(crate) steps: Count,
}

impl<R: Reader> Model for Units<R> {
    ghost use Rattle.addr2line_units.specs.FramesCached.{as_stop};
    ghost use Rattle.addr2line_units.specs.UnitsStored.{AreUnits, as_units_state};
    ghost use Rattle.addr2line_units.specs.UnitsState.{UnitsState};

    ghost Value = { UnitsState };

    ghost view = { λ u. as_units_state u.sources u.caches.items u.steps
        (as_stop u.caches.items u.stop) };

    ghost invariant = { λ u. AreUnits u.sources u.caches.items u.stop };
}

// The sections of a file, its units as they are read, and the ranges that lead to these.
#[derive(Drop)]
struct IndexedUnits<R: Reader> {
    dwarf: Rc<Dwarf<R>>,
    dw_units: Vec<Unit<R>>,
    caches: Vec<UnitCache<R>>,
    ranges: UnitRanges,
}

impl<R: Reader> Model for IndexedUnits<R> {
    ghost use Rattle.addr2line_units.specs.UnitsCached.{HaveNewCaches};
    ghost use Rattle.addr2line_units.specs.UnitsIndexed.{IndexState, index_state};

    ghost Value = { IndexState };

    ghost view = { λ u. index_state u.dwarf.value u.dw_units.items u.caches.items u.ranges };

    ghost invariant = { λ u. HaveNewCaches u.dwarf.value u.dw_units.items u.caches.items };
}

// Sections, and the units and ranges that were read of them so far.
#[derive(Drop)]
struct Index<'d, R: Reader> {
    dwarf: &'d Dwarf<R>,
    dw_units: Vec<Unit<R>>,
    caches: Vec<UnitCache<R>>,
    ranges: Vec<UnitRange>,
}

impl<'d, R: Reader> Model for Index<'d, R> {
    ghost use Rattle.addr2line_units.specs.UnitsCached.{HaveNewCaches};
    ghost use Rattle.addr2line_units.specs.UnitsIndexed.{IndexState, index_state};

    ghost Value = { IndexState };

    ghost view = { λ i. index_state i.dwarf.now i.dw_units.items i.caches.items i.ranges.items };

    ghost invariant = { λ i. HaveNewCaches i.dwarf.now i.dw_units.items i.caches.items };
}

// The unit of a header, its language, and its listed ranges; none where it is passed over.
#[tactic(auto, unfolding(crate::specs::UnitsRanged::unit_of_header, crate::specs::UnitsMemory::stored_unit_of_header))]
fn read_unit<R: Reader>(
    alloc: Global,
    dwarf: &Dwarf<R>,
    abbreviations: &mut AbbreviationsCache<'_, R>,
    aranges: &UnitAranges,
    header: UnitHeader<R>,
) -> Result<Option<(Unit<R>, Option<DwLang>, Vec<Range>)>, Error>
    requires same { abbreviations.old.dwarf ≡ dwarf.now }
    ensures dwarf { abbreviations.new.dwarf ≡ dwarf.now }
    ensures gives { ExactlyAtCost R.shares
        (option_map (λ x. as_ranged_unit x.0 x.1 x.2.items)) result
        (unit_of_header_at_cost dwarf.now aranges.now header) }
{
    if is_type_unit(header.type_()) {
        return Ok(None);
    }
    match abbreviations.unit(alloc, header) {
        Ok(dw_unit) => {
            let unit = UnitRef::new(dwarf, &dw_unit);
            let (lang, listed) = read_ranged_unit(alloc, unit, aranges)?;
            Ok(Some((dw_unit, lang, listed)))
        }
        Err(Error::OutOfMemory) => Err(Error::OutOfMemory),
        Err(_) => Ok(None),
    }
}

// Adds the ranges of a unit. Refused `OutOfMemory` alone.
fn push_ranges(unit_ranges: &mut Vec<UnitRange>, unit: usize, ranges: &[Range]) -> Result<(), Error>
    ensures gives { OnOk result (unit_ranges.new.items
        ≡ unit_ranges.old.items ++ map (range_of_unit unit) ranges.now) }
    ensures refused { IfErr result (λ e. e ≡ OutOfMemory) }
    ensures exact { ranges.now ≡ [] → IsOk result }
{
    for range in ranges {
        unit_ranges.push(UnitRange {
            unit,
            range: *range,
        })?;
    }
    Ok(())
}

impl<'d, R: Reader> Index<'d, R> {
    // Before the first unit. Takes no memory.
    fn new(alloc: Global, dwarf: &'d Dwarf<R>) -> Index<'d, R>
        ensures gives { result ≡ no_index dwarf.now }
    {
        Index {
            dwarf,
            dw_units: Vec::new(alloc),
            caches: Vec::new(alloc),
            ranges: Vec::new(alloc),
        }
    }

    // Adds a unit, what is cached of it from the start, and the ranges that lead to it. Refused
    // `OutOfMemory` alone.
    fn push(
        self,
        alloc: Global,
        dw_unit: Unit<R>,
        lang: Option<DwLang>,
        listed: Vec<Range>,
    ) -> Result<Index<'d, R>, Error>
        ensures gives { ExactlyUnlessOom (λ i. i) result
            (Ok (appended self.entry (as_ranged_unit dw_unit lang listed.items ∷ []))) }
    {
        let Index {
            dwarf,
            mut dw_units,
            mut caches,
            ranges: mut unit_ranges,
        } = self;
        let (lines, ranges) = lines_and_ranges(alloc, dwarf, &dw_unit, lang, listed)?;
        push_ranges(&mut unit_ranges, caches.len(), &ranges)?;
        dw_units.push(dw_unit)?;
        caches.push(UnitCache::new(lines))?;
        Ok(Index {
            dwarf,
            dw_units,
            caches,
            ranges: unit_ranges,
        })
    }

    // Adds the unit of a header, unless it is passed over.
    fn take(
        self,
        alloc: Global,
        abbreviations: &mut AbbreviationsCache<'_, R>,
        aranges: &UnitAranges,
        header: UnitHeader<R>,
    ) -> Result<Index<'d, R>, Error>
        requires same { abbreviations.old.dwarf ≡ self.sections }
        ensures gives { ExactlyAtCost R.shares (λ i. i) result
            (with_header aranges.now self.entry header) }
        ensures dwarf { abbreviations.new.dwarf ≡ self.entry.sections }
    {
        match read_unit(alloc, self.dwarf, abbreviations, aranges, header)? {
            Some((dw_unit, lang, listed)) => self.push(alloc, dw_unit, lang, listed),
            None => Ok(self),
        }
    }
}

// The units of the headers of a section, each whole before the next header.
fn read_units<'d, R: Reader>(
    alloc: Global,
    dwarf: &'d Dwarf<R>,
    aranges: &UnitAranges,
) -> Result<Index<'d, R>, Error>
    ensures gives { ExactlyAtCost R.shares (λ i. i) result (indexed_with dwarf.now aranges.now) }
{
    let mut headers = dwarf.units()?;
    let mut abbreviations = AbbreviationsCache::new(alloc, dwarf);
    let mut index = Index::new(alloc, dwarf);
    while let Some(header) = headers.next()? {
        index = index.take(alloc, &mut abbreviations, aranges, header)?;
    }
    Ok(index)
}

impl<R: Reader> IndexedUnits<R> {
    // The units of `.debug_info` that a context has, and the ranges that lead to them, as
    // `Units::parse` reads them.
    fn parse(alloc: Global, dwarf: Rc<Dwarf<R>>) -> Result<IndexedUnits<R>, Error>
        ensures gives { ExactlyAtCost R.shares (λ u. u) result (index_read dwarf.value) }
    {
        let aranges = UnitAranges::parse(alloc, &dwarf.debug_aranges)?;
        let Index {
            dwarf: _,
            dw_units,
            caches,
            ranges,
        } = read_units(alloc, &dwarf, &aranges)?;
        let ranges = UnitRanges::new(alloc, ranges)?;
        Ok(IndexedUnits {
            dwarf,
            dw_units,
            caches,
            ranges,
        })
    }
}

impl<R: Reader> Sources<R> {
    // Where references lead from the units of the file. Takes no memory.
    pub(crate) fn scope(&self) -> Scope<'_, R>
        ensures gives { as_scope result ≡ self.now }
    {
        Scope {
            file: FileUnits {
                dwarf: &self.dwarf,
                units: Some(&self.units),
            },
            sup: self.sup.file(),
        }
    }
}

impl<R: Reader> Units<R> {
    /// The units of `.debug_info` that a context has, and the ranges that lead to them.
    ///
    /// All sets of `.debug_aranges` are read first. A unit is read whole before the next header: a
    /// type unit and a unit whose record is faulty are passed over; a partial unit of version 5 has
    /// no range and no language. The line program of a unit is run here only where no range is
    /// listed for it: by its range list if it has one, else by `.debug_aranges`, else by its other
    /// attributes. The units of the supplementary file come last.
    ///
    /// Refused by the first fault of a set's header, of a unit's header, or of the range attributes
    /// or the range list of a unit whose record can be read; then by that of a header of the
    /// supplementary file. May fail with `OutOfMemory` instead where a set lists a range, up to the
    /// first fault of a set's header; and, where there is none, where bytes are shared or, up to
    /// the first fault of a unit, the header can be read of one that is no type unit and has
    /// abbreviations; and for the supplementary file, where the units have no fault. Source: DWARF
    /// 5, sections 2.17, 3.1, 6.1.2 and 7.3.6.
    pub fn parse(alloc: Global, dwarf: Rc<Dwarf<R>>) -> Result<(Units<R>, UnitRanges), Error>
        ensures gives { ExactlyUnlessOomIf (context_takes_memory R.shares dwarf.value)
            (λ x. (x.0, x.1)) result (new_units dwarf.value) }
    {
        let indexed = IndexedUnits::parse(alloc, dwarf)?;
        let sup = SupUnits::parse(alloc, &indexed.dwarf)?;
        let IndexedUnits {
            dwarf,
            dw_units,
            caches,
            ranges,
        } = indexed;
        let sources = Sources {
            dwarf,
            units: dw_units,
            sup,
        };
        let units = Units {
            alloc,
            sources,
            caches,
            stop: FramesStop::FindsNothing,
            steps: Count::new(),
        };
        Ok((units, ranges))
    }
}
