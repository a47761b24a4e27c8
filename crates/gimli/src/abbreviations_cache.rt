//! Abbreviation tables that units share.

ghost use Rattle.std.specs.Prelude.{◌≡◌, ◌≢◌, Ok, Err, true, false, is_ok, is_some, IfOk, IfErr, IfSome, OnOk, OnErr};
ghost use Rattle.std.specs.Result.{result_map_both};
ghost use Rattle.gimli_read.specs.Costed.{ExactlyAtCost};
ghost use Rattle.gimli.specs.Common.{ExactlyUnlessOomIf, OutOfMemory};
ghost use Rattle.gimli_read.specs.Abbrev.{table_at};
ghost use Rattle.gimli.specs.Text.{from_offset};
ghost use Rattle.gimli.specs.Unit.{table_from, unit_record_of};
ghost use Rattle.gimli.specs.UnitMemory.{unit_by_at_cost};
ghost use Rattle.gimli.specs.CachedTables.{empty_cache, is_cached, StaysCached, CachesTable, as_table, room_after, cached_unit_takes_memory};

use crate::dwarf::Dwarf;
use crate::record::read_root;
use crate::text::read_from;
use crate::unit::UnitHeader;
use crate::unit_record::{Unit, complete};
use gimli_read::{Abbreviations, Error, Reader};
use std::alloc::Global;
use std::collections::BTreeMap;
use std::marker::Model;
use std::rc::Rc;

/// The abbreviation tables of a file, read when units need them.
///
/// A table, or the fault of its parse, is cached by its offset in `.debug_abbrev`, so that the
/// units of one offset share one parse. Once the cached tables have as many abbreviations and
/// attributes as the section has bytes, no more are cached: tables that don't overlap have fewer,
/// so that all of them are cached. Source: DWARF 5, section 7.5.3.
#[derive(Drop)]
pub struct AbbreviationsCache<'a, R: Reader> {
    dwarf: &'a Dwarf<R>,
    // By offset, in bytes.
    tables: BTreeMap<u64, Result<Rc<Abbreviations>, Error>>,
    // How many more abbreviations and attributes may be cached: without an end, the cache of a file
    // whose tables overlap would take memory by the square of its size.
    room: u64,
}

impl<'a, R: Reader> Model for AbbreviationsCache<'a, R> {
    ghost use Rattle.std.specs.BTreeMap.{keys};
    ghost use Rattle.gimli.specs.CachedTables.{CachedTables, AreTablesOf};

    ghost Value = { CachedTables };

    ghost view = { λ c. record { dwarf = c.dwarf.now; offsets = keys c.tables; room = c.room } };

    ghost invariant = { λ c. AreTablesOf (λ t. t.value) c.dwarf.now.debug_abbrev c.tables };
}

// A table, or the fault of its parse. Refused `OutOfMemory` alone.
fn parse_table<R: Reader>(
    alloc: Global,
    input: R,
) -> Result<Result<Rc<Abbreviations>, Error>, Error>
    ensures gives { IfOk result (λ t. table_at (R.section input) ≡ as_table (λ a. a.value) t) }
    ensures refused { IfErr result (λ e. e ≡ OutOfMemory) }
{
    match Abbreviations::parse(alloc, input) {
        Ok(table) => Ok(Ok(Rc::new(alloc, table)?)),
        Err(Error::OutOfMemory) => Err(Error::OutOfMemory),
        Err(fault) => Ok(Err(fault)),
    }
}

// The unit of a header, whose table was read.
#[tactic(auto, unfolding(crate::specs::Unit::unit_by, crate::specs::UnitMemory::stored_unit_by))]
fn read_unit<R: Reader>(
    alloc: Global,
    dwarf: &Dwarf<R>,
    header: UnitHeader<R>,
    table: &Result<Rc<Abbreviations>, Error>,
) -> Result<Unit<R>, Error>
    ensures gives { ExactlyAtCost R.shares (λ u. u) result
        (unit_by_at_cost dwarf.now header (as_table (λ a. a.value) table.now)) }
{
    let abbreviations = match table {
        Ok(abbreviations) => abbreviations,
        Err(fault) => return Err(*fault),
    };
    let root = read_root(&header, abbreviations)?;
    complete(alloc, dwarf, header, abbreviations, root)
}

// The room after a table.
fn room_after(room: u64, table: &Result<Rc<Abbreviations>, Error>) -> u64
    ensures gives { result ≡ room_after room (as_table (λ a. a.value) table.now) }
{
    let mut left = room;
    if let Ok(abbreviations) = table {
        for abbreviation in abbreviations.as_slice() {
            left = left.saturating_sub(abbreviation.attributes().len() as u64 + 1);
        }
    }
    left
}

impl<'a, R: Reader> AbbreviationsCache<'a, R> {
    /// A cache of no table. Takes no memory.
    pub fn new(alloc: Global, dwarf: &'a Dwarf<R>) -> AbbreviationsCache<'a, R>
        ensures gives { result ≡ empty_cache dwarf.now }
    {
        AbbreviationsCache {
            dwarf,
            tables: BTreeMap::new(alloc),
            room: dwarf.debug_abbrev.section.len(),
        }
    }

    // The table at an offset, or its fault, where it is cached.
    fn get(&self, offset: u64) -> Option<&Result<Rc<Abbreviations>, Error>>
        ensures found { is_some result ≡ is_cached offset self.now }
        ensures gives { IfSome result (λ t. table_from offset self.now.dwarf.debug_abbrev
            ≡ as_table (λ a. a.value) t.now) }
    {
        self.tables.get(&offset)
    }

    // Caches the table at an offset, or its fault, where there is room. Refused `OutOfMemory`
    // alone.
    fn insert(&mut self, offset: u64, table: Result<Rc<Abbreviations>, Error>) -> Result<(), Error>
        requires read { table_from offset self.old.dwarf.debug_abbrev
            ≡ as_table (λ a. a.value) table }
        ensures known { OnOk result (CachesTable offset self.old self.new) }
        ensures after { StaysCached self.old self.new }
        ensures dwarf { self.new.dwarf ≡ self.old.dwarf }
        ensures memory { OnErr result (self.new ≡ self.old) }
        ensures refused { IfErr result (λ e. e ≡ OutOfMemory) }
    {
        if self.room == 0 {
            return Ok(());
        }
        let room = room_after(self.room, &table);
        self.tables.insert(offset, table)?;
        self.room = room;
        Ok(())
    }

    /// The unit of a header of the file, as `Dwarf::unit` gives it, whose table is parsed only if
    /// it isn't cached.
    ///
    /// Refused as `Dwarf::unit` is. May fail with `OutOfMemory` instead, which is never cached:
    /// where its table isn't cached and begins in the section; with a cached table where readers
    /// share their bytes, where its record has no fault, or where the header of its line program
    /// has no fault or its tables have something to store. With a cached fault it takes no memory.
    pub fn unit(&mut self, alloc: Global, header: UnitHeader<R>) -> Result<Unit<R>, Error>
        ensures gives { ExactlyUnlessOomIf
            (cached_unit_takes_memory R.shares self.old header) (λ u. u) result
            (unit_record_of self.old.dwarf header) }
        ensures known { result ≢ Err OutOfMemory → is_ok
            (from_offset header.debug_abbrev_offset self.old.dwarf.debug_abbrev) ≡ true
            → is_cached header.debug_abbrev_offset self.old ≡ false
            → CachesTable header.debug_abbrev_offset self.old self.new }
        ensures kept { is_cached header.debug_abbrev_offset self.old ≡ true → self.new ≡ self.old }
        ensures none { is_cached header.debug_abbrev_offset self.new ≡ false
            → self.new ≡ self.old }
        ensures after { StaysCached self.old self.new }
        ensures dwarf { self.new.dwarf ≡ self.old.dwarf }
    {
        let dwarf = self.dwarf;
        let offset = header.debug_abbrev_offset;
        if let Some(table) = self.get(offset) {
            return read_unit(alloc, dwarf, header, table);
        }
        let rest = read_from(&dwarf.debug_abbrev.section, offset)?;
        let table = parse_table(alloc, rest)?;
        let unit = read_unit(alloc, dwarf, header, &table);
        self.insert(offset, table)?;
        unit
    }
}
