//! The cached names of entries that are referred to.

ghost use Rattle.std.specs.Prelude.{◌≡◌, Err, IfSome, [], length, Ok, option_map, Some, take};
ghost use Rattle.addr2line_lines.specs.CachedNames.{IsKnownAs, IsOneMoreAtMost, name_at_offset, no_names, as_cached_name, as_names, as_shared};
ghost use Rattle.addr2line_lines.specs.FoundNames.{found_name};
ghost use Rattle.addr2line_lines.specs.References.{in_scope};
ghost use Rattle.addr2line_lines.specs.Scopes.{as_scope};

use crate::found_name::{FoundName, note_text};
use crate::references::{Scope, UnitSnapshot};
use gimli::Unit;
use gimli::read::{Error, Reader, UnitOffset};
use std::alloc::Global;
use std::marker::Model;
use std::rc::Rc;
use std::snapshot::Snapshot;

// The fewest slots.
const FEWEST_SLOTS: usize = 64;

// How many slots are looked at for one entry.
const MOST_STEPS: usize = 8;

// A slot of no name. Should a name have this place, the offset that stands there decides.
const NO_PLACE: u32 = u32::MAX;

// The name that an entry gives, or its fault, beside where the entry begins, in bytes from the
// start of the unit's length. So each takes sixteen bytes; an entry past 4 GB of its unit has none.
#[derive(Drop)]
enum CachedName<R: Reader> {
    Named { offset: u32, name: Rc<Option<R>> },
    Faulty { offset: u32, error: Box<Error> },
}

/// The names that entries of a unit give where they are referred to, or their faults, in the order
/// in which they were found.
#[derive(Drop)]
pub(crate) struct NameCache<R: Reader> {
    alloc: Global,
    names: Vec<CachedName<R>>,
    // Where the name of an entry may stand among them, by its offset. A slot may say anything: the
    // offset that stands there decides.
    slots: Vec<u32>,
}

// A name once more, none where it is shared as often as can be counted.
fn share_name<R: Reader>(name: &Rc<Option<R>>) -> Option<Rc<Option<R>>>
    ensures gives { IfSome result (λ shared. shared.value ≡ name.now.value) }
{
    match name.clone() {
        Ok(name) => Some(name),
        Err(_) => None,
    }
}

impl<R: Reader> CachedName<R> {
    // Where the entry begins.
    fn offset(&self) -> UnitOffset
        ensures gives { result ≡ (as_cached_name R.section self.now).offset }
    {
        match self {
            CachedName::Named { offset, name: _ } => UnitOffset(u64::from(*offset)),
            CachedName::Faulty { offset, error: _ } => UnitOffset(u64::from(*offset)),
        }
    }

    // The name once more, none where it is shared as often as can be counted, or the fault again.
    fn share(&self) -> Option<Result<Rc<Option<R>>, Error>>
        ensures gives { IfSome result (λ shared. as_shared R.section shared
            ≡ (as_cached_name R.section self.now).name) }
    {
        match self {
            CachedName::Named { offset: _, name } => Some(Ok(share_name(name)?)),
            CachedName::Faulty { offset: _, error } => Some(Err(**error)),
        }
    }
}

// The slot that is looked at first is this one, but for its bits past those of the last slot.
fn first_slot(offset: UnitOffset) -> usize {
    (offset.0.wrapping_mul(0x9e37_79b9_7f4a_7c15) >> 32) as usize
}

// Sets a slot for a name: the first that is free, or the last that is looked at. One of no name is
// free, and one that says this place or a later one, whose name was dropped.
fn set_slot(slots: &mut Vec<u32>, offset: UnitOffset, place: usize) {
    let Ok(place) = u32::try_from(place) else {
        return;
    };
    let last = slots.len().wrapping_sub(1);
    let first = first_slot(offset);
    for step in 0..MOST_STEPS {
        let Some(slot) = slots.get_mut(first.wrapping_add(step) & last) else {
            return;
        };
        if *slot >= place || step + 1 == MOST_STEPS {
            *slot = place;
            return;
        }
    }
}

// Makes room for more slots, if there are at most two for each name, and sets them anew. Where
// memory is refused there are none, or few, until some more names are added, and most names are
// looked up again until then.
fn make_slots<R: Reader>(names: &[CachedName<R>], slots: &mut Vec<u32>) {
    if slots.len() / 2 > names.len() {
        return;
    }
    let more = slots.len().saturating_mul(2).max(FEWEST_SLOTS);
    slots.clear();
    if slots.resize(more, NO_PLACE).is_err() {
        return;
    }
    for (place, name) in names.iter().enumerate() {
        set_slot(slots, name.offset(), place);
    }
}

impl<R: Reader> NameCache<R> {
    /// That of no name. Takes no memory.
    pub(crate) fn new(alloc: Global) -> NameCache<R>
        ensures gives { as_names R.section result ≡ [] }
    {
        NameCache {
            alloc,
            names: Vec::new(alloc),
            slots: Vec::new(alloc),
        }
    }

    /// The number of names and faults. Takes no memory.
    pub(crate) fn len(&self) -> usize
        ensures gives { result ≡ length (as_names R.section self.now) }
    {
        self.names.len()
    }

    /// Keeps so many of them, the first ones. Takes no memory.
    pub(crate) fn truncate(&mut self, names: usize)
        ensures gives { as_names R.section self.new
            ≡ take names (as_names R.section self.old) }
    {
        self.names.truncate(names);
    }

    /// The name of an entry, or its fault, if it is found in the cache; `None` says nothing of the
    /// entry. Takes no memory.
    pub(crate) fn find(&self, offset: UnitOffset) -> Option<Result<Rc<Option<R>>, Error>>
        ensures found { IfSome result (λ name. IsKnownAs offset (as_shared R.section name)
            (as_names R.section self.now)) }
    {
        let last = self.slots.len().wrapping_sub(1);
        let first = first_slot(offset);
        for step in 0..MOST_STEPS {
            let place = self.slots.get(first.wrapping_add(step) & last)?;
            let cached = self.names.get(*place as usize)?;
            if cached.offset() == offset {
                return cached.share();
            }
        }
        None
    }

    // Adds the name of an entry, or its fault, or nothing where memory is refused.
    fn push(&mut self, cached: CachedName<R>)
        ensures after { IsOneMoreAtMost (as_cached_name R.section cached)
            (as_names R.section self.old) (as_names R.section self.new) }
    {
        let place = self.names.len();
        let offset = cached.offset();
        match self.names.push(cached) {
            Ok(()) => {
                make_slots(&self.names, &mut self.slots);
                set_slot(&mut self.slots, offset, place);
            }
            Err(_) => {}
        }
    }

    // Adds the name of an entry that others share, or nothing where it can't be shared once more,
    // or the entry begins past 4 GB.
    fn push_shared(&mut self, offset: UnitOffset, name: &Rc<Option<R>>)
        ensures after { IsOneMoreAtMost
            (name_at_offset offset (Ok (option_map R.section name.now.value)))
            (as_names R.section self.old) (as_names R.section self.new) }
    {
        let Ok(offset) = u32::try_from(offset.0) else {
            return;
        };
        match share_name(name) {
            Some(name) => self.push(CachedName::Named { offset, name }),
            None => {}
        }
    }

    /// Adds the name of an entry, or nothing where memory is refused, the name can't be shared once
    /// more or the entry begins past 4 GB, and gives it back.
    pub(crate) fn add(&mut self, offset: UnitOffset, name: Option<R>) -> FoundName<R>
        ensures gives { found_name R.section result ≡ option_map R.section name }
        ensures after { IsOneMoreAtMost (name_at_offset offset (Ok (option_map R.section name)))
            (as_names R.section self.old) (as_names R.section self.new) }
    {
        match Rc::new(self.alloc, note_text(name)) {
            Ok(name) => {
                self.push_shared(offset, &name);
                FoundName::Shared(name)
            }
            Err(refused) => FoundName::Own(refused.value),
        }
    }

    /// Adds the fault of an entry's name, or nothing where memory is refused or the entry begins
    /// past 4 GB.
    pub(crate) fn add_fault(&mut self, offset: UnitOffset, error: Error)
        ensures after { IsOneMoreAtMost (name_at_offset offset (Err error))
            (as_names R.section self.old) (as_names R.section self.new) }
    {
        let Ok(offset) = u32::try_from(offset.0) else {
            return;
        };
        match Box::new(self.alloc, error) {
            Ok(error) => self.push(CachedName::Faulty { offset, error }),
            Err(_) => {}
        }
    }
}

/// The names that entries of a unit give where they are referred to, or their faults, each read
/// when it is first asked for.
#[derive(Drop)]
pub(crate) struct UnitNames<R: Reader> {
    pub(crate) cached: NameCache<R>,
    // The unit and where its references lead, for contracts alone: it has no bytes.
    unit: Snapshot<UnitSnapshot<R>>,
}

impl<R: Reader> Model for UnitNames<R> {
    ghost use Rattle.std.specs.Prelude.{Some};
    ghost use Rattle.addr2line_lines.specs.CachedNames.{AreNamesOf, KnownNames, as_names};
    ghost use Rattle.addr2line_lines.specs.Scopes.{snapshot_unit};

    ghost Value = { KnownNames };

    ghost view = { λ n. record {
      unit = Some (snapshot_unit n.unit.value);
      names = as_names R.section n.cached;
    } };

    ghost invariant = { λ n.
        AreNamesOf (snapshot_unit n.unit.value) (as_names R.section n.cached) };
}

impl<R: Reader> UnitNames<R> {
    /// Those of a unit, before any is asked for. Takes no memory.
    pub(crate) fn new(alloc: Global, scope: Scope<'_, R>, unit: &Unit<R>) -> UnitNames<R>
        ensures gives { result ≡ no_names (Some (in_scope (as_scope scope.entry) unit.now)) }
    {
        UnitNames {
            cached: NameCache::new(alloc),
            unit: UnitSnapshot::of(scope, unit),
        }
    }

    /// The number of names and faults that are cached. Takes no memory.
    pub(crate) fn len(&self) -> usize
        ensures gives { result ≡ length self.now.names }
    {
        self.cached.len()
    }

    /// Keeps so many of them, the first ones. Takes no memory.
    pub(crate) fn truncate(&mut self, names: usize)
        ensures unit { self.new.unit ≡ self.old.unit }
        ensures names { self.new.names ≡ take names self.old.names }
    {
        self.cached.truncate(names);
    }
}
