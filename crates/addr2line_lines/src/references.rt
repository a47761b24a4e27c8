//! References to entries.

ghost use Rattle.std.specs.Prelude.{◌≡◌, ◌≤◌, length, option_map};
ghost use Rattle.std.specs.List.Sorted.{IsPartitionPoint};
ghost use Rattle.addr2line_lines.specs.Common.{as_value, Exactly};
ghost use Rattle.addr2line_lines.specs.References.{AreInOrder, IsFileInOrder, IsScope, entry_in, entry_in_sup, in_scope, referred, unit_at};
ghost use Rattle.addr2line_lines.specs.Scopes.{as_file_record, as_scope, snapshot_file, snapshot_unit};
ghost use Rattle.addr2line_lines.specs.FoundNames.{BeginsAbove, BeginsBy, as_place};

use gimli::read::{AttributeValue, DebugInfoOffset, Error, Reader, UnitOffset};
use gimli::{Dwarf, ToUnitOffset, Unit};
use std::alloc::AllocError;
use std::snapshot::Snapshot;

/// The sections of a file, and the units that offsets in its `.debug_info` lead to.
pub struct FileUnits<'a, R: Reader> {
    /// The sections.
    pub dwarf: &'a Dwarf<R>,
    /// The units, in the order of `.debug_info`; none of a split file.
    pub units: Option<&'a Vec<Unit<R>>>,
}

impl<R: Reader> Copy for FileUnits<'_, R> {}

impl<R: Reader> Clone for FileUnits<'_, R> {
    fn clone(&self) -> Result<Self, AllocError> {
        Ok(*self)
    }
}

/// The file of an entry, and the supplementary file, if references lead to one.
pub struct Scope<'a, R: Reader> {
    /// The file of the entry.
    pub file: FileUnits<'a, R>,
    /// The supplementary file.
    pub sup: Option<FileUnits<'a, R>>,
}

impl<R: Reader> Copy for Scope<'_, R> {}

impl<R: Reader> Clone for Scope<'_, R> {
    fn clone(&self) -> Result<Self, AllocError> {
        Ok(*self)
    }
}

impl<'a, R: Reader> FileUnits<'a, R> {
    /// The units, none of a split file. Takes no memory.
    pub fn as_slice(self) -> &'a [Unit<R>]
        ensures gives { result.now ≡ (as_file_record self.entry).units }
    {
        match self.units {
            Some(units) => units,
            None => &[],
        }
    }

    // The file as it is now.
    fn snapshot(self) -> FileSnapshot<R>
        ensures gives { snapshot_file result ≡ as_file_record self.entry }
    {
        FileSnapshot {
            dwarf: Snapshot::of(self.dwarf),
            units: match self.units {
                Some(units) => Some(Snapshot::of(units)),
                None => None,
            },
        }
    }
}

// A file and its units as they were at a time, for contracts alone.
#[derive(Drop)]
struct FileSnapshot<R: Reader> {
    dwarf: Snapshot<Dwarf<R>>,
    units: Option<Snapshot<Vec<Unit<R>>>>,
}

/// A unit and where references lead from it, as they were at a time, for contracts alone.
#[derive(Drop)]
pub(crate) struct UnitSnapshot<R: Reader> {
    file: FileSnapshot<R>,
    sup: Option<FileSnapshot<R>>,
    unit: Snapshot<Unit<R>>,
}

impl<R: Reader> UnitSnapshot<R> {
    /// A unit and where references lead from it, as they are now. It has no bytes.
    pub(crate) fn of(scope: Scope<'_, R>, unit: &Unit<R>) -> Snapshot<UnitSnapshot<R>>
        ensures gives { snapshot_unit result.value ≡ in_scope (as_scope scope.entry) unit.now }
    {
        let now = UnitSnapshot {
            file: scope.file.snapshot(),
            sup: match scope.sup {
                Some(file) => Some(file.snapshot()),
                None => None,
            },
            unit: Snapshot::of(unit),
        };
        Snapshot::of(&now)
    }
}

// How many units begin at or below an offset.
fn count_begun<R: Reader>(units: &[Unit<R>], offset: DebugInfoOffset) -> usize
    ensures bound { result ≤ length units.now }
    ensures gives { AreInOrder units.now
        → IsPartitionPoint (BeginsBy offset.0) (BeginsAbove offset.0) units.now result }
{
    units.partition_point(|unit| unit.header.offset().0 <= offset.0)
}

// The unit among whose entries an offset in `.debug_info` lies, and the offset in it: of units in
// order only the last that begins at or below the offset can hold it.
fn find_unit<R: Reader>(
    units: &[Unit<R>],
    offset: DebugInfoOffset,
) -> Option<(&Unit<R>, UnitOffset)>
    requires in_order { AreInOrder units.now }
    ensures gives { option_map (λ x. (x.0.now, x.1.0)) result ≡ unit_at offset.0 units.now }
{
    let begun = count_begun(units, offset);
    if begun == 0 {
        return None;
    }
    let unit = &units[begun - 1];
    let inside = offset.to_unit_offset(&unit.header)?;
    Some((unit, inside))
}

// An entry by its place.
pub(crate) struct EntryPlace<'a, R: Reader> {
    // Where its references lead.
    pub(crate) scope: Scope<'a, R>,
    pub(crate) unit: &'a Unit<R>,
    // Where it begins, in bytes from the start of the unit's length.
    pub(crate) offset: UnitOffset,
}

impl<R: Reader> Copy for EntryPlace<'_, R> {}

impl<R: Reader> Clone for EntryPlace<'_, R> {
    fn clone(&self) -> Result<Self, AllocError> {
        Ok(*self)
    }
}

// The entry at an offset in `.debug_info`.
fn find_entry<R: Reader>(
    scope: Scope<'_, R>,
    offset: DebugInfoOffset,
) -> Result<Option<EntryPlace<'_, R>>, Error>
    requires in_order { AreInOrder (as_file_record scope.file).units }
    ensures gives { Exactly (option_map as_place) result
        (entry_in (as_scope scope.entry) offset.0) }
{
    match find_unit(scope.file.as_slice(), offset) {
        Some((unit, offset)) => Ok(Some(EntryPlace {
            scope,
            unit,
            offset,
        })),
        None => Err(Error::NoEntryAtGivenOffset(offset.0)),
    }
}

// The entry at an offset in the supplementary file's `.debug_info`.
fn find_entry_in_sup<R: Reader>(
    sup: Option<FileUnits<'_, R>>,
    offset: DebugInfoOffset,
) -> Result<Option<EntryPlace<'_, R>>, Error>
    requires in_order { IsFileInOrder (option_map as_file_record sup) }
    ensures gives { Exactly (option_map as_place) result
        (entry_in_sup (option_map as_file_record sup.entry) offset.0) }
{
    match sup {
        Some(file) => find_entry(Scope { file, sup: None }, offset),
        None => Ok(None),
    }
}

/// The entry that a value of an attribute refers to, by an offset in its unit, in `.debug_info` or
/// in that of the supplementary file; none by another value. Takes no memory.
///
/// Refused `NoEntryAtGivenOffset` where an offset in `.debug_info` lies among no unit's entries.
pub(crate) fn referred<'a, R: Reader>(
    scope: Scope<'a, R>,
    unit: &'a Unit<R>,
    value: &AttributeValue<R>,
) -> Result<Option<EntryPlace<'a, R>>, Error>
    requires in_order { IsScope (as_scope scope) }
    ensures gives { Exactly (option_map as_place) result
        (referred (as_scope scope.entry) unit.now (as_value R.section value.now)) }
{
    match value {
        AttributeValue::UnitRef(offset) => Ok(Some(EntryPlace {
            scope,
            unit,
            offset: *offset,
        })),
        AttributeValue::DebugInfoRef(offset) => find_entry(scope, *offset),
        AttributeValue::DebugInfoRefSup(offset) => find_entry_in_sup(scope.sup, *offset),
        _ => Ok(None),
    }
}
