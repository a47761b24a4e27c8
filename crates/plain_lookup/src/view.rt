//! Where the entries of a unit are read: in the main file or in its split file.

use crate::calls::Load;
use crate::index::{KeptUnit, Known};
use gimli::read::{Error, Reader};
use gimli::{Dwarf, Unit};
use std::alloc::Global;

/// The first answer to the load of a unit: none yet, no split file, or its sections.
pub type First<'a, R> = Option<Option<&'a Dwarf<R>>>;

/// Where the entries of a unit are read.
#[derive(Drop)]
pub enum Verdict<'a, R: Reader> {
    /// It isn't decided: an answer is wanted.
    Open,
    /// In the unit itself.
    Main,
    /// In the first unit of its split file.
    Split(&'a Dwarf<R>, Unit<R>),
}

// The name of the split file; none where the unit has none.
fn path_of<R: Reader>(sections: &Dwarf<R>, unit: &Unit<R>) -> Result<Option<R>, Error> {
    match unit.dwo_name()? {
        Some(name) => Ok(Some(sections.attr_string(unit, name)?)),
        None => Ok(None),
    }
}

// The first unit of the split file, with what the main unit gives it.
fn split_unit<'a, R: Reader>(
    alloc: Global,
    sections: &'a Dwarf<R>,
    main: &Unit<R>,
) -> Result<Verdict<'a, R>, Error> {
    let Some(header) = sections.units()?.next()? else {
        return Ok(Verdict::Main);
    };
    let mut unit = sections.unit(alloc, header)?;
    unit.copy_relocated_attributes(main);
    Ok(Verdict::Split(sections, unit))
}

/// The verdict of a unit with its first answer.
///
/// Refused for a name of its split file that can't be read, and by the fault of the first unit of
/// its split file.
pub fn decide<'a, R: Reader>(
    alloc: Global,
    sections: &Dwarf<R>,
    kept: &KeptUnit<R>,
    first: First<'a, R>,
) -> Result<Verdict<'a, R>, Error> {
    if kept.unit.dwo_id.is_none() {
        return Ok(Verdict::Main);
    }
    path_of(sections, &kept.unit)?;
    match first {
        None => Ok(Verdict::Open),
        Some(None) => Ok(Verdict::Main),
        Some(Some(split)) => split_unit(alloc, split, &kept.unit),
    }
}

/// The load of a unit, if it has one.
pub fn load_of<R: Reader>(known: Known<'_, R>, number: usize) -> Result<Option<Load<R>>, Error> {
    let index = known.index;
    let Some(kept) = index.units.get(number) else {
        return Ok(None);
    };
    let Some(dwo_id) = kept.unit.dwo_id else {
        return Ok(None);
    };
    let comp_dir = match &kept.unit.comp_dir {
        Some(directory) => Some(directory.duplicate()?),
        None => None,
    };
    Ok(Some(Load {
        unit: number,
        dwo_id: dwo_id.0,
        comp_dir,
        path: path_of(known.sections, &kept.unit)?,
    }))
}
