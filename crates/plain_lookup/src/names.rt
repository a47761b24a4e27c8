//! Names by chains of referenced entries.

use crate::index::{KeptUnit, Known};
use gimli::read::{AttributeValue, DebugInfoOffset, DwAt, Error, Reader, UnitOffset};
use gimli::{Dwarf, ToUnitOffset, UnitRef};

// At most so many referenced entries are read for a name.
const REFERENCES: usize = 16;

/// In which file an entry stands.
#[derive(Clone, Copy, PartialEq, Eq)]
pub enum File {
    /// The main file.
    Main,
    /// A split file.
    Split,
    /// The supplementary file.
    Sup,
}

/// A unit with its sections, and the file that it is in.
pub struct View<'m, R: Reader> {
    /// The unit.
    pub unit: UnitRef<'m, R>,
    /// Its file.
    pub file: File,
}

impl<R: Reader> Copy for View<'_, R> {}

impl<R: Reader> Clone for View<'_, R> {
    fn clone(&self) -> Result<Self, std::alloc::AllocError> {
        Ok(*self)
    }
}

/// What a value refers to.
#[derive(Clone, Copy)]
pub enum Reference {
    /// An entry of the same unit.
    Unit(UnitOffset),
    /// An entry of the same file.
    Section(DebugInfoOffset),
    /// An entry of the supplementary file.
    Sup(DebugInfoOffset),
    /// Nothing that gives a name.
    Nothing,
}

/// The reference of a value.
pub fn reference_of<R: Reader>(value: AttributeValue<R>) -> Reference {
    match value {
        AttributeValue::UnitRef(offset) => Reference::Unit(offset),
        AttributeValue::DebugInfoRef(offset) => Reference::Section(offset),
        AttributeValue::DebugInfoRefSup(offset) => Reference::Sup(offset),
        _ => Reference::Nothing,
    }
}

// The unit that has an offset among its entries, and the offset in it.
fn unit_at<'m, R: Reader>(
    sections: &'m Dwarf<R>,
    units: &'m [KeptUnit<R>],
    file: File,
    offset: DebugInfoOffset,
) -> Result<(View<'m, R>, UnitOffset), Error> {
    for kept in units {
        if let Some(inside) = offset.to_unit_offset(&kept.unit.header) {
            let unit = UnitRef::new(sections, &kept.unit);
            return Ok((View { unit, file }, inside));
        }
    }
    Err(Error::NoEntryAtGivenOffset(offset.0))
}

// The entry of the main file that a section offset names.
fn in_main<'m, R: Reader>(
    known: Known<'m, R>,
    offset: DebugInfoOffset,
) -> Result<Option<(View<'m, R>, UnitOffset)>, Error> {
    let index = known.index;
    let found = unit_at(known.sections, index.units.as_slice(), File::Main, offset)?;
    Ok(Some(found))
}

// The entry of the supplementary file that a section offset names; none without that file.
fn in_sup<'m, R: Reader>(
    known: Known<'m, R>,
    offset: DebugInfoOffset,
) -> Result<Option<(View<'m, R>, UnitOffset)>, Error> {
    let index = known.index;
    let Some(sup) = &index.sup else {
        return Ok(None);
    };
    let found = unit_at(&sup.sections, sup.units.as_slice(), File::Sup, offset)?;
    Ok(Some(found))
}

// The entry that a reference names; none where it gives no name.
fn referred<'m, R: Reader>(
    known: Known<'m, R>,
    view: View<'m, R>,
    reference: Reference,
) -> Result<Option<(View<'m, R>, UnitOffset)>, Error> {
    match (reference, view.file) {
        (Reference::Unit(offset), _) => Ok(Some((view, offset))),
        (Reference::Section(offset), File::Main) => in_main(known, offset),
        (Reference::Section(offset), File::Split) => Err(Error::NoEntryAtGivenOffset(offset.0)),
        (Reference::Section(offset), File::Sup)
        | (Reference::Sup(offset), File::Main | File::Split) => in_sup(known, offset),
        (Reference::Sup(_), File::Sup) | (Reference::Nothing, _) => Ok(None),
    }
}

/// The string of a value, none where it can't be read. Refused `OutOfMemory` alone.
pub fn readable<R: Reader>(
    unit: UnitRef<'_, R>,
    value: AttributeValue<R>,
) -> Result<Option<R>, Error> {
    match unit.attr_string(value) {
        Ok(text) => Ok(Some(text)),
        Err(Error::OutOfMemory) => Err(Error::OutOfMemory),
        Err(_) => Ok(None),
    }
}

// What a referenced entry gives: a name, or the reference that the chain goes on with.
#[derive(Drop)]
enum Link<R: Reader> {
    Named(R),
    Next(Reference),
}

// The first readable linkage name, else the last readable name, else the last reference.
fn read_link<R: Reader>(view: View<'_, R>, offset: UnitOffset) -> Result<Link<R>, Error> {
    let mut entries = view.unit.entries_raw(Some(offset))?;
    let Some(abbreviation) = entries.read_abbreviation()? else {
        return Err(Error::NoEntryAtGivenOffset(offset.0));
    };
    let mut link = Link::Next(Reference::Nothing);
    for specification in abbreviation.attributes() {
        let attribute = entries.read_attribute(*specification)?;
        match attribute.name() {
            DwAt::DW_AT_linkage_name | DwAt::DW_AT_MIPS_linkage_name => {
                if let Some(name) = readable(view.unit, attribute.value())? {
                    return Ok(Link::Named(name));
                }
            }
            DwAt::DW_AT_name => {
                if let Some(name) = readable(view.unit, attribute.value())? {
                    link = Link::Named(name);
                }
            }
            DwAt::DW_AT_abstract_origin | DwAt::DW_AT_specification => {
                if let Link::Next(_) = link {
                    link = Link::Next(reference_of(attribute.value()));
                }
            }
            _ => {}
        }
    }
    Ok(link)
}

/// The name of the entry that a reference names, by itself or by a chain of at most 16 entries.
///
/// Refused by the first fault of a reference or an entry of the chain.
pub fn referred_name<'m, R: Reader>(
    known: Known<'m, R>,
    view: View<'m, R>,
    reference: Reference,
) -> Result<Option<R>, Error> {
    let mut view = view;
    let mut reference = reference;
    for _ in 0..REFERENCES {
        let Some((there, offset)) = referred(known, view, reference)? else {
            return Ok(None);
        };
        match read_link(there, offset)? {
            Link::Named(name) => return Ok(Some(name)),
            Link::Next(next) => {
                view = there;
                reference = next;
            }
        }
    }
    Ok(None)
}
