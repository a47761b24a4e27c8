//! What calls of a context give, as owned copies.

use addr2line_units::unit::UnitToken;
use gimli::read::{DwLang, Error, UnitOffset};
use gimli::{DebugInfoOffset, DwarfFileType, DwoId};

/// A location with its own text.
#[derive(Debug, PartialEq, Eq, Drop)]
pub struct OwnedLocation {
    /// The text of the file.
    pub file: Option<String>,
    /// The line, counted from 1.
    pub line: Option<u32>,
    /// The column, counted from 1; 0 is the left edge.
    pub column: Option<u32>,
}

/// A row that a range of addresses meets.
#[derive(Debug, PartialEq, Eq, Drop)]
pub struct OwnedSpan {
    /// The address of the row, as the file has it.
    pub address: u64,
    /// How many addresses it describes.
    pub length: u64,
    /// Its location.
    pub location: OwnedLocation,
}

/// The name of a function.
#[derive(Debug, PartialEq, Eq, Drop)]
pub struct OwnedName {
    /// The bytes of the name, as the file has them.
    pub name: Vec<u8>,
    /// The language of the main unit, if it says one.
    pub language: Option<DwLang>,
}

/// A function at an address, or a location without a function.
#[derive(Debug, PartialEq, Eq, Drop)]
pub struct OwnedFrame {
    /// Where the entry of the function begins, in bytes from the start of the unit's length.
    pub dw_die_offset: Option<UnitOffset>,
    /// The name of the function, if it has one.
    pub function: Option<OwnedName>,
    /// The location of the address, or that of the call of the frame before.
    pub location: Option<OwnedLocation>,
}

/// A unit that a lookup has found.
#[derive(Debug, PartialEq, Eq, Drop)]
pub struct FoundUnit {
    /// The kind of file that it is in.
    pub file_type: DwarfFileType,
    /// Where it begins, in bytes from the start of `.debug_info`.
    pub offset: DebugInfoOffset,
}

/// A load that an address waits for.
#[derive(Debug, PartialEq, Eq, Drop)]
pub struct OwnedLoad {
    /// The unit that waits for it.
    pub unit: UnitToken,
    /// The identifier of the split unit.
    pub dwo_id: DwoId,
    /// The bytes of the directory of the unit's compilation.
    pub comp_dir: Option<Vec<u8>>,
    /// The bytes of the name of the split file.
    pub path: Option<Vec<u8>>,
}

/// What one call gives.
#[derive(Debug, PartialEq, Eq, Drop)]
pub enum Reply {
    /// The location of an address.
    Location(Result<Option<OwnedLocation>, Error>),
    /// The rows that a range meets, with the faults of units in their places.
    Range(Vec<Result<OwnedSpan, Error>>),
    /// The frames at an address.
    Frames(Result<Vec<OwnedFrame>, Error>),
    /// The unit at an address.
    Unit(Option<FoundUnit>),
    /// The loads that an address waits for.
    Preload(Vec<OwnedLoad>),
    /// The call has ended.
    Done(Result<(), Error>),
    /// The lookup waits for the load of this unit.
    Suspended(UnitToken),
}
