//! Calls of a lookup, and what they give.

use gimli::read::{Error, Reader};
use gimli::{Dwarf, DwarfFileType};

/// What a lookup is given that waits for a split file.
#[derive(Drop)]
pub enum Answer<'a, R: Reader> {
    /// The sections of the split file, or none.
    Give(Option<&'a Dwarf<R>>),
    /// The lookup is given up, and its unit stays open.
    Abandon,
}

/// A call. Units are named by their numbers, from 0.
#[derive(Drop)]
pub enum Call<'c, 'a, R: Reader> {
    /// The location of an address.
    Location(u64),
    /// The rows that a range of addresses meets.
    LocationRange(u64, u64),
    /// The frames at an address, with the answers to loads in turn.
    Frames(u64, &'c [Answer<'a, R>]),
    /// The unit at an address, with the answers to loads in turn.
    Unit(u64, &'c [Answer<'a, R>]),
    /// The loads that an address waits for.
    Preload(u64),
    /// An answer to the load of a unit.
    LoadUnit(usize, Option<&'a Dwarf<R>>),
    /// A unit's answer is forgotten.
    Forget(usize),
    /// The lines of all units are read.
    ParseLines,
    /// The functions of all units are read.
    ParseFunctions,
    /// The functions of all units are read, and their details.
    ParseInlinedFunctions,
}

/// A file, a line and a column.
#[derive(Drop)]
pub struct Place {
    /// The text of the file.
    pub file: Option<String>,
    /// The line.
    pub line: Option<u32>,
    /// The column.
    pub column: Option<u32>,
}

/// A row that a range of addresses meets.
#[derive(Drop)]
pub struct Row {
    /// Its address.
    pub address: u64,
    /// How many addresses it describes.
    pub length: u64,
    /// Its place.
    pub place: Place,
}

/// A function at an address, or a place without a function.
#[derive(Drop)]
pub struct Frame<R: Reader> {
    /// Where the entry of the function begins in its unit.
    pub offset: Option<u64>,
    /// The name of the function.
    pub name: Option<R>,
    /// The language of the main unit.
    pub language: Option<u16>,
    /// The place of the address, or that of the call of the frame before.
    pub place: Option<Place>,
}

/// A load that an address waits for.
#[derive(Drop)]
pub struct Load<R: Reader> {
    /// The unit that waits.
    pub unit: usize,
    /// The identifier of the split unit.
    pub dwo_id: u64,
    /// The directory of the unit's compilation.
    pub comp_dir: Option<R>,
    /// The name of the split file.
    pub path: Option<R>,
}

/// What one call gives.
#[derive(Drop)]
pub enum Reply<R: Reader> {
    /// The location of an address.
    Location(Result<Option<Place>, Error>),
    /// The rows that a range meets, with the faults of units in their places.
    Range(Vec<Result<Row, Error>>),
    /// The frames at an address.
    Frames(Result<Vec<Frame<R>>, Error>),
    /// The kind of file of the unit at an address, and where in it the unit begins.
    Unit(Option<(DwarfFileType, u64)>),
    /// The loads that an address waits for.
    Preload(Vec<Load<R>>),
    /// The call has ended.
    Done(Result<(), Error>),
    /// The lookup waits for the load of this unit.
    Suspended(usize),
}
