//! What the plain lookup replies, in the words of the other.

use addr2line::{
    FoundUnit, OwnedFrame, OwnedLoad, OwnedLocation, OwnedName, OwnedSpan, Reply, UnitToken,
};
use gimli::read::{DwLang, Error, Reader, UnitOffset};
use gimli::{DebugInfoOffset, DwoId};
use plain_lookup::{Frame, Load, Place, Row};
use std::alloc::Global;

fn location_of(place: Place) -> OwnedLocation {
    OwnedLocation {
        file: place.file,
        line: place.line,
        column: place.column,
    }
}

fn rows_of(
    alloc: Global,
    rows: Vec<Result<Row, Error>>,
) -> Result<Vec<Result<OwnedSpan, Error>>, Error> {
    let mut told = Vec::with_capacity(alloc, rows.len())?;
    for row in rows {
        told.push(match row {
            Ok(row) => Ok(OwnedSpan {
                address: row.address,
                length: row.length,
                location: location_of(row.place),
            }),
            Err(error) => Err(error),
        })?;
    }
    Ok(told)
}

fn bytes_of<R: Reader>(alloc: Global, reader: &R) -> Result<Vec<u8>, Error> {
    Ok(reader.to_slice().to_vec(alloc)?)
}

fn bytes_if<R: Reader>(alloc: Global, reader: &Option<R>) -> Result<Option<Vec<u8>>, Error> {
    match reader {
        Some(reader) => Ok(Some(bytes_of(alloc, reader)?)),
        None => Ok(None),
    }
}

// The name of a frame with the language, if it has one.
fn name_of<R: Reader>(alloc: Global, frame: &Frame<R>) -> Result<Option<OwnedName>, Error> {
    match &frame.name {
        Some(name) => Ok(Some(OwnedName {
            name: bytes_of(alloc, name)?,
            language: frame.language.map(DwLang),
        })),
        None => Ok(None),
    }
}

fn frame_of<R: Reader>(alloc: Global, frame: Frame<R>) -> Result<OwnedFrame, Error> {
    let function = name_of(alloc, &frame)?;
    Ok(OwnedFrame {
        dw_die_offset: frame.offset.map(UnitOffset),
        function,
        location: frame.place.map(location_of),
    })
}

fn frames_of<R: Reader>(alloc: Global, frames: Vec<Frame<R>>) -> Result<Vec<OwnedFrame>, Error> {
    let mut told = Vec::with_capacity(alloc, frames.len())?;
    for frame in frames {
        told.push(frame_of(alloc, frame)?)?;
    }
    Ok(told)
}

fn token_of(tokens: &[UnitToken], unit: usize) -> Result<UnitToken, Error> {
    match tokens.get(unit) {
        Some(token) => Ok(*token),
        None => Err(Error::UnknownToken),
    }
}

fn load_of<R: Reader>(
    alloc: Global,
    load: &Load<R>,
    tokens: &[UnitToken],
) -> Result<OwnedLoad, Error> {
    Ok(OwnedLoad {
        unit: token_of(tokens, load.unit)?,
        dwo_id: DwoId(load.dwo_id),
        comp_dir: bytes_if(alloc, &load.comp_dir)?,
        path: bytes_if(alloc, &load.path)?,
    })
}

fn loads_of<R: Reader>(
    alloc: Global,
    loads: &[Load<R>],
    tokens: &[UnitToken],
) -> Result<Vec<OwnedLoad>, Error> {
    let mut told = Vec::with_capacity(alloc, loads.len())?;
    for load in loads {
        told.push(load_of(alloc, load, tokens)?)?;
    }
    Ok(told)
}

/// The same reply, with these tokens of the units 0, 1 and so on. Refused where memory is, and
/// `UnknownToken` for a unit that has no token here.
pub fn told<R: Reader>(
    alloc: Global,
    reply: plain_lookup::Reply<R>,
    tokens: &[UnitToken],
) -> Result<Reply, Error> {
    match reply {
        plain_lookup::Reply::Location(Ok(place)) => {
            Ok(Reply::Location(Ok(place.map(location_of))))
        }
        plain_lookup::Reply::Location(Err(error)) => Ok(Reply::Location(Err(error))),
        plain_lookup::Reply::Range(rows) => Ok(Reply::Range(rows_of(alloc, rows)?)),
        plain_lookup::Reply::Frames(Ok(frames)) => {
            Ok(Reply::Frames(Ok(frames_of(alloc, frames)?)))
        }
        plain_lookup::Reply::Frames(Err(error)) => Ok(Reply::Frames(Err(error))),
        plain_lookup::Reply::Unit(found) => Ok(Reply::Unit(found.map(|(file_type, offset)| {
            FoundUnit {
                file_type,
                offset: DebugInfoOffset(offset),
            }
        }))),
        plain_lookup::Reply::Preload(loads) => {
            Ok(Reply::Preload(loads_of(alloc, loads.as_slice(), tokens)?))
        }
        plain_lookup::Reply::Done(done) => Ok(Reply::Done(done)),
        plain_lookup::Reply::Suspended(unit) => Ok(Reply::Suspended(token_of(tokens, unit)?)),
    }
}
