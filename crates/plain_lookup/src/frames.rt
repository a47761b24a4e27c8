//! The frames at an address in one unit.

use crate::calls::{Frame, Place};
use crate::detail::{Detail, Inlined, detail_of};
use crate::functions::functions_of;
use crate::index::{KeptUnit, Known};
use crate::lines::{Lines, lines_of};
use crate::location::{call_place, location_of};
use crate::names::View;
use crate::pick::{pick, shortest};
use gimli::read::{Error, Reader, UnitOffset};
use std::alloc::Global;

// The inlined function that is picked at a depth.
fn picked<'d, R: Reader>(
    alloc: Global,
    detail: &'d Detail<R>,
    depth: usize,
    probe: u64,
) -> Result<Option<&'d Inlined<R>>, Error> {
    let mut listed = Vec::new(alloc);
    for (place, inlined) in detail.inlined.iter().enumerate() {
        if inlined.depth == depth {
            for range in &inlined.ranges {
                listed.push((*range, place))?;
            }
        }
    }
    match pick(listed.as_slice(), probe) {
        Some(place) => Ok(detail.inlined.get(place)),
        None => Ok(None),
    }
}

// The inlined functions at an address, the outermost first: one of each depth, up to the first depth
// that has none.
fn chain<'d, R: Reader>(
    alloc: Global,
    detail: &'d Detail<R>,
    probe: u64,
) -> Result<Vec<&'d Inlined<R>>, Error> {
    let mut found = Vec::new(alloc);
    for depth in 0..detail.inlined.len() {
        match picked(alloc, detail, depth, probe)? {
            Some(inlined) => found.push(inlined)?,
            None => break,
        }
    }
    Ok(found)
}

// The frame of a function, with the language of the main unit where it has a name.
fn frame<R: Reader>(
    kept: &KeptUnit<R>,
    offset: UnitOffset,
    name: &Option<R>,
    place: Option<Place>,
) -> Result<Frame<R>, Error> {
    let mut frame = Frame {
        offset: Some(offset.0),
        name: None,
        language: None,
        place,
    };
    if let Some(name) = name {
        frame.name = Some(name.duplicate()?);
        if let Some(language) = kept.language {
            frame.language = Some(language.0);
        }
    }
    Ok(frame)
}

// The frames of a function with its inlined functions, the innermost first. Each has the place where
// the one before is called.
fn function_frames<R: Reader>(
    alloc: Global,
    kept: &KeptUnit<R>,
    lines: &Lines,
    (offset, detail): (UnitOffset, &Detail<R>),
    probe: u64,
) -> Result<Vec<Frame<R>>, Error> {
    let mut frames = Vec::new(alloc);
    let mut place = location_of(alloc, lines, probe)?;
    for inlined in chain(alloc, detail, probe)?.iter().rev() {
        let next = call_place(alloc, lines, inlined.words.site)?;
        frames.push(frame(kept, inlined.offset, &inlined.words.name, place)?)?;
        place = Some(next);
    }
    frames.push(frame(kept, offset, &detail.name, place)?)?;
    Ok(frames)
}

// A place without a function is one frame.
fn place_frames<R: Reader>(
    alloc: Global,
    lines: &Lines,
    probe: u64,
) -> Result<Vec<Frame<R>>, Error> {
    let mut frames = Vec::new(alloc);
    if let Some(place) = location_of(alloc, lines, probe)? {
        frames.push(Frame {
            offset: None,
            name: None,
            language: None,
            place: Some(place),
        })?;
    }
    Ok(frames)
}

/// The frames at an address in one unit, read in this view; none where there is neither a function
/// nor a row.
///
/// Refused by the first fault of its functions, the detail of the function there, and its lines.
pub fn frames_of<'m, R: Reader>(
    alloc: Global,
    known: Known<'m, R>,
    kept: &KeptUnit<R>,
    view: View<'m, R>,
    probe: u64,
) -> Result<Vec<Frame<R>>, Error> {
    let functions = functions_of(alloc, view.unit)?;
    match shortest(functions.as_slice(), probe) {
        Some(offset) => {
            let detail = detail_of(alloc, known, view, offset)?;
            let lines = lines_of(alloc, known.sections, &kept.unit)?;
            function_frames(alloc, kept, &lines, (offset, &detail), probe)
        }
        None => {
            let lines = lines_of(alloc, known.sections, &kept.unit)?;
            place_frames(alloc, &lines, probe)
        }
    }
}

/// Refused by the first fault of the functions of a view and, if asked for, of their details, in the
/// order of their entries.
pub fn check_functions<'m, R: Reader>(
    alloc: Global,
    known: Known<'m, R>,
    view: View<'m, R>,
    with_details: bool,
) -> Result<(), Error> {
    let functions = functions_of(alloc, view.unit)?;
    if with_details {
        for (offset, _) in &functions {
            detail_of(alloc, known, view, *offset)?;
        }
    }
    Ok(())
}
