//! Owned copies of what calls of a context lend.

ghost use Rattle.std.specs.Prelude.{◌≡◌, ◌≢◌, Option, None, Some, Result, Ok, Err, IfErr, IfOk, IsOk, OnOk, map, option_map, true};
ghost use Rattle.addr2line.specs.Common.{Error, OutOfMemory, ExactlyUnlessOom, result_map, WasNotRefused, frames_left, LookupStop, is_waiting, LocationResult};
ghost use Rattle.addr2line_lines.specs.LentLocation.{as_location};
ghost use Rattle.addr2line_units.specs.LocationsLeft.{locations_left};
ghost use Rattle.addr2line_lines.specs.RangesLeft.{as_located};
ghost use Rattle.addr2line_units.specs.FramesLent.{as_frame, as_name};
ghost use Rattle.addr2line_units.specs.SupScope.{as_found_unit, as_unit};
ghost use Rattle.addr2line.specs.Lookups.{UnitResult, frames_of_stop};
ghost use Rattle.addr2line.specs.Replies.{Located, Ranged, Listed, Ended, section_bytes, copied_frame, copied_load, copied_name, copied_unit, reply_of_frames, reply_of_unit};
ghost use Rattle.addr2line.specs.OwnedReplies.{HasEndedWith, as_owned_frame, as_owned_load, as_owned_location, as_owned_name, as_owned_span, as_owned_unit, as_reply};

use crate::reply::{FoundUnit, OwnedFrame, OwnedLoad, OwnedLocation, OwnedName, OwnedSpan, Reply};
use addr2line_lines::Location;
use addr2line_units::locations::LocationRangeIter;
use addr2line_units::unit::SplitDwarfLoad;
use addr2line_units::{Frame, FrameIter, FunctionName};
use gimli::UnitRef;
use gimli::read::{Error, Reader};
use std::alloc::{AllocError, Global};

// The bytes of a reader, if there is one.
fn copy_bytes<R: Reader>(alloc: Global, reader: Option<&R>) -> Result<Option<Vec<u8>>, AllocError>
    ensures gives { IfOk result (λ copy. option_map (λ (v : _). v.items) copy
        ≡ option_map (λ r. section_bytes (R.section r.now)) reader.entry) }
{
    match reader {
        Some(reader) => Ok(Some(Vec::from_slice(alloc, reader.to_slice())?)),
        None => Ok(None),
    }
}

fn copy_location(alloc: Global, location: Location<'_>) -> Result<OwnedLocation, AllocError>
    ensures gives { IfOk result (λ copy. as_owned_location copy ≡ as_location location.entry) }
{
    let file = match location.file {
        Some(file) => Some(String::from_str(alloc, file)?),
        None => None,
    };
    Ok(OwnedLocation {
        file,
        line: location.line,
        column: location.column,
    })
}

fn copy_location_if(
    alloc: Global,
    location: Option<Location<'_>>,
) -> Result<Option<OwnedLocation>, AllocError>
    ensures gives { IfOk result (λ copy. option_map as_owned_location copy
        ≡ option_map as_location location.entry) }
{
    match location {
        Some(location) => Ok(Some(copy_location(alloc, location)?)),
        None => Ok(None),
    }
}

fn copy_name<R: Reader>(alloc: Global, name: &FunctionName<'_, R>) -> Result<OwnedName, AllocError>
    ensures gives { IfOk result (λ copy. as_owned_name copy
        ≡ copied_name (as_name R.section name.now)) }
{
    Ok(OwnedName {
        name: Vec::from_slice(alloc, name.name.to_slice())?,
        language: name.language,
    })
}

fn copy_frame<R: Reader>(alloc: Global, frame: &Frame<'_, R>) -> Result<OwnedFrame, AllocError>
    ensures gives { IfOk result (λ copy. as_owned_frame copy
        ≡ copied_frame (as_frame R.section frame.now)) }
{
    let function = match &frame.function {
        Some(name) => Some(copy_name(alloc, name)?),
        None => None,
    };
    Ok(OwnedFrame {
        dw_die_offset: frame.dw_die_offset,
        function,
        location: copy_location_if(alloc, frame.location)?,
    })
}

fn copy_frames<R: Reader>(alloc: Global, frames: FrameIter<'_, R>) -> Result<Vec<OwnedFrame>, Error>
    ensures gives { IfOk result (λ copy. map as_owned_frame copy.items
        ≡ map copied_frame (frames_left frames.entry)) }
    ensures refused { IfErr result (λ e. e ≡ OutOfMemory) }
{
    let mut frames = frames;
    let mut copies = Vec::new(alloc);
    while let Some(frame) = frames.next()? {
        copies.push(copy_frame(alloc, &frame)?)?;
    }
    Ok(copies)
}

fn copy_span(alloc: Global, span: (u64, u64, Location<'_>)) -> Result<OwnedSpan, AllocError>
    ensures gives { IfOk result (λ copy. as_owned_span copy ≡ as_located span.entry) }
{
    let (address, length, location) = span;
    Ok(OwnedSpan {
        address,
        length,
        location: copy_location(alloc, location)?,
    })
}

fn copy_load<R: Reader>(alloc: Global, load: &SplitDwarfLoad<R>) -> Result<OwnedLoad, AllocError>
    ensures gives { IfOk result (λ copy. as_owned_load copy ≡ copied_load load.now) }
{
    Ok(OwnedLoad {
        unit: load.unit,
        dwo_id: load.dwo_id,
        comp_dir: copy_bytes(alloc, load.comp_dir.as_ref())?,
        path: copy_bytes(alloc, load.path.as_ref())?,
    })
}

// The reply of a lookup of a location. Refused `OutOfMemory` alone, and a fault takes no memory.
pub(crate) fn location_reply(
    alloc: Global,
    location: Result<Option<Location<'_>>, Error>,
) -> Result<Reply, Error>
    ensures gives { (given : LocationResult)
        → ExactlyUnlessOom (option_map as_location) location.entry given
        → IfOk result (λ r. as_reply r ≡ Located given) }
    ensures memory { OnOk result (WasNotRefused location.entry) }
    ensures fault { IfErr location.entry (λ e. e ≢ OutOfMemory → IsOk result) }
    ensures refused { IfErr result (λ e. e ≡ OutOfMemory) }
{
    match location {
        Ok(location) => Ok(Reply::Location(Ok(copy_location_if(alloc, location)?))),
        Err(Error::OutOfMemory) => Err(Error::OutOfMemory),
        Err(error) => Ok(Reply::Location(Err(error))),
    }
}

// The rows and faults that are left.
fn copy_rows<R: Reader>(
    alloc: Global,
    mut rows: LocationRangeIter<'_, R>,
) -> Result<Vec<Result<OwnedSpan, Error>>, Error>
    ensures gives { IfOk result (λ copies. map (result_map as_owned_span) copies.items
        ≡ locations_left rows.entry) }
    ensures refused { IfErr result (λ e. e ≡ OutOfMemory) }
{
    let mut copies = Vec::new(alloc);
    loop {
        match rows.next_loc() {
            Ok(Some(row)) => copies.push(Ok(copy_span(alloc, row)?))?,
            Ok(None) => return Ok(copies),
            Err(error) => copies.push(Err(error))?,
        }
    }
}

// The reply of a lookup of a range. Refused `OutOfMemory` alone.
pub(crate) fn rows_reply<R: Reader>(
    alloc: Global,
    rows: Result<LocationRangeIter<'_, R>, Error>,
) -> Result<Reply, Error>
    ensures gives { IfOk result (λ r. IfOk rows.entry (λ i. as_reply r
        ≡ Ranged (locations_left i))) }
    ensures memory { OnOk result (IsOk rows.entry) }
    ensures refused { IfErr result (λ e. e ≡ OutOfMemory) }
{
    match rows {
        Ok(rows) => Ok(Reply::Range(copy_rows(alloc, rows)?)),
        Err(_) => Err(Error::OutOfMemory),
    }
}

// The reply of a lookup of frames that has ended. Refused `OutOfMemory` alone, and a fault takes no
// memory.
pub(crate) fn frames_reply<R: Reader>(
    alloc: Global,
    frames: Result<FrameIter<'_, R>, Error>,
) -> Result<Reply, Error>
    ensures gives { (stop : Result LookupStop Error)
        → ExactlyUnlessOom (λ i. Some (frames_left i)) frames.entry (frames_of_stop stop)
        → IfOk result (λ r. HasEndedWith stop (reply_of_frames stop) r) }
    ensures memory { OnOk result (WasNotRefused frames.entry) }
    ensures fault { IfErr frames.entry (λ e. e ≢ OutOfMemory → IsOk result) }
    ensures refused { IfErr result (λ e. e ≡ OutOfMemory) }
{
    match frames {
        Ok(frames) => Ok(Reply::Frames(Ok(copy_frames(alloc, frames)?))),
        Err(Error::OutOfMemory) => Err(Error::OutOfMemory),
        Err(error) => Ok(Reply::Frames(Err(error))),
    }
}

fn found_unit<R: Reader>(found: UnitRef<'_, R>) -> FoundUnit
    ensures gives { as_owned_unit result ≡ copied_unit (as_unit found.entry) }
{
    let dwarf = found.dwarf;
    let unit = found.unit;
    let header = &unit.header;
    FoundUnit {
        file_type: dwarf.file_type,
        offset: header.offset(),
    }
}

// The reply of a lookup of a unit that has ended. Refused `OutOfMemory` alone.
pub(crate) fn unit_reply<R: Reader>(
    unit: Result<Option<UnitRef<'_, R>>, Error>,
) -> Result<Reply, Error>
    ensures gives { (stop : Result LookupStop Error) (given : UnitResult)
        → ExactlyUnlessOom as_found_unit unit.entry given
        → (is_waiting stop ≡ true → given ≡ Ok None)
        → IfOk result (λ r. HasEndedWith stop (reply_of_unit stop given) r) }
    ensures memory { OnOk result (WasNotRefused unit.entry) }
    ensures refused { IfErr result (λ e. e ≡ OutOfMemory) }
{
    match unit {
        Ok(Some(found)) => Ok(Reply::Unit(Some(found_unit(found)))),
        Ok(None) => Ok(Reply::Unit(None)),
        Err(_) => Err(Error::OutOfMemory),
    }
}

// The reply that lists loads. Refused `OutOfMemory` alone.
pub(crate) fn loads_reply<R: Reader>(
    alloc: Global,
    loads: &[SplitDwarfLoad<R>],
) -> Result<Reply, Error>
    ensures gives { IfOk result (λ r. as_reply r ≡ Listed (map copied_load loads.now)) }
    ensures refused { IfErr result (λ e. e ≡ OutOfMemory) }
{
    let mut copies = Vec::new(alloc);
    for load in loads {
        copies.push(copy_load(alloc, load)?)?;
    }
    Ok(Reply::Preload(copies))
}

// The reply of a call that gives nothing. Refused `OutOfMemory` alone.
pub(crate) fn done_reply(done: Result<(), Error>) -> Result<Reply, Error>
    ensures gives { (given : Result (Unit {0}) Error) → ExactlyUnlessOom (λ x. x) done given
        → IfOk result (λ r. as_reply r ≡ Ended given) }
    ensures memory { OnOk result (WasNotRefused done) }
    ensures refused { IfErr result (λ e. (e ≡ OutOfMemory) × (done ≡ Err OutOfMemory)) }
{
    match done {
        Err(Error::OutOfMemory) => Err(Error::OutOfMemory),
        done => Ok(Reply::Done(done)),
    }
}
