//! What lookups found, with what C gets of it.

ghost use Rattle.std.specs.Prelude.{◌≡◌, ◌⊎◌, None, Some, IfErr, IfOk, length, nat_le, option_map};
ghost use Rattle.std.specs.List.{AllByRecursion};
ghost use Rattle.addr2line_c.specs.Common.{ExactlyUnlessOom, OutOfMemory, LocationResult, of_file};
ghost use Rattle.addr2line_lines.specs.LentLocation.{as_location};
ghost use Rattle.addr2line_units.specs.FramesLeft.{frames_left};
ghost use Rattle.addr2line_units.specs.EntriesFrames.{FramesResult};
ghost use Rattle.addr2line_c.specs.declared.status.Status.TheVariants.{Nothing, Refused, Waits};
ghost use Rattle.addr2line_c.specs.Answered.{IfNothing, SaysWhatIsThere};
ghost use Rattle.addr2line_c.specs.Left.{found_some, status_by};
ghost use Rattle.addr2line_c.specs.PlainNames.{HasPlainName};
ghost use Rattle.addr2line_c.specs.Status.{status_of_error};
ghost use Rattle.addr2line_c.specs.Written.{IsWrittenLocation, SaysFrames, frames_fit};

use crate::frames::{WrittenFrame, put_frames};
use crate::location::{WrittenLocation, put_location};
use crate::status::{Status, done_if, status_of_error};
use addr2line::gimli::read::{Error, Reader};
use addr2line::{FrameIter, Location, Style};
use std::alloc::Global;

/// What was found of a location, with its text in the buffer.
pub(crate) fn put_found(
    found: Result<Option<Location<'_>>, Error>,
    out: &mut WrittenLocation,
    buffer: &mut [u8],
    needed: &mut usize,
) -> Status
    ensures gives { (given : LocationResult)
        → ExactlyUnlessOom (option_map as_location) found.entry given
        → SaysWhatIsThere (of_file given) (IsWrittenLocation out.new buffer.new needed.new)
        (nat_le needed.new (length buffer.new)) result }
    ensures none { IfNothing result (needed.new ≡ 0) }
    ensures whole { result
        ≡ status_by Nothing (nat_le needed.new (length buffer.new)) found.entry }
{
    *needed = 0;
    match found {
        Ok(Some(location)) => {
            *out = put_location(buffer, needed, Some(location));
            done_if(*needed <= buffer.len())
        }
        Ok(None) => Status::Nothing,
        Err(error) => status_of_error(error),
    }
}

/// What was found of frames, with their texts in the buffer.
pub(crate) fn put_found_frames<R: Reader>(
    alloc: Global,
    found: Result<FrameIter<'_, R>, Error>,
    names: Option<Style>,
    out: &mut [WrittenFrame],
    count: &mut usize,
    buffer: &mut [u8],
    needed: &mut usize,
) -> Status
    ensures gives { (given : FramesResult)
        → ExactlyUnlessOom (λ i. Some (frames_left i)) found.entry given
        → SaysFrames names given out.new count.new buffer.new needed.new result }
    ensures none { IfNothing result ((count.new ≡ 0) × (needed.new ≡ 0)) }
    ensures whole { (result ≡ Refused OutOfMemory) ⊎ (result ≡ status_by Waits
        (frames_fit out.new count.new buffer.new needed.new) (found_some found.entry)) }
    ensures fault { IfErr found.entry (λ e. result ≡ status_of_error e) }
    ensures memory { names ≡ None → result ≡ status_by Waits
        (frames_fit out.new count.new buffer.new needed.new) (found_some found.entry) }
    ensures plain { IfOk found.entry (λ i. AllByRecursion HasPlainName (frames_left i))
        → result ≡ status_by Waits
        (frames_fit out.new count.new buffer.new needed.new) (found_some found.entry) }
{
    *count = 0;
    *needed = 0;
    let frames = match found {
        Ok(frames) => frames,
        Err(error) => return status_of_error(error),
    };
    match put_frames(alloc, frames, names, out, buffer, needed) {
        Ok(found) => {
            *count = found;
            done_if(found <= out.len() && *needed <= buffer.len())
        }
        Err(error) => {
            *needed = 0;
            status_of_error(error)
        }
    }
}
