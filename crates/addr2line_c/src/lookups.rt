//! Lookups, with what C gets of them.

ghost use Rattle.std.specs.Prelude.{◌≡◌, ◌≢◌, None, length, nat_le};
ghost use Rattle.addr2line_c.specs.Common.{OutOfMemory, location_of, IsReady, of_file};
ghost use Rattle.addr2line_units.specs.declared.frames.OnFault.TheVariants.{Stop};
ghost use Rattle.addr2line.specs.AfterLookups.{IsKnownFew};
ghost use Rattle.addr2line.specs.LoadsByFiles.{WaitsForNone};
ghost use Rattle.addr2line.specs.WaitingLookups.{frames_of_context};
ghost use Rattle.addr2line_c.specs.declared.status.Status.TheVariants.{Refused};
ghost use Rattle.addr2line_c.specs.Answered.{IfNothing, SaysWhatIsThere};
ghost use Rattle.addr2line_c.specs.Left.{AsksIfWaiting, LeavesFrames, LeavesLocation};
ghost use Rattle.addr2line_c.specs.PlainNames.{AreNamedPlain};
ghost use Rattle.addr2line_c.specs.Written.{IsWrittenLocation, SaysFrames, frames_fit};

use crate::found::{put_found, put_found_frames};
use crate::frames::WrittenFrame;
use crate::loads::AskedLoads;
use crate::location::WrittenLocation;
use crate::status::{Status, status_of_error};
use addr2line::gimli::read::Reader;
use addr2line::{Context, LookupResult, Style};
use std::alloc::Global;

/// `Context::find_location`, with its text in the buffer.
pub(crate) fn find_location<R: Reader>(
    context: &mut Context<R>,
    probe: u64,
    out: &mut WrittenLocation,
    buffer: &mut [u8],
    needed: &mut usize,
) -> Status
    ensures gives { SaysWhatIsThere (of_file (location_of context.old.sections probe))
        (IsWrittenLocation out.new buffer.new needed.new)
        (nat_le needed.new (length buffer.new)) result }
    ensures none { IfNothing result (needed.new ≡ 0) }
    ensures left { LeavesLocation probe (nat_le needed.new (length buffer.new)) result
        context.old context.new }
    ensures memory { IsReady context.old probe → result ≢ Refused OutOfMemory }
{
    put_found(context.find_location(probe), out, buffer, needed)
}

/// `Context::find_frames`, with the texts of the frames in the buffer. A load that is waited for is
/// added to those that were asked for.
#[tactic(auto, using(crate::proofs::WaitLemmas::waits_for_frames, crate::proofs::AnswerLemmas::frames_unknown))]
pub(crate) fn find_frames<R: Reader>(
    alloc: Global,
    context: &mut Context<R>,
    loads: &mut AskedLoads<R>,
    probe: u64,
    names: Option<Style>,
    out: &mut [WrittenFrame],
    count: &mut usize,
    buffer: &mut [u8],
    needed: &mut usize,
) -> Status
    ensures gives { SaysFrames names (frames_of_context context.old probe) out.new count.new
        buffer.new needed.new result }
    ensures none { IfNothing result ((count.new ≡ 0) × (needed.new ≡ 0)) }
    ensures left { LeavesFrames probe names
        (frames_fit out.new count.new buffer.new needed.new) result loads.old.loads.items
        context.old context.new }
    ensures after { AsksIfWaiting probe context.old loads.old.loads.items loads.new.loads.items
        result }
    ensures memory { names ≡ None → WaitsForNone context.old probe
        → IsKnownFew Stop context.old probe → result ≢ Refused OutOfMemory }
    ensures plain { AreNamedPlain (frames_of_context context.old probe)
        → WaitsForNone context.old probe → IsKnownFew Stop context.old probe
        → result ≢ Refused OutOfMemory }
{
    match context.find_frames(probe) {
        LookupResult::Output(found) => {
            put_found_frames(alloc, found, names, out, count, buffer, needed)
        }
        LookupResult::Load { continuation } => {
            *count = 0;
            *needed = 0;
            match loads.ask(continuation.into_load()) {
                Ok(()) => Status::Waits,
                Err(error) => status_of_error(error),
            }
        }
    }
}
