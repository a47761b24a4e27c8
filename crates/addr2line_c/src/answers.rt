//! Answers to loads, and what forgets them.

ghost use Rattle.std.specs.Prelude.{◌≡◌, ◌≢◌, [], false, Err, OnErr, OnOk, IfErr, Ok, None, Option, is_some, option_map};
ghost use Rattle.gimli_read.specs.declared.error.Error.TheVariants.{OutOfMemory};
ghost use Rattle.addr2line_c.specs.Common.{IsReadyForAll, Sections, Loading, LoadsUnlessOom};
ghost use Rattle.elf.specs.declared.error.LoaderError.TheVariants.{OutOfMemory as NoMemory};
ghost use Rattle.addr2line_units.specs.Loads.{token_number};
ghost use Rattle.addr2line_units.specs.declared.parses.ReadingDepth.TheVariants.{Details};
ghost use Rattle.addr2line.specs.Loads.{AfterPreload, IsReadyToRead, NoneOpenAt};
ghost use Rattle.addr2line.specs.WarmUp.{IsWarm};
ghost use Rattle.addr2line_c.specs.declared.status.Status.TheVariants.{Done};
ghost use Rattle.addr2line_c.specs.AskedLoads.{with_loads};
ghost use Rattle.addr2line_c.specs.LoadCalls.{AnswersLoadAs, AnswersTokenAs, AsksUpToNew, ForgetsToken, ParsesAllAs, PreloadsAs, SaysAnsweredNone, answer_of_bytes, is_out_of_memory, status_of_all, status_of_answer, status_of_none};
ghost use Rattle.addr2line_c.specs.Status.{after_reply};

use crate::loads::AskedLoads;
use crate::status::{Status, status_of_error};
use addr2line::gimli::Dwarf;
use addr2line::gimli::read::{EndianBytes, Error, Reader};
use addr2line::{
    CompressedSections, Context, LoaderError, SplitDwarfLoad, UnitToken, read_split_sections_with,
};
use bytes::Bytes;
use std::alloc::Global;
use std::rc::Rc;

// What the file that bytes are has for a load, nothing where there are no bytes.
fn read_answer(
    alloc: Global,
    compressed: CompressedSections,
    load: &SplitDwarfLoad<EndianBytes>,
    bytes: &'static [u8],
) -> Result<Option<Rc<Dwarf<EndianBytes>>>, LoaderError>
    ensures gives { LoadsUnlessOom (option_map (λ d. d.value)) result
        (answer_of_bytes compressed load.now bytes.now) }
    ensures none { bytes.now ≡ [] → result ≡ Ok None }
{
    if bytes.is_empty() {
        return Ok(None);
    }
    read_split_sections_with(alloc, compressed, load, Bytes::from_static(bytes))
}

// What is said of an answer whose file could be read.
fn status_of_found(has_file: bool, is_found: bool) -> Status
    ensures gives { (found : Option Sections) → is_some found ≡ is_found
        → result ≡ status_of_answer has_file (Ok found) }
{
    if has_file && !is_found {
        Status::OtherUnit
    } else {
        Status::Done
    }
}

// A status, but where the context has refused.
fn after_reply(reply: Result<(), Error>, status: Status) -> Status
    ensures gives { result ≡ after_reply reply status }
{
    match reply {
        Ok(()) => status,
        Err(error) => status_of_error(error),
    }
}

// Whether a status says that memory was refused.
fn is_out_of_memory(status: Status) -> bool
    ensures gives { result ≡ is_out_of_memory status }
{
    matches!(status, Status::Refused(LoaderError::OutOfMemory))
}

// Answers none to the load of a unit whose file is refused, but where memory was refused for it.
fn answer_none<R: Reader>(
    context: &mut Context<R>,
    unit: UnitToken,
    has_file: bool,
    refusal: LoaderError,
) -> Status
    ensures gives { (given : Loading (Option Sections))
        → (refusal ≢ NoMemory → given ≡ Err refusal)
        → AnswersLoadAs has_file given (token_number unit) result context.old context.new }
{
    let refused = Status::Refused(refusal);
    if is_out_of_memory(refused) {
        return refused;
    }
    after_reply(context.load_unit(unit, None), refused)
}

// Answers the load of a unit by what was read of its file; by none where the file is refused.
fn answer_by<R: Reader>(
    context: &mut Context<R>,
    unit: UnitToken,
    has_file: bool,
    read: Result<Option<Rc<Dwarf<R>>>, LoaderError>,
) -> Status
    ensures gives { (given : Loading (Option Sections))
        → LoadsUnlessOom (option_map (λ d. d.value)) read given
        → AnswersLoadAs has_file given (token_number unit) result context.old context.new }
    ensures none { has_file ≡ false → read ≡ Ok None
        → result ≡ status_of_none context.old (token_number unit) }
{
    match read {
        Ok(sections) => {
            let status = status_of_found(has_file, sections.is_some());
            after_reply(context.load_unit(unit, sections), status)
        }
        Err(refusal) => answer_none(context, unit, has_file, refusal),
    }
}

/// Answers the load of a token by the file that bytes are, by none where there are no bytes.
///
/// A load that is answered waits no more. Refused memory leaves it waiting. Takes no memory where
/// there are no bytes.
pub(crate) fn answer(
    alloc: Global,
    compressed: CompressedSections,
    context: &mut Context<EndianBytes>,
    loads: &mut AskedLoads<EndianBytes>,
    token: u64,
    bytes: &'static [u8],
) -> Status
    ensures gives { AnswersTokenAs compressed token bytes.now result context.old context.new
        loads.old.loads.items loads.new.loads.items }
    ensures none { bytes.now ≡ [] → SaysAnsweredNone token result context.old
        loads.old.loads.items }
{
    let status = match loads.get(token) {
        Some(load) => {
            let read = read_answer(alloc, compressed, load, bytes);
            answer_by(context, load.unit, !bytes.is_empty(), read)
        }
        None => return status_of_error(Error::UnknownToken),
    };
    if !is_out_of_memory(status) {
        loads.stop_waiting(token);
    }
    status
}

/// Takes the answer to the load of a token back; it waits no more until it is asked for again.
/// Takes no memory.
pub(crate) fn forget<R: Reader>(
    context: &mut Context<R>,
    loads: &mut AskedLoads<R>,
    token: u64,
) -> Status
    ensures gives { ForgetsToken token result context.old context.new
        loads.old.loads.items loads.new.loads.items }
{
    let unit = match loads.get(token) {
        Some(load) => load.unit,
        None => return status_of_error(Error::UnknownToken),
    };
    loads.stop_waiting(token);
    after_reply(context.forget(unit), Status::Done)
}

// Asks for loads, one after another, up to the first for which memory is refused: a new one.
fn ask_all<R: Reader>(
    loads: &mut AskedLoads<R>,
    wanted: Vec<SplitDwarfLoad<R>>,
) -> Result<(), Error>
    ensures gives { OnOk result (loads.new.loads.items
        ≡ with_loads loads.old.loads.items wanted.items) }
    ensures kept { OnErr result (AsksUpToNew wanted.items loads.old.loads.items
        loads.new.loads.items) }
    ensures refused { IfErr result (λ e. e ≡ OutOfMemory) }
{
    for load in wanted {
        loads.ask(load)?;
    }
    Ok(())
}

/// Asks for the loads of an address, before a lookup does. Takes no memory where no unit that covers
/// it is open.
pub(crate) fn preload<R: Reader>(
    context: &mut Context<R>,
    loads: &mut AskedLoads<R>,
    probe: u64,
) -> Status
    ensures gives { PreloadsAs probe context.old loads.old.loads.items loads.new.loads.items
        result }
    ensures none { NoneOpenAt context.old probe → result ≡ Done }
    ensures after { AfterPreload probe context.old context.new }
{
    let wanted = match context.preload_units(probe) {
        Ok(wanted) => wanted,
        Err(error) => return status_of_error(error),
    };
    let is_empty = wanted.is_empty();
    match ask_all(loads, wanted) {
        Ok(()) if is_empty => Status::Done,
        Ok(()) => Status::Waits,
        Err(error) => status_of_error(error),
    }
}

/// Parses the lines of all units, and their functions. Takes no memory where they are parsed
/// already, each up to the first fault.
pub(crate) fn parse_all<R: Reader>(context: &mut Context<R>) -> Status
    ensures gives { ParsesAllAs result context.old context.new }
    ensures ready { result ≡ Done → IsWarm context.new }
    ensures exact { IsReadyForAll context.old → IsReadyToRead Details context.old
        → result ≡ status_of_all context.old }
{
    let lines = context.parse_lines();
    let functions = context.parse_inlined_functions();
    after_reply(lines, after_reply(functions, Status::Done))
}
