//! Calls of a context that were recorded, made again.

ghost use Rattle.std.specs.Prelude.{◌≡◌, IfErr, IfOk, map, option_map};
ghost use Rattle.addr2line.specs.Common.{OutOfMemory, token_number, location_of, spans_of};
ghost use Rattle.addr2line_units.specs.declared.parses.ReadingDepth.TheVariants as depths;
ghost use Rattle.addr2line.specs.Context.{lines_of_all};
ghost use Rattle.addr2line.specs.History.{AfterCall, AfterCalls, AnswersLoad, AsksLoads, AsksLocation, AsksRange, Forgets, ParsesFunctions, ParsesLines, replies_to, reply_to};
ghost use Rattle.addr2line.specs.Loads.{forget_reply, load_reply, parse_reply};
ghost use Rattle.addr2line.specs.Lookups.{loads_at};
ghost use Rattle.addr2line.specs.Replies.{Ended, Listed, Located, SuspendedAt, copied_load, reply_of_range};
ghost use Rattle.addr2line.specs.RecordedCalls.{Makes, asks_by, given_by, as_call, as_given};
ghost use Rattle.addr2line.specs.OwnedReplies.{as_reply};

use crate::context::Context;
use crate::copies::{
    done_reply, frames_reply, loads_reply, location_reply, rows_reply, unit_reply,
};
use crate::kinds::LookupKind;
use crate::reply::Reply;
use crate::suspended::Suspended;
use addr2line_units::continuation::{LookupContinuation, LookupResult};
use addr2line_units::unit::{SplitDwarfLoad, UnitToken};
use gimli::Dwarf;
use gimli::read::{Error, Reader};
use std::rc::Rc;

/// What a lookup is given that waits for a split file.
#[derive(Drop)]
pub enum Answer<R: Reader> {
    /// The sections of the split file, or none.
    Give(Option<Rc<Dwarf<R>>>),
    /// The lookup is given up, and its unit stays open.
    Abandon,
}

/// A call of a context. Addresses are as the file has them.
#[derive(Drop)]
pub enum Call<R: Reader> {
    /// `find_location` of an address.
    Location(u64),
    /// `find_location_range` from an address up to another.
    LocationRange(u64, u64),
    /// `find_frames` of an address, with the answers to its loads in turn. Where none is left the
    /// lookup is given up.
    Frames(u64, Vec<Answer<R>>),
    /// `find_dwarf_and_unit` of an address, with the answers to its loads in turn.
    Unit(u64, Vec<Answer<R>>),
    /// `preload_units` of an address.
    Preload(u64),
    /// `load_unit` of a unit with the sections of its split file, or none.
    LoadUnit(UnitToken, Option<Rc<Dwarf<R>>>),
    /// `forget` of a unit.
    Forget(UnitToken),
    /// `parse_lines`.
    ParseLines,
    /// `parse_functions`.
    ParseFunctions,
    /// `parse_inlined_functions`.
    ParseInlinedFunctions,
}

// The sections that are given, shared.
fn share<R: Reader>(sections: &Option<Rc<Dwarf<R>>>) -> Result<Option<Rc<Dwarf<R>>>, Error>
    ensures gives { IfOk result (λ shared. option_map (λ d. d.value) shared
        ≡ option_map (λ d. d.value) sections.now) }
    ensures refused { IfErr result (λ e. e ≡ OutOfMemory) }
{
    match sections {
        Some(sections) => match sections.clone() {
            Ok(sections) => Ok(Some(sections)),
            Err(_) => Err(Error::OutOfMemory),
        },
        None => Ok(None),
    }
}

// What an answer gives: sections or none; nothing where the lookup is given up.
fn share_given<R: Reader>(answer: &Answer<R>) -> Result<Option<Option<Rc<Dwarf<R>>>>, Error>
    ensures gives { IfOk result (λ given. given_by (option_map (option_map (λ d. d.value)) given)
        ≡ as_given answer.now) }
    ensures refused { IfErr result (λ e. e ≡ OutOfMemory) }
{
    match answer {
        Answer::Give(sections) => Ok(Some(share(sections)?)),
        Answer::Abandon => Ok(None),
    }
}

// The reply of a lookup that is given up at its load.
fn suspended_reply<R: Reader, K: LookupKind>(next: Suspended<'_, R, K, SplitDwarfLoad<R>>) -> Reply
    ensures gives { as_reply result ≡ SuspendedAt next.entry.load.unit }
    ensures kept { next.exit.0.now ≡ next.entry.ctx.now }
{
    let load = next.into_load();
    Reply::Suspended(load.unit)
}

// The reply of a lookup that was begun, with answers to its loads in turn; where none is left it is
// given up. What it gives in the end is turned into a reply. It returns from the function that
// calls it where the lookup ends, is given up or is refused. A macro, since no function over any
// kind of lookup can say which context it leaves.
macro_rules! answer_in_turn {
    ($begun:expr, $answers:expr, $found:ident => $reply:expr) => {{
        let mut next = match $begun {
            LookupResult::Load { continuation } => continuation,
            LookupResult::Output($found) => return $reply,
        };
        for answer in $answers {
            match share_given(answer) {
                Ok(Some(input)) => {
                    next = match next.resume(input) {
                        LookupResult::Load { continuation } => continuation,
                        LookupResult::Output($found) => return $reply,
                    };
                }
                Ok(None) => return Ok(suspended_reply(next)),
                Err(error) => {
                    next.abandon();
                    return Err(error);
                }
            }
        }
        Ok(suspended_reply(next))
    }};
}

// A lookup that may wait for split files.
#[derive(Clone, Copy)]
enum Lookup {
    // `find_frames`.
    Frames,
    // `find_dwarf_and_unit`.
    Unit,
}

// A lookup of an address, with answers to its loads.
fn replay_lookup<R: Reader>(
    context: &mut Context<R>,
    lookup: Lookup,
    probe: u64,
    answers: &[Answer<R>],
) -> Result<Reply, Error>
    ensures after { Makes (asks_by lookup probe (map as_given answers.now)) result context.old
        context.new }
{
    let alloc = context.alloc;
    match lookup {
        Lookup::Frames => answer_in_turn!(
            context.find_frames(probe), answers, frames => frames_reply(alloc, frames)
        ),
        Lookup::Unit => answer_in_turn!(
            context.find_dwarf_and_unit(probe), answers, unit => unit_reply(unit)
        ),
    }
}

// `find_location` of an address.
fn replay_location<R: Reader>(context: &mut Context<R>, probe: u64) -> Result<Reply, Error>
    ensures gives { IfOk result (λ r. as_reply r
        ≡ Located (location_of context.old.sections probe)) }
    ensures after { AfterCall (AsksLocation probe) result context.old context.new }
{
    let alloc = context.alloc;
    location_reply(alloc, context.find_location(probe))
}

// `find_location_range` of addresses.
fn replay_range<R: Reader>(context: &mut Context<R>, low: u64, high: u64) -> Result<Reply, Error>
    ensures gives { IfOk result (λ r. as_reply r
        ≡ reply_of_range (spans_of context.old.sections low high)) }
    ensures after { AfterCall (AsksRange low high) result context.old context.new }
{
    let alloc = context.alloc;
    rows_reply(alloc, context.find_location_range(low, high))
}

// `preload_units` of an address.
fn replay_preload<R: Reader>(context: &mut Context<R>, probe: u64) -> Result<Reply, Error>
    ensures gives { IfOk result (λ r. as_reply r ≡ Listed (map copied_load
        (loads_at context.old.sections context.old.answers probe))) }
    ensures after { AfterCall (AsksLoads probe) result context.old context.new }
{
    let alloc = context.alloc;
    let loads = context.preload_units(probe)?;
    loads_reply(alloc, loads.as_slice())
}

// `load_unit` of a unit.
fn replay_load<R: Reader>(
    context: &mut Context<R>,
    unit: UnitToken,
    sections: &Option<Rc<Dwarf<R>>>,
) -> Result<Reply, Error>
    ensures gives { IfOk result (λ r. as_reply r ≡ Ended (load_reply context.old.sections
        context.old.answers (token_number unit) (option_map (λ d. d.value) sections.now))) }
    ensures after { AfterCall (AnswersLoad (token_number unit)
        (option_map (λ d. d.value) sections.now)) result context.old context.new }
{
    let sections = share(sections)?;
    done_reply(context.load_unit(unit, sections))
}

// `forget` of a unit.
fn replay_forget<R: Reader>(context: &mut Context<R>, unit: UnitToken) -> Result<Reply, Error>
    ensures gives { IfOk result (λ r. as_reply r
        ≡ Ended (forget_reply context.old.sections (token_number unit))) }
    ensures after { AfterCall (Forgets (token_number unit)) result context.old context.new }
{
    Ok(Reply::Done(context.forget(unit)))
}

// `parse_lines`.
fn replay_lines<R: Reader>(context: &mut Context<R>) -> Result<Reply, Error>
    ensures gives { IfOk result (λ r. as_reply r
        ≡ Ended (lines_of_all context.old.sections)) }
    ensures after { AfterCall ParsesLines result context.old context.new }
{
    done_reply(context.parse_lines())
}

// `parse_functions`.
fn replay_functions<R: Reader>(context: &mut Context<R>) -> Result<Reply, Error>
    ensures gives { IfOk result (λ r. as_reply r ≡ Ended (parse_reply depths.Functions
        context.old.sections context.old.answers)) }
    ensures after { AfterCall (ParsesFunctions depths.Functions) result context.old context.new }
{
    done_reply(context.parse_functions())
}

// `parse_inlined_functions`.
fn replay_details<R: Reader>(context: &mut Context<R>) -> Result<Reply, Error>
    ensures gives { IfOk result (λ r. as_reply r ≡ Ended (parse_reply depths.Details
        context.old.sections context.old.answers)) }
    ensures after { AfterCall (ParsesFunctions depths.Details) result context.old context.new }
{
    done_reply(context.parse_inlined_functions())
}

// Makes one call.
fn make_call<R: Reader>(context: &mut Context<R>, call: &Call<R>) -> Result<Reply, Error>
    ensures gives { IfOk result (λ r. as_reply r
        ≡ reply_to context.old.sections context.old.answers (as_call call.now)) }
    ensures after { AfterCall (as_call call.now) result context.old context.new }
{
    match call {
        Call::Location(probe) => replay_location(context, *probe),
        Call::LocationRange(low, high) => replay_range(context, *low, *high),
        Call::Frames(probe, answers) => {
            replay_lookup(context, Lookup::Frames, *probe, answers.as_slice())
        }
        Call::Unit(probe, answers) => {
            replay_lookup(context, Lookup::Unit, *probe, answers.as_slice())
        }
        Call::Preload(probe) => replay_preload(context, *probe),
        Call::LoadUnit(unit, sections) => replay_load(context, *unit, sections),
        Call::Forget(unit) => replay_forget(context, *unit),
        Call::ParseLines => replay_lines(context),
        Call::ParseFunctions => replay_functions(context),
        Call::ParseInlinedFunctions => replay_details(context),
    }
}

/// Makes calls in their order, through the public calls of the context alone, and gives one reply
/// for each.
///
/// Each reply is the one that plain filters over entries and rows give by the sections and, of each
/// unit, the first answer to its load since it was last forgotten.
///
/// Refused `OutOfMemory` alone, where a growth was refused: the calls up to that one were made, and
/// it may have begun. The same calls can be made again.
///
/// Source: own.
pub fn replay<R: Reader>(context: &mut Context<R>, calls: &[Call<R>]) -> Result<Vec<Reply>, Error>
    ensures gives { IfOk result (λ replies. map as_reply replies.items
        ≡ replies_to context.old.sections context.old.answers (map as_call calls.now)) }
    ensures after { AfterCalls (map as_call calls.now) result context.old context.new }
{
    let mut replies = Vec::with_capacity(context.alloc, calls.len())?;
    for call in calls {
        replies.push(make_call(context, call)?)?;
    }
    Ok(replies)
}
