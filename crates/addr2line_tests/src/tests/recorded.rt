//! Calls of a context as data, all made by `replay`, and their replies as numbers.

use super::codes::{Codes, NONE, REFUSED, done_codes, fault_codes, first};
use super::replies::{Answer, Call, Given};
use addr2line::gimli::DwarfFileType;
use addr2line::gimli::read::{Error, Reader};
use addr2line::{
    Call as Recorded, Context, FoundUnit, Location, OwnedFrame, OwnedLoad, OwnedLocation,
    OwnedName, OwnedSpan, Reply, UnitToken, replay,
};
use addr2line_lines_tests::sections::{fault_code, location_code};
use std::alloc::Global;

/// The lookup waits for the unit 0.
pub const WAITS: Codes = Codes([7, 0, 0], [0; 3], [0; 3]);

// It waits for another one.
const WAITS_ELSEWHERE: Codes = Codes([7, 7, 7], [0; 3], [0; 3]);

fn owned_code(location: &OwnedLocation) -> u64 {
    let file = match &location.file {
        Some(file) => Some(file.as_str()),
        None => None,
    };
    u64::from(location_code(Location {
        file,
        line: location.line,
        column: location.column,
    }))
}

fn location_codes(location: &Result<Option<OwnedLocation>, Error>) -> Codes {
    match location {
        Ok(Some(location)) => first([0, 0, owned_code(location)]),
        Ok(None) => NONE,
        Err(error) => fault_codes(*error),
    }
}

// The address, the length and the location of a row.
fn span_code(span: Option<&Result<OwnedSpan, Error>>) -> [u64; 3] {
    match span {
        Some(Ok(span)) => [span.address, span.length, owned_code(&span.location)],
        Some(Err(error)) => [0, 0, u64::from(fault_code(*error))],
        None => [0; 3],
    }
}

// Three rows from the one on that the call names.
fn spans_codes(rows: &[Result<OwnedSpan, Error>], call: Call) -> Codes {
    let from = match call {
        Call::Rows(_, _, from) => from,
        _ => 0,
    };
    let [a, b, c] = [0, 1, 2].map(|i: usize| span_code(rows.get(from.saturating_add(i))));
    Codes(a, b, c)
}

fn name_code(name: &OwnedName) -> u64 {
    let letter = name.name.first().map_or(1, |byte| u64::from(*byte));
    letter
        + name
            .language
            .map_or(0, |language| u64::from(language.0) * 256)
}

// Where the entry of a frame begins, its name and its location.
fn frame_code(frame: Option<&OwnedFrame>) -> [u64; 3] {
    let Some(frame) = frame else {
        return [0; 3];
    };
    let offset = frame.dw_die_offset.map_or(0, |offset| offset.0);
    let name = match &frame.function {
        Some(name) => name_code(name),
        None => 0,
    };
    let location = match &frame.location {
        Some(location) => owned_code(location),
        None => 0,
    };
    [offset, name, location]
}

fn unit_codes(unit: &Option<FoundUnit>) -> Codes {
    match unit {
        Some(unit) => match unit.file_type {
            DwarfFileType::Main => first([unit.offset.0, 1, 1]),
            DwarfFileType::Dwo => first([unit.offset.0, 2, 1]),
        },
        None => NONE,
    }
}

// How many loads there are, and of the first the identifier and whether its names are these.
fn loads_codes(loads: &[OwnedLoad]) -> Codes {
    let Some(load) = loads.first() else {
        return NONE;
    };
    let dir = load.comp_dir.as_deref() == Some(b"/w");
    let path = load.path.as_deref() == Some(b"s.dwo");
    first([loads.len() as u64, load.dwo_id.0, u64::from(dir && path)])
}

fn reply_codes(reply: &Reply, call: Call, zero: UnitToken) -> Codes {
    match reply {
        Reply::Location(location) => location_codes(location),
        Reply::Range(rows) => spans_codes(rows.as_slice(), call),
        Reply::Frames(Ok(frames)) => {
            let [a, b, c] = [0, 1, 2].map(|i: usize| frame_code(frames.get(i)));
            Codes(a, b, c)
        }
        Reply::Frames(Err(error)) => fault_codes(*error),
        Reply::Unit(unit) => unit_codes(unit),
        Reply::Preload(loads) => loads_codes(loads.as_slice()),
        Reply::Done(done) => done_codes(*done),
        Reply::Suspended(unit) => {
            if *unit == zero {
                WAITS
            } else {
                WAITS_ELSEWHERE
            }
        }
    }
}

// Of replies that were refused memory, that at each call.
fn codes_in<const N: usize>(
    replies: Result<Vec<Reply>, Error>,
    calls: [Call; N],
    zero: UnitToken,
) -> [Codes; N] {
    let mut codes = [REFUSED; N];
    if let Ok(replies) = replies {
        for i in 0..N {
            if let Some(reply) = replies.get(i) {
                codes[i] = reply_codes(reply, calls[i], zero);
            }
        }
    }
    codes
}

// The answers to the loads of a lookup: none, that it is given up, no split file, or that file.
fn answers_of<R: Reader>(
    alloc: Global,
    answer: Answer,
    given: &Given<'_, R>,
) -> Result<Vec<addr2line::Answer<R>>, Error> {
    let mut answers = Vec::new(alloc);
    match answer {
        Answer::Drop | Answer::IntoLoad | Answer::Skip => {}
        Answer::Abandon => answers.push(addr2line::Answer::Abandon)?,
        Answer::Nothing => answers.push(addr2line::Answer::Give(None))?,
        Answer::Split => answers.push(addr2line::Answer::Give(Some(given.share()?)))?,
    }
    Ok(answers)
}

fn call_of<R: Reader>(
    alloc: Global,
    call: Call,
    given: &Given<'_, R>,
) -> Result<Recorded<R>, Error> {
    match call {
        Call::Location(probe) => Ok(Recorded::Location(probe)),
        Call::Rows(low, high, _) | Call::RowsAlone(low, high, _) => {
            Ok(Recorded::LocationRange(low, high))
        }
        Call::Frames(probe, answer) => {
            Ok(Recorded::Frames(probe, answers_of(alloc, answer, given)?))
        }
        Call::Unit(probe, answer) => Ok(Recorded::Unit(probe, answers_of(alloc, answer, given)?)),
        Call::Preload(probe) => Ok(Recorded::Preload(probe)),
        Call::Load(number) => Ok(Recorded::LoadUnit(given.token(number)?, Some(given.share()?))),
        Call::LoadNothing(number) => Ok(Recorded::LoadUnit(given.token(number)?, None)),
        Call::Forget(number) => Ok(Recorded::Forget(given.token(number)?)),
        Call::ParseLines | Call::NoCall => Ok(Recorded::ParseLines),
        Call::ParseFunctions => Ok(Recorded::ParseFunctions),
        Call::ParseInlined => Ok(Recorded::ParseInlinedFunctions),
    }
}

fn calls_of<R: Reader>(
    alloc: Global,
    calls: &[Call],
    given: &Given<'_, R>,
) -> Result<Vec<Recorded<R>>, Error> {
    let mut recorded = Vec::with_capacity(alloc, calls.len())?;
    for call in calls {
        recorded.push(call_of(alloc, *call, given)?)?;
    }
    Ok(recorded)
}

// The replies, and once more those to all calls where memory was refused.
fn replayed<R: Reader, const N: usize>(
    context: &mut Context<R>,
    recorded: &[Recorded<R>],
    calls: [Call; N],
    zero: UnitToken,
) -> ([Codes; N], u64) {
    let codes = codes_in(replay(context, recorded), calls, zero);
    if codes == [REFUSED; N] {
        return (codes_in(replay(context, recorded), calls, zero), 1);
    }
    (codes, 0)
}

/// The replies to the calls, and once more those to all of them where memory was refused; and how
/// often it was.
pub fn replies<R: Reader, const N: usize>(
    alloc: Global,
    context: &mut Context<R>,
    given: &Given<'_, R>,
    calls: [Call; N],
) -> ([Codes; N], u64) {
    let Ok(zero) = given.token(0) else {
        return ([REFUSED; N], 1);
    };
    match calls_of(alloc, &calls, given) {
        Ok(recorded) => replayed(context, recorded.as_slice(), calls, zero),
        Err(_) => ([REFUSED; N], 1),
    }
}
