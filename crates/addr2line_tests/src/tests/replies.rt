//! Calls of a context as data, each made by itself, and their answers as numbers.

use super::codes::{
    Codes, DONE, done_codes, fault_codes, first, frames_or_fault, load_codes, loads_codes,
    located_codes, rows_codes, unit_codes,
};
use addr2line::gimli::Dwarf;
use addr2line::gimli::read::{Error, Reader};
use addr2line::{Context, LookupContinuation, LookupResult, UnitToken};
use std::rc::Rc;

/// How a lookup goes on that waits for a split file.
#[derive(Clone, Copy)]
pub enum Answer {
    /// It is dropped.
    Drop,
    Abandon,
    IntoLoad,
    /// There is no split file.
    Nothing,
    /// There is the split file.
    Split,
    /// There is no split file for this load and each later one.
    Skip,
}

/// A call of a context.
#[derive(Clone, Copy)]
pub enum Call {
    /// None: the context is made, and nothing is asked.
    NoCall,
    Frames(u64, Answer),
    Unit(u64, Answer),
    Location(u64),
    /// Three rows of a range, from this one on, with the faults of units in their places.
    Rows(u64, u64, usize),
    /// The same without faults.
    RowsAlone(u64, u64, usize),
    Preload(u64),
    /// Answers the load of the unit of a number by the split file.
    Load(usize),
    /// Answers it by none.
    LoadNothing(usize),
    Forget(usize),
    ParseLines,
    ParseFunctions,
    ParseInlined,
}

/// The tokens of the units 0 and 1, if calls name them.
pub type Tokens = [Option<UnitToken>; 2];

/// What calls are made with: tokens, and the sections of the split file, if calls give them.
#[derive(Drop)]
pub struct Given<'a, R: Reader> {
    pub tokens: Tokens,
    pub split: Option<&'a Rc<Dwarf<R>>>,
}

impl<R: Reader> Given<'_, R> {
    /// The token of a unit, refused where there is none.
    pub fn token(&self, number: usize) -> Result<UnitToken, Error> {
        self.tokens[number.min(1)].ok_or(Error::UnknownToken)
    }

    /// The sections of the split file, shared.
    pub fn share(&self) -> Result<Rc<Dwarf<R>>, Error> {
        match self.split {
            Some(split) => match split.clone() {
                Ok(split) => Ok(split),
                Err(_) => Err(Error::OutOfMemory),
            },
            None => Err(Error::MissingUnitDie),
        }
    }
}

// A lookup that has ended, or its load; then it is dropped.
fn drop_frames<R: Reader>(context: &mut Context<R>, probe: u64) -> Codes {
    match context.find_frames(probe) {
        LookupResult::Output(found) => frames_or_fault(found),
        LookupResult::Load { continuation } => load_codes(continuation.load()),
    }
}

fn abandon_frames<R: Reader>(context: &mut Context<R>, probe: u64) -> Codes {
    match context.find_frames(probe) {
        LookupResult::Output(found) => frames_or_fault(found),
        LookupResult::Load { continuation } => {
            let codes = load_codes(continuation.load());
            continuation.abandon();
            codes
        }
    }
}

fn load_of_frames<R: Reader>(context: &mut Context<R>, probe: u64) -> Codes {
    match context.find_frames(probe) {
        LookupResult::Output(found) => frames_or_fault(found),
        LookupResult::Load { continuation } => load_codes(&continuation.into_load()),
    }
}

fn resume_frames<R: Reader>(
    context: &mut Context<R>,
    probe: u64,
    input: Option<Rc<Dwarf<R>>>,
) -> Codes {
    match context.find_frames(probe) {
        LookupResult::Output(found) => frames_or_fault(found),
        LookupResult::Load { continuation } => match continuation.resume(input) {
            LookupResult::Output(found) => frames_or_fault(found),
            LookupResult::Load { continuation } => load_codes(continuation.load()),
        },
    }
}

fn skip_frames<R: Reader>(context: &mut Context<R>, probe: u64) -> Codes {
    frames_or_fault(context.find_frames(probe).skip_all_loads())
}

fn frames_reply<R: Reader>(
    context: &mut Context<R>,
    given: &Given<'_, R>,
    probe: u64,
    answer: Answer,
) -> Codes {
    match answer {
        Answer::Drop => drop_frames(context, probe),
        Answer::Abandon => abandon_frames(context, probe),
        Answer::IntoLoad => load_of_frames(context, probe),
        Answer::Nothing => resume_frames(context, probe, None),
        Answer::Split => match given.share() {
            Ok(split) => resume_frames(context, probe, Some(split)),
            Err(error) => fault_codes(error),
        },
        Answer::Skip => skip_frames(context, probe),
    }
}

fn drop_unit<R: Reader>(context: &mut Context<R>, probe: u64) -> Codes {
    match context.find_dwarf_and_unit(probe) {
        LookupResult::Output(found) => unit_codes(found),
        LookupResult::Load { continuation } => load_codes(continuation.load()),
    }
}

fn abandon_unit<R: Reader>(context: &mut Context<R>, probe: u64) -> Codes {
    match context.find_dwarf_and_unit(probe) {
        LookupResult::Output(found) => unit_codes(found),
        LookupResult::Load { continuation } => {
            let codes = load_codes(continuation.load());
            continuation.abandon();
            codes
        }
    }
}

fn load_of_unit<R: Reader>(context: &mut Context<R>, probe: u64) -> Codes {
    match context.find_dwarf_and_unit(probe) {
        LookupResult::Output(found) => unit_codes(found),
        LookupResult::Load { continuation } => load_codes(&continuation.into_load()),
    }
}

fn resume_unit<R: Reader>(
    context: &mut Context<R>,
    probe: u64,
    input: Option<Rc<Dwarf<R>>>,
) -> Codes {
    match context.find_dwarf_and_unit(probe) {
        LookupResult::Output(found) => unit_codes(found),
        LookupResult::Load { continuation } => match continuation.resume(input) {
            LookupResult::Output(found) => unit_codes(found),
            LookupResult::Load { continuation } => load_codes(continuation.load()),
        },
    }
}

fn skip_unit<R: Reader>(context: &mut Context<R>, probe: u64) -> Codes {
    unit_codes(context.find_dwarf_and_unit(probe).skip_all_loads())
}

fn unit_reply<R: Reader>(
    context: &mut Context<R>,
    given: &Given<'_, R>,
    probe: u64,
    answer: Answer,
) -> Codes {
    match answer {
        Answer::Drop => drop_unit(context, probe),
        Answer::Abandon => abandon_unit(context, probe),
        Answer::IntoLoad => load_of_unit(context, probe),
        Answer::Nothing => resume_unit(context, probe, None),
        Answer::Split => match given.share() {
            Ok(split) => resume_unit(context, probe, Some(split)),
            Err(error) => fault_codes(error),
        },
        Answer::Skip => skip_unit(context, probe),
    }
}

// The tokens of the first two loads are kept.
fn preload_reply<R: Reader>(context: &mut Context<R>, probe: u64, listed: &mut Tokens) -> Codes {
    match context.preload_units(probe) {
        Ok(loads) => {
            *listed = [0, 1].map(|i: usize| loads.get(i).map(|load| load.unit));
            loads_codes(loads.as_slice())
        }
        Err(error) => fault_codes(error),
    }
}

fn load_reply<R: Reader>(context: &mut Context<R>, given: &Given<'_, R>, number: usize) -> Codes {
    let token = match given.token(number) {
        Ok(token) => token,
        Err(error) => return fault_codes(error),
    };
    match given.share() {
        Ok(split) => done_codes(context.load_unit(token, Some(split))),
        Err(error) => fault_codes(error),
    }
}

// The answer of a call that takes nothing but a unit.
fn token_reply<R: Reader>(
    context: &mut Context<R>,
    token: Result<UnitToken, Error>,
    forgets: bool,
) -> Codes {
    match token {
        Ok(token) if forgets => done_codes(context.forget(token)),
        Ok(token) => done_codes(context.load_unit(token, None)),
        Err(error) => fault_codes(error),
    }
}

/// The answer of one call, made by itself.
pub fn reply<R: Reader>(
    context: &mut Context<R>,
    given: &Given<'_, R>,
    call: Call,
    listed: &mut Tokens,
) -> Codes {
    match call {
        Call::NoCall => DONE,
        Call::Frames(probe, answer) => frames_reply(context, given, probe, answer),
        Call::Unit(probe, answer) => unit_reply(context, given, probe, answer),
        Call::Location(probe) => located_codes(context.find_location(probe)),
        Call::Rows(low, high, from) => {
            rows_codes(context.find_location_range(low, high), from, true)
        }
        Call::RowsAlone(low, high, from) => {
            rows_codes(context.find_location_range(low, high), from, false)
        }
        Call::Preload(probe) => preload_reply(context, probe, listed),
        Call::Load(number) => load_reply(context, given, number),
        Call::LoadNothing(number) => token_reply(context, given.token(number), false),
        Call::Forget(number) => token_reply(context, given.token(number), true),
        Call::ParseLines => done_codes(context.parse_lines()),
        Call::ParseFunctions => done_codes(context.parse_functions()),
        Call::ParseInlined => done_codes(context.parse_inlined_functions()),
    }
}
