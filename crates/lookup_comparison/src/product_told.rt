//! The calls made by `replay`.

use crate::asked::{Asked, Given};
use addr2line::{Answer, Call, Context, Reply, UnitToken, replay};
use gimli::Dwarf;
use gimli::read::{Error, Reader};
use std::alloc::Global;
use std::rc::Rc;

fn share<R: Reader>(split: &Rc<Dwarf<R>>) -> Result<Option<Rc<Dwarf<R>>>, Error> {
    match split.clone() {
        Ok(split) => Ok(Some(split)),
        Err(_) => Err(Error::OutOfMemory),
    }
}

fn answers_of<R: Reader>(
    alloc: Global,
    given: Given,
    split: &Rc<Dwarf<R>>,
) -> Result<Vec<Answer<R>>, Error> {
    let mut answers = Vec::new(alloc);
    match given {
        Given::Nothing => {}
        Given::Abandon => answers.push(Answer::Abandon)?,
        Given::NoneThenSplit => {
            answers.push(Answer::Give(None))?;
            answers.push(Answer::Give(share(split)?))?;
        }
        Given::SplitThenNone => {
            answers.push(Answer::Give(share(split)?))?;
            answers.push(Answer::Give(None))?;
        }
    }
    Ok(answers)
}

fn token_of(tokens: &[UnitToken], unit: usize) -> Result<UnitToken, Error> {
    match tokens.get(unit) {
        Some(token) => Ok(*token),
        None => Err(Error::UnknownToken),
    }
}

fn call_of<R: Reader>(
    alloc: Global,
    asked: Asked,
    split: &Rc<Dwarf<R>>,
    tokens: &[UnitToken],
) -> Result<Call<R>, Error> {
    match asked {
        Asked::Location(probe) => Ok(Call::Location(probe)),
        Asked::Range(low, high) => Ok(Call::LocationRange(low, high)),
        Asked::Frames(probe, given) => Ok(Call::Frames(probe, answers_of(alloc, given, split)?)),
        Asked::Unit(probe, given) => Ok(Call::Unit(probe, answers_of(alloc, given, split)?)),
        Asked::Preload(probe) => Ok(Call::Preload(probe)),
        Asked::Load(unit, true) => Ok(Call::LoadUnit(token_of(tokens, unit)?, share(split)?)),
        Asked::Load(unit, false) => Ok(Call::LoadUnit(token_of(tokens, unit)?, None)),
        Asked::Forget(unit) => Ok(Call::Forget(token_of(tokens, unit)?)),
        Asked::ParseLines => Ok(Call::ParseLines),
        Asked::ParseFunctions => Ok(Call::ParseFunctions),
        Asked::ParseInlined => Ok(Call::ParseInlinedFunctions),
    }
}

fn calls_of<R: Reader>(
    alloc: Global,
    asked: &[Asked],
    split: &Rc<Dwarf<R>>,
    tokens: &[UnitToken],
) -> Result<Vec<Call<R>>, Error> {
    let mut calls = Vec::with_capacity(alloc, asked.len())?;
    for call in asked {
        calls.push(call_of(alloc, *call, split, tokens)?)?;
    }
    Ok(calls)
}

/// The replies to the calls, made on one context. Refused as the context is.
pub fn product_told<R: Reader>(
    alloc: Global,
    main: Rc<Dwarf<R>>,
    split: &Rc<Dwarf<R>>,
    asked: &[Asked],
    tokens: &[UnitToken],
) -> Result<Vec<Reply>, Error> {
    let mut context = Context::from_arc_dwarf(alloc, main)?;
    let calls = calls_of(alloc, asked, split, tokens)?;
    replay(&mut context, calls.as_slice())
}
