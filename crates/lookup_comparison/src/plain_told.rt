//! The calls made by the plain lookup.

use crate::asked::{Asked, Given, calls_at};
use crate::told::told;
use addr2line::{Reply, UnitToken};
use gimli::Dwarf;
use gimli::read::{Error, Reader};
use plain_lookup::{Answer, Call, History};
use std::alloc::Global;

/// The calls of a file, and the reply to each.
#[derive(Drop)]
pub struct Told {
    pub asked: Vec<Asked>,
    pub replies: Vec<Reply>,
}

fn answers_of<'a, R: Reader>(
    alloc: Global,
    given: Given,
    split: &'a Dwarf<R>,
) -> Result<Vec<Answer<'a, R>>, Error> {
    let mut answers = Vec::new(alloc);
    match given {
        Given::Nothing => {}
        Given::Abandon => answers.push(Answer::Abandon)?,
        Given::NoneThenSplit => {
            answers.push(Answer::Give(None))?;
            answers.push(Answer::Give(Some(split)))?;
        }
        Given::SplitThenNone => {
            answers.push(Answer::Give(Some(split)))?;
            answers.push(Answer::Give(None))?;
        }
    }
    Ok(answers)
}

fn reply<'a, R: Reader>(
    alloc: Global,
    history: &mut History<'a, R>,
    asked: Asked,
    split: &'a Dwarf<R>,
) -> Result<plain_lookup::Reply<R>, Error> {
    match asked {
        Asked::Location(probe) => history.step(Call::Location(probe)),
        Asked::Range(low, high) => history.step(Call::LocationRange(low, high)),
        Asked::Frames(probe, given) => {
            let answers = answers_of(alloc, given, split)?;
            history.step(Call::Frames(probe, answers.as_slice()))
        }
        Asked::Unit(probe, given) => {
            let answers = answers_of(alloc, given, split)?;
            history.step(Call::Unit(probe, answers.as_slice()))
        }
        Asked::Preload(probe) => history.step(Call::Preload(probe)),
        Asked::Load(unit, is_split) => {
            let given = if is_split { Some(split) } else { None };
            history.step(Call::LoadUnit(unit, given))
        }
        Asked::Forget(unit) => history.step(Call::Forget(unit)),
        Asked::ParseLines => history.step(Call::ParseLines),
        Asked::ParseFunctions => history.step(Call::ParseFunctions),
        Asked::ParseInlined => history.step(Call::ParseInlinedFunctions),
    }
}

/// The calls of a file, at the addresses at which its answers change, and the replies to them.
///
/// Refused as the units of the file are.
pub fn plain_told<R: Reader>(
    alloc: Global,
    main: &Dwarf<R>,
    split: &Dwarf<R>,
    tokens: &[UnitToken],
) -> Result<Told, Error> {
    let mut history = History::new(alloc, main)?;
    let addresses = history.addresses()?;
    let asked = calls_at(alloc, addresses.as_slice())?;
    let mut replies = Vec::with_capacity(alloc, asked.len())?;
    for call in &asked {
        let reply = reply(alloc, &mut history, *call, split)?;
        replies.push(told(alloc, reply, tokens)?)?;
    }
    Ok(Told { asked, replies })
}
