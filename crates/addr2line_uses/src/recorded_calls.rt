//! Calls that were recorded, made again.

ghost use Rattle.std.specs.Prelude.{◌≡◌, ◌∷◌, [], IfOk, map};
ghost use Rattle.addr2line.specs.RecordedCalls.{as_call};
ghost use Rattle.addr2line.specs.History.{AsksFrames, AsksLocation, ParsesLines, replies_to};
ghost use Rattle.addr2line.specs.OwnedReplies.{as_reply};

use addr2line::gimli::read::{Error, Reader};
use addr2line::{Call, Context, Reply, replay};
use std::alloc::Global;

/// The replies to a location, all functions at it, and the parse of all lines.
pub fn replies_at<R: Reader>(
    alloc: Global,
    context: &mut Context<R>,
    address: u64,
) -> Result<Vec<Reply>, Error>
    ensures gives { IfOk result (λ replies. map as_reply replies.items
        ≡ replies_to context.old.sections context.old.answers
        (AsksLocation address ∷ AsksFrames address [] ∷ ParsesLines ∷ [])) }
{
    let mut calls = Vec::new(alloc);
    calls.push(Call::Location(address))?;
    calls.push(Call::Frames(address, Vec::new(alloc)))?;
    calls.push(Call::ParseLines)?;
    replay(context, &calls)
}

/// The replies of two contexts to the same calls. They are equal where the contexts are of equal
/// sections and have the same first answers, whatever their readers.
pub fn replies_of_both<R: Reader, S: Reader>(
    one: &mut Context<R>,
    other: &mut Context<S>,
    calls_of_one: &[Call<R>],
    calls_of_other: &[Call<S>],
) -> Result<(Vec<Reply>, Vec<Reply>), Error>
    requires sections { other.old.sections ≡ one.old.sections }
    requires answers { other.old.answers ≡ one.old.answers }
    requires calls { map as_call calls_of_other.now ≡ map as_call calls_of_one.now }
    ensures gives { IfOk result (λ both.
        map as_reply both.1.items ≡ map as_reply both.0.items) }
{
    let replies_of_one = replay(one, calls_of_one)?;
    let replies_of_other = replay(other, calls_of_other)?;
    Ok((replies_of_one, replies_of_other))
}
