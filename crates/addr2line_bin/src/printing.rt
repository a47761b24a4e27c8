//! Printing of addresses that are asked for one after another.

ghost use Rattle.std.specs.Prelude.{◌≡◌, ◌∷◌, [], ℕ, List, Some, map};
ghost use Rattle.addr2line_bin.specs.FileAnswers.{StaysAnswered};
ghost use Rattle.addr2line_bin.specs.Printing.{PrintsReadUnlessStopped, PrintsUnlessStopped};
ghost use Rattle.addr2line_bin.specs.ProbeTexts.{IsText};
ghost use Rattle.addr2line_bin.specs.Address.{probes_in};

use crate::address::address_of;
use crate::input::{Input, next_line};
use crate::lookups::Lookups;
use crate::options::RunContext;
use crate::probe_text::{Texts, make_texts};
use crate::stream::{StopReason, Stream, send, tell};
use std::str;

// Prints what is asked for.
fn print_one<L: Lookups, W: Stream, E: Stream>(
    texts: &mut Texts,
    context: &RunContext<'_>,
    lookups: &mut L,
    probe: Option<u64>,
    out: &mut W,
    err: &mut E,
) -> Result<(), StopReason>
    ensures kept { StaysAnswered (L.answers lookups.old) (L.answers lookups.new) }
    ensures gives { PrintsUnlessStopped (IsText (L.answers lookups.old) context.now)
        (W.state out.old) (W.state out.new) (E.state err.old) (E.state err.new)
        (probe ∷ []) result }
{
    make_texts(texts, context, lookups, probe)?;
    tell(err, texts.err.as_str());
    send(out, texts.out.as_str())
}

/// Prints what the words ask for.
pub fn print_words<L: Lookups, W: Stream, E: Stream>(
    context: &RunContext<'_>,
    lookups: &mut L,
    words: &[String],
    out: &mut W,
    err: &mut E,
) -> Result<(), StopReason>
    ensures gives { PrintsUnlessStopped (IsText (L.answers lookups.old) context.now)
        (W.state out.old) (W.state out.new) (E.state err.old) (E.state err.new)
        (probes_in words.now) result }
{
    let mut texts = Texts::new(context.alloc);
    for word in words {
        let probe = address_of(word.as_str());
        print_one(&mut texts, context, lookups, probe, out, err)?;
    }
    Ok(())
}

/// Prints what addresses ask for.
pub fn print_addresses<L: Lookups, W: Stream, E: Stream>(
    context: &RunContext<'_>,
    lookups: &mut L,
    addresses: &[u64],
    out: &mut W,
    err: &mut E,
) -> Result<(), StopReason>
    ensures gives { PrintsUnlessStopped (IsText (L.answers lookups.old) context.now)
        (W.state out.old) (W.state out.new) (E.state err.old) (E.state err.new)
        (map Some addresses.now) result }
{
    let mut texts = Texts::new(context.alloc);
    for address in addresses {
        print_one(&mut texts, context, lookups, Some(*address), out, err)?;
    }
    Ok(())
}

/// Prints what the lines of an input ask for, each before the next is read.
pub fn print_lines<L: Lookups, I: Input, W: Stream, E: Stream>(
    context: &RunContext<'_>,
    lookups: &mut L,
    input: &mut I,
    out: &mut W,
    err: &mut E,
) -> Result<(), StopReason>
    ensures gives { (lines : List (List ℕ))
        × PrintsReadUnlessStopped (IsText (L.answers lookups.old) context.now)
        (I.state input.old) (I.state input.new) lines (W.state out.old) (W.state out.new)
        (E.state err.old) (E.state err.new) result }
{
    let mut texts = Texts::new(context.alloc);
    let mut line = Vec::new(context.alloc);
    for _ in 0..u64::MAX {
        if !next_line(input, &mut line)? {
            return Ok(());
        }
        let Ok(text) = str::from_utf8(line.as_slice()) else {
            return Ok(());
        };
        print_one(&mut texts, context, lookups, address_of(text), out, err)?;
    }
    Ok(())
}
