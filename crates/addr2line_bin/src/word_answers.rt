//! What is told of words that ask for nothing of a file.

ghost use Rattle.std.specs.Prelude.{◌≡◌};
ghost use Rattle.std.specs.Process.{exit_status};
ghost use Rattle.clap.specs.Values.{kind_of};
ghost use Rattle.addr2line_bin.specs.declared.exit.TheConstants.{USAGE_STATUS};
ghost use Rattle.addr2line_bin.specs.Put.{Reports};
ghost use Rattle.addr2line_bin.specs.Told.{misuse_reason, misuse_text, usage_text};
ghost use Rattle.addr2line_bin.specs.WordAnswers.{AnswersFault, AnswersWords, ShowsText, is_help_or_version};

use crate::command_line::{Misuse, WordFault};
use crate::exit::{DONE_STATUS, USAGE_STATUS, status_of, tell_last, tell_usage};
use crate::stream::{StopReason, Stream, send, tell, tell_both};
use clap::error::ErrorKind;
use std::alloc::Global;
use std::process::ExitCode;

/// Writes how the program is used, where the words ask for nothing.
pub fn answer_misuse<E: Stream>(name: &str, err: &mut E) -> ExitCode
    ensures after { Reports (E.state err.old) (E.state err.new) (usage_text name.now) }
    ensures gives { exit_status result ≡ USAGE_STATUS }
{
    tell_usage(name, err);
    ExitCode::from(USAGE_STATUS)
}

// What is wrong with words that the command takes.
fn misuse_reason(why: Misuse) -> &'static str
    ensures gives { result.now ≡ misuse_reason why }
{
    match why {
        Misuse::RecursionLimit => {
            ": -r and -R are not taken: how deep names are read is fixed\n"
        }
        Misuse::OutputStyle => ": --output-style is GNU, LLVM or JSON\n",
        Misuse::NameStyle => ": --demangle is rust, auto or none\n",
        Misuse::NoFile => ": no file: -e names it, and without -e a.out is not taken\n",
        Misuse::AllAndAddresses => ": --all stands beside no address\n",
    }
}

// Writes why words that the command takes ask for nothing, and how the program is used.
#[tactic(auto, using(crate::proofs::Parts::sends_on))]
fn answer_misused<E: Stream>(name: &str, why: Misuse, err: &mut E) -> ExitCode
    ensures after { Reports (E.state err.old) (E.state err.new) (misuse_text name.now why) }
    ensures gives { exit_status result ≡ USAGE_STATUS }
{
    tell_both(err, name, misuse_reason(why));
    answer_misuse(name, err)
}

// Writes the help or the version to the output.
fn show_text<W: Stream, E: Stream>(name: &str, text: &str, out: &mut W, err: &mut E) -> ExitCode
    ensures gives { ShowsText name.now text.now (W.state out.old) (W.state out.new)
        (E.state err.old) (E.state err.new) (exit_status result) }
{
    match send(out, text) {
        Ok(()) => ExitCode::from(DONE_STATUS),
        Err(stop) => status_of(tell_last(name, stop, err)),
    }
}

// Whether the text of a fault is the help or the version.
fn is_shown(error: &clap::Error) -> bool
    ensures gives { result ≡ is_help_or_version (kind_of error.now) }
{
    matches!(
        error.kind(),
        ErrorKind::DisplayHelp | ErrorKind::DisplayVersion
    )
}

// Writes why the command doesn't take the words, or the help or the version that they ask for.
fn answer_words<W: Stream, E: Stream>(
    alloc: Global,
    name: &str,
    error: &clap::Error,
    out: &mut W,
    err: &mut E,
) -> ExitCode
    ensures gives { AnswersWords name.now (is_help_or_version (kind_of error.now))
        (W.state out.old) (W.state out.new) (E.state err.old) (E.state err.new)
        (exit_status result) }
{
    let Ok(text) = format!(in alloc; "{error}") else {
        return status_of(tell_last(name, StopReason::OutOfMemory, err));
    };
    if is_shown(error) {
        return show_text(name, text.as_str(), out, err);
    }
    tell(err, text.as_str());
    ExitCode::from(USAGE_STATUS)
}

/// Writes why the words ask for nothing, or the help or the version that they ask for.
pub fn answer_fault<W: Stream, E: Stream>(
    alloc: Global,
    name: &str,
    fault: WordFault,
    out: &mut W,
    err: &mut E,
) -> ExitCode
    ensures gives { AnswersFault name.now fault (W.state out.old) (W.state out.new)
        (E.state err.old) (E.state err.new) (exit_status result) }
{
    match fault {
        WordFault::OutOfMemory => status_of(tell_last(name, StopReason::OutOfMemory, err)),
        WordFault::Misuse(why) => answer_misused(name, why, err),
        WordFault::Clap(error) => answer_words(alloc, name, &error, out, err),
    }
}
