//! The whole run: from the words of the command line to the status.

ghost use Rattle.std.specs.Prelude.{◌≡◌};
ghost use Rattle.std.specs.Process.{exit_status};
ghost use Rattle.addr2line_bin.specs.Print.{last_text};
ghost use Rattle.addr2line_bin.specs.Put.{Reports};
ghost use Rattle.addr2line_bin.specs.WholeRun.{AnswersGiven, AnswersTaken, IsWholeRun, RunsWith};
ghost use Rattle.addr2line_bin.specs.declared.exit.TheConstants.{FAILED_STATUS};
ghost use Rattle.addr2line_bin.specs.declared.stream.StopReason.TheVariants as stop;

use crate::command_line::{Request, command_line};
use crate::exit::{Exit, status_of, tell_last};
use crate::input::Input;
use crate::program::run;
use crate::program_name::program_name;
use crate::response_files::expanded_words;
use crate::stream::{StopReason, Stream};
use crate::word_answers::{answer_fault, answer_misuse};
use addr2line::{FileSource, LoaderOver};
use std::alloc::{AllocError, Global};
use std::io::ErrorKind;
use std::process::ExitCode;

// Loads the files that a request names, and prints what is asked of them with an input; or tells
// that memory was refused for the input.
#[tactic(auto, using(crate::proofs::CommandLemmas::deref_text, crate::proofs::CommandLemmas::deref_some))]
fn run_with<F: FileSource, I: Input + Drop, W: Stream, E: Stream>(
    alloc: Global,
    files: F,
    request: &Request,
    input: Result<I, AllocError>,
    out: &mut W,
    err: &mut E,
) -> Exit
    ensures gives { RunsWith F.files files request.now I.state input
        (W.state out.old) (W.state out.new) (E.state err.old) (E.state err.new) result }
{
    let Ok(input) = input else {
        return tell_last(request.options.name.as_str(), StopReason::OutOfMemory, err);
    };
    let mut input = input;
    let loader = LoaderOver::over_with(
        alloc,
        files,
        request.compressed,
        request.exe.as_str(),
        request.sup.as_deref(),
    );
    run(alloc, &request.options, loader, &mut input, out, err)
}

// Answers the words of a command line.
fn answer_words<F: FileSource, I: Input + Drop, W: Stream, E: Stream>(
    alloc: Global,
    files: F,
    words: &[String],
    input: Result<I, AllocError>,
    out: &mut W,
    err: &mut E,
) -> ExitCode
    ensures gives { AnswersTaken F.files files words.now I.state input
        (W.state out.old) (W.state out.new) (E.state err.old) (E.state err.new)
        (exit_status result) }
{
    match command_line(alloc, words) {
        Ok(request) => status_of(run_with(alloc, files, &request, input, out, err)),
        Err(fault) => answer_fault(alloc, program_name(words), fault, out, err),
    }
}

// Tells that memory was refused for words.
fn tell_no_memory<E: Stream>(name: &str, err: &mut E) -> ExitCode
    ensures after { Reports (E.state err.old) (E.state err.new)
        (last_text name.now stop.OutOfMemory) }
    ensures gives { exit_status result ≡ FAILED_STATUS }
{
    status_of(tell_last(name, StopReason::OutOfMemory, err))
}

// Answers the words of a command line, with those of files in place of words that name these.
fn answer_given<F: FileSource, I: Input + Drop, W: Stream, E: Stream>(
    alloc: Global,
    files: F,
    words: &[String],
    input: Result<I, AllocError>,
    out: &mut W,
    err: &mut E,
) -> ExitCode
    ensures gives { AnswersGiven F.files files words.now I.state input
        (W.state out.old) (W.state out.new) (E.state err.old) (E.state err.new)
        (exit_status result) }
{
    match expanded_words(alloc, &files, words) {
        Ok(Some(taken)) => answer_words(alloc, files, taken.as_slice(), input, out, err),
        Ok(None) => answer_words(alloc, files, words, input, out, err),
        Err(_) => tell_no_memory(program_name(words), err),
    }
}

/// All that the program does, by what the host has: the words of its command line, or why there are
/// none; the files; standard input, if there is memory for it; and the two streams.
///
/// Words of files stand in place of the words that name these (`expanded_words`). What the words
/// ask for goes to `out`, and what they and the files lack to `err`; the status says which it was.
/// Words that can't be had are misuse, as where one isn't UTF-8, but for refused
/// memory.
pub fn run_program<F: FileSource, I: Input + Drop, W: Stream, E: Stream>(
    alloc: Global,
    files: F,
    words: Result<Vec<String>, ErrorKind>,
    input: Result<I, AllocError>,
    out: &mut W,
    err: &mut E,
) -> ExitCode
    ensures gives { IsWholeRun F.files files words I.state input
        (W.state out.old) (W.state out.new) (E.state err.old) (E.state err.new)
        (exit_status result) }
{
    match words {
        Ok(words) => answer_given(alloc, files, words.as_slice(), input, out, err),
        Err(ErrorKind::OutOfMemory) => tell_no_memory(program_name(&[]), err),
        Err(_) => answer_misuse(program_name(&[]), err),
    }
}
