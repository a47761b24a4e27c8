//! A run over a file: what is asked for, printed.

ghost use Rattle.std.specs.Prelude.{◌≡◌, Ok, Err, Option, option_map, string_bytes};
ghost use Rattle.addr2line_bin.specs.Print.{EndsRun};
ghost use Rattle.addr2line_bin.specs.ProgramRun.{IsRun, IsRunContext, PrintsAsked, section_asked};
ghost use Rattle.addr2line_bin.specs.Put.{Reports};
ghost use Rattle.addr2line_bin.specs.Told.{addresses_fault_text, section_fault_text};
ghost use Rattle.addr2line_bin.specs.declared.exit.Exit.TheVariants as exit;
ghost use Rattle.std.specs.Result.{result_map_both};

use crate::all_addresses::all_addresses;
use crate::exit::{Exit, tell_last, tell_load_fault};
use crate::input::Input;
use crate::lookups::Lookups;
use crate::options::{Options, Probes, RunContext};
use crate::printing::{print_addresses, print_lines, print_words};
use crate::stream::{StopReason, Stream, tell_both};
use addr2line::{LoaderError, Range};
use std::alloc::Global;
use std::mem;

// Writes that a section isn't there.
#[tactic(auto, using(crate::proofs::Parts::sends_on))]
fn tell_no_section<E: Stream>(name: &str, section: &str, err: &mut E) -> Exit
    ensures after { Reports (E.state err.old) (E.state err.new)
        (section_fault_text name.now section.now) }
    ensures gives { result ≡ exit.Failed }
{
    tell_both(err, name, ": cannot find section ");
    tell_both(err, section, "\n");
    Exit::Failed
}

// Writes why the addresses of all rows can't be found.
fn tell_addresses_fault<E: Stream>(name: &str, fault: LoaderError, err: &mut E) -> Exit
    ensures after { Reports (E.state err.old) (E.state err.new)
        (addresses_fault_text name.now fault) }
    ensures gives { result ≡ exit.Failed }
{
    tell_both(err, name, ": failed to find all addresses: ");
    tell_both(err, fault.text(), "\n");
    Exit::Failed
}

// Ends a run that printed, or tells why it stopped early.
fn end_run<E: Stream>(name: &str, printed: Result<(), StopReason>, err: &mut E) -> Exit
    ensures gives { EndsRun name.now (E.state err.old) (E.state err.new) printed result }
{
    match printed {
        Ok(()) => Exit::Done,
        Err(stop) => tell_last(name, stop, err),
    }
}

// Prints what is asked for.
fn run_asked<L: Lookups, I: Input, W: Stream, E: Stream>(
    context: &RunContext<'_>,
    probes: &Probes,
    lookups: &mut L,
    input: &mut I,
    out: &mut W,
    err: &mut E,
) -> Exit
    ensures gives { PrintsAsked (L.answers lookups.old) context.now probes.now
        (I.state input.old) (I.state input.new) (W.state out.old) (W.state out.new)
        (E.state err.old) (E.state err.new) result }
{
    match probes {
        Probes::All => match all_addresses(context.alloc, lookups) {
            Ok(addresses) => {
                let printed = print_addresses(context, lookups, addresses.as_slice(), out, err);
                end_run(context.name, printed, err)
            }
            Err(fault) => tell_addresses_fault(context.name, fault, err),
        },
        Probes::Words(words) => {
            let printed = print_words(context, lookups, words.as_slice(), out, err);
            end_run(context.name, printed, err)
        }
        Probes::Lines => {
            let printed = print_lines(context, lookups, input, out, err);
            end_run(context.name, printed, err)
        }
    }
}

// The addresses of the section that is named, if one is, or its name where it isn't there.
fn section_of<'a, L: Lookups>(
    section: &'a Option<String>,
    lookups: &L,
) -> Result<Option<Range>, &'a str>
    ensures gives { result_map_both (λ r. r) (λ name. name.now) result
        ≡ section_asked (L.answers lookups.now) (option_map string_bytes section.entry.now) }
{
    let Some(name) = section else {
        return Ok(None);
    };
    match lookups.get_section_range(name.as_bytes()) {
        Some(range) => Ok(Some(range)),
        None => Err(name.as_str()),
    }
}

// What is the same for each address.
fn run_context<'a>(alloc: Global, options: &'a Options, section: Option<Range>) -> RunContext<'a>
    ensures gives { IsRunContext options.entry.now section result }
{
    RunContext {
        alloc,
        name: options.name.as_str(),
        style: options.style,
        section,
    }
}

/// Prints what is asked of a file, or why its debug information can't be loaded.
///
/// What goes to `out` is the joined texts of what is asked for, each with a flush, or a beginning
/// of them after a failed write or a refused growth; then the last line on standard error says so,
/// but for a broken pipe. All of each fault's line goes to `err`, unless that has failed.
pub fn run<L: Lookups + Drop, I: Input, W: Stream, E: Stream>(
    alloc: Global,
    options: &Options,
    loader: Result<L, LoaderError>,
    input: &mut I,
    out: &mut W,
    err: &mut E,
) -> Exit
    ensures gives { IsRun L.answers loader options.now
        (I.state input.old) (I.state input.new) (W.state out.old) (W.state out.new)
        (E.state err.old) (E.state err.new) result }
{
    let mut lookups = match loader {
        Ok(lookups) => lookups,
        Err(fault) => return tell_load_fault(options.name.as_str(), fault, err),
    };
    let exit = match section_of(&options.section, &lookups) {
        Ok(section) => run_asked(
            &run_context(alloc, options, section),
            &options.probes,
            &mut lookups,
            input,
            out,
            err,
        ),
        Err(name) => tell_no_section(options.name.as_str(), name, err),
    };
    // The program ends here, and with it all of its memory goes back at once: giving back each list
    // of each unit before that would only take time.
    mem::forget(lookups);
    exit
}
