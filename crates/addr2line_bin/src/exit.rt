//! How the program ends, and what it tells then.

ghost use Rattle.std.specs.Prelude.{◌≡◌};
ghost use Rattle.std.specs.Process.{exit_status};
ghost use Rattle.addr2line_bin.specs.Put.{Reports};
ghost use Rattle.addr2line_bin.specs.Print.{exit_at, last_text};
ghost use Rattle.addr2line_bin.specs.ProgramRun.{status_at};
ghost use Rattle.addr2line_bin.specs.Told.{load_fault_text, usage_text};
ghost use Rattle.addr2line_bin.specs.declared.exit.Exit.TheVariants as exit;

use crate::stream::{StopReason, Stream, tell_both};
use addr2line::LoaderError;
use std::process::ExitCode;

/// The status of a run that is done, and of help and version that are written.
pub const DONE_STATUS: u8 = 0;

/// The status of a run that failed.
pub const FAILED_STATUS: u8 = 1;

/// The status of words that ask for nothing.
pub const USAGE_STATUS: u8 = 2;

/// How a run ends.
#[derive(Clone, Copy, Debug, PartialEq, Eq)]
pub enum Exit {
    /// With `DONE_STATUS`.
    Done,
    /// With `FAILED_STATUS`.
    Failed,
}

/// The status of an end.
pub fn status_of(exit: Exit) -> ExitCode
    ensures gives { exit_status result ≡ status_at exit }
{
    match exit {
        Exit::Done => ExitCode::from(DONE_STATUS),
        Exit::Failed => ExitCode::from(FAILED_STATUS),
    }
}

/// Writes why a run stopped early.
#[tactic(auto, using(crate::proofs::Parts::sends_nothing, crate::proofs::Parts::keeps_itself))]
pub fn tell_last<E: Stream>(name: &str, stop: StopReason, err: &mut E) -> Exit
    ensures after { Reports (E.state err.old) (E.state err.new) (last_text name.now stop) }
    ensures gives { result ≡ exit_at stop }
{
    match stop {
        StopReason::OutOfMemory => {
            tell_both(err, name, ": out of memory\n");
            Exit::Failed
        }
        StopReason::Output { is_broken_pipe } => {
            if is_broken_pipe {
                return Exit::Done;
            }
            tell_both(err, name, ": error writing output\n");
            Exit::Failed
        }
    }
}

/// Writes why the debug information of a file can't be loaded.
pub fn tell_load_fault<E: Stream>(name: &str, fault: LoaderError, err: &mut E) -> Exit
    ensures after { Reports (E.state err.old) (E.state err.new) (load_fault_text name.now fault) }
    ensures gives { result ≡ exit.Failed }
{
    tell_both(err, name, ": failed to load debug info: ");
    tell_both(err, fault.text(), "\n");
    Exit::Failed
}

/// Writes how the program is used.
#[tactic(auto, using(crate::proofs::Parts::sends_on))]
pub fn tell_usage<E: Stream>(name: &str, err: &mut E)
    ensures after { Reports (E.state err.old) (E.state err.new) (usage_text name.now) }
{
    tell_both(err, name, ": usage: ");
    tell_both(err, name, " -e FILE [OPTION].. [ADDR..]\n");
}
