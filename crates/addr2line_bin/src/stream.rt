//! Texts to streams that may fail.

ghost use Rattle.std.specs.Prelude.{◌≡◌, ◌++◌, OnOk, IfErr, MatchResult, None, false, is_err, true};
ghost use Rattle.std.specs.Io.KnownBytes.{Appends, Keeps};
ghost use Rattle.addr2line_bin.specs.Calls.{Made};
ghost use Rattle.addr2line_bin.specs.Put.{FlushesBy, PutsBy, Reports, WritesPrefix};
ghost use Rattle.addr2line_bin.specs.Put.{last_fault_after, plus};
ghost use Rattle.addr2line_bin.specs.Stopped.{IsFault, reason_of};
ghost use Rattle.addr2line_bin.specs.declared.stream.StopReason.TheVariants as stop;

use crate::calls::Sink;
use std::alloc::AllocError;
use std::io::ErrorKind;

/// Why the program stops before the last address.
pub enum StopReason {
    /// A growth was refused.
    OutOfMemory,
    /// The output can't be written.
    Output {
        /// Whether nobody reads it any more.
        is_broken_pipe: bool,
    },
}

impl From<AllocError> for StopReason {
    ghost from_gives = { λ _ e. e ≡ stop.OutOfMemory };

    fn from(_error: AllocError) -> StopReason {
        StopReason::OutOfMemory
    }
}

impl From<ErrorKind> for StopReason {
    ghost from_gives = { λ kind e. e ≡ reason_of kind };

    fn from(kind: ErrorKind) -> StopReason {
        StopReason::Output {
            is_broken_pipe: matches!(kind, ErrorKind::BrokenPipe),
        }
    }
}

/// A stream that texts go to.
pub trait Stream {
    ghost use Rattle.std.specs.Prelude.{◌≡◌, MatchResult, OnOk, false, is_err, true};
    ghost use Rattle.std.specs.Io.KnownBytes.{Appends, Keeps};
    ghost use Rattle.addr2line_bin.specs.Put.{StreamState, WritesPrefix, last_fault_after};
    ghost use Rattle.addr2line_bin.specs.Put.{flushes_after, has_fault};

    /// Its bytes, its flushes, its last fault, and whether its last call had that.
    ghost state: { Self → StreamState };

    /// Whether a call has failed.
    fn has_failed(&self) -> bool
        ensures gives { result ≡ has_fault (state self.now) };

    /// Writes the bytes, or a beginning of them before a fault. Nothing is flushed by that.
    fn put(&mut self, bytes: &[u8]) -> Result<(), ErrorKind>
        ensures gives { MatchResult result
            (λ _. Appends (state self.old).contents (state self.new).contents bytes.now)
            (λ _. WritesPrefix (state self.old).contents (state self.new).contents bytes.now) }
        ensures kept { (state self.new).flushes ≡ (state self.old).flushes }
        ensures left { (state self.new).is_flushed ≡ false }
        ensures fault { (state self.new).fault ≡ last_fault_after (state self.old).fault result }
        ensures refused { (state self.new).is_failing ≡ is_err result };

    /// Hands on what was written.
    fn flush(&mut self) -> Result<(), ErrorKind>
        ensures kept { Keeps (state self.old).contents (state self.new).contents }
        ensures after { (state self.new).flushes
            ≡ flushes_after (state self.old).flushes result }
        ensures whole { OnOk result ((state self.new).is_flushed ≡ true) }
        ensures fault { (state self.new).fault ≡ last_fault_after (state self.old).fault result }
        ensures refused { (state self.new).is_failing ≡ is_err result };
}

/// A sink as a stream. How often it was flushed isn't known.
#[derive(Drop)]
pub struct Written<W: Sink> {
    /// Where the bytes go.
    pub writer: W,
    is_flushed: bool,
    fault: Option<ErrorKind>,
    is_failing: bool,
}

impl<W: Sink> Written<W> {
    /// A stream to which nothing went yet, and that hasn't failed.
    pub fn new(writer: W) -> Written<W>
        ensures gives { result ≡ record {
          writer = writer;
          is_flushed = true;
          fault = None;
          is_failing = false;
        } }
    {
        Written {
            writer,
            is_flushed: true,
            fault: None,
            is_failing: false,
        }
    }
}

impl<W: Sink> Stream for Written<W> {
    ghost state = { λ s. record {
      contents = W.contents s.writer;
      flushes = None;
      is_flushed = s.is_flushed;
      fault = s.fault;
      is_failing = s.is_failing;
    } };

    fn has_failed(&self) -> bool {
        self.fault.is_some()
    }

    fn put(&mut self, bytes: &[u8]) -> Result<(), ErrorKind>
        ensures by_calls { Made W.gives self.old.writer self.new.writer (PutsBy bytes.now result) }
        ensures gives { MatchResult result
            (λ _. Appends (W.contents self.old.writer) (W.contents self.new.writer) bytes.now)
            (λ _. WritesPrefix (W.contents self.old.writer) (W.contents self.new.writer)
            bytes.now) }
        ensures left { self.new.is_flushed ≡ false }
        ensures fault { self.new.fault ≡ last_fault_after self.old.fault result }
        ensures refused { self.new.is_failing ≡ is_err result }
    {
        self.is_flushed = false;
        let answer = put(&mut self.writer, bytes);
        noted(&mut self.fault, &mut self.is_failing, answer)
    }

    #[tactic(auto, using(crate::proofs::CallLemmas::flushed_by))]
    fn flush(&mut self) -> Result<(), ErrorKind>
        ensures by_calls { Made W.gives self.old.writer self.new.writer (FlushesBy result) }
        ensures kept { Keeps (W.contents self.old.writer) (W.contents self.new.writer) }
        ensures whole { OnOk result (self.new.is_flushed ≡ true) }
        ensures fault { self.new.fault ≡ last_fault_after self.old.fault result }
        ensures refused { self.new.is_failing ≡ is_err result }
    {
        let answer = self.writer.flush();
        self.is_flushed = answer.is_ok();
        noted(&mut self.fault, &mut self.is_failing, answer)
    }
}

// An answer, of which is noted whether it is a fault, and which one.
fn noted(
    fault: &mut Option<ErrorKind>,
    is_failing: &mut bool,
    answer: Result<(), ErrorKind>,
) -> Result<(), ErrorKind>
    ensures gives { result ≡ answer }
    ensures fault { fault.new ≡ last_fault_after fault.old answer }
    ensures refused { is_failing.new ≡ is_err answer }
{
    match answer {
        Ok(()) => {
            *is_failing = false;
            Ok(())
        }
        Err(kind) => {
            *is_failing = true;
            *fault = Some(kind);
            Err(kind)
        }
    }
}

// Writes the bytes; no call is tried again.
fn put<W: Sink>(out: &mut W, bytes: &[u8]) -> Result<(), ErrorKind>
    ensures by_calls { Made W.gives out.old out.new (PutsBy bytes.now result) }
    ensures gives { MatchResult result
        (λ _. Appends (W.contents out.old) (W.contents out.new) bytes.now)
        (λ _. WritesPrefix (W.contents out.old) (W.contents out.new) bytes.now) }
{
    let mut rest = bytes;
    while !rest.is_empty() {
        let count = out.write(rest)?;
        if count == 0 {
            return Err(ErrorKind::WriteZero);
        }
        let (_, after) = rest.split_at(count);
        rest = after;
    }
    Ok(())
}

/// Writes a text to standard error, unless that has failed before.
pub fn tell<E: Stream>(err: &mut E, text: &str)
    ensures gives { Reports (E.state err.old) (E.state err.new) text.now }
{
    if !err.has_failed() {
        let _answer = err.put(text.as_bytes());
    }
}

/// Writes two texts, one after the other, as `tell` does.
#[tactic(auto, using(crate::proofs::Parts::sends_on))]
pub fn tell_both<E: Stream>(err: &mut E, first: &str, second: &str)
    ensures gives { Reports (E.state err.old) (E.state err.new) (first.now ++ second.now) }
{
    tell(err, first);
    tell(err, second);
}

/// Writes and flushes a text of the output.
#[tactic(auto, using(crate::proofs::Parts::part_flushed, crate::proofs::Parts::keeps_after))]
pub fn send<W: Stream>(out: &mut W, text: &str) -> Result<(), StopReason>
    ensures gives { OnOk result
        (Appends (W.state out.old).contents (W.state out.new).contents text.now) }
    ensures after { MatchResult result
        (λ _. (W.state out.new).flushes ≡ plus (W.state out.old).flushes 1)
        (λ _. (W.state out.new).flushes ≡ (W.state out.old).flushes) }
    ensures whole { OnOk result ((W.state out.new).is_flushed ≡ true) }
    ensures fault { OnOk result ((W.state out.new).fault ≡ (W.state out.old).fault) }
    ensures refused { IfErr result (λ e. IsFault (W.state out.new) e
        × WritesPrefix (W.state out.old).contents (W.state out.new).contents text.now) }
{
    out.put(text.as_bytes())?;
    out.flush()?;
    Ok(())
}
