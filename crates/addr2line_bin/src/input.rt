//! Inputs that lines are read from.

ghost use Rattle.std.specs.Prelude.{◌≡◌, IfOk, None, OnErr, Some};
ghost use Rattle.std.specs.declared.io.ErrorKind.TheVariants.{OutOfMemory};
ghost use Rattle.std.specs.Io.BufRead.{ends_with_byte, strip_last};
ghost use Rattle.addr2line_bin.specs.Calls.{Made};
ghost use Rattle.addr2line_bin.specs.InputLines.{ReadsBy, ReadsLine, TakesLine, TakesPart};
ghost use Rattle.addr2line_bin.specs.InputLines.{cut_line};
ghost use Rattle.addr2line_bin.specs.Put.{last_fault_after, plus};

use crate::calls::LineSource;
use std::alloc::AllocError;
use std::io::ErrorKind;

/// An input that lines are read from.
pub trait Input {
    ghost use Rattle.std.specs.Prelude.{◌≡◌, IfOk, OnErr};
    ghost use Rattle.addr2line_bin.specs.InputLines.{InputState, TakesLine, TakesPart};
    ghost use Rattle.addr2line_bin.specs.Put.{last_fault_after, plus};

    /// The bytes that are left, how often a line was asked for, and the last fault of a read.
    ghost state: { Self → InputState };

    /// Reads the next line, without its end, in place of what `line` has; whether there is one.
    fn read_line(&mut self, line: &mut Vec<u8>) -> Result<bool, ErrorKind>
        ensures gives { IfOk result (λ is_read.
            TakesLine is_read (state self.old).bytes (state self.new).bytes line.new.items) }
        ensures refused { OnErr result (TakesPart (state self.old).bytes (state self.new).bytes) }
        ensures after { (state self.new).reads ≡ plus (state self.old).reads 1 }
        ensures fault { (state self.new).fault ≡ last_fault_after (state self.old).fault result };
}

/// Reads the next line as `read_line` does, once. There is none where the read fails.
///
/// Refused instead where it fails since memory was refused for the line.
pub fn next_line<I: Input>(input: &mut I, line: &mut Vec<u8>) -> Result<bool, AllocError>
    ensures gives { IfOk result (λ is_read.
        ReadsLine is_read (I.state input.old) (I.state input.new) line.new.items) }
    ensures refused { OnErr result (((I.state input.new).fault ≡ Some OutOfMemory)
        × TakesPart (I.state input.old).bytes (I.state input.new).bytes) }
    ensures after { (I.state input.new).reads ≡ plus (I.state input.old).reads 1 }
{
    match input.read_line(line) {
        Ok(is_read) => Ok(is_read),
        Err(ErrorKind::OutOfMemory) => Err(AllocError),
        Err(_) => Ok(false),
    }
}

/// A source of lines as an input. How often it is asked isn't known.
#[derive(Drop)]
pub struct ReaderInput<R: LineSource> {
    reader: R,
    fault: Option<ErrorKind>,
}

impl<R: LineSource> ReaderInput<R> {
    /// An input no read of which has failed.
    pub fn new(reader: R) -> ReaderInput<R>
        ensures gives { result ≡ record { reader = reader; fault = None } }
    {
        ReaderInput {
            reader,
            fault: None,
        }
    }
}

// Cuts the last byte if it is this one; whether it was.
fn cut_last(bytes: &mut Vec<u8>, byte: u8) -> bool
    ensures gives { result ≡ ends_with_byte byte bytes.old.items }
    ensures left { bytes.new.items ≡ strip_last byte bytes.old.items }
{
    let count = bytes.len();
    if count == 0 {
        return false;
    }
    if bytes[count - 1] != byte {
        return false;
    }
    bytes.truncate(count - 1);
    true
}

// Cuts a line feed at the end, and a carriage return before it.
fn cut_line_end(line: &mut Vec<u8>)
    ensures gives { line.new.items ≡ cut_line line.old.items }
{
    if cut_last(line, b'\n') {
        cut_last(line, b'\r');
    }
}

impl<R: LineSource> Input for ReaderInput<R> {
    ghost state = { λ s. record { bytes = R.remaining s.reader; reads = None; fault = s.fault } };

    fn read_line(&mut self, line: &mut Vec<u8>) -> Result<bool, ErrorKind>
        ensures by_calls { Made R.gives self.old.reader self.new.reader
            (ReadsBy result line.new.items) }
        ensures gives { IfOk result (λ is_read. TakesLine is_read
            (R.remaining self.old.reader) (R.remaining self.new.reader) line.new.items) }
        ensures refused { OnErr result
            (TakesPart (R.remaining self.old.reader) (R.remaining self.new.reader)) }
        ensures fault { self.new.fault ≡ last_fault_after self.old.fault result }
    {
        line.clear();
        match self.reader.read_to(b'\n', line) {
            Ok(0) => Ok(false),
            Ok(_) => {
                cut_line_end(line);
                Ok(true)
            }
            Err(kind) => {
                self.fault = Some(kind);
                Err(kind)
            }
        }
    }
}
