//! Streams that tests write to and read from.

ghost use Rattle.std.specs.Prelude.{◌≡◌, Some, length};

use crate::handed::Handed;
use crate::stream::{Stream, Written};
use std::alloc::Global;
use std::io;
use std::io::{ErrorKind, Read, Write};
use std::test::Fail;

/// Takes so many calls and bytes, 20 bytes in each call at most. Then one call fails, and those
/// after it go well again and are counted; or each takes no byte.
#[derive(Drop)]
pub struct StopWriter {
    /// What it has taken.
    pub taken: Vec<u8>,
    /// How much of that was flushed.
    pub flushed: usize,
    /// How many calls came after the one that failed.
    pub late_calls: u64,
    calls: u64,
    has_failed: bool,
    room: usize,
    fault: ErrorKind,
}

// More calls and bytes than any test takes.
const AMPLE: usize = 9999;

// The most bytes that a call takes.
const MOST: usize = 20;

impl StopWriter {
    fn call(&mut self) -> io::Result<()>
        ensures kept { self.new.taken ≡ self.old.taken }
    {
        if self.has_failed {
            self.late_calls = self.late_calls.saturating_add(1);
            return Ok(());
        }
        if self.calls == 0 {
            self.has_failed = true;
            return Err(io::Error::from(self.fault));
        }
        self.calls -= 1;
        Ok(())
    }
}

impl Write for StopWriter {
    ghost contents = { λ w. Some w.taken.items };

    fn write(&mut self, buf: &[u8]) -> io::Result<usize> {
        self.call()?;
        let count = self.room.min(MOST).min(buf.len());
        self.taken.extend_from_slice(&buf[..count])?;
        self.room -= count;
        Ok(count)
    }

    fn flush(&mut self) -> io::Result<()> {
        self.call()?;
        self.flushed = self.taken.len();
        Ok(())
    }
}

/// A writer whose next call after so many fails.
pub fn failing(alloc: Global, calls: u64, fault: ErrorKind) -> Written<Handed<StopWriter>> {
    Written::new(Handed(StopWriter {
        taken: Vec::new(alloc),
        flushed: 0,
        late_calls: 0,
        calls,
        has_failed: false,
        room: AMPLE,
        fault,
    }))
}

/// A writer that takes no byte after so many.
pub fn full_after(alloc: Global, room: usize) -> Written<Handed<StopWriter>> {
    Written::new(Handed(StopWriter {
        taken: Vec::new(alloc),
        flushed: 0,
        late_calls: 0,
        calls: 9999,
        has_failed: false,
        room,
        fault: ErrorKind::Other,
    }))
}

/// A writer that doesn't fail.
pub fn unfailing(alloc: Global) -> Written<Handed<StopWriter>> {
    full_after(alloc, AMPLE)
}

/// A reader of some bytes, 4 in each call at most. It passes so many calls, then one fails, and
/// those after it go well again.
#[derive(Drop)]
pub struct StopReader {
    left: &'static [u8],
    calls: u64,
    has_failed: bool,
    fault: ErrorKind,
}

// The most bytes that a call gives.
const MOST_READ: usize = 4;

impl StopReader {
    /// A reader that passes so many calls.
    pub fn new(bytes: &'static [u8], calls: u64, fault: ErrorKind) -> StopReader {
        StopReader {
            left: bytes,
            calls,
            has_failed: false,
            fault,
        }
    }
}

impl Read for StopReader {
    fn read(&mut self, buf: &mut [u8]) -> io::Result<usize> {
        if self.calls == 0 && !self.has_failed {
            self.has_failed = true;
            return Err(io::Error::from(self.fault));
        }
        self.calls = self.calls.saturating_sub(1);
        let count = MOST_READ.min(buf.len()).min(self.left.len());
        let (given, left) = self.left.split_at(count);
        buf[..count].copy_from_slice(given);
        self.left = left;
        Ok(count)
    }
}

/// The two streams of a run.
#[derive(Drop)]
pub struct Streams {
    /// The output.
    pub out: Written<Handed<StopWriter>>,
    /// Standard error.
    pub err: Written<Handed<StopWriter>>,
}

impl Streams {
    /// Streams that don't fail.
    pub fn sound(alloc: Global) -> Streams {
        Streams {
            out: unfailing(alloc),
            err: unfailing(alloc),
        }
    }

    /// Whether these texts went to the output and to standard error, and neither was called again
    /// after it had failed.
    pub fn took(&self, out: &str, err: &str) -> bool {
        self.out.writer.0.taken.as_slice() == out.as_bytes()
            && self.err.writer.0.taken.as_slice() == err.as_bytes()
            && !self.were_called_late()
    }

    /// Whether one of them was called again after it had failed.
    pub fn were_called_late(&self) -> bool {
        self.out.writer.0.late_calls != 0 || self.err.writer.0.late_calls != 0
    }

    /// The same, and all of the output was flushed.
    pub fn have(&self, out: &str, err: &str) -> bool {
        self.took(out, err) && self.out.writer.0.flushed == out.len()
    }
}

/// A stream whose bytes and flushes are known.
#[derive(Drop)]
pub struct Memory {
    /// What it has taken.
    pub taken: Vec<u8>,
    /// How much it had taken at each flush.
    pub flushes: Vec<usize>,
    is_flushed: bool,
    fault: Option<ErrorKind>,
    is_failing: bool,
}

impl Stream for Memory {
    ghost state = { λ s. record {
      contents = Some s.taken.items;
      flushes = Some (length s.flushes.items);
      is_flushed = s.is_flushed;
      fault = s.fault;
      is_failing = s.is_failing;
    } };

    fn has_failed(&self) -> bool {
        self.fault.is_some()
    }

    #[tactic(auto, using(crate::proofs::Parts::part_nothing))]
    fn put(&mut self, bytes: &[u8]) -> Result<(), ErrorKind> {
        self.is_flushed = false;
        if self.taken.extend_from_slice(bytes).is_err() {
            self.is_failing = true;
            self.fault = Some(ErrorKind::OutOfMemory);
            return Err(ErrorKind::OutOfMemory);
        }
        self.is_failing = false;
        Ok(())
    }

    fn flush(&mut self) -> Result<(), ErrorKind> {
        if self.flushes.push(self.taken.len()).is_err() {
            self.is_failing = true;
            self.fault = Some(ErrorKind::OutOfMemory);
            return Err(ErrorKind::OutOfMemory);
        }
        self.is_failing = false;
        self.is_flushed = true;
        Ok(())
    }
}

/// A stream whose bytes and flushes are known.
pub fn known_stream(alloc: Global) -> Memory {
    Memory {
        taken: Vec::new(alloc),
        flushes: Vec::new(alloc),
        is_flushed: true,
        fault: None,
        is_failing: false,
    }
}

/// The texts as words.
pub fn words(alloc: Global, texts: &[&str]) -> Result<Vec<String>, Fail> {
    let mut words = Vec::new(alloc);
    for text in texts {
        words.push(String::from_str(alloc, text)?)?;
    }
    Ok(words)
}
