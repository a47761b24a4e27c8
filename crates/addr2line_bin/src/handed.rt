//! Writers and readers of std, each call of which is handed on.

use crate::calls::{LineSource, Sink};
use std::io::{BufRead, ErrorKind, Write};

/// A writer or a reader of std. A call of it is one of that, and gives the kind of its fault.
#[derive(Drop)]
pub struct Handed<T>(pub T);

impl<W: Write + Drop> Sink for Handed<W> {
    ghost use Rattle.addr2line_bin.specs.Gave.{Gave};

    ghost gives = { Gave };

    ghost contents = { λ s. W.contents s.0 };

    fn write(&mut self, bytes: &[u8]) -> Result<usize, ErrorKind> {
        match self.0.write(bytes) {
            Ok(count) => Ok(count),
            Err(error) => Err(error.kind()),
        }
    }

    fn flush(&mut self) -> Result<(), ErrorKind> {
        match self.0.flush() {
            Ok(()) => Ok(()),
            Err(error) => Err(error.kind()),
        }
    }
}

impl<R: BufRead + Drop> LineSource for Handed<R> {
    ghost use Rattle.addr2line_bin.specs.Gave.{Gave};

    ghost gives = { Gave };

    ghost remaining = { λ s. R.remaining s.0 };

    fn read_to(&mut self, byte: u8, line: &mut Vec<u8>) -> Result<usize, ErrorKind> {
        match self.0.read_until(byte, line) {
            Ok(count) => Ok(count),
            Err(error) => Err(error.kind()),
        }
    }
}
