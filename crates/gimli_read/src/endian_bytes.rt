//! A reader that shares its bytes.

ghost use Rattle.std.specs.Prelude.{◌≡◌, length, true, is_ok, IsOk, OnErr};
ghost use Rattle.gimli_read.specs.Number.{split_at};
ghost use Rattle.gimli_read.specs.Reading.{ReadsPartUnlessOom};
ghost use Rattle.gimli_read.specs.Section.{Section};

use crate::endian::RunTimeEndian;
use crate::error::Error;
use crate::reader::{Reader, is_utf8};
use bytes::Bytes;
use std::marker::Model;
use std::str;

/// Shared bytes in a byte order. Splitting and duplicating it shares the bytes and copies none.
#[derive(Clone, Drop)]
pub struct EndianBytes {
    bytes: Bytes,
    endian: RunTimeEndian,
    // Set only where all of the bytes are UTF-8.
    is_text: bool,
}

impl Model for EndianBytes {
    ghost use Rattle.std.specs.Prelude.{◌≡◌, true};
    ghost use Rattle.std.specs.Str.{IsUtf8};
    ghost use Rattle.gimli_read.specs.Section.{Section};

    ghost Value = { Section };

    ghost view = { λ r. record { bytes = r.bytes; endian = r.endian } };

    ghost invariant = { λ r. r.is_text ≡ true → IsUtf8 r.bytes };
}

impl EndianBytes {
    /// A reader of all of `bytes`. Takes no memory.
    pub fn new(bytes: Bytes, endian: RunTimeEndian) -> EndianBytes
        ensures gives { result ≡ record { bytes = bytes; endian = endian } }
    {
        EndianBytes {
            bytes,
            endian,
            is_text: false,
        }
    }

    /// The same bytes in another order. Takes no memory.
    pub fn with_endian(self, endian: RunTimeEndian) -> EndianBytes
        ensures gives { result ≡ record { bytes = self.bytes; endian = endian } }
    {
        EndianBytes {
            bytes: self.bytes,
            endian,
            is_text: self.is_text,
        }
    }
}

impl Reader for EndianBytes {
    ghost use Rattle.std.specs.Prelude.{true};

    ghost section = { λ r. r };

    ghost shares = { true };

    fn len(&self) -> u64 {
        self.bytes.len() as u64
    }

    fn endian(&self) -> RunTimeEndian {
        self.endian
    }

    fn to_slice(&self) -> &[u8] {
        self.bytes.as_slice()
    }

    // The clauses `exact` and `none` say that it takes no memory for all of the bytes or none.
    fn split(&mut self, len: u64) -> Result<EndianBytes, Error>
        ensures gives { ReadsPartUnlessOom true (λ r. r) self.old self.new result (split_at len) }
        ensures refused { OnErr result (self.new ≡ self.old) }
        ensures exact { len ≡ length self.old.bytes → IsOk result }
        ensures none { len ≡ 0 → IsOk result }
    {
        if len > self.len() {
            return Err(Error::UnexpectedEof);
        }
        let front = self.bytes.split_to(len as usize)?;
        self.is_text = false;
        Ok(EndianBytes {
            bytes: front,
            endian: self.endian,
            is_text: false,
        })
    }

    fn skip(&mut self, len: u64) -> Result<(), Error> {
        if self.len() < len {
            return Err(Error::UnexpectedEof);
        }
        self.bytes.advance(len as usize);
        self.is_text = false;
        Ok(())
    }

    fn duplicate(&self) -> Result<EndianBytes, Error> {
        Ok(self.clone()?)
    }

    fn note_text(&mut self) {
        self.is_text = is_utf8(self.to_slice());
    }

    fn known_text(&self) -> Option<&str> {
        if !self.is_text {
            return None;
        }
        Some(unsafe { str::from_utf8_unchecked(self.to_slice()) })
    }
}
