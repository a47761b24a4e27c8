//! A reader that borrows its bytes.

ghost use Rattle.std.specs.Prelude.{◌≡◌};
ghost use Rattle.gimli_read.specs.Section.{Section};

use crate::endian::RunTimeEndian;
use crate::error::Error;
use crate::reader::{Reader, is_utf8};
use std::marker::Model;
use std::str;

/// Borrowed bytes in a byte order. No call of it takes memory.
#[derive(Clone, Drop)]
pub struct EndianSlice<'a> {
    bytes: &'a [u8],
    endian: RunTimeEndian,
    // Set only where all of the bytes are UTF-8.
    is_text: bool,
}

impl<'a> Model for EndianSlice<'a> {
    ghost use Rattle.std.specs.Prelude.{◌≡◌, true};
    ghost use Rattle.std.specs.Str.{IsUtf8};
    ghost use Rattle.gimli_read.specs.Section.{Section};

    ghost Value = { Section };

    ghost view = { λ r. record { bytes = r.bytes.now; endian = r.endian } };

    ghost invariant = { λ r. r.is_text ≡ true → IsUtf8 r.bytes.now };
}

impl<'a> EndianSlice<'a> {
    /// A reader of all of `bytes`. Takes no memory.
    pub fn new(bytes: &'a [u8], endian: RunTimeEndian) -> EndianSlice<'a>
        ensures gives { result ≡ record { bytes = bytes.now; endian = endian } }
    {
        EndianSlice {
            bytes,
            endian,
            is_text: false,
        }
    }
}

impl<'a> Reader for EndianSlice<'a> {
    ghost use Rattle.std.specs.Prelude.{false};

    ghost section = { λ r. r };

    ghost shares = { false };

    fn len(&self) -> u64 {
        self.bytes.len() as u64
    }

    fn endian(&self) -> RunTimeEndian {
        self.endian
    }

    fn to_slice(&self) -> &[u8] {
        self.bytes
    }

    fn split(&mut self, len: u64) -> Result<EndianSlice<'a>, Error> {
        if self.len() < len {
            return Err(Error::UnexpectedEof);
        }
        let (front, rest) = self.bytes.split_at(len as usize);
        self.bytes = rest;
        self.is_text = false;
        Ok(EndianSlice {
            bytes: front,
            endian: self.endian,
            is_text: false,
        })
    }

    fn skip(&mut self, len: u64) -> Result<(), Error> {
        if self.len() < len {
            return Err(Error::UnexpectedEof);
        }
        self.bytes = &self.bytes[len as usize..];
        self.is_text = false;
        Ok(())
    }

    fn duplicate(&self) -> Result<EndianSlice<'a>, Error> {
        Ok(EndianSlice {
            bytes: self.bytes,
            endian: self.endian,
            is_text: self.is_text,
        })
    }

    fn note_text(&mut self) {
        self.is_text = is_utf8(self.bytes);
    }

    fn known_text(&self) -> Option<&str> {
        if !self.is_text {
            return None;
        }
        Some(unsafe { str::from_utf8_unchecked(self.bytes) })
    }
}
