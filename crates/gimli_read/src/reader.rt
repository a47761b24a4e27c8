//! Reading from the front of a section.

ghost use Rattle.std.specs.List.{position};
ghost use Rattle.std.specs.Prelude.{◌≡◌, ◌==◌, true, length, is_ok, IfOk, IfErr, IfSome, MatchBool, OnErr, IsOk, Ok};
ghost use Rattle.std.specs.Str.{IsUtf8};
ghost use Rattle.std.specs.Cow.{cow_str_bytes};
ghost use Rattle.gimli_read.specs.declared.error.Error.TheVariants.{OutOfMemory};
ghost use Rattle.gimli_read.specs.Text.{lossy_text};
ghost use Rattle.gimli_read.specs.Reading.{ExactlyUnlessOomFor, Reads, ReadsPartUnlessOom};
ghost use Rattle.gimli_read.specs.Number.{fixed_at, is_address_size, address_at, address_size_at, offset_at, skipped_at, split_at, signed_byte_at, null_terminated_at, initial_length_at};
ghost use Rattle.gimli_read.specs.Leb128.{uleb128_at, sleb128_at};

use crate::constants::{FIRST_RESERVED_LENGTH, LENGTH_ESCAPE};
use crate::endian::{Format, RunTimeEndian};
use crate::error::Error;
use crate::leb128;
use crate::size::is_address_size;
use bstr::ByteSlice;
use byteorder::{BigEndian, ByteOrder, LittleEndian};
use std::alloc::Global;
use std::borrow::CowStr;
use std::str;

/// A list of bytes and a byte order. A reading takes bytes from the front; a refused one takes
/// none.
pub trait Reader: Clone {
    ghost use Rattle.std.specs.Prelude.{Bool};
    ghost use Rattle.gimli_read.specs.Section.{Section};

    /// The bytes that are left, and their order.
    ghost section: { Self → Section };

    /// Whether readers of the same bytes share them and count their users, so that a part or a
    /// second reader may take memory.
    ghost shares: { Bool };

    /// The number of bytes that are left. Takes no memory.
    fn len(&self) -> u64
        ensures gives { result ≡ length (section self.now).bytes };

    /// The byte order, which no reading changes. Takes no memory.
    fn endian(&self) -> RunTimeEndian
        ensures gives { result ≡ (section self.now).endian };

    /// The bytes that are left. Takes no memory.
    fn to_slice(&self) -> &[u8]
        ensures gives { result.now ≡ (section self.now).bytes };

    /// Takes the next `len` bytes as a reader of their own.
    ///
    /// Refused `UnexpectedEof` where fewer are left, else `OutOfMemory` where the bytes are shared.
    fn split(&mut self, len: u64) -> Result<Self, Error>
        ensures gives { ReadsPartUnlessOom shares section self.old self.new result (split_at len) }
        ensures refused { OnErr result (section self.new ≡ section self.old) };

    /// Passes over the next `len` bytes. Takes no memory.
    ///
    /// Refused `UnexpectedEof` where fewer are left.
    fn skip(&mut self, len: u64) -> Result<(), Error>
        ensures gives { Reads section self.old self.new result (skipped_at len) }
        ensures refused { OnErr result (section self.new ≡ section self.old) };

    /// A reader of the same bytes in the same order. Refused `OutOfMemory` alone, where they are
    /// shared.
    fn duplicate(&self) -> Result<Self, Error>
        ensures gives { ExactlyUnlessOomFor shares is_ok section result (Ok (section self.now)) };

    /// May note that the bytes are UTF-8, if they are: up to the next reading `to_string_lossy`
    /// needs no test. Takes no memory.
    fn note_text(&mut self)
        ensures kept { section self.new ≡ section self.old }
    {}

    /// All of the bytes as text, if it is noted that they are UTF-8; `None` says nothing of them.
    /// Takes no memory.
    fn known_text(&self) -> Option<&str>
        ensures gives { IfSome result (λ text. text.now ≡ (section self.now).bytes) }
        ensures known { IfSome result (λ _. IsUtf8 (section self.now).bytes) }
    {
        None
    }

    /// Whether no byte is left. Takes no memory.
    final fn is_empty(&self) -> bool
        ensures gives { result ≡ (length (section self.now).bytes == 0) }
    {
        self.len() == 0
    }

    /// Reads a number of one byte (ubyte: DWARF 5, section 7.31). Takes no memory.
    ///
    /// Refused `UnexpectedEof` where no byte is left.
    final fn read_u8(&mut self) -> Result<u8, Error>
        ensures gives { Reads section self.old self.new result (fixed_at 1) }
        ensures refused { OnErr result (section self.new ≡ section self.old) }
    {
        let bytes = self.to_slice();
        if bytes.is_empty() {
            return Err(Error::UnexpectedEof);
        }
        let number = bytes[0];
        self.skip(1)?;
        Ok(number)
    }

    /// Reads a signed number of one byte, in two's complement (sbyte: DWARF 5, section 7.31). Takes
    /// no memory.
    ///
    /// Refused `UnexpectedEof` where no byte is left.
    final fn read_i8(&mut self) -> Result<i8, Error>
        ensures gives { Reads section self.old self.new result signed_byte_at }
        ensures refused { OnErr result (section self.new ≡ section self.old) }
    {
        Ok(self.read_u8()?.cast_signed())
    }

    /// Reads a number of two bytes (uhalf: DWARF 5, section 7.31). Takes no memory.
    ///
    /// Refused `UnexpectedEof` where fewer are left.
    final fn read_u16(&mut self) -> Result<u16, Error>
        ensures gives { Reads section self.old self.new result (fixed_at 2) }
        ensures refused { OnErr result (section self.new ≡ section self.old) }
    {
        let bytes = self.to_slice();
        if bytes.len() < 2 {
            return Err(Error::UnexpectedEof);
        }
        let number = match self.endian() {
            RunTimeEndian::Little => LittleEndian::read_u16(bytes),
            RunTimeEndian::Big => BigEndian::read_u16(bytes),
        };
        self.skip(2)?;
        Ok(number)
    }

    /// Reads a number of four bytes (uword: DWARF 5, section 7.31). Takes no memory.
    ///
    /// Refused `UnexpectedEof` where fewer are left.
    final fn read_u32(&mut self) -> Result<u32, Error>
        ensures gives { Reads section self.old self.new result (fixed_at 4) }
        ensures refused { OnErr result (section self.new ≡ section self.old) }
    {
        let bytes = self.to_slice();
        if bytes.len() < 4 {
            return Err(Error::UnexpectedEof);
        }
        let number = match self.endian() {
            RunTimeEndian::Little => LittleEndian::read_u32(bytes),
            RunTimeEndian::Big => BigEndian::read_u32(bytes),
        };
        self.skip(4)?;
        Ok(number)
    }

    /// Reads a number of eight bytes. Takes no memory.
    ///
    /// Refused `UnexpectedEof` where fewer are left.
    final fn read_u64(&mut self) -> Result<u64, Error>
        ensures gives { Reads section self.old self.new result (fixed_at 8) }
        ensures refused { OnErr result (section self.new ≡ section self.old) }
    {
        let bytes = self.to_slice();
        if bytes.len() < 8 {
            return Err(Error::UnexpectedEof);
        }
        let number = match self.endian() {
            RunTimeEndian::Little => LittleEndian::read_u64(bytes),
            RunTimeEndian::Big => BigEndian::read_u64(bytes),
        };
        self.skip(8)?;
        Ok(number)
    }

    /// Reads an unsigned LEB128 number (DWARF 5, section 7.6). Takes no memory.
    ///
    /// Refused `UnexpectedEof` where its text isn't whole, and `BadLeb128` for more than ten bytes
    /// or a value past 64 bits.
    final fn read_uleb128(&mut self) -> Result<u64, Error>
        ensures gives { Reads section self.old self.new result uleb128_at }
        ensures refused { OnErr result (section self.new ≡ section self.old) }
    {
        let (number, len) = leb128::unsigned(self.to_slice())?;
        self.skip(len as u64)?;
        Ok(number)
    }

    /// Reads a signed LEB128 number (DWARF 5, section 7.6). Takes no memory.
    ///
    /// Refused `UnexpectedEof` where its text isn't whole, and `BadLeb128` for more than ten bytes
    /// or a value past signed 64 bits.
    final fn read_sleb128(&mut self) -> Result<i64, Error>
        ensures gives { Reads section self.old self.new result sleb128_at }
        ensures refused { OnErr result (section self.new ≡ section self.old) }
    {
        let (number, len) = leb128::signed(self.to_slice())?;
        self.skip(len as u64)?;
        Ok(number)
    }

    /// Reads an address of `size` bytes, as the file has it (DWARF 5, section 7.32). Takes no
    /// memory.
    ///
    /// Refused `UnsupportedAddressSize` for a size other than 1, 2, 4 and 8, and `UnexpectedEof`
    /// where fewer bytes are left.
    final fn read_address(&mut self, size: u8) -> Result<u64, Error>
        ensures gives { Reads section self.old self.new result (address_at size) }
        ensures refused { OnErr result (section self.new ≡ section self.old) }
    {
        match size {
            1 => Ok(u64::from(self.read_u8()?)),
            2 => Ok(u64::from(self.read_u16()?)),
            4 => Ok(u64::from(self.read_u32()?)),
            8 => self.read_u64(),
            _ => Err(Error::UnsupportedAddressSize),
        }
    }

    /// Reads an offset or a length, in bytes, of the format's width (DWARF 5, section 7.4). Takes
    /// no memory.
    ///
    /// Refused `UnexpectedEof` where fewer bytes are left.
    final fn read_offset(&mut self, format: Format) -> Result<u64, Error>
        ensures gives { Reads section self.old self.new result (offset_at format) }
        ensures refused { OnErr result (section self.new ≡ section self.old) }
    {
        match format {
            Format::Dwarf32 => Ok(u64::from(self.read_u32()?)),
            Format::Dwarf64 => self.read_u64(),
        }
    }

    /// Reads a text that a zero byte ends, without that byte, which is passed over.
    ///
    /// Refused `UnexpectedEof` where no zero byte is left, else `OutOfMemory` where the bytes are
    /// shared.
    #[tactic(auto, using(crate::proofs::Steps::null_terminated_when))]
    final fn read_null_terminated(&mut self) -> Result<Self, Error>
        ensures gives { ReadsPartUnlessOom shares section self.old self.new result
            null_terminated_at }
        ensures refused { OnErr result (section self.new ≡ section self.old) }
    {
        let len = match zero_of(self.to_slice()) {
            None => return Err(Error::UnexpectedEof),
            Some(len) => len,
        };
        let text = self.split(len as u64)?;
        self.skip(1)?;
        Ok(text)
    }

    /// The bytes as text, with U+FFFD for each piece that is no UTF-8.
    ///
    /// Refused `OutOfMemory` alone, and never where the bytes are UTF-8.
    final fn to_string_lossy(&self, alloc: Global) -> Result<CowStr<'_>, Error>
        ensures gives { IfOk result (λ text.
            cow_str_bytes text ≡ lossy_text (section self.now).bytes) }
        ensures exact { IsUtf8 (section self.now).bytes → IsOk result }
        ensures refused { IfErr result (λ e. e ≡ OutOfMemory) }
    {
        if let Some(text) = self.known_text() {
            return Ok(CowStr::Borrowed(text));
        }
        Ok(self.to_slice().to_str_lossy(alloc)?)
    }
}

/// Reads the length of a unit, in bytes after this field, and its format (DWARF 5, section 7.4).
/// Takes no memory.
///
/// Refused `UnknownReservedLength` for 0xfffffff0 to 0xfffffffe, and `UnexpectedEof` where fewer
/// bytes are left. After a refusal the reader may stand anywhere.
#[tactic(auto, unfolding(crate::specs::Number::initial_length_at, crate::specs::Number::long_length_at))]
pub fn read_initial_length<R: Reader>(input: &mut R) -> Result<(u64, Format), Error>
    ensures gives { Reads R.section input.old input.new result initial_length_at }
{
    let length = input.read_u32()?;
    match length {
        0..FIRST_RESERVED_LENGTH => Ok((u64::from(length), Format::Dwarf32)),
        LENGTH_ESCAPE => Ok((input.read_u64()?, Format::Dwarf64)),
        _ => Err(Error::UnknownReservedLength),
    }
}

/// Reads an address size, in bytes (DWARF 5, section 7.5.1). Takes no memory.
///
/// Refused `UnexpectedEof` where no byte is left, and `UnsupportedAddressSize` for a size other
/// than 1, 2, 4 and 8. After a refusal the reader may stand anywhere.
#[tactic(auto, unfolding(crate::specs::Number::address_size_at))]
pub fn read_address_size<R: Reader>(input: &mut R) -> Result<u8, Error>
    ensures gives { Reads R.section input.old input.new result address_size_at }
    ensures width { IfOk result (λ size. is_address_size size ≡ true) }
{
    let size = input.read_u8()?;
    if !is_address_size(size) {
        return Err(Error::UnsupportedAddressSize);
    }
    Ok(size)
}

/// Whether bytes are UTF-8. Takes no memory.
pub fn is_utf8(bytes: &[u8]) -> bool
    ensures gives { MatchBool result (IsUtf8 bytes.now) (¬ (IsUtf8 bytes.now)) }
{
    str::from_utf8(bytes).is_ok()
}

/// The place of the first zero byte. Takes no memory.
pub fn zero_of(bytes: &[u8]) -> Option<usize>
    ensures found { result ≡ position (λ b. b == 0) bytes.now }
{
    bytes.find_byte(0)
}
