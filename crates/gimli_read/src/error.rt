//! Why a reading was refused.

ghost use Rattle.std.specs.Prelude.{◌≡◌, Some};
ghost use Rattle.gimli_read.specs.declared.error.Error.TheVariants.{OutOfMemory};
ghost use Rattle.gimli_read.specs.Text.{text_of};

use std::alloc::{AllocError, AllocFailed};
use std::fmt;

/// Why a reading of DWARF bytes, or a lookup, was refused.
#[derive(Clone, Copy, Debug, PartialEq, Eq, thiserror::Error)]
pub enum Error {
    /// A refused growth. Each call says where it may stand in place of its answer.
    OutOfMemory,
    /// Fewer bytes are left than the reading needs.
    UnexpectedEof,
    /// A LEB128 number of more than ten bytes, or past 64 bits.
    BadLeb128,
    /// A unit length from 0xfffffff0 to 0xfffffffe.
    UnknownReservedLength,
    /// A version other than those that are known.
    UnknownVersion,
    /// A unit type other than those of DWARF 5.
    UnknownUnitType,
    /// An address size other than 1, 2, 4 and 8.
    UnsupportedAddressSize,
    /// A segment selector size other than 0.
    UnsupportedSegmentSize,
    /// A repeated code, tag 0, a children byte other than 0 and 1, or exactly one zero in a pair.
    BadAbbreviation,
    /// An entry's code that the abbreviation table hasn't.
    UnknownAbbreviation,
    /// A form other than those that are known.
    UnknownForm,
    /// A unit that begins with a closing entry.
    MissingUnitDie,
    /// An offset past the end of its section, or an entry of a table that isn't wholly in it.
    OffsetOutOfBounds,
    /// A value of no string form where a string is wanted.
    ExpectedString,
    /// A value of the supplementary file where there is none.
    NoSupplementary,
    /// A reference to where no entry is; the value is the offset.
    NoEntryAtGivenOffset(u64),
    /// A kind of range list entry other than those of DWARF 5.
    UnknownRangeListEntry,
    /// A line program header with a zero where none may be, or with a faulty table format.
    BadLineHeader,
    /// An address of a line program past the address size.
    AddressOverflow,
    /// A token of no unit of the context.
    UnknownToken,
}

impl Error {
    /// What the refusal says, in lower case. Takes no memory.
    pub fn text(&self) -> &'static str
        ensures gives { result.now ≡ text_of self.now }
    {
        match self {
            Error::OutOfMemory => "out of memory",
            Error::UnexpectedEof => "unexpected end of data",
            Error::BadLeb128 => "bad LEB128 number",
            Error::UnknownReservedLength => "unknown reserved length",
            Error::UnknownVersion => "unknown DWARF version",
            Error::UnknownUnitType => "unknown unit type",
            Error::UnsupportedAddressSize => "unsupported address size",
            Error::UnsupportedSegmentSize => "unsupported segment size",
            Error::BadAbbreviation => "bad abbreviation",
            Error::UnknownAbbreviation => "unknown abbreviation code",
            Error::UnknownForm => "unknown attribute form",
            Error::MissingUnitDie => "missing unit entry",
            Error::OffsetOutOfBounds => "offset out of bounds",
            Error::ExpectedString => "expected a string",
            Error::NoSupplementary => "no supplementary file",
            Error::NoEntryAtGivenOffset(_) => "no entry at the given offset",
            Error::UnknownRangeListEntry => "unknown range list entry",
            Error::BadLineHeader => "bad line program header",
            Error::AddressOverflow => "address overflow",
            Error::UnknownToken => "unknown unit token",
        }
    }
}

impl fmt::Display for Error {
    ghost output = { λ e. Some (text_of e) };

    fn fmt<W: fmt::Write>(&self, f: &mut fmt::Formatter<W>) -> fmt::Result {
        f.write_str(self.text())
    }
}

impl From<AllocError> for Error {
    ghost from_gives = { λ _ e. e ≡ OutOfMemory };

    fn from(_error: AllocError) -> Error {
        Error::OutOfMemory
    }
}

impl<T: Drop> From<AllocFailed<T>> for Error {
    ghost from_gives = { λ _ e. e ≡ OutOfMemory };

    fn from(_error: AllocFailed<T>) -> Error {
        Error::OutOfMemory
    }
}
