//! Why a file was refused.

ghost use Rattle.std.specs.Prelude.{◌≡◌, Some};
ghost use Rattle.elf.specs.declared.error.LoaderError.TheVariants.{OutOfMemory};
ghost use Rattle.elf.specs.Text.{loader_text_of, loader_error_of};

use gimli_read::Error;
use std::alloc::{AllocError, AllocFailed};
use std::fmt;

/// Why a file, its debug information or a lookup in it was refused.
#[derive(Clone, Copy, Debug, PartialEq, Eq, thiserror::Error)]
pub enum LoaderError {
    /// The file can't be read.
    Io,
    /// The file doesn't begin as an ELF file does.
    NotElf,
    /// A header that isn't whole or has an unknown value, or bytes that stand outside the file.
    BadElf,
    /// A section whose bytes are compressed.
    CompressedSection,
    /// A section of a file that is not linked yet, which relocations would change.
    RelocationsNeeded,
    /// A path, or the directory before it, that isn't UTF-8.
    PathNotUtf8,
    /// A refused reading of DWARF bytes.
    Dwarf(Error),
    /// A growth was refused. Only a call that takes memory for its answer is refused so.
    OutOfMemory,
}

impl LoaderError {
    /// What the refusal says, in lower case. Takes no memory.
    pub fn text(&self) -> &'static str
        ensures gives { result.now ≡ loader_text_of self.now }
    {
        match self {
            LoaderError::Io => "the file cannot be read",
            LoaderError::NotElf => "not an ELF file",
            LoaderError::BadElf => "malformed ELF file",
            LoaderError::CompressedSection => "compressed section",
            LoaderError::RelocationsNeeded => "section needs relocations",
            LoaderError::PathNotUtf8 => "path is not UTF-8",
            LoaderError::Dwarf(error) => error.text(),
            LoaderError::OutOfMemory => "out of memory",
        }
    }
}

impl fmt::Display for LoaderError {
    ghost output = { λ e. Some (loader_text_of e) };

    fn fmt<W: fmt::Write>(&self, f: &mut fmt::Formatter<W>) -> fmt::Result {
        f.write_str(self.text())
    }
}

impl From<AllocError> for LoaderError {
    ghost from_gives = { λ _ e. e ≡ OutOfMemory };

    fn from(_error: AllocError) -> LoaderError {
        LoaderError::OutOfMemory
    }
}

impl<T: Drop> From<AllocFailed<T>> for LoaderError {
    ghost from_gives = { λ _ e. e ≡ OutOfMemory };

    fn from(_error: AllocFailed<T>) -> LoaderError {
        LoaderError::OutOfMemory
    }
}

impl From<Error> for LoaderError {
    ghost from_gives = { λ error e. e ≡ loader_error_of error };

    fn from(error: Error) -> LoaderError {
        match error {
            Error::OutOfMemory => LoaderError::OutOfMemory,
            error => LoaderError::Dwarf(error),
        }
    }
}
