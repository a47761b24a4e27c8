//! The texts of the refusals.

use crate::answers::refusal;
use elf::LoaderError;
use gimli_read::Error;
use std::alloc::Global;

// Whether the refusal's text and what it displays are this text.
fn is_text(alloc: Global, error: LoaderError, text: &str) -> Option<bool> {
    let shown = format!(in alloc; "{error}").ok()?;
    Some(error.text() == text && shown.as_str() == text)
}

#[test]
fn each_refusal_has_its_text(rt: HostRuntime) {
    let texts = [
        (LoaderError::Io, "the file cannot be read"),
        (LoaderError::NotElf, "not an ELF file"),
        (LoaderError::BadElf, "malformed ELF file"),
        (LoaderError::CompressedSection, "compressed section"),
        (LoaderError::RelocationsNeeded, "section needs relocations"),
        (LoaderError::PathNotUtf8, "path is not UTF-8"),
        (LoaderError::Dwarf(Error::BadLeb128), "bad LEB128 number"),
        (LoaderError::OutOfMemory, "out of memory"),
        (LoaderError::from(Error::OutOfMemory), "out of memory"),
        (LoaderError::from(Error::UnknownToken), "unknown unit token"),
    ];
    for (error, text) in texts {
        assert_eq!(rt; is_text(rt.alloc(), error, text), Some(true));
    }
    let memory = refusal(LoaderError::from(Error::OutOfMemory));
    assert_eq!(rt; memory, refusal(LoaderError::OutOfMemory));
}
