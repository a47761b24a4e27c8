//! ELF files that are opened from shared bytes.

ghost use Rattle.std.specs.Prelude.{◌≡◌, Err, IfErr, option_map};
ghost use Rattle.addr2line.specs.Common.{LoadsUnlessOom, object_file_of};
ghost use Rattle.addr2line.specs.declared.compressed.CompressedSections.TheVariants.{Refused};
ghost use Rattle.addr2line.specs.Loaded.{dwarf_with, loaded_bytes, sup_of_bytes};

use crate::compressed::CompressedSections;
use crate::context::Context;
use crate::file_sections::{MainFile, OpenFile, parse_bytes, read_sections};
use crate::loader::{context_of, share_sup, with_sup};
use bytes::Bytes;
use elf::{ElfFile, LoaderError};
use gimli::read::EndianBytes;
use gimli::{Dwarf, SupDwarf};
use std::alloc::Global;
use std::rc::Rc;

// A file that isn't split, by what becomes of its compressed sections.
fn plain_file(alloc: Global, compressed: CompressedSections, object: &ElfFile) -> MainFile<'_>
    ensures gives { (result.0.compressed ≡ compressed) × (result.0.object.now ≡ object.now) }
{
    MainFile(OpenFile {
        alloc,
        compressed,
        object,
    })
}

// The sections of the supplementary file that bytes are, if there are any.
fn sup_of_bytes(
    alloc: Global,
    compressed: CompressedSections,
    bytes: Option<Bytes>,
) -> Result<Option<Rc<SupDwarf<EndianBytes>>>, LoaderError>
    ensures gives { LoadsUnlessOom (option_map (λ s. s.value)) result
        (sup_of_bytes compressed bytes) }
{
    let Some(bytes) = bytes else {
        return Ok(None);
    };
    let object = parse_bytes(alloc, bytes)?;
    share_sup(
        alloc,
        read_sections(&plain_file(alloc, compressed, &object)),
    )
}

// The sections of a main file, with those of the supplementary file that bytes are.
fn dwarf_of_bytes(
    alloc: Global,
    compressed: CompressedSections,
    object: &ElfFile,
    sup: Option<Bytes>,
) -> Result<Dwarf<EndianBytes>, LoaderError>
    ensures gives { LoadsUnlessOom (λ d. d) result
        (dwarf_with compressed object.now (sup_of_bytes compressed sup)) }
{
    let main = read_sections(&plain_file(alloc, compressed, object))?;
    with_sup(main, sup_of_bytes(alloc, compressed, sup))
}

/// The ELF file that bytes are, and a context of its sections and of those of the supplementary
/// file that other bytes are, if there are any.
///
/// No byte is copied. Refused as `LoaderOver::over` is, but never `Io`; may fail with `OutOfMemory`
/// instead, but not where the bytes are no ELF file. Source: DWARF 5, sections 7.3.6 and 7.5. Own:
/// the order of the refusals.
pub fn open_bytes(
    alloc: Global,
    bytes: Bytes,
    sup: Option<Bytes>,
) -> Result<(ElfFile, Context<EndianBytes>), LoaderError>
    ensures gives { LoadsUnlessOom (λ l. (l.0, l.1)) result (loaded_bytes Refused bytes sup) }
    ensures refused { IfErr (object_file_of bytes) (λ e. result ≡ Err e) }
{
    open_bytes_with(alloc, CompressedSections::Refused, bytes, sup)
}

/// The same, by what becomes of sections that are compressed. One that is decompressed takes as
/// much memory as its bytes, and is refused as `ElfFile::decompressed_section` is.
#[tactic(auto, unfolding(crate::specs::Loaded::loaded_bytes))]
pub fn open_bytes_with(
    alloc: Global,
    compressed: CompressedSections,
    bytes: Bytes,
    sup: Option<Bytes>,
) -> Result<(ElfFile, Context<EndianBytes>), LoaderError>
    ensures gives { LoadsUnlessOom (λ l. (l.0, l.1)) result (loaded_bytes compressed bytes sup) }
    ensures refused { IfErr (object_file_of bytes) (λ e. result ≡ Err e) }
{
    let object = parse_bytes(alloc, bytes)?;
    let context = context_of(alloc, dwarf_of_bytes(alloc, compressed, &object, sup))?;
    Ok((object, context))
}
