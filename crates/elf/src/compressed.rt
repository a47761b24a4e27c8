//! Bytes that are compressed (System V ABI, Object Files: Section Compression).

ghost use Rattle.std.specs.Prelude.{◌≡◌, ◌<◌, length, true, IfOk};
ghost use Rattle.elf.specs.Common.{result_map};
ghost use Rattle.elf.specs.Layout.{layout_of};
ghost use Rattle.elf.specs.Loading.{LoadsAtCost};
ghost use Rattle.elf.specs.Compressed.{packed_in, zdebug_packed_in, unpacked_section};

use crate::constants::{ELFCOMPRESS_ZLIB, WORD_SIZE, ZLIB_HEADER_SIZE, ZLIB_SIZE};
use crate::error::LoaderError;
use crate::layout::{self, Class};
use gimli_read::RunTimeEndian;
use inflate::{InflateFault, inflate};
use std::alloc::Global;

/// The stream behind a compression header, and the size that it is to have.
#[tactic(auto, unfolding(crate::specs::Compressed::packed_in))]
pub(crate) fn packed(
    bytes: &[u8],
    class: Class,
    endian: RunTimeEndian,
) -> Result<(u64, &[u8]), LoaderError>
    ensures gives { result_map (λ p. (p.0, p.1.now)) result
        ≡ packed_in endian (layout_of class).address_size bytes.now }
{
    let size = class.layout().address_size;
    if bytes.len() < 3 * size {
        return Err(LoaderError::BadElf);
    }
    if layout::number(bytes, 0, WORD_SIZE, endian) != ELFCOMPRESS_ZLIB {
        return Err(LoaderError::CompressedSection);
    }
    let (_, text) = bytes.split_at(3 * size);
    Ok((layout::number(bytes, size, size, endian), text))
}

/// The stream of a section named `.zdebug_`, and the size that it is to have.
#[tactic(auto, unfolding(crate::specs::Compressed::zdebug_packed_in))]
pub(crate) fn zdebug_packed(bytes: &[u8]) -> Result<(u64, &[u8]), LoaderError>
    ensures gives { result_map (λ p. (p.0, p.1.now)) result ≡ zdebug_packed_in bytes.now }
{
    if !bytes.starts_with(b"ZLIB".as_slice()) {
        return Err(LoaderError::BadElf);
    }
    if bytes.len() < ZLIB_HEADER_SIZE {
        return Err(LoaderError::BadElf);
    }
    let (_, text) = bytes.split_at(ZLIB_HEADER_SIZE);
    Ok((
        layout::number(bytes, 4, ZLIB_SIZE, RunTimeEndian::Big),
        text,
    ))
}

/// What a stream inflates to, if it has this size. Takes memory where `inflate` does.
#[tactic(auto, unfolding(crate::specs::Compressed::unpacked_section))]
pub(crate) fn unpacked(alloc: Global, size: u64, text: &[u8]) -> Result<Vec<u8>, LoaderError>
    ensures gives { LoadsAtCost (λ v. v.items) result (unpacked_section (size, text.now)) }
    ensures memory { IfOk result (λ v. 0 < length v.items
        → (unpacked_section (size, text.now)).takes_memory true ≡ true) }
{
    match inflate(alloc, text, size) {
        Ok(bytes) => {
            if bytes.len() as u64 != size {
                return Err(LoaderError::BadElf);
            }
            Ok(bytes)
        }
        Err(InflateFault::OutOfMemory) => Err(LoaderError::OutOfMemory),
        Err(_) => Err(LoaderError::BadElf),
    }
}
