//! Parts of a file.

ghost use Rattle.std.specs.Prelude.{◌≡◌, IfOk, IfSome, Some, is_some, option_map, true};
ghost use Rattle.elf.specs.FileImage.{AreRangesOf, IsWhole, Shows, image_in, piece_at, pieces_at};

use crate::image::{FileImage, Piece};
use bytes::Bytes;
use gimli_read::{EndianBytes, Range, RunTimeEndian};
use std::alloc::{AllocError, Global};

/// What gives parts of one file.
pub trait PartSource: Drop {
    ghost use Rattle.std.specs.Prelude.{ℕ, List, IfOk, IfSome, None, Option, length, option_map};
    ghost use Rattle.elf.specs.FileImage.{part_at};

    /// The bytes of the file, where they are known. Then each part of it can be read.
    ghost bytes: { Self → Option (List ℕ) } = { λ _. None };

    /// How many bytes the file has.
    fn len(&self) -> u64
        ensures gives { IfSome (bytes self.now) (λ held. result ≡ length held) };

    /// The `len` bytes from a place; none where the file ends before, or can't be read.
    fn part(&self, alloc: Global, start: u64, len: usize) -> Result<Option<Vec<u8>>, AllocError>
        ensures gives { IfSome (bytes self.now) (λ held. IfOk result (λ found.
            option_map (λ (v : _). v.items) found ≡ part_at held start len)) };
}

// The piece in a range of places.
fn read_piece<S: PartSource>(
    alloc: Global,
    source: &S,
    range: Range,
) -> Result<Option<Piece>, AllocError>
    ensures gives { IfSome (S.bytes source.now) (λ bytes. IfOk result (λ found.
        found ≡ piece_at bytes range)) }
{
    if range.begin > range.end {
        return Ok(None);
    }
    let len = (range.end - range.begin) as usize;
    let Some(bytes) = source.part(alloc, range.begin, len)? else {
        return Ok(None);
    };
    match Bytes::from_vec(bytes) {
        Ok(bytes) => Ok(Some(Piece {
            start: range.begin,
            bytes: EndianBytes::new(bytes, RunTimeEndian::Little),
        })),
        Err(_) => Err(AllocError),
    }
}

// The pieces in ranges of places.
fn read_pieces<S: PartSource>(
    alloc: Global,
    source: &S,
    ranges: &[Range],
) -> Result<Option<Vec<Piece>>, AllocError>
    ensures gives { IfSome (S.bytes source.now) (λ bytes. IfOk result (λ found.
        option_map (λ (v : _). v.items) found ≡ pieces_at bytes ranges.now)) }
{
    let mut pieces = Vec::new(alloc);
    for range in ranges {
        match read_piece(alloc, source, *range)? {
            Some(piece) => pieces.push(piece)?,
            None => return Ok(None),
        }
    }
    Ok(Some(pieces))
}

/// A file of which these ranges are read, which have to stand in order; none where they don't, where
/// there is none of them, or where the file can't be read.
#[tactic(auto, using(crate::proofs::ImageLemmas::pieces_at_are))]
pub(crate) fn read_ranges<S: PartSource>(
    alloc: Global,
    source: &S,
    ranges: &[Range],
) -> Result<Option<FileImage>, AllocError>
    ensures gives { IfSome (S.bytes source.now) (λ bytes. IfOk result (λ found. IfSome found (λ f.
        Shows f bytes))) }
    ensures found { IfSome (S.bytes source.now) (λ bytes. AreRangesOf bytes ranges.now
        → IfOk result (λ found. found ≡ Some (image_in bytes ranges.now))) }
{
    match read_pieces(alloc, source, ranges)? {
        Some(pieces) => Ok(FileImage::of_pieces(alloc, source.len(), pieces)),
        None => Ok(None),
    }
}

/// A file all of which is read; none where it can't be.
pub(crate) fn read_whole<S: PartSource>(
    alloc: Global,
    source: &S,
) -> Result<Option<FileImage>, AllocError>
    ensures gives { IfSome (S.bytes source.now) (λ bytes. IfOk result (λ found. IfSome found (λ f.
        Shows f bytes))) }
    ensures whole { IfOk result (λ found. IfSome found IsWhole) }
    ensures found { IfSome (S.bytes source.now) (λ _. IfOk result (λ found.
        is_some found ≡ true)) }
{
    let Some(bytes) = source.part(alloc, 0, source.len() as usize)? else {
        return Ok(None);
    };
    match Bytes::from_vec(bytes) {
        Ok(bytes) => {
            let bytes = EndianBytes::new(bytes, RunTimeEndian::Little);
            Ok(Some(FileImage::whole(alloc, bytes)))
        }
        Err(_) => Err(AllocError),
    }
}
