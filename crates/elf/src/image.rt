//! The bytes of a file of which only some pieces were read.

ghost use Rattle.std.specs.List.{find};
ghost use Rattle.std.specs.Prelude.{◌≡◌, ◌≤◌, ◌+◌, ◌-◌, ℕ, List, ◌∷◌, length, take, drop, get_or, is_some, nat_lt, option_map, IfErr, IfOk, IfSome, None, Ok, true};
ghost use Rattle.elf.specs.FileImage.{ArePiecesInOrder, ArePiecesOf, HasPart, IsWhole, Shows, piece_end, piece_holds, image_bytes, is_held};
ghost use Rattle.elf.specs.Pieces.{AllEndBefore, AreInOrder, NoneEndsBefore};
ghost use Rattle.elf.specs.declared.layout.Class.TheVariants as class;
ghost use Rattle.elf.specs.declared.error.LoaderError.TheVariants.{OutOfMemory};
ghost use Rattle.elf.specs.Layout.{layout_of, layout_number_at};
ghost use Rattle.elf.specs.Loading.{LoadsUnlessOom, LoadsUnlessOomFor};
ghost use Rattle.elf.specs.Sections.{gives_bytes_of_file};

use crate::error::LoaderError;
use crate::layout;
use bytes::Bytes;
use gimli_read::{EndianBytes, Reader, RunTimeEndian};
use std::alloc::{AllocError, Global};
use std::marker::Model;

// Bytes of a file that stand side by side, and where they begin.
#[derive(Drop)]
pub(crate) struct Piece {
    pub(crate) start: u64,
    pub(crate) bytes: EndianBytes,
}

impl Piece {
    // Whether the piece has the `len` bytes from a place.
    fn holds(&self, start: u64, len: u64) -> bool
        ensures gives { result ≡ piece_holds start len self.now }
    {
        let own = self.bytes.len();
        if start < self.start || len > own {
            return false;
        }
        start - self.start <= own - len
    }

    // Whether the piece ends before a place.
    fn ends_before(&self, end: u64) -> bool
        ensures gives { result ≡ nat_lt (piece_end self.now) end }
    {
        let own = self.bytes.len();
        own < end && self.start < end - own
    }

    // The `len` bytes from a place.
    fn part(&self, start: u64, len: u64) -> &[u8]
        requires held { piece_holds start len self.now ≡ true }
        ensures gives { result.now ≡ take len (drop (start - self.now.start) self.now.bytes.bytes) }
    {
        let (_, rest) = self
            .bytes
            .to_slice()
            .split_at((start - self.start) as usize);
        let (own, _) = rest.split_at(len as usize);
        own
    }

    // The same, shared with the piece.
    fn share(&self, start: u64, len: u64, endian: RunTimeEndian) -> Result<EndianBytes, LoaderError>
        requires held { piece_holds start len self.now ≡ true }
        ensures gives { LoadsUnlessOom (λ b. b) result (Ok (record {
          bytes = take len (drop (start - self.now.start) self.now.bytes.bytes);
          endian = endian;
        })) }
    {
        let mut rest = self.bytes.duplicate()?;
        rest.skip(start - self.start)?;
        Ok(rest.split(len)?.with_endian(endian))
    }
}

// How many of some pieces end before a place.
fn count_before(pieces: &[Piece], end: u64) -> usize
    requires in_order { (len : ℕ) × AreInOrder len pieces.now }
    ensures before { AllEndBefore end (take result pieces.now) }
    ensures after { NoneEndsBefore end (drop result pieces.now) }
    ensures within { result ≤ length pieces.now }
{
    let mut low = 0;
    let mut high = pieces.len();
    while low < high {
        let middle = low + (high - low) / 2;
        if pieces[middle].ends_before(end) {
            low = middle + 1;
            continue;
        }
        high = middle;
    }
    low
}

// The piece of a file of `all` bytes that has the `len` bytes from a place: the first that doesn't
// end before they do, if it has them.
fn find_in(pieces: &[Piece], all: u64, start: u64, len: u64) -> Option<&Piece>
    requires in_order { AreInOrder all pieces.now }
    ensures gives { option_map (λ p. p.now) result ≡ find (piece_holds start len) pieces.now }
{
    if start > all {
        return None;
    }
    if len > all - start {
        return None;
    }
    let count = count_before(pieces, start + len);
    if count == pieces.len() {
        return None;
    }
    let piece = &pieces[count];
    if piece.holds(start, len) {
        Some(piece)
    } else {
        None
    }
}

// The same of a piece and of others.
fn find_piece<'a>(
    first: &'a Piece,
    others: &'a [Piece],
    all: u64,
    start: u64,
    len: u64,
) -> Option<&'a Piece>
    requires in_order { AreInOrder all others.now }
    ensures gives { option_map (λ p. p.now) result
        ≡ find (piece_holds start len) (first.now ∷ others.now) }
{
    if first.holds(start, len) {
        return Some(first);
    }
    find_in(others, all, start, len)
}

// Whether pieces stand in order in a file of `len` bytes.
fn are_in_order(pieces: &[Piece], len: u64) -> bool
    ensures gives { result ≡ true → ArePiecesInOrder 0 len pieces.now }
    ensures found { ArePiecesInOrder 0 len pieces.now → result ≡ true }
{
    let mut end = 0;
    for piece in pieces {
        let own = piece.bytes.len();
        if piece.start < end || own > len || piece.start > len - own {
            return false;
        }
        end = piece.start + own;
    }
    true
}

/// The bytes of a file of which only some pieces were read. Zeros stand for the others.
#[derive(Drop)]
pub struct FileImage {
    alloc: Global,
    len: u64,
    // The others follow it, in order.
    first: Piece,
    others: Vec<Piece>,
}

impl Model for FileImage {
    ghost use Rattle.std.specs.Prelude.{◌∷◌};
    ghost use Rattle.elf.specs.FileImage.{Image, ArePiecesInOrder};

    ghost Value = { Image };

    ghost view = { λ f. record { len = f.len; pieces = f.first ∷ f.others.items } };

    ghost invariant = { λ f. ArePiecesInOrder 0 f.len (f.first ∷ f.others.items) };
}

impl FileImage {
    /// A file all of which was read. Takes no memory.
    pub fn whole(alloc: Global, bytes: EndianBytes) -> FileImage
        ensures gives { image_bytes result ≡ bytes.bytes }
        ensures whole { IsWhole result }
    {
        FileImage {
            alloc,
            len: bytes.len(),
            first: Piece { start: 0, bytes },
            others: Vec::new(alloc),
        }
    }

    // A file of these pieces; none where they don't stand in order in it, or where there is none.
    pub(crate) fn of_pieces(alloc: Global, len: u64, pieces: Vec<Piece>) -> Option<FileImage>
        ensures made { IfSome result (λ image. (bytes : List ℕ) → len ≡ length bytes
            → ArePiecesOf bytes pieces.items → Shows image bytes) }
        ensures gives { IfSome result (λ image.
            image ≡ record { len = len; pieces = pieces.items }) }
        ensures found { 1 ≤ length pieces.items → ArePiecesInOrder 0 len pieces.items
            → is_some result ≡ true }
    {
        if pieces.is_empty() || !are_in_order(&pieces, len) {
            return None;
        }
        let mut others = pieces;
        let first = others.remove(0);
        Some(FileImage {
            alloc,
            len,
            first,
            others,
        })
    }

    /// How many bytes the file has.
    pub(crate) fn len(&self) -> u64
        ensures gives { result ≡ length (image_bytes self.now) }
    {
        self.len
    }

    // The piece that has the `len` bytes from a place. Where none has a byte, it is zero.
    fn piece(&self, start: u64, len: u64) -> Option<&Piece>
        ensures gives { IfSome result (λ p. HasPart start len self.now p.now) }
        ensures some { is_some result ≡ is_held start len self.now }
        ensures none { result ≡ None → len ≡ 1 → get_or (image_bytes self.now) start 0 ≡ 0 }
    {
        find_piece(&self.first, &self.others, self.len, start, len)
    }

    /// The `len` bytes from a place, if one piece has them.
    pub(crate) fn slice(&self, start: u64, len: u64) -> Option<&[u8]>
        ensures gives { IfSome result (λ b. b.now ≡ take len (drop start (image_bytes self.now))) }
        ensures whole { IfSome result (λ b. length b.now ≡ len) }
        ensures some { is_some result ≡ is_held start len self.now }
    {
        let piece = self.piece(start, len)?;
        Some(piece.part(start, len))
    }

    /// Whether one piece has the `len` bytes from a place.
    pub(crate) fn is_held(&self, start: u64, len: u64) -> bool
        ensures gives { result ≡ is_held start len self.now }
    {
        self.piece(start, len).is_some()
    }

    /// The byte at a place.
    pub(crate) fn byte_at(&self, at: u64) -> u8
        ensures gives { result ≡ get_or (image_bytes self.now) at 0 }
    {
        match self.piece(at, 1) {
            Some(piece) => piece.part(at, 1)[0],
            None => 0,
        }
    }

    /// The place so many bytes behind another one.
    pub(crate) fn place(&self, start: u64, by: u64) -> u64
        requires within { start + by ≤ length (image_bytes self.now) }
        ensures gives { result ≡ start + by }
    {
        // The sum fits, since the length does.
        let _ = self.len();
        start + by
    }

    /// The `size` bytes from a place, at the front of eight.
    pub(crate) fn gathered(&self, start: u64, size: usize) -> [u8; 8]
        requires within { start + size ≤ length (image_bytes self.now) }
        requires small { size ≤ 8 }
        ensures gives { take size result ≡ take size (drop start (image_bytes self.now)) }
    {
        let mut bytes = [0u8; 8];
        for i in 0..size {
            bytes[i] = self.byte_at(self.place(start, i as u64));
        }
        bytes
    }

    /// The number in the `size` bytes at `at` behind a place.
    pub(crate) fn number(&self, base: u64, at: usize, size: usize, endian: RunTimeEndian) -> u64
        requires within { base + at + size ≤ length (image_bytes self.now) }
        requires some { 1 ≤ size }
        requires small { size ≤ (layout_of class.Elf64).address_size }
        ensures gives { result
            ≡ layout_number_at endian at size (drop base (image_bytes self.now)) }
    {
        let start = self.place(base, at as u64);
        match self.slice(start, size as u64) {
            Some(bytes) => layout::number(bytes, 0, size, endian),
            None => layout::number(self.gathered(start, size).as_slice(), 0, size, endian),
        }
    }

    // The same bytes once more.
    fn copied(&self, start: u64, len: u64) -> Result<Vec<u8>, AllocError>
        requires within { start + len ≤ length (image_bytes self.now) }
        ensures gives { IfOk result (λ v. v.items ≡ take len (drop start (image_bytes self.now))) }
    {
        let mut bytes = Vec::new(self.alloc);
        for i in 0..len {
            bytes.push(self.byte_at(self.place(start, i)))?;
        }
        Ok(bytes)
    }

    /// The `len` bytes from a place in a byte order. They are shared with the piece that has them,
    /// and copied where none has them all. Takes memory for one byte or more.
    pub(crate) fn share(
        &self,
        start: u64,
        len: u64,
        endian: RunTimeEndian,
    ) -> Result<EndianBytes, LoaderError>
        requires within { start + len ≤ length (image_bytes self.now) }
        ensures gives { LoadsUnlessOomFor gives_bytes_of_file result (Ok (record {
          bytes = take len (drop start (image_bytes self.now));
          endian = endian;
        })) }
    {
        if len == 0 {
            return Ok(EndianBytes::new(Bytes::new(), endian));
        }
        match self.piece(start, len) {
            Some(piece) => piece.share(start, len, endian),
            None => {
                let bytes = Bytes::from_vec(self.copied(start, len)?)?;
                Ok(EndianBytes::new(bytes, endian))
            }
        }
    }

    /// The same file in one piece, which is a copy. Takes memory.
    pub(crate) fn flattened(&self) -> Result<FileImage, LoaderError>
        ensures gives { IfOk result (λ i. image_bytes i ≡ image_bytes self.now) }
        ensures whole { IfOk result IsWhole }
        ensures refused { IfErr result (λ e. e ≡ OutOfMemory) }
    {
        let bytes = Bytes::from_vec(self.copied(0, self.len())?)?;
        Ok(FileImage::whole(self.alloc, EndianBytes::new(bytes, RunTimeEndian::Little)))
    }
}
