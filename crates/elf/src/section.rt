//! Section headers, and the bytes of a section (System V ABI, Object Files: Sections).

ghost use Rattle.std.specs.List.{list_all, list_any, position};
ghost use Rattle.std.specs.Option.{option_map_or};
ghost use Rattle.std.specs.Prelude.{◌≡◌, ◌≤◌, ◌+◌, ◌*◌, [], length, drop, option_map, IfErr, IfOk, IsOk, Ok};
ghost use Rattle.elf.specs.declared.error.LoaderError.TheVariants.{OutOfMemory};
ghost use Rattle.elf.specs.FileImage.{image_bytes};
ghost use Rattle.elf.specs.FileTables.{AreReadable, has_zdebug_name, is_packed, is_readable};
ghost use Rattle.elf.specs.Layout.{layout_of};
ghost use Rattle.elf.specs.Header.{section_in, sections_in};
ghost use Rattle.elf.specs.SectionBytes.{is_nobits, is_outside, section_bytes_in, string_table_in, front_text, table_text_at, short_text_at};
ghost use Rattle.elf.specs.Sections.{addresses_of, is_compressed, is_named, is_zdebug_text, is_zdebug, relocates};

use crate::constants::{SHF_COMPRESSED, SHN_UNDEF, SHT_NOBITS, SHT_REL, SHT_RELA, WORD_SIZE};
use crate::error::LoaderError;
use crate::header::Ident;
use crate::image::FileImage;
use crate::wanted::is_wanted_section;
use bytes::Bytes;
use gimli_read::{EndianBytes, Range, Reader, RunTimeEndian, zero_of};
use std::alloc::{AllocError, Global};

/// A section header of either class.
#[derive(Clone, Copy)]
pub(crate) struct SectionHeader {
    pub(crate) name: u64,
    pub(crate) kind: u64,
    pub(crate) flags: u64,
    pub(crate) address: u64,
    pub(crate) offset: u64,
    pub(crate) size: u64,
    pub(crate) link: u64,
    pub(crate) info: u64,
}

// The section header at a place.
fn header_at(file: &FileImage, at: u64, ident: Ident) -> SectionHeader
    requires whole { at + (layout_of ident.class).section_size ≤ length (image_bytes file.now) }
    ensures gives { result ≡ section_in ident.endian (layout_of ident.class)
        (drop at (image_bytes file.now)) }
{
    let layout = ident.class.layout();
    SectionHeader {
        name: file.number(at, layout.sh_name, WORD_SIZE, ident.endian),
        kind: file.number(at, layout.sh_type, WORD_SIZE, ident.endian),
        flags: file.number(at, layout.sh_flags, layout.address_size, ident.endian),
        address: file.number(at, layout.sh_addr, layout.address_size, ident.endian),
        offset: file.number(at, layout.sh_offset, layout.address_size, ident.endian),
        size: file.number(at, layout.sh_size, layout.address_size, ident.endian),
        link: file.number(at, layout.sh_link, WORD_SIZE, ident.endian),
        info: file.number(at, layout.sh_info, WORD_SIZE, ident.endian),
    }
}

/// Reads `count` section headers from a place on. Takes memory for one or more.
pub(crate) fn headers(
    alloc: Global,
    file: &FileImage,
    start: u64,
    count: usize,
    ident: Ident,
) -> Result<Vec<SectionHeader>, AllocError>
    requires whole { start + count * (layout_of ident.class).section_size
        ≤ length (image_bytes file.now) }
    ensures gives { IfOk result (λ v. v.items ≡ sections_in ident.endian (layout_of ident.class)
        count (drop start (image_bytes file.now))) }
    ensures none { count ≡ 0 → IsOk result }
{
    let size = ident.class.layout().section_size;
    let mut all = Vec::new(alloc);
    let mut at = start;
    for _ in 0..count {
        all.push(header_at(file, at, ident))?;
        at = file.place(at, size as u64);
    }
    Ok(all)
}

impl SectionHeader {
    /// Whether the section has no bytes in the file.
    pub(crate) fn is_nobits(&self) -> bool
        ensures gives { result ≡ is_nobits self.now }
    {
        self.kind == SHT_NOBITS
    }

    /// Whether the section's bytes aren't all within the file.
    pub(crate) fn is_outside(&self, file: &FileImage) -> bool
        ensures gives { result ≡ is_outside (image_bytes file.now) self.now }
    {
        let len = file.len();
        self.offset > len || self.size > len - self.offset
    }

    /// Whether the section's bytes are compressed.
    pub(crate) fn is_compressed(&self) -> bool
        ensures gives { result ≡ is_compressed self.now }
    {
        self.flags & SHF_COMPRESSED != 0
    }

    /// Whether the section changes bytes of another one when the file is linked.
    pub(crate) fn relocates(&self, number: usize) -> bool
        ensures gives { result ≡ relocates number self.now }
    {
        (self.kind == SHT_RELA || self.kind == SHT_REL)
            && (self.size != 0 && self.info == number as u64)
    }

    /// The section's addresses; none where they pass 64 bits.
    pub(crate) fn addresses(&self) -> Option<Range>
        ensures gives { result ≡ addresses_of self.now }
    {
        let end = self.address.checked_add(self.size)?;
        Some(Range {
            begin: self.address,
            end,
        })
    }

    /// The bytes of the section, shared with the file: no bytes for NOBITS, or where they are
    /// outside the file. Takes memory for one byte or more.
    pub(crate) fn share_in(
        &self,
        file: &FileImage,
        endian: RunTimeEndian,
    ) -> Result<EndianBytes, LoaderError>
        ensures gives { IfOk result (λ b. b.bytes
            ≡ option_map_or (λ t. t) (section_bytes_in (image_bytes file.now) self.now) []) }
        ensures refused { IfErr result (λ e. e ≡ OutOfMemory) }
    {
        if self.is_nobits() || self.is_outside(file) {
            return Ok(EndianBytes::new(Bytes::new(), endian));
        }
        file.share(self.offset, self.size, endian)
    }

    // Whether the section's name begins with `.zdebug_`.
    fn has_zdebug_name(&self, names: &[u8]) -> bool
        ensures gives { result ≡ has_zdebug_name names.now self.now }
    {
        match text_at(names, self.name) {
            Some(text) => text.starts_with(b".zdebug_".as_slice()),
            None => false,
        }
    }

    // Whether the section's bytes are a header and a stream.
    fn is_packed(&self, names: &[u8]) -> bool
        ensures gives { result ≡ is_packed names.now self.now }
    {
        self.is_compressed() || self.has_zdebug_name(names)
    }

    // Whether its bytes, if lookups ask for it, it is packed and they are in the file, stand in one
    // piece.
    fn is_readable(&self, file: &FileImage, names: &[u8]) -> bool
        ensures gives { result ≡ is_readable file.now names.now self.now }
    {
        !is_wanted_section(self, names)
            || (!self.is_packed(names)
                || (self.is_outside(file) || file.is_held(self.offset, self.size)))
    }

    /// Whether a text of the table is the section's name.
    pub(crate) fn is_named(&self, names: &[u8], name: &[u8]) -> bool
        ensures gives { result ≡ is_named names.now name.now self.now }
    {
        match short_text_at(names, self.name, name.len()) {
            Some(text) => text == name,
            None => false,
        }
    }

    /// Whether the section's name is this one with `.zdebug_` in place of `.debug_`.
    pub(crate) fn is_zdebug(&self, names: &[u8], name: &[u8]) -> bool
        ensures gives { result ≡ is_zdebug names.now name.now self.now }
    {
        match short_text_at(names, self.name, name.len() + 1) {
            Some(text) => is_zdebug_text(name, text),
            None => false,
        }
    }
}

/// Whether a section has bytes that one of the others changes when the file is linked.
pub(crate) fn is_relocated(sections: &[SectionHeader], number: usize) -> bool
    ensures gives { result ≡ list_any (relocates number) sections.now }
{
    sections.iter().any(|section| section.relocates(number))
}

/// Whether a section's name is this one with `.zdebug_` in place of `.debug_`.
pub(crate) fn has_zdebug(sections: &[SectionHeader], names: &[u8], name: &[u8]) -> bool
    ensures gives { result ≡ list_any (is_zdebug names.now name.now) sections.now }
{
    sections
        .iter()
        .any(|section| section.is_zdebug(names, name))
}

/// The number of the first section whose name is this one with `.zdebug_` in place of `.debug_`.
pub(crate) fn zdebug_number(sections: &[SectionHeader], names: &[u8], name: &[u8]) -> Option<usize>
    ensures gives { result ≡ position (is_zdebug names.now name.now) sections.now }
{
    sections
        .iter()
        .position(|section| section.is_zdebug(names, name))
}

// Whether a text is the name with `.zdebug_` in place of `.debug_`.
fn is_zdebug_text(name: &[u8], text: &[u8]) -> bool
    ensures gives { result ≡ is_zdebug_text name.now text.now }
{
    let debug = b".debug_".as_slice();
    let zdebug = b".zdebug_".as_slice();
    if !name.starts_with(debug) || !text.starts_with(zdebug) {
        return false;
    }
    &text[zdebug.len()..] == &name[debug.len()..]
}

/// The string table that a section number names. Takes memory for one byte or more.
pub(crate) fn string_table(
    file: &FileImage,
    sections: &[SectionHeader],
    number: u64,
    endian: RunTimeEndian,
) -> Result<EndianBytes, LoaderError>
    ensures gives { IfOk result (λ b.
        b.bytes ≡ string_table_in (image_bytes file.now) sections.now number) }
    ensures none { sections.now ≡ [] → IsOk result }
    ensures refused { IfErr result (λ e. e ≡ OutOfMemory) }
{
    if number == SHN_UNDEF || number >= sections.len() as u64 {
        return Ok(EndianBytes::new(Bytes::new(), endian));
    }
    sections[number as usize].share_in(file, endian)
}

// Whether each section is readable.
fn are_readable(file: &FileImage, sections: &[SectionHeader], names: &[u8]) -> bool
    ensures gives { result ≡ list_all (is_readable file.now names.now) sections.now }
{
    sections
        .iter()
        .all(|section| section.is_readable(file, names))
}

/// The file with each packed section that lookups ask for in one piece: itself where each is so,
/// else a copy that is all in one piece. Takes memory only for a copy.
pub(crate) fn with_readable(
    file: FileImage,
    sections: &[SectionHeader],
    names: &[u8],
) -> Result<FileImage, LoaderError>
    ensures gives { IfOk result (λ f. image_bytes f ≡ image_bytes file) }
    ensures known { IfOk result (λ f. AreReadable f names.now sections.now) }
    ensures exact { AreReadable file names.now sections.now → result ≡ Ok file }
    ensures none { sections.now ≡ [] → IsOk result }
    ensures refused { IfErr result (λ e. e ≡ OutOfMemory) }
{
    if are_readable(&file, sections, names) {
        return Ok(file);
    }
    file.flattened()
}

// The text at the front, up to its zero byte.
fn front_text(bytes: &[u8]) -> Option<&[u8]>
    ensures gives { option_map (λ t. t.now) result ≡ front_text bytes.now }
{
    match zero_of(bytes) {
        Some(len) => bytes.get(..len),
        None => None,
    }
}

// What follows a place of a table.
fn rest_at(table: &[u8], at: u64) -> &[u8]
    ensures gives { result.now ≡ drop at table.now }
{
    if at > table.len() as u64 {
        return &table[..0];
    }
    let (_, rest) = table.split_at(at as usize);
    rest
}

/// The text at a place of a string table, up to its zero byte.
pub(crate) fn text_at(table: &[u8], at: u64) -> Option<&[u8]>
    ensures gives { option_map (λ t. t.now) result ≡ table_text_at table.now at }
{
    front_text(rest_at(table, at))
}

/// The text at a place of a string table, if it has no more than `limit` bytes. Reads at most one
/// more.
pub(crate) fn short_text_at(table: &[u8], at: u64, limit: usize) -> Option<&[u8]>
    ensures gives { option_map (λ t. t.now) result ≡ short_text_at limit table.now at }
{
    let rest = rest_at(table, at);
    if rest.len() <= limit {
        return front_text(rest);
    }
    front_text(&rest[..limit + 1])
}
