//! Symbols (System V ABI, Object Files: Symbol Table).

ghost use Rattle.std.specs.List.{find};
ghost use Rattle.std.specs.Prelude.{◌≡◌, ◌≤◌, ◌==◌, ℕ, List, [], ◌∷◌, ◌++◌, length, false, filter, is_some, option_map, true, OnOk, IfErr, IfOk, IsOk};
ghost use Rattle.std.specs.List.{slice_get};
ghost use Rattle.elf.specs.declared.error.LoaderError.TheVariants.{OutOfMemory};
ghost use Rattle.elf.specs.FileImage.{image_bytes};
ghost use Rattle.elf.specs.Layout.{layout_of};
ghost use Rattle.elf.specs.Symbols.{named_address, symbol_table, symbol_bytes, symbol_names_number, symbol_entry_in, utf8_from, name_from, symbol_entry_name, symbol_type, symbol_bind, is_usable_type, is_usable, usable_in, is_preferred_bind, preference, covers, nearest_symbol};
ghost use Rattle.std.specs.List.Sorted.{IsNonDecreasingBy, IsPartitionPoint};
ghost use Rattle.elf.specs.declared.symbol.SymbolEntry.{SymbolEntry as TableEntry};
ghost use Rattle.elf.specs.TextStarts.{AreStarts, is_ascii_table};
ghost use Rattle.elf.specs.SymbolTable.{IsSymbolTable, IsBelow, IsAbove};

use crate::constants::{
    SHN_UNDEF, SHT_DYNSYM, SHT_SYMTAB, ST_TYPE_COUNT, STB_GLOBAL, STB_WEAK, STT_FUNC, STT_NOTYPE,
    STT_OBJECT,
};
use crate::error::LoaderError;
use crate::header::Ident;
use crate::image::FileImage;
use crate::layout;
use crate::section::{self, SectionHeader};
use crate::text_starts::{TextStarts, text_starts};
use bytes::Bytes;
use gimli_read::{EndianBytes, RunTimeEndian};
use std::alloc::{AllocError, Global};
use std::str;

/// The name of an address.
#[derive(Clone, Copy, Debug, PartialEq, Eq)]
pub struct Symbol<'a> {
    name: &'a str,
    address: u64,
}

impl<'a> Symbol<'a> {
    // A symbol of that name.
    pub(crate) fn new(name: &'a str, address: u64) -> Symbol<'a>
        ensures gives { named_address result ≡ record { name = name.now; address = address } }
    {
        Symbol { name, address }
    }

    /// The symbol's name, as the file has it. Takes no memory.
    pub fn name(&self) -> &'a str
        ensures gives { result.now ≡ (named_address self.now).name }
    {
        self.name
    }

    /// The symbol's address, as the file has it. Takes no memory.
    pub fn address(&self) -> u64
        ensures gives { result ≡ (named_address self.now).address }
    {
        self.address
    }
}

/// An entry of a symbol table of either class.
#[derive(Clone, Copy)]
pub(crate) struct SymbolEntry {
    pub(crate) name: u32,
    pub(crate) info: u8,
    pub(crate) section: u16,
    pub(crate) address: u64,
    pub(crate) size: u64,
}

// The entry at the front.
fn entry_at(bytes: &[u8], ident: Ident) -> SymbolEntry
    requires whole { (layout_of ident.class).symbol_size ≤ length bytes.now }
    ensures gives { result ≡ symbol_entry_in ident.endian (layout_of ident.class) bytes.now }
{
    let layout = ident.class.layout();
    SymbolEntry {
        name: layout::word(bytes, layout.st_name, ident.endian),
        info: bytes[layout.st_info],
        section: layout::half(bytes, layout.st_shndx, ident.endian),
        address: layout::number(bytes, layout.st_value, layout.address_size, ident.endian),
        size: layout::number(bytes, layout.st_size, layout.address_size, ident.endian),
    }
}

// The bytes as a text, if they are UTF-8.
fn utf8_in(bytes: &[u8]) -> Option<&str>
    ensures gives { option_map (λ text. text.now) result ≡ utf8_from bytes.now }
{
    match str::from_utf8(bytes) {
        Ok(text) => Some(text),
        Err(_) => None,
    }
}

// A text as a symbol's name.
fn name_in(text: &[u8]) -> Option<&str>
    ensures gives { option_map (λ name. name.now) result ≡ name_from text.now }
{
    if text.is_empty() {
        return None;
    }
    utf8_in(text)
}

impl SymbolEntry {
    /// The entry's name.
    pub(crate) fn name<'a>(&self, names: &'a [u8]) -> Option<&'a str>
        ensures gives { option_map (λ name. name.now) result
            ≡ symbol_entry_name names.now self.now }
    {
        name_in(section::text_at(names, u64::from(self.name))?)
    }

    // Whether the entry has a name, by the places where texts begin.
    fn has_name(&self, names: &[u8], starts: &TextStarts) -> bool
        requires starts { AreStarts names.now starts.now }
        ensures gives { result ≡ is_some (symbol_entry_name names.now self.now) }
    {
        let at = self.name as usize;
        at < names.len() && (names[at] != 0 && starts.begins_at(at))
    }

    // The symbol's type.
    fn symbol_type(&self) -> u8
        ensures gives { result ≡ symbol_type self.now }
    {
        self.info % ST_TYPE_COUNT
    }

    // The symbol's bind.
    fn symbol_bind(&self) -> u8
        ensures gives { result ≡ symbol_bind self.now }
    {
        self.info / ST_TYPE_COUNT
    }

    // Whether the entry is a usable symbol, by the places where texts begin.
    fn is_usable(&self, names: &[u8], starts: &TextStarts) -> bool
        requires starts { AreStarts names.now starts.now }
        ensures gives { result ≡ is_usable names.now self.now }
    {
        u64::from(self.section) != SHN_UNDEF
            && (is_usable_type(self.symbol_type()) && self.has_name(names, starts))
    }

    // The symbol's rank among those at its address.
    fn preference(&self) -> u8
        ensures gives { result ≡ preference self.now }
    {
        let by_type = if self.symbol_type() == STT_NOTYPE {
            0
        } else {
            2
        };
        let by_bind = if is_preferred_bind(self.symbol_bind()) {
            1
        } else {
            0
        };
        by_type + by_bind
    }

    /// Whether a symbol at or below the probe covers it. None covers the last address.
    pub(crate) fn covers(&self, probe: u64) -> bool
        ensures gives { result ≡ covers probe self.now }
    {
        probe < u64::MAX && (self.size == 0 || probe.saturating_sub(self.address) < self.size)
    }
}

// Whether the type is one that a usable symbol has.
fn is_usable_type(kind: u8) -> bool
    ensures gives { result ≡ is_usable_type kind }
{
    matches!(kind, STT_NOTYPE | STT_OBJECT | STT_FUNC)
}

// Whether the bind is preferred.
fn is_preferred_bind(bind: u8) -> bool
    ensures gives { result ≡ is_preferred_bind bind }
{
    matches!(bind, STB_GLOBAL | STB_WEAK)
}

// The first section of a kind.
fn first_of(sections: &[SectionHeader], kind: u64) -> Option<SectionHeader>
    ensures found { result ≡ find (λ s. s.kind == kind) sections.now }
{
    sections
        .iter()
        .copied()
        .find(|section| section.kind == kind)
}

/// The section that is the symbol table.
pub(crate) fn table_in(sections: &[SectionHeader]) -> Option<SectionHeader>
    ensures gives { result ≡ symbol_table sections.now }
{
    match first_of(sections, SHT_SYMTAB) {
        Some(section) => Some(section),
        None => first_of(sections, SHT_DYNSYM),
    }
}

/// The bytes of the symbol table. Takes memory for one byte or more.
pub(crate) fn table_bytes(
    file: &FileImage,
    sections: &[SectionHeader],
    endian: RunTimeEndian,
) -> Result<EndianBytes, LoaderError>
    ensures gives { IfOk result (λ b.
        b.bytes ≡ symbol_bytes (image_bytes file.now) sections.now) }
    ensures none { sections.now ≡ [] → IsOk result }
    ensures refused { IfErr result (λ e. e ≡ OutOfMemory) }
{
    match table_in(sections) {
        Some(section) => section.share_in(file, endian),
        None => Ok(EndianBytes::new(Bytes::new(), endian)),
    }
}

/// The number of the section that has the symbols' names.
pub(crate) fn names_number(sections: &[SectionHeader]) -> u64
    ensures gives { result ≡ symbol_names_number sections.now }
{
    match table_in(sections) {
        Some(section) => section.link,
        None => 0,
    }
}

// Adds an entry, if it is a usable symbol.
fn push_usable(
    all: &mut Vec<SymbolEntry>,
    entry: SymbolEntry,
    names: &[u8],
    starts: &TextStarts,
) -> Result<(), AllocError>
    requires starts { AreStarts names.now starts.now }
    ensures gives { OnOk result
        (all.new.items ≡ all.old.items ++ filter (is_usable names.now) (entry ∷ [])) }
    ensures none { is_usable names.now entry ≡ false → IsOk result }
{
    if entry.is_usable(names, starts) {
        all.push(entry)?;
    }
    Ok(())
}

// The usable symbols of a table, in its order. Takes no memory where there are none, and the names
// are ASCII and end in a zero byte.
fn usable(
    alloc: Global,
    bytes: &[u8],
    names: &[u8],
    ident: Ident,
) -> Result<Vec<SymbolEntry>, AllocError>
    ensures gives { IfOk result (λ v.
        v.items ≡ usable_in ident.endian (layout_of ident.class) names.now bytes.now) }
    ensures none { is_ascii_table names.now ≡ true
        → usable_in ident.endian (layout_of ident.class) names.now bytes.now ≡ [] → IsOk result }
{
    let size = ident.class.layout().symbol_size;
    let count = bytes.len() / size;
    let starts = text_starts(alloc, names)?;
    let mut all = Vec::new(alloc);
    let mut rest = bytes;
    for _ in 0..count {
        push_usable(&mut all, entry_at(rest, ident), names, &starts)?;
        let (_, after) = rest.split_at(size);
        rest = after;
    }
    Ok(all)
}

/// The usable symbols of a table by address, then by preference, then as in the file. Takes no
/// memory for an empty table.
pub(crate) fn sorted(
    alloc: Global,
    bytes: &[u8],
    names: &[u8],
    ident: Ident,
) -> Result<Vec<SymbolEntry>, AllocError>
    ensures gives { IfOk result (λ v.
        IsSymbolTable (usable_in ident.endian (layout_of ident.class) names.now bytes.now)
        v.items) }
    ensures none { bytes.now ≡ [] → IsOk result }
{
    if bytes.is_empty() {
        return Ok(Vec::new(alloc));
    }
    let mut all = usable(alloc, bytes, names, ident)?;
    all.sort_by_key(|entry| (entry.address, entry.preference()))?;
    Ok(all)
}

// The number of symbols of a sorted table that are at or below the probe.
fn count_below(table: &[SymbolEntry], probe: u64) -> usize
    ensures bound { result ≤ length table.now }
    ensures gives { IsNonDecreasingBy (λ (e : TableEntry). e.address) table.now
        → IsPartitionPoint (IsBelow probe) (IsAbove probe) table.now result }
{
    table.partition_point(|entry| entry.address <= probe)
}

// The symbol at a place of a table.
fn nth(table: &[SymbolEntry], place: usize) -> Option<SymbolEntry>
    ensures gives { result ≡ slice_get table.now place }
{
    Some(*table.get(place)?)
}

/// The symbol at the probe or nearest below it, in a sorted table.
pub(crate) fn nearest_in(table: &[SymbolEntry], probe: u64) -> Option<SymbolEntry>
    ensures found { (symbols : List TableEntry) → IsSymbolTable symbols table.now
        → result ≡ nearest_symbol probe symbols }
{
    let count = count_below(table, probe);
    if count == 0 {
        return None;
    }
    nth(table, count - 1)
}
