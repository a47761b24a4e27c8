//! The parts of a file that lookups read.

ghost use Rattle.std.specs.List.{list_all};
ghost use Rattle.std.specs.Option.{option_map_or};
ghost use Rattle.std.specs.Prelude.{◌≡◌, ◌≤◌, ◌+◌, ◌*◌, ◌==◌, ◌&&◌, ◌||◌, is_some, length, not, option_map, true, IfOk, IfSome};
ghost use Rattle.gimli_read.specs.Number.{fits_u64};
ghost use Rattle.elf.specs.declared.constants.TheConstants.{SHN_UNDEF};
ghost use Rattle.elf.specs.FileImage.{Shows, image_bytes};
ghost use Rattle.elf.specs.Header.{headers_in};
ghost use Rattle.elf.specs.Layout.{layout_of};
ghost use Rattle.elf.specs.SectionBytes.{string_table_in};
ghost use Rattle.elf.specs.Symbols.{symbol_names_number, symbol_table};
ghost use Rattle.elf.specs.Wanted.{HasWanted, has_wanted, shows_count, shows_section, is_shown_at, is_stem_text, is_table_stem, is_unit_stem, is_wanted_section, is_wanted_stem, is_wanted_text, shows_all};

use crate::constants::{EHDR_SIZE_MAX, GAP_MAX, HALF_SIZE, SHN_UNDEF, WANTED_NAME_MAX};
use crate::file::name_table_in;
use crate::header::{self, FileHeader, Ident};
use crate::image::FileImage;
use crate::parts::{PartSource, read_ranges, read_whole};
use crate::section::{self, SectionHeader};
use crate::symbol;
use gimli_read::Range;
use std::alloc::{AllocError, Global};

// Whether a text is a stem, or one with `.dwo` behind it.
fn is_stem_text(text: &[u8], stem: &[u8]) -> bool
    ensures gives { result ≡ is_stem_text text.now stem.now }
{
    text.starts_with(stem)
        && (text.len() == stem.len() || &text[stem.len()..] == b".dwo".as_slice())
}

// Whether it is the stem of a section that has units or lines.
fn is_unit_stem(text: &[u8]) -> bool
    ensures gives { result ≡ is_unit_stem text.now }
{
    is_stem_text(text, b"abbrev".as_slice())
        || (is_stem_text(text, b"info".as_slice())
            || (is_stem_text(text, b"line".as_slice())
                || is_stem_text(text, b"line_str".as_slice())))
}

// Whether it is that of one that units name ranges or addresses in, or texts.
fn is_table_stem(text: &[u8]) -> bool
    ensures gives { result ≡ is_table_stem text.now }
{
    is_stem_text(text, b"addr".as_slice())
        || (is_stem_text(text, b"aranges".as_slice())
            || (is_stem_text(text, b"ranges".as_slice())
                || (is_stem_text(text, b"rnglists".as_slice())
                    || (is_stem_text(text, b"str".as_slice())
                        || is_stem_text(text, b"str_offsets".as_slice())))))
}

// Whether it is one of both.
fn is_wanted_stem(text: &[u8]) -> bool
    ensures gives { result ≡ is_wanted_stem text.now }
{
    is_unit_stem(text) || is_table_stem(text)
}

// Whether a text is the name of a section of debug information that is wanted.
fn is_wanted_text(text: &[u8]) -> bool
    ensures gives { result ≡ is_wanted_text text.now }
{
    let debug = b".debug_".as_slice();
    let zdebug = b".zdebug_".as_slice();
    (text.starts_with(debug) && is_wanted_stem(&text[debug.len()..]))
        || (text.starts_with(zdebug) && is_wanted_stem(&text[zdebug.len()..]))
}

/// Whether a section has such a name.
pub(crate) fn is_wanted_section(section: &SectionHeader, names: &[u8]) -> bool
    ensures gives { result ≡ is_wanted_section names.now section.now }
{
    match section::short_text_at(names, section.name, WANTED_NAME_MAX) {
        Some(text) => is_wanted_text(text),
        None => false,
    }
}

// Whether one piece has the bytes of a section that isn't NOBITS, if they are in the file. One of
// no bytes needs a piece at its place too.
fn is_shown(section: &SectionHeader, file: &FileImage) -> bool
    ensures gives { result ≡ shows_section file.now section.now }
{
    section.is_nobits() || (section.is_outside(file) || file.is_held(section.offset, section.size))
}

// The same of the section of a number, if there is one.
fn is_shown_at(sections: &[SectionHeader], number: u64, file: &FileImage) -> bool
    ensures gives { result ≡ is_shown_at file.now sections.now number }
{
    if number >= sections.len() as u64 {
        return true;
    }
    is_shown(&sections[number as usize], file)
}

// The same of the symbol table, if there is one.
fn is_table_shown(sections: &[SectionHeader], file: &FileImage) -> bool
    ensures gives { result
        ≡ option_map_or (shows_section file.now) (symbol_table sections.now) true }
{
    match symbol::table_in(sections) {
        Some(section) => is_shown(&section, file),
        None => true,
    }
}

// The same of each section of debug information.
fn are_shown(sections: &[SectionHeader], names: &[u8], file: &FileImage) -> bool
    ensures gives { result
        ≡ list_all (λ s. not (is_wanted_section names.now s) || shows_section file.now s)
        sections.now }
{
    sections.iter().all(|section| !is_wanted_section(section, names) || is_shown(section, file))
}

// The string table of a number, if one piece has it.
fn names_in<'a>(file: &'a FileImage, sections: &[SectionHeader], number: u64) -> Option<&'a [u8]>
    ensures gives { IfSome result (λ b.
        b.now ≡ string_table_in (image_bytes file.now) sections.now number) }
    ensures some { is_some result
        ≡ (number == SHN_UNDEF || is_shown_at file.now sections.now number) }
{
    if number == SHN_UNDEF || number >= sections.len() as u64 {
        return Some(&[]);
    }
    let section = &sections[number as usize];
    if section.is_nobits() || section.is_outside(file) {
        return Some(&[]);
    }
    file.slice(section.offset, section.size)
}

// Whether pieces have the tables of a file.
fn shows_tables(file: &FileImage, sections: &[SectionHeader], name_table: u64) -> bool
    ensures gives { result ≡ (is_shown_at file.now sections.now name_table
        && (is_shown_at file.now sections.now (symbol_names_number sections.now)
        && option_map_or (shows_section file.now) (symbol_table sections.now) true)) }
{
    is_shown_at(sections, name_table, file)
        && (is_shown_at(sections, symbol::names_number(sections), file)
            && is_table_shown(sections, file))
}

// Whether they have its sections of debug information.
fn shows_sections(file: &FileImage, sections: &[SectionHeader], name_table: u64) -> bool
    requires names { is_shown_at file.now sections.now name_table ≡ true }
    ensures gives { result ≡ list_all (λ s.
        not (is_wanted_section (string_table_in (image_bytes file.now) sections.now name_table) s)
        || shows_section file.now s) sections.now }
{
    match names_in(file, sections, name_table) {
        Some(names) => are_shown(sections, names, file),
        // The table of names is shown, so one piece has it.
        None => false,
    }
}

// Whether pieces have the section headers, and what is wanted of the sections.
fn shows_all(
    alloc: Global,
    file: &FileImage,
    ident: Ident,
    header: FileHeader,
) -> Result<bool, AllocError>
    requires within { header.start + header.count * (layout_of ident.class).section_size
        ≤ length (image_bytes file.now) }
    ensures gives { IfOk result (λ b. b ≡ shows_all file.now ident header) }
{
    // The end of the headers fits, since the length does.
    let _ = file.len();
    let Some(range) = headers_range(ident, header) else {
        return Ok(false);
    };
    let size = ident.class.layout().section_size as u64;
    if !file.is_held(range.begin, size) || !file.is_held(range.begin, range.end - range.begin) {
        return Ok(false);
    }
    let sections = section::headers(alloc, file, range.begin, header.count, ident)?;
    let name_table = name_table_in(header.name_index, &sections);
    if !shows_tables(file, &sections, name_table) {
        return Ok(false);
    }
    Ok(shows_sections(file, &sections, name_table))
}

// Whether pieces have the number of section headers, where section 0 has it and the header is whole.
fn shows_count(file: &FileImage, ident: Ident) -> bool
    ensures gives { result ≡ shows_count file.now ident }
{
    let layout = ident.class.layout();
    let len = file.len();
    if len < layout.header_size as u64 {
        return true;
    }
    if file.number(0, layout.e_shnum, HALF_SIZE, ident.endian) != 0 {
        return true;
    }
    let at = file.number(0, layout.e_shoff, layout.address_size, ident.endian);
    let size = layout.section_size as u64;
    at > len || len - at < size || file.is_held(at, size)
}

// Whether pieces have all of a file that is wanted, or what refuses it.
#[tactic(auto, unfolding(crate::specs::Wanted::has_wanted))]
fn has_wanted(alloc: Global, file: &FileImage) -> Result<bool, AllocError>
    ensures gives { IfOk result (λ b. b ≡ has_wanted file.now) }
{
    if !file.is_held(0, EHDR_SIZE_MAX) {
        return Ok(false);
    }
    let Ok(ident) = header::read_ident(file) else {
        return Ok(true);
    };
    match header::read_header(file, ident) {
        Ok(header) => shows_all(alloc, file, ident, header),
        Err(_) => Ok(shows_count(file, ident)),
    }
}

// Where the section headers stand, if their end fits 64 bits.
fn headers_range(ident: Ident, header: FileHeader) -> Option<Range>
    ensures gives { IfSome result (λ r. (r.begin ≡ header.start)
        × (r.end ≡ header.start + header.count * (layout_of ident.class).section_size)) }
    ensures some { is_some result
        ≡ fits_u64 (header.start + header.count * (layout_of ident.class).section_size) }
{
    let begin = header.start as u64;
    let size = (header.count as u64).checked_mul(ident.class.layout().section_size as u64)?;
    let end = begin.checked_add(size)?;
    Some(Range { begin, end })
}

// Where section 0 stands, if it is in a file and has the number of section headers.
fn count_range(file: &FileImage, ident: Ident) -> Option<Range> {
    let layout = ident.class.layout();
    if file.len() < layout.header_size as u64 {
        return None;
    }
    if file.number(0, layout.e_shnum, HALF_SIZE, ident.endian) != 0 {
        return None;
    }
    let begin = file.number(0, layout.e_shoff, layout.address_size, ident.endian);
    let end = begin.checked_add(layout.section_size as u64)?;
    if end > file.len() {
        return None;
    }
    Some(Range { begin, end })
}

// The front of a file, and what else says whether it has a header: section 0, if that has the number
// of section headers.
fn read_front<S: PartSource>(alloc: Global, source: &S) -> Result<Option<FileImage>, AllocError>
    ensures gives { IfSome (S.bytes source.now) (λ bytes. IfOk result (λ found. IfSome found (λ f.
        Shows f bytes))) }
{
    let front = joined(alloc, &[])?;
    let Some(file) = read_ranges(alloc, source, &front)? else {
        return Ok(None);
    };
    let Ok(ident) = header::read_ident(&file) else {
        return Ok(Some(file));
    };
    match count_range(&file, ident) {
        Some(range) => read_ranges(alloc, source, &joined(alloc, [range].as_slice())?),
        None => Ok(Some(file)),
    }
}

// The section headers of a file, if they are in it.
fn read_section_headers<S: PartSource>(
    alloc: Global,
    source: &S,
    ident: Ident,
    header: FileHeader,
) -> Result<Option<Vec<SectionHeader>>, AllocError>
    ensures gives { IfSome (S.bytes source.now) (λ bytes. IfOk result (λ found.
        option_map (λ (v : _). v.items) found ≡ headers_in ident header bytes)) }
{
    let len = source.len();
    let Some(range) = headers_range(ident, header) else {
        return Ok(None);
    };
    if range.end > len {
        return Ok(None);
    }
    let Some(file) = read_ranges(alloc, source, [range].as_slice())? else {
        return Ok(None);
    };
    if range.end > file.len() {
        return Ok(None);
    }
    let sections = section::headers(alloc, &file, range.begin, header.count, ident)?;
    Ok(Some(sections))
}

// Where a section has bytes in a file of `len`.
fn range_of(section: &SectionHeader, len: u64) -> Option<Range> {
    if section.is_nobits() {
        return None;
    }
    let end = section.offset.checked_add(section.size)?;
    if end > len {
        return None;
    }
    Some(Range {
        begin: section.offset,
        end,
    })
}

// The names of the sections: no bytes where no section in the file has them.
fn read_names<S: PartSource>(
    alloc: Global,
    source: &S,
    sections: &[SectionHeader],
    name_table: u64,
) -> Result<Option<Vec<u8>>, AllocError> {
    if name_table == SHN_UNDEF || name_table >= sections.len() as u64 {
        return Ok(Some(Vec::new(alloc)));
    }
    let section = &sections[name_table as usize];
    match range_of(section, source.len()) {
        Some(range) => source.part(alloc, range.begin, section.size as usize),
        None => Ok(Some(Vec::new(alloc))),
    }
}

// Adds where a section has bytes in a file of `len`.
fn push_section(
    ranges: &mut Vec<Range>,
    section: &SectionHeader,
    len: u64,
) -> Result<(), AllocError> {
    if let Some(range) = range_of(section, len) {
        ranges.push(range)?;
    }
    Ok(())
}

// Where the section headers stand, one at least, the two string tables, the symbol table, and the
// sections that are wanted, by where they begin. One of no bytes is there too, since it needs a piece
// at its place.
fn wanted_ranges(
    alloc: Global,
    sections: &[SectionHeader],
    names: &[u8],
    name_table: u64,
    headers: Range,
    len: u64,
) -> Result<Vec<Range>, AllocError> {
    let mut ranges = Vec::new(alloc);
    ranges.push(headers)?;
    let symbol_names = symbol::names_number(sections);
    for (number, section) in sections.iter().enumerate() {
        let is_table = number as u64 == name_table || number as u64 == symbol_names;
        if is_table || is_wanted_section(section, names) {
            push_section(&mut ranges, section, len)?;
        }
    }
    if let Some(table) = symbol::table_in(sections) {
        push_section(&mut ranges, &table, len)?;
    }
    ranges.sort_by_key(|range| range.begin)?;
    Ok(ranges)
}

// Ranges in order, and the header before them, those as one that have few bytes between them.
fn joined(alloc: Global, ranges: &[Range]) -> Result<Vec<Range>, AllocError> {
    let mut all = Vec::new(alloc);
    let mut last = Range {
        begin: 0,
        end: EHDR_SIZE_MAX,
    };
    for range in ranges {
        if range.begin <= last.end.saturating_add(GAP_MAX) {
            last.end = last.end.max(range.end);
        } else {
            all.push(last)?;
            last = *range;
        }
    }
    all.push(last)?;
    Ok(all)
}

// The same with one section header at least, if it is in a file of `len` bytes.
fn with_first(headers: Range, ident: Ident, len: u64) -> Range {
    let first = headers
        .begin
        .saturating_add(ident.class.layout().section_size as u64);
    if first > len {
        return headers;
    }
    Range {
        begin: headers.begin,
        end: headers.end.max(first),
    }
}

// The ranges of a file to be read, by its front; none where it is refused, or can't be read.
fn planned<S: PartSource>(
    alloc: Global,
    source: &S,
    front: &FileImage,
) -> Result<Option<Vec<Range>>, AllocError> {
    let Ok(ident) = header::read_ident(front) else {
        return Ok(None);
    };
    let Ok(header) = header::read_header(front, ident) else {
        return Ok(None);
    };
    let Some(headers) = headers_range(ident, header) else {
        return Ok(None);
    };
    let Some(sections) = read_section_headers(alloc, source, ident, header)? else {
        return Ok(None);
    };
    let name_table = name_table_in(header.name_index, &sections);
    let Some(names) = read_names(alloc, source, &sections, name_table)? else {
        return Ok(None);
    };
    let len = source.len();
    let headers = with_first(headers, ident, len);
    let ranges = wanted_ranges(alloc, &sections, &names, name_table, headers, len)?;
    Ok(Some(joined(alloc, &ranges)?))
}

// The parts of a file that are wanted, or what refuses it; none where these can't be told or read.
fn read_planned<S: PartSource>(alloc: Global, source: &S) -> Result<Option<FileImage>, AllocError>
    ensures gives { IfSome (S.bytes source.now) (λ bytes. IfOk result (λ found. IfSome found (λ f.
        Shows f bytes))) }
{
    let Some(front) = read_front(alloc, source)? else {
        return Ok(None);
    };
    match planned(alloc, source, &front)? {
        Some(ranges) => read_ranges(alloc, source, &ranges),
        None => Ok(Some(front)),
    }
}

// The same, if they are all that is wanted.
fn read_checked<S: PartSource>(alloc: Global, source: &S) -> Result<Option<FileImage>, AllocError>
    ensures gives { IfSome (S.bytes source.now) (λ bytes. IfOk result (λ found. IfSome found (λ f.
        Shows f bytes))) }
    ensures whole { IfOk result (λ found. IfSome found (λ f. has_wanted f ≡ true)) }
{
    let Some(file) = read_planned(alloc, source)? else {
        return Ok(None);
    };
    if !has_wanted(alloc, &file)? {
        return Ok(None);
    }
    Ok(Some(file))
}

/// The parts of an ELF file that lookups read, or what refuses a file; none where the file can't be
/// read. A file of fewer bytes than an ELF file's header may have is read whole.
///
/// They are the header, the section headers with their names, the symbols with theirs, and the
/// sections of debug information that `SectionId` names, also those of split files and compressed
/// ones. What refuses a file is its first 64 bytes, with the header of section 0 where that has the
/// number of section headers. Fails where a growth was refused. Source: System V ABI, Object Files;
/// DWARF 5, section 7.5. Own: which parts.
pub fn read_wanted<S: PartSource>(
    alloc: Global,
    source: &S,
) -> Result<Option<FileImage>, AllocError>
    ensures gives { IfSome (S.bytes source.now) (λ bytes. IfOk result (λ found. IfSome found (λ f.
        Shows f bytes))) }
    ensures whole { IfOk result (λ found. IfSome found HasWanted) }
    ensures found { IfSome (S.bytes source.now) (λ _. IfOk result (λ found.
        is_some found ≡ true)) }
{
    match read_checked(alloc, source)? {
        Some(file) => Ok(Some(file)),
        None => read_whole(alloc, source),
    }
}
