//! Each vector read by both readers, whole and without its last byte: equal values and faults.

use crate::{files, ranges, tests};
use gimli::{
    DebugAbbrev, DebugAranges, DebugRanges, DebugRngLists, Dwarf, EndianBytes, EndianSlice,
    EntriesRaw, Error, LineRow, Reader, RunTimeEndian, Unit, UnitRef,
};
use std::alloc::Global;

const ORDER: RunTimeEndian = RunTimeEndian::Little;

// The vectors have their abbreviations, units and line programs here.
type Vector = (&'static [u8], &'static [u8], &'static [u8]);

// Version 5.
const INFO_5: &[u8] = b"\x1c\0\0\0\x05\0\x01\x08\0\0\0\0\x01\0\0\0\0/w\0\x10\0\0\0\0\0\0\0\
    \x20\0\0\0";

// The units of a split file, and their abbreviations.
const SPLIT_ABBREV: &[u8] = b"\x01\x11\x01\x13\x05\0\0\x02\x2e\0\x03\x08\x11\x01\x12\x06\0\0\0";

const SPLIT_INFO: &[u8] = b"\x23\0\0\0\x05\0\x05\x08\0\0\0\0\x88\x77\x66\x55\x44\x33\x22\x11\
    \x01\x1c\0\x02h\0\x10\0\0\0\0\0\0\0\x20\0\0\0\0";

// Two rows at one address.
const SAME_ADDRESS: &[u8] =
    b"\x34\0\0\0\x04\0\x1b\0\0\0\x01\x01\x01\xfb\x0e\x0d\0\x01\x01\x01\x01\0\0\0\x01\0\0\x01\
    \0a.c\0\0\0\0\0\0\x09\x02\x10\0\0\0\0\0\0\0\x01\x13\xf3\x02\x10\0\x01\x01";

// A sum in which the order of numbers counts.
fn mixed(sum: u64, number: u64) -> u64 {
    sum.wrapping_mul(31).wrapping_add(number)
}

// Bytes without their last one, where they are to be cut.
fn cut(bytes: &'static [u8], is_cut: bool) -> &'static [u8] {
    if is_cut && !bytes.is_empty() {
        &bytes[..bytes.len() - 1]
    } else {
        bytes
    }
}

fn borrowed(bytes: &'static [u8], is_cut: bool) -> EndianSlice<'static> {
    EndianSlice::new(cut(bytes, is_cut), ORDER)
}

fn shared(bytes: &'static [u8], is_cut: bool) -> EndianBytes {
    tests::shared(cut(bytes, is_cut), ORDER)
}

// The same file with these sections.
fn with_sections<R: Reader>(
    dwarf: Dwarf<R>,
    abbrev: R,
    aranges: R,
    ranges: R,
    rnglists: R,
) -> Dwarf<R> {
    let mut dwarf = dwarf;
    dwarf.debug_abbrev = DebugAbbrev::from(abbrev);
    dwarf.debug_aranges = DebugAranges::from(aranges);
    dwarf.debug_ranges = DebugRanges::from(ranges);
    dwarf.debug_rnglists = DebugRngLists::from(rnglists);
    dwarf
}

// The sections of a vector, and lists of ranges.
fn borrowed_file(vector: Vector, is_cut: bool) -> Dwarf<EndianSlice<'static>> {
    with_sections(
        tests::slices(cut(vector.1, is_cut), cut(vector.2, is_cut), ORDER),
        borrowed(vector.0, is_cut),
        borrowed(files::ARANGES, is_cut),
        borrowed(ranges::RANGES_32, is_cut),
        borrowed(ranges::RNGLISTS, is_cut),
    )
}

// The same over shared bytes.
fn shared_file(vector: Vector, is_cut: bool) -> Dwarf<EndianBytes> {
    with_sections(
        tests::counted(cut(vector.1, is_cut), cut(vector.2, is_cut), ORDER),
        shared(vector.0, is_cut),
        shared(files::ARANGES, is_cut),
        shared(ranges::RANGES_32, is_cut),
        shared(ranges::RNGLISTS, is_cut),
    )
}

// The next item: where it begins and its depth, its tag, and its attributes' names, strings and
// numbers.
fn item_sum<R: Reader>(
    unit: UnitRef<'_, R>,
    entries: &mut EntriesRaw<'_, R>,
) -> Result<u64, Error> {
    let mut sum = entries.next_offset().0;
    sum = mixed(sum, entries.next_depth().cast_unsigned() as u64);
    if let Some(abbreviation) = entries.read_abbreviation()? {
        sum = mixed(sum, abbreviation.tag().0);
        for specification in abbreviation.attributes() {
            let attribute = entries.read_attribute(*specification)?;
            sum = mixed(sum, attribute.name().0);
            sum = mixed(sum, attribute.udata_value().unwrap_or(3));
            sum = mixed(sum, tests::string_code(unit, attribute.value()));
        }
    }
    Ok(sum)
}

// The items of a unit, at most eight, and the fault that ends them.
fn items_sum<R: Reader>(unit: UnitRef<'_, R>) -> u64 {
    let mut entries = match unit.entries_raw(None) {
        Ok(entries) => entries,
        Err(error) => return tests::fault(error),
    };
    let mut sum = 0;
    for _ in 0..8 {
        if entries.is_empty() {
            return sum;
        }
        match item_sum(unit, &mut entries) {
            Ok(item) => sum = mixed(sum, item),
            Err(error) => return mixed(sum, tests::fault(error)),
        }
    }
    sum
}

// Three answers of the list at an offset.
fn list_sum<R: Reader>(unit: UnitRef<'_, R>, offset: u64) -> u64 {
    let mut list = match unit.ranges(offset) {
        Ok(list) => list,
        Err(error) => return tests::fault(error),
    };
    let mut sum = 0;
    for _ in 0..3 {
        let (begin, end) = ranges::next_code(&mut list);
        sum = mixed(mixed(sum, begin), end);
    }
    sum
}

fn row_sum(row: LineRow) -> u64 {
    let place = mixed(mixed(row.address, row.file_index), row.line);
    mixed(mixed(place, row.column), u64::from(row.end_sequence))
}

// The rows of a unit's line program, at most four, and the fault that ends them.
fn rows_sum<R: Reader>(unit: &Unit<R>) -> u64 {
    let Some(program) = &unit.line_program else {
        return 1;
    };
    let mut rows = match program.rows() {
        Ok(rows) => rows,
        Err(error) => return tests::fault(error),
    };
    let mut sum = 0;
    for _ in 0..4 {
        match rows.next_row() {
            Ok(Some(row)) => sum = mixed(sum, row_sum(row)),
            Ok(None) => return sum,
            Err(error) => return mixed(sum, tests::fault(error)),
        }
    }
    sum
}

// A unit's items, range lists at 0 and 16, rows and low_pc.
fn view_sums<R: Reader>(dwarf: &Dwarf<R>, unit: &Unit<R>) -> [u64; 5] {
    let view = UnitRef::new(dwarf, unit);
    [
        items_sum(view),
        list_sum(view, 0),
        list_sum(view, 16),
        rows_sum(unit),
        unit.low_pc,
    ]
}

// The same of the first unit, whose range lists begin at 12.
fn unit_sums<R: Reader>(alloc: Global, dwarf: &Dwarf<R>) -> Result<[u64; 5], Error> {
    let mut unit = tests::first_unit(alloc, dwarf)?;
    unit.rnglists_base = 12;
    Ok(view_sums(dwarf, &unit))
}

// The headers, the first unit's record, what it holds, and the address ranges.
fn sums<R: Reader>(alloc: Global, dwarf: &Dwarf<R>) -> [u64; 16] {
    let ([version, size, width, kind, offset], second) = tests::headers_code(dwarf);
    let [dir, low_pc, name, id, has_program] = tests::record_code(alloc, dwarf);
    let [items, list, later, rows, _] = match unit_sums(alloc, dwarf) {
        Ok(sums) => sums,
        Err(error) => [tests::fault(error); 5],
    };
    let [unit, _, end, _, _] = files::aranges_code(dwarf.debug_aranges.section.to_slice());
    [
        version,
        size,
        width,
        kind,
        offset,
        second,
        dir,
        low_pc,
        name,
        id,
        has_program,
        items,
        mixed(list, later),
        rows,
        unit,
        end,
    ]
}

fn sums_of<R: Reader>(alloc: Global, dwarf: Dwarf<R>) -> [u64; 16] {
    sums(alloc, &dwarf)
}

// Whether both readers give the same sums.
fn are_alike(alloc: Global, vector: Vector, is_cut: bool) -> bool {
    let borrowed = sums_of(alloc, borrowed_file(vector, is_cut));
    let shared = sums_of(alloc, shared_file(vector, is_cut));
    borrowed == shared
}

#[test]
fn both_readers_answer_alike(rt: HostRuntime) {
    use tests::{ABBREV, INFO, INFO_64, LINE, nesting};
    let vectors: [Vector; 7] = [
        (ABBREV, INFO, LINE),
        (nesting::ABBREV, nesting::NESTED, LINE),
        (ABBREV, INFO_5, files::LINE),
        (ABBREV, INFO_64, LINE),
        (files::ABBREV, files::INFO, files::LINE),
        (SPLIT_ABBREV, SPLIT_INFO, b""),
        (ABBREV, INFO, SAME_ADDRESS),
    ];
    for vector in vectors {
        let alike = [
            are_alike(rt.alloc(), vector, false),
            are_alike(rt.alloc(), vector, true),
        ];
        assert_eq!(rt; alike, [true; 2]);
    }
}
