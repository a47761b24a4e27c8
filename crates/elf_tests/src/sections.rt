//! Sections by name, and their addresses.

use crate::answers::{EMPTY, bounds, open, open_as, order_number, section_number, symbol_numbers};
use crate::tables::{section_found, section_wanted};
use elf::ElfFile;
use elf_writer::{SHAPES, Section, Shape, elf_file, plain};
use gimli_read::RunTimeEndian;
use std::alloc::Global;

const SHT_RELA: u32 = 4;

const SHT_NOBITS: u32 = 8;

const SHT_REL: u32 = 9;

const SHF_COMPRESSED: u64 = 0x800;

// Of .debug_info, .text and .debug_line the bytes and the orders, of .text the addresses, and a
// symbol.
fn numbers(file: &ElfFile) -> [u64; 10] {
    let [begin, end] = bounds(file.section_range(b".text"));
    let [name, address] = symbol_numbers(file.symbol(0x1000));
    [
        section_number(file, ".debug_info"),
        order_number(file, ".debug_info"),
        section_number(file, ".text"),
        order_number(file, ".text"),
        section_number(file, ".debug_line"),
        order_number(file, ".debug_line"),
        begin,
        end,
        name,
        address,
    ]
}

// The numbers of a file of that shape, by a reader of that order.
fn numbers_as(alloc: Global, shape: Shape, endian: RunTimeEndian) -> Option<[u64; 10]> {
    let text = Section {
        address: 0x1000,
        ..plain(".text", &[7, 8])
    };
    let bytes = elf_file(alloc, shape, &[text, plain(".debug_info", &[1, 2, 3])]).ok()?;
    let file = open_as(alloc, bytes.as_slice(), endian).ok()?;
    Some(numbers(&file))
}

#[test]
fn byte_five_alone_gives_the_order(rt: HostRuntime) {
    for shape in SHAPES {
        let (order, other) = if shape.is_big {
            (2, RunTimeEndian::Little)
        } else {
            (1, RunTimeEndian::Big)
        };
        let want = [
            0x1_010203, order, 0x1_0708, order, EMPTY, order, 0x1000, 0x1002, 0, 0,
        ];
        assert_eq!(rt; numbers_as(rt.alloc(), shape, other), Some(want));
    }
}

// The ranges of some names.
fn ranges(file: &ElfFile) -> [[u64; 2]; 6] {
    [
        bounds(file.section_range(b".text")),
        bounds(file.section_range(b".last")),
        bounds(file.section_range(b".bss")),
        bounds(file.section_range(b".tex")),
        bounds(file.section_range(b".text\0")),
        bounds(file.section_range(b".texts")),
    ]
}

// The ranges of a file with two sections of a name, one whose end passes 64 bits, and a NOBITS one.
fn ranges_found(alloc: Global) -> Option<[[u64; 2]; 6]> {
    let text = Section {
        address: 0x10,
        ..plain(".text", &[0; 0x20])
    };
    let again = Section {
        address: 0x80,
        ..text
    };
    let last = Section {
        address: u64::MAX,
        ..plain(".last", &[0, 0])
    };
    let zero = Section {
        kind: SHT_NOBITS,
        flags: SHF_COMPRESSED,
        address: 0x40,
        ..plain(".bss", &[0, 0])
    };
    let bytes = elf_file(alloc, SHAPES[0], &[text, again, last, zero]).ok()?;
    Some(ranges(&open(alloc, bytes.as_slice()).ok()?))
}

#[test]
fn section_range(rt: HostRuntime) {
    let want = [[0x10, 0x30], [0, 0], [0x40, 0x42], [0, 0], [0, 0], [0, 0]];
    assert_eq!(rt; ranges_found(rt.alloc()), Some(want));
}

// The bytes of a name that several sections have, and of one with `z`.
fn named(file: &ElfFile) -> [u64; 2] {
    [
        section_number(file, ".debug_str"),
        section_number(file, ".zdebug_str"),
    ]
}

// Those of a file with two sections of the name, and one with `z`.
fn named_found(alloc: Global) -> Option<[u64; 2]> {
    let sections = [
        plain(".debug_str", &[1]),
        plain(".debug_str", &[2]),
        plain(".zdebug_str", &[3]),
    ];
    let bytes = elf_file(alloc, SHAPES[0], &sections).ok()?;
    Some(named(&open(alloc, bytes.as_slice()).ok()?))
}

#[test]
fn the_first_of_a_name_counts(rt: HostRuntime) {
    assert_eq!(rt; named_found(rt.alloc()), Some([0x101, 0x103]));
}

// The section of a word of a table.
fn section_of(word: &str) -> Option<Section<'static>> {
    let (name, kind, flags, info, bytes): (&str, u32, u64, u32, &[u8]) = match word.trim() {
        "info" => (".debug_info", 1, 0, 0, &[1, 2]),
        "compressed" => (".debug_info", 1, SHF_COMPRESSED, 0, &[1, 2]),
        "renamed" => (".zdebug_info", 1, 0, 0, &[1, 2]),
        "split" => (".zdebug_info.dwo", 1, 0, 0, &[1, 2]),
        "rela" => (".rela.debug_info", SHT_RELA, 0, 1, &[1, 2]),
        "rel" => (".rela.debug_info", SHT_REL, 0, 1, &[1, 2]),
        "other" => (".rela.debug_info", SHT_RELA, 0, 2, &[1, 2]),
        "empty" => (".rela.debug_info", SHT_RELA, 0, 1, &[]),
        _ => return None,
    };
    Some(Section {
        kind,
        flags,
        info,
        ..plain(name, bytes)
    })
}

// Whether a case has its answer; `None` where it can't be read, or a growth was refused.
fn is_file_right(alloc: Global, shape: Shape, case: &str) -> Option<bool> {
    let (e_type, rest) = case.split_once(';')?;
    let (sections, want) = rest.split_once(';')?;
    let (first, second) = sections.split_once(',')?;
    let e_type = u16::from_str_radix(e_type, 16).ok()?;
    let sections = [section_of(first)?, section_of(second)?];
    let file = elf_file(alloc, Shape { e_type, ..shape }, &sections).ok()?;
    Some(section_found(alloc, &file) == section_wanted(want.trim()))
}

// The first line, of an e_type, two sections and the answer, whose answer is another one.
fn first_wrong_file<'a>(alloc: Global, shape: Shape, cases: &'a str) -> &'a str {
    for case in cases.lines() {
        if is_file_right(alloc, shape, case) != Some(true) {
            return case;
        }
    }
    "none"
}

const COMPRESSED_OR_RELOCATED: &str = "\
1; info, info; 01 02
1; compressed, rela; CompressedSection
2; compressed, info; CompressedSection
2; renamed, split; CompressedSection
2; renamed, info; 01 02
2; split, split; empty
1; info, rela; RelocationsNeeded
1; info, rel; RelocationsNeeded
1; info, other; 01 02
1; info, empty; 01 02
3; info, rela; 01 02
3; info, rel; 01 02
";

#[test]
fn compressed_or_relocated(rt: HostRuntime) {
    for shape in SHAPES {
        assert_eq!(rt;
            first_wrong_file(rt.alloc(), shape, COMPRESSED_OR_RELOCATED),
            "none"
        );
    }
}
