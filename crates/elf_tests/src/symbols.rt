//! The symbol of a probe.

use crate::tables::{
    first_wrong_change, first_wrong_probe, first_wrong_symbol, symbols_file, symbols_file_as,
};
use elf_writer::{SHAPES, Section, Shape, Symbol, elf_file, named_symbol, plain, symbol_tables};
use std::alloc::Global;

const SHT_SYMTAB: u32 = 2;

const SHT_STRTAB: u32 = 3;

const SHT_DYNSYM: u32 = 11;

const THE_GLOBAL_ONE: &str = "\
0f; none
12; b 10
18; none
";

const NO_SYMBOL: &str = "\
0f; none
12; none
18; none
";

// The first probe of three symbols at 0x10 that has another symbol than it should, in a file of
// that shape whose table is of that kind.
fn first_wrong_choice<'a>(alloc: Global, shape: Shape, kind: u32, cases: &'a str) -> &'a str {
    let symbols = [
        named_symbol(b"a", 0x02, 0x10, 0x10),
        named_symbol(b"b", 0x12, 0x10, 8),
        named_symbol(b"c", 0x10, 0x10, 0),
    ];
    match symbols_file_as(alloc, shape, kind, &symbols) {
        Some(file) => first_wrong_probe(alloc, &file, cases),
        None => "no file",
    }
}

#[test]
fn symbol_choice(rt: HostRuntime) {
    for shape in SHAPES {
        for (kind, cases) in [
            (SHT_SYMTAB, THE_GLOBAL_ONE),
            (SHT_DYNSYM, THE_GLOBAL_ONE),
            (SHT_STRTAB, NO_SYMBOL),
        ] {
            assert_eq!(rt; first_wrong_choice(rt.alloc(), shape, kind, cases), "none");
        }
    }
}

// Of 64 bits, little endian: two symbols at 0x10, of which st_info is at 5d and 75.
const PREFERRED: &str = "\
untyped, object; 5d: 10; 75: 01; second 10
object, untyped; 5d: 01; 75: 10; first 10
object, function; 5d: 01; 75: 02; second 10
function, object; 5d: 02; 75: 01; second 10
global, function; 5d: 12; 75: 02; first 10
global, weak; 5d: 12; 75: 22; second 10
weak, global; 5d: 22; 75: 12; second 10
weak, unique; 5d: 22; 75: a2; first 10
unique, function; 5d: a2; 75: 02; second 10
function, unique; 5d: 02; 75: a2; second 10
";

#[test]
fn the_preferred_one_of_an_address(rt: HostRuntime) {
    let symbols = [
        named_symbol(b"first", 0x12, 0x10, 0),
        named_symbol(b"second", 0x12, 0x10, 0),
    ];
    assert_eq!(rt; first_wrong_change(rt.alloc(), &symbols, PREFERRED), "none");
}

// Of 64 bits, little endian: "kept" at 0x10 and "other" at 0x18, of which st_info is at 75,
// st_shndx at 77, and the name from 8f to 94.
const USABLE: &str = "\
nothing; other 18
undefined; 77: 00; kept 10
no name; 8f: 00; kept 10
a section; 75: 13; kept 10
a file; 75: 14; kept 10
local storage; 75: 16; kept 10
a byte that no character has; 8f: ff 00; kept 10
a character of two bytes; 75: 10; 8f: c3 a9 00; é 18
its second byte; 75: 10; 8f: a9 00; kept 10
its first byte, at the end; 75: 10; 8f: 61 c3 00; kept 10
its second byte, once more; 75: 10; 8f: c3 a9 a9 00; kept 10
a character of three bytes; 75: 10; 8f: e2 82 ac 00; € 18
two of its bytes; 75: 10; 8f: e2 82 00; kept 10
a character of four bytes; 75: 10; 8f: f0 9f 98 80 00; 😀 18
a surrogate; 75: 10; 8f: ed a0 80 00; kept 10
a zero of two bytes; 75: 10; 8f: c0 80 00; kept 10
a character between others; 75: 10; 8f: 61 c3 a9 62 00; aéb 18
no character before others; 75: 10; 8f: ff 61 62 63 64 00; kept 10
no character between others; 75: 10; 8f: 61 62 ff 63 64 00; kept 10
the second byte is where the name begins; 71: 07; 8f: c3 a9 62 00; kept 10
the name begins after a character; 71: 08; 8f: c3 a9 62 00; b 18
";

#[test]
fn what_is_no_symbol(rt: HostRuntime) {
    let symbols = [
        named_symbol(b"kept", 0x12, 0x10, 0),
        named_symbol(b"other", 0x12, 0x18, 0),
    ];
    assert_eq!(rt; first_wrong_change(rt.alloc(), &symbols, USABLE), "none");
}

const REACHED: &str = "\
00; none
0f; none
10; outer 10
1f; outer 10
20; inner 20
23; inner 20
24; none
3f; none
40; open 40
ff ff ff ff ff ff ff fd; open 40
ff ff ff ff ff ff ff fe; last ff ff ff ff ff ff ff fe
ff ff ff ff ff ff ff ff; none
";

// The first probe that has another symbol than it should.
fn first_wrong_reach<'a>(alloc: Global, symbols: &[Symbol<'_>], cases: &'a str) -> &'a str {
    match symbols_file(alloc, SHAPES[0], symbols) {
        Some(file) => first_wrong_probe(alloc, &file, cases),
        None => "no file",
    }
}

#[test]
fn the_nearest_one_has_to_reach(rt: HostRuntime) {
    let symbols = [
        named_symbol(b"open", 0x12, 0x40, 0),
        named_symbol(b"inner", 0x12, 0x20, 4),
        named_symbol(b"outer", 0x12, 0x10, 0x100),
        named_symbol(b"last", 0x12, u64::MAX - 1, 4),
    ];
    assert_eq!(rt; first_wrong_reach(rt.alloc(), &symbols, REACHED), "none");
}

// Of 64 bits, little endian: a SYMTAB with a symbol at 10, another one with that name at 8, and
// the strings that both name. The values are at 60 and 90, and the section headers at c8, 108,
// 148, 188 (the strings) and 1c8 (the names).
const TABLES: &str = "\
two of SYMTAB; one 10
two of SYMTAB, the lower symbol first; 60: 08; 90: 10; one 08
DYNSYM, then SYMTAB; 10c: 0b; one 08
two of DYNSYM; 10c: 0b; 14c: 0b; one 10
SYMTAB without a whole symbol; 128: 2f; 14c: 0b; 90: 10; none
SYMTAB without bytes; 128: 00; 14c: 0b; 90: 10; none
SYMTAB, NOBITS; 10c: 08; 14c: 0b; one 08
SYMTAB without strings; 130: 00; 14c: 0b; 90: 10; none
SYMTAB, whose strings are no section; 130: 09; 14c: 0b; 90: 10; none
strings without the last zero byte; 1a8: 04; none
section 0 outside; e0: ff ff ff ff ff ff ff ff; 14c: 0b; 90: 10; one 10
SYMTAB outside; 120: ff ff ff ff ff ff ff ff; 14c: 0b; 90: 10; none
DYNSYM outside; 160: ff ff ff ff ff ff ff ff; 14c: 0b; 90: 10; one 10
strings outside; 1a0: ff ff ff ff ff ff ff ff; 14c: 0b; 90: 10; none
names outside; 1e0: ff ff ff ff ff ff ff ff; 14c: 0b; 90: 10; one 10
";

// The file of two symbol tables.
fn two_tables(alloc: Global) -> Option<Vec<u8>> {
    let first = symbol_tables(alloc, SHAPES[0], &[named_symbol(b"one", 0x12, 0x10, 0)]).ok()?;
    let second = symbol_tables(alloc, SHAPES[0], &[named_symbol(b"one", 0x12, 8, 0)]).ok()?;
    let one = Section {
        kind: SHT_SYMTAB,
        link: 3,
        ..plain(".symtab", &first.symbols)
    };
    let other = Section {
        bytes: &second.symbols,
        ..one
    };
    elf_file(
        alloc,
        SHAPES[0],
        &[one, other, plain(".strtab", &first.strings)],
    )
    .ok()
}

// The first line whose answer is another one in that file.
fn first_wrong_table(alloc: Global, cases: &str) -> &str {
    match two_tables(alloc) {
        Some(file) => first_wrong_symbol(alloc, &file, cases),
        None => "no file",
    }
}

#[test]
fn which_table_counts(rt: HostRuntime) {
    assert_eq!(rt; first_wrong_table(rt.alloc(), TABLES), "none");
}
