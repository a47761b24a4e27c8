//! Abbreviation tables, whole and damaged.

use super::{BAD, EOF, LEB, OOM, answer, borrowed, fault, front, number, shared, words};
use gimli_read::{Abbreviations, DwAt, DwForm, Reader, RunTimeEndian};
use std::alloc::{AllocError, Global};

// What the table says of a code: tag, 16 times, a digit for children, 16 times, and the number of
// attributes; 0 for nothing.
fn said(table: &Abbreviations, code: u64) -> u128 {
    match table.get(code) {
        None => 0,
        Some(found) => {
            let count = found.attributes().len() as u128;
            let children = u128::from(found.has_children());
            let shown = u128::from(found.tag().0)
                .wrapping_mul(16)
                .wrapping_add(children);
            shown.wrapping_mul(16).wrapping_add(count)
        }
    }
}

// What a table that is read says of a code, or its fault.
fn said_of<R: Reader>(alloc: Global, input: Result<R, AllocError>, code: u64) -> u128 {
    let Ok(input) = input else {
        return OOM;
    };
    match Abbreviations::parse(alloc, input) {
        Ok(table) => said(&table, code),
        Err(error) => fault(error),
    }
}

// The same over both readers.
fn both_say(alloc: Global, bytes: &[u8], code: u64) -> [u128; 2] {
    [
        said_of(alloc, Ok(borrowed(bytes, RunTimeEndian::Little)), code),
        said_of(alloc, shared(alloc, bytes, RunTimeEndian::Big), code),
    ]
}

const PLAIN: [u8; 14] = [1, 0x11, 0, 0x10, 0x17, 0x1b, 8, 0x11, 1, 0x12, 6, 0, 0, 0];

// Four abbreviations.
const INLINED: [u8; 49] = [
    1, 0x11, 1, 0x10, 0x17, 0x1b, 8, 0x11, 1, 0x12, 6, 0, 0, 2, 0x2e, 1, 3, 8, 0x11, 1, 0x12, 6, 0,
    0, 3, 0x1d, 0, 0x31, 0x13, 0x11, 1, 0x12, 6, 0x58, 0x0b, 0x59, 0x0b, 0x57, 0x0b, 0, 0, 4, 0x2e,
    0, 3, 8, 0, 0, 0,
];

// Codes out of order, with a gap: 9, 1, 300, 2.
const SPARSE: [u8; 21] = [
    9, 0x11, 1, 0, 0, 1, 0x2e, 0, 0, 0, 0xac, 2, 0x1d, 0, 0, 0, 2, 0x3c, 0, 0, 0,
];

// Codes that go down by one from the first on, but for the last: 7, 6, 5, 8.
const FALLING: [u8; 22] = [
    7, 0x11, 1, 0, 0, 6, 0x2e, 0, 3, 8, 0, 0, 5, 0x1d, 0, 0, 0, 8, 0x3c, 0, 0, 0,
];

#[test]
fn a_table_is_read_by_code(rt: HostRuntime) {
    let cases: [(&[u8], u64, u128); 26] = [
        (&INLINED, 0, 0),
        (&INLINED, 1, 0x1114),
        (&INLINED, 2, 0x2e13),
        (&INLINED, 3, 0x1d06),
        (&INLINED, 4, 0x2e01),
        (&INLINED, 5, 0),
        (&SPARSE, 9, 0x1110),
        (&SPARSE, 1, 0x2e00),
        (&SPARSE, 300, 0x1d00),
        (&SPARSE, 2, 0x3c00),
        (&SPARSE, 0, 0),
        (&SPARSE, 3, 0),
        (&SPARSE, 4, 0),
        (&SPARSE, 8, 0),
        (&SPARSE, 10, 0),
        (&SPARSE, 299, 0),
        (&SPARSE, 301, 0),
        (&SPARSE, u64::MAX, 0),
        (&FALLING, 7, 0x1110),
        (&FALLING, 6, 0x2e01),
        (&FALLING, 5, 0x1d00),
        (&FALLING, 8, 0x3c00),
        (&FALLING, 4, 0),
        (&FALLING, 9, 0),
        (&FALLING, 10, 0),
        (&PLAIN, 1, 0x1104),
    ];
    for (bytes, code, want) in cases {
        assert_eq!(rt; both_say(rt.alloc(), bytes, code), [want; 2], "code {code}");
    }
}

// The code of an abbreviation, and the name and the form of one of its attributes; 0 for none.
fn attribute_at(table: &Abbreviations, code: u64, index: usize) -> [u64; 3] {
    match table.get(code) {
        None => [0, 0, 0],
        Some(found) => match found.attributes().get(index) {
            None => [found.code(), 0, 0],
            Some(attribute) => {
                let DwAt(name) = attribute.name();
                let DwForm(form) = attribute.form();
                [found.code(), name, form]
            }
        },
    }
}

// The first five of the table of PLAIN.
fn attributes(alloc: Global) -> [[u64; 3]; 5] {
    match Abbreviations::parse(alloc, borrowed(&PLAIN, RunTimeEndian::Little)) {
        Ok(table) => [
            attribute_at(&table, 1, 0),
            attribute_at(&table, 1, 1),
            attribute_at(&table, 1, 2),
            attribute_at(&table, 1, 3),
            attribute_at(&table, 1, 4),
        ],
        Err(_) => [[0; 3]; 5],
    }
}

#[test]
fn attributes_stand_in_order(rt: HostRuntime) {
    let want = [
        [1, 0x10, 0x17],
        [1, 0x1b, 0x08],
        [1, 0x11, 0x01],
        [1, 0x12, 0x06],
        [1, 0, 0],
    ];
    assert_eq!(rt; attributes(rt.alloc()), want);
}

#[test]
fn faults_of_a_table_are_refused(rt: HostRuntime) {
    let cases: [(&[u8], u128); 13] = [
        (&[], 0),
        (&[0], 0),
        (&[5, 0x11, 0, 0, 0, 4, 0x2e, 0, 0, 0, 5], BAD),
        (&[1, 0x11, 0, 0, 0, 1, 0x2e, 0, 0, 0, 0], BAD),
        (&[1, 0x11, 0, 0, 0, 1], BAD),
        (&[1, 0, 0, 0, 0, 0], BAD),
        (&[1, 0], BAD),
        (&[1, 0x11, 2, 0, 0, 0], BAD),
        (&[1, 0x11, 0xff], BAD),
        (&[1, 0x11, 0, 0, 8, 0, 0, 0], BAD),
        (&[1, 0x11, 0, 3, 0, 0, 0, 0], BAD),
        (&[1, 0x11, 0, 3, 0x21], EOF),
        (
            &[0x80, 0x80, 0x80, 0x80, 0x80, 0x80, 0x80, 0x80, 0x80, 2, 1],
            LEB,
        ),
    ];
    for (bytes, want) in cases {
        assert_eq!(rt; both_say(rt.alloc(), bytes, 7), [want; 2]);
    }
}

// The table ends whole where a code would stand.
#[test]
fn a_cut_table_is_refused(rt: HostRuntime) {
    for len in 0..50 {
        let want = match len {
            0 | 13 | 24 | 41 | 48 | 49 => 0,
            _ => EOF,
        };
        if let Some(bytes) = INLINED.get(..len) {
            assert_eq!(rt; both_say(rt.alloc(), bytes, 7), [want; 2], "at {len}");
        }
    }
}

// One abbreviation: code 1, compile_unit, with children; name by string; line by implicit_const -2.
const TABLE: [u8; 11] = [1, 0x11, 1, 3, 8, 0x3b, 0x21, 0x7e, 0, 0, 0];

// The place of a byte, what stands there instead, a code, and what the table says of it then.
const DAMAGE: &str = "0 00 1 0
0 02 2 1112
0 02 1 0
0 80 880 bad
0 ff 8ff bad
1 00 1 bad
1 2e 1 2e12
1 80 1 bad
1 ff 1 bad
2 00 1 1102
2 02 1 bad
2 80 1 bad
2 ff 1 bad
3 00 1 bad
3 7f 1 1112
3 80 1 1112
3 ff 1 1112
4 00 1 bad
4 21 1 1112
4 80 1 1112
4 ff 1 1112
5 00 1 bad
5 7f 1 1112
5 80 1 1112
5 ff 1 1112
6 00 1 bad
6 0b 1 bad
6 80 1 1112
6 ff 1 1112
7 00 1 1112
7 7f 1 1112
7 80 1 1112
7 ff 1 1112
8 01 1 bad
8 80 1 1112
8 ff 1 bad
9 01 1 bad
9 80 1 1112
9 ff 1 bad
a 01 1 bad
a 02 1 eof
a 80 1 eof
a ff 1 eof";

// How many of its bytes are left of the table, a code, and what the table says of it then.
const CUTS: &str = "0 1 0
1 1 eof
2 1 eof
3 1 eof
4 1 eof
5 1 eof
6 1 eof
7 1 eof
8 1 eof
9 1 eof
a 1 1112
b 1 1112";

// What TABLE says with another byte at a place.
fn damaged(alloc: Global, place: &str, value: &str, code: &str) -> [u128; 2] {
    let mut bytes = TABLE;
    if let Some(byte) = bytes.get_mut(number(place) as usize) {
        *byte = number(value).to_le_bytes()[0];
    }
    both_say(alloc, &bytes, number(code))
}

#[test]
fn a_table_is_damaged_at_each_byte(rt: HostRuntime) {
    let mut cases = 0u64;
    for line in DAMAGE.split('\n') {
        let [place, value, code, want, ..] = words(line);
        let found = damaged(rt.alloc(), place, value, code);
        assert_eq!(rt; found, [answer(want); 2], "byte {place}");
        cases = cases.wrapping_add(1);
    }
    assert_eq!(rt; cases, 43);
}

#[test]
fn a_table_is_cut_at_each_byte(rt: HostRuntime) {
    let mut cases = 0u64;
    for line in CUTS.split('\n') {
        let [len, code, want, ..] = words(line);
        let bytes = front(&TABLE, number(len) as usize);
        let found = both_say(rt.alloc(), bytes, number(code));
        assert_eq!(rt; found, [answer(want); 2], "at {len}");
        cases = cases.wrapping_add(1);
    }
    assert_eq!(rt; cases, 12);
}
