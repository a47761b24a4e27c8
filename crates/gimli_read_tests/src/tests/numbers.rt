//! The calls of both readers.

use super::{EOF, OOM, SIZE, answer, borrowed, bytes, fault, front, shared, spelled, text, words};
use gimli_read::{Error, Format, Reader, RunTimeEndian, read_initial_length};
use std::alloc::{AllocError, Global};

fn number(answer: Result<u64, Error>) -> u128 {
    match answer {
        Ok(number) => u128::from(number),
        Err(error) => fault(error),
    }
}

fn part<R: Reader>(answer: Result<R, Error>) -> u128 {
    match answer {
        Ok(part) => spelled(part.to_slice()),
        Err(error) => fault(error),
    }
}

fn order(endian: RunTimeEndian) -> u64 {
    match endian {
        RunTimeEndian::Little => 0,
        RunTimeEndian::Big => 1,
    }
}

// The length of a unit, and 2^63 more where it is of 64-bit DWARF.
fn unit_length<R: Reader>(input: &mut R) -> u128 {
    match read_initial_length(input) {
        Ok((length, Format::Dwarf32)) => u128::from(length),
        Ok((length, Format::Dwarf64)) => u128::from(length).wrapping_add(1 << 63),
        Err(error) => fault(error),
    }
}

fn skipped<R: Reader>(input: &mut R, len: u64) -> Result<u64, Error> {
    input.skip(len)?;
    Ok(1)
}

fn order_of_a_part<R: Reader>(part: Result<R, Error>) -> Result<u64, Error> {
    match part {
        Ok(part) => Ok(order(part.endian())),
        Err(error) => Err(error),
    }
}

// A number that is as wide as its call says, or a LEB128 number.
fn fixed<R: Reader>(input: &mut R, call: &str) -> Result<u64, Error> {
    match call {
        "u8" => input.read_u8().map(u64::from),
        "i8" => input
            .read_i8()
            .map(|number| i64::from(number).cast_unsigned()),
        "u16" => input.read_u16().map(u64::from),
        "u32" => input.read_u32().map(u64::from),
        "u64" => input.read_u64(),
        "uleb" => input.read_uleb128(),
        "sleb" => input.read_sleb128().map(i64::cast_unsigned),
        _ => sized(input, call),
    }
}

// A number that is as wide as the unit says.
fn sized<R: Reader>(input: &mut R, call: &str) -> Result<u64, Error> {
    match call {
        "address0" => input.read_address(0),
        "address1" => input.read_address(1),
        "address2" => input.read_address(2),
        "address3" => input.read_address(3),
        "address4" => input.read_address(4),
        "address8" => input.read_address(8),
        "offset32" => input.read_offset(Format::Dwarf32),
        "offset64" => input.read_offset(Format::Dwarf64),
        _ => told(input, call),
    }
}

// What a reader tells of itself, and bytes that are passed over.
fn told<R: Reader>(input: &mut R, call: &str) -> Result<u64, Error> {
    match call {
        "skip2" => skipped(input, 2),
        "skip8" => skipped(input, 8),
        "skip all" => skipped(input, u64::MAX),
        "is_empty" => Ok(u64::from(input.is_empty())),
        "order" => Ok(order(input.endian())),
        "order_of_a_part" => order_of_a_part(input.split(2)),
        "order_of_a_second" => order_of_a_part(input.duplicate()),
        _ => Ok(u64::MAX),
    }
}

// The answer of a call as a number, and how many bytes are left.
fn called<R: Reader>(input: Result<R, AllocError>, call: &str) -> [u128; 2] {
    let Ok(mut input) = input else {
        return [OOM, 0];
    };
    let answer = match call {
        "text" => part(input.read_null_terminated()),
        "split2" => part(input.split(2)),
        "split8" => part(input.split(8)),
        "split all" => part(input.split(u64::MAX)),
        "second" => part(input.duplicate()),
        "rest" => match input.split(2) {
            Ok(_) => spelled(input.to_slice()),
            Err(error) => fault(error),
        },
        "length" => unit_length(&mut input),
        _ => number(fixed(&mut input, call)),
    };
    [answer, u128::from(input.len())]
}

// A call, the bytes, the answer with the lowest byte first and with the highest first, and how many
// bytes are left. The first seven of uleb and the first ten of sleb are the standard's own examples
// (DWARF 5, section 7.6, figures 22 and 23).
const CALLS: &str = "uleb 02 2 2 0
uleb 7f 7f 7f 0
uleb 8001 80 80 0
uleb 8101 81 81 0
uleb 8201 82 82 0
uleb b964 3239 3239 0
uleb e58e26 98765 98765 0
uleb 7f00 7f 7f 1
uleb e58e26807f 98765 98765 2
uleb 808000 0 0 0
uleb ffffffffffffffff7f 7fffffffffffffff 7fffffffffffffff 0
uleb ffffffffffffffffff01 ffffffffffffffff ffffffffffffffff 0
uleb 80808080808080808002 leb leb a
uleb 8080808080808080808000 leb leb b
uleb 808080808080808080 eof eof 9
uleb e58e eof eof 2
uleb 80 eof eof 1
uleb - eof eof 0
sleb 02 2 2 0
sleb 7e fffffffffffffffe fffffffffffffffe 0
sleb ff00 7f 7f 0
sleb 817f ffffffffffffff81 ffffffffffffff81 0
sleb 8001 80 80 0
sleb 807f ffffffffffffff80 ffffffffffffff80 0
sleb 8101 81 81 0
sleb ff7e ffffffffffffff7f ffffffffffffff7f 0
sleb 7f00 ffffffffffffffff ffffffffffffffff 1
sleb 3f80 3f 3f 1
sleb 4080 ffffffffffffffc0 ffffffffffffffc0 1
sleb ffffffffffffffffff00 7fffffffffffffff 7fffffffffffffff 0
sleb 8080808080808080807f 8000000000000000 8000000000000000 0
sleb 80808080808080808001 leb leb a
sleb ffffffffffffffffff01 leb leb a
sleb ffffffffffffffffff7e leb leb a
sleb 8080808080808080808000 leb leb b
sleb ffff eof eof 2
sleb - eof eof 0
text 00 1 1 0
text 63ff640065 163ff64 163ff64 1
text 65 eof eof 1
rest 01 eof eof 1
u8 81ff 81 81 1
u8 - eof eof 0
u8 818283848586878809 81 81 8
i8 81ff ffffffffffffff81 ffffffffffffff81 1
i8 00 0 0 0
i8 7f 7f 7f 0
i8 80 ffffffffffffff80 ffffffffffffff80 0
i8 ff ffffffffffffffff ffffffffffffffff 0
i8 - eof eof 0
u16 0102ff 201 102 1
u16 01 eof eof 1
u16 818283848586878809 8281 8182 7
u32 01020304 4030201 1020304 0
u32 010203 eof eof 3
u32 818283848586878809 84838281 81828384 5
u64 0102030405060708 807060504030201 102030405060708 0
u64 01020304050607 eof eof 7
u64 818283848586878809 8887868584838281 8182838485868788 1
address0 818283848586878809 size size 9
address1 818283848586878809 81 81 8
address2 010203 201 102 1
address2 818283848586878809 8281 8182 7
address3 010203 size size 3
address4 01020304 4030201 1020304 0
address4 818283848586878809 84838281 81828384 5
address8 818283848586878809 8887868584838281 8182838485868788 1
offset32 0102030405 4030201 1020304 1
offset32 818283848586878809 84838281 81828384 5
offset64 0102030405060708 807060504030201 102030405060708 0
offset64 01020304 eof eof 4
offset64 818283848586878809 8887868584838281 8182838485868788 1
text 6162006300 16162 16162 2
text 006300 1 1 2
text 6162 eof eof 2
text 6162000063ff640065 16162 16162 6
split2 010203 10102 10102 1
split2 01 eof eof 1
split2 0102030405 10102 10102 3
rest 0102030405 1030405 1030405 3
second 0102030405 10102030405 10102030405 5
order 010203 0 1 3
order_of_a_part 010203 0 1 1
order_of_a_second 010203 0 1 3
skip2 010203 1 1 1
skip2 01 eof eof 1
is_empty - 1 1 0
length 1b000000 1b 1b000000 0
length efffffff ffffffef efffffff 0
length f0ffffff length f0ffffff 0
length feffffff length feffffff 0
length ffffffff2300000000000000 8000000000000023 a300000000000000 0
length ffffffff23000000000000 eof eof 7";

// What both readers of the bytes that a text spells answer.
fn both_called(alloc: Global, text: &str, endian: RunTimeEndian, call: &str) -> [[u128; 2]; 2] {
    let (room, len) = bytes(text);
    let bytes = front(&room, len);
    [
        called(Ok(borrowed(bytes, endian)), call),
        called(shared(alloc, bytes, endian), call),
    ]
}

#[test]
fn both_readers_answer_alike_in_both_orders(rt: HostRuntime) {
    let mut cases = 0u64;
    for line in CALLS.split('\n') {
        let [call, text, little, big, left, _] = words(line);
        let found = [
            both_called(rt.alloc(), text, RunTimeEndian::Little, call),
            both_called(rt.alloc(), text, RunTimeEndian::Big, call),
        ];
        let left = answer(left);
        let want = [[[answer(little), left]; 2], [[answer(big), left]; 2]];
        assert_eq!(rt; found, want, "{call}");
        cases = cases.wrapping_add(1);
    }
    assert_eq!(rt; cases, 93);
}

// A call, and how many bytes it takes; past all bytes of a refused size.
const WIDTHS: [(&str, usize, u128); 17] = [
    ("u8", 1, EOF),
    ("i8", 1, EOF),
    ("address1", 1, EOF),
    ("u16", 2, EOF),
    ("address2", 2, EOF),
    ("skip2", 2, EOF),
    ("split2", 2, EOF),
    ("u32", 4, EOF),
    ("offset32", 4, EOF),
    ("u64", 8, EOF),
    ("offset64", 8, EOF),
    ("skip8", 8, EOF),
    ("split8", 8, EOF),
    ("skip all", 8, EOF),
    ("split all", 8, EOF),
    ("address3", 8, SIZE),
    ("address0", 8, SIZE),
];

// What both readers of so many bytes answer.
fn short_called(alloc: Global, len: usize, call: &str) -> [[u128; 2]; 2] {
    let short = front(&[1, 2, 3, 4, 5, 6, 7], len);
    [
        called(Ok(borrowed(short, RunTimeEndian::Little)), call),
        called(shared(alloc, short, RunTimeEndian::Big), call),
    ]
}

#[test]
fn a_reading_past_the_end_is_refused_and_leaves_all(rt: HostRuntime) {
    for (call, width, want) in WIDTHS {
        for len in 0..width {
            let found = short_called(rt.alloc(), len, call);
            assert_eq!(rt; found, [[want, len as u128]; 2], "{call}");
        }
    }
}

// The text that both readers show.
fn both_texts(alloc: Global, bytes: &[u8]) -> [u128; 2] {
    let order = RunTimeEndian::Little;
    [
        text(alloc, Ok(borrowed(bytes, order))),
        text(alloc, shared(alloc, bytes, order)),
    ]
}

#[test]
fn texts_are_shown(rt: HostRuntime) {
    let cases: [(&[u8], u128); 4] = [
        (b"ab", 0x1_6162),
        (&[0x63, 0xff, 0x64], 0x163_efbf_bd64),
        (&[], 1),
        (&[0xff], 0x1ef_bfbd),
    ];
    for (bytes, want) in cases {
        assert_eq!(rt; both_texts(rt.alloc(), bytes), [want; 2]);
    }
}

// The text that is known, 0 for none.
fn known<R: Reader>(input: &R) -> u128 {
    match input.known_text() {
        Some(text) => spelled(text.as_bytes()),
        None => 0,
    }
}

// What is known of a text before and after it is noted, and of a second reader of it; the text that
// is shown then, and what is known when a byte was passed over.
fn noted<R: Reader>(alloc: Global, input: Result<R, AllocError>) -> [u128; 5] {
    let Ok(input) = input else {
        return [OOM; 5];
    };
    let mut input = input;
    let before = known(&input);
    input.note_text();
    let after = known(&input);
    let second = match input.duplicate() {
        Ok(second) => known(&second),
        Err(error) => fault(error),
    };
    let shown = match input.to_string_lossy(alloc) {
        Ok(text) => spelled(text.as_bytes()),
        Err(error) => fault(error),
    };
    match input.skip(1) {
        Ok(()) | Err(_) => [before, after, second, shown, known(&input)],
    }
}

// What both readers answer of that.
fn both_noted(alloc: Global, bytes: &[u8]) -> [[u128; 5]; 2] {
    let order = RunTimeEndian::Big;
    [
        noted(alloc, Ok(borrowed(bytes, order))),
        noted(alloc, shared(alloc, bytes, order)),
    ]
}

// Where nothing is left to be passed over, the text stays known.
#[test]
fn a_text_is_known_once_it_is_noted(rt: HostRuntime) {
    let cases: [(&[u8], [u128; 5]); 4] = [
        (b"ab", [0, 0x1_6162, 0x1_6162, 0x1_6162, 0]),
        (&[0xc3, 0xa9], [0, 0x1_c3a9, 0x1_c3a9, 0x1_c3a9, 0]),
        (&[0x63, 0xff, 0x64], [0, 0, 0, 0x163_efbf_bd64, 0]),
        (&[], [0, 1, 1, 1, 1]),
    ];
    for (bytes, want) in cases {
        assert_eq!(rt; both_noted(rt.alloc(), bytes), [want; 2]);
    }
}

// Whether a refusal prints this text.
fn prints(alloc: Global, error: Error, want: &str) -> bool {
    match format!(in alloc; "{}", error) {
        Ok(text) => text.as_str() == want,
        Err(_) => false,
    }
}

#[test]
fn refusals_print_their_text(rt: HostRuntime) {
    let cases = [
        (Error::OutOfMemory, "out of memory"),
        (Error::UnexpectedEof, "unexpected end of data"),
        (Error::BadLeb128, "bad LEB128 number"),
        (Error::UnknownReservedLength, "unknown reserved length"),
        (Error::UnknownVersion, "unknown DWARF version"),
        (Error::UnknownUnitType, "unknown unit type"),
        (Error::UnsupportedAddressSize, "unsupported address size"),
        (Error::UnsupportedSegmentSize, "unsupported segment size"),
        (Error::BadAbbreviation, "bad abbreviation"),
        (Error::UnknownAbbreviation, "unknown abbreviation code"),
        (Error::UnknownForm, "unknown attribute form"),
        (Error::MissingUnitDie, "missing unit entry"),
        (Error::OffsetOutOfBounds, "offset out of bounds"),
        (Error::ExpectedString, "expected a string"),
        (Error::NoSupplementary, "no supplementary file"),
        (
            Error::NoEntryAtGivenOffset(7),
            "no entry at the given offset",
        ),
        (Error::UnknownRangeListEntry, "unknown range list entry"),
        (Error::BadLineHeader, "bad line program header"),
        (Error::AddressOverflow, "address overflow"),
        (Error::UnknownToken, "unknown unit token"),
    ];
    for (error, want) in cases {
        assert!(rt; prints(rt.alloc(), error, want), "{want}");
    }
}
