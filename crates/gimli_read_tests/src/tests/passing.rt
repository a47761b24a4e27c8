//! Attributes that are passed over, beside the same ones read.

use super::{
    OOM, OTHER, answer, borrowed, bytes, fault, front, number, shared, specification, words,
};
use gimli_read::{
    AttributeSpecification, Encoding, Format, Reader, RunTimeEndian, read_attribute, skip_attribute,
};
use std::alloc::{AllocError, Global};

// How many bytes are left after an attribute that is passed over.
fn passed<R: Reader>(
    input: Result<R, AllocError>,
    encoding: Encoding,
    specification: AttributeSpecification,
) -> u128 {
    let Ok(mut input) = input else {
        return OOM;
    };
    match skip_attribute(&mut input, encoding, specification) {
        Ok(()) => u128::from(input.len()),
        Err(error) => fault(error),
    }
}

// How many bytes are left after an attribute that is read.
fn read<R: Reader>(
    input: Result<R, AllocError>,
    encoding: Encoding,
    specification: AttributeSpecification,
) -> u128 {
    let Ok(mut input) = input else {
        return OOM;
    };
    match read_attribute(&mut input, encoding, specification) {
        Ok(_) => u128::from(input.len()),
        Err(error) => fault(error),
    }
}

// What passing over and reading leave, each over both readers.
fn left_after(
    alloc: Global,
    bytes: &[u8],
    order: RunTimeEndian,
    encoding: Encoding,
    specification: AttributeSpecification,
) -> [u128; 4] {
    [
        passed(Ok(borrowed(bytes, order)), encoding, specification),
        passed(shared(alloc, bytes, order), encoding, specification),
        read(Ok(borrowed(bytes, order)), encoding, specification),
        read(shared(alloc, bytes, order), encoding, specification),
    ]
}

// The same of an attribute of a form, and of the bytes that a text spells.
fn left(
    alloc: Global,
    text: &str,
    order: RunTimeEndian,
    encoding: Encoding,
    form: &str,
) -> [u128; 4] {
    let (room, len) = bytes(text);
    match specification(alloc, number(form), 9) {
        Ok(specification) => {
            left_after(alloc, front(&room, len), order, encoding, specification)
        }
        Err(_) => [OTHER; 4],
    }
}

// The form, the size of addresses, the version, the bytes where a value stands, and how many are
// left after it in 32-bit and in 64-bit DWARF.
const PASSED: &str = "01 4 5 0102030405060708090a 6 6
01 8 5 0102030405060708090a 2 2
01 3 5 0102030405060708090a size size
1b 4 5 8102030405060708090a 8 8
1f01 4 5 0102030405060708090a 9 9
29 4 5 0102030405060708090a 9 9
2a 4 5 0102030405060708090a 8 8
2b 4 5 0102030405060708090a 7 7
2c 4 5 0102030405060708090a 6 6
0a 4 5 0302030405060708090a 6 6
0a 4 5 0a02030405060708090a eof eof
03 4 5 0200030405060708090a 6 6
03 4 5 0100 eof eof
04 4 5 0200000005060708090a 4 4
04 4 5 0000000105060708090a eof eof
09 4 5 8200030405060708090a 6 6
18 4 5 0202030405060708090a 7 7
18 4 5 8080808080808080808001 leb leb
0b 4 5 0102030405060708090a 9 9
05 4 5 0102030405060708090a 8 8
06 4 5 0102030405060708090a 6 6
07 4 5 0102030405060708090a 2 2
1e 4 5 0102030405060708090a eof eof
1e 4 5 0102030405060708090a0102030405060708 2 2
0d 4 5 ff02030405060708090a 8 8
0d 4 5 ffffffffffffffffff01 leb leb
0f 4 5 ffffffffffffffffff01 0 0
0f 4 5 ffffffffffffffffff02 leb leb
0c 4 5 0102030405060708090a 9 9
19 4 5 0102030405060708090a a a
19 4 5 - 0 0
08 4 5 0102030405060008090a 3 3
08 4 5 0002030405060008090a 9 9
08 4 5 0102030405060708090a eof eof
0e 4 5 0102030405060708090a 6 2
1f 4 5 0102030405060708090a 6 2
1d 4 5 0102030405060708090a 6 2
1f21 4 5 0102030405060708090a 6 2
1a 4 5 0102030405060708090a 9 9
1f02 4 5 0102030405060708090a 9 9
25 4 5 0102030405060708090a 9 9
26 4 5 0102030405060708090a 8 8
27 4 5 0102030405060708090a 7 7
28 4 5 0102030405060708090a 6 6
11 4 5 0102030405060708090a 9 9
12 4 5 0102030405060708090a 8 8
13 4 5 0102030405060708090a 6 6
14 4 5 0102030405060708090a 2 2
15 4 5 0102030405060708090a 9 9
10 4 5 0102030405060708090a 6 2
10 2 2 0102030405060708090a 8 8
10 2 3 0102030405060708090a 6 2
1c 4 5 0102030405060708090a 6 6
24 4 5 0102030405060708090a 2 2
1f20 4 5 0102030405060708090a 6 2
20 4 5 0102030405060708090a 2 2
17 4 5 0102030405060708090a 6 2
22 4 5 0102030405060708090a 9 9
23 4 5 0102030405060708090a 9 9
16 4 5 0602030405060708090a 5 5
16 4 5 1616160e05060708090a 2 eof
16 4 5 21 form form
16 4 5 1616 eof eof
2d 4 5 0102030405060708090a form form
16 4 5 00 form form
21 4 5 07 1 1
2e 4 5 0102030405060708090a form form";

// The same in 32-bit and in 64-bit DWARF, of addresses of a size.
fn left_in_both(
    alloc: Global,
    text: &str,
    form: &str,
    size: &str,
    version: &str,
) -> [[u128; 4]; 2] {
    let short = Encoding {
        address_size: u8::try_from(number(size)).unwrap_or(0),
        format: Format::Dwarf32,
        version: u16::try_from(number(version)).unwrap_or(0),
    };
    let long = Encoding {
        format: Format::Dwarf64,
        ..short
    };
    [
        left(alloc, text, RunTimeEndian::Little, short, form),
        left(alloc, text, RunTimeEndian::Little, long, form),
    ]
}

#[test]
fn what_is_passed_over_is_what_is_read(rt: HostRuntime) {
    let mut cases = 0u64;
    for line in PASSED.split('\n') {
        let [form, size, version, text, short, long] = words(line);
        let found = left_in_both(rt.alloc(), text, form, size, version);
        let want = [[answer(short); 4], [answer(long); 4]];
        assert_eq!(rt; found, want, "form {form}");
        cases = cases.wrapping_add(2);
    }
    assert_eq!(rt; cases, 134);
}

// The form, the bytes where a value stands with the lowest byte first and with the highest first,
// and how many are left after it.
const ORDERED: &str = "0a 02080910 02080910 1
03 0200080910 0002080910 1
04 02000000080910 00000002080910 1
09 82000809 82000809 0
18 02080910 02080910 1
19 0910 0910 2
0d 800810 800810 1
08 610010 610010 1
16 030200080910 030002080910 1";

// What is left in both orders, and in each in 32-bit and in 64-bit DWARF.
fn left_in_orders(alloc: Global, form: &str, little: &str, big: &str) -> [[u128; 4]; 4] {
    let short = Encoding {
        address_size: 4,
        format: Format::Dwarf32,
        version: 5,
    };
    let long = Encoding {
        format: Format::Dwarf64,
        ..short
    };
    [
        left(alloc, little, RunTimeEndian::Little, short, form),
        left(alloc, little, RunTimeEndian::Little, long, form),
        left(alloc, big, RunTimeEndian::Big, short, form),
        left(alloc, big, RunTimeEndian::Big, long, form),
    ]
}

#[test]
fn blocks_are_passed_over_in_both_orders(rt: HostRuntime) {
    let mut cases = 0u64;
    for line in ORDERED.split('\n') {
        let [form, little, big, want, ..] = words(line);
        let found = left_in_orders(rt.alloc(), form, little, big);
        assert_eq!(rt; found, [[answer(want); 4]; 4], "form {form}");
        cases = cases.wrapping_add(4);
    }
    assert_eq!(rt; cases, 36);
}
