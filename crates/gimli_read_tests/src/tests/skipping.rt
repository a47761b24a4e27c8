//! The attributes of an entry, passed over and read, for each form.

use super::{EOF, OOM, OTHER, borrowed, fault, front, number, shared, words};
use gimli_read::{
    Abbreviation, Abbreviations, Encoding, Error, Format, Reader, RunTimeEndian, read_attribute,
    skip_attributes, skip_attributes_of,
};
use std::alloc::{AllocError, Global};

// Of zero bytes each block and each text is empty, and each LEB128 number is one byte, in both byte
// orders.
const ZEROS: [u8; 20] = [0; 20];

// The form of DW_FORM_implicit_const, after which a table has a constant.
const IMPLICIT_CONST: u64 = 0x21;

// A form, and the bytes of a value of it over zeros in four kinds of units: addresses of 4 bytes
// and offsets of 4, 8 and 8 (version 5), 4 and 8, 8 and 4 (version 2).
const SIZES: &str = "01 4 8 4 8
1b 1 1 1 1
1f01 1 1 1 1
29 1 1 1 1
2a 2 2 2 2
2b 3 3 3 3
2c 4 4 4 4
0a 1 1 1 1
03 2 2 2 2
04 4 4 4 4
09 1 1 1 1
18 1 1 1 1
0b 1 1 1 1
05 2 2 2 2
06 4 4 4 4
07 8 8 8 8
1e 10 10 10 10
0d 1 1 1 1
0f 1 1 1 1
21 0 0 0 0
0c 1 1 1 1
19 0 0 0 0
08 1 1 1 1
0e 4 8 8 4
1f 4 8 8 4
1d 4 8 8 4
1f21 4 8 8 4
1a 1 1 1 1
1f02 1 1 1 1
25 1 1 1 1
26 2 2 2 2
27 3 3 3 3
28 4 4 4 4
11 1 1 1 1
12 2 2 2 2
13 4 4 4 4
14 8 8 8 8
15 1 1 1 1
10 4 8 4 8
1c 4 4 4 4
24 8 8 8 8
1f20 4 8 8 4
20 8 8 8 8
17 4 8 8 4
22 1 1 1 1
23 1 1 1 1";

fn kind(address_size: u8, format: Format, version: u16) -> Encoding {
    Encoding {
        address_size,
        format,
        version,
    }
}

// The kinds of units of SIZES.
fn kinds() -> [Encoding; 4] {
    [
        kind(4, Format::Dwarf32, 5),
        kind(8, Format::Dwarf64, 5),
        kind(4, Format::Dwarf64, 2),
        kind(8, Format::Dwarf32, 2),
    ]
}

// A table of one abbreviation with a data2, an attribute of a form below 0x4000, and a data1.
fn table(alloc: Global, form: u64) -> Result<Abbreviations, Error> {
    let [low, high, ..] = form.wrapping_mul(2).to_le_bytes();
    let low = (low / 2) | 0x80;
    let with = [1, 0x2e, 0, 3, 5, 0x59, low, high, 9, 0x3a, 0xb, 0, 0, 0];
    let without = [1, 0x2e, 0, 3, 5, 0x59, low, high, 0x3a, 0xb, 0, 0, 0];
    let bytes = if form == IMPLICIT_CONST {
        with.as_slice()
    } else {
        without.as_slice()
    };
    Abbreviations::parse(alloc, borrowed(bytes, RunTimeEndian::Little))
}

// How many bytes are left after attributes that are passed over one after another.
fn passed<R: Reader>(
    input: Result<R, AllocError>,
    encoding: Encoding,
    abbreviation: &Abbreviation,
) -> u128 {
    let Ok(mut input) = input else {
        return OOM;
    };
    match skip_attributes(&mut input, encoding, abbreviation.attributes()) {
        Ok(()) => u128::from(input.len()),
        Err(error) => fault(error),
    }
}

// The same by their abbreviation.
fn passed_at_once<R: Reader>(
    input: Result<R, AllocError>,
    encoding: Encoding,
    abbreviation: &Abbreviation,
) -> u128 {
    let Ok(mut input) = input else {
        return OOM;
    };
    match skip_attributes_of(&mut input, encoding, abbreviation) {
        Ok(()) => u128::from(input.len()),
        Err(error) => fault(error),
    }
}

// The same after attributes that are read.
fn read<R: Reader>(
    input: Result<R, AllocError>,
    encoding: Encoding,
    abbreviation: &Abbreviation,
) -> u128 {
    let Ok(mut input) = input else {
        return OOM;
    };
    for specification in abbreviation.attributes() {
        match read_attribute(&mut input, encoding, *specification) {
            Ok(_) => {}
            Err(error) => return fault(error),
        }
    }
    u128::from(input.len())
}

// Each of the three over both readers.
fn left(
    alloc: Global,
    bytes: &[u8],
    order: RunTimeEndian,
    encoding: Encoding,
    abbreviation: &Abbreviation,
) -> [u128; 6] {
    [
        passed(Ok(borrowed(bytes, order)), encoding, abbreviation),
        passed(shared(alloc, bytes, order), encoding, abbreviation),
        passed_at_once(Ok(borrowed(bytes, order)), encoding, abbreviation),
        passed_at_once(shared(alloc, bytes, order), encoding, abbreviation),
        read(Ok(borrowed(bytes, order)), encoding, abbreviation),
        read(shared(alloc, bytes, order), encoding, abbreviation),
    ]
}

// What is left in both orders of so many zeros.
fn left_in_orders(
    alloc: Global,
    len: u64,
    encoding: Encoding,
    abbreviation: &Abbreviation,
) -> [[u128; 6]; 2] {
    let bytes = front(&ZEROS, len as usize);
    [
        left(alloc, bytes, RunTimeEndian::Little, encoding, abbreviation),
        left(alloc, bytes, RunTimeEndian::Big, encoding, abbreviation),
    ]
}

// The same of a table with that form.
fn left_of(alloc: Global, len: u64, encoding: Encoding, form: u64) -> [[u128; 6]; 2] {
    match table(alloc, form) {
        Ok(table) => match table.get(1) {
            Some(abbreviation) => left_in_orders(alloc, len, encoding, abbreviation),
            None => [[OTHER; 6]; 2],
        },
        Err(error) => [[fault(error); 6]; 2],
    }
}

// What is left of all zeros, and of one byte too few for a value of this size and the three bytes
// of the attributes around it.
fn whole_and_cut(alloc: Global, size: u64, encoding: Encoding, form: u64) -> [[[u128; 6]; 2]; 2] {
    [
        left_of(alloc, 20, encoding, form),
        left_of(alloc, size.saturating_add(2), encoding, form),
    ]
}

#[test]
fn attributes_are_passed_over_as_they_are_read(rt: HostRuntime) {
    let mut cases = 0u64;
    for line in SIZES.split('\n') {
        let [form, first, second, third, fourth, _] = words(line);
        for (encoding, size) in kinds().into_iter().zip([first, second, third, fourth]) {
            let size = number(size);
            let rest = u128::from(17u64.saturating_sub(size));
            let found = whole_and_cut(rt.alloc(), size, encoding, number(form));
            assert_eq!(rt; found, [[[rest; 6]; 2], [[EOF; 6]; 2]], "form {form}");
            cases = cases.wrapping_add(2);
        }
    }
    assert_eq!(rt; cases, 368);
}
