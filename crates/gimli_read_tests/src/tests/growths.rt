//! Refused growths: `OutOfMemory` alone, and the reader is as it was.

use super::{EOF, OOM, borrowed, fault, shared, specification, spelled, text as shown};
use gimli_read::{
    Abbreviations, AttributeValue, DwForm, Encoding, Error, Format, Reader, RunTimeEndian,
    read_attribute, read_value,
};
use std::alloc::Global;

// A text that is no UTF-8, its zero, a length, and as many bytes.
const BYTES: [u8; 7] = [0x61, 0xff, 0x62, 0, 2, 8, 9];

const ALL: u128 = 0x161_ff62_0002_0809;

// Two abbreviations, the first with five attributes.
const TABLE: [u8; 23] = [
    1, 0x11, 1, 0x10, 0x17, 0x1b, 8, 0x11, 1, 0x12, 6, 3, 8, 0, 0, 2, 0x2e, 0, 3, 8, 0, 0, 0,
];

// The code 300 isn't one past or before 9, so the table takes memory for it too.
const SPARSE: [u8; 12] = [9, 0x11, 1, 0, 0, 0xac, 2, 0x1d, 0, 0, 0, 0];

// The bytes of a part that is taken, or its fault, and those that are left then.
fn part<R: Reader>(input: &R, taken: Result<R, Error>) -> [u128; 2] {
    match taken {
        Ok(part) => [spelled(part.to_slice()), spelled(input.to_slice())],
        Err(error) => [fault(error), spelled(input.to_slice())],
    }
}

fn second<R: Reader>(input: R) -> [u128; 2] {
    let taken = input.duplicate();
    part(&input, taken)
}

fn front<R: Reader>(input: R) -> [u128; 2] {
    let mut input = input;
    let taken = input.split(2);
    part(&input, taken)
}

fn text<R: Reader>(input: R) -> [u128; 2] {
    let mut input = input;
    let taken = input.read_null_terminated();
    part(&input, taken)
}

fn held<R: Reader>(value: Result<AttributeValue<R>, Error>) -> u128 {
    match value {
        Ok(AttributeValue::String(bytes)) => spelled(bytes.to_slice()),
        Ok(AttributeValue::Block(bytes)) => spelled(bytes.to_slice()),
        Ok(_) => 0,
        Err(error) => fault(error),
    }
}

const ENCODING: Encoding = Encoding {
    address_size: 8,
    format: Format::Dwarf32,
    version: 5,
};

fn string<R: Reader>(input: R) -> u128 {
    let mut input = input;
    held(read_value(&mut input, ENCODING, DwForm::DW_FORM_string))
}

fn block<R: Reader>(alloc: Global, input: R) -> u128 {
    let specification = match specification(alloc, 0x0a, 0) {
        Ok(specification) => specification,
        Err(error) => return fault(error),
    };
    let mut input = input;
    match read_attribute(&mut input, ENCODING, specification) {
        Ok(attribute) => held(Ok(attribute.value())),
        Err(error) => fault(error),
    }
}

// How many attributes the abbreviations of two codes have, 100 for none.
fn counts(alloc: Global, bytes: &[u8], first: u64, second: u64) -> [u128; 2] {
    match Abbreviations::parse(alloc, borrowed(bytes, RunTimeEndian::Little)) {
        Ok(table) => {
            let first = table.get(first).map(|it| it.attributes().len() as u128);
            let second = table.get(second).map(|it| it.attributes().len() as u128);
            [first.unwrap_or(100), second.unwrap_or(100)]
        }
        Err(error) => [fault(error), 0],
    }
}

// Each call that may take memory, over shared bytes: what it answers, and what is left.
fn each(alloc: Global) -> Result<[[u128; 2]; 9], Error> {
    let order = RunTimeEndian::Little;
    Ok([
        second(shared(alloc, &BYTES, order)?),
        front(shared(alloc, &BYTES, order)?),
        text(shared(alloc, &BYTES, order)?),
        [string(shared(alloc, &BYTES, order)?), 0],
        [block(alloc, shared(alloc, &BYTES[4..], order)?), 0],
        [shown(alloc, shared(alloc, &BYTES[..3], order)), 0],
        [shown(alloc, Ok(borrowed(&BYTES[..3], order))), 0],
        counts(alloc, &TABLE, 1, 2),
        counts(alloc, &SPARSE, 300, 9),
    ])
}

const GRANTED: [[u128; 2]; 9] = [
    [ALL, ALL],
    [0x1_61ff, 0x162_0002_0809],
    [0x161_ff62, 0x102_0809],
    [0x161_ff62, 0],
    [0x1_0809, 0],
    [0x161_efbf_bd62, 0],
    [0x161_efbf_bd62, 0],
    [5, 1],
    [0, 0],
];

// What each call answers where a growth of its own is refused.
const REFUSED: [[u128; 2]; 9] = [
    [OOM, ALL],
    [OOM, ALL],
    [OOM, ALL],
    [OOM, 0],
    [OOM, 0],
    [OOM, 0],
    [OOM, 0],
    [OOM, 0],
    [OOM, 0],
];

// Whether each answer is the granted one or the refused one.
fn is_either(found: [[u128; 2]; 9]) -> bool {
    let mut either = true;
    for index in 0..9 {
        let answer = found[index];
        either = either && (answer == GRANTED[index] || answer == REFUSED[index]);
    }
    either
}

#[test]
fn a_refused_growth_leaves_the_reader(rt: HostRuntime) {
    let found = each(rt.alloc()).map(is_either);
    assert!(rt; matches!(found, Ok(true) | Err(Error::OutOfMemory)));
}

#[test]
fn each_growth_is_granted(rt: HostRuntime) {
    let found = each(rt.alloc()).unwrap_or([[0; 2]; 9]);
    assert_eq!(rt; found, GRANTED);
}

// Borrowed bytes are never counted.
#[test]
fn a_refused_growth_is_nothing_to_a_borrowed_reader(rt: HostRuntime) {
    let order = RunTimeEndian::Little;
    let found = [
        second(borrowed(&BYTES, order)),
        front(borrowed(&BYTES, order)),
        text(borrowed(&BYTES, order)),
        [string(borrowed(&BYTES, order)), EOF],
    ];
    let want = [
        [ALL, ALL],
        [0x1_61ff, 0x162_0002_0809],
        [0x161_ff62, 0x102_0809],
        [0x161_ff62, EOF],
    ];
    assert_eq!(rt; found, want);
}
