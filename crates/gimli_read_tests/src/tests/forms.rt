//! Values of each form, in both byte orders and both formats.

use super::{
    EOF, OOM, OTHER, answer, borrowed, bytes, fault, front, number as word, shared, specification,
    spelled, words,
};
use gimli_read::{
    AttributeSpecification, AttributeValue, DwAt, DwForm, Encoding, Error, Format, NumberValue,
    Reader, RunTimeEndian, read_attribute, read_number, read_value,
};
use std::alloc::{AllocError, Global};

// Read in each form; the first byte is a LEB128 number too.
const BYTES: [u8; 18] = [1, 2, 3, 4, 5, 6, 7, 8, 9, 10, 11, 12, 13, 14, 15, 16, 0, 17];

// Each variant by a number.
const ADDR: u128 = 1;

const BLOCK: u128 = 2;

const DATA1: u128 = 3;

const DATA2: u128 = 4;

const DATA4: u128 = 5;

const DATA8: u128 = 6;

const DATA16: u128 = 7;

const SDATA: u128 = 8;

const UDATA: u128 = 9;

const EXPRLOC: u128 = 10;

const FLAG: u128 = 11;

const SEC_OFFSET: u128 = 12;

const ADDR_INDEX: u128 = 13;

const UNIT_REF: u128 = 14;

const INFO_REF: u128 = 15;

const INFO_REF_SUP: u128 = 16;

const TYPES_REF: u128 = 17;

const LOC_LISTS_INDEX: u128 = 18;

const RNG_LISTS_INDEX: u128 = 19;

const STR_REF: u128 = 20;

const STR_REF_SUP: u128 = 21;

const STR_OFFSETS_INDEX: u128 = 22;

const LINE_STR_REF: u128 = 23;

const STRING: u128 = 24;

// The variant, and its number or its bytes.
fn shown<R: Reader>(value: &AttributeValue<R>) -> [u128; 2] {
    match value {
        AttributeValue::Addr(n) => [ADDR, u128::from(*n)],
        AttributeValue::Block(r) => [BLOCK, spelled(r.to_slice())],
        AttributeValue::Data1(n) => [DATA1, u128::from(*n)],
        AttributeValue::Data2(n) => [DATA2, u128::from(*n)],
        AttributeValue::Data4(n) => [DATA4, u128::from(*n)],
        AttributeValue::Data8(n) => [DATA8, u128::from(*n)],
        AttributeValue::Data16(n) => [DATA16, *n],
        AttributeValue::Sdata(n) => [SDATA, u128::from(n.cast_unsigned())],
        AttributeValue::Udata(n) => [UDATA, u128::from(*n)],
        AttributeValue::Exprloc(r) => [EXPRLOC, spelled(r.to_slice())],
        AttributeValue::Flag(f) => [FLAG, u128::from(*f)],
        AttributeValue::SecOffset(n) => [SEC_OFFSET, u128::from(*n)],
        AttributeValue::DebugAddrIndex(n) => [ADDR_INDEX, u128::from(*n)],
        AttributeValue::UnitRef(n) => [UNIT_REF, u128::from(n.0)],
        AttributeValue::DebugInfoRef(n) => [INFO_REF, u128::from(n.0)],
        AttributeValue::DebugInfoRefSup(n) => [INFO_REF_SUP, u128::from(n.0)],
        AttributeValue::DebugTypesRef(n) => [TYPES_REF, u128::from(*n)],
        AttributeValue::DebugLocListsIndex(n) => [LOC_LISTS_INDEX, u128::from(*n)],
        AttributeValue::DebugRngListsIndex(n) => [RNG_LISTS_INDEX, u128::from(*n)],
        AttributeValue::DebugStrRef(n) => [STR_REF, u128::from(*n)],
        AttributeValue::DebugStrRefSup(n) => [STR_REF_SUP, u128::from(*n)],
        AttributeValue::DebugStrOffsetsIndex(n) => [STR_OFFSETS_INDEX, u128::from(*n)],
        AttributeValue::DebugLineStrRef(n) => [LINE_STR_REF, u128::from(*n)],
        AttributeValue::String(r) => [STRING, spelled(r.to_slice())],
    }
}

// The variant of a form's value, its number or bytes, and how many bytes are left; a fault alone.
fn value<R: Reader>(input: Result<R, AllocError>, encoding: Encoding, form: u64) -> [u128; 3] {
    let Ok(mut input) = input else {
        return [OOM, 0, 0];
    };
    match read_value(&mut input, encoding, DwForm(form)) {
        Ok(value) => {
            let [variant, number] = shown(&value);
            [variant, number, u128::from(input.len())]
        }
        Err(error) => [fault(error), 0, 0],
    }
}

// The same over both readers.
fn values(
    alloc: Global,
    bytes: &[u8],
    order: RunTimeEndian,
    encoding: Encoding,
    form: u64,
) -> [[u128; 3]; 2] {
    [
        value(Ok(borrowed(bytes, order)), encoding, form),
        value(shared(alloc, bytes, order), encoding, form),
    ]
}

// The number that the first bytes of BYTES are.
fn number(endian: RunTimeEndian, width: u64) -> u128 {
    match (endian, width) {
        (_, 1) => 1,
        (RunTimeEndian::Little, 2) => 0x201,
        (RunTimeEndian::Little, 3) => 0x3_0201,
        (RunTimeEndian::Little, 4) => 0x403_0201,
        (RunTimeEndian::Little, 8) => 0x807_0605_0403_0201,
        (RunTimeEndian::Big, 2) => 0x102,
        (RunTimeEndian::Big, 3) => 0x1_0203,
        (RunTimeEndian::Big, 4) => 0x102_0304,
        (RunTimeEndian::Big, 8) => 0x102_0304_0506_0708,
        (RunTimeEndian::Little, _) => 0x100f_0e0d_0c0b_0a09_0807_0605_0403_0201,
        (RunTimeEndian::Big, _) => 0x102_0304_0506_0708_090a_0b0c_0d0e_0f10,
    }
}

// Each form of a number: its code, its variant, and its width in 32-bit and in 64-bit DWARF, where
// addresses are of 4 and of 8 bytes.
const FORMS: [(u64, u128, u64, u64); 38] = [
    (0x01, ADDR, 4, 8),
    (0x1b, ADDR_INDEX, 1, 1),
    (0x1f01, ADDR_INDEX, 1, 1),
    (0x29, ADDR_INDEX, 1, 1),
    (0x2a, ADDR_INDEX, 2, 2),
    (0x2b, ADDR_INDEX, 3, 3),
    (0x2c, ADDR_INDEX, 4, 4),
    (0x0b, DATA1, 1, 1),
    (0x05, DATA2, 2, 2),
    (0x06, DATA4, 4, 4),
    (0x07, DATA8, 8, 8),
    (0x1e, DATA16, 16, 16),
    (0x0d, SDATA, 1, 1),
    (0x0f, UDATA, 1, 1),
    (0x0c, FLAG, 1, 1),
    (0x0e, STR_REF, 4, 8),
    (0x1f, LINE_STR_REF, 4, 8),
    (0x1d, STR_REF_SUP, 4, 8),
    (0x1f21, STR_REF_SUP, 4, 8),
    (0x1a, STR_OFFSETS_INDEX, 1, 1),
    (0x1f02, STR_OFFSETS_INDEX, 1, 1),
    (0x25, STR_OFFSETS_INDEX, 1, 1),
    (0x26, STR_OFFSETS_INDEX, 2, 2),
    (0x27, STR_OFFSETS_INDEX, 3, 3),
    (0x28, STR_OFFSETS_INDEX, 4, 4),
    (0x11, UNIT_REF, 1, 1),
    (0x12, UNIT_REF, 2, 2),
    (0x13, UNIT_REF, 4, 4),
    (0x14, UNIT_REF, 8, 8),
    (0x15, UNIT_REF, 1, 1),
    (0x10, INFO_REF, 4, 8),
    (0x1c, INFO_REF_SUP, 4, 4),
    (0x24, INFO_REF_SUP, 8, 8),
    (0x1f20, INFO_REF_SUP, 4, 8),
    (0x20, TYPES_REF, 8, 8),
    (0x17, SEC_OFFSET, 4, 8),
    (0x22, LOC_LISTS_INDEX, 1, 1),
    (0x23, RNG_LISTS_INDEX, 1, 1),
];

// Version 5, with addresses as wide as offsets.
fn encoding(format: Format) -> Encoding {
    let address_size = match format {
        Format::Dwarf32 => 4,
        Format::Dwarf64 => 8,
    };
    Encoding {
        address_size,
        format,
        version: 5,
    }
}

// What both readers find in BYTES in 32-bit and in 64-bit DWARF.
fn found(alloc: Global, order: RunTimeEndian, form: u64) -> [[[u128; 3]; 2]; 2] {
    [
        values(alloc, &BYTES, order, encoding(Format::Dwarf32), form),
        values(alloc, &BYTES, order, encoding(Format::Dwarf64), form),
    ]
}

// What is to be found of a number of that width.
fn wanted(order: RunTimeEndian, variant: u128, width: u64) -> [[u128; 3]; 2] {
    let left = 18u64.wrapping_sub(width);
    [[variant, number(order, width), u128::from(left)]; 2]
}

#[test]
fn each_form_of_a_number_is_read(rt: HostRuntime) {
    for order in [RunTimeEndian::Little, RunTimeEndian::Big] {
        for (form, variant, short, long) in FORMS {
            let found = found(rt.alloc(), order, form);
            let want = [wanted(order, variant, short), wanted(order, variant, long)];
            assert_eq!(rt; found, want, "form {form}");
        }
    }
}

// A form, the bytes, and what is read in 64-bit DWARF with the lowest byte first: the variant in
// hexadecimal or a fault, the number or bytes, and how many bytes are left.
const SPECIAL: &str = "08 0102030405060708090a0b0c0d0e0f100011 18 10 1
0a 0208090a 2 10809 1
0a 0408090a eof 0 0
03 020008090a 2 10809 1
04 0200000008090a 2 10809 1
09 820008090a 2 10809 1
18 0208090a a 10809 1
18 020102 a 10102 0
18 ff eof 0 0
18 80 eof 0 0
0c 00 b 0 0
0c 02 b 1 0
19 - b 1 0
0d 7f 8 ffffffffffffffff 0
08 610001 18 161 1
08 61 eof 0 0
16 0b07 3 7 0
16 16160b07 3 7 0
16 1616 eof 0 0
16 2107 form 0 0
16 0207 form 0 0
21 07 form 0 0
00 07 form 0 0
02 07 form 0 0
2d 07 form 0 0
01 01020304050607 eof 0 0
2b 010203 d 30201 0
10 0102030405060708 f 807060504030201 0";

// What both readers find in the bytes that a text spells.
fn found_in(alloc: Global, text: &str, form: &str) -> [[u128; 3]; 2] {
    let (room, len) = bytes(text);
    let order = RunTimeEndian::Little;
    let long = encoding(Format::Dwarf64);
    values(alloc, front(&room, len), order, long, word(form))
}

#[test]
fn blocks_texts_and_indirections_are_read(rt: HostRuntime) {
    let mut cases = 0u64;
    for line in SPECIAL.split('\n') {
        let [form, text, variant, what, left, _] = words(line);
        let want = [answer(variant), answer(what), answer(left)];
        assert_eq!(rt; found_in(rt.alloc(), text, form), [want; 2], "form {form}");
        cases = cases.wrapping_add(1);
    }
    assert_eq!(rt; cases, 28);
}

#[test]
fn ref_addr_of_version_2_is_an_address(rt: HostRuntime) {
    for (version, want) in [(2, [INFO_REF, 0x201, 16]), (3, [INFO_REF, 0x403_0201, 14])] {
        let encoding = Encoding {
            address_size: 2,
            format: Format::Dwarf32,
            version,
        };
        let found = value(Ok(borrowed(&BYTES, RunTimeEndian::Little)), encoding, 0x10);
        assert_eq!(rt; found, want);
    }
}

// The name of an attribute, its constant (1000 for none), how many bytes are left, its variant, and
// its number.
fn attribute<R: Reader>(
    input: Result<R, AllocError>,
    specification: AttributeSpecification,
) -> [u128; 5] {
    let Ok(mut input) = input else {
        return [OOM, 0, 0, 0, 0];
    };
    match read_attribute(&mut input, encoding(Format::Dwarf32), specification) {
        Ok(attribute) => {
            let DwAt(name) = attribute.name();
            let constant = attribute.udata_value().unwrap_or(1000);
            let [variant, number] = shown(&attribute.value());
            let left = u128::from(input.len());
            [
                u128::from(name),
                u128::from(constant),
                left,
                variant,
                number,
            ]
        }
        Err(error) => [fault(error), 0, 0, 0, 0],
    }
}

// The same over both readers, of a form and its value in the table.
fn attributes(alloc: Global, form: u64, constant: u8, bytes: &[u8]) -> [[u128; 5]; 2] {
    let order = RunTimeEndian::Little;
    match specification(alloc, form, constant) {
        Ok(specification) => [
            attribute(Ok(borrowed(bytes, order)), specification),
            attribute(shared(alloc, bytes, order), specification),
        ],
        Err(_) => [[OTHER, 0, 0, 0, 0]; 2],
    }
}

#[test]
fn attributes_have_their_constants(rt: HostRuntime) {
    // A form, its value in the table where it is implicit_const, and the bytes.
    let cases: [(u64, u8, &[u8], [u128; 5]); 9] = [
        (0x21, 9, &[], [0x59, 9, 0, SDATA, 9]),
        (
            0x21,
            0x77,
            &[7],
            [0x59, 1000, 1, SDATA, 0xffff_ffff_ffff_fff7],
        ),
        (
            0x21,
            0x7e,
            &[7],
            [0x59, 1000, 1, SDATA, 0xffff_ffff_ffff_fffe],
        ),
        (0x0b, 0, &[7, 8], [0x59, 7, 1, DATA1, 7]),
        (0x0d, 0, &[7, 8], [0x59, 7, 1, SDATA, 7]),
        (
            0x0d,
            0,
            &[0x7f, 8],
            [0x59, 1000, 1, SDATA, 0xffff_ffff_ffff_ffff],
        ),
        (0x11, 0, &[7, 8], [0x59, 1000, 1, UNIT_REF, 7]),
        (0x05, 0, &[7], [EOF, 0, 0, 0, 0]),
        (0x01, 0, &BYTES, [0x59, 1000, 14, ADDR, 0x403_0201]),
    ];
    for (form, constant, bytes, want) in cases {
        let found = attributes(rt.alloc(), form, constant, bytes);
        assert_eq!(rt; found, [want; 2], "form {form}");
    }
}

// A number by its kind: 1 an address, 2 a constant, 3 a reference, 0 none.
fn told(number: Option<NumberValue>) -> [u128; 2] {
    match number {
        Some(NumberValue::Address(number)) => [1, u128::from(number)],
        Some(NumberValue::Constant(number)) => [2, u128::from(number)],
        Some(NumberValue::UnitRef(offset)) => [3, u128::from(offset.0)],
        None => [0, 0],
    }
}

// The kind of the number that is read, the number, and how many bytes are left.
fn number_read<R: Reader>(
    input: Result<R, AllocError>,
    specification: AttributeSpecification,
) -> [u128; 3] {
    let Ok(mut input) = input else {
        return [OOM, 0, 0];
    };
    match read_number(&mut input, encoding(Format::Dwarf32), specification) {
        Ok(number) => {
            let [kind, number] = told(number);
            [kind, number, u128::from(input.len())]
        }
        Err(error) => [fault(error), 0, 0],
    }
}

// The same over both readers, of a form and its value in the table.
fn numbers_read(alloc: Global, form: u64, constant: u8, bytes: &[u8]) -> [[u128; 3]; 2] {
    let order = RunTimeEndian::Little;
    match specification(alloc, form, constant) {
        Ok(specification) => [
            number_read(Ok(borrowed(bytes, order)), specification),
            number_read(shared(alloc, bytes, order), specification),
        ],
        Err(_) => [[OTHER, 0, 0]; 2],
    }
}

#[test]
fn numbers_of_frequent_forms_are_read(rt: HostRuntime) {
    // A form, its value in the table where it is implicit_const, and the bytes.
    let cases: [(u64, u8, &[u8], [u128; 3]); 13] = [
        (0x01, 0, &BYTES, [1, 0x403_0201, 14]),
        (0x0b, 0, &BYTES, [2, 1, 17]),
        (0x05, 0, &BYTES, [2, 0x201, 16]),
        (0x06, 0, &BYTES, [2, 0x403_0201, 14]),
        (0x07, 0, &BYTES, [2, 0x807_0605_0403_0201, 10]),
        (0x0f, 0, &BYTES, [2, 1, 17]),
        (0x13, 0, &BYTES, [3, 0x403_0201, 14]),
        (0x21, 9, &BYTES, [2, 9, 18]),
        (0x21, 0x77, &BYTES, [0, 0, 18]),
        (0x0d, 0, &BYTES, [0, 0, 18]),
        (0x11, 0, &BYTES, [0, 0, 18]),
        (0x16, 0, &BYTES, [0, 0, 18]),
        (0x05, 0, &[7], [EOF, 0, 0]),
    ];
    for (form, constant, bytes, want) in cases {
        let found = numbers_read(rt.alloc(), form, constant, bytes);
        assert_eq!(rt; found, [want; 2], "form {form}");
    }
}

#[test]
fn strings_have_eleven_forms(rt: HostRuntime) {
    let mut found = 0u64;
    let mut sum = 0u64;
    for form in 0..0x2000 {
        if DwForm(form).is_string() {
            found = found.wrapping_add(1);
            sum = sum.wrapping_add(form);
        }
    }
    let sum_of_forms = 0x08
        + 0x0e
        + 0x1f
        + 0x1d
        + 0x1f21
        + 0x1a
        + 0x1f02
        + 0x25
        + 0x26
        + 0x27
        + 0x28;
    assert_eq!(rt; [found, sum], [11, sum_of_forms]);
}
