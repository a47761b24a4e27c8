//! Every opcode, with the rows that the standard gives for it.

use super::{Answer, Answers, DROPPED_END, answers, at, both_answers, end, fault};
use gimli_read::RunTimeEndian;
use std::alloc::{AllocError, Global};

// Appends a small number of some bytes.
fn push(to: &mut Vec<u8>, order: RunTimeEndian, size: usize, number: u8) -> Result<(), AllocError> {
    for i in 0..size {
        let there = match order {
            RunTimeEndian::Little => i == 0,
            RunTimeEndian::Big => i + 1 == size,
        };
        to.push(if there { number } else { 0 })?;
    }
    Ok(())
}

// A program of version 4 without files. The numbers are the minimum length, the operations,
// default_is_stmt, the line base, the line range and the opcode base.
pub(super) fn program(
    alloc: Global,
    order: RunTimeEndian,
    numbers: [u8; 6],
    opcodes: &[u8],
) -> Result<Vec<u8>, AllocError> {
    let mut bytes = Vec::new(alloc);
    push(&mut bytes, order, 4, 26 + opcodes.len().min(200) as u8)?;
    push(&mut bytes, order, 2, 4)?;
    push(&mut bytes, order, 4, 20)?;
    bytes.extend_from_slice(&numbers)?;
    bytes.extend_from_slice(&[0, 1, 1, 1, 1, 0, 0, 0, 1, 0, 0, 1, 0, 0])?;
    bytes.extend_from_slice(opcodes)?;
    Ok(bytes)
}

// One operation an instruction, each of one byte; line base -5, line range 14, opcode base 13.
pub(super) const USUAL: [u8; 6] = [1, 1, 1, 0xfb, 0x0e, 0x0d];

// Four operations an instruction, each instruction of two bytes.
const WIDE: [u8; 6] = [2, 4, 1, 0xfb, 0x0e, 0x0d];

// An instruction of 255 bytes.
const LONG: [u8; 6] = [255, 1, 1, 0xfb, 0x0e, 0x0d];

// The answers of a program of these numbers and opcodes over both readers.
fn opcode_answers(
    alloc: Global,
    order: RunTimeEndian,
    numbers: [u8; 6],
    opcodes: &[u8],
    size: u8,
) -> [Answers; 2] {
    match program(alloc, order, numbers, opcodes) {
        Ok(bytes) => both_answers(alloc, &bytes, order, size),
        Err(_) => [answers(&[fault(1)]); 2],
    }
}

#[test]
fn each_opcode_changes_its_registers(rt: HostRuntime) {
    let cases: [(&[u8], Answer); 22] = [
        (&[1], at(0, 1)),
        (&[2, 0x81, 1, 1], at(129, 1)),
        (&[3, 5, 1], at(0, 6)),
        (&[3, 0x7e, 1], at(0, 0)),
        (&[4, 7, 1], [0, 7, 1, 0, 0]),
        (&[5, 9, 1], [0, 1, 1, 9, 0]),
        (&[6, 1], at(0, 1)),
        (&[7, 1], at(0, 1)),
        (&[8, 1], at(17, 1)),
        (&[9, 0x34, 0x12, 1], at(0x1234, 1)),
        (&[10, 1], at(0, 1)),
        (&[11, 1], at(0, 1)),
        (&[12, 0x85, 1, 1], at(0, 1)),
        (&[0x0d], at(0, 0)),
        (&[0x13], at(0, 2)),
        (&[0xff], at(17, 0)),
        (&[0, 1, 1], end(0, 1)),
        (&[0, 9, 2, 0x10, 0, 0, 0, 0, 0, 0, 0, 1], at(0x10, 1)),
        (&[0, 10, 2, 0x10, 0, 0, 0, 0, 0, 0, 0, 0xee, 1], at(0x10, 1)),
        (&[0, 2, 4, 5, 1], at(0, 1)),
        (&[0, 4, 0x80, 1, 2, 3, 1], at(0, 1)),
        (&[0, 3, 1, 9, 9], end(0, 1)),
    ];
    for (opcodes, row) in cases {
        let given = opcode_answers(rt.alloc(), RunTimeEndian::Little, USUAL, opcodes, 8);
        assert_eq!(rt; given, [answers(&[row]); 2]);
    }
}

#[test]
fn opcodes_give_their_rows_or_fault(rt: HostRuntime) {
    let little = RunTimeEndian::Little;
    let cases: [(RunTimeEndian, [u8; 6], &[u8], u8, &[Answer]); 13] = [
        // Numbers are of the program's order.
        (
            RunTimeEndian::Big,
            USUAL,
            &[9, 0x12, 0x34, 1, 0, 5, 2, 0x12, 0x34, 0x56, 0x78, 1],
            4,
            &[at(0x1234, 1), at(0x1234_5678, 1)],
        ),
        // Cut extended opcodes, and a discriminator that isn't whole or is too great.
        (little, USUAL, &[0], 8, &[fault(2)]),
        (little, USUAL, &[0, 0, 1], 8, &[fault(2)]),
        (little, USUAL, &[0, 5, 2, 1, 2], 8, &[fault(2)]),
        (
            little,
            USUAL,
            &[0, 3, 2, 1, 2, 1, 1, 1, 1, 1, 1],
            8,
            &[fault(2)],
        ),
        (
            little,
            USUAL,
            &[0, 3, 3, 0x61, 0x62, 0, 0, 0, 0],
            8,
            &[fault(2)],
        ),
        (little, USUAL, &[0, 2, 4, 0x80, 1], 8, &[fault(2)]),
        (little, USUAL, &[0, 1, 4, 1], 8, &[fault(2)]),
        // An end resets the registers.
        (
            little,
            USUAL,
            &[2, 4, 3, 2, 4, 2, 5, 3, 0, 1, 1, 1],
            8,
            &[[4, 2, 3, 3, 1], at(0, 1)],
        ),
        // A line past 64 bits wraps.
        (
            little,
            USUAL,
            &[
                3, 0xff, 0xff, 0xff, 0xff, 0xff, 0xff, 0xff, 0xff, 0xff, 0, 3, 0xff, 0xff, 0xff,
                0xff, 0xff, 0xff, 0xff, 0xff, 0xff, 0, 1, 3, 3, 1,
            ],
            8,
            &[at(0, u64::MAX), at(0, 2)],
        ),
        // An address that is set back drops rows up to a greater one.
        (
            little,
            USUAL,
            &[
                0, 3, 2, 0x20, 0, 1, 0, 3, 2, 0x10, 0, 0x13, 2, 5, 9, 1, 0, 1, 0, 3, 2, 0x30, 0, 1,
                0, 3, 2, 0xfe, 0xff, 1, 3, 1, 0, 1, 1, 1,
            ],
            2,
            &[
                at(0x20, 1),
                at(0x30, 2),
                [0x30, 1, 3, 0, DROPPED_END],
                at(0, 1),
            ],
        ),
        // Operations fill instructions.
        (
            little,
            WIDE,
            &[
                2, 6, 1, 2, 3, 1, 0xf4, 9, 1, 0, 2, 3, 1, 2, 1, 1, 0, 2, 2, 0x40, 2, 3, 1, 8, 1,
            ],
            1,
            &[
                at(2, 1),
                at(4, 1),
                at(12, 3),
                at(13, 3),
                at(15, 3),
                at(0x40, 3),
                at(0x4a, 3),
            ],
        ),
        // A product past 64 bits is past the address size.
        (
            little,
            LONG,
            &[
                2, 0xff, 0xff, 0xff, 0xff, 0xff, 0xff, 0xff, 0xff, 0xff, 1, 1, 2, 1, 1,
            ],
            8,
            &[fault(19)],
        ),
    ];
    for (order, numbers, opcodes, size, wanted) in cases {
        let given = opcode_answers(rt.alloc(), order, numbers, opcodes, size);
        assert_eq!(rt; given, [answers(wanted); 2]);
    }
}

// A set_address to the third greatest address of a size, a row there, a row at the greatest one, and
// a row after some opcodes more.
fn past_the_greatest(alloc: Global, size: u8, tail: &[u8]) -> Result<Vec<u8>, AllocError> {
    let mut opcodes = Vec::new(alloc);
    opcodes.extend_from_slice(&[0, size.min(8) + 1, 2, 0xfd])?;
    for _ in 1..size {
        opcodes.push(0xff)?;
    }
    opcodes.extend_from_slice(&[1, 2, 2, 1])?;
    opcodes.extend_from_slice(tail)?;
    opcodes.push(1)?;
    Ok(opcodes)
}

fn past_answers(alloc: Global, size: u8, tail: &[u8]) -> [Answers; 2] {
    match past_the_greatest(alloc, size, tail) {
        Ok(opcodes) => opcode_answers(alloc, RunTimeEndian::Little, USUAL, &opcodes, size),
        Err(_) => [answers(&[fault(1)]); 2],
    }
}

#[test]
fn an_address_past_its_size_is_refused(rt: HostRuntime) {
    let sizes = [
        (1, 0xff),
        (2, 0xffff),
        (4, 0xffff_ffff),
        (8, 0xffff_ffff_ffff_ffff),
    ];
    let tails: [&[u8]; 4] = [&[2, 1], &[9, 1, 0], &[8], &[0x30]];
    for (size, greatest) in sizes {
        let want = answers(&[at(greatest - 2, 1), at(greatest, 1), fault(19)]);
        for tail in tails {
            assert_eq!(rt; past_answers(rt.alloc(), size, tail), [want; 2]);
        }
    }
}
