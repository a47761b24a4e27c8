//! The frequent opcodes of line programs, which are run on bytes. None of them takes memory.

ghost use Rattle.std.specs.Prelude.{◌≡◌, ◌≤◌, ◌<◌, ℕ, List, [], ◌∷◌, length, drop, false, IfOk, IfSome, OnOk, OnErr, Ok, Err, pos, ◌-ℤ◌};
ghost use Rattle.gimli_line.specs.Common.{Error, uleb128_in, sleb128_in};
ghost use Rattle.gimli_read.specs.declared.endian.RunTimeEndian.{RunTimeEndian};
ghost use Rattle.gimli_line.specs.Left.{rows_left};
ghost use Rattle.gimli_line.specs.declared.opcode.Opcode.TheVariants.{AdvancePc, Special};
ghost use Rattle.gimli_line.specs.Steps.{IsRunning};
ghost use Rattle.gimli_line.specs.Taking.{IsShort, Passes, TakesFirst, TakesOpcode, shown};

use crate::constants::{
    DW_LNS_advance_line, DW_LNS_advance_pc, DW_LNS_const_add_pc, DW_LNS_copy, DW_LNS_negate_stmt,
    DW_LNS_set_basic_block, DW_LNS_set_column, DW_LNS_set_epilogue_begin, DW_LNS_set_file,
    DW_LNS_set_prologue_end,
};
use crate::header::LineProgramHeader;
use crate::parameters::LineParameters;
use crate::registers::{Registers, const_advance, move_line, special_advance};
use crate::sink::RowSink;
use gimli_read::Reader;
use std::alloc::AllocError;

// The most bytes of a frequent opcode.
const FREQUENT_LEN: usize = 3;

/// What taking in the opcode at the front of some bytes came to.
#[derive(Clone, Copy)]
pub enum Frequent {
    /// It wasn't taken in: it isn't a frequent one, or has a fault.
    Other,
    /// It has so many bytes, and appends no row.
    Quiet(usize),
    /// It has so many bytes, and appends the row that the registers show.
    Shows(usize),
}

// An unsigned number of one byte or two, and how many bytes an opcode with it has.
#[inline(always)]
fn short_unsigned(first: u8, second: u8) -> Option<(u64, usize)>
    ensures gives { IfSome result (λ x. (code : ℕ) (rest : List ℕ) →
        uleb128_in (first ∷ second ∷ rest) ≡ Ok (x.0, drop x.1 (code ∷ first ∷ second ∷ rest))) }
    ensures bound { IfSome result (λ x. (0 < x.1) × (x.1 ≤ FREQUENT_LEN)) }
{
    if first < 128 {
        return Some((u64::from(first), 2));
    }
    if second < 128 {
        return Some((u64::from(first % 128) + u64::from(second) * 128, 3));
    }
    None
}

// A number less another one, both of few bits.
#[inline(always)]
fn difference(number: u64, less: u64) -> i64
    requires number { number < 65536 }
    requires less { less < 65536 }
    ensures gives { result ≡ pos number -ℤ pos less }
{
    number as i64 - less as i64
}

// A signed number of one byte or two, and how many bytes an opcode with it has.
#[inline(always)]
fn short_signed(first: u8, second: u8) -> Option<(i64, usize)>
    ensures gives { IfSome result (λ x. (code : ℕ) (rest : List ℕ) →
        sleb128_in (first ∷ second ∷ rest) ≡ Ok (x.0, drop x.1 (code ∷ first ∷ second ∷ rest))) }
    ensures bound { IfSome result (λ x. (0 < x.1) × (x.1 ≤ FREQUENT_LEN)) }
{
    if first < 128 {
        return Some((difference(u64::from(first), u64::from(first / 64) * 128), 2));
    }
    if second < 128 {
        let number = u64::from(first % 128) + u64::from(second) * 128;
        return Some((difference(number, u64::from(second / 64) * 16384), 3));
    }
    None
}

// What an opcode of so many bytes that appends a row comes to: while dropping it appends none.
#[inline(always)]
fn shown(registers: &Registers, len: usize) -> Frequent
    ensures gives { result ≡ shown registers.now len }
{
    if registers.dropping {
        return Frequent::Quiet(len);
    }
    Frequent::Shows(len)
}

// Takes in the special opcode of a number, its code less the opcode base; where it has a fault
// nothing changes.
#[inline(always)]
fn take_special(parameters: &LineParameters, registers: &mut Registers, n: u8) -> Frequent
    requires single { parameters.now.encoding.maximum_operations_per_instruction ≡ 1 }
    requires running { IsRunning parameters.now.encoding registers.old }
    ensures gives { TakesOpcode parameters.now.encoding registers.old (Special n) 1 result
        registers.new }
    ensures bound { IsShort result }
    ensures registers { IsRunning parameters.now.encoding registers.new }
{
    let line = move_line(registers.line, special_advance(parameters, n));
    if registers.dropping {
        registers.line = line;
        return Frequent::Quiet(1);
    }
    let instructions = u64::from(parameters.quotient(n));
    if registers
        .add_instructions(parameters, instructions)
        .is_err()
    {
        return Frequent::Other;
    }
    registers.line = line;
    Frequent::Shows(1)
}

// Takes in an advance by operations, in so many bytes; where it has a fault nothing changes.
#[inline(always)]
fn take_advance(
    parameters: &LineParameters,
    registers: &mut Registers,
    operations: u64,
    len: usize,
) -> Frequent
    requires single { parameters.now.encoding.maximum_operations_per_instruction ≡ 1 }
    requires running { IsRunning parameters.now.encoding registers.old }
    ensures gives { TakesOpcode parameters.now.encoding registers.old (AdvancePc operations) len
        result registers.new }
    ensures registers { IsRunning parameters.now.encoding registers.new }
{
    if registers.dropping {
        return Frequent::Quiet(len);
    }
    if registers.add_instructions(parameters, operations).is_err() {
        return Frequent::Other;
    }
    Frequent::Quiet(len)
}

// Takes in the opcode at the front of the bytes, if it is a frequent one. Each changes the
// registers in place.
#[inline(always)]
fn take_first<R: Reader>(
    header: &LineProgramHeader<R>,
    parameters: &LineParameters,
    registers: &mut Registers,
    code: u8,
    first: u8,
    second: u8,
) -> Frequent
    requires same { parameters.now.encoding ≡ header.now.line_encoding }
    requires single { parameters.now.encoding.maximum_operations_per_instruction ≡ 1 }
    requires running { IsRunning header.now.line_encoding registers.old }
    ensures gives { (rest : List ℕ) → TakesFirst header.now registers.old
        (code ∷ first ∷ second ∷ rest) result registers.new }
    ensures bound { IsShort result }
    ensures registers { IsRunning header.now.line_encoding registers.new }
{
    // Code 0 is that of extended opcodes, also where it isn't below the base.
    let base = parameters.encoding.opcode_base.max(1);
    if code >= base {
        return take_special(
            parameters,
            registers,
            code - parameters.encoding.opcode_base,
        );
    }
    match code {
        DW_LNS_copy => shown(registers, 1),
        DW_LNS_advance_pc => match short_unsigned(first, second) {
            Some((n, len)) => take_advance(parameters, registers, n, len),
            None => Frequent::Other,
        },
        DW_LNS_advance_line => match short_signed(first, second) {
            Some((by, len)) => {
                registers.line = move_line(registers.line, by);
                Frequent::Quiet(len)
            }
            None => Frequent::Other,
        },
        DW_LNS_set_file => match short_unsigned(first, second) {
            Some((n, len)) => {
                registers.file_index = n;
                Frequent::Quiet(len)
            }
            None => Frequent::Other,
        },
        DW_LNS_set_column => match short_unsigned(first, second) {
            Some((n, len)) => {
                registers.column = n;
                Frequent::Quiet(len)
            }
            None => Frequent::Other,
        },
        DW_LNS_negate_stmt => Frequent::Quiet(1),
        DW_LNS_set_basic_block => Frequent::Quiet(1),
        DW_LNS_const_add_pc => take_advance(parameters, registers, const_advance(parameters), 1),
        DW_LNS_set_prologue_end => Frequent::Quiet(1),
        DW_LNS_set_epilogue_begin => Frequent::Quiet(1),
        _ => Frequent::Other,
    }
}

/// Takes in some frequent opcodes from the front of the bytes on, and gives their rows to the sink;
/// the number of their bytes. Fails only where the sink does.
pub(crate) fn run_frequent<R: Reader, S: RowSink>(
    header: &LineProgramHeader<R>,
    registers: &mut Registers,
    bytes: &[u8],
    sink: &mut S,
) -> Result<usize, AllocError>
    requires running { IsRunning header.now.line_encoding registers.old }
    ensures gives { IfOk result (λ len. (endian : RunTimeEndian) → Passes S.taken
        header.now registers.old (record { bytes = bytes.now; endian = endian }) sink.old
        header.now registers.new (record { bytes = drop len bytes.now; endian = endian })
        sink.new) }
    ensures within { IfOk result (λ len. len ≤ length bytes.now) }
    ensures refused { OnErr result ((endian : RunTimeEndian) (e : Error) → rows_left header.now
        registers.old (record { bytes = bytes.now; endian = endian }) ≡ Err e ∷ [] → ⊥) }
    ensures registers { OnOk result (IsRunning header.now.line_encoding registers.new) }
{
    // A copy, which no store to the sink can change: so its numbers stay in registers.
    let parameters = header.parameters;
    // With more than one operation for an instruction, as only VLIW processors have it, the loop
    // would have a place inside an instruction to keep: all opcodes go the long way there.
    if parameters.encoding.maximum_operations_per_instruction != 1 {
        return Ok(0);
    }
    let mut now = *registers;
    let mut at = 0;
    let end = bytes.len().saturating_sub(FREQUENT_LEN - 1);
    while at < end {
        match take_first(
            header,
            &parameters,
            &mut now,
            bytes[at],
            bytes[at + 1],
            bytes[at + 2],
        ) {
            Frequent::Quiet(len) => at += len,
            Frequent::Shows(len) => {
                sink.take(now.row(false))?;
                at += len;
            }
            Frequent::Other => {
                *registers = now;
                return Ok(at);
            }
        }
    }
    *registers = now;
    Ok(at)
}
