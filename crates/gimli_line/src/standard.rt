//! The standard opcodes of line programs.

ghost use Rattle.std.specs.Prelude.{◌≡◌, ◌<◌, ◌-◌, OnOk, slice_index};
ghost use Rattle.gimli_line.specs.Common.{Exactly, Reads};
ghost use Rattle.gimli_line.specs.Opcode.{numbers_skipped, standard_at};
ghost use Rattle.gimli_line.specs.Steps.{IsRunning, step_standard};

use crate::constants::{
    DW_LNS_advance_line, DW_LNS_advance_pc, DW_LNS_const_add_pc, DW_LNS_copy,
    DW_LNS_fixed_advance_pc, DW_LNS_negate_stmt, DW_LNS_set_basic_block, DW_LNS_set_column,
    DW_LNS_set_epilogue_begin, DW_LNS_set_file, DW_LNS_set_isa, DW_LNS_set_prologue_end,
};
use crate::header::LineProgramHeader;
use crate::opcode::Opcode;
use crate::registers::Registers;
use crate::row::LineRow;
use gimli_read::{Error, Reader};

// Skips numbers.
#[inline(always)]
fn skip_numbers<R: Reader>(input: &mut R, count: u8) -> Result<(), Error>
    ensures gives { Reads R.section input.old input.new result (numbers_skipped count) }
{
    for _ in 0..count {
        input.read_uleb128()?;
    }
    Ok(())
}

// How many numbers an unknown standard opcode has.
fn count_of<R: Reader>(header: &LineProgramHeader<R>, code: u8) -> u8
    requires some { 0 < code }
    ensures gives { result ≡ slice_index header.now.standard_opcode_lengths.bytes (code - 1) }
{
    match header
        .standard_opcode_lengths
        .to_slice()
        .get(usize::from(code) - 1)
    {
        Some(count) => *count,
        None => 0,
    }
}

// A standard opcode with its operands.
#[inline(always)]
#[tactic(auto, unfolding(crate::specs::Opcode::standard_at))]
fn read_standard<R: Reader>(
    header: &LineProgramHeader<R>,
    code: u8,
    input: &mut R,
) -> Result<Opcode, Error>
    requires some { 0 < code }
    ensures gives { Reads R.section input.old input.new result (standard_at header.now code) }
{
    match code {
        DW_LNS_copy => Ok(Opcode::Copy),
        DW_LNS_advance_pc => Ok(Opcode::AdvancePc(input.read_uleb128()?)),
        DW_LNS_advance_line => Ok(Opcode::AdvanceLine(input.read_sleb128()?)),
        DW_LNS_set_file => Ok(Opcode::SetFile(input.read_uleb128()?)),
        DW_LNS_set_column => Ok(Opcode::SetColumn(input.read_uleb128()?)),
        DW_LNS_negate_stmt => Ok(Opcode::Other),
        DW_LNS_set_basic_block => Ok(Opcode::Other),
        DW_LNS_const_add_pc => Ok(Opcode::ConstAddPc),
        DW_LNS_fixed_advance_pc => Ok(Opcode::FixedAdvancePc(input.read_u16()?)),
        DW_LNS_set_prologue_end => Ok(Opcode::Other),
        DW_LNS_set_epilogue_begin => Ok(Opcode::Other),
        DW_LNS_set_isa => {
            input.read_uleb128()?;
            Ok(Opcode::Other)
        }
        _ => {
            skip_numbers(input, count_of(header, code))?;
            Ok(Opcode::Other)
        }
    }
}

/// Reads the operands of a standard opcode, takes it in, and gives the row that it appends, if any.
#[inline(always)]
#[tactic(auto, unfolding(crate::specs::Steps::step_standard))]
pub(crate) fn step_standard<R: Reader>(
    header: &LineProgramHeader<R>,
    registers: &mut Registers,
    code: u8,
    input: &mut R,
) -> Result<Option<LineRow>, Error>
    requires some { 0 < code }
    requires running { IsRunning header.now.line_encoding registers.old }
    ensures gives { Exactly (λ x. (x, registers.new, R.section input.new)) result
        (step_standard header.now registers.old code (R.section input.old)) }
    ensures registers { OnOk result (IsRunning header.now.line_encoding registers.new) }
{
    let opcode = read_standard(header, code, input)?;
    registers.execute(&header.parameters, opcode)
}
