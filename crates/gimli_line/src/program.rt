//! Line programs and their rows.

ghost use Rattle.std.specs.Prelude.{◌≡◌, ◌≢◌, ◌<◌, ◌≤◌, [], ◌∷◌, ◌++◌, length, true, false, OnOk, OnErr, IfOk, IfErr, Ok, Err, None};
ghost use Rattle.gimli_line.specs.Common.{OutOfMemory, ExactlyUnlessOom, ExactlyUnlessOomIf};
ghost use Rattle.gimli_read.specs.declared.error.Error.{Error as Fault};
ghost use Rattle.gimli_line.specs.Header.{KeepsFilesOf, header_copy_takes_memory};
ghost use Rattle.gimli_line.specs.Lines.{lines_of, YieldsUnlessOom, DefinesAhead, IsOver};
ghost use Rattle.gimli_line.specs.Opcode.{is_file, gives_file, coded_instruction_at};
ghost use Rattle.gimli_line.specs.Steps.{IsRunning, taken, step_instruction};
ghost use Rattle.gimli_line.specs.Left.{rows_left, files_left, ahead_left, DefinesOn, FindsRow};
ghost use Rattle.gimli_line.specs.Taking.{Passes, all_taken, fault_after};

use crate::constants::DW_LNS_extended_op;
use crate::copies::duplicate_header;
use crate::frequent::run_frequent;
use crate::header::{FileEntry, LineProgramHeader};
use crate::opcode::{LineInstruction, Opcode, read_extended};
use crate::registers::Registers;
use crate::row::LineRow;
use crate::sink::RowSink;
use crate::standard::step_standard;
use gimli_read::{Error, Reader};
use std::marker::Model;

/// A line program whose opcodes aren't run yet.
#[derive(Drop)]
pub struct IncompleteLineProgram<R: Reader> {
    pub(crate) header: LineProgramHeader<R>,
    pub(crate) program: R,
}

impl<R: Reader> Model for IncompleteLineProgram<R> {
    ghost use Rattle.gimli_line.specs.Header.{Program};

    ghost Value = { Program };

    ghost view = { λ p. record { header = p.header; program = R.section p.program } };
}

impl<R: Reader> IncompleteLineProgram<R> {
    /// The header, with the files of its tables. Takes no memory.
    pub fn header(&self) -> &LineProgramHeader<R>
        ensures gives { result.now ≡ self.now.header }
    {
        &self.header
    }

    /// The rows of the program, from its first opcode on, over a copy of its header. Refused
    /// `OutOfMemory` alone, where bytes are shared or the header has a directory or a file. Source:
    /// DWARF 5, section 6.2.5.
    pub fn rows(&self) -> Result<LineRows<R>, Error>
        ensures gives { ExactlyUnlessOomIf (header_copy_takes_memory R.shares self.now.header)
            (λ r. r) result (Ok (lines_of self.now)) }
    {
        let header = &self.header;
        Ok(LineRows {
            header: duplicate_header(header)?,
            program: self.program.duplicate()?,
            registers: Registers::start(),
        })
    }
}

/// The rows of a line program that are still to come, and its header with the files that are
/// defined so far.
#[derive(Drop)]
pub struct LineRows<R: Reader> {
    pub(crate) header: LineProgramHeader<R>,
    program: R,
    registers: Registers,
}

impl<R: Reader> Model for LineRows<R> {
    ghost use Rattle.gimli_line.specs.Lines.{Lines};

    ghost Value = { Lines };

    ghost use Rattle.gimli_line.specs.Steps.{IsRunning};
    ghost use Rattle.gimli_line.specs.Left.{rows_left, files_left, ahead_left};

    ghost view = { λ a. record {
      header = a.header;
      left = rows_left a.header a.registers (R.section a.program);
      ahead = ahead_left a.header a.registers (R.section a.program);
      to_define = files_left a.header (R.section a.program);
    } };

    ghost invariant = { λ a. IsRunning a.header.line_encoding a.registers };
}

impl<R: Reader> LineRows<R> {
    /// The header, with the files that are defined so far. Takes no memory.
    pub fn header(&self) -> &LineProgramHeader<R>
        ensures gives { result.now ≡ self.now.header }
    {
        &self.header
    }

    /// The next row; none at the end, and after a refusal.
    ///
    /// The header has each file that is defined before the row, also where the answer is a refusal.
    /// Refused where an opcode is: the refusals of its numbers, `UnexpectedEof` where its bytes
    /// aren't whole, and `AddressOverflow` at the first opcode after which the address passes its
    /// size. May fail with `OutOfMemory` instead where a file is defined before the next row: no
    /// other opcode takes memory. Source: DWARF 5, section 6.2.5.
    #[inline(always)]
    pub fn next_row(&mut self) -> Result<Option<LineRow>, Error>
        ensures gives { YieldsUnlessOom self.old.left result self.new.left }
        ensures memory { IfErr result (λ e. self.old.ahead ≡ [] → self.old.left ≡ Err e ∷ []) }
        ensures after { DefinesAhead self.old.header self.old.ahead result self.new.header }
        ensures files { OnOk result (KeepsFilesOf self.old.header self.old.to_define
            self.new.header self.new.to_define) }
        ensures none { IfOk result (λ row. row ≡ None → IsOver self.new) }
        ensures refused { OnErr result (IsOver self.new) }
    {
        let found = find_row(&mut self.header, &mut self.registers, &mut self.program);
        if found.is_err() {
            skip_rest(&mut self.program);
            self.registers = Registers::start();
        }
        found
    }

    /// Gives all rows that are left to a sink, one after another.
    ///
    /// Refused with the fault after them, as `next_row` is; may fail with `OutOfMemory` instead,
    /// where the sink does or a file is defined, but never where a fault comes before the first row
    /// and before a file that is defined. After a refusal the sink has taken some of the rows before
    /// it. Where it isn't refused, the header has each file that is defined. Source: DWARF 5,
    /// section 6.2.5.
    #[inline(always)]
    pub fn take_rows<S: RowSink>(&mut self, sink: &mut S) -> Result<(), Error>
        ensures gives { ExactlyUnlessOom (λ x. tt) result (fault_after self.old.left) }
        ensures after { OnOk result (sink.new ≡ all_taken S.taken sink.old self.old.left) }
        ensures files { OnOk result (self.new.header.file_names
            ≡ self.old.header.file_names ++ self.old.to_define) }
        ensures exact { (e : Fault) → self.old.ahead ≡ [] → self.old.left ≡ Err e ∷ []
            → result ≡ Err e }
    {
        let result = run(
            &mut self.header,
            &mut self.registers,
            &mut self.program,
            sink,
        );
        let header = &self.header;
        let _operations = header
            .parameters
            .encoding
            .maximum_operations_per_instruction;
        skip_rest(&mut self.program);
        self.registers = Registers::start();
        result
    }
}

// Leaves nothing to read.
fn skip_rest<R: Reader>(input: &mut R)
    ensures none { (R.section input.new).bytes ≡ [] }
{
    let len = input.len();
    let _ = input.skip(len);
}

// Takes an instruction in, and gives the row that it appends, if any.
#[inline(always)]
#[tactic(auto, unfolding(crate::specs::Steps::taken))]
fn take_instruction<R: Reader>(
    header: &mut LineProgramHeader<R>,
    registers: &mut Registers,
    instruction: LineInstruction<FileEntry<R>>,
) -> Result<Option<LineRow>, Error>
    requires running { IsRunning header.old.line_encoding registers.old }
    ensures gives { ExactlyUnlessOomIf (is_file instruction)
        (λ x. (x, registers.new, header.new)) result (taken header.old registers.old instruction) }
    ensures registers { OnOk result (IsRunning header.new.line_encoding registers.new) }
    ensures kept { OnErr result (header.new ≡ header.old) }
{
    match instruction {
        LineInstruction::Changes(opcode) => registers.execute(&header.parameters, opcode),
        LineInstruction::Defines(file) => {
            header.file_names.push(file)?;
            Ok(None)
        }
    }
}

// Reads the instruction that has this code, takes it in, and gives the row that it appends, if any.
// Most rows are those of special opcodes: theirs is the short way.
#[inline(always)]
#[tactic(auto, unfolding(crate::specs::Steps::step_instruction, crate::specs::Steps::taken, crate::specs::Opcode::coded_instruction_at))]
fn step_instruction<R: Reader>(
    header: &mut LineProgramHeader<R>,
    registers: &mut Registers,
    code: u8,
    program: &mut R,
) -> Result<Option<LineRow>, Error>
    requires running { IsRunning header.old.line_encoding registers.old }
    ensures gives { ExactlyUnlessOomIf
        (gives_file (coded_instruction_at header.old code (R.section program.old)))
        (λ x. (x, registers.new, header.new, R.section program.new)) result
        (step_instruction header.old registers.old code (R.section program.old)) }
    ensures registers { OnOk result (IsRunning header.new.line_encoding registers.new) }
    ensures kept { OnErr result (header.new ≡ header.old) }
{
    if code == DW_LNS_extended_op {
        let instruction = read_extended(header, program)?;
        return take_instruction(header, registers, instruction);
    }
    let opcode_base = header.parameters.encoding.opcode_base;
    if code >= opcode_base {
        return registers.execute(&header.parameters, Opcode::Special(code - opcode_base));
    }
    step_standard(header, registers, code, program)
}

// Runs the program up to its next row.
#[inline(always)]
fn find_row<R: Reader>(
    header: &mut LineProgramHeader<R>,
    registers: &mut Registers,
    program: &mut R,
) -> Result<Option<LineRow>, Error>
    requires running { IsRunning header.old.line_encoding registers.old }
    ensures gives { FindsRow (rows_left header.old registers.old (R.section program.old)) result
        (rows_left header.new registers.new (R.section program.new)) }
    ensures memory { IfErr result (λ e.
        ahead_left header.old registers.old (R.section program.old) ≡ []
        → rows_left header.old registers.old (R.section program.old) ≡ Err e ∷ []) }
    ensures after { DefinesAhead header.old
        (ahead_left header.old registers.old (R.section program.old)) result header.new }
    ensures files { OnOk result (DefinesOn header.old (R.section program.old)
        header.new (R.section program.new)) }
    ensures none { IfOk result (λ row. row ≡ None → (R.section program.new).bytes ≡ []) }
    ensures registers { OnOk result (IsRunning header.new.line_encoding registers.new) }
{
    while !program.is_empty() {
        let code = program.read_u8()?;
        if let Some(row) = step_instruction(header, registers, code, program)? {
            return Ok(Some(row));
        }
    }
    Ok(None)
}

// Takes the next instruction in, and gives its row to the sink, if it appends one.
fn take_next<R: Reader, S: RowSink>(
    header: &mut LineProgramHeader<R>,
    registers: &mut Registers,
    program: &mut R,
    sink: &mut S,
) -> Result<(), Error>
    requires running { IsRunning header.old.line_encoding registers.old }
    requires some { 0 < length (R.section program.old).bytes }
    ensures gives { OnOk result (Passes S.taken
        header.old registers.old (R.section program.old) sink.old
        header.new registers.new (R.section program.new) sink.new) }
    ensures shorter { OnOk result
        (length (R.section program.new).bytes < length (R.section program.old).bytes) }
    ensures fault { IfErr result (λ e. e ≢ OutOfMemory
        → rows_left header.old registers.old (R.section program.old) ≡ Err e ∷ []) }
    ensures exact { IfErr result (λ e. (d : Fault)
        → ahead_left header.old registers.old (R.section program.old) ≡ []
        → rows_left header.old registers.old (R.section program.old) ≡ Err d ∷ [] → e ≡ d) }
    ensures registers { OnOk result (IsRunning header.new.line_encoding registers.new) }
{
    let code = program.read_u8()?;
    if let Some(row) = step_instruction(header, registers, code, program)? {
        sink.take(row)?;
    }
    Ok(())
}

// Takes frequent instructions in, and gives their rows to the sink. Fails only where that does.
#[inline(always)]
fn take_frequent<R: Reader, S: RowSink>(
    header: &LineProgramHeader<R>,
    registers: &mut Registers,
    program: &mut R,
    sink: &mut S,
) -> Result<(), Error>
    requires running { IsRunning header.now.line_encoding registers.old }
    ensures gives { OnOk result (Passes S.taken
        header.now registers.old (R.section program.old) sink.old
        header.now registers.new (R.section program.new) sink.new) }
    ensures shorter { OnOk result
        (length (R.section program.new).bytes ≤ length (R.section program.old).bytes) }
    ensures fault { IfErr result (λ e. e ≡ OutOfMemory) }
    ensures exact { OnErr result ((d : Fault)
        → rows_left header.now registers.old (R.section program.old) ≡ Err d ∷ [] → ⊥) }
    ensures registers { OnOk result (IsRunning header.now.line_encoding registers.new) }
{
    let len = run_frequent(header, registers, program.to_slice(), sink)?;
    program.skip(len as u64)?;
    Ok(())
}

// Runs the program to its end, and gives its rows to the sink.
#[inline(always)]
fn run<R: Reader, S: RowSink>(
    header: &mut LineProgramHeader<R>,
    registers: &mut Registers,
    program: &mut R,
    sink: &mut S,
) -> Result<(), Error>
    requires running { IsRunning header.old.line_encoding registers.old }
    ensures gives { ExactlyUnlessOom (λ x. tt) result
        (fault_after (rows_left header.old registers.old (R.section program.old))) }
    ensures after { OnOk result (sink.new ≡ all_taken S.taken sink.old
        (rows_left header.old registers.old (R.section program.old))) }
    ensures files { OnOk result (header.new.file_names
        ≡ header.old.file_names ++ files_left header.old (R.section program.old)) }
    ensures exact { (e : Fault)
        → ahead_left header.old registers.old (R.section program.old) ≡ []
        → rows_left header.old registers.old (R.section program.old) ≡ Err e ∷ []
        → result ≡ Err e }
{
    while !program.is_empty() {
        take_next(header, registers, program, sink)?;
        take_frequent(header, registers, program, sink)?;
    }
    Ok(())
}
