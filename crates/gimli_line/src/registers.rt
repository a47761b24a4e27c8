//! The registers of a line program.

ghost use Rattle.std.specs.Prelude.{◌≡◌, ◌+◌, ◌/◌, ◌%◌, ◌^◌, ◌*◌, ◌<◌, ◌≤◌, true, ◌||◌, ◌&&◌, not, nat_lt, pos, ◌+ℤ◌, IfOk, OnErr, OnOk};
ghost use Rattle.gimli_line.specs.Common.{Exactly};
ghost use Rattle.gimli_line.specs.declared.opcode.Opcode.TheVariants.{ConstAddPc};
ghost use Rattle.gimli_line.specs.Encoding.{limit};
ghost use Rattle.gimli_line.specs.AddressSize.{is_tombstone};
ghost use Rattle.gimli_line.specs.Rows.{advance, moved, line_advance, is_end, makes_row};
ghost use Rattle.gimli_line.specs.Steps.{IsRunning, start_registers, address_advanced, advanced, placed, fixed_advanced, step_registers, fitting, shown_row, executed};

use crate::constants::LAST_SPECIAL_OPCODE;
use crate::opcode::Opcode;
use crate::parameters::LineParameters;
use crate::row::LineRow;
use gimli_read::Error;

/// What the next row of a program shows, but for its end.
#[derive(Clone, Copy)]
pub struct Registers {
    /// The address of the instruction.
    pub address: u64,
    /// The operation within the instruction.
    pub op_index: u8,
    /// The file, by its index.
    pub file_index: u64,
    /// The line.
    pub line: u64,
    /// The column.
    pub column: u64,
    /// Whether rows and address changes are discarded.
    pub dropping: bool,
}

// A line that is moved.
#[inline(always)]
pub(crate) fn move_line(line: u64, by: i64) -> u64
    ensures gives { result ≡ moved line by }
{
    if by >= 0 {
        line.wrapping_add(by as u64)
    } else {
        line.saturating_sub(by.unsigned_abs())
    }
}

// By how many lines a special opcode moves the line.
#[inline(always)]
pub(crate) fn special_advance(parameters: &LineParameters, n: u8) -> i64
    ensures gives { result ≡ line_advance parameters.now.encoding n }
{
    i64::from(parameters.encoding.line_base) + i64::from(parameters.remainder(n))
}

// The operations of DW_LNS_const_add_pc: those of opcode 255, the last special one.
#[inline(always)]
pub(crate) fn const_advance(parameters: &LineParameters) -> u64
    ensures gives { result ≡ advance parameters.now.encoding ConstAddPc }
{
    let last = LAST_SPECIAL_OPCODE - parameters.encoding.opcode_base;
    u64::from(parameters.quotient(last))
}

// The full instructions in operations, and the operations that are left over.
fn instructions(parameters: &LineParameters, op_index: u8, operations: u64) -> (u64, u8)
    requires index { op_index < parameters.now.encoding.maximum_operations_per_instruction }
    ensures gives { result.0
        ≡ (op_index + operations) / parameters.now.encoding.maximum_operations_per_instruction }
    ensures left { result.1
        ≡ (op_index + operations) % parameters.now.encoding.maximum_operations_per_instruction }
{
    if parameters.encoding.maximum_operations_per_instruction == 1 {
        return (operations, 0);
    }
    let most = u64::from(parameters.encoding.maximum_operations_per_instruction);
    let rest = operations % most + u64::from(op_index);
    (operations / most + rest / most, (rest % most) as u8)
}

// Whether an address stands for code that isn't there, or is below the current one.
fn starts_dropping(parameters: &LineParameters, address: u64, current: u64) -> bool
    ensures gives { result
        ≡ (is_tombstone parameters.now.encoding.address_size address
        || nat_lt address current) }
{
    parameters.greatest <= address.saturating_add(1) || address < current
}

fn ends(opcode: Opcode) -> bool
    ensures gives { result ≡ is_end opcode }
{
    matches!(opcode, Opcode::EndSequence)
}

fn shows(opcode: Opcode) -> bool
    ensures gives { result ≡ makes_row opcode }
{
    matches!(opcode, Opcode::Special(_) | Opcode::Copy)
}

impl Registers {
    /// The registers at the start of a sequence.
    pub(crate) fn start() -> Registers
        ensures gives { result ≡ start_registers }
    {
        Registers {
            address: 0,
            op_index: 0,
            file_index: 1,
            line: 1,
            column: 0,
            dropping: false,
        }
    }

    // Adds bytes to the address; where it would pass the greatest one nothing changes.
    #[inline(always)]
    fn add(&mut self, parameters: &LineParameters, bytes: u64) -> Result<(), Error>
        requires running { IsRunning parameters.now.encoding self.old }
        ensures gives { Exactly (λ _. self.new) result (fitting parameters.now.encoding
            (address_advanced bytes self.old)) }
        ensures refused { OnErr result (self.new ≡ self.old) }
    {
        if bytes > parameters.greatest - self.address {
            return Err(Error::AddressOverflow);
        }
        self.address += bytes;
        Ok(())
    }

    // Advances by whole instructions, whether dropping or not; where the address would pass the
    // greatest one nothing changes.
    #[inline(always)]
    pub(crate) fn add_instructions(
        &mut self,
        parameters: &LineParameters,
        count: u64,
    ) -> Result<(), Error>
        requires running { IsRunning parameters.now.encoding self.old }
        ensures gives { Exactly (λ _. self.new) result (fitting parameters.now.encoding
            (address_advanced (parameters.now.encoding.minimum_instruction_length * count)
            self.old)) }
        ensures refused { OnErr result (self.new ≡ self.old) }
    {
        match count.checked_mul(u64::from(parameters.encoding.minimum_instruction_length)) {
            None => Err(Error::AddressOverflow),
            Some(bytes) => self.add(parameters, bytes),
        }
    }

    // Advances by operations.
    #[inline(always)]
    fn advance(&mut self, parameters: &LineParameters, operations: u64) -> Result<(), Error>
        requires running { IsRunning parameters.now.encoding self.old }
        ensures gives { Exactly (λ _. self.new) result
            (fitting parameters.now.encoding
            (advanced parameters.now.encoding operations self.old)) }
    {
        if self.dropping {
            return Ok(());
        }
        let (full, left) = instructions(parameters, self.op_index, operations);
        self.add_instructions(parameters, full)?;
        self.op_index = left;
        Ok(())
    }

    // Advances by bytes.
    fn fixed_advance(&mut self, parameters: &LineParameters, bytes: u16) -> Result<(), Error>
        requires running { IsRunning parameters.now.encoding self.old }
        ensures gives { Exactly (λ _. self.new) result
            (fitting parameters.now.encoding (fixed_advanced bytes self.old)) }
    {
        if self.dropping {
            return Ok(());
        }
        self.add(parameters, u64::from(bytes))?;
        self.op_index = 0;
        Ok(())
    }

    // Sets the address.
    fn place(&mut self, parameters: &LineParameters, address: u64)
        requires running { IsRunning parameters.now.encoding self.old }
        ensures gives { self.new ≡ placed parameters.now.encoding address self.old }
    {
        if starts_dropping(parameters, address, self.address) {
            self.dropping = true;
        } else {
            self.address = address;
            self.op_index = 0;
            self.dropping = false;
        }
    }

    // The registers after an opcode.
    #[inline(always)]
    pub(crate) fn step(&mut self, parameters: &LineParameters, opcode: Opcode) -> Result<(), Error>
        requires running { IsRunning parameters.now.encoding self.old }
        ensures gives { Exactly (λ _. self.new) result
            (fitting parameters.now.encoding
            (step_registers parameters.now.encoding self.old opcode)) }
    {
        match opcode {
            Opcode::Special(n) => {
                self.line = move_line(self.line, special_advance(parameters, n));
                return self.advance(parameters, u64::from(parameters.quotient(n)));
            }
            Opcode::AdvancePc(n) => return self.advance(parameters, n),
            Opcode::ConstAddPc => return self.advance(parameters, const_advance(parameters)),
            Opcode::FixedAdvancePc(n) => return self.fixed_advance(parameters, n),
            Opcode::AdvanceLine(by) => self.line = move_line(self.line, by),
            Opcode::SetFile(n) => self.file_index = n,
            Opcode::SetColumn(n) => self.column = n,
            Opcode::SetAddress(a) => self.place(parameters, a),
            Opcode::Copy | Opcode::EndSequence | Opcode::Other => {}
        }
        Ok(())
    }

    // The row that the registers show.
    pub(crate) fn row(&self, end_sequence: bool) -> LineRow
        ensures gives { result ≡ shown_row self.now end_sequence }
    {
        LineRow {
            address: self.address,
            file_index: self.file_index,
            line: self.line,
            column: self.column,
            end_sequence,
            dropped: self.dropping,
        }
    }

    /// Takes an opcode in, and gives the row that it appends, if any.
    #[inline(always)]
    #[tactic(auto, unfolding(crate::specs::Steps::executed))]
    pub(crate) fn execute(
        &mut self,
        parameters: &LineParameters,
        opcode: Opcode,
    ) -> Result<Option<LineRow>, Error>
        requires running { IsRunning parameters.now.encoding self.old }
        ensures gives { Exactly (λ x. (x, self.new)) result
            (executed parameters.now.encoding self.old opcode) }
        ensures registers { OnOk result (IsRunning parameters.now.encoding self.new) }
    {
        self.step(parameters, opcode)?;
        if ends(opcode) {
            let row = self.row(true);
            *self = Registers::start();
            return Ok(Some(row));
        }
        if shows(opcode) && !self.dropping {
            return Ok(Some(self.row(false)));
        }
        Ok(None)
    }
}
