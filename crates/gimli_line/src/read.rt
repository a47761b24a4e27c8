//! Reading the header of a line program.

ghost use Rattle.std.specs.Prelude.{◌≡◌, ◌<◌, true, IfOk};
ghost use Rattle.gimli_line.specs.Common.{Exactly, ExactlyUnlessOomIf, Reads, fault_of, is_address_size, ExactlyAtCost};
ghost use Rattle.gimli_line.specs.Program.{program_address_size_at, nonzero_at, operations_at, numbers_at, unit_fields_at, line_header_fields_at};
ghost use Rattle.gimli_line.specs.Stored.{line_program_at_cost};

use crate::encoding::LineEncoding;
use crate::header::LineProgramHeader;
use crate::parameters::LineParameters;
use crate::program::IncompleteLineProgram;
use crate::tables::read_tables;
use gimli_read::{
    DWARF_2, DWARF_4, DWARF_5, Encoding, EndianSlice, Error, Format, Reader, RunTimeEndian,
    is_address_size, read_address_size, read_initial_length,
};
use std::alloc::Global;
use std::marker::Model;

// The address size of a program.
#[tactic(auto, unfolding(crate::specs::Program::program_address_size_at))]
fn read_program_address_size<R: Reader>(
    version: u16,
    unit_size: u8,
    input: &mut R,
) -> Result<u8, Error>
    ensures gives { Reads R.section input.old input.new result
        (program_address_size_at version unit_size) }
    ensures width { IfOk result (λ size. is_address_size size ≡ true) }
{
    if version < DWARF_5 {
        if !is_address_size(unit_size) {
            return Err(Error::UnsupportedAddressSize);
        }
        return Ok(unit_size);
    }
    let size = read_address_size(input)?;
    if input.read_u8()? != 0 {
        return Err(Error::UnsupportedSegmentSize);
    }
    Ok(size)
}

// A byte that may not be zero.
#[tactic(auto, unfolding(crate::specs::Program::nonzero_at))]
fn read_nonzero<R: Reader>(input: &mut R) -> Result<u8, Error>
    ensures gives { Reads R.section input.old input.new result nonzero_at }
    ensures some { IfOk result (λ x. 0 < x) }
{
    let byte = input.read_u8()?;
    if byte == 0 {
        return Err(Error::BadLineHeader);
    }
    Ok(byte)
}

// How many operations an instruction may have.
#[tactic(auto, unfolding(crate::specs::Program::operations_at))]
fn read_operations<R: Reader>(version: u16, input: &mut R) -> Result<u8, Error>
    ensures gives { Reads R.section input.old input.new result (operations_at version) }
    ensures some { IfOk result (λ x. 0 < x) }
{
    if version < DWARF_4 {
        return Ok(1);
    }
    read_nonzero(input)
}

// The numbers that a program is run by.
#[tactic(auto, unfolding(crate::specs::Program::numbers_at))]
fn read_numbers<R: Reader>(encoding: Encoding, input: &mut R) -> Result<LineEncoding, Error>
    ensures gives { Reads R.section input.old input.new result (numbers_at encoding) }
    ensures kept { IfOk result (λ x. x.address_size ≡ encoding.address_size) }
    ensures some { IfOk result (λ x. (0 < x.maximum_operations_per_instruction)
        × (0 < x.line_range) × (0 < x.opcode_base)) }
{
    let minimum_instruction_length = read_nonzero(input)?;
    let maximum_operations_per_instruction = read_operations(encoding.version, input)?;
    let _default_is_stmt = input.read_u8()?;
    let line_base = input.read_i8()?;
    let line_range = read_nonzero(input)?;
    let opcode_base = read_nonzero(input)?;
    Ok(LineEncoding {
        address_size: encoding.address_size,
        minimum_instruction_length,
        maximum_operations_per_instruction,
        line_base,
        line_range,
        opcode_base,
    })
}

/// The fields of a header before its tables, and readers of the tables and of the program.
#[derive(Drop)]
struct HeaderFields<R: Reader> {
    encoding: Encoding,
    parameters: LineParameters,
    standard_opcode_lengths: R,
    tables: R,
    program: R,
}

impl<R: Reader> Model for HeaderFields<R> {
    ghost use Rattle.gimli_line.specs.Program.{HeaderFields};

    ghost Value = { HeaderFields };

    ghost view = { λ f. record {
      encoding = f.encoding;
      line_encoding = f.parameters.encoding;
      standard_opcode_lengths = R.section f.standard_opcode_lengths;
      tables = R.section f.tables;
      program = R.section f.program;
    } };
}

// The fields in the unit's bytes, from the version on.
#[tactic(auto, unfolding(crate::specs::Program::unit_fields_at))]
fn read_unit_fields<R: Reader>(
    unit_size: u8,
    format: Format,
    mut input: R,
) -> Result<HeaderFields<R>, Error>
    ensures gives { ExactlyUnlessOomIf R.shares (λ f. f) result
        (unit_fields_at unit_size format (R.section input)) }
{
    let version = input.read_u16()?;
    if version < DWARF_2 || version > DWARF_5 {
        return Err(Error::UnknownVersion);
    }
    let address_size = read_program_address_size(version, unit_size, &mut input)?;
    let header_length = input.read_offset(format)?;
    let mut tables = input.split(header_length)?;
    let encoding = Encoding {
        address_size,
        format,
        version,
    };
    let numbers = read_numbers(encoding, &mut tables)?;
    let standard_opcode_lengths = tables.split(u64::from(numbers.opcode_base) - 1)?;
    Ok(HeaderFields {
        encoding,
        parameters: LineParameters::new(numbers),
        standard_opcode_lengths,
        tables,
        program: input,
    })
}

// The fields of the header that begins here.
#[tactic(auto, unfolding(crate::specs::Program::line_header_fields_at))]
fn read_header_fields<R: Reader>(unit_size: u8, mut input: R) -> Result<HeaderFields<R>, Error>
    ensures gives { ExactlyUnlessOomIf R.shares (λ f. f) result
        (line_header_fields_at unit_size (R.section input)) }
{
    let (length, format) = read_initial_length(&mut input)?;
    let unit = input.split(length)?;
    read_unit_fields(unit_size, format, unit)
}

// The fault of the fields of a header, if they have one. Takes no memory.
fn check_header_fields(unit_size: u8, bytes: &[u8], endian: RunTimeEndian) -> Result<(), Error>
    ensures gives { Exactly (λ x. x) result
        (fault_of (line_header_fields_at unit_size
        (record { bytes = bytes.now; endian = endian }))) }
{
    let _fields = read_header_fields(unit_size, EndianSlice::new(bytes, endian))?;
    Ok(())
}

/// Reads the header of the line program that begins here, with its tables; no opcode is run.
///
/// `input` are the bytes of `.debug_line` from the program's offset on. `address_size`, in bytes,
/// is the unit's; version 5 has its own. Refused where a field is, in their order: the refusals of
/// its numbers, `UnknownReservedLength`, `UnknownVersion` (known are 2 to 5),
/// `UnsupportedAddressSize`, `UnsupportedSegmentSize`, `BadLineHeader` for a zero that may not be
/// and for a faulty format of a table, and `UnknownForm`. May fail with `OutOfMemory` instead where
/// all fields before the tables are sound, and bytes are shared or a directory, a file or a format
/// of the tables can be read. Source: DWARF 5, section 6.2.4.
#[tactic(auto, unfolding(crate::specs::Program::line_program_at, crate::specs::Stored::stored_line_program_at))]
pub fn read_line_program<R: Reader>(
    alloc: Global,
    input: R,
    address_size: u8,
) -> Result<IncompleteLineProgram<R>, Error>
    ensures gives { ExactlyAtCost R.shares (λ p. p) result
        (line_program_at_cost address_size (R.section input)) }
{
    // A part of shared bytes takes memory, so the fields are looked at in borrowed bytes first.
    check_header_fields(address_size, input.to_slice(), input.endian())?;
    let HeaderFields {
        encoding,
        parameters,
        standard_opcode_lengths,
        mut tables,
        program,
    } = read_header_fields(address_size, input)?;
    let tables = read_tables(alloc, encoding, &mut tables)?;
    Ok(IncompleteLineProgram {
        header: LineProgramHeader {
            encoding,
            parameters,
            standard_opcode_lengths,
            include_directories: tables.include_directories,
            file_names: tables.file_names,
            alloc,
        },
        program,
    })
}
