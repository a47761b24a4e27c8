//! The opcodes of line programs.

ghost use Rattle.std.specs.Prelude.{◌≡◌, ◌==◌, ◌&&◌, false, nat_lt, IfErr, Err};
ghost use Rattle.gimli_line.specs.Common.{Exactly, ReadsUnlessOomIf, ExactlyUnlessOomFor, Reads, fault_of, null_terminated_at};
ghost use Rattle.gimli_line.specs.Opcode.{file_with_path_at, file_entry_at, operand_at, defines, extended_in, extended_at, gives_file};

use crate::constants::{
    DW_LNE_define_file, DW_LNE_end_sequence, DW_LNE_set_address, DW_LNE_set_discriminator,
};
use crate::header::{FileEntry, LineProgramHeader};
use gimli_read::{AttributeValue, DWARF_5, EndianSlice, Error, Reader, RunTimeEndian, zero_of};

/// An opcode with its operands (DWARF 5, section 6.2.5).
#[derive(Clone, Copy)]
pub enum Opcode {
    /// A special opcode, less the opcode base.
    Special(u8),
    /// Appends a row.
    Copy,
    /// Advances by operations.
    AdvancePc(u64),
    /// Moves the line.
    AdvanceLine(i64),
    /// Sets the file.
    SetFile(u64),
    /// Sets the column.
    SetColumn(u64),
    /// Advances by the operations of the last special opcode, 255.
    ConstAddPc,
    /// Adds bytes to the address.
    FixedAdvancePc(u16),
    /// Ends a sequence.
    EndSequence,
    /// Sets the address.
    SetAddress(u64),
    /// Changes nothing that a row shows.
    Other,
}

/// One instruction of a line program.
#[derive(Drop)]
pub enum LineInstruction<F> {
    /// An opcode that the rows may depend on.
    Changes(Opcode),
    /// `DW_LNE_define_file`, with its file.
    Defines(F),
}

// The file that has this path; what follows the path is read.
#[tactic(auto, unfolding(crate::specs::Opcode::file_with_path_at))]
pub(crate) fn read_file_with_path<R: Reader>(path: R, input: &mut R) -> Result<FileEntry<R>, Error>
    ensures gives { Reads R.section input.old input.new result
        (file_with_path_at (R.section path)) }
{
    let directory_index = input.read_uleb128()?;
    let _time = input.read_uleb128()?;
    let _size = input.read_uleb128()?;
    Ok(FileEntry {
        path_name: AttributeValue::String(path),
        directory_index,
    })
}

// A file of versions 2 to 4.
#[tactic(auto, unfolding(crate::specs::Opcode::file_entry_at))]
fn read_file_entry<R: Reader>(input: &mut R) -> Result<FileEntry<R>, Error>
    ensures gives { ReadsUnlessOomIf R.shares R.section input.old input.new result file_entry_at }
{
    let path = input.read_null_terminated()?;
    read_file_with_path(path, input)
}

// A text that a zero byte ends, and what follows that byte.
fn split_text(
    bytes: &[u8],
    endian: RunTimeEndian,
) -> Result<(EndianSlice<'_>, EndianSlice<'_>), Error>
    ensures gives { Exactly (λ x. x) result
        (null_terminated_at (record { bytes = bytes.now; endian = endian })) }
{
    match zero_of(bytes) {
        None => Err(Error::UnexpectedEof),
        Some(len) => Ok((
            EndianSlice::new(&bytes[..len], endian),
            EndianSlice::new(&bytes[len + 1..], endian),
        )),
    }
}

// The fault of a file of versions 2 to 4, if it has one. Takes no memory.
#[tactic(auto, unfolding(crate::specs::Opcode::file_entry_at))]
fn check_file_entry(bytes: &[u8], endian: RunTimeEndian) -> Result<(), Error>
    ensures gives { Exactly (λ x. x) result
        (fault_of (file_entry_at (record { bytes = bytes.now; endian = endian }))) }
{
    let (path, mut rest) = split_text(bytes, endian)?;
    let _file = read_file_with_path(path, &mut rest)?;
    Ok(())
}

// Whether an extended opcode defines a file.
fn defines_file<R: Reader>(header: &LineProgramHeader<R>, code: u8) -> bool
    ensures gives { result ≡ defines header.now code }
{
    code == DW_LNE_define_file && header.encoding.version < DWARF_5
}

// The operand of an extended opcode that defines no file.
#[tactic(auto, unfolding(crate::specs::Opcode::operand_at))]
fn read_operand<R: Reader>(address_size: u8, code: u8, input: &mut R) -> Result<Opcode, Error>
    ensures gives { Reads R.section input.old input.new result (operand_at address_size code) }
{
    match code {
        DW_LNE_end_sequence => Ok(Opcode::EndSequence),
        DW_LNE_set_address => Ok(Opcode::SetAddress(input.read_address(address_size)?)),
        DW_LNE_set_discriminator => {
            input.read_uleb128()?;
            Ok(Opcode::Other)
        }
        _ => Ok(Opcode::Other),
    }
}

/// Reads a length, and an extended opcode in as many bytes. All but a whole file is read from a
/// slice, so that nothing else takes memory.
#[inline(always)]
#[tactic(auto, unfolding(crate::specs::Opcode::extended_in, crate::specs::Opcode::extended_at))]
pub(crate) fn read_extended<R: Reader>(
    header: &LineProgramHeader<R>,
    input: &mut R,
) -> Result<LineInstruction<FileEntry<R>>, Error>
    ensures gives { ExactlyUnlessOomFor R.shares gives_file (λ x. (x, R.section input.new)) result
        (extended_at header.now (R.section input.old)) }
{
    let size = input.read_uleb128()?;
    let bytes = input.to_slice();
    if (bytes.len() as u64) < size {
        return Err(Error::UnexpectedEof);
    }
    let mut text = EndianSlice::new(&bytes[..size as usize], input.endian());
    let code = text.read_u8()?;
    if defines_file(header, code) {
        check_file_entry(text.to_slice(), text.endian())?;
        let mut text = input.split(size)?;
        text.read_u8()?;
        return Ok(LineInstruction::Defines(read_file_entry(&mut text)?));
    }
    let opcode = read_operand(header.parameters.encoding.address_size, code, &mut text)?;
    input.skip(size)?;
    Ok(LineInstruction::Changes(opcode))
}
