//! Symbols and sections, as C gets them.

ghost use Rattle.std.specs.Prelude.{◌≡◌, length, nat_le, Ok, true};
ghost use Rattle.elf.specs.Sections.{section_range_at};
ghost use Rattle.elf.specs.Symbols.{symbol_at};
ghost use Rattle.addr2line_c.specs.Answered.{HasMemory, IfNothing, SaysWhatIsThere};
ghost use Rattle.addr2line_c.specs.WrittenSymbols.{IsWrittenRange, IsWrittenSymbol};

use crate::parts::{TextPart, put_text};
use crate::status::{Status, done_if};
use addr2line::ElfFile;

/// The symbol of an address, as C gets it.
#[repr(C)]
#[derive(Clone, Copy)]
pub struct WrittenSymbol {
    /// The symbol's address, as the file has it.
    pub address: u64,
    /// Its name.
    pub name: TextPart,
}

/// The symbol of an address, with its name in the buffer. Takes no memory.
pub(crate) fn find_symbol(
    object: &ElfFile,
    probe: u64,
    out: &mut WrittenSymbol,
    buffer: &mut [u8],
    needed: &mut usize,
) -> Status
    ensures gives { SaysWhatIsThere (Ok (symbol_at probe object.now))
        (IsWrittenSymbol out.new buffer.new needed.new)
        (nat_le needed.new (length buffer.new)) result }
    ensures none { IfNothing result (needed.new ≡ 0) }
    ensures memory { HasMemory result }
{
    *needed = 0;
    let Some(symbol) = object.symbol(probe) else {
        return Status::Nothing;
    };
    *out = WrittenSymbol {
        address: symbol.address(),
        name: put_text(buffer, needed, Some(symbol.name().as_bytes())),
    };
    done_if(*needed <= buffer.len())
}

/// The addresses of the first section of a name. Takes no memory.
pub(crate) fn section_range(object: &ElfFile, name: &[u8], begin: &mut u64, end: &mut u64) -> Status
    ensures gives { SaysWhatIsThere (Ok (section_range_at name.now object.now))
        (IsWrittenRange begin.new end.new) true result }
    ensures memory { HasMemory result }
{
    let Some(range) = object.section_range(name) else {
        return Status::Nothing;
    };
    *begin = range.begin;
    *end = range.end;
    Status::Done
}
