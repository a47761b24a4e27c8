//! What C calls: lookups in ELF files, by handles, into buffers of the caller (`include/addr2line.h`).
#![tactic(auto)]

ghost use Rattle.std.specs.Prelude.{◌≡◌, None, length};
ghost use Rattle.addr2line.specs.declared.compressed.CompressedSections.TheVariants as compressed;
ghost use Rattle.addr2line_c.specs.Flags.{compressed_by, names_by};
ghost use Rattle.addr2line_c.specs.Calls.{AnswersToken, CallsFile, ForgetsAnswer, FramesBy, LocatesAt, NoPlaces, OpensFile, OpensFileBy, ParsesAll, PreloadsAt, SectionNamed, SpansFrom, SymbolAt, TellsLoad, TellsStatusIfAny};

mod answers;
mod file;
mod fill;
mod flags;
mod found;
mod frames;
mod handle;
mod loads;
mod location;
mod lookups;
mod loose;
mod parts;
mod spans;
mod status;
mod symbols;

use crate::fill::fill;
use crate::flags::compressed_by;
use crate::frames::WrittenFrame;
use crate::handle::Handle;
use crate::loads::WrittenLoad;
use crate::location::WrittenLocation;
use crate::spans::WrittenSpan;
use crate::status::{Status, done_if};
use crate::symbols::WrittenSymbol;
use addr2line::CompressedSections;
use std::alloc::Global;

/// The number of what a C program may call: it grows with each change.
#[unsafe(no_mangle)]
pub extern "C" fn addr2line_version() -> u32
    ensures gives { result ≡ 3 }
{
    3
}

/// What a status says, with a zero after it; nothing of a number that is no status.
#[unsafe(no_mangle)]
pub extern "C" fn addr2line_status_text(status: u32, text: &mut [u8], needed: &mut usize) -> u32
    ensures gives { TellsStatusIfAny status text.new needed.new result }
{
    *needed = 0;
    let Some(status) = Status::of_number(status) else {
        return Status::Nothing.number();
    };
    let used = fill(text, 0, status.text().as_bytes());
    *needed = fill(text, used, b"\0");
    done_if(*needed <= text.len()).number()
}

/// Opens the file that bytes are, with a supplementary file where there are bytes of one. What the
/// handle held is closed first.
#[unsafe(no_mangle)]
pub extern "C" fn addr2line_open(
    alloc: Global,
    bytes: &'static [u8],
    sup: &'static [u8],
    handle: &mut Handle,
) -> u32
    ensures gives { OpensFile compressed.Refused bytes.now sup.now handle.new.value result }
{
    open(alloc, CompressedSections::Refused, bytes, sup, handle)
}

/// The same by flags. Where one isn't known the handle is closed.
#[unsafe(no_mangle)]
pub extern "C" fn addr2line_open_with(
    alloc: Global,
    bytes: &'static [u8],
    sup: &'static [u8],
    flags: u32,
    handle: &mut Handle,
) -> u32
    ensures gives { OpensFileBy (compressed_by flags) bytes.now sup.now handle.new.value result }
{
    match compressed_by(flags) {
        Some(compressed) => open(alloc, compressed, bytes, sup, handle),
        None => {
            handle.close(alloc);
            Status::BadFlags.number()
        }
    }
}

// Opens the file that bytes are, by what becomes of compressed sections. What the handle held is
// closed first.
fn open(
    alloc: Global,
    compressed: CompressedSections,
    bytes: &'static [u8],
    sup: &'static [u8],
    handle: &mut Handle,
) -> u32
    ensures gives { OpensFile compressed bytes.now sup.now handle.new.value result }
{
    handle.close(alloc);
    match file::open(alloc, compressed, bytes, sup) {
        Ok(file) => {
            handle.put(file);
            Status::Done.number()
        }
        Err(refusal) => Status::Refused(refusal).number(),
    }
}

/// Closes a handle: all memory is given back, and the bytes of its files may go.
#[unsafe(no_mangle)]
pub extern "C" fn addr2line_close(alloc: Global, handle: &mut Handle)
    ensures empty { handle.new.value ≡ None }
{
    handle.close(alloc)
}

/// The location of an address.
#[unsafe(no_mangle)]
pub extern "C" fn addr2line_find_location(
    alloc: Global,
    handle: &mut Handle,
    address: u64,
    location: &mut WrittenLocation,
    text: &mut [u8],
    needed: &mut usize,
) -> u32
    ensures gives { CallsFile handle.old.value handle.new.value result
        ((location.new ≡ location.old) × (text.new ≡ text.old) × (needed.new ≡ needed.old))
        (LocatesAt address location.new text.new needed.new) }
{
    let Some(mut file) = handle.take(alloc) else {
        return Status::Closed.number();
    };
    let status = file.find_location(address, location, text, needed);
    handle.put(file);
    status.number()
}

/// The frames at an address, from the innermost inlined function out.
#[unsafe(no_mangle)]
pub extern "C" fn addr2line_find_frames(
    alloc: Global,
    handle: &mut Handle,
    address: u64,
    flags: u32,
    frames: &mut [WrittenFrame],
    count: &mut usize,
    text: &mut [u8],
    needed: &mut usize,
) -> u32
    ensures gives { CallsFile handle.old.value handle.new.value result
        ((frames.new ≡ frames.old) × (count.new ≡ count.old) × (text.new ≡ text.old)
        × (needed.new ≡ needed.old))
        (FramesBy address (names_by flags) frames.new count.new text.new needed.new) }
{
    let Some(mut file) = handle.take(alloc) else {
        return Status::Closed.number();
    };
    let status = file.find_frames(address, flags, frames, count, text, needed);
    handle.put(file);
    status.number()
}

/// The first load that waits for an answer.
#[unsafe(no_mangle)]
pub extern "C" fn addr2line_get_load(
    alloc: Global,
    handle: &mut Handle,
    load: &mut WrittenLoad,
    text: &mut [u8],
    needed: &mut usize,
) -> u32
    ensures gives { CallsFile handle.old.value handle.new.value result
        ((load.new ≡ load.old) × (text.new ≡ text.old) × (needed.new ≡ needed.old))
        (TellsLoad load.new text.new needed.new) }
{
    let Some(file) = handle.take(alloc) else {
        return Status::Closed.number();
    };
    let status = file.first_load(load, text, needed);
    handle.put(file);
    status.number()
}

/// Answers the load of a token by the file that bytes are, by none where there are no bytes.
#[unsafe(no_mangle)]
pub extern "C" fn addr2line_answer_load(
    alloc: Global,
    handle: &mut Handle,
    token: u64,
    bytes: &'static [u8],
) -> u32
    ensures gives { CallsFile handle.old.value handle.new.value result NoPlaces
        (AnswersToken token bytes.now) }
{
    let Some(mut file) = handle.take(alloc) else {
        return Status::Closed.number();
    };
    let status = file.answer_load(token, bytes);
    handle.put(file);
    status.number()
}

/// Takes the answer to the load of a token back.
#[unsafe(no_mangle)]
pub extern "C" fn addr2line_forget(alloc: Global, handle: &mut Handle, token: u64) -> u32
    ensures gives { CallsFile handle.old.value handle.new.value result NoPlaces
        (ForgetsAnswer token) }
{
    let Some(mut file) = handle.take(alloc) else {
        return Status::Closed.number();
    };
    let status = file.forget(token);
    handle.put(file);
    status.number()
}

/// Asks for the loads of an address, before a lookup does.
#[unsafe(no_mangle)]
pub extern "C" fn addr2line_preload(alloc: Global, handle: &mut Handle, address: u64) -> u32
    ensures gives { CallsFile handle.old.value handle.new.value result NoPlaces
        (PreloadsAt address) }
{
    let Some(mut file) = handle.take(alloc) else {
        return Status::Closed.number();
    };
    let status = file.preload(address);
    handle.put(file);
    status.number()
}

/// Parses the lines and the functions of all units, so that lookups take no memory afterwards.
#[unsafe(no_mangle)]
pub extern "C" fn addr2line_parse_all(alloc: Global, handle: &mut Handle) -> u32
    ensures gives { CallsFile handle.old.value handle.new.value result NoPlaces
        (ParsesAll) }
{
    let Some(mut file) = handle.take(alloc) else {
        return Status::Closed.number();
    };
    let status = file.parse_all();
    handle.put(file);
    status.number()
}

/// The rows that the addresses from `low` up to `high` meet, from the one that has `first` rows and
/// faults before it on, as many as `spans` has room for.
#[unsafe(no_mangle)]
pub extern "C" fn addr2line_locations(
    alloc: Global,
    handle: &mut Handle,
    low: u64,
    high: u64,
    first: u64,
    spans: &mut [WrittenSpan],
    count: &mut usize,
    text: &mut [u8],
    needed: &mut usize,
) -> u32
    ensures gives { CallsFile handle.old.value handle.new.value result
        ((spans.new ≡ spans.old) × (count.new ≡ count.old) × (text.new ≡ text.old)
        × (needed.new ≡ needed.old))
        (SpansFrom low high first (length spans.old) spans.new count.new text.new needed.new) }
{
    let Some(mut file) = handle.take(alloc) else {
        return Status::Closed.number();
    };
    let status = file.find_spans(low, high, first, spans, count, text, needed);
    handle.put(file);
    status.number()
}

/// The symbol of an address.
#[unsafe(no_mangle)]
pub extern "C" fn addr2line_find_symbol(
    alloc: Global,
    handle: &mut Handle,
    address: u64,
    symbol: &mut WrittenSymbol,
    text: &mut [u8],
    needed: &mut usize,
) -> u32
    ensures gives { CallsFile handle.old.value handle.new.value result
        ((symbol.new ≡ symbol.old) × (text.new ≡ text.old) × (needed.new ≡ needed.old))
        (SymbolAt address symbol.new text.new needed.new) }
{
    let Some(file) = handle.take(alloc) else {
        return Status::Closed.number();
    };
    let status = file.find_symbol(address, symbol, text, needed);
    handle.put(file);
    status.number()
}

/// The addresses of the first section of a name.
#[unsafe(no_mangle)]
pub extern "C" fn addr2line_section_range(
    alloc: Global,
    handle: &mut Handle,
    name: &[u8],
    begin: &mut u64,
    end: &mut u64,
) -> u32
    ensures gives { CallsFile handle.old.value handle.new.value result
        ((begin.new ≡ begin.old) × (end.new ≡ end.old))
        (SectionNamed name.now begin.new end.new) }
{
    let Some(file) = handle.take(alloc) else {
        return Status::Closed.number();
    };
    let status = file.section_range(name, begin, end);
    handle.put(file);
    status.number()
}

#[cfg(test)]
mod tests;
