//! Frames, as C gets them.

ghost use Rattle.std.specs.Prelude.{◌≡◌, ◌++◌, ℕ, List, [], length, IfErr, IfOk, IsOk, None, OnOk, Some};
ghost use Rattle.std.specs.List.{AllByRecursion};
ghost use Rattle.gimli_read.specs.declared.error.Error.TheVariants.{OutOfMemory};
ghost use Rattle.addr2line_units.specs.FramesLeft.{frames_left};
ghost use Rattle.addr2line_units.specs.FramesLent.{as_frame, as_name};
ghost use Rattle.addr2line_c.specs.Filled.{IsFilled};
ghost use Rattle.addr2line_c.specs.PlainNames.{HasPlainName, IsPlainName};
ghost use Rattle.addr2line_c.specs.Texts.{optional_text, zero_ended, text_after};
ghost use Rattle.addr2line_c.specs.Written.{chosen_name, frame_name, frame_texts, frames_texts, written_frame, written_frames};

use crate::fill::fill;
use crate::location::{WrittenLocation, put_location};
use crate::parts::{OffsetPart, TextPart, offset_part, put_text};
use addr2line::gimli::read::{Error, Reader};
use addr2line::{Frame, FrameIter, FunctionName, Style, demangle_auto_with};
use std::alloc::Global;

/// A function at an address with its location there, as C gets it.
#[repr(C)]
#[derive(Clone, Copy)]
pub struct WrittenFrame {
    /// Where the entry of the function begins, in bytes from the start of the unit's length.
    pub entry: OffsetPart,
    /// The name of the function.
    pub function: TextPart,
    /// The location of the address, or that of the call of the frame before.
    pub location: WrittenLocation,
}

// A name after the texts of the buffer: in its language, or as the file has it. Refused
// `OutOfMemory` alone, and never as the file has it, nor where the name is plain.
fn put_name<R: Reader>(
    alloc: Global,
    name: &FunctionName<'_, R>,
    names: Option<Style>,
    buffer: &mut [u8],
    used: &mut usize,
) -> Result<TextPart, Error>
    ensures gives { (before : List (List ℕ)) → IsFilled used.old buffer.old (zero_ended before)
        → OnOk result (IsFilled used.new buffer.new (zero_ended (before
        ++ optional_text (Some (chosen_name names (as_name R.section name.now)))))) }
    ensures made { (before : List (List ℕ)) → IsFilled used.old buffer.old (zero_ended before)
        → IfOk result (λ p. p ≡ text_after before
        (Some (chosen_name names (as_name R.section name.now)))) }
    ensures refused { IfErr result (λ e. e ≡ OutOfMemory) }
    ensures memory { names ≡ None → IsOk result }
    ensures plain { IsPlainName (as_name R.section name.now) → IsOk result }
    ensures kept { length buffer.new ≡ length buffer.old }
{
    let Some(style) = names else {
        return Ok(put_text(buffer, used, Some(name.name.to_slice())));
    };
    let text = name.raw_name(alloc)?;
    let text = demangle_auto_with(alloc, text, name.language, style)?;
    Ok(put_text(buffer, used, Some(text.as_str().as_bytes())))
}

// The name of a frame, if it has one.
fn put_name_if<R: Reader>(
    alloc: Global,
    frame: &Frame<'_, R>,
    names: Option<Style>,
    buffer: &mut [u8],
    used: &mut usize,
) -> Result<TextPart, Error>
    ensures gives { (before : List (List ℕ)) → IsFilled used.old buffer.old (zero_ended before)
        → OnOk result (IsFilled used.new buffer.new (zero_ended (before
        ++ optional_text (frame_name names (as_frame R.section frame.now))))) }
    ensures made { (before : List (List ℕ)) → IsFilled used.old buffer.old (zero_ended before)
        → IfOk result (λ p. p ≡ text_after before
        (frame_name names (as_frame R.section frame.now))) }
    ensures refused { IfErr result (λ e. e ≡ OutOfMemory) }
    ensures memory { names ≡ None → IsOk result }
    ensures plain { HasPlainName (as_frame R.section frame.now) → IsOk result }
    ensures kept { length buffer.new ≡ length buffer.old }
{
    match &frame.function {
        Some(name) => put_name(alloc, name, names, buffer, used),
        None => Ok(put_text(buffer, used, None)),
    }
}

// The offset of the entry of a frame's function.
fn entry_of<R: Reader>(frame: &Frame<'_, R>) -> Option<u64>
    ensures gives { result ≡ (as_frame R.section frame.now).offset }
{
    Some(frame.dw_die_offset?.0)
}

// A frame, with its texts after those of the buffer. Refused `OutOfMemory` alone.
fn put_frame<R: Reader>(
    alloc: Global,
    frame: &Frame<'_, R>,
    names: Option<Style>,
    buffer: &mut [u8],
    used: &mut usize,
) -> Result<WrittenFrame, Error>
    ensures gives { (before : List (List ℕ)) → IsFilled used.old buffer.old (zero_ended before)
        → OnOk result (IsFilled used.new buffer.new (zero_ended (before
        ++ frame_texts names (as_frame R.section frame.now)))) }
    ensures made { (before : List (List ℕ)) → IsFilled used.old buffer.old (zero_ended before)
        → IfOk result (λ p. p ≡ written_frame names before (as_frame R.section frame.now)) }
    ensures refused { IfErr result (λ e. e ≡ OutOfMemory) }
    ensures memory { names ≡ None → IsOk result }
    ensures plain { HasPlainName (as_frame R.section frame.now) → IsOk result }
    ensures kept { length buffer.new ≡ length buffer.old }
{
    let function = put_name_if(alloc, frame, names, buffer, used)?;
    let location = put_location(buffer, used, frame.location);
    Ok(WrittenFrame {
        entry: offset_part(entry_of(frame)),
        function,
        location,
    })
}

/// The frames that are left, at the front of `out`, with their texts in the buffer. Gives how many
/// frames there are, and writes how many bytes their texts need, up to the greatest number.
///
/// Refused `OutOfMemory` alone, and never where names aren't demangled, nor where each is plain.
pub(crate) fn put_frames<R: Reader>(
    alloc: Global,
    frames: FrameIter<'_, R>,
    names: Option<Style>,
    out: &mut [WrittenFrame],
    buffer: &mut [u8],
    needed: &mut usize,
) -> Result<usize, Error>
    ensures gives { IfOk result (λ count. IsFilled count out.new
        (written_frames names (frames_left frames.entry))) }
    ensures left { OnOk result (IsFilled needed.new buffer.new
        (zero_ended (frames_texts names (frames_left frames.entry)))) }
    ensures refused { IfErr result (λ e. e ≡ OutOfMemory) }
    ensures memory { names ≡ None → IsOk result }
    ensures plain { AllByRecursion HasPlainName (frames_left frames.entry) → IsOk result }
    ensures kept { (length out.new ≡ length out.old) × (length buffer.new ≡ length buffer.old) }
{
    let mut frames = frames;
    let mut count = 0;
    *needed = 0;
    while let Some(frame) = frames.next()? {
        let written = put_frame(alloc, &frame, names, buffer, needed)?;
        count = fill(out, count, &[written]);
    }
    Ok(count)
}
