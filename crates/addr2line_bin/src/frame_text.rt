//! The texts of frames: functions with their locations.

ghost use Rattle.std.specs.Prelude.{◌≡◌, ◌++◌, IfOk, List, OnOk, option_map, string_bytes};
ghost use Rattle.std.specs.Cow.{cow_str_bytes};
ghost use Rattle.std.specs.Option.{option_copied};
ghost use Rattle.addr2line_bin.specs.Common.{FrameRecord};
ghost use Rattle.addr2line_units.specs.FramesLeft.{frames_left};
ghost use Rattle.addr2line_units.specs.FramesLent.{as_frame, as_name};
ghost use Rattle.addr2line_bin.specs.FrameTexts.{caller_mark, callers_text, frame_text, frames_text};
ghost use Rattle.addr2line_bin.specs.FrameTexts.{function_ending, function_name, function_text};
ghost use Rattle.addr2line_bin.specs.FrameTexts.{missing_text, next_and, symbol_before};
ghost use Rattle.addr2line_bin.specs.FrameTexts.{symbol_name};

use crate::address_text::push_location;
use crate::options::Style;
use addr2line::gimli::read::{Error, Reader};
use addr2line::{Frame, FrameIter, FunctionName, demangle_auto_with};
use std::alloc::{AllocError, Global};
use std::borrow::CowStr;

/// A function's name as it is printed.
pub fn function_name<'ctx, R: Reader>(
    alloc: Global,
    style: Style,
    function: &FunctionName<'ctx, R>,
) -> Result<CowStr<'ctx>, Error>
    ensures gives { IfOk result (λ text. cow_str_bytes text
        ≡ function_name style (as_name R.section function.now)) }
{
    let name = function.raw_name(alloc)?;
    match style.names {
        Some(names) => demangle_auto_with(alloc, name, function.language, names),
        None => Ok(name),
    }
}

/// A symbol's name as it is printed.
pub fn symbol_name(alloc: Global, style: Style, name: &str) -> Result<String, AllocError>
    ensures gives { IfOk result (λ text. string_bytes text ≡ symbol_name style name.now) }
{
    let Some(names) = style.names else {
        return String::from_str(alloc, name);
    };
    match demangle_auto_with(alloc, CowStr::Borrowed(name), None, names) {
        Ok(text) => text.into_owned(alloc),
        Err(_) => Err(AllocError),
    }
}

// Adds what follows a function.
fn push_function_end(text: &mut String, style: Style) -> Result<(), AllocError>
    ensures gives { OnOk result (string_bytes text.new
        ≡ string_bytes text.old ++ function_ending style) }
{
    text.push_str(if style.pretty { " at " } else { "\n" })
}

// Adds a function by its name, where functions are printed.
fn push_function(text: &mut String, style: Style, name: Option<&str>) -> Result<(), AllocError>
    ensures gives { OnOk result (string_bytes text.new
        ≡ string_bytes text.old ++ function_text style (option_copied name.entry)) }
{
    if !style.functions {
        return Ok(());
    }
    text.push_str(name.unwrap_or("??"))?;
    push_function_end(text, style)
}

// Adds a function by its own name, where functions are printed.
fn push_own_function<R: Reader>(
    text: &mut String,
    alloc: Global,
    style: Style,
    function: &Option<FunctionName<'_, R>>,
) -> Result<(), AllocError>
    ensures gives { OnOk result (string_bytes text.new ≡ string_bytes text.old
        ++ function_text style (option_map (function_name style)
        (option_map (as_name R.section) function.now))) }
{
    let Some(function) = function else {
        return push_function(text, style, None);
    };
    match function_name(alloc, style, function) {
        Ok(name) => push_function(text, style, Some(name.as_str())),
        Err(_) => Err(AllocError),
    }
}

// Adds a frame, by the symbol's name if there is one.
fn push_frame<R: Reader>(
    text: &mut String,
    alloc: Global,
    style: Style,
    symbol: Option<&str>,
    frame: &Frame<'_, R>,
) -> Result<(), AllocError>
    ensures gives { OnOk result (string_bytes text.new ≡ string_bytes text.old
        ++ frame_text style (option_copied symbol.entry) (as_frame R.section frame.now)) }
{
    match symbol {
        Some(_) => push_function(text, style, symbol)?,
        None => push_own_function(text, alloc, style, &frame.function)?,
    }
    push_location(text, style, frame.location)
}

/// The next frame.
pub fn next_frame<'ctx, R: Reader>(frames: &mut FrameIter<'ctx, R>) -> Option<Frame<'ctx, R>>
    ensures gives { frames_left frames.old
        ≡ next_and (option_map (as_frame R.section) result) (frames_left frames.new) }
{
    match frames.next() {
        Ok(frame) => frame,
        Err(_) => None,
    }
}

/// The symbol's name where no frame follows.
pub fn symbol_before<'a, R: Reader>(
    symbol: Option<&'a str>,
    next: &Option<Frame<'_, R>>,
) -> Option<&'a str>
    ensures gives { (rest : List FrameRecord) → option_copied result
        ≡ symbol_before (option_copied symbol.entry)
        (next_and (option_map (as_frame R.section) next.now) rest) }
{
    match next {
        Some(_) => None,
        None => symbol,
    }
}

// Adds what stands before each frame but the first.
fn push_caller_mark(text: &mut String, style: Style) -> Result<(), AllocError>
    ensures gives { OnOk result (string_bytes text.new
        ≡ string_bytes text.old ++ caller_mark style) }
{
    text.push_str(if style.pretty { " (inlined by) " } else { "" })
}

// Adds a frame after others.
fn push_caller<R: Reader>(
    text: &mut String,
    alloc: Global,
    style: Style,
    symbol: Option<&str>,
    frame: &Frame<'_, R>,
) -> Result<(), AllocError>
    ensures gives { OnOk result (string_bytes text.new ≡ string_bytes text.old
        ++ (caller_mark style
        ++ frame_text style (option_copied symbol.entry) (as_frame R.section frame.now))) }
{
    push_caller_mark(text, style)?;
    push_frame(text, alloc, style, symbol, frame)
}

// Adds the frames after the first.
fn push_callers<'ctx, R: Reader>(
    text: &mut String,
    alloc: Global,
    style: Style,
    symbol: Option<&str>,
    first: Option<Frame<'ctx, R>>,
    frames: FrameIter<'ctx, R>,
) -> Result<(), AllocError>
    ensures gives { OnOk result (string_bytes text.new ≡ string_bytes text.old
        ++ callers_text style (option_copied symbol.entry)
        (next_and (option_map (as_frame R.section) first.entry) (frames_left frames.entry))) }
{
    let mut frames = frames;
    let mut next = first;
    while let Some(frame) = next {
        next = next_frame(&mut frames);
        push_caller(text, alloc, style, symbol_before(symbol, &next), &frame)?;
    }
    Ok(())
}

/// Adds what stands where there is no frame.
pub fn push_missing(text: &mut String, style: Style, symbol: Option<&str>) -> Result<(), AllocError>
    ensures gives { OnOk result (string_bytes text.new ≡ string_bytes text.old
        ++ missing_text style (option_copied symbol.entry)) }
{
    push_function(text, style, symbol)?;
    push_location(text, style, None)
}

/// Adds the frames; of them only the first where inlined functions aren't printed.
pub fn push_frames<R: Reader>(
    text: &mut String,
    alloc: Global,
    style: Style,
    symbol: Option<&str>,
    frames: FrameIter<'_, R>,
) -> Result<(), AllocError>
    ensures gives { OnOk result (string_bytes text.new ≡ string_bytes text.old
        ++ frames_text style (option_copied symbol.entry) (frames_left frames.entry)) }
{
    let mut frames = frames;
    let Some(frame) = next_frame(&mut frames) else {
        return push_missing(text, style, symbol);
    };
    let next = next_frame(&mut frames);
    push_frame(text, alloc, style, symbol_before(symbol, &next), &frame)?;
    if !style.inlines {
        return Ok(());
    }
    push_callers(text, alloc, style, symbol, next, frames)
}
