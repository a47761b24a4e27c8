//! An address as an object of JSON, with its frames.

ghost use Rattle.std.specs.Prelude.{◌≡◌, ◌++◌, [], IfOk, OnOk, option_and_then, option_map, string_bytes};
ghost use Rattle.std.specs.Prelude.{Err, None, Ok, Some, codes, false, map};
ghost use Rattle.std.specs.Option.{option_copied};
ghost use Rattle.serde_json.specs.View.{view};
ghost use Rattle.serde_json.specs.Written.{compact_text, has_float};
ghost use Rattle.addr2line_bin.specs.Common.{as_location};
ghost use Rattle.addr2line_units.specs.FramesLeft.{frames_left};
ghost use Rattle.addr2line_units.specs.FramesLent.{as_frame};
ghost use Rattle.addr2line_bin.specs.FrameTexts.{next_and};
ghost use Rattle.addr2line_bin.specs.JsonTexts.{address_data, answer_data, file_of, frame_data};
ghost use Rattle.addr2line_bin.specs.JsonTexts.{frames_data, json_line, place_data, shown_data, symbol_data};

use crate::address_text::{push_hex, shown_path};
use crate::frame_text::{function_name, next_frame, symbol_before};
use crate::options::Style;
use addr2line::gimli::read::Reader;
use addr2line::{Frame, FrameIter, LoaderError, Location};
use serde_json::{Value, json};
use std::alloc::{AllocError, Global};

// The address that is asked for, if it is one.
fn address_value(alloc: Global, probe: Option<u64>) -> Result<Value, AllocError>
    ensures gives { IfOk result (λ v. view v ≡ address_data probe) }
{
    let Some(address) = probe else {
        return Ok(Value::Null);
    };
    let mut text = String::from_str(alloc, "0x")?;
    push_hex(&mut text, address)?;
    Ok(Value::String(text))
}

// The file of a location, as it is shown.
fn file_of<'a>(style: Style, location: Option<Location<'a>>) -> Option<&'a str>
    ensures gives { option_copied result ≡ file_of style (option_map as_location location.entry) }
{
    let path = location?.file?;
    Some(shown_path(style, path))
}

// The line of a location.
fn line_of(location: Option<Location<'_>>) -> Option<u32>
    ensures gives { result
        ≡ option_and_then (λ p. p.line) (option_map as_location location.entry) }
{
    location?.line
}

// The column of a location.
fn column_of(location: Option<Location<'_>>) -> Option<u32>
    ensures gives { result
        ≡ option_and_then (λ p. p.column) (option_map as_location location.entry) }
{
    location?.column
}

// A frame of a function with this name.
fn place_value(
    alloc: Global,
    style: Style,
    function: &str,
    location: Option<Location<'_>>,
) -> Result<Value, AllocError>
    ensures gives { IfOk result (λ v. view v
        ≡ place_data style (Some function.now) (option_map as_location location.entry)) }
{
    let column = column_of(location).unwrap_or(0);
    let line = line_of(location).unwrap_or(0);
    let file = file_of(style, location).unwrap_or("");
    json!(in alloc; {"Column": column, "FileName": file, "FunctionName": function, "Line": line})
}

// A frame, by the symbol's name if there is one.
fn frame_value<R: Reader>(
    alloc: Global,
    style: Style,
    symbol: Option<&str>,
    frame: &Frame<'_, R>,
) -> Result<Value, AllocError>
    ensures gives { IfOk result (λ v. view v
        ≡ frame_data style (option_copied symbol.entry) (as_frame R.section frame.now)) }
{
    if let Some(name) = symbol {
        return place_value(alloc, style, name, frame.location);
    }
    let Some(function) = &frame.function else {
        return place_value(alloc, style, "", frame.location);
    };
    match function_name(alloc, style, function) {
        Ok(name) => place_value(alloc, style, name.as_str(), frame.location),
        Err(_) => Err(AllocError),
    }
}

// A first frame, if there is one, and those after it, the last by the symbol's name if there is
// one.
fn frame_values<'ctx, R: Reader>(
    alloc: Global,
    style: Style,
    symbol: Option<&str>,
    first: Option<Frame<'ctx, R>>,
    frames: FrameIter<'ctx, R>,
) -> Result<Vec<Value>, AllocError>
    ensures gives { IfOk result (λ values. map view values.items
        ≡ frames_data style (option_copied symbol.entry)
        (next_and (option_map (as_frame R.section) first.entry) (frames_left frames.entry))) }
{
    let mut frames = frames;
    let mut values = Vec::new(alloc);
    let mut next = first;
    while let Some(frame) = next {
        next = next_frame(&mut frames);
        let value = frame_value(alloc, style, symbol_before(symbol, &next), &frame)?;
        values.push(value)?;
    }
    Ok(values)
}

// A frame of the symbol's name, if there is one.
fn symbol_values(
    alloc: Global,
    style: Style,
    symbol: Option<&str>,
) -> Result<Vec<Value>, AllocError>
    ensures gives { IfOk result (λ values. map view values.items
        ≡ symbol_data style (option_copied symbol.entry)) }
{
    let mut values = Vec::new(alloc);
    if let Some(name) = symbol {
        values.push(place_value(alloc, style, name, None)?)?;
    }
    Ok(values)
}

// The frames, or where there is none that of the symbol.
fn shown_values<R: Reader>(
    alloc: Global,
    style: Style,
    symbol: Option<&str>,
    frames: FrameIter<'_, R>,
) -> Result<Vec<Value>, AllocError>
    ensures gives { IfOk result (λ values. map view values.items
        ≡ shown_data style (option_copied symbol.entry) (frames_left frames.entry)) }
{
    let mut frames = frames;
    match next_frame(&mut frames) {
        Some(first) => frame_values(alloc, style, symbol, Some(first), frames),
        None => symbol_values(alloc, style, symbol),
    }
}

// An address with its frames and the name of its symbol.
fn found_value<R: Reader>(
    alloc: Global,
    style: Style,
    probe: Option<u64>,
    symbol: Option<&str>,
    frames: FrameIter<'_, R>,
) -> Result<Value, AllocError>
    ensures gives { IfOk result (λ v. view v ≡ answer_data style probe
        (option_copied symbol.entry) (Ok (frames_left frames.entry))) }
{
    let frames = shown_values(alloc, style, symbol, frames)?;
    let address = address_value(alloc, probe)?;
    let name = symbol.unwrap_or("");
    let frames = Value::Array(frames);
    json!(in alloc; {"Address": address, "SymName": name, "Symbol": frames})
}

// An address at which nothing is looked up.
fn missing_value(alloc: Global, style: Style, probe: Option<u64>) -> Result<Value, AllocError>
    ensures gives { IfOk result (λ v. view v ≡ answer_data style probe None (Ok [])) }
{
    let address = address_value(alloc, probe)?;
    json!(in alloc; {"Address": address, "SymName": "", "Symbol": []})
}

// An address at which the lookup has a fault, with the name of its symbol.
fn fault_value(
    alloc: Global,
    style: Style,
    probe: Option<u64>,
    symbol: Option<&str>,
    error: LoaderError,
) -> Result<Value, AllocError>
    ensures gives { IfOk result (λ v. view v
        ≡ answer_data style probe (option_copied symbol.entry) (Err error)) }
{
    let address = address_value(alloc, probe)?;
    let name = symbol.unwrap_or("");
    let message = error.text();
    json!(in alloc; {"Address": address, "Error": {"Message": message}, "SymName": name, "Symbol": []})
}

// Adds a value on a line of its own.
fn push_value(text: &mut String, alloc: Global, value: &Value) -> Result<(), AllocError>
    ensures gives { has_float (view value.now) ≡ false → OnOk result (string_bytes text.new
        ≡ string_bytes text.old ++ (compact_text (view value.now) ++ codes "\n")) }
{
    let line = value.to_string(alloc)?;
    text.push_str(line.as_str())?;
    text.push_str("\n")
}

/// Adds an address with its frames and the name of its symbol.
#[tactic(auto, using(crate::proofs::JsonLemmas::has_no_float))]
pub fn push_object<R: Reader>(
    text: &mut String,
    alloc: Global,
    style: Style,
    probe: Option<u64>,
    symbol: Option<&str>,
    frames: FrameIter<'_, R>,
) -> Result<(), AllocError>
    ensures gives { OnOk result (string_bytes text.new ≡ string_bytes text.old
        ++ json_line style probe (option_copied symbol.entry) (Ok (frames_left frames.entry))) }
{
    let value = found_value(alloc, style, probe, symbol, frames)?;
    push_value(text, alloc, &value)
}

/// Adds an address at which nothing is looked up.
#[tactic(auto, using(crate::proofs::JsonLemmas::has_no_float))]
pub fn push_missing_object(
    text: &mut String,
    alloc: Global,
    style: Style,
    probe: Option<u64>,
) -> Result<(), AllocError>
    ensures gives { OnOk result (string_bytes text.new
        ≡ string_bytes text.old ++ json_line style probe None (Ok [])) }
{
    let value = missing_value(alloc, style, probe)?;
    push_value(text, alloc, &value)
}

/// Adds an address at which the lookup has a fault, with the name of its symbol.
#[tactic(auto, using(crate::proofs::JsonLemmas::has_no_float))]
pub fn push_fault_object(
    text: &mut String,
    alloc: Global,
    style: Style,
    probe: Option<u64>,
    symbol: Option<&str>,
    error: LoaderError,
) -> Result<(), AllocError>
    ensures gives { OnOk result (string_bytes text.new ≡ string_bytes text.old
        ++ json_line style probe (option_copied symbol.entry) (Err error)) }
{
    let value = fault_value(alloc, style, probe, symbol, error)?;
    push_value(text, alloc, &value)
}
