//! The texts of an address that is asked for.

ghost use Rattle.std.specs.Prelude.{◌≡◌, ◌++◌, [], IfOk, List, ℕ, OnOk, codes, option_map, string_bytes};
ghost use Rattle.std.specs.Option.{option_copied};
ghost use Rattle.addr2line_bin.specs.Common.{result_map, as_location};
ghost use Rattle.addr2line_units.specs.FramesLeft.{frames_left};
ghost use Rattle.addr2line_bin.specs.FileAnswers.{StaysAnswered};
ghost use Rattle.addr2line_bin.specs.ProbeTexts.{AddsAnswer, GivesFrames, GivesLocation};
ghost use Rattle.addr2line_bin.specs.ProbeTexts.{IsAnswerAt, IsText, asked_symbol};
ghost use Rattle.addr2line_bin.specs.ProbeTexts.{AddsObject, asks_frames, fault_text, looked_up};
ghost use Rattle.addr2line_bin.specs.ProbeTexts.{offset_in};
ghost use Rattle.addr2line_bin.specs.FrameTexts.{symbol_name};
ghost use Rattle.addr2line_bin.specs.JsonTexts.{json_line};

use crate::address_text::{push_address, push_fault, push_location, push_probe_end};
use crate::frame_text::{push_frames, push_missing, symbol_name};
use crate::json_text::{push_fault_object, push_missing_object, push_object};
use crate::lookups::Lookups;
use crate::options::{RunContext, Style};
use addr2line::gimli::read::Reader;
use addr2line::{FrameIter, LoaderError, Location, Range};
use std::alloc::{AllocError, Global};

/// What goes to the two streams for an address.
#[derive(Drop)]
pub struct Texts {
    /// To the output.
    pub out: String,
    /// To standard error.
    pub err: String,
}

impl Texts {
    /// No texts. Takes no memory.
    pub fn new(alloc: Global) -> Texts
        ensures gives { (string_bytes result.out ≡ []) × (string_bytes result.err ≡ []) }
    {
        Texts {
            out: String::new(alloc),
            err: String::new(alloc),
        }
    }
}

// The address in a section at an offset, none past its size.
fn offset_in(section: Range, offset: u64) -> Option<u64>
    ensures gives { result ≡ offset_in section offset }
{
    let size = section.end.saturating_sub(section.begin);
    if offset < size {
        Some(section.begin + offset)
    } else {
        None
    }
}

// The address that is looked up for what is asked for, if it is one.
fn looked_up(section: Option<Range>, probe: Option<u64>) -> Option<u64>
    ensures gives { result ≡ looked_up section probe }
{
    let probe = probe?;
    match section {
        Some(section) => offset_in(section, probe),
        None => Some(probe),
    }
}

// Adds the location that a lookup found, or tells its fault.
fn push_found(
    texts: &mut Texts,
    context: &RunContext<'_>,
    address: u64,
    found: Result<Option<Location<'_>>, LoaderError>,
) -> Result<(), AllocError>
    ensures gives { OnOk result (AddsAnswer context.now address texts.old texts.new
        (GivesLocation (result_map (option_map as_location) found.entry))) }
{
    match found {
        Ok(location) => push_location(&mut texts.out, context.style, location),
        Err(error) => {
            push_fault(&mut texts.err, context.name, "location", address, error)?;
            push_location(&mut texts.out, context.style, None)
        }
    }
}

// Adds the frames that a lookup found, or tells its fault.
fn push_found_frames<R: Reader>(
    texts: &mut Texts,
    context: &RunContext<'_>,
    address: u64,
    symbol: Option<&str>,
    found: Result<FrameIter<'_, R>, LoaderError>,
) -> Result<(), AllocError>
    ensures gives { OnOk result (AddsAnswer context.now address texts.old texts.new
        (GivesFrames (result_map frames_left found.entry) (option_copied symbol.entry))) }
{
    match found {
        Ok(frames) => push_frames(&mut texts.out, context.alloc, context.style, symbol, frames),
        Err(error) => {
            push_fault(&mut texts.err, context.name, "frames", address, error)?;
            push_missing(&mut texts.out, context.style, symbol)
        }
    }
}

// The symbol's name as it is printed, where functions are printed.
fn asked_symbol<L: Lookups>(
    context: &RunContext<'_>,
    lookups: &L,
    address: u64,
) -> Result<Option<String>, AllocError>
    ensures gives { IfOk result (λ symbol. option_map string_bytes symbol
        ≡ asked_symbol context.now.style ((L.answers lookups.now).symbol_at address)) }
{
    if context.style.functions {
        symbol_of(context, lookups, address)
    } else {
        Ok(None)
    }
}

// The symbol's name as it is printed.
fn symbol_of<L: Lookups>(
    context: &RunContext<'_>,
    lookups: &L,
    address: u64,
) -> Result<Option<String>, AllocError>
    ensures gives { IfOk result (λ symbol. option_map string_bytes symbol
        ≡ option_map (symbol_name context.now.style) ((L.answers lookups.now).symbol_at address)) }
{
    match lookups.find_symbol(address) {
        Some(name) => Ok(Some(symbol_name(context.alloc, context.style, name)?)),
        None => Ok(None),
    }
}

// Whether frames are looked up.
fn asks_frames(style: Style) -> bool
    ensures gives { result ≡ asks_frames style }
{
    style.functions || style.inlines
}

// Adds what stands for what is asked for, by the address that is looked up.
#[tactic(auto, using(crate::proofs::AnswerLemmas::stays_itself))]
fn push_answer<L: Lookups>(
    texts: &mut Texts,
    context: &RunContext<'_>,
    lookups: &mut L,
    address: Option<u64>,
) -> Result<(), AllocError>
    ensures gives { OnOk result ((found : List ℕ) × (fault : List ℕ)
        × IsAnswerAt (L.answers lookups.old) context.now address found fault
        × (string_bytes texts.new.out ≡ string_bytes texts.old.out ++ found)
        × (string_bytes texts.new.err ≡ string_bytes texts.old.err ++ fault)) }
    ensures kept { StaysAnswered (L.answers lookups.old) (L.answers lookups.new) }
{
    let Some(address) = address else {
        return push_missing(&mut texts.out, context.style, None);
    };
    if !asks_frames(context.style) {
        return push_found(texts, context, address, lookups.find_location(address));
    }
    let symbol = asked_symbol(context, lookups, address)?;
    let symbol = symbol.as_deref();
    push_found_frames(
        texts,
        context,
        address,
        symbol,
        lookups.find_frames(address),
    )
}

// Adds the object of the frames that a lookup found, or tells its fault.
fn push_found_object<R: Reader>(
    texts: &mut Texts,
    context: &RunContext<'_>,
    probe: Option<u64>,
    address: u64,
    symbol: Option<&str>,
    found: Result<FrameIter<'_, R>, LoaderError>,
) -> Result<(), AllocError>
    ensures gives { OnOk result ((string_bytes texts.new.out ≡ string_bytes texts.old.out
        ++ json_line context.now.style probe (option_copied symbol.entry)
        (result_map frames_left found.entry))
        × (string_bytes texts.new.err ≡ string_bytes texts.old.err
        ++ fault_text context.now.name.now (codes "frames") address
        (result_map frames_left found.entry))) }
{
    let out = &mut texts.out;
    match found {
        Ok(frames) => push_object(out, context.alloc, context.style, probe, symbol, frames),
        Err(error) => {
            push_fault(&mut texts.err, context.name, "frames", address, error)?;
            push_fault_object(out, context.alloc, context.style, probe, symbol, error)
        }
    }
}

// Adds the object of what is asked for, by the address that is looked up.
#[tactic(auto, using(crate::proofs::AnswerLemmas::stays_itself))]
fn push_object_at<L: Lookups>(
    texts: &mut Texts,
    context: &RunContext<'_>,
    lookups: &mut L,
    probe: Option<u64>,
    address: Option<u64>,
) -> Result<(), AllocError>
    ensures gives { OnOk result (AddsObject (L.answers lookups.old) context.now probe address
        texts.old texts.new) }
    ensures kept { StaysAnswered (L.answers lookups.old) (L.answers lookups.new) }
{
    let Some(address) = address else {
        return push_missing_object(&mut texts.out, context.alloc, context.style, probe);
    };
    let symbol = symbol_of(context, lookups, address)?;
    let symbol = symbol.as_deref();
    push_found_object(
        texts,
        context,
        probe,
        address,
        symbol,
        lookups.find_frames(address),
    )
}

/// Makes the texts of what is asked for.
#[tactic(auto, using(crate::proofs::AnswerLemmas::stays_itself))]
pub fn make_texts<L: Lookups>(
    texts: &mut Texts,
    context: &RunContext<'_>,
    lookups: &mut L,
    probe: Option<u64>,
) -> Result<(), AllocError>
    ensures gives { OnOk result (IsText (L.answers lookups.old) context.now probe
        (record { out = string_bytes texts.new.out; err = string_bytes texts.new.err })) }
    ensures kept { StaysAnswered (L.answers lookups.old) (L.answers lookups.new) }
{
    texts.out.clear();
    texts.err.clear();
    if context.style.json {
        let address = looked_up(context.section, probe);
        return push_object_at(texts, context, lookups, probe, address);
    }
    push_address(&mut texts.out, context.style, probe)?;
    push_answer(texts, context, lookups, looked_up(context.section, probe))?;
    push_probe_end(&mut texts.out, context.style)
}
