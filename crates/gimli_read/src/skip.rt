//! Passing over the values of attributes.

ghost use Rattle.std.specs.Prelude.{◌≡◌, OnErr};
ghost use Rattle.gimli_read.specs.Reading.{Exactly};
ghost use Rattle.gimli_read.specs.Number.{null_terminated_at};
ghost use Rattle.gimli_read.specs.Leb128.{uleb128_at};
ghost use Rattle.gimli_read.specs.EncodedValue.{block_at};
ghost use Rattle.gimli_read.specs.Form.{rest_of, attribute_at, attributes_at};
ghost use Rattle.gimli_read.specs.SizedRuns.{run_rest, rest_after_runs};
ghost use Rattle.gimli_read.specs.Skip.{rest_after, IsStillToSkip};

use crate::abbrev::{Abbreviation, AttributeSpecification, SizedRun};
use crate::endian::Encoding;
use crate::endian_slice::EndianSlice;
use crate::error::Error;
use crate::reader::{Reader, zero_of};
use crate::size::{TotalSize, ValueSize, address_bytes, is_usual, size_of_form};
use crate::value::read_attribute;

// A reader that borrows what another one has left.
fn borrowed<R: Reader>(input: &R) -> EndianSlice<'_>
    ensures gives { result ≡ R.section input.now }
{
    EndianSlice::new(input.to_slice(), input.endian())
}

/// Passes over an attribute, which is read and dropped (DWARF 5, section 7.5.5). Takes no memory.
///
/// Refused as `read_attribute` is, but for `OutOfMemory`. After a refusal the reader stands where
/// it stood.
#[tactic(auto, using(crate::proofs::SkipLemmas::attribute_skipped))]
pub fn skip_attribute<R: Reader>(
    input: &mut R,
    encoding: Encoding,
    specification: AttributeSpecification,
) -> Result<(), Error>
    ensures gives { Exactly (λ _. R.section input.new) result
        (rest_of (attribute_at encoding specification (R.section input.old))) }
    ensures refused { OnErr result (R.section input.new ≡ R.section input.old) }
{
    // From borrowed bytes, of which a part takes no memory.
    let mut bytes = borrowed(input);
    let before = bytes.len();
    read_attribute(&mut bytes, encoding, specification)?;
    let taken = before - bytes.len();
    input.skip(taken)
}

// Passes over a text, and the zero byte that ends it.
#[inline(always)]
fn skip_text(bytes: &mut EndianSlice<'_>) -> Result<(), Error>
    ensures gives { Exactly (λ _. bytes.new) result (rest_of (null_terminated_at bytes.old)) }
{
    match zero_of(bytes.to_slice()) {
        None => Err(Error::UnexpectedEof),
        Some(len) => bytes.skip(len as u64 + 1),
    }
}

// Passes over a length, and as many bytes.
#[inline(always)]
fn skip_block(bytes: &mut EndianSlice<'_>) -> Result<(), Error>
    ensures gives { Exactly (λ _. bytes.new) result (rest_of (block_at (uleb128_at bytes.old))) }
{
    let len = bytes.read_uleb128()?;
    bytes.skip(len)
}

// Passes over an attribute. Where its form is one of the frequent ones of variable size, no value
// is made.
#[inline(always)]
#[tactic(auto, using(crate::proofs::SkipLemmas::number_left, crate::proofs::SkipLemmas::block_left, crate::proofs::SkipLemmas::text_left))]
fn skip_value(
    bytes: &mut EndianSlice<'_>,
    encoding: Encoding,
    specification: &AttributeSpecification,
) -> Result<(), Error>
    ensures gives { Exactly (λ _. bytes.new) result
        (rest_of (attribute_at encoding specification.now bytes.old)) }
{
    match size_of_form(specification.form()) {
        ValueSize::Number => {
            bytes.read_uleb128()?;
            Ok(())
        }
        ValueSize::Block => skip_block(bytes),
        ValueSize::Text => skip_text(bytes),
        _ => {
            // By a reader of its own, so that `bytes` need not stand in memory.
            let mut rest = bytes.duplicate()?;
            read_attribute(&mut rest, encoding, *specification)?;
            *bytes = rest;
            Ok(())
        }
    }
}

// Passes over `run` bytes and an attribute, but for those bytes at their end whose number is known:
// gives how many these are.
fn skip_next(
    bytes: &mut EndianSlice<'_>,
    encoding: Encoding,
    specification: AttributeSpecification,
    run: u64,
) -> Result<u64, Error>
    ensures gives { IsStillToSkip bytes.new result
        (rest_after run encoding specification bytes.old) }
{
    if let Some(size) = specification.size(encoding) {
        if let Some(longer) = run.checked_add(u64::from(size)) {
            return Ok(longer);
        }
    }
    bytes.skip(run)?;
    skip_value(bytes, encoding, &specification)?;
    Ok(0)
}

// Passes over attributes. Those of known sizes that follow one another are passed over together.
#[inline(never)]
fn skip_each(
    bytes: &mut EndianSlice<'_>,
    encoding: Encoding,
    specifications: &[AttributeSpecification],
) -> Result<(), Error>
    ensures gives { Exactly (λ _. bytes.new) result
        (rest_of (attributes_at encoding specifications.now bytes.old)) }
{
    let mut run = 0;
    for specification in specifications {
        run = skip_next(bytes, encoding, *specification, run)?;
    }
    bytes.skip(run)
}

/// Passes over attributes, which are read and dropped one after another (DWARF 5, section 7.5.5).
/// Takes no memory.
///
/// Refused as `read_attribute` is at the first that can't be read, but for `OutOfMemory`. After a
/// refusal the reader stands where it stood.
#[inline(always)]
#[tactic(auto, using(crate::proofs::SkipLemmas::attributes_skipped, crate::proofs::SkipLemmas::attributes_leave))]
pub fn skip_attributes<R: Reader>(
    input: &mut R,
    encoding: Encoding,
    specifications: &[AttributeSpecification],
) -> Result<(), Error>
    ensures gives { Exactly (λ _. R.section input.new) result
        (rest_of (attributes_at encoding specifications.now (R.section input.old))) }
    ensures refused { OnErr result (R.section input.new ≡ R.section input.old) }
{
    let mut bytes = borrowed(input);
    let all = bytes.len();
    skip_each(&mut bytes, encoding, specifications)?;
    let passed = all - bytes.len();
    input.skip(passed)
}

// Passes over a run.
#[inline(always)]
fn skip_run(bytes: &mut EndianSlice<'_>, encoding: Encoding, run: &SizedRun) -> Result<(), Error>
    ensures gives { Exactly (λ _. bytes.new) result (run_rest encoding run.now bytes.old) }
{
    bytes.skip(run.size.bytes(encoding))?;
    skip_value(bytes, encoding, &run.next)
}

// Passes over runs, and as many bytes after them as attributes of known sizes have.
#[inline(always)]
fn skip_runs(
    bytes: &mut EndianSlice<'_>,
    encoding: Encoding,
    runs: &[SizedRun],
    last: TotalSize,
) -> Result<(), Error>
    ensures gives { Exactly (λ _. bytes.new) result
        (rest_after_runs encoding runs.now last bytes.old) }
{
    for run in runs {
        skip_run(bytes, encoding, run)?;
    }
    bytes.skip(last.bytes(encoding))
}

// Passes over the attributes of an abbreviation in a unit that isn't a usual one.
#[inline(never)]
fn skip_all_counted(
    bytes: &mut EndianSlice<'_>,
    encoding: Encoding,
    abbreviation: &Abbreviation,
) -> Result<(), Error>
    ensures gives { Exactly (λ _. bytes.new) result
        (rest_of (attributes_at encoding abbreviation.now.attributes bytes.old)) }
{
    match address_bytes(encoding) {
        Some(_) => {
            let (runs, last) = abbreviation.runs();
            skip_runs(bytes, encoding, runs, last)
        }
        None => skip_each(bytes, encoding, abbreviation.attributes()),
    }
}

// Passes over the attributes of an abbreviation.
#[inline(always)]
#[tactic(auto, using(crate::proofs::UsualSize::usual_address))]
fn skip_all(
    bytes: &mut EndianSlice<'_>,
    encoding: Encoding,
    abbreviation: &Abbreviation,
) -> Result<(), Error>
    ensures gives { Exactly (λ _. bytes.new) result
        (rest_of (attributes_at encoding abbreviation.now.attributes bytes.old)) }
{
    if is_usual(encoding) {
        let (runs, last) = abbreviation.runs();
        return skip_runs(bytes, encoding, runs, last);
    }
    // As in `skip_value`.
    let mut rest = bytes.duplicate()?;
    skip_all_counted(&mut rest, encoding, abbreviation)?;
    *bytes = rest;
    Ok(())
}

/// Passes over all attributes of an entry of an abbreviation, as `skip_attributes` does, those of
/// known sizes together and without looking at each. Takes no memory.
///
/// Refused as `skip_attributes` is, and leaves the reader where it stood then.
#[inline(always)]
#[tactic(auto, using(crate::proofs::SkipLemmas::attributes_skipped, crate::proofs::SkipLemmas::attributes_leave))]
pub fn skip_attributes_of<R: Reader>(
    input: &mut R,
    encoding: Encoding,
    abbreviation: &Abbreviation,
) -> Result<(), Error>
    ensures gives { Exactly (λ _. R.section input.new) result
        (rest_of (attributes_at encoding abbreviation.now.attributes (R.section input.old))) }
    ensures refused { OnErr result (R.section input.new ≡ R.section input.old) }
{
    let mut bytes = borrowed(input);
    let whole = bytes.len();
    skip_all(&mut bytes, encoding, abbreviation)?;
    let gone = whole - bytes.len();
    input.skip(gone)
}
