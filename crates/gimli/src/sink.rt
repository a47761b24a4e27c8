//! Attributes of an entry that are asked for, taken in one after another.

ghost use Rattle.std.specs.Prelude.{◌≡◌, true, Ok, OnOk};
ghost use Rattle.gimli.specs.Common.{attribute_at, attributes_at, rest_of, Exactly, ExactlyUnlessOomIf};
ghost use Rattle.gimli_read.specs.NumberValue.{number_at};
ghost use Rattle.gimli.specs.AttributeSinks.{IsGrowth, IsNextRead, IsNumberRead, IsSeenSame, SaysNothingElse, or_fault};
ghost use Rattle.gimli.specs.TakenAttributes.{taken_after};

use crate::entries::EntriesRaw;
use crate::wanted::{WantedNames, split_at_wanted};
use gimli_read::{Attribute, AttributeSpecification, DwAt, Error, NumberValue, Reader};

/// No name at all.
pub struct NoNames;

impl WantedNames for NoNames {
    ghost use Rattle.std.specs.Prelude.{false};

    ghost wanted = { λ _. false };

    #[inline(always)]
    fn is_wanted_name(_name: DwAt) -> bool {
        false
    }
}

/// What takes attributes of an entry in, one after another: values of the type `A`.
pub trait AttributeSink<R: Reader, A> {
    ghost use Rattle.std.specs.Prelude.{◌≡◌, true, Result};
    ghost use Rattle.gimli_read.specs.declared.error.Error.{Error as Fault};
    ghost use Rattle.gimli_read.specs.Form.{NamedValue};
    ghost use Rattle.gimli_read.specs.Reading.{ExactlyUnlessOomIf};
    ghost use Rattle.gimli.specs.AttributeSinks.{IsNumberTaken};

    /// The names of the attributes that are asked for.
    type Names: WantedNames;

    /// Those of attributes that are taken in as numbers, where their forms are frequent ones.
    type Numbers: WantedNames;

    /// What attributes say.
    type Found: Drop;

    /// What is cached on the way.
    type Cache;

    /// Whether few attributes stand between those that are asked for, so that they are passed over
    /// one at a time.
    const FEW_BETWEEN: bool;

    /// An attribute, as contracts see it.
    ghost seen: { A → NamedValue };

    /// What attributes say, as contracts see it.
    ghost Said: { Type 0 };

    /// What was found, seen so.
    ghost said: { Self.Found → Said };

    /// What is said with one more attribute.
    ghost with_attribute: { Self → Said → NamedValue → Result Said Fault };

    /// What may become of a cache.
    ghost Grows: { Self → Self.Cache → Self.Cache → Type 0 };

    /// Takes one more attribute in.
    fn take(
        &self,
        found: &mut Self::Found,
        attribute: A,
        cache: &mut Self::Cache,
    ) -> Result<(), Error>
        requires cache { Grows self.now cache.old cache.old }
        ensures gives { ExactlyUnlessOomIf R.shares (λ _. said found.new) result
            (with_attribute self.now (said found.old) (seen attribute)) }
        ensures after { Grows self.now cache.old cache.new };

    /// Takes an attribute in whose value is a number, as `take` does, if its name is one of those.
    fn take_number(
        &self,
        found: &mut Self::Found,
        name: DwAt,
        number: NumberValue,
        cache: &mut Self::Cache,
    ) -> Result<(), Error>
        requires cache { Grows self.now cache.old cache.old }
        ensures gives { Self.Numbers.wanted name ≡ true → IsNumberTaken R.shares
            (λ _. said found.new) (with_attribute self.now (said found.old)) name number result }
        ensures after { Grows self.now cache.old cache.new };
}

/// Passes over attributes, one at a time, each by a test of its own. Refused as
/// `EntriesRaw::skip_attributes` is. Takes no memory.
#[inline(always)]
pub fn pass_over<R: Reader>(
    entries: &mut EntriesRaw<'_, R>,
    specifications: &[AttributeSpecification],
) -> Result<(), Error>
    ensures gives { Exactly (λ _. entries.new.cursor.left) result (rest_of (attributes_at
        entries.old.unit.encoding specifications.now entries.old.cursor.left)) }
    ensures unit { entries.new.unit ≡ entries.old.unit }
    ensures depth { entries.new.cursor.depth ≡ entries.old.cursor.depth }
{
    for specification in specifications {
        entries.skip_attribute(*specification)?;
    }
    Ok(())
}

// Passes over attributes, of which there are few or not.
#[inline(always)]
fn pass_between<R: Reader>(
    entries: &mut EntriesRaw<'_, R>,
    specifications: &[AttributeSpecification],
    few: bool,
) -> Result<(), Error>
    ensures gives { Exactly (λ _. entries.new.cursor.left) result (rest_of (attributes_at
        entries.old.unit.encoding specifications.now entries.old.cursor.left)) }
    ensures unit { entries.new.unit ≡ entries.old.unit }
    ensures depth { entries.new.cursor.depth ≡ entries.old.cursor.depth }
{
    if few {
        pass_over(entries, specifications)
    } else {
        entries.skip_attributes(specifications)
    }
}

// Reads the next attribute as a number, if it is wanted so and one of a frequent form; else reads
// nothing.
#[inline(always)]
fn read_number_if<R: Reader>(
    entries: &mut EntriesRaw<'_, R>,
    specification: AttributeSpecification,
    wanted: bool,
) -> Result<Option<NumberValue>, Error>
    ensures gives { IsNumberRead wanted entries.old.cursor.left entries.new.cursor.left result
        (number_at entries.old.unit.encoding specification entries.old.cursor.left) }
    ensures unit { entries.new.unit ≡ entries.old.unit }
    ensures depth { entries.new.cursor.depth ≡ entries.old.cursor.depth }
{
    if wanted {
        entries.read_number(specification)
    } else {
        Ok(None)
    }
}

// Reads the next attribute and takes it in, unless there is a fault, and answers the fault that
// there is. A number is read without a value being made.
#[inline(always)]
fn read_next<R: Reader, S: AttributeSink<R, Attribute<R>>>(
    sink: &S,
    entries: &mut EntriesRaw<'_, R>,
    specification: AttributeSpecification,
    found: &mut S::Found,
    fault: Option<Error>,
    cache: &mut S::Cache,
) -> Result<Option<Error>, Error>
    requires cache { S.Grows sink.now cache.old cache.old }
    requires seen { IsSeenSame S.seen }
    ensures gives { IsNextRead R.shares S.said (S.with_attribute sink.now) entries.new.cursor.left
        (attribute_at entries.old.unit.encoding specification entries.old.cursor.left)
        (or_fault found.old fault) found.new result }
    ensures unit { entries.new.unit ≡ entries.old.unit }
    ensures depth { entries.new.cursor.depth ≡ entries.old.cursor.depth }
    ensures after { S.Grows sink.now cache.old cache.new }
{
    let name = specification.name();
    let wanted = S::Numbers::is_wanted_name(name);
    if let Some(number) = read_number_if(entries, specification, wanted)? {
        return match fault {
            Some(error) => Ok(Some(error)),
            None => Ok(sink.take_number(found, name, number, cache).err()),
        };
    }
    let attribute = entries.read_attribute(specification)?;
    match fault {
        Some(error) => Ok(Some(error)),
        None => Ok(sink.take(found, attribute, cache).err()),
    }
}

/// Reads the attributes of specifications, and takes in those that are asked for.
///
/// A value that can't be read is a fault before that of what is said, so the first of these waits
/// until all values are read.
#[inline(always)]
pub fn take_attributes<R: Reader, S: AttributeSink<R, Attribute<R>>>(
    sink: &S,
    entries: &mut EntriesRaw<'_, R>,
    specifications: &[AttributeSpecification],
    found: &mut S::Found,
    cache: &mut S::Cache,
) -> Result<(), Error>
    requires cache { S.Grows sink.now cache.old cache.old }
    requires growth { IsGrowth (S.Grows sink.now) }
    requires seen { IsSeenSame S.seen }
    requires others { SaysNothingElse S.Names.wanted (S.with_attribute sink.now) }
    ensures gives { ExactlyUnlessOomIf R.shares (λ _. S.said found.new) result (taken_after
        (S.with_attribute sink.now) (Ok (S.said found.old)) (attributes_at
        entries.old.unit.encoding specifications.now entries.old.cursor.left)) }
    ensures left { OnOk result (rest_of (attributes_at entries.old.unit.encoding
        specifications.now entries.old.cursor.left) ≡ Ok entries.new.cursor.left) }
    ensures unit { entries.new.unit ≡ entries.old.unit }
    ensures depth { entries.new.cursor.depth ≡ entries.old.cursor.depth }
    ensures after { S.Grows sink.now cache.old cache.new }
{
    let mut fault = None;
    let mut rest = specifications;
    while let Some(next) = split_at_wanted::<S::Names>(rest) {
        pass_between(entries, next.before, S::FEW_BETWEEN)?;
        fault = read_next(sink, entries, next.specification, found, fault, cache)?;
        rest = next.after;
    }
    pass_between(entries, rest, S::FEW_BETWEEN)?;
    match fault {
        Some(error) => Err(error),
        None => Ok(()),
    }
}
