//! Laws of v0 names and their texts: functions with a contract and no code.

ghost use Rattle.rust_v0.specs.NameLaws.{BoundedText, NamesWithoutText, WorkedName};
ghost use Rattle.rust_v0.specs.ReadLaws.{HiddenAddsNothing, ReadOnward, ReadsAlone, WithinLimits};

/// A name has no text where none of `_R`, `R`, `__R` stands first, where no upper case letter
/// follows the prefix, or where anything after it isn't ASCII.
pub fn names_without_text()
    ensures law { NamesWithoutText }
{}

/// A name and its text: `_RNvC6_123foo3bar` stands for `123foo::bar`.
///
/// Source: Rust RFC 2603.
pub fn worked_name()
    ensures law { WorkedName }
{}

/// A text has at most 1,000,000 bytes more than its name has: the text of a path keeps to the limit,
/// and the suffix is a part of the name.
pub fn bounded_text()
    ensures law { BoundedText }
{}

/// Each production leaves a proper end of the bytes that it was given, so no reading goes back.
/// Where no `B` stands in them, at most as many productions are read as bytes are passed over, and
/// fewer in a path, so in a name too.
pub fn read_onward()
    ensures law { ReadOnward }
{}

/// Nothing is read past the levels and the productions that are left, each production takes one of
/// these at least, what was shown and what may still be shown stay the same together, and a text
/// only grows.
pub fn within_limits()
    ensures law { WithinLimits }
{}

/// A production keeps the name and whether texts are shown, and adds no text where they aren't. The
/// crate that made the instance adds none.
pub fn hidden_adds_nothing()
    ensures law { HiddenAddsNothing }
{}

/// What a production reads and shows depends neither on the text so far nor on how much is left: with
/// another text before it the same is shown behind that, or the same is a fault. Where more may be
/// read or shown, what had a text has the same one. What is left to depend on are the production, the
/// name, the place in it, the binders around, whether it is shown, and an open path of a trait.
pub fn reads_alone()
    ensures law { ReadsAlone }
{}
