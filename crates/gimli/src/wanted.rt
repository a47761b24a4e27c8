//! Attributes that are asked for by their names, among others.

ghost use Rattle.std.specs.Prelude.{◌≡◌, ◌<◌, true, None, IfSome, length};
ghost use Rattle.std.specs.List.{position};
ghost use Rattle.gimli.specs.WantedAttributes.{HasNoWanted, IsSplitAtWanted, is_wanted_specification};

use gimli_read::{AttributeSpecification, DwAt};

/// A set of names of attributes.
pub trait WantedNames {
    ghost use Rattle.std.specs.Prelude.{Bool};
    ghost use Rattle.gimli_read.specs.declared.constants.DwAt.{DwAt};

    /// Whether a name is one of them.
    ghost wanted: { DwAt → Bool };

    /// Whether a name is one of them. Takes no memory.
    fn is_wanted_name(name: DwAt) -> bool
        ensures gives { result ≡ wanted name };
}

/// The first attribute that is asked for, among others.
#[derive(Clone, Copy)]
pub struct WantedAttribute<'a> {
    /// The attributes before it, of which none is asked for.
    pub before: &'a [AttributeSpecification],
    /// The attribute.
    pub specification: AttributeSpecification,
    /// The attributes after it.
    pub after: &'a [AttributeSpecification],
}

// The place of the first attribute that is asked for.
#[inline(always)]
fn first_wanted<W: WantedNames>(specifications: &[AttributeSpecification]) -> Option<usize>
    ensures gives { result ≡ position (is_wanted_specification W.wanted) specifications.now }
    ensures within { IfSome result (λ k. k < length specifications.now) }
{
    specifications
        .iter()
        .position(|specification| W::is_wanted_name(specification.name()))
}

/// Attributes, split at the first that is asked for; none where no attribute is. Takes no memory.
#[inline(always)]
pub fn split_at_wanted<W: WantedNames>(
    all: &[AttributeSpecification],
) -> Option<WantedAttribute<'_>>
    ensures gives { IfSome result (λ x.
        IsSplitAtWanted W.wanted all.now x.before.now x.specification x.after.now) }
    ensures found { IfSome result (λ x. W.wanted x.specification.name ≡ true) }
    ensures none { result ≡ None → HasNoWanted W.wanted all.now }
{
    let place = first_wanted::<W>(all)?;
    Some(WantedAttribute {
        before: &all[..place],
        specification: all[place],
        after: &all[place + 1..],
    })
}
