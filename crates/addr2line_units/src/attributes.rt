//! What the root entry of a unit says for lookups.

ghost use Rattle.std.specs.Prelude.{◌≡◌};
ghost use Rattle.addr2line_units.specs.Common.{ExactlyUnlessOomIf};
ghost use Rattle.addr2line_units.specs.Attributes.{language_after, language_of_number, no_unit_attributes, unit_attributes};

use addr2line_lines::RangeAttributes;
use gimli::read::{Attribute, DwAt, DwLang, Error, NumberValue, Reader};
use gimli::{AttributeSink, NoNames, UnitRef, WantedNames, take_attributes};

/// What the attributes of a root entry say, the last of each counting.
#[derive(Clone, Copy)]
pub struct UnitAttributes {
    /// The addresses.
    pub ranges: RangeAttributes,
    /// The language.
    pub language: Option<DwLang>,
}

// A number of 16 bits as a language.
fn language_of_number(number: u64) -> Option<DwLang>
    ensures gives { result ≡ language_of_number number }
{
    match u16::try_from(number) {
        Ok(number) => Some(DwLang(number)),
        Err(_) => None,
    }
}

// The language after one more attribute.
fn language_after<R: Reader>(language: Option<DwLang>, attribute: &Attribute<R>) -> Option<DwLang>
    ensures gives { result ≡ language_after language attribute.now }
{
    if attribute.name() != DwAt::DW_AT_language {
        return language;
    }
    match attribute.udata_value() {
        Some(number) => language_of_number(number).or(language),
        None => language,
    }
}

impl UnitAttributes {
    // Before the first attribute.
    fn new() -> UnitAttributes
        ensures gives { result ≡ no_unit_attributes }
    {
        UnitAttributes {
            ranges: RangeAttributes::new(),
            language: None,
        }
    }
}

// The attributes that say of their unit's addresses or language.
struct UnitWanted;

impl WantedNames for UnitWanted {
    ghost use Rattle.addr2line_units.specs.AttributesWanted.{is_unit_name};

    ghost wanted = { is_unit_name };

    fn is_wanted_name(name: DwAt) -> bool {
        matches!(
            name,
            DwAt::DW_AT_low_pc | DwAt::DW_AT_high_pc | DwAt::DW_AT_ranges | DwAt::DW_AT_language
        )
    }
}

// Takes in what the root entry of a unit says.
#[derive(Drop)]
struct UnitSink<'a, R: Reader> {
    unit: UnitRef<'a, R>,
}

impl<R: Reader> AttributeSink<R, Attribute<R>> for UnitSink<'_, R> {
    ghost use Rattle.addr2line_units.specs.declared.attributes.UnitAttributes.{UnitAttributes};
    ghost use Rattle.addr2line_units.specs.Attributes.{with_unit_attribute};

    type Names = UnitWanted;

    type Numbers = NoNames;

    type Found = UnitAttributes;

    type Cache = ();

    const FEW_BETWEEN: bool = false;

    ghost seen = { λ a. a };

    ghost Said = { UnitAttributes };

    ghost said = { λ r. r };

    ghost with_attribute = { λ s r a.
        with_unit_attribute s.unit.dwarf.now s.unit.unit.now r a };

    ghost Grows = { λ _ _ _. Unit {0} };

    #[tactic(auto, unfolding(crate::specs::Attributes::with_unit_attribute))]
    fn take(
        &self,
        found: &mut UnitAttributes,
        attribute: Attribute<R>,
        _cache: &mut (),
    ) -> Result<(), Error> {
        let language = language_after(found.language, &attribute);
        found.ranges = found.ranges.take(self.unit, attribute)?;
        found.language = language;
        Ok(())
    }

    fn take_number(
        &self,
        _found: &mut UnitAttributes,
        _name: DwAt,
        _number: NumberValue,
        _cache: &mut (),
    ) -> Result<(), Error> {
        Ok(())
    }
}

/// What the root entry of a unit says for lookups.
///
/// Refused by the entry's code and its values in their order, `MissingUnitDie` at a closing entry,
/// then by the first index of an address or of a range list that isn't wholly in its section; may
/// fail with `OutOfMemory` instead, where bytes are shared. Source: DWARF 5, sections 2.17 and
/// 3.1.1.
pub fn read_unit_attributes<R: Reader>(unit: UnitRef<'_, R>) -> Result<UnitAttributes, Error>
    ensures gives { ExactlyUnlessOomIf R.shares (λ a. a) result
        (unit_attributes unit.entry.dwarf.now unit.entry.unit.now) }
{
    let mut entries = unit.entries_raw(None)?;
    match entries.read_abbreviation()? {
        Some(abbreviation) => {
            let specifications = abbreviation.attributes();
            let sink = UnitSink { unit };
            let mut found = UnitAttributes::new();
            take_attributes(&sink, &mut entries, specifications, &mut found, &mut ())?;
            Ok(found)
        }
        None => Err(Error::MissingUnitDie),
    }
}
