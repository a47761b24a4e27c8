//! Abbreviation tables.

ghost use Rattle.std.specs.List.{slice_get};
ghost use Rattle.std.specs.Prelude.{◌≡◌, ◌≢◌, [], ◌∷◌, ◌++◌, None, Some, IfOk, IfErr, IsOk, OnErr, OnOk, is_ok, is_some, length, option_copied};
ghost use Rattle.std.specs.Ordering.{nat_cmp};
ghost use Rattle.std.specs.BTreeMap.{get};
ghost use Rattle.gimli_read.specs.Reading.{ExactlyUnlessOomIf, Reads, ReadsUnlessOomIf};
ghost use Rattle.gimli_read.specs.Abbreviations.{with_code};
ghost use Rattle.gimli_read.specs.AbbreviationPlaces.{if_coded, first_code_with, IsSameApart};
ghost use Rattle.gimli_read.specs.declared.error.Error.TheVariants.{OutOfMemory};
ghost use Rattle.gimli_read.specs.SizedRuns.{AreRunsOf};
ghost use Rattle.gimli_read.specs.StoredAttributes.{attributes_of};
ghost use Rattle.gimli_read.specs.ValueSize.{value_size_of, attribute_size};
ghost use Rattle.gimli_read.specs.Abbrev.{specification_at, specifications_at, declaration_head_at, declaration_at, head_and_pair_at, abbreviation_at, has_front, table_at};

use crate::constants::{CLOSING_CODE, DW_CHILDREN_no, DW_CHILDREN_yes, DwAt, DwForm, DwTag};
use crate::endian::Encoding;
use crate::error::Error;
use crate::reader::Reader;
use crate::size::{TotalSize, ValueSize, size_of_form};
use std::alloc::{AllocError, Global};
use std::collections::BTreeMap;
use std::marker::Model;
use std::slice;

/// An attribute that the entries of an abbreviation have (DWARF 5, section 7.5.3).
#[derive(Clone, Copy, Debug, PartialEq, Eq)]
pub struct AttributeSpecification {
    name: DwAt,
    form: DwForm,
    // The value, where the form is implicit_const.
    constant: Option<i64>,
}

impl Model for AttributeSpecification {
    ghost use Rattle.gimli_read.specs.Abbreviations.{Specification};

    ghost Value = { Specification };

    ghost view = { λ a. record { name = a.name; form = a.form; constant = a.constant } };

    ghost inverse = { λ x. record { name = x.name; form = x.form; constant = x.constant } };
}

impl AttributeSpecification {
    /// What the attribute says. Takes no memory.
    pub fn name(&self) -> DwAt
        ensures gives { result ≡ self.now.name }
    {
        self.name
    }

    /// How the attribute's value is encoded. Takes no memory.
    pub fn form(&self) -> DwForm
        ensures gives { result ≡ self.now.form }
    {
        self.form
    }

    // The value, where the form is implicit_const.
    pub(crate) fn constant(&self) -> Option<i64>
        ensures gives { result ≡ self.now.constant }
    {
        self.constant
    }

    // What says how many bytes the attribute's value has.
    #[inline(always)]
    fn value_size(&self) -> ValueSize
        ensures gives { result ≡ value_size_of self.now }
    {
        if self.form == DwForm::DW_FORM_implicit_const {
            return match self.constant {
                Some(_) => ValueSize::Bytes(0),
                None => ValueSize::Other,
            };
        }
        size_of_form(self.form)
    }

    /// How many bytes the attribute's value has in a unit of this encoding, where its form alone
    /// says so; none for another form, and for an address of a size other than 1, 2, 4 and 8. Takes
    /// no memory. Source: DWARF 5, section 7.5.6.
    #[inline(always)]
    pub fn size(&self, encoding: Encoding) -> Option<u8>
        ensures gives { result ≡ attribute_size encoding self.now }
    {
        self.value_size().bytes(encoding)
    }
}

/// Attributes of known sizes, and after them an attribute of another size.
#[derive(Clone, Copy)]
pub struct SizedRun {
    // How many bytes the attributes of known sizes have.
    pub(crate) size: TotalSize,
    // The attribute after them.
    pub(crate) next: AttributeSpecification,
}

// The attributes of an abbreviation.
#[derive(Drop)]
enum StoredAttributes {
    // Only one, which takes no memory of its own.
    One(AttributeSpecification),
    // None or more.
    Listed(Vec<AttributeSpecification>),
}

impl StoredAttributes {
    #[inline(always)]
    fn as_slice(&self) -> &[AttributeSpecification]
        ensures gives { result.now ≡ attributes_of self.now }
    {
        match self {
            StoredAttributes::One(attribute) => slice::from_ref(attribute),
            StoredAttributes::Listed(attributes) => attributes.as_slice(),
        }
    }
}

/// What the entries of a code are: their tag, whether they have children, and their attributes.
#[derive(Drop)]
pub struct Abbreviation {
    code: u64,
    tag: DwTag,
    attributes: StoredAttributes,
    // The attributes again, those of known sizes together.
    runs: Vec<SizedRun>,
    // How many bytes the attributes after the runs have.
    last: TotalSize,
    // After the others, where it takes no room to align what follows.
    has_children: bool,
}

impl Model for Abbreviation {
    ghost use Rattle.gimli_read.specs.Abbreviations.{Abbrev};
    ghost use Rattle.gimli_read.specs.SizedRuns.{AreRunsOf};
    ghost use Rattle.gimli_read.specs.StoredAttributes.{attributes_of};

    ghost Value = { Abbrev };

    ghost view = { λ a. record {
      code = a.code;
      tag = a.tag;
      has_children = a.has_children;
      attributes = attributes_of a.attributes;
    } };

    ghost invariant = { λ a. AreRunsOf (attributes_of a.attributes) a.runs.items a.last };
}

impl Abbreviation {
    /// The code that entries begin with. Takes no memory.
    pub fn code(&self) -> u64
        ensures gives { result ≡ self.now.code }
    {
        self.code
    }

    /// What the entries describe. Takes no memory.
    pub fn tag(&self) -> DwTag
        ensures gives { result ≡ self.now.tag }
    {
        self.tag
    }

    /// Whether children follow an entry. Takes no memory.
    pub fn has_children(&self) -> bool
        ensures gives { result ≡ self.now.has_children }
    {
        self.has_children
    }

    /// The attributes of an entry, in the order of their values. Takes no memory.
    pub fn attributes(&self) -> &[AttributeSpecification]
        ensures gives { result.now ≡ self.now.attributes }
    {
        self.attributes.as_slice()
    }

    // The attributes in runs, and how many bytes those after the runs have.
    pub(crate) fn runs(&self) -> (&[SizedRun], TotalSize)
        ensures gives { AreRunsOf self.now.attributes result.0.now result.1 }
    {
        (self.runs.as_slice(), self.last)
    }
}

/// The abbreviations of a unit, by code.
#[derive(Drop)]
pub struct Abbreviations {
    entries: Vec<Abbreviation>,
    // The code of the first abbreviation, once there is one.
    first: u64,
    // By code, where an abbreviation stands whose index isn't how far its code is from the first.
    // Codes mostly go up by one, as 1, 2, 3, ..: then nothing stands here, nor where they go down
    // by one.
    displaced: BTreeMap<u64, usize>,
}

impl Model for Abbreviations {
    ghost use Rattle.std.specs.Prelude.{List};
    ghost use Rattle.gimli_read.specs.Abbreviations.{Abbrev, HasDistinctCodes};
    ghost use Rattle.gimli_read.specs.AbbreviationPlaces.{IsPlaced};

    ghost Value = { List Abbrev };

    ghost view = { λ t. t.entries.items };

    ghost invariant = { λ t. HasDistinctCodes t.entries.items
        × IsPlaced t.entries.items t.first t.displaced };
}

// The next attribute, or none at the end of the list.
#[tactic(auto, unfolding(crate::specs::Abbrev::specification_at))]
fn read_specification<R: Reader>(input: &mut R) -> Result<Option<AttributeSpecification>, Error>
    ensures gives { Reads R.section input.old input.new result specification_at }
{
    let name = input.read_uleb128()?;
    let form = input.read_uleb128()?;
    let is_null_name = name == DwAt::DW_AT_null.0;
    let is_null_form = form == DwForm::DW_FORM_null.0;
    if is_null_name && is_null_form {
        return Ok(None);
    }
    if is_null_name || is_null_form {
        return Err(Error::BadAbbreviation);
    }
    let constant = if form == DwForm::DW_FORM_implicit_const.0 {
        Some(input.read_sleb128()?)
    } else {
        None
    };
    Ok(Some(AttributeSpecification {
        name: DwAt(name),
        form: DwForm(form),
        constant,
    }))
}

// Lists that grow while the attributes of an abbreviation are read, here for their memory alone: what
// an abbreviation keeps is copied from them, without the room that a list which grows has to spare.
#[derive(Drop)]
struct Buffers {
    attributes: Vec<AttributeSpecification>,
    runs: Vec<SizedRun>,
}

// The same elements. Takes no memory where there are none.
fn copied<T: Copy>(alloc: Global, list: &[T]) -> Result<Vec<T>, AllocError>
    ensures gives { IfOk result (λ v. v.items ≡ list.now) }
    ensures none { list.now ≡ [] → IsOk result }
{
    if list.is_empty() {
        return Ok(Vec::new(alloc));
    }
    Vec::from_slice(alloc, list)
}

// The same attributes. Takes no memory where there is one at most.
fn stored(
    alloc: Global,
    attributes: &[AttributeSpecification],
) -> Result<StoredAttributes, AllocError>
    ensures gives { IfOk result (λ a. attributes_of a ≡ attributes.now) }
    ensures none { attributes.now ≡ [] → IsOk result }
    ensures exact { length attributes.now ≡ 1 → IsOk result }
{
    if let [attribute] = attributes {
        return Ok(StoredAttributes::One(*attribute));
    }
    Ok(StoredAttributes::Listed(copied(alloc, attributes)?))
}

// The attributes up to the end of their list.
fn read_specifications<R: Reader>(
    alloc: Global,
    input: &mut R,
    attributes: &mut Vec<AttributeSpecification>,
) -> Result<StoredAttributes, Error>
    ensures gives { ExactlyUnlessOomIf (is_ok (specification_at (R.section input.old)))
        (λ a. (attributes_of a, R.section input.new)) result
        (specifications_at (R.section input.old)) }
{
    attributes.clear();
    while let Some(attribute) = read_specification(input)? {
        attributes.push(attribute)?;
    }
    Ok(stored(alloc, attributes)?)
}

// Attributes in runs, and how many bytes those after the runs have. Refused `OutOfMemory` alone.
fn sized_runs(
    alloc: Global,
    attributes: &[AttributeSpecification],
    runs: &mut Vec<SizedRun>,
) -> Result<(Vec<SizedRun>, TotalSize), Error>
    ensures gives { IfOk result (λ r. AreRunsOf attributes.now r.0.items r.1) }
    ensures refused { IfErr result (λ e. e ≡ OutOfMemory) }
{
    runs.clear();
    let mut last = TotalSize::new();
    for attribute in attributes {
        match last.with(attribute.value_size()) {
            Some(longer) => last = longer,
            None => {
                runs.push(SizedRun {
                    size: last,
                    next: *attribute,
                })?;
                last = TotalSize::new();
            }
        }
    }
    Ok((copied(alloc, runs)?, last))
}

// A tag, and whether children follow.
#[tactic(auto, unfolding(crate::specs::Abbrev::declaration_head_at))]
fn read_head<R: Reader>(input: &mut R) -> Result<(DwTag, bool), Error>
    ensures gives { Reads R.section input.old input.new result declaration_head_at }
{
    let tag = input.read_uleb128()?;
    if tag == DwTag::DW_TAG_null.0 {
        return Err(Error::BadAbbreviation);
    }
    let has_children = match input.read_u8()? {
        DW_CHILDREN_no => false,
        DW_CHILDREN_yes => true,
        _ => return Err(Error::BadAbbreviation),
    };
    Ok((DwTag(tag), has_children))
}

// What follows a code.
#[tactic(auto, unfolding(crate::specs::Abbrev::declaration_at))]
fn read_declaration<R: Reader>(
    alloc: Global,
    input: &mut R,
    code: u64,
    buffers: &mut Buffers,
) -> Result<Abbreviation, Error>
    ensures gives { ReadsUnlessOomIf (is_ok (head_and_pair_at (R.section input.old)))
        R.section input.old input.new result (declaration_at code) }
{
    let (tag, has_children) = read_head(input)?;
    let attributes = read_specifications(alloc, input, &mut buffers.attributes)?;
    let (runs, last) = sized_runs(alloc, attributes.as_slice(), &mut buffers.runs)?;
    Ok(Abbreviation {
        code,
        tag,
        attributes,
        runs,
        last,
        has_children,
    })
}

// The abbreviation at an index, where it has this code.
fn coded_at(table: &[Abbreviation], code: u64, index: usize) -> Option<&Abbreviation>
    ensures found { option_copied result ≡ if_coded code (slice_get table.now index) }
{
    match table.get(index) {
        Some(abbreviation) => {
            if abbreviation.code == code {
                Some(abbreviation)
            } else {
                None
            }
        }
        None => None,
    }
}

// The first code of a table to which this code is added: that code where the table is empty, else
// `first`.
fn first_code_with(table: &[Abbreviation], first: u64, code: u64) -> u64
    ensures gives { result ≡ first_code_with table.now first code }
{
    match table {
        [] => code,
        _ => first,
    }
}

// Notes the index of an abbreviation, where its code says another place.
#[tactic(auto, using(crate::proofs::PlaceLemmas::apart_cmp))]
fn note_place(
    displaced: &mut BTreeMap<u64, usize>,
    code: u64,
    place: u64,
    index: usize,
) -> Result<(), AllocError>
    ensures found { OnOk result (place ≢ index → get nat_cmp displaced.new code ≡ Some index) }
    ensures kept { place ≡ index → displaced.new ≡ displaced.old }
    ensures refused { OnErr result (place ≢ index) }
    ensures after { IsSameApart code displaced.old displaced.new }
{
    if place != index as u64 {
        displaced.insert(code, index)?;
    }
    Ok(())
}

impl Abbreviations {
    /// The abbreviation of a code. Takes no memory.
    pub fn get(&self, code: u64) -> Option<&Abbreviation>
        ensures found { option_copied result ≡ with_code code self.now }
    {
        let place = self.first.abs_diff(code) as usize;
        if let Some(abbreviation) = coded_at(&self.entries, code, place) {
            return Some(abbreviation);
        }
        match self.displaced.get(&code) {
            Some(index) => coded_at(&self.entries, code, *index),
            None => None,
        }
    }

    /// The abbreviations in the order of the table. Takes no memory.
    pub fn as_slice(&self) -> &[Abbreviation]
        ensures gives { result.now ≡ self.now }
    {
        self.entries.as_slice()
    }

    // Whether the table has a code.
    fn has(&self, code: u64) -> bool
        ensures gives { result ≡ is_some (with_code code self.now) }
    {
        self.get(code).is_some()
    }

    // Adds an abbreviation of a code that the table hasn't.
    fn push(&mut self, abbreviation: Abbreviation) -> Result<(), AllocError>
        requires new { with_code abbreviation.code self.old ≡ None }
        ensures gives { OnOk result (self.new ≡ self.old ++ abbreviation ∷ []) }
    {
        let code = abbreviation.code;
        self.first = first_code_with(&self.entries, self.first, code);
        // Before the entry: where that finds no memory, the pair leads to no abbreviation.
        let index = self.entries.as_slice().len();
        note_place(&mut self.displaced, code, self.first.abs_diff(code), index)?;
        self.entries.push(abbreviation)?;
        Ok(())
    }

    // The next abbreviation, or none at the table's end.
    #[tactic(auto, unfolding(crate::specs::Abbrev::abbreviation_at, crate::specs::Abbrev::front_at))]
    fn read_next<R: Reader>(
        &self,
        alloc: Global,
        input: &mut R,
        buffers: &mut Buffers,
    ) -> Result<Option<Abbreviation>, Error>
        ensures gives { ReadsUnlessOomIf (has_front (R.section input.old))
            R.section input.old input.new result (abbreviation_at self.now) }
    {
        if input.is_empty() {
            return Ok(None);
        }
        let code = input.read_uleb128()?;
        if code == CLOSING_CODE {
            return Ok(None);
        }
        if self.has(code) {
            return Err(Error::BadAbbreviation);
        }
        Ok(Some(read_declaration(alloc, input, code, buffers)?))
    }

    /// Reads the table at the front of `.debug_abbrev` from a unit's offset on (DWARF 5, section
    /// 7.5.3).
    ///
    /// Refused `BadAbbreviation` for a repeated code, tag 0, a children byte other than 0 and 1 and
    /// exactly one zero in a pair; `UnexpectedEof` and `BadLeb128` for its numbers; `OutOfMemory`
    /// only after the first pair of the first abbreviation.
    pub fn parse<R: Reader>(alloc: Global, input: R) -> Result<Abbreviations, Error>
        ensures gives { ExactlyUnlessOomIf (has_front (R.section input)) (λ t. t) result
            (table_at (R.section input)) }
    {
        let mut input = input;
        let mut table = Abbreviations {
            entries: Vec::new(alloc),
            first: 0,
            displaced: BTreeMap::new(alloc),
        };
        let mut buffers = Buffers {
            attributes: Vec::new(alloc),
            runs: Vec::new(alloc),
        };
        while let Some(abbreviation) = table.read_next(alloc, &mut input, &mut buffers)? {
            table.push(abbreviation)?;
        }
        Ok(table)
    }
}
