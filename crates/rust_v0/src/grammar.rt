//! The grammar: which parts a production is made of.

ghost use Rattle.std.specs.Prelude.{◌≡◌, map, MatchOption};
ghost use Rattle.rust_v0.specs.Grammar.{after_text_reference, bare_parts, basic_parts, braced_parts, compound_parts, head, is_constant, is_type, literal_parts, part_of, parts_of, pattern_parts, tagged, trait_path_parts, type_parts, type_path_parts, value_path_parts};

use crate::numbers::after;

/// What can stand inside something else. What differs by its place has a production for each.
#[derive(Clone, Copy)]
pub(crate) enum Production {
    /// A path inside an expression: `::` stands before its generic arguments.
    ValuePath,
    /// A path inside a type.
    TypePath,
    /// A trait's path, whose last `>` is left to those who add bindings to it.
    TraitPath,
    /// A type.
    AnyType,
    /// A constant that is a generic argument, a binding or a bound: in braces unless a literal.
    BracedConstant,
    /// A constant inside another one, or an array's length.
    BareConstant,
    /// A pattern.
    Pattern,
}

/// What stands in a list.
#[derive(Clone, Copy)]
pub(crate) enum Item {
    /// A generic argument: a lifetime, a constant or a type.
    Argument,
    /// A type.
    TypeItem,
    /// A constant.
    ConstantItem,
    /// A field of a struct: a name and a constant.
    Field,
    /// A trait, with bindings of its items.
    Trait,
    /// A pattern.
    PatternItem,
}

/// What has no production inside.
#[derive(Clone, Copy)]
pub(crate) enum Leaf {
    /// A crate: its number, and its name.
    Root,
    /// The lifetime of a reference, if it has one.
    ReferenceLifetime,
    /// The lifetime of a trait object.
    ObjectLifetime,
    /// The lifetimes that are bound from here on, if there are some.
    Binder,
    /// `U`, if it stands there.
    Unsafety,
    /// The ABI of a function, if there is one.
    Abi,
    /// The number of an integer.
    Integer,
    /// The sign of an integer.
    Sign,
    /// `false` or `true`.
    Boolean,
    /// A character.
    Character,
    /// A string.
    Text,
    /// The last `>` of a trait's path is left out.
    Open,
}

/// A part of a production.
#[derive(Clone, Copy)]
pub(crate) enum Part {
    /// A text that is shown.
    Shown(&'static str),
    /// What has no production inside.
    Single(Leaf),
    /// Another production.
    Inside(Production),
    /// A namespace, the path that it is in, and a name in it.
    Nested(Production),
    /// Where an impl stands, which isn't shown.
    Place,
    /// A place earlier in the name, and the production as it reads from there.
    Reference(Production),
    /// Items up to `E`, and a text between.
    List(Item, &'static str),
    /// The same, after an item.
    More(Item, &'static str),
    /// Types or constants up to `E`, with a comma after one alone.
    Tuple(Item),
    /// Traits under a binder of their own.
    Traits,
    /// What a struct or a variant contains.
    Contents,
    /// The result of a function.
    Returned,
}

static ROOT: [Part; 1] = [Part::Single(Leaf::Root)];

static NESTED_VALUE: [Part; 1] = [Part::Nested(Production::ValuePath)];

static NESTED_TYPE: [Part; 1] = [Part::Nested(Production::TypePath)];

static INHERENT_IMPL: [Part; 4] = [
    Part::Place,
    Part::Shown("<"),
    Part::Inside(Production::AnyType),
    Part::Shown(">"),
];

static TRAIT_IMPL: [Part; 6] = [
    Part::Place,
    Part::Shown("<"),
    Part::Inside(Production::AnyType),
    Part::Shown(" as "),
    Part::Inside(Production::TypePath),
    Part::Shown(">"),
];

static TRAIT_ITEM: [Part; 5] = [
    Part::Shown("<"),
    Part::Inside(Production::AnyType),
    Part::Shown(" as "),
    Part::Inside(Production::TypePath),
    Part::Shown(">"),
];

static GENERIC_VALUE: [Part; 4] = [
    Part::Inside(Production::ValuePath),
    Part::Shown("::<"),
    Part::List(Item::Argument, ", "),
    Part::Shown(">"),
];

static GENERIC_TYPE: [Part; 4] = [
    Part::Inside(Production::TypePath),
    Part::Shown("<"),
    Part::List(Item::Argument, ", "),
    Part::Shown(">"),
];

static GENERIC_TRAIT: [Part; 4] = [
    Part::Inside(Production::TypePath),
    Part::Shown("<"),
    Part::List(Item::Argument, ", "),
    Part::Single(Leaf::Open),
];

static VALUE_PATH_REFERENCE: [Part; 1] = [Part::Reference(Production::ValuePath)];

static TYPE_PATH_REFERENCE: [Part; 1] = [Part::Reference(Production::TypePath)];

static TRAIT_PATH_REFERENCE: [Part; 1] = [Part::Reference(Production::TraitPath)];

/// The parts of a path inside an expression.
#[tactic(auto, unfolding(crate::specs::Grammar::path_parts))]
fn value_path_parts(tag: u8) -> Option<&'static [Part]>
    ensures { MatchOption result (value_path_parts tag ≡ None)
        (λ ps. value_path_parts tag ≡ Some (map part_of ps.now)) }
{
    match tag {
        b'C' => Some(&ROOT),
        b'N' => Some(&NESTED_VALUE),
        b'M' => Some(&INHERENT_IMPL),
        b'X' => Some(&TRAIT_IMPL),
        b'Y' => Some(&TRAIT_ITEM),
        b'I' => Some(&GENERIC_VALUE),
        b'B' => Some(&VALUE_PATH_REFERENCE),
        _ => None,
    }
}

/// The parts of a path inside a type.
#[tactic(auto, unfolding(crate::specs::Grammar::path_parts))]
fn type_path_parts(tag: u8) -> Option<&'static [Part]>
    ensures { MatchOption result (type_path_parts tag ≡ None)
        (λ ps. type_path_parts tag ≡ Some (map part_of ps.now)) }
{
    match tag {
        b'C' => Some(&ROOT),
        b'N' => Some(&NESTED_TYPE),
        b'M' => Some(&INHERENT_IMPL),
        b'X' => Some(&TRAIT_IMPL),
        b'Y' => Some(&TRAIT_ITEM),
        b'I' => Some(&GENERIC_TYPE),
        b'B' => Some(&TYPE_PATH_REFERENCE),
        _ => None,
    }
}

/// The parts of a trait's path.
#[tactic(auto, unfolding(crate::specs::Grammar::trait_path_parts))]
fn trait_path_parts(tag: u8) -> Option<&'static [Part]>
    ensures { MatchOption result (trait_path_parts tag ≡ None)
        (λ ps. trait_path_parts tag ≡ Some (map part_of ps.now)) }
{
    match tag {
        b'I' => Some(&GENERIC_TRAIT),
        b'B' => Some(&TRAIT_PATH_REFERENCE),
        _ => type_path_parts(tag),
    }
}

static SHARED_REFERENCE: [Part; 3] = [
    Part::Shown("&"),
    Part::Single(Leaf::ReferenceLifetime),
    Part::Inside(Production::AnyType),
];

static MUTABLE_REFERENCE: [Part; 4] = [
    Part::Shown("&"),
    Part::Single(Leaf::ReferenceLifetime),
    Part::Shown("mut "),
    Part::Inside(Production::AnyType),
];

static CONST_POINTER: [Part; 2] = [Part::Shown("*const "), Part::Inside(Production::AnyType)];

static MUT_POINTER: [Part; 2] = [Part::Shown("*mut "), Part::Inside(Production::AnyType)];

static SLICE: [Part; 3] = [
    Part::Shown("["),
    Part::Inside(Production::AnyType),
    Part::Shown("]"),
];

static ARRAY: [Part; 5] = [
    Part::Shown("["),
    Part::Inside(Production::AnyType),
    Part::Shown("; "),
    Part::Inside(Production::BareConstant),
    Part::Shown("]"),
];

static TYPE_TUPLE: [Part; 3] = [
    Part::Shown("("),
    Part::Tuple(Item::TypeItem),
    Part::Shown(")"),
];

static FUNCTION_POINTER: [Part; 7] = [
    Part::Single(Leaf::Binder),
    Part::Single(Leaf::Unsafety),
    Part::Single(Leaf::Abi),
    Part::Shown("fn("),
    Part::List(Item::TypeItem, ", "),
    Part::Shown(")"),
    Part::Returned,
];

static TRAIT_OBJECT: [Part; 3] = [
    Part::Shown("dyn "),
    Part::Traits,
    Part::Single(Leaf::ObjectLifetime),
];

static PATTERN_TYPE: [Part; 3] = [
    Part::Inside(Production::AnyType),
    Part::Shown(" is "),
    Part::Inside(Production::Pattern),
];

static TYPE_REFERENCE: [Part; 1] = [Part::Reference(Production::AnyType)];

/// The parts of a type that is made of others.
#[tactic(auto, unfolding(crate::specs::Grammar::compound_parts))]
fn compound_parts(tag: u8) -> Option<&'static [Part]>
    ensures { MatchOption result (compound_parts tag ≡ None)
        (λ ps. compound_parts tag ≡ Some (map part_of ps.now)) }
{
    match tag {
        b'R' => Some(&SHARED_REFERENCE),
        b'Q' => Some(&MUTABLE_REFERENCE),
        b'P' => Some(&CONST_POINTER),
        b'O' => Some(&MUT_POINTER),
        b'S' => Some(&SLICE),
        b'A' => Some(&ARRAY),
        b'T' => Some(&TYPE_TUPLE),
        b'F' => Some(&FUNCTION_POINTER),
        b'D' => Some(&TRAIT_OBJECT),
        b'W' => Some(&PATTERN_TYPE),
        b'B' => Some(&TYPE_REFERENCE),
        _ => None,
    }
}

static BOOL: [Part; 1] = [Part::Shown("bool")];

static CHAR: [Part; 1] = [Part::Shown("char")];

static STR: [Part; 1] = [Part::Shown("str")];

static UNIT: [Part; 1] = [Part::Shown("()")];

static I8: [Part; 1] = [Part::Shown("i8")];

static I16: [Part; 1] = [Part::Shown("i16")];

static I32: [Part; 1] = [Part::Shown("i32")];

static I64: [Part; 1] = [Part::Shown("i64")];

static I128: [Part; 1] = [Part::Shown("i128")];

static ISIZE: [Part; 1] = [Part::Shown("isize")];

static U8: [Part; 1] = [Part::Shown("u8")];

static U16: [Part; 1] = [Part::Shown("u16")];

static U32: [Part; 1] = [Part::Shown("u32")];

static U64: [Part; 1] = [Part::Shown("u64")];

static U128: [Part; 1] = [Part::Shown("u128")];

static USIZE: [Part; 1] = [Part::Shown("usize")];

static F32: [Part; 1] = [Part::Shown("f32")];

static F64: [Part; 1] = [Part::Shown("f64")];

static NEVER: [Part; 1] = [Part::Shown("!")];

static PLACEHOLDER: [Part; 1] = [Part::Shown("_")];

static VARIADIC: [Part; 1] = [Part::Shown("...")];

/// The part of a type that has a letter of its own.
#[tactic(auto, unfolding(crate::specs::Grammar::basic_parts))]
fn basic_parts(tag: u8) -> Option<&'static [Part]>
    ensures { MatchOption result (basic_parts tag ≡ None)
        (λ ps. basic_parts tag ≡ Some (map part_of ps.now)) }
{
    match tag {
        b'b' => Some(&BOOL),
        b'c' => Some(&CHAR),
        b'e' => Some(&STR),
        b'u' => Some(&UNIT),
        b'a' => Some(&I8),
        b's' => Some(&I16),
        b'l' => Some(&I32),
        b'x' => Some(&I64),
        b'n' => Some(&I128),
        b'i' => Some(&ISIZE),
        b'h' => Some(&U8),
        b't' => Some(&U16),
        b'm' => Some(&U32),
        b'y' => Some(&U64),
        b'o' => Some(&U128),
        b'j' => Some(&USIZE),
        b'f' => Some(&F32),
        b'd' => Some(&F64),
        b'z' => Some(&NEVER),
        b'p' => Some(&PLACEHOLDER),
        b'v' => Some(&VARIADIC),
        _ => None,
    }
}

/// The parts of a type that is no path, without the `w` that may stand before it.
#[tactic(auto, unfolding(crate::specs::Grammar::type_parts))]
fn type_parts(tag: u8) -> Option<&'static [Part]>
    ensures { MatchOption result (type_parts tag ≡ None)
        (λ ps. type_parts tag ≡ Some (map part_of ps.now)) }
{
    match basic_parts(tag) {
        Some(parts) => Some(parts),
        None => compound_parts(tag),
    }
}

static UNSIGNED: [Part; 1] = [Part::Single(Leaf::Integer)];

static SIGNED: [Part; 2] = [Part::Single(Leaf::Sign), Part::Single(Leaf::Integer)];

static BOOLEAN: [Part; 1] = [Part::Single(Leaf::Boolean)];

static CHARACTER: [Part; 1] = [Part::Single(Leaf::Character)];

/// The parts of a constant that is a literal, but for a string.
#[tactic(auto, unfolding(crate::specs::Grammar::literal_parts))]
fn literal_parts(tag: u8) -> Option<&'static [Part]>
    ensures { MatchOption result (literal_parts tag ≡ None)
        (λ ps. literal_parts tag ≡ Some (map part_of ps.now)) }
{
    match tag {
        b'p' => Some(&PLACEHOLDER),
        b'h' | b't' | b'm' | b'y' | b'o' | b'j' => Some(&UNSIGNED),
        b'a' | b's' | b'l' | b'x' | b'n' | b'i' => Some(&SIGNED),
        b'b' => Some(&BOOLEAN),
        b'c' => Some(&CHARACTER),
        _ => None,
    }
}

static TEXT: [Part; 1] = [Part::Single(Leaf::Text)];

static BRACED_TEXT: [Part; 3] = [
    Part::Shown("{*"),
    Part::Single(Leaf::Text),
    Part::Shown("}"),
];

static BRACED_REFERENCE: [Part; 3] = [
    Part::Shown("{&"),
    Part::Inside(Production::BareConstant),
    Part::Shown("}"),
];

static BRACED_MUTABLE: [Part; 3] = [
    Part::Shown("{&mut "),
    Part::Inside(Production::BareConstant),
    Part::Shown("}"),
];

static BRACED_ARRAY: [Part; 3] = [
    Part::Shown("{["),
    Part::List(Item::ConstantItem, ", "),
    Part::Shown("]}"),
];

static BRACED_TUPLE: [Part; 3] = [
    Part::Shown("{("),
    Part::Tuple(Item::ConstantItem),
    Part::Shown(")}"),
];

static BRACED_VARIANT: [Part; 4] = [
    Part::Shown("{"),
    Part::Inside(Production::ValuePath),
    Part::Contents,
    Part::Shown("}"),
];

static BRACED_BACK: [Part; 1] = [Part::Reference(Production::BracedConstant)];

/// The parts of a constant in braces that is no literal.
#[tactic(auto, unfolding(crate::specs::Grammar::braced_parts))]
fn braced_parts(tag: u8) -> Option<&'static [Part]>
    ensures { MatchOption result (braced_parts tag ≡ None)
        (λ ps. braced_parts tag ≡ Some (map part_of ps.now)) }
{
    match tag {
        b'e' => Some(&BRACED_TEXT),
        b'R' => Some(&BRACED_REFERENCE),
        b'Q' => Some(&BRACED_MUTABLE),
        b'A' => Some(&BRACED_ARRAY),
        b'T' => Some(&BRACED_TUPLE),
        b'V' => Some(&BRACED_VARIANT),
        b'B' => Some(&BRACED_BACK),
        _ => literal_parts(tag),
    }
}

static BARE_TEXT: [Part; 2] = [Part::Shown("*"), Part::Single(Leaf::Text)];

static BARE_REFERENCE: [Part; 2] = [Part::Shown("&"), Part::Inside(Production::BareConstant)];

static BARE_MUTABLE: [Part; 2] = [Part::Shown("&mut "), Part::Inside(Production::BareConstant)];

static BARE_ARRAY: [Part; 3] = [
    Part::Shown("["),
    Part::List(Item::ConstantItem, ", "),
    Part::Shown("]"),
];

static BARE_TUPLE: [Part; 3] = [
    Part::Shown("("),
    Part::Tuple(Item::ConstantItem),
    Part::Shown(")"),
];

static BARE_VARIANT: [Part; 2] = [Part::Inside(Production::ValuePath), Part::Contents];

static BARE_BACK: [Part; 1] = [Part::Reference(Production::BareConstant)];

/// The parts of a constant inside another one that is no literal.
#[tactic(auto, unfolding(crate::specs::Grammar::bare_parts))]
fn bare_parts(tag: u8) -> Option<&'static [Part]>
    ensures { MatchOption result (bare_parts tag ≡ None)
        (λ ps. bare_parts tag ≡ Some (map part_of ps.now)) }
{
    match tag {
        b'e' => Some(&BARE_TEXT),
        b'R' => Some(&BARE_REFERENCE),
        b'Q' => Some(&BARE_MUTABLE),
        b'A' => Some(&BARE_ARRAY),
        b'T' => Some(&BARE_TUPLE),
        b'V' => Some(&BARE_VARIANT),
        b'B' => Some(&BARE_BACK),
        _ => literal_parts(tag),
    }
}

static RANGE: [Part; 3] = [
    Part::Inside(Production::BracedConstant),
    Part::Shown("..="),
    Part::Inside(Production::BracedConstant),
];

static ALTERNATIVES: [Part; 2] = [
    Part::Inside(Production::Pattern),
    Part::More(Item::PatternItem, " | "),
];

static NOT_NULL: [Part; 1] = [Part::Shown("!null")];

/// The parts of a pattern.
#[tactic(auto, unfolding(crate::specs::Grammar::pattern_parts))]
fn pattern_parts(tag: u8) -> Option<&'static [Part]>
    ensures { MatchOption result (pattern_parts tag ≡ None)
        (λ ps. pattern_parts tag ≡ Some (map part_of ps.now)) }
{
    match tag {
        b'R' => Some(&RANGE),
        b'O' => Some(&ALTERNATIVES),
        b'N' => Some(&NOT_NULL),
        _ => None,
    }
}

/// The parts of a production that begins with that tag.
fn parts_of(production: Production, tag: u8) -> Option<&'static [Part]>
    ensures { MatchOption result (parts_of production tag ≡ None)
        (λ ps. parts_of production tag ≡ Some (map part_of ps.now)) }
{
    match production {
        Production::ValuePath => value_path_parts(tag),
        Production::TypePath => type_path_parts(tag),
        Production::TraitPath => trait_path_parts(tag),
        Production::AnyType => type_parts(tag),
        Production::BracedConstant => braced_parts(tag),
        Production::BareConstant => bare_parts(tag),
        Production::Pattern => pattern_parts(tag),
    }
}

static PATH_TYPE: [Part; 1] = [Part::Inside(Production::TypePath)];

/// Whether the production is a constant.
fn is_constant(production: Production) -> bool
    ensures { result ≡ is_constant production }
{
    match production {
        Production::BracedConstant | Production::BareConstant => true,
        Production::ValuePath
        | Production::TypePath
        | Production::TraitPath
        | Production::AnyType
        | Production::Pattern => false,
    }
}

/// Whether the production is a type: it may be a path, which has no tag of its own there.
pub(crate) fn is_type(production: Production) -> bool
    ensures { result ≡ is_type production }
{
    match production {
        Production::AnyType => true,
        Production::ValuePath
        | Production::TypePath
        | Production::TraitPath
        | Production::BracedConstant
        | Production::BareConstant
        | Production::Pattern => false,
    }
}

/// What follows the tags of a reference to a string.
fn after_text_reference(production: Production, bytes: &[u8]) -> Option<&[u8]>
    ensures { MatchOption result (after_text_reference production bytes.now ≡ None)
        (λ rest. after_text_reference production bytes.now ≡ Some rest.now) }
{
    if is_constant(production) {
        after(b'e', after(b'R', bytes)?)
    } else {
        None
    }
}

/// The parts of a production that begins with a tag, and the bytes after that.
///
/// A path that is a type has no tag of its own.
fn tagged(production: Production, bytes: &[u8]) -> Option<(&'static [Part], &[u8])>
    ensures { MatchOption result (tagged production bytes.now ≡ None)
        (λ h. tagged production bytes.now ≡ Some (map part_of h.0.now, h.1.now)) }
{
    let (tag, rest) = bytes.split_first()?;
    match parts_of(production, *tag) {
        Some(parts) => Some((parts, rest)),
        None => {
            if is_type(production) {
                Some((&PATH_TYPE, bytes))
            } else {
                None
            }
        }
    }
}

/// The parts of the production that stands here, and the bytes after its tag.
#[tactic(auto, unfolding(crate::specs::Grammar::head))]
pub(crate) fn head(production: Production, bytes: &[u8]) -> Option<(&'static [Part], &[u8])>
    ensures { MatchOption result (head production bytes.now ≡ None)
        (λ h. head production bytes.now ≡ Some (map part_of h.0.now, h.1.now)) }
{
    match after_text_reference(production, bytes) {
        Some(rest) => Some((&TEXT, rest)),
        None => tagged(production, bytes),
    }
}
