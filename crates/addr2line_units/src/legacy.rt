//! Legacy names of Rust: their parts, and their texts.

ghost use Rattle.std.specs.Prelude.{◌≡◌, ◌<◌, ◌++◌, ◌&&◌, ◌≢◌, is_none, length, IfSome, OnOk, MatchOption, string_bytes, true, IfOk, IsOkUnless, option_map, unwrap_or};
ghost use Rattle.std.specs.Char.{is_ascii};
ghost use Rattle.std.specs.List.{list_all};
ghost use Rattle.std.specs.Cow.{cow_str_bytes};
ghost use Rattle.gimli_read.specs.declared.constants.TheConstants.DwLang.{DW_LANG_Rust};
ghost use Rattle.addr2line_units.specs.Common.{OutOfMemory};
ghost use Rattle.addr2line_units.specs.LegacyElements.{is_hash};
ghost use Rattle.addr2line_units.specs.LegacyName.{is_llvm_byte, is_suffix, is_suffix_byte};
ghost use Rattle.addr2line_units.specs.LegacyText.{ascii_front, element_at, elements_at, elements_text, legacy_text, suffix_at, without_llvm, without_prefix, demangled, demangled_auto};

mod digits;
mod plain;

use crate::legacy::digits::{digits_len, is_ascii_text, is_hex_text, number_up_to};
use crate::legacy::plain::{push_ascii, push_element};
use gimli::read::{DwLang, Error};
use std::alloc::{AllocError, Global};
use std::borrow::CowStr;

/// The parts of a legacy name that its text is made of.
#[derive(Clone, Copy)]
pub(crate) struct LegacyName<'a> {
    /// The elements after their lengths; what follows them isn't read.
    elements: &'a [u8],
    /// What follows the `E`, all of it ASCII.
    suffix: &'a [u8],
}

impl<'a> LegacyName<'a> {
    /// The parts of a legacy name, and `None` where it is none.
    #[tactic(auto, unfolding(crate::specs::LegacyText::legacy_text, crate::specs::LegacyText::spelled_text))]
    pub(crate) fn read(name: &'a [u8]) -> Option<LegacyName<'a>>
        ensures gives { MatchOption result (legacy_text name.now ≡ None) (λ parts.
            legacy_text name.now ≡ Some (elements_text parts.elements.now ++ parts.suffix.now)) }
        ensures within { IfSome result (λ parts. list_all is_ascii parts.suffix.now ≡ true) }
    {
        let elements = strip_start(strip_llvm(name))?;
        let _first = element_in(elements)?;
        let suffix = suffix_in(after_elements(elements))?;
        Some(LegacyName { elements, suffix })
    }

    /// Adds the text of the name.
    pub(crate) fn push_to(&self, out: &mut String) -> Result<(), AllocError>
        requires { list_all is_ascii self.now.suffix.now ≡ true }
        ensures { OnOk result (string_bytes out.new ≡ string_bytes out.old
            ++ (elements_text self.now.elements.now ++ self.now.suffix.now)) }
    {
        push_elements(out, self.elements)?;
        push_ascii(out, self.suffix)
    }
}

/// The text of a legacy name of Rust, and `None` for any other name and in any other language.
///
/// A legacy name is `_ZN`, `ZN` or `__ZN`, one or more elements, each after its decimal length,
/// `E`, and a suffix, which is empty or begins with a dot. Its text is the elements with `::`
/// between them and their escapes read, without a last one that is a hash, and then the suffix.
/// Refused `OutOfMemory` alone. Takes no memory where the answer is `None`.
///
/// Source: the mangling that rustc calls legacy. Own: one element at least, and which suffixes.
#[tactic(auto, unfolding(crate::specs::LegacyText::demangled))]
pub fn demangle(alloc: Global, name: &str, language: DwLang) -> Result<Option<String>, Error>
    ensures gives { IfOk result (λ found. option_map string_bytes found
        ≡ demangled language.0 name.now) }
    ensures refused { IsOkUnless result OutOfMemory }
    ensures none { demangled language.0 name.now ≡ None → result ≡ Ok None }
    ensures memory { language.0 ≢ DW_LANG_Rust.0 → result ≡ Ok None }
{
    if language != DwLang::DW_LANG_Rust {
        return Ok(None);
    }
    let Some(parts) = LegacyName::read(name.as_bytes()) else {
        return Ok(None);
    };
    let mut text = String::new(alloc);
    parts.push_to(&mut text)?;
    Ok(Some(text))
}

/// The text of a name in its language, and the name itself where `demangle` gives `None`.
///
/// Without a language the name is tried as one of Rust. Refused `OutOfMemory` alone. Takes no
/// memory where the name is given back.
///
/// Source: own.
pub fn demangle_auto<'a>(
    alloc: Global,
    name: CowStr<'a>,
    language: Option<DwLang>,
) -> Result<CowStr<'a>, Error>
    ensures gives { IfOk result (λ text. cow_str_bytes text
        ≡ unwrap_or (demangled_auto (option_map (λ l. l.0) language) (cow_str_bytes name.entry))
        (cow_str_bytes name.entry)) }
    ensures refused { IsOkUnless result OutOfMemory }
    ensures none { demangled_auto (option_map (λ l. l.0) language) (cow_str_bytes name.entry) ≡ None
        → result ≡ Ok name.entry }
    ensures memory { IfSome language (λ l. l.0 ≢ DW_LANG_Rust.0 → result ≡ Ok name.entry) }
{
    match demangle(
        alloc,
        name.as_str(),
        language.unwrap_or(DwLang::DW_LANG_Rust),
    )? {
        Some(text) => Ok(CowStr::Owned(text)),
        None => Ok(name),
    }
}

/// Whether all that follows a mark of LLVM is its own.
fn is_llvm_text(bytes: &[u8]) -> bool
    ensures { result ≡ list_all is_llvm_byte bytes.now }
{
    bytes
        .iter()
        .all(|b| matches!(*b, b'A'..=b'F' | b'0'..=b'9' | b'@'))
}

/// Whether only letters, digits and punctuation stand there.
fn is_suffix_text(bytes: &[u8]) -> bool
    ensures { result ≡ list_all is_suffix_byte bytes.now }
{
    bytes
        .iter()
        .all(|b| b.is_ascii_alphanumeric() || b.is_ascii_punctuation())
}

/// The name up to the first mark of LLVM, where only such bytes follow it.
#[tactic(auto, using(crate::proofs::LegacySteps::mark_more, crate::proofs::LegacySteps::mark_found))]
fn strip_llvm(name: &[u8]) -> &[u8]
    ensures { result.now ≡ without_llvm name.now }
{
    for at in 0..name.len() {
        let (front, back) = name.split_at(at);
        let mark = b".llvm.";
        if back.starts_with(mark.as_slice()) {
            return if is_llvm_text(&back[mark.len()..]) {
                front
            } else {
                name
            };
        }
    }
    name
}

/// What follows the prefix.
#[tactic(auto, unfolding(crate::specs::LegacyText::without_prefix))]
fn strip_start(name: &[u8]) -> Option<&[u8]>
    ensures { MatchOption result (without_prefix name.now ≡ None)
        (λ rest. without_prefix name.now ≡ Some rest.now) }
{
    if name.starts_with(b"_ZN".as_slice()) {
        Some(&name[b"_ZN".len()..])
    } else if name.starts_with(b"ZN".as_slice()) {
        Some(&name[b"ZN".len()..])
    } else if name.starts_with(b"__ZN".as_slice()) {
        Some(&name[b"__ZN".len()..])
    } else {
        None
    }
}

/// The first bytes, if they are ASCII and there are so many, and those after them.
fn split_ascii(bytes: &[u8], len: u64) -> Option<(&[u8], &[u8])>
    ensures { MatchOption result (ascii_front len bytes.now ≡ None)
        (λ e. ascii_front len bytes.now ≡ Some (e.0.now, e.1.now)) }
{
    if len > bytes.len() as u64 {
        return None;
    }
    let (front, rest) = bytes.split_at(len as usize);
    if is_ascii_text(front) {
        Some((front, rest))
    } else {
        None
    }
}

/// The element after its decimal length, and what follows it.
#[tactic(auto, unfolding(crate::specs::LegacyText::element_at))]
fn element_in(text: &[u8]) -> Option<(&[u8], &[u8])>
    ensures gives { MatchOption result (element_at text.now ≡ None)
        (λ e. element_at text.now ≡ Some (e.0.now, e.1.now)) }
    ensures shorter { IfSome result (λ e. length e.1.now < length text.now) }
    ensures within { IfSome result (λ e. list_all is_ascii e.0.now ≡ true) }
{
    let (digits, rest) = text.split_at(digits_len(text));
    if digits.is_empty() {
        return None;
    }
    split_ascii(rest, number_up_to(digits, 10, rest.len() as u64)?)
}

/// What follows the elements.
#[tactic(auto, using(crate::proofs::LegacySteps::rest_some, crate::proofs::LegacySteps::rest_none))]
fn after_elements(text: &[u8]) -> &[u8]
    ensures { result.now ≡ (elements_at text.now).1 }
{
    let mut rest = text;
    while let Some((_, after)) = element_in(rest) {
        rest = after;
    }
    rest
}

/// Whether it may follow the `E`.
fn may_follow(text: &[u8]) -> bool
    ensures { result ≡ is_suffix text.now }
{
    match text.first() {
        Some(first) => *first == b'.' && is_suffix_text(text),
        None => true,
    }
}

/// The suffix after the `E`.
#[tactic(auto, using(crate::proofs::LegacySteps::suffix_is_text), unfolding(crate::specs::LegacyText::suffix_at))]
fn suffix_in(rest: &[u8]) -> Option<&[u8]>
    ensures gives { MatchOption result (suffix_at rest.now ≡ None)
        (λ suffix. suffix_at rest.now ≡ Some suffix.now) }
    ensures within { IfSome result (λ suffix. list_all is_ascii suffix.now ≡ true) }
{
    let (first, suffix) = rest.split_first()?;
    if *first == b'E' && may_follow(suffix) {
        Some(suffix)
    } else {
        None
    }
}

/// Whether an element is a hash.
fn is_hash_element(element: &[u8]) -> bool
    ensures { result ≡ is_hash element.now }
{
    match element.split_first() {
        Some((first, rest)) => *first == b'h' && is_hex_text(rest),
        None => false,
    }
}

/// Whether an element with this after it is left out: a hash, and the last.
fn is_left_out(element: &[u8], after: &[u8]) -> bool
    ensures { result ≡ (is_hash element.now && is_none (element_at after.now)) }
{
    is_hash_element(element) && element_in(after).is_none()
}

/// Adds the text of the elements.
#[tactic(auto, using(crate::proofs::LegacySteps::left_kept, crate::proofs::LegacySteps::left_hash, crate::proofs::LegacySteps::left_none), unfolding(crate::specs::LegacyText::elements_text))]
fn push_elements(out: &mut String, elements: &[u8]) -> Result<(), AllocError>
    ensures { OnOk result (string_bytes out.new ≡
        string_bytes out.old ++ elements_text elements.now) }
{
    let mut rest = elements;
    let mut is_first = true;
    while let Some((element, after)) = element_in(rest) {
        if !is_left_out(element, after) {
            push_element(out, element, is_first)?;
        }
        is_first = false;
        rest = after;
    }
    Ok(())
}
