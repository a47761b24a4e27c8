//! Names as they stand in the source, by the style in which they are asked for.

ghost use Rattle.std.specs.Prelude.{◌≡◌, IfOk, IsOkUnless, None, Ok, option_map, string_bytes, unwrap_or};
ghost use Rattle.std.specs.Cow.{cow_str_bytes};
ghost use Rattle.rust_v0.specs.Name.{v0_text, without_llvm, without_prefix};
ghost use Rattle.addr2line_units.specs.LegacyText.{demangled_auto};
ghost use Rattle.addr2line.specs.Common.{OutOfMemory};
ghost use Rattle.addr2line.specs.Names.{demangled_with, v0_text_in};

use addr2line_units::demangle_auto;
use gimli::read::{DwLang, Error};
use std::alloc::Global;
use std::borrow::CowStr;

/// Which names have a text of their own.
#[derive(Clone, Copy, Debug, PartialEq, Eq)]
pub enum Style {
    /// Legacy names of Rust, as `demangle_auto` reads them.
    Legacy,
    /// Names of Rust, legacy ones and those of version 0 of its mangling.
    Rust,
}

/// The text of a v0 name of Rust, and `None` for any other name.
///
/// Refused `OutOfMemory` alone. Takes no memory for a name that doesn't begin as one.
///
/// Source: Rust RFC 2603, as `rust_v0::demangle_v0` has it.
pub fn demangle_v0(alloc: Global, name: &str) -> Result<Option<String>, Error>
    ensures gives { IfOk result (λ found. option_map string_bytes found ≡ v0_text name.now) }
    ensures refused { IsOkUnless result OutOfMemory }
    ensures none { without_prefix (without_llvm name.now) ≡ None → result ≡ Ok None }
{
    Ok(rust_v0::demangle_v0(alloc, name)?)
}

// The text of a v0 name in a language, if that is Rust or unknown.
fn v0_text_in(alloc: Global, name: &str, language: Option<DwLang>) -> Result<Option<String>, Error>
    ensures gives { IfOk result (λ found. option_map string_bytes found
        ≡ v0_text_in (option_map (λ l. l.0) language) name.now) }
    ensures refused { IsOkUnless result OutOfMemory }
    ensures none { without_prefix (without_llvm name.now) ≡ None → result ≡ Ok None }
{
    match language {
        Some(language) if language != DwLang::DW_LANG_Rust => Ok(None),
        _ => demangle_v0(alloc, name),
    }
}

/// The text of a name in its language and a style, and the name itself where it has none.
///
/// Without a language the name is tried as one of Rust. Refused `OutOfMemory` alone. Takes no
/// memory for a name that has no legacy text and doesn't begin as a v0 name.
///
/// Source: own.
pub fn demangle_auto_with<'a>(
    alloc: Global,
    name: CowStr<'a>,
    language: Option<DwLang>,
    style: Style,
) -> Result<CowStr<'a>, Error>
    ensures gives { IfOk result (λ text. cow_str_bytes text
        ≡ unwrap_or (demangled_with style (option_map (λ l. l.0) language)
        (cow_str_bytes name.entry)) (cow_str_bytes name.entry)) }
    ensures refused { IsOkUnless result OutOfMemory }
    ensures none { demangled_auto (option_map (λ l. l.0) language) (cow_str_bytes name.entry) ≡ None
        → without_prefix (without_llvm (cow_str_bytes name.entry)) ≡ None
        → result ≡ Ok name.entry }
{
    match style {
        Style::Legacy => demangle_auto(alloc, name, language),
        Style::Rust => match v0_text_in(alloc, name.as_str(), language)? {
            Some(text) => Ok(CowStr::Owned(text)),
            None => demangle_auto(alloc, name, language),
        },
    }
}
