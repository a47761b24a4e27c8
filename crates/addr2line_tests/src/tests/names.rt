//! Texts of names by their style.

use addr2line::gimli::read::DwLang;
use addr2line::{Style, demangle_auto_with, demangle_v0};
use std::alloc::Global;
use std::borrow::CowStr;

const RUST: Option<DwLang> = Some(DwLang::DW_LANG_Rust);

// DW_LANG_C.
const C: Option<DwLang> = Some(DwLang(2));

// Names, the language of their unit if there is one, and the text that they have there.
const CASES: [(&str, Option<DwLang>, Style, &str); 9] = [
    ("_RNvCs_1a1b", None, Style::Rust, "a::b"),
    ("_RNvCs_1a1b", RUST, Style::Rust, "a::b"),
    ("_RNvCs_1a1b", C, Style::Rust, "_RNvCs_1a1b"),
    ("_RNvCs_1a1b", None, Style::Legacy, "_RNvCs_1a1b"),
    ("_RNvCs_1a1", None, Style::Rust, "_RNvCs_1a1"),
    ("_ZN4test1a2bcE", None, Style::Rust, "test::a::bc"),
    ("_ZN4test1a2bcE", None, Style::Legacy, "test::a::bc"),
    ("_ZN4test1a2bcE", C, Style::Rust, "_ZN4test1a2bcE"),
    ("main", RUST, Style::Rust, "main"),
];

// Whether the name gives the wanted text.
fn gives(alloc: Global, name: &str, language: Option<DwLang>, style: Style, want: &str) -> bool {
    match demangle_auto_with(alloc, CowStr::Borrowed(name), language, style) {
        Ok(text) => text.as_str() == want,
        Err(_) => false,
    }
}

// How many of the cases give what is wanted, up to the first that doesn't.
fn right_cases(alloc: Global) -> usize {
    let mut at = 0usize;
    for (name, language, style, want) in CASES {
        if !gives(alloc, name, language, style, want) {
            return at;
        }
        at = at.saturating_add(1);
    }
    at
}

#[test]
fn a_name_has_the_text_of_its_style(rt: HostRuntime) {
    assert_eq!(rt; right_cases(rt.alloc()), 9);
}

// Whether a v0 name has this text, or a name none.
fn gives_v0(alloc: Global, name: &str, want: Option<&str>) -> bool {
    match demangle_v0(alloc, name) {
        Ok(Some(text)) => want == Some(text.as_str()),
        Ok(None) => want.is_none(),
        Err(_) => false,
    }
}

#[test]
fn a_v0_name_has_a_text(rt: HostRuntime) {
    assert!(rt; gives_v0(rt.alloc(), "_RNvCs_1a1b", Some("a::b")));
    assert!(rt; gives_v0(rt.alloc(), "_ZN4test1a2bcE", None));
}
