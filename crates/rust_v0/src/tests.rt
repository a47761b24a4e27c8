//! Names and their texts, of RFC 2603, rustc and rustc-demangle 0.1.28; the texts of characters past
//! ASCII between quotes, and most of the names that have none, are by this crate's own rules.

use crate::demangle_v0;
use std::alloc::{AllocError, Global};

// Crates and nested paths.
const CRATES_NESTED_PATHS: [(&str, &str); 11] = [
    ("_RC4f128", "f128"),
    ("_RCs3_4core", "core"),
    ("_RNvCs_1a1b", "a::b"),
    ("_RNvC2_1a2_2b", "1a::2b"),
    ("_RNvNtNtC1a1b1c1d", "a::b::c::d"),
    ("_RNCNvC1a4main0", "a::main::{closure#0}"),
    (
        "_RNCNCNvC1a4mains_0s0_0",
        "a::main::{closure#1}::{closure#2}",
    ),
    ("_RNSNvC1a1b6vtable", "a::b::{shim:vtable#0}"),
    ("_RNKNvC1a1C0", "a::C::{K#0}"),
    ("_RNcNtC1a1S0", "a::S"),
    ("_RNZC1a1bC1c", "a::{Z:b#0}"),
];

// Impls and traits.
const IMPLS_TRAITS: [(&str, &str); 6] = [
    ("_RNvMC1aNtB2_1S1f", "<a::S>::f"),
    ("_RNvMs0_C1aNtB5_1S1f", "<a::S>::f"),
    ("_RNvXC1aNtB2_1SNtB2_1T1f", "<a::S as a::T>::f"),
    ("_RNvYNtC1a1SNtB4_1T1f", "<a::S as a::T>::f"),
    ("_RNvYmNtC1a1T1f", "<u32 as a::T>::f"),
    (
        "_RNCNvXs_NvC1a1gNtC1a1SNtC1b1T1f0",
        "<a::S as b::T>::f::{closure#0}",
    ),
];

// Generic arguments, lifetimes.
const GENERIC_ARGUMENTS_LIFETIMES: [(&str, &str); 6] = [
    ("_RINvC1a1fmE", "a::f::<u32>"),
    ("_RNvMC1aINtC1a1VINtC1a1VmEE1f", "<a::V<a::V<u32>>>::f"),
    ("_RINvC1a1fE", "a::f::<>"),
    ("_RNvINvC1a1fmE1g", "a::f::<u32>::g"),
    ("_RINvMC1aINtC1a1VmE1fhE", "<a::V<u32>>::f::<u8>"),
    ("_RINvC1a1fL_mKj3_E", "a::f::<'_, u32, 3>"),
];

// Types.
const TYPES: [(&str, &str); 25] = [
    (
        "_RINvC1a1fbceuaslxnihE",
        "a::f::<bool, char, str, (), i8, i16, i32, i64, i128, isize, u8>",
    ),
    (
        "_RINvC1a1ftmyojfdzpvE",
        "a::f::<u16, u32, u64, u128, usize, f32, f64, !, _, ...>",
    ),
    (
        "_RINvC1a1fRmQmPmOmE",
        "a::f::<&u32, &mut u32, *const u32, *mut u32>",
    ),
    ("_RINvC1a1fRL_mQL_mE", "a::f::<&u32, &mut u32>"),
    (
        "_RINvC1a1fSmAmj4_TETmETmhEE",
        "a::f::<[u32], [u32; 4], (), (u32,), (u32, u8)>",
    ),
    ("_RINvC1a1fFEuE", "a::f::<fn()>"),
    ("_RINvC1a1fFmhEmE", "a::f::<fn(u32, u8) -> u32>"),
    (
        "_RINvC1a1fFUKCmvElE",
        "a::f::<unsafe extern \"C\" fn(u32, ...) -> i32>",
    ),
    (
        "_RINvC1a1fFK8C_unwindEzE",
        "a::f::<extern \"C-unwind\" fn() -> !>",
    ),
    (
        "_RINvC1a1fFG_RL0_hERL0_hE",
        "a::f::<for<'a> fn(&'a u8) -> &'a u8>",
    ),
    (
        "_RINvC1a1fFG0_RL1_hQL0_hEuE",
        "a::f::<for<'a, 'b> fn(&'a u8, &'b mut u8)>",
    ),
    (
        "_RINvC1a1fFG_FG_RL1_hRL0_hEuEuE",
        "a::f::<for<'a> fn(for<'b> fn(&'a u8, &'b u8))>",
    ),
    (
        "_RINvC1a1fFGp_RLq_hRL0_hEuE",
        "a::f::<for<'a, 'b, 'c, 'd, 'e, 'f, 'g, 'h, 'i, 'j, 'k, 'l, 'm, 'n, 'o, 'p, 'q, 'r, 's, 't, 'u, 'v, 'w, 'x, 'y, 'z, '_26> fn(&'a u8, &'_26 u8)>",
    ),
    ("_RINvC1a1fDNtC1b1TEL_E", "a::f::<dyn b::T>"),
    ("_RINvC1a1fDNtC1b1TNtC1b1UEL_E", "a::f::<dyn b::T + b::U>"),
    (
        "_RINvC1a1fDINtC1b1TmEp1AhEL_E",
        "a::f::<dyn b::T<u32, A = u8>>",
    ),
    (
        "_RINvC1a1fDNtC1b1Tp1Ahp1NKj3_EL_E",
        "a::f::<dyn b::T<A = u8, N = 3>>",
    ),
    (
        "_RINvC1a1fDG_INtC1b1TRL0_hEEL_E",
        "a::f::<dyn for<'a> b::T<&'a u8>>",
    ),
    (
        "_RINvC1a1fFG_RL0_DNtC1b1TEL0_EuE",
        "a::f::<for<'a> fn(&'a dyn b::T + 'a)>",
    ),
    (
        "_RINvC1a1fDINtC1b1TmEEL_DB8_p1AhEL_E",
        "a::f::<dyn b::T<u32>, dyn b::T<u32, A = u8>>",
    ),
    ("_RINvC1a1fDEL_E", "a::f::<dyn >"),
    ("_RINvC1a1fFwTmEEuE", "a::f::<fn(#[splat] (u32,))>"),
    ("_RINvC1a1fWmRm1_m9_E", "a::f::<u32 is 1..=9>"),
    (
        "_RINvC1a1fWcORc61_c66_Rc30_c39_EE",
        "a::f::<char is 'a'..='f' | '0'..='9'>",
    ),
    ("_RINvC1a1fWPmNE", "a::f::<*const u32 is !null>"),
];

// Constants.
const CONSTANTS: [(&str, &str); 18] = [
    (
        "_RINvC1a1fKj0_Kj7b_Kyffffffffffffffff_E",
        "a::f::<0, 123, 18446744073709551615>",
    ),
    (
        "_RINvC1a1fKo10000000000000000_Kj00000000000000000001_E",
        "a::f::<0x10000000000000000, 1>",
    ),
    ("_RINvC1a1fKan80_Kln1_Kan0_E", "a::f::<-128, -1, -0>"),
    ("_RINvC1a1fKb0_Kb1_Kb_KpE", "a::f::<false, true, false, _>"),
    (
        "_RINvC1a1fKc61_Kc27_Kc22_Kca_Kc0_Kc5c_E",
        "a::f::<'a', '\\'', '\"', '\\n', '\\0', '\\\\'>",
    ),
    (
        "_RINvC1a1fKc2202_Kc301_Kc200b_E",
        "a::f::<'\\u{2202}', '\\u{301}', '\\u{200b}'>",
    ),
    (
        "_RINvC1a1fKRe6162_Ke6162_KRe_E",
        "a::f::<\"ab\", {*\"ab\"}, \"\">",
    ),
    (
        "_RINvC1a1fKRe27225c0a00c3bc_E",
        "a::f::<\"'\\\"\\\\\\n\\0\\u{fc}\">",
    ),
    (
        "_RINvC1a1fKRh1_KQh1_KRRc61_E",
        "a::f::<{&1}, {&mut 1}, {&&'a'}>",
    ),
    ("_RINvC1a1fKAEKAh1_h2_EE", "a::f::<{[]}, {[1, 2]}>"),
    (
        "_RINvC1a1fKTEKTh1_EKTh1_b1_EE",
        "a::f::<{()}, {(1,)}, {(1, true)}>",
    ),
    ("_RINvC1a1fKVNtC1b1UUE", "a::f::<{b::U}>"),
    (
        "_RINvC1a1fKVNvNtC1b1E1VTh1_VNtC1b1UUEE",
        "a::f::<{b::E::V(1, b::U)}>",
    ),
    (
        "_RINvC1a1fKVNtC1b1PS1xan1_1yRe61_EE",
        "a::f::<{b::P { x: -1, y: \"a\" }}>",
    ),
    ("_RINvC1a1fKVNtC1b1PSEE", "a::f::<{b::P {  }}>"),
    (
        "_RINvC1a1fKVINtC1b1GINtC1b1GhEES1fVINtC1b1GhETh1_EEE",
        "a::f::<{b::G::<b::G<u8>> { f: b::G::<u8>(1) }}>",
    ),
    (
        "_RINvC1a1fKTh1_EKB8_KAB8_EE",
        "a::f::<{(1,)}, {(1,)}, {[(1,)]}>",
    ),
    (
        "_RINvC1a1fKanffffffffffffffffff_E",
        "a::f::<-0xffffffffffffffffff>",
    ),
];

// Identifiers.
const IDENTIFIERS: [(&str, &str); 8] = [
    ("_RNvC1au6f_5gaa", "a::føø"),
    ("_RNvC1au4fq9h", "a::🤦"),
    ("_RNvC1au9gre_6ka8i", "a::größe"),
    ("_RNvC1au3zzz", "a::箥"),
    ("_RNvC1au5abc_A", "a::punycode{abc-A}"),
    ("_RNvC1au1z", "a::punycode{z}"),
    ("_RNvC1a0", "a"),
    ("_RNCNvC1a1b3foo", "a::b::{closure:foo#0}"),
];

// Back references.
const BACK_REFERENCES: [(&str, &str); 3] = [
    (
        "_RINvC1a1fTmhEB7_RB7_E",
        "a::f::<(u32, u8), (u32, u8), &(u32, u8)>",
    ),
    ("_RINvC1a1fNtNtB2_1b1cB7_E", "a::f::<a::b::c, a::b::c>"),
    ("_RINvC1a1fTTTpBa_EEEE", "a::f::<(((_, _),),)>"),
];

// Prefixes, crates that made the instance, suffixes.
const PREFIXES_SUFFIXES: [(&str, &str); 8] = [
    ("_RNvC1a1bC1c", "a::b"),
    ("_RNvC1a1b.cold", "a::b.cold"),
    ("_RNvC1a1b.llvm.12AB@3", "a::b"),
    ("_RNvC1a1b.llvm.12ab", "a::b.llvm.12ab"),
    ("_RNvC1a1b.llvm.12AB.cold", "a::b.llvm.12AB.cold"),
    ("_RNvC1a1bC1c.0.1", "a::b.0.1"),
    ("RNvC1a1b", "a::b"),
    ("__RNvC1a1b", "a::b"),
];

// Names that few programs write: references to any place, into a word; other bytes in a word; no bytes.
const ODD_REFERENCES: [(&str, &str); 5] = [
    ("_RINvC1a1fB2_E", "a::f::<a>"),
    ("_RINvC1a1fB0_hE", "a::f::<a::f, u8>"),
    ("_RINvC1a1fTB4_hEmE", "a::f::<(i8, u8), u32>"),
    ("_RC3a-b", "a-b"),
    ("_RC0", ""),
];

// No names: cut, of another version, with a digit, tag or place that is none, too deep, too long.
const NONE: [&str; 45] = [
    "_R",
    "_RN",
    "_RNvC1a",
    "_RNvC1a9bc",
    "_RNvC1a1b_x",
    "_RNvC1a1b.a b",
    "_R0NvC1a1b",
    "_RN0C1a1b",
    "_RQC1a1b",
    "_RNvC1au0_",
    "_RINvC1a1fm",
    "_RINvC1a1fKb2_E",
    "_RINvC1a1fKcd800_E",
    "_RINvC1a1fKRe6_E",
    "_RINvC1a1fKReff_E",
    "_RINvC1a1fDNtC1b1TE_E",
    "_RINvC1a1fFK0EuE",
    "_RNvCsZZZZZZZZZZZ_1a1b",
    "_RINvC1a1fWmOE",
    "_RNvC1aé1b",
    "_RINvC1a1fB8_E",
    "_RINvC1a1fRL0_hE",
    "_RINvC1a1fhRL0_hE",
    "_RNvB_1a",
    "_RMC1aFGZZZZ_Eu",
    "_RXC1amB_",
    "_RINvC1a1fB3_E",
    "_RINvC1a1fTB8_EE",
    "_RC4ab_",
    "_RNvC1a1bC1",
    "_RINvC1a1fFG_DNtC1b1TEL1_EuE",
    "_RINvC1a1fDEE",
    "_RINvC1a1fLlYGhA16ahyf_E",
    "_RINvC1a1fFG_FGlYGhA16ahyd_EuEuE",
    "_RINvC1a1fKj0E",
    "_RINvC1a1fKb10000000000000000_E",
    "_RINvC1a1fKVC1aXE",
    "_RINvC1a1fwwmE",
    "_RNvC1asZZZZZZZZZZZ_1b",
    "_RNvMsZZZZZZZZZZZ_C1am1f",
    "_RINvC1a1fKVC1bSsZZZZZZZZZZZ_1xh1_EE",
    "_RINvC1a1fKVC1bSh1_EE",
    "_RINvC1a1fDC1bpAhEL_E",
    "_RINvC1a1fRLlYGhA16ahyf_hE",
    "_RINvC1a1fFGlYGhA16ahye_EuE",
];

// Pairs of pairs, the second of each a reference to the first: 14 of them are 49,153 productions, 15
// are 98,305.
const PAIRS_14: &str =
    "_RINvC1a1fTTTTTTTTTTTTTTuBl_EBk_EBj_EBi_EBh_EBg_EBf_EBe_EBd_EBc_EBb_EBa_EB9_EB8_EE";

const PAIRS_15: &str =
    "_RINvC1a1fTTTTTTTTTTTTTTTuBm_EBl_EBk_EBj_EBi_EBh_EBg_EBf_EBe_EBd_EBc_EBb_EBa_EB9_EB8_EE";

// A plain name, one with Punycode, one with a string.
const GROWTHS: [(&str, &str); 3] = [
    (
        "_RINvC1a1fbceuaslxnihE.cold",
        "a::f::<bool, char, str, (), i8, i16, i32, i64, i128, isize, u8>.cold",
    ),
    ("_RNvC1au9gre_6ka8i", "a::größe"),
    (
        "_RINvC1a1fKRe27225c0a00c3bc_E",
        "a::f::<\"'\\\"\\\\\\n\\0\\u{fc}\">",
    ),
];

/// 0 where a name has that text, 1 where it has another one, 2 where it has none, 3 where memory was
/// refused.
fn compared(alloc: Global, name: &str, text: &str) -> u8 {
    match demangle_v0(alloc, name) {
        Ok(Some(found)) => u8::from(found.as_str() != text),
        Ok(None) => 2,
        Err(_) => 3,
    }
}

/// The same, once more where memory was refused; and whether it was.
fn compared_again(alloc: Global, name: &str, text: &str) -> (u8, bool) {
    match compared(alloc, name, text) {
        3 => (compared(alloc, name, text), true),
        code => (code, false),
    }
}

#[test]
fn crates_nested_paths_have_their_texts(rt: HostRuntime) {
    for (name, text) in CRATES_NESTED_PATHS {
        assert_eq!(rt; compared(rt.alloc(), name, text), 0, "{name}");
    }
}

#[test]
fn impls_traits_have_their_texts(rt: HostRuntime) {
    for (name, text) in IMPLS_TRAITS {
        assert_eq!(rt; compared(rt.alloc(), name, text), 0, "{name}");
    }
}

#[test]
fn generic_arguments_lifetimes_have_their_texts(rt: HostRuntime) {
    for (name, text) in GENERIC_ARGUMENTS_LIFETIMES {
        assert_eq!(rt; compared(rt.alloc(), name, text), 0, "{name}");
    }
}

#[test]
fn types_have_their_texts(rt: HostRuntime) {
    for (name, text) in TYPES {
        assert_eq!(rt; compared(rt.alloc(), name, text), 0, "{name}");
    }
}

#[test]
fn constants_have_their_texts(rt: HostRuntime) {
    for (name, text) in CONSTANTS {
        assert_eq!(rt; compared(rt.alloc(), name, text), 0, "{name}");
    }
}

#[test]
fn identifiers_have_their_texts(rt: HostRuntime) {
    for (name, text) in IDENTIFIERS {
        assert_eq!(rt; compared(rt.alloc(), name, text), 0, "{name}");
    }
}

#[test]
fn back_references_have_their_texts(rt: HostRuntime) {
    for (name, text) in BACK_REFERENCES {
        assert_eq!(rt; compared(rt.alloc(), name, text), 0, "{name}");
    }
}

#[test]
fn prefixes_suffixes_have_their_texts(rt: HostRuntime) {
    for (name, text) in PREFIXES_SUFFIXES {
        assert_eq!(rt; compared(rt.alloc(), name, text), 0, "{name}");
    }
}

#[test]
fn odd_names_have_their_texts(rt: HostRuntime) {
    for (name, text) in ODD_REFERENCES {
        assert_eq!(rt; compared(rt.alloc(), name, text), 0, "{name}");
    }
}

#[test]
fn damaged_names_have_none(rt: HostRuntime) {
    for name in NONE {
        assert_eq!(rt; compared(rt.alloc(), name, ""), 2, "{name}");
    }
}

/// 0 where a name has no text, 1 where it has one, 2 where memory was refused.
fn has_text(alloc: Global, name: &str) -> u8 {
    match demangle_v0(alloc, name) {
        Ok(found) => u8::from(found.is_some()),
        Err(_) => 2,
    }
}

/// A text so many times between two others.
fn repeated(
    alloc: Global,
    before: &str,
    piece: &str,
    count: u32,
    after: &str,
) -> Result<String, AllocError> {
    let mut name = String::from_str(alloc, before)?;
    for _ in 0..count {
        name.push_str(piece)?;
    }
    name.push_str(after)?;
    Ok(name)
}

/// Whether a name that repeats a text has one, as `has_text` says it.
fn repeated_has_text(alloc: Global, before: &str, piece: &str, count: u32, after: &str) -> u8 {
    match repeated(alloc, before, piece, count, after) {
        Ok(name) => has_text(alloc, name.as_str()),
        Err(_) => 2,
    }
}

/// The same of a function with so many times a letter, and `u32`, as its arguments.
fn argument_has_text(alloc: Global, letters: &str, count: u32) -> u8 {
    repeated_has_text(alloc, "_RINvC1a1f", letters, count, "mE")
}

#[test]
fn five_hundred_levels_are_read(rt: HostRuntime) {
    // The path and `u32` are two of them.
    assert_eq!(rt; argument_has_text(rt.alloc(), "S", 498), 1);
    assert_eq!(rt; argument_has_text(rt.alloc(), "S", 499), 0);
}

#[test]
fn a_type_and_the_w_before_it_are_one_level(rt: HostRuntime) {
    assert_eq!(rt; argument_has_text(rt.alloc(), "wS", 498), 1);
    assert_eq!(rt; argument_has_text(rt.alloc(), "wS", 499), 0);
}

#[test]
fn productions_are_counted(rt: HostRuntime) {
    assert_eq!(rt; has_text(rt.alloc(), PAIRS_14), 1);
    assert_eq!(rt; has_text(rt.alloc(), PAIRS_15), 0);
    // Three of the path, and one for each argument.
    assert_eq!(rt; argument_has_text(rt.alloc(), "m", 65_532), 1);
    assert_eq!(rt; argument_has_text(rt.alloc(), "m", 65_533), 0);
}

#[test]
fn a_million_bytes_are_shown(rt: HostRuntime) {
    assert_eq!(rt;
        repeated_has_text(rt.alloc(), "_RC1000000", "a", 1_000_000, ""),
        1
    );
    assert_eq!(rt;
        repeated_has_text(rt.alloc(), "_RC1000001", "a", 1_000_001, ""),
        0
    );
}

// Each growth is refused in turn by `tools/refuse_growths`.
#[test]
fn a_refused_growth_gives_no_text(rt: HostRuntime) {
    let mut refused = 0u32;
    for (name, text) in GROWTHS {
        let (code, was_refused) = compared_again(rt.alloc(), name, text);
        assert_eq!(rt; code, 0, "{name}");
        refused = refused.wrapping_add(u32::from(was_refused));
    }
    assert!(rt; refused <= 1);
}

#[test]
fn each_growth_of_a_text_is_granted(rt: HostRuntime) {
    for (name, text) in GROWTHS {
        assert_eq!(rt; compared(rt.alloc(), name, text), 0, "{name}");
    }
}
