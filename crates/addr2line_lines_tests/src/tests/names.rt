//! Texts of names.

use addr2line_units::{demangle, demangle_auto};
use gimli::read::{DwLang, Error};
use std::alloc::Global;
use std::borrow::CowStr;

const RUST: DwLang = DwLang::DW_LANG_Rust;

// Names by the cases of the format, and their texts.
const CASES: [(&str, Option<&str>); 34] = [
    ("_ZN4test1a2bcE", Some("test::a::bc")),
    ("ZN4test1a2bcE", Some("test::a::bc")),
    ("__ZN4test1a2bcE", Some("test::a::bc")),
    ("_ZN3foo17h05af221e174051e9E", Some("foo")),
    (
        "_ZN17h05af221e174051e93fooE",
        Some("h05af221e174051e9::foo"),
    ),
    ("_ZN3foo4hAbGE", Some("foo::hAbG")),
    ("_ZN3foo3hAbE", Some("foo")),
    ("_ZN1hE", Some("")),
    ("_ZN3foo0E", Some("foo::")),
    ("_ZN0003fooE", Some("foo")),
    ("_ZN8$RF$testE", Some("&test")),
    ("_ZN10_$RF$test_E", Some("&test_")),
    (
        "_ZN38_$LT$T$u20$as$u20$core..fmt..Debug$GT$3fmtE",
        Some("<T as core::fmt::Debug>::fmt"),
    ),
    ("_ZN3a.bE", Some("a.b")),
    ("_ZN5a...bE", Some("a::.b")),
    ("_ZN7a$XX$..E", Some("a$XX$..")),
    ("_ZN12$u1f600$..$xE", Some("\u{1f600}::$x")),
    ("_ZN5$u7f$E", Some("$u7f$")),
    ("_ZN5$u9f$E", Some("$u9f$")),
    ("_ZN5$ua0$E", Some("\u{a0}")),
    ("_ZN7$ud800$E", Some("$ud800$")),
    ("_ZN5$u7E$E", Some("$u7E$")),
    ("_ZN4testE.llvm.9D1C9369", Some("test")),
    ("_ZN4testE.llvm.9D1C9369@@16", Some("test")),
    ("_ZN4testE.llvm.x.llvm.9", Some("test.llvm.x.llvm.9")),
    ("_ZN4testE.llvm.", Some("test")),
    ("_ZN4testE.cold", Some("test.cold")),
    ("_ZN4testE.", Some("test.")),
    ("_ZN4testE.a b", None),
    ("_ZN4testEx", None),
    ("_ZN3foo3barEv", None),
    ("_ZNE", None),
    ("_ZN99999999999999999999999aE", None),
    ("_ZN2\u{e4}E", None),
];

// A name of the program below, which takes many growths.
const LONGEST: (&str, &str) = (
    "_ZN4core3ptr196drop_in_place$LT$hashbrown..scopeguard..ScopeGuard$LT$hashbrown..raw..RawTableInner$C$hashbrown..raw..RawTableInner..prepare_resize$LT$alloc..alloc..Global$GT$..$u7b$$u7b$closure$u7d$$u7d$$GT$$GT$17h0587c7906a86ff26E",
    "core::ptr::drop_in_place<hashbrown::scopeguard::ScopeGuard<hashbrown::raw::RawTableInner,hashbrown::raw::RawTableInner::prepare_resize<alloc::alloc::Global>::{{closure}}>>",
);

// Names of a program that rustc 1.95 compiled with `-C symbol-mangling-version=legacy`, without
// and with `-O`, and what `nm -C` of GNU binutils 2.40 prints for them. It leaves `$uf6$` and
// `$udf$` of the second name as they are; by the format they are the characters of `größe`.
const PROGRAM: [(&str, &str); 25] = [
    ("_ZN6sample4main17hcac3bc4167d1b50fE", "sample::main"),
    (
        "_ZN6sample13gr$uf6$$udf$e17h5041c56270d0056eE",
        "sample::größe",
    ),
    (
        "_ZN6sample15Holder$LT$T$GT$3len17hf7239145ad32997fE",
        "sample::Holder<T>::len",
    ),
    (
        "_ZN4core9core_arch3x867__m128i8as_i8x1617h418076fb31714732E",
        "core::core_arch::x86::__m128i::as_i8x16",
    ),
    (
        "_ZN4core9core_arch3x864sse212_mm_or_si12817h9ad5b454e270ea6bE",
        "core::core_arch::x86::sse2::_mm_or_si128",
    ),
    (
        "_ZN6sample4main28_$u7b$$u7b$closure$u7d$$u7d$17hbe64b12e001213b2E",
        "sample::main::{{closure}}",
    ),
    (
        "_ZN5alloc3fmt6format28_$u7b$$u7b$closure$u7d$$u7d$17hf8c01b501e54f4c8E",
        "alloc::fmt::format::{{closure}}",
    ),
    (
        "_ZN42_$LT$$RF$T$u20$as$u20$core..fmt..Debug$GT$3fmt17h2c0c52ac3b6d5125E",
        "<&T as core::fmt::Debug>::fmt",
    ),
    (
        "_ZN3std11collections4hash3map28HashMap$LT$K$C$V$C$S$C$A$GT$4iter17h8a86cab39bef88b8E",
        "std::collections::hash::map::HashMap<K,V,S,A>::iter",
    ),
    (
        "_ZN9hashbrown3raw21RawTable$LT$T$C$A$GT$14reserve_rehash17h4cd85445f8da2cdaE.llvm.20228549205081060",
        "hashbrown::raw::RawTable<T,A>::reserve_rehash",
    ),
    (
        "_ZN52_$LT$$u5b$T$u5d$$u20$as$u20$sample..shapes..Area$GT$4area28_$u7b$$u7b$closure$u7d$$u7d$17ha68897b24cd296a8E",
        "<[T] as sample::shapes::Area>::area::{{closure}}",
    ),
    (
        "_ZN54_$LT$$LP$T$C$U$RP$$u20$as$u20$sample..shapes..Area$GT$4area17hdef3bbba1223c013E",
        "<(T,U) as sample::shapes::Area>::area",
    ),
    (
        "_ZN54_$LT$$RF$mut$u20$T$u20$as$u20$sample..shapes..Area$GT$4area17h95f9e39c8eda98a4E",
        "<&mut T as sample::shapes::Area>::area",
    ),
    (
        "_ZN56_$LT$$BP$const$u20$T$u20$as$u20$sample..shapes..Area$GT$4area17h68761c629c1b653cE",
        "<*const T as sample::shapes::Area>::area",
    ),
    (
        "_ZN63_$LT$$u5b$T$u3b$$u20$N$u5d$$u20$as$u20$sample..shapes..Area$GT$4area17h184ebcb0bedf852eE",
        "<[T; N] as sample::shapes::Area>::area",
    ),
    (
        "_ZN65_$LT$sample..Holder$LT$T$GT$$u20$as$u20$core..ops..drop..Drop$GT$4drop17h549ca49f62ec966fE",
        "<sample::Holder<T> as core::ops::drop::Drop>::drop",
    ),
    (
        "_ZN71_$LT$fn$LP$u8$RP$$u20$.$GT$$u20$u64$u20$as$u20$sample..shapes..Area$GT$4area17h5ec3e053c470e962E",
        "<fn(u8) .> u64 as sample::shapes::Area>::area",
    ),
    (
        "_ZN54_$LT$$LP$$RP$$u20$as$u20$std..process..Termination$GT$6report17ha7d4987651cedbaaE",
        "<() as std::process::Termination>::report",
    ),
    (
        "_ZN78_$LT$$u21$$u20$as$u20$std..sys..thread_local..native..lazy..DestroyedState$GT$13register_dtor17h254bf7f1c7313eaeE",
        "<! as std::sys::thread_local::native::lazy::DestroyedState>::register_dtor",
    ),
    (
        "_ZN4core3ops8function6FnOnce40call_once$u7b$$u7b$vtable.shim$u7d$$u7d$17h48f86cf64e82286cE",
        "core::ops::function::FnOnce::call_once{{vtable.shim}}",
    ),
    (
        "_ZN4core9core_arch4simd17Simd$LT$T$C$_$GT$5splat17hfbe6847632047cbcE",
        "core::core_arch::simd::Simd<T,_>::splat",
    ),
    (
        "_ZN87_$LT$T$u20$as$u20$alloc..slice..$LT$impl$u20$$u5b$T$u5d$$GT$..to_vec_in..ConvertVec$GT$6to_vec17h02ee02294c684d22E",
        "<T as alloc::slice::<impl [T]>::to_vec_in::ConvertVec>::to_vec",
    ),
    (
        "_ZN3std4hash6random11RandomState3new4KEYS29_$u7b$$u7b$constant$u7d$$u7d$28_$u7b$$u7b$closure$u7d$$u7d$17h2ee5dc5d4e44df3eE",
        "std::hash::random::RandomState::new::KEYS::{{constant}}::{{closure}}",
    ),
    (
        "_ZN148_$LT$dyn$u20$core..ops..function..Fn$LT$$LP$u8$C$u16$RP$$GT$$u2b$Output$u20$$u3d$$u20$u64$u2b$core..marker..Send$u20$as$u20$sample..shapes..Area$GT$4area17h68fa7e1162a7653fE",
        "<dyn core::ops::function::Fn<(u8,u16)>+Output = u64+core::marker::Send as sample::shapes::Area>::area",
    ),
    LONGEST,
];

// Whether the name gives the wanted text, none where none is wanted.
fn gives(alloc: Global, name: &str, language: DwLang, want: Option<&str>) -> bool {
    match demangle(alloc, name, language) {
        Ok(Some(text)) => want == Some(text.as_str()),
        Ok(None) => want.is_none(),
        Err(_) => false,
    }
}

// Whether the name, of this language if there is one, gives the wanted text.
fn gives_auto(alloc: Global, name: &str, language: Option<DwLang>, want: &str) -> bool {
    match demangle_auto(alloc, CowStr::Borrowed(name), language) {
        Ok(text) => text.as_str() == want,
        Err(_) => false,
    }
}

// The first name that gives another text, empty where there is none.
fn first_wrong(alloc: Global, cases: &[(&'static str, Option<&str>)]) -> &'static str {
    for (name, want) in cases {
        if !gives(alloc, name, RUST, *want) {
            return name;
        }
    }
    ""
}

#[test]
fn names_give_the_texts_of_the_format(rt: HostRuntime) {
    assert_eq!(rt; first_wrong(rt.alloc(), &CASES), "");
}

// The same where each name gives a text.
fn first_wrong_text(alloc: Global, cases: &[(&'static str, &str)]) -> &'static str {
    for (name, want) in cases {
        if !gives(alloc, name, RUST, Some(want)) {
            return name;
        }
    }
    ""
}

#[test]
fn names_of_a_program_give_what_nm_prints(rt: HostRuntime) {
    assert_eq!(rt; first_wrong_text(rt.alloc(), &PROGRAM), "");
}

// Whether the name is left as it is in a language.
fn is_left(alloc: Global, name: &str, language: DwLang) -> bool {
    gives(alloc, name, language, None) && gives_auto(alloc, name, Some(language), name)
}

#[test]
fn no_other_language_is_demangled(rt: HostRuntime) {
    let alloc = rt.alloc();
    let left = [0x00, 0x0c, 0x1b, 0x1d, 0x8001].map(|number| is_left(
        alloc,
        "_ZN4test1a2bcE",
        DwLang(number),
    ));
    assert_eq!(rt; left, [true; 5]);
}

#[test]
fn an_unknown_language_is_tried_as_rust(rt: HostRuntime) {
    let alloc = rt.alloc();
    let given = [
        gives_auto(alloc, "_ZN4test1a2bcE", None, "test::a::bc"),
        gives_auto(alloc, "_ZN4test1a2bcE", Some(RUST), "test::a::bc"),
        gives_auto(alloc, "_ZN3foo3barEv", None, "_ZN3foo3barEv"),
        gives_auto(alloc, "_ZN3foo3barEv", Some(RUST), "_ZN3foo3barEv"),
    ];
    assert_eq!(rt; given, [true; 4]);
}

// Whether both calls give the text or refuse OutOfMemory.
fn gives_or_refuses(alloc: Global, name: &str, want: &str) -> bool {
    let named = match demangle(alloc, name, RUST) {
        Ok(found) => found.is_some_and(|text| text.as_str() == want),
        Err(error) => error == Error::OutOfMemory,
    };
    let auto = match demangle_auto(alloc, CowStr::Borrowed(name), None) {
        Ok(text) => text.as_str() == want,
        Err(error) => error == Error::OutOfMemory,
    };
    named && auto
}

#[test]
fn growths_that_are_granted_give_a_text(rt: HostRuntime) {
    let (name, want) = LONGEST;
    assert_eq!(rt; gives(rt.alloc(), name, RUST, Some(want)), true);
}

// Each growth is refused in turn by `tools/refuse_growths`.
#[test]
fn a_refused_growth_is_out_of_memory(rt: HostRuntime) {
    let (name, want) = LONGEST;
    assert_eq!(rt; gives_or_refuses(rt.alloc(), name, want), true);
}
