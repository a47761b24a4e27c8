//! Names: their prefix, their path, what follows it.

ghost use Rattle.std.specs.Prelude.{◌≡◌, ◌++◌, true, false, None, Some, Ok, MatchOption, IfOk, IfSome, OnOk, option_map, string_bytes};
ghost use Rattle.std.specs.Char.{is_ascii, is_ascii_graphic};
ghost use Rattle.std.specs.List.{list_all};
ghost use Rattle.rust_v0.specs.State.{Moves, state_of};
ghost use Rattle.rust_v0.specs.Name.{after_first, is_llvm_byte, is_suffix, is_upper_first, instantiating, paths, prefixes, spelled_text, suffixed, v0_text, without_llvm, without_prefix};

use crate::grammar::Production;
use crate::identifiers::is_ascii_text;
use crate::printer::{Mode, Printer};
use crate::stop::Stop;
use memchr::memchr;
use std::alloc::{AllocError, Global};

/// The most levels.
const LEVELS: u32 = 500;

/// The most productions.
const PRODUCTIONS: u32 = 65_536;

/// The most bytes of text.
const ROOM: usize = 1_000_000;

/// The most bytes for which there is room at first: most texts are no longer than their names.
const FIRST_ROOM: usize = 256;

/// Whether all that follows a mark of LLVM is its own.
fn is_llvm_text(bytes: &[u8]) -> bool
    ensures { result ≡ list_all is_llvm_byte bytes.now }
{
    bytes
        .iter()
        .all(|b| matches!(*b, b'A'..=b'F' | b'0'..=b'9' | b'@'))
}

/// The name up to the first mark of LLVM, where only such bytes follow it.
#[tactic(auto, using(crate::proofs::LlvmLemmas::mark_more, crate::proofs::LlvmLemmas::mark_found, crate::proofs::LlvmLemmas::no_mark))]
fn strip_llvm(name: &[u8]) -> &[u8]
    ensures { result.now ≡ without_llvm name.now }
{
    // Nearly no name has a dot.
    if memchr(b'.', name).is_none() {
        return name;
    }
    for at in 0..name.len() {
        let (front, back) = name.split_at(at);
        let mark = b".llvm.";
        if back.starts_with(mark.as_slice()) {
            return if is_llvm_text(&back[mark.len()..]) {
                front
            } else {
                name
            };
        }
    }
    name
}

/// What follows the first prefix that the name begins with.
fn strip_prefix(name: &[u8]) -> Option<&[u8]>
    ensures { MatchOption result (after_first prefixes name.now ≡ None)
        (λ rest. after_first prefixes name.now ≡ Some rest.now) }
{
    if name.starts_with(b"_R".as_slice()) {
        Some(&name[b"_R".len()..])
    } else if name.starts_with(b"R".as_slice()) {
        Some(&name[b"R".len()..])
    } else if name.starts_with(b"__R".as_slice()) {
        Some(&name[b"__R".len()..])
    } else {
        None
    }
}

/// Whether an upper case letter stands first.
fn is_upper_first(bytes: &[u8]) -> bool
    ensures { result ≡ is_upper_first bytes.now }
{
    match bytes.first() {
        Some(first) => first.is_ascii_uppercase(),
        None => false,
    }
}

/// The name after its prefix, all of it ASCII, from an upper case letter on.
#[tactic(auto, unfolding(crate::specs::Name::without_prefix))]
fn strip_start(name: &[u8]) -> Option<&[u8]>
    ensures { MatchOption result (without_prefix name.now ≡ None)
        (λ rest. without_prefix name.now ≡ Some rest.now) }
{
    let rest = strip_prefix(name)?;
    if is_upper_first(rest) && is_ascii_text(rest) {
        Some(rest)
    } else {
        None
    }
}

/// Whether only letters, digits and punctuation stand there.
fn is_graphic_text(bytes: &[u8]) -> bool
    ensures { result ≡ list_all is_ascii_graphic bytes.now }
{
    bytes.iter().all(|b| b.is_ascii_graphic())
}

/// Whether a text may follow a path.
#[tactic(auto, using(crate::proofs::SuffixLemmas::suffix_ascii))]
fn is_suffix(text: &[u8]) -> bool
    ensures gives { result ≡ is_suffix text.now }
    ensures within { result ≡ true → list_all is_ascii text.now ≡ true }
{
    match text.first() {
        Some(first) => *first == b'.' && is_graphic_text(text),
        None => true,
    }
}

/// Adds ASCII bytes.
#[tactic(auto, using(crate::proofs::AsciiLemmas::ascii_text))]
fn push_ascii(out: &mut String, bytes: &[u8]) -> Result<(), AllocError>
    requires { list_all is_ascii bytes.now ≡ true }
    ensures { OnOk result (string_bytes out.new ≡ string_bytes out.old ++ bytes.now) }
{
    out.push_str(unsafe { std::str::from_utf8_unchecked(bytes) })
}

impl<'a> Printer<'a> {
    /// The crate that made the instance, which isn't shown, if it stands there.
    #[tactic(auto, unfolding(crate::specs::Name::instantiating))]
    fn instantiating(&mut self) -> Result<(), Stop>
        ensures { Moves result (state_of self.new) (instantiating (state_of self.old)) }
    {
        if is_upper_first(self.rest) {
            self.hidden(LEVELS)
        } else {
            Ok(())
        }
    }

    /// The path of a name, and the crate that made the instance.
    #[tactic(auto, unfolding(crate::specs::Name::paths))]
    fn paths(&mut self) -> Result<(), Stop>
        ensures { Moves result (state_of self.new) (paths (state_of self.old)) }
    {
        self.read(LEVELS, Production::ValuePath)?;
        self.instantiating()
    }

    /// The text and the suffix, which stands after it as it is.
    fn suffixed(self) -> Result<Option<String>, AllocError>
        ensures gives { IfOk result (λ found.
            option_map string_bytes found ≡ suffixed (state_of self.entry)) }
        ensures none { is_suffix self.entry.rest.now ≡ false → result ≡ Ok None }
    {
        let Printer { rest, mut text, .. } = self;
        if !is_suffix(rest) {
            return Ok(None);
        }
        push_ascii(&mut text, rest)?;
        Ok(Some(text))
    }
}

/// The text of what follows the prefix.
#[tactic(auto, unfolding(crate::specs::Name::spelled_text))]
fn demangle_spelled(alloc: Global, spelled: &[u8]) -> Result<Option<String>, AllocError>
    ensures { IfOk result (λ found. option_map string_bytes found ≡ spelled_text spelled.now) }
{
    let text = String::with_capacity(alloc, spelled.len().min(FIRST_ROOM))?;
    let mut printer = Printer {
        name: spelled,
        rest: spelled,
        left: PRODUCTIONS,
        room: ROOM,
        bound: 0,
        is_open: false,
        mode: Mode::Written,
        text,
        alloc,
    };
    match printer.paths() {
        Ok(()) => printer.suffixed(),
        Err(Stop::Fault) => Ok(None),
        Err(Stop::OutOfMemory) => Err(AllocError),
    }
}

/// The text of a v0 name of Rust, and `None` for any other name.
///
/// A v0 name is `_R`, `R` or `__R`, a path, the crate that made the instance, if it stands there,
/// and a suffix, which is empty or begins with a dot. Its text is that of the path, without the
/// numbers of crates, and the suffix. What LLVM appends after `.llvm.` is no part of the name. A
/// name has no text where anything in it is no production of the grammar, also at a place that a
/// reference names, or where a limit is passed: 500 levels of productions inside one another,
/// 65,536 productions, 1,000,000 bytes of text of the path. A path that isn't shown is read: its
/// references name places before themselves, but what stands there isn't read, and its lifetimes
/// need no binder.
///
/// Refused `AllocError` where a growth was refused, and never where no path can begin: where the
/// name has no prefix, or what follows isn't all ASCII or doesn't begin with an upper case letter.
///
/// Source: Rust RFC 2603 and what rustc added; RFC 3492. Own: the limits; characters past ASCII
/// between quotes stand as escapes.
#[tactic(auto, unfolding(crate::specs::Name::v0_text))]
pub fn demangle_v0(alloc: Global, name: &str) -> Result<Option<String>, AllocError>
    ensures gives { IfOk result (λ found. option_map string_bytes found ≡ v0_text name.now) }
    ensures none { without_prefix (without_llvm name.now) ≡ None → result ≡ Ok None }
{
    match strip_start(strip_llvm(name.as_bytes())) {
        Some(spelled) => demangle_spelled(alloc, spelled),
        None => Ok(None),
    }
}
