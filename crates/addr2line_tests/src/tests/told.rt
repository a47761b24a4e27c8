//! The answers of calls of a context of its own, over borrowed and over shared bytes.

use super::codes::{Codes, NONE, REFUSED, fault_codes};
use super::recorded;
use super::replies::{Call, Given, Tokens, reply};
use super::sections::{Sections, Way, borrowed, by_sections, made, shared, three_sections};
use addr2line::Context;
use addr2line::gimli::read::{Error, Reader};
use addr2line::gimli::{Dwarf, DwarfFileType};
use addr2line_lines_tests::vectors::{LINE, WAITING_ABBREV};
use std::alloc::Global;
use std::rc::Rc;

/// The units [0, 100) and [10, 20), which wait for split files with the identifiers 1 and 2.
pub const TWO_WAITING_INFO: &[u8] = b"\x2a\0\0\0\x05\0\x04\x08\0\0\0\0\x01\0\0\0\0\0\0\0\
    \x01\0\0\0\0/w\0s.dwo\0\0\0\0\0\0\0\0\0\x64\0\0\0\
    \x2a\0\0\0\x05\0\x04\x08\0\0\0\0\x02\0\0\0\0\0\0\0\
    \x01\0\0\0\0/w\0s.dwo\0\x0a\0\0\0\0\0\0\0\x0a\0\0\0";

/// Answers, the second where the first found no memory; and how often one did.
pub type Replies<const N: usize> = ([Codes; N], u64);

// The answers of calls that are made each by itself, and the tokens of the loads listed last.
fn called<R: Reader, const N: usize>(
    context: &mut Context<R>,
    given: &Given<'_, R>,
    calls: [Call; N],
) -> (Replies<N>, Tokens) {
    let mut refused = 0u64;
    let mut listed = [None; 2];
    let mut codes = [NONE; N];
    for i in 0..N {
        codes[i] = reply(context, given, calls[i], &mut listed);
        if codes[i] == REFUSED {
            refused = refused.wrapping_add(1);
            codes[i] = reply(context, given, calls[i], &mut listed);
        }
    }
    ((codes, refused), listed)
}

fn answers<R: Reader, const N: usize>(
    alloc: Global,
    context: &mut Context<R>,
    given: &Given<'_, R>,
    way: Way,
    calls: [Call; N],
) -> (Replies<N>, Tokens) {
    match way {
        Way::Replayed => (recorded::replies(alloc, context, given, calls), [None; 2]),
        Way::Whole | Way::InRc => called(context, given, calls),
    }
}

// The same of a context of its own, or its fault at each call. No other function has a context.
fn told<R: Reader, const N: usize>(
    alloc: Global,
    context: Result<Context<R>, Error>,
    given: &Given<'_, R>,
    way: Way,
    calls: [Call; N],
) -> (Replies<N>, Tokens) {
    match context {
        Ok(mut context) => answers(alloc, &mut context, given, way, calls),
        Err(error) => {
            let codes = fault_codes(error);
            (([codes; N], u64::from(codes == REFUSED)), [None; 2])
        }
    }
}

/// The answers of a context that needs no split file.
pub fn told_by<R: Reader, const N: usize>(
    alloc: Global,
    context: Result<Context<R>, Error>,
    calls: [Call; N],
) -> Replies<N> {
    let given = Given {
        tokens: [None; 2],
        split: None,
    };
    told(alloc, context, &given, Way::InRc, calls).0
}

/// The last number of each answer alone, as that of a location, a fault or an end.
pub fn numbers<const N: usize>(told: Replies<N>) -> ([u64; N], u64) {
    let (codes, refused) = told;
    let mut numbers = [0; N];
    for i in 0..N {
        let Codes(first, _, _) = codes[i];
        numbers[i] = first[2];
    }
    (numbers, refused)
}

/// The answers of a context of sections that are borrowed, each by itself.
pub fn told_each<const N: usize>(
    alloc: Global,
    sections: Sections<'_>,
    calls: [Call; N],
) -> Replies<N> {
    told_by(alloc, by_sections(alloc, sections), calls)
}

// The tokens of the units 0 and 1, from a context of two units that wait.
fn tokens(alloc: Global) -> Option<Tokens> {
    let given = Given {
        tokens: [None; 2],
        split: None,
    };
    let waiting = three_sections(WAITING_ABBREV, TWO_WAITING_INFO, &LINE);
    let context = by_sections(alloc, waiting);
    match told(alloc, context, &given, Way::Whole, [Call::Preload(15)]) {
        ((_, 0), [one, zero]) => Some([zero, one]),
        _ => None,
    }
}

/// The sections of a file, and those of the split file of its units.
#[derive(Clone, Copy)]
pub struct Files<'a> {
    pub main: Sections<'a>,
    pub split: Sections<'a>,
}

/// A file of three sections whose units have no split file.
pub fn alone<'a>(abbrev: &'a [u8], info: &'a [u8], line: &'a [u8]) -> Files<'a> {
    Files {
        main: three_sections(abbrev, info, line),
        split: three_sections(&[], &[], &[]),
    }
}

// The answers of a context of the main file, where the split file is at hand.
fn told_split<R: Reader, const N: usize>(
    alloc: Global,
    main: Dwarf<R>,
    split: Dwarf<R>,
    way: Way,
    calls: [Call; N],
) -> Replies<N> {
    let tokens = tokens(alloc);
    let split = Rc::new(alloc, split).ok();
    let given = Given {
        tokens: tokens.unwrap_or([None; 2]),
        split: split.as_ref(),
    };
    let (replies, _) = told(alloc, made(alloc, way, main), &given, way, calls);
    if tokens.is_some() && split.is_some() {
        replies
    } else {
        ([REFUSED; N], 1)
    }
}

/// The answers over borrowed bytes.
pub fn told_borrowed<const N: usize>(
    alloc: Global,
    files: Files<'_>,
    way: Way,
    calls: [Call; N],
) -> Replies<N> {
    let main = borrowed(files.main, DwarfFileType::Main);
    let split = borrowed(files.split, DwarfFileType::Dwo);
    told_split(alloc, main, split, way, calls)
}

/// The answers over shared bytes.
pub fn told_shared<const N: usize>(
    alloc: Global,
    files: Files<'static>,
    way: Way,
    calls: [Call; N],
) -> Replies<N> {
    let main = shared(files.main, DwarfFileType::Main);
    let split = shared(files.split, DwarfFileType::Dwo);
    told_split(alloc, main, split, way, calls)
}

/// The answers over both.
pub fn told_both<const N: usize>(
    alloc: Global,
    files: Files<'static>,
    way: Way,
    calls: [Call; N],
) -> [Replies<N>; 2] {
    [
        told_borrowed(alloc, files, way, calls),
        told_shared(alloc, files, way, calls),
    ]
}
