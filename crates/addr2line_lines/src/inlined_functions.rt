//! Inlined functions, as they are stored and lent.

ghost use Rattle.std.specs.Prelude.{◌≡◌, ◌∷◌, ◌++◌, [], true, length, option_map, slice_get, take, OnErr, OnOk};
ghost use Rattle.addr2line_lines.specs.LentInlined.{as_inlined};
ghost use Rattle.addr2line_lines.specs.ShortLists.{IsWidthWith, width_with};
ghost use Rattle.addr2line_lines.specs.StoredInlined.{call_fits, call_of_short, entry_of_call, file_fits, file_of_short, no_base, no_inlined_stored, short_file, stored_name};

use crate::inlined::CallSite;
use crate::short_list::{Short, ShortList, Stored};
use gimli::read::{Reader, UnitOffset};
use std::alloc::{AllocError, Global};
use std::marker::Model;
use std::rc::Rc;

// The greatest offset that has 32 bits.
const GREATEST_NARROW: u64 = 0xffff_ffff;

// What stands for no file in four bytes: so great an index doesn't fit.
const NO_FILE: u32 = u32::MAX;

/// An inlined function: an entry of a function that is inlined in another one.
pub struct InlinedFunction<'a, R: Reader> {
    /// Where the entry begins, in bytes from the start of the unit's length.
    pub dw_die_offset: UnitOffset,
    name: Option<&'a R>,
    /// The index of the file of the call, if there is one that counts.
    pub call_file: Option<u64>,
    /// The low 32 bits of the line of the call; 0 where there is none.
    pub call_line: u32,
    /// The low 32 bits of the column of the call; 0 where there is none.
    pub call_column: u32,
}

impl<R: Reader> Copy for InlinedFunction<'_, R> {}

impl<R: Reader> Clone for InlinedFunction<'_, R> {
    fn clone(&self) -> Result<Self, AllocError> {
        Ok(*self)
    }
}

impl<'a, R: Reader> InlinedFunction<'a, R> {
    /// The name, where there is one that can be read. Takes no memory.
    pub fn name(self) -> Option<&'a R>
        ensures gives { option_map (λ r. R.section r.now) result
            ≡ (as_inlined R.section self.entry).name }
    {
        self.name
    }
}

/// Where an inlined entry begins, and the call.
#[derive(Clone, Copy)]
pub(crate) struct InlinedCall {
    /// In bytes from the start of the unit's length.
    pub(crate) offset: UnitOffset,
    pub(crate) call: CallSite,
}

/// The same in sixteen bytes.
#[derive(Clone, Copy)]
pub(crate) struct ShortCall {
    offset: u32,
    // The index of the file, `NO_FILE` where there is none.
    file: u32,
    line: u32,
    column: u32,
}

// Whether the index of a file, if there is one, fits in four bytes.
#[inline(always)]
fn file_fits(file: Option<u64>) -> bool
    ensures gives { result ≡ file_fits file }
{
    match file {
        Some(index) => index < u64::from(NO_FILE),
        None => true,
    }
}

// The index of a file in four bytes.
#[inline(always)]
fn short_file(file: Option<u64>) -> u32
    requires fits { file_fits file ≡ true }
    ensures gives { result ≡ short_file file }
{
    match file {
        Some(index) => index as u32,
        None => NO_FILE,
    }
}

// The index of a file that four bytes stand for.
#[inline(always)]
fn file_of_short(file: u32) -> Option<u64>
    ensures gives { result ≡ file_of_short file }
{
    if file == NO_FILE {
        None
    } else {
        Some(u64::from(file))
    }
}

impl Stored for ShortCall {
    type Whole = InlinedCall;

    ghost whole = { call_of_short };

    #[inline(always)]
    fn whole(self, _base: u32) -> InlinedCall {
        InlinedCall {
            offset: UnitOffset(u64::from(self.offset)),
            call: CallSite {
                file: file_of_short(self.file),
                line: self.line,
                column: self.column,
            },
        }
    }
}

impl Short for ShortCall {
    ghost base_of = { no_base };

    ghost fits = { call_fits };

    #[inline(always)]
    fn base_of(_element: InlinedCall) -> u32 {
        0
    }

    #[inline(always)]
    fn fits(_base: u32, element: InlinedCall) -> bool {
        element.offset.0 <= GREATEST_NARROW && file_fits(element.call.file)
    }

    #[inline(always)]
    fn shorten(_base: u32, element: InlinedCall) -> ShortCall {
        ShortCall {
            offset: element.offset.0 as u32,
            file: short_file(element.call.file),
            line: element.call.line,
            column: element.call.column,
        }
    }
}

/// Inlined functions, in 24 bytes each, beside those of their names, until a call doesn't fit in
/// sixteen.
#[derive(Drop)]
pub(crate) struct InlinedFunctions<R: Reader> {
    // The name of each, where there is one that can be read. A reader takes more bytes than a
    // pointer to one, and most entries have a name that others have as well.
    names: Vec<Rc<Option<R>>>,
    calls: ShortList<ShortCall>,
}

impl<R: Reader> Model for InlinedFunctions<R> {
    ghost use Rattle.std.specs.Prelude.{◌≡◌, length, map};
    ghost use Rattle.addr2line_lines.specs.StoredInlined.{StoredInlined, entries_of_calls, stored_name};

    ghost Value = { StoredInlined };

    ghost view = { λ f. record {
      entries = entries_of_calls
          (map (stored_name R.section) f.names.items) f.calls.elements;
      width = f.calls.width;
    } };

    ghost invariant = { λ f. length f.names.items ≡ length f.calls.elements };
}

impl<R: Reader> InlinedFunctions<R> {
    /// None. Takes no memory.
    pub(crate) fn new(alloc: Global) -> InlinedFunctions<R>
        ensures gives { result ≡ no_inlined_stored }
    {
        InlinedFunctions {
            names: Vec::new(alloc),
            calls: ShortList::new(alloc),
        }
    }

    /// The number of inlined functions.
    pub(crate) fn len(&self) -> usize
        ensures gives { result ≡ length self.now.entries }
    {
        self.names.len()
    }

    /// The inlined function of a place; none past the last one. Takes no memory.
    #[inline(always)]
    pub(crate) fn get(&self, place: usize) -> Option<InlinedFunction<'_, R>>
        ensures gives { option_map (as_inlined R.section) result
            ≡ slice_get self.now.entries place }
    {
        let name = self.names.get(place)?;
        let InlinedCall { offset, call } = self.calls.get(place)?;
        Some(InlinedFunction {
            dw_die_offset: offset,
            name: name.as_ref().as_ref(),
            call_file: call.file,
            call_line: call.line,
            call_column: call.column,
        })
    }

    /// Adds an inlined function. A refused growth adds nothing, but the calls may be stored as its
    /// call needs it.
    pub(crate) fn push(&mut self, name: Rc<Option<R>>, call: InlinedCall) -> Result<(), AllocError>
        ensures gives { OnOk result (self.new.entries ≡ self.old.entries
            ++ entry_of_call (stored_name R.section name) call ∷ []) }
        ensures width { OnOk result (self.new.width
            ≡ width_with call_fits no_base (length self.old.entries) self.old.width call) }
        ensures refused { OnErr result ((self.new.entries ≡ self.old.entries)
            × IsWidthWith call_fits no_base call (length self.old.entries)
            self.old.width self.new.width) }
    {
        let before = self.names.len();
        self.names.push(name)?;
        match self.calls.push(call) {
            Ok(()) => Ok(()),
            Err(error) => {
                self.names.truncate(before);
                Err(error)
            }
        }
    }

    /// Keeps the first inlined functions.
    pub(crate) fn truncate(&mut self, len: usize)
        ensures gives { self.new.entries ≡ take len self.old.entries }
        ensures width { self.new.width ≡ self.old.width }
    {
        self.names.truncate(len);
        self.calls.truncate(len);
    }
}
