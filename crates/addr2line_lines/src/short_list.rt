//! Lists in few bytes an element, until one doesn't fit.

ghost use Rattle.std.specs.Prelude.{◌≡◌, ◌∷◌, ◌++◌, [], true, false, length, map, slice_get, take, IfOk, OnErr, OnOk};
ghost use Rattle.addr2line_lines.specs.ShortLists.{IsWidthWith, no_elements, can_store, whole_elements, width_with, store_width};

use crate::rows::push_one;
use std::alloc::{AllocError, Global};
use std::marker::Model;

/// An element of a list as it is stored, beside what all have in common, their base.
pub(crate) trait Stored: Copy {
    ghost use Rattle.std.specs.Prelude.{◌≡◌, ℕ};

    /// An element.
    type Whole: Copy;

    /// The element that it stands for.
    ghost whole: { ℕ → Self → Self.Whole };

    /// The element that it stands for.
    fn whole(self, base: u32) -> Self::Whole
        ensures gives { result ≡ whole base self };
}

/// An element in few bytes.
pub(crate) trait Short: Stored {
    ghost use Rattle.std.specs.Prelude.{◌≡◌, ℕ, Bool, true};

    /// The base beside which an element may fit.
    ghost base_of: { Self.Whole → ℕ };

    /// Whether an element fits, beside a base.
    ghost fits: { ℕ → Self.Whole → Bool };

    /// The base beside which an element may fit.
    fn base_of(element: Self::Whole) -> u32
        ensures gives { result ≡ base_of element };

    /// Whether an element fits, beside a base.
    fn fits(base: u32, element: Self::Whole) -> bool
        ensures gives { result ≡ fits base element };

    /// An element that fits, in few bytes.
    fn shorten(base: u32, element: Self::Whole) -> Self
        requires fits { fits base element ≡ true }
        ensures gives { Self.whole base result ≡ element };
}

/// Elements, one after another.
#[derive(Drop)]
pub(crate) enum ListStore<S: Short> {
    /// Elements that fit, and their base.
    Short(u32, Vec<S>),
    /// Elements, whole, since one didn't fit.
    Whole(Vec<S::Whole>),
}

// The elements that short ones stand for.
fn wholes_of<S: Stored>(alloc: Global, base: u32, list: &[S]) -> Result<Vec<S::Whole>, AllocError>
    ensures gives { IfOk result (λ whole. whole.items ≡ map (S.whole base) list.now) }
{
    let mut whole = Vec::with_capacity(alloc, list.len())?;
    for element in list {
        whole.push(element.whole(base))?;
    }
    Ok(whole)
}

impl<S: Short> ListStore<S> {
    // The number of elements.
    fn len(&self) -> usize
        ensures gives { result ≡ length (whole_elements S.whole self.now) }
    {
        match self {
            ListStore::Short(_, list) => list.len(),
            ListStore::Whole(list) => list.len(),
        }
    }

    // Whether an element can be stored as the others are.
    #[inline(always)]
    fn stores(&self, element: S::Whole) -> bool
        ensures gives { result ≡ can_store S.fits (store_width self.now) element }
    {
        match self {
            ListStore::Short(base, _) => S::fits(*base, element),
            ListStore::Whole(_) => true,
        }
    }

    // The elements, whole.
    fn wholes(&self, alloc: Global) -> Result<Vec<S::Whole>, AllocError>
        ensures gives { IfOk result (λ list. list.items ≡ whole_elements S.whole self.now) }
    {
        match self {
            ListStore::Short(base, list) => wholes_of(alloc, *base, list),
            ListStore::Whole(list) => list.iter().copied().collect(alloc),
        }
    }

    // The same elements, stored so that one more can be, which couldn't.
    fn widened(&self, alloc: Global, element: S::Whole) -> Result<ListStore<S>, AllocError>
        requires beyond { can_store S.fits (store_width self.now) element ≡ false }
        ensures kept { IfOk result (λ s.
            whole_elements S.whole s ≡ whole_elements S.whole self.now) }
        ensures width { IfOk result (λ s. store_width s ≡ width_with S.fits S.base_of
            (length (whole_elements S.whole self.now)) (store_width self.now) element) }
    {
        let base = S::base_of(element);
        if self.len() == 0 && S::fits(base, element) {
            return Ok(ListStore::Short(base, Vec::new(alloc)));
        }
        Ok(ListStore::Whole(self.wholes(alloc)?))
    }

    // Stores the elements so that one more can be.
    #[inline(never)]
    fn widen(&mut self, alloc: Global, element: S::Whole) -> Result<(), AllocError>
        requires beyond { can_store S.fits (store_width self.old) element ≡ false }
        ensures kept { whole_elements S.whole self.new ≡ whole_elements S.whole self.old }
        ensures width { OnOk result (store_width self.new ≡ width_with S.fits S.base_of
            (length (whole_elements S.whole self.old)) (store_width self.old) element) }
        ensures refused { OnErr result (self.new ≡ self.old) }
    {
        *self = self.widened(alloc, element)?;
        Ok(())
    }

    // Stores the elements so that one more can be, unless they are.
    #[inline(always)]
    fn widen_for(&mut self, alloc: Global, element: S::Whole) -> Result<(), AllocError>
        ensures within { OnOk result (can_store S.fits (store_width self.new) element ≡ true) }
        ensures kept { whole_elements S.whole self.new ≡ whole_elements S.whole self.old }
        ensures width { OnOk result (store_width self.new ≡ width_with S.fits S.base_of
            (length (whole_elements S.whole self.old)) (store_width self.old) element) }
        ensures refused { OnErr result (self.new ≡ self.old) }
    {
        if self.stores(element) {
            return Ok(());
        }
        self.widen(alloc, element)
    }

    // Adds an element, which can be stored as the others are.
    #[inline(always)]
    fn push(&mut self, element: S::Whole) -> Result<(), AllocError>
        requires stores { can_store S.fits (store_width self.old) element ≡ true }
        ensures gives { OnOk result (whole_elements S.whole self.new
            ≡ whole_elements S.whole self.old ++ element ∷ []) }
        ensures width { store_width self.new ≡ store_width self.old }
        ensures refused { OnErr result
            (whole_elements S.whole self.new ≡ whole_elements S.whole self.old) }
    {
        match self {
            ListStore::Short(base, list) => push_one(list, S::shorten(*base, element)),
            ListStore::Whole(list) => push_one(list, element),
        }
    }

    // Keeps the first elements.
    fn truncate(&mut self, len: usize)
        ensures gives { whole_elements S.whole self.new
            ≡ take len (whole_elements S.whole self.old) }
        ensures width { store_width self.new ≡ store_width self.old }
    {
        match self {
            ListStore::Short(_, list) => list.truncate(len),
            ListStore::Whole(list) => list.truncate(len),
        }
    }

    // The element of a place; none past the last one.
    #[inline(always)]
    fn get(&self, place: usize) -> Option<S::Whole>
        ensures gives { result ≡ slice_get (whole_elements S.whole self.now) place }
    {
        match self {
            ListStore::Short(base, list) => Some(list.get(place)?.whole(*base)),
            ListStore::Whole(list) => list.get(place).copied(),
        }
    }
}

/// A list whose elements are stored in few bytes each until one doesn't fit.
#[derive(Drop)]
pub(crate) struct ShortList<S: Short> {
    alloc: Global,
    pub(crate) store: ListStore<S>,
}

impl<S: Short> Model for ShortList<S> {
    ghost use Rattle.addr2line_lines.specs.ShortLists.{StoredList, whole_elements, store_width};

    ghost Value = { StoredList S.Whole };

    ghost view = { λ l. record {
      elements = whole_elements S.whole l.store;
      width = store_width l.store;
    } };
}

impl<S: Short> ShortList<S> {
    /// No elements. Takes no memory.
    pub(crate) fn new(alloc: Global) -> ShortList<S>
        ensures gives { result ≡ no_elements }
    {
        ShortList {
            alloc,
            store: ListStore::Short(0, Vec::new(alloc)),
        }
    }

    /// The number of elements.
    pub(crate) fn len(&self) -> usize
        ensures gives { result ≡ length self.now.elements }
    {
        self.store.len()
    }

    /// The element of a place; none past the last one. Takes no memory.
    #[inline(always)]
    pub(crate) fn get(&self, place: usize) -> Option<S::Whole>
        ensures gives { result ≡ slice_get self.now.elements place }
    {
        self.store.get(place)
    }

    /// Adds an element. A refused growth adds nothing, but the elements may be stored as it needs.
    #[inline(always)]
    pub(crate) fn push(&mut self, element: S::Whole) -> Result<(), AllocError>
        ensures gives { OnOk result (self.new.elements ≡ self.old.elements ++ element ∷ []) }
        ensures width { OnOk result (self.new.width
            ≡ width_with S.fits S.base_of (length self.old.elements) self.old.width element) }
        ensures refused { OnErr result ((self.new.elements ≡ self.old.elements)
            × IsWidthWith S.fits S.base_of element (length self.old.elements)
            self.old.width self.new.width) }
    {
        self.store.widen_for(self.alloc, element)?;
        self.store.push(element)
    }

    /// Keeps the first elements.
    pub(crate) fn truncate(&mut self, len: usize)
        ensures gives { self.new.elements ≡ take len self.old.elements }
        ensures width { self.new.width ≡ self.old.width }
    {
        self.store.truncate(len);
    }
}
