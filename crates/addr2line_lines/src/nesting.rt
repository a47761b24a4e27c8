//! The entries that are open around a place in a function.

ghost use Rattle.std.specs.Prelude.{◌≡◌, [], Err, OnErr, OnOk, true, count_by};
ghost use Rattle.addr2line_lines.specs.Common.{OutOfMemory};
ghost use Rattle.addr2line_lines.specs.OpenEntries.{closed_once, is_inlined_kind, is_listed, kind_of, opened};

use gimli::read::{Abbreviation, DwTag, Error};
use std::alloc::Global;
use std::marker::Model;

// What an entry is to the function around it.
#[derive(Clone, Copy)]
pub(crate) enum Kind {
    // A nested subprogram.
    Subprogram,
    Inlined,
    Other,
}

// What an entry of an abbreviation is.
pub(crate) fn kind_of(abbreviation: &Abbreviation) -> Kind
    ensures gives { result ≡ kind_of abbreviation.now }
{
    match abbreviation.tag() {
        DwTag::DW_TAG_subprogram => Kind::Subprogram,
        DwTag::DW_TAG_inlined_subroutine => Kind::Inlined,
        _ => Kind::Other,
    }
}

// The kinds of the open entries.
#[derive(Drop)]
pub(crate) struct Nesting {
    // The outermost first.
    kinds: Vec<Kind>,
    // How many of them are inlined ones.
    inlined: usize,
    // How many are nested subprograms.
    subprograms: usize,
}

impl Model for Nesting {
    ghost use Rattle.std.specs.Prelude.{List, reverse};
    ghost use Rattle.addr2line_lines.specs.declared.nesting.Kind.{Kind};
    ghost use Rattle.addr2line_lines.specs.OpenEntries.{AreCounted};

    ghost Value = { List Kind };

    ghost view = { λ n. reverse n.kinds.items };

    ghost invariant = { λ n. AreCounted n.kinds.items n.inlined n.subprograms };
}

impl Nesting {
    // Where no entry is open.
    pub(crate) fn new(alloc: Global) -> Nesting
        ensures gives { result ≡ [] }
    {
        Nesting {
            kinds: Vec::new(alloc),
            inlined: 0,
            subprograms: 0,
        }
    }

    // Closes all. Keeps the memory.
    pub(crate) fn clear(&mut self)
        ensures gives { self.new ≡ [] }
    {
        self.kinds.clear();
        self.inlined = 0;
        self.subprograms = 0;
    }

    // How many inlined entries are open.
    pub(crate) fn depth(&self) -> usize
        ensures gives { result ≡ count_by is_inlined_kind self.now }
    {
        self.inlined
    }

    // Whether an entry here is an inlined one in no nested subprogram.
    pub(crate) fn lists(&self, kind: Kind) -> bool
        ensures gives { result ≡ is_listed kind self.now }
    {
        match kind {
            Kind::Inlined => self.subprograms == 0,
            _ => false,
        }
    }

    // Opens an entry, if it has children; takes memory for no other.
    pub(crate) fn enter(&mut self, kind: Kind, has_children: bool) -> Result<(), Error>
        ensures gives { OnOk result (self.new ≡ opened kind has_children self.old) }
        ensures memory { OnErr result ((result ≡ Err OutOfMemory) × (has_children ≡ true)) }
    {
        if !has_children {
            return Ok(());
        }
        self.kinds.push(kind)?;
        match kind {
            Kind::Subprogram => self.subprograms += 1,
            Kind::Inlined => self.inlined += 1,
            Kind::Other => {}
        }
        Ok(())
    }

    // Closes the innermost entry, if one is open.
    pub(crate) fn close(&mut self)
        ensures gives { self.new ≡ closed_once self.old }
    {
        match self.kinds.pop() {
            Some(Kind::Subprogram) => self.subprograms -= 1,
            Some(Kind::Inlined) => self.inlined -= 1,
            _ => {}
        }
    }
}
