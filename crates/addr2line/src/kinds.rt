//! Kinds of lookups whose answer may wait for split files: what becomes of faults, and what is
//! lent.

ghost use Rattle.std.specs.Prelude.{◌≡◌};
ghost use Rattle.addr2line.specs.Lookups.{view_found};

use crate::context::Context;
use addr2line_units::frames::OnFault;
use gimli::read::Reader;

/// What a lookup asks for, whose answer may wait for split files.
pub trait LookupKind: Drop {
    ghost use Rattle.addr2line_units.specs.declared.frames.OnFault.{OnFault};

    // What becomes of the fault of a unit that is asked.
    ghost faults: { OnFault };

    /// Whether the fault of a unit that is asked ends the lookup or is passed over.
    fn on_fault() -> OnFault
        ensures gives { result ≡ faults };
}

/// A value that stores what its last lookup has come to.
pub trait LastLookup {
    ghost use Rattle.std.specs.Prelude.{Option};
    ghost use Rattle.addr2line_units.specs.FramesLookup.{LookupStop};
    ghost use Rattle.addr2line_units.specs.UnitView.{View};

    // What it has come to.
    ghost last_stop: { Self → LookupStop };

    // The view of the unit in which it has found something, if it has found something.
    ghost last_view: { Self → Option View };
}

impl<R: Reader> LastLookup for Context<R> {
    ghost last_stop = { λ c. c.stop };

    ghost last_view = { λ c. view_found c.sections c.answers c.stop };
}

/// What a kind of lookup lends of a context `C`.
pub trait Lent<'ctx, C: LastLookup>: LookupKind {
    ghost use Rattle.std.specs.Prelude.{Option};
    ghost use Rattle.addr2line_units.specs.FramesLookup.{LookupStop};
    ghost use Rattle.addr2line_units.specs.UnitView.{View};

    /// What a lookup has found.
    type Found: Drop;

    // What that is as contracts see it.
    ghost Value: { Type 0 };

    // What is lent, seen so.
    ghost see: { Self.Found → Value };

    // What is found, by what a lookup has come to and the view in which it has found something.
    ghost value_of: { LookupStop → Option View → Value };

    /// What the last lookup has found, nothing where it waits. Takes no memory.
    fn found(ctx: &'ctx C) -> Self::Found
        ensures gives { see result ≡ value_of (C.last_stop ctx.now) (C.last_view ctx.now) };
}
