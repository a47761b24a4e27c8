//! What ends a reading.

use std::alloc::AllocError;

/// The bytes are no v0 name, or a limit is passed: all that can stop what takes no memory.
#[derive(Clone, Copy)]
pub(crate) struct Fault;

/// Why a reading stops.
#[derive(Clone, Copy)]
pub(crate) enum Stop {
    /// The bytes are no v0 name, or a limit is passed.
    Fault,
    /// A growth was refused.
    OutOfMemory,
}

impl From<Fault> for Stop {
    ghost use Rattle.std.specs.Prelude.{◌≡◌};
    ghost use Rattle.rust_v0.specs.declared.stop.Stop.TheVariants as variants;

    ghost from_gives = { λ _ e. e ≡ variants.Fault };

    fn from(_fault: Fault) -> Stop {
        Stop::Fault
    }
}

impl From<AllocError> for Stop {
    ghost use Rattle.std.specs.Prelude.{◌≡◌};
    ghost use Rattle.rust_v0.specs.declared.stop.Stop.TheVariants as variants;

    ghost from_gives = { λ _ e. e ≡ variants.OutOfMemory };

    fn from(_error: AllocError) -> Stop {
        Stop::OutOfMemory
    }
}
