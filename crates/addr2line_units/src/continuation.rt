//! Lookups that wait for split files.

ghost use Rattle.std.specs.Prelude.{ℕ};
ghost use Rattle.addr2line_units.specs.Continuation.{Resumes, SkipsTo};

/// What a lookup gives: a load that it waits for, with the rest of the lookup, or its output.
pub enum LookupResult<L: LookupContinuation> {
    /// The lookup waits for an answer to its load.
    Load {
        /// The rest of the lookup, which lends the load.
        continuation: L,
    },
    /// The lookup has ended.
    Output(L::Output),
}

/// The rest of a lookup that waits for an answer.
///
/// Dropping it ends the lookup: the unit that it waits for stays open.
pub trait LookupContinuation {
    /// What the lookup gives in the end.
    type Output;
    /// What it waits for.
    type Load: Drop;
    /// The sections of a split file.
    type Sections: Drop;

    // How many units among those that the lookup asks wait for an answer.
    ghost left: { Self → ℕ };

    // What answering none to this load and to each later one may give.
    ghost skips_to: { Self → Self.Output → Type 0 };

    /// What the lookup waits for. Takes no memory.
    fn load(&self) -> &Self::Load;

    /// Answers the load and goes on: the unit is decided by `input`, the sections of its split
    /// file, or none.
    ///
    /// An answer that found no memory wasn't one: the output is refused `OutOfMemory`, and the unit
    /// stays open.
    fn resume(self, input: Option<Self::Sections>) -> LookupResult<Self>
        ensures after { Resumes self left skips_to input result };
}

impl<L: LookupContinuation> LookupResult<L> {
    /// The output of the lookup where each load is answered `None`.
    pub fn skip_all_loads(self) -> L::Output
        ensures gives { SkipsTo L.skips_to self result }
    {
        let mut found = self;
        loop {
            match found {
                LookupResult::Output(output) => return output,
                LookupResult::Load { continuation } => found = continuation.resume(None),
            }
        }
    }
}
