//! Laws of lookups and of what they are answered, with no code.

ghost use Rattle.addr2line.specs.AnswerLaws.{AnswerLaws};
ghost use Rattle.addr2line.specs.FaultLaws.{ContextCallsAreNotRefused};
ghost use Rattle.addr2line.specs.FrameLaws.{HasFrameOfEach};
ghost use Rattle.addr2line.specs.HistoryLaws.{WaitsForEachOnce};
ghost use Rattle.addr2line.specs.SkipLaws.{SkipLaws};
ghost use Rattle.addr2line.specs.WarmUp.{WarmUpLaws};

/// Whatever its loads are answered, a lookup waits for different units, one after another: for
/// those that cover its address and are open when it begins.
pub fn waits_for_each_once()
    ensures law { WaitsForEachOnce }
{}

/// The first answer to a load counts, whatever calls come after it, until its unit is forgotten. So
/// once each load that `preload_units` lists for an address has an answer, no lookup of the address
/// waits until a unit that covers it is forgotten.
pub fn answers_stay()
    ensures law { AnswerLaws }
{}

/// Where none is the answer to each load that a lookup may wait for, in turn, the same lookup waits
/// for none. It gives what `skip_all_loads` gives: what it gives where each unit that has no answer
/// is answered none.
pub fn skipped_lookups_end()
    ensures law { SkipLaws }
{}

/// What `find_frames` finds has one frame more than functions are inlined at the address; a
/// location without a function is one frame.
pub fn has_frame_of_each()
    ensures law { HasFrameOfEach }
{}

/// Once `parse_lines` and `parse_inlined_functions` weren't refused, lookups wait for nothing and
/// have no fault, and take no memory where at most 16 functions are inlined, one after another.
pub fn finds_all_when_warm()
    ensures law { WarmUpLaws }
{}

/// Whatever the sections, the first answers and the address are, what they say of a context, of a
/// lookup, of a load or of the replies to calls is never `OutOfMemory`.
pub fn fault_laws()
    ensures law { ContextCallsAreNotRefused }
{}
