//! Laws of sequences, of functions, of names, of inlined entries and of the choice among them, with
//! no code.

ghost use Rattle.addr2line_lines.specs.Sequences.{start_of, end_of};
ghost use Rattle.addr2line_lines.specs.Rises.{SequencesRise};
ghost use Rattle.addr2line_lines.specs.InOrder.{OrderIsFree};
ghost use Rattle.addr2line_lines.specs.Pick.{LoneIsPicked};
ghost use Rattle.addr2line_lines.specs.Functions.{function_begin, function_end, function_offset};
ghost use Rattle.addr2line_lines.specs.FunctionDetails.{CachedDetailLaws, ListedFunctionLaws};
ghost use Rattle.addr2line_lines.specs.Shortest.{LoneIsShortest, NoneIsShorter};
ghost use Rattle.addr2line_lines.specs.NameChains.{NameChainLaws};
ghost use Rattle.addr2line_lines.specs.ItemsAround.{ItemsAroundLaws};
ghost use Rattle.addr2line_lines.specs.NestedInlined.{ChainIsWhole, NestedInlinedLaws};
ghost use Rattle.addr2line_lines.specs.Spans.{EachAddressHasRow};
ghost use Rattle.addr2line_lines.specs.FaultLaws.{UnitReadingsAreNotRefused};

/// Where addresses don't fall within a sequence, the sequences of the rows rise.
pub fn sequences_rise()
    ensures law { SequencesRise }
{}

/// Each address of a sequence that rises has a row.
pub fn each_address_has_a_row()
    ensures law { EachAddressHasRow }
{}

/// What is picked of sequences in order is what is picked of them in the program's order.
pub fn order_is_free()
    ensures law { OrderIsFree start_of end_of }
{}

/// A sequence that holds an address is picked where all others are disjoint from it.
pub fn lone_is_picked()
    ensures law { LoneIsPicked start_of end_of }
{}

/// The function at an address is that of a range that holds it where no other that holds it is
/// shorter, or as long and of a lesser entry offset.
pub fn none_is_shorter()
    ensures law { NoneIsShorter function_begin function_end function_offset }
{}

/// A range that holds an address is the shortest, and the one that is picked, where all others are
/// disjoint from it.
pub fn lone_is_shortest()
    ensures law { LoneIsShortest function_begin function_end function_offset }
{}

/// The name that a reference gives is that of the first entry of its chain that has one, where
/// fewer than 16 come before it; 16 entries without a name give none, where they stand in a circle
/// too.
pub fn name_chains()
    ensures law { NameChainLaws }
{}

/// The chain of inlined entries at an address is not cut short: it ends at the first depth of which
/// none is picked.
pub fn inlined_chain_is_whole()
    ensures law { ChainIsWhole }
{}

/// The entries that are open around an item inside an entry are those whose subtree has it, and the
/// depth of an inlined range is the number of inlined entries among those around its entry. Where
/// the details of a function are read so are the items inside it.
pub fn open_entries_are_around()
    ensures law { ItemsAroundLaws }
{}

/// Where the ranges of a function's inlined entries lie within those of the nearest inlined entries
/// around them, and those of a depth don't overlap, each entry of the chain at an address is the
/// nearest inlined one around the next: of those whose subtree has it the last that begins. Where
/// no range is empty either, none that holds the address is left out. Whatever says which entry is
/// around another, the same holds of ranges so nested, if the depth of the one around is one less.
/// The first entry of any chain of a function has no inlined one around it.
pub fn inlined_are_nested()
    ensures law { NestedInlinedLaws }
{}

/// What is cached of functions is right for any unit where no detail is cached, and stays right for
/// the unit of which details are read.
pub fn cached_details_stay()
    ensures law { CachedDetailLaws }
{}

/// Functions stay those of a unit that have a range, each once, where details are read.
pub fn listed_functions_stay()
    ensures law { ListedFunctionLaws }
{}

/// No reading of lines, functions, names or details gives `OutOfMemory`: whatever the bytes are, it
/// gives a value or another fault.
pub fn fault_laws()
    ensures law { UnitReadingsAreNotRefused }
{}
