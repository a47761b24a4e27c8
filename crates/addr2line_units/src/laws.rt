//! Laws of legacy names, of the units of a context, of their views and loads, of parses of all
//! functions, and of faults, with no code.

ghost use Rattle.addr2line_units.specs.FaultLaws.{UnitLookupsAreNotRefused};
ghost use Rattle.addr2line_units.specs.ParsesLaws.{FunctionParseLaws};
ghost use Rattle.addr2line_units.specs.LegacyLaws.{LegacyNameLaws};
ghost use Rattle.addr2line_units.specs.LoadsLaws.{LoadLaws};
ghost use Rattle.addr2line_units.specs.UnitsIndexLaws.{UnitOrderLaws};
ghost use Rattle.addr2line_units.specs.UnitViewLaws.{ViewLaws};

/// The names that `demangle` takes are the legacy names and no others, and each has one text.
pub fn legacy_name_laws()
    ensures law { LegacyNameLaws }
{}

/// The units of a context stand one after another, and so do those of the supplementary file: each
/// ends before a later one begins.
pub fn units_in_order()
    ensures law { UnitOrderLaws }
{}

/// A unit that is decided without an answer has its verdict with every answer, one that is open the
/// verdict of its answer; references lead to units in order from every view.
pub fn view_laws()
    ensures law { ViewLaws }
{}

/// A lookup of frames waits only for open units, whose loads are among those that its address waits
/// for; after an answer to one the others are left. So it doesn't wait once each of them has an
/// answer.
pub fn load_laws()
    ensures law { LoadLaws }
{}

/// After a parse of all functions and details without a fault, where all lines can be read too, no
/// lookup waits or has a fault. A parse after a parse has the same first fault, and decides no more
/// units.
pub fn function_parse_laws()
    ensures law { FunctionParseLaws }
{}

/// Nothing that units give is `OutOfMemory`, whatever the sections, the first answers and the
/// address are: units, lines, locations, views, loads, functions and frames are values or other
/// faults. So an answer `OutOfMemory` of a call is never what the sections give.
pub fn fault_laws()
    ensures law { UnitLookupsAreNotRefused }
{}
