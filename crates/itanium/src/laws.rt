//! Laws of C++ names and their texts: functions with a contract and no code.

ghost use Rattle.itanium.specs.Worked.{WorkedNames};

/// Names and their texts, computed: names of functions and objects, types, substitutions, template
/// arguments, special names and suffixes; and names that have no text, because they have a fault, pass
/// a limit, or spell what is of a later stage.
///
/// Source: the texts of llvm-cxxfilt 22.1.8.
pub fn worked_names()
    ensures law { WorkedNames }
{}
