//! Laws of files of which only some pieces were read: functions with a contract and no code.

ghost use Rattle.elf.specs.ImageLaws.{ImagesLoadAlike};

/// Pieces of a file that have all that is wanted of it answer as the whole file does: with the same
/// refusal, or with the same headers. Then a section of any name has the same addresses, any probe
/// the same symbol, and each section of debug information that lookups read has the same bytes or
/// the same refusal, as it stands and decompressed.
///
/// Source: System V ABI, Object Files. Own: which parts are wanted.
pub fn image_laws()
    ensures law { ImagesLoadAlike }
{}
