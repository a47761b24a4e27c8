//! The name of the program.

ghost use Rattle.std.specs.Prelude.{◌≡◌};
ghost use Rattle.addr2line_bin.specs.ProgramName.{program_name};

use std::path::Path;

/// The name that the program has in its messages: the last part of word 0's path, `addr2line` where
/// there is none.
pub fn program_name(words: &[String]) -> &str
    ensures gives { result.now ≡ program_name words.now }
{
    let name = match words.first() {
        Some(word) => Path::new(word.as_str()).file_name(),
        None => None,
    };
    name.unwrap_or("addr2line")
}
