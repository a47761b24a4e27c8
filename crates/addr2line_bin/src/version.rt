//! The version of the program.

/// What `--version` prints after the program's name: the version of this repository, and what it is
/// a port of.
pub const VERSION: &str = "0.1.0, a port of addr2line 0.27.1";
