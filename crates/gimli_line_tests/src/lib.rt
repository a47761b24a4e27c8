//! Worked line programs, read through the calls of `gimli_line` alone.
#![tactic(auto)]

#[cfg(test)]
mod tests;
