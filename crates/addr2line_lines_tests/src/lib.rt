//! Worked cases of the lines and functions of units, of names and of ranges, without contexts; and
//! the sections that cases of contexts read too.
#![tactic(auto)]

pub mod sections;
#[cfg(test)]
mod tests;
pub mod vectors;
