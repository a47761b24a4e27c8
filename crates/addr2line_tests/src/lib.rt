//! Worked cases of lookups, of the lines of units and of names.
#![tactic(auto)]

#[cfg(test)]
mod tests;
