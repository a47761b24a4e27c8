//! Worked cases of loaders over files in memory.
#![tactic(auto)]

#[cfg(test)]
mod tests;
