//! Rust's v0 names (RFC 2603 and what rustc added): the text that each stands for.
#![tactic(auto)]

mod grammar;
mod identifiers;
mod laws;
mod name;
mod numbers;
mod printer;
mod reading;
mod stop;

pub use crate::laws::{
    bounded_text, hidden_adds_nothing, names_without_text, read_onward, reads_alone, within_limits,
    worked_name,
};
pub use crate::name::demangle_v0;

#[cfg(test)]
mod tests;
