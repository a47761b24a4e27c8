//! Callers of the section reader at each of its two readers, and worked cases of its calls.
#![tactic(auto)]

mod exact;
#[cfg(test)]
mod tests;

pub use crate::exact::{
    all_of, attribute_of, constant_of, first_of, part_of, same_as, text_of, value_of,
};
