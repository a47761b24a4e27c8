//! The lookup of `addr2line` compared with that of `plain_lookup`, over files of which a byte is
//! changed or a section is cut.
//!
//! Both are given the same calls, and their whole replies are compared. Neither says what the other
//! should reply: the one has tables, searches and caches, the other filters lists.
#![tactic(auto)]

mod asked;
mod compared;
mod files;
mod plain_told;
mod product_told;
mod sweep;
mod told;
mod vectors;

pub use crate::sweep::{Counts, Found, Sweep};
pub use crate::vectors::{NAMES, vector};
