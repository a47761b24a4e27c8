//! A second lookup, for tests: plain filters over lists of entries and rows, without a table, a
//! search or a cache.
//!
//! Each lookup reads the unit that it needs anew, by the readings of the crate `gimli` alone, and
//! answers by lists: what the standard says, and the rules that this project adds. It is slow, and
//! it shares nothing with the crates that answer lookups but what reads entries and rows.
#![tactic(auto)]

mod calls;
mod cover;
mod detail;
mod frames;
mod functions;
mod history;
mod index;
mod lines;
mod location;
mod names;
mod path;
mod pick;
mod ranges;
mod view;

pub use crate::calls::{Answer, Call, Frame, Load, Place, Reply, Row};
pub use crate::history::History;
