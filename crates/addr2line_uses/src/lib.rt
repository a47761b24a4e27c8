//! What a caller writes, task by task, as docs/LIBRARY.md shows it.
#![tactic(auto)]

pub mod address_range;
pub mod frames;
pub mod open_file;
pub mod recorded_calls;
pub mod samples;
pub mod sections;
pub mod split_files;
mod tests;
