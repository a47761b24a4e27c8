//! Lines of a unit: sequences of rows, the texts of files, and the locations of addresses.
#![tactic(auto)]

mod count;
mod detail;
mod details;
mod files;
mod found_name;
mod function;
mod functions;
mod inlined;
mod inlined_functions;
mod inlined_lists;
mod inlined_ranges;
mod laws;
mod line;
mod location;
mod name;
mod names;
mod nesting;
mod packed;
mod path;
mod picks;
mod range;
mod references;
mod row;
mod rows;
mod search;
mod segments;
mod sequence;
mod short_list;
mod spans;

pub use crate::count::Count;
pub use crate::function::{RangeAttributes, read_ranges};
pub use crate::functions::Functions;
pub use crate::inlined::CallSite;
pub use crate::inlined_functions::InlinedFunction;
pub use crate::laws::{
    cached_details_stay, each_address_has_a_row, fault_laws, inlined_are_nested,
    inlined_chain_is_whole, listed_functions_stay, lone_is_picked, lone_is_shortest, name_chains,
    none_is_shorter, order_is_free, sequences_rise,
};
pub use crate::line::Lines;
pub use crate::location::Location;
pub use crate::picks::InlinedPlaces;
pub use crate::range::{LineLocationRangeIter, LineRanges};
pub use crate::references::{FileUnits, Scope};
pub use crate::row::Row;
pub use crate::segments::{FunctionAddress, Segments};
