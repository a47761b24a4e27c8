//! Names, locations and frames of units.
#![tactic(auto)]

pub mod attributes;
pub mod continuation;
mod entries;
pub mod frames;
pub mod index;
mod laws;
mod legacy;
mod loads;
pub mod locations;
pub mod parses;
pub mod range_iter;
pub mod sup;
pub mod unit;
pub mod units;

pub use crate::frames::{Frame, FrameIter, FunctionName};
pub use crate::laws::{
    fault_laws, function_parse_laws, legacy_name_laws, load_laws, units_in_order, view_laws,
};
pub use crate::legacy::{demangle, demangle_auto};
