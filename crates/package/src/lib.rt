//! Packages of split files (DWARF 5, section 7.3.5), also in the GNU form that DWARF 4 has them in.
#![tactic(auto)]

mod constants;
mod dwarf_package;
mod header;
mod laws;
mod numbers;
#[cfg(test)]
mod tests;
mod unit_index;

pub use crate::dwarf_package::DwarfPackage;
pub use crate::laws::search_laws;
pub use crate::unit_index::{SectionPart, UnitIndex, UnitSections};
