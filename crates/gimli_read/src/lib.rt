//! Reading DWARF sections: readers, numbers, forms and abbreviations.
#![tactic(auto)]

mod abbrev;
mod constants;
mod endian;
mod endian_bytes;
mod endian_slice;
mod error;
mod laws;
mod leb128;
mod number_value;
mod range;
mod reader;
mod size;
mod skip;
mod value;

pub use crate::abbrev::{Abbreviation, Abbreviations, AttributeSpecification};
pub use crate::constants::{CLOSING_CODE, DWARF_2, DWARF_4, DWARF_5, DwAt, DwForm, DwLang, DwTag};
pub use crate::endian::{Encoding, Format, RunTimeEndian};
pub use crate::endian_bytes::EndianBytes;
pub use crate::endian_slice::EndianSlice;
pub use crate::error::Error;
pub use crate::laws::{alike_laws, fault_laws, leb128_laws, sharing_laws, size_laws, value_laws};
pub use crate::number_value::{NumberValue, read_number};
pub use crate::range::Range;
pub use crate::reader::{Reader, is_utf8, read_address_size, read_initial_length, zero_of};
pub use crate::size::is_address_size;
pub use crate::skip::{skip_attribute, skip_attributes, skip_attributes_of};
pub use crate::value::{
    Attribute, AttributeValue, DebugInfoOffset, UnitOffset, read_attribute, read_value,
};
