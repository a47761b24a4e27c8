//! Reading the sections of DWARF: units, their records and their strings.
#![tactic(auto)]

mod abbreviations_cache;
mod aranges;
mod constants;
mod dwarf;
mod entries;
mod header;
mod laws;
mod load;
mod ranges;
mod ranges_offset;
mod record;
mod rnglists;
mod sections;
mod sink;
mod text;
mod unit;
mod unit_record;
mod unit_ref;
mod units;
mod wanted;

pub use crate::abbreviations_cache::AbbreviationsCache;
pub use crate::aranges::{ArangeEntryIter, ArangeHeader, ArangeHeaderIter};
pub use crate::dwarf::{Dwarf, DwarfFileType, SupDwarf};
pub use crate::entries::EntriesRaw;
pub use crate::laws::{fault_laws, headers_in_order, item_laws, unit_laws};
pub use crate::load::SectionId;
pub use crate::ranges::RngListIter;
pub use crate::sections::{
    DebugAbbrev, DebugAddr, DebugAranges, DebugInfo, DebugLine, DebugLineStr, DebugRanges,
    DebugRngLists, DebugStr, DebugStrOffsets,
};
pub use crate::sink::{AttributeSink, NoNames, pass_over, take_attributes};
pub use crate::unit::{DwoId, ToUnitOffset, UnitHeader, UnitType};
pub use crate::unit_record::Unit;
pub use crate::unit_ref::UnitRef;
pub use crate::units::UnitHeaders;
pub use crate::wanted::{WantedAttribute, WantedNames, split_at_wanted};
pub use gimli_line as line;
pub use gimli_line::{FileEntry, IncompleteLineProgram, LineProgramHeader, LineRow};
pub use gimli_read as read;
pub use gimli_read::{
    Abbreviation, Abbreviations, Attribute, AttributeSpecification, AttributeValue,
    DebugInfoOffset, DwAt, DwForm, DwLang, DwTag, Encoding, EndianBytes, EndianSlice, Error,
    Format, NumberValue, Range, Reader, RunTimeEndian, UnitOffset,
};
