//! From addresses to files and lines, by the DWARF sections of a file.
#![tactic(auto)]

mod answers;
mod by_files;
mod compressed;
mod context;
mod copies;
mod file_sections;
mod files;
mod frames;
mod kept_files;
mod kinds;
pub mod laws;
mod loader;
mod loads;
mod names;
mod opened;
mod parses;
mod reply;
mod session;
mod split_files;
mod stops;
mod suspended;
mod units;

pub use crate::compressed::CompressedSections;
pub use crate::context::Context;
pub use crate::files::{FileSource, FileStamp, FileTime, HostFiles, MemoryFiles};
pub use crate::frames::FramesLookup;
pub use crate::loader::{Loader, LoaderOver};
pub use crate::names::{Style, demangle_auto_with, demangle_v0};
pub use crate::opened::{open_bytes, open_bytes_with};
pub use crate::reply::{
    FoundUnit, OwnedFrame, OwnedLoad, OwnedLocation, OwnedName, OwnedSpan, Reply,
};
pub use crate::session::{Answer, Call, replay};
pub use crate::split_files::{read_split_sections, read_split_sections_with};
pub use crate::units::UnitLookup;
pub use addr2line_lines::Location;
pub use addr2line_units::continuation::{LookupContinuation, LookupResult};
pub use addr2line_units::locations::LocationRangeIter;
pub use addr2line_units::unit::{SplitDwarfLoad, UnitToken};
pub use addr2line_units::{Frame, FrameIter, FunctionName, demangle, demangle_auto};
pub use elf::{ElfFile, FileImage, LoaderError, PartSource, Symbol, read_wanted};
pub use gimli;
pub use gimli::read::Range;
