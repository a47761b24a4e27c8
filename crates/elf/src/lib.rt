//! ELF files: their sections, the addresses of these, and their symbols.
#![tactic(auto)]

mod compressed;
mod constants;
mod error;
mod file;
mod header;
mod image;
mod laws;
mod layout;
mod parts;
mod section;
mod symbol;
mod text_starts;
mod wanted;

pub use crate::error::LoaderError;
pub use crate::file::ElfFile;
pub use crate::image::FileImage;
pub use crate::laws::image_laws;
pub use crate::parts::PartSource;
pub use crate::symbol::Symbol;
pub use crate::wanted::read_wanted;
