//! What becomes of sections that are compressed.

/// What becomes of a section that is compressed, when a file is read.
#[derive(Clone, Copy, Debug, PartialEq, Eq)]
pub enum CompressedSections {
    /// It is refused, as by `ElfFile::section`.
    Refused,
    /// It is decompressed, as by `ElfFile::decompressed_section`.
    Decompressed,
}
