//! Ranges of addresses.

/// The addresses from `begin` to below `end`, as the file has them.
#[derive(Clone, Copy, Debug, PartialEq, Eq)]
pub struct Range {
    /// The first address.
    pub begin: u64,
    /// The address after the last one.
    pub end: u64,
}
