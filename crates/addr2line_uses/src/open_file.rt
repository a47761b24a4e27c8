//! A file opened in one call.

use crate::frames::file_and_line;
use addr2line::{Loader, LoaderError};

/// The ELF file at a path, with its debug information.
pub fn open_file(rt: HostRuntime, path: &str) -> Result<Loader, LoaderError> {
    Loader::new(rt, path)
}

/// Prints the file and line of an address.
pub fn print_location(rt: HostRuntime, loader: &mut Loader, address: u64) -> anyhow::Result<()> {
    let (file, line) = file_and_line(loader.find_location(address)?);
    println!(rt; "{file}:{line}")?;
    Ok(())
}
