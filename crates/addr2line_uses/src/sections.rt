//! Sections that stand in memory, wherever they come from.

ghost use Rattle.gimli_read.specs.Reading.{ExactlyUnlessOom};
ghost use Rattle.addr2line_uses.specs.Lines.{line_of};

use addr2line::Context;
use addr2line::gimli::read::{EndianSlice, Error, Reader, RunTimeEndian};
use addr2line::gimli::{Dwarf, SectionId};
use std::alloc::Global;

/// A section by its name, as `.debug_info`.
pub type NamedSection<'a> = (&'a str, &'a [u8]);

// The bytes of a section; a section that isn't there is empty.
fn bytes_of<'a>(sections: &'a [NamedSection<'a>], id: SectionId) -> &'a [u8] {
    for (name, bytes) in sections {
        if *name == id.name() {
            return bytes;
        }
    }
    &[]
}

/// The context of sections of a file of little endian. The sections are borrowed, none is copied.
pub fn context_of<'a>(
    alloc: Global,
    sections: &'a [NamedSection<'a>],
) -> Result<Context<EndianSlice<'a>>, Error> {
    let dwarf = Dwarf::load(|id| -> Result<EndianSlice<'_>, Error> {
        Ok(EndianSlice::new(bytes_of(sections, id), RunTimeEndian::Little))
    })?;
    Context::from_dwarf(alloc, dwarf)
}

/// The line of an address, if it is known.
pub fn line_at<R: Reader>(context: &mut Context<R>, address: u64) -> Result<Option<u32>, Error>
    ensures gives { ExactlyUnlessOom (λ line. line) result (line_of context.old.sections address) }
{
    match context.find_location(address)? {
        Some(location) => Ok(location.line),
        None => Ok(None),
    }
}
