//! The headers of a section's units, one after another.

ghost use Rattle.std.specs.Prelude.{◌≡◌, ◌≢◌, [], IfErr, OnErr};
ghost use Rattle.gimli_read.specs.Yields.{next_given};
ghost use Rattle.gimli.specs.Common.{ExactlyUnlessOomFor, OutOfMemory};
ghost use Rattle.gimli.specs.Header.{next_header_at};
ghost use Rattle.gimli.specs.UnitsLeft.{all_headers, gives_header};

use crate::header::read_header;
use crate::unit::UnitHeader;
use gimli_read::{EndianSlice, Error, Reader};
use std::marker::Model;

// The next unit's header, or none at the section's end. The fields are read from borrowed bytes, so
// that only a readable header takes memory, and what is refused leaves the reader where it was.
#[tactic(auto, unfolding(crate::specs::Header::next_header_at))]
fn read_next_header<R: Reader>(
    section_length: u64,
    input: &mut R,
) -> Result<Option<UnitHeader<R>>, Error>
    ensures gives { ExactlyUnlessOomFor R.shares gives_header (λ h. (h, R.section input.new)) result
        (next_header_at section_length (R.section input.old)) }
    ensures refused { OnErr result (R.section input.new ≡ R.section input.old) }
{
    if input.is_empty() {
        return Ok(None);
    }
    let mut bytes = EndianSlice::new(input.to_slice(), input.endian());
    let UnitHeader {
        encoding,
        unit_type,
        offset,
        debug_abbrev_offset,
        dwo_id,
        header_length,
        entries,
    } = read_header(section_length, &mut bytes)?;
    let unit_length = header_length + entries.len();
    let mut entries = input.split(unit_length)?;
    entries.skip(header_length)?;
    Ok(Some(UnitHeader {
        encoding,
        unit_type,
        offset,
        debug_abbrev_offset,
        dwo_id,
        header_length,
        entries,
    }))
}

/// The headers of the units of `.debug_info`, one after another.
#[derive(Drop)]
pub struct UnitHeaders<R: Reader> {
    section_length: u64,
    input: R,
}

impl<R: Reader> Model for UnitHeaders<R> {
    ghost use Rattle.std.specs.Prelude.{List, Result};
    ghost use Rattle.gimli_read.specs.declared.error.Error.{Error};
    ghost use Rattle.gimli.specs.Header.{UnitHeaderFields};
    ghost use Rattle.gimli.specs.Header.{next_header_at};
    ghost use Rattle.gimli.specs.UnitsLeft.{headers_left};

    ghost Value = { List (Result UnitHeaderFields Error) };

    ghost view = { λ a. headers_left a.section_length (R.section a.input) };
}

impl<R: Reader> UnitHeaders<R> {
    /// The units of `.debug_info`. Takes no memory.
    pub(crate) fn new(section: R) -> UnitHeaders<R>
        ensures gives { result ≡ all_headers (R.section section) }
    {
        UnitHeaders {
            section_length: section.len(),
            input: section,
        }
    }

    /// The next unit's header, or none at the section's end.
    ///
    /// Refused `UnknownReservedLength`, `UnexpectedEof`, `UnknownVersion`, `UnknownUnitType` and
    /// `UnsupportedAddressSize` by the header's fields in their order: then no further unit is
    /// given. May fail with `OutOfMemory` in place of a header, where bytes are shared: then a
    /// later call gives that header. Source: DWARF 5, section 7.5.1.
    pub fn next(&mut self) -> Result<Option<UnitHeader<R>>, Error>
        ensures gives { ExactlyUnlessOomFor R.shares gives_header (λ h. (h, self.new)) result
            (next_given self.old) }
        ensures refused { IfErr result (λ e. e ≢ OutOfMemory → self.new ≡ []) }
        ensures memory { IfErr result (λ e. e ≡ OutOfMemory → self.new ≡ self.old) }
    {
        match read_next_header(self.section_length, &mut self.input) {
            Ok(header) => Ok(header),
            Err(Error::OutOfMemory) => Err(Error::OutOfMemory),
            Err(error) => {
                self.input.skip(self.input.len())?;
                Err(error)
            }
        }
    }
}
