//! Numbers at places of an index.

ghost use Rattle.std.specs.Prelude.{◌≡◌, ◌≤◌, ◌+◌, length};
ghost use Rattle.package.specs.Index.{number_from};

use byteorder::{BigEndian, ByteOrder, LittleEndian};
use gimli_read::{Reader, RunTimeEndian};

/// The number in the four bytes from a place on.
#[tactic(auto, unfolding(crate::specs::Index::number_from))]
pub(crate) fn word_at<R: Reader>(section: &R, place: u64) -> u32
    requires within { place + 4 ≤ length (R.section section.now).bytes }
    ensures gives { result ≡ number_from 4 place (R.section section.now) }
{
    let (_, rest) = section.to_slice().split_at(place as usize);
    match section.endian() {
        RunTimeEndian::Little => LittleEndian::read_u32(rest),
        RunTimeEndian::Big => BigEndian::read_u32(rest),
    }
}

/// The number in the eight bytes from a place on.
#[tactic(auto, unfolding(crate::specs::Index::number_from))]
pub(crate) fn long_at<R: Reader>(section: &R, place: u64) -> u64
    requires within { place + 8 ≤ length (R.section section.now).bytes }
    ensures gives { result ≡ number_from 8 place (R.section section.now) }
{
    let (_, rest) = section.to_slice().split_at(place as usize);
    match section.endian() {
        RunTimeEndian::Little => LittleEndian::read_u64(rest),
        RunTimeEndian::Big => BigEndian::read_u64(rest),
    }
}
