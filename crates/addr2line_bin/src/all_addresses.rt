//! The addresses of all rows of a file.

ghost use Rattle.std.specs.Prelude.{◌≡◌, IfErr, IfOk, [], OnOk};
ghost use Rattle.std.specs.Result.{IsOkAnd};
ghost use Rattle.elf.specs.declared.error.LoaderError.TheVariants.{OutOfMemory};
ghost use Rattle.addr2line_units.specs.LocationsLeft.{locations_left};
ghost use Rattle.addr2line_bin.specs.AllAddresses.{AreAllAddresses, addresses_in, is_above};
ghost use Rattle.addr2line_bin.specs.AllAddresses.{keep_rising, rising_after};
ghost use Rattle.addr2line_bin.specs.FileAnswers.{StaysAnswered};

use crate::lookups::Lookups;
use addr2line::gimli::read::Reader;
use addr2line::{LoaderError, LocationRangeIter};
use std::alloc::{AllocError, Global};

// Whether an address is above the last that was kept, if there is one.
fn is_above(last: Option<u64>, address: u64) -> bool
    ensures gives { result ≡ is_above last address }
{
    match last {
        Some(last) => last < address,
        None => true,
    }
}

// Keeps an address if it is above all that were kept before.
fn keep_rising(kept: &mut Vec<u64>, address: u64) -> Result<(), AllocError>
    ensures gives { OnOk result (kept.new.items ≡ keep_rising kept.old.items address) }
{
    if is_above(kept.last().copied(), address) {
        kept.push(address)?;
    }
    Ok(())
}

// The addresses of rows, up to the first fault, each above all before it.
fn collect<R: Reader>(alloc: Global, rows: LocationRangeIter<'_, R>) -> Result<Vec<u64>, AllocError>
    ensures gives { IfOk result (λ v. v.items
        ≡ rising_after [] (addresses_in (locations_left rows.entry))) }
{
    let mut rows = rows;
    let mut kept = Vec::new(alloc);
    while let Some(row) = rows.next() {
        keep_rising(&mut kept, row.0)?;
    }
    Ok(kept)
}

// The same of rows, or their fault.
fn collect_found<R: Reader>(
    alloc: Global,
    rows: Result<LocationRangeIter<'_, R>, LoaderError>,
) -> Result<Vec<u64>, LoaderError>
    ensures gives { IfOk result (λ v. IsOkAnd rows.entry (λ r. v.items
        ≡ rising_after [] (addresses_in (locations_left r)))) }
    ensures refused { IfErr rows.entry (λ e. e ≡ OutOfMemory)
        → IfErr result (λ e. e ≡ OutOfMemory) }
{
    Ok(collect(alloc, rows?)?)
}

/// The addresses of all rows.
///
/// Refused `OutOfMemory` alone.
pub fn all_addresses<L: Lookups>(alloc: Global, lookups: &mut L) -> Result<Vec<u64>, LoaderError>
    ensures gives { IfOk result (λ v. AreAllAddresses (L.answers lookups.old) v.items) }
    ensures refused { IfErr result (λ e. e ≡ OutOfMemory) }
    ensures kept { StaysAnswered (L.answers lookups.old) (L.answers lookups.new) }
{
    collect_found(alloc, lookups.find_location_range(0, u64::MAX))
}
