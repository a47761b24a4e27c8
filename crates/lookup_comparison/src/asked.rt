//! The calls that both lookups are given.

use gimli::read::Error;
use std::alloc::Global;

/// The answers to the loads of a lookup, in turn.
#[derive(Clone, Copy, Debug)]
pub enum Given {
    /// None: it waits.
    Nothing,
    /// The lookup is given up.
    Abandon,
    /// There is no split file, and then there is one.
    NoneThenSplit,
    /// There is one, and then there is none.
    SplitThenNone,
}

/// A call. Units are named by their numbers, from 0.
#[derive(Clone, Copy, Debug)]
pub enum Asked {
    /// The location of an address.
    Location(u64),
    /// The rows that a range of addresses meets.
    Range(u64, u64),
    /// The frames at an address.
    Frames(u64, Given),
    /// The unit at an address.
    Unit(u64, Given),
    /// The loads that an address waits for.
    Preload(u64),
    /// The load of a unit is answered by the split file, or by none.
    Load(usize, bool),
    /// A unit's answer is forgotten.
    Forget(usize),
    /// All lines are parsed.
    ParseLines,
    /// All functions are parsed.
    ParseFunctions,
    /// All functions are parsed with their inlined functions.
    ParseInlined,
}

// Addresses that are always asked.
const ALWAYS: [u64; 2] = [0x18, u64::MAX];

// The units whose loads are answered and forgotten by number. No file has the last one.
const UNITS: [usize; 3] = [0, 1, 2];

// These addresses in order, each once.
fn in_order(addresses: Vec<u64>) -> Vec<u64> {
    let mut addresses = addresses;
    addresses.sort_unstable();
    addresses.dedup();
    addresses
}

// These addresses and those that are always asked.
fn with_always(alloc: Global, addresses: &[u64]) -> Result<Vec<u64>, Error> {
    let mut all = Vec::new(alloc);
    all.extend_from_slice(&ALWAYS)?;
    all.extend_from_slice(addresses)?;
    Ok(in_order(all))
}

// Each of these addresses and the one before it.
fn with_before(alloc: Global, addresses: &[u64]) -> Result<Vec<u64>, Error> {
    let mut all = Vec::new(alloc);
    for address in addresses {
        all.extend_from_slice(&[*address, address.wrapping_sub(1)])?;
    }
    Ok(in_order(all))
}

// One call for each address.
fn each<F: Fn(u64) -> Asked + Drop>(
    calls: &mut Vec<Asked>,
    probes: &[u64],
    call: F,
) -> Result<(), Error>
    requires { F.IsAlwaysCallable call }
{
    for probe in probes {
        calls.push(call(*probe))?;
    }
    Ok(())
}

// The rows between addresses, all of them, and those of a range whose ends are reversed.
fn ranges(calls: &mut Vec<Asked>, probes: &[u64]) -> Result<(), Error> {
    let mut before = 0;
    for probe in probes {
        calls.push(Asked::Range(before, *probe))?;
        before = *probe;
    }
    calls.extend_from_slice(&[Asked::Range(0, u64::MAX), Asked::Range(0x28, 0x14)])?;
    Ok(())
}

fn forget_all(calls: &mut Vec<Asked>) -> Result<(), Error> {
    for unit in UNITS {
        calls.push(Asked::Forget(unit))?;
    }
    Ok(())
}

// Lookups that wait, are given up or answered, and then wait for nothing.
fn lookups(calls: &mut Vec<Asked>, probes: &[u64], between: &[u64]) -> Result<(), Error> {
    each(calls, probes, Asked::Preload)?;
    calls.push(Asked::Frames(0x18, Given::Nothing))?;
    calls.push(Asked::Unit(0x18, Given::Abandon))?;
    each(
        calls,
        between,
        |probe| Asked::Frames(probe, Given::SplitThenNone),
    )?;
    each(calls, probes, |probe| Asked::Unit(probe, Given::Nothing))?;
    forget_all(calls)?;
    calls.push(Asked::Unit(0x18, Given::NoneThenSplit))?;
    each(calls, probes, |probe| Asked::Frames(probe, Given::Nothing))
}

// The loads of units are answered by number, of which the first counts, and by what parses all.
fn loads(calls: &mut Vec<Asked>) -> Result<(), Error> {
    calls.push(Asked::Forget(0))?;
    for (unit, is_split) in [(1, true), (0, true), (0, false), (2, true)] {
        calls.push(Asked::Load(unit, is_split))?;
    }
    calls.push(Asked::Frames(0x18, Given::Nothing))?;
    for parse in [Asked::ParseFunctions, Asked::ParseInlined] {
        forget_all(calls)?;
        calls.extend_from_slice(&[
            parse,
            Asked::Preload(0x18),
            Asked::Load(0, true),
            Asked::Unit(0x18, Given::Nothing),
            Asked::Frames(0x24, Given::Nothing),
        ])?;
    }
    forget_all(calls)
}

fn all_once(calls: &mut Vec<Asked>, probes: &[u64], between: &[u64]) -> Result<(), Error> {
    each(calls, between, Asked::Location)?;
    ranges(calls, probes)?;
    lookups(calls, probes, between)?;
    calls.push(Asked::ParseLines)?;
    loads(calls)
}

/// The calls of a file whose answers change at these addresses: all of them twice over.
pub fn calls_at(alloc: Global, addresses: &[u64]) -> Result<Vec<Asked>, Error> {
    let probes = with_always(alloc, addresses)?;
    let between = with_before(alloc, probes.as_slice())?;
    let mut calls = Vec::new(alloc);
    all_once(&mut calls, probes.as_slice(), between.as_slice())?;
    all_once(&mut calls, probes.as_slice(), between.as_slice())?;
    Ok(calls)
}
