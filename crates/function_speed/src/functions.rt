//! The functions of all units, their details, and the checksums of these.

ghost use Rattle.addr2line_lines.specs.CachedNames.{AreNamesIn};
ghost use Rattle.addr2line_lines.specs.References.{AreInOrder, IsScope};
ghost use Rattle.addr2line_lines.specs.Scopes.{as_scope};

use crate::mixed;
use addr2line_lines::{FileUnits, Functions, InlinedFunction, Scope};
use gimli::{Dwarf, Error, Reader, Unit};
use std::alloc::Global;

// How many addresses are looked up in the functions of a unit.
const LOOKUPS: usize = 512;

// The next number of those that look like chance.
fn next_state(state: u64) -> u64 {
    state
        .wrapping_mul(6_364_136_223_846_793_005)
        .wrapping_add(1_442_695_040_888_963_407)
}

// An address below a limit.
fn probe_of(state: u64, limit: u64) -> u64 {
    (state >> 32).wrapping_mul(limit) >> 32
}

// The length of a name and 1, and 0 where there is none.
fn name_length<R: Reader>(name: Option<&R>) -> u64 {
    match name {
        Some(name) => name.len().wrapping_add(1),
        None => 0,
    }
}

// The sum with where the entries of functions begin.
fn with_offsets<R: Reader>(sum: u64, functions: &Functions<R>) -> u64 {
    let mut sum = sum;
    for place in 0..usize::MAX {
        match functions.offset(place) {
            Some(offset) => sum = mixed(sum, offset.0),
            None => break,
        }
    }
    sum
}

// The sum with the places of the functions at addresses below a limit.
fn with_places<R: Reader>(sum: u64, functions: &Functions<R>, limit: u64) -> u64 {
    let mut sum = sum;
    let mut state = 0;
    for _ in 0..LOOKUPS {
        state = next_state(state);
        let found = match functions.find(probe_of(state, limit)) {
            Some(place) => (place as u64).wrapping_add(1),
            None => 0,
        };
        sum = mixed(sum, found);
    }
    sum
}

// The sum with the lengths of the names of functions.
fn with_names<R: Reader>(sum: u64, functions: &Functions<R>) -> u64 {
    let mut sum = sum;
    for place in 0..usize::MAX {
        if functions.offset(place).is_none() {
            break;
        }
        sum = mixed(sum, name_length(functions.name(place)));
    }
    sum
}

// What the fields of an inlined entry count.
fn fields_of<R: Reader>(inlined: InlinedFunction<'_, R>) -> u64 {
    u64::from(inlined.call_line)
        .wrapping_mul(3)
        .wrapping_add(u64::from(inlined.call_column).wrapping_mul(5))
        .wrapping_add(inlined.call_file.unwrap_or(0).wrapping_mul(7))
        .wrapping_add(inlined.dw_die_offset.0.wrapping_mul(11))
        .wrapping_add(name_length(inlined.name()).wrapping_mul(13))
}

// The sum with the inlined entries of all functions.
fn with_inlined<R: Reader>(sum: u64, functions: &Functions<R>) -> u64 {
    let mut sum = sum;
    for place in 0..usize::MAX {
        match functions.inlined(place) {
            Some(inlined) => sum = mixed(sum, fields_of(inlined)),
            None => break,
        }
    }
    sum
}

// Where the entry of an inlined function begins, and 0 where there is none.
fn inlined_offset<R: Reader>(functions: &Functions<R>, place: Option<&usize>) -> u64 {
    let Some(place) = place else {
        return 0;
    };
    match functions.inlined(*place) {
        Some(inlined) => inlined.dw_die_offset.0,
        None => 0,
    }
}

// The sum with how many inlined functions there are at an address, and with where the entry of the
// innermost one begins.
fn with_chain<R: Reader>(
    alloc: Global,
    sum: u64,
    functions: &Functions<R>,
    probe: u64,
) -> Result<u64, Error> {
    let Some(place) = functions.find(probe) else {
        return Ok(sum);
    };
    let chain = functions.find_inlined_functions(alloc, place, probe)?;
    let sum = mixed(sum, chain.len() as u64);
    Ok(mixed(sum, inlined_offset(functions, chain.last())))
}

// The sum with the inlined functions at addresses below a limit.
fn with_chains<R: Reader>(
    alloc: Global,
    sum: u64,
    functions: &Functions<R>,
    limit: u64,
) -> Result<u64, Error> {
    let mut sum = sum;
    let mut state = 0;
    for _ in 0..LOOKUPS {
        state = next_state(state);
        sum = with_chain(alloc, sum, functions, probe_of(state, limit))?;
    }
    Ok(sum)
}

// Reads the details of all functions of a unit, and adds them to the sum.
fn with_details<R: Reader + Drop>(
    alloc: Global,
    sum: u64,
    scope: Scope<'_, R>,
    unit: &Unit<R>,
    functions: &mut Functions<R>,
    limit: u64,
) -> Result<u64, Error>
    requires in_order { IsScope (as_scope scope) }
    requires unit { AreNamesIn (as_scope scope) unit.now functions.old.names }
{
    functions.read_all(scope, unit)?;
    let sum = with_inlined(with_names(sum, functions), functions);
    with_chains(alloc, sum, functions, limit)
}

/// The checksum of the functions of all units, of those at addresses below a limit, and, if asked
/// for, of their details.
pub fn functions_checksum<R: Reader + Drop>(
    alloc: Global,
    dwarf: &Dwarf<R>,
    units: &Vec<Unit<R>>,
    limit: u64,
    details: bool,
) -> Result<u64, Error>
    requires in_order { AreInOrder units.now.items }
{
    let scope = Scope {
        file: FileUnits {
            dwarf,
            units: Some(units),
        },
        sup: None,
    };
    let mut all = Vec::new(alloc);
    let mut sum = 0;
    for unit in units {
        let mut functions = Functions::parse(alloc, scope, unit)?;
        sum = with_places(with_offsets(sum, &functions), &functions, limit);
        if details {
            sum = with_details(alloc, sum, scope, unit, &mut functions, limit)?;
        }
        all.push(functions)?;
    }
    Ok(sum)
}
