//! Lines that are cached, and lookups in them.

use crate::mixed;
use addr2line_lines::{Lines, Location};
use gimli::{
    DebugAbbrev, DebugAddr, DebugAranges, DebugInfo, DebugLine, DebugLineStr, DebugRanges,
    DebugRngLists, DebugStr, DebugStrOffsets, Dwarf, DwarfFileType, Error, Reader,
};
use std::alloc::Global;

// A section, after its length in eight bytes.
fn section<R: Reader + Drop>(input: &mut R) -> Result<R, Error> {
    let len = input.read_u64()?;
    input.split(len)
}

// The sections of a file of four: abbreviations, units, line programs and their strings.
fn sections<R: Reader + Drop>(input: &mut R) -> Result<Dwarf<R>, Error> {
    let debug_abbrev = section(input)?;
    let debug_info = section(input)?;
    let debug_line = section(input)?;
    let debug_line_str = section(input)?;
    Ok(Dwarf {
        debug_abbrev: DebugAbbrev::from(debug_abbrev),
        debug_addr: DebugAddr::from(input.split(0)?),
        debug_aranges: DebugAranges::from(input.split(0)?),
        debug_info: DebugInfo::from(debug_info),
        debug_line: DebugLine::from(debug_line),
        debug_line_str: DebugLineStr::from(debug_line_str),
        debug_ranges: DebugRanges::from(input.split(0)?),
        debug_rnglists: DebugRngLists::from(input.split(0)?),
        debug_str: DebugStr::from(input.split(0)?),
        debug_str_offsets: DebugStrOffsets::from(input.split(0)?),
        file_type: DwarfFileType::Main,
        sup: None,
    })
}

// A unit's lines, and the addresses from the begin of its first sequence to the greatest end.
#[derive(Drop)]
struct CachedLines {
    begin: u64,
    end: u64,
    lines: Lines,
}

impl CachedLines {
    // The lines of a unit.
    fn new(lines: Lines) -> CachedLines {
        let mut begin = u64::MAX;
        let mut end = 0;
        for range in lines.ranges() {
            begin = begin.min(range.begin);
            end = end.max(range.end);
        }
        CachedLines { begin, end, lines }
    }
}

// The lines of all units.
fn cache_lines<R: Reader + Drop>(alloc: Global, input: &mut R) -> Result<Vec<CachedLines>, Error> {
    let dwarf = sections(input)?;
    let mut cached = Vec::new(alloc);
    let mut headers = dwarf.units()?;
    while let Some(header) = headers.next()? {
        let unit = dwarf.unit(alloc, header)?;
        cached.push(CachedLines::new(Lines::parse(alloc, &dwarf, &unit)?))?;
    }
    Ok(cached)
}

// The location of an address in the last unit that begins at or before it.
fn find(cached: &[CachedLines], probe: u64) -> Option<Location<'_>> {
    let until = cached.partition_point(|unit| unit.begin <= probe);
    if until == 0 {
        return None;
    }
    cached[until - 1].lines.find_location(probe)
}

// The sum with a location, where there is one.
fn with_location(sum: u64, location: Option<Location<'_>>) -> u64 {
    let Some(location) = location else {
        return mixed(sum, 0);
    };
    let line = u64::from(location.line.unwrap_or(0));
    let column = u64::from(location.column.unwrap_or(0));
    let file = u64::from(location.file.is_some());
    mixed(
        sum,
        line.wrapping_mul(3)
            .wrapping_add(column.wrapping_mul(5))
            .wrapping_add(file),
    )
}

// The sum with the locations of addresses that look like chance.
fn with_lookups(sum: u64, cached: &[CachedLines], lookups: u64) -> u64 {
    let mut begin = u64::MAX;
    let mut end = 0;
    for unit in cached {
        begin = begin.min(unit.begin);
        end = end.max(unit.end);
    }
    let span = end.wrapping_sub(begin);
    let mut sum = sum;
    let mut state = 0u64;
    for _ in 0..lookups {
        state = state
            .wrapping_mul(6_364_136_223_846_793_005)
            .wrapping_add(1_442_695_040_888_963_407);
        let probe = begin.wrapping_add((state >> 32).wrapping_mul(span) >> 32);
        sum = with_location(sum, find(cached, probe));
    }
    sum
}

/// The checksum of the addresses that the units cover, and of the locations of `lookups` of them.
pub fn cached_checksum<R: Reader + Drop>(
    alloc: Global,
    input: &mut R,
    lookups: u64,
) -> Result<u64, Error> {
    let cached = cache_lines(alloc, input)?;
    let mut sum = 0;
    for unit in &cached {
        sum = mixed(mixed(sum, unit.begin), unit.end);
    }
    Ok(with_lookups(sum, &cached, lookups))
}
