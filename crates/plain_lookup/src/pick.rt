//! Which of several ranges that hold an address counts.

use gimli::read::{Range, UnitOffset};

/// Of the ranges that begin at or below the probe, the thing of the one with the greatest begin, of
/// these the greatest end, of these the last listed; none where that range doesn't hold the probe.
pub fn pick(listed: &[(Range, usize)], probe: u64) -> Option<usize> {
    let mut last = None;
    for (range, thing) in listed {
        if range.begin <= probe {
            last = match last {
                Some((begin, end, other)) if (range.begin, range.end) < (begin, end) => {
                    Some((begin, end, other))
                }
                _ => Some((range.begin, range.end, *thing)),
            };
        }
    }
    match last {
        Some((_, end, thing)) if probe < end => Some(thing),
        _ => None,
    }
}

/// Of the functions with a range that holds the probe, the one of the shortest such range, of these
/// the one whose entry comes first.
pub fn shortest(listed: &[(UnitOffset, Range)], probe: u64) -> Option<UnitOffset> {
    let mut found: Option<(u64, u64)> = None;
    for (offset, range) in listed {
        if range.begin <= probe && probe < range.end {
            let length = range.end.wrapping_sub(range.begin);
            found = match found {
                Some(best) if best <= (length, offset.0) => Some(best),
                _ => Some((length, offset.0)),
            };
        }
    }
    match found {
        Some((_, offset)) => Some(UnitOffset(offset)),
        None => None,
    }
}
