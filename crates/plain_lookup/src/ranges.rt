//! The ranges that the attributes of an entry give.

use gimli::UnitRef;
use gimli::read::{Attribute, AttributeValue, DwAt, Error, Range, Reader};
use std::alloc::Global;

/// What the attributes of an entry say of its ranges: of each kind the last that counts.
#[derive(Clone, Copy)]
pub struct RangeWords {
    /// The address of low_pc.
    pub low: Option<u64>,
    /// The address of high_pc.
    pub high: Option<u64>,
    /// The size that high_pc gives.
    pub size: Option<u64>,
    /// Where the range list begins.
    pub list: Option<u64>,
}

/// The words of an entry without attributes.
pub const NO_WORDS: RangeWords = RangeWords {
    low: None,
    high: None,
    size: None,
    list: None,
};

// The address that a value is, or that its index names; none of another form.
fn address_of<R: Reader>(
    view: UnitRef<'_, R>,
    value: AttributeValue<R>,
) -> Result<Option<u64>, Error> {
    match value {
        AttributeValue::Addr(address) => Ok(Some(address)),
        AttributeValue::DebugAddrIndex(index) => Ok(Some(view.address(index)?)),
        _ => Ok(None),
    }
}

// The later of two words.
fn later(before: Option<u64>, after: Option<u64>) -> Option<u64> {
    match after {
        Some(word) => Some(word),
        None => before,
    }
}

impl RangeWords {
    /// These words after one more attribute of the entry.
    ///
    /// Refused for an index of an address or of a list that leads out of its section.
    pub fn with<R: Reader>(
        self,
        view: UnitRef<'_, R>,
        attribute: Attribute<R>,
    ) -> Result<RangeWords, Error> {
        let mut words = self;
        match attribute.name() {
            DwAt::DW_AT_low_pc => words.low = later(self.low, address_of(view, attribute.value())?),
            DwAt::DW_AT_high_pc => {
                words.size = later(self.size, attribute.udata_value());
                words.high = later(self.high, address_of(view, attribute.value())?);
            }
            DwAt::DW_AT_ranges => words.list = view.attr_ranges_offset(attribute.value())?,
            _ => {}
        }
        Ok(words)
    }

    // The range from low_pc on.
    fn range(self) -> Option<Range> {
        let begin = self.low?;
        match (self.high, self.size) {
            (Some(end), _) => Some(Range { begin, end }),
            (None, Some(size)) => Some(Range {
                begin,
                end: begin.wrapping_add(size),
            }),
            (None, None) => None,
        }
    }

    /// The ranges: those of the list if there is one, else from low_pc to high_pc.
    ///
    /// Refused by the first fault of the list.
    pub fn ranges<R: Reader>(
        self,
        alloc: Global,
        view: UnitRef<'_, R>,
    ) -> Result<Vec<Range>, Error> {
        let mut ranges = Vec::new(alloc);
        let Some(offset) = self.list else {
            if let Some(range) = self.range() {
                push_range(&mut ranges, range)?;
            }
            return Ok(ranges);
        };
        let mut list = view.ranges(offset)?;
        for _ in 0..u64::MAX {
            match list.next()? {
                Some(range) => push_range(&mut ranges, range)?,
                None => break,
            }
        }
        Ok(ranges)
    }
}

// Empty and reversed ranges are dropped.
fn push_range(ranges: &mut Vec<Range>, range: Range) -> Result<(), Error> {
    if range.begin < range.end {
        ranges.push(range)?;
    }
    Ok(())
}
