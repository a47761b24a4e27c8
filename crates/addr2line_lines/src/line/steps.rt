//! How many steps the search for an address takes, counted as it runs.

ghost use Rattle.std.specs.Prelude.{◌≡◌, option_map};
ghost use Rattle.addr2line_lines.specs.Location.{location_at};
ghost use Rattle.addr2line_lines.specs.LentLocation.{as_location};
ghost use Rattle.addr2line_lines.specs.Spans.{row_at};

use crate::count::Count;
use crate::line::Lines;
use crate::location::Location;
use crate::packed::CountedRows;
use crate::row::Row;
use crate::search::{Table, search};
use crate::sequence::LineSequence;

// Rows and sequences that are looked at, and a number that each look raises.
#[derive(Drop)]
struct WatchedRows<'a> {
    rows: CountedRows<'a>,
    number: u64,
}

impl<'a> Table for WatchedRows<'a> {
    ghost steps = { λ w. w.rows.steps };

    ghost sequences = { λ w. w.rows.packed.now.sequences };

    ghost rows = { λ w. w.rows.packed.now.rows };

    fn len(&self) -> usize {
        self.rows.len()
    }

    fn sequence(&mut self, place: usize) -> LineSequence {
        self.number = self.number.wrapping_add(1);
        self.rows.sequence(place)
    }

    fn block(&mut self, place: usize) -> u64 {
        self.number = self.number.wrapping_add(1);
        self.rows.block(place)
    }

    fn row(&mut self, place: usize) -> Row {
        self.number = self.number.wrapping_add(1);
        self.rows.row(place)
    }
}

impl Lines {
    // The row of an address, and how many steps its search took.
    fn find_row_watched(&self, probe: u64) -> (Option<Row>, u64)
        ensures found { result.0 ≡ row_at probe self.now.sequences }
    {
        self.packed.known();
        let mut rows = WatchedRows {
            rows: CountedRows {
                packed: &self.packed,
                steps: Count::new(),
            },
            number: 0,
        };
        let row = search(&mut rows, probe);
        (row, rows.number)
    }

    /// The location of an address, `None` where no sequence has it, and how many steps its search
    /// took. Takes no memory.
    ///
    /// It is the search of `find_location`, over a table that counts each look at a sequence, at
    /// the first address of a block and at a row as it runs, so that a test can compare the number
    /// with the bound.
    pub fn find_location_watched(&self, probe: u64) -> (Option<Location<'_>>, u64)
        ensures found { option_map as_location result.0 ≡ location_at probe self.now }
    {
        match self.find_row_watched(probe) {
            (Some(row), steps) => (Some(self.location(row)), steps),
            (None, steps) => (None, steps),
        }
    }
}
