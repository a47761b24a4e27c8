//! The lines of a unit.

ghost use Rattle.std.specs.Prelude.{◌≡◌, ◌+◌, ◌<◌, ◌≤◌, [], IfSome, Ok, false, is_some, length, map, slice_get, option_map};
ghost use Rattle.std.specs.Option.{option_copied};
ghost use Rattle.std.specs.List.{AllByRecursion};
ghost use Rattle.std.specs.String.{string_bytes};
ghost use Rattle.addr2line_lines.specs.Packed.{IsAmong, packed_rows_in, unpacked};
ghost use Rattle.addr2line_lines.specs.Counts.{most_steps_in};
ghost use Rattle.addr2line_lines.specs.RangeLocations.{locations_in_range, sequence_ranges};
ghost use Rattle.addr2line_lines.specs.RangesLeft.{located_rows_left};
ghost use Rattle.addr2line_lines.specs.Common.{ExactlyUnlessOomIf, IsUnlessOom, header_copy_takes_memory};
ghost use Rattle.gimli_line.specs.Lines.{lines_of};
ghost use Rattle.addr2line_lines.specs.UnitLines.{IsFaultAtOnce, program_lines, unit_lines};
ghost use Rattle.addr2line_lines.specs.Location.{location_at, location_of_row};
ghost use Rattle.addr2line_lines.specs.LentLocation.{as_location};
ghost use Rattle.addr2line_lines.specs.Spans.{row_at};

mod steps;

use crate::count::Count;
use crate::files::read_file_texts;
use crate::location::{Location, file_text, row_location};
use crate::packed::{CountedRows, PackedRows};
use crate::range::{LineLocationRangeIter, LineRanges};
use crate::row::Row;
use crate::search::search;
use crate::sequence::{UnitRows, read_sequences};
use gimli::line::IncompleteLineProgram;
use gimli::read::{Error, Range, Reader};
use gimli::{Dwarf, Unit};
use std::alloc::Global;
use std::marker::Model;
use std::mem;

/// The lines of a unit: the texts of its files, and its sequences.
#[derive(Drop)]
pub struct Lines {
    files: Vec<String>,
    packed: PackedRows,
}

impl Model for Lines {
    ghost use Rattle.std.specs.Prelude.{map};
    ghost use Rattle.std.specs.String.{string_bytes};
    ghost use Rattle.addr2line_lines.specs.Location.{LineTable};
    ghost use Rattle.addr2line_lines.specs.Packed.{unpacked};

    ghost Value = { LineTable };

    ghost view = { λ l. record {
      files = map string_bytes l.files.items;
      sequences = map (unpacked l.packed.rows) l.packed.listed;
    } };
}

// The lines of files, rows and sequences. Refused `OutOfMemory` alone.
fn make_lines(alloc: Global, files: Vec<String>, unit: UnitRows) -> Result<Lines, Error>
    requires among { AllByRecursion (IsAmong unit.rows.rows) unit.sequences.items }
    requires no_others { length unit.rows.rows ≡ packed_rows_in unit.sequences.items }
    ensures gives { IsUnlessOom result (Ok (record {
      files = map string_bytes files.items;
      sequences = map (unpacked unit.rows.rows) unit.sequences.items;
    })) }
{
    let packed = PackedRows::new(alloc, unit)?;
    Ok(Lines { files, packed })
}

// The lines of a unit's program.
#[tactic(auto, unfolding(crate::specs::UnitLines::program_lines))]
fn read_program<R: Reader>(
    alloc: Global,
    dwarf: &Dwarf<R>,
    unit: &Unit<R>,
    program: &IncompleteLineProgram<R>,
) -> Result<Lines, Error>
    ensures gives { IsUnlessOom result (program_lines dwarf.now unit.now program.now) }
    ensures exact { header_copy_takes_memory R.shares program.now.header ≡ false
        → IsFaultAtOnce (lines_of program.now) result }
{
    let mut rows = program.rows()?;
    let sequences = read_sequences(alloc, &mut rows)?;
    let files = read_file_texts(
        alloc,
        dwarf,
        unit,
        program.header(),
        rows.header().file_names(),
    )?;
    make_lines(alloc, files, sequences)
}

impl Lines {
    /// No lines, as those of a unit without a line program. Takes no memory.
    pub fn none(alloc: Global) -> Lines
        ensures gives { result ≡ record { files = []; sequences = [] } }
    {
        Lines {
            files: Vec::new(alloc),
            packed: PackedRows::none(alloc),
        }
    }

    /// The lines of a unit: its program is run, and the texts of its files are made.
    ///
    /// Refused by the program's fault, else by the first text of a file, by index, that can't be
    /// read, and `OutOfMemory`. A unit without a line program has no lines, and takes no memory.
    /// Nor does a program take memory with a fault before its first row and before a file that it
    /// defines, where its header has neither a directory nor a file, and readers don't share their
    /// bytes.
    pub fn parse<R: Reader>(alloc: Global, dwarf: &Dwarf<R>, unit: &Unit<R>) -> Result<Lines, Error>
        ensures gives { ExactlyUnlessOomIf (is_some unit.now.line_program) (λ lines. lines) result
            (unit_lines dwarf.now unit.now) }
        ensures exact { IfSome unit.now.line_program (λ p.
            header_copy_takes_memory R.shares p.header ≡ false
            → IsFaultAtOnce (lines_of p) result) }
    {
        match &unit.line_program {
            Some(program) => read_program(alloc, dwarf, unit, program),
            None => Ok(Lines::none(alloc)),
        }
    }

    /// The text of a file by its index, `None` past the last one. Takes no memory.
    pub fn file(&self, index: u64) -> Option<&str>
        ensures gives { option_copied result ≡ slice_get self.now.files index }
    {
        file_text(&self.files, index)
    }

    /// The row of an address, `None` where no sequence has it. Takes no memory.
    ///
    /// `probe` and `steps` are those of `find_location_counted`.
    ///
    /// Source: DWARF 5, section 6.2.2. Own: which of several sequences counts.
    pub fn find_row(&self, steps: &mut Count, probe: u64) -> Option<Row>
        ensures found { result ≡ row_at probe self.now.sequences }
        ensures bound { steps.new ≤ steps.old + most_steps_in self.now }
        ensures steps { steps.old ≤ steps.new }
        ensures some { IfSome result (λ row. steps.old < steps.new) }
    {
        self.packed.known();
        let mut rows = CountedRows {
            packed: &self.packed,
            steps: mem::replace(steps, Count::new()),
        };
        let row = search(&mut rows, probe);
        *steps = rows.steps;
        row
    }

    /// The location of a row. Takes no memory.
    pub fn location(&self, row: Row) -> Location<'_>
        ensures gives { as_location result ≡ location_of_row self.now.files row }
    {
        row_location(&self.files, row)
    }

    /// The location of an address, `None` where no sequence has it. Takes no memory.
    ///
    /// `probe` is an address as the file has it. Of the sequences that start at or before it the
    /// one with the greatest start counts, of these the one with the greatest end, of these the
    /// last in the program; where it ends past the probe, its row whose span holds the probe gives
    /// the location.
    ///
    /// Source: DWARF 5, section 6.2.2. Own: which of several sequences counts.
    pub fn find_location(&self, probe: u64) -> Option<Location<'_>>
        ensures found { option_map as_location result ≡ location_at probe self.now }
    {
        self.find_location_counted(&mut Count::new(), probe)
    }

    /// The same, and how often it looked at the lines. Takes no memory.
    ///
    /// `steps` is raised by one with each look at a sequence, at the first address of a block of 64
    /// rows, and at a row: together at most by the number of binary digits of the number of
    /// sequences, that of the number of blocks, and 64, and by one at least where there is a
    /// location.
    pub fn find_location_counted(&self, steps: &mut Count, probe: u64) -> Option<Location<'_>>
        ensures found { option_map as_location result ≡ location_at probe self.now }
        ensures bound { steps.new ≤ steps.old + most_steps_in self.now }
        ensures steps { steps.old ≤ steps.new }
        ensures some { IfSome result (λ location. steps.old < steps.new) }
    {
        Some(self.location(self.find_row(steps, probe)?))
    }

    /// The rows of a unit's range whose spans meet the addresses from `low` up to `high`, each with
    /// its address, the length of its span, and its location. Takes no memory.
    ///
    /// Sequences come by start, then end, then place in the program; of each come, by address, the
    /// rows whose address is below `high` and below the end of `unit`, and whose span ends past
    /// `low` and past the begin of `unit`. Spans aren't cut at the range's ends; these may be
    /// reversed.
    ///
    /// Source: DWARF 5, section 6.2.2. Own: the order, and what is met.
    pub fn find_location_range(&self, unit: Range, low: u64, high: u64) -> LineLocationRangeIter<'_>
        ensures gives { located_rows_left result ≡ locations_in_range self.now unit low high }
    {
        self.packed.known();
        let low = low.max(unit.begin);
        let high = high.min(unit.end);
        LineLocationRangeIter::new(&self.files, &self.packed, low, high)
    }

    /// The ranges of the sequences, by begin, then end, then place in the program. Takes no memory.
    pub fn ranges(&self) -> LineRanges<'_>
        ensures gives { result ≡ sequence_ranges self.now }
    {
        self.packed.known();
        LineRanges::new(self.packed.sequences())
    }
}
