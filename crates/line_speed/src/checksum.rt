//! The checksum of rows.

ghost use Rattle.std.specs.Prelude.{◌≡◌};
ghost use Rattle.gimli_read.specs.Reading.{ExactlyUnlessOom, IsUnlessOom};
ghost use Rattle.line_speed.specs.Checksum.{with_row_sum, with_rows, program_at, with_program, checksum};

use gimli_line::{IncompleteLineProgram, LineRow, LineRows, read_line_program};
use gimli_read::{Error, Reader, read_initial_length};
use std::alloc::Global;

// A sum with one row more.
fn with_row(sum: u64, row: LineRow) -> u64
    ensures gives { result ≡ with_row_sum sum row }
{
    let marks = u64::from(row.end_sequence) + 2 * u64::from(row.dropped);
    let fields = row
        .address
        .wrapping_add(row.line.wrapping_mul(3))
        .wrapping_add(row.column.wrapping_mul(5))
        .wrapping_add(row.file_index.wrapping_mul(7))
        .wrapping_add(marks.wrapping_mul(11));
    sum.wrapping_mul(31).wrapping_add(fields)
}

// A sum with the rows that are left of a program.
#[tactic(auto, unfolding(crate::specs::Checksum::with_rows))]
fn with_rows<R: Reader>(sum: u64, rows: &mut LineRows<R>) -> Result<u64, Error>
    ensures gives { IsUnlessOom result (with_rows sum rows.old.left) }
{
    let mut sum = sum;
    while let Some(row) = rows.next_row()? {
        sum = with_row(sum, row);
    }
    Ok(sum)
}

// The next program, whose rows aren't read yet; none at the end.
#[tactic(auto, unfolding(crate::specs::Checksum::program_at))]
fn next_program<R: Reader>(
    alloc: Global,
    rest: &mut R,
) -> Result<Option<IncompleteLineProgram<R>>, Error>
    ensures gives { ExactlyUnlessOom (λ p. (p, R.section rest.new)) result
        (program_at (R.section rest.old)) }
{
    if rest.is_empty() {
        return Ok(None);
    }
    let unit = rest.duplicate()?;
    let (length, _) = read_initial_length(rest)?;
    rest.skip(length)?;
    Ok(Some(read_line_program(alloc, unit, 8)?))
}

// A sum with the rows of a program.
#[tactic(auto, unfolding(crate::specs::Checksum::with_program))]
fn with_program<R: Reader>(sum: u64, program: &IncompleteLineProgram<R>) -> Result<u64, Error>
    ensures gives { IsUnlessOom result (with_program sum program.now) }
{
    let mut rows = program.rows()?;
    with_rows(sum, &mut rows)
}

/// The checksum of all rows of a section's line programs, which stand one after another, of
/// address size 8.
///
/// Refused as `read_line_program`, `rows` and `next_row` are.
pub fn checksum_of<R: Reader>(alloc: Global, section: R) -> Result<u64, Error>
    ensures gives { IsUnlessOom result (checksum (R.section section)) }
{
    let mut rest = section;
    let mut sum = 0;
    while let Some(program) = next_program(alloc, &mut rest)? {
        sum = with_program(sum, &program)?;
    }
    Ok(sum)
}
