//! The rows of a unit, as they are stored.

ghost use Rattle.std.specs.Prelude.{◌≡◌, ◌+◌, ◌-◌, ◌<◌, true, false, [], ◌∷◌, ◌++◌, drop, length, map, slice_get, take, vec_len, IfOk, OnOk, OnErr, Some};
ghost use Rattle.addr2line_lines.specs.Common.{last};
ghost use Rattle.addr2line_lines.specs.Building.{has_address, without_last_from};
ghost use Rattle.addr2line_lines.specs.Packed.{row_address_at};
ghost use Rattle.addr2line_lines.specs.StoredRows.{IsWidthFor, are_narrow, fits, none_stored, row_of_short, shortened, stores, upper_of, whole_rows, width_after, width_anew, width_of};

use crate::row::Row;
use std::alloc::{AllocError, Global};
use std::marker::Model;

/// The number of addresses with one upper half.
pub(crate) const HALF: u64 = 1 << 32;

// The greatest file index and the greatest column that have 16 bits.
const GREATEST_NARROW: u16 = 0xffff;

// A row in twelve bytes.
#[derive(Clone, Copy)]
struct ShortRow {
    // The lower half of the address.
    address: u32,
    line: u32,
    file_index: u16,
    column: u16,
}

// Rows, one after another.
#[derive(Drop)]
enum RowStore {
    // Rows that fit in twelve bytes, and the upper half of their addresses.
    Short(u32, Vec<ShortRow>),
    // Rows of which one doesn't fit.
    Whole(Vec<Row>),
}

/// Adds an element.
#[inline(always)]
pub(crate) fn push_one<T: Copy>(list: &mut Vec<T>, element: T) -> Result<(), AllocError>
    ensures gives { OnOk result (list.new.items ≡ list.old.items ++ element ∷ []) }
    ensures refused { OnErr result (list.new.items ≡ list.old.items) }
{
    if list.push(element).is_err() {
        return Err(AllocError);
    }
    Ok(())
}

// Puts an element in the place of the last one.
#[inline(always)]
fn set_last<T: Copy>(list: &mut Vec<T>, last: usize, element: T)
    requires last { last + 1 ≡ vec_len list.old }
    ensures gives { list.new.items ≡ take last list.old.items ++ element ∷ [] }
{
    list[last] = element;
}

// The upper half of the address of a row.
#[inline(always)]
fn upper_of(row: Row) -> u32
    ensures gives { result ≡ upper_of row }
{
    (row.address / HALF) as u32
}

// Whether a file index and a column have 16 bits.
#[inline(always)]
fn are_narrow(row: Row) -> bool
    ensures gives { result ≡ are_narrow row }
{
    row.file_index <= u64::from(GREATEST_NARROW) && row.column <= u32::from(GREATEST_NARROW)
}

// Whether a row fits in twelve bytes, beside an upper half.
#[inline(always)]
fn fits(upper: u32, row: Row) -> bool
    ensures gives { result ≡ fits upper row }
{
    upper_of(row) == upper && are_narrow(row)
}

// A row in twelve bytes.
#[inline(always)]
fn shortened(row: Row) -> ShortRow
    requires narrow { are_narrow row ≡ true }
    ensures gives { result ≡ shortened row }
{
    ShortRow {
        address: (row.address % HALF) as u32,
        line: row.line,
        file_index: row.file_index as u16,
        column: row.column as u16,
    }
}

// The row that twelve bytes and the upper half of its address stand for.
#[inline(always)]
fn row_of_short(upper: u32, row: ShortRow) -> Row
    ensures gives { result ≡ row_of_short upper row }
{
    Row {
        address: u64::from(upper) * HALF + u64::from(row.address),
        file_index: u64::from(row.file_index),
        line: row.line,
        column: u32::from(row.column),
    }
}

// The rows that twelve bytes each stand for, beside the upper half of their addresses.
fn rows_of_short(alloc: Global, upper: u32, rows: &[ShortRow]) -> Result<Vec<Row>, AllocError>
    ensures gives { IfOk result (λ whole. whole.items ≡ map (row_of_short upper) rows.now) }
{
    let mut whole = Vec::with_capacity(alloc, rows.len())?;
    for row in rows {
        whole.push(row_of_short(upper, *row))?;
    }
    Ok(whole)
}

impl RowStore {
    // The number of rows.
    fn len(&self) -> usize
        ensures gives { result ≡ length (whole_rows self.now) }
    {
        match self {
            RowStore::Short(_, rows) => rows.len(),
            RowStore::Whole(rows) => rows.len(),
        }
    }

    // Whether a row can be stored as the others are.
    #[inline(always)]
    fn stores(&self, row: Row) -> bool
        ensures gives { result ≡ stores (width_of self.now) row }
    {
        match self {
            RowStore::Short(upper, _) => fits(*upper, row),
            RowStore::Whole(_) => true,
        }
    }

    // The rows, whole.
    fn wholes(&self, alloc: Global) -> Result<Vec<Row>, AllocError>
        ensures gives { IfOk result (λ rows. rows.items ≡ whole_rows self.now) }
    {
        match self {
            RowStore::Short(upper, rows) => rows_of_short(alloc, *upper, rows),
            RowStore::Whole(rows) => rows.iter().copied().collect(alloc),
        }
    }

    // The same rows, stored anew for one more with this upper half of its address, narrow or not.
    fn widened(&self, alloc: Global, upper: u32, narrow: bool) -> Result<RowStore, AllocError>
        ensures kept { IfOk result (λ s. whole_rows s ≡ whole_rows self.now) }
        ensures width { IfOk result (λ s.
            width_of s ≡ width_anew (length (whole_rows self.now)) upper narrow) }
    {
        if self.len() == 0 && narrow {
            return Ok(RowStore::Short(upper, Vec::new(alloc)));
        }
        Ok(RowStore::Whole(self.wholes(alloc)?))
    }

    // Stores the rows so that one more can be. It isn't given the row, which would then have to
    // stand in memory each time.
    #[inline(never)]
    fn widen(&mut self, alloc: Global, upper: u32, narrow: bool) -> Result<(), AllocError>
        ensures kept { whole_rows self.new ≡ whole_rows self.old }
        ensures width { OnOk result (width_of self.new
            ≡ width_anew (length (whole_rows self.old)) upper narrow) }
        ensures refused { OnErr result (self.new ≡ self.old) }
    {
        *self = self.widened(alloc, upper, narrow)?;
        Ok(())
    }

    // Stores the rows so that one more can be, unless they are.
    #[inline(always)]
    fn widen_for(&mut self, alloc: Global, row: Row) -> Result<(), AllocError>
        ensures within { OnOk result (stores (width_of self.new) row ≡ true) }
        ensures kept { whole_rows self.new ≡ whole_rows self.old }
        ensures width { OnOk result (width_of self.new
            ≡ width_after (length (whole_rows self.old)) (width_of self.old) row) }
        ensures memory { OnErr result (stores (width_of self.old) row ≡ false) }
        ensures refused { OnErr result (self.new ≡ self.old) }
    {
        if self.stores(row) {
            return Ok(());
        }
        self.widen(alloc, upper_of(row), are_narrow(row))
    }

    // Whether the last row, if one is at place `first` or after it, has the address of a row. That
    // row can be stored as the others are, so lower halves are enough.
    #[inline(always)]
    fn ends_at(&self, first: usize, row: Row) -> bool
        requires stores { stores (width_of self.now) row ≡ true }
        ensures gives { result ≡ has_address row.address (last (drop first (whole_rows self.now))) }
    {
        match self {
            RowStore::Short(_, rows) => {
                let len = rows.len();
                len > first && rows[len - 1].address == shortened(row).address
            }
            RowStore::Whole(rows) => {
                let len = rows.len();
                len > first && rows[len - 1].address == row.address
            }
        }
    }

    // Adds a row, which can be stored as the others are.
    #[inline(always)]
    fn push(&mut self, row: Row) -> Result<(), AllocError>
        requires stores { stores (width_of self.old) row ≡ true }
        ensures gives { OnOk result (whole_rows self.new ≡ whole_rows self.old ++ row ∷ []) }
        ensures width { width_of self.new ≡ width_of self.old }
        ensures refused { OnErr result (whole_rows self.new ≡ whole_rows self.old) }
    {
        match self {
            RowStore::Short(_, rows) => push_one(rows, shortened(row)),
            RowStore::Whole(rows) => push_one(rows, row),
        }
    }

    // Puts a row in the place of the last one, which can be stored as the others are.
    #[inline(always)]
    fn set_last(&mut self, last: usize, row: Row)
        requires stores { stores (width_of self.old) row ≡ true }
        requires last { last + 1 ≡ length (whole_rows self.old) }
        ensures gives { whole_rows self.new ≡ take last (whole_rows self.old) ++ row ∷ [] }
        ensures width { width_of self.new ≡ width_of self.old }
    {
        match self {
            RowStore::Short(_, rows) => set_last(rows, last, shortened(row)),
            RowStore::Whole(rows) => set_last(rows, last, row),
        }
    }

    // Keeps the first rows.
    fn truncate(&mut self, len: usize)
        ensures gives { whole_rows self.new ≡ take len (whole_rows self.old) }
        ensures width { width_of self.new ≡ width_of self.old }
    {
        match self {
            RowStore::Short(_, rows) => rows.truncate(len),
            RowStore::Whole(rows) => rows.truncate(len),
        }
    }

    // Gives memory back that no row needs.
    fn shrink(&mut self)
        ensures kept { whole_rows self.new ≡ whole_rows self.old }
        ensures width { width_of self.new ≡ width_of self.old }
    {
        match self {
            RowStore::Short(_, rows) => rows.shrink_to_fit(),
            RowStore::Whole(rows) => rows.shrink_to_fit(),
        }
    }

    // A row by its place.
    fn row(&self, place: usize) -> Row
        requires within { place < length (whole_rows self.now) }
        ensures gives { slice_get (whole_rows self.now) place ≡ Some result }
    {
        match self {
            RowStore::Short(upper, rows) => row_of_short(*upper, rows[place]),
            RowStore::Whole(rows) => rows[place],
        }
    }
}

/// The rows of a unit in the program's order, in twelve bytes each as long as each fits.
#[derive(Drop)]
pub(crate) struct Rows {
    store: RowStore,
}

impl Model for Rows {
    ghost use Rattle.addr2line_lines.specs.StoredRows.{StoredRows, whole_rows, width_of};

    ghost Value = { StoredRows };

    ghost view = { λ r. record { rows = whole_rows r.store; width = width_of r.store } };
}

impl Rows {
    /// No rows. Takes no memory.
    pub(crate) fn new(alloc: Global) -> Rows
        ensures gives { result ≡ none_stored }
    {
        Rows {
            store: RowStore::Short(0, Vec::new(alloc)),
        }
    }

    /// The number of rows.
    pub(crate) fn len(&self) -> usize
        ensures gives { result ≡ length self.now.rows }
    {
        self.store.len()
    }

    /// A row by its place.
    pub(crate) fn row(&self, place: usize) -> Row
        requires within { place < length self.now.rows }
        ensures gives { slice_get self.now.rows place ≡ Some result }
    {
        self.store.row(place)
    }

    /// The address of a row by its place.
    pub(crate) fn address(&self, place: usize) -> u64
        requires within { place < length self.now.rows }
        ensures gives { result ≡ row_address_at self.now.rows place }
    {
        self.row(place).address
    }

    /// Takes a row in: it replaces the last one, if that is at place `first` or after it and has
    /// its address, or follows it. To replace one is refused only where it can't be stored as the
    /// others are, and changes nothing then. Else a refused growth keeps nothing of it, but the
    /// rows may be stored as it needs.
    #[inline(always)]
    pub(crate) fn put(&mut self, alloc: Global, first: usize, row: Row) -> Result<(), AllocError>
        ensures gives { OnOk result
            (self.new.rows ≡ without_last_from first row.address self.old.rows ++ row ∷ []) }
        ensures width { OnOk result
            (self.new.width ≡ width_after (length self.old.rows) self.old.width row) }
        ensures memory { OnErr result (has_address row.address (last (drop first self.old.rows))
            ≡ true → (stores self.old.width row ≡ false) × (self.new ≡ self.old)) }
        ensures refused { OnErr result ((self.new.rows ≡ self.old.rows)
            × IsWidthFor row self.old self.new.width) }
    {
        self.store.widen_for(alloc, row)?;
        if self.store.ends_at(first, row) {
            let last = self.store.len() - 1;
            self.store.set_last(last, row);
            return Ok(());
        }
        self.store.push(row)
    }

    /// Keeps the first rows.
    pub(crate) fn truncate(&mut self, len: usize)
        ensures gives { self.new.rows ≡ take len self.old.rows }
        ensures width { self.new.width ≡ self.old.width }
    {
        self.store.truncate(len);
    }

    /// Gives memory back that no row needs.
    pub(crate) fn shrink(&mut self)
        ensures kept { self.new ≡ self.old }
    {
        self.store.shrink();
    }
}
