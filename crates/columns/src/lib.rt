//! Batches of rows, kept as columns: 1 to 16 columns of one length, with at most 4,096 rows.
//!
//! Contracts see a batch as a list of rows and the number of their columns.
#![tactic(auto)]

ghost use Rattle.std.specs.Prelude.{[], IsTrue, ◌<◌, ◌↔◌, ◌≡◌, ◌≤◌, length, slice_index_or};
ghost use Rattle.plain_data.specs.Record.{at, column_of};
ghost use Rattle.columns.specs.Table.{AreColumns, IsWidth, columns_in, rows_of};

mod fault;
mod parts;
mod rows;

pub use fault::BatchFault;
pub use parts::places_by_target;
use std::marker::Model;

/// The most rows of a batch.
pub const MOST_ROWS: usize = 4096;

/// Rows of whole numbers, kept as columns: one after the other in one list.
#[derive(Debug, Drop)]
pub struct Batch {
    numbers: Vec<i64>,
    width: u32,
    count: u32,
}

impl Model for Batch {
    ghost use Rattle.columns.specs.Table.{AreColumns, Table, columns_in, rows_of};

    ghost Value = { Table };

    ghost view = { λ b. record {
      width = b.width;
      rows = rows_of (columns_in b.numbers.items b.width b.count) b.count;
    } };

    ghost invariant = { λ b. AreColumns b.numbers.items b.width b.count };
}

impl Batch {
    /// The batch of `width` columns of `count` rows, whose numbers stand in the list one column after the
    /// other: 1 to 16 columns, and at most [`MOST_ROWS`] rows. No number is copied.
    pub fn from_numbers(numbers: Vec<i64>, width: usize, count: usize) -> Batch
        requires { AreColumns numbers.items width count }
        ensures { result ≡ record { width = width; rows = rows_of (columns_in numbers.items width count) count } }
    {
        Batch {
            numbers,
            width: width as u32,
            count: count as u32,
        }
    }

    /// How many rows there are: at most [`MOST_ROWS`].
    pub fn len(&self) -> usize
        ensures says { result ≡ length self.now.rows }
        ensures small { length self.now.rows ≤ MOST_ROWS }
    {
        self.count as usize
    }

    /// Whether there are no rows.
    pub fn is_empty(&self) -> bool
        ensures { IsTrue result ↔ (self.now.rows ≡ []) }
    {
        self.len() == 0
    }

    /// How many columns there are: 1 to 16.
    pub fn width(&self) -> usize
        ensures says { result ≡ self.now.width }
        ensures bounded { IsWidth result }
    {
        self.width as usize
    }

    /// A number of a row. Rows and columns are counted from 0.
    pub fn value(&self, row: usize, c: usize) -> i64
        requires row_in { row < length self.now.rows }
        requires column_in { c < self.now.width }
        ensures { result ≡ at c (slice_index_or self.now.rows row []) }
    {
        let column = self.column(c);
        column[row]
    }

    /// A column, counted from 0. No number is copied.
    pub fn column(&self, c: usize) -> &[i64]
        requires { c < self.now.width }
        ensures { result.now ≡ column_of c self.now.rows }
    {
        let numbers = self.numbers.as_slice();
        let start = c * self.len();
        &numbers[start..start + self.len()]
    }
}
