//! A batch of rows that are given one by one.

ghost use Rattle.std.specs.Prelude.{IfErr, IfNone, IfOk, OnOk, None, Some, ◌++◌, ◌<◌, ◌==◌, ◌≡◌, ◌≢◌, ◌≤◌, length, not};
ghost use Rattle.std.specs.List.{All, position};
ghost use Rattle.plain_data.specs.declared.limits.TheConstants.{MOST_COLUMNS};
ghost use Rattle.plain_data.specs.Record.{column_of};
ghost use Rattle.columns.specs.Fault.{first_fault};
ghost use Rattle.columns.specs.Table.{IsWidth, by_columns, rows_in};

use crate::fault::BatchFault;
use crate::{Batch, MOST_ROWS};
use std::alloc::{AllocError, Global};

impl Batch {
    /// The batch of some rows, which have `width` numbers each: 1 to 16.
    ///
    /// # Errors
    ///
    /// The first row of another length by its place from 0, then more than [`MOST_ROWS`] rows; `Memory`.
    pub fn from_rows(alloc: Global, rows: &[Vec<i64>], width: usize) -> Result<Batch, BatchFault>
        requires wide { 1 ≤ width }
        requires narrow { width ≤ MOST_COLUMNS }
        ensures batch { IfOk result (λ batch. batch ≡ record { width = width; rows = rows_in rows.now }) }
        ensures accepted { OnOk result (first_fault (rows_in rows.now) width ≡ None) }
        ensures refused { IfErr result (λ e. e ≢ BatchFault.Memory → first_fault (rows_in rows.now) width ≡ Some e) }
    {
        if let Some(fault) = fault_in(rows, width) {
            return Err(fault);
        }
        batch_of(alloc, rows, width).map_err(|_| BatchFault::Memory)
    }
}

/// The first row of another length.
fn odd_row(rows: &[Vec<i64>], width: usize) -> Option<usize>
    ensures first { result ≡ position (λ row. not (length row.items == width)) rows.now }
    ensures even { IfNone result (All (λ row. length row.items ≡ width) rows.now) }
{
    rows.iter().position(|row| row.len() != width)
}

/// The first cause why rows make no batch.
fn fault_in(rows: &[Vec<i64>], width: usize) -> Option<BatchFault>
    ensures first { result ≡ first_fault (rows_in rows.now) width }
    ensures even { IfNone result (All (λ row. length row.items ≡ width) rows.now) }
    ensures few { IfNone result (length rows.now ≤ MOST_ROWS) }
{
    if let Some(row) = odd_row(rows, width) {
        return Some(BatchFault::Width(row));
    }
    if rows.len() > MOST_ROWS {
        return Some(BatchFault::Rows);
    }
    None
}

/// The numbers of rows of one width, column after column.
fn numbers_of(alloc: Global, rows: &[Vec<i64>], width: usize) -> Result<Vec<i64>, AllocError>
    requires sized { IsWidth width }
    requires even { All (λ row. length row.items ≡ width) rows.now }
    requires few { length rows.now ≤ MOST_ROWS }
    ensures { IfOk result (λ numbers. numbers.items ≡ by_columns width (rows_in rows.now)) }
{
    let mut numbers = Vec::with_capacity(alloc, width * rows.len())?;
    for c in 0..width {
        put_column(&mut numbers, rows, c)?;
    }
    Ok(numbers)
}

/// Puts the number at c of each row behind those that are there.
fn put_column(numbers: &mut Vec<i64>, rows: &[Vec<i64>], c: usize) -> Result<(), AllocError>
    requires { All (λ row. c < length row.items) rows.now }
    ensures { OnOk result (numbers.new.items ≡ numbers.old.items ++ column_of c (rows_in rows.now)) }
{
    for row in rows {
        numbers.push(row[c])?;
    }
    Ok(())
}

/// The batch of rows of one width.
fn batch_of(alloc: Global, rows: &[Vec<i64>], width: usize) -> Result<Batch, AllocError>
    requires sized { IsWidth width }
    requires even { All (λ row. length row.items ≡ width) rows.now }
    requires few { length rows.now ≤ MOST_ROWS }
    ensures { IfOk result (λ batch. batch ≡ record { width = width; rows = rows_in rows.now }) }
{
    let numbers = numbers_of(alloc, rows, width)?;
    Ok(Batch::from_numbers(numbers, width, rows.len()))
}
