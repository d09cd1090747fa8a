//! Batches of numbers that stand in one list, row after row.

ghost use Rattle.std.specs.Prelude.{◌≡◌, ◌<◌, ◌≤◌, ◌+◌, ◌*◌, ℤ, true, List, Option, Some, ◌++◌, length, map, IfOk};
ghost use Rattle.std.specs.List.{flat_map, range_with_len};
ghost use Rattle.std.specs.Vec.{vec_len, vec_capacity};
ghost use Rattle.columns.specs.Table.{IsWidth};
ghost use Rattle.json_tokens.specs.Rows.{joined};
ghost use Rattle.stream_input.specs.Fit.{column_in_cells, if_fit};
ghost use Rattle.input_texts.specs.declared.text.EntryText.TheVariants.{Rows as rows};
ghost use Rattle.input_texts.specs.Said.{record_of};
ghost use Rattle.input_texts.specs.Requirements.{is_wide, is_whole};
ghost use Rattle.stream_model.specs.declared.entry.Entry.TheVariants.{Rows};

use columns::{Batch, MOST_ROWS};
use json_tokens::Miss;
use plan_model::are_times;
use std::alloc::{AllocError, Global};

/// Puts the cells of a column behind numbers, where there is room for them.
fn put_column(numbers: &mut Vec<i64>, cells: &[i64], width: usize, count: usize, column: usize)
    requires column_in { column < width }
    requires whole { count * width ≤ length cells.now }
    requires room { vec_len numbers.old + count ≤ vec_capacity numbers.old }
    ensures put { numbers.new.items ≡ numbers.old.items ++ column_in_cells width count cells.now column }
    ensures len { vec_len numbers.new ≡ vec_len numbers.old + count }
    ensures capacity { vec_capacity numbers.new ≡ vec_capacity numbers.old }
{
    for row in 0..count {
        numbers.push_reserved(cells[row * width + column]);
    }
}

fn numbers_at(
    alloc: Global,
    cells: &[i64],
    width: usize,
    count: usize,
) -> Result<Vec<i64>, AllocError>
    requires { count * width ≤ length cells.now }
    ensures { IfOk result (λ numbers. numbers.items ≡ flat_map (column_in_cells width count cells.now) (range_with_len 0 width)) }
{
    let mut numbers = Vec::with_capacity(alloc, count * width)?;
    for column in 0..width {
        put_column(&mut numbers, cells, width, count, column);
    }
    Ok(numbers)
}

/// The batch of rows of `width` cells each, where it makes an entry that the format allows. The times are
/// in the column `time`.
pub fn batch_at(alloc: Global, cells: &[i64], width: usize, time: usize) -> Result<Batch, Miss>
    requires width { IsWidth width }
    requires time { time < width }
    ensures { IfOk result (λ batch. (found : List (List (Option ℤ))) → is_wide width (rows found) ≡ true → is_whole (rows found) ≡ true
        → joined (map record_of found) ≡ cells.now → if_fit width time (rows found) ≡ Some (Rows batch)) }
{
    let count = cells.len() / width;
    if count < 1 || MOST_ROWS < count {
        return Err(Miss::Other);
    }
    let numbers = numbers_at(alloc, cells, width, count)?;
    let batch = Batch::from_numbers(numbers, width, count);
    if !are_times(batch.column(time)) {
        return Err(Miss::Other);
    }
    Ok(batch)
}
