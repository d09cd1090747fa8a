//! The numbers of cells.

ghost use Rattle.std.specs.Prelude.{◌≡◌, FitsSigned};
ghost use Rattle.std.specs.Int.{w64};
ghost use Rattle.plain_data.specs.Record.{at};
ghost use Rattle.input_texts.specs.Said as said;

/// The number in a column of a row, or 0 where it has none.
pub fn number_at(row: &[Option<i64>], column: usize) -> i64
    ensures { result ≡ at column (said.record_of row.now) }
{
    match row.get(column) {
        Some(cell) => number_of(*cell),
        None => 0,
    }
}

/// The cell's number, or 0 where it has none.
pub fn number_of(cell: Option<i64>) -> i64
    ensures says { result ≡ said.number_of cell }
    ensures fits { FitsSigned w64 result }
{
    cell.unwrap_or(0)
}
