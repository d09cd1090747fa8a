//! The names of the numbers of a row.

ghost use Rattle.std.specs.Prelude.{◌≡◌, ◌++◌, IfOk, string_bytes};
ghost use Rattle.row_export.specs.Titles.{field_at, title_of};

use import_columns::ColumnWord;
use plan_model::Aggregate;
use std::alloc::{AllocError, Global};

/// The name of the field of the column at a place.
pub(crate) fn field_of<'c>(columns: &[ColumnWord<'c>], column: u32) -> &'c str
    ensures { result.now ≡ field_at columns.now column }
{
    match columns.get(column as usize) {
        Some(column) => column.field,
        None => "",
    }
}

/// A function with the name of a field behind it.
fn named(alloc: Global, function: &str, field: &str) -> Result<String, AllocError>
    ensures { IfOk result (λ name. string_bytes name ≡ function.now ++ field.now) }
{
    let mut name = String::from_str(alloc, function)?;
    name.push_str(field)?;
    Ok(name)
}

/// The name of an aggregate: its function, and the field of its column.
pub(crate) fn name_of(
    alloc: Global,
    aggregate: Aggregate,
    columns: &[ColumnWord<'_>],
) -> Result<String, AllocError>
    ensures { IfOk result (λ name. string_bytes name ≡ title_of columns.now aggregate) }
{
    match aggregate {
        Aggregate::Count => String::from_str(alloc, "count"),
        Aggregate::Sum(column) => named(alloc, "sum_", field_of(columns, column)),
        Aggregate::Least(column) => named(alloc, "least_", field_of(columns, column)),
        Aggregate::Greatest(column) => named(alloc, "greatest_", field_of(columns, column)),
    }
}
