//! What a number of a row is shown as.

ghost use Rattle.std.specs.Prelude.{◌≡◌};
ghost use Rattle.row_tables.specs.Cells.{part_kind, kind_shown, kind_at, aggregate_kind};

use calendar_numbers::CalendarPart;
use field_values::Places;
use import_columns::{ColumnWord, WordKind};
use instant_texts::FineUnit;
use plan_model::Aggregate;

/// What of the calendar a number counts.
#[derive(Clone, Copy, Debug, PartialEq, Eq)]
pub enum DatePart {
    /// The days since 1970-01-01.
    Day,
    /// The months since January 1970.
    Month,
    /// The years since 1970.
    Year,
}

/// What a number is shown as.
#[derive(Clone, Copy)]
pub enum CellKind {
    /// A decimal, which is scaled by ten to the power of the places.
    Number(Places),
    /// A time in ISO 8601, of milliseconds since 1970.
    Time,
    /// The same of a finer unit.
    Fine(FineUnit),
    /// A day, a month or a year in ISO 8601, as `2026-03-01`, `2026-03` or `2026`.
    Date(DatePart),
    /// The name of this number.
    Name,
}

/// What a number of the calendar is shown as: hours and weekdays as they are.
fn kind_of_part(part: CalendarPart) -> CellKind
    ensures { result ≡ part_kind part }
{
    match part {
        CalendarPart::Day => CellKind::Date(DatePart::Day),
        CalendarPart::Month => CellKind::Date(DatePart::Month),
        CalendarPart::Year => CellKind::Date(DatePart::Year),
        CalendarPart::Hour | CalendarPart::Weekday => CellKind::Number(Places::WHOLE),
    }
}

/// What the numbers of a column are shown as: as they were read, and those of a comparison as they are.
pub fn kind_of_column(kind: &WordKind<'_>) -> CellKind
    ensures { result ≡ kind_shown kind.now }
{
    match kind {
        WordKind::Scaled(places) => CellKind::Number(*places),
        WordKind::Milliseconds => CellKind::Time,
        WordKind::Fine(unit) => CellKind::Fine(*unit),
        WordKind::Calendar(part, _) => kind_of_part(*part),
        WordKind::Name => CellKind::Name,
        _ => CellKind::Number(Places::WHOLE),
    }
}

/// What the numbers of the column at a place are shown as: whole numbers where there is none.
fn kind_at(columns: &[ColumnWord<'_>], column: u32) -> CellKind
    ensures { result ≡ kind_at columns.now column }
{
    match columns.get(column as usize) {
        Some(column) => kind_of_column(&column.kind),
        None => CellKind::Number(Places::WHOLE),
    }
}

/// What the numbers of an aggregate are shown as: a count as it is, a sum by its column's places, and the least and the
/// greatest as the column's numbers. Sums of times, dates and names, and the least of names, are shown as they are.
pub fn kind_of_aggregate(aggregate: Aggregate, columns: &[ColumnWord<'_>]) -> CellKind
    ensures { result ≡ aggregate_kind columns.now aggregate }
{
    match aggregate {
        Aggregate::Count => CellKind::Number(Places::WHOLE),
        Aggregate::Sum(column) => match kind_at(columns, column) {
            CellKind::Number(places) => CellKind::Number(places),
            _ => CellKind::Number(Places::WHOLE),
        },
        Aggregate::Least(column) | Aggregate::Greatest(column) => match kind_at(columns, column) {
            CellKind::Name => CellKind::Number(Places::WHOLE),
            kind => kind,
        },
    }
}
