//! What a word says of a column, with the name of a zone in place of the zone.

use calendar_numbers::CalendarPart;
use field_values::Places;
use instant_texts::FineUnit;
use lane_kernels::Cmp;

/// What a word says is done with the text of a field: as [`crate::ColumnKind`], with the name of a zone in place of the
/// zone.
#[derive(Clone, Copy)]
pub enum WordKind<'w> {
    Scaled(Places),
    Milliseconds,
    Fine(FineUnit),
    Calendar(CalendarPart, &'w str),
    Compared(Cmp, i64),
    CalendarCompared(CalendarPart, &'w str, Cmp, i64),
    Same(&'w str),
    Other(&'w str),
    Name,
}

/// What a word says of a column.
#[derive(Clone, Copy)]
pub struct ColumnWord<'w> {
    /// The name of the field whose text it is.
    pub field: &'w str,
    /// How that text becomes a number.
    pub kind: WordKind<'w>,
}
