//! What is done with the text of a field.

use calendar_numbers::CalendarPart;
use field_values::Places;
use jiff_tz::TimeZone;
use lane_kernels::Cmp;
use local_times::{Clocks, TimeUnit};

/// How the text of a field becomes a number by itself.
#[derive(Clone, Copy)]
pub enum ValueKind<'w> {
    /// A decimal, times ten to the power of the places. A whole number has none.
    Scaled(Places),
    /// A time in ISO 8601, counted in a unit from 1970 on: by its own zone or, where it has none, by clocks.
    Time(TimeUnit, Clocks<'w>),
    /// The same time by the calendar and the clocks of a zone.
    Calendar(CalendarPart, TimeZone<'w>, Clocks<'w>),
    /// 1 where the whole number compares so with the bound, else 0.
    Compared(Cmp, i64),
    /// 1 where the number of the calendar compares so with the bound, else 0.
    CalendarCompared(CalendarPart, TimeZone<'w>, Clocks<'w>, Cmp, i64),
    /// 1 where the text is just this, else 0.
    Same(&'w str),
    /// 0 where the text is just this, else 1.
    Other(&'w str),
}

/// How the text of a field becomes a number.
#[derive(Clone, Copy)]
pub enum ColumnKind<'w> {
    /// By the text alone.
    Value(ValueKind<'w>),
    /// By the text's place in a table of names.
    Name,
}
