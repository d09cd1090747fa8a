//! From a word to a column.

ghost use Rattle.std.specs.Prelude.{◌≡◌, Some};
ghost use Rattle.field_values.specs.Decimals.{scaled_said};
ghost use Rattle.import_columns.specs.Columns.{view_kind, view_column, GivesColumn, comparison_said, text_said, bound_from, compared_from, places_said, word_said, part_said, calendar_bound_from, calendar_bound, calendar_compared, calendar_said, parted_from, how_said, column_said};
ghost use Rattle.import_columns.specs.Columns.{Scaled};

use crate::fault::ColumnFault;
use crate::word::{ColumnWord, WordKind};
use calendar_numbers::CalendarPart;
use field_values::{FieldFault, Places, are_digits, number_of, scaled};
use instant_texts::FineUnit;
use lane_kernels::Cmp;

fn comparison_of(name: &str) -> Option<Cmp>
    ensures { result ≡ comparison_said name.now }
{
    match name {
        "eq" => Some(Cmp::Eq),
        "ne" => Some(Cmp::Ne),
        "lt" => Some(Cmp::Lt),
        "le" => Some(Cmp::Le),
        "gt" => Some(Cmp::Gt),
        "ge" => Some(Cmp::Ge),
        _ => None,
    }
}

/// A comparison with a text: it is this, or it is not.
fn text_of(cmp: Cmp, text: &str) -> Result<WordKind<'_>, ColumnFault>
    ensures { GivesColumn view_kind result (text_said cmp text.now) }
{
    match cmp {
        Cmp::Eq => Ok(WordKind::Same(text)),
        Cmp::Ne => Ok(WordKind::Other(text)),
        _ => Err(ColumnFault::Form),
    }
}

/// A comparison with a whole number, or else with a text.
fn bound_of(cmp: Cmp, bound: &str) -> Result<WordKind<'_>, ColumnFault>
    ensures { GivesColumn view_kind result (bound_from cmp bound.now (scaled_said 0 bound.now)) }
{
    match scaled(bound.as_bytes(), Places::WHOLE) {
        Ok(number) => Ok(WordKind::Compared(cmp, number)),
        Err(FieldFault::NoNumber) => text_of(cmp, bound),
        Err(fault) => Err(ColumnFault::Bound(fault)),
    }
}

fn compared_of<'w>(name: &'w str, bound: &'w str) -> Result<WordKind<'w>, ColumnFault>
    ensures { GivesColumn view_kind result (compared_from (comparison_said name.now) bound.now) }
{
    let cmp = comparison_of(name).ok_or(ColumnFault::Form)?;
    if bound.split_once(':').is_some() {
        return Err(ColumnFault::Form);
    }
    bound_of(cmp, bound)
}

/// How many places 1 or 2 digits say.
#[tactic(auto, unfolding(crate::specs::Columns::places_said))]
fn places_of(digits: &[u8]) -> Result<Places, ColumnFault>
    ensures { GivesColumn (λ places. Scaled places) result (places_said digits.now) }
{
    if !are_digits(digits) || digits.len() > 2 {
        return Err(ColumnFault::Form);
    }
    Places::new(u32::from(number_of(digits))).ok_or(ColumnFault::Places)
}

/// What stands behind a colon and has none in it.
fn word_of(how: &str) -> Result<WordKind<'_>, ColumnFault>
    ensures { GivesColumn view_kind result (word_said how.now) }
{
    match how {
        "ms" => Ok(WordKind::Milliseconds),
        "us" => Ok(WordKind::Fine(FineUnit::Microseconds)),
        "ns" => Ok(WordKind::Fine(FineUnit::Nanoseconds)),
        "name" => Ok(WordKind::Name),
        _ => {
            let places = places_of(how.as_bytes())?;
            Ok(WordKind::Scaled(places))
        }
    }
}

fn part_of(name: &str) -> Option<CalendarPart>
    ensures { result ≡ part_said name.now }
{
    match name {
        "day" => Some(CalendarPart::Day),
        "month" => Some(CalendarPart::Month),
        "year" => Some(CalendarPart::Year),
        "hour" => Some(CalendarPart::Hour),
        "weekday" => Some(CalendarPart::Weekday),
        _ => None,
    }
}

/// A comparison of a number of the calendar with a whole number.
fn calendar_bound<'w>(
    part: CalendarPart,
    zone: &'w str,
    name: &str,
    bound: &str,
) -> Result<WordKind<'w>, ColumnFault>
    ensures { GivesColumn view_kind result (calendar_bound part zone.now (comparison_said name.now) (scaled_said 0 bound.now)) }
{
    let cmp = comparison_of(name).ok_or(ColumnFault::Form)?;
    match scaled(bound.as_bytes(), Places::WHOLE) {
        Ok(number) => Ok(WordKind::CalendarCompared(part, zone, cmp, number)),
        Err(FieldFault::NoNumber) => Err(ColumnFault::Form),
        Err(fault) => Err(ColumnFault::Bound(fault)),
    }
}

/// A comparison of a number of the calendar.
fn calendar_compared<'w>(
    part: CalendarPart,
    zone: &'w str,
    how: &str,
) -> Result<WordKind<'w>, ColumnFault>
    ensures { GivesColumn view_kind result (calendar_compared part zone.now how.now) }
{
    match how.split_once(':') {
        Some((name, bound)) => calendar_bound(part, zone, name, bound),
        None => Err(ColumnFault::Form),
    }
}

/// A number of the calendar in a zone, or a comparison of it.
fn calendar_of(part: CalendarPart, rest: &str) -> Result<WordKind<'_>, ColumnFault>
    ensures { GivesColumn view_kind result (calendar_said part rest.now) }
{
    match rest.split_once(':') {
        Some((zone, how)) => calendar_compared(part, zone, how),
        None => Ok(WordKind::Calendar(part, rest)),
    }
}

/// What stands before and behind a colon.
fn parted_of<'w>(name: &'w str, rest: &'w str) -> Result<WordKind<'w>, ColumnFault>
    ensures { GivesColumn view_kind result (parted_from (part_said name.now) name.now rest.now) }
{
    match part_of(name) {
        Some(part) => calendar_of(part, rest),
        None => compared_of(name, rest),
    }
}

#[tactic(auto, unfolding(crate::specs::Columns::how_said))]
fn kind_of(how: &str) -> Result<WordKind<'_>, ColumnFault>
    ensures { GivesColumn view_kind result (how_said how.now) }
{
    match how.split_once(':') {
        Some((name, rest)) => parted_of(name, rest),
        None => word_of(how),
    }
}

/// What a word says of a column, as `power_kw:3`: the name of a field, and then
///
/// - nothing, for a whole number;
/// - `:` and a number of decimal places up to 18, for a decimal that is scaled;
/// - `:ms`, `:us` or `:ns`, for a time in milliseconds, microseconds or nanoseconds;
/// - `:day:`, `:month:`, `:year:`, `:hour:` or `:weekday:` and the name of a zone, for a time by the calendar and the
///   clocks there, and behind that perhaps `:`, a comparison as below, `:` and a whole number;
/// - `:name`, for a name by its number;
/// - `:eq:`, `:ne:`, `:lt:`, `:le:`, `:gt:` or `:ge:` and a whole number, for 1 where the comparison holds, else 0;
/// - `:eq:` or `:ne:` and any other text without a colon, for the same with that text.
///
/// # Errors
///
/// `Form` where it says none of these; `Places` and `Bound` where the number is none that can be asked for.
#[tactic(auto, unfolding(crate::specs::Columns::column_said))]
pub fn column_word(word: &str) -> Result<ColumnWord<'_>, ColumnFault>
    ensures { GivesColumn view_column result (column_said word.now) }
{
    match word.split_once(':') {
        Some((field, how)) => match kind_of(how) {
            Ok(kind) => Ok(ColumnWord { field, kind }),
            Err(fault) => Err(fault),
        },
        None => Ok(ColumnWord {
            field: word,
            kind: WordKind::Scaled(Places::WHOLE),
        }),
    }
}
