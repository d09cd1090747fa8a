//! From a word to a column, by the zones that are known.

ghost use Rattle.std.specs.Prelude.{◌≡◌, ◌==◌, ◌<◌, length, Some, MatchOption, option_map};
ghost use Rattle.std.specs.List.{slice_split};
ghost use Rattle.import_columns.specs.Columns.{view_kind, view_column};
ghost use Rattle.import_columns.specs.Placed.{zone_named, joint_said, IsKind, IsColumn, NamesNoZone};

use crate::column::Column;
use crate::kind::{ColumnKind, ValueKind};
use crate::word::{ColumnWord, WordKind};
use asked_fields::Joint;
use calendar_numbers::Zones;
use local_times::{Clocks, TimeUnit};

/// The zone that a column needs.
fn zone_named<'w>(kind: &WordKind<'w>) -> Option<&'w str>
    ensures { option_map (λ zone. zone.now) result ≡ zone_named (view_kind kind.now) }
{
    match kind {
        WordKind::Calendar(_, zone) => Some(*zone),
        WordKind::CalendarCompared(_, zone, _, _) => Some(*zone),
        _ => None,
    }
}

/// The name of the zone that a column needs, if it needs one.
pub fn zone_of<'w>(said: &ColumnWord<'w>) -> Option<&'w str>
    ensures { option_map (λ zone. zone.now) result ≡ zone_named (view_kind said.now.kind) }
{
    zone_named(&said.kind)
}

/// A time that is counted in a unit, and read by clocks where it has no zone.
fn timed<'w>(unit: TimeUnit, clocks: Clocks<'w>) -> Option<ColumnKind<'w>>
    ensures { result ≡ Some (ColumnKind.Value (ValueKind.Time unit clocks.entry)) }
{
    Some(ColumnKind::Value(ValueKind::Time(unit, clocks)))
}

/// How the text of a field becomes a number, with the zone in place of its name, or `None` where no zone has the name.
/// A time that has no zone is read by the clocks.
fn placed<'w>(kind: &WordKind<'w>, zones: &'w Zones, clocks: Clocks<'w>) -> Option<ColumnKind<'w>>
    ensures { MatchOption result (NamesNoZone zones.now.tables.items (view_kind kind.now)) (λ placed. IsKind zones.now.tables.items clocks.entry placed (view_kind kind.now)) }
{
    match kind {
        WordKind::Scaled(places) => Some(ColumnKind::Value(ValueKind::Scaled(*places))),
        WordKind::Milliseconds => timed(TimeUnit::Milliseconds, clocks),
        WordKind::Fine(unit) => timed(TimeUnit::Fine(*unit), clocks),
        WordKind::Calendar(part, zone) => match zones.find(zone) {
            Some(zone) => Some(ColumnKind::Value(ValueKind::Calendar(*part, zone, clocks))),
            None => None,
        },
        WordKind::Compared(cmp, bound) => Some(ColumnKind::Value(ValueKind::Compared(
            *cmp, *bound,
        ))),
        WordKind::CalendarCompared(part, zone, cmp, bound) => match zones.find(zone) {
            Some(zone) => Some(ColumnKind::Value(ValueKind::CalendarCompared(
                *part, zone, clocks, *cmp, *bound,
            ))),
            None => None,
        },
        WordKind::Same(text) => Some(ColumnKind::Value(ValueKind::Same(text))),
        WordKind::Other(text) => Some(ColumnKind::Value(ValueKind::Other(text))),
        WordKind::Name => Some(ColumnKind::Name),
    }
}

/// How many parts a name has with a byte between.
fn count_of(name: &str, mark: char) -> usize
    requires { mark < 128 }
    ensures { result ≡ length (slice_split (λ b. b == mark) name.now) }
{
    name.split(mark).count()
}

/// What stands between the names of fields in the name of a column.
fn joint_of(field: &str, kind: &WordKind<'_>) -> Option<Joint>
    ensures { result ≡ joint_said field.now (view_kind kind.now) }
{
    match kind {
        WordKind::Name if count_of(field, '+') > 1 => Some(Joint::Plus),
        WordKind::Scaled(_) if count_of(field, '*') == 2 => Some(Joint::Times),
        _ => None,
    }
}

/// The column that a word says, with the zone in place of its name, or `None` where no zone has the name. Its times
/// that have no zone are read by the clocks. Where pluses stand in the name of a column of names, or one asterisk in
/// that of a decimal, it may be the names of several fields.
pub fn place_column<'w>(
    said: &ColumnWord<'w>,
    zones: &'w Zones,
    clocks: Clocks<'w>,
) -> Option<Column<'w>>
    ensures { MatchOption result (NamesNoZone zones.now.tables.items (view_kind said.now.kind)) (λ column. IsColumn zones.now.tables.items clocks.entry column (view_column said.now)) }
{
    match placed(&said.kind, zones, clocks) {
        Some(kind) => Some(Column {
            field: said.field,
            joint: joint_of(said.field, &said.kind),
            kind,
        }),
        None => None,
    }
}
