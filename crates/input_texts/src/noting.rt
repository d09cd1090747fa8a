//! What is noted of entries, where nothing of them is kept.

ghost use Rattle.std.specs.Prelude.{◌≡◌, ◌<◌, ◌+◌, ◌==◌, ◌-ℤ◌, ℤ, pos, List, Option, Some, None, cond, is_some, length, IfOk, IfErr, OnOk};
ghost use Rattle.std.specs.Int.{int_max};
ghost use Rattle.std.specs.Option.{option_map, option_or};
ghost use Rattle.json.specs.Token.{Token as SpecToken};
ghost use Rattle.json.specs.Json.{read_key};
ghost use Rattle.serde_json.specs.Data.{Data, Members, no_members, object};
ghost use Rattle.json_parts.specs.Parts.{whole, cell_text, list_text, each};
ghost use Rattle.json_tokens.specs.Ahead.{parts};
ghost use Rattle.json_tokens.specs.Passed.{IsNoValue, MembersRead, Passes, after};
ghost use Rattle.plain_data.specs.Times.{lowest};
ghost use Rattle.plan_model.specs.PlanData.{IsBound};
ghost use Rattle.input_texts.specs.InputText.{entry_text};
ghost use Rattle.input_texts.specs.Said as said;
ghost use Rattle.input_texts.specs.Seen as seen;
ghost use Rattle.input_texts.specs.Seen.{Notes, joined, member_text, named_by, noted_source};

use crate::numbers::number_of as number_or_zero;
use crate::seen::{EntrySeen, Named, PartitionSeen, RowSeen, Seen, SourceSeen, both, nothing};
use columns::MOST_ROWS;
use json::Reader;
use json_tokens::{Miss, next_cell, open_list, open_object, pass_value};
use plan_model::{Plan, is_time};
use stream_model::is_late_time;

/// So many and so many more. There is no memory for a text of more parts than 64 bits count.
fn sum(count: u64, more: u64) -> Result<u64, Miss>
    ensures said { IfOk result (λ total. total ≡ count + more) }
    ensures refused { IfErr result (λ miss. miss ≡ Miss.Memory) }
{
    count.checked_add(more).ok_or(Miss::Memory)
}

/// The time of a row, once one more cell was read behind `count` others.
fn time_after(time: i64, column: u64, count: u64, cell: Option<i64>) -> i64
    ensures { result ≡ cond (count == column) (said.number_of cell) time }
{
    if count == column {
        number_or_zero(cell)
    } else {
        time
    }
}

/// The cells of a row up to its closing bracket.
fn cells_noted(
    plan: &Plan,
    reader: &mut Reader<'_>,
    watermark: i64,
    depth: usize,
) -> Result<RowSeen, Miss>
    ensures said { IfOk result (λ row. (cells : List (Option ℤ)) × (parts cell_text depth reader.old ≡ Some (cells, reader.new))
        × (row ≡ seen.row_seen plan.now.columns plan.now.window.time watermark cells)) }
    ensures refused { IfErr result (λ miss. miss ≡ Miss.Other → parts cell_text depth reader.old ≡ None) }
    ensures shorter { OnOk result (length reader.new < length reader.old) }
{
    let column = plan.window().time as u64;
    let mut count: u64 = 0;
    let mut is_whole = true;
    let mut time: i64 = 0;
    'cells: while !reader.take_end_array() {
        let cell = next_cell(reader, depth)?;
        is_whole = is_whole & cell.is_some();
        time = time_after(time, column, count, cell);
        count = sum(count, 1)?;
    }
    let met = Seen {
        is_wide: count == plan.columns() as u64,
        is_whole,
        is_sized: true,
        is_timely: is_time(time),
        is_kind: true,
    };
    Ok(RowSeen {
        met,
        is_late: is_late_time(watermark, time),
        greatest: Some(time),
    })
}

/// The next value as a row. None: it has another form.
fn next_row(
    plan: &Plan,
    reader: &mut Reader<'_>,
    watermark: i64,
    depth: usize,
) -> Result<Option<RowSeen>, Miss>
    ensures said { IfOk result (λ row. Notes (list_text cell_text) (seen.row_seen plan.now.columns plan.now.window.time watermark) depth reader.old row reader.new) }
    ensures refused { IfErr result (λ miss. miss ≡ Miss.Other → IsNoValue depth reader.old) }
    ensures shorter { OnOk result (length reader.new < length reader.old) }
{
    let is_open = open_list(reader, depth)?;
    if !is_open {
        return Ok(None);
    }
    let row = cells_noted(plan, reader, watermark, depth - 1)?;
    Ok(Some(row))
}

/// The greater of two times, where there are two.
fn greater(time: Option<i64>, other: Option<i64>) -> Option<i64>
    ensures { result ≡ seen.greater time other }
{
    match (time, other) {
        (Some(time), Some(other)) => Some(time.max(other)),
        (Some(time), None) => Some(time),
        (None, other) => other,
    }
}

fn with_row(rows: Option<RowSeen>, row: Option<RowSeen>) -> Option<RowSeen>
    ensures { result ≡ joined seen.with_row rows row }
{
    let rows = rows?;
    let row = row?;
    Some(RowSeen {
        met: both(rows.met, row.met),
        is_late: rows.is_late | row.is_late,
        greatest: greater(rows.greatest, row.greatest),
    })
}

/// The watermark behind a record with this time, in a source with this bound. It moves nothing where it is too early
/// for 64 bits.
fn behind(watermark: i64, bound: i64, time: i64) -> i64
    requires bounded { IsBound (Some bound) }
    ensures { result ≡ int_max watermark (time -ℤ bound -ℤ pos 1) }
{
    watermark.max(time.saturating_sub(bound + 1))
}

/// The watermark behind rows of a source with this bound, of which this is the greatest time.
fn watermark_after(watermark: i64, bound: Option<i64>, greatest: Option<i64>) -> i64
    requires bounded { IsBound bound }
    ensures { result ≡ int_max watermark (seen.brought bound greatest) }
{
    match (bound, greatest) {
        (Some(bound), Some(time)) => behind(watermark, bound, time),
        _ => watermark,
    }
}

/// An entry of so many rows.
fn entry_of_rows(rows: RowSeen, count: u64, watermark: i64) -> EntrySeen
    ensures { result ≡ seen.of_rows rows count watermark }
{
    let mut met = rows.met;
    met.is_sized = (1 <= count) & (count <= MOST_ROWS as u64);
    EntrySeen {
        met,
        is_late: rows.is_late,
        watermark,
        records: count,
    }
}

/// The rows of an entry up to the closing bracket. None: one of them has another form.
fn rows_noted(
    plan: &Plan,
    bound: Option<i64>,
    reader: &mut Reader<'_>,
    watermark: i64,
    depth: usize,
) -> Result<Option<EntrySeen>, Miss>
    requires bounded { IsBound bound }
    ensures said { IfOk result (λ entry. (ds : List Data) × (parts Some depth reader.old ≡ Some (ds, reader.new))
        × (entry ≡ option_map (seen.rows_seen bound plan.now.columns plan.now.window.time watermark) (each (list_text cell_text) ds))) }
    ensures refused { IfErr result (λ miss. miss ≡ Miss.Other → parts Some depth reader.old ≡ None) }
    ensures shorter { OnOk result (length reader.new < length reader.old) }
{
    let mut rows = Some(RowSeen {
        met: nothing(),
        is_late: false,
        greatest: None,
    });
    let mut count: u64 = 0;
    'rows: while !reader.take_end_array() {
        let row = next_row(plan, reader, watermark, depth)?;
        rows = with_row(rows, row);
        count = sum(count, 1)?;
    }
    let Some(rows) = rows else {
        return Ok(None);
    };
    let behind = watermark_after(watermark, bound, rows.greatest);
    Ok(Some(entry_of_rows(rows, count, behind)))
}

/// The next value as the rows of an entry. None: it has another form.
fn next_rows(
    plan: &Plan,
    bound: Option<i64>,
    reader: &mut Reader<'_>,
    watermark: i64,
    depth: usize,
) -> Result<Option<EntrySeen>, Miss>
    requires bounded { IsBound bound }
    ensures said { IfOk result (λ entry. Notes (list_text (list_text cell_text)) (seen.rows_seen bound plan.now.columns plan.now.window.time watermark) depth reader.old entry reader.new) }
    ensures refused { IfErr result (λ miss. miss ≡ Miss.Other → IsNoValue depth reader.old) }
    ensures shorter { OnOk result (length reader.new < length reader.old) }
{
    let is_open = open_list(reader, depth)?;
    if !is_open {
        return Ok(None);
    }
    rows_noted(plan, bound, reader, watermark, depth - 1)
}

/// The watermark behind one that stands in a source with this bound. It moves nothing where the source makes its own.
fn watermark_with(watermark: i64, bound: Option<i64>, time: i64) -> i64
    ensures { result ≡ int_max watermark (cond (is_some bound) lowest time) }
{
    match bound {
        Some(_) => watermark,
        None => watermark.max(time),
    }
}

/// The next value as a watermark, behind another.
fn next_watermark(
    plan: &Plan,
    bound: Option<i64>,
    reader: &mut Reader<'_>,
    watermark: i64,
    depth: usize,
) -> Result<EntrySeen, Miss>
    ensures said { IfOk result (λ entry. (d : Data) × Passes depth reader.old d reader.new × (entry ≡ seen.watermark_seen bound plan.now.columns plan.now.window.time watermark (whole d))) }
    ensures refused { IfErr result (λ miss. miss ≡ Miss.Other → IsNoValue depth reader.old) }
    ensures shorter { OnOk result (length reader.new < length reader.old) }
{
    let cell = next_cell(reader, depth)?;
    let time = number_or_zero(cell);
    let mut met = nothing();
    met.is_whole = cell.is_some();
    met.is_timely = is_time(time);
    met.is_kind = bound.is_none();
    Ok(EntrySeen {
        met,
        is_late: false,
        watermark: watermark_with(watermark, bound, time),
        records: 0,
    })
}

/// Which member of an entry has a name.
fn named_by(name: &str) -> Named
    ensures { result ≡ named_by name.now }
{
    if name == "rows" {
        Named::Rows
    } else if name == "watermark" {
        Named::Watermark
    } else {
        Named::Others
    }
}

/// The next value as that of an entry's only member. None: it has another form.
fn next_member(
    plan: &Plan,
    bound: Option<i64>,
    reader: &mut Reader<'_>,
    watermark: i64,
    named: Named,
    depth: usize,
) -> Result<Option<EntrySeen>, Miss>
    requires bounded { IsBound bound }
    ensures said { IfOk result (λ entry. Notes (member_text named) (seen.entry_seen bound plan.now.columns plan.now.window.time watermark) depth reader.old entry reader.new) }
    ensures refused { IfErr result (λ miss. miss ≡ Miss.Other → IsNoValue depth reader.old) }
    ensures shorter { OnOk result (length reader.new < length reader.old) }
{
    match named {
        Named::Rows => next_rows(plan, bound, reader, watermark, depth),
        Named::Watermark => {
            let entry = next_watermark(plan, bound, reader, watermark, depth)?;
            Ok(Some(entry))
        }
        Named::Nothing | Named::Others => {
            pass_value(reader, depth)?;
            Ok(None)
        }
    }
}

/// What was passed once one more member was: of two names they are others.
fn with_member(named: Named, next: Named) -> Named
    ensures { result ≡ seen.with_member named next }
{
    match (named, next) {
        (Named::Nothing, next) => next,
        (Named::Rows, Named::Rows) => Named::Rows,
        (Named::Watermark, Named::Watermark) => Named::Watermark,
        _ => Named::Others,
    }
}

/// What is noted of an entry with these members, of which the last was noted so.
fn noted_as(named: Named, member: Option<EntrySeen>) -> Option<EntrySeen>
    ensures { result ≡ seen.noted_as named member }
{
    match named {
        Named::Others => None,
        Named::Nothing | Named::Rows | Named::Watermark => member,
    }
}

/// The members of an entry up to the closing brace. None: there are others than its rows, or than its
/// watermark.
fn members_noted(
    plan: &Plan,
    bound: Option<i64>,
    reader: &mut Reader<'_>,
    watermark: i64,
    depth: usize,
) -> Result<Option<EntrySeen>, Miss>
    requires bounded { IsBound bound }
    ensures said { IfOk result (λ entry. (ms : Members) × (rest : List SpecToken) × MembersRead depth reader.old ms rest × (read_key rest ≡ Some (None, reader.new))
        × (entry ≡ option_map (seen.entry_seen bound plan.now.columns plan.now.window.time watermark) (entry_text (object ms)))) }
    ensures refused { IfErr result (λ miss. miss ≡ Miss.Other → after depth no_members (length reader.old) reader.old ≡ None) }
    ensures shorter { OnOk result (length reader.new < length reader.old) }
{
    let mut named = Named::Nothing;
    let mut entry = None;
    'members: while let Some(name) = reader.next_key()? {
        let next = named_by(name);
        let member = next_member(plan, bound, reader, watermark, next, depth)?;
        named = with_member(named, next);
        entry = noted_as(named, member);
    }
    Ok(entry)
}

/// The next value as an entry behind others with this watermark. None: it has another form.
fn next_entry(
    plan: &Plan,
    bound: Option<i64>,
    reader: &mut Reader<'_>,
    watermark: i64,
    depth: usize,
) -> Result<Option<EntrySeen>, Miss>
    requires bounded { IsBound bound }
    ensures said { IfOk result (λ entry. Notes entry_text (seen.entry_seen bound plan.now.columns plan.now.window.time watermark) depth reader.old entry reader.new) }
    ensures refused { IfErr result (λ miss. miss ≡ Miss.Other → IsNoValue depth reader.old) }
    ensures shorter { OnOk result (length reader.new < length reader.old) }
{
    let is_open = open_object(reader, depth)?;
    if !is_open {
        return Ok(None);
    }
    members_noted(plan, bound, reader, watermark, depth - 1)
}

/// The first late entry, where one more has this place.
fn late_with_entry(late: Option<u64>, entry: &EntrySeen, place: u64) -> Option<u64>
    ensures { result ≡ option_or late (cond entry.now.is_late (Some place) None) }
{
    match late {
        Some(first) => Some(first),
        None if entry.is_late => Some(place),
        None => None,
    }
}

fn with_entry(
    partition: Option<PartitionSeen>,
    entry: Option<EntrySeen>,
    place: u64,
) -> Result<Option<PartitionSeen>, Miss>
    ensures said { IfOk result (λ more. more ≡ joined (seen.with_entry place) partition entry) }
    ensures refused { IfErr result (λ miss. miss ≡ Miss.Memory) }
{
    let (Some(partition), Some(entry)) = (partition, entry) else {
        return Ok(None);
    };
    let records = sum(partition.records, entry.records)?;
    Ok(Some(PartitionSeen {
        met: both(partition.met, entry.met),
        late: late_with_entry(partition.late, &entry, place),
        records,
    }))
}

/// The watermark behind an entry. It matters no more behind one of another form.
fn watermark_behind(entry: &Option<EntrySeen>, watermark: i64) -> i64
    ensures { result ≡ seen.watermark_behind entry.now watermark }
{
    match entry {
        Some(entry) => entry.watermark,
        None => watermark,
    }
}

/// The entries of a partition up to the closing bracket. None: one of them has another form.
fn entries_noted(
    plan: &Plan,
    bound: Option<i64>,
    reader: &mut Reader<'_>,
    depth: usize,
) -> Result<Option<PartitionSeen>, Miss>
    requires bounded { IsBound bound }
    ensures said { IfOk result (λ partition. (ds : List Data) × (parts Some depth reader.old ≡ Some (ds, reader.new))
        × (partition ≡ option_map (seen.partition_seen bound plan.now.columns plan.now.window.time) (each entry_text ds))) }
    ensures refused { IfErr result (λ miss. miss ≡ Miss.Other → parts Some depth reader.old ≡ None) }
    ensures shorter { OnOk result (length reader.new < length reader.old) }
{
    let mut partition = Some(PartitionSeen {
        met: nothing(),
        late: None,
        records: 0,
    });
    let mut watermark = i64::MIN;
    let mut place: u64 = 0;
    'entries: while !reader.take_end_array() {
        let entry = next_entry(plan, bound, reader, watermark, depth)?;
        watermark = watermark_behind(&entry, watermark);
        partition = with_entry(partition, entry, place)?;
        place = sum(place, 1)?;
    }
    Ok(partition)
}

/// The next value as a partition. None: it has another form.
fn next_partition(
    plan: &Plan,
    bound: Option<i64>,
    reader: &mut Reader<'_>,
    depth: usize,
) -> Result<Option<PartitionSeen>, Miss>
    requires bounded { IsBound bound }
    ensures said { IfOk result (λ partition. Notes (list_text entry_text) (seen.partition_seen bound plan.now.columns plan.now.window.time) depth reader.old partition reader.new) }
    ensures refused { IfErr result (λ miss. miss ≡ Miss.Other → IsNoValue depth reader.old) }
    ensures shorter { OnOk result (length reader.new < length reader.old) }
{
    let is_open = open_list(reader, depth)?;
    if !is_open {
        return Ok(None);
    }
    entries_noted(plan, bound, reader, depth - 1)
}

/// The first late entry, where one more partition is the last.
fn late_with_partition(source: &SourceSeen, partition: &PartitionSeen) -> Option<(u64, u64)>
    ensures { result ≡ option_or source.now.late (option_map (λ e. (source.now.partitions, e)) partition.now.late) }
{
    match (source.late, partition.late) {
        (Some(first), _) => Some(first),
        (None, Some(entry)) => Some((source.partitions, entry)),
        (None, None) => None,
    }
}

fn with_partition(
    source: Option<SourceSeen>,
    partition: Option<PartitionSeen>,
) -> Result<Option<SourceSeen>, Miss>
    ensures said { IfOk result (λ more. more ≡ joined seen.with_partition source partition) }
    ensures refused { IfErr result (λ miss. miss ≡ Miss.Memory) }
{
    let (Some(source), Some(partition)) = (source, partition) else {
        return Ok(None);
    };
    let partitions = sum(source.partitions, 1)?;
    let records = sum(source.records, partition.records)?;
    Ok(Some(SourceSeen {
        met: both(source.met, partition.met),
        partitions,
        late: late_with_partition(&source, &partition),
        records,
    }))
}

/// The partitions of a source up to the closing bracket. None: one of them has another form.
fn partitions_noted(
    plan: &Plan,
    bound: Option<i64>,
    reader: &mut Reader<'_>,
    depth: usize,
) -> Result<Option<SourceSeen>, Miss>
    requires bounded { IsBound bound }
    ensures said { IfOk result (λ source. (ds : List Data) × (parts Some depth reader.old ≡ Some (ds, reader.new))
        × (source ≡ option_map (seen.source_seen bound plan.now.columns plan.now.window.time) (each (list_text entry_text) ds))) }
    ensures refused { IfErr result (λ miss. miss ≡ Miss.Other → parts Some depth reader.old ≡ None) }
    ensures shorter { OnOk result (length reader.new < length reader.old) }
{
    let mut source = Some(SourceSeen {
        met: nothing(),
        partitions: 0,
        late: None,
        records: 0,
    });
    'partitions: while !reader.take_end_array() {
        let partition = next_partition(plan, bound, reader, depth)?;
        source = with_partition(source, partition)?;
    }
    Ok(source)
}

/// The next value as the partitions of a source. None: it has another form.
pub fn next_source(
    plan: &Plan,
    bound: Option<i64>,
    reader: &mut Reader<'_>,
    depth: usize,
) -> Result<Option<SourceSeen>, Miss>
    requires bounded { IsBound bound }
    ensures said { IfOk result (λ source. (d : Data) × Passes depth reader.old d reader.new × (source ≡ noted_source bound plan.now d)) }
    ensures refused { IfErr result (λ miss. miss ≡ Miss.Other → IsNoValue depth reader.old) }
    ensures shorter { OnOk result (length reader.new < length reader.old) }
{
    let is_open = open_list(reader, depth)?;
    if !is_open {
        return Ok(None);
    }
    partitions_noted(plan, bound, reader, depth - 1)
}
