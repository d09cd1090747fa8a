//! The sentences of refusals: where something stands, and what it has to be.

ghost use Rattle.import_words.specs.Judging.{IsRefusal};
ghost use Rattle.import_tellings.specs.Telling.{member_code, place_code, KeepsCode, TellsRow, TellsNames};

use crate::header::{difference, fields_text};
use csv::ByteRecord;
use field_values::FieldFault;
use import_columns::{Column, ColumnKind, ValueKind};
use import_entries::PlaceFault;
use import_words::{ImportCode, ImportFault, refused};
use imports::{CsvRows, FirstHeader, Records, RowFault};
use instant_texts::FineUnit;
use local_times::{Clocks, TimeUnit};
use object_lines::MemberFault;
use std::alloc::{AllocError, Global};
use std::io::Read;
use std::str;

/// The longest text of a field that is shown.
const MOST_SHOWN: usize = 100;

/// The name of a column's field.
fn name_of<'w>(columns: &[Column<'w>], column: usize) -> &'w str {
    match columns.get(column) {
        Some(column) => column.field,
        None => "",
    }
}

/// A text between quotes, if it is no long one.
fn shown(alloc: Global, text: &[u8]) -> Result<String, AllocError> {
    match str::from_utf8(text) {
        Ok(text) if text.len() <= MOST_SHOWN => format!(in alloc; "{text:?}"),
        _ => format!(in alloc; "the text"),
    }
}

/// How many decimal places a column keeps.
fn places_kept(columns: &[Column<'_>], column: usize) -> u32 {
    match columns.get(column) {
        Some(
            Column {
                kind: ColumnKind::Value(ValueKind::Scaled(places)),
                ..
            },
        ) => places.get(),
        _ => 0,
    }
}

/// The unit of a column's times.
fn unit_of(columns: &[Column<'_>], column: usize) -> &'static str {
    match columns.get(column) {
        Some(
            Column {
                kind: ColumnKind::Value(ValueKind::Time(TimeUnit::Fine(unit), _)),
                ..
            },
        ) => match unit {
            FineUnit::Microseconds => "microseconds",
            FineUnit::Nanoseconds => "nanoseconds",
        },
        _ => "milliseconds",
    }
}

/// The clocks by which the times of a column are read that have no zone.
fn clocks_of<'c>(columns: &[Column<'c>], column: usize) -> Clocks<'c> {
    let Some(column) = columns.get(column) else {
        return Clocks::Zoned;
    };
    match column.kind {
        ColumnKind::Value(ValueKind::Time(_, clocks)) => clocks,
        ColumnKind::Value(ValueKind::Calendar(_, _, clocks)) => clocks,
        ColumnKind::Value(ValueKind::CalendarCompared(_, _, clocks, _, _)) => clocks,
        _ => Clocks::Zoned,
    }
}

/// What is wrong with a text that is a time, but none that there is.
fn no_such_time(clocks: Clocks<'_>) -> &'static str {
    match clocks {
        Clocks::Local(_, None) => {
            "is a time that no calendar shows, or clocks of the zone show never or twice, and no --fold says which is meant"
        }
        _ => "is a time that no calendar or clock shows",
    }
}

/// What is wrong with a text that is no time.
fn no_time(clocks: Clocks<'_>) -> &'static str {
    match clocks {
        Clocks::Local(_, _) => "is no time, as 2026-03-01T12:00:00.5",
        Clocks::Zoned => "is no time with a zone, as 2026-03-01T12:00:00.5Z",
    }
}

/// What is wrong with the text of a field.
fn wrong(
    alloc: Global,
    fault: FieldFault,
    places: u32,
    unit: &str,
    clocks: Clocks<'_>,
) -> Result<String, AllocError> {
    match fault {
        FieldFault::NoNumber => format!(in alloc; "is no number"),
        FieldFault::MorePlaces => format!(in alloc; "has more than {places} decimal places"),
        FieldFault::TooLarge => format!(in alloc; "does not fit 64 bits"),
        FieldFault::NoTime => String::from_str(alloc, no_time(clocks)),
        FieldFault::TooFine => format!(in alloc; "is finer than {unit}"),
        FieldFault::NoSuchTime => String::from_str(alloc, no_such_time(clocks)),
        FieldFault::EmptyName => format!(in alloc; "is an empty name"),
    }
}

fn value_sentence(
    alloc: Global,
    name: &str,
    text: &[u8],
    wrong: &str,
) -> Result<String, AllocError> {
    let text = shown(alloc, text)?;
    format!(in alloc; "{name}: {text} {wrong}")
}

/// The refusal of a field's text.
fn refused_value(
    alloc: Global,
    columns: &[Column<'_>],
    column: usize,
    text: &[u8],
    fault: FieldFault,
) -> ImportFault
    ensures { IsRefusal ImportCode.Value result }
{
    let name = name_of(columns, column);
    let (places, unit) = (places_kept(columns, column), unit_of(columns, column));
    match wrong(alloc, fault, places, unit, clocks_of(columns, column)) {
        Ok(wrong) => refused(
            ImportCode::Value,
            value_sentence(alloc, name, text, wrong.as_str()),
        ),
        Err(_) => ImportFault::Memory,
    }
}

/// The refusal of a name that is no UTF-8.
fn refused_no_text(alloc: Global, name: &str) -> ImportFault
    ensures { IsRefusal ImportCode.Value result }
{
    refused(
        ImportCode::Value,
        value_sentence(alloc, name, b"\xff", "is no UTF-8"),
    )
}

/// The refusal of a row by its place.
fn refused_place(alloc: Global, name: &str, fault: PlaceFault) -> ImportFault
    ensures { IsRefusal (place_code fault) result }
{
    match fault {
        PlaceFault::Range => refused(
            ImportCode::TimeRange,
            format!(in alloc; "{name}: a time is from -2^62 to 2^62 - 1"),
        ),
        PlaceFault::Late(time, mark) => refused(
            ImportCode::LateRow,
            format!(in alloc; "{name}: the time {time} is not above the watermark {mark}"),
        ),
    }
}

fn no_field_sentence(alloc: Global, name: &str, header: &ByteRecord) -> Result<String, AllocError> {
    let fields = fields_text(alloc, header)?;
    format!(in alloc; "the header has no field {name:?}: {fields}")
}

/// The refusal of a header that lacks a field.
fn refused_header(alloc: Global, name: &str, header: &ByteRecord) -> ImportFault
    ensures { IsRefusal ImportCode.Header result }
{
    refused(ImportCode::Header, no_field_sentence(alloc, name, header))
}

/// The refusal of a header that has a field twice.
fn refused_twice(alloc: Global, name: &str) -> ImportFault
    ensures { IsRefusal ImportCode.Header result }
{
    refused(
        ImportCode::Header,
        format!(in alloc; "the header has twice the field {name:?}"),
    )
}

fn other_header_sentence(
    alloc: Global,
    first: &FirstHeader<'_>,
    header: &ByteRecord,
) -> Result<String, AllocError> {
    let wanted = first.file;
    let difference = difference(alloc, header, &first.header)?;
    format!(in alloc; "the header is not that of {wanted}: {difference}")
}

/// The refusal of a header that is not that of the first file.
fn refused_other_header(
    alloc: Global,
    first: Option<&FirstHeader<'_>>,
    header: &ByteRecord,
) -> ImportFault
    ensures { IsRefusal ImportCode.Header result }
{
    refused(
        ImportCode::Header,
        match first {
            Some(first) => other_header_sentence(alloc, first, header),
            None => format!(in alloc; "the header is another one"),
        },
    )
}

/// What may be wrong with a record that goes on to a line: a quotation mark stands open where it is not the first line.
fn open_quote(alloc: Global, line: u64, last: u64) -> Result<String, AllocError> {
    if last <= line {
        return Ok(String::new(alloc));
    }
    format!(in alloc;
        "; the record goes on to line {last}: is a quotation mark open in line {line}?"
    )
}

fn width_sentence(
    alloc: Global,
    line: u64,
    last: u64,
    width: usize,
    wanted: usize,
) -> Result<String, AllocError> {
    let open = open_quote(alloc, line, last)?;
    format!(in alloc; "there are {width} fields, and the header has {wanted}{open}")
}

/// The refusal of the width of a record, which begins in one line and goes on to another.
fn refused_width(alloc: Global, line: u64, last: u64, width: usize, wanted: usize) -> ImportFault
    ensures { IsRefusal ImportCode.Width result }
{
    refused(
        ImportCode::Width,
        width_sentence(alloc, line, last, width, wanted),
    )
}

/// The refusal of a line that is no object.
fn refused_object(alloc: Global) -> ImportFault
    ensures { IsRefusal ImportCode.Object result }
{
    refused(
        ImportCode::Object,
        format!(in alloc; "the line is no JSON object"),
    )
}

/// The refusal of a member without a text.
fn refused_member(alloc: Global, name: &str, fault: MemberFault) -> ImportFault
    ensures { IsRefusal (member_code fault) result }
{
    match fault {
        MemberFault::Missing => refused(
            ImportCode::Object,
            format!(in alloc; "the object has no member {name:?}"),
        ),
        MemberFault::Twice => refused(
            ImportCode::Object,
            format!(in alloc; "the object has twice the member {name:?}"),
        ),
        MemberFault::NoText => refused(
            ImportCode::Value,
            format!(in alloc;
                "{name}: null, a list or an object is no string, number, true or false"
            ),
        ),
    }
}

/// Why the record that `rows` has is refused, behind the first CSV file of its partition, and not where it stands.
pub fn reason_of<R: Read + Drop>(
    alloc: Global,
    columns: &[Column<'_>],
    time: usize,
    rows: &Records<R>,
    first: Option<&FirstHeader<'_>>,
    fault: RowFault,
) -> ImportFault
    ensures { TellsRow fault result }
{
    match fault {
        RowFault::Read => refused(ImportCode::Read, format!(in alloc; "it cannot be read")),
        RowFault::Write => ImportFault::Write,
        RowFault::Memory => ImportFault::Memory,
        RowFault::NoField(column) => {
            refused_header(alloc, name_of(columns, column), rows.record())
        }
        RowFault::FieldTwice(column) => refused_twice(alloc, name_of(columns, column)),
        RowFault::OtherHeader => refused_other_header(alloc, first, rows.record()),
        RowFault::Width(width, wanted) => {
            refused_width(alloc, rows.line(), rows.last_line(), width, wanted)
        }
        RowFault::NoObject => refused_object(alloc),
        RowFault::Member(column, fault) => {
            refused_member(alloc, name_of(columns, column), fault)
        }
        RowFault::Value(column, place, fault) => {
            let text = rows.record().get(place).unwrap_or(b"");
            refused_value(alloc, columns, column, text, fault)
        }
        RowFault::NoText(column) => refused_no_text(alloc, name_of(columns, column)),
        RowFault::Place(fault) => refused_place(alloc, name_of(columns, time), fault),
    }
}

/// What is told of a reason, with the file and the line where it stands in front.
fn at_line(alloc: Global, file: &str, line: u64, reason: ImportFault) -> ImportFault
    ensures { KeepsCode reason result }
{
    match reason {
        ImportFault::Refused(code, text) => {
            refused(code, format!(in alloc; "{file}:{line}: {text}"))
        }
        ImportFault::Write => ImportFault::Write,
        ImportFault::Memory => ImportFault::Memory,
    }
}

/// The refusal of the record that `rows` has, in the file of a name, behind the first CSV file of its partition.
pub fn refused_row<R: Read + Drop>(
    alloc: Global,
    file: &str,
    columns: &[Column<'_>],
    time: usize,
    rows: &Records<R>,
    first: Option<&FirstHeader<'_>>,
    fault: RowFault,
) -> ImportFault
    ensures { TellsRow fault result }
{
    if let RowFault::Read = fault {
        return refused_file(alloc, file);
    }
    let reason = reason_of(alloc, columns, time, rows, first, fault);
    at_line(alloc, file, rows.line(), reason)
}

/// The refusal of a file that cannot be read.
pub fn refused_file(alloc: Global, file: &str) -> ImportFault
    ensures { IsRefusal ImportCode.Read result }
{
    refused(ImportCode::Read, format!(in alloc; "{file}"))
}

/// The refusal of the record that `rows` has, in a table of names.
pub fn refused_names<R: Read + Drop>(
    alloc: Global,
    file: &str,
    rows: &CsvRows<R>,
    fault: RowFault,
) -> ImportFault
    ensures { TellsNames fault result }
{
    let line = rows.line();
    match fault {
        RowFault::Read => refused_file(alloc, file),
        RowFault::Memory => ImportFault::Memory,
        _ => refused(
            ImportCode::Names,
            format!(in alloc;
                "{file}:{line}: a record is NUMBER,NAME, with the numbers from 1 on and each name once, in UTF-8"
            ),
        ),
    }
}
