//! The records of a file, whatever kind of file it is.

ghost use Rattle.std.specs.Prelude.{◌≡◌, ℕ, List, Some, IfErr, IfOk, OnOk};
ghost use Rattle.imports.specs.Separators.{separator_of};
ghost use Rattle.imports.specs.Placing.{AreFields, IsPlaced};
ghost use Rattle.imports.specs.Reading.{Rest, RowsStandAt, StandsAt, Advances, IsBegun, beginning, record_in, point_in, is_ndjson};

use crate::fault::{RowFault, line_fault};
use crate::first::{FirstHeader, check_header};
use crate::picking::Pick;
use crate::placing::Places;
use crate::records::CsvRows;
use crate::separator::Separator;
use asked_fields::AskedField;
use csv::ByteRecord;
use decimal_texts::DecimalPoint;
use import_columns::Column;
use object_lines::ObjectLines;
use std::alloc::Global;
use std::io::Read;

/// The records of a file, one after the other.
#[derive(Drop)]
pub enum Records<R> {
    /// Those of a CSV text behind its header: all fields of a row.
    Rows(CsvRows<R>),
    /// Those of an NDJSON text: of the object of a line the members that columns ask for, in their order.
    Objects(ObjectLines<R>),
}

/// Whether the name of a file says that it is NDJSON.
fn is_ndjson(path: &str) -> bool
    ensures { result ≡ is_ndjson path.now }
{
    path.ends_with(".ndjson") || path.ends_with(".jsonl")
}

/// The fields that columns ask for.
pub fn fields_of<'w>(alloc: Global, columns: &[Column<'w>]) -> Result<Vec<AskedField<'w>>, RowFault>
    ensures fields { IfOk result (λ fields. AreFields columns.now fields.items) }
    ensures refused { IfErr result (λ fault. fault ≡ RowFault.Memory) }
{
    let mut fields = Vec::new(alloc);
    for column in columns {
        fields.push(AskedField::new(alloc, column.field, column.joint)?)?;
    }
    Ok(fields)
}

/// Goes behind the header of a CSV text, and tells where the texts of fields stand in the records behind it.
fn pass_header<'f, R: Read + Drop>(
    rows: &mut CsvRows<R>,
    alloc: Global,
    fields: &[AskedField<'_>],
    file: &'f str,
    first: &mut Option<FirstHeader<'f>>,
) -> Result<Places, RowFault>
    ensures stands { (rest : Rest) (more : Rest) → RowsStandAt R.remaining rows.old rest → IsBegun rest more → OnOk result (RowsStandAt R.remaining rows.new more) }
    ensures places { (rest : Rest) → RowsStandAt R.remaining rows.old rest → IfOk result (λ places. IsPlaced rest fields.now places.places.items places.picks.items) }
{
    let _is_there = rows.advance()?;
    check_header(first, file, rows.record())?;
    Places::in_header(alloc, rows.record(), fields)
}

impl<R: Read + Drop> Records<R> {
    /// The records of what a reader of the file at a path gives: of NDJSON where the path ends so, and else of CSV with
    /// a separator.
    ///
    /// # Errors
    ///
    /// `Memory`.
    pub fn new(
        alloc: Global,
        path: &str,
        input: R,
        separator: Separator,
    ) -> Result<Records<R>, RowFault>
        ensures { (text : List ℕ) → R.remaining input ≡ Some text → IfOk result (λ records. StandsAt R.remaining records (beginning path.now (separator_of separator) text)) }
    {
        if !is_ndjson(path) {
            return Ok(Records::Rows(CsvRows::separated(alloc, input, separator)?));
        }
        match ObjectLines::new(alloc, input) {
            Ok(lines) => Ok(Records::Objects(lines)),
            Err(fault) => Err(line_fault(fault)),
        }
    }

    /// Goes to where the first record is next, and tells where the texts of fields stand in all of them.
    ///
    /// # Errors
    ///
    /// `Read`; those of the header that a CSV text has, which is to be that of the partition; `Memory`.
    pub fn begin<'f>(
        &mut self,
        alloc: Global,
        fields: &[AskedField<'_>],
        file: &'f str,
        first: &mut Option<FirstHeader<'f>>,
    ) -> Result<Places, RowFault>
        ensures stands { (rest : Rest) (more : Rest) → StandsAt R.remaining self.old rest → IsBegun rest more → OnOk result (StandsAt R.remaining self.new more) }
        ensures places { (rest : Rest) → StandsAt R.remaining self.old rest → IfOk result (λ places. IsPlaced rest fields.now places.places.items places.picks.items) }
    {
        match self {
            Records::Rows(rows) => pass_header(rows, alloc, fields, file, first),
            Records::Objects(_) => Places::in_order(alloc, fields.len()),
        }
    }

    /// Goes on to the next record, and tells whether there is one. Blank lines are passed over. The texts of the fields
    /// stand where [`Records::begin`] says, and so do the picks.
    ///
    /// # Errors
    ///
    /// `Read`; `Width`; `NoObject` or `Member` where the line is no object with a text for each of the fields;
    /// `Memory`.
    pub fn advance(&mut self, fields: &[AskedField<'_>], picks: &[Pick]) -> Result<bool, RowFault>
        ensures { (rest : Rest) → StandsAt R.remaining self.old rest → Advances R.remaining fields.now picks.now rest self.new result }
    {
        match self {
            Records::Rows(rows) => rows.advance_picked(picks),
            Records::Objects(lines) => match lines.advance(fields) {
                Ok(is_there) => Ok(is_there),
                Err(fault) => Err(line_fault(fault)),
            },
        }
    }

    /// The record: a row of CSV, or the texts of the fields that are asked for.
    pub fn record(&self) -> &ByteRecord
        ensures { result.now ≡ record_in self.now }
    {
        match self {
            Records::Rows(rows) => rows.taken(),
            Records::Objects(lines) => lines.record(),
        }
    }

    /// The line at which the record begins, counted from 1.
    pub fn line(&self) -> u64 {
        match self {
            Records::Rows(rows) => rows.line(),
            Records::Objects(lines) => lines.line(),
        }
    }

    /// What stands for the point of decimals in the records, where this does in CSV: in NDJSON it is a point.
    pub fn point_by(&self, point: DecimalPoint) -> DecimalPoint
        ensures { result ≡ point_in self.now point }
    {
        match self {
            Records::Rows(_) => point,
            Records::Objects(_) => DecimalPoint::Point,
        }
    }

    /// The line at which the record ends.
    pub fn last_line(&self) -> u64 {
        match self {
            Records::Rows(rows) => rows.last_line(),
            Records::Objects(lines) => lines.line(),
        }
    }

    /// How many lines have been read: all of them once there is no further record.
    pub fn lines(&self) -> u64 {
        match self {
            Records::Rows(rows) => rows.lines(),
            Records::Objects(lines) => lines.line(),
        }
    }
}
