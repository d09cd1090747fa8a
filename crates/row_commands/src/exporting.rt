//! Rows as a table, by the words of their import.

ghost use Rattle.std.specs.Prelude.{IfOk, map, string_bytes};
ghost use Rattle.row_lines.specs.Sequences.{rows_left, width_of, last_of};
ghost use Rattle.row_export.specs.Shown.{kinds_of, titles_of};
ghost use Rattle.row_commands.specs.Telling.{WritesRows, HasExported};

use crate::files::{opened, refused_rows};
use crate::refusal::{RowsCode, RowsRefusal, refused};
use column_files::columns_text;
use import_columns::ColumnWord;
use import_tellings::refused_names;
use import_words::{ImportFault, check_columns, read_columns};
use imports::{CsvRows, read_names};
use name_table::NameTable;
use plan_model::Plan;
use row_export::{ExportFault, Table, write_objects, write_table};
use row_lines::RowLines;
use row_tables::CellFault;
use std::alloc::Global;
use std::hash::RandomState;
use std::io::{Read, Write};
use std::random::RandomSource;
use std::rt::Files;

/// The words of an export, behind that of its plan.
#[derive(Clone, Copy)]
pub struct ExportWords<'a> {
    /// The file of the rows.
    pub rows: &'a str,
    /// What each number of a record was read from.
    pub columns: &'a str,
    /// The file of the table of names.
    pub names: Option<&'a str>,
    /// Whether there is a header: `yes` or `no`.
    pub header: Option<&'a str>,
    /// Whether JSON objects are written, a line each, in place of CSV.
    pub json: bool,
}

/// What rows are written as.
#[derive(Clone, Copy, Debug, PartialEq, Eq)]
pub enum RowsForm {
    /// As CSV, with a header or without one.
    Table(bool),
    /// As a JSON object each.
    Objects,
}

/// What rows are to be written as.
fn form_of(alloc: Global, words: &ExportWords<'_>) -> Result<RowsForm, RowsRefusal> {
    match words.header {
        None if words.json => Ok(RowsForm::Objects),
        Some(_) if words.json => Err(refused(
            RowsCode::Word,
            String::from_str(alloc, "--header: the objects of --json have none"),
        )),
        None | Some("yes") => Ok(RowsForm::Table(true)),
        Some("no") => Ok(RowsForm::Table(false)),
        Some(word) => Err(refused(
            RowsCode::Word,
            format!(in alloc; "--header: {word:?} is neither yes nor no"),
        )),
    }
}

/// Whether the number at a place of a row is called as one before it.
fn is_twice(table: &Table, place: usize) -> bool {
    (0..place).any(|earlier| table.name(earlier) == table.name(place))
}

/// Whether each member of an object has a name of its own, where rows are to be objects.
fn check_names(alloc: Global, form: RowsForm, table: &Table) -> Result<(), RowsRefusal> {
    if form != RowsForm::Objects {
        return Ok(());
    }
    for place in 0..table.width().saturating_add(3) {
        if is_twice(table, place) {
            let name = table.name(place);
            let sentence = format!(in alloc; "--json: two numbers of a row are called {name:?}");
            return Err(refused(RowsCode::Word, sentence));
        }
    }
    Ok(())
}

fn columns_of<'w>(
    alloc: Global,
    plan: &Plan,
    word: &'w str,
    has_names: bool,
) -> Result<Vec<ColumnWord<'w>>, ImportFault> {
    let columns = read_columns(alloc, word)?;
    check_columns(alloc, &columns, plan.columns(), has_names)?;
    Ok(columns)
}

/// The table of names at a path, or one without names.
fn names_of<R: Files + RandomSource + AllocGlobal>(
    rt: &R,
    path: Option<&str>,
) -> Result<NameTable, RowsRefusal> {
    let Ok(state) = RandomState::new(rt) else {
        return Err(refused(RowsCode::Read, format!(in rt.alloc(); "random numbers")));
    };
    let Some(path) = path else {
        return Ok(NameTable::new(rt.alloc(), state));
    };
    let file = opened(rt, path)?;
    let Ok(mut rows) = CsvRows::new(rt.alloc(), file) else {
        return Err(RowsRefusal::Memory);
    };
    match read_names(rt.alloc(), state, &mut rows) {
        Ok(names) => Ok(names),
        Err(fault) => Err(RowsRefusal::Import(refused_names(rt.alloc(), path, &rows, fault))),
    }
}

/// What is wrong with a number that is shown as nothing.
fn wrong_cell(fault: CellFault) -> &'static str {
    match fault {
        CellFault::Name => "the table of names has no name of this number",
        _ => "the time is in no year from 1 to 9999",
    }
}

fn refused_export(
    alloc: Global,
    path: &str,
    table: &Table,
    line: u64,
    fault: ExportFault,
) -> RowsRefusal {
    match fault {
        ExportFault::Rows(fault) => refused_rows(alloc, path, line, fault),
        ExportFault::Cell(place, fault) => {
            let (name, wrong) = (table.name(place), wrong_cell(fault));
            refused(
                RowsCode::Cell,
                format!(in alloc; "{path}:{line}: {name}: {wrong}"),
            )
        }
        ExportFault::Write => RowsRefusal::Write,
        ExportFault::Memory => RowsRefusal::Memory,
    }
}

/// Writes the table of rows, or the object of each.
fn write_rows<R: Read + Drop, W: Write + Drop>(
    alloc: Global,
    rows: &mut RowLines<R>,
    table: &Table,
    names: &[String],
    form: RowsForm,
    out: W,
) -> Result<W, ExportFault>
    ensures { IfOk result (λ done. WritesRows form (kinds_of table.now) (titles_of table.now) (map string_bytes names.now) (width_of rows.old) (last_of rows.old) (rows_left R.remaining rows.old) (W.contents out) (W.contents done)) }
{
    match form {
        RowsForm::Table(has_header) => write_table(alloc, rows, table, names, has_header, out),
        RowsForm::Objects => write_objects(alloc, rows, table, names, out),
    }
}

/// Writes the rows of a plan as CSV or as JSON objects: times, dates, names and decimals as they were imported with
/// these columns.
///
/// # Errors
///
/// The words first: `Word`, and the columns as an import refuses them; then the table of names, and the rows with file
/// and line: `Rows`, `Order`, `Cell`; `Read`; `Write`; `Memory`. Some records may have been written then.
pub fn export<R: Files + RandomSource + AllocGlobal, W: Write + Drop>(
    rt: &R,
    plan: &Plan,
    words: &ExportWords<'_>,
    out: W,
) -> Result<W, RowsRefusal>
    ensures { IfOk result (λ done. HasExported plan.now (W.contents out) (W.contents done)) }
{
    let form = form_of(rt.alloc(), words)?;
    let written = match columns_text(rt, words.columns) {
        Ok(written) => written,
        Err(fault) => return Err(RowsRefusal::Import(fault)),
    };
    let word = written.as_deref().unwrap_or(words.columns);
    let columns = match columns_of(rt.alloc(), plan, word, words.names.is_some()) {
        Ok(columns) => columns,
        Err(fault) => return Err(RowsRefusal::Import(fault)),
    };
    let table = Table::new(rt.alloc(), plan, &columns)?;
    check_names(rt.alloc(), form, &table)?;
    let names = names_of(rt, words.names)?;
    let file = opened(rt, words.rows)?;
    let mut rows = RowLines::new(rt.alloc(), file, Some(table.width()))?;
    match write_rows(rt.alloc(), &mut rows, &table, names.names(), form, out) {
        Ok(out) => Ok(out),
        Err(fault) => Err(refused_export(
            rt.alloc(),
            words.rows,
            &table,
            rows.line_number(),
            fault,
        )),
    }
}
