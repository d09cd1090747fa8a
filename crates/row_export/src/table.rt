//! What the numbers of a row are called and shown as.

ghost use Rattle.std.specs.Prelude.{◌≡◌};
ghost use Rattle.row_tables.specs.Cells.{kind_at};

use crate::header::{field_of, name_of};
use import_columns::ColumnWord;
use plan_model::Plan;
use row_tables::{CellKind, kind_of_aggregate, kind_of_column};
use std::alloc::{AllocError, Global};

/// The names of the numbers of a plan's rows, and what they are shown as: start, end, key, and one for each aggregate.
#[derive(Drop)]
pub struct Table {
    pub(crate) names: Vec<String>,
    pub(crate) kinds: Vec<CellKind>,
}

fn kind_at(columns: &[ColumnWord<'_>], column: u32) -> CellKind
    ensures { result ≡ kind_at columns.now column }
{
    match columns.get(column as usize) {
        Some(column) => kind_of_column(&column.kind),
        None => CellKind::Number(field_values::Places::WHOLE),
    }
}

impl Table {
    ghost use Rattle.std.specs.Prelude.{◌≡◌, [], IfOk, get_or, length};
    ghost use Rattle.row_export.specs.Shown.{kinds_of, kinds_shown, titles_of, width_of};
    ghost use Rattle.row_export.specs.Titles.{titles_shown};

    /// The table of the rows of a plan on an input that was imported with columns.
    ///
    /// # Errors
    ///
    /// Only where memory runs out.
    pub fn new(alloc: Global, plan: &Plan, columns: &[ColumnWord<'_>]) -> Result<Table, AllocError>
        ensures kinds { IfOk result (λ table. kinds_of table ≡ kinds_shown plan.now.window columns.now) }
        ensures titles { IfOk result (λ table. titles_of table ≡ titles_shown plan.now.window columns.now) }
        ensures width { IfOk result (λ table. width_of table ≡ length plan.now.window.aggregates) }
    {
        let window = plan.window();
        let mut names = Vec::new(alloc);
        let mut kinds = Vec::new(alloc);
        let time = kind_at(columns, window.time);
        names.push(String::from_str(alloc, "start")?)?;
        kinds.push(time)?;
        names.push(String::from_str(alloc, "end")?)?;
        kinds.push(time)?;
        names.push(String::from_str(alloc, field_of(columns, window.key))?)?;
        kinds.push(kind_at(columns, window.key))?;
        for aggregate in window.aggregates.as_slice() {
            names.push(name_of(alloc, *aggregate, columns)?)?;
            kinds.push(kind_of_aggregate(*aggregate, columns))?;
        }
        Ok(Table { names, kinds })
    }

    /// How many numbers of aggregates a row has.
    pub fn width(&self) -> usize
        ensures { result ≡ width_of self.now }
    {
        self.kinds.len().saturating_sub(3)
    }

    /// The name of the number at a place, counted from 0.
    pub fn name(&self, place: usize) -> &str
        ensures { result.now ≡ get_or (titles_of self.now) place [] }
    {
        match self.names.get(place) {
            Some(name) => name.as_str(),
            None => "",
        }
    }
}
