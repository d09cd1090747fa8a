//! How many rows have 1 in the columns that are comparisons.

use import_columns::{Column, ColumnKind, ValueKind};
use import_reports::ComparisonReport;
use std::alloc::{AllocError, Global};

/// A column that is a comparison, and how many rows have 1 there.
#[derive(Clone, Copy)]
struct Comparison {
    column: usize,
    ones: u64,
}

/// How many rows have 1 in each column that is a comparison.
#[derive(Drop)]
pub(crate) struct Comparisons {
    alloc: Global,
    comparisons: Vec<Comparison>,
}

/// Whether a column is 1 or 0.
fn is_comparison(kind: &ColumnKind<'_>) -> bool {
    match kind {
        ColumnKind::Value(kind) => matches!(
            kind,
            ValueKind::Compared(_, _)
                | ValueKind::CalendarCompared(_, _, _, _, _)
                | ValueKind::Same(_)
                | ValueKind::Other(_)
        ),
        ColumnKind::Name => false,
    }
}

/// The field of a column.
fn field_of<'w>(columns: &[Column<'w>], column: usize) -> &'w str {
    match columns.get(column) {
        Some(column) => column.field,
        None => "",
    }
}

impl Comparisons {
    /// Before any row with such columns.
    ///
    /// # Errors
    ///
    /// Only where memory runs out.
    pub(crate) fn new(alloc: Global, columns: &[Column<'_>]) -> Result<Comparisons, AllocError> {
        let mut comparisons = Vec::new(alloc);
        for (column, told) in columns.iter().enumerate() {
            if is_comparison(&told.kind) {
                comparisons.push(Comparison { column, ones: 0 })?;
            }
        }
        Ok(Comparisons { alloc, comparisons })
    }

    /// Takes in one more row.
    pub(crate) fn add(&mut self, numbers: &[i64]) {
        for comparison in self.comparisons.iter_mut() {
            if numbers.get(comparison.column) == Some(&1) {
                comparison.ones = comparison.ones.saturating_add(1);
            }
        }
    }

    /// What is told of them.
    ///
    /// # Errors
    ///
    /// Only where memory runs out.
    pub(crate) fn reports(
        &self,
        columns: &[Column<'_>],
    ) -> Result<Vec<ComparisonReport>, AllocError> {
        let mut reports = Vec::new(self.alloc);
        for comparison in &self.comparisons {
            let field = String::from_str(self.alloc, field_of(columns, comparison.column))?;
            let report = ComparisonReport {
                column: comparison.column,
                field,
                ones: comparison.ones,
            };
            reports.push(report)?;
        }
        Ok(reports)
    }
}
