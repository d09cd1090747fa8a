//! What is told of an import.

use crate::tally::Tally;
use import_fates::FateCounts;
use serde::Serialize;
use serde_json::Error;
use std::alloc::{AllocError, Global};

/// What is told of a file.
#[derive(Debug, Drop, Serialize)]
pub struct FileReport {
    /// Its path.
    pub file: String,
    /// How many lines it has.
    pub lines: u64,
    /// How many records: those written, late, there twice and bad.
    pub records: u64,
    /// How many of them are rows of the input.
    pub written: u64,
    /// How many are late.
    pub late: u64,
    /// How many are there twice.
    pub twice: u64,
    /// How many give no row.
    pub bad: u64,
    /// The least time of the rows, if there are any.
    pub first: Option<i64>,
    /// The greatest time of the rows, if there are any.
    pub last: Option<i64>,
    /// How many entries begin with one of the rows.
    pub entries: u64,
}

/// What is told of a column that is a comparison.
#[derive(Debug, Drop, Serialize)]
pub struct ComparisonReport {
    /// Which column it is, counted from 0.
    pub column: usize,
    /// The field whose text is compared.
    pub field: String,
    /// How many of the rows have 1 there.
    pub ones: u64,
}

/// What is told of an import.
#[derive(Debug, Drop, Serialize)]
#[serde(rename_all = "camelCase")]
pub struct ImportReport {
    /// Its files, in the order in which they were read.
    pub files: Vec<FileReport>,
    /// How many names the table has that it had not before.
    pub new_names: u64,
    /// The columns that are comparisons, in order.
    pub comparisons: Vec<ComparisonReport>,
}

impl FileReport {
    /// What is told of a file with so many lines, whose records went where the counts say, with what is known of its
    /// rows.
    ///
    /// # Errors
    ///
    /// Only where memory runs out.
    pub fn new(
        alloc: Global,
        file: &str,
        lines: u64,
        counts: FateCounts,
        rows: &Tally,
        entries: u64,
    ) -> Result<FileReport, AllocError> {
        Ok(FileReport {
            file: String::from_str(alloc, file)?,
            lines,
            records: counts.records(),
            written: counts.written,
            late: counts.late,
            twice: counts.twice,
            bad: counts.bad,
            first: rows.first,
            last: rows.last,
            entries,
        })
    }
}

impl ImportReport {
    /// The text of the report: a JSON object in a line.
    ///
    /// # Errors
    ///
    /// Only where memory runs out.
    pub fn text(&self, alloc: Global) -> Result<String, Error> {
        let mut text = serde_json::to_string(alloc, self)?;
        text.push_str("\n")?;
        Ok(text)
    }
}
