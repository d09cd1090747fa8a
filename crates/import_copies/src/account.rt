//! What is to be told of an import, as its files are read.

use crate::comparisons::Comparisons;
use import_columns::Column;
use import_fates::FateCounts;
use import_reports::{FileReport, ImportReport, Tally};
use std::alloc::{AllocError, Global};

/// What is to be told of an import, as its files are read.
#[derive(Drop)]
pub(crate) struct Account {
    alloc: Global,
    comparisons: Comparisons,
    /// The rows of the file that is being read.
    tally: Tally,
    files: Vec<FileReport>,
}

impl Account {
    /// Before any file.
    ///
    /// # Errors
    ///
    /// Only where memory runs out.
    pub(crate) fn new(alloc: Global, columns: &[Column<'_>]) -> Result<Account, AllocError> {
        Ok(Account {
            alloc,
            comparisons: Comparisons::new(alloc, columns)?,
            tally: Tally::new(),
            files: Vec::new(alloc),
        })
    }

    /// Takes in one more row, with its time at a place.
    pub(crate) fn add_row(&mut self, numbers: &[i64], time: usize) {
        if let Some(time) = numbers.get(time) {
            self.tally.add(*time);
        }
        self.comparisons.add(numbers);
    }

    /// Ends a file with so many lines, whose records went where the counts say, and with whose rows so many entries
    /// begin.
    ///
    /// # Errors
    ///
    /// Only where memory runs out.
    pub(crate) fn end_file(
        &mut self,
        file: &str,
        lines: u64,
        counts: FateCounts,
        entries: u64,
    ) -> Result<(), AllocError> {
        let report = FileReport::new(self.alloc, file, lines, counts, &self.tally, entries)?;
        self.files.push(report)?;
        self.tally = Tally::new();
        Ok(())
    }

    /// What is told of the import, which has brought so many new names.
    ///
    /// # Errors
    ///
    /// Only where memory runs out.
    pub(crate) fn report(
        self,
        columns: &[Column<'_>],
        new_names: u64,
    ) -> Result<ImportReport, AllocError> {
        Ok(ImportReport {
            comparisons: self.comparisons.reports(columns)?,
            files: self.files,
            new_names,
        })
    }
}
