//! What an import keeps beside the input.

use crate::account::Account;
use crate::firsts::Firsts;
use crate::outcome::Outcome;
use crate::refusals::{Refusals, no_refusals};
use crate::taking::Source;
use import_asides::{BadRecords, SetAside};
use import_columns::Column;
use import_entries::PlaceFault;
use import_fates::FateCounts;
use import_reports::ImportReport;
use import_tellings::{reason_of, refused_row};
use import_words::ImportFault;
use imports::{Records, RowFault};
use std::alloc::{AllocError, Global};
use std::io::{Read, Write};

/// Where the records go that are no rows of the input.
#[derive(Drop)]
pub struct Places<L: Write + Drop> {
    /// The late ones, if they may be left out.
    pub late: Option<SetAside<L>>,
    /// Those that are there twice, if they may be left out.
    pub twice: Option<SetAside<L>>,
    /// The bad ones, if they may be left out.
    pub bad: Option<BadRecords<L>>,
}

/// What is asked of a ledger.
#[derive(Clone, Copy, Debug, PartialEq, Eq)]
pub struct LedgerWants {
    /// Records are told from one another.
    pub once: bool,
    /// What is told of the import is kept.
    pub report: bool,
}

/// What an import keeps beside the input: the records that are no rows of it, what it is refused for where there is no
/// place for them, and what is to be told of it.
pub struct Ledger<L: Write + Drop> {
    alloc: Global,
    places: Places<L>,
    refusals: Refusals,
    /// Where the first records of their kind stand, where a later one is refused with its place.
    firsts: Option<Firsts>,
    account: Option<Account>,
}

// By hand, since a proof goes over a derived drop field by field.
impl<L: Write + Drop> Drop for Ledger<L> {
    fn drop(self) {
        let Ledger {
            alloc: _,
            places: _,
            refusals: _,
            firsts: _,
            account: _,
        } = self;
    }
}

/// The fault that a record is told with where something else failed than the record.
fn fault_of(fault: ImportFault) -> RowFault {
    match fault {
        ImportFault::Write => RowFault::Write,
        ImportFault::Memory | ImportFault::Refused(_, _) => RowFault::Memory,
    }
}

impl<L: Write + Drop> Ledger<L> {
    /// A ledger before any record. Where it is to be reported, what is told of an import with these columns is kept.
    ///
    /// # Errors
    ///
    /// Only where memory runs out.
    pub fn new(
        alloc: Global,
        places: Places<L>,
        columns: &[Column<'_>],
        wants: LedgerWants,
    ) -> Result<Ledger<L>, AllocError> {
        let account = if wants.report {
            Some(Account::new(alloc, columns)?)
        } else {
            None
        };
        let firsts = if wants.once && places.twice.is_none() {
            Some(Firsts::new(alloc))
        } else {
            None
        };
        Ok(Ledger {
            alloc,
            places,
            refusals: no_refusals(alloc),
            firsts,
            account,
        })
    }

    /// Goes on to a source, whose records are told from one another alone.
    pub(crate) fn begin_source(&mut self) {
        if let Some(firsts) = &mut self.firsts {
            firsts.clear();
        }
    }

    /// Goes on to a file.
    ///
    /// # Errors
    ///
    /// Only where memory runs out.
    pub(crate) fn begin_file(&mut self, file: &str) -> Result<(), AllocError> {
        match &mut self.firsts {
            Some(firsts) => firsts.begin_file(file),
            None => Ok(()),
        }
    }

    /// Ends a file with so many lines, whose records went where the counts say, and with whose rows so many entries
    /// begin.
    ///
    /// # Errors
    ///
    /// Only where memory runs out.
    pub(crate) fn end_file(
        &mut self,
        file: &str,
        lines: u64,
        counts: FateCounts,
        entries: u64,
    ) -> Result<(), AllocError> {
        match &mut self.account {
            Some(account) => account.end_file(file, lines, counts, entries),
            None => Ok(()),
        }
    }

    /// Notes where a record stands that is the first of its kind, where records are told from one another.
    fn note_first<R: Read + Drop>(&mut self, rows: &Records<R>) -> Result<(), RowFault> {
        match &mut self.firsts {
            Some(firsts) => Ok(firsts.note(rows.line())?),
            None => Ok(()),
        }
    }

    /// Refuses the record that `rows` has.
    fn refuse<R: Read + Drop>(
        &mut self,
        source: Source<'_>,
        rows: &Records<R>,
        fault: RowFault,
    ) -> Result<(), RowFault> {
        if self.refusals.is_full() {
            self.refusals.skip();
            return Ok(());
        }
        let (file, columns, time) = (source.file, source.columns, source.time);
        let told = refused_row(self.alloc, file, columns, time, rows, None, fault);
        self.refusals.add(told).map_err(fault_of)
    }

    fn take_late<R: Read + Drop>(
        &mut self,
        source: Source<'_>,
        rows: &Records<R>,
        fault: PlaceFault,
    ) -> Result<(), RowFault> {
        match &mut self.places.late {
            Some(late) => late.put(source.columns, source.places, rows.record()),
            None => self.refuse(source, rows, RowFault::Place(fault)),
        }
    }

    fn take_bad<R: Read + Drop>(
        &mut self,
        source: Source<'_>,
        rows: &Records<R>,
        fault: RowFault,
    ) -> Result<(), RowFault> {
        match &mut self.places.bad {
            Some(bad) => {
                let reason = reason_of(self.alloc, source.columns, source.time, rows, None, fault);
                bad.put(source.file, rows.line(), rows, &reason)
            }
            None => self.refuse(source, rows, fault),
        }
    }

    fn take_twice<R: Read + Drop>(
        &mut self,
        source: Source<'_>,
        rows: &Records<R>,
        place: usize,
    ) -> Result<(), RowFault> {
        if let Some(twice) = &mut self.places.twice {
            return twice.put(source.columns, source.places, rows.record());
        }
        if self.refusals.is_full() {
            self.refusals.skip();
            return Ok(());
        }
        match &self.firsts {
            Some(firsts) => {
                let told = firsts.refusal(source.file, rows.line(), place);
                self.refusals.add(told).map_err(fault_of)
            }
            None => Ok(()),
        }
    }

    /// Has the record that `rows` has, and whose numbers these are if it is a row, where it goes.
    ///
    /// # Errors
    ///
    /// `Write`; `Memory`.
    pub(crate) fn take<R: Read + Drop>(
        &mut self,
        source: Source<'_>,
        rows: &Records<R>,
        numbers: &[i64],
        outcome: Outcome,
    ) -> Result<(), RowFault> {
        match outcome {
            Outcome::Written => {
                if let Some(account) = &mut self.account {
                    account.add_row(numbers, source.time);
                }
                self.note_first(rows)
            }
            Outcome::Late(time, mark) => {
                self.note_first(rows)?;
                self.take_late(source, rows, PlaceFault::Late(time, mark))
            }
            Outcome::Twice(place) => self.take_twice(source, rows, place),
            Outcome::Bad(fault) => self.take_bad(source, rows, fault),
        }
    }

    /// The answer of an import that is at its end, by what it is refused for.
    ///
    /// # Errors
    ///
    /// What it is refused for, place by place, with the code of the first; `Write`; `Memory`.
    pub(crate) fn answer(&mut self, end: Result<(), ImportFault>) -> Result<(), ImportFault> {
        if let Err(fault) = end {
            self.refusals.add(fault)?;
        }
        self.refusals.answer()
    }

    /// The places of the records that are no rows, and what is told of the import, which has brought so many new names,
    /// if that is asked for.
    ///
    /// # Errors
    ///
    /// Only where memory runs out.
    pub fn finish(
        self,
        columns: &[Column<'_>],
        new_names: u64,
    ) -> Result<(Places<L>, Option<ImportReport>), AllocError> {
        let Ledger {
            alloc: _,
            places,
            refusals: _,
            firsts: _,
            account,
        } = self;
        let report = match account {
            Some(account) => Some(account.report(columns, new_names)?),
            None => None,
        };
        Ok((places, report))
    }
}
