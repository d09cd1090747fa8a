//! From the records of a file to the text of a partition, or to those of its parts, and to where those go that are no
//! rows of it.

ghost use Rattle.std.specs.Prelude.{◌≡◌, ℕ, List, Option, IfOk, map};
ghost use Rattle.entry_texts.specs.Partitions.{Row};
ghost use Rattle.import_copies.specs.Copies.{CopiesFile};
ghost use Rattle.import_copies.specs.Streams.{WritesRows, rule_of, dealing_of};
ghost use Rattle.import_copies.specs.Asking.{asked_of};
ghost use Rattle.known_records.specs.Known.{keys_in};

use crate::ledger::Ledger;
use crate::outcome::fate_of;
use crate::partition::write_much;
use crate::row_texts::RowTexts;
use crate::taking::{Source, take_record};
use import_fates::FateCounts;
use imports::{Records, RowFault, RowNumbers};
use known_records::KnownRecords;
use name_table::NameTable;
use std::alloc::Global;
use std::io::{Read, Write};

/// Takes the records of a file, each in one place: those that are rows into a partition, in order, and the others where
/// the ledger has them. Tells how many went where.
///
/// # Errors
///
/// Why there can be no further record; `Write`; `Memory`.
pub(crate) fn copy_records<R: Read + Drop, W: Write, L: Write + Drop>(
    alloc: Global,
    rows: &mut Records<R>,
    source: Source<'_>,
    names: &mut NameTable,
    known: &mut Option<KnownRecords>,
    partition: &mut RowTexts,
    ledger: &mut Ledger<L>,
    outs: &mut [W],
) -> Result<FateCounts, RowFault>
    ensures rule { rule_of partition.new ≡ rule_of partition.old }
    ensures dealing { dealing_of partition.new ≡ dealing_of partition.old }
    ensures sorts { (before : List Row) (start : List (Option (List ℕ))) → WritesRows before start (map W.contents outs.old) partition.old
        → IfOk result (λ counts. CopiesFile R.remaining (asked_of source.entry known.old) rows.old (rule_of partition.old) (keys_in known.old) before start (map W.contents outs.new) known.new partition.new counts) }
{
    let mut numbers = RowNumbers::new(alloc);
    let mut counts = FateCounts::new();
    for _ in 0..u64::MAX {
        let outcome = match take_record(rows, source, names, &mut numbers, known, partition)? {
            Some(outcome) => outcome,
            None => return Ok(counts),
        };
        counts.add(fate_of(outcome));
        ledger.take(source, rows, numbers.numbers(), outcome)?;
        write_much(partition, outs)?;
    }
    Err(RowFault::Read)
}
