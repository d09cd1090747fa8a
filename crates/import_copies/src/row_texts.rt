//! The text of a partition, row by row: as one, or dealt out to parts.

use crate::row::GoodRow;
use dealt_texts::{Dealing, PartTexts};
use entry_texts::{PartitionText, PutFault};
use import_entries::EntryRule;
use std::alloc::{AllocError, Global};

/// The text of a partition, row by row.
#[derive(Drop)]
pub(crate) enum RowTexts {
    /// As one, for one stream.
    Whole(PartitionText),
    /// Dealt out to the parts of the input, for a stream each.
    Parts(PartTexts),
}

impl RowTexts {
    ghost use Rattle.std.specs.Prelude.{◌≡◌, ℕ, [], List, Option, IfOk};
    ghost use Rattle.entry_texts.specs.Partitions.{Row};
    ghost use Rattle.import_copies.specs.Streams.{WritesRows, PutsOne, rule_of, dealing_of};
    ghost use Rattle.import_copies.specs.Rows.{said_of};

    /// That of a partition without rows, so far.
    ///
    /// # Errors
    ///
    /// Only where memory runs out.
    pub(crate) fn new(
        alloc: Global,
        rule: EntryRule,
        dealing: Option<Dealing>,
    ) -> Result<RowTexts, AllocError>
        ensures none { IfOk result (λ texts. (start : List (Option (List ℕ))) → WritesRows [] start start texts) }
        ensures rule { IfOk result (λ texts. rule_of texts ≡ rule) }
        ensures dealing { IfOk result (λ texts. dealing_of texts ≡ dealing) }
    {
        match dealing {
            Some(dealing) => Ok(RowTexts::Parts(PartTexts::new(alloc, rule, dealing)?)),
            None => Ok(RowTexts::Whole(PartitionText::new(alloc, rule))),
        }
    }

    /// Puts the next row.
    ///
    /// # Errors
    ///
    /// `Place` where it goes nowhere, and then nothing is changed; `Memory`.
    pub(crate) fn put(&mut self, row: GoodRow<'_>) -> Result<(), PutFault>
        ensures rule { rule_of self.new ≡ rule_of self.old }
        ensures dealing { dealing_of self.new ≡ dealing_of self.old }
        ensures puts { (rows : List Row) (start : List (Option (List ℕ))) (now : List (Option (List ℕ))) → WritesRows rows start now self.old
            → PutsOne rows start now (said_of row.entry) self.old self.new result }
    {
        match self {
            RowTexts::Whole(partition) => partition.put(row.time, row.first, row.others),
            RowTexts::Parts(parts) => parts.put(row.time, row.first, row.others),
        }
    }
}
