//! What a receipt says.

use crate::digests::Counted;
use plain_data::Items;

/// What the legs of a job have read, and what the last of them wrote.
#[derive(Debug, Drop)]
pub struct Receipt {
    /// How many legs there are, the last one with them.
    pub legs: u64,
    /// The bytes of the plan's record.
    pub plan: Counted,
    /// The entries of each partition of each source, in the order of the plan.
    pub sources: Items<Items<Counted>>,
    /// How many records these entries have.
    pub records: u64,
    /// The rows of the last leg.
    pub rows: Counted,
    /// The bytes of the table of names, where the job has one.
    pub names: Option<Counted>,
}
