//! What the receipt of a leg says.

ghost use Rattle.std.specs.Prelude.{◌≡◌, option_map, IfOk};
ghost use Rattle.stream_model.specs.InputData.{BelongsTo};
ghost use Rattle.stream_model.specs.Watermarks.{IsCut};
ghost use Rattle.receipts.specs.Checked.{HasSourcesOf};
ghost use Rattle.receipts.specs.Made as said;

use crate::comparing::counted_bytes;
use crate::counting::{count_lines, count_records};
use crate::digests::{Counted, read_before};
use crate::receipt::Receipt;
use legs::Cut;
use plan_model::Plan;
use plan_record::Recorded;
use sha2::{Digest as Hash, Sha256};
use std::alloc::{AllocError, Global};
use stream_model::Input;

/// How many rows a text has, one in a line, and its digest.
fn counted_rows(rows: &[u8]) -> Counted
    ensures { result ≡ said.counted_rows rows.now }
{
    Counted {
        count: count_lines(rows),
        digest: Sha256::digest(rows),
    }
}

fn counted_names(names: Option<&[u8]>) -> Option<Counted>
    ensures { result ≡ said.counted_names (option_map (λ bytes. bytes.now) names.entry) }
{
    match names {
        None => None,
        Some(names) => Some(counted_bytes(names)),
    }
}

fn counted_plan(alloc: Global, plan: &Plan) -> Result<Counted, AllocError>
    ensures { IfOk result (λ counted. counted ≡ said.counted_plan plan.now) }
{
    let bytes = plan.record(alloc)?;
    Ok(counted_bytes(&bytes))
}

/// The receipt of a leg that is the last of so many, has read an input up to a cut, and has written the text of its
/// rows; with the bytes of a table of names where the job has one.
///
/// # Errors
///
/// Only where memory runs out.
pub fn receipt_of(
    alloc: Global,
    plan: &Plan,
    input: &Input,
    cut: &Cut,
    legs: u64,
    rows: &[u8],
    names: Option<&[u8]>,
) -> Result<Receipt, AllocError>
    requires belongs { BelongsTo plan.now input.now }
    requires cut { IsCut input.now.sources cut.now.counts }
    ensures sources { IfOk result (λ receipt. HasSourcesOf plan.now receipt) }
    ensures says { IfOk result (λ receipt. receipt ≡ said.receipt_of plan.now input.now cut.now.counts legs rows.now (option_map (λ bytes. bytes.now) names.entry)) }
{
    Ok(Receipt {
        legs,
        plan: counted_plan(alloc, plan)?,
        sources: read_before(alloc, input, cut)?,
        records: count_records(input.sources(), cut.counts.as_slice()),
        rows: counted_rows(rows),
        names: counted_names(names),
    })
}
