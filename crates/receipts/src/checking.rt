//! Whether a leg can go on by a receipt.

ghost use Rattle.std.specs.Prelude.{option_map};
ghost use Rattle.stream_model.specs.InputData.{BelongsTo};
ghost use Rattle.stream_model.specs.Watermarks.{IsCut};
ghost use Rattle.receipts.specs.Checked.{ChecksInput, ChecksReceipt, ChecksRecord, HasSourcesOf};

use crate::comparing::{check_entries, check_names, check_plan};
use crate::digests::read_before;
use crate::fault::ReceiptFault;
use crate::receipt::Receipt;
use legs::Cut;
use plan_model::Plan;
use plan_record::Recorded;
use std::alloc::Global;
use stream_model::Input;

/// Whether a plan is the one that a receipt tells of.
fn check_record(alloc: Global, plan: &Plan, receipt: &Receipt) -> Result<(), ReceiptFault>
    ensures { ChecksRecord plan.now receipt.now result }
{
    let bytes = plan.record(alloc)?;
    check_plan(receipt.plan, &bytes)
}

/// Whether the entries before a cut are those that a receipt tells of.
fn check_input(
    alloc: Global,
    plan: &Plan,
    input: &Input,
    cut: &Cut,
    receipt: &Receipt,
) -> Result<(), ReceiptFault>
    requires belongs { BelongsTo plan.now input.now }
    requires cut { IsCut input.now.sources cut.now.counts }
    requires sources { HasSourcesOf plan.now receipt.now }
    ensures { ChecksInput plan.now input.now cut.now.counts receipt.now result }
{
    let read = read_before(alloc, input, cut)?;
    let told = receipt.sources.as_slice();
    check_entries(alloc, plan.sources(), told, read.as_slice())
}

/// Whether a leg that goes on at a cut can do so by a receipt: whether the plan, the entries before the cut and the
/// names are still those that it tells of. Entries that stand behind the cut, and names behind those that were there,
/// are not asked after.
///
/// # Errors
///
/// The first of these that stands: [`ReceiptFault::Plan`]; of the first partition that differs [`ReceiptFault::Cut`],
/// where another number of its entries stands before the cut, or [`ReceiptFault::Entries`]; [`ReceiptFault::Names`].
/// [`ReceiptFault::Memory`] where memory runs out, in place of any other.
pub fn check_receipt(
    alloc: Global,
    plan: &Plan,
    input: &Input,
    cut: &Cut,
    receipt: &Receipt,
    names: Option<&[u8]>,
) -> Result<(), ReceiptFault>
    requires belongs { BelongsTo plan.now input.now }
    requires cut { IsCut input.now.sources cut.now.counts }
    requires sources { HasSourcesOf plan.now receipt.now }
    ensures { ChecksReceipt plan.now input.now cut.now.counts receipt.now (option_map (λ bytes. bytes.now) names.entry) result }
{
    check_record(alloc, plan, receipt)?;
    check_input(alloc, plan, input, cut, receipt)?;
    check_names(receipt.names, names)
}
