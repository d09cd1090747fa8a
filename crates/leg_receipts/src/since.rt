//! Whether a leg can go on by the receipt of the one before.

ghost use Rattle.std.specs.Prelude.{Some, option_map};
ghost use Rattle.stream_model.specs.InputData.{BelongsTo};
ghost use Rattle.redistribute.specs.Begins.{IsStartIn};
ghost use Rattle.redistribute.specs.StartData.{offsets_of};
ghost use Rattle.receipts.specs.Said.{receipt_or_fault};
ghost use Rattle.leg_receipts.specs.Places.{Finds, place_by, place_said, place_with};
ghost use Rattle.leg_receipts.specs.Since.{ByReceipt, IsBySince};

use crate::cuts::cut_of;
use job::start_of;
use job_texts::JobFault;
use logical_plan::ReadPlan;
use plan_model::Plan;
use receipts::{ReceiptFault, check_receipt, read_receipt};
use redistribute::Start;
use std::alloc::Global;
use stream_input::ReadInput;
use stream_model::Input;

/// Whether what stands before a start is what a receipt tells of.
fn check_before(
    alloc: Global,
    plan: &Plan,
    input: &Input,
    start: &Start,
    since: &[u8],
    names: Option<&[u8]>,
) -> Result<(), ReceiptFault>
    requires belongs { BelongsTo plan.now input.now }
    requires starts { IsStartIn plan.now input.now start.now }
    ensures { ByReceipt plan.now input.now (offsets_of start.now) (receipt_or_fault plan.now.sources since.now) (option_map (λ bytes. bytes.now) names.entry) result }
{
    let receipt = read_receipt(alloc, plan.sources(), since)?;
    let cut = cut_of(alloc, start)?;
    check_receipt(alloc, plan, input, &cut, &receipt, names)
}

/// The same of the savepoint that bytes spell.
fn check_from(
    alloc: Global,
    plan: &Plan,
    input: &Input,
    from: &[u8],
    since: &[u8],
    names: Option<&[u8]>,
) -> Result<Result<(), ReceiptFault>, JobFault>
    requires { BelongsTo plan.now input.now }
    ensures { Finds (IsBySince since.now (option_map (λ bytes. bytes.now) names.entry)) (place_with plan.now input.now (Some from.now)) result }
{
    let start = start_of(alloc, plan, input, Some(from))?;
    Ok(check_before(alloc, plan, input, &start, since, names))
}

/// The same over the input that bytes spell.
fn check_over(
    alloc: Global,
    plan: &Plan,
    input: &[u8],
    from: &[u8],
    since: &[u8],
    names: Option<&[u8]>,
) -> Result<Result<(), ReceiptFault>, JobFault>
    ensures { Finds (IsBySince since.now (option_map (λ bytes. bytes.now) names.entry)) (place_by plan.now input.now (Some from.now)) result }
{
    let input = Input::read(alloc, plan, input)?;
    check_from(alloc, plan, &input, from, since, names)
}

/// Whether a leg of a plan that goes on over an input from the savepoint `from` can do so by the receipt `since` of the
/// leg that left it: whether the plan, the entries before the savepoint's cut, and the names are still those that the
/// receipt tells of. Each is given by its bytes.
///
/// # Errors
///
/// In place of an answer, what `job_leg` refuses at any scale: the plan's fault, the input's, the savepoint's,
/// `Restore` where the job cannot go on from it; `Memory`. The answer is an error where the bytes of `since` are no
/// receipt, and where one of these is no longer what it was.
pub fn check_since(
    alloc: Global,
    plan: &[u8],
    input: &[u8],
    from: &[u8],
    since: &[u8],
    names: Option<&[u8]>,
) -> Result<Result<(), ReceiptFault>, JobFault>
    ensures { Finds (IsBySince since.now (option_map (λ bytes. bytes.now) names.entry)) (place_said plan.now input.now (Some from.now)) result }
{
    let plan = Plan::read(alloc, plan)?;
    check_over(alloc, &plan, input, from, since, names)
}
