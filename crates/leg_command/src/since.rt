//! Whether a leg can go on by a receipt.

ghost use Rattle.std.specs.Prelude.{◌≡◌, option_map};
ghost use Rattle.leg_command.specs.Receipts as said;
ghost use Rattle.leg_command.specs.Receipts.{IsChecked};

use crate::fault::LegRefusal;
use job_texts::JobFault;
use leg_receipts::check_since;
use receipts::ReceiptFault;
use std::alloc::Global;

/// The refusal of what was compared with a receipt.
fn refusal_of(fault: ReceiptFault) -> LegRefusal
    ensures { result ≡ said.refusal_of fault }
{
    match fault {
        ReceiptFault::Memory => LegRefusal::Job(JobFault::Memory),
        other => LegRefusal::Receipt(other),
    }
}

/// What is refused before a leg by what comparing answers. What it refuses of the texts the leg refuses too, in its own
/// order.
fn before_leg(answer: Result<Result<(), ReceiptFault>, JobFault>) -> Result<(), LegRefusal>
    ensures { result ≡ said.before_leg answer }
{
    match answer {
        Ok(Ok(())) => Ok(()),
        Ok(Err(fault)) => Err(refusal_of(fault)),
        Err(JobFault::Memory) => Err(LegRefusal::Job(JobFault::Memory)),
        Err(_) => Ok(()),
    }
}

/// Whether a leg from a savepoint can go on by a receipt, where there are both: whether the plan, the entries before
/// the cut and the table of names are still what it tells of.
///
/// # Errors
///
/// Why it cannot; `Memory`. What is refused of the texts is left to the leg.
pub(crate) fn check_before(
    alloc: Global,
    plan: &[u8],
    input: &[u8],
    from: Option<&[u8]>,
    since: Option<&[u8]>,
    names: Option<&[u8]>,
) -> Result<(), LegRefusal>
    ensures { IsChecked plan.now input.now (option_map (λ bytes. bytes.now) from.entry) (option_map (λ bytes. bytes.now) since.entry) (option_map (λ bytes. bytes.now) names.entry) result }
{
    match (from, since) {
        (Some(from), Some(since)) => {
            before_leg(check_since(alloc, plan, input, from, since, names))
        }
        _ => Ok(()),
    }
}
