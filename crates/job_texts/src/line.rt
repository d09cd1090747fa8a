//! What the program says of a fault.

ghost use Rattle.std.specs.Prelude.{◌≡◌, IfOk, string_bytes};
ghost use Rattle.job_texts.specs.FaultText.{fault_text, status};

use crate::fault::JobFault;
use input_texts::InputFault;
use layout_rules::ScaleFault;
use legs::{LegFault, RestoreFault};
use logical_plan::PlanFault;
use savepoint_codec::SaveFault;
use std::alloc::{AllocError, Global};

/// The status that the program ends with: 2 for a word of the command line, 4 for want of memory, and
/// 3 for any other fault.
pub fn status_of(fault: &JobFault) -> u8
    ensures { result ≡ status fault.now }
{
    match fault {
        JobFault::Cut | JobFault::Number => 2,
        JobFault::Memory
        | JobFault::Plan(PlanFault::Memory)
        | JobFault::Input(InputFault::Memory)
        | JobFault::Scale(ScaleFault::Memory)
        | JobFault::Save(SaveFault::Memory)
        | JobFault::Restore(RestoreFault::Memory)
        | JobFault::Leg(
            LegFault::Memory | LegFault::Threads | LegFault::Scale(_, ScaleFault::Memory),
        ) => 4,
        _ => 3,
    }
}

/// What the program writes to standard error, but for the line feed: the code and name of the fault, with
/// the place of a late record, or `memory`.
///
/// # Errors
///
/// Only where memory runs out.
pub fn fault_line(alloc: Global, fault: &JobFault) -> Result<String, AllocError>
    ensures { IfOk result (λ line. string_bytes line ≡ fault_text fault.now) }
{
    format!(in alloc; "{fault}")
}
