//! The start of a leg that goes on where another stopped.

ghost use Rattle.std.specs.Prelude.{◌≡◌, ℕ, true, List, IfOk};
ghost use Rattle.restore.specs.Answer.{is_memory};
ghost use Rattle.restarts.specs.Laws.{IsStartAt};
ghost use Rattle.restarts.specs.Restart.{CanRestart};

use crate::laws::checks_go_on;
use legs::RestoreFault;
use plan_model::Plan;
use redistribute::Start;
use restore::check;
use savepoint_codec::Savepoint;
use std::alloc::{AllocError, Global};
use stream_model::Input;

/// The fault of a check that refuses nothing.
fn no_memory(_fault: RestoreFault) -> AllocError
    requires { is_memory _fault ≡ true }
{
    AllocError
}

/// The start from a savepoint that a leg of a job of the plan on the input left at a cut: it is at that cut, with what
/// the snapshot of the cut has in each pane.
///
/// # Errors
///
/// Only where memory runs out.
pub fn restart(
    alloc: Global,
    plan: &Plan,
    input: &Input,
    savepoint: &Savepoint,
) -> Result<Start, AllocError>
    requires { (cut : List (List ℕ)) × (number : ℕ) × CanRestart plan.now input.now cut number savepoint.now }
    ensures { (cut : List (List ℕ)) (number : ℕ) → CanRestart plan.now input.now cut number savepoint.now → IfOk result (IsStartAt plan.now input.now cut number) }
{
    let _law = checks_go_on();
    match check(alloc, plan, input, savepoint) {
        Ok(start) => Ok(start),
        Err(fault) => Err(no_memory(fault)),
    }
}
