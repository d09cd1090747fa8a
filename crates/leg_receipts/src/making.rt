//! The receipt that a leg leaves.

ghost use Rattle.std.specs.Prelude.{◌≡◌, is_some, option_map, string_bytes, IfOk};
ghost use Rattle.std.specs.Option.{option_or};
ghost use Rattle.stream_model.specs.InputData.{BelongsTo};
ghost use Rattle.stream_model.specs.Watermarks.{IsCut};
ghost use Rattle.redistribute.specs.Begins.{IsStartIn};
ghost use Rattle.leg_receipts.specs.Places.{Finds, place, place_by, place_said, place_with};
ghost use Rattle.leg_receipts.specs.Made.{told_at, told_of};

use crate::cuts::{cut_of, end_of};
use job::start_of;
use job_texts::JobFault;
use legs::Cut;
use logical_plan::ReadPlan;
use plan_model::Plan;
use receipts::{receipt_of, text_of_receipt};
use redistribute::Start;
use std::alloc::{AllocError, Global};
use stream_input::ReadInput;
use stream_model::Input;

/// What a receipt tells beside what was read.
#[derive(Clone, Copy)]
pub struct Told<'a> {
    /// The version of the program.
    pub version: &'a str,
    /// The text of the leg's rows.
    pub rows: &'a [u8],
    /// The bytes of the table of names, where the job has one.
    pub names: Option<&'a [u8]>,
}

/// The text of the receipt of a leg that is the last of so many, and has come to a cut.
fn text_at(
    alloc: Global,
    plan: &Plan,
    input: &Input,
    cut: &Cut,
    legs: u64,
    told: Told<'_>,
) -> Result<String, AllocError>
    requires belongs { BelongsTo plan.now input.now }
    requires cut { IsCut input.now.sources cut.now.counts }
    ensures { IfOk result (λ text. string_bytes text ≡ told_at plan.now input.now cut.now.counts legs told.entry) }
{
    let receipt = receipt_of(alloc, plan, input, cut, legs, told.rows, told.names)?;
    text_of_receipt(alloc, told.version, plan.sources(), &receipt)
}

/// The same of a leg that has left its savepoint at a start, or has gone from there to the end of the input.
fn text_from(
    alloc: Global,
    plan: &Plan,
    input: &Input,
    start: &Start,
    is_saved: bool,
    told: Told<'_>,
) -> Result<String, AllocError>
    requires belongs { BelongsTo plan.now input.now }
    requires starts { IsStartIn plan.now input.now start.now }
    ensures { IfOk result (λ text. string_bytes text ≡ told_of is_saved told.entry (place plan.now input.now start.now)) }
{
    if is_saved {
        let cut = cut_of(alloc, start)?;
        return text_at(alloc, plan, input, &cut, start.number(), told);
    }
    let cut = end_of(alloc, input)?;
    text_at(alloc, plan, input, &cut, start.number() + 1, told)
}

/// The savepoint that a leg left, or else that from which it went.
fn last_of<'a>(saved: Option<&'a [u8]>, from: Option<&'a [u8]>) -> Option<&'a [u8]>
    ensures { option_map (λ bytes. bytes.now) result ≡ option_or (option_map (λ bytes. bytes.now) saved.entry) (option_map (λ bytes. bytes.now) from.entry) }
{
    match saved {
        Some(saved) => Some(saved),
        None => from,
    }
}

/// The text of the receipt of a leg over an input of a plan.
fn receipt_on(
    alloc: Global,
    plan: &Plan,
    input: &Input,
    from: Option<&[u8]>,
    saved: Option<&[u8]>,
    told: Told<'_>,
) -> Result<String, JobFault>
    requires { BelongsTo plan.now input.now }
    ensures { Finds (λ place text. string_bytes text ≡ told_of (is_some saved.entry) told.entry place) (place_with plan.now input.now (option_or (option_map (λ bytes. bytes.now) saved.entry) (option_map (λ bytes. bytes.now) from.entry))) result }
{
    let start = start_of(alloc, plan, input, last_of(saved, from))?;
    let is_saved = saved.is_some();
    Ok(text_from(alloc, plan, input, &start, is_saved, told)?)
}

/// The same over the input that bytes spell.
fn receipt_over(
    alloc: Global,
    plan: &Plan,
    input: &[u8],
    from: Option<&[u8]>,
    saved: Option<&[u8]>,
    told: Told<'_>,
) -> Result<String, JobFault>
    ensures { Finds (λ place text. string_bytes text ≡ told_of (is_some saved.entry) told.entry place) (place_by plan.now input.now (option_or (option_map (λ bytes. bytes.now) saved.entry) (option_map (λ bytes. bytes.now) from.entry))) result }
{
    let input = Input::read(alloc, plan, input)?;
    receipt_on(alloc, plan, &input, from, saved, told)
}

/// The text of the receipt of a leg of a plan over an input that went from the savepoint `from`, or from nothing, and
/// has left the savepoint `saved` where it stopped, or has gone to the end. Each is given by its bytes. The receipt
/// tells of the entries before the cut to which the leg has come, and of as many legs as the number of its savepoint
/// says, or one more than that from which it went. The version has no character that JSON escapes.
///
/// # Errors
///
/// The plan's fault, the input's, the savepoint's, `Restore` where the job cannot go on from it: none of them where the
/// leg has been run; `Memory`.
pub fn leg_receipt(
    alloc: Global,
    plan: &[u8],
    input: &[u8],
    from: Option<&[u8]>,
    saved: Option<&[u8]>,
    told: Told<'_>,
) -> Result<String, JobFault>
    ensures { Finds (λ place text. string_bytes text ≡ told_of (is_some saved.entry) told.entry place) (place_said plan.now input.now (option_or (option_map (λ bytes. bytes.now) saved.entry) (option_map (λ bytes. bytes.now) from.entry))) result }
{
    let plan = Plan::read(alloc, plan)?;
    receipt_over(alloc, &plan, input, from, saved, told)
}
