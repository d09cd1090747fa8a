//! The rows of a whole job, run as one leg.

ghost use Rattle.std.specs.Prelude.{MatchResult, string_bytes};
ghost use Rattle.layout_rules.specs.Scale.{IsScale};
ghost use Rattle.stream_model.specs.InputData.{BelongsTo};
ghost use Rattle.stream_model.specs.PlanRows.{plan_rows};
ghost use Rattle.plan_model.specs.Rows.{AreRowsOf};
ghost use Rattle.job_texts.specs.Text.{IsTextOf};
ghost use Rattle.job.specs.Run.{IsWholeRefusal};

use core_steps::Finish;
use job_texts::{JobFault, sort_rows, text_of_rows};
use layout_rules::Scale;
use plan_model::{Plan, Row};
use redistribute::Start;
use std::alloc::Global;
use std::sync::Wait;
use std::thread::Threads;
use std::time::Clock;
use stream_model::Input;
use thread_runner::{Gate, Stop, run_leg};
use window_state::HashKeys;

/// The plan's rows on an input, in the order in which they came.
fn whole_rows<R: Threads + Wait + Clock + Sync, G: Gate>(
    rt: &R,
    alloc: Global,
    keys: HashKeys,
    plan: &Plan,
    input: &Input,
    scale: &Scale,
    gate: &G,
) -> Result<Vec<Row>, JobFault>
    requires belongs { BelongsTo plan.now input.now }
    requires scale { IsScale plan.now scale.now }
    ensures { MatchResult result (λ rows. AreRowsOf (plan_rows plan.now input.now.sources) rows.items) IsWholeRefusal }
{
    let start = Start::empty(alloc, plan, input)?;
    match run_leg(
        rt,
        alloc,
        keys,
        plan,
        input,
        &start,
        scale,
        &[],
        Stop::Never,
        gate,
    )? {
        Finish::Ended(rows, _) => Ok(rows.into_vec()),
        Finish::Stopped(..) | Finish::Abandoned(_) => unreachable!(),
    }
}

/// The text of the plan's rows on an input, by a leg that goes from nothing to the end at a scale.
pub(crate) fn whole_text<R: Threads + Wait + Clock + Sync, G: Gate>(
    rt: &R,
    alloc: Global,
    keys: HashKeys,
    plan: &Plan,
    input: &Input,
    scale: &Scale,
    gate: &G,
) -> Result<String, JobFault>
    requires belongs { BelongsTo plan.now input.now }
    requires scale { IsScale plan.now scale.now }
    ensures { MatchResult result (λ text. IsTextOf (plan_rows plan.now input.now.sources) (string_bytes text)) IsWholeRefusal }
{
    let mut rows = whole_rows(rt, alloc, keys, plan, input, scale, gate)?;
    sort_rows(&mut rows)?;
    Ok(text_of_rows(alloc, &rows)?)
}
