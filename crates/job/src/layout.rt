//! The layout of a plan at a scale.

ghost use Rattle.std.specs.Prelude.{◌≡◌, IfOk, string_bytes};
ghost use Rattle.answers.specs.Answer.{Gives};
ghost use Rattle.layout_rules.specs.Scale.{IsScale};
ghost use Rattle.plan_compiler.specs.LayoutData.{layout_of};
ghost use Rattle.job.specs.Layout.{TellsLayout, layout_by, layout_said};
ghost use Rattle.job_texts.specs.Fault.{is_memory};
ghost use Rattle.job_texts.specs.LayoutText.{layout_text};
ghost use Rattle.job_texts.specs.Tells.{KeepsWriter};

use job_texts::{JobFault, text_of_layout, write_text};
use layout_rules::Scale;
use logical_plan::ReadPlan;
use plan_compiler::compile;
use plan_model::Plan;
use plan_scale::ReadScale;
use std::alloc::{AllocError, Global};
use std::io::Write;

/// The text of the layout of a plan at a scale.
fn text_at_scale(alloc: Global, plan: &Plan, scale: &Scale) -> Result<String, AllocError>
    requires { IsScale plan.now scale.now }
    ensures { IfOk result (λ text. string_bytes text ≡ layout_text plan.now (layout_of plan.now scale.now)) }
{
    let layout = compile(alloc, plan, scale)?;
    text_of_layout(alloc, plan, &layout)
}

/// The text of the layout of a plan.
fn text_by_plan(alloc: Global, plan: &Plan, scale: &[u8]) -> Result<String, JobFault>
    ensures { Gives is_memory string_bytes result (layout_by plan.now scale.now) }
{
    let scale = Scale::read(alloc, plan, scale)?;
    Ok(text_at_scale(alloc, plan, &scale)?)
}

/// The text of the layout that texts tell.
fn text_of_texts(alloc: Global, plan: &[u8], scale: &[u8]) -> Result<String, JobFault>
    ensures { Gives is_memory string_bytes result (layout_said plan.now scale.now) }
{
    let plan = Plan::read(alloc, plan)?;
    text_by_plan(alloc, &plan, scale)
}

/// Writes the layout of a plan at a scale: a line for each stage with its number, its parallelism and the
/// uids of its operators; for each edge between two stages with its kind; for each subtask of a source
/// with its partitions; and for each subtask of the window with its first and last key group.
///
/// # Errors
///
/// The plan's fault, else the scale's; `Write` where the writer refuses the text; `Memory`.
pub fn job_layout<W: Write>(
    alloc: Global,
    plan: &[u8],
    scale: &[u8],
    out: &mut W,
) -> Result<(), JobFault>
    ensures answers { TellsLayout (layout_said plan.now scale.now) result (W.contents out.old) (W.contents out.new) }
    ensures kept { KeepsWriter result (W.contents out.old) (W.contents out.new) }
{
    let text = text_of_texts(alloc, plan, scale)?;
    write_text(out, text.as_str())
}
