//! The cuts of an input.

ghost use Rattle.std.specs.Prelude.{◌≡◌, IfOk, string_bytes};
ghost use Rattle.answers.specs.Answer.{Gives};
ghost use Rattle.stream_model.specs.InputData.{BelongsTo};
ghost use Rattle.job_texts.specs.Fault.{is_memory};
ghost use Rattle.job_texts.specs.Tells.{KeepsWriter};
ghost use Rattle.job.specs.Cuts.{TellsCuts, cut_line, until_said, cuts_of, cuts_by, cuts_said};
ghost use Rattle.input_cuts.specs.Cuts as said;
ghost use Rattle.cut_texts.specs.Times.{watermark_before};

use crate::reading::read_input;
use cut_texts::{read_time, text_of_cut, text_of_extents};
use input_cuts::{extents, first_cut, open_cut};
use job_texts::{JobFault, write_text};
use legs::Cut;
use logical_plan::ReadPlan;
use plan_model::Plan;
use std::alloc::{AllocError, Global};
use std::io::Write;
use stream_model::Input;

/// What is asked of an input.
#[derive(Clone, Copy, Debug)]
pub enum CutQuestion<'a> {
    /// How far each of its partitions goes.
    Extents,
    /// The first cut at which every window that ends by the time is due that the word spells.
    Until(&'a str),
    /// The last cut that leaves an entry of each partition to be read.
    Open,
}

/// The word of a cut in a line.
fn line_of_cut(alloc: Global, cut: &Cut) -> Result<String, AllocError>
    ensures { IfOk result (λ text. string_bytes text ≡ cut_line cut.now.counts) }
{
    let mut text = text_of_cut(alloc, cut)?;
    text.push_str("\n")?;
    Ok(text)
}

/// The first cut at which every window that ends by a time is due.
fn cut_until(alloc: Global, input: &Input, time: i64) -> Result<Cut, AllocError>
    ensures { IfOk result (λ cut. cut.counts ≡ said.first_cut (watermark_before time) input.now.sources) }
{
    first_cut(alloc, input, time.saturating_sub(1))
}

/// The word of the first cut at which every window that ends by the time is due that a word spells.
fn text_until(alloc: Global, input: &Input, word: &str) -> Result<String, JobFault>
    ensures { Gives is_memory string_bytes result (until_said input.now word.now) }
{
    let Some(time) = read_time(word) else {
        return Err(JobFault::Number);
    };
    let cut = cut_until(alloc, input, time)?;
    Ok(line_of_cut(alloc, &cut)?)
}

/// What is answered of an input.
#[tactic(auto, unfolding(crate::specs::Cuts::cuts_of))]
fn text_on_input(
    alloc: Global,
    plan: &Plan,
    input: &Input,
    question: CutQuestion<'_>,
) -> Result<String, JobFault>
    requires { BelongsTo plan.now input.now }
    ensures { Gives is_memory string_bytes result (cuts_of plan.now input.now question.entry) }
{
    match question {
        CutQuestion::Extents => {
            let extents = extents(alloc, plan, input)?;
            Ok(text_of_extents(alloc, plan.sources(), extents.as_slice())?)
        }
        CutQuestion::Until(word) => text_until(alloc, input, word),
        CutQuestion::Open => {
            let cut = open_cut(alloc, input)?;
            Ok(line_of_cut(alloc, &cut)?)
        }
    }
}

/// What is answered of an input of a plan.
fn text_by_plan(
    alloc: Global,
    plan: &Plan,
    input: Vec<u8>,
    question: CutQuestion<'_>,
) -> Result<String, JobFault>
    ensures { Gives is_memory string_bytes result (cuts_by plan.now input.items question.entry) }
{
    let input = read_input(alloc, plan, input)?;
    text_on_input(alloc, plan, &input, question)
}

/// What is answered of the input that texts tell.
fn text_of_texts(
    alloc: Global,
    plan: &[u8],
    input: Vec<u8>,
    question: CutQuestion<'_>,
) -> Result<String, JobFault>
    ensures { Gives is_memory string_bytes result (cuts_said plan.now input.items question.entry) }
{
    let plan = Plan::read(alloc, plan)?;
    text_by_plan(alloc, &plan, input, question)
}

/// Writes how far each partition of an input goes, or the word of a cut of it: the first at which every window that
/// ends by a time is due, or the last that leaves an entry of each partition to be read.
///
/// # Errors
///
/// The plan's fault, else the input's; `Number` where the word of a time spells none; `Write` where the writer refuses
/// the text; `Memory`.
pub fn job_cuts<W: Write>(
    alloc: Global,
    plan: &[u8],
    input: Vec<u8>,
    question: CutQuestion<'_>,
    out: &mut W,
) -> Result<(), JobFault>
    ensures answers { TellsCuts (cuts_said plan.now input.items question.entry) result (W.contents out.old) (W.contents out.new) }
    ensures kept { KeepsWriter result (W.contents out.old) (W.contents out.new) }
{
    let text = text_of_texts(alloc, plan, input, question)?;
    write_text(out, text.as_str())
}
