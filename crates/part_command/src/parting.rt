//! From texts to what is split.

ghost use Rattle.std.specs.Prelude.{◌≡◌, ◌≤◌, IfOk};
ghost use Rattle.answers.specs.Answer.{Gives};
ghost use Rattle.stream_model.specs.InputData.{BelongsTo};
ghost use Rattle.input_texts.specs.Answer.{input_of_bytes, is_memory as is_input_memory};
ghost use Rattle.part_command.specs.Splitting.{parts_said};

use input_texts::InputFault;
use job_texts::{JobFault, read_count};
use key_groups::{MOST_SUBTASKS, MaxParallelism, Parallelism};
use plan_model::Plan;
use std::alloc::Global;
use stream_input::ReadInput;
use stream_model::Input;

/// In how many parts an input of a plan is to be split, as a word spells it: 1 to the lesser of 64 and the plan's key
/// groups.
///
/// # Errors
///
/// `Number` where it spells no such number.
pub(crate) fn parts_of(plan: &Plan, word: &str) -> Result<Parallelism, JobFault>
    ensures said { result ≡ parts_said plan.now.max word.now }
    ensures fits { IfOk result (λ parts. parts ≤ plan.now.max) }
{
    let max = MaxParallelism::new(plan.max()).ok_or(JobFault::Number)?;
    let count = read_count(word, 1, max.get().min(MOST_SUBTASKS)).ok_or(JobFault::Number)?;
    Parallelism::new(count, max).ok_or(JobFault::Number)
}

/// The input of a plan that bytes tell. They are dropped here, so that their memory is free while the parts are made.
pub(crate) fn read_input(alloc: Global, plan: &Plan, bytes: Vec<u8>) -> Result<Input, InputFault>
    ensures reads { Gives is_input_memory (λ i. i) result (input_of_bytes plan.now bytes.items) }
    ensures belongs { IfOk result (λ i. BelongsTo plan.now i) }
{
    Input::read(alloc, plan, &bytes)
}
