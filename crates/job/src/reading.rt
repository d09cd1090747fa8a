//! The input of a job, read from bytes that are needed no more.

ghost use Rattle.std.specs.Prelude.{IfOk};
ghost use Rattle.answers.specs.Answer.{Gives};
ghost use Rattle.input_texts.specs.Answer.{input_of_bytes, is_memory};
ghost use Rattle.stream_model.specs.InputData.{BelongsTo};

use input_texts::InputFault;
use plan_model::Plan;
use std::alloc::Global;
use stream_input::ReadInput;
use stream_model::Input;

/// The input of a plan that bytes tell. They are dropped here, so that their memory is free while the job runs.
pub(crate) fn read_input(alloc: Global, plan: &Plan, bytes: Vec<u8>) -> Result<Input, InputFault>
    ensures reads { Gives is_memory (λ i. i) result (input_of_bytes plan.now bytes.items) }
    ensures belongs { IfOk result (λ i. BelongsTo plan.now i) }
{
    Input::read(alloc, plan, &bytes)
}
