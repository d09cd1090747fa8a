//! From bytes to the sources of an input.

ghost use Rattle.std.specs.Prelude.{◌≡◌, option_and_then, Err, IfOk, IfErr, IsErr, IsOk, MatchResult};
ghost use Rattle.json_parts.specs.Parts.{json_of};
ghost use Rattle.stream_model.specs.InputData.{BelongsTo, input_data_of};
ghost use Rattle.input_texts.specs.InputText.{InputText, input_text};
ghost use Rattle.stream_input.specs.Fit.{AreOf, IsRead};
ghost use Rattle.input_texts.specs.Answer.{Fails, Gives, is_memory, text_of_bytes, input_or_fault, input_of_bytes};

use crate::building::sources_of;
use crate::tokens::sources_in;
use input_texts::{InputFault, SourceText, check_text, text_of_input};
use json_parts::{PartError, value_of};
use json_tokens::Miss;
use plain_data::Items;
use plan_model::Plan;
use simdutf8::basic::from_utf8;
use std::alloc::Global;
use stream_model::{Input, Source, first_late, is_few};

/// The partitions of each source, in the order of the plan, that the bytes say.
pub fn sources_read(alloc: Global, plan: &Plan, bytes: &[u8]) -> Result<Items<Source>, InputFault>
    ensures { Gives is_memory (λ sources. input_data_of plan.now.columns plan.now.window.time sources) result (input_of_bytes plan.now bytes.now) }
{
    let quick = read_by_tokens(alloc, plan, bytes);
    sources_after(alloc, plan, bytes, quick)
}

/// The same, once the bytes were read token by token: want of memory there ends the reading, with their own
/// fault where they have one, and any other miss is left to the reading by value.
#[tactic(auto, unfolding(input_texts::specs::Answer::input_of_bytes))]
fn sources_after(
    alloc: Global,
    plan: &Plan,
    bytes: &[u8],
    quick: Result<Items<Source>, Miss>,
) -> Result<Items<Source>, InputFault>
    requires { IfOk quick (λ sources. IsRead plan.now (option_and_then input_text (json_of bytes.now)) sources) }
    ensures ends { IfErr quick (λ miss. miss ≡ Miss.Memory → IsErr result) }
    ensures reads { Gives is_memory (λ sources. input_data_of plan.now.columns plan.now.window.time sources) result (input_of_bytes plan.now bytes.now) }
{
    match quick {
        Ok(sources) => orderly(plan, sources),
        Err(Miss::Memory) => Err(fault_or_memory(alloc, plan, bytes)),
        Err(Miss::Other) => sources_by_value(alloc, plan, bytes),
    }
}

/// The same of bytes that were missed. A tree of the text is made once it is known to have no fault.
#[tactic(auto, unfolding(input_texts::specs::Answer::input_of_bytes))]
fn sources_by_value(alloc: Global, plan: &Plan, bytes: &[u8]) -> Result<Items<Source>, InputFault>
    ensures { Gives is_memory (λ sources. input_data_of plan.now.columns plan.now.window.time sources) result (input_of_bytes plan.now bytes.now) }
{
    check_bytes(alloc, plan, bytes)?;
    let text = text_of(alloc, bytes)?;
    Ok(sources_of(alloc, plan, text.as_slice())?)
}

/// The fault of bytes that there was no memory to read: their own, and want of memory where they have none.
fn fault_or_memory(alloc: Global, plan: &Plan, bytes: &[u8]) -> InputFault
    ensures { Fails is_memory result (input_of_bytes plan.now bytes.now) }
{
    match check_bytes(alloc, plan, bytes) {
        Ok(()) => InputFault::Memory,
        Err(fault) => fault,
    }
}

/// Whether the bytes are an input of the plan.
fn check_bytes(alloc: Global, plan: &Plan, bytes: &[u8]) -> Result<(), InputFault>
    ensures { MatchResult result (λ _. IsOk (input_of_bytes plan.now bytes.now)) (λ fault. Fails is_memory fault (input_of_bytes plan.now bytes.now)) }
{
    match str::from_utf8(bytes) {
        Ok(text) => check_text(alloc, plan, text),
        Err(_) => Err(InputFault::NotJson),
    }
}

/// The sources that the bytes say, read token by token, where all requirements up to the range of the
/// times are met.
fn read_by_tokens(alloc: Global, plan: &Plan, bytes: &[u8]) -> Result<Items<Source>, Miss>
    ensures { IfOk result (λ sources. IsRead plan.now (option_and_then input_text (json_of bytes.now)) sources) }
{
    match from_utf8(bytes) {
        Ok(text) => sources_in(alloc, plan, text),
        Err(_) => Err(Miss::Other),
    }
}

/// What the bytes say.
#[tactic(auto, unfolding(input_texts::specs::Answer::text_of_bytes))]
fn text_of(alloc: Global, bytes: &[u8]) -> Result<Items<SourceText>, InputFault>
    ensures { Gives is_memory (λ text. text) result (text_of_bytes bytes.now) }
{
    match value_of(alloc, bytes) {
        Ok(value) => Ok(text_of_input(alloc, &value)?),
        Err(PartError::Form) => Err(InputFault::NotJson),
        Err(PartError::Memory) => Err(InputFault::Memory),
    }
}

/// The same sources, where no record comes too late and there are not too many.
fn orderly(plan: &Plan, sources: Items<Source>) -> Result<Items<Source>, InputFault>
    requires { (text : InputText) × AreOf plan.now sources text }
    ensures { (text : InputText) → AreOf plan.now sources text
        → Gives is_memory (λ found. input_data_of plan.now.columns plan.now.window.time found) result (input_or_fault plan.now text) }
{
    let columns = plan.columns() as usize;
    let time = plan.window().time as usize;
    if let Some((source, (partition, entry))) = first_late(columns, time, sources.as_slice()) {
        return Err(InputFault::LateRecord {
            source,
            partition,
            entry,
        });
    }
    if !is_few(sources.as_slice()) {
        return Err(InputFault::TooMany);
    }
    Ok(sources)
}

/// What is read from the text of an input.
pub trait ReadInput: Sized {
    /// The input that the bytes are, a JSON text, for the sources of a plan.
    ///
    /// # Errors
    ///
    /// The first fault in the order of [`InputFault`], each over the whole document before the next.
    /// [`InputFault::Memory`] where memory runs out, in place of any other.
    fn read(alloc: Global, plan: &Plan, bytes: &[u8]) -> Result<Self, InputFault>;
}

impl ReadInput for Input {
    fn read(alloc: Global, plan: &Plan, bytes: &[u8]) -> Result<Input, InputFault>
        ensures reads { Gives is_memory (λ i. i) result (input_of_bytes plan.now bytes.now) }
        ensures belongs { IfOk result (λ i. BelongsTo plan.now i) }
    {
        let sources = sources_read(alloc, plan, bytes)?;
        Ok(Input::new(plan.columns(), plan.window().time, sources))
    }
}
