//! From a fault to its places, and a text that is checked.

ghost use Rattle.std.specs.Prelude.{◌≡◌, ◌<◌, length, IfOk, OnOk};
ghost use Rattle.logical_plan.specs.Answer.{Gives, plan_of_bytes};
ghost use Rattle.logical_plan.specs.Answer.{is_memory as is_plan_memory};
ghost use Rattle.plan_scale.specs.Answer.{scale_of_bytes};
ghost use Rattle.plan_scale.specs.Answer.{is_memory as is_scale_memory};
ghost use Rattle.stream_model.specs.InputData.{BelongsTo};
ghost use Rattle.input_texts.specs.Answer.{input_of_bytes};
ghost use Rattle.input_texts.specs.Answer.{is_memory as is_input_memory};
ghost use Rattle.fault_places.specs.Answer.{AnswersCheck};

use crate::writing::write_places;
use crate::{input, scale};
use input_texts::InputFault;
use json::Scratch;
use layout_rules::{Scale, ScaleFault};
use logical_plan::{PlanFault, ReadPlan};
use place_notes::Notes;
use plan_model::Plan;
use plan_scale::ReadScale;
use std::alloc::{AllocError, Global};
use std::io::Write;
use stream_input::ReadInput;
use stream_model::Input;
use text_places::{Findings, Placed, breach_in, first_value, spots_of};

/// A text that was refused, by its fault: a plan, or a scale or an input of a plan.
#[derive(Clone, Copy)]
pub enum Refused<'p> {
    Plan(PlanFault),
    Scale(&'p Plan, ScaleFault),
    Input(&'p Plan, InputFault),
}

impl Refused<'_> {
    fn is_no_json(&self) -> bool {
        match self {
            Refused::Plan(fault) => *fault == PlanFault::NotJson,
            Refused::Scale(_, fault) => *fault == ScaleFault::NotJson,
            Refused::Input(_, fault) => *fault == InputFault::NotJson,
        }
    }

    fn is_no_memory(&self) -> bool {
        match self {
            Refused::Plan(fault) => *fault == PlanFault::Memory,
            Refused::Scale(_, fault) => *fault == ScaleFault::Memory,
            Refused::Input(_, fault) => *fault == InputFault::Memory,
        }
    }

    /// What is told where no place is found.
    fn sentence(&self) -> &'static str {
        match self {
            Refused::Plan(_) => "the plan is refused, and its places are not known",
            Refused::Scale(_, _) => "the scale is refused, and its places are not known",
            Refused::Input(_, _) => "the input is refused, and its places are not known",
        }
    }
}

/// Tells of the places of a text, which is JSON.
fn check(notes: &mut Notes, value: &Placed<'_>, refused: Refused<'_>) -> Result<(), AllocError> {
    match refused {
        Refused::Plan(fault) => plan_places::tell_places(notes, value, fault),
        Refused::Scale(plan, fault) => scale::check(notes, plan, value, fault),
        Refused::Input(plan, fault) => input::check(notes, plan, value, fault),
    }
}

/// Tells where the bytes are no JSON.
fn tell_breach(notes: &mut Notes, bytes: &[u8]) -> Result<(), AllocError> {
    match breach_in(notes.alloc(), bytes)? {
        Some(breach) => {
            let reason = String::from_str(notes.alloc(), breach.reason)?;
            notes.tell(breach.offset, reason)
        }
        None => Ok(()),
    }
}

fn tell_places(notes: &mut Notes, text: &str, refused: Refused<'_>) -> Result<(), AllocError> {
    let mut scratch = Scratch::new(notes.alloc());
    let spots = spots_of(notes.alloc(), text, &mut scratch)?;
    match first_value(&spots) {
        Some(value) => check(notes, &value, refused),
        None => Ok(()),
    }
}

/// What is told of the bytes.
fn notes_of(alloc: Global, bytes: &[u8], refused: Refused<'_>) -> Result<Notes, AllocError> {
    let mut notes = Notes::new(alloc);
    match std::str::from_utf8(bytes) {
        Ok(text) if !refused.is_no_json() => tell_places(&mut notes, text, refused)?,
        _ => tell_breach(&mut notes, bytes)?,
    }
    Ok(notes)
}

/// Tells of the whole text where no place was found.
fn tell_whole(alloc: Global, found: &mut Findings, sentence: &str) -> Result<(), AllocError>
    ensures end { found.new.end ≡ found.old.end }
    ensures some { OnOk result (0 < length found.new.places) }
{
    if !found.is_empty() {
        return Ok(());
    }
    found.tell(0, String::from_str(alloc, sentence)?)
}

/// The places at which the bytes of a text that was refused do not meet the requirement of its fault, and behind them
/// those at which they do not meet a later one: at least one, and of many the first 20.
///
/// # Errors
///
/// Where memory runs out.
pub fn places_of(alloc: Global, bytes: &[u8], refused: Refused<'_>) -> Result<Findings, AllocError>
    ensures text { IfOk result (λ found. found.end ≡ length bytes.now) }
    ensures some { IfOk result (λ found. 0 < length found.places) }
{
    let notes = notes_of(alloc, bytes, refused)?;
    let mut found = notes.into_findings(bytes.len())?;
    tell_whole(alloc, &mut found, refused.sentence())?;
    Ok(found)
}

/// Writes the places of a refusal, as far as there is memory for them and the writer takes them.
fn tell<W: Write>(alloc: Global, text: &[u8], file: &str, refused: Refused<'_>, out: &mut W) {
    if refused.is_no_memory() {
        return;
    }
    if let Ok(found) = places_of(alloc, text, refused) {
        let _ = write_places(out, file, text, &found);
    }
}

/// The plan that the bytes are. Nothing is written of one that is right, and of another a line for each place at
/// which it does not meet the first requirement that it does not meet, and then a later one, with the name of its file.
///
/// # Errors
///
/// The fault of `Plan::read`, whatever comes of the writing.
pub fn check_plan<W: Write>(
    alloc: Global,
    plan: &[u8],
    file: &str,
    out: &mut W,
) -> Result<Plan, PlanFault>
    ensures answers { Gives is_plan_memory (λ plan. plan) result (plan_of_bytes plan.now) }
    ensures quiet { OnOk result (W.contents out.new ≡ W.contents out.old) }
{
    match Plan::read(alloc, plan) {
        Ok(read) => Ok(read),
        Err(fault) => {
            tell(alloc, plan, file, Refused::Plan(fault), out);
            Err(fault)
        }
    }
}

/// The same of a scale of the plan.
///
/// # Errors
///
/// The fault of `Scale::read`, whatever comes of the writing.
pub fn check_scale<W: Write>(
    alloc: Global,
    plan: &Plan,
    scale: &[u8],
    file: &str,
    out: &mut W,
) -> Result<(), ScaleFault>
    ensures answers { AnswersCheck is_scale_memory (scale_of_bytes plan.now scale.now) result }
    ensures quiet { OnOk result (W.contents out.new ≡ W.contents out.old) }
{
    match Scale::read(alloc, plan, scale) {
        Ok(_) => Ok(()),
        Err(fault) => {
            tell(alloc, scale, file, Refused::Scale(plan, fault), out);
            Err(fault)
        }
    }
}

/// The input that the bytes are, of a plan. Of what is right or not it writes as [`check_plan`] does.
///
/// # Errors
///
/// The fault of `Input::read`, whatever comes of the writing.
pub fn check_input<W: Write>(
    alloc: Global,
    plan: &Plan,
    input: &[u8],
    file: &str,
    out: &mut W,
) -> Result<Input, InputFault>
    ensures answers { Gives is_input_memory (λ input. input) result (input_of_bytes plan.now input.now) }
    ensures belongs { IfOk result (λ input. BelongsTo plan.now input) }
    ensures quiet { OnOk result (W.contents out.new ≡ W.contents out.old) }
{
    match Input::read(alloc, plan, input) {
        Ok(found) => Ok(found),
        Err(fault) => {
            tell(alloc, input, file, Refused::Input(plan, fault), out);
            Err(fault)
        }
    }
}
