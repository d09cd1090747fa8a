//! Calls of savepoints.

ghost use Rattle.std.specs.Prelude.{◌≡◌, ◌≤◌, IfOk};
ghost use Rattle.stream_model.specs.InputData.{BelongsTo};
ghost use Rattle.task_setups.specs.Legs.{IsLayoutOf};
ghost use Rattle.gather.specs.Laws.{HasGroups};
ghost use Rattle.gather.specs.Parts.{AreParts};
ghost use Rattle.redistribute.specs.Begins.{IsStartIn};

use crate::files::file;
use crate::telling::{answered, begins, refused};
use gather::gather;
use gather::laws::spread_are_parts;
use job_texts::{JobFault, text_of_savepoint};
use plan_compiler::Layout;
use plan_model::Plan;
use redistribute::{Start, TaskStart, spread};
use restarts::laws::accepted_have_groups;
use restore::check;
use savepoint_codec::Savepoint;
use savepoint_index::{decode, decode_group, encode};
use std::alloc::Global;
use std::rt::Files;
use stream_model::Input;

/// A key group of the savepoint.
const GROUP: u32 = 127;

/// Decodes the bytes of the savepoint that a file has.
fn decode_file<R: Files + Print + AllocGlobal>(
    rt: &R,
    name: &str,
    saved: &str,
) -> Result<(), JobFault> {
    let alloc = rt.alloc();
    let bytes = file(rt, saved)?;
    for _ in 0..2 {
        begins(rt, name)?;
        match decode(alloc, &bytes) {
            Ok(savepoint) => {
                let savepoint = Box::new(alloc, savepoint)?;
                let text = text_of_savepoint(alloc, savepoint.contents())?;
                return answered(rt, text.as_str());
            }
            Err(fault) => refused(rt, &fault)?,
        }
    }
    Ok(())
}

/// Decodes the bytes of the savepoint.
pub(crate) fn decode_calls<R: Files + Print + AllocGlobal>(rt: &R) -> Result<(), JobFault> {
    decode_file(rt, "decode", "savepoint")
}

/// Decodes the bytes of the savepoint without an index.
pub(crate) fn decode_unindexed_calls<R: Files + Print + AllocGlobal>(
    rt: &R,
) -> Result<(), JobFault> {
    decode_file(rt, "decode_unindexed", "unindexed")
}

/// Decodes a key group's entries.
pub(crate) fn decode_group_calls<R: Files + Print + AllocGlobal>(rt: &R) -> Result<(), JobFault> {
    let alloc = rt.alloc();
    let bytes = file(rt, "savepoint")?;
    for _ in 0..2 {
        begins(rt, "decode_group")?;
        match decode_group(alloc, &bytes, GROUP) {
            Ok(entries) => return answered(rt, format!(in alloc; "{entries:?}")?.as_str()),
            Err(fault) => refused(rt, &fault)?,
        }
    }
    Ok(())
}

/// Encodes a savepoint.
pub(crate) fn encode_calls<R: Print + AllocGlobal>(
    rt: &R,
    savepoint: &Savepoint,
) -> Result<(), JobFault> {
    let alloc = rt.alloc();
    for _ in 0..2 {
        begins(rt, "encode")?;
        match encode(alloc, savepoint) {
            Ok(bytes) => return answered(rt, hex::encode(alloc, &bytes)?.as_str()),
            Err(_) => refused(rt, &JobFault::Memory)?,
        }
    }
    Ok(())
}

/// Checks whether a job can go on from a savepoint.
pub(crate) fn check_calls<R: Print + AllocGlobal>(
    rt: &R,
    plan: &Plan,
    input: &Input,
    savepoint: &Savepoint,
) -> Result<(), JobFault> {
    let alloc = rt.alloc();
    for _ in 0..2 {
        begins(rt, "check")?;
        match check(alloc, plan, input, savepoint) {
            Ok(start) => {
                let start = Box::new(alloc, start)?;
                return answered(rt, format!(in alloc; "{start:?}")?.as_str());
            }
            Err(fault) => refused(rt, &fault)?,
        }
    }
    Ok(())
}

/// The start of a job that goes on from a savepoint.
pub(crate) fn start_of(
    alloc: Global,
    plan: &Plan,
    input: &Input,
    savepoint: &Savepoint,
) -> Result<Start, JobFault>
    requires { BelongsTo plan.now input.now }
    ensures starts { IfOk result (λ start. IsStartIn plan.now input.now start) }
    ensures groups { IfOk result (λ start. HasGroups plan.now start) }
{
    let _groups = accepted_have_groups();
    let _contents = savepoint.contents();
    match check(alloc, plan, input, savepoint) {
        Ok(start) => Ok(start),
        Err(fault) => Err(JobFault::from(fault)),
    }
}

/// Deals a start out to the tasks of a layout, and tells whether that has answered.
fn spread_once<R: Print + AllocGlobal>(
    rt: &R,
    plan: &Plan,
    start: &Start,
    layout: &Layout,
) -> Result<bool, JobFault>
    requires { IsLayoutOf plan.now layout.now }
{
    let alloc = rt.alloc();
    begins(rt, "spread")?;
    match spread(alloc, plan, start, layout) {
        Ok(parts) => {
            answered(rt, format!(in alloc; "{parts:?}")?.as_str())?;
            Ok(true)
        }
        Err(_) => {
            refused(rt, &JobFault::Memory)?;
            Ok(false)
        }
    }
}

/// Deals a start out to the tasks of a layout.
pub(crate) fn spread_calls<R: Print + AllocGlobal>(
    rt: &R,
    plan: &Plan,
    start: &Start,
    layout: &Layout,
) -> Result<(), JobFault>
    requires { IsLayoutOf plan.now layout.now }
{
    if !spread_once(rt, plan, start, layout)? {
        spread_once(rt, plan, start, layout)?;
    }
    Ok(())
}

/// What a start is dealt out into.
fn parts_of(
    alloc: Global,
    plan: &Plan,
    start: &Start,
    layout: &Layout,
) -> Result<Vec<TaskStart>, JobFault>
    requires laid_out { IsLayoutOf plan.now layout.now }
    requires groups { HasGroups plan.now start.now }
    ensures { IfOk result (λ parts. AreParts plan.now layout.now.stages parts.items) }
{
    let _parts = spread_are_parts();
    Ok(spread(alloc, plan, start, layout)?)
}

/// Puts parts together, and tells whether that has answered.
fn gather_once<R: Print + AllocGlobal>(
    rt: &R,
    plan: &Plan,
    layout: &Layout,
    parts: &[TaskStart],
) -> Result<bool, JobFault>
    requires laid_out { IsLayoutOf plan.now layout.now }
    requires parts { AreParts plan.now layout.now.stages parts.now }
{
    let alloc = rt.alloc();
    begins(rt, "gather")?;
    match gather(alloc, plan, layout, parts, 1) {
        Ok(savepoint) => {
            let savepoint = Box::new(alloc, savepoint)?;
            let text = text_of_savepoint(alloc, savepoint.contents())?;
            answered(rt, text.as_str())?;
            Ok(true)
        }
        Err(_) => {
            refused(rt, &JobFault::Memory)?;
            Ok(false)
        }
    }
}

/// Puts the parts together that a start is dealt out into.
pub(crate) fn gather_calls<R: Print + AllocGlobal>(
    rt: &R,
    plan: &Plan,
    start: &Start,
    layout: &Layout,
) -> Result<(), JobFault>
    requires laid_out { IsLayoutOf plan.now layout.now }
    requires groups { HasGroups plan.now start.now }
{
    let parts = parts_of(rt.alloc(), plan, start, layout)?;
    if !gather_once(rt, plan, layout, &parts)? {
        gather_once(rt, plan, layout, &parts)?;
    }
    Ok(())
}
