//! Whether a job can go on from a savepoint.

ghost use Rattle.std.specs.Prelude.{◌≡◌, ◌-◌, ◌^◌, min, length, IfOk};
ghost use Rattle.std.specs.List.{All};
ghost use Rattle.stream_model.specs.Watermarks.{merged_watermark, records_before};
ghost use Rattle.stream_model.specs.InputData.{BelongsTo};
ghost use Rattle.redistribute.specs.Begins.{IsStartIn};
ghost use Rattle.redistribute.specs.StartData.{IsStartOf};
ghost use Rattle.restore.specs.Saved.{cut_of};
ghost use Rattle.restore.specs.Saved as said;
ghost use Rattle.restore.specs.Sound.{IsSoundGroup};
ghost use Rattle.restore.specs.Answer.{Gives, is_memory, met_or_fault, start_or_fault};
ghost use Rattle.restore.specs.Requirements as required;
ghost use Rattle.restore.specs.Requirements.{plan_requirements, input_requirements};

use crate::copying::copy_groups;
use crate::entries::{EntryTest, every_entry};
use crate::partitions::{Reached, all_partitions, have_offsets, have_watermarks};
use crate::requirements;
use crate::saved::saved_sources;
use key_groups::MaxParallelism;
use legs::RestoreFault;
use plain_data::Items;
use plan_model::Plan;
use redistribute::Start;
use savepoint_codec::{Contents, SavedPartition, Savepoint};
use std::alloc::Global;
use stream_model::Input;

/// Whether each entry stands in the key group of its key.
#[tactic(auto, unfolding(crate::specs::Requirements::has_groups))]
fn has_groups(plan: &Plan, contents: &Contents) -> bool
    ensures { result ≡ required.has_groups plan.now contents.now }
{
    let max = MaxParallelism::new(plan.max()).unwrap();
    let test = EntryTest::InGroup(max);
    every_entry(plan.window(), &test, contents.groups.as_slice())
}

/// Whether each entry's window is one of the plan's, which has not fired.
#[tactic(auto, unfolding(crate::specs::Requirements::has_open_windows))]
fn has_open_windows(plan: &Plan, input: &Input, reached: &Reached, contents: &Contents) -> bool
    requires { reached.now.watermark ≡ merged_watermark input.now.sources (cut_of (said.saved_sources plan.now contents.now)) }
    ensures { result ≡ required.has_open_windows plan.now input.now contents.now }
{
    let test = EntryTest::Open(reached.watermark);
    every_entry(plan.window(), &test, contents.groups.as_slice())
}

/// Whether no entry counts more records than were read.
fn has_counts(plan: &Plan, input: &Input, reached: &Reached, contents: &Contents) -> bool
    requires records { reached.now.records ≡ min (length (records_before input.now.sources (cut_of (said.saved_sources plan.now contents.now)))) (2 ^ 64 - 1) }
    requires sound { All (IsSoundGroup contents.now.kinds) contents.now.groups }
    ensures { result ≡ required.has_counts plan.now input.now contents.now }
{
    let test = EntryTest::Counted(reached.records);
    every_entry(plan.window(), &test, contents.groups.as_slice())
}

/// Whether the number leaves room for those of legs to come.
#[tactic(auto, unfolding(crate::specs::Requirements::has_number))]
fn has_number(contents: &Contents) -> bool
    ensures { result ≡ required.has_number contents.now }
{
    contents.number <= 1 << 63
}

/// What a savepoint must meet by the plan alone.
#[tactic(auto, unfolding(crate::specs::Requirements::plan_requirements))]
fn meet_plan(alloc: Global, plan: &Plan, contents: &Contents) -> Result<(), RestoreFault>
    ensures { Gives is_memory (λ met. met) result (met_or_fault (plan_requirements plan.now) contents.now) }
{
    if !requirements::has_max(plan, contents) {
        return Err(RestoreFault::MaxParallelism);
    }
    if !requirements::has_known_uids(plan, contents) {
        return Err(RestoreFault::UnknownUid);
    }
    if !requirements::has_all_uids(plan, contents) {
        return Err(RestoreFault::MissingUid);
    }
    if !requirements::has_plan(alloc, plan, contents)? {
        return Err(RestoreFault::PlanChanged);
    }
    if !requirements::has_partitions(plan, contents) {
        return Err(RestoreFault::Partitions);
    }
    Ok(())
}

/// What a savepoint must meet by the plan and the input, where it has this of the plan's sources.
#[tactic(auto, unfolding(crate::specs::Requirements::input_requirements, crate::specs::Requirements::has_offsets, crate::specs::Requirements::has_watermarks))]
fn meet_input(
    plan: &Plan,
    input: &Input,
    saved: &[Items<SavedPartition>],
    contents: &Contents,
) -> Result<(), RestoreFault>
    requires saved { saved.now ≡ said.saved_sources plan.now contents.now }
    requires sound { All (IsSoundGroup contents.now.kinds) contents.now.groups }
    ensures { Gives is_memory (λ met. met) result (met_or_fault (input_requirements plan.now input.now) contents.now) }
{
    if !have_offsets(saved, input.sources()) {
        return Err(RestoreFault::Offset);
    }
    if !have_watermarks(saved, input.sources()) {
        return Err(RestoreFault::Watermark);
    }
    if !has_groups(plan, contents) {
        return Err(RestoreFault::WrongGroup);
    }
    let reached = all_partitions(saved, input.sources());
    if !has_open_windows(plan, input, &reached, contents) {
        return Err(RestoreFault::ClosedWindow);
    }
    if !has_counts(plan, input, &reached, contents) {
        return Err(RestoreFault::Count);
    }
    if !has_number(contents) {
        return Err(RestoreFault::Number);
    }
    Ok(())
}

/// The start from a savepoint, of a job with this plan and this input: its number, how far each partition was read, and
/// what stands in the windows. Where the input was read by the plan, a leg can begin with it, whoever wrote the
/// savepoint.
///
/// # Errors
///
/// The first fault of the savepoint, in the order of [`RestoreFault`]'s variants, each looked for in the whole
/// savepoint before the next. [`RestoreFault::Memory`] where memory runs out, in place of any other.
pub fn check(
    alloc: Global,
    plan: &Plan,
    input: &Input,
    savepoint: &Savepoint,
) -> Result<Start, RestoreFault>
    ensures reads { Gives is_memory (λ start. start) result (start_or_fault plan.now input.now savepoint.now) }
    ensures belongs { IfOk result (λ start. IsStartOf plan.now start) }
    ensures in_input { IfOk result (λ start. BelongsTo plan.now input.now → IsStartIn plan.now input.now start) }
{
    let contents = savepoint.contents();
    meet_plan(alloc, plan, contents)?;
    let saved = saved_sources(alloc, plan.sources(), contents.sources.as_slice())?;
    meet_input(plan, input, saved.as_slice(), contents)?;
    let kinds = contents.kinds.copy(alloc)?;
    let groups = copy_groups(alloc, contents.groups.as_slice())?;
    Ok(Start::from_saved(contents.number, saved, kinds, groups))
}
