//! The places of the tasks of stages.

ghost use Rattle.std.specs.Prelude.{◌≡◌, ℕ, ◌<◌, ◌≤◌, ◌++◌, map, length, IfOk};
ghost use Rattle.std.specs.List.{range_with_len};
ghost use Rattle.layout_rules.specs.declared.limits.TheConstants.{MOST_TASKS};
ghost use Rattle.layout_rules.specs.Stages.{place_of};
ghost use Rattle.plan_compiler.specs.Tables.{each_task};

use layout_rules::{Stage, TaskPlace};
use std::alloc::{AllocError, Global};

#[tactic(auto, using(crate::proofs::TaskPlaces::subtask_more))]
fn push_subtasks(
    places: &mut Vec<TaskPlace>,
    stage: u32,
    parallelism: u32,
) -> Result<(), AllocError>
    ensures { IfOk result (λ _. places.new.items ≡ places.old.items ++ map (λ i. record { stage = stage; subtask = i }) (range_with_len 0 parallelism)) }
{
    for subtask in 0..parallelism {
        places.push(TaskPlace { stage, subtask })?;
    }
    Ok(())
}

/// The places of tasks: stage by stage, then by subtask.
#[tactic(auto, using(crate::proofs::TaskPlaces::stage_more))]
pub fn places_of(alloc: Global, stages: &[Stage]) -> Result<Vec<TaskPlace>, AllocError>
    requires { length stages.now ≤ MOST_TASKS }
    ensures { IfOk result (λ v. v.items ≡ each_task stages.now (place_of stages.now)) }
{
    let mut places = Vec::new(alloc);
    for a in 0..stages.len() {
        push_subtasks(&mut places, a as u32, stages[a].parallelism)?;
    }
    Ok(places)
}
