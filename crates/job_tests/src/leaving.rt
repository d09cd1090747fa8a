//! A world that is left as soon as it has sealed a savepoint, and a leg that goes on from there at another scale.

ghost use Rattle.redistribute.specs.Begins.{IsStartIn};
ghost use Rattle.stream_model.specs.InputData.{BelongsTo};
ghost use Rattle.task_setups.specs.Legs.{IsLayoutOf};

use crate::jobs::{INPUT, PLAN, ROWS, SCALE, SCALE_OF_TWO, rows_of_leg};
use crate::premises::{halfway, layout_of};
use core_steps::{Given, Sealed, World};
use job::{HashKeys, OpenGate};
use job_texts::{sort_rows, text_of_rows};
use leg_runs::follow;
use legs::{Choice, Stop};
use logical_plan::ReadPlan;
use plan_model::Plan;
use redistribute::Start;
use savepoint_index::encode;
use std::alloc::Global;
use std::test::Fail;
use stream_input::ReadInput;
use stream_model::Input;

/// More steps than the leg has.
const MOST_STEPS: usize = 200;

/// What a leg has sealed when it has made so many steps.
fn sealed_after(
    alloc: Global,
    keys: HashKeys,
    given: Given<'_>,
    steps: usize,
) -> Result<Option<Sealed>, Fail>
    requires belongs { BelongsTo given.plan.now given.input.now }
    requires starts { IsStartIn given.plan.now given.input.now given.start.now }
    requires laid_out { IsLayoutOf given.plan.now given.layout.now }
{
    let layout = given.layout;
    let choices = vec![in alloc; Choice { number: 0 }; steps]?;
    let mut world = Box::new(alloc, World::new(alloc, keys, given, Stop::Never)?)?;
    follow(alloc, &mut world, layout, &choices)?;
    Ok(world.sealed(alloc)?)
}

/// What a leg has sealed at the first moment at which there is something.
fn first_sealed(alloc: Global, keys: HashKeys, given: Given<'_>) -> Result<Option<Sealed>, Fail>
    requires belongs { BelongsTo given.plan.now given.input.now }
    requires starts { IsStartIn given.plan.now given.input.now given.start.now }
    requires laid_out { IsLayoutOf given.plan.now given.layout.now }
{
    for steps in 0..MOST_STEPS {
        if let Some(sealed) = sealed_after(alloc, keys, given, steps)? {
            return Ok(Some(sealed));
        }
    }
    Ok(None)
}

/// The text of the rows that a leg has sealed, and the bytes of the savepoint.
fn told(alloc: Global, sealed: Sealed) -> Result<(String, Vec<u8>), Fail> {
    let Sealed {
        rows,
        savepoint,
        ..
    } = sealed;
    let savepoint = Box::new(alloc, savepoint)?;
    let mut rows = rows.into_vec();
    sort_rows(&mut rows)?;
    let text = text_of_rows(alloc, &rows)?;
    let bytes = encode(alloc, &savepoint)?;
    Ok((text, bytes))
}

fn left_from(
    alloc: Global,
    keys: HashKeys,
    plan: &Plan,
    input: &Input,
    start: &Start,
) -> Result<Option<(String, Vec<u8>)>, Fail>
    requires belongs { BelongsTo plan.now input.now }
    requires starts { IsStartIn plan.now input.now start.now }
{
    let layout = Box::new(alloc, layout_of(alloc, plan)?)?;
    let saves = [halfway(alloc)?];
    let given = Given {
        plan,
        input,
        start,
        layout: &layout,
        saves: &saves,
    };
    match first_sealed(alloc, keys, given)? {
        Some(sealed) => Ok(Some(told(alloc, sealed)?)),
        None => Ok(None),
    }
}

fn left_on_input(
    alloc: Global,
    keys: HashKeys,
    plan: &Plan,
    input: &Input,
) -> Result<Option<(String, Vec<u8>)>, Fail>
    requires { BelongsTo plan.now input.now }
{
    let start = Box::new(alloc, Start::empty(alloc, plan, input)?)?;
    left_from(alloc, keys, plan, input, &start)
}

fn left_of_plan(
    alloc: Global,
    keys: HashKeys,
    plan: &Plan,
) -> Result<Option<(String, Vec<u8>)>, Fail> {
    let input = Box::new(alloc, Input::read(alloc, plan, INPUT.as_bytes())?)?;
    left_on_input(alloc, keys, plan, &input)
}

/// The rows that a leg has sealed when it is left, and the bytes of its savepoint.
fn left(alloc: Global, keys: HashKeys) -> Result<Option<(String, Vec<u8>)>, Fail> {
    let plan = Box::new(alloc, Plan::read(alloc, PLAN.as_bytes())?)?;
    left_of_plan(alloc, keys, &plan)
}

#[test]
fn a_world_that_is_left_goes_on_from_what_it_has_sealed(rt: HostRuntime) -> Result<(), Fail> {
    let keys = HashKeys::random(&rt)?;
    let Some((rows, bytes)) = left(rt.alloc(), keys)? else {
        assert!(rt; false, "the world seals nothing");
        return Ok(());
    };
    let (stopped, saved) = rows_of_leg(&rt, SCALE, None, Some("2,2"), &OpenGate)?;
    assert_eq!(rt; rows.as_bytes(), stopped.as_slice());
    assert_eq!(rt; saved.as_ref(), Some(&bytes));
    let (later, _) = rows_of_leg(&rt, SCALE_OF_TWO, Some(bytes), None, &OpenGate)?;
    let mut all = Vec::from_slice(rt.alloc(), rows.as_bytes())?;
    all.extend_from_slice(&later)?;
    assert_eq!(rt; all.as_slice(), ROWS.as_bytes());
    Ok(())
}
