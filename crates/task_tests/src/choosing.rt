//! The choices that a leg is given are followed: rows come in the order of the steps that they make.

ghost use Rattle.layout_rules.specs.Scale.{IsScale};
ghost use Rattle.redistribute.specs.Begins.{IsStartIn};
ghost use Rattle.stream_model.specs.InputData.{BelongsTo};

use core_steps::Finish;
use layout_rules::Scale;
use leg_runs::run_leg_by;
use legs::{Choice, Stop};
use logical_plan::ReadPlan;
use plan_model::Plan;
use plan_scale::ReadScale;
use redistribute::Start;
use std::alloc::{AllocError, Global};
use std::random::RandomSource;
use std::test::Fail;
use stream_input::ReadInput;
use stream_model::Input;
use window_state::HashKeys;

const COUNTS: &str =
    r#"{"columns":3,"maxParallelism":128,"time":0,"key":1,"sources":[{"uid":"s","partitions":2}],"window":{"uid":"w","size":10,"aggregates":[{"fn":"count"}]}}"#;

const ONE_TWO: &str = r#"{"ring":4,"operators":{"s":{"parallelism":1},"w":{"parallelism":2}}}"#;

/// Both keys come in one batch, and each goes to a subtask of its own.
const TWO_KEYS: &str = r#"{"s":[[{"rows":[[1,2271560481,0],[1,4294967295,0]]}],[]]}"#;

/// So many choices, drawn from a seed.
fn drawn(alloc: Global, seed: u32, count: usize) -> Result<Vec<Choice>, AllocError> {
    let mut choices = Vec::new(alloc);
    let mut number = seed;
    for _ in 0..count {
        number = number.wrapping_mul(1664525).wrapping_add(1013904223);
        choices.push(Choice {
            number: number >> 16,
        })?;
    }
    Ok(choices)
}

/// The keys of the rows of a leg in the order in which they came, where it ends.
fn keys_of(alloc: Global, finish: &Finish) -> Result<Vec<i64>, AllocError> {
    match finish {
        Finish::Ended(rows, _) => rows.as_slice().iter().map(|row| row.key).collect(alloc),
        Finish::Stopped(..) | Finish::Abandoned(_) => Ok(Vec::new(alloc)),
    }
}

/// What a leg from a start comes to.
#[derive(Clone, Copy)]
struct Leg<'a> {
    keys: HashKeys,
    plan: &'a Plan,
    input: &'a Input,
    seed: u32,
}

fn keys_from(alloc: Global, leg: Leg<'_>, start: &Start, scale: &Scale) -> Result<Vec<i64>, Fail>
    requires belongs { BelongsTo leg.plan.now leg.input.now }
    requires scale { IsScale leg.plan.now scale.now }
    requires starts { IsStartIn leg.plan.now leg.input.now start.now }
{
    let choices = drawn(alloc, leg.seed, 1000)?;
    let Leg {
        keys,
        plan,
        input,
        ..
    } = leg;
    let never = Stop::Never;
    let finish = run_leg_by(alloc, keys, plan, input, start, scale, &[], never, &choices)?;
    let finish = Box::new(alloc, finish)?;
    Ok(keys_of(alloc, &finish)?)
}

fn keys_at_scale(alloc: Global, leg: Leg<'_>, start: &Start) -> Result<Vec<i64>, Fail>
    requires belongs { BelongsTo leg.plan.now leg.input.now }
    requires starts { IsStartIn leg.plan.now leg.input.now start.now }
{
    let scale = Box::new(alloc, Scale::read(alloc, leg.plan, ONE_TWO.as_bytes())?)?;
    keys_from(alloc, leg, start, &scale)
}

fn keys_of_leg(alloc: Global, leg: Leg<'_>) -> Result<Vec<i64>, Fail>
    requires { BelongsTo leg.plan.now leg.input.now }
{
    let start = Box::new(alloc, Start::empty(alloc, leg.plan, leg.input)?)?;
    keys_at_scale(alloc, leg, &start)
}

fn keys_of_plan(
    rt: &(impl AllocGlobal + RandomSource),
    plan: &Plan,
    seed: u32,
) -> Result<Vec<i64>, Fail> {
    let keys = HashKeys::random(rt)?;
    let alloc = rt.alloc();
    let input = Box::new(alloc, Input::read(alloc, plan, TWO_KEYS.as_bytes())?)?;
    let leg = Leg {
        keys,
        plan,
        input: &input,
        seed,
    };
    keys_of_leg(alloc, leg)
}

/// The keys of the rows in the order in which they came, by choices that are drawn from a seed.
fn keys_by(rt: &(impl AllocGlobal + RandomSource), seed: u32) -> Result<Vec<i64>, Fail> {
    let plan = Box::new(rt.alloc(), Plan::read(rt.alloc(), COUNTS.as_bytes())?)?;
    keys_of_plan(rt, &plan, seed)
}

// A leg that ignored its choices would have its rows in one order.
#[test]
fn rows_come_in_the_order_of_the_choices(rt: HostRuntime) -> Result<(), Fail> {
    let one = keys_by(&rt, 0)?;
    let other = keys_by(&rt, 1)?;
    assert_eq!(rt; one.as_slice(), [2271560481, 4294967295].as_slice());
    assert_eq!(rt; other.as_slice(), [4294967295, 2271560481].as_slice());
    Ok(())
}
