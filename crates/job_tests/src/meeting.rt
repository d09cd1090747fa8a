//! That the tasks of a job run side by side: two sources, of which each waits for the other before its first read.

use crate::jobs::{INPUT, LEG_OF_TWO, PLAN, ROWS, SCALE_OF_TWO, rows_of_leg, rows_of_run};
use job::{Gate, HashKeys};
use job_legs::run_legs;
use leg_lists::read_legs;
use logical_plan::ReadPlan;
use plan_model::Plan;
use std::sync::atomic::{AtomicBool, Ordering};
use std::test::Fail;
use std::thread;
use std::time::{Clock, Duration};
use stream_input::ReadInput;
use stream_model::Input;

/// So many turns one waits for the other, each of a millisecond.
const LIMIT: u32 = 10_000;

/// Lets tasks 0 and 1 make their step 1 once both have come to it.
#[derive(Drop)]
struct Meeting<'a, R> {
    rt: &'a R,
    limit: u32,
    first: AtomicBool,
    second: AtomicBool,
    gave_up: AtomicBool,
}

impl<'a, R: Clock> Meeting<'a, R> {
    fn new(rt: &'a R, limit: u32) -> Meeting<'a, R> {
        Meeting {
            rt,
            limit,
            first: AtomicBool::new(false),
            second: AtomicBool::new(false),
            gave_up: AtomicBool::new(false),
        }
    }

    /// Whether one waited in vain.
    fn gave_up(&self) -> bool {
        self.gave_up.load(Ordering::SeqCst)
    }

    /// Whether both came.
    fn took_place(&self) -> bool {
        self.first.load(Ordering::SeqCst) && self.second.load(Ordering::SeqCst)
    }

    fn wait_for(&self, other: &AtomicBool) {
        for _ in 0..self.limit {
            if other.load(Ordering::SeqCst) {
                return;
            }
            thread::sleep(self.rt, Duration::from_millis(1));
        }
        self.gave_up.store(true, Ordering::SeqCst);
    }
}

impl<R: Clock + Sync> Gate for Meeting<'_, R> {
    fn pass(&self, task: u32, step: u64) {
        match (task, step) {
            (0, 1) => {
                self.first.store(true, Ordering::SeqCst);
                self.wait_for(&self.second);
            }
            (1, 1) => {
                self.second.store(true, Ordering::SeqCst);
                self.wait_for(&self.first);
            }
            _ => {}
        }
    }
}

#[test]
fn sources_of_a_run_meet(rt: HostRuntime) -> Result<(), Fail> {
    let gate = Meeting::new(&rt, LIMIT);
    let rows = rows_of_run(&rt, Some(LEG_OF_TWO.as_bytes()), &gate)?;
    assert_eq!(rt; rows.as_slice(), ROWS.as_bytes());
    assert!(rt; gate.took_place() && !gate.gave_up());
    Ok(())
}

#[test]
fn sources_of_a_leg_meet(rt: HostRuntime) -> Result<(), Fail> {
    let gate = Meeting::new(&rt, LIMIT);
    let (rows, saved) = rows_of_leg(&rt, SCALE_OF_TWO, None, None, &gate)?;
    assert_eq!(rt; rows.as_slice(), ROWS.as_bytes());
    assert_eq!(rt; saved, None);
    assert!(rt; gate.took_place() && !gate.gave_up());
    Ok(())
}

#[test]
fn sources_of_a_list_of_legs_meet(rt: HostRuntime) -> Result<(), Fail> {
    let alloc = rt.alloc();
    let gate = Meeting::new(&rt, LIMIT);
    let keys = HashKeys::random(&rt)?;
    let plan = Box::new(alloc, Plan::read(alloc, PLAN.as_bytes())?)?;
    let input = Box::new(alloc, Input::read(alloc, &plan, INPUT.as_bytes())?)?;
    let legs = read_legs(alloc, &plan, LEG_OF_TWO.as_bytes())?;
    let end = run_legs(&rt, alloc, keys, &plan, &input, legs, &gate)?;
    let end = Box::new(alloc, end)?;
    assert_eq!(rt; end.rows.len(), 4);
    assert!(rt; gate.took_place() && !gate.gave_up());
    Ok(())
}

// Tasks that took turns in one thread would not come to meet.
#[test]
fn tasks_in_turn_do_not_meet(rt: HostRuntime) -> Result<(), Fail> {
    let gate = Meeting::new(&rt, 100);
    for task in 0..2 {
        for step in 0..3 {
            gate.pass(task, step);
        }
    }
    assert!(rt; gate.gave_up());
    Ok(())
}
