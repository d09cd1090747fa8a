//! That workers make the steps of a leg, side by side, in the order that a gate leaves them.

use crate::gates::{Hold, Watch};
use crate::making::{
    COUNTS, Case, FOUR_EIGHT_SHORT, ONE_ONE, ONE_TWO, ROWS, TWO_THREE, outcome_of,
    outcome_on_threads, run_on_threads,
};
use std::process::Abort;
use std::random::RandomSource;
use std::sync::Wait;
use std::test::Fail;
use std::thread::Threads;
use std::time::Clock;

/// Each of two sources waits for the other before its first read.
const MEETING: &[Hold] = &[
    Hold {
        task: 0,
        step: 1,
        until_task: 1,
        until_step: 1,
    },
    Hold {
        task: 1,
        step: 1,
        until_task: 0,
        until_step: 1,
    },
];

// A leg whose tasks took turns in one thread would stay in the gate to its limit.
#[test]
fn two_sources_run_side_by_side(rt: HostRuntime) -> Result<(), Fail> {
    let gate = Watch::new(&rt, rt.alloc(), 6, MEETING)?;
    let outcome = outcome_on_threads(&rt, Case::whole(TWO_THREE), &gate)?;
    assert_eq!(rt; outcome.rows.as_str(), ROWS);
    assert!(rt; !gate.gave_up());
    for task in [0, 1] {
        assert!(rt; gate.steps(task) > 1);
    }
    Ok(())
}

/// Both keys come in one batch, and each goes to a subtask of its own: the first to task 1, the second to task 2.
const TWO_KEYS: &str = r#"{"s":[[{"rows":[[1,2271560481,0],[1,4294967295,0]]}],[]]}"#;

/// A subtask of the window waits with its row until the sink has taken one.
fn late(task: u32) -> Hold {
    Hold {
        task,
        step: 2,
        until_task: 3,
        until_step: 1,
    }
}

/// The rows in the order in which they came, where one subtask of the window is late.
fn check_order<R: AllocGlobal + Abort + RandomSource + Threads + Wait + Clock + Sync>(
    rt: &R,
    task: u32,
    rows: &str,
) -> Result<(), Fail> {
    let holds = [late(task)];
    let gate = Watch::new(rt, rt.alloc(), 4, holds.as_slice())?;
    let case = Case {
        plan: COUNTS,
        input: TWO_KEYS,
        ..Case::whole(ONE_TWO)
    };
    let outcome = outcome_of(rt.alloc(), run_on_threads(rt, case, &gate)??, false)?;
    assert!(rt; !gate.gave_up());
    assert_eq!(rt; outcome.rows.as_str(), rows, "task {task} is late");
    Ok(())
}

// A leg whose rows came from elsewhere than its workers would have them in one order.
#[test]
fn rows_come_in_the_order_of_the_steps(rt: HostRuntime) -> Result<(), Fail> {
    check_order(&rt, 1, "0 10 4294967295 1\n0 10 2271560481 1\n")?;
    check_order(&rt, 2, "0 10 2271560481 1\n0 10 4294967295 1\n")
}

/// One partition is empty, so that the other alone says which steps are made.
const ONE_AND_NONE: &str =
    r#"{"s":[[{"rows":[[1,1,5],[12,1,7]]},{"watermark":9},{"rows":[[15,0,-3]]}],[]]}"#;

// The source opens, reads 3 entries, closes and puts 5 messages. The window takes those and puts 5, which the sink
// takes.
#[test]
fn each_step_passes_the_gate(rt: HostRuntime) -> Result<(), Fail> {
    let gate = Watch::new(&rt, rt.alloc(), 3, &[])?;
    let case = Case {
        input: ONE_AND_NONE,
        ..Case::whole(ONE_ONE)
    };
    outcome_on_threads(&rt, case, &gate)?;
    assert!(rt; gate.is_in_order());
    for (task, steps) in [(0, 10), (1, 10), (2, 5)] {
        assert_eq!(rt; gate.steps(task), steps, "task {task}");
    }
    Ok(())
}

#[test]
fn no_task_is_passed_over(rt: HostRuntime) -> Result<(), Fail> {
    let gate = Watch::new(&rt, rt.alloc(), 13, &[])?;
    outcome_on_threads(&rt, Case::whole(FOUR_EIGHT_SHORT), &gate)?;
    assert!(rt; gate.is_in_order());
    for task in 0..13 {
        assert!(rt; gate.steps(task) > 1, "task {task}");
    }
    Ok(())
}
