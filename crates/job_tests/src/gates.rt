//! Gates that the tasks of a job pass.

use crate::jobs::{ROWS, SCALE, rows_of_leg, rows_of_run};
use job::Gate;
use std::sync::atomic::{AtomicU64, Ordering};
use std::test::Fail;

/// Counts the steps of each of the first three tasks.
#[derive(Drop)]
struct Counting {
    source: AtomicU64,
    window: AtomicU64,
    sink: AtomicU64,
}

impl Gate for Counting {
    fn pass(&self, task: u32, step: u64) {
        let counter = match task {
            0 => &self.source,
            1 => &self.window,
            _ => &self.sink,
        };
        counter.store(step.saturating_add(1), Ordering::SeqCst);
    }
}

impl Counting {
    fn new() -> Counting {
        Counting {
            source: AtomicU64::new(0),
            window: AtomicU64::new(0),
            sink: AtomicU64::new(0),
        }
    }

    /// Whether each task has passed, the source once for each entry at least.
    fn were_passed(&self) -> bool {
        let source = self.source.load(Ordering::SeqCst);
        let window = self.window.load(Ordering::SeqCst);
        let sink = self.sink.load(Ordering::SeqCst);
        source >= 6 && window >= 1 && sink >= 1
    }
}

#[test]
fn each_task_of_a_run_passes_the_gate(rt: HostRuntime) -> Result<(), Fail> {
    let gate = Counting::new();
    let rows = rows_of_run(&rt, None, &gate)?;
    assert_eq!(rt; rows.as_slice(), ROWS.as_bytes());
    assert!(rt; gate.were_passed());
    Ok(())
}

#[test]
fn each_task_of_a_leg_passes_the_gate(rt: HostRuntime) -> Result<(), Fail> {
    let gate = Counting::new();
    let (rows, saved) = rows_of_leg(&rt, SCALE, None, None, &gate)?;
    assert_eq!(rt; rows.as_slice(), ROWS.as_bytes());
    assert_eq!(rt; saved, None);
    assert!(rt; gate.were_passed());
    Ok(())
}
