//! A gate that lets the sink of a leg come first.

use std::thread;
use std::time::{Clock, Duration};
use thread_runner::Gate;

/// The tasks of the window, as the scale beside the program lays the plan's job out.
const FIRST_WINDOW: u32 = 4;

const LAST_WINDOW: u32 = 5;

/// Holds each step of the window's tasks for a moment, by which the sink has taken what they put before: so a savepoint
/// on the way is complete before they go on behind it.
#[derive(Drop)]
pub(crate) struct SlowWindow<'r, R> {
    pub(crate) rt: &'r R,
}

impl<R: Clock + Sync> Gate for SlowWindow<'_, R> {
    fn pass(&self, task: u32, _step: u64) {
        if FIRST_WINDOW <= task && task <= LAST_WINDOW {
            thread::sleep(self.rt, Duration::from_millis(1));
        }
    }
}
