//! A gate that records how far each task has come, and may hold one until another has come somewhere.

use std::alloc::{AllocError, Global};
use std::sync::atomic::{AtomicBool, AtomicU64, Ordering};
use std::thread;
use std::time::{Clock, Duration};
use thread_runner::Gate;

/// So many turns are waited for another task, each of a millisecond.
const LIMIT: u32 = 10000;

/// A task is held before a step until another has come to one.
#[derive(Clone, Copy, Debug)]
pub struct Hold {
    pub task: u32,
    pub step: u64,
    pub until_task: u32,
    pub until_step: u64,
}

/// Records the steps that tasks come to, and holds some of them.
#[derive(Drop)]
pub struct Watch<'a, R> {
    rt: &'a R,
    holds: &'a [Hold],
    /// Of each task, one more than the number of the step that it has come to.
    came: Vec<AtomicU64>,
    jumped: AtomicBool,
    gave_up: AtomicBool,
}

impl<'a, R: Clock> Watch<'a, R> {
    /// Records so many tasks, of which some are held.
    pub fn new(
        rt: &'a R,
        alloc: Global,
        tasks: usize,
        holds: &'a [Hold],
    ) -> Result<Watch<'a, R>, AllocError> {
        let mut came = Vec::new(alloc);
        for _ in 0..tasks {
            came.push(AtomicU64::new(0))?;
        }
        Ok(Watch {
            rt,
            holds,
            came,
            jumped: AtomicBool::new(false),
            gave_up: AtomicBool::new(false),
        })
    }

    /// How many steps a task has made that is done.
    pub fn steps(&self, task: u32) -> u64 {
        match self.came.get(task as usize) {
            Some(came) => came.load(Ordering::SeqCst),
            None => 0,
        }
    }

    /// Whether each task was counted from 0, one step after another.
    pub fn is_in_order(&self) -> bool {
        !self.jumped.load(Ordering::SeqCst)
    }

    /// Whether a task was held to the limit, and no other came.
    pub fn gave_up(&self) -> bool {
        self.gave_up.load(Ordering::SeqCst)
    }

    fn note(&self, task: u32, step: u64) {
        let Some(came) = self.came.get(task as usize) else {
            self.jumped.store(true, Ordering::SeqCst);
            return;
        };
        let next = step.saturating_add(1);
        let before = came.swap(next, Ordering::SeqCst);
        if before != step && before != next {
            self.jumped.store(true, Ordering::SeqCst);
        }
    }

    fn hold(&self, hold: Hold) {
        for _ in 0..LIMIT {
            if self.steps(hold.until_task) > hold.until_step {
                return;
            }
            thread::sleep(self.rt, Duration::from_millis(1));
        }
        self.gave_up.store(true, Ordering::SeqCst);
    }
}

impl<R: Clock + Sync> Gate for Watch<'_, R> {
    fn pass(&self, task: u32, step: u64) {
        self.note(task, step);
        for hold in self.holds {
            if (hold.task, hold.step) == (task, step) {
                self.hold(*hold);
            }
        }
    }
}
