//! A step of a leg.

ghost use Rattle.std.specs.Prelude.{◌≡◌};
ghost use Rattle.dataflow_laws.specs.StepTask.{task_of};

/// A step of a leg: the task that makes it, and which of its own steps it is.
#[derive(Clone, Copy, Debug, PartialEq, Eq)]
pub enum Step {
    /// The source opens.
    Open(u32),
    /// The source reads the next entry of this partition, by its number in the source.
    Read(u32, u32),
    /// The source keeps itself for a savepoint, and goes on.
    Save(u32),
    /// The source stops at the leg's cut.
    Stop(u32),
    /// The source closes.
    Close(u32),
    /// The task takes the oldest message of this input's ring.
    Take(u32, u32),
    /// The task puts its first pending message on the ring that it is for.
    Put(u32),
}

impl Step {
    /// The task that makes the step, by its number in the layout.
    pub fn task(&self) -> u32
        ensures { result ≡ task_of self.now }
    {
        match self {
            Step::Open(task)
            | Step::Read(task, _)
            | Step::Save(task)
            | Step::Stop(task)
            | Step::Close(task)
            | Step::Take(task, _)
            | Step::Put(task) => *task,
        }
    }
}
