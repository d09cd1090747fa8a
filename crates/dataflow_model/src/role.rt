//! What tasks do.

/// What a task does in a job.
#[derive(Clone, Copy, Debug, PartialEq, Eq)]
pub enum Role {
    /// It reads partitions, and filters.
    Source,
    /// It filters.
    Chain,
    /// It has windows of some key groups.
    Window,
    /// It collects the rows of all windows.
    Sink,
}
