//! Why a step is not made.

use thiserror::Error;

/// Why a step was not made.
#[derive(Clone, Copy, Debug, PartialEq, Eq, Error)]
pub enum StepFault {
    /// The task has no such step now. Nothing has changed.
    #[error("X1 NotEnabled")]
    NotEnabled,
    /// No memory was to be had. Every later step answers `Failed`.
    #[error("X2 Memory")]
    Memory,
    /// An earlier step found no memory.
    #[error("X3 Failed")]
    Failed,
}
