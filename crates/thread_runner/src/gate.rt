//! What a worker passes before each step.

/// What may hold a worker up, as a test does: it is called before each step.
pub trait Gate: Sync {
    /// Lets a task's step of this number, counted from 0, pass. An attempt that takes or puts nothing uses up no
    /// number, so the same one may come again; after the greatest number it stays there.
    fn pass(&self, task: u32, step: u64);
}

/// Lets every step pass at once.
#[derive(Clone, Copy, Debug, Default)]
pub struct OpenGate;

impl Gate for OpenGate {
    fn pass(&self, _task: u32, _step: u64) {}
}
