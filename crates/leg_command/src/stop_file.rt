//! A file that asks a leg to stop.

ghost use Rattle.std.specs.Prelude.{◌≡◌, ◌⊎◌, IfErr};

use command_files::read_fault;
use job::Gate;
use job_texts::JobFault;
use std::alloc::AllocError;
use std::fs;
use std::rt::Files;
use std::sync::Arc;
use std::sync::atomic::{AtomicBool, AtomicU64, Ordering};
use std::time::Clock;

/// How many milliseconds lie between two looks, at least.
const BETWEEN_LOOKS: u64 = 100;

/// The clock's time in milliseconds, if it has one.
fn milliseconds<R: Clock>(rt: &R) -> Option<u64> {
    let time = rt.monotonic().ok()?;
    u64::try_from(time.as_millis()).ok()
}

/// A file that asks a leg to stop once it is there. As the gate of the leg's workers it is looked for between their
/// steps, at most ten times a second by all of them together. A look that fails finds nothing.
#[derive(Drop)]
pub struct StopFile<'r, 'p, R> {
    rt: &'r R,
    path: &'p str,
    asked: Arc<AtomicBool>,
    /// When it was looked for last, in milliseconds.
    looked: AtomicU64,
}

impl<'r, 'p, R: Files + Clock + AllocGlobal> StopFile<'r, 'p, R> {
    /// The file at a path, which is looked for at once.
    ///
    /// # Errors
    ///
    /// `Read` where it cannot be told whether it is there; `Memory`.
    pub fn new(rt: &'r R, path: &'p str) -> Result<StopFile<'r, 'p, R>, JobFault>
        ensures { IfErr result (λ fault. (fault ≡ JobFault.Read) ⊎ (fault ≡ JobFault.Memory)) }
    {
        let is_there = match fs::exists(rt, path) {
            Ok(is_there) => is_there,
            Err(error) => return Err(read_fault(&error)),
        };
        let asked = Arc::new(rt.alloc(), AtomicBool::new(is_there))?;
        let looked = AtomicU64::new(milliseconds(rt).unwrap_or(0));
        Ok(StopFile {
            rt,
            path,
            asked,
            looked,
        })
    }

    /// The word that is set once the file was there.
    ///
    /// # Errors
    ///
    /// Only where memory runs out.
    pub fn word(&self) -> Result<Arc<AtomicBool>, AllocError> {
        Arc::try_clone(&self.asked)
    }
}

impl<R: Files + Clock + Sync> Gate for StopFile<'_, '_, R> {
    fn pass(&self, _task: u32, _step: u64) {
        if self.is_due() && fs::exists(self.rt, self.path).unwrap_or(false) {
            self.asked.store(true, Ordering::SeqCst);
        }
    }
}

impl<R: Files + Clock> StopFile<'_, '_, R> {
    /// Whether the worker that asks is to look for the file now: no other does till the next look.
    fn is_due(&self) -> bool {
        let looked = self.looked.load(Ordering::SeqCst);
        match milliseconds(self.rt) {
            Some(now) => now.saturating_sub(looked) >= BETWEEN_LOOKS && self.takes(looked, now),
            None => true,
        }
    }

    /// Whether the worker is the first that sets when the file was looked for last.
    fn takes(&self, looked: u64, now: u64) -> bool {
        self.looked
            .compare_exchange(looked, now, Ordering::SeqCst, Ordering::SeqCst)
            .is_ok()
    }
}
