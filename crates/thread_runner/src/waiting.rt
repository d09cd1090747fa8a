//! How a worker waits for its rings.

use std::time::{Clock, Duration};
use std::{hint, thread};

const SPINS: u32 = 4;

const YIELDS: u32 = 8;

const LONGEST: u32 = 12;

/// How long a worker has waited that found nothing to do. It spins, then leaves the processor to others, and then
/// sleeps: for a microsecond, and each time twice as long, up to 4 milliseconds.
#[derive(Clone, Copy, Debug)]
pub(crate) struct Patience {
    rounds: u32,
}

impl Patience {
    pub fn new() -> Patience {
        Patience { rounds: 0 }
    }

    /// There was something to do.
    pub fn renew(&mut self) {
        self.rounds = 0;
    }

    /// Waits a little.
    pub fn wait<R: Clock>(&mut self, rt: &R) {
        let rounds = self.rounds;
        self.rounds = rounds.saturating_add(1);
        if rounds < SPINS {
            hint::spin_loop();
        } else if rounds < SPINS + YIELDS {
            thread::yield_now();
        } else {
            let longer = (rounds - SPINS - YIELDS).min(LONGEST);
            thread::sleep(rt, Duration::from_micros(1u64 << longer));
        }
    }
}
