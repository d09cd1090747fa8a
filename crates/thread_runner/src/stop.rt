//! Where a leg on threads stops.

use legs::{Cut, Until};
use std::sync::Arc;
use std::sync::atomic::AtomicBool;

/// Where a leg on threads stops.
#[derive(Drop)]
pub enum Stop {
    /// Nowhere: it goes on to the end of its input.
    Never,
    /// At a cut, with a savepoint.
    At(Cut),
    /// Where it has come once this word is set, with a savepoint. A leg that comes to the end of its input before it
    /// sees the word goes on to the end.
    Asked(Arc<AtomicBool>),
}

impl From<legs::Stop> for Stop {
    ghost use Rattle.std.specs.Prelude.{◌≡◌};
    ghost use Rattle.legs.specs.Stops as legs_stops;
    ghost use Rattle.thread_runner.specs.Stops.{until_of};

    ghost from_gives = { λ stop here. until_of here ≡ legs_stops.until_of stop };

    fn from(stop: legs::Stop) -> Stop {
        match stop {
            legs::Stop::Never => Stop::Never,
            legs::Stop::At(cut) => Stop::At(cut),
        }
    }
}

impl Stop {
    ghost use Rattle.std.specs.Prelude.{◌≡◌};
    ghost use Rattle.legs.specs.Stops.{until_in};
    ghost use Rattle.thread_runner.specs.Stops.{until_of};

    /// How far a leg goes that stops so, and the word that asks it to stop, if there is one.
    pub(crate) fn into_parts(self) -> (Until, Option<Arc<AtomicBool>>)
        ensures { until_in result.0 ≡ until_of self }
    {
        match self {
            Stop::Never => (Until::ToEnd, None),
            Stop::At(cut) => (Until::ToCut(cut), None),
            Stop::Asked(word) => (Until::TillAsked, Some(word)),
        }
    }
}
