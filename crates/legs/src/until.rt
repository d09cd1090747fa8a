//! How far a leg goes.

use crate::cut::Cut;
use crate::stop::Stop;

/// How far a leg goes.
#[derive(Debug, Drop)]
pub enum Until {
    /// To the end of its input.
    ToEnd,
    /// To a cut, where it stops with a savepoint.
    ToCut(Cut),
    /// To the end of its input, or to where it has come when it is asked to stop: there it stops with a savepoint.
    TillAsked,
}

impl From<Stop> for Until {
    ghost use Rattle.std.specs.Prelude.{◌≡◌};
    ghost use Rattle.legs.specs.Stops.{until_of, until_in};

    ghost from_gives = { λ stop until. until_in until ≡ until_of stop };

    fn from(stop: Stop) -> Until {
        match stop {
            Stop::Never => Until::ToEnd,
            Stop::At(cut) => Until::ToCut(cut),
        }
    }
}
