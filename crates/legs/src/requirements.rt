//! What a list of legs must meet.

ghost use Rattle.std.specs.Prelude.{◌≡◌, ◌&&◌, nat_le, length};
ghost use Rattle.std.specs.List.{list_all};
ghost use Rattle.legs.specs.Requirements as required;

use crate::leg::LegSpec;
use crate::limits::MOST_LEGS;
use crate::stop::Stop;

fn is_stop(leg: &LegSpec) -> bool
    ensures { result ≡ required.is_stop leg.now }
{
    matches!(leg.stop, Stop::At(_))
}

fn are_stops(legs: &[LegSpec]) -> bool
    ensures { result ≡ list_all required.is_stop legs.now }
{
    legs.iter().all(|leg| is_stop(leg))
}

/// Whether there are 1 to 1,024 legs, and each before the last stops.
#[tactic(auto, unfolding(crate::specs::Requirements::are_legs))]
pub fn are_legs(legs: &[LegSpec]) -> bool
    ensures { result ≡ required.are_legs legs.now }
{
    match legs {
        [] => false,
        [earlier @ .., _] => legs.len() <= MOST_LEGS && are_stops(earlier),
    }
}
