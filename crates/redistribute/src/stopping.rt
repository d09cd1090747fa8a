//! How far a leg from a start can go.

ghost use Rattle.std.specs.Prelude.{◌≤◌, ◌↔◌, IsTrue, map};
ghost use Rattle.std.specs.List.{AllZip};

use crate::start::Start;
use legs::{Cut, LegFault, Stop, Until};
use savepoint_codec::SavedPartition;
use stream_model::Input;

/// Whether there is a count for each partition of a source, none below the entries that were read.
fn are_reached(partitions: &[SavedPartition], counts: &[u64]) -> bool
    ensures { IsTrue result ↔ AllZip (λ m n. m ≤ n) (map (λ p. p.offset) partitions.now) counts.now }
{
    partitions.len() == counts.len()
        && partitions
            .iter()
            .zip(counts)
            .all(|(partition, count)| partition.offset <= *count)
}

impl Start {
    ghost use Rattle.std.specs.Prelude.{◌≡◌, ◌↔◌, IsTrue, MatchResult};
    ghost use Rattle.legs.specs.declared.fault.LegFault.TheVariants.{StopRange};
    ghost use Rattle.legs.specs.Stops.{until_in};
    ghost use Rattle.stream_model.specs.Watermarks.{IsBefore, IsCut};
    ghost use Rattle.redistribute.specs.StartData.{offsets_of};
    ghost use Rattle.redistribute.specs.Stopping.{CanGo, CanStop};

    /// Whether a cut has a count for each partition and for no other, none below the entries that were read.
    pub fn is_before(&self, cut: &Cut) -> bool
        ensures { IsTrue result ↔ IsBefore (offsets_of self.now) cut.now.counts }
    {
        let sources = self.sources();
        let cut = cut.counts.as_slice();
        sources.len() == cut.len()
            && sources.iter().zip(cut).all(|(partitions, counts)| are_reached(
                partitions.as_slice(),
                counts.as_slice(),
            ))
    }

    /// Whether a leg from here over an input can go to a cut.
    fn check_cut(&self, input: &Input, cut: &Cut) -> Result<(), LegFault>
        ensures { MatchResult result (λ _. IsCut input.now.sources cut.now.counts × IsBefore (offsets_of self.now) cut.now.counts) (λ fault. (fault ≡ StopRange) × ¬ (IsCut input.now.sources cut.now.counts × IsBefore (offsets_of self.now) cut.now.counts)) }
    {
        if cut.is_within(input.sources()) && self.is_before(cut) {
            Ok(())
        } else {
            Err(LegFault::StopRange)
        }
    }

    /// Whether a leg from here over an input can stop so.
    ///
    /// # Errors
    ///
    /// `StopRange`, where the cut has another shape than the input, counts fewer entries of a partition than were read,
    /// or more than there are.
    pub fn check_stop(&self, input: &Input, stop: &Stop) -> Result<(), LegFault>
        ensures { MatchResult result (λ _. CanStop input.now.sources (offsets_of self.now) stop.now) (λ fault. (fault ≡ StopRange) × ¬ CanStop input.now.sources (offsets_of self.now) stop.now) }
    {
        match stop {
            Stop::Never => Ok(()),
            Stop::At(cut) => self.check_cut(input, cut),
        }
    }

    /// Whether a leg from here over an input can go so far.
    ///
    /// # Errors
    ///
    /// `StopRange`, where it is to go to a cut that no leg from here can stop at.
    pub fn check_until(&self, input: &Input, until: &Until) -> Result<(), LegFault>
        ensures { MatchResult result (λ _. CanGo input.now.sources (offsets_of self.now) (until_in until.now)) (λ fault. (fault ≡ StopRange) × ¬ CanGo input.now.sources (offsets_of self.now) (until_in until.now)) }
    {
        match until {
            Until::ToEnd | Until::TillAsked => Ok(()),
            Until::ToCut(cut) => self.check_cut(input, cut),
        }
    }
}
