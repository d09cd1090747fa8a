//! Where a leg from a start can take savepoints on its way.

ghost use Rattle.std.specs.Prelude.{◌≡◌, ◌↔◌, IsTrue, MatchResult, ℕ, List, [], true, false};
ghost use Rattle.std.specs.List.{AllByRecursion};
ghost use Rattle.dataflow_model.specs.Leg.Until.{TillAsked, ToCut};
ghost use Rattle.legs.specs.declared.fault.LegFault.TheVariants.{SaveRange};
ghost use Rattle.legs.specs.Stops.{counts_of, until_in, until_of};
ghost use Rattle.stream_model.specs.Watermarks.{IsBefore, IsCut};
ghost use Rattle.redistribute.specs.Stopping.{Rises};

use crate::start::Start;
use legs::{Cut, LegFault, MOST_SAVES, Stop, Until};
use stream_model::{Input, Source};

/// Whether each of some cuts is one of these sources.
fn are_within(cuts: &[Cut], sources: &[Source]) -> bool
    ensures { IsTrue result ↔ AllByRecursion (IsCut sources.now) (counts_of cuts.now) }
{
    for cut in cuts {
        if !cut.is_within(sources) {
            return false;
        }
    }
    true
}

/// Whether each of some cuts counts no more entries of a partition than this one.
fn are_before(cuts: &[Cut], end: &Cut) -> bool
    ensures { IsTrue result ↔ AllByRecursion (λ cut. IsBefore cut end.now.counts) (counts_of cuts.now) }
{
    for cut in cuts {
        if !cut.is_before(end) {
            return false;
        }
    }
    true
}

/// Whether each of some cuts counts no fewer entries of a partition than the one before it, and the first no fewer than
/// this one.
fn rise_from(first: &Cut, cuts: &[Cut]) -> bool
    ensures { IsTrue result ↔ Rises first.now.counts (counts_of cuts.now) }
{
    let mut last = first;
    for cut in cuts {
        if !last.is_before(cut) {
            return false;
        }
        last = cut;
    }
    true
}

/// Whether none of some cuts is past where a leg goes; where it may be asked to stop, whether there are none.
fn end_before_until(cuts: &[Cut], until: &Until) -> bool
    ensures { IsTrue result ↔ ((end : List (List ℕ)) → until_in until.now ≡ ToCut end → AllByRecursion (λ cut. IsBefore cut end) (counts_of cuts.now)) × (until_in until.now ≡ TillAsked → counts_of cuts.now ≡ []) }
{
    match until {
        Until::ToEnd => true,
        Until::ToCut(end) => are_before(cuts, end),
        Until::TillAsked => cuts.is_empty(),
    }
}

/// Whether none of some cuts is past where a leg stops.
fn end_before_stop(cuts: &[Cut], stop: &Stop) -> bool
    ensures { IsTrue result ↔ ((end : List (List ℕ)) → until_of stop.now ≡ ToCut end → AllByRecursion (λ cut. IsBefore cut end) (counts_of cuts.now)) × (until_of stop.now ≡ TillAsked → counts_of cuts.now ≡ []) }
{
    match stop {
        Stop::Never => true,
        Stop::At(end) => are_before(cuts, end),
    }
}

/// Nothing, or that a leg cannot take its savepoints.
fn answer_of(can: bool) -> Result<(), LegFault>
    ensures { MatchResult result (λ _. can ≡ true) (λ fault. (fault ≡ SaveRange) × (can ≡ false)) }
{
    if can {
        Ok(())
    } else {
        Err(LegFault::SaveRange)
    }
}

impl Start {
    ghost use Rattle.std.specs.Prelude.{◌≡◌, ◌≤◌, ◌↔◌, IsTrue, MatchResult, length};
    ghost use Rattle.std.specs.List.{AllByRecursion};
    ghost use Rattle.legs.specs.declared.fault.LegFault.TheVariants.{SaveRange};
    ghost use Rattle.legs.specs.declared.limits.TheConstants as limit;
    ghost use Rattle.legs.specs.Stops.{counts_of, until_in, until_of};
    ghost use Rattle.stream_model.specs.Watermarks.{IsCut};
    ghost use Rattle.redistribute.specs.StartData.{offsets_of};
    ghost use Rattle.redistribute.specs.Stopping.{CanSaveAt, Rises};

    /// Whether cuts rise from what was read.
    fn is_before_all(&self, cuts: &[Cut]) -> bool
        ensures { IsTrue result ↔ Rises (offsets_of self.now) (counts_of cuts.now) }
    {
        match cuts {
            [] => true,
            [first, later @ ..] => self.is_before(first) && rise_from(first, later),
        }
    }

    /// Whether cuts are few and of an input, and rise from what was read.
    fn are_saves(&self, input: &Input, cuts: &[Cut]) -> bool
        ensures { IsTrue result ↔ (length (counts_of cuts.now) ≤ limit.MOST_SAVES) × AllByRecursion (IsCut input.now.sources) (counts_of cuts.now) × Rises (offsets_of self.now) (counts_of cuts.now) }
    {
        cuts.len() <= MOST_SAVES && are_within(cuts, input.sources()) && self.is_before_all(cuts)
    }

    /// Whether a leg from here over an input that stops so can take savepoints at these cuts on its way.
    ///
    /// # Errors
    ///
    /// `SaveRange`, where there are more than 1,024, or one has another shape than the input, counts fewer entries of a
    /// partition than the cut before it or than were read, or more than there are or than where the leg stops.
    pub fn check_saves(&self, input: &Input, saves: &[Cut], stop: &Stop) -> Result<(), LegFault>
        ensures { MatchResult result (λ _. CanSaveAt input.now.sources (offsets_of self.now) (counts_of saves.now) (until_of stop.now)) (λ fault. (fault ≡ SaveRange) × ¬ CanSaveAt input.now.sources (offsets_of self.now) (counts_of saves.now) (until_of stop.now)) }
    {
        answer_of(self.are_saves(input, saves) && end_before_stop(saves, stop))
    }

    /// Whether a leg from here over an input that goes so far can take savepoints at these cuts on its way.
    ///
    /// # Errors
    ///
    /// `SaveRange`, where a leg that is to go to a cut cannot take them before it stops there, or where a leg may be
    /// asked to stop and there are any.
    pub fn check_saves_until(
        &self,
        input: &Input,
        saves: &[Cut],
        until: &Until,
    ) -> Result<(), LegFault>
        ensures { MatchResult result (λ _. CanSaveAt input.now.sources (offsets_of self.now) (counts_of saves.now) (until_in until.now)) (λ fault. (fault ≡ SaveRange) × ¬ CanSaveAt input.now.sources (offsets_of self.now) (counts_of saves.now) (until_in until.now)) }
    {
        answer_of(self.are_saves(input, saves) && end_before_until(saves, until))
    }
}
