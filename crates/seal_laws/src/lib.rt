//! What a leg that has ended has sealed: a law of complete histories, the contract of a function that does nothing.
#![tactic(auto)]

ghost use Rattle.seal_laws.specs.Ended.{EndedHavePassed};

/// Once all tasks of a leg are done, each has passed the barriers of all savepoints on its way.
pub fn ended_have_passed()
    ensures { EndedHavePassed }
{}
