//! What holds of the steps of all worlds.

ghost use Rattle.leg_runs.specs.Laws.{StepsAreListed};

/// A law: each step that could be made in a world stands among all that its tasks may be asked for.
pub fn steps_are_listed()
    ensures { StepsAreListed }
{}
