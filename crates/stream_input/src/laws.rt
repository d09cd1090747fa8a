//! A law of the definitions, the contract of a function that does nothing.

ghost use Rattle.stream_input.specs.Laws.{SaidIsInput};

/// What bytes say as an input of a plan meets what every input does, and is one of the plan.
pub fn said_is_input()
    ensures { SaidIsInput }
{}
