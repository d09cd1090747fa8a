//! A law of the definitions, the contract of a function that does nothing.

ghost use Rattle.logical_plan.specs.Laws.{SaidIsPlan};

/// What bytes say as a plan meets what every plan does.
pub fn said_is_plan()
    ensures { SaidIsPlan }
{}
