//! Laws of the definitions, each the contract of a function that does nothing.

ghost use Rattle.core_steps.specs.Laws.{AskedLegsEnd, EachLegIsSound, TasksBeginNew, WorldHasEnded};

/// A plan with its compiled layout, an input that was read by it, a start of the input, savepoints that can be taken on
/// the way from there and a stop that the start allows are sound: the layout wires every ring, the tasks open, and the
/// input is admitted.
pub fn each_leg_is_sound()
    ensures { EachLegIsSound }
{}

/// Tasks that begin a leg of a sound layout are new ones: they stand for its tasks, and have done nothing.
pub fn tasks_begin_new()
    ensures { TasksBeginNew }
{}

/// A world whose tasks are all done is a leg that has ended: a complete history leads to where they stand.
pub fn world_has_ended()
    ensures { WorldHasEnded }
{}

/// A leg that may be asked to stop ends with all rows that become due, or stops at a cut with just the rows that become
/// due up to there, and its savepoint.
pub fn asked_legs_end()
    ensures { AskedLegsEnd }
{}
