//! Laws of the definitions, each the contract of a function that does nothing.

ghost use Rattle.leg_tasks.specs.Saved.{SavedAtIsOne, TasksSaveTheCut};

use gather::laws::same_panes_same_savepoint;

/// Tasks that have come to a cut of the input, with the cut's snapshot in their windows and the watermarks there, leave
/// the savepoint of that cut, at whatever scale they run.
pub fn tasks_save_the_cut()
    ensures { TasksSaveTheCut }
{}

/// What is saved at a cut of an input, under a number, is one savepoint, whatever saved it: legs in one thread and on
/// threads, at any scale and in any order of steps.
pub fn saved_at_is_one()
    ensures { SavedAtIsOne }
{
    let _same = same_panes_same_savepoint();
}
