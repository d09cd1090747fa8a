//! Which of the steps that could be made is made.

ghost use Rattle.std.specs.Prelude.{◌≡◌, ◌==◌, ◌<◌, ◌%◌, length};

use plain_data::Items;

/// Which of the steps is made that the tasks of a leg could make: of so many steps the one at the place, from 0, that
/// is left over where its number is divided by them.
#[derive(Clone, Copy, Debug, PartialEq, Eq)]
pub struct Choice {
    pub number: u32,
}

impl Choice {
    /// The place of the step that is made, of so many.
    pub fn place(&self, steps: u64) -> u64
        requires { 0 < steps }
        ensures { result ≡ self.now.number % steps }
    {
        u64::from(self.number) % steps
    }
}

/// Whether there is a list of choices for each of so many legs.
pub fn are_choices(choices: &[Items<Choice>], legs: usize) -> bool
    ensures { result ≡ (length choices.now == legs) }
{
    choices.len() == legs
}
