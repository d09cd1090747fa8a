//! To which part a row goes.

ghost use Rattle.std.specs.Prelude.{◌≡◌, ◌≤◌, ◌∷◌};
ghost use Rattle.key_groups.specs.declared.limits.TheConstants.{MOST_GROUPS, MOST_SUBTASKS};
ghost use Rattle.plain_data.specs.Record.{at};

use key_groups::{MaxParallelism, Parallelism, group_of, owner_of};

/// How the rows of an input are dealt out to its parts: each to that at whose place an operator's subtask owns the
/// group of its key.
#[derive(Clone, Copy, Debug, PartialEq, Eq)]
pub struct Dealing {
    /// The key groups.
    max: u32,
    parts: u32,
    /// Which number of a row is its key.
    key: usize,
    pub ghost some: { (1 ≤ parts) × (parts ≤ MOST_SUBTASKS) },
    pub ghost fits: { (parts ≤ max) × (max ≤ MOST_GROUPS) },
}

fn groups_of(max: u32) -> MaxParallelism
    requires { (1 ≤ max) × (max ≤ MOST_GROUPS) }
    ensures { result ≡ max }
{
    MaxParallelism::new(max).unwrap()
}

fn subtasks_of(parts: u32, max: MaxParallelism) -> Parallelism
    requires some { (1 ≤ parts) × (parts ≤ MOST_SUBTASKS) }
    requires fits { parts ≤ max }
    ensures { result ≡ parts }
{
    Parallelism::new(parts, max).unwrap()
}

/// The number of a row at a place, of its first number and the others, or 0 where it has none there.
fn number_at(place: usize, first: i64, others: &[i64]) -> i64
    ensures { result ≡ at place (first ∷ others.now) }
{
    if place == 0 {
        return first;
    }
    match others.get(place - 1) {
        Some(number) => *number,
        None => 0,
    }
}

impl Dealing {
    ghost use Rattle.std.specs.Prelude.{◌≡◌, ◌<◌, MatchOption};
    ghost use Rattle.dealt_texts.specs.Dealing.{owner_of};

    /// To so many parts by the key groups of a plan and the column of its keys, or `None` where there are more parts
    /// than groups.
    pub fn new(max: MaxParallelism, parts: Parallelism, key: usize) -> Option<Dealing>
        ensures { MatchOption result (max < parts) (λ dealing. (dealing.max ≡ max) × (dealing.parts ≡ parts) × (dealing.key ≡ key)) }
    {
        let (max, parts) = (max.get(), parts.get());
        if parts > max {
            return None;
        }
        Some(Dealing { max, parts, key })
    }

    /// How many parts there are.
    pub fn parts(self) -> usize
        ensures { result ≡ self.parts }
    {
        self.parts as usize
    }

    /// The place of the part that a row goes to, of its first number and the others.
    pub(crate) fn owner(self, first: i64, others: &[i64]) -> usize
        ensures value { result ≡ owner_of self first others.now }
        ensures below { result < self.parts }
    {
        let max = groups_of(self.max);
        let group = group_of(number_at(self.key, first, others), max);
        owner_of(max, subtasks_of(self.parts, max), group) as usize
    }
}
