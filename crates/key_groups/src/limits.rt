ghost use Rattle.std.specs.Prelude.{SomeIff, IfSome, ◌≡◌, ◌≤◌, ◌^◌};

use std::marker::Model;

/// The most key groups.
pub const MOST_GROUPS: u32 = 32768;

// As many bits as tell the most key groups apart.
const MOST_BITS: u32 = 15;

/// The most subtasks of an operator.
pub const MOST_SUBTASKS: u32 = 64;

/// The number of key groups, which is the greatest parallelism that a job can have: 1 to 32768.
#[derive(Clone, Copy, Debug, PartialEq, Eq)]
pub struct MaxParallelism {
    groups: u32,
}

impl Model for MaxParallelism {
    ghost use Rattle.std.specs.Prelude.{ℕ, ◌≤◌};
    ghost use Rattle.key_groups.specs.declared.limits.TheConstants.{MOST_GROUPS};

    ghost Value = { ℕ };

    ghost view = { λ max. max.groups };

    ghost invariant = { λ max. (1 ≤ max.groups) × (max.groups ≤ MOST_GROUPS) };

    ghost inverse = { λ n. record { groups = n } };
}

impl MaxParallelism {
    /// So many key groups, or `None` unless there are 1 to 32768.
    pub fn new(groups: u32) -> Option<MaxParallelism>
        ensures { SomeIff result ((1 ≤ groups) × (groups ≤ MOST_GROUPS)) groups }
    {
        if groups < 1 || groups > MOST_GROUPS {
            return None;
        }
        Some(MaxParallelism { groups })
    }

    /// The number of key groups.
    pub fn get(self) -> u32
        ensures says { result ≡ self }
        ensures positive { 1 ≤ self }
        ensures small { self ≤ MOST_GROUPS }
    {
        self.groups
    }

    // The number k of bits where the key groups are 2 to the k, and else none.
    pub(crate) fn whole_bits(self) -> Option<u32>
        ensures small { IfSome result (λ bits. bits ≤ 15) }
        ensures power { IfSome result (λ bits. 2 ^ bits ≡ self) }
    {
        let bits = self.groups.trailing_zeros().min(MOST_BITS);
        if 1 << bits != self.groups {
            return None;
        }
        Some(bits)
    }
}

/// How many subtasks an operator has: 1 to 64, and at most the number of key groups.
#[derive(Clone, Copy, Debug, PartialEq, Eq)]
pub struct Parallelism {
    subtasks: u32,
}

impl Model for Parallelism {
    ghost use Rattle.std.specs.Prelude.{ℕ, ◌≤◌};
    ghost use Rattle.key_groups.specs.declared.limits.TheConstants.{MOST_SUBTASKS};

    ghost Value = { ℕ };

    ghost view = { λ par. par.subtasks };

    ghost invariant = { λ par. (1 ≤ par.subtasks) × (par.subtasks ≤ MOST_SUBTASKS) };

    ghost inverse = { λ n. record { subtasks = n } };
}

impl Parallelism {
    /// So many subtasks, or `None` unless there are 1 to the lesser of 64 and the key groups.
    pub fn new(subtasks: u32, max: MaxParallelism) -> Option<Parallelism>
        ensures { SomeIff result ((1 ≤ subtasks) × (subtasks ≤ MOST_SUBTASKS) × (subtasks ≤ max)) subtasks }
    {
        if subtasks < 1 || subtasks > max.get().min(MOST_SUBTASKS) {
            return None;
        }
        Some(Parallelism { subtasks })
    }

    /// The number of subtasks.
    pub fn get(self) -> u32
        ensures says { result ≡ self }
        ensures positive { 1 ≤ self }
        ensures small { self ≤ MOST_SUBTASKS }
    {
        self.subtasks
    }
}
