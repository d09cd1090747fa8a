ghost use Rattle.std.specs.Prelude.{◌<◌, ◌≡◌, ◌≤◌, ◌*◌, ◌/◌, ◌^◌, map};
ghost use Rattle.std.specs.List.{All};
ghost use Rattle.key_groups.specs.Ranges.{group_owner, group_range};
ghost use Rattle.key_groups.specs.declared.limits.TheConstants.{MOST_GROUPS, MOST_SUBTASKS};

use crate::limits::{MaxParallelism, Parallelism};

/// The key groups from `first` to `last`, both of them included.
#[derive(Clone, Copy, Debug, PartialEq, Eq)]
pub struct GroupRange {
    pub first: u32,
    pub last: u32,
}

/// The key groups of subtask `i`, counted from 0: Flink's
/// `KeyGroupRangeAssignment.computeKeyGroupRangeForOperatorIndex`.
///
/// The subtask is one of the operator's, which has no more of them than there are key groups.
pub fn range_of(max: MaxParallelism, par: Parallelism, i: u32) -> GroupRange
    requires subtask { i < par }
    requires fits { par ≤ max }
    ensures { result ≡ group_range max par i }
{
    let max = max.get();
    let par = par.get();
    GroupRange {
        first: (i * max + par - 1) / par,
        last: ((i + 1) * max - 1) / par,
    }
}

/// The subtask, counted from 0, that owns a key group: Flink's
/// `KeyGroupRangeAssignment.computeOperatorIndexForKeyGroup`.
///
/// The group is below the number of key groups, and the operator has no more subtasks than that.
pub fn owner_of(max: MaxParallelism, par: Parallelism, group: u32) -> u32
    requires group { group < max }
    requires fits { par ≤ max }
    ensures owner { result ≡ group_owner max par group }
    ensures below { result < par }
{
    group * par.get() / max.get()
}

fn owners_by_shift(groups: &mut [u32], par: u32, bits: u32)
    requires few { par ≤ MOST_SUBTASKS }
    requires bits { bits ≤ 15 }
    requires groups { All (λ group. group < 2 ^ bits) groups.old }
    ensures { groups.new ≡ map (λ group. group * par / 2 ^ bits) groups.old }
{
    for group in groups.iter_mut() {
        *group = *group * par >> bits;
    }
}

fn owners_by_division(groups: &mut [u32], par: u32, max: u32)
    requires few { par ≤ MOST_SUBTASKS }
    requires small { max ≤ MOST_GROUPS }
    requires groups { All (λ group. group < max) groups.old }
    ensures { groups.new ≡ map (λ group. group * par / max) groups.old }
{
    for group in groups.iter_mut() {
        *group = *group * par / max;
    }
}

/// Puts in place of each key group the subtask that owns it, as [`owner_of`] gives it.
///
/// The groups are below the number of key groups, and the operator has no more subtasks than that.
pub fn owners_into(max: MaxParallelism, par: Parallelism, groups: &mut [u32])
    requires groups { All (λ group. group < max) groups.old }
    requires fits { par ≤ max }
    ensures owners { groups.new ≡ map (group_owner max par) groups.old }
    ensures below { All (λ owner. owner < par) groups.new }
{
    match max.whole_bits() {
        Some(bits) => owners_by_shift(groups, par.get(), bits),
        None => owners_by_division(groups, par.get(), max.get()),
    }
}
