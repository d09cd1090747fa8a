//! What stands in the panes of tasks, by key group.

ghost use Rattle.std.specs.Prelude.{◌≡◌, ℕ, ◌^◌, ◌<◌, ◌≤◌, ◌++◌, length, replicate, FitsSigned, OnOk, IfOk};
ghost use Rattle.std.specs.Int.{w64};
ghost use Rattle.std.specs.List.{All, flat_map, fold};
ghost use Rattle.std.specs.List.Sorted.{IsStrictlySortedBy};
ghost use Rattle.plan_model.specs.Rows.{pane_cmp};
ghost use Rattle.savepoint_codec.specs.EntriesView.{entry_data};
ghost use Rattle.savepoint_codec.specs.Numbers.{numbers_of};
ghost use Rattle.key_groups.specs.declared.limits.TheConstants.{MOST_GROUPS};
ghost use Rattle.gather.specs.Saved.{entries_in_group, saved_group};
ghost use Rattle.gather.specs.Saved as said;
ghost use Rattle.gather.specs.Parts.{panes_in as panes_of, panes_in_group, windows_in};
ghost use Rattle.gather.specs.Buckets.{HaveWidth, IsTyped, no_entries, with_pane, with_part, groups_from};

use key_groups::{MaxParallelism, group_of};
use packed_parts::PackedParts;
use plain_data::Items;
use redistribute::TaskStart;
use savepoint_codec::{Entries, Entry, SavedGroup};
use std::alloc::{AllocError, Global};

/// A bucket for each key group, with nothing in it.
fn empty_buckets(
    alloc: Global,
    max: MaxParallelism,
    width: usize,
) -> Result<Vec<Entries>, AllocError>
    ensures says { IfOk result (λ buckets. buckets.items ≡ replicate max (no_entries width)) }
    ensures positive { 1 ≤ max }
    ensures small { max ≤ MOST_GROUPS }
{
    let mut buckets = Vec::with_capacity(alloc, max.get() as usize)?;
    for _group in 0..max.get() {
        buckets.push(Entries::new(alloc, width))?;
    }
    Ok(buckets)
}

/// What stands in a pane, put into the bucket of its key group.
fn push_entry(
    buckets: &mut [Entries],
    max: MaxParallelism,
    entry: Entry<'_>,
) -> Result<(), AllocError>
    requires groups { length buckets.old ≡ max }
    requires widths { HaveWidth (length (numbers_of entry.numbers)) buckets.old }
    ensures says { OnOk result (buckets.new ≡ with_pane max buckets.old (entry_data entry.entry)) }
    ensures widths { OnOk result ((n : ℕ) → HaveWidth n buckets.old → HaveWidth n buckets.new) }
    ensures typed { FitsSigned w64 entry.entry.pane.start × FitsSigned w64 entry.entry.pane.key }
{
    let group = group_of(entry.pane.key, max);
    buckets[group as usize].push(entry)
}

/// How many of the parts each key group has.
fn counts_of(
    alloc: Global,
    max: MaxParallelism,
    parts: &PackedParts,
) -> Result<Vec<usize>, AllocError>
    ensures { IfOk result (λ counts. length counts.items ≡ max) }
{
    let mut counts = Vec::new(alloc);
    counts.resize(max.get() as usize, 0usize)?;
    for i in 0..parts.len() {
        let group = group_of(parts.entry(i).pane.key, max) as usize;
        counts[group] = counts[group].saturating_add(1);
    }
    Ok(counts)
}

/// Makes room in each bucket for what a task has of its key group.
fn reserve(buckets: &mut [Entries], counts: &[usize]) -> Result<(), AllocError>
    requires { length counts.now ≡ length buckets.old }
    ensures { buckets.new ≡ buckets.old }
{
    for (group, count) in counts.iter().enumerate() {
        buckets[group].reserve(*count)?;
    }
    Ok(())
}

/// The panes of a task, put into the buckets of their key groups.
fn push_parts(
    alloc: Global,
    buckets: &mut [Entries],
    max: MaxParallelism,
    parts: &PackedParts,
) -> Result<(), AllocError>
    requires groups { length buckets.old ≡ max }
    requires widths { All (λ part. HaveWidth (length part.acc.kinds) buckets.old) parts.now }
    ensures says { OnOk result (buckets.new ≡ fold (with_part max) buckets.old parts.now) }
    ensures widths { OnOk result ((n : ℕ) → HaveWidth n buckets.old → HaveWidth n buckets.new) }
    ensures typed { OnOk result (All IsTyped parts.now) }
{
    let counts = counts_of(alloc, max, parts)?;
    reserve(buckets, counts.as_slice())?;
    for i in 0..parts.len() {
        push_entry(buckets, max, parts.entry(i))?;
    }
    Ok(())
}

/// The same of what a task leaves: it has panes, if it is a window's task.
fn push_panes(
    alloc: Global,
    buckets: &mut [Entries],
    max: MaxParallelism,
    part: &TaskStart,
) -> Result<(), AllocError>
    requires groups { length buckets.old ≡ max }
    requires widths { All (λ pane. HaveWidth (length pane.acc.kinds) buckets.old) (panes_of part.now) }
    ensures says { OnOk result (buckets.new ≡ fold (with_part max) buckets.old (panes_of part.now)) }
    ensures widths { OnOk result ((n : ℕ) → HaveWidth n buckets.old → HaveWidth n buckets.new) }
    ensures typed { OnOk result (All IsTyped (panes_of part.now)) }
{
    match part {
        TaskStart::Window(panes) => push_parts(alloc, buckets, max, panes),
        _ => Ok(()),
    }
}

/// The panes of all tasks, by key group.
fn all_buckets(
    alloc: Global,
    max: MaxParallelism,
    width: usize,
    parts: &[TaskStart],
) -> Result<Vec<Entries>, AllocError>
    requires { All (λ part. length part.acc.kinds ≡ width) (flat_map panes_of parts.now) }
    ensures says { IfOk result (λ buckets. buckets.items ≡ fold (with_part max) (replicate max (no_entries width)) (flat_map panes_of parts.now)) }
    ensures typed { IfOk result (λ buckets. All IsTyped (flat_map panes_of parts.now)) }
    ensures positive { 1 ≤ max }
    ensures small { max ≤ MOST_GROUPS }
{
    let mut buckets = empty_buckets(alloc, max, width)?;
    for part in parts {
        push_panes(alloc, &mut buckets, max, part)?;
    }
    Ok(buckets)
}

/// A key group put behind others, if it has entries.
fn push_group(groups: &mut Vec<SavedGroup>, group: u16, entries: Entries) -> Result<(), AllocError>
    ensures says { OnOk result (groups.new.items ≡ groups.old.items ++ saved_group entries.width group entries.entries) }
    ensures long { length entries.entries < 2 ^ 64 }
{
    if entries.len() > 0 {
        groups.push(SavedGroup { group, entries })?;
    }
    Ok(())
}

/// The buckets that have entries, each as its key group.
fn kept_groups(alloc: Global, buckets: Vec<Entries>) -> Result<Items<SavedGroup>, AllocError>
    requires { length buckets.items < 2 ^ 16 }
    ensures says { IfOk result (λ groups. groups ≡ groups_from 0 buckets.items) }
    ensures long { IfOk result (λ groups. All (λ b. length b.entries < 2 ^ 64) buckets.items) }
{
    let mut groups = Vec::new(alloc);
    let mut group = 0;
    for entries in buckets {
        push_group(&mut groups, group, entries)?;
        group += 1;
    }
    Ok(Items::from_vec(groups))
}

/// What stands in the panes of all tasks, by key group, ascending.
pub fn saved_groups(
    alloc: Global,
    max: MaxParallelism,
    width: usize,
    parts: &[TaskStart],
) -> Result<Items<SavedGroup>, AllocError>
    requires wide { All (λ part. length part.acc.kinds ≡ width) (flat_map panes_of parts.now) }
    requires ordered { (group : ℕ) → IsStrictlySortedBy pane_cmp (panes_in_group max group (flat_map panes_of parts.now)) }
    ensures says { IfOk result (λ groups. groups ≡ said.saved_groups max width (windows_in parts.now)) }
    ensures typed { IfOk result (λ groups. All IsTyped (flat_map panes_of parts.now)) }
    ensures long { IfOk result (λ groups. (group : ℕ) → group < max → length (entries_in_group max (windows_in parts.now) group) < 2 ^ 64) }
{
    let buckets = all_buckets(alloc, max, width, parts)?;
    kept_groups(alloc, buckets)
}
