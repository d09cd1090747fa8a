ghost use Rattle.key_groups.specs.Laws.{OwnersHaveRanges, RangesFollow};

/// A subtask owns a key group exactly where its range has the group, and the ranges of the subtasks, in
/// order, follow one another from group 0 to the last.
pub fn owners_and_ranges()
    ensures owners { OwnersHaveRanges }
    ensures ranges { RangesFollow }
{}
