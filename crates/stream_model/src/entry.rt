//! The entries of a partition, each with the watermark that it brings.

ghost use Rattle.std.specs.Prelude.{◌≡◌, ◌<◌, ◌-ℤ◌, pos, Some};
ghost use Rattle.plan_model.specs.PlanData.{IsBound};
ghost use Rattle.plan_model.specs.Windows.{IsTime};
ghost use Rattle.stream_model.specs.Marks.{IsEntryOf, IsMark, IsMarked, made, greatest_time, own_mark};

use columns::Batch;
use lane_kernels::greatest;
use plain_data::Items;

/// A step of a partition.
#[derive(Drop)]
pub enum Entry {
    /// Rows of the plan's columns.
    Rows(Batch),
    /// A watermark: no row that follows in the partition has a time of at most this.
    Watermark(i64),
}

/// An entry with the watermark that it brings: no row that follows it in the partition has a time of at most `mark`.
#[derive(Drop)]
pub struct Marked {
    pub entry: Entry,
    pub mark: i64,
}

/// The entries of one partition.
pub type Partition = Items<Marked>;

/// The partitions of one source.
pub type Source = Items<Partition>;

impl Marked {
    /// The entry of a source with this bound, marked. Where the source has a bound, an entry brings the greatest time
    /// of its rows, less the bound and 1; where it has none, a watermark brings itself, and rows bring the least i64.
    #[inline(always)]
    pub fn new(entry: Entry, bound: Option<i64>, columns: usize, time: usize) -> Marked
        requires time_in { time < columns }
        requires sound { IsEntryOf columns time entry }
        requires bounded { IsBound bound }
        ensures says { result.entry ≡ entry }
        ensures marked { IsMarked bound time result }
        ensures in_range { IsMark result.mark }
    {
        let mark = match bound {
            Some(bound) => entry.made_mark(bound, columns, time),
            None => entry.own_mark(columns, time),
        };
        Marked { entry, mark }
    }
}

impl Entry {
    /// The watermark that a source with this bound makes of the entry.
    #[inline(never)]
    fn made_mark(&self, bound: i64, columns: usize, time: usize) -> i64
        requires time_in { time < columns }
        requires sound { IsEntryOf columns time self.now }
        requires bounded { IsBound (Some bound) }
        ensures says { result ≡ made bound (greatest_time time self.now) }
        ensures in_range { IsMark result }
    {
        match self {
            Entry::Rows(batch) => match greatest(batch.column(time)) {
                Some(time) => behind(bound, time),
                None => i64::MIN,
            },
            Entry::Watermark(_) => i64::MIN,
        }
    }

    /// The watermark that stands in the partition: rows have none.
    #[inline(always)]
    fn own_mark(&self, columns: usize, time: usize) -> i64
        requires sound { IsEntryOf columns time self.now }
        ensures says { result ≡ own_mark self.now }
        ensures in_range { IsMark result }
    {
        match self {
            Entry::Rows(_) => i64::MIN,
            Entry::Watermark(time) => *time,
        }
    }
}

/// The watermark behind the greatest time so far: no later record may be at or below it.
fn behind(bound: i64, time: i64) -> i64
    requires bounded { IsBound (Some bound) }
    requires in_time { IsTime time }
    ensures says { result ≡ time -ℤ bound -ℤ pos 1 }
    ensures in_range { IsMark result }
{
    time - bound - 1
}
