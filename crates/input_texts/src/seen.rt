//! What is noted of a part of a text, of which nothing is kept.

ghost use Rattle.std.specs.Prelude.{◌≡◌, true};
ghost use Rattle.input_texts.specs.Seen.{both as of_both};

/// Which requirements a part's entries meet.
#[derive(Clone, Copy, Debug, PartialEq, Eq)]
pub struct Seen {
    pub is_wide: bool,
    pub is_whole: bool,
    pub is_sized: bool,
    pub is_timely: bool,
    pub is_kind: bool,
}

/// The same of rows, whether one of them comes too late, and their greatest time.
#[derive(Clone, Copy, Debug, PartialEq, Eq)]
pub struct RowSeen {
    pub met: Seen,
    pub is_late: bool,
    pub greatest: Option<i64>,
}

/// The same of an entry, the watermark behind it, and how many records it has.
#[derive(Clone, Copy, Debug, PartialEq, Eq)]
pub struct EntrySeen {
    pub met: Seen,
    pub is_late: bool,
    pub watermark: i64,
    pub records: u64,
}

/// The same of a partition, and the place of its first entry that has a record which comes too late.
#[derive(Clone, Copy, Debug, PartialEq, Eq)]
pub struct PartitionSeen {
    pub met: Seen,
    pub late: Option<u64>,
    pub records: u64,
}

/// The same of the partitions of a source, and how many there are. The first late entry has the place of
/// its partition before its own.
#[derive(Clone, Copy, Debug, PartialEq, Eq)]
pub struct SourceSeen {
    pub met: Seen,
    pub partitions: u64,
    pub late: Option<(u64, u64)>,
    pub records: u64,
}

/// Which members of an entry were passed: none yet, its rows, its watermark, or any others.
#[derive(Clone, Copy, Debug, PartialEq, Eq)]
pub enum Named {
    Nothing,
    Rows,
    Watermark,
    Others,
}

/// Of no part yet.
pub fn nothing() -> Seen
    ensures { result ≡ record { is_wide = true; is_whole = true; is_sized = true; is_timely = true; is_kind = true } }
{
    Seen {
        is_wide: true,
        is_whole: true,
        is_sized: true,
        is_timely: true,
        is_kind: true,
    }
}

/// Of two parts.
pub fn both(one: Seen, other: Seen) -> Seen
    ensures { result ≡ of_both one other }
{
    Seen {
        is_wide: one.is_wide & other.is_wide,
        is_whole: one.is_whole & other.is_whole,
        is_sized: one.is_sized & other.is_sized,
        is_timely: one.is_timely & other.is_timely,
        is_kind: one.is_kind & other.is_kind,
    }
}
