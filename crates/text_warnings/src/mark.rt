//! The watermarks of a partition.

ghost use Rattle.std.specs.Prelude.{◌≡◌, ◌<◌, ◌<ℤ◌, IfSome};

/// A watermark, and its offset in bytes.
#[derive(Clone, Copy)]
pub(crate) struct Mark {
    pub(crate) offset: usize,
    pub(crate) time: i64,
}

/// A watermark that is below one before it, and the greatest of those.
#[derive(Clone, Copy)]
pub(crate) struct Fall {
    pub(crate) mark: Mark,
    pub(crate) greatest: i64,
}

/// Watermarks of which none is above the first.
#[derive(Clone, Copy)]
pub(crate) struct Level {
    pub(crate) first: i64,
    pub(crate) count: u64,
}

/// The watermarks of a partition so far: how many there are, the first and the greatest of them. And that of the
/// entry in which the walk is: of two there the last counts.
#[derive(Clone, Copy)]
pub(crate) struct Marks {
    count: u64,
    first: Option<i64>,
    greatest: Option<i64>,
    entry: Option<Mark>,
}

impl Marks {
    /// Those of a partition that begins.
    pub(crate) fn new() -> Marks {
        Marks {
            count: 0,
            first: None,
            greatest: None,
            entry: None,
        }
    }

    pub(crate) fn begin_entry(&mut self) {
        self.entry = None;
    }

    pub(crate) fn see(&mut self, mark: Mark) {
        self.entry = Some(mark);
    }

    /// Ends the entry, and answers its watermark if it is below one before it.
    pub(crate) fn end_entry(&mut self) -> Option<Fall>
        ensures { IfSome result (λ fall. (self.old.entry ≡ Some fall.mark) × (self.old.greatest ≡ Some fall.greatest) × (fall.mark.time <ℤ fall.greatest)) }
    {
        let mark = self.entry.take()?;
        self.count = self.count.saturating_add(1);
        self.first = self.first.or(Some(mark.time));
        match self.greatest {
            Some(greatest) if mark.time < greatest => Some(Fall { mark, greatest }),
            _ => {
                self.greatest = Some(mark.time);
                None
            }
        }
    }
    /// The watermarks of a partition that ends, if there are two or more and none is above the first.
    pub(crate) fn level(&self) -> Option<Level>
        ensures { IfSome result (λ level. (level.count ≡ self.now.count) × (1 < level.count) × (self.now.first ≡ Some level.first) × (self.now.greatest ≡ Some level.first)) }
    {
        let count = self.count;
        let first = self.first?;
        if 1 < count && self.greatest == Some(first) {
            Some(Level { first, count })
        } else {
            None
        }
    }
}
