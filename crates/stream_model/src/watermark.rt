//! The watermark of a partition, entry by entry.

ghost use Rattle.std.specs.Prelude.{◌≡◌};
ghost use Rattle.std.specs.Int.{int_max};
ghost use Rattle.std.specs.List.{fold};
ghost use Rattle.stream_model.specs.Watermarks.{watermark_of_entry};
ghost use Rattle.plain_data.specs.Times.{lowest};

use crate::entry::Marked;

impl Marked {
    /// The watermark after the entry, from the one before it: no lower, and at least the entry's own.
    pub fn watermark_after(&self, before: i64) -> i64
        ensures { result ≡ int_max before (watermark_of_entry self.now) }
    {
        before.max(self.mark)
    }
}

/// The greatest watermark that the entries bring, or the least i64 where none brings one.
pub fn greatest_watermark(entries: &[Marked]) -> i64
    ensures { result ≡ fold (λ w e. int_max w (watermark_of_entry e)) lowest entries.now }
{
    let mut watermark = i64::MIN;
    for entry in entries {
        watermark = entry.watermark_after(watermark);
    }
    watermark
}
