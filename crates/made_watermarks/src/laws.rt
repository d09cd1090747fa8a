//! The law of made watermarks, the contract of a function that does nothing.

ghost use Rattle.made_watermarks.specs.Laws.{WatermarkIsMade};

/// Short of its end, the watermark of a partition whose source makes its own is the greatest time among the records so
/// far, less the bound and 1: no record that follows has a time of at most that. Before the first record it is the
/// least i64.
pub fn watermark_is_made()
    ensures { WatermarkIsMade }
{}
