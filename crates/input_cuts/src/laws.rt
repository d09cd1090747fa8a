//! Laws of the definitions, each the contract of a function that does nothing.

ghost use Rattle.input_cuts.specs.Laws.{FirstCutIsFirst, FirstCutIsDue};

/// The first cut for a watermark is one with at least that watermark, and no cut with such a watermark is behind it in
/// any place.
pub fn first_cut_is_first()
    ensures { FirstCutIsFirst }
{}

/// At the first cut for the time before an end each window that ends by then is due.
pub fn first_cut_is_due()
    ensures { FirstCutIsDue }
{}
