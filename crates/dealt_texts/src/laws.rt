//! Laws of the definitions, each the contract of a function that does nothing.

ghost use Rattle.dealt_texts.specs.Entries.{PartsHaveTheirEntries};

/// The text of a partition of a part, of rows of the whole, is that of the whole's entries with just the part's
/// records: entries without any are left out, and no watermark is.
pub fn parts_have_their_entries()
    ensures { PartsHaveTheirEntries }
{}
