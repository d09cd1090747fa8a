//! A law of the definitions, the contract of a function that does nothing.

ghost use Rattle.cut_texts.specs.Laws.{SpelledIsSaid};

/// A cut that is spelled is the one that its word says.
pub fn spelled_is_said()
    ensures { SpelledIsSaid }
{}
