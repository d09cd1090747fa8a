//! A law of the definitions, the contract of a function that does nothing.

ghost use Rattle.job_texts.specs.Text.{TextIsDetermined};

/// The rows of a plan in the order of start and key, and so their text, are determined.
pub fn text_is_determined()
    ensures { TextIsDetermined }
{}
