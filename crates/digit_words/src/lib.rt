//! Digits that stand in one word of eight bytes, all found and all added up at once.
#![tactic(auto)]

mod words;

pub use words::{few_digits, more_digits};
