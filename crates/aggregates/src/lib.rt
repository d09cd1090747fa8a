//! What the records of a window and a key come to, in a value of fixed size.
#![tactic(auto)]

mod acc;
mod kind;
mod numbers;

pub use acc::Acc;
pub use kind::Kind;
pub use numbers::number_of_one;
