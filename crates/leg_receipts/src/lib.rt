//! Receipts of legs, from bytes: whether a leg can go on by the receipt of the one before, and the receipt that it
//! leaves itself.
#![tactic(auto)]

mod cuts;
mod making;
mod since;

pub use making::{Told, leg_receipt};
pub use since::check_since;
