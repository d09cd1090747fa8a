//! The command `leg`: its words, the files that they name, the receipt that it goes on by, and what it leaves: a
//! savepoint, a receipt, rows. And the command `run` where it leaves a receipt.
#![tactic(auto)]

mod fault;
mod giving;
mod one_leg;
mod since;
mod stop_file;
mod stops;
mod texts;
mod whole;
mod words;

pub use fault::LegRefusal;
pub use one_leg::leg;
pub use whole::{RunFiles, run_with_receipt};
pub use words::{LegWords, is_one_of};
