//! Receipts: what a leg read, as digests that a later leg can compare, so that a record that was changed before the cut
//! is found.
#![tactic(auto)]

mod checking;
mod comparing;
mod counting;
mod digests;
mod fault;
pub mod laws;
mod lines;
mod making;
mod parts;
mod reading;
mod receipt;
mod writing;

pub use checking::check_receipt;
pub use comparing::{check_entries, check_names, check_plan, counted_bytes};
pub use digests::{Counted, Digest, read_before};
pub use fault::{ReceiptFault, status_of};
pub use making::receipt_of;
pub use reading::read_receipt;
pub use receipt::Receipt;
pub use writing::text_of_receipt;
