//! An import: each record of CSV and NDJSON files goes to one place. Those that are rows go into the JSON text of an
//! input, in one pass, with no more than one entry's rows in memory.
#![tactic(auto)]

mod account;
mod comparisons;
mod copying;
mod files;
mod firsts;
pub mod laws;
mod ledger;
mod outcome;
mod partition;
mod refusals;
mod row;
mod row_texts;
mod taking;

pub use files::{ImportRule, OnceRule, import_files, import_partition};
pub use known_records::KnownRecords;
pub use ledger::{Ledger, LedgerWants, Places};
