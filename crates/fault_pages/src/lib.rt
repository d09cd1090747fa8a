//! The page of each fault, which `streamjob explain` prints.
#![tactic(auto)]

mod import_pages;
mod other_pages;
mod page;
mod savepoint_pages;
mod text_pages;

pub use page::{FaultPage, explain};
