//! Rows written as CSV or as JSON objects, by what each of their numbers is shown as.
#![tactic(auto)]

mod cells;
mod fault;
mod fields;
mod header;
mod objects;
mod record;
mod table;
mod values;
mod writing;

pub use fault::ExportFault;
pub use objects::write_objects;
pub use table::Table;
pub use writing::write_table;
