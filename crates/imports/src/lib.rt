//! The records of CSV and NDJSON files: where their fields stand, and the numbers that they give.
#![tactic(auto)]

mod fault;
mod first;
mod kinds;
mod names;
mod picking;
mod placing;
mod reader;
mod records;
mod row;
mod separator;
mod watched;

pub use fault::RowFault;
pub use first::FirstHeader;
pub use kinds::{Records, fields_of};
pub use names::read_names;
pub use picking::Pick;
pub use placing::Places;
pub use records::CsvRows;
pub use row::{RowNumbers, RowRule, fill_row};
pub use separator::Separator;
