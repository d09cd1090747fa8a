//! The commands on texts of rows: their words, the files that they name, and what they are refused with.
#![tactic(auto)]

mod comparing;
mod exporting;
mod files;
mod merging;
mod refusal;

pub use comparing::{DiffWords, diff};
pub use exporting::{ExportWords, RowsForm, export};
pub use merging::{MergeWords, merge};
pub use refusal::{RowsCode, RowsRefusal, refused, status_of};
