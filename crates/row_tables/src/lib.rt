//! Rows as a table: what each of their numbers is shown as, by the columns that they were imported from.
#![tactic(auto)]

mod cell;
mod date;
mod decimal;
mod fault;
mod kind;
mod time;

pub use cell::{put_decimal, write_cell};
pub use fault::CellFault;
pub use kind::{CellKind, DatePart, kind_of_aggregate, kind_of_column};
