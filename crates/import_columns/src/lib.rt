//! What a column of an import is: the field that it is read from, and what is done with its text.
#![tactic(auto)]

mod column;
mod fault;
mod kind;
mod placing;
mod reading;
mod value;
mod word;

pub use column::Column;
pub use fault::ColumnFault;
pub use kind::{ColumnKind, ValueKind};
pub use placing::{place_column, zone_of};
pub use reading::column_word;
pub use value::{has_point, number_of};
pub use word::{ColumnWord, WordKind};
