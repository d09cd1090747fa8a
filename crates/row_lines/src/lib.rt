//! The texts of numbers and of rows, and rows in the order of their text; and such a text read line by line: of each
//! line the row, or that it is none.
#![tactic(auto)]

mod front;
mod lines;
mod number;
mod order;
mod place;
mod row;
mod rows;
mod sorting;
mod text;

pub use lines::LONGEST_LINE;
pub use number::number_of;
pub use order::admit;
pub use place::RowPlace;
pub use row::read_row;
pub use rows::{RowLines, RowsFault};
pub use sorting::sort_rows;
pub use text::{push_decimal, push_head, push_line, push_spaced};
