//! What stands in a pane, in as few words as the aggregates of its window operator need.
#![tactic(auto)]

mod words;

pub use words::{
    PlacedRow, add_record, add_rows, copy_narrow, copy_numbers, row_numbers_at, stride_of,
    write_entry, write_first,
};
