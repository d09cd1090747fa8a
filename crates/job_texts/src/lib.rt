//! The texts of a job: of its rows, its layout, a savepoint and a key's group, its faults, what the words of a cut, of
//! `group` and of a key group spell, and the bytes of a reader, from which a text is read.
#![tactic(auto)]

mod cut;
mod fault;
mod group;
pub mod laws;
mod layout_text;
mod line;
mod narrow;
mod number;
mod readers;
mod show_text;
mod text;
mod writing;

pub use cut::{read_cut, read_cuts};
pub use fault::JobFault;
pub use group::{job_group, read_count, read_group, read_key};
pub use layout_text::text_of_layout;
pub use line::{fault_line, status_of};
pub use narrow::put_number;
pub use readers::{MOST_BYTES, read_all};
pub use row_lines::{push_decimal, push_spaced, sort_rows};
pub use show_text::{text_of_entries, text_of_savepoint};
pub use text::text_of_rows;
pub use writing::write_text;
