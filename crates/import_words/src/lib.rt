//! What the words of an import say: its columns, and the files of each source; and what an import is refused with.
#![tactic(auto)]

mod files;
mod refusal;
mod words;

pub use files::names_path;
pub use refusal::{ImportCode, ImportFault, refused, status_of};
pub use words::{check_columns, check_sources, files_of, read_columns};
