//! JSON read token by token, straight into vectors.
//!
//! For a large text of a known form, a tree of values in between costs more than the reading itself.
//! A [`Scanner`] takes the tokens of a text from its bytes, in the form that is asked for. Its contracts
//! speak of the next value of the text, as `serde_json` reads it, in the words of `specs/Ahead`.
//!
//! Nothing here tells what is wrong with a text of another form: it is [`OtherForm`](json_parts::OtherForm),
//! or a [`Miss`] where memory may run out too. [`pass_value`] and the functions beside it go through any
//! text by `json::Reader`, which is slower, and keep nothing of it.
#![tactic(auto)]

mod bytes;
mod miss;
mod numbers;
mod numerals;
mod opening;
mod passing;
mod rows;
mod scanner;

pub use miss::Miss;
pub use opening::{next_cell, open_list, open_object};
pub use passing::{MOST_DEPTH, pass_value};
pub use rows::scan_rows;
pub use scanner::Scanner;
