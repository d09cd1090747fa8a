//! Fields of a layout of bytes: numbers with their highest byte first, and lists with their count before them.
//!
//! A layout is a value of `specs/Format`, put together from fields by a few combinators. Each combinator
//! is proved once to be exact: what is read is spelled so, and what is spelled so is read. So a layout has
//! one spelling for each value, and none is a proper prefix of another, with no proof of its own. The
//! readers and writers here are those of the fields, and a layout's own are made of them.
#![tactic(auto)]

mod fault;
mod reading;
mod writing;

pub use fault::{FieldFault, ReadFault};
pub use reading::{
    read_bytes, read_few, read_i64, read_i128, read_mark, read_u8, read_u16, read_u64,
};
pub use writing::{put_bytes, put_i64, put_i128, put_u8, put_u16, put_u64};
