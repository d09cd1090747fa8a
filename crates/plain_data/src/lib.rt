//! Plain data that contracts see by what it holds: lists, texts and records.
//!
//! A `Vec` or a `String` has a capacity and an allocator, so two of them with the same elements are
//! not equal in a contract. These types are: a contract sees an [`Items`] as its list and a [`Text`]
//! as its bytes.
#![tactic(auto)]

mod items;
mod limits;
mod text;

pub use items::Items;
pub use limits::MOST_COLUMNS;
pub use text::Text;
