//! The fields that columns ask for: one of a name, or several whose names have a joint between, and whose texts are put
//! together as one.
#![tactic(auto)]

mod asked;
mod joined;
mod joint;

pub use asked::AskedField;
pub use joined::{joined_text, push_text};
pub use joint::Joint;
