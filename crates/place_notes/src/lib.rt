//! What is told of the places of a text that is refused, and what its values, members and objects have to be.
//!
//! The crates above say it of a plan, a scale and an input, one requirement after the other.
#![tactic(auto)]

mod forms;
mod owner;
mod seeing;
mod telling;

pub use forms::{Form, Rule, Shape, check_number, check_object, check_objects, tell_other};
pub use owner::{Member, Owner};
pub use seeing::{items_of, member_of, text_of, whole_of};
pub use telling::{Notes, Range, behind, check_range, tell_value};
