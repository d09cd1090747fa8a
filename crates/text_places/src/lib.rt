//! Places in a JSON text: its tokens with where each stands, the values that they make, and where a text
//! is no JSON.
//!
//! It serves to tell a person what to mend, once a text is refused. What a text says is decided by
//! `json_parts` and `serde_json`.
#![tactic(auto)]

mod finding;
mod nest;
mod part;
mod place;
mod reason;
mod spot;

pub use finding::{Finding, Findings, MOST_PLACES};
pub use nest::{Breach, breach_in, limit_of};
pub use part::{Part, Placed, first_value, part_named};
pub use place::{Place, place_of};
pub use spot::{Spot, spots_of};
