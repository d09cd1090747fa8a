//! How far a leg of a job goes, to the end of its input or to a cut of it, in which order its steps are made, and why
//! there is no such leg: by what it is to do, or by the savepoint that it is to go on from.
#![tactic(auto)]

mod choice;
mod counting;
mod cut;
mod fault;
mod leg;
mod limits;
mod requirements;
mod restore_fault;
mod stop;
mod until;

pub use choice::{Choice, are_choices};
pub use counting::{first_entries, with_records};
pub use cut::Cut;
pub use fault::LegFault;
pub use leg::LegSpec;
pub use limits::{MOST_LEGS, MOST_SAVES};
pub use requirements::are_legs;
pub use restore_fault::RestoreFault;
pub use stop::Stop;
pub use until::Until;
