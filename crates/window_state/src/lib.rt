//! The state of the window operator: what stands in each window and key that has not fired.
#![tactic(auto)]

mod adding;
mod fault;
mod firing;
mod having;
mod opened;
pub mod parts;
mod places;
mod state;
mod together;
mod windows;

pub use fault::StateFault;
pub use having::keep_rows;
pub use pane_hashes::HashKeys;
pub use parts::Part;
pub use plan_model::Row;
pub use state::WindowState;
