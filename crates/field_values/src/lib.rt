//! The numbers that the texts of single fields say: decimals that are scaled to whole numbers, and times that are
//! counted in milliseconds. No number passes through a float, nothing is rounded and nothing is allocated.
#![tactic(auto)]

mod clock;
mod decimal;
mod digits;
mod fault;
mod instant;
mod moment;
mod places;
mod zone;

pub use decimal::{has_minus, point_of, scaled, without_minus};
pub use digits::{are_digits, digits_after, fraction_of, number_of};
pub use fault::FieldFault;
pub use instant::{milliseconds, zone_place};
pub use places::{MOST_PLACES, Places};
