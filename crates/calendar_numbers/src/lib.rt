//! The civil day, month, year, hour and weekday of an instant in a time zone, as whole numbers, and the zones of the
//! system.
#![tactic(auto)]

mod number;
mod part;
mod reading;
mod zones;

pub use number::calendar_number;
pub use part::CalendarPart;
pub use reading::{ZoneFault, read_zone};
pub use zones::Zones;
