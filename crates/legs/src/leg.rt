//! A leg as a list has it.

use crate::cut::Cut;
use crate::stop::Stop;
use layout_rules::Scale;
use plain_data::Items;

/// A leg of a list: the scale at which it runs, the cuts at which it takes savepoints on its way, and where it stops.
#[derive(Debug, Drop)]
pub struct LegSpec {
    pub scale: Scale,
    pub saves: Items<Cut>,
    pub stop: Stop,
}
