//! A scale as its users see it.

use crate::stage::FilterScale;
use plain_data::Items;
use std::marker::Model;

/// How many messages a ring holds where no text says it.
pub const DEFAULT_CAPACITY: u32 = 16;

/// How many subtasks each operator of a plan has, and how many messages a ring between two of them holds.
#[derive(Debug, Drop)]
pub struct Scale {
    capacity: u32,
    sources: Items<u32>,
    filters: Items<FilterScale>,
    window: u32,
}

impl Model for Scale {
    ghost use Rattle.layout_rules.specs.ScaleData.{ScaleData, IsCapacity, scale_data_of};

    ghost Value = { ScaleData };

    ghost view = { λ s. scale_data_of s.capacity s.sources s.filters s.window };

    ghost invariant = { λ s. IsCapacity s.capacity };
}

impl Scale {
    ghost use Rattle.std.specs.Prelude.{◌≡◌};
    ghost use Rattle.layout_rules.specs.ScaleData.{IsCapacity, scale_data_of};

    /// A scale of such parts: how many messages a ring holds, 1 to 1,024, and the parallelism of sources and filters,
    /// in plan order, and of the window. Whether it is one of a plan is not looked at.
    pub fn new(
        capacity: u32,
        sources: Items<u32>,
        filters: Items<FilterScale>,
        window: u32,
    ) -> Scale
        requires { IsCapacity capacity }
        ensures { result ≡ scale_data_of capacity sources filters window }
    {
        Scale {
            capacity,
            sources,
            filters,
            window,
        }
    }

    /// How many messages a ring holds: 1 to 1,024.
    pub fn ring(&self) -> u32
        ensures says { result ≡ self.now.capacity }
        ensures bounded { IsCapacity result }
    {
        self.capacity
    }

    /// The parallelism of each source, in plan order.
    pub fn sources(&self) -> &[u32]
        ensures { result.now ≡ self.now.sources }
    {
        self.sources.as_slice()
    }

    /// The parallelism of each filter and whether it may be chained, in plan order.
    pub fn filters(&self) -> &[FilterScale]
        ensures { result.now ≡ self.now.filters }
    {
        self.filters.as_slice()
    }

    /// The window operator's parallelism.
    pub fn window(&self) -> u32
        ensures { result ≡ self.now.window }
    {
        self.window
    }
}
