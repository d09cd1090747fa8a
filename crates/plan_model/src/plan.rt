//! A plan, by its type one that meets every requirement.

use crate::spec::{FilterSpec, SourceSpec, WindowSpec};
use indexmap::IndexSet;
use plain_data::Items;
use std::marker::Model;

/// A plan that meets every requirement of its format.
#[derive(Debug)]
pub struct Plan {
    columns: u32,
    max: u32,
    sources: Items<SourceSpec>,
    filters: Items<FilterSpec>,
    window: WindowSpec,
    places: IndexSet<String>,
}

// By hand, since a proof goes over a derived drop field by field.
impl Drop for Plan {
    fn drop(self) {
        let Plan {
            columns: _,
            max: _,
            sources: _,
            filters: _,
            window: _,
            places: _,
        } = self;
    }
}

impl Model for Plan {
    ghost use Rattle.std.specs.Prelude.{◌≡◌};
    ghost use Rattle.plan_model.specs.PlanData.{PlanData, IsPlan, plan_data_of, uids};
    ghost use Rattle.plan_model.specs.Places.{texts};

    ghost Value = { PlanData };

    ghost view = { λ p. plan_data_of p.columns p.max p.sources p.filters p.window };

    ghost invariant = { λ p. IsPlan (plan_data_of p.columns p.max p.sources p.filters p.window)
        × (texts p.places ≡ uids (plan_data_of p.columns p.max p.sources p.filters p.window)) };
}

impl Plan {
    ghost use Rattle.std.specs.Prelude.{◌≡◌, position, bytes_eq};
    ghost use Rattle.plan_model.specs.PlanData.{IsPlan, plan_data_of, uids};
    ghost use Rattle.plan_model.specs.Places.{texts};

    /// A plan of such parts, which meet every requirement of its format: `columns` of each record, `max` key groups,
    /// sources and filters in plan order. `places` holds the uids of sources, filters and window in that order.
    pub fn new(
        columns: u32,
        max: u32,
        sources: Items<SourceSpec>,
        filters: Items<FilterSpec>,
        window: WindowSpec,
        places: IndexSet<String>,
    ) -> Plan
        requires sound { IsPlan (plan_data_of columns max sources filters window) }
        requires places { texts places ≡ uids (plan_data_of columns max sources filters window) }
        ensures { result ≡ plan_data_of columns max sources filters window }
    {
        Plan {
            columns,
            max,
            sources,
            filters,
            window,
            places,
        }
    }

    /// How many columns each record has: 1 to 16.
    pub fn columns(&self) -> u32
        ensures says { result ≡ self.now.columns }
        ensures sound { IsPlan self.now }
    {
        self.columns
    }

    /// The number of key groups: 1 to 32768.
    pub fn max(&self) -> u32
        ensures says { result ≡ self.now.max }
        ensures sound { IsPlan self.now }
    {
        self.max
    }

    /// The sources in plan order: 1 to 8.
    pub fn sources(&self) -> &[SourceSpec]
        ensures says { result.now ≡ self.now.sources }
        ensures sound { IsPlan self.now }
    {
        self.sources.as_slice()
    }

    /// The filters in plan order: at most 32.
    pub fn filters(&self) -> &[FilterSpec]
        ensures says { result.now ≡ self.now.filters }
        ensures sound { IsPlan self.now }
    {
        self.filters.as_slice()
    }

    /// The window operator.
    pub fn window(&self) -> &WindowSpec
        ensures says { result.now ≡ self.now.window }
        ensures sound { IsPlan self.now }
    {
        &self.window
    }

    /// The place of a uid in plan order: sources, filters, window, counted from 0.
    pub fn place_of(&self, uid: &str) -> Option<usize>
        ensures { result ≡ position (bytes_eq uid.now) (uids self.now) }
    {
        self.places.get_index_of(uid)
    }
}
