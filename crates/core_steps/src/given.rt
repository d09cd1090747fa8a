//! What a world is made of.

ghost use Rattle.std.specs.Prelude.{◌≡◌};

use legs::Cut;
use plan_compiler::Layout;
use plan_model::Plan;
use redistribute::Start;
use std::snapshot::Snapshot;
use stream_model::Input;

/// What a leg runs on and begins with.
#[derive(Clone, Copy)]
pub struct Given<'a> {
    pub plan: &'a Plan,
    pub input: &'a Input,
    /// A start of the input.
    pub start: &'a Start,
    /// A layout of the plan.
    pub layout: &'a Layout,
    /// The cuts at which the leg takes a savepoint and goes on, in their order.
    pub saves: &'a [Cut],
}

/// What a leg runs on, once its tasks have begun. They have all of the start, and what is left of it here is its number
/// and what contracts say of it, so that a start with many panes can go.
#[derive(Drop)]
pub struct Begun<'a> {
    pub plan: &'a Plan,
    pub input: &'a Input,
    /// The start that the tasks began with.
    pub start: Snapshot<Start>,
    /// The number of the savepoint that the leg went on from, or 0.
    pub number: u64,
    pub layout: &'a Layout,
    pub saves: &'a [Cut],
    ghost numbered: { number ≡ start.value.number },
}

impl<'a> Begun<'a> {
    ghost use Rattle.dataflow_model.specs.Leg.{Until};
    ghost use Rattle.task_setups.specs.Legs.{counts_of};
    ghost use Rattle.core_steps.specs.Given.{begun_data};

    /// A leg whose tasks have begun with a start.
    pub fn with(
        plan: &'a Plan,
        input: &'a Input,
        start: &Start,
        layout: &'a Layout,
        saves: &'a [Cut],
    ) -> Begun<'a>
        ensures { (until : Until) → begun_data result until ≡ record { plan = plan.now; input = input.now; start = start.now; layout = layout.now; saves = counts_of saves.now; until = until } }
    {
        Begun {
            plan,
            input,
            start: Snapshot::of(start),
            number: start.number(),
            layout,
            saves,
        }
    }
}

impl<'a> Given<'a> {
    ghost use Rattle.dataflow_model.specs.Leg.{Until};
    ghost use Rattle.core_steps.specs.Given.{begun_data, given_data};

    /// The same, once the tasks have begun.
    pub fn begun(self) -> Begun<'a>
        ensures { (until : Until) → begun_data result until ≡ given_data self.entry until }
    {
        Begun::with(self.plan, self.input, self.start, self.layout, self.saves)
    }
}
