//! The scales at which each operator of a plan has the same parallelism, as far as the plan lets it.

ghost use Rattle.std.specs.Prelude.{◌≡◌, ◌≤◌, IfOk, map, min, true};
ghost use Rattle.plan_model.specs.PlanData.{IsPlan};
ghost use Rattle.layout_rules.specs.Scale.{IsScale};
ghost use Rattle.plan_scale.specs.Even as even;
ghost use Rattle.plan_scale.specs.Said as said;
ghost use Rattle.plan_scale.specs.Answer.{Gives, is_memory};

use crate::task_count::task_count;
use key_groups::MOST_SUBTASKS;
use layout_rules::{DEFAULT_CAPACITY, FilterScale, MOST_TASKS, Scale, ScaleFault};
use plain_data::Items;
use plan_model::{FilterSpec, Plan, SourceSpec};
use std::alloc::{AllocError, Global};

/// The most partitions that a source has.
fn most_partitions(sources: &[SourceSpec]) -> u32
    ensures { result ≡ even.most_partitions sources.now }
{
    let mut most = 0;
    for source in sources {
        most = source.partitions.max(most);
    }
    most
}

fn even_sources(
    alloc: Global,
    specs: &[SourceSpec],
    parallelism: u32,
) -> Result<Vec<u32>, AllocError>
    ensures { IfOk result (λ v. v.items ≡ map (λ s. min parallelism s.partitions) specs.now) }
{
    specs
        .iter()
        .map(|spec| parallelism.min(spec.partitions))
        .collect(alloc)
}

fn even_filters(
    alloc: Global,
    specs: &[FilterSpec],
    parallelism: u32,
) -> Result<Vec<FilterScale>, AllocError>
    ensures { IfOk result (λ v. v.items ≡ map (λ _. record { parallelism = parallelism; chain = true }) specs.now) }
{
    specs
        .iter()
        .map(|_| FilterScale {
            parallelism,
            chain: true,
        })
        .collect(alloc)
}

fn even_scale(alloc: Global, plan: &Plan, parallelism: u32) -> Result<Scale, AllocError>
    ensures { IfOk result (λ scale. scale ≡ even.even_scale plan.now parallelism) }
{
    let most = most_partitions(plan.sources());
    let sources = even_sources(alloc, plan.sources(), parallelism)?;
    let filters = even_filters(alloc, plan.filters(), parallelism.min(most))?;
    Ok(Scale::new(
        DEFAULT_CAPACITY,
        Items::from_vec(sources),
        Items::from_vec(filters),
        parallelism,
    ))
}

/// Whether each operator may have so many subtasks: 1 to 64, and no more than there are key groups.
#[tactic(auto, unfolding(crate::specs::Even::is_parallelism))]
fn is_parallelism(plan: &Plan, parallelism: u32) -> bool
    ensures says { result ≡ even.is_parallelism plan.now parallelism }
    ensures sound { IsPlan plan.now }
{
    let most = plan.max().min(MOST_SUBTASKS);
    1 <= parallelism && parallelism <= most
}

/// Whether the layout of such a scale has at most 256 tasks.
fn has_few_tasks(plan: &Plan, parallelism: u32, scale: &Scale) -> bool
    requires sound { IsPlan plan.now }
    requires parallelism { even.is_parallelism plan.now parallelism ≡ true }
    requires is { scale.now ≡ even.even_scale plan.now parallelism }
    ensures { result ≡ even.has_few_tasks plan.now parallelism }
{
    task_count(scale) <= MOST_TASKS
}

fn single_sources(alloc: Global, specs: &[SourceSpec]) -> Result<Vec<u32>, AllocError>
    ensures { IfOk result (λ v. v.items ≡ map (λ _. 1) specs.now) }
{
    specs.iter().map(|_| 1).collect(alloc)
}

fn single_filters(alloc: Global, specs: &[FilterSpec]) -> Result<Vec<FilterScale>, AllocError>
    ensures { IfOk result (λ v. v.items ≡ map (λ _. record { parallelism = 1; chain = true }) specs.now) }
{
    specs
        .iter()
        .map(|_| FilterScale {
            parallelism: 1,
            chain: true,
        })
        .collect(alloc)
}

/// The scales that a plan has without a text of one.
pub trait ScaleOfPlan: Sized {
    /// One subtask for each operator, with all operators chained that may be, and rings of 16 messages.
    ///
    /// # Errors
    ///
    /// Only where memory runs out.
    fn single(alloc: Global, plan: &Plan) -> Result<Self, AllocError>;

    /// The scale at which the window has so many subtasks, each source too, but no more than it has partitions, and
    /// each filter, but no more than the source with the most, so that it may be chained to a single source: what
    /// `parallelism.default` is to a Flink job. Rings hold 16 messages.
    ///
    /// # Errors
    ///
    /// [`ScaleFault::Parallelism`] where it is not 1 to 64, or more than there are key groups; [`ScaleFault::Tasks`]
    /// where the layout has more than 256 tasks; [`ScaleFault::Memory`].
    fn even(alloc: Global, plan: &Plan, parallelism: u32) -> Result<Self, ScaleFault>;
}

impl ScaleOfPlan for Scale {
    #[tactic(auto, using(crate::proofs::Sound::single_is_scale))]
    fn single(alloc: Global, plan: &Plan) -> Result<Scale, AllocError>
        ensures says { IfOk result (λ scale. scale ≡ said.single_scale plan.now) }
        ensures belongs { IfOk result (λ scale. IsScale plan.now scale) }
    {
        let sources = single_sources(alloc, plan.sources())?;
        let filters = single_filters(alloc, plan.filters())?;
        Ok(Scale::new(
            DEFAULT_CAPACITY,
            Items::from_vec(sources),
            Items::from_vec(filters),
            1,
        ))
    }

    #[tactic(auto, unfolding(crate::specs::Even::scale_at))]
    fn even(alloc: Global, plan: &Plan, parallelism: u32) -> Result<Scale, ScaleFault>
        ensures says { Gives is_memory (λ scale. scale) result (even.scale_at plan.now parallelism) }
        ensures belongs { IfOk result (λ scale. IsScale plan.now scale) }
    {
        if !is_parallelism(plan, parallelism) {
            return Err(ScaleFault::Parallelism);
        }
        let scale = even_scale(alloc, plan, parallelism)?;
        if !has_few_tasks(plan, parallelism, &scale) {
            return Err(ScaleFault::Tasks);
        }
        Ok(scale)
    }
}
