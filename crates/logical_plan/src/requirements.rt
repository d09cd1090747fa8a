//! What a plan must meet, one function for each requirement.

ghost use Rattle.std.specs.Prelude.{◌≡◌, pos, length};
ghost use Rattle.std.specs.List.{list_all};
ghost use Rattle.json_parts.specs.Tests as tests;
ghost use Rattle.plan_model.specs.Uids as uids;
ghost use Rattle.plan_model.specs.declared.limits.TheConstants.{MOST_PARTITIONS};
ghost use Rattle.logical_plan.specs.Requirements as required;

use crate::text::{AggregateText, FilterText, HavingText, PlanText, SourceText};
use key_groups::MOST_GROUPS;
use plain_data::MOST_COLUMNS;
use plan_model::{
    GREATEST_BOUND, LONGEST_WINDOW, MOST_AGGREGATES, MOST_CONDITIONS, MOST_PARTITIONS,
    MOST_SOURCES, MOST_WINDOWS, is_uid,
};

#[tactic(auto, unfolding(crate::specs::Requirements::has_columns))]
pub fn has_columns(text: &PlanText) -> bool
    ensures { result ≡ required.has_columns text.now }
{
    1 <= text.columns && text.columns <= i64::from(MOST_COLUMNS)
}

fn is_place(bound: i64, place: i64) -> bool
    ensures { result ≡ tests.is_place bound place }
{
    0 <= place && place < bound
}

fn has_column(columns: i64, aggregate: &AggregateText) -> bool
    ensures { result ≡ required.is_aggregate_of columns aggregate.now }
{
    match aggregate {
        AggregateText::Count => true,
        AggregateText::Sum(column)
        | AggregateText::Least(column)
        | AggregateText::Greatest(column) => is_place(columns, *column),
    }
}

fn have_columns(columns: i64, aggregates: &[AggregateText]) -> bool
    ensures { result ≡ list_all (required.is_aggregate_of columns) aggregates.now }
{
    aggregates.iter().all(|a| has_column(columns, a))
}

fn are_on_columns(columns: i64, filters: &[FilterText]) -> bool
    ensures { result ≡ list_all (λ f. tests.is_place columns f.column) filters.now }
{
    filters.iter().all(|f| is_place(columns, f.column))
}

#[tactic(auto, unfolding(crate::specs::Requirements::has_column_indices))]
pub fn has_column_indices(text: &PlanText) -> bool
    ensures { result ≡ required.has_column_indices text.now }
{
    is_place(text.columns, text.time)
        && is_place(text.columns, text.key)
        && are_on_columns(text.columns, text.filters.as_slice())
        && have_columns(text.columns, text.window.aggregates.as_slice())
}

#[tactic(auto, unfolding(crate::specs::Requirements::has_max))]
pub fn has_max(text: &PlanText) -> bool
    ensures { result ≡ required.has_max text.now }
{
    1 <= text.max && text.max <= i64::from(MOST_GROUPS)
}

#[tactic(auto, unfolding(crate::specs::Requirements::has_sources))]
pub fn has_sources(text: &PlanText) -> bool
    ensures { result ≡ required.has_sources text.now }
{
    1 <= text.sources.len() && text.sources.len() <= MOST_SOURCES
}

fn are_counts(sources: &[SourceText]) -> bool
    ensures { result ≡ list_all (λ s. tests.is_within (pos 1) (pos MOST_PARTITIONS) s.partitions) sources.now }
{
    let most = i64::from(MOST_PARTITIONS);
    sources
        .iter()
        .all(|s| 1 <= s.partitions && s.partitions <= most)
}

#[tactic(auto, unfolding(crate::specs::Requirements::has_partitions))]
pub fn has_partitions(text: &PlanText) -> bool
    ensures { result ≡ required.has_partitions text.now }
{
    are_counts(text.sources.as_slice())
}

fn are_source_uids(sources: &[SourceText]) -> bool
    ensures { result ≡ list_all (λ s. uids.is_uid s.uid) sources.now }
{
    sources.iter().all(|s| is_uid(s.uid.as_str()))
}

fn are_filter_uids(filters: &[FilterText]) -> bool
    ensures { result ≡ list_all (λ f. uids.is_uid f.uid) filters.now }
{
    filters.iter().all(|f| is_uid(f.uid.as_str()))
}

#[tactic(auto, using(crate::proofs::Items::all_uids), unfolding(crate::specs::Requirements::has_uids))]
pub fn has_uids(text: &PlanText) -> bool
    ensures { result ≡ required.has_uids text.now }
{
    are_source_uids(text.sources.as_slice())
        && are_filter_uids(text.filters.as_slice())
        && is_uid(text.window.uid.as_str())
}

#[tactic(auto, unfolding(crate::specs::Requirements::has_filters))]
pub fn has_filters(text: &PlanText) -> bool
    ensures { result ≡ required.has_filters text.now }
{
    text.filters.len() <= MOST_CONDITIONS && text.window.having.len() <= MOST_CONDITIONS
}

#[tactic(auto, unfolding(crate::specs::Requirements::has_size))]
pub fn has_size(text: &PlanText) -> bool
    ensures { result ≡ required.has_size text.now }
{
    1 <= text.window.size && text.window.size <= LONGEST_WINDOW
}

#[tactic(auto, unfolding(crate::specs::Requirements::has_slide))]
pub fn has_slide(text: &PlanText) -> bool
    ensures { result ≡ required.has_slide text.now }
{
    1 <= text.window.slide && text.window.slide <= LONGEST_WINDOW
}

#[tactic(auto, unfolding(crate::specs::Requirements::has_offset))]
pub fn has_offset(text: &PlanText) -> bool
    ensures { result ≡ required.has_offset text.now }
{
    let slide = i128::from(text.window.slide);
    let offset = i128::from(text.window.offset);
    -slide < offset && offset < slide
}

#[tactic(auto, unfolding(crate::specs::Requirements::has_panes))]
pub fn has_panes(text: &PlanText) -> bool
    ensures { result ≡ required.has_panes text.now }
{
    i128::from(text.window.size) <= i128::from(MOST_WINDOWS) * i128::from(text.window.slide)
}

fn name_aggregates(count: i64, having: &[HavingText]) -> bool
    ensures { result ≡ list_all (λ h. tests.is_place count h.aggregate) having.now }
{
    having.iter().all(|h| is_place(count, h.aggregate))
}

#[tactic(auto, unfolding(crate::specs::Requirements::has_aggregates))]
pub fn has_aggregates(text: &PlanText) -> bool
    ensures { result ≡ required.has_aggregates text.now }
{
    let count = text.window.aggregates.len();
    1 <= count
        && count <= MOST_AGGREGATES
        && name_aggregates(count as i64, text.window.having.as_slice())
}

fn is_bound(bound: Option<i64>) -> bool
    ensures { result ≡ required.is_bound bound }
{
    match bound {
        None => true,
        Some(bound) => 0 <= bound && bound <= GREATEST_BOUND,
    }
}

fn are_bounded(sources: &[SourceText]) -> bool
    ensures { result ≡ list_all (λ s. required.is_bound s.bound) sources.now }
{
    sources.iter().all(|s| is_bound(s.bound))
}

#[tactic(auto, unfolding(crate::specs::Requirements::has_bounds))]
pub fn has_bounds(text: &PlanText) -> bool
    ensures { result ≡ required.has_bounds text.now }
{
    are_bounded(text.sources.as_slice())
}
