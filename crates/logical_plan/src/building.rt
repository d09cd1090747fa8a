//! From a text that meets every requirement to its plan.

ghost use Rattle.std.specs.Prelude.{◌≡◌, ◌<◌, FitsSigned, true, None, map, pos, unsigned_abs, IfOk};
ghost use Rattle.std.specs.Int.{w64};
ghost use Rattle.std.specs.List.{All, list_all};
ghost use Rattle.answers.specs.Answer.{first_unmet};
ghost use Rattle.json_parts.specs.Tests.{is_within, is_place};
ghost use Rattle.plan_model.specs.Uids.{is_uid};
ghost use Rattle.plan_model.specs.Places.{texts};
ghost use Rattle.logical_plan.specs.Requirements.{is_aggregate_of, requirements, text_uids};
ghost use Rattle.logical_plan.specs.Answer.{source_data, filter_data, aggregate_data, having_data, window_data, plan_data};
ghost use Rattle.plain_data.specs.declared.limits.TheConstants.{MOST_COLUMNS};
ghost use Rattle.plan_model.specs.declared.limits.TheConstants.{MOST_PARTITIONS, MOST_AGGREGATES};

use crate::text::{AggregateText, FilterText, HavingText, PlanText, SourceText, WindowText};
use indexmap::IndexSet;
use plain_data::Items;
use plan_model::{Aggregate, FilterSpec, Having, Plan, SourceSpec, Uid, WindowSpec};
use std::alloc::{AllocError, Global};

/// A number that is known to fit.
#[tactic(auto, using(crate::proofs::Meets::within))]
fn narrow(n: i64) -> u32
    requires { is_within (pos 0) (pos 65535) n ≡ true }
    ensures { result ≡ unsigned_abs n }
{
    n as u32
}

fn source_spec(source: SourceText) -> SourceSpec
    requires uid { is_uid source.uid ≡ true }
    requires partitions { is_within (pos 1) (pos MOST_PARTITIONS) source.partitions ≡ true }
    ensures { result ≡ source_data source }
{
    let SourceText {
        uid,
        partitions,
        bound,
    } = source;
    SourceSpec {
        uid: Uid::from_text(uid),
        partitions: partitions as u32,
        bound,
    }
}

fn source_specs(alloc: Global, sources: Items<SourceText>) -> Result<Items<SourceSpec>, AllocError>
    requires uids { list_all (λ s. is_uid s.uid) sources ≡ true }
    requires partitions { list_all (λ s. is_within (pos 1) (pos MOST_PARTITIONS) s.partitions) sources ≡ true }
    ensures { IfOk result (λ specs. specs ≡ map source_data sources) }
{
    let mut specs = Vec::new(alloc);
    for source in sources.into_vec() {
        specs.push(source_spec(source))?;
    }
    Ok(Items::from_vec(specs))
}

fn filter_spec(filter: FilterText, columns: i64) -> FilterSpec
    requires uid { is_uid filter.uid ≡ true }
    requires columns { is_within (pos 1) (pos MOST_COLUMNS) columns ≡ true }
    requires column { is_place columns filter.column ≡ true }
    ensures says { result ≡ filter_data filter }
    ensures fits { FitsSigned w64 result.value }
{
    let FilterText {
        uid,
        column,
        cmp,
        value,
    } = filter;
    FilterSpec {
        uid: Uid::from_text(uid),
        column: column as u32,
        cmp,
        value,
    }
}

fn filter_specs(
    alloc: Global,
    filters: Items<FilterText>,
    columns: i64,
) -> Result<Items<FilterSpec>, AllocError>
    requires uids { list_all (λ f. is_uid f.uid) filters ≡ true }
    requires columns { is_within (pos 1) (pos MOST_COLUMNS) columns ≡ true }
    requires within { list_all (λ f. is_place columns f.column) filters ≡ true }
    ensures says { IfOk result (λ specs. specs ≡ map filter_data filters) }
    ensures fit { IfOk result (λ specs. All (λ f. FitsSigned w64 f.value) specs) }
{
    let mut specs = Vec::new(alloc);
    for filter in filters.into_vec() {
        specs.push(filter_spec(filter, columns))?;
    }
    Ok(Items::from_vec(specs))
}

fn aggregate_spec(aggregate: AggregateText, columns: i64) -> Aggregate
    requires columns { is_within (pos 1) (pos MOST_COLUMNS) columns ≡ true }
    requires column { is_aggregate_of columns aggregate ≡ true }
    ensures { result ≡ aggregate_data aggregate }
{
    match aggregate {
        AggregateText::Count => Aggregate::Count,
        AggregateText::Sum(column) => Aggregate::Sum(column as u32),
        AggregateText::Least(column) => Aggregate::Least(column as u32),
        AggregateText::Greatest(column) => Aggregate::Greatest(column as u32),
    }
}

fn aggregate_specs(
    alloc: Global,
    aggregates: &[AggregateText],
    columns: i64,
) -> Result<Items<Aggregate>, AllocError>
    requires columns { is_within (pos 1) (pos MOST_COLUMNS) columns ≡ true }
    requires within { list_all (is_aggregate_of columns) aggregates.now ≡ true }
    ensures { IfOk result (λ specs. specs ≡ map aggregate_data aggregates.now) }
{
    let mut specs = Vec::new(alloc);
    for aggregate in aggregates {
        specs.push(aggregate_spec(*aggregate, columns))?;
    }
    Ok(Items::from_vec(specs))
}

fn having_spec(having: HavingText) -> Having
    requires { is_place (pos MOST_AGGREGATES) having.aggregate ≡ true }
    ensures says { result ≡ having_data having }
    ensures fits { FitsSigned w64 result.value }
{
    Having {
        aggregate: having.aggregate as u32,
        cmp: having.cmp,
        value: having.value,
    }
}

fn having_specs(alloc: Global, having: &[HavingText]) -> Result<Items<Having>, AllocError>
    requires { list_all (λ h. is_place (pos MOST_AGGREGATES) h.aggregate) having.now ≡ true }
    ensures says { IfOk result (λ specs. specs ≡ map having_data having.now) }
    ensures fit { IfOk result (λ specs. All (λ h. FitsSigned w64 h.value) specs) }
{
    let mut specs = Vec::new(alloc);
    for condition in having {
        specs.push(having_spec(*condition))?;
    }
    Ok(Items::from_vec(specs))
}

fn window_spec(
    alloc: Global,
    window: WindowText,
    columns: i64,
    time: u32,
    key: u32,
) -> Result<WindowSpec, AllocError>
    requires uid { is_uid window.uid ≡ true }
    requires columns { is_within (pos 1) (pos MOST_COLUMNS) columns ≡ true }
    requires aggregates { list_all (is_aggregate_of columns) window.aggregates ≡ true }
    requires having { list_all (λ h. is_place (pos MOST_AGGREGATES) h.aggregate) window.having ≡ true }
    ensures says { IfOk result (λ spec. spec ≡ window_data time key window) }
    ensures fit { IfOk result (λ spec. All (λ h. FitsSigned w64 h.value) spec.having) }
{
    let WindowText {
        uid,
        size,
        slide,
        offset,
        aggregates,
        having,
    } = window;
    Ok(WindowSpec {
        uid: Uid::from_text(uid),
        time,
        key,
        size,
        slide,
        offset,
        aggregates: aggregate_specs(alloc, aggregates.as_slice(), columns)?,
        having: having_specs(alloc, having.as_slice())?,
    })
}

/// The plan that a text is. `places` holds its uids in plan order.
pub fn plan_of(alloc: Global, text: PlanText, places: IndexSet<String>) -> Result<Plan, AllocError>
    requires met { first_unmet requirements text ≡ None }
    requires places { texts places ≡ text_uids text }
    ensures { IfOk result (λ plan. plan ≡ plan_data text) }
{
    let PlanText {
        columns,
        max,
        time,
        key,
        sources,
        filters,
        window,
    } = text;
    let window = window_spec(alloc, window, columns, narrow(time), narrow(key))?;
    let sources = source_specs(alloc, sources)?;
    let filters = filter_specs(alloc, filters, columns)?;
    Ok(Plan::new(
        narrow(columns),
        narrow(max),
        sources,
        filters,
        window,
        places,
    ))
}
