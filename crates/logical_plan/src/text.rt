//! What a plan's text says, before any of its numbers is checked.

ghost use Rattle.std.specs.Prelude.{◌≡◌};
ghost use Rattle.serde_json.specs.View.{view};
ghost use Rattle.json_parts.specs.Parts.{Gives};
ghost use Rattle.logical_plan.specs.PlanText.{cmp_text, watermarks_text, bound_at, source_text, filter_text, aggregate_text, count_text, column_text, having_text, window_text, window_at, plan_text};

use json_parts::{
    FromValue, PartError, has_only, list_of, list_or_empty, text, text_of, whole, whole_or,
};
use lane_kernels::Cmp;
use plain_data::{Items, Text};
use serde_json::Value;
use std::alloc::Global;

#[derive(Debug, Drop)]
pub struct SourceText {
    pub uid: Text,
    pub partitions: i64,
    pub bound: Option<i64>,
}

#[derive(Debug, Drop)]
pub struct FilterText {
    pub uid: Text,
    pub column: i64,
    pub cmp: Cmp,
    pub value: i64,
}

#[derive(Clone, Copy, Debug, PartialEq, Eq)]
pub enum AggregateText {
    Count,
    Sum(i64),
    Least(i64),
    Greatest(i64),
}

#[derive(Clone, Copy, Debug, PartialEq, Eq)]
pub struct HavingText {
    pub aggregate: i64,
    pub cmp: Cmp,
    pub value: i64,
}

#[derive(Debug, Drop)]
pub struct WindowText {
    pub uid: Text,
    pub size: i64,
    pub slide: i64,
    pub offset: i64,
    pub aggregates: Items<AggregateText>,
    pub having: Items<HavingText>,
}

#[derive(Debug, Drop)]
pub struct PlanText {
    pub columns: i64,
    pub max: i64,
    pub time: i64,
    pub key: i64,
    pub sources: Items<SourceText>,
    pub filters: Items<FilterText>,
    pub window: WindowText,
}

impl FromValue for SourceText {
    ghost use Rattle.logical_plan.specs.PlanText.{source_text};

    ghost text_of = { source_text };

    fn from_value(alloc: Global, value: &Value) -> Result<SourceText, PartError> {
        source_of(alloc, value)
    }
}

impl FromValue for FilterText {
    ghost use Rattle.logical_plan.specs.PlanText.{filter_text};

    ghost text_of = { filter_text };

    fn from_value(alloc: Global, value: &Value) -> Result<FilterText, PartError> {
        filter_of(alloc, value)
    }
}

impl FromValue for AggregateText {
    ghost use Rattle.logical_plan.specs.PlanText.{aggregate_text};

    ghost text_of = { aggregate_text };

    fn from_value(_alloc: Global, value: &Value) -> Result<AggregateText, PartError> {
        aggregate_of(value)
    }
}

impl FromValue for HavingText {
    ghost use Rattle.logical_plan.specs.PlanText.{having_text};

    ghost text_of = { having_text };

    fn from_value(_alloc: Global, value: &Value) -> Result<HavingText, PartError> {
        having_of(value)
    }
}

#[tactic(auto, unfolding(crate::specs::PlanText::cmp_text))]
fn cmp_of(value: &Value) -> Result<Cmp, PartError>
    ensures { Gives (λ cmp. cmp) result (cmp_text (view value.now)) }
{
    match text_of(value, "op")? {
        "eq" => Ok(Cmp::Eq),
        "ne" => Ok(Cmp::Ne),
        "lt" => Ok(Cmp::Lt),
        "le" => Ok(Cmp::Le),
        "gt" => Ok(Cmp::Gt),
        "ge" => Ok(Cmp::Ge),
        _ => Err(PartError::Form),
    }
}

#[tactic(auto, unfolding(crate::specs::PlanText::watermarks_text))]
fn watermarks_of(value: &Value) -> Result<Option<i64>, PartError>
    ensures { Gives (λ bound. bound) result (watermarks_text (view value.now)) }
{
    if !has_only(value, &["bound"]) {
        return Err(PartError::Form);
    }
    Ok(Some(whole(value, "bound")?))
}

#[tactic(auto, unfolding(crate::specs::PlanText::bound_at))]
fn bound_in(value: &Value) -> Result<Option<i64>, PartError>
    ensures { Gives (λ bound. bound) result (bound_at (view value.now)) }
{
    match value.get("watermarks") {
        None => Ok(None),
        Some(watermarks) => watermarks_of(watermarks),
    }
}

#[tactic(auto, unfolding(crate::specs::PlanText::source_text))]
fn source_of(alloc: Global, value: &Value) -> Result<SourceText, PartError>
    ensures { Gives (λ source. source) result (source_text (view value.now)) }
{
    if !has_only(value, &["uid", "partitions", "watermarks"]) {
        return Err(PartError::Form);
    }
    let uid = text(alloc, value, "uid")?;
    Ok(SourceText {
        uid,
        partitions: whole(value, "partitions")?,
        bound: bound_in(value)?,
    })
}

#[tactic(auto, unfolding(crate::specs::PlanText::filter_text))]
fn filter_of(alloc: Global, value: &Value) -> Result<FilterText, PartError>
    ensures { Gives (λ filter. filter) result (filter_text (view value.now)) }
{
    if !has_only(value, &["uid", "column", "op", "value"]) {
        return Err(PartError::Form);
    }
    let uid = text(alloc, value, "uid")?;
    Ok(FilterText {
        uid,
        column: whole(value, "column")?,
        cmp: cmp_of(value)?,
        value: whole(value, "value")?,
    })
}

#[tactic(auto, unfolding(crate::specs::PlanText::aggregate_text))]
fn aggregate_of(value: &Value) -> Result<AggregateText, PartError>
    ensures { Gives (λ aggregate. aggregate) result (aggregate_text (view value.now)) }
{
    match text_of(value, "fn")? {
        "count" => count_of(value),
        "sum" => Ok(AggregateText::Sum(column_of(value)?)),
        "least" => Ok(AggregateText::Least(column_of(value)?)),
        "greatest" => Ok(AggregateText::Greatest(column_of(value)?)),
        _ => Err(PartError::Form),
    }
}

#[tactic(auto, unfolding(crate::specs::PlanText::count_text))]
fn count_of(value: &Value) -> Result<AggregateText, PartError>
    ensures { Gives (λ aggregate. aggregate) result (count_text (view value.now)) }
{
    if !has_only(value, &["fn"]) {
        return Err(PartError::Form);
    }
    Ok(AggregateText::Count)
}

#[tactic(auto, unfolding(crate::specs::PlanText::column_text))]
fn column_of(value: &Value) -> Result<i64, PartError>
    ensures { Gives (λ column. column) result (column_text (view value.now)) }
{
    if !has_only(value, &["fn", "column"]) {
        return Err(PartError::Form);
    }
    Ok(whole(value, "column")?)
}

#[tactic(auto, unfolding(crate::specs::PlanText::having_text))]
fn having_of(value: &Value) -> Result<HavingText, PartError>
    ensures { Gives (λ having. having) result (having_text (view value.now)) }
{
    if !has_only(value, &["aggregate", "op", "value"]) {
        return Err(PartError::Form);
    }
    Ok(HavingText {
        aggregate: whole(value, "aggregate")?,
        cmp: cmp_of(value)?,
        value: whole(value, "value")?,
    })
}

#[tactic(auto, unfolding(crate::specs::PlanText::window_text))]
fn window_of(alloc: Global, value: &Value) -> Result<WindowText, PartError>
    ensures { Gives (λ window. window) result (window_text (view value.now)) }
{
    if !has_only(
        value,
        &["uid", "size", "slide", "offset", "aggregates", "having"],
    ) {
        return Err(PartError::Form);
    }
    let uid = text(alloc, value, "uid")?;
    let size = whole(value, "size")?;
    Ok(WindowText {
        uid,
        size,
        slide: whole_or(value, "slide", size)?,
        offset: whole_or(value, "offset", 0)?,
        aggregates: list_of(alloc, value, "aggregates")?,
        having: list_or_empty(alloc, value, "having")?,
    })
}

#[tactic(auto, unfolding(crate::specs::PlanText::window_at))]
fn window_in(alloc: Global, value: &Value) -> Result<WindowText, PartError>
    ensures { Gives (λ window. window) result (window_at (view value.now)) }
{
    match value.get("window") {
        None => Err(PartError::Form),
        Some(window) => window_of(alloc, window),
    }
}

/// What the value says as a plan.
#[tactic(auto, unfolding(crate::specs::PlanText::plan_text))]
pub fn text_of_plan(alloc: Global, value: &Value) -> Result<PlanText, PartError>
    ensures { Gives (λ text. text) result (plan_text (view value.now)) }
{
    if !has_only(
        value,
        &[
            "columns",
            "maxParallelism",
            "time",
            "key",
            "sources",
            "filters",
            "window",
        ],
    ) {
        return Err(PartError::Form);
    }
    Ok(PlanText {
        columns: whole(value, "columns")?,
        max: whole(value, "maxParallelism")?,
        time: whole(value, "time")?,
        key: whole(value, "key")?,
        sources: list_of(alloc, value, "sources")?,
        filters: list_or_empty(alloc, value, "filters")?,
        window: window_in(alloc, value)?,
    })
}
