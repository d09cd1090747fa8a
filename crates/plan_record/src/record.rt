//! The canonical record of a plan.

ghost use Rattle.std.specs.Prelude.{◌≡◌, ◌<◌, ◌≤◌, true, ◌++◌, length, map, OnOk, IfOk};
ghost use Rattle.std.specs.Int.{int_rem_euclid};
ghost use Rattle.std.specs.Ordering.{nat_cmp};
ghost use Rattle.std.specs.List.{All, list_all};
ghost use Rattle.std.specs.Cmp.Lexicographic.{slice_cmp};
ghost use Rattle.plan_model.specs.Uids.{is_uid};
ghost use Rattle.plan_model.specs.PlanData.{IsWindow, has_column};
ghost use Rattle.byte_fields.specs.Lists.{listed};
ghost use Rattle.byte_fields.specs.Fields.{u8_field};
ghost use Rattle.plan_model.specs.Uids.{uid_field};
ghost use Rattle.plan_record.specs.PlanRecord.{cmp_code, filter_condition, having_condition, condition_field, condition_cmp, ascending, aggregate_code, aggregate_field, head_of, head_field, span_of, span_field};

use crate::bounds::{bounds_at, put_bounds};
use byte_fields::{put_i64, put_u8, put_u16};
use lane_kernels::Cmp;
use plan_model::{Aggregate, FilterSpec, Having, Plan, SourceSpec, WindowSpec, put_uid};
use std::alloc::{AllocError, Global};
use std::collections::BTreeSet;

/// A condition as a record has it: a column or the place of an aggregate, the code of the comparison,
/// and the value.
#[derive(Clone, Copy, Debug, PartialEq, Eq, PartialOrd, Ord)]
pub struct Condition {
    pub subject: u8,
    pub op: u8,
    pub value: i64,
}

fn code_of(cmp: Cmp) -> u8
    ensures { result ≡ cmp_code cmp }
{
    match cmp {
        Cmp::Eq => 0,
        Cmp::Ne => 1,
        Cmp::Lt => 2,
        Cmp::Le => 3,
        Cmp::Gt => 4,
        Cmp::Ge => 5,
    }
}

fn condition_of_filter(filter: &FilterSpec) -> Condition
    requires { filter.now.column < 256 }
    ensures { result ≡ filter_condition filter.now }
{
    Condition {
        subject: filter.column as u8,
        op: code_of(filter.cmp),
        value: filter.value,
    }
}

fn condition_of_having(having: &Having) -> Condition
    requires { having.now.aggregate < 256 }
    ensures { result ≡ having_condition having.now }
{
    Condition {
        subject: having.aggregate as u8,
        op: code_of(having.cmp),
        value: having.value,
    }
}

fn filter_conditions(
    alloc: Global,
    filters: &[FilterSpec],
) -> Result<BTreeSet<Condition>, AllocError>
    requires { All (λ f. f.column < 256) filters.now }
    ensures says { IfOk result (λ set. set.keys ≡ ascending condition_cmp (map filter_condition filters.now)) }
    ensures few { IfOk result (λ set. length set.keys ≤ length filters.now) }
{
    let mut conditions = BTreeSet::new(alloc);
    for filter in filters {
        conditions.insert(condition_of_filter(filter))?;
    }
    Ok(conditions)
}

fn having_conditions(alloc: Global, having: &[Having]) -> Result<BTreeSet<Condition>, AllocError>
    requires { All (λ h. h.aggregate < 256) having.now }
    ensures says { IfOk result (λ set. set.keys ≡ ascending condition_cmp (map having_condition having.now)) }
    ensures few { IfOk result (λ set. length set.keys ≤ length having.now) }
{
    let mut conditions = BTreeSet::new(alloc);
    for condition in having {
        conditions.insert(condition_of_having(condition))?;
    }
    Ok(conditions)
}

#[tactic(auto, unfolding(crate::specs::PlanRecord::condition_field))]
fn put_condition(out: &mut Vec<u8>, condition: &Condition) -> Result<(), AllocError>
    ensures { OnOk result (out.new.items ≡ out.old.items ++ condition_field.spell condition.now) }
{
    put_u8(out, condition.subject)?;
    put_u8(out, condition.op)?;
    put_i64(out, condition.value)
}

fn put_conditions(out: &mut Vec<u8>, conditions: &BTreeSet<Condition>) -> Result<(), AllocError>
    requires { length conditions.now.keys < 256 }
    ensures { OnOk result (out.new.items ≡ out.old.items ++ (listed u8_field condition_field).spell conditions.now.keys) }
{
    put_u8(out, conditions.len() as u8)?;
    for condition in conditions {
        put_condition(out, condition)?;
    }
    Ok(())
}

fn source_uids(alloc: Global, sources: &[SourceSpec]) -> Result<BTreeSet<&str>, AllocError>
    ensures says { IfOk result (λ set. map (λ uid. uid.now) set.keys ≡ ascending (slice_cmp nat_cmp) (map (λ s. s.uid) sources.now)) }
    ensures few { IfOk result (λ set. length set.keys ≤ length sources.now) }
    ensures named { IfOk result (λ set. list_all (λ uid. is_uid uid.now) set.keys ≡ true) }
{
    let mut uids = BTreeSet::new(alloc);
    for source in sources {
        uids.insert(source.uid.as_str())?;
    }
    Ok(uids)
}

fn put_uids(out: &mut Vec<u8>, uids: &BTreeSet<&str>) -> Result<(), AllocError>
    requires few { length uids.now.keys < 256 }
    requires named { list_all (λ uid. is_uid uid.now) uids.now.keys ≡ true }
    ensures { OnOk result (out.new.items ≡ out.old.items ++ (listed u8_field uid_field).spell (map (λ uid. uid.now) uids.now.keys)) }
{
    put_u8(out, uids.len() as u8)?;
    for uid in uids {
        put_uid(out, *uid)?;
    }
    Ok(())
}

fn code_of_aggregate(aggregate: &Aggregate) -> (u8, u8)
    requires { has_column 256 aggregate.now }
    ensures { result ≡ aggregate_code aggregate.now }
{
    match aggregate {
        Aggregate::Count => (0, 0),
        Aggregate::Sum(column) => (1, *column as u8),
        Aggregate::Least(column) => (2, *column as u8),
        Aggregate::Greatest(column) => (3, *column as u8),
    }
}

#[tactic(auto, unfolding(crate::specs::PlanRecord::aggregate_field))]
fn put_aggregate(out: &mut Vec<u8>, aggregate: &Aggregate) -> Result<(), AllocError>
    requires { has_column 256 aggregate.now }
    ensures { OnOk result (out.new.items ≡ out.old.items ++ aggregate_field.spell aggregate.now) }
{
    let (kind, column) = code_of_aggregate(aggregate);
    put_u8(out, kind)?;
    put_u8(out, column)
}

fn put_aggregates(out: &mut Vec<u8>, aggregates: &[Aggregate]) -> Result<(), AllocError>
    requires few { length aggregates.now < 256 }
    requires columns { All (has_column 256) aggregates.now }
    ensures { OnOk result (out.new.items ≡ out.old.items ++ (listed u8_field aggregate_field).spell aggregates.now) }
{
    put_u8(out, aggregates.len() as u8)?;
    for aggregate in aggregates {
        put_aggregate(out, aggregate)?;
    }
    Ok(())
}

#[tactic(auto, unfolding(crate::specs::PlanRecord::head_field))]
fn put_head(out: &mut Vec<u8>, plan: &Plan) -> Result<(), AllocError>
    ensures { OnOk result (out.new.items ≡ out.old.items ++ head_field.spell (head_of plan.now)) }
{
    let window = plan.window();
    put_u8(out, plan.columns() as u8)?;
    put_u16(out, plan.max() as u16)?;
    put_u8(out, window.time as u8)?;
    put_u8(out, window.key as u8)
}

/// The window's offset modulo its slide.
fn offset_in_slide(window: &WindowSpec) -> i64
    requires { IsWindow window.now }
    ensures { result ≡ int_rem_euclid window.now.offset window.now.slide }
{
    window.offset.rem_euclid(window.slide)
}

#[tactic(auto, unfolding(crate::specs::PlanRecord::span_field))]
fn put_span(out: &mut Vec<u8>, window: &WindowSpec) -> Result<(), AllocError>
    requires { IsWindow window.now }
    ensures { OnOk result (out.new.items ≡ out.old.items ++ span_field.spell (span_of window.now)) }
{
    put_i64(out, window.size)?;
    put_i64(out, window.slide)?;
    put_i64(out, offset_in_slide(window))
}

/// What a savepoint knows again by its canonical record, as a plan.
pub trait Recorded {
    /// The canonical record of the plan, by which a savepoint knows it again. All numbers have their
    /// highest byte first.
    ///
    /// 1. The columns in one byte, the key groups in two, the columns of time and key in one each.
    /// 2. Size, slide, and the offset modulo the slide, each an i64.
    /// 3. How many sources, and each uid, ascending by bytes: its length in one byte, and its bytes.
    /// 4. How many distinct filter conditions, and each, ascending: column, comparison, value.
    /// 5. How many aggregates, and each in plan order: kind and column, which is 0 for a count.
    /// 6. How many distinct having conditions, and each, ascending: aggregate, comparison, value.
    /// 7. Where a source has a bound: how many have one, and for each, ascending by uid, the uid's place
    ///    from 0 among those of part 3 in one byte, and the bound as an i64.
    ///
    /// Comparisons are 0 to 5 for `eq`, `ne`, `lt`, `le`, `gt`, `ge`, and kinds 0 to 3 for `count`, `sum`,
    /// `least`, `greatest`.
    ///
    /// # Errors
    ///
    /// Only where memory runs out.
    fn record(&self, alloc: Global) -> Result<Vec<u8>, AllocError>;
}

impl Recorded for Plan {
    ghost use Rattle.std.specs.Prelude.{◌≡◌, IfOk};
    ghost use Rattle.plan_record.specs.PlanRecord.{plan_record};

    #[tactic(auto, unfolding(crate::specs::PlanRecord::plan_record, crate::specs::PlanRecord::record_field))]
    fn record(&self, alloc: Global) -> Result<Vec<u8>, AllocError>
        ensures { IfOk result (λ record_. record_.items ≡ plan_record self.now) }
    {
        let window = self.window();
        let mut out = Vec::new(alloc);
        put_head(&mut out, self)?;
        put_span(&mut out, window)?;
        let uids = source_uids(alloc, self.sources())?;
        put_uids(&mut out, &uids)?;
        put_conditions(&mut out, &filter_conditions(alloc, self.filters())?)?;
        put_aggregates(&mut out, window.aggregates.as_slice())?;
        put_conditions(
            &mut out,
            &having_conditions(alloc, window.having.as_slice())?,
        )?;
        put_bounds(&mut out, &bounds_at(alloc, self.sources(), &uids)?)?;
        Ok(out)
    }
}
