//! Numbers of records, kind by kind.

ghost use Rattle.std.specs.Prelude.{◌≡◌, true, ◌≤◌, ◌<◌, ◌+◌, ◌^◌, [], ◌∷◌, ◌++◌, map, take, drop, length, slice_index_or, unsigned_abs};
ghost use Rattle.std.specs.Int.{int_min, int_max};
ghost use Rattle.std.specs.List.{All};
ghost use Rattle.plan_model.specs.PlanData.{has_column};
ghost use Rattle.plan_model.specs.Aggregates.{number_of};
ghost use Rattle.byte_fields.specs.Fields as fields;
ghost use Rattle.aggregates.specs.Kinds.{merge_by, merge_all, kind_of, are_numbers as numbers_are};
ghost use Rattle.plan_model.specs.declared.limits.TheConstants.{MOST_RECORDS};

use crate::kind::Kind;
use columns::Batch;
use plan_model::Aggregate;

/// The aggregate's number of one record of a batch.
pub fn number_of_one(aggregate: Aggregate, batch: &Batch, row: usize) -> i64
    requires row_in { row < length batch.now.rows }
    requires column_in { has_column batch.now.width aggregate }
    ensures { result ≡ number_of aggregate (slice_index_or batch.now.rows row []) [] }
{
    match aggregate {
        Aggregate::Count => 1,
        Aggregate::Sum(c) => batch.value(row, c as usize),
        Aggregate::Least(c) => batch.value(row, c as usize),
        Aggregate::Greatest(c) => batch.value(row, c as usize),
    }
}

/// Two numbers of one kind brought together.
pub(crate) fn merged(kind: Kind, a: i128, b: i128) -> i128
    requires a_small { unsigned_abs a ≤ 2 ^ 125 }
    requires b_small { unsigned_abs b ≤ 2 ^ 125 }
    ensures { result ≡ merge_by kind a b }
{
    match kind {
        Kind::Count => a + b,
        Kind::Sum => a + b,
        Kind::Least => a.min(b),
        Kind::Greatest => a.max(b),
    }
}

/// The lesser of the two becomes the number.
fn lower(number: &mut i128, other: i64)
    ensures { number.new ≡ int_min number.old other }
{
    let other = other as i128;
    if other < *number {
        *number = other;
    }
}

/// The greater of the two becomes the number.
fn raise(number: &mut i128, other: i64)
    ensures { number.new ≡ int_max number.old other }
{
    let other = other as i128;
    if other > *number {
        *number = other;
    }
}

/// Brings the aggregate's number of one record in.
fn add_number(number: &mut i128, aggregate: Aggregate, batch: &Batch, row: usize)
    requires row_in { row < length batch.now.rows }
    requires column_in { has_column batch.now.width aggregate }
    requires small { unsigned_abs number.old ≤ 2 ^ 125 }
    ensures fit { fields.is_i64 (number_of aggregate (slice_index_or batch.now.rows row []) []) ≡ true }
    ensures added { number.new ≡ merge_by (kind_of aggregate) number.old (number_of aggregate (slice_index_or batch.now.rows row []) []) }
{
    match aggregate {
        Aggregate::Count => *number += 1,
        Aggregate::Sum(c) => *number += batch.value(row, c as usize) as i128,
        Aggregate::Least(c) => lower(number, batch.value(row, c as usize)),
        Aggregate::Greatest(c) => raise(number, batch.value(row, c as usize)),
    }
}

/// Writes the number of one record for each aggregate.
pub(crate) fn write_numbers(
    numbers: &mut [i128],
    aggregates: &[Aggregate],
    batch: &Batch,
    row: usize,
)
    requires row_in { row < length batch.now.rows }
    requires columns_in { All (has_column batch.now.width) aggregates.now }
    requires room { length aggregates.now ≤ length numbers.old }
    ensures fit { All (λ a. fields.is_i64 (number_of a (slice_index_or batch.now.rows row []) []) ≡ true) aggregates.now }
    ensures written { numbers.new
        ≡ map (λ a. number_of a (slice_index_or batch.now.rows row []) []) aggregates.now ++ drop (length aggregates.now) numbers.old }
{
    for (i, aggregate) in aggregates.iter().enumerate() {
        numbers[i] = number_of_one(*aggregate, batch, row) as i128;
    }
}

/// Writes the kind of each aggregate.
pub(crate) fn write_kinds(kinds: &mut [Kind], aggregates: &[Aggregate])
    requires { length aggregates.now ≤ length kinds.old }
    ensures { kinds.new ≡ map kind_of aggregates.now ++ drop (length aggregates.now) kinds.old }
{
    for (i, aggregate) in aggregates.iter().enumerate() {
        kinds[i] = Kind::of(*aggregate);
    }
}

/// Brings the number of one record in, aggregate by aggregate.
pub(crate) fn add_into(numbers: &mut [i128], aggregates: &[Aggregate], batch: &Batch, row: usize)
    requires row_in { row < length batch.now.rows }
    requires columns_in { All (has_column batch.now.width) aggregates.now }
    requires room { length aggregates.now ≤ length numbers.old }
    requires small { All (λ z. unsigned_abs z ≤ 2 ^ 125) numbers.old }
    ensures fit { All (λ a. fields.is_i64 (number_of a (slice_index_or batch.now.rows row []) []) ≡ true) aggregates.now }
    ensures added { numbers.new
        ≡ merge_all (map kind_of aggregates.now) (take (length aggregates.now) numbers.old) (map (λ a. number_of a (slice_index_or batch.now.rows row []) []) aggregates.now)
        ++ drop (length aggregates.now) numbers.old }
{
    for (i, aggregate) in aggregates.iter().enumerate() {
        add_number(&mut numbers[i], *aggregate, batch, row);
    }
}

/// Brings the other numbers in, kind by kind.
pub(crate) fn merge_into(numbers: &mut [i128], kinds: &[Kind], others: &[i128])
    requires room { length kinds.now ≤ length numbers.old }
    requires others_there { length kinds.now ≤ length others.now }
    requires small { All (λ z. unsigned_abs z ≤ 2 ^ 125) numbers.old }
    requires others_small { All (λ z. unsigned_abs z ≤ 2 ^ 125) others.now }
    ensures { numbers.new
        ≡ merge_all kinds.now (take (length kinds.now) numbers.old) (take (length kinds.now) others.now) ++ drop (length kinds.now) numbers.old }
{
    for (i, kind) in kinds.iter().enumerate() {
        numbers[i] = merged(*kind, numbers[i], others[i]);
    }
}

/// Whether there is a number for each kind that so many records can come to.
pub(crate) fn are_numbers(count: u64, kinds: &[Kind], numbers: &[i128]) -> bool
    requires { count ≤ MOST_RECORDS }
    ensures { result ≡ numbers_are count kinds.now numbers.now }
{
    if kinds.len() != numbers.len() {
        return false;
    }
    for (i, kind) in kinds.iter().enumerate() {
        if !kind.admits(count, numbers[i]) {
            return false;
        }
    }
    true
}
