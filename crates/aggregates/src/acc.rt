ghost use Rattle.std.specs.Prelude.{◌≡◌, ◌≤◌, ◌<◌, ◌+◌, ◌^◌, pos, [], ◌∷◌, map, length, slice_index_or, Option, Some, is_some, IfSome, List};
ghost use Rattle.std.specs.List.{All};
ghost use Rattle.plan_model.specs.declared.spec.Aggregate.{Aggregate};
ghost use Rattle.plan_model.specs.PlanData.{has_column};
ghost use Rattle.plan_model.specs.Aggregates.{aggregate_of, merge};
ghost use Rattle.aggregates.specs.Kinds.{IsAcc, kind_of, is_entry};
ghost use Rattle.plan_model.specs.declared.limits.TheConstants.{MOST_AGGREGATES};

use crate::kind::Kind;
use crate::numbers::{add_into, are_numbers, merge_into, write_kinds, write_numbers};
use columns::Batch;
use plan_model::{MOST_AGGREGATES, MOST_RECORDS, WindowSpec};
use std::marker::Model;

/// How many records, and a number for each of 1 to 8 aggregates: what the records of a window and a key
/// come to. It takes no memory beside its own.
#[derive(Clone, Copy, Debug)]
pub struct Acc {
    count: u64,
    width: usize,
    kinds: [Kind; MOST_AGGREGATES],
    numbers: [i128; MOST_AGGREGATES],
}

impl Model for Acc {
    ghost use Rattle.aggregates.specs.Kinds.{AccData};

    ghost Value = { AccData };

    ghost use Rattle.aggregates.specs.Inside.{acc_view, acc_fields, IsInside};
    ghost use Rattle.aggregates.specs.Fields.{fields_back};

    ghost view = { acc_view };

    ghost invariant = { IsInside };

    ghost inverse = { acc_fields };

    ghost inverse_ok = { fields_back };
}

impl Acc {
    /// What one record comes to.
    pub fn first(w: &WindowSpec, batch: &Batch, row: usize) -> Acc
        requires row_in { row < length batch.now.rows }
        requires columns_in { All (has_column batch.now.width) w.now.aggregates }
        requires some { 1 ≤ length w.now.aggregates }
        requires few { length w.now.aggregates ≤ MOST_AGGREGATES }
        ensures kinds { result.kinds ≡ map kind_of w.now.aggregates }
        ensures total { Some result.total ≡ aggregate_of w.now.aggregates (slice_index_or batch.now.rows row [] ∷ []) }
        ensures sound { IsAcc result }
    {
        let aggregates = w.aggregates.as_slice();
        let mut kinds = [Kind::Count; MOST_AGGREGATES];
        let mut numbers = [0; MOST_AGGREGATES];
        write_kinds(&mut kinds, aggregates);
        write_numbers(&mut numbers, aggregates, batch, row);
        Acc {
            count: 1,
            width: aggregates.len(),
            kinds,
            numbers,
        }
    }

    /// Brings a record in.
    pub fn add(&mut self, w: &WindowSpec, batch: &Batch, row: usize)
        requires row_in { row < length batch.now.rows }
        requires columns_in { All (has_column batch.now.width) w.now.aggregates }
        requires few { self.old.total.count < 2 ^ 41 }
        requires same_kinds { self.old.kinds ≡ map kind_of w.now.aggregates }
        ensures kinds { self.new.kinds ≡ self.old.kinds }
        ensures total { Some self.new.total
            ≡ merge w.now.aggregates (Some self.old.total) (aggregate_of w.now.aggregates (slice_index_or batch.now.rows row [] ∷ [])) }
        ensures sound { IsAcc self.new }
    {
        add_into(&mut self.numbers, w.aggregates.as_slice(), batch, row);
        self.count += 1;
    }

    /// Brings other records in, by what they come to.
    pub fn merge(&mut self, other: &Acc)
        requires few { self.old.total.count + other.now.total.count ≤ 2 ^ 41 }
        requires same_kinds { self.old.kinds ≡ other.now.kinds }
        ensures kinds { self.new.kinds ≡ self.old.kinds }
        ensures total { (aggregates : List Aggregate) → map kind_of aggregates ≡ self.old.kinds
            → Some self.new.total ≡ merge aggregates (Some self.old.total) (Some other.now.total) }
        ensures sound { IsAcc self.new }
    {
        merge_into(&mut self.numbers, &self.kinds[..self.width], &other.numbers);
        self.count += other.count;
    }

    /// How many records there are: at least 1.
    pub fn count(&self) -> u64
        ensures says { result ≡ self.now.total.count }
        ensures sound { IsAcc self.now }
    {
        self.count
    }

    /// The number of each aggregate, in order.
    pub fn numbers(&self) -> &[i128]
        ensures { result.now ≡ self.now.total.numbers }
    {
        &self.numbers[..self.width]
    }

    /// The number of aggregate i, counted from 0.
    pub fn values(&self, i: usize) -> i128
        requires { i < length self.now.kinds }
        ensures { result ≡ slice_index_or self.now.total.numbers i (pos 0) }
    {
        let numbers = &self.numbers[..self.width];
        numbers[i]
    }

    /// The accumulator of so many records with these numbers, or None where they make no entry of a
    /// savepoint: a count that is not 1 to 2^40, other than 1 to 8 kinds with a number each, or a number
    /// that so many records cannot come to.
    pub fn from_parts(kinds: &[Kind], count: u64, numbers: &[i128]) -> Option<Acc>
        ensures when { is_some result ≡ is_entry kinds.now count numbers.now }
        ensures made { IfSome result (λ a. a ≡ record { kinds = kinds.now; total = record { count = count; numbers = numbers.now } }) }
    {
        let width = kinds.len();
        if width < 1 || width > MOST_AGGREGATES || count < 1 || count > MOST_RECORDS {
            return None;
        }
        if !are_numbers(count, kinds, numbers) {
            return None;
        }
        Some(Acc::of(kinds, count, numbers))
    }

    /// The accumulator of so many records with these numbers, which they can come to.
    pub fn of(kinds: &[Kind], count: u64, numbers: &[i128]) -> Acc
        requires { IsAcc (record { kinds = kinds.now; total = record { count = count; numbers = numbers.now } }) }
        ensures { result ≡ record { kinds = kinds.now; total = record { count = count; numbers = numbers.now } } }
    {
        let width = kinds.len();
        let mut all_kinds = [Kind::Count; MOST_AGGREGATES];
        let mut all_numbers = [0; MOST_AGGREGATES];
        all_kinds[..width].copy_from_slice(kinds);
        all_numbers[..width].copy_from_slice(numbers);
        Acc {
            count,
            width,
            kinds: all_kinds,
            numbers: all_numbers,
        }
    }
}
