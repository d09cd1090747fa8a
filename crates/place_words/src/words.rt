//! The words of a place: its count, and then those of the number of each aggregate. A sum has two, and a
//! `count` none, since it is the place's.

ghost use Rattle.std.specs.Prelude.{◌≡◌, true, ℕ, pos, if◌then◌else◌, ◌+ℤ◌, ◌+◌, ◌-◌, ◌*◌, ◌^◌, ◌<◌, ◌≤◌, [], map, length, slice_index_or, unsigned_abs, IfOk};
ghost use Rattle.std.specs.List.{All, list_all};
ghost use Rattle.byte_fields.specs.Fields as fields;
ghost use Rattle.plan_model.specs.PlanData.{has_column};
ghost use Rattle.plan_model.specs.Aggregates.{number_of};
ghost use Rattle.plan_model.specs.declared.limits.TheConstants.{MOST_AGGREGATES};
ghost use Rattle.aggregates.specs.declared.kind.Kind.TheVariants.{Sum, Least, Greatest};
ghost use Rattle.aggregates.specs.Kinds.{is_number, are_numbers, kind_of, merge_by, merge_all, IsAcc};
ghost use Rattle.savepoint_codec.specs.Numbers.{numbers_of};
ghost use Rattle.place_words.specs.Words as words_of;
ghost use Rattle.place_words.specs.Words.{acc_in, count_of, sum_of, width, word, IsWritten};
ghost use Rattle.place_words.specs.PlacedRows.{rows_to, records_to, with_records, merged_to, AreFew, AreApart, IsInPlaces, IsPlaceOf};

use aggregates::number_of_one;
use columns::Batch;
use plan_model::{Aggregate, Numbers as RowNumbers};
use savepoint_codec::Numbers;
use std::alloc::{AllocError, Global};

/// How many words the number of an aggregate has.
fn width_of(aggregate: Aggregate) -> usize
    ensures { result ≡ words_of.width_of (kind_of aggregate) }
{
    match aggregate {
        Aggregate::Count => 0,
        Aggregate::Sum(_) => 2,
        Aggregate::Least(_) => 1,
        Aggregate::Greatest(_) => 1,
    }
}

/// How many words a place has.
pub fn stride_of(aggregates: &[Aggregate]) -> usize
    requires { length aggregates.now ≤ MOST_AGGREGATES }
    ensures { result ≡ words_of.stride (map kind_of aggregates.now) }
{
    let mut stride = 1;
    for aggregate in aggregates {
        stride += width_of(*aggregate);
    }
    stride
}

/// The sum that two words are.
fn sum_at(words: &[i64], at: usize) -> i128
    requires { at + 2 ≤ length words.now }
    ensures { result ≡ sum_of (word words.now at) (word words.now (at + 1)) }
{
    words[at] as i128 * (1 << 63) + words[at + 1] as i128
}

/// Writes a sum in two words: how often it holds 2^63, and the rest.
fn write_sum(words: &mut [i64], at: usize, sum: i128)
    requires room { at + 2 ≤ length words.old }
    requires small { unsigned_abs sum ≤ 2 ^ 104 }
    ensures written { sum_of (word words.new at) (word words.new (at + 1)) ≡ sum }
    ensures others { IsWritten at (at + 2) words.old words.new }
{
    words[at] = sum.div_euclid(1 << 63) as i64;
    words[at + 1] = sum.rem_euclid(1 << 63) as i64;
}

/// The number of an aggregate, of so many records.
fn number_at(words: &[i64], at: usize, aggregate: Aggregate, count: u64) -> i128
    requires { at + words_of.width_of (kind_of aggregate) ≤ length words.now }
    ensures { result ≡ words_of.number_at count (kind_of aggregate) words.now at }
{
    match aggregate {
        Aggregate::Count => count as i128,
        Aggregate::Sum(_) => sum_at(words, at),
        Aggregate::Least(_) => words[at] as i128,
        Aggregate::Greatest(_) => words[at] as i128,
    }
}

/// The numbers of aggregates whose words begin at `at`, of so many records, put into places, one for each.
pub fn copy_numbers(
    words: &[i64],
    at: usize,
    aggregates: &[Aggregate],
    count: u64,
    numbers: &mut [i128],
)
    requires words { at + width (map kind_of aggregates.now) ≤ length words.now }
    requires room { length numbers.old ≡ length aggregates.now }
    ensures { numbers.new ≡ words_of.numbers_at count (map kind_of aggregates.now) words.now at }
{
    let mut at = at;
    for (i, aggregate) in aggregates.iter().enumerate() {
        numbers[i] = number_at(words, at, *aggregate, count);
        at += width_of(*aggregate);
    }
}

/// The same of numbers that all fit in 64 bits, and whether they do. Where one does not, some places may be filled.
pub fn copy_narrow(
    words: &[i64],
    at: usize,
    aggregates: &[Aggregate],
    count: u64,
    numbers: &mut [i64],
) -> bool
    requires words { at + width (map kind_of aggregates.now) ≤ length words.now }
    requires room { length numbers.old ≡ length aggregates.now }
    ensures fits { result ≡ list_all fields.is_i64 (words_of.numbers_at count (map kind_of aggregates.now) words.now at) }
    ensures copied { result ≡ true → numbers.new ≡ words_of.numbers_at count (map kind_of aggregates.now) words.now at }
{
    let mut at = at;
    for (i, aggregate) in aggregates.iter().enumerate() {
        let Ok(number) = i64::try_from(number_at(words, at, *aggregate, count)) else {
            return false;
        };
        numbers[i] = number;
        at += width_of(*aggregate);
    }
    true
}

/// The same, as the numbers of a row.
pub fn row_numbers_at(
    alloc: Global,
    words: &[i64],
    at: usize,
    aggregates: &[Aggregate],
    count: u64,
) -> Result<RowNumbers, AllocError>
    requires { at + width (map kind_of aggregates.now) ≤ length words.now }
    ensures { IfOk result (λ numbers. numbers ≡ words_of.numbers_at count (map kind_of aggregates.now) words.now at) }
{
    let mut numbers = RowNumbers::new();
    let mut at = at;
    for aggregate in aggregates {
        numbers.push(alloc, number_at(words, at, *aggregate, count))?;
        at += width_of(*aggregate);
    }
    Ok(numbers)
}

/// Writes the number of an aggregate, and says how many words it has.
fn write_number(words: &mut [i64], at: usize, aggregate: Aggregate, number: i128) -> usize
    requires room { at + words_of.width_of (kind_of aggregate) ≤ length words.old }
    requires fit { (n : ℕ) × (n ≤ 2 ^ 41) × (is_number n (kind_of aggregate) number ≡ true) }
    ensures width { result ≡ words_of.width_of (kind_of aggregate) }
    ensures written { (n : ℕ) → is_number n (kind_of aggregate) number ≡ true → words_of.number_at n (kind_of aggregate) words.new at ≡ number }
    ensures others { IsWritten at (at + words_of.width_of (kind_of aggregate)) words.old words.new }
{
    match aggregate {
        Aggregate::Count => 0,
        Aggregate::Sum(_) => {
            write_sum(words, at, number);
            2
        }
        Aggregate::Least(_) => {
            words[at] = number as i64;
            1
        }
        Aggregate::Greatest(_) => {
            words[at] = number as i64;
            1
        }
    }
}

/// Writes the numbers of aggregates, whose words begin at `at`.
fn write_numbers(words: &mut [i64], at: usize, aggregates: &[Aggregate], numbers: &[i128])
    requires room { at + width (map kind_of aggregates.now) ≤ length words.old }
    requires fit { (n : ℕ) × (n ≤ 2 ^ 41) × (are_numbers n (map kind_of aggregates.now) numbers.now ≡ true) }
    ensures written { (n : ℕ) → are_numbers n (map kind_of aggregates.now) numbers.now ≡ true
        → words_of.numbers_at n (map kind_of aggregates.now) words.new at ≡ numbers.now }
    ensures others { IsWritten at (at + width (map kind_of aggregates.now)) words.old words.new }
{
    let mut at = at;
    for (i, aggregate) in aggregates.iter().enumerate() {
        at += write_number(words, at, *aggregate, numbers[i]);
    }
}

/// The same of numbers of 64 bits.
fn write_narrow_numbers(words: &mut [i64], at: usize, aggregates: &[Aggregate], numbers: &[i64])
    requires room { at + width (map kind_of aggregates.now) ≤ length words.old }
    requires fit { (n : ℕ) × (n ≤ 2 ^ 41) × (are_numbers n (map kind_of aggregates.now) numbers.now ≡ true) }
    ensures written { (n : ℕ) → are_numbers n (map kind_of aggregates.now) numbers.now ≡ true
        → words_of.numbers_at n (map kind_of aggregates.now) words.new at ≡ numbers.now }
    ensures others { IsWritten at (at + width (map kind_of aggregates.now)) words.old words.new }
{
    let mut at = at;
    for (i, aggregate) in aggregates.iter().enumerate() {
        at += write_number(words, at, *aggregate, numbers[i] as i128);
    }
}

/// Writes a count and a number for each aggregate in the place whose words begin at `at`.
pub fn write_entry(
    words: &mut [i64],
    at: usize,
    aggregates: &[Aggregate],
    count: u64,
    numbers: Numbers<'_>,
)
    requires room { at + words_of.stride (map kind_of aggregates.now) ≤ length words.old }
    requires sound { IsAcc (record { kinds = map kind_of aggregates.now; total = record { count = count; numbers = numbers_of numbers } }) }
    ensures written { acc_in (map kind_of aggregates.now) words.new at ≡ record { kinds = map kind_of aggregates.now; total = record { count = count; numbers = numbers_of numbers.entry } } }
    ensures others { IsWritten at (at + words_of.stride (map kind_of aggregates.now)) words.old words.new }
{
    words[at] = count as i64;
    match numbers {
        Numbers::Narrow(numbers) => write_narrow_numbers(words, at + 1, aggregates, numbers),
        Numbers::Wide(numbers) => write_numbers(words, at + 1, aggregates, numbers),
    }
}

/// Writes what one record comes to in the place whose words begin at `at`.
pub fn write_first(
    words: &mut [i64],
    at: usize,
    aggregates: &[Aggregate],
    batch: &Batch,
    row: usize,
)
    requires row_in { row < length batch.now.rows }
    requires columns_in { All (has_column batch.now.width) aggregates.now }
    requires room { at + words_of.stride (map kind_of aggregates.now) ≤ length words.old }
    ensures fit { All (λ a. fields.is_i64 (number_of a (slice_index_or batch.now.rows row []) []) ≡ true) aggregates.now }
    ensures written { acc_in (map kind_of aggregates.now) words.new at
        ≡ record { kinds = map kind_of aggregates.now; total = record { count = 1; numbers = map (λ a. number_of a (slice_index_or batch.now.rows row []) []) aggregates.now } } }
    ensures others { IsWritten at (at + words_of.stride (map kind_of aggregates.now)) words.old words.new }
{
    words[at] = 1;
    let mut at = at + 1;
    for aggregate in aggregates {
        let number = number_of_one(*aggregate, batch, row) as i128;
        at += write_number(words, at, *aggregate, number);
    }
}

/// Adds a number to the sum that two words are. Mostly the second can take it.
fn add_to_sum(words: &mut [i64], at: usize, number: i64)
    requires room { at + 2 ≤ length words.old }
    requires small { unsigned_abs (sum_of (word words.old at) (word words.old (at + 1)) +ℤ number) ≤ 2 ^ 104 }
    ensures added { sum_of (word words.new at) (word words.new (at + 1)) ≡ sum_of (word words.old at) (word words.old (at + 1)) +ℤ number }
    ensures others { IsWritten at (at + 2) words.old words.new }
{
    match words[at + 1].checked_add(number) {
        Some(rest) => words[at + 1] = rest,
        None => write_sum(words, at, sum_at(words, at) + number as i128),
    }
}

/// Brings the number of one record in, and says how many words it has.
fn add_number(
    words: &mut [i64],
    at: usize,
    aggregate: Aggregate,
    batch: &Batch,
    row: usize,
) -> usize
    requires row_in { row < length batch.now.rows }
    requires column_in { has_column batch.now.width aggregate }
    requires room { at + words_of.width_of (kind_of aggregate) ≤ length words.old }
    requires few { (n : ℕ) × (n < 2 ^ 41) × (is_number n (kind_of aggregate) (words_of.number_at n (kind_of aggregate) words.old at) ≡ true) }
    ensures width { result ≡ words_of.width_of (kind_of aggregate) }
    ensures fit { fields.is_i64 (number_of aggregate (slice_index_or batch.now.rows row []) []) ≡ true }
    ensures added { (n : ℕ) → words_of.number_at (n + 1) (kind_of aggregate) words.new at
        ≡ merge_by (kind_of aggregate) (words_of.number_at n (kind_of aggregate) words.old at) (number_of aggregate (slice_index_or batch.now.rows row []) []) }
    ensures others { IsWritten at (at + words_of.width_of (kind_of aggregate)) words.old words.new }
{
    match aggregate {
        Aggregate::Count => 0,
        Aggregate::Sum(c) => {
            add_to_sum(words, at, batch.value(row, c as usize));
            2
        }
        Aggregate::Least(c) => {
            words[at] = words[at].min(batch.value(row, c as usize));
            1
        }
        Aggregate::Greatest(c) => {
            words[at] = words[at].max(batch.value(row, c as usize));
            1
        }
    }
}

/// Brings one record in, in the place whose words begin at `at`.
pub fn add_record(words: &mut [i64], at: usize, aggregates: &[Aggregate], batch: &Batch, row: usize)
    requires row_in { row < length batch.now.rows }
    requires columns_in { All (has_column batch.now.width) aggregates.now }
    requires room { at + words_of.stride (map kind_of aggregates.now) ≤ length words.old }
    requires sound { IsAcc (acc_in (map kind_of aggregates.now) words.old at) }
    requires few { count_of (word words.old at) < 2 ^ 41 }
    ensures sound { IsAcc (acc_in (map kind_of aggregates.now) words.new at) }
    ensures count { count_of (word words.new at) ≡ count_of (word words.old at) + 1 }
    ensures added { (acc_in (map kind_of aggregates.now) words.new at).total.numbers
        ≡ merge_all (map kind_of aggregates.now) (acc_in (map kind_of aggregates.now) words.old at).total.numbers (map (λ a. number_of a (slice_index_or batch.now.rows row []) []) aggregates.now) }
    ensures others { IsWritten at (at + words_of.stride (map kind_of aggregates.now)) words.old words.new }
{
    words[at] += 1;
    let mut at = at + 1;
    for aggregate in aggregates {
        at += add_number(words, at, *aggregate, batch, row);
    }
}

/// A row of a batch, and where the words of the place begin that it goes to.
#[derive(Clone, Copy, Debug)]
pub struct PlacedRow {
    pub row: usize,
    pub at: usize,
}

/// Counts the rows that go to each place.
fn count_rows(words: &mut [i64], rows: &[PlacedRow])
    requires room { All (λ r. r.at < length words.old) rows.now }
    requires few { All (λ r. AreFew words.old rows.now r.at) rows.now }
    ensures counted { (x : ℕ) → word words.new x ≡ word words.old x +ℤ pos (rows_to x rows.now) }
    ensures len { length words.new ≡ length words.old }
{
    for placed in rows {
        words[placed.at] += 1;
    }
}

/// Brings the numbers of rows in, of one aggregate, whose words begin so far behind those of their places.
fn add_column(
    words: &mut [i64],
    rows: &[PlacedRow],
    offset: usize,
    aggregate: Aggregate,
    batch: &Batch,
)
    requires rows_in { All (λ r. r.row < length batch.now.rows) rows.now }
    requires column_in { has_column batch.now.width aggregate }
    requires room { All (λ r. r.at + offset + words_of.width_of (kind_of aggregate) ≤ length words.old) rows.now }
    requires apart { All (λ r. All (λ s. AreApart (words_of.width_of (kind_of aggregate)) r.at s.at) rows.now) rows.now }
    requires few { All (λ r. (n : ℕ) × (n + rows_to r.at rows.now ≤ 2 ^ 41) ×
        (is_number n (kind_of aggregate) (words_of.number_at n (kind_of aggregate) words.old (r.at + offset)) ≡ true)) rows.now }
    ensures len { length words.new ≡ length words.old }
    ensures others { (y : ℕ) → All (λ r. r.at + offset ≤ y → r.at + offset + words_of.width_of (kind_of aggregate) ≤ y) rows.now
        → word words.new y ≡ word words.old y }
    ensures fit { All (λ r. fields.is_i64 (number_of aggregate (slice_index_or batch.now.rows r.row []) []) ≡ true) rows.now }
    ensures added { (n x : ℕ) → All (λ r. AreApart (words_of.width_of (kind_of aggregate)) x r.at) rows.now
        → words_of.number_at (n + rows_to x rows.now) (kind_of aggregate) words.new (x + offset)
        ≡ merged_to (kind_of aggregate) (λ r. number_of aggregate (slice_index_or batch.now.rows r.row []) []) x rows.now
        (words_of.number_at n (kind_of aggregate) words.old (x + offset)) }
{
    match aggregate {
        Aggregate::Count => (),
        Aggregate::Sum(c) => add_sums(words, rows, offset, batch.column(c as usize)),
        Aggregate::Least(c) => put_least(words, rows, offset, batch.column(c as usize)),
        Aggregate::Greatest(c) => put_greatest(words, rows, offset, batch.column(c as usize)),
    }
}

/// Adds numbers of rows to sums.
fn add_sums(words: &mut [i64], rows: &[PlacedRow], offset: usize, numbers: &[i64])
    requires rows_in { All (λ r. r.row < length numbers.now) rows.now }
    requires room { All (λ r. r.at + offset + 2 ≤ length words.old) rows.now }
    requires apart { All (λ r. All (λ s. AreApart 2 r.at s.at) rows.now) rows.now }
    requires small { All (λ r. unsigned_abs
        (sum_of (word words.old (r.at + offset)) (word words.old (r.at + offset + 1))) + rows_to r.at rows.now * 2 ^ 63 ≤ 2 ^ 104) rows.now }
    ensures len { length words.new ≡ length words.old }
    ensures others { (y : ℕ) → All (λ r. r.at + offset ≤ y → r.at + offset + 2 ≤ y) rows.now → word words.new y ≡ word words.old y }
    ensures fit { All (λ r. fields.is_i64 (slice_index_or numbers.now r.row (pos 0)) ≡ true) rows.now }
    ensures added { (x : ℕ) → All (λ r. AreApart 2 x r.at) rows.now
        → sum_of (word words.new (x + offset)) (word words.new (x + offset + 1))
        ≡ merged_to Sum (λ r. slice_index_or numbers.now r.row (pos 0)) x rows.now
        (sum_of (word words.old (x + offset)) (word words.old (x + offset + 1))) }
{
    for placed in rows {
        add_to_sum(words, placed.at + offset, numbers[placed.row]);
    }
}

/// Makes words the least of themselves and numbers of rows.
fn put_least(words: &mut [i64], rows: &[PlacedRow], offset: usize, numbers: &[i64])
    requires rows_in { All (λ r. r.row < length numbers.now) rows.now }
    requires room { All (λ r. r.at + offset < length words.old) rows.now }
    ensures len { length words.new ≡ length words.old }
    ensures others { (y : ℕ) → All (λ r. r.at + offset ≤ y → r.at + offset + 1 ≤ y) rows.now → word words.new y ≡ word words.old y }
    ensures fit { All (λ r. fields.is_i64 (slice_index_or numbers.now r.row (pos 0)) ≡ true) rows.now }
    ensures put { (x : ℕ) → word words.new (x + offset)
        ≡ merged_to Least (λ r. slice_index_or numbers.now r.row (pos 0)) x rows.now (word words.old (x + offset)) }
{
    for placed in rows {
        let at = placed.at + offset;
        words[at] = words[at].min(numbers[placed.row]);
    }
}

/// Makes words the greatest of themselves and numbers of rows.
fn put_greatest(words: &mut [i64], rows: &[PlacedRow], offset: usize, numbers: &[i64])
    requires rows_in { All (λ r. r.row < length numbers.now) rows.now }
    requires room { All (λ r. r.at + offset < length words.old) rows.now }
    ensures len { length words.new ≡ length words.old }
    ensures others { (y : ℕ) → All (λ r. r.at + offset ≤ y → r.at + offset + 1 ≤ y) rows.now → word words.new y ≡ word words.old y }
    ensures fit { All (λ r. fields.is_i64 (slice_index_or numbers.now r.row (pos 0)) ≡ true) rows.now }
    ensures put { (x : ℕ) → word words.new (x + offset)
        ≡ merged_to Greatest (λ r. slice_index_or numbers.now r.row (pos 0)) x rows.now (word words.old (x + offset)) }
{
    for placed in rows {
        let at = placed.at + offset;
        words[at] = words[at].max(numbers[placed.row]);
    }
}

/// Brings rows of a batch in, each in its place, aggregate by aggregate. It comes to the same as row by row.
pub fn add_rows(words: &mut [i64], rows: &[PlacedRow], aggregates: &[Aggregate], batch: &Batch)
    requires rows_in { All (λ r. r.row < length batch.now.rows) rows.now }
    requires few_aggregates { length aggregates.now ≤ MOST_AGGREGATES }
    requires columns_in { All (has_column batch.now.width) aggregates.now }
    requires places { All (λ r. IsPlaceOf (map kind_of aggregates.now) words.old r.at) rows.now }
    requires few { All (λ r. AreFew words.old rows.now r.at) rows.now }
    ensures len { length words.new ≡ length words.old }
    ensures sound { (x : ℕ) → IsPlaceOf (map kind_of aggregates.now) words.old x → AreFew words.old rows.now x
        → IsAcc (acc_in (map kind_of aggregates.now) words.new x) }
    ensures added { (x : ℕ) → IsInPlaces (map kind_of aggregates.now) words.old x
        → acc_in (map kind_of aggregates.now) words.new x
        ≡ record {
          kinds = map kind_of aggregates.now;
          total =
              with_records aggregates.now (acc_in (map kind_of aggregates.now) words.old x).total (records_to x batch.now.rows rows.now);
        } }
{
    count_rows(words, rows);
    let mut offset = 1;
    for aggregate in aggregates {
        add_column(words, rows, offset, *aggregate, batch);
        offset += width_of(*aggregate);
    }
}
