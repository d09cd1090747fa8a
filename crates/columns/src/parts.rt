//! Batches made of the rows of one.

ghost use Rattle.std.specs.Prelude.{IfErr, IfOk, OnOk, [], ◌++◌, ◌<◌, ◌==◌, ◌≡◌, ◌≤◌, ℕ, length, map, pos, slice_index_or};
ghost use Rattle.std.specs.List.{All, range_with_len};
ghost use Rattle.columns.specs.Parts.{kept, kept_rows, piece, with_rows};

use crate::Batch;
use crate::fault::BatchFault;
use lane_kernels::count_true;
use std::alloc::{AllocError, Global};

impl Batch {
    /// The rows whose place in the mask is true, in order. The mask has a place for each row.
    ///
    /// # Errors
    ///
    /// Only where memory runs out.
    pub fn keep(&self, alloc: Global, mask: &[bool]) -> Result<Batch, BatchFault>
        requires { length mask.now ≡ length self.now.rows }
        ensures kept { IfOk result (λ batch. batch ≡ with_rows self.now (kept_rows mask.now self.now.rows)) }
        ensures only_memory { IfErr result (λ fault. fault ≡ BatchFault.Memory) }
    {
        let places = true_places(alloc, mask)?;
        Ok(self.rows_at(alloc, &places)?)
    }

    /// The rows in `n` pieces: piece t has the rows with target t, in order. There is a target below `n`
    /// for each row.
    ///
    /// # Errors
    ///
    /// Only where memory runs out.
    pub fn split(&self, alloc: Global, targets: &[u32], n: u32) -> Result<Vec<Batch>, BatchFault>
        requires alike { length targets.now ≡ length self.now.rows }
        requires below { All (λ target. target < n) targets.now }
        ensures pieces { IfOk result (λ pieces. pieces.items ≡ map (piece targets.now self.now) (range_with_len 0 n)) }
        ensures only_memory { IfErr result (λ fault. fault ≡ BatchFault.Memory) }
    {
        let mut pieces = Vec::new(alloc);
        for places in &places_by_target(alloc, targets, n)? {
            pieces.push(self.rows_at(alloc, places)?)?;
        }
        Ok(pieces)
    }

    /// The same rows again.
    ///
    /// # Errors
    ///
    /// Only where memory runs out.
    pub fn copy(&self, alloc: Global) -> Result<Batch, BatchFault>
        ensures same { IfOk result (λ batch. batch ≡ self.now) }
        ensures only_memory { IfErr result (λ fault. fault ≡ BatchFault.Memory) }
    {
        Ok(Batch {
            numbers: Vec::from_slice(alloc, &self.numbers)?,
            width: self.width,
            count: self.count,
        })
    }

    /// The rows at some places, in the order of the places.
    fn rows_at(&self, alloc: Global, places: &[usize]) -> Result<Batch, AllocError>
        requires inside { All (λ place. place < length self.now.rows) places.now }
        requires few { length places.now ≤ length self.now.rows }
        ensures { IfOk result (λ batch. batch ≡ with_rows self.now (map (λ place. slice_index_or self.now.rows place []) places.now)) }
    {
        let width = self.width as usize;
        let mut numbers = Vec::with_capacity(alloc, width * places.len())?;
        for c in 0..width {
            put_numbers(&mut numbers, self.column(c), places)?;
        }
        Ok(Batch::from_numbers(numbers, width, places.len()))
    }
}

/// Puts the numbers at some places of a column behind those that are there.
fn put_numbers(numbers: &mut Vec<i64>, column: &[i64], places: &[usize]) -> Result<(), AllocError>
    requires { All (λ place. place < length column.now) places.now }
    ensures { OnOk result (numbers.new.items ≡ numbers.old.items ++ map (λ place. slice_index_or column.now place (pos 0)) places.now) }
{
    for place in places {
        numbers.push(column[*place])?;
    }
    Ok(())
}

/// The places at which the mask is true.
fn true_places(alloc: Global, mask: &[bool]) -> Result<Vec<usize>, AllocError>
    ensures { IfOk result (λ places. places.items ≡ kept mask.now (range_with_len 0 (length mask.now))) }
{
    let mut places = Vec::with_capacity(alloc, count_true(mask))?;
    for (place, is_kept) in mask.iter().enumerate() {
        if *is_kept {
            places.push(place)?;
        }
    }
    Ok(places)
}

/// For each target below n the places at which it stands, in order.
///
/// # Errors
///
/// Only where memory runs out.
pub fn places_by_target(
    alloc: Global,
    targets: &[u32],
    n: u32,
) -> Result<Vec<Vec<usize>>, AllocError>
    requires { All (λ target. target < n) targets.now }
    ensures { IfOk result (λ lists. map (λ places. places.items) lists.items ≡ map (λ t. kept (map (λ target. target == t) targets.now) (range_with_len 0 (length targets.now))) (range_with_len 0 n)) }
{
    let share = targets.len().saturating_mul(2) / (n as usize).max(1);
    let mut lists = Vec::with_capacity(alloc, n as usize)?;
    while lists.len() < n as usize {
        lists.push(Vec::with_capacity(alloc, share)?)?;
    }
    for (place, target) in targets.iter().enumerate() {
        let places: &mut Vec<usize> = &mut lists[*target as usize];
        places.push(place)?;
    }
    Ok(lists)
}
