//! The records of a batch dealt out by the groups of their keys.

ghost use Rattle.std.specs.Prelude.{◌≡◌, ◌<◌, ◌≤◌, map, length, IfOk};
ghost use Rattle.std.specs.List.{All, range_with_len};
ghost use Rattle.plain_data.specs.Record.{column_of};
ghost use Rattle.key_dealing.specs.Dealing.{owner, dealt, rows_at, ArePlaces};

use columns::{Batch, places_by_target};
use key_groups::{MaxParallelism, Parallelism, groups_into, owners_into};
use std::alloc::{AllocError, Global};

/// The subtask that owns each key.
fn owners_of_keys(max: MaxParallelism, par: Parallelism, keys: &[i64], out: &mut [u32])
    requires fits { par ≤ max }
    requires alike { length keys.now ≡ length out.old }
    ensures owners { out.new ≡ map (owner max par) keys.now }
    ensures below { All (λ o. o < par) out.new }
{
    let _groups = max.get();
    groups_into(keys, max, out);
    owners_into(max, par, out);
}

fn owners_of(
    alloc: Global,
    max: MaxParallelism,
    par: Parallelism,
    keys: &[i64],
) -> Result<Vec<u32>, AllocError>
    requires fits { par ≤ max }
    ensures owners { IfOk result (λ owners. owners.items ≡ map (owner max par) keys.now) }
    ensures below { IfOk result (λ owners. All (λ o. o < par) owners.items) }
{
    let mut owners = vec![in alloc; 0u32; keys.len()]?;
    owners_of_keys(max, par, keys, &mut owners);
    Ok(owners)
}

/// The records of a batch in a piece for each subtask.
pub fn pieces_of(
    alloc: Global,
    max: MaxParallelism,
    par: Parallelism,
    key: u32,
    batch: &Batch,
) -> Result<Vec<Batch>, AllocError>
    requires fits { par ≤ max }
    requires key { key < batch.now.width }
    ensures pieces { IfOk result (λ pieces. pieces.items ≡ map (dealt max par key batch.now) (range_with_len 0 par)) }
{
    let keys = batch.column(key as usize);
    let owners = owners_of(alloc, max, par, keys)?;
    match batch.split(alloc, &owners, par.get()) {
        Ok(pieces) => Ok(pieces),
        Err(_) => Err(AllocError),
    }
}

/// The places of the records of a batch that each subtask is dealt, in order.
///
/// # Errors
///
/// Only where memory runs out.
pub fn places_of(
    alloc: Global,
    max: MaxParallelism,
    par: Parallelism,
    key: u32,
    batch: &Batch,
) -> Result<Vec<Vec<usize>>, AllocError>
    requires fits { par ≤ max }
    requires key { key < batch.now.width }
    ensures rows { IfOk result (λ lists. map (λ places. rows_at batch.now.rows places.items) lists.items ≡ map (λ j. (dealt max par key batch.now j).rows) (range_with_len 0 par)) }
    ensures inside { IfOk result (λ lists. All (λ places. ArePlaces batch.now.rows places.items) lists.items) }
{
    let numbers = batch.column(key as usize);
    let owners = owners_of(alloc, max, par, numbers)?;
    places_by_target(alloc, &owners, par.get())
}
