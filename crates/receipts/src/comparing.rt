//! Whether what a receipt tells of is still so.

ghost use Rattle.std.specs.Prelude.{◌≡◌, length, map, option_map};
ghost use Rattle.receipts.specs.Compared as said;
ghost use Rattle.receipts.specs.Compared.{ChecksPartition, ChecksSource, ChecksSources};

use crate::digests::Counted;
use crate::fault::ReceiptFault;
use plain_data::Items;
use plan_model::{SourceSpec, Uid};
use sha2::{Digest as Hash, Sha256};
use std::alloc::Global;

/// How many bytes these are, and their digest.
pub fn counted_bytes(bytes: &[u8]) -> Counted
    ensures { result ≡ said.counted_bytes bytes.now }
{
    Counted {
        count: bytes.len() as u64,
        digest: Sha256::digest(bytes),
    }
}

/// Whether a plan's record is the one that a receipt tells of.
///
/// # Errors
///
/// [`ReceiptFault::Plan`] where it is not.
pub fn check_plan(told: Counted, bytes: &[u8]) -> Result<(), ReceiptFault>
    ensures { result ≡ said.plan_checked told bytes.now }
{
    if counted_bytes(bytes) != told {
        return Err(ReceiptFault::Plan);
    }
    Ok(())
}

/// Whether bytes begin with those that were told of.
fn begins_with(told: Counted, bytes: &[u8]) -> bool
    ensures { result ≡ said.begins_with told bytes.now }
{
    if told.count > bytes.len() as u64 {
        return false;
    }
    counted_bytes(&bytes[..told.count as usize]) == told
}

/// Whether a table of names begins with the bytes that a receipt tells of, if it tells of any: names may have come
/// behind them.
///
/// # Errors
///
/// [`ReceiptFault::Names`] where it does not, or where the receipt tells of a table and there is none.
pub fn check_names(told: Option<Counted>, names: Option<&[u8]>) -> Result<(), ReceiptFault>
    ensures { result ≡ said.names_checked told (option_map (λ bytes. bytes.now) names.entry) }
{
    match (told, names) {
        (None, _) => Ok(()),
        (Some(told), Some(names)) if begins_with(told, names) => Ok(()),
        (Some(_), _) => Err(ReceiptFault::Names),
    }
}

fn check_partition(
    alloc: Global,
    uid: &Uid,
    partition: u64,
    told: Counted,
    read: Counted,
) -> Result<(), ReceiptFault>
    ensures { ChecksPartition uid.now partition told read result }
{
    if told.count != read.count {
        return Err(ReceiptFault::Cut(uid.copy(alloc)?, partition));
    }
    if told.digest != read.digest {
        return Err(ReceiptFault::Entries(uid.copy(alloc)?, partition));
    }
    Ok(())
}

fn check_source(
    alloc: Global,
    uid: &Uid,
    told: &[Counted],
    read: &[Counted],
) -> Result<(), ReceiptFault>
    requires { length told.now ≡ length read.now }
    ensures { ChecksSource uid.now told.now read.now result }
{
    for (place, told) in told.iter().enumerate() {
        check_partition(alloc, uid, place as u64, *told, read[place])?;
    }
    Ok(())
}

/// Whether what was read of an input before a cut is what a receipt tells of: the first partition of the first source
/// that differs is named.
///
/// # Errors
///
/// [`ReceiptFault::Cut`] where another number of its entries was read, or else [`ReceiptFault::Entries`];
/// [`ReceiptFault::Memory`].
pub fn check_entries(
    alloc: Global,
    sources: &[SourceSpec],
    told: &[Items<Counted>],
    read: &[Items<Counted>],
) -> Result<(), ReceiptFault>
    requires sources { length sources.now ≡ length told.now }
    requires partitions { map (λ counted. length counted) told.now ≡ map (λ counted. length counted) read.now }
    ensures { ChecksSources (map (λ s. s.uid) sources.now) told.now read.now result }
{
    for (place, source) in sources.iter().enumerate() {
        let told = told[place].as_slice();
        check_source(alloc, &source.uid, told, read[place].as_slice())?;
    }
    Ok(())
}
