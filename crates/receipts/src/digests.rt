//! What was read of an input before a cut.

ghost use Rattle.std.specs.Prelude.{◌≡◌, ◌≤◌, length, map, take, IfOk};
ghost use Rattle.std.specs.List.{AllZip};
ghost use Rattle.sha2.specs.Sha256.{sha256};
ghost use Rattle.stream_model.specs.Watermarks.{IsCut};
ghost use Rattle.input_changes.specs.Agreement.{entries_before_in};
ghost use Rattle.receipts.specs.Lines.{lines_of};
ghost use Rattle.receipts.specs.Read.{was_read_of, read_before};

use crate::lines::push_line;
use legs::Cut;
use plain_data::Items;
use sha2::{Digest as Hash, Sha256};
use std::alloc::{AllocError, Global};
use stream_model::{Input, Marked, Partition, Source};

/// A SHA-256 digest.
pub type Digest = [u8; 32];

/// So many of something, and the digest of their text.
#[derive(Clone, Copy, Debug, PartialEq, Eq)]
pub struct Counted {
    pub count: u64,
    pub digest: Digest,
}

/// The digest of the lines of entries.
fn digest_of(alloc: Global, entries: &[Marked]) -> Result<Digest, AllocError>
    ensures { IfOk result (λ digest. digest ≡ sha256 (lines_of entries.now)) }
{
    let mut hasher = Sha256::new();
    let mut line = String::new(alloc);
    for entry in entries {
        line.clear();
        push_line(&mut line, entry)?;
        hasher.update(line.as_str());
    }
    Ok(hasher.finalize())
}

fn partition_read(alloc: Global, entries: &[Marked], count: u64) -> Result<Counted, AllocError>
    requires { count ≤ length entries.now }
    ensures { IfOk result (λ read. read ≡ was_read_of (take count entries.now)) }
{
    Ok(Counted {
        count,
        digest: digest_of(alloc, &entries[..count as usize])?,
    })
}

fn source_read(
    alloc: Global,
    partitions: &[Partition],
    counts: &[u64],
) -> Result<Items<Counted>, AllocError>
    requires { AllZip (λ p n. n ≤ length p) partitions.now counts.now }
    ensures { IfOk result (λ read. read ≡ map was_read_of (entries_before_in partitions.now counts.now)) }
{
    let mut read = Vec::new(alloc);
    for (place, entries) in partitions.iter().enumerate() {
        read.push(partition_read(alloc, entries.as_slice(), counts[place])?)?;
    }
    Ok(Items::from_vec(read))
}

fn sources_read(
    alloc: Global,
    sources: &[Source],
    cut: &[Items<u64>],
) -> Result<Items<Items<Counted>>, AllocError>
    requires { IsCut sources.now cut.now }
    ensures { IfOk result (λ read. read ≡ read_before sources.now cut.now) }
{
    let mut read = Vec::new(alloc);
    for (place, source) in sources.iter().enumerate() {
        read.push(source_read(alloc, source.as_slice(), cut[place].as_slice())?)?;
    }
    Ok(Items::from_vec(read))
}

/// What was read of an input before a cut, for each source in the order of the plan and each of its partitions: so many
/// entries, and the digest of their lines.
///
/// # Errors
///
/// Only where memory runs out.
pub fn read_before(
    alloc: Global,
    input: &Input,
    cut: &Cut,
) -> Result<Items<Items<Counted>>, AllocError>
    requires { IsCut input.now.sources cut.now.counts }
    ensures { IfOk result (λ read. read ≡ read_before input.now.sources cut.now.counts) }
{
    sources_read(alloc, input.sources(), cut.counts.as_slice())
}
