//! What stands before a cut.

ghost use Rattle.std.specs.Prelude.{◌≡◌, ◌+◌, ◌-◌, ◌^◌, min, take, length};
ghost use Rattle.stream_model.specs.InputData.{records_of_entry, records_in};

use stream_model::{Entry, Marked};

/// The first entries of a partition, or all where it has no more.
pub fn first_entries(entries: &[Marked], count: u64) -> &[Marked]
    ensures { result.now ≡ take count entries.now }
{
    &entries[..count.min(entries.len() as u64) as usize]
}

fn records_of(marked: &Marked) -> u64
    ensures { result ≡ length (records_of_entry marked.now) }
{
    match &marked.entry {
        Entry::Rows(batch) => batch.len() as u64,
        Entry::Watermark(_) => 0,
    }
}

/// So many records and those of entries, as far as they can be counted: at most 2^64 - 1.
pub fn with_records(count: u64, entries: &[Marked]) -> u64
    ensures { result ≡ min (count + length (records_in entries.now)) (2 ^ 64 - 1) }
{
    let mut total = count;
    for entry in entries {
        total = total.saturating_add(records_of(entry));
    }
    total
}
