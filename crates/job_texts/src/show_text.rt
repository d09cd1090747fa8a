//! The text of a savepoint, and of one of its key groups.

ghost use Rattle.std.specs.Prelude.{◌≡◌, ◌++◌, OnOk, IfOk, string_bytes};
ghost use Rattle.std.specs.List.{flat_map, enumerate_from};
ghost use Rattle.savepoint_codec.specs.EntriesView.{entry_data};
ghost use Rattle.savepoint_codec.specs.Numbers.{numbers_of};
ghost use Rattle.job_texts.specs.Text.{spaced};
ghost use Rattle.job_texts.specs.ShowText.{partition_line, source_lines, entry_head, entry_line, entry_lines, group_lines, number_line, max_line, window_line, savepoint_text};

use crate::number::push_numbers;
use plan_model::Pane;
use row_lines::push_spaced;
use savepoint_codec::{Contents, Entries, Entry, Numbers, SavedGroup, SavedPartition, SavedSource};
use std::alloc::{AllocError, Global};

fn write_partition(
    text: &mut String,
    uid: &str,
    number: usize,
    partition: &SavedPartition,
) -> Result<(), AllocError>
    ensures { OnOk result (string_bytes text.new ≡ string_bytes text.old ++ partition_line uid.now (number, partition.now)) }
{
    text.push_str("source ")?;
    text.push_str(uid)?;
    push_spaced(text, number)?;
    push_spaced(text, partition.offset)?;
    push_spaced(text, partition.watermark)?;
    text.push_str("\n")
}

fn write_partitions(
    text: &mut String,
    uid: &str,
    partitions: &[SavedPartition],
) -> Result<(), AllocError>
    ensures { OnOk result (string_bytes text.new ≡ string_bytes text.old ++ flat_map (partition_line uid.now) (enumerate_from 0 partitions.now)) }
{
    for (i, partition) in partitions.iter().enumerate() {
        write_partition(text, uid, i, partition)?;
    }
    Ok(())
}

fn write_source(text: &mut String, source: &SavedSource) -> Result<(), AllocError>
    ensures { OnOk result (string_bytes text.new ≡ string_bytes text.old ++ source_lines source.now) }
{
    write_partitions(text, source.uid.as_str(), source.partitions.as_slice())
}

fn write_sources(text: &mut String, sources: &[SavedSource]) -> Result<(), AllocError>
    ensures { OnOk result (string_bytes text.new ≡ string_bytes text.old ++ flat_map source_lines sources.now) }
{
    for source in sources {
        write_source(text, source)?;
    }
    Ok(())
}

fn write_entry_head(text: &mut String, group: u32, pane: Pane, count: u64) -> Result<(), AllocError>
    ensures { OnOk result (string_bytes text.new ≡ string_bytes text.old ++ entry_head group pane count) }
{
    text.push_str("entry")?;
    push_spaced(text, group)?;
    push_spaced(text, pane.start)?;
    push_spaced(text, pane.key)?;
    push_spaced(text, count)
}

fn write_numbers(text: &mut String, numbers: Numbers<'_>) -> Result<(), AllocError>
    ensures { OnOk result (string_bytes text.new ≡ string_bytes text.old ++ flat_map spaced (numbers_of numbers.entry)) }
{
    match numbers {
        Numbers::Narrow(numbers) => push_numbers(text, numbers),
        Numbers::Wide(numbers) => push_numbers(text, numbers),
    }
}

fn write_entry(text: &mut String, group: u32, entry: Entry<'_>) -> Result<(), AllocError>
    ensures { OnOk result (string_bytes text.new ≡ string_bytes text.old ++ entry_line group (entry_data entry.entry)) }
{
    write_entry_head(text, group, entry.pane, entry.count)?;
    write_numbers(text, entry.numbers)?;
    text.push_str("\n")
}

fn write_entries(text: &mut String, group: u32, entries: &Entries) -> Result<(), AllocError>
    ensures { OnOk result (string_bytes text.new ≡ string_bytes text.old ++ entry_lines group entries.now) }
{
    for i in 0..entries.len() {
        write_entry(text, group, entries.entry(i))?;
    }
    Ok(())
}

fn write_groups(text: &mut String, groups: &[SavedGroup]) -> Result<(), AllocError>
    ensures { OnOk result (string_bytes text.new ≡ string_bytes text.old ++ flat_map group_lines groups.now) }
{
    for group in groups {
        write_entries(text, u32::from(group.group), &group.entries)?;
    }
    Ok(())
}

fn write_number(text: &mut String, number: u64) -> Result<(), AllocError>
    ensures { OnOk result (string_bytes text.new ≡ string_bytes text.old ++ number_line number) }
{
    text.push_str("number")?;
    push_spaced(text, number)?;
    text.push_str("\n")
}

fn write_max(text: &mut String, max: u16) -> Result<(), AllocError>
    ensures { OnOk result (string_bytes text.new ≡ string_bytes text.old ++ max_line max) }
{
    text.push_str("max")?;
    push_spaced(text, max)?;
    text.push_str("\n")
}

fn write_window(text: &mut String, uid: &str) -> Result<(), AllocError>
    ensures { OnOk result (string_bytes text.new ≡ string_bytes text.old ++ window_line uid.now) }
{
    text.push_str("window ")?;
    text.push_str(uid)?;
    text.push_str("\n")
}

/// The lines of a savepoint: its number, the number of key groups, each partition, the window, each entry.
pub fn text_of_savepoint(alloc: Global, contents: &Contents) -> Result<String, AllocError>
    ensures { IfOk result (λ text. string_bytes text ≡ savepoint_text contents.now) }
{
    let mut text = String::new(alloc);
    write_number(&mut text, contents.number)?;
    write_max(&mut text, contents.max)?;
    write_sources(&mut text, contents.sources.as_slice())?;
    write_window(&mut text, contents.window_uid.as_str())?;
    write_groups(&mut text, contents.groups.as_slice())?;
    Ok(text)
}

/// The lines of the entries of a key group, as the text of the whole savepoint has them.
pub fn text_of_entries(alloc: Global, group: u32, entries: &Entries) -> Result<String, AllocError>
    ensures { IfOk result (λ text. string_bytes text ≡ entry_lines group entries.now) }
{
    let mut text = String::new(alloc);
    write_entries(&mut text, group, entries)?;
    Ok(text)
}
