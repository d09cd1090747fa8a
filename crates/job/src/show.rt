//! A savepoint as text, or one of its key groups.

ghost use Rattle.std.specs.Prelude.{option_map, string_bytes};
ghost use Rattle.answers.specs.Answer.{Gives};
ghost use Rattle.job.specs.Show.{OfBytes, OfGroup, TellsShow, show_said};
ghost use Rattle.job_texts.specs.Fault.{is_memory};
ghost use Rattle.job_texts.specs.Tells.{KeepsWriter};

use job_texts::{JobFault, read_group, text_of_entries, text_of_savepoint, write_text};
use savepoint_index::{decode, decode_group};
use std::alloc::Global;
use std::io::Write;

/// The text of the savepoint that bytes spell.
fn text_of_bytes(alloc: Global, bytes: &[u8]) -> Result<String, JobFault>
    ensures { Gives is_memory string_bytes result (show_said bytes.now) }
{
    let savepoint = decode(alloc, bytes)?;
    Ok(text_of_savepoint(alloc, savepoint.contents())?)
}

/// The lines of a key group of the savepoint that bytes spell with an index.
fn text_of_group(alloc: Global, bytes: &[u8], group: u32) -> Result<String, JobFault>
    ensures { OfGroup (λ said result. Gives is_memory string_bytes result said) group bytes.now result }
{
    let entries = decode_group(alloc, bytes, group)?;
    Ok(text_of_entries(alloc, group, &entries)?)
}

/// The text of all, or of the key group that a word spells.
fn text_of(alloc: Global, bytes: &[u8], group: Option<&str>) -> Result<String, JobFault>
    ensures { OfBytes (λ said result. Gives is_memory string_bytes result said) bytes.now (option_map (λ word. word.now) group.entry) result }
{
    match group {
        Some(word) => {
            let group = read_group(word).ok_or(JobFault::Number)?;
            text_of_group(alloc, bytes, group)
        }
        None => text_of_bytes(alloc, bytes),
    }
}

/// Writes what a savepoint holds: a line for its number, for the number of key groups, for each partition
/// of each source with its offset and watermark, for the window, and for each entry with its key group,
/// start, key, count and numbers.
///
/// With the word of a key group, 1 to 5 digits of a number up to 32767, it writes the lines of that group's entries
/// alone, and none where there are none. They are found by the index, and the other groups are not read: bytes of the
/// layout without an index are refused, and of those of none it may write lines.
///
/// # Errors
///
/// `Number` where the word is none of a key group, whatever the bytes are; the savepoint's fault; `Write` where
/// the writer refuses the text; `Memory`.
pub fn job_show<W: Write>(
    alloc: Global,
    savepoint: &[u8],
    group: Option<&str>,
    out: &mut W,
) -> Result<(), JobFault>
    ensures answers { TellsShow savepoint.now (option_map (λ word. word.now) group.entry) result (W.contents out.old) (W.contents out.new) }
    ensures kept { KeepsWriter result (W.contents out.old) (W.contents out.new) }
{
    let text = text_of(alloc, savepoint, group)?;
    write_text(out, text.as_str())
}
