//! The word of a cut.

ghost use Rattle.std.specs.Prelude.{◌≡◌, ◌++◌, OnOk, IfOk, map, string_bytes};
ghost use Rattle.cut_texts.specs.Words.{before_part, source_text, cut_text};

use job_texts::push_decimal;
use legs::Cut;
use plain_data::Items;
use std::alloc::{AllocError, Global};

/// Puts behind a text what stands before the part at a place: nothing before the first one, and else the separator.
///
/// # Errors
///
/// Only where memory runs out.
pub fn push_separator(text: &mut String, place: usize, separator: &str) -> Result<(), AllocError>
    ensures { OnOk result (string_bytes text.new ≡ string_bytes text.old ++ before_part separator.now place) }
{
    if place == 0 {
        return Ok(());
    }
    text.push_str(separator)
}

/// The counts of a source, with commas between them.
fn push_source(text: &mut String, counts: &[u64]) -> Result<(), AllocError>
    ensures { OnOk result (string_bytes text.new ≡ string_bytes text.old ++ source_text counts.now) }
{
    for (place, count) in counts.iter().enumerate() {
        push_separator(text, place, ",")?;
        push_decimal(text, *count)?;
    }
    Ok(())
}

/// The sources, with slashes between them.
fn text_of_sources(alloc: Global, sources: &[Items<u64>]) -> Result<String, AllocError>
    ensures { IfOk result (λ text. string_bytes text ≡ cut_text sources.now) }
{
    let mut text = String::new(alloc);
    for (place, counts) in sources.iter().enumerate() {
        push_separator(&mut text, place, "/")?;
        push_source(&mut text, counts.as_slice())?;
    }
    Ok(text)
}

/// The word that spells a cut, as `2,2/5`: for each source in plan order the counts of its partitions, with commas
/// between counts and a `/` between sources.
///
/// # Errors
///
/// Only where memory runs out.
pub fn text_of_cut(alloc: Global, cut: &Cut) -> Result<String, AllocError>
    ensures { IfOk result (λ text. string_bytes text ≡ cut_text cut.now.counts) }
{
    text_of_sources(alloc, cut.counts.as_slice())
}
