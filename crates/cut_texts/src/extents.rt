//! How far the partitions of an input go, as text.

ghost use Rattle.std.specs.Prelude.{◌≡◌, ◌++◌, length, OnOk, IfOk, string_bytes};
ghost use Rattle.std.specs.List.{flat_map, enumerate_from};
ghost use Rattle.cut_texts.specs.Extents.{times_words, extent_line, source_lines, extents_text};

use input_cuts::{Extent, Times};
use job_texts::push_spaced;
use plain_data::Items;
use plan_model::SourceSpec;
use std::alloc::{AllocError, Global};

fn push_times(text: &mut String, times: Option<Times>) -> Result<(), AllocError>
    ensures { OnOk result (string_bytes text.new ≡ string_bytes text.old ++ times_words times) }
{
    match times {
        None => text.push_str(" - -"),
        Some(Times { least, greatest }) => {
            push_spaced(text, least)?;
            push_spaced(text, greatest)
        }
    }
}

fn push_extent(
    text: &mut String,
    uid: &str,
    number: usize,
    extent: Extent,
) -> Result<(), AllocError>
    ensures { OnOk result (string_bytes text.new ≡ string_bytes text.old ++ extent_line uid.now (number, extent)) }
{
    text.push_str("source ")?;
    text.push_str(uid)?;
    push_spaced(text, number)?;
    push_spaced(text, extent.entries)?;
    push_spaced(text, extent.records)?;
    push_times(text, extent.times)?;
    push_spaced(text, extent.watermark)?;
    text.push_str("\n")
}

fn push_extents(text: &mut String, uid: &str, extents: &[Extent]) -> Result<(), AllocError>
    ensures { OnOk result (string_bytes text.new ≡ string_bytes text.old ++ flat_map (extent_line uid.now) (enumerate_from 0 extents.now)) }
{
    for (number, extent) in extents.iter().enumerate() {
        push_extent(text, uid, number, *extent)?;
    }
    Ok(())
}

fn push_source(
    text: &mut String,
    source: &SourceSpec,
    extents: &Items<Extent>,
) -> Result<(), AllocError>
    ensures { OnOk result (string_bytes text.new ≡ string_bytes text.old ++ source_lines (source.now, extents.now)) }
{
    push_extents(text, source.uid.as_str(), extents.as_slice())
}

/// A line for each partition of each source, in the order of the plan: the source and the partition's number from 0,
/// how many entries and records it has, the least and the greatest time of these, and its greatest watermark. There is
/// a list of extents for each source.
///
/// # Errors
///
/// Only where memory runs out.
pub fn text_of_extents(
    alloc: Global,
    sources: &[SourceSpec],
    extents: &[Items<Extent>],
) -> Result<String, AllocError>
    requires { length sources.now ≡ length extents.now }
    ensures { IfOk result (λ text. string_bytes text ≡ extents_text sources.now extents.now) }
{
    let mut text = String::new(alloc);
    for (place, source) in sources.iter().enumerate() {
        push_source(&mut text, source, &extents[place])?;
    }
    Ok(text)
}
