//! The text of a receipt.

ghost use Rattle.std.specs.Prelude.{◌≡◌, ◌++◌, length, map, zip, OnOk, IfOk, string_bytes};
ghost use Rattle.std.specs.Fmt.{decimal};
ghost use Rattle.std.specs.List.{join_with_byte};
ghost use Rattle.receipts.specs.ReceiptText.{label, next_label, quoted, count_name, digest_name, counted_text, partitions_text, source_member, sources_text, names_member, read_members, count_members, head_text, receipt_text};

use crate::digests::Counted;
use crate::receipt::Receipt;
use cut_texts::push_separator;
use job_texts::push_decimal;
use plain_data::Items;
use plan_model::SourceSpec;
use std::alloc::{AllocError, Global};

fn push_label(text: &mut String, name: &str) -> Result<(), AllocError>
    ensures { OnOk result (string_bytes text.new ≡ string_bytes text.old ++ label name.now) }
{
    text.push_str("\"")?;
    text.push_str(name)?;
    text.push_str("\":")
}

fn push_next_label(text: &mut String, name: &str) -> Result<(), AllocError>
    ensures { OnOk result (string_bytes text.new ≡ string_bytes text.old ++ next_label name.now) }
{
    text.push_str(",")?;
    push_label(text, name)
}

fn push_quoted(text: &mut String, name: &str) -> Result<(), AllocError>
    ensures { OnOk result (string_bytes text.new ≡ string_bytes text.old ++ quoted name.now) }
{
    text.push_str("\"")?;
    text.push_str(name)?;
    text.push_str("\"")
}

fn push_count(text: &mut String, count: u64) -> Result<(), AllocError>
    ensures { OnOk result (string_bytes text.new ≡ string_bytes text.old ++ decimal count) }
{
    push_decimal(text, count)
}

#[tactic(auto, unfolding(crate::specs::ReceiptText::count_name))]
fn push_count_label(text: &mut String) -> Result<(), AllocError>
    ensures { OnOk result (string_bytes text.new ≡ string_bytes text.old ++ label count_name) }
{
    push_label(text, "count")
}

#[tactic(auto, unfolding(crate::specs::ReceiptText::digest_name))]
fn push_digest_label(text: &mut String) -> Result<(), AllocError>
    ensures { OnOk result (string_bytes text.new ≡ string_bytes text.old ++ next_label digest_name) }
{
    push_next_label(text, "sha256")
}

/// How many, and their digest.
fn push_counted(alloc: Global, text: &mut String, counted: Counted) -> Result<(), AllocError>
    ensures { OnOk result (string_bytes text.new ≡ string_bytes text.old ++ counted_text counted) }
{
    let digest = hex::encode(alloc, counted.digest.as_slice())?;
    text.push_str("{")?;
    push_count_label(text)?;
    push_count(text, counted.count)?;
    push_digest_label(text)?;
    push_quoted(text, digest.as_str())?;
    text.push_str("}")
}

/// The parts of a source, with commas between them.
fn push_parts(alloc: Global, text: &mut String, parts: &[Counted]) -> Result<(), AllocError>
    ensures { OnOk result (string_bytes text.new ≡ string_bytes text.old ++ join_with_byte 44 (map counted_text parts.now)) }
{
    for (place, counted) in parts.iter().enumerate() {
        push_separator(text, place, ",")?;
        push_counted(alloc, text, *counted)?;
    }
    Ok(())
}

fn push_source(
    alloc: Global,
    text: &mut String,
    source: &SourceSpec,
    parts: &[Counted],
) -> Result<(), AllocError>
    ensures { OnOk result (string_bytes text.new ≡ string_bytes text.old ++ source_member (source.now, parts.now)) }
{
    push_label(text, source.uid.as_str())?;
    text.push_str("[")?;
    push_parts(alloc, text, parts)?;
    text.push_str("]")
}

/// The sources, with commas between them.
fn push_members(
    alloc: Global,
    text: &mut String,
    sources: &[SourceSpec],
    read: &[Items<Counted>],
) -> Result<(), AllocError>
    requires { length sources.now ≡ length read.now }
    ensures { OnOk result (string_bytes text.new ≡ string_bytes text.old ++ join_with_byte 44 (map source_member (zip sources.now read.now))) }
{
    for (place, source) in sources.iter().enumerate() {
        push_separator(text, place, ",")?;
        push_source(alloc, text, source, read[place].as_slice())?;
    }
    Ok(())
}

fn push_sources(
    alloc: Global,
    text: &mut String,
    sources: &[SourceSpec],
    read: &[Items<Counted>],
) -> Result<(), AllocError>
    requires { length sources.now ≡ length read.now }
    ensures { OnOk result (string_bytes text.new ≡ string_bytes text.old ++ sources_text sources.now read.now) }
{
    text.push_str("{")?;
    push_members(alloc, text, sources, read)?;
    text.push_str("}")
}

fn push_member(
    alloc: Global,
    text: &mut String,
    name: &str,
    counted: Counted,
) -> Result<(), AllocError>
    ensures { OnOk result (string_bytes text.new ≡ string_bytes text.old ++ (next_label name.now ++ counted_text counted)) }
{
    push_next_label(text, name)?;
    push_counted(alloc, text, counted)
}

fn push_names(alloc: Global, text: &mut String, names: Option<Counted>) -> Result<(), AllocError>
    ensures { OnOk result (string_bytes text.new ≡ string_bytes text.old ++ names_member names) }
{
    match names {
        None => Ok(()),
        Some(names) => push_member(alloc, text, "names", names),
    }
}

/// What was read.
fn push_read(
    alloc: Global,
    text: &mut String,
    sources: &[SourceSpec],
    receipt: &Receipt,
) -> Result<(), AllocError>
    requires { length sources.now ≡ length receipt.now.sources }
    ensures { OnOk result (string_bytes text.new ≡ string_bytes text.old ++ read_members sources.now receipt.now) }
{
    push_member(alloc, text, "plan", receipt.plan)?;
    push_next_label(text, "sources")?;
    push_sources(alloc, text, sources, receipt.sources.as_slice())?;
    push_names(alloc, text, receipt.names)
}

/// How many records were read, and what was written.
fn push_counts(alloc: Global, text: &mut String, receipt: &Receipt) -> Result<(), AllocError>
    ensures { OnOk result (string_bytes text.new ≡ string_bytes text.old ++ count_members receipt.now) }
{
    push_next_label(text, "records")?;
    push_count(text, receipt.records)?;
    push_member(alloc, text, "rows", receipt.rows)
}

/// The version that wrote it, and how many legs there are.
fn push_head(text: &mut String, version: &str, legs: u64) -> Result<(), AllocError>
    ensures { OnOk result (string_bytes text.new ≡ string_bytes text.old ++ head_text version.now legs) }
{
    text.push_str("{")?;
    push_label(text, "version")?;
    push_quoted(text, version)?;
    push_next_label(text, "legs")?;
    push_count(text, legs)
}

/// The text of a receipt: one JSON object in a line. The version is that of the program that wrote it, and has no
/// character that JSON escapes; the sources are those of the plan.
///
/// # Errors
///
/// Only where memory runs out.
pub fn text_of_receipt(
    alloc: Global,
    version: &str,
    sources: &[SourceSpec],
    receipt: &Receipt,
) -> Result<String, AllocError>
    requires { length sources.now ≡ length receipt.now.sources }
    ensures { IfOk result (λ text. string_bytes text ≡ receipt_text version.now sources.now receipt.now) }
{
    let mut text = String::new(alloc);
    push_head(&mut text, version, receipt.legs)?;
    push_read(alloc, &mut text, sources, receipt)?;
    push_counts(alloc, &mut text, receipt)?;
    text.push_str("}\n")?;
    Ok(text)
}
