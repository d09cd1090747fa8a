//! Reading a receipt.

ghost use Rattle.std.specs.Prelude.{◌≡◌, length, map, IfOk};
ghost use Rattle.answers.specs.Answer.{Gives as GivesBy};
ghost use Rattle.serde_json.specs.View.{view};
ghost use Rattle.json_parts.specs.Parts.{Gives};
ghost use Rattle.receipts.specs.FaultLine.{is_memory};
ghost use Rattle.receipts.specs.Said as said;

use crate::digests::Counted;
use crate::fault::{ReceiptFault, fault_of_part};
use crate::parts::{count_at, counted_at, counted_if_there};
use crate::receipt::Receipt;
use json_parts::{PartError, has_only, list_of, text_of, value_of};
use plain_data::Items;
use plan_model::SourceSpec;
use serde_json::Value;
use std::alloc::{AllocError, Global};

/// The partitions of a source, if they are as many as the plan's.
fn source_in(
    alloc: Global,
    object: &Value,
    source: &SourceSpec,
) -> Result<Items<Counted>, PartError>
    ensures { Gives (λ partitions. partitions) result (said.source_said (view object.now) source.now) }
{
    let partitions = list_of(alloc, object, source.uid.as_str())?;
    if partitions.len() != source.partitions as usize {
        return Err(PartError::Form);
    }
    Ok(partitions)
}

fn each_source(
    alloc: Global,
    object: &Value,
    sources: &[SourceSpec],
) -> Result<Items<Items<Counted>>, PartError>
    ensures { Gives (λ read. read) result (said.each_source (view object.now) sources.now) }
{
    let mut read = Vec::new(alloc);
    for source in sources {
        read.push(source_in(alloc, object, source)?)?;
    }
    Ok(Items::from_vec(read))
}

fn uids_of<'s>(alloc: Global, sources: &'s [SourceSpec]) -> Result<Vec<&'s str>, AllocError>
    ensures { IfOk result (λ uids. map (λ uid. uid.now) uids.items ≡ map (λ s. s.uid) sources.now) }
{
    let mut uids = Vec::new(alloc);
    for source in sources {
        uids.push(source.uid.as_str())?;
    }
    Ok(uids)
}

/// The sources of a plan, in its order, and no other.
#[tactic(auto, unfolding(crate::specs::Said::sources_said))]
fn sources_in(
    alloc: Global,
    object: &Value,
    sources: &[SourceSpec],
) -> Result<Items<Items<Counted>>, PartError>
    ensures { Gives (λ read. read) result (said.sources_said sources.now (view object.now)) }
{
    let uids = uids_of(alloc, sources)?;
    if !has_only(object, &uids) {
        return Err(PartError::Form);
    }
    each_source(alloc, object, sources)
}

#[tactic(auto, unfolding(crate::specs::Said::sources_at))]
fn sources_at(
    alloc: Global,
    object: &Value,
    name: &str,
    sources: &[SourceSpec],
) -> Result<Items<Items<Counted>>, PartError>
    ensures { Gives (λ read. read) result (said.sources_at name.now sources.now (view object.now)) }
{
    match object.get(name) {
        None => Err(PartError::Form),
        Some(value) => sources_in(alloc, value, sources),
    }
}

/// The receipt that a value says.
#[tactic(auto, unfolding(crate::specs::Said::receipt_said))]
fn receipt_in(alloc: Global, value: &Value, sources: &[SourceSpec]) -> Result<Receipt, PartError>
    ensures { Gives (λ receipt. receipt) result (said.receipt_said sources.now (view value.now)) }
{
    let names = [
        "version", "legs", "plan", "sources", "names", "records", "rows",
    ];
    if !has_only(value, &names) {
        return Err(PartError::Form);
    }
    let _version = text_of(value, "version")?;
    Ok(Receipt {
        legs: count_at(value, "legs")?,
        plan: counted_at(value, "plan")?,
        sources: sources_at(alloc, value, "sources", sources)?,
        records: count_at(value, "records")?,
        rows: counted_at(value, "rows")?,
        names: counted_if_there(value, "names")?,
    })
}

/// The bytes without the line feed at their end.
fn without_line_feed(bytes: &[u8]) -> &[u8]
    ensures { result.now ≡ said.without_line_feed bytes.now }
{
    let before = bytes.len().saturating_sub(1);
    if &bytes[before..] == b"\n".as_slice() {
        &bytes[..before]
    } else {
        bytes
    }
}

#[tactic(auto, unfolding(crate::specs::Said::receipt_of_bytes))]
fn receipt_of_bytes(
    alloc: Global,
    sources: &[SourceSpec],
    bytes: &[u8],
) -> Result<Receipt, PartError>
    ensures { Gives (λ receipt. receipt) result (said.receipt_of_bytes sources.now bytes.now) }
{
    let value = value_of(alloc, without_line_feed(bytes))?;
    receipt_in(alloc, &value, sources)
}

/// The receipt that the bytes are, a JSON text, of a job whose plan has these sources. Its version is not looked at.
///
/// # Errors
///
/// [`ReceiptFault::Form`] where the bytes are no JSON text, a member is missing, unknown or of another form, or its
/// sources are not just these, each with its number of partitions; [`ReceiptFault::Memory`] where memory runs out.
pub fn read_receipt(
    alloc: Global,
    sources: &[SourceSpec],
    bytes: &[u8],
) -> Result<Receipt, ReceiptFault>
    ensures reads { GivesBy is_memory (λ receipt. receipt) result (said.receipt_or_fault sources.now bytes.now) }
    ensures sources { IfOk result (λ receipt. map (λ partitions. length partitions) receipt.sources ≡ map (λ s. s.partitions) sources.now) }
{
    match receipt_of_bytes(alloc, sources, bytes) {
        Ok(receipt) => Ok(receipt),
        Err(part) => Err(fault_of_part(part)),
    }
}
