//! The fault of a text, found without keeping anything of it but what is noted.

ghost use Rattle.std.specs.Prelude.{◌≡◌, ◌^◌, ◌<◌, ◌==◌, ◌≤◌, ◌&&◌, ℕ, true, false, List, Some, None, Ok, Err, MatchResult, IsOk, IfErr, IfNone, cond, nat_le, sum_by, is_some, length, map, bytes_eq, option_map, IfOk, IfSome, OnOk};
ghost use Rattle.std.specs.List.{All, IsDistinct, list_all, list_any, zip};
ghost use Rattle.json.specs.Token.{Token as SpecToken};
ghost use Rattle.json.specs.Json.{read_key};
ghost use Rattle.serde_json.specs.Data.{Data, Members, no_members, object, put as with_member};
ghost use Rattle.serde_json.specs.Read.{read};
ghost use Rattle.json_tokens.specs.Passed.{IsNoValue, MembersRead, Passes, after};
ghost use Rattle.plan_model.specs.declared.limits.TheConstants.{MOST_RECORDS};
ghost use Rattle.stream_model.specs.Late.{first_at};
ghost use Rattle.input_texts.specs.Answer.{Fails, input_or_fault, is_memory};
ghost use Rattle.input_texts.specs.Said.{input_of};
ghost use Rattle.input_texts.specs.Fault.{late_fault};
ghost use Rattle.input_texts.specs.InputText.{InputText};
ghost use Rattle.input_texts.specs.Document.{AreSeen, Checks, IsNoted, Tells, is_other_slot, names_in, said_in};
ghost use Rattle.input_texts.specs.Seen.{slot_of};

use crate::fault::InputFault;
use crate::noting::next_source;
use crate::seen::SourceSeen;
use crate::slots::{bound_of, empty_slots, place_of, put};
use json::{Reader, Scratch};
use json_tokens::{MOST_DEPTH, Miss, open_object};
use plan_model::{MOST_RECORDS, Plan, SourceSpec};
use std::alloc::{AllocError, Global};
use std::collections::BTreeSet;

/// The most names of members that the plan lacks and that have another form.
const MOST_NAMES: usize = 8;

/// What is noted of the members of a document.
#[derive(Debug, Drop)]
struct Document {
    /// For each source of the plan, what its last member is seen to have. Some(None): that has another form.
    slots: Vec<Option<Option<SourceSeen>>>,
    /// Names that the plan lacks, whose last members have another form.
    names: BTreeSet<String>,
    /// Whether each member names a source of the plan.
    is_planned: bool,
    /// Whether there may be more such names.
    are_more: bool,
}

/// Takes a name out of the list, and puts it in again where its last member has another form. False: there
/// was no room for it.
fn put_name(
    alloc: Global,
    names: &mut BTreeSet<String>,
    name: &str,
    is_malformed: bool,
    most: usize,
) -> Result<bool, Miss>
    ensures refused { IfErr result (λ miss. miss ≡ Miss.Memory) }
    ensures said { IfOk result (λ has_room. (k : List ℕ) → list_any (bytes_eq k) (names_in names.new) ≡ cond (bytes_eq k name.now) (is_malformed && has_room) (list_any (bytes_eq k) (names_in names.old))) }
    ensures full { IfOk result (λ has_room. has_room ≡ false → (most ≤ length (names_in names.new)) × IsDistinct bytes_eq (names_in names.new)) }
{
    names.remove(name);
    if !is_malformed {
        return Ok(true);
    }
    if most <= names.len() {
        return Ok(false);
    }
    names.insert(String::from_str(alloc, name)?)?;
    Ok(true)
}

/// Notes one more member, in place of an earlier one of the same name.
fn put_member(
    alloc: Global,
    plan: &Plan,
    document: &mut Document,
    name: &str,
    source: Option<SourceSeen>,
    most: usize,
) -> Result<(), Miss>
    requires { length document.old.slots.items ≡ length plan.now.sources }
    ensures refused { IfErr result (λ miss. miss ≡ Miss.Memory) }
    ensures said { OnOk result ((ms : Members) → (d : Data) → IsNoted plan.now most ms document.old → source ≡ slot_of plan.now name.now d → IsNoted plan.now most (with_member name.now d ms) document.new) }
{
    if let Some(place) = place_of(plan.sources(), name.as_bytes()) {
        put(&mut document.slots, place, source);
        return Ok(());
    }
    let has_room = put_name(alloc, &mut document.names, name, source.is_none(), most)?;
    document.is_planned = false;
    document.are_more = document.are_more | !has_room;
    Ok(())
}

/// The name of the next member, or None at the closing brace.
fn next_name<'a>(reader: &mut Reader<'a>) -> Result<Option<&'a str>, Miss>
    ensures said { IfOk result (λ name. read_key reader.old ≡ Some (option_map (λ k. k.now) name, reader.new)) }
    ensures refused { IfErr result (λ _. read_key reader.old ≡ None) }
{
    match reader.next_key() {
        Ok(name) => Ok(name),
        Err(_) => Err(Miss::Other),
    }
}

/// The members of the document up to the closing brace.
fn members_noted(
    alloc: Global,
    plan: &Plan,
    reader: &mut Reader<'_>,
    most: usize,
    depth: usize,
) -> Result<Document, Miss>
    ensures refused { IfErr result (λ miss. miss ≡ Miss.Other → after depth no_members (length reader.old) reader.old ≡ None) }
    ensures said { IfOk result (λ document. (ms : Members) × (rest : List SpecToken) × MembersRead depth reader.old ms rest × (read_key rest ≡ Some (None, reader.new))
        × IsNoted plan.now most ms document) }
{
    let mut document = Document {
        slots: empty_slots(alloc, plan.sources())?,
        names: BTreeSet::new(alloc),
        is_planned: true,
        are_more: false,
    };
    'members: while let Some(name) = next_name(reader)? {
        let bound = bound_of(plan, name.as_bytes());
        let source = next_source(plan, bound, reader, depth)?;
        put_member(alloc, plan, &mut document, name, source, most)?;
    }
    Ok(document)
}

/// The whole document. None: it is no object.
fn document_noted(
    alloc: Global,
    plan: &Plan,
    reader: &mut Reader<'_>,
    most: usize,
    depth: usize,
) -> Result<Option<Document>, Miss>
    ensures refused { IfErr result (λ miss. miss ≡ Miss.Other → IsNoValue depth reader.old) }
    ensures said { IfOk result (λ told. (d : Data) × Passes depth reader.old d reader.new × Tells plan.now most told d) }
{
    let is_open = open_object(reader, depth)?;
    if !is_open {
        return Ok(None);
    }
    let document = members_noted(alloc, plan, reader, most, depth - 1)?;
    Ok(Some(document))
}

fn is_other_form(slot: Option<Option<SourceSeen>>) -> bool
    ensures { result ≡ is_other_slot slot }
{
    matches!(slot, Some(None))
}

/// Whether a source's member has another form.
fn has_other_form(slots: &[Option<Option<SourceSeen>>]) -> bool
    ensures { result ≡ list_any is_other_slot slots.now }
{
    slots.iter().any(|slot| is_other_form(*slot))
}

fn are_given(slots: &[Option<Option<SourceSeen>>]) -> bool
    ensures { result ≡ list_all is_some slots.now }
{
    slots.iter().all(|slot| slot.is_some())
}

/// What is seen of each source, where each has a member of its form.
fn sources_seen(
    alloc: Global,
    slots: &[Option<Option<SourceSeen>>],
) -> Result<Vec<SourceSeen>, AllocError>
    requires given { list_all is_some slots.now ≡ true }
    requires formed { list_any is_other_slot slots.now ≡ false }
    ensures { IfOk result (λ sources. slots.now ≡ map (λ source. Some (Some source)) sources.items) }
{
    let mut sources = Vec::with_capacity(alloc, slots.len())?;
    for slot in slots {
        sources.push(slot.unwrap().unwrap())?;
    }
    Ok(sources)
}

fn are_as_many(sources: &[SourceSeen], specs: &[SourceSpec]) -> bool
    ensures { result ≡ list_all (λ p. p.0.partitions == p.1.partitions) (zip sources.now specs.now) }
{
    sources.iter().zip(specs).all(|(source, spec)| source.partitions == spec.partitions as u64)
}

/// Whether each row of all sources has as many elements as the plan has columns.
fn are_wide(sources: &[SourceSeen]) -> bool
    ensures { result ≡ list_all (λ source. source.met.is_wide) sources.now }
{
    sources.iter().all(|source| source.met.is_wide)
}

/// Whether each of their elements, and each watermark, is a whole number.
fn are_whole(sources: &[SourceSeen]) -> bool
    ensures { result ≡ list_all (λ source. source.met.is_whole) sources.now }
{
    sources.iter().all(|source| source.met.is_whole)
}

/// Whether each of their entries of rows has 1 to 4,096.
fn are_sized(sources: &[SourceSeen]) -> bool
    ensures { result ≡ list_all (λ source. source.met.is_sized) sources.now }
{
    sources.iter().all(|source| source.met.is_sized)
}

/// Whether the time of each of their rows, and each watermark, is in range.
fn are_timely(sources: &[SourceSeen]) -> bool
    ensures { result ≡ list_all (λ source. source.met.is_timely) sources.now }
{
    sources.iter().all(|source| source.met.is_timely)
}

/// Whether no watermark stands in a source that makes its own.
fn are_of_kind(sources: &[SourceSeen]) -> bool
    ensures { result ≡ list_all (λ source. source.met.is_kind) sources.now }
{
    sources.iter().all(|source| source.met.is_kind)
}

/// The first record that comes too late, by the place of its source.
fn late_in(sources: &[SourceSeen]) -> Option<InputFault>
    requires few { length sources.now < 2 ^ 32 }
    requires narrow { All (λ source. IfSome source.late (λ place. place.0 < 2 ^ 32)) sources.now }
    ensures { result ≡ option_map late_fault (first_at (λ source. source.late) sources.now) }
{
    for (place, source) in sources.iter().enumerate() {
        if let Some((partition, entry)) = source.late {
            return Some(InputFault::LateRecord {
                source: place as u32,
                partition: partition as u32,
                entry,
            });
        }
    }
    None
}

/// Whether there are no more records than an input may have.
fn are_few(sources: &[SourceSeen]) -> bool
    ensures { result ≡ nat_le (sum_by (λ source. source.records) sources.now) MOST_RECORDS }
{
    let mut total: u64 = 0;
    for source in sources {
        total = total.saturating_add(source.records);
    }
    total <= MOST_RECORDS
}

/// The first fault of a text behind that of its names, where this is seen of its sources.
fn first_fault(plan: &Plan, sources: &[SourceSeen]) -> Option<InputFault>
    requires { (text : InputText) × AreSeen plan.now text sources.now }
    ensures first { IfSome result (λ fault. (text : InputText) → AreSeen plan.now text sources.now → input_or_fault plan.now text ≡ Err fault) }
    ensures none { IfNone result ((text : InputText) → AreSeen plan.now text sources.now → input_or_fault plan.now text ≡ Ok (input_of plan.now text)) }
{
    if !are_as_many(sources, plan.sources()) {
        return Some(InputFault::Partitions);
    }
    if !are_wide(sources) {
        return Some(InputFault::Width);
    }
    if !are_whole(sources) {
        return Some(InputFault::Number);
    }
    if !are_sized(sources) {
        return Some(InputFault::Rows);
    }
    if !are_timely(sources) {
        return Some(InputFault::TimeRange);
    }
    if !are_of_kind(sources) {
        return Some(InputFault::Kind);
    }
    if let Some(fault) = late_in(sources) {
        return Some(fault);
    }
    if !are_few(sources) {
        return Some(InputFault::TooMany);
    }
    None
}

/// Whether it is told by what was noted of a document that there is no fault. False: the plan lacks more names
/// than were kept, so that the fault is not told.
///
/// # Errors
///
/// The first fault; `Memory`.
fn check_document(alloc: Global, plan: &Plan, document: &Document) -> Result<bool, InputFault>
    requires { (most : ℕ) × (ms : Members) × IsNoted plan.now most ms document.now }
    ensures { (most : ℕ) → (ms : Members) → IsNoted plan.now most ms document.now → Checks plan.now most (Some (object ms)) result }
{
    let is_malformed = has_other_form(&document.slots) | !document.names.is_empty();
    if is_malformed {
        return Err(InputFault::Member);
    }
    if document.are_more {
        return Ok(false);
    }
    let is_named = document.is_planned & are_given(&document.slots);
    if !is_named {
        return Err(InputFault::Source);
    }
    let sources = sources_seen(alloc, &document.slots)?;
    match first_fault(plan, &sources) {
        Some(fault) => Err(fault),
        None => Ok(true),
    }
}

/// The document that a text is. None: it is no object.
///
/// # Errors
///
/// `Other` where the text is no JSON; `Memory`.
fn document_in(
    alloc: Global,
    plan: &Plan,
    text: &str,
    most: usize,
) -> Result<Option<Document>, Miss>
    ensures refused { IfErr result (λ miss. miss ≡ Miss.Other → read text.now ≡ None) }
    ensures said { IfOk result (λ told. (d : Data) × (read text.now ≡ Some d) × Tells plan.now most told d) }
{
    let mut scratch = Scratch::new(alloc);
    let mut reader = Reader::new(text, &mut scratch)?;
    let told = document_noted(alloc, plan, &mut reader, most, MOST_DEPTH)?;
    if reader.next().is_some() {
        return Err(Miss::Other);
    }
    Ok(told)
}

/// Whether it is told that a text is an input of the plan, where at most so many names are kept of members
/// that the plan lacks. False: it has more of them, so that the fault is not told.
///
/// # Errors
///
/// The first fault; `Memory`.
fn check_by(alloc: Global, plan: &Plan, text: &str, most: usize) -> Result<bool, InputFault>
    ensures { Checks plan.now most (read text.now) result }
{
    match document_in(alloc, plan, text, most) {
        Ok(Some(document)) => check_document(alloc, plan, &document),
        Ok(None) => Err(InputFault::Member),
        Err(Miss::Other) => Err(InputFault::NotJson),
        Err(Miss::Memory) => Err(InputFault::Memory),
    }
}

/// Whether a text is an input of the plan, of which nothing is kept.
///
/// # Errors
///
/// The first fault in the order of [`InputFault`], each over the whole document before the next.
pub fn check_text(alloc: Global, plan: &Plan, text: &str) -> Result<(), InputFault>
    ensures { MatchResult result (λ _. IsOk (said_in plan.now text.now)) (λ fault. Fails is_memory fault (said_in plan.now text.now)) }
{
    if check_by(alloc, plan, text, MOST_NAMES)? {
        return Ok(());
    }
    if check_by(alloc, plan, text, usize::MAX)? {
        return Ok(());
    }
    // No memory holds so many names.
    Err(InputFault::Memory)
}
