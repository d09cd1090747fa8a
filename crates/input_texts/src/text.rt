//! What an input's text says, before it is compared with a plan.

ghost use Rattle.serde_json.specs.View.{view};
ghost use Rattle.json_parts.specs.Parts.{Gives};
ghost use Rattle.input_texts.specs.InputText.{entry_text, rows_text, watermark_text, input_text};
ghost use Rattle.input_texts.specs.Said as said;
ghost use Rattle.std.specs.Prelude.{◌≡◌};

use json_parts::{FromValue, Member, PartError, has_only, list_of, member_named, members_of};
use plain_data::Items;
use serde_json::Value;
use std::alloc::Global;

/// An entry whose numbers and lengths are not checked: rows of cells, or a watermark. None stands where
/// the text has no whole number.
#[derive(Debug, Drop)]
pub enum EntryText {
    Rows(Items<Items<Option<i64>>>),
    Watermark(Option<i64>),
}

/// What a document says under a name: partitions, and the entries of each.
pub type SourceText = Member<Items<Items<EntryText>>>;

impl FromValue for EntryText {
    ghost use Rattle.input_texts.specs.InputText.{entry_text};

    ghost text_of = { entry_text };

    fn from_value(alloc: Global, value: &Value) -> Result<EntryText, PartError> {
        entry_of(alloc, value)
    }
}

#[tactic(auto, unfolding(crate::specs::InputText::entry_text))]
fn entry_of(alloc: Global, value: &Value) -> Result<EntryText, PartError>
    ensures { Gives (λ entry. entry) result (entry_text (view value.now)) }
{
    if has_only(value, &["rows"]) {
        rows_of(alloc, value)
    } else if has_only(value, &["watermark"]) {
        watermark_of(value)
    } else {
        Err(PartError::Form)
    }
}

#[tactic(auto, unfolding(crate::specs::InputText::rows_text))]
fn rows_of(alloc: Global, value: &Value) -> Result<EntryText, PartError>
    ensures { Gives (λ entry. entry) result (rows_text (view value.now)) }
{
    Ok(EntryText::Rows(list_of(alloc, value, "rows")?))
}

#[tactic(auto, unfolding(crate::specs::InputText::watermark_text))]
fn watermark_of(value: &Value) -> Result<EntryText, PartError>
    ensures { Gives (λ entry. entry) result (watermark_text (view value.now)) }
{
    match value.get("watermark") {
        None => Err(PartError::Form),
        Some(time) => Ok(EntryText::Watermark(time.as_i64())),
    }
}

/// What the value says as an input: for each member its partitions.
#[tactic(auto, unfolding(crate::specs::InputText::input_text))]
pub fn text_of_input(alloc: Global, value: &Value) -> Result<Items<SourceText>, PartError>
    ensures { Gives (λ text. text) result (input_text (view value.now)) }
{
    members_of(alloc, value)
}

/// The partitions of the member with a name, none where there is no such member.
pub fn partitions_of<'t>(sources: &'t [SourceText], uid: &str) -> &'t [Items<EntryText>]
    ensures { result.now ≡ said.partitions_under uid.now sources.now }
{
    match member_named(sources, uid) {
        Some((_, partitions)) => partitions.as_slice(),
        None => &[],
    }
}
