//! Parts of a receipt: so many of something, and their digest.

ghost use Rattle.std.specs.Prelude.{◌≡◌};
ghost use Rattle.serde_json.specs.View.{view};
ghost use Rattle.json_parts.specs.Parts.{Reads};
ghost use Rattle.receipts.specs.Said as said;

use crate::digests::{Counted, Digest};
use json_parts::{FromValue, OtherForm, PartError, has_only, text_of};
use serde_json::Value;
use std::alloc::Global;

/// The count under a name: a number for which `as_u64` gives a value.
#[tactic(auto, unfolding(crate::specs::Said::count_at))]
pub fn count_at(object: &Value, name: &str) -> Result<u64, OtherForm>
    ensures { Reads (λ n. n) result (said.count_at name.now (view object.now)) }
{
    object.get(name).and_then(Value::as_u64).ok_or(OtherForm)
}

/// The digest that a text of 64 hexadecimal digits spells.
#[tactic(auto, unfolding(crate::specs::Said::digest_said))]
fn digest_of(text: &str) -> Result<Digest, OtherForm>
    ensures { Reads (λ digest. digest) result (said.digest_said text.now) }
{
    let mut digest = [0; 32];
    match hex::decode_to_slice(text, &mut digest) {
        Ok(()) => Ok(digest),
        Err(_) => Err(OtherForm),
    }
}

#[tactic(auto, unfolding(crate::specs::Said::counted_said, crate::specs::ReceiptText::count_name, crate::specs::ReceiptText::digest_name))]
fn counted_in(value: &Value) -> Result<Counted, OtherForm>
    ensures { Reads (λ counted. counted) result (said.counted_said (view value.now)) }
{
    if !has_only(value, &["count", "sha256"]) {
        return Err(OtherForm);
    }
    let count = count_at(value, "count")?;
    let digest = digest_of(text_of(value, "sha256")?)?;
    Ok(Counted { count, digest })
}

impl FromValue for Counted {
    ghost use Rattle.receipts.specs.Said.{counted_said};

    ghost text_of = { counted_said };

    fn from_value(_alloc: Global, value: &Value) -> Result<Counted, PartError> {
        Ok(counted_in(value)?)
    }
}

/// What stands under a name, as so many of something and their digest.
#[tactic(auto, unfolding(crate::specs::Said::counted_at))]
pub fn counted_at(object: &Value, name: &str) -> Result<Counted, OtherForm>
    ensures { Reads (λ counted. counted) result (said.counted_at name.now (view object.now)) }
{
    match object.get(name) {
        None => Err(OtherForm),
        Some(value) => counted_in(value),
    }
}

/// The same, where a member has the name.
#[tactic(auto, unfolding(crate::specs::Said::counted_if_there))]
pub fn counted_if_there(object: &Value, name: &str) -> Result<Option<Counted>, OtherForm>
    ensures { Reads (λ counted. counted) result (said.counted_if_there name.now (view object.now)) }
{
    match object.get(name) {
        None => Ok(None),
        Some(value) => Ok(Some(counted_in(value)?)),
    }
}
