//! The names of operators.

ghost use Rattle.std.specs.Prelude.{◌≡◌, ◌++◌, true, OnOk, IfOk};
ghost use Rattle.std.specs.List.{list_all};
ghost use Rattle.byte_fields.specs.Reads.{Reads, Gives};
ghost use Rattle.plan_model.specs.Uids.{is_uid as is_name, is_uid_byte as is_name_byte, uid_field};

use crate::limits::LONGEST_UID;
use byte_fields::{FieldFault, ReadFault, put_bytes, put_u8, read_bytes, read_few};
use plain_data::Text;
use std::alloc::{AllocError, Global};
use std::marker::Model;
use std::str;

/// The name of an operator: by its type 1 to 64 characters of a-z, 0-9 and hyphen.
#[derive(Debug, Drop)]
pub struct Uid {
    text: Text,
}

impl Model for Uid {
    ghost use Rattle.std.specs.Prelude.{◌≡◌, List, ℕ, true};
    ghost use Rattle.plan_model.specs.Uids.{is_uid};

    ghost Value = { List ℕ };

    ghost view = { λ uid. uid.text };

    ghost invariant = { λ uid. is_uid uid.text ≡ true };
}

impl Uid {
    ghost use Rattle.std.specs.Prelude.{◌≡◌, true, IfOk};
    ghost use Rattle.plan_model.specs.Uids.{is_uid};

    /// The uid that a text is.
    pub fn from_text(text: Text) -> Uid
        requires { is_uid text ≡ true }
        ensures { result ≡ text }
    {
        Uid { text }
    }

    /// The uid, borrowed.
    pub fn as_str(&self) -> &str
        ensures says { result.now ≡ self.now }
        ensures sound { is_uid self.now ≡ true }
    {
        self.text.as_str()
    }

    /// The same uid again.
    ///
    /// # Errors
    ///
    /// Only where memory runs out.
    pub fn copy(&self, alloc: Global) -> Result<Uid, AllocError>
        ensures { IfOk result (λ uid. uid ≡ self.now) }
    {
        Ok(Uid {
            text: self.text.copy(alloc)?,
        })
    }
}

fn is_uid_byte(byte: u8) -> bool
    ensures { result ≡ is_name_byte byte }
{
    matches!(byte, b'a'..=b'z' | b'0'..=b'9' | b'-')
}

fn are_uid_bytes(bytes: &[u8]) -> bool
    ensures { result ≡ list_all is_name_byte bytes.now }
{
    bytes.iter().all(|byte| is_uid_byte(*byte))
}

/// Whether a text is a uid.
pub fn is_uid(text: &str) -> bool
    ensures { result ≡ is_name text.now }
{
    1 <= text.len() && text.len() <= LONGEST_UID && are_uid_bytes(text.as_bytes())
}

/// The field of a uid, put after bytes that are there.
///
/// # Errors
///
/// Only where memory runs out.
#[tactic(auto, unfolding(crate::specs::Uids::uid_field, byte_fields::specs::Fields::few_field, byte_fields::specs::Lists::sized))]
pub fn put_uid(out: &mut Vec<u8>, uid: &str) -> Result<(), AllocError>
    requires { is_name uid.now ≡ true }
    ensures { OnOk result (out.new.items ≡ out.old.items ++ uid_field.spell uid.now) }
{
    put_u8(out, uid.len() as u8)?;
    put_bytes(out, uid.as_bytes())
}

/// The text of the bytes of a uid, all of which are ASCII.
fn text_of(bytes: &[u8]) -> &str
    requires { list_all is_name_byte bytes.now ≡ true }
    ensures { result.now ≡ bytes.now }
{
    match str::from_utf8(bytes) {
        Ok(uid) => uid,
        Err(_) => unreachable!(),
    }
}

#[tactic(auto, unfolding(crate::specs::Uids::uid_field, byte_fields::specs::Lists::sized))]
fn read_text(bytes: &[u8]) -> Result<(&str, &[u8]), FieldFault>
    ensures read { Reads (λ x. (x.0.now, x.1.now)) result (uid_field.read bytes.now) }
    ensures sound { IfOk result (λ x. is_name x.0.now ≡ true) }
{
    let (length, rest) = read_few(LONGEST_UID as u8, bytes)?;
    let (uid, rest) = read_bytes(length as usize, rest)?;
    if !are_uid_bytes(uid) {
        return Err(FieldFault::Range);
    }
    Ok((text_of(uid), rest))
}

/// A uid read from the front of bytes, and the bytes behind it.
///
/// # Errors
///
/// The fault of its field, or `Memory`.
pub fn read_uid(alloc: Global, bytes: &[u8]) -> Result<(Uid, &[u8]), ReadFault>
    ensures { Gives (λ x. (x.0, x.1.now)) result (uid_field.read bytes.now) }
{
    let (uid, rest) = read_text(bytes)?;
    let text = Text::from_string(String::from_str(alloc, uid)?);
    Ok((Uid { text }, rest))
}
