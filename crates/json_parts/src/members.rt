//! Members of an object whose names the reader does not know beforehand.

ghost use Rattle.std.specs.Prelude.{◌≡◌, option_copied, bytes_eq};
ghost use Rattle.std.specs.List.{find, list_any};
ghost use Rattle.serde_json.specs.View.{view, members_view};
ghost use Rattle.json_parts.specs.Parts.{Gives};
ghost use Rattle.json_parts.specs.Members.{each_member, members_text};

use crate::error::PartError;
use crate::list::FromValue;
use plain_data::{Items, Text};
use serde_json::{Map, Value};
use std::alloc::Global;

/// A member of an object whose names the reader does not know beforehand: its name, and what its value
/// says.
pub type Member<T> = (Text, T);

/// The members of an object, in the order of their names, each of which stands once.
///
/// # Errors
///
/// [`PartError::Form`] where the value is no object, or a member's value has another form.
#[tactic(auto, unfolding(crate::specs::Members::members_text))]
pub fn members_of<T: FromValue>(
    alloc: Global,
    object: &Value,
) -> Result<Items<Member<T>>, PartError>
    ensures { Gives (λ items. items) result (members_text T.text_of (view object.now)) }
{
    match object.as_object() {
        None => Err(PartError::Form),
        Some(members) => Ok(Items::from_vec(each_of(alloc, members)?)),
    }
}

fn each_of<T: FromValue>(
    alloc: Global,
    members: &Map<String, Value>,
) -> Result<Vec<Member<T>>, PartError>
    ensures { Gives (λ v. v.items) result (each_member T.text_of (members_view members.now.entries)) }
{
    let mut found = Vec::new(alloc);
    for (key, value) in members {
        let name = Text::from_string(String::from_str(alloc, key.as_str())?);
        let part = T::from_value(alloc, value)?;
        found.push((name, part))?;
    }
    Ok(found)
}

/// The first member with a name.
pub fn member_named<'m, T>(members: &'m [Member<T>], name: &str) -> Option<&'m Member<T>>
    ensures { option_copied result ≡ find (λ m. bytes_eq m.0 name.now) members.now }
{
    members.iter().find(|member| member.0.as_str() == name)
}

/// Whether a member has a name.
pub fn has_member<T>(members: &[Member<T>], name: &str) -> bool
    ensures { result ≡ list_any (λ m. bytes_eq m.0 name.now) members.now }
{
    members.iter().any(|member| member.0.as_str() == name)
}
