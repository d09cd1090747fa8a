//! The text of a member.

ghost use Rattle.std.specs.Prelude.{◌≡◌, option_map};
ghost use Rattle.json.specs.Find.{as_object};
ghost use Rattle.json.specs.Value.{value_view, members_view};
ghost use Rattle.object_lines.specs.Members.{only, text_said, values_of, member_said, member_text, IsValue, IsText};
ghost use Rattle.object_lines.specs.Steps.{IsInner, IsStep};

use crate::fault::MemberFault;
use json::Value;

/// The text of a value: of a string what it says, of a number how it is written, and that of true and false.
fn text_of<'a>(value: &Value<'a>) -> Option<&'a str>
    ensures { option_map (λ s. s.now) result ≡ text_said (value_view value.now) }
{
    match value {
        Value::String(text) => Some(*text),
        Value::Number(text) => Some(*text),
        Value::Bool(true) => Some("true"),
        Value::Bool(false) => Some("false"),
        Value::Null | Value::Array(_) | Value::Object(_) => None,
    }
}

/// The value of the member of a name that stands there once.
fn only_member<'v, 'a>(
    members: &'v Vec<(&'a str, Value<'a>)>,
    name: &str,
) -> Result<&'v Value<'a>, MemberFault>
    ensures { IsValue (only (values_of name.now (members_view members.now.items))) result }
{
    let mut found = None;
    for member in members {
        if member.0 == name {
            if found.is_some() {
                return Err(MemberFault::Twice);
            }
            found = Some(&member.1);
        }
    }
    found.ok_or(MemberFault::Missing)
}

/// What comes of a name in an object.
#[derive(Clone, Copy)]
enum Step<'v, 'a, 'n> {
    /// A value.
    Found(&'v Value<'a>),
    /// Nothing.
    Wrong(MemberFault),
    /// The members of an object in it, and the name that is to be found there.
    Into(&'v Vec<(&'a str, Value<'a>)>, &'n str),
}

/// The members of a value, if it is an object.
fn members_of<'v, 'a>(value: &'v Value<'a>) -> Option<&'v Vec<(&'a str, Value<'a>)>>
    ensures { option_map (λ members. members_view members.now.items) result ≡ as_object (value_view value.now) }
{
    match value {
        Value::Object(members) => Some(members),
        _ => None,
    }
}

/// The members of an object in another by a name that stands before a dot.
fn step_into<'v, 'a, 'n>(members: &'v Vec<(&'a str, Value<'a>)>, name: &'n str) -> Step<'v, 'a, 'n>
    ensures { IsInner (members_view members.now.items) name.now result }
{
    let Some((front, behind)) = name.split_once('.') else {
        return Step::Wrong(MemberFault::Missing);
    };
    match only_member(members, front) {
        Ok(value) => match members_of(value) {
            Some(inner) => Step::Into(inner, behind),
            None => Step::Wrong(MemberFault::Missing),
        },
        Err(fault) => Step::Wrong(fault),
    }
}

/// What comes of a name in an object: the member that has it, or else that of what stands before its first dot.
fn step_of<'v, 'a, 'n>(members: &'v Vec<(&'a str, Value<'a>)>, name: &'n str) -> Step<'v, 'a, 'n>
    ensures { IsStep (members_view members.now.items) name.now result }
{
    match only_member(members, name) {
        Ok(value) => Step::Found(value),
        Err(MemberFault::Missing) => step_into(members, name),
        Err(MemberFault::Twice) => Step::Wrong(MemberFault::Twice),
        Err(MemberFault::NoText) => Step::Wrong(MemberFault::NoText),
    }
}

/// The value of the member of a name. Where there is none, and the name has a dot, it is looked for in the object that
/// is the member of what stands before the first one, by the name behind it.
fn path_value<'v, 'a>(
    members: &'v Vec<(&'a str, Value<'a>)>,
    name: &str,
) -> Result<&'v Value<'a>, MemberFault>
    ensures { IsValue (member_said (members_view members.now.items) name.now) result }
{
    match step_of(members, name) {
        Step::Found(value) => Ok(value),
        Step::Wrong(fault) => Err(fault),
        Step::Into(inner, behind) => path_value(inner, behind),
    }
}

/// The text of the member of a name, which may be a member of members with dots between the names.
///
/// # Errors
///
/// `Missing`; `Twice`; `NoText`.
pub(crate) fn member_text<'a>(
    members: &Vec<(&'a str, Value<'a>)>,
    name: &str,
) -> Result<&'a str, MemberFault>
    ensures { IsText (member_text (members_view members.now.items) name.now) result }
{
    match path_value(members, name) {
        Ok(value) => text_of(value).ok_or(MemberFault::NoText),
        Err(fault) => Err(fault),
    }
}
