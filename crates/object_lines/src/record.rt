//! From an object to a record.

ghost use Rattle.std.specs.Prelude.{◌≡◌, ◌∷◌, ◌++◌, [], map, IfOk, OnOk};
ghost use Rattle.asked_fields.specs.Asked.{part_names, all_of};
ghost use Rattle.asked_fields.specs.Joined.{byte_of, joined};
ghost use Rattle.csv.specs.Records.{fields_of, partial_of};
ghost use Rattle.json.specs.Find.{as_object};
ghost use Rattle.json.specs.Value.{value_view, members_view};
ghost use Rattle.object_lines.specs.Members.{parts_text, asked_text};
ghost use Rattle.object_lines.specs.Records.{IsJoined, IsPushed, IsFilled, IsAnswer};

use crate::fault::{LineFault, MemberFault};
use crate::member::member_text;
use asked_fields::{AskedField, joined_text, push_text};
use csv::ByteRecord;
use json::Value;
use std::alloc::AllocError;

/// Puts the texts of the parts of a name together, or tells why one of them has none.
fn join_parts<'a>(
    joined: &mut Vec<u8>,
    asked: &AskedField<'_>,
    members: &Vec<(&'a str, Value<'a>)>,
) -> Result<Option<MemberFault>, AllocError>
    ensures { IfOk result (IsJoined joined.new.items (members_view members.now.items) asked.now) }
{
    joined.clear();
    for part in &asked.parts {
        match member_text(members, part) {
            Ok(text) => push_text(joined, asked.joint, text.as_bytes())?,
            Err(fault) => return Ok(Some(fault)),
        }
    }
    Ok(None)
}

/// Puts the text of a field that is asked for behind those of a record, or tells why there is none.
fn push_asked<'a>(
    record: &mut ByteRecord,
    joined: &mut Vec<u8>,
    asked: &AskedField<'_>,
    members: &Vec<(&'a str, Value<'a>)>,
) -> Result<Option<MemberFault>, AllocError>
    requires { partial_of record.old ≡ [] }
    ensures pushes { IfOk result (IsPushed (fields_of record.old) (fields_of record.new) (asked_text (members_view members.now.items) asked.now)) }
    ensures whole { OnOk result (partial_of record.new ≡ []) }
{
    match member_text(members, asked.name) {
        Ok(text) => record.push_field(text.as_bytes())?,
        Err(MemberFault::Missing) if !asked.parts.is_empty() => {
            if let Some(fault) = join_parts(joined, asked, members)? {
                return Ok(Some(fault));
            }
            record.push_field(joined_text(joined))?;
        }
        Err(fault) => return Ok(Some(fault)),
    }
    Ok(None)
}

/// Makes a record of the texts of members.
fn fill_of_members<'a>(
    record: &mut ByteRecord,
    joined: &mut Vec<u8>,
    asked: &[AskedField<'_>],
    members: &Vec<(&'a str, Value<'a>)>,
) -> Result<(), LineFault>
    ensures { IsFilled asked.now (fields_of record.new) (members_view members.now.items) result }
{
    record.clear();
    for (i, field) in asked.iter().enumerate() {
        if let Some(fault) = push_asked(record, joined, field, members)? {
            return Err(LineFault::Member(i, fault));
        }
    }
    Ok(())
}

/// Makes a record of an object: for each field that is asked for the text of the object's member of its name. This is
/// of a string what it says, of a number how it is written, and `true` or `false`.
///
/// A name with dots that no member has is that of a member in the member whose name stands before its first dot. Where
/// there is none either, and the name has parts, it is the texts of the members of these, put together in `joined`.
///
/// # Errors
///
/// `NoObject` where the value is none; `Member` of the first field that has no text, and the record is then that of the
/// fields before; `Memory`.
pub fn fill_record(
    record: &mut ByteRecord,
    joined: &mut Vec<u8>,
    asked: &[AskedField<'_>],
    value: &Value<'_>,
) -> Result<(), LineFault>
    ensures { IsAnswer asked.now (fields_of record.new) (as_object (value_view value.now)) result }
{
    match value {
        Value::Object(members) => fill_of_members(record, joined, asked, members),
        _ => Err(LineFault::NoObject),
    }
}
