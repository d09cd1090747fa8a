//! The texts of columns, out of a row of CSV.

ghost use Rattle.std.specs.Prelude.{◌≡◌, ◌∷◌, ◌++◌, [], map, OnOk};
ghost use Rattle.std.specs.List.{flat_map};
ghost use Rattle.asked_fields.specs.Joined.{byte_of, joint_text};
ghost use Rattle.csv.specs.Records.{fields_of, partial_of};
ghost use Rattle.imports.specs.Picks.{text_at, pick_text};

use asked_fields::{Joint, joined_text, push_text};
use csv::ByteRecord;
use std::alloc::AllocError;

/// Where the text of a column stands in a row of CSV.
#[derive(Drop)]
pub enum Pick {
    /// In the field at a place.
    One(usize),
    /// In several, whose texts are put together with this between.
    Joined(Joint, Vec<usize>),
}

/// The text of the field at a place, or none.
pub(crate) fn text_at(row: &ByteRecord, place: usize) -> &[u8]
    ensures { result.now ≡ text_at (fields_of row.now) place }
{
    row.get(place).unwrap_or(b"")
}

/// Puts the texts at some places together.
fn join_texts(
    joined: &mut Vec<u8>,
    joint: Joint,
    places: &[usize],
    row: &ByteRecord,
) -> Result<(), AllocError>
    ensures { OnOk result (joined.new.items ≡ flat_map (joint_text (byte_of joint)) (map (text_at (fields_of row.now)) places.now)) }
{
    joined.clear();
    for place in places {
        push_text(joined, joint, text_at(row, *place))?;
    }
    Ok(())
}

/// Puts the text of a column behind those of a record.
fn push_pick(
    picked: &mut ByteRecord,
    joined: &mut Vec<u8>,
    pick: &Pick,
    row: &ByteRecord,
) -> Result<(), AllocError>
    requires { partial_of picked.old ≡ [] }
    ensures text { OnOk result (fields_of picked.new ≡ fields_of picked.old ++ pick_text (fields_of row.now) pick.now ∷ []) }
    ensures whole { OnOk result (partial_of picked.new ≡ []) }
{
    match pick {
        Pick::One(place) => picked.push_field(text_at(row, *place))?,
        Pick::Joined(joint, places) => {
            join_texts(joined, *joint, places, row)?;
            picked.push_field(joined_text(joined))?;
        }
    }
    Ok(())
}

/// Makes a record of the texts of columns.
///
/// # Errors
///
/// Only where memory runs out.
pub(crate) fn fill_picked(
    picked: &mut ByteRecord,
    joined: &mut Vec<u8>,
    picks: &[Pick],
    row: &ByteRecord,
) -> Result<(), AllocError>
    ensures { OnOk result (fields_of picked.new ≡ map (pick_text (fields_of row.now)) picks.now) }
{
    picked.clear();
    for pick in picks {
        push_pick(picked, joined, pick, row)?;
    }
    Ok(())
}
