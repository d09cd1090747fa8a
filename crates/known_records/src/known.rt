//! The records that were before, by what stands in some of their fields.

ghost use Rattle.std.specs.Prelude.{◌≡◌, ◌++◌, is_some, IfOk, OnOk};
ghost use Rattle.csv.specs.Records.{fields_of};
ghost use Rattle.import_fates.specs.Fates.{is_known, keys_seen};
ghost use Rattle.imports.specs.Picks.{text_at};
ghost use Rattle.imports.specs.Rows.{place_said};
ghost use Rattle.known_records.specs.Known.{field_text, key_said, keys_in, key_in, columns_in};

use csv::ByteRecord;
use imports::RowFault;
use std::alloc::{AllocError, Global};
use std::hash::RandomState;
use twice_table::TextTable;

/// The records that were before, by what stands in some of their fields.
#[derive(Drop)]
pub struct KnownRecords {
    table: TextTable,
    columns: Vec<usize>,
    key: Vec<u8>,
}

/// Puts the text of a field behind others, so that no other fields make the same text: its length in 8 bytes, and it.
fn push_field(key: &mut Vec<u8>, text: &[u8]) -> Result<(), AllocError>
    ensures { OnOk result (key.new.items ≡ key.old.items ++ field_text text.now) }
{
    let length = (text.len() as u64).to_le_bytes();
    key.extend_from_slice(&length)?;
    key.extend_from_slice(text)
}

/// The place of a column's field.
fn place_of(places: &[usize], column: usize) -> usize
    ensures { result ≡ place_said places.now column }
{
    match places.get(column) {
        Some(place) => *place,
        None => column,
    }
}

/// The text of the field at a place, which is empty where there is none.
fn text_at<'r>(fields: &'r ByteRecord, place: usize) -> &'r [u8]
    ensures { result.now ≡ text_at (fields_of fields.now) place }
{
    match fields.get(place) {
        Some(text) => text,
        None => b"",
    }
}

/// Makes the text that tells a record from others: of each column the field at its place.
fn fill_key(
    key: &mut Vec<u8>,
    columns: &[usize],
    places: &[usize],
    fields: &ByteRecord,
) -> Result<(), AllocError>
    ensures { OnOk result (key.new.items ≡ key_said columns.now places.now (fields_of fields.now)) }
{
    key.clear();
    for column in columns {
        push_field(key, text_at(fields, place_of(places, *column)))?;
    }
    Ok(())
}

impl KnownRecords {
    /// No records, which the fields of these columns are to tell from one another. Hashes start from this.
    pub fn new(alloc: Global, state: RandomState, columns: Vec<usize>) -> KnownRecords {
        KnownRecords {
            table: TextTable::new(alloc, state),
            columns,
            key: Vec::new(alloc),
        }
    }
}

/// The place of the record before that is the same as this one in the fields that tell records apart. Where there is
/// none, this one is one of those from now on. Where no fields are to tell records apart, none is the same as another.
///
/// # Errors
///
/// `Memory`.
pub fn known_before(
    known: &mut Option<KnownRecords>,
    places: &[usize],
    fields: &ByteRecord,
) -> Result<Option<usize>, RowFault>
    ensures before { IfOk result (λ place. is_some place ≡ is_known (keys_in known.old) (key_in known.old places.now (fields_of fields.now))) }
    ensures columns { columns_in known.new ≡ columns_in known.old }
    ensures after { OnOk result (keys_in known.new ≡ keys_seen (keys_in known.old) (key_in known.old places.now (fields_of fields.now))) }
{
    let Some(known) = known else {
        return Ok(None);
    };
    fill_key(&mut known.key, &known.columns, places, fields)?;
    Ok(known.table.see(&known.key)?)
}
