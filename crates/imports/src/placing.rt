//! Where the fields of columns stand in a record.

ghost use Rattle.std.specs.Prelude.{◌≡◌, ℕ, List, IfErr, IfOk, IfSome, bytes_eq, map};
ghost use Rattle.std.specs.List.{range_with_len};
ghost use Rattle.csv.specs.Records.{fields_of};
ghost use Rattle.imports.specs.Picks.{text_at};
ghost use Rattle.imports.specs.Placing.{Alone, Answers, PlacesFields, once_at, parts_at, place_from, place_with, places_of, stand_in, stand_of, stands_of, texts_by, together};

use crate::fault::RowFault;
use crate::picking::{Pick, text_at};
use asked_fields::AskedField;
use csv::ByteRecord;
use std::alloc::Global;

/// Where the texts of columns stand in the records of a file.
#[derive(Drop)]
pub struct Places {
    /// The place of each column's text in the record that is told, counted from 0.
    pub places: Vec<usize>,
    /// Where the texts of that record stand in a row of CSV, or nothing where it is the row itself.
    pub picks: Vec<Pick>,
}

/// Where a name stands in a header.
#[derive(Clone, Copy)]
enum FieldPlace {
    /// It stands nowhere.
    Nowhere,
    /// It stands at this place alone.
    At(usize),
    /// It stands more than once.
    Twice,
}

impl FieldPlace {
    /// The same with one more place, if the name stands there.
    fn with(self, place: usize, stands: bool) -> FieldPlace
        ensures { result ≡ place_with self place stands }
    {
        match self {
            _ if !stands => self,
            FieldPlace::Nowhere => FieldPlace::At(place),
            _ => FieldPlace::Twice,
        }
    }
}

/// Whether a name stands at a place of a header.
fn stands_at(header: &ByteRecord, place: usize, name: &str) -> bool
    ensures { result ≡ bytes_eq (text_at (fields_of header.now) place) name.now }
{
    text_at(header, place) == name.as_bytes()
}

/// Where a name stands in a header.
fn place_of(header: &ByteRecord, name: &str) -> FieldPlace
    ensures { result ≡ place_from (places_of (fields_of header.now) name.now) }
{
    let mut found = FieldPlace::Nowhere;
    for place in 0..header.len() {
        found = found.with(place, stands_at(header, place, name));
    }
    found
}

/// The place at which a name stands once, of the field of a column.
///
/// # Errors
///
/// `NoField`; `FieldTwice`.
fn place_once(header: &ByteRecord, name: &str, column: usize) -> Result<usize, RowFault>
    ensures { result ≡ once_at column (places_of (fields_of header.now) name.now) }
{
    match place_of(header, name) {
        FieldPlace::At(place) => Ok(place),
        FieldPlace::Nowhere => Err(RowFault::NoField(column)),
        FieldPlace::Twice => Err(RowFault::FieldTwice(column)),
    }
}

/// The places of the fields of a name's parts.
fn joined_pick(
    alloc: Global,
    header: &ByteRecord,
    field: &AskedField<'_>,
    column: usize,
) -> Result<Pick, RowFault>
    ensures { Answers stand_in (together field.now.joint (parts_at (fields_of header.now) column field.now)) result }
{
    let mut places = Vec::new(alloc);
    for part in &field.parts {
        let name = *part;
        match place_once(header, name, column) {
            Ok(place) => places.push(place)?,
            Err(fault) => return Err(fault),
        }
    }
    Ok(Pick::Joined(field.joint, places))
}

/// Where the text of a field stands in records with a header: in the field of its name, or else in those of the parts
/// of the name.
fn pick_of(
    alloc: Global,
    header: &ByteRecord,
    field: &AskedField<'_>,
    column: usize,
) -> Result<Pick, RowFault>
    ensures { Answers stand_in (stand_of (fields_of header.now) column field.now) result }
{
    match place_of(header, field.name) {
        FieldPlace::At(place) => Ok(Pick::One(place)),
        FieldPlace::Twice => Err(RowFault::FieldTwice(column)),
        FieldPlace::Nowhere if field.parts.is_empty() => Err(RowFault::NoField(column)),
        FieldPlace::Nowhere => joined_pick(alloc, header, field, column),
    }
}

/// Where the text of each field stands in records with a header.
///
/// # Errors
///
/// `NoField` or `FieldTwice` of the first whose name does not stand once in the header, and neither do all parts of it;
/// `Memory`.
fn picks_of(
    alloc: Global,
    header: &ByteRecord,
    fields: &[AskedField<'_>],
) -> Result<Vec<Pick>, RowFault>
    ensures { Answers (λ picks. map stand_in picks.items) (stands_of (fields_of header.now) fields.now) result }
{
    let mut picks = Vec::new(alloc);
    for (i, field) in fields.iter().enumerate() {
        match pick_of(alloc, header, field, i) {
            Ok(pick) => picks.push(pick)?,
            Err(fault) => return Err(fault),
        }
    }
    Ok(picks)
}

/// The places of fields of which each is one of the record.
fn single_places(alloc: Global, picks: &[Pick]) -> Result<Option<Vec<usize>>, RowFault>
    ensures places { IfOk result (λ single. IfSome single (λ places. map stand_in picks.now ≡ map Alone places.items)) }
    ensures refused { IfErr result (λ fault. fault ≡ RowFault.Memory) }
{
    let mut places = Vec::new(alloc);
    for pick in picks {
        match pick {
            Pick::One(place) => places.push(*place)?,
            Pick::Joined(_, _) => return Ok(None),
        }
    }
    Ok(Some(places))
}

/// The first places of a record.
fn first_places(alloc: Global, count: usize) -> Result<Vec<usize>, RowFault>
    ensures places { IfOk result (λ places. places.items ≡ range_with_len 0 count) }
    ensures refused { IfErr result (λ fault. fault ≡ RowFault.Memory) }
{
    let mut places = Vec::new(alloc);
    for place in 0..count {
        places.push(place)?;
    }
    Ok(places)
}

impl Places {
    /// Those of records that have just the texts that are asked for, in their order.
    ///
    /// # Errors
    ///
    /// `Memory`.
    pub(crate) fn in_order(alloc: Global, count: usize) -> Result<Places, RowFault>
        ensures places { IfOk result (λ places. (row : List (List ℕ)) → texts_by places.places.items places.picks.items row count ≡ map (text_at row) (range_with_len 0 count)) }
        ensures refused { IfErr result (λ fault. fault ≡ RowFault.Memory) }
    {
        Ok(Places {
            places: first_places(alloc, count)?,
            picks: Vec::new(alloc),
        })
    }

    /// Those of records with a header.
    ///
    /// # Errors
    ///
    /// `NoField`; `FieldTwice`; `Memory`.
    pub(crate) fn in_header(
        alloc: Global,
        header: &ByteRecord,
        fields: &[AskedField<'_>],
    ) -> Result<Places, RowFault>
        ensures { PlacesFields (stands_of (fields_of header.now) fields.now) result }
    {
        let picks = picks_of(alloc, header, fields)?;
        match single_places(alloc, &picks)? {
            Some(places) => Ok(Places {
                places,
                picks: Vec::new(alloc),
            }),
            None => Ok(Places {
                places: first_places(alloc, picks.len())?,
                picks,
            }),
        }
    }
}
