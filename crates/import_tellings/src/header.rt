//! What stands in a header that lacks a field, or is not that of the first file.

use csv::ByteRecord;
use std::alloc::{AllocError, Global};
use std::str;

/// The most fields that are named.
const MOST_FIELDS: usize = 10;

/// The longest field that is named.
const MOST_SHOWN: usize = 100;

/// The name of a field, if it is no long one.
fn field_text(alloc: Global, field: &[u8]) -> Result<String, AllocError> {
    let count = field.len();
    match str::from_utf8(field) {
        Ok(text) if count <= MOST_SHOWN => format!(in alloc; "{text:?}"),
        _ => format!(in alloc; "a text of {count} bytes"),
    }
}

/// The names of the first fields.
fn first_fields(alloc: Global, header: &ByteRecord) -> Result<String, AllocError> {
    let mut names = String::new(alloc);
    for (i, field) in header.into_iter().take(MOST_FIELDS).enumerate() {
        if i > 0 {
            names.push_str(", ")?;
        }
        names.push_str(field_text(alloc, field)?.as_str())?;
    }
    Ok(names)
}

/// Whether a field looks like several that are separated by semicolons or tabs.
fn looks_joined(field: &[u8]) -> bool {
    field.iter().any(|byte| *byte == b';' || *byte == b'\t')
}

/// What the only field of a header is, and what may be wrong with it.
fn only_field(alloc: Global, header: &ByteRecord) -> Result<String, AllocError> {
    let field = header.get(0).unwrap_or(b"");
    let name = field_text(alloc, field)?;
    if looks_joined(field) {
        return format!(in alloc;
            "it has one, {name}, and fields are separated by commas unless --separator says otherwise"
        );
    }
    format!(in alloc; "it has one, {name}")
}

/// Which fields a header has.
pub(crate) fn fields_text(alloc: Global, header: &ByteRecord) -> Result<String, AllocError> {
    match header.len() {
        0 => format!(in alloc; "it has none"),
        1 => only_field(alloc, header),
        count => {
            let names = first_fields(alloc, header)?;
            match count.saturating_sub(MOST_FIELDS) {
                0 => format!(in alloc; "it has {names}"),
                more => format!(in alloc; "it has {names} and {more} more"),
            }
        }
    }
}

/// The place of the first field that two headers have otherwise, if both have it.
fn other_place(header: &ByteRecord, first: &ByteRecord) -> Option<usize> {
    for (place, field) in header.into_iter().enumerate() {
        match first.get(place) {
            Some(wanted) if wanted != field => return Some(place),
            _ => {}
        }
    }
    None
}

/// In what a header differs from the first one.
pub(crate) fn difference(
    alloc: Global,
    header: &ByteRecord,
    first: &ByteRecord,
) -> Result<String, AllocError> {
    let Some(place) = other_place(header, first) else {
        let (count, wanted) = (header.len(), first.len());
        return format!(in alloc; "it has {count} fields in place of {wanted}");
    };
    let (field, wanted) = (header.get(place), first.get(place));
    let field = field_text(alloc, field.unwrap_or(b""))?;
    let wanted = field_text(alloc, wanted.unwrap_or(b""))?;
    let number = (place as u64).saturating_add(1);
    format!(in alloc; "field {number} is {field} in place of {wanted}")
}
