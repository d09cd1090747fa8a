//! From the text of an object to a record.

ghost use Rattle.csv.specs.Records.{fields_of};
ghost use Rattle.object_lines.specs.Records.{IsRead};

use crate::fault::LineFault;
use crate::record::fill_record;
use asked_fields::AskedField;
use csv::ByteRecord;
use json::{Error, Scratch, Value};
use std::alloc::Global;

/// Makes a record of the text of an object.
///
/// # Errors
///
/// `NoObject` where it is none; `Member`; `Memory`.
pub(crate) fn fill_from_text(
    alloc: Global,
    record: &mut ByteRecord,
    asked: &[AskedField<'_>],
    text: &[u8],
    joined: &mut Vec<u8>,
    scratch: &mut Scratch,
) -> Result<(), LineFault>
    ensures { IsRead asked.now (fields_of record.new) text.now result }
{
    match Value::from_slice(alloc, text, scratch) {
        Ok(value) => fill_record(record, joined, asked, &value),
        Err(Error::OutOfMemory) => Err(LineFault::Memory),
        Err(_) => Err(LineFault::NoObject),
    }
}
