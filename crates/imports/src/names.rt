//! The table of names as a file.

use crate::fault::RowFault;
use crate::records::CsvRows;
use csv::ByteRecord;
use itoa::Buffer;
use name_table::NameTable;
use std::alloc::Global;
use std::hash::RandomState;
use std::io::Read;
use std::str;

/// Adds the name of a record, which is to be `NUMBER,NAME` with the next number and a name that is not there.
fn add(names: &mut NameTable, record: &ByteRecord) -> Result<(), RowFault> {
    let next = names.names().len() as u64 + 1;
    let mut buffer = Buffer::new();
    if record.len() != 2 || record.get(0) != Some(buffer.format(next).as_bytes()) {
        return Err(RowFault::Width(record.len(), 2));
    }
    let Ok(name) = str::from_utf8(record.get(1).unwrap_or(b"")) else {
        return Err(RowFault::NoText(1));
    };
    if names.number_of(name)? as u64 != next {
        return Err(RowFault::FieldTwice(1));
    }
    Ok(())
}

/// The table that CSV records tell: `NUMBER,NAME`, with the numbers from 1 on and each name once.
///
/// # Errors
///
/// `Read`; `Memory`; any other where the record that `rows` has is none of these.
pub fn read_names<R: Read + Drop>(
    alloc: Global,
    state: RandomState,
    rows: &mut CsvRows<R>,
) -> Result<NameTable, RowFault> {
    let mut names = NameTable::new(alloc, state);
    for _ in 0..u64::MAX {
        if !rows.advance()? {
            return Ok(names);
        }
        add(&mut names, rows.record())?;
    }
    Err(RowFault::Read)
}
