//! The table of names as a file.

ghost use Rattle.std.specs.Prelude.{◌≡◌, ◌++◌, ◌∷◌, [], ℕ, List, Option, IfErr, IfOk, OnOk, decimal};
ghost use Rattle.import_asides.specs.Naming.{name_records};
ghost use Rattle.import_asides.specs.Written.{HasRecords, IsUnwritten, csv_text};

use crate::writer::CsvWriter;
use imports::RowFault;
use itoa::Buffer;
use name_table::NameTable;
use std::alloc::Global;

fn write_name(out: &mut CsvWriter<Vec<u8>>, number: u64, name: &str) -> Result<(), RowFault>
    ensures written { (start : Option (List ℕ)) (records : List (List (List ℕ))) → HasRecords (λ text. Some text.items) start records [] out.old
        → OnOk result (HasRecords (λ text. Some text.items) start (records ++ (decimal number ∷ name.now ∷ []) ∷ []) [] out.new) }
    ensures refused { IfErr result (λ fault. IsUnwritten fault) }
{
    let mut buffer = Buffer::new();
    out.put_fields(&[buffer.format(number).as_bytes(), name.as_bytes()])
}

/// The CSV text of a table.
///
/// # Errors
///
/// `Memory`, and `Write` where memory ran out for the text.
pub fn text_of_names(alloc: Global, names: &NameTable) -> Result<Vec<u8>, RowFault>
    ensures text { IfOk result (λ text. text.items ≡ csv_text (name_records names.now)) }
    ensures refused { IfErr result (λ fault. IsUnwritten fault) }
{
    let mut out = CsvWriter::new(alloc, Vec::new(alloc))?;
    for (i, name) in names.names().iter().enumerate() {
        write_name(&mut out, i as u64 + 1, name.as_str())?;
    }
    out.finish()
}
