//! The header of a partition's first CSV file, which those of its other ones repeat.

use crate::fault::RowFault;
use csv::ByteRecord;

/// The header of the first CSV file of a partition.
#[derive(Drop)]
pub struct FirstHeader<'f> {
    /// The name of the file.
    pub file: &'f str,
    /// Its header.
    pub header: ByteRecord,
}

/// Refuses a header that is not that of the first CSV file of the partition. Where there was none, it is this one.
///
/// # Errors
///
/// `OtherHeader`; `Memory`.
pub(crate) fn check_header<'f>(
    first: &mut Option<FirstHeader<'f>>,
    file: &'f str,
    header: &ByteRecord,
) -> Result<(), RowFault> {
    match first {
        Some(first) if first.header == *header => Ok(()),
        Some(_) => Err(RowFault::OtherHeader),
        None => {
            *first = Some(FirstHeader {
                file,
                header: header.clone()?,
            });
            Ok(())
        }
    }
}
