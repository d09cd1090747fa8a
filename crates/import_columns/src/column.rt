//! A column of an import.

use crate::kind::ColumnKind;
use asked_fields::Joint;

/// A column: one number of each record.
#[derive(Clone, Copy)]
pub struct Column<'w> {
    /// The name of the field whose text it is.
    pub field: &'w str,
    /// What stands between the names of fields in that name, where no field has it.
    pub joint: Option<Joint>,
    /// How that text becomes a number.
    pub kind: ColumnKind<'w>,
}
