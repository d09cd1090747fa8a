//! Why a leg does not go on by a receipt.

ghost use Rattle.std.specs.Prelude.{◌≡◌};
ghost use Rattle.receipts.specs.declared.fault.ReceiptFault.TheVariants.{Form, Memory};
ghost use Rattle.receipts.specs.FaultLine as said;

use json_parts::PartError;
use plan_model::Uid;
use std::alloc::{AllocError, AllocFailed};
use std::fmt;

/// Why a leg does not go on by a receipt. The first of these that stands is answered.
#[derive(Debug, Drop)]
pub enum ReceiptFault {
    /// The text is no receipt of a job with these sources.
    Form,
    /// The plan has another record than that of the receipt.
    Plan,
    /// The savepoint's cut has another number of entries of this partition than the receipt: it is that of another leg.
    Cut(Uid, u64),
    /// The entries of this partition before the cut are not those that were read.
    Entries(Uid, u64),
    /// The table of names does not begin with the bytes that it had.
    Names,
    /// An allocation was refused.
    Memory,
}

impl fmt::Display for ReceiptFault {
    ghost use Rattle.std.specs.Prelude.{Some};
    ghost use Rattle.receipts.specs.FaultLine.{receipt_line};

    ghost output = { λ fault. Some (receipt_line fault) };

    fn fmt<W: fmt::Write>(&self, f: &mut fmt::Formatter<W>) -> fmt::Result {
        match self {
            ReceiptFault::Form => write!(f, "R1 Form"),
            ReceiptFault::Plan => write!(f, "R2 Plan"),
            ReceiptFault::Cut(uid, partition) => write!(f, "R3 Cut {} {partition}", uid.as_str()),
            ReceiptFault::Entries(uid, partition) => {
                write!(f, "R4 Entries {} {partition}", uid.as_str())
            }
            ReceiptFault::Names => write!(f, "R5 Names"),
            ReceiptFault::Memory => write!(f, "memory"),
        }
    }
}

impl From<AllocError> for ReceiptFault {
    ghost from_gives = { λ _ e. e ≡ Memory };

    fn from(_e: AllocError) -> ReceiptFault {
        ReceiptFault::Memory
    }
}

impl<T: Drop> From<AllocFailed<T>> for ReceiptFault {
    ghost from_gives = { λ _ e. e ≡ Memory };

    fn from(_e: AllocFailed<T>) -> ReceiptFault {
        ReceiptFault::Memory
    }
}

/// Why a text is no receipt of which a part is not as it has to be.
pub(crate) fn fault_of_part(part: PartError) -> ReceiptFault
    ensures { result ≡ said.fault_of_part part }
{
    match part {
        PartError::Form => ReceiptFault::Form,
        PartError::Memory => ReceiptFault::Memory,
    }
}

/// The status of the program where a leg does not go on by a receipt: 4 for want of memory, else 3.
pub fn status_of(fault: &ReceiptFault) -> u8
    ensures { result ≡ said.receipt_status fault.now }
{
    match fault {
        ReceiptFault::Memory => 4,
        _ => 3,
    }
}
