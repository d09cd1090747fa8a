//! The fault of a part.

ghost use Rattle.std.specs.Prelude.{◌≡◌};
ghost use Rattle.leg_lists.specs.Fault as fault;

use json_parts::PartError;
use legs::LegFault;

/// Why a text has no list of legs of which a part is not as it has to be.
pub fn fault_of_part(part: PartError) -> LegFault
    ensures { result ≡ fault.fault_of_part part }
{
    match part {
        PartError::Form => LegFault::Member,
        PartError::Memory => LegFault::Memory,
    }
}
