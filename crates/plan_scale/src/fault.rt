//! The fault of a part.

ghost use Rattle.std.specs.Prelude.{◌≡◌};
ghost use Rattle.plan_scale.specs.Fault as fault;

use json_parts::PartError;
use layout_rules::ScaleFault;

/// Why a text has no scale of which a part is not as it has to be.
pub fn fault_of_part(part: PartError) -> ScaleFault
    ensures { result ≡ fault.fault_of_part part }
{
    match part {
        PartError::Form => ScaleFault::Member,
        PartError::Memory => ScaleFault::Memory,
    }
}
