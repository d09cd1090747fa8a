//! The second that a clock shows at a zone.

ghost use Rattle.std.specs.Prelude.{◌≡◌, ◌+◌, ◌≤◌, ◌++◌, length, take};
ghost use Rattle.field_values.specs.Instants.{zone_place};
ghost use Rattle.instant_texts.specs.Instants.{whole_said};

use field_values::{FieldFault, milliseconds};

/// The bytes of a clock, and how many a zone has at most.
const MOST_BYTES: usize = 25;

/// A clock with a zone behind it.
fn joined(clock: &[u8], zone: &[u8]) -> [u8; MOST_BYTES]
    requires clock { length clock.now ≡ 19 }
    requires zone { length zone.now ≤ 6 }
    ensures { take (19 + length zone.now) result ≡ clock.now ++ zone.now }
{
    let mut whole = [0; MOST_BYTES];
    whole[..19].copy_from_slice(clock);
    whole[19..19 + zone.len()].copy_from_slice(zone);
    whole
}

/// The thousandths of a second from 1970-01-01 00:00 UTC to the second that a clock shows at a zone, which
/// begins the second text.
///
/// # Errors
///
/// `NoTime`, then `NoSuchTime`.
pub(crate) fn whole_second(clock: &[u8], zone: &[u8]) -> Result<i64, FieldFault>
    requires { zone_place zone.now ≡ 0 }
    ensures { result ≡ whole_said clock.now zone.now }
{
    if clock.len() != 19 || zone.len() > 6 {
        return Err(FieldFault::NoTime);
    }
    let whole = joined(clock, zone);
    milliseconds(&whole[..19 + zone.len()])
}
