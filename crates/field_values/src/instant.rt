//! Times with a zone, counted in milliseconds.

ghost use Rattle.std.specs.Prelude.{◌≡◌, ◌≤◌, ◌<◌, IsTrue, MatchOption, true, false, length};
ghost use Rattle.std.specs.Char.{is_ascii_digit};
ghost use Rattle.std.specs.List.{list_all};
ghost use Rattle.field_values.specs.Clocks.{clock_said, zone_said};
ghost use Rattle.field_values.specs.Instants.{begins_zone, zone_place, is_coarse, clock_text, fraction_digits, zone_text, is_time, thousandths, milliseconds_said};

use crate::clock::{Clock, clock_of};
use crate::digits::{fraction_of, number_of};
use crate::fault::FieldFault;
use crate::moment::second_of;
use crate::zone::{Zone, zone_of};

/// A time, as its text has it.
#[derive(Clone, Copy)]
struct Parts<'t> {
    clock: Clock,
    /// The digits behind the seconds, or none.
    fraction: &'t [u8],
    zone: Zone,
}

/// Whether a zone begins with this byte.
fn begins_zone(byte: u8) -> bool
    ensures { result ≡ begins_zone byte }
{
    matches!(byte, b'Z' | b'+' | b'-')
}

/// Where the zone begins in what stands behind the seconds.
#[tactic(auto, unfolding(crate::specs::Instants::zone_place))]
pub fn zone_place(rest: &[u8]) -> usize
    ensures place { result ≡ zone_place rest.now }
    ensures within { result ≤ length rest.now }
{
    rest.iter()
        .position(|b| begins_zone(*b))
        .unwrap_or(rest.len())
}

/// The parts of a time, by their places, or `None` where the text is of another form.
#[tactic(auto, using(crate::proofs::Forms::short_is_no_time), unfolding(crate::specs::Instants::is_time, crate::specs::Instants::clock_text, crate::specs::Instants::fraction_text, crate::specs::Instants::fraction_digits, crate::specs::Instants::zone_text))]
fn parts_of(text: &[u8]) -> Option<Parts<'_>>
    ensures { MatchOption result (is_time text.now ≡ false) (λ parts. (is_time text.now ≡ true) × (parts.clock ≡ clock_said (clock_text text.now))
        × (parts.fraction.now ≡ fraction_digits text.now) × (parts.zone ≡ zone_said (zone_text text.now))
        × IsTrue (list_all is_ascii_digit parts.fraction.now)) }
{
    if text.len() < 19 {
        return None;
    }
    let (front, rest) = text.split_at(19);
    let (fraction, zone) = rest.split_at(zone_place(rest));
    Some(Parts {
        clock: clock_of(front)?,
        fraction: fraction_of(fraction)?,
        zone: zone_of(zone)?,
    })
}

/// The thousandths of a second that up to 3 digits behind the point write.
#[tactic(auto, unfolding(crate::specs::Instants::thousandths))]
fn thousandths(digits: &[u8]) -> u16
    requires digits { IsTrue (list_all is_ascii_digit digits.now) }
    requires few { length digits.now ≤ 3 }
    ensures value { result ≡ thousandths digits.now }
    ensures bound { result < 1000 }
{
    let number = number_of(digits);
    match digits.len() {
        0 => 0,
        1 => number * 100,
        2 => number * 10,
        _ => number,
    }
}

/// Whether all digits behind the thousandths are 0.
#[tactic(auto, unfolding(crate::specs::Instants::is_coarse))]
fn is_coarse(digits: &[u8]) -> bool
    ensures { result ≡ is_coarse digits.now }
{
    digits.iter().skip(3).all(|b| *b == b'0')
}

/// The milliseconds from 1970-01-01 00:00 UTC to a time, which is negative before it, in the proleptic Gregorian
/// calendar. A text is `YYYY-MM-DDTHH:MM:SS`, with a `T` or a space, then nothing or a point and digits, and then `Z`,
/// or `+hh:mm`, `+hhmm` or `+hh`, where a hyphen may stand for the plus. Of the digits behind the point those behind
/// the third are 0.
///
/// # Errors
///
/// `NoTime`, then `TooFine`, then `NoSuchTime`.
#[tactic(auto, unfolding(crate::specs::Instants::milliseconds_said))]
pub fn milliseconds(text: &[u8]) -> Result<i64, FieldFault>
    ensures { result ≡ milliseconds_said text.now }
{
    let parts = parts_of(text).ok_or(FieldFault::NoTime)?;
    if !is_coarse(parts.fraction) {
        return Err(FieldFault::TooFine);
    }
    let second = second_of(parts.clock, parts.zone).ok_or(FieldFault::NoSuchTime)?;
    let fraction = &parts.fraction[..parts.fraction.len().min(3)];
    Ok(second * 1000 + i64::from(thousandths(fraction)))
}
