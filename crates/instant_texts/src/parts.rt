//! The parts of a time.

ghost use Rattle.std.specs.Prelude.{◌≡◌, ◌<◌, IsTrue, IfSome, IfNone, true, false};
ghost use Rattle.std.specs.Char.{is_ascii_digit};
ghost use Rattle.std.specs.List.{list_all};
ghost use Rattle.field_values.specs.Digits.{is_fraction};
ghost use Rattle.field_values.specs.Instants.{zone_place, is_time, clock_text, fraction_text, fraction_digits, zone_text};

use field_values::{fraction_of, zone_place};

/// The texts of a time's parts, of which the fraction alone is known to be of its form.
#[derive(Clone, Copy)]
pub(crate) struct TimeParts<'t> {
    /// The date and the time of day in whole seconds.
    pub(crate) clock: &'t [u8],
    /// The digits behind the seconds, or none.
    pub(crate) fraction: &'t [u8],
    pub(crate) zone: &'t [u8],
}

/// The parts of a time by their places, or `None` where the text is too short or what stands between the seconds and
/// the zone is no fraction.
#[tactic(auto, using(field_values::proofs::Forms::short_is_no_time), unfolding(field_values::specs::Instants::is_time, field_values::specs::Instants::clock_text, field_values::specs::Instants::fraction_text, field_values::specs::Instants::fraction_digits, field_values::specs::Instants::zone_text))]
pub(crate) fn parts_of(text: &[u8]) -> Option<TimeParts<'_>>
    ensures none { IfNone result (is_time text.now ≡ false) }
    ensures parts { IfSome result (λ parts. (parts.clock.now ≡ clock_text text.now) × (parts.fraction.now ≡ fraction_digits text.now) × (parts.zone.now ≡ zone_text text.now)
        × (is_fraction (fraction_text text.now) ≡ true) × IsTrue (list_all is_ascii_digit parts.fraction.now)) }
    ensures zone { IfSome result (λ parts. zone_place parts.zone.now ≡ 0) }
{
    if text.len() < 19 {
        return None;
    }
    let (clock, rest) = text.split_at(19);
    let (fraction, zone) = rest.split_at(zone_place(rest));
    let fraction = fraction_of(fraction)?;
    Some(TimeParts {
        clock,
        fraction,
        zone,
    })
}
