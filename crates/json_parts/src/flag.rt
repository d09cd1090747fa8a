//! Flags.

ghost use Rattle.serde_json.specs.View.{view};
ghost use Rattle.json_parts.specs.Parts.{Reads};
ghost use Rattle.json_parts.specs.Flags.{flag_or as flag_at_or};

use crate::error::OtherForm;
use serde_json::Value;

/// The flag under a name, or another where no member has the name.
///
/// # Errors
///
/// [`OtherForm`] where the member is neither `true` nor `false`, `null` too.
#[tactic(auto, unfolding(crate::specs::Flags::flag_or))]
pub fn flag_or(object: &Value, name: &str, other: bool) -> Result<bool, OtherForm>
    ensures { Reads (λ flag. flag) result (flag_at_or name.now other (view object.now)) }
{
    match object.get(name) {
        None => Ok(other),
        Some(value) => value.as_bool().ok_or(OtherForm),
    }
}
