//! The numbers of two rows beside one another.

ghost use Rattle.std.specs.Prelude.{◌≡◌, ◌++◌, ◌∷◌, ◌-ℤ◌, length, IsTrue, ◌↔◌, OnOk, string_bytes};
ghost use Rattle.std.specs.List.{flat_map, zip};
ghost use Rattle.std.specs.Fmt.{signed_decimal};
ghost use Rattle.row_changes.specs.Changes.{numbers_eq, beside};

use plan_model::Numbers;
use row_lines::{push_decimal, push_spaced};
use std::alloc::AllocError;

/// Whether the numbers of two rows are the same.
pub(crate) fn numbers_eq(old: &Numbers, new: &Numbers) -> bool
    ensures { result ≡ numbers_eq old.now new.now }
{
    for index in 0..old.len() {
        if old.get(index) != new.get(index) {
            return false;
        }
    }
    old.len() == new.len()
}

/// Puts a space and how far the new number is above the old one behind a text.
fn push_difference(text: &mut String, old: i128, new: i128) -> Result<(), AllocError>
    ensures { OnOk result (string_bytes text.new ≡ string_bytes text.old ++ 32 ∷ signed_decimal (new -ℤ old)) }
{
    text.push_str(if new < old { " -" } else { " " })?;
    push_decimal(text, new.abs_diff(old))
}

/// Puts the old number, the new one and the difference behind a text.
fn push_beside(text: &mut String, old: i128, new: i128) -> Result<(), AllocError>
    ensures { OnOk result (string_bytes text.new ≡ string_bytes text.old ++ beside (old, new)) }
{
    push_spaced(text, old)?;
    push_spaced(text, new)?;
    push_difference(text, old, new)
}

/// The same for each number, in order.
pub(crate) fn push_all_beside(
    text: &mut String,
    old: &Numbers,
    new: &Numbers,
) -> Result<(), AllocError>
    requires { length old.now ≡ length new.now }
    ensures { OnOk result (string_bytes text.new ≡ string_bytes text.old ++ flat_map beside (zip old.now new.now)) }
{
    for index in 0..old.len() {
        push_beside(text, old.get(index).unwrap(), new.get(index).unwrap())?;
    }
    Ok(())
}
