//! Numbers in a line.

ghost use Rattle.std.specs.Prelude.{◌≡◌, ◌++◌, ◌∷◌, OnOk, string_bytes};
ghost use Rattle.std.specs.List.{flat_map};

use itoa::Integer;
use row_lines::push_spaced;
use std::alloc::AllocError;

/// Puts a space and the number in decimal behind a text for each number, in order.
///
/// # Errors
///
/// Only where memory runs out.
pub(crate) fn push_numbers<I: Integer>(text: &mut String, numbers: &[I]) -> Result<(), AllocError>
    ensures { OnOk result (string_bytes text.new ≡ string_bytes text.old ++ flat_map (λ number. 32 ∷ I.text number) numbers.now) }
{
    for number in numbers {
        push_spaced(text, *number)?;
    }
    Ok(())
}
