//! Whether a row may be the next one.

ghost use Rattle.std.specs.Prelude.{◌≡◌};
ghost use Rattle.row_lines.specs.Sequences.{has_width, is_after, Admits};

use crate::place::RowPlace;
use crate::rows::RowsFault;
use plan_model::Pane;

/// Whether a row may have so many numbers, where it is told how many.
fn has_width(wanted: Option<usize>, width: usize) -> bool
    ensures { result ≡ has_width wanted width }
{
    match wanted {
        Some(wanted) => wanted == width,
        None => true,
    }
}

/// Whether a row may stand behind the last one, if there is one.
fn is_after(last: Option<Pane>, pane: Pane) -> bool
    ensures { result ≡ is_after last pane }
{
    match last {
        Some(last) => last < pane,
        None => true,
    }
}

/// Refuses a row at a place where it has another number of numbers than is wanted, or does not stand behind the last
/// one.
///
/// # Errors
///
/// `Line`, then `Order`.
pub fn admit(width: Option<usize>, last: Option<Pane>, place: RowPlace) -> Result<(), RowsFault>
    ensures { Admits width last place result }
{
    if !has_width(width, place.width) {
        return Err(RowsFault::Line);
    }
    if !is_after(last, place.pane) {
        return Err(RowsFault::Order);
    }
    Ok(())
}
