//! The lines of what changed.

ghost use Rattle.std.specs.Prelude.{◌≡◌, ◌++◌, Some, OnOk, length, string_bytes};
ghost use Rattle.std.specs.Option.{option_to_list};
ghost use Rattle.row_changes.specs.Changes.{are_alike, change_of, lines_of, text_of_changes, Gone, New, Replaced, Changed};

use crate::numbers::{numbers_eq, push_all_beside};
use plan_model::Row;
use row_lines::{push_head, push_line};
use std::alloc::AllocError;

/// Puts the line of a row that is gone behind a text.
pub(crate) fn push_gone(text: &mut String, row: &Row) -> Result<(), AllocError>
    ensures { OnOk result (string_bytes text.new ≡ string_bytes text.old ++ lines_of (Gone row.now)) }
{
    text.push_str("- ")?;
    push_line(text, row)
}

/// Puts the line of a new row behind a text.
pub(crate) fn push_new(text: &mut String, row: &Row) -> Result<(), AllocError>
    ensures { OnOk result (string_bytes text.new ≡ string_bytes text.old ++ lines_of (New row.now)) }
{
    text.push_str("+ ")?;
    push_line(text, row)
}

/// Puts the line of a row with other numbers behind a text.
fn push_changed(text: &mut String, old: &Row, new: &Row) -> Result<(), AllocError>
    requires { length old.now.values ≡ length new.now.values }
    ensures { OnOk result (string_bytes text.new ≡ string_bytes text.old ++ lines_of (Changed old.now new.now)) }
{
    text.push_str("~ ")?;
    push_head(text, old)?;
    push_all_beside(text, &old.values, &new.values)?;
    text.push_str("\n")
}

/// Puts the lines of a row in whose place another stands behind a text.
fn push_replaced(text: &mut String, old: &Row, new: &Row) -> Result<(), AllocError>
    ensures { OnOk result (string_bytes text.new ≡ string_bytes text.old ++ lines_of (Replaced old.now new.now)) }
{
    push_gone(text, old)?;
    push_new(text, new)
}

/// Whether the numbers of two rows can be told beside one another.
fn are_alike(old: &Row, new: &Row) -> bool
    ensures { result ≡ are_alike old.now new.now }
{
    old.end == new.end && old.values.len() == new.values.len()
}

/// Puts the lines of two rows at one start and key behind a text, where these are not the same.
pub(crate) fn push_both(text: &mut String, old: &Row, new: &Row) -> Result<(), AllocError>
    ensures { OnOk result (string_bytes text.new ≡ string_bytes text.old ++ text_of_changes (option_to_list (change_of (Some old.now) (Some new.now)))) }
{
    if !are_alike(old, new) {
        return push_replaced(text, old, new);
    }
    if numbers_eq(&old.values, &new.values) {
        return Ok(());
    }
    push_changed(text, old, new)
}
