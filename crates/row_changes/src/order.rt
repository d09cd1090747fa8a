//! Which of two rows comes first.

ghost use Rattle.std.specs.Prelude.{◌≡◌, option_map};
ghost use Rattle.plan_model.specs.Rows.{pane_of};
ghost use Rattle.row_changes.specs.Order.{first_of};

use plan_model::{Pane, Row};
use std::cmp::Ordering;

/// Which of the next rows of two texts come first, by start and then key.
#[derive(Clone, Copy, Debug, PartialEq, Eq)]
pub(crate) enum First {
    /// There are none.
    None,
    /// That of the old text.
    Old,
    /// That of the new one.
    New,
    /// Both, at one start and key.
    Both,
}

fn pane_of(row: &Row) -> Pane
    ensures { result ≡ pane_of row.now }
{
    Pane {
        start: row.start,
        key: row.key,
    }
}

/// Which of two rows come first.
pub(crate) fn first_of(old: Option<&Row>, new: Option<&Row>) -> First
    ensures { result ≡ first_of (option_map (λ r. r.now) old.entry) (option_map (λ r. r.now) new.entry) }
{
    match (old, new) {
        (None, None) => First::None,
        (Some(_), None) => First::Old,
        (None, Some(_)) => First::New,
        (Some(old), Some(new)) => match pane_of(old).cmp(&pane_of(new)) {
            Ordering::Less => First::Old,
            Ordering::Greater => First::New,
            Ordering::Equal => First::Both,
        },
    }
}
