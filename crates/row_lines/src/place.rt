//! Where the row of a line stands.

ghost use Rattle.std.specs.Prelude.{◌≡◌, IfSome};
ghost use Rattle.row_lines.specs.Numbers.{AreSpaced};
ghost use Rattle.row_lines.specs.Rows.{IsLineFront, place_of};

use crate::front::{Front, behind_front};
use crate::number::{narrow_front, spaced_front};
use plan_model::{MOST_AGGREGATES, Pane, Row};

/// Where a row stands, and how many numbers of aggregates it has.
#[derive(Clone, Copy, Debug, PartialEq, Eq)]
pub struct RowPlace {
    pub pane: Pane,
    pub width: usize,
}

/// How many numbers stand in front of the first line feed of a text, each behind a space, and what stands behind the
/// line feed. Of other texts, of numbers of more than 18 digits, and of more numbers than a row has, there is no
/// telling.
fn count_front(text: &[u8]) -> Option<(usize, &[u8])>
    ensures { IfSome result (λ counted. AreSpaced text.now counted.0 counted.1.now) }
{
    let mut rest = text;
    for count in 0..MOST_AGGREGATES + 1 {
        match rest.split_first() {
            Some((first, behind)) if *first == b'\n' => return Some((count, behind)),
            _ => {}
        }
        let Some((_, behind)) = spaced_front(rest) else {
            return None;
        };
        rest = behind;
    }
    None
}

/// The place of the row whose line stands in front of a text, with its line feed, and what stands behind it. The front
/// of the line before is at hand. Of other texts, and where a number has more than 18 digits, there is no telling.
pub(crate) fn front_place<'a>(
    kept: &mut Option<Front>,
    text: &'a [u8],
) -> Option<(RowPlace, &'a [u8])>
    ensures { IfSome result (λ read. IsLineFront text.now read.0 read.1.now) }
{
    let (start, _, behind_front) = behind_front(kept, text)?;
    let (key, behind_key) = narrow_front(behind_front)?;
    let (width, rest) = count_front(behind_key)?;
    if width == 0 {
        return None;
    }
    let pane = Pane { start, key };
    Some((RowPlace { pane, width }, rest))
}

/// Where a row stands, and how many numbers it has.
pub(crate) fn place_of(row: &Row) -> RowPlace
    ensures { result ≡ place_of row.now }
{
    RowPlace {
        pane: Pane {
            start: row.start,
            key: row.key,
        },
        width: row.values.len(),
    }
}
