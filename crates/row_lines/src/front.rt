//! What stands in front of the key in a row's line. The rows of one window stand together, and have it in common.

ghost use Rattle.std.specs.Prelude.{[], IfSome};
ghost use Rattle.row_lines.specs.Numbers.{HasFront};

use crate::number::{narrow_front, spaced_front};
use arrayvec::ArrayVec;

/// The most bytes of a start and an end, each with the space behind it.
const LONGEST_FRONT: usize = 2 * 21;

/// A start and an end, and how they stand in front of a line, each with the space behind it.
#[derive(Drop)]
pub(crate) struct Front {
    text: ArrayVec<u8, LONGEST_FRONT>,
    start: i64,
    end: i64,
    ghost spells: { HasFront text.items start end [] },
}

/// The start and the end of a line, and what stands behind them. Of a line without a start and an end of 64 bits there
/// are none.
fn read_front(line: &[u8]) -> Option<(i64, i64, &[u8])>
    ensures { IfSome result (λ read. HasFront line.now read.0 read.1 read.2.now) }
{
    let (start, behind_start) = narrow_front(line)?;
    let (end, behind_end) = spaced_front(behind_start)?;
    match behind_end.split_first() {
        Some((first, rest)) if *first == b' ' => Some((start, end, rest)),
        _ => None,
    }
}

/// The same, and that front is kept. Where the line begins with the one that was kept before, no number is read.
pub(crate) fn behind_front<'a>(
    kept: &mut Option<Front>,
    line: &'a [u8],
) -> Option<(i64, i64, &'a [u8])>
    ensures { IfSome result (λ read. HasFront line.now read.0 read.1 read.2.now) }
{
    if let Some(front) = kept {
        if let Some(rest) = line.strip_prefix(front.text.as_slice()) {
            return Some((front.start, front.end, rest));
        }
    }
    let (start, end, rest) = read_front(line)?;
    if let Ok(text) = ArrayVec::try_from(&line[..line.len() - rest.len()]) {
        *kept = Some(Front { text, start, end });
    }
    Some((start, end, rest))
}
