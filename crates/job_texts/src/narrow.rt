//! Lines of rows whose numbers have 64 bits, number by number, from the last to the first.

ghost use Rattle.std.specs.Prelude.{◌≡◌, ◌++◌, ◌∷◌, ◌*◌, ◌+◌, ◌≤◌, ◌<◌, length, drop, IsAscii};
ghost use Rattle.std.specs.Fmt.{signed_decimal};
ghost use Rattle.std.specs.List.{flat_map};
ghost use Rattle.plan_model.specs.declared.limits.TheConstants.{MOST_AGGREGATES};
ghost use Rattle.job_texts.specs.Text.{line_of, spaced};
ghost use Rattle.job_texts.specs.Front.{IsFront};
ghost use Rattle.job_texts.specs.declared.narrow.TheConstants.{FRONT, ROOM};

use itoa::write_digits;
use plan_model::Row;

/// Room for the longest line: eleven numbers, each at most 20 bytes behind a space, and a line feed.
pub(crate) const ROOM: usize = 256;

/// Room for the start and the end of a window, each at most 20 bytes behind a space.
const FRONT: usize = 48;

/// Writes a byte of ASCII and the number in decimal behind it so that they end at `end`, and answers where they start.
#[inline(always)]
pub fn put_number(line: &mut [u8], end: usize, before: u8, number: i64) -> usize
    requires room { 21 ≤ end }
    requires inside { end ≤ length line.old }
    requires ascii { before < 128 }
    ensures short { end ≤ result + 21 }
    ensures below { result < end }
    ensures written { drop result line.new ≡ (before ∷ signed_decimal number) ++ drop end line.old }
    ensures ascii { IsAscii (before ∷ signed_decimal number) }
{
    let digits = write_digits(number.unsigned_abs(), line, end);
    // The byte before a number of no sign stands in place of the sign, so that no branch hangs on it.
    line[digits - 1] = b'-';
    let start = digits - 1 - usize::from(number < 0);
    line[start] = before;
    start
}

/// Writes a space and the number in decimal for each number, in order, so that they end at `end`, and answers where
/// they start.
fn put_numbers(line: &mut [u8], end: usize, numbers: &[i64]) -> usize
    requires room { 21 * length numbers.now ≤ end }
    requires inside { end ≤ length line.old }
    ensures short { end ≤ result + 21 * length numbers.now }
    ensures below { result ≤ end }
    ensures written { drop result line.new ≡ flat_map spaced numbers.now ++ drop end line.old }
    ensures ascii { IsAscii (flat_map spaced numbers.now) }
{
    let mut start = end;
    let mut left = numbers.len();
    while left > 0 {
        left -= 1;
        start = put_number(line, start, b' ', numbers[left]);
    }
    start
}

/// The start and the end of a window, as a line begins with them, each behind a space. Rows of one window mostly come
/// one after another, and so these are written once for all of them.
#[derive(Drop)]
pub(crate) struct Front {
    start: i64,
    end: i64,
    /// The text, at the end of its room.
    text: [u8; FRONT],
    /// Where in it the text begins.
    from: usize,
}

impl Front {
    /// That of a window.
    pub fn new(start: i64, end: i64) -> Front
        ensures front { IsFront result }
        ensures start { result.start ≡ start }
        ensures end { result.end ≡ end }
    {
        let mut text = [0; FRONT];
        let from = put_number(&mut text, FRONT, b' ', end);
        let from = put_number(&mut text, from, b' ', start);
        Front {
            start,
            end,
            text,
            from,
        }
    }

    /// That of the window of a row, written anew where it is another one.
    #[inline(always)]
    fn turn_to(&mut self, row: &Row)
        requires front { IsFront self.old }
        ensures front { IsFront self.new }
        ensures start { self.new.start ≡ row.now.start }
        ensures end { self.new.end ≡ row.now.end }
    {
        if self.start != row.start || self.end != row.end {
            *self = Front::new(row.start, row.end);
        }
    }

    /// Writes it so that it ends at `end`, and answers where it starts.
    #[inline(always)]
    fn put(&self, line: &mut [u8; ROOM], end: usize) -> usize
        requires front { IsFront self.now }
        requires room { FRONT ≤ end }
        requires inside { end ≤ ROOM }
        ensures below { result ≤ end }
        ensures written { drop result line.new ≡ (spaced self.now.start ++ spaced self.now.end) ++ drop end line.old }
    {
        let start = end - FRONT;
        line[start..end].copy_from_slice(&self.text);
        start + self.from
    }
}

/// Writes the line of a row with these numbers to the end of its room, and answers where it starts.
pub(crate) fn put_line(
    line: &mut [u8; ROOM],
    front: &mut Front,
    row: &Row,
    numbers: &[i64],
) -> usize
    requires front { IsFront front.old }
    requires same { numbers.now ≡ row.now.values }
    requires few { length numbers.now ≤ MOST_AGGREGATES }
    ensures front { IsFront front.new }
    ensures inside { result < 256 }
    ensures written { drop result line.new ≡ line_of row.now }
    ensures ascii { IsAscii (line_of row.now) }
{
    front.turn_to(row);
    line[ROOM - 1] = b'\n';
    let start = put_numbers(line, ROOM - 1, numbers);
    let start = put_number(line, start, b' ', row.key);
    // The first number has no space before it.
    front.put(line, start) + 1
}
