//! Lines and columns.

ghost use Rattle.std.specs.Prelude.{◌≡◌, ◌+◌, ◌==◌, not, count_by, take_while, reverse};
ghost use Rattle.text_places.specs.Places.{begins_character as is_beginning, lines_before, characters_before};

/// Where something stands in a text: its line, and its column in characters of UTF-8. Both count from 1.
#[derive(Clone, Copy, Debug, PartialEq, Eq)]
pub struct Place {
    pub line: usize,
    pub column: usize,
}

/// Whether a character of UTF-8 begins with the byte.
fn begins_character(byte: u8) -> bool
    ensures { result ≡ is_beginning byte }
{
    byte < 128 || 192 <= byte
}

/// The lines that end in a text.
fn lines_in(before: &[u8]) -> usize
    ensures { result ≡ count_by (λ b. b == 10) before.now }
{
    before.iter().filter(|byte| **byte == b'\n').count()
}

/// The characters of a text's last line.
fn characters_in(before: &[u8]) -> usize
    ensures { result ≡ count_by is_beginning (take_while (λ b. not (b == 10)) (reverse before.now)) }
{
    before
        .iter()
        .rev()
        .take_while(|byte| **byte != b'\n')
        .filter(|byte| begins_character(**byte))
        .count()
}

/// The place of an offset in bytes; past the end of the text it is that of the end.
pub fn place_of(text: &[u8], offset: usize) -> Place
    ensures line { result.line ≡ 1 + lines_before offset text.now }
    ensures column { result.column ≡ 1 + characters_before offset text.now }
{
    let before = &text[..offset.min(text.len())];
    Place {
        line: lines_in(before) + 1,
        column: characters_in(before) + 1,
    }
}
