//! What stands between the fields of CSV.

ghost use Rattle.std.specs.Prelude.{◌≡◌, option_map};
ghost use Rattle.imports.specs.Separators.{separator_of, separates, separator_said};

/// The byte between the fields of a row of CSV: one of ASCII that neither ends a line nor is a quotation mark.
#[derive(Clone, Copy, Debug, PartialEq, Eq)]
pub struct Separator {
    byte: u8,
}

/// Whether a byte can stand between fields.
fn separates(byte: u8) -> bool
    ensures { result ≡ separates byte }
{
    byte < 128 && byte != b'"' && byte != b'\r' && byte != b'\n'
}

impl Separator {
    /// A comma.
    pub const COMMA: Separator = Separator { byte: b',' };

    /// The separator that a word says: the word itself, which is one byte, or `tab`.
    pub fn said_by(word: &str) -> Option<Separator>
        ensures { option_map separator_of result ≡ separator_said word.now }
    {
        match word.as_bytes() {
            b"tab" => Some(Separator { byte: b'\t' }),
            [byte] if separates(*byte) => Some(Separator { byte: *byte }),
            _ => None,
        }
    }

    /// The byte.
    pub fn byte(self) -> u8
        ensures { result ≡ separator_of self }
    {
        self.byte
    }
}
