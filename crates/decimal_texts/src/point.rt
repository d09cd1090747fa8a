//! What stands for the point of a decimal.

ghost use Rattle.std.specs.Prelude.{◌≡◌, map, OnOk};
ghost use Rattle.decimal_texts.specs.Points.{point_said, byte_of, swapped};

use std::alloc::AllocError;

/// What stands between the digits of a decimal before its decimal places and these.
#[derive(Clone, Copy, Debug, PartialEq, Eq)]
pub enum DecimalPoint {
    Point,
    Comma,
}

impl DecimalPoint {
    /// What a word says: `.` or `,`.
    pub fn said_by(word: &str) -> Option<DecimalPoint>
        ensures { result ≡ point_said word.now }
    {
        match word {
            "." => Some(DecimalPoint::Point),
            "," => Some(DecimalPoint::Comma),
            _ => None,
        }
    }

    /// The byte that it is.
    pub fn byte(self) -> u8
        ensures { result ≡ byte_of self }
    {
        match self {
            DecimalPoint::Point => b'.',
            DecimalPoint::Comma => b',',
        }
    }
}

/// A comma for a point, and a point for a comma.
fn swapped(byte: u8) -> u8
    ensures { result ≡ swapped byte }
{
    match byte {
        b',' => b'.',
        b'.' => b',',
        _ => byte,
    }
}

/// Writes a text with a point for each comma and a comma for each point: of a decimal with a comma one with a point,
/// and of one with a point what is none.
///
/// # Errors
///
/// Only where memory runs out.
pub fn swap_points(swapped_text: &mut Vec<u8>, text: &[u8]) -> Result<(), AllocError>
    ensures { OnOk result (swapped_text.new.items ≡ map swapped text.now) }
{
    swapped_text.clear();
    for byte in text {
        swapped_text.push(swapped(*byte))?;
    }
    Ok(())
}
