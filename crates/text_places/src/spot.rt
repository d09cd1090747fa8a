//! The tokens of a text.

ghost use Rattle.std.specs.Prelude.{◌≡◌, ◌≤◌, map, length, All, IfOk};
ghost use Rattle.json.specs.Lex.{tokens};
ghost use Rattle.json.specs.Reads.{token_of};

use json::{Reader, Scratch, Token};
use std::alloc::{AllocError, Global};

/// A token of a text, and the offset in bytes at which it begins.
#[derive(Clone, Copy)]
pub struct Spot<'t> {
    pub token: Token<'t>,
    pub offset: usize,
}

/// The tokens of a text, in order; the last is `Bad` where the text is no JSON from there on.
pub fn spots_of<'t>(
    alloc: Global,
    text: &'t str,
    scratch: &'t mut Scratch,
) -> Result<Vec<Spot<'t>>, AllocError>
    ensures tokens { IfOk result (λ spots. map (λ s. token_of s.token) spots.items ≡ tokens text.now) }
    ensures inside { IfOk result (λ spots. All (λ s. s.offset ≤ length text.now) spots.items) }
{
    let mut reader = Reader::new(text, scratch)?;
    let mut spots = Vec::new(alloc);
    let mut offset = reader.offset();
    'tokens: while let Some(token) = reader.next() {
        spots.push(Spot {
            token,
            offset: offset.min(text.len()),
        })?;
        offset = reader.offset();
    }
    Ok(spots)
}
