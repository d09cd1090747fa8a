//! Values of a text that are passed over: nothing of them is kept.

ghost use Rattle.std.specs.Prelude.{◌≡◌, ◌<◌, ◌≤◌, ◌∷◌, true, false, List, None, Some, length, OnOk, MatchResult};
ghost use Rattle.json.specs.Json.{value, items, members, read_key};
ghost use Rattle.json.specs.Reads.{token_of};
ghost use Rattle.serde_json.specs.Data.{Data, Items, Members, no_members};
ghost use Rattle.serde_json.specs.Read.{of_json, of_items, of_members, converted};
ghost use Rattle.json_tokens.specs.Passed.{Passes};

use crate::numerals::number_of;
use json::{Invalid, Reader, Token};

/// The deepest that lists and objects nest in a text.
pub const MOST_DEPTH: usize = 127;

/// Passes the next value.
///
/// # Errors
///
/// [`Invalid`] where none comes next, it nests deeper, or a number in it is too large.
#[cycle(pass)]
pub fn pass_value(reader: &mut Reader<'_>, depth: usize) -> Result<(), Invalid>
    ensures value { MatchResult result (λ _. (d : Data) × Passes depth reader.old d reader.new)
        (λ _. converted of_json (value depth reader.old) ≡ None) }
    ensures shorter { OnOk result (length reader.new < length reader.old) }
{
    let token = reader.next().ok_or(Invalid)?;
    pass_rest(reader, token, depth)
}

/// Passes the rest of a value of which the first token was taken.
///
/// # Errors
///
/// [`Invalid`] where the token begins no value, it nests deeper, or a number in it is too large.
#[cycle(pass)]
pub fn pass_rest(reader: &mut Reader<'_>, token: Token<'_>, depth: usize) -> Result<(), Invalid>
    ensures value { MatchResult result (λ _. (d : Data) × Passes depth (token_of token.entry ∷ reader.old) d reader.new)
        (λ _. converted of_json (value depth (token_of token.entry ∷ reader.old)) ≡ None) }
    ensures shorter { OnOk result (length reader.new ≤ length reader.old) }
{
    match token {
        Token::String(_) => Ok(()),
        Token::Bool(_) => Ok(()),
        Token::Null => Ok(()),
        Token::Number(text) => match number_of(text) {
            Some(_) => Ok(()),
            None => Err(Invalid),
        },
        Token::EndObject | Token::EndArray | Token::Key(_) | Token::Bad => Err(Invalid),
        Token::BeginArray => {
            if depth == 0 {
                return Err(Invalid);
            }
            pass_items(reader, depth - 1)
        }
        Token::BeginObject => {
            if depth == 0 {
                return Err(Invalid);
            }
            pass_members(reader, depth - 1)
        }
    }
}

#[cycle(pass)]
fn pass_items(reader: &mut Reader<'_>, depth: usize) -> Result<(), Invalid>
    ensures value { MatchResult result (λ _. (ds : Items) × (converted of_items (items (value depth) (length reader.old) reader.old) ≡ Some (ds, reader.new)))
        (λ _. converted of_items (items (value depth) (length reader.old) reader.old) ≡ None) }
    ensures shorter { OnOk result (length reader.new < length reader.old) }
{
    'items: while !reader.take_end_array() {
        pass_value(reader, depth)?;
    }
    Ok(())
}

#[cycle(pass)]
fn pass_members(reader: &mut Reader<'_>, depth: usize) -> Result<(), Invalid>
    ensures value { MatchResult result
        (λ _. (ms : Members) × (converted (λ ms. of_members ms no_members) (members (value depth) (length reader.old) reader.old) ≡ Some (ms, reader.new)))
        (λ _. converted (λ ms. of_members ms no_members) (members (value depth) (length reader.old) reader.old) ≡ None) }
    ensures shorter { OnOk result (length reader.new < length reader.old) }
{
    'members: while let Some(_) = reader.next_key()? {
        pass_value(reader, depth)?;
    }
    Ok(())
}
