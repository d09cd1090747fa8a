//! The next value of a text that is no tree: a list or an object that opens, or a cell.

ghost use Rattle.std.specs.Prelude.{◌≡◌, ◌<◌, ◌∷◌, Some, None, length, IfOk, IfErr, OnOk};
ghost use Rattle.std.specs.Bool.{MatchBool};
ghost use Rattle.json.specs.Token.{begin_array, begin_object};
ghost use Rattle.json.specs.Reads.{token_of};
ghost use Rattle.serde_json.specs.Data.{Data};
ghost use Rattle.serde_json.specs.Find.{as_array, as_object};
ghost use Rattle.json_parts.specs.Parts.{cell_text};
ghost use Rattle.json_tokens.specs.Ahead.{part};
ghost use Rattle.json_tokens.specs.Passed.{IsNoValue, Passes, is_number, opens_list, opens_object};

use crate::numerals::number_of;
use crate::passing::pass_rest;
use json::{Invalid, Reader, Token};

fn is_list_start(token: &Token<'_>) -> bool
    ensures { result ≡ opens_list (token_of token.now) }
{
    matches!(token, Token::BeginArray)
}

fn is_object_start(token: &Token<'_>) -> bool
    ensures { result ≡ opens_object (token_of token.now) }
{
    matches!(token, Token::BeginObject)
}

fn is_number(token: &Token<'_>) -> bool
    ensures { result ≡ is_number (token_of token.now) }
{
    matches!(token, Token::Number(_))
}

/// Passes the bracket that opens a list. Any other value is passed as a whole, and no list is open.
///
/// # Errors
///
/// [`Invalid`] where no value comes next, it nests deeper, or a number in it is too large.
pub fn open_list(reader: &mut Reader<'_>, depth: usize) -> Result<bool, Invalid>
    ensures opened { IfOk result (λ is_open. MatchBool is_open ((reader.old ≡ begin_array ∷ reader.new) × (0 < depth)) ((d : Data) × Passes depth reader.old d reader.new × (as_array d ≡ None))) }
    ensures refused { IfErr result (λ _. IsNoValue depth reader.old) }
    ensures shorter { OnOk result (length reader.new < length reader.old) }
{
    let token = reader.next().ok_or(Invalid)?;
    if !is_list_start(&token) {
        pass_rest(reader, token, depth)?;
        return Ok(false);
    }
    if depth == 0 {
        return Err(Invalid);
    }
    Ok(true)
}

/// Passes the brace that opens an object. Any other value is passed as a whole, and no object is open.
///
/// # Errors
///
/// [`Invalid`] where no value comes next, it nests deeper, or a number in it is too large.
pub fn open_object(reader: &mut Reader<'_>, depth: usize) -> Result<bool, Invalid>
    ensures opened { IfOk result (λ is_open. MatchBool is_open ((reader.old ≡ begin_object ∷ reader.new) × (0 < depth)) ((d : Data) × Passes depth reader.old d reader.new × (as_object d ≡ None))) }
    ensures refused { IfErr result (λ _. IsNoValue depth reader.old) }
    ensures shorter { OnOk result (length reader.new < length reader.old) }
{
    let token = reader.next().ok_or(Invalid)?;
    if !is_object_start(&token) {
        pass_rest(reader, token, depth)?;
        return Ok(false);
    }
    if depth == 0 {
        return Err(Invalid);
    }
    Ok(true)
}

/// The next value as a cell of a row: a whole number of 64 bits, or None for any other value.
///
/// # Errors
///
/// [`Invalid`] where none comes next, it nests deeper, or a number in it is too large.
pub fn next_cell(reader: &mut Reader<'_>, depth: usize) -> Result<Option<i64>, Invalid>
    ensures said { IfOk result (λ cell. part cell_text depth reader.old ≡ Some (cell, reader.new)) }
    ensures refused { IfErr result (λ _. IsNoValue depth reader.old) }
    ensures shorter { OnOk result (length reader.new < length reader.old) }
{
    let token = reader.next().ok_or(Invalid)?;
    if !is_number(&token) {
        pass_rest(reader, token, depth)?;
        return Ok(None);
    }
    let Token::Number(text) = token else {
        return Err(Invalid);
    };
    let number = number_of(text).ok_or(Invalid)?;
    Ok(number.as_i64())
}
