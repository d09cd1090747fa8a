//! Rows of whole numbers, one after another in one vector, by one pass over the bytes of a text.
ghost use Rattle.std.specs.Prelude.{◌≡◌, ◌<◌, ◌≤◌, ◌+◌, ◌++◌, ℤ, true, false, List, Some, IfOk, OnOk, length, vec_len, vec_capacity};
ghost use Rattle.json.specs.Token.{Token as SpecToken};
ghost use Rattle.json.specs.Lex.{between, lex};
ghost use Rattle.json_parts.specs.Parts.{whole, list_text};
ghost use Rattle.json_tokens.specs.Ahead.{part, parts};
ghost use Rattle.json_tokens.specs.Lexemes.{tokens_from, Begins};
ghost use Rattle.json_tokens.specs.Rows.{row_text, joined};

use crate::bytes::behind_mark;
use crate::miss::Miss;
use crate::numbers::{
    other_item_at, short_item_at, short_item_behind_space, short_item_below_zero,
};
use crate::scanner::Scanner;

/// Reads so many numbers, a comma behind each but the last and the bracket that closes the list behind that, puts them
/// behind what `cells` holds, and gives what follows the bracket.
#[inline(always)]
fn cells_at<'a>(
    text: &'a [u8],
    cells: &mut Vec<i64>,
    width: usize,
    depth: usize,
) -> Result<&'a [u8], Miss>
    requires some { 1 ≤ width }
    requires room { vec_len cells.old + width ≤ vec_capacity cells.old }
    ensures said { IfOk result (λ rest. (row : List ℤ) × (parts whole depth (tokens_from false text.now) ≡ Some (row, tokens_from true rest.now))
        × (cells.new.items ≡ cells.old.items ++ row) × (length row ≡ width)) }
    ensures wide { OnOk result (vec_len cells.new ≡ vec_len cells.old + width) }
    ensures shorter { IfOk result (λ rest. length (tokens_from true rest.now) < length (tokens_from false text.now)) }
    ensures fewer { IfOk result (λ rest. length (lex between rest.now) < length (lex between text.now)) }
{
    let mut left = text;
    for _ in 1..width {
        let (number, rest) = if let Some(found) = short_item_at(left, b',') {
            found
        } else if let Some(found) = short_item_below_zero(left, b',') {
            found
        } else if let Some(found) = short_item_behind_space(left, b',') {
            found
        } else if let Some(found) = other_item_at(left, b',') {
            found
        } else {
            return Err(Miss::Other);
        };
        cells.push_reserved(number);
        left = rest;
    }
    let (number, rest) = if let Some(found) = short_item_at(left, b']') {
        found
    } else if let Some(found) = short_item_below_zero(left, b']') {
        found
    } else if let Some(found) = short_item_behind_space(left, b']') {
        found
    } else if let Some(found) = other_item_at(left, b']') {
        found
    } else {
        return Err(Miss::Other);
    };
    cells.push_reserved(number);
    Ok(rest)
}

/// Reads a row of `width` numbers, puts them behind what `cells` holds, and gives what follows it.
#[inline(always)]
fn row_at<'a>(
    text: &'a [u8],
    cells: &mut Vec<i64>,
    width: usize,
    most: usize,
    depth: usize,
) -> Result<&'a [u8], Miss>
    ensures said { IfOk result (λ rest. (row : List ℤ) × ((ts : List SpecToken) → Begins ts text.now → part (row_text width) depth ts ≡ Some (row, tokens_from true rest.now))
        × (cells.new.items ≡ cells.old.items ++ row)) }
    ensures shorter { IfOk result (λ rest. (ts : List SpecToken) → Begins ts text.now → length (tokens_from true rest.now) < length ts) }
    ensures fewer { IfOk result (λ rest. length (lex between rest.now) < length (lex between text.now)) }
    ensures within { OnOk result (length cells.new.items ≤ most) }
{
    let Some(inner) = behind_mark(text, b'[') else {
        return Err(Miss::Other);
    };
    let held = cells.len();
    if depth == 0 || width == 0 || most < held || most - held < width {
        return Err(Miss::Other);
    }
    cells.reserve(width)?;
    cells_at(inner, cells, width, depth - 1)
}

/// Reads rows up to the closing bracket, and gives what follows it.
#[inline(always)]
fn rows_at<'a>(
    text: &'a [u8],
    cells: &mut Vec<i64>,
    width: usize,
    most: usize,
    depth: usize,
) -> Result<&'a [u8], Miss>
    ensures said { IfOk result (λ rest. (rows : List (List ℤ)) × (parts (row_text width) depth (tokens_from false text.now) ≡ Some (rows, tokens_from true rest.now))
        × (cells.new.items ≡ cells.old.items ++ joined rows)) }
    ensures shorter { IfOk result (λ rest. length (tokens_from true rest.now) < length (tokens_from false text.now)) }
    ensures within { OnOk result (length cells.old.items ≤ most → length cells.new.items ≤ most) }
{
    if let Some(over) = behind_mark(text, b']') {
        return Ok(over);
    }
    let mut item = text;
    'rows: loop {
        let rest = row_at(item, cells, width, most, depth)?;
        let Some(next) = behind_mark(rest, b',') else {
            let Some(over) = behind_mark(rest, b']') else {
                return Err(Miss::Other);
            };
            return Ok(over);
        };
        item = next;
    }
}

/// The next value, a list of rows of `width` whole numbers each. Their numbers, row after row, are put
/// behind what `cells` holds, which is to be no more than `most`.
///
/// # Errors
///
/// `Other` where the next value is written otherwise, or is none, or has more numbers; `Memory`.
pub fn scan_rows(
    reader: &mut Scanner<'_>,
    cells: &mut Vec<i64>,
    width: usize,
    most: usize,
    depth: usize,
) -> Result<(), Miss>
    ensures said { OnOk result ((rows : List (List ℤ)) × (part (list_text (row_text width)) depth reader.old ≡ Some (rows, reader.new))
        × (cells.new.items ≡ cells.old.items ++ joined rows)) }
    ensures shorter { OnOk result (length reader.new < length reader.old) }
    ensures within { OnOk result (length cells.old.items ≤ most → length cells.new.items ≤ most) }
{
    if depth == 0 {
        return Err(Miss::Other);
    }
    let Some(inner) = reader.list_start() else {
        return Err(Miss::Other);
    };
    let rest = rows_at(inner, cells, width, most, depth - 1)?;
    reader.stand_behind(rest);
    Ok(())
}
