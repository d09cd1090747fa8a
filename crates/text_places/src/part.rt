//! The values of a text, over its tokens.

ghost use Rattle.std.specs.Prelude.{◌≡◌, ◌<◌, ◌^◌, All, IfOk, OnOk, IfSome, length, option_map, option_copied, bytes_eq, reverse, find, slice_get};
ghost use Rattle.text_places.specs.Parts.{level_after, level_at, is_beginning, IsPartOf};

use crate::spot::Spot;
use json::Token;
use std::alloc::{AllocError, Global};
use std::fmt;

/// A value of a JSON text: the token with which it begins, the offset of that in bytes, and the tokens of the
/// text from there on.
#[derive(Clone, Copy)]
pub struct Placed<'v> {
    pub token: Token<'v>,
    pub offset: usize,
    pub spots: &'v [Spot<'v>],
}

/// A value in a list or an object. In an object it has a name, and the name's offset in bytes; in a list the
/// name is empty, and the offset is the value's.
#[derive(Clone, Copy)]
pub struct Part<'v> {
    pub name: &'v str,
    pub offset: usize,
    pub value: Placed<'v>,
}

/// The value with which the tokens begin.
pub fn first_value<'v>(spots: &'v [Spot<'v>]) -> Option<Placed<'v>>
    ensures token { option_map (λ p. p.token) result ≡ option_map (λ s. s.token) (slice_get spots.now 0) }
    ensures offset { option_map (λ p. p.offset) result ≡ option_map (λ s. s.offset) (slice_get spots.now 0) }
    ensures spots { IfSome result (λ p. p.spots.now ≡ spots.now) }
{
    let spot = spots.first()?;
    Some(Placed {
        token: spot.token,
        offset: spot.offset,
        spots,
    })
}

/// How many lists and objects are open behind a token.
fn depth_after(depth: usize, token: Token<'_>) -> usize
    requires { depth < 2 ^ 63 }
    ensures { result ≡ level_after depth token.entry }
{
    match token {
        Token::BeginObject | Token::BeginArray => depth + 1,
        Token::EndObject | Token::EndArray => depth.saturating_sub(1),
        _ => depth,
    }
}

/// Whether a value begins with a token.
fn begins_value(token: Token<'_>) -> bool
    ensures { result ≡ is_beginning token.entry }
{
    !matches!(token, Token::EndObject | Token::EndArray | Token::Key(_))
}

/// A name, and its offset in bytes.
#[derive(Clone, Copy)]
struct Name<'v> {
    text: &'v str,
    offset: usize,
}

/// The name that stands before the next value.
fn name_after<'v>(spot: &Spot<'v>) -> Option<Name<'v>> {
    match spot.token {
        Token::Key(text) => Some(Name {
            text,
            offset: spot.offset,
        }),
        _ => None,
    }
}

/// The part with a name whose value begins at a token.
fn make_part<'v>(name: Option<Name<'v>>, spot: Spot<'v>, spots: &'v [Spot<'v>]) -> Part<'v>
    ensures { (result.value.token ≡ spot.entry.token) × (result.value.offset ≡ spot.entry.offset) × (result.value.spots.now ≡ spots.now) }
{
    let value = Placed {
        token: spot.token,
        offset: spot.offset,
        spots,
    };
    match name {
        Some(name) => Part {
            name: name.text,
            offset: name.offset,
            value,
        },
        None => Part {
            name: "",
            offset: spot.offset,
            value,
        },
    }
}

/// Puts the value that begins at a place behind the parts, if one begins there and it stands in the list or
/// the object with which the tokens begin, and not deeper.
fn put_value<'v>(
    parts: &mut Vec<Part<'v>>,
    spots: &'v [Spot<'v>],
    place: usize,
    depth: usize,
    name: Option<Name<'v>>,
) -> Result<(), AllocError>
    requires place { place < length spots.now }
    requires depth { depth ≡ level_at place spots.now }
    ensures { OnOk result (All (IsPartOf spots.now) parts.old.items → All (IsPartOf spots.now) parts.new.items) }
{
    let spot = spots[place];
    if depth == 1 && begins_value(spot.token) {
        parts.push(make_part(name, spot, &spots[place..]))?;
    }
    Ok(())
}

impl<'v> Placed<'v> {
    /// The values that stand in a list or an object, in order; in another value none.
    ///
    /// # Errors
    ///
    /// Where memory runs out.
    #[tactic(auto, using(std::proofs::lemmas::List::Sums::fold_more))]
    pub fn parts(&self, alloc: Global) -> Result<Vec<Part<'v>>, AllocError>
        ensures { IfOk result (λ parts. All (IsPartOf self.now.spots.now) parts.items) }
    {
        let spots = self.spots;
        let mut parts = Vec::new(alloc);
        let mut depth = 0;
        let mut name = None;
        for (i, spot) in spots.iter().enumerate() {
            put_value(&mut parts, spots, i, depth, name)?;
            name = name_after(spot);
            depth = depth_after(depth, spot.token);
            if depth == 0 {
                break;
            }
        }
        Ok(parts)
    }
}

/// The last part with a name: of members that share a name the last counts.
pub fn part_named<'p, 'v>(parts: &'p [Part<'v>], name: &str) -> Option<&'p Part<'v>>
    ensures { option_copied result ≡ find (λ p. bytes_eq p.name.now name.now) (reverse parts.now) }
{
    parts.iter().rev().find(|part| part.name == name)
}

/// What stands there, as a sentence says it.
impl fmt::Display for Placed<'_> {
    fn fmt<W: fmt::Write>(&self, f: &mut fmt::Formatter<W>) -> fmt::Result {
        match self.token {
            Token::String(text) => write!(f, "{text:?}"),
            Token::Number(number) => f.write_str(number),
            Token::Bool(true) => f.write_str("true"),
            Token::Bool(false) => f.write_str("false"),
            Token::Null => f.write_str("null"),
            Token::BeginArray => f.write_str("a list"),
            Token::BeginObject => f.write_str("an object"),
            _ => f.write_str("no value"),
        }
    }
}
