//! What stands in a value.

ghost use Rattle.std.specs.Prelude.{◌≡◌, IfOk, IfSome, option_map};
ghost use Rattle.place_notes.specs.Values.{IsWhole, text_in, IsMember, AreItems};

use json::Token;
use std::alloc::{AllocError, Global};
use text_places::{Part, Placed, part_named};

/// The whole number of 64 bits that a value is, if it is one: written without point and exponent, and not `-0`.
pub fn whole_of(value: &Placed<'_>) -> Option<i64>
    ensures { IfSome result (λ number. IsWhole number value.now.token) }
{
    match value.token {
        Token::Number("-0") => None,
        Token::Number(number) => number.parse::<i64>().ok(),
        _ => None,
    }
}

/// The text that a value is, if it is one.
pub fn text_of<'v>(value: &Placed<'v>) -> Option<&'v str>
    ensures { option_map (λ text. text.now) result ≡ text_in value.now.token }
{
    match value.token {
        Token::String(text) => Some(text),
        _ => None,
    }
}

/// The member of an object with a name.
///
/// # Errors
///
/// Where memory runs out.
pub fn member_of<'v>(
    alloc: Global,
    object: &Placed<'v>,
    name: &str,
) -> Result<Option<Placed<'v>>, AllocError>
    ensures { IfOk result (λ member. IfSome member (IsMember object.now name.now)) }
{
    let parts = object.parts(alloc)?;
    Ok(part_named(&parts, name).map(|part| part.value))
}

/// The parts of the member of an object with a name; none where no member has the name.
///
/// # Errors
///
/// Where memory runs out.
pub fn items_of<'v>(
    alloc: Global,
    object: &Placed<'v>,
    name: &str,
) -> Result<Vec<Part<'v>>, AllocError>
    ensures { IfOk result (λ items. AreItems object.now name.now items.items) }
{
    match member_of(alloc, object, name)? {
        Some(list) => list.parts(alloc),
        None => Ok(Vec::new(alloc)),
    }
}
