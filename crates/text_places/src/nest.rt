//! Where a text is no JSON.

ghost use Rattle.std.specs.Prelude.{◌≤◌, ◌<◌, length, All, IfOk, IfSome, IfNone, IsSome, IsUtf8};
ghost use Rattle.text_places.specs.declared.nest.TheConstants.{MOST_OPEN};

use crate::reason::{Open, reason_at};
use crate::spot::{Spot, spots_of};
use json::{Scratch, Token};
use std::alloc::{AllocError, Global};

/// Where a text is no JSON: the offset in bytes, and why.
#[derive(Clone, Copy, Debug)]
pub struct Breach {
    pub offset: usize,
    pub reason: &'static str,
}

/// So many lists and objects may be open at once, as `serde_json` has it.
const MOST_OPEN: usize = 127;

/// What is open at a place.
#[derive(Drop)]
struct Nest {
    open: Vec<Open>,
    /// Whether a name stands before the place.
    named: bool,
    /// Whether the value of the text has begun.
    begun: bool,
}

impl Nest {
    fn new(alloc: Global) -> Nest {
        Nest {
            open: Vec::new(alloc),
            named: false,
            begun: false,
        }
    }

    fn top(&self) -> Option<Open> {
        self.open.last().copied()
    }

    /// Passes a name, and says whether it may stand here.
    fn pass_name(&mut self) -> bool {
        let fits = self.top() == Some(Open::Object) && !self.named;
        self.named = true;
        fits
    }

    /// Passes the end of a list or an object, and says whether it may stand here.
    fn pass_end(&mut self, open: Open) -> bool {
        let fits = self.top() == Some(open) && !self.named;
        let _ = self.open.pop();
        fits
    }

    /// Passes the beginning of a value, and says whether it may stand here.
    fn pass_value(&mut self) -> bool {
        let fits = match self.top() {
            None => !self.begun,
            Some(Open::List) => true,
            Some(Open::Object) => self.named,
        };
        self.begun = true;
        self.named = false;
        fits
    }

    /// Passes the beginning of a list or an object, and says whether it may stand here.
    fn pass_open(&mut self, open: Open) -> Result<bool, AllocError> {
        let fits = self.pass_value();
        self.open.push(open)?;
        Ok(fits)
    }

    /// Passes a token, and says whether it may stand here.
    fn pass(&mut self, token: Token<'_>) -> Result<bool, AllocError> {
        Ok(match token {
            Token::Bad => false,
            Token::Key(_) => self.pass_name(),
            Token::EndObject => self.pass_end(Open::Object),
            Token::EndArray => self.pass_end(Open::List),
            Token::BeginObject => self.pass_open(Open::Object)?,
            Token::BeginArray => self.pass_open(Open::List)?,
            _ => self.pass_value(),
        })
    }
}

/// As many digits as the greatest double has.
const MOST_DIGITS: usize = 308;

/// Whether the text of a number may be one too large for a double: no such is short and without an exponent.
fn may_be_large(number: &str) -> bool {
    number.len() > MOST_DIGITS || number.bytes().any(|byte| byte == b'e' || byte == b'E')
}

/// Whether a number is too large for a double, as `serde_json` refuses it.
fn is_too_large(token: Token<'_>) -> bool {
    match token {
        Token::Number(number) if may_be_large(number) => match number.parse::<f64>() {
            Ok(value) => value.is_infinite(),
            Err(_) => false,
        },
        _ => false,
    }
}

/// Why a token that fits by its kind is refused all the same, if it is, where so many lists and objects are open then.
pub fn limit_of(depth: usize, token: Token<'_>) -> Option<&'static str>
    ensures { MOST_OPEN < depth → IsSome result }
{
    if is_too_large(token) {
        return Some("a number too large for a double");
    }
    if depth > MOST_OPEN {
        return Some("lists and objects nested more than 127 deep");
    }
    None
}

/// The first token that may not stand where it stands.
fn first_breach(
    alloc: Global,
    text: &[u8],
    spots: &[Spot<'_>],
) -> Result<Option<Breach>, AllocError>
    requires { All (λ s. s.offset ≤ length text.now) spots.now }
    ensures { IfOk result (λ found. IfSome found (λ breach. breach.offset ≤ length text.now)) }
{
    let mut nest = Nest::new(alloc);
    for spot in spots {
        let open = nest.top();
        let offset = spot.offset;
        if !nest.pass(spot.token)? {
            let bad = matches!(spot.token, Token::Bad);
            let reason = reason_at(text, offset, open, bad);
            return Ok(Some(Breach { offset, reason }));
        }
        if let Some(reason) = limit_of(nest.open.len(), spot.token) {
            return Ok(Some(Breach { offset, reason }));
        }
    }
    if nest.begun && nest.open.is_empty() {
        return Ok(None);
    }
    let offset = text.len();
    let reason = reason_at(text, offset, nest.top(), false);
    Ok(Some(Breach { offset, reason }))
}

/// Where the bytes are no JSON text, and why, if they are none.
///
/// # Errors
///
/// Where memory runs out.
pub fn breach_in(alloc: Global, bytes: &[u8]) -> Result<Option<Breach>, AllocError>
    ensures inside { IfOk result (λ found. IfSome found (λ breach. breach.offset ≤ length bytes.now)) }
    ensures text { IfOk result (λ found. IfNone found (IsUtf8 bytes.now)) }
{
    match std::str::from_utf8(bytes) {
        Err(error) => Ok(Some(Breach {
            offset: error.valid_up_to(),
            reason: "the text is no UTF-8 here",
        })),
        Ok(text) => {
            let mut scratch = Scratch::new(alloc);
            let spots = spots_of(alloc, text, &mut scratch)?;
            first_breach(alloc, bytes, &spots)
        }
    }
}
