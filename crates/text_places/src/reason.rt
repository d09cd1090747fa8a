//! Why a text is no JSON at a place.

/// A list or an object that is open at a place.
#[derive(Clone, Copy, Debug, PartialEq, Eq)]
pub(crate) enum Open {
    List,
    Object,
}

/// What may stand at a place.
#[derive(Clone, Copy, Debug, PartialEq, Eq)]
enum Wanted {
    Name,
    Value,
    Comma,
}

fn is_blank(byte: u8) -> bool {
    matches!(byte, b' ' | b'\t' | b'\n' | b'\r')
}

/// The nearest byte before a place that is no blank.
fn byte_before(text: &[u8]) -> Option<u8> {
    text.iter().rev().copied().find(|byte| !is_blank(*byte))
}

/// What may stand behind a byte.
fn wanted_after(byte: Option<u8>, open: Option<Open>) -> Wanted {
    match byte {
        None | Some(b'[' | b':') => Wanted::Value,
        Some(b'{') => Wanted::Name,
        Some(b',') => match open {
            Some(Open::Object) => Wanted::Name,
            _ => Wanted::Value,
        },
        _ => Wanted::Comma,
    }
}

const BAD_TEXT: &str =
    "this text in quotes has no end, or holds a line break, a control character or an escape that is none";

fn no_name(byte: u8, bad: bool) -> &'static str {
    match byte {
        b'"' if bad => BAD_TEXT,
        b'"' => "`:` is wanted after this name",
        b'}' => "a comma too many before `}`",
        _ => "a name in double quotes is wanted here",
    }
}

fn no_value(byte: u8, bad: bool) -> &'static str {
    match byte {
        b'"' if bad => BAD_TEXT,
        b'"' => "a name stands in an object only, before its value",
        b'}' => "a value is missing before `}`",
        b']' => "a value is missing before `]` (a comma too many?)",
        b',' => "a value is missing before `,`",
        b'\'' => "JSON texts stand in double quotes",
        b'/' => "JSON has no comments",
        b'+' => "a number has no plus sign",
        b'N' => "NaN is no JSON",
        b'I' => "Infinity is no JSON",
        b'-' | b'.' | b'0'..=b'9' =>
            "this is no JSON number: digits with no 0 before them, then perhaps a point and digits, and an exponent",
        0xef =>
            "no JSON value begins so; of a byte order mark: write the file as UTF-8 without one",
        _ => "no JSON value begins so",
    }
}

fn no_comma(byte: u8, open: Option<Open>) -> &'static str {
    match (open, byte) {
        (Some(Open::Object), _) => "`,` or `}` is wanted here",
        (Some(Open::List), _) => "`,` or `]` is wanted here",
        (None, b'{' | b'[') =>
            "another value follows: the text has to be one JSON value, not one a line",
        (None, _) => "something follows the value",
    }
}

fn no_end(open: Option<Open>) -> &'static str {
    match open {
        Some(Open::Object) => "the text ends inside an object",
        Some(Open::List) => "the text ends inside a list",
        None => "the text ends here, before its value is whole",
    }
}

/// Why what stands at an offset is no JSON there; `bad`: it is no token.
pub(crate) fn reason_at(text: &[u8], offset: usize, open: Option<Open>, bad: bool) -> &'static str {
    let Some(byte) = text.get(offset).copied() else {
        return no_end(open);
    };
    match wanted_after(byte_before(&text[..offset]), open) {
        Wanted::Name => no_name(byte, bad),
        Wanted::Value => no_value(byte, bad),
        Wanted::Comma => no_comma(byte, open),
    }
}
