//! What clap says of words that are not understood, without what is of no use here.

use clap::Error;
use std::fmt;
use std::fmt::Write;

/// How the advice begins that an unknown option be written behind `--`, as if it were a word.
const ADVICE: &str = "\n  tip: to pass '-";

/// What is written to, without that advice. It stays for a negative number, which is one of the words.
#[derive(Drop)]
struct Unadvised<'w, W: Write> {
    out: &'w mut W,
}

/// Whether a text begins with a digit.
fn begins_number(text: &str) -> bool {
    text.bytes()
        .next()
        .is_some_and(|byte| byte.is_ascii_digit())
}

/// What stands before the advice, and what behind it, if it is there.
fn around(text: &str) -> Option<(&str, &str)> {
    let (before, advice) = text.split_once(ADVICE)?;
    if begins_number(advice) {
        return None;
    }
    let (_, behind) = advice.split_once('\n')?;
    Some((before.strip_suffix("\n").unwrap_or(before), behind))
}

impl<W: Write> Write for Unadvised<'_, W> {
    fn write_str(&mut self, text: &str) -> fmt::Result {
        match around(text) {
            Some((before, behind)) => {
                self.out.write_str(before)?;
                self.out.write_str("\n")?;
                self.out.write_str(behind)
            }
            None => self.out.write_str(text),
        }
    }
}

/// What clap says of words, without that advice.
#[derive(Drop)]
pub(crate) struct WordsFault<'e>(pub(crate) &'e Error);

impl fmt::Display for WordsFault<'_> {
    fn fmt<W: Write>(&self, f: &mut fmt::Formatter<W>) -> fmt::Result {
        let mut out = Unadvised { out: f };
        write!(out, "{}", self.0)
    }
}
