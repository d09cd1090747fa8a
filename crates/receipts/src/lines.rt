//! The lines of entries: compact JSON, as `jq -c` prints the entries of an input.

ghost use Rattle.std.specs.Prelude.{◌≡◌, ◌++◌, OnOk, string_bytes};
ghost use Rattle.receipts.specs.Lines.{entry_line};

use part_texts::push_entry;
use std::alloc::AllocError;
use stream_model::Marked;

/// Puts the line of an entry behind a text: its rows or its watermark as compact JSON, and a line feed.
///
/// # Errors
///
/// Only where memory runs out.
pub(crate) fn push_line(text: &mut String, marked: &Marked) -> Result<(), AllocError>
    ensures { OnOk result (string_bytes text.new ≡ string_bytes text.old ++ entry_line marked.now) }
{
    push_entry(text, &marked.entry)?;
    text.push_str("\n")
}
