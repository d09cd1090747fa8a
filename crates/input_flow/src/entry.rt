//! An entry, as a layout's sources have it.

ghost use Rattle.std.specs.Prelude.{◌≡◌};
ghost use Rattle.input_flow.specs.InputEntries.{brings};

use stream_model::Marked;

/// The watermark that an entry brings to the source that reads it: its mark, and the greatest i64 with the last entry
/// of its partition.
pub fn brought(marked: &Marked, is_last: bool) -> i64
    ensures { result ≡ brings marked.now is_last }
{
    if is_last { i64::MAX } else { marked.mark }
}
