//! The text of records, number by number, from the last to the first.

ghost use Rattle.std.specs.Prelude.{◌≡◌, ◌++◌, ◌∷◌, ◌*◌, ◌+◌, ◌≤◌, ◌<◌, [], length, drop, slice_index_or, IsAscii};
ghost use Rattle.std.specs.List.{All};
ghost use Rattle.key_dealing.specs.Dealing.{rows_at};
ghost use Rattle.part_texts.specs.InputTexts.{cells_text, record_text, records_text};

use columns::Batch;
use job_texts::put_number;

/// Writes a comma and the numbers of a row, with commas between them, so that they end at `end`, and answers where they
/// start.
fn put_cells(line: &mut [u8], end: usize, batch: &Batch, row: usize) -> usize
    requires room { 21 * batch.now.width ≤ end }
    requires inside { end ≤ length line.old }
    requires row { row < length batch.now.rows }
    ensures short { end ≤ result + 21 * batch.now.width }
    ensures below { result < end }
    ensures written { drop result line.new ≡ (44 ∷ cells_text batch.now.width (slice_index_or batch.now.rows row [])) ++ drop end line.old }
    ensures ascii { IsAscii (cells_text batch.now.width (slice_index_or batch.now.rows row [])) }
{
    let mut start = end;
    let mut left = batch.width();
    while left > 0 {
        left -= 1;
        start = put_number(line, start, b',', batch.value(row, left));
    }
    start
}

/// The same of a comma and the text of a row.
fn put_record(line: &mut [u8], end: usize, batch: &Batch, row: usize) -> usize
    requires room { 21 * batch.now.width + 2 ≤ end }
    requires inside { end ≤ length line.old }
    requires row { row < length batch.now.rows }
    ensures short { end ≤ result + (21 * batch.now.width + 2) }
    ensures below { result < end }
    ensures written { drop result line.new ≡ (44 ∷ record_text batch.now.width (slice_index_or batch.now.rows row [])) ++ drop end line.old }
    ensures ascii { IsAscii (record_text batch.now.width (slice_index_or batch.now.rows row [])) }
{
    line[end - 1] = b']';
    let start = put_cells(line, end - 1, batch, row);
    line[start] = b'[';
    line[start - 1] = b',';
    start - 1
}

/// The most bytes that the rows of a batch take: of each at most 20 for a number, a comma before each, and brackets.
pub(crate) fn room_of(batch: &Batch) -> usize
    ensures { result ≡ length batch.now.rows * (21 * batch.now.width + 2) }
{
    batch.len() * (21 * batch.width() + 2)
}

/// Writes the rows, with commas between them, to the end of their room, and answers where they start.
pub(crate) fn put_records(line: &mut [u8], batch: &Batch) -> usize
    requires some { 0 < length batch.now.rows }
    requires room { length batch.now.rows * (21 * batch.now.width + 2) ≤ length line.old }
    ensures inside { result ≤ length line.old }
    ensures written { drop result line.new ≡ records_text batch.now.width batch.now.rows }
    ensures ascii { IsAscii (records_text batch.now.width batch.now.rows) }
{
    let mut start = line.len();
    let mut left = batch.len();
    while left > 0 {
        left -= 1;
        start = put_record(line, start, batch, left);
    }
    // Nothing stands before the first of them.
    start + 1
}

/// The most bytes that a row of a batch takes.
pub(crate) fn room_of_row(batch: &Batch) -> usize
    ensures { result ≡ 21 * batch.now.width + 2 }
{
    21 * batch.width() + 2
}

/// Writes the rows at some places, with commas between them, to the end of their room, and answers where they start.
pub(crate) fn put_records_at(line: &mut [u8], batch: &Batch, places: &[usize]) -> usize
    requires some { 0 < length places.now }
    requires inside { All (λ place. place < length batch.now.rows) places.now }
    requires room { length places.now * (21 * batch.now.width + 2) ≤ length line.old }
    ensures inside { result ≤ length line.old }
    ensures written { drop result line.new ≡ records_text batch.now.width (rows_at batch.now.rows places.now) }
{
    let mut start = line.len();
    let mut left = places.len();
    while left > 0 {
        left -= 1;
        start = put_record(line, start, batch, places[left]);
    }
    // Nothing stands before the first of them.
    start + 1
}
