//! The row of a record.

ghost use Rattle.import_copies.specs.Rows.{IsGood};

use import_entries::PlaceFault;
use imports::RowFault;
use plan_model::is_time;

/// A row as it goes into a partition.
#[derive(Clone, Copy)]
pub(crate) struct GoodRow<'r> {
    pub(crate) time: i64,
    pub(crate) first: i64,
    pub(crate) others: &'r [i64],
}

/// The row of the numbers of a record, with its time at a place.
///
/// # Errors
///
/// `Place` with `Range` where the time is none, or there is no number.
pub(crate) fn good_row(numbers: &[i64], time: usize) -> Result<GoodRow<'_>, RowFault>
    ensures { IsGood time numbers.now result }
{
    let Some((first, others)) = numbers.split_first() else {
        return Err(RowFault::Place(PlaceFault::Range));
    };
    let time = *numbers.get(time).unwrap_or(first);
    if !is_time(time) {
        return Err(RowFault::Place(PlaceFault::Range));
    }
    Ok(GoodRow {
        time,
        first: *first,
        others,
    })
}
