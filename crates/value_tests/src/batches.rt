use columns::{Batch, BatchFault};
use std::alloc::{AllocError, Global};
use std::test::Fail;

fn row(alloc: Global, numbers: &[i64]) -> Result<Vec<i64>, AllocError> {
    Vec::from_slice(alloc, numbers)
}

/// The rows 1, 2, 3 and on of one column.
fn counted(alloc: Global, count: i64) -> Result<Vec<Vec<i64>>, AllocError> {
    let mut rows = Vec::new(alloc);
    for number in 1..=count {
        rows.push(row(alloc, &[number])?)?;
    }
    Ok(rows)
}

/// Why two rows of different widths make no batch.
fn fault_of_widths(alloc: Global) -> Result<Option<BatchFault>, AllocError> {
    let rows = vec![in alloc; row(alloc, &[1, 2])?, row(alloc, &[3])?]?;
    Ok(Batch::from_rows(alloc, &rows, 2).err())
}

/// Why so many rows make no batch, if they make none.
fn fault_of_count(alloc: Global, count: i64) -> Result<Option<BatchFault>, AllocError> {
    let rows = counted(alloc, count)?;
    Ok(Batch::from_rows(alloc, &rows, 1).err())
}

#[test]
fn rows_that_make_no_batch_are_refused(rt: HostRuntime) -> Result<(), Fail> {
    let faults = (
        fault_of_widths(rt.alloc())?,
        fault_of_count(rt.alloc(), 4096)?,
        fault_of_count(rt.alloc(), 4097)?,
    );
    assert_eq!(rt;
        faults,
        (Some(BatchFault::Width(1)), None, Some(BatchFault::Rows))
    );
    Ok(())
}

#[test]
fn texts_of_faults(rt: HostRuntime) -> Result<(), Fail> {
    for (fault, want) in [
        (BatchFault::Width(7), "B1 Width(7)"),
        (BatchFault::Rows, "B2 Rows"),
        (BatchFault::Memory, "B3 Memory"),
    ] {
        let text = format!(in rt.alloc(); "{fault}")?;
        assert_eq!(rt; text.as_str(), want);
    }
    Ok(())
}
