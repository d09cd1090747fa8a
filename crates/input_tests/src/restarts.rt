//! Why jobs cannot go on from savepoints: what no savepoint that a job left shows.

use job_texts::JobFault;
use legs::RestoreFault;
use logical_plan::ReadPlan;
use plan_model::Plan;
use restart_places::{Restart, write_places};
use savepoint_codec::SaveFault;
use std::alloc::Global;
use std::process::Abort;
use std::test::Fail;
use stream_input::ReadInput;
use stream_model::Input;

const PLAN: &str =
    r#"{"columns":2,"maxParallelism":128,"time":0,"key":1,"sources":[{"uid":"s","partitions":1}],"window":{"uid":"w","size":10,"aggregates":[{"fn":"count"}]}}"#;

const INPUT: &str = r#"{"s":[[{"rows":[[1,1]]},{"watermark":5},{"rows":[[7,1]]}]]}"#;

/// The same plan, but that its source makes its own watermarks, and an input of it.
const BOUND_PLAN: &str =
    r#"{"columns":2,"maxParallelism":128,"time":0,"key":1,"sources":[{"uid":"s","partitions":1,"watermarks":{"bound":2}}],"window":{"uid":"w","size":10,"aggregates":[{"fn":"count"}]}}"#;

const BOUND_INPUT: &str = r#"{"s":[[{"rows":[[1,1]]},{"rows":[[6,1]]},{"rows":[[7,1]]}]]}"#;

/// The record of the plan without its bounds.
const RECORD: &[u8] =
    b"\x02\0\x80\0\x01\0\0\0\0\0\0\0\x0a\0\0\0\0\0\0\0\x0a\0\0\0\0\0\0\0\0\x01\x01s\0\x01\0\0\0";

/// Two entries of the partition were read, and its watermark was 9.
const SOURCES: &[u8] = b"\x01\x01s\x01\0\0\0\0\0\0\0\x02\0\0\0\0\0\0\0\x09";

/// The bytes of a savepoint without entries, with the record of a plan and bounds behind it.
fn savepoint(alloc: Global, bounds: &[u8]) -> Result<Vec<u8>, Fail> {
    let mut record = Vec::from_slice(alloc, RECORD)?;
    record.extend_from_slice(bounds)?;
    let mut bytes = Vec::new(alloc);
    bytes.extend_from_slice(b"WSP2\0\0\0\0\0\0\0\x01")?;
    let length = u16::try_from(record.len())?;
    bytes.extend_from_slice(&length.to_be_bytes())?;
    bytes.extend_from_slice(&record)?;
    bytes.extend_from_slice(b"\0\x80")?;
    bytes.extend_from_slice(SOURCES)?;
    bytes.extend_from_slice(b"\x01w\x01\0\0\0")?;
    Ok(bytes)
}

/// What is written of a savepoint and a fault.
fn places(
    alloc: Global,
    plan: &str,
    input: &str,
    savepoint: &[u8],
    fault: JobFault,
) -> Result<Vec<u8>, Fail> {
    let plan = Plan::read(alloc, plan.as_bytes())?;
    let input = Input::read(alloc, &plan, input.as_bytes())?;
    let restart = Restart {
        file: "sp",
        savepoint: Some(savepoint),
        stop: None,
    };
    let mut out = Vec::new(alloc);
    write_places(alloc, &plan, &input, restart, fault, &mut out);
    Ok(out)
}

/// A source with a bound in the plan has no other by an option of its import.
#[test]
fn names_the_options_of_a_source(rt: HostRuntime) -> Result<(), Fail> {
    let cases = [
        (
            PLAN,
            INPUT,
            "sp: partition 0 of \"s\" had the watermark 9 after 2 entries, and in this input it has the watermark 5: other data, or imported with another --rows or --bound\n",
        ),
        (
            BOUND_PLAN,
            BOUND_INPUT,
            "sp: partition 0 of \"s\" had the watermark 9 after 2 entries, and in this input it has the watermark 3: other data, or imported with another --rows\n",
        ),
    ];
    let bytes = savepoint(rt.alloc(), b"")?;
    let fault = JobFault::Restore(RestoreFault::Watermark);
    for (plan, input, wanted) in cases {
        let told = places(rt.alloc(), plan, input, &bytes, fault)?;
        assert_eq!(rt; told.as_slice(), wanted.as_bytes());
    }
    Ok(())
}

const OTHER_BOUNDS: &str =
    "sp: the plan has other bounds of `watermarks` than when the savepoint was made: a job goes on with the plan that it began with\n";

const NO_RECORD: &str =
    "sp: the plan in the savepoint is not the one that its uids and numbers are of: the file was not written by a job, or it was damaged\n";

/// Behind all else a record has its bounds, as many as it says, or nothing.
#[test]
fn reads_bounds_as_the_record_has_them(rt: HostRuntime) -> Result<(), Fail> {
    let cases: [(&[u8], &str); 6] = [
        (b"", OTHER_BOUNDS),
        (b"\x01\0\0\0\0\0\0\0\0\x03", OTHER_BOUNDS),
        (b"\x01\0\0\0\0\0\0\0\0", NO_RECORD),
        (b"\x01\0\0\0\0\0\0\0\0\x02\0", NO_RECORD),
        (b"\x02\0\0\0\0\0\0\0\0\x02", NO_RECORD),
        (b"\0", NO_RECORD),
    ];
    let fault = JobFault::Restore(RestoreFault::PlanChanged);
    for (bounds, wanted) in cases {
        let bytes = savepoint(rt.alloc(), bounds)?;
        let told = places(rt.alloc(), BOUND_PLAN, BOUND_INPUT, &bytes, fault)?;
        assert_eq!(rt; told.as_slice(), wanted.as_bytes(), "{bounds:?}");
    }
    Ok(())
}

/// A place that is wrong in an index has the same sentence as any other byte of a file that is no savepoint.
#[test]
fn a_wrong_index_is_no_savepoint(rt: HostRuntime) -> Result<(), Fail> {
    for fault in [SaveFault::Index, SaveFault::Order, SaveFault::Magic] {
        let told = places(rt.alloc(), PLAN, INPUT, b"", JobFault::Save(fault))?;
        let wanted =
            "sp: the file is no savepoint: it was not written by a job, or it was cut short or damaged\n";
        assert_eq!(rt; told.as_slice(), wanted.as_bytes());
    }
    Ok(())
}
