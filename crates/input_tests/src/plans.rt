use logical_plan::{PlanFault, ReadPlan};
use plan_model::Plan;
use plan_record::Recorded;
use std::test::Fail;

const PLAIN: &str =
    r#"{"columns":1,"maxParallelism":128,"time":0,"key":0,"sources":[{"uid":"s","partitions":1},{"uid":"a","partitions":1}],"window":{"uid":"w","size":10,"aggregates":[{"fn":"count"}]}}"#;

const BOUNDED: &str =
    r#"{"columns":1,"maxParallelism":128,"time":0,"key":0,"sources":[{"uid":"s","partitions":1,"watermarks":{"bound":1099511627776}},{"uid":"a","partitions":1}],"window":{"uid":"w","size":10,"aggregates":[{"fn":"count"}]}}"#;

const NO_AGGREGATES: &str =
    r#"{"columns":1,"maxParallelism":128,"time":0,"key":0,"sources":[{"uid":"s","partitions":1,"watermarks":{"bound":-1}}],"window":{"uid":"w","size":10,"aggregates":[]}}"#;

const BELOW_ZERO: &str =
    r#"{"columns":1,"maxParallelism":128,"time":0,"key":0,"sources":[{"uid":"s","partitions":1,"watermarks":{"bound":-1}}],"window":{"uid":"w","size":10,"aggregates":[{"fn":"count"}]}}"#;

fn fault_of(rt: &impl AllocGlobal, text: &str) -> Option<PlanFault> {
    match Plan::read(rt.alloc(), text.as_bytes()) {
        Ok(_) => None,
        Err(fault) => Some(fault),
    }
}

#[test]
fn bounds_are_looked_at_last(rt: HostRuntime) {
    assert_eq!(rt; fault_of(&rt, BOUNDED), None);
    assert_eq!(rt; fault_of(&rt, BELOW_ZERO), Some(PlanFault::Bound));
    assert_eq!(rt; fault_of(&rt, NO_AGGREGATES), Some(PlanFault::Aggregates));
}

fn record_of(rt: &impl AllocGlobal, text: &str) -> Result<Vec<u8>, Fail> {
    Ok(Plan::read(rt.alloc(), text.as_bytes())?.record(rt.alloc())?)
}

#[test]
fn record_ends_with_the_bounds(rt: HostRuntime) -> Result<(), Fail> {
    let mut want = record_of(&rt, PLAIN)?;
    want.extend_from_slice(&[1, 1, 0, 0, 1, 0, 0, 0, 0, 0])?;
    assert_eq!(rt; record_of(&rt, BOUNDED)?, want);
    Ok(())
}
