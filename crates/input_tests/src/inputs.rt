use input_texts::InputFault;
use legs::{first_entries, with_records};
use logical_plan::ReadPlan;
use plan_model::Plan;
use std::process::Abort;
use std::test::Fail;
use stream_input::{ReadInput, sources_in};
use stream_model::Input;

const PLAN: &str =
    r#"{"columns":3,"maxParallelism":128,"time":0,"key":1,"sources":[{"uid":"s","partitions":2}],"window":{"uid":"w","size":10,"slide":10,"offset":0,"aggregates":[{"fn":"count"},{"fn":"sum","column":2}]}}"#;

const PAIR: &str =
    r#"{"columns":3,"maxParallelism":128,"time":0,"key":1,"sources":[{"uid":"s","partitions":1},{"uid":"a","partitions":1}],"window":{"uid":"w","size":10,"slide":10,"offset":0,"aggregates":[{"fn":"count"}]}}"#;

const INPUT: &str =
    r#"{"s":[[{"rows":[[1,1,5],[12,1,7]]},{"watermark":9},{"rows":[[15,0,-3]]}],[{"rows":[[3,0,4]]},{"watermark":11},{"rows":[[13,1,2]]}]]}"#;

fn plan_of(rt: &impl AllocGlobal, text: &str) -> Result<Plan, Fail> {
    Ok(Plan::read(rt.alloc(), text.as_bytes())?)
}

#[test]
fn texts_of_faults(rt: HostRuntime) -> Result<(), Fail> {
    let late = InputFault::LateRecord {
        source: 7,
        partition: 63,
        entry: 4294967296,
    };
    for (fault, want) in [
        (InputFault::NotJson, "I1 NotJson"),
        (InputFault::Member, "I2 Member"),
        (InputFault::Source, "I3 Source"),
        (InputFault::Partitions, "I4 Partitions"),
        (InputFault::Width, "I5 Width"),
        (InputFault::Number, "I6 Number"),
        (InputFault::Rows, "I7 Rows"),
        (InputFault::TimeRange, "I8 TimeRange"),
        (InputFault::Kind, "I12 Kind"),
        (late, "I9 LateRecord 7 63 4294967296"),
        (InputFault::TooMany, "I10 TooMany"),
        (InputFault::Memory, "memory"),
    ] {
        let text = format!(in rt.alloc(); "{fault}")?;
        assert_eq!(rt; text.as_str(), want);
    }
    Ok(())
}

fn is_taken(rt: &impl AllocGlobal, plan: &Plan, text: &str) -> bool {
    sources_in(rt.alloc(), plan, text).is_ok()
}

fn check_taken(rt: &(impl Abort + AllocGlobal), plan: &Plan, listed: &[&str], want: bool) {
    for text in listed {
        assert_eq!(rt; is_taken(rt, plan, text), want, "at {text}");
    }
}

const TAKEN: [&str; 3] = [
    INPUT,
    r#" { "s" : [ [ ] , [ ] ] } "#,
    r#"{"s":[[{"watermark":7}],[]],"s":[[],[]]}"#,
];

const MISSED: [&str; 6] = [
    r#"{"s":7,"s":[[],[]]}"#,
    r#"{"s":[[],[]],"t":[]}"#,
    r#"{"s":[[{"rows":[[1,1,-0]]}],[]]}"#,
    r#"{"s":[[{"rows":[]}],[]]}"#,
    r#"{"s":[[],[]]}x"#,
    "{}",
];

const TAKEN_OF_PAIR: [&str; 2] = [r#"{"s":[[]],"a":[[]]}"#, r#"{"a":[[]],"s":[[]]}"#];

fn check_token_by_token(rt: &(impl Abort + AllocGlobal), plan: &Plan) {
    check_taken(rt, plan, &TAKEN, true);
    check_taken(rt, plan, &MISSED, false);
}

#[test]
fn read_token_by_token(rt: HostRuntime) -> Result<(), Fail> {
    let plan = plan_of(&rt, PLAN)?;
    check_token_by_token(&rt, &plan);
    Ok(())
}

#[test]
fn two_sources_token_by_token(rt: HostRuntime) -> Result<(), Fail> {
    let plan = plan_of(&rt, PAIR)?;
    check_taken(&rt, &plan, &TAKEN_OF_PAIR, true);
    Ok(())
}

/// So many records, and those of the first entries of the first partition.
fn with_front(rt: &impl AllocGlobal, records: u64, entries: u64) -> Result<u64, Fail> {
    let plan = plan_of(rt, PLAN)?;
    let input = Input::read(rt.alloc(), &plan, INPUT.as_bytes())?;
    let first = input
        .sources()
        .first()
        .and_then(|partitions| partitions.as_slice().first());
    Ok(match first {
        Some(partition) => with_records(records, first_entries(partition.as_slice(), entries)),
        None => records,
    })
}

#[test]
fn records_are_counted_as_far_as_they_can_be(rt: HostRuntime) -> Result<(), Fail> {
    for (records, entries, want) in [
        (0, 0, 0),
        (0, 1, 2),
        (5, 2, 7),
        (0, 3, 3),
        (0, u64::MAX, 3),
        (u64::MAX - 3, 3, u64::MAX),
        (u64::MAX - 2, 3, u64::MAX),
        (u64::MAX, 1, u64::MAX),
    ] {
        assert_eq!(rt; with_front(&rt, records, entries)?, want);
    }
    Ok(())
}
