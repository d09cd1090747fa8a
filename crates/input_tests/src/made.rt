use input_texts::InputFault;
use logical_plan::ReadPlan;
use plan_model::Plan;
use std::process::Abort;
use std::test::Fail;
use stream_input::{ReadInput, sources_in};
use stream_model::Input;

const MADE: &str =
    r#"{"columns":3,"maxParallelism":128,"time":0,"key":1,"sources":[{"uid":"s","partitions":2,"watermarks":{"bound":2}},{"uid":"a","partitions":1}],"window":{"uid":"w","size":10,"slide":10,"offset":0,"aggregates":[{"fn":"count"}]}}"#;

const OTHER_MADE: &str =
    r#"{"columns":3,"maxParallelism":128,"time":0,"key":1,"sources":[{"uid":"s","partitions":2},{"uid":"a","partitions":1,"watermarks":{"bound":0}}],"window":{"uid":"w","size":10,"slide":10,"offset":0,"aggregates":[{"fn":"count"}]}}"#;

/// The fault of each text, read as an input of the plan. Token by token those are read that have no fault but late
/// records, and no escape.
fn check_faults(
    rt: &(impl Abort + AllocGlobal),
    plan: &str,
    listed: &[(&str, Option<InputFault>)],
) -> Result<(), Fail> {
    let plan = Plan::read(rt.alloc(), plan.as_bytes())?;
    for (text, want) in listed {
        let fault = Input::read(rt.alloc(), &plan, text.as_bytes()).err();
        assert_eq!(rt; fault, *want, "at {text}");
        let is_right = matches!(want, None | Some(InputFault::LateRecord { .. }));
        let is_escaped = text.contains('\\');
        let is_quick = sources_in(rt.alloc(), &plan, text).is_ok();
        assert_eq!(rt; is_quick, is_right && !is_escaped, "at {text}");
    }
    Ok(())
}

fn late(partition: u32, entry: u64) -> Option<InputFault> {
    Some(InputFault::LateRecord {
        source: 0,
        partition,
        entry,
    })
}

#[test]
fn made_watermarks(rt: HostRuntime) -> Result<(), Fail> {
    check_faults(
        &rt,
        MADE,
        &[
            (
                r#"{"s":[[{"rows":[[1,1,5],[12,1,7]]},{"rows":[[15,0,-3]]}],[{"rows":[[3,0,4],[12,0,1]]},{"rows":[[10,1,2]]}]],"a":[[]]}"#,
                None,
            ),
            (
                r#"{"s":[[{"rows":[[1,1,5],[12,1,7]]},{"rows":[[15,0,-3]]}],[{"rows":[[3,0,4],[12,0,1]]},{"rows":[[9,1,2]]}]],"a":[[]]}"#,
                late(1, 1),
            ),
            (
                r#"{"s":[[{"rows":[[12,0,1],[3,0,4]]},{"rows":[[9,1,2]]}],[]],"a":[[]]}"#,
                late(0, 1),
            ),
            (
                r#"{"s":[[{"rows":[[12,0,1]]},{"rows":[[10,0,1]]},{"rows":[[9,1,2]]}],[]],"a":[[]]}"#,
                late(0, 2),
            ),
            (
                r#"{"\u0073":[[{"rows":[[12,0,1]]},{"ro\u0077s":[[9,1,2]]}],[]],"a":[[]]}"#,
                late(0, 1),
            ),
            (
                r#"{"\u0073":[[{"rows":[[12,0,1]]},{"ro\u0077s":[[10,1,2]]}],[]],"a":[[{"watermark":9}]]}"#,
                None,
            ),
        ],
    )
}

#[test]
fn least_times(rt: HostRuntime) -> Result<(), Fail> {
    check_faults(
        &rt,
        MADE,
        &[
            (
                r#"{"s":[[{"rows":[[-4611686018427387904,0,1]]},{"rows":[[-4611686018427387904,1,2]]}],[]],"a":[[]]}"#,
                None,
            ),
            (
                r#"{"s":[[{"rows":[[-9223372036854775808,0,1]]},{"rows":[[1,1,2]]}],[]],"a":[[]]}"#,
                Some(InputFault::TimeRange),
            ),
            (
                r#"{"s":[[{"rows":[[]]},{"rows":[[-9223372036854775808,0]]}],[]],"a":[[]]}"#,
                Some(InputFault::Width),
            ),
        ],
    )
}

#[test]
fn kinds_of_entries(rt: HostRuntime) -> Result<(), Fail> {
    let kind = Some(InputFault::Kind);
    check_faults(
        &rt,
        MADE,
        &[
            (r#"{"s":[[{"watermark":9}],[]],"a":[[]]}"#, kind),
            (
                r#"{"s":[[{"watermark":9},{"rows":[[9,1,1]]}],[]],"a":[[]]}"#,
                kind,
            ),
            (
                r#"{"s":[[{"watermark":9}],[]],"a":[[{"rows":[[4611686018427387904,1,1]]}]]}"#,
                Some(InputFault::TimeRange),
            ),
            (r#"{"s":[[],[]],"a":[[{"watermark":9}]]}"#, None),
        ],
    )?;
    check_faults(
        &rt,
        OTHER_MADE,
        &[
            (
                r#"{"s":[[{"watermark":9},{"rows":[[10,1,1],[12,1,1]]},{"rows":[[10,1,1]]}],[]],"a":[[]]}"#,
                None,
            ),
            (
                r#"{"s":[[],[{"watermark":9},{"rows":[[9,1,1]]}]],"a":[[]]}"#,
                late(1, 1),
            ),
            (r#"{"s":[[],[]],"a":[[{"watermark":9}]]}"#, kind),
        ],
    )
}
