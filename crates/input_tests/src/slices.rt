use logical_plan::ReadPlan;
use plan_model::{Plan, is_time};
use std::process::Abort;
use std::test::Fail;
use window_slices::{slice_end, slice_of};

/// Where the slice of a time starts and ends; none of a number that is no time.
fn slice_at(plan: &Plan, time: i64) -> Option<(i64, i64)> {
    if !is_time(time) {
        return None;
    }
    let window = plan.window();
    let start = slice_of(window, time);
    Some((start, slice_end(window, start)))
}

/// The slice of each time is the one that is said.
fn check_slices<R: Abort + AllocGlobal>(
    rt: &R,
    plan: &str,
    listed: &[(i64, i64, i64)],
) -> Result<(), Fail> {
    let plan = Plan::read(rt.alloc(), plan.as_bytes())?;
    for (time, start, end) in listed {
        assert_eq!(rt; slice_at(&plan, *time), Some((*start, *end)), "{time}");
    }
    Ok(())
}

const BY_TENS: &str =
    r#"{"columns":2,"maxParallelism":128,"time":0,"key":1,"sources":[{"uid":"s","partitions":1}],"window":{"uid":"w","size":10,"aggregates":[{"fn":"count"}]}}"#;

const BY_FIVES: &str =
    r#"{"columns":2,"maxParallelism":128,"time":0,"key":1,"sources":[{"uid":"s","partitions":1}],"window":{"uid":"w","size":10,"slide":5,"aggregates":[{"fn":"count"}]}}"#;

const BY_THREES: &str =
    r#"{"columns":2,"maxParallelism":128,"time":0,"key":1,"sources":[{"uid":"s","partitions":1}],"window":{"uid":"w","size":10,"slide":3,"offset":1,"aggregates":[{"fn":"count"}]}}"#;

const APART: &str =
    r#"{"columns":2,"maxParallelism":128,"time":0,"key":1,"sources":[{"uid":"s","partitions":1}],"window":{"uid":"w","size":2,"slide":5,"offset":-1,"aggregates":[{"fn":"count"}]}}"#;

const BY_ONES: &str =
    r#"{"columns":2,"maxParallelism":128,"time":0,"key":1,"sources":[{"uid":"s","partitions":1}],"window":{"uid":"w","size":3,"slide":1,"aggregates":[{"fn":"count"}]}}"#;

/// Windows of 2^40, the longest that there are.
const LONGEST: &str =
    r#"{"columns":2,"maxParallelism":128,"time":0,"key":1,"sources":[{"uid":"s","partitions":1}],"window":{"uid":"w","size":1099511627776,"offset":1099511627775,"aggregates":[{"fn":"count"}]}}"#;

/// Plans, and times with the start and the end of their slices.
const SLICES: &[(&str, &[(i64, i64, i64)])] = &[
    // A window that no other overlaps is one slice.
    (
        BY_TENS,
        &[(0, 0, 10), (9, 0, 10), (10, 10, 20), (-1, -10, 0)],
    ),
    // A slide of half the size cuts a window in two.
    (BY_FIVES, &[(0, 0, 5), (4, 0, 5), (7, 5, 10), (-3, -5, 0)]),
    // Starts and ends both cut.
    (
        BY_THREES,
        &[
            (0, -1, 1),
            (1, 1, 2),
            (2, 2, 4),
            (3, 2, 4),
            (4, 4, 5),
            (5, 5, 7),
        ],
    ),
    // What lies between windows is a slice.
    (
        APART,
        &[(0, -1, 1), (1, 1, 4), (3, 1, 4), (4, 4, 6), (-2, -4, -1)],
    ),
    // A slide of one cuts everywhere.
    (BY_ONES, &[(7, 7, 8), (0, 0, 1), (-5, -5, -4)]),
    // The least and the greatest time have a slice.
    (
        LONGEST,
        &[
            (
                -4611686018427387904,
                -4611686018427387905,
                -4611684918915760129,
            ),
            (
                4611686018427387903,
                4611686018427387903,
                4611687117939015679,
            ),
        ],
    ),
];

#[test]
fn each_time_has_its_slice(rt: HostRuntime) -> Result<(), Fail> {
    for (plan, listed) in SLICES {
        check_slices(&rt, plan, listed)?;
    }
    Ok(())
}

#[test]
fn a_number_past_the_times_has_no_slice(rt: HostRuntime) -> Result<(), Fail> {
    let plan = Plan::read(rt.alloc(), BY_TENS.as_bytes())?;
    assert_eq!(rt; slice_at(&plan, 4611686018427387904), None);
    assert_eq!(rt; slice_at(&plan, -4611686018427387905), None);
    Ok(())
}
