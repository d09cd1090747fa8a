//! A job that the tests run.

use job::{Gate, HashKeys, job_leg, job_run};
use std::random::RandomSource;
use std::sync::Wait;
use std::test::Fail;
use std::thread::Threads;
use std::time::Clock;

pub const PLAN: &str =
    r#"{"columns":3,"maxParallelism":128,"time":0,"key":1,"sources":[{"uid":"s","partitions":2}],"window":{"uid":"w","size":10,"aggregates":[{"fn":"count"},{"fn":"sum","column":2},{"fn":"least","column":2},{"fn":"greatest","column":2}]}}"#;

/// A plan of the same input whose windows are shorter.
pub const OTHER_PLAN: &str =
    r#"{"columns":3,"maxParallelism":128,"time":0,"key":1,"sources":[{"uid":"s","partitions":2}],"window":{"uid":"w","size":5,"aggregates":[{"fn":"count"},{"fn":"sum","column":2},{"fn":"least","column":2},{"fn":"greatest","column":2}]}}"#;

pub const INPUT: &str =
    r#"{"s":[[{"rows":[[1,1,5],[12,1,7]]},{"watermark":9},{"rows":[[15,0,-3]]}],[{"rows":[[3,0,4]]},{"watermark":11},{"rows":[[13,1,2]]}]]}"#;

pub const SCALE: &str = r#"{"ring":4,"operators":{"s":{"parallelism":1},"w":{"parallelism":1}}}"#;

/// A leg with two subtasks of the source.
pub const SCALE_OF_TWO: &str =
    r#"{"ring":4,"operators":{"s":{"parallelism":2},"w":{"parallelism":3}}}"#;

/// A list of that leg.
pub const LEG_OF_TWO: &str =
    r#"[{"scale":{"ring":4,"operators":{"s":{"parallelism":2},"w":{"parallelism":3}}}}]"#;

pub const ROWS: &str = "0 10 0 1 4 4 4\n0 10 1 1 5 5 5\n10 20 0 1 -3 -3 -3\n10 20 1 2 9 2 7\n";

/// What the job writes, in the legs of a list where there is one.
pub fn rows_of_run<G: Gate>(
    rt: &(impl AllocGlobal + RandomSource + Threads + Wait + Clock + Sync),
    legs: Option<&[u8]>,
    gate: &G,
) -> Result<Vec<u8>, Fail> {
    let alloc = rt.alloc();
    let keys = HashKeys::random(rt)?;
    let input = Vec::from_slice(alloc, INPUT.as_bytes())?;
    let mut out = Vec::new(alloc);
    job_run(
        rt,
        alloc,
        keys,
        PLAN.as_bytes(),
        input,
        legs,
        gate,
        &mut out,
    )?;
    Ok(out)
}

/// What a leg of the job writes at a scale, from the bytes of a savepoint where there are some, and the savepoint that
/// it leaves where it is to stop.
pub fn rows_of_leg<G: Gate>(
    rt: &(impl AllocGlobal + RandomSource + Threads + Wait + Clock + Sync),
    scale: &str,
    from: Option<Vec<u8>>,
    stop: Option<&str>,
    gate: &G,
) -> Result<(Vec<u8>, Option<Vec<u8>>), Fail> {
    let alloc = rt.alloc();
    let keys = HashKeys::random(rt)?;
    let input = Vec::from_slice(alloc, INPUT.as_bytes())?;
    let mut out = Vec::new(alloc);
    let left = job_leg(
        rt,
        alloc,
        keys,
        PLAN.as_bytes(),
        input,
        scale.as_bytes(),
        from,
        None,
        stop,
        gate,
        &mut out,
    )?;
    Ok((out, left.savepoint))
}
