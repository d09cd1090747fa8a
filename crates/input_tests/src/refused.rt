use input_texts::InputFault;
use logical_plan::ReadPlan;
use plan_model::Plan;
use std::process::Abort;
use std::test::Fail;
use stream_input::ReadInput;
use stream_model::Input;

const PLAN: &str =
    r#"{"columns":3,"maxParallelism":128,"time":0,"key":1,"sources":[{"uid":"s","partitions":2},{"uid":"a","partitions":1}],"window":{"uid":"w","size":10,"slide":10,"offset":0,"aggregates":[{"fn":"count"}]}}"#;

fn fault_of(rt: &impl AllocGlobal, plan: &Plan, text: &str) -> Option<InputFault> {
    match Input::read(rt.alloc(), plan, text.as_bytes()) {
        Ok(_) => None,
        Err(fault) => Some(fault),
    }
}

fn check_refused(
    rt: &(impl Abort + AllocGlobal),
    plan: &Plan,
    listed: &[&str],
    want: Option<InputFault>,
) {
    for text in listed {
        assert_eq!(rt; fault_of(rt, plan, text), want, "at {text}");
    }
}

fn check_all(
    rt: &(impl Abort + AllocGlobal),
    listed: &[&str],
    want: Option<InputFault>,
) -> Result<(), Fail> {
    let plan = Plan::read(rt.alloc(), PLAN.as_bytes())?;
    check_refused(rt, &plan, listed, want);
    Ok(())
}

const NO_JSON: [&str; 9] = [
    "",
    "{",
    r#"{"s":[[],[]],"a":[[]]}x"#,
    r#"{"s":[[],[]],"a":[[]],}"#,
    r#"{"s":[[],[]],"a":[[]],"x":1e999}"#,
    r#"{"s":5,"a":[[{"rows":[[1,1,-1e400]]}]]}"#,
    r#"{"s":[[{"rows":[[1,1,[1e999]]]}],[]],"a":[[]]}"#,
    r#"{"s":[[{"row":"\ud800"}],[]],"a":[[]]}"#,
    r#"{"t":[01]}"#,
];

const OF_ANOTHER_FORM: [&str; 21] = [
    "7",
    "[]",
    r#"{"s":5,"a":[[]]}"#,
    r#"{"s":[5,[]],"a":[[]]}"#,
    r#"{"s":[{},[]],"a":[[]]}"#,
    r#"{"s":[[5],[]],"a":[[]]}"#,
    r#"{"s":[[[]],[]],"a":[[]]}"#,
    r#"{"s":[[{}],[]],"a":[[]]}"#,
    r#"{"s":[[{"row":[[1,1,1]]}],[]],"a":[[]]}"#,
    r#"{"s":[[{"rows":[[1,1,1]],"watermark":5}],[]],"a":[[]]}"#,
    r#"{"s":[[{"rows":7}],[]],"a":[[]]}"#,
    r#"{"s":[[{"rows":[7]}],[]],"a":[[]]}"#,
    r#"{"s":[[{"rows":[{"0":1}]}],[]],"a":[[]]}"#,
    r#"{"s":[[{"rows":[[1]]},{"Watermark":5}],[]],"b":[[]]}"#,
    r#"{"t":5}"#,
    r#"{"s":[[],[]],"a":[[]],"s":7}"#,
    r#"{"t":5,"t":[],"u":5}"#,
    r#"{"\u0073":[[{"rows":[[1]]},null],[]],"a":[[]]}"#,
    r#"{"b":7,"c":7,"d":7,"e":7,"f":7,"g":7,"h":7,"i":7,"j":7,"b":[],"c":[],"d":[],"e":[],"f":[],"g":[],"h":[],"i":[]}"#,
    r#"{"s":[[{"rows":[[1,1,1]],"watermark":5,"watermark":5}],[]],"a":[[]]}"#,
    r#"{"s":[[{"row":7,"row":7}],[]],"a":[[]]}"#,
];

const OF_OTHER_SOURCES: [&str; 8] = [
    "{}",
    r#"{"s":[[],[]]}"#,
    r#"{"s":[[],[]],"a":[[]],"t":[]}"#,
    r#"{"s":[[{"rows":[[1]]}]],"\u0074":[]}"#,
    r#"{"t":[],"s":[],"t":[[]],"a":[]}"#,
    r#"{"t":7,"t":[]}"#,
    r#"{"b":7,"c":7,"d":7,"e":7,"f":7,"g":7,"h":7,"i":7,"j":7,"b":[],"c":[],"d":[],"e":[],"f":[],"g":[],"h":[],"i":[],"j":[]}"#,
    r#"{"t":7,"s":[[],[]],"a":[[]],"t":[]}"#,
];

const OF_OTHER_PARTITIONS: [&str; 4] = [
    r#"{"s":[[]],"a":[[]]}"#,
    r#"{"s":[[],[],[]],"a":[[]]}"#,
    r#"{"s":[[{"rows":[[1]]}]],"a":[[]]}"#,
    r#"{"s":[[],[]],"a":[[]],"a":[]}"#,
];

const OF_OTHER_WIDTH: [&str; 6] = [
    r#"{"s":[[{"rows":[[1,1]]}],[]],"a":[[]]}"#,
    r#"{"s":[[{"rows":[[]]}],[]],"a":[[]]}"#,
    r#"{"s":[[],[]],"\u0061":[[{"rows":[[1,1,1],[1,1,1,1]]}]]}"#,
    r#"{"s":[[{"rows":[]},{"watermark":1.5}],[]],"a":[[{"rows":[[1.5,1]]}]]}"#,
    r#"{"s":[[],[]],"s":[[{"rows":[[1]]}],[]],"a":[[]]}"#,
    r#"{"s":[[{"rows":[[1,1,1]],"rows":[[1]]}],[]],"a":[[]]}"#,
];

const OF_OTHER_NUMBERS: [&str; 11] = [
    r#"{"s":[[{"rows":[[1,1,1.5]]}],[]],"a":[[]]}"#,
    r#"{"s":[[{"rows":[[1,1,1e0]]}],[]],"a":[[]]}"#,
    r#"{"s":[[{"rows":[[1,1,-0]]}],[]],"a":[[]]}"#,
    r#"{"s":[[{"rows":[[1,1,"1"]]}],[]],"a":[[]]}"#,
    r#"{"s":[[{"rows":[[1,[[2],{"a":null,"a":[]}],1]]}],[]],"a":[[]]}"#,
    r#"{"s":[[{"rows":[[1,{"a":{"b":"\n"}},true]]}],[]],"a":[[]]}"#,
    r#"{"s":[[{"rows":[[1,1,9223372036854775808]]}],[]],"a":[[]]}"#,
    r#"{"s":[[{"watermark":1.0}],[]],"a":[[]]}"#,
    r#"{"s":[[{"watermark":[]}],[]],"a":[[]]}"#,
    r#"{"s":[[{"rows":[]}],[]],"a":[[{"water\u006dark":null}]]}"#,
    r#"{"s":[[{"watermark":9},{"rows":[[9,1,1]]}],[]],"a":[[{"watermark":"9"}]]}"#,
];

const WITHOUT_ROWS: [&str; 2] = [
    r#"{"s":[[{"rows":[]}],[]],"a":[[]]}"#,
    r#"{"s":[[{"watermark":4611686018427387904},{"rows":[]}],[]],"a":[[]]}"#,
];

const OUT_OF_TIME: [&str; 4] = [
    r#"{"s":[[{"rows":[[4611686018427387904,1,1]]}],[]],"a":[[]]}"#,
    r#"{"s":[[{"rows":[[-4611686018427387905,1,1]]}],[]],"a":[[]]}"#,
    r#"{"s":[[{"watermark":4611686018427387904}],[]],"a":[[]]}"#,
    r#"{"\u0073":[[{"watermark":9},{"rows":[[9,1,1]]},{"watermark":-4611686018427387905}],[]],"a":[[]]}"#,
];

const LATE: [&str; 5] = [
    r#"{"s":[[],[{"watermark":9},{"rows":[[10,1,1],[9,1,1]]}]],"a":[[]]}"#,
    r#"{"\u0073":[[],[{"watermark":9},{"rows":[[10,1,1],[9,1,1]]}]],"a":[[]]}"#,
    r#"{"s":7,"s":[[],[{"watermark":9},{"ro\u0077s":[[10,1,1],[9,1,1]]}]],"a":[[]]}"#,
    r#"{"\u0061":[[{"watermark":9},{"rows":[[9,1,1]]}]],"s":[[],[{"watermark":9},{"rows":[[9,1,1]]}]]}"#,
    r#"{"s":[[{"watermark":9},{"rows":[[9,1,1]]}],[]],"a":[[]],"s":[[],[{"watermark":7,"watermark":9},{"rows":[[9,1,1]]},{"rows":[[8,1,1]]}]]}"#,
];

const RIGHT: [&str; 9] = [
    r#"{"s":[[],[]],"a":[[]]}"#,
    r#"{"s":[[{"rows":[[1]]}],[]],"s":[[],[]],"a":[[]]}"#,
    r#"{"s":5,"a":[[]],"s":[[],[]]}"#,
    r#"{"\u0073":[[{"ro\u0077s":[[1,1,1]]}],[]],"a":[[{"watermark":4611686018427387903}]]}"#,
    r#"{"s":[[{"rows":[[1]],"rows":[[1,1,1]]}],[]],"a":[[]]}"#,
    r#"{"s":[[{"rows":[[-4611686018427387904,-9223372036854775808,9223372036854775807]]}],[]],"a":[[]]}"#,
    r#"{"s":[[{"rows":7,"rows":[[1,1,1]],"rows":[[2,1,1]]}],[]],"a":[[]]}"#,
    r#"{"s":[[],[{"watermark":9},{"rows":[[9,1,1]],"rows":[[10,1,1]]}]],"a":[[]]}"#,
    r#"{"s":[[],[{"watermark":99,"watermark":9},{"rows":[[10,1,1]]}]],"a":[[]]}"#,
];

const LATE_ROW: InputFault = InputFault::LateRecord {
    source: 0,
    partition: 1,
    entry: 1,
};

/// Texts, and the fault that each of them has.
const LISTS: &[(&[&str], Option<InputFault>)] = &[
    (&NO_JSON, Some(InputFault::NotJson)),
    (&OF_ANOTHER_FORM, Some(InputFault::Member)),
    (&OF_OTHER_SOURCES, Some(InputFault::Source)),
    (&OF_OTHER_PARTITIONS, Some(InputFault::Partitions)),
    (&OF_OTHER_WIDTH, Some(InputFault::Width)),
    (&OF_OTHER_NUMBERS, Some(InputFault::Number)),
    (&WITHOUT_ROWS, Some(InputFault::Rows)),
    (&OUT_OF_TIME, Some(InputFault::TimeRange)),
    (&LATE, Some(LATE_ROW)),
    (&RIGHT, None),
];

#[test]
fn each_text_has_its_fault(rt: HostRuntime) -> Result<(), Fail> {
    let plan = Plan::read(rt.alloc(), PLAN.as_bytes())?;
    for (listed, fault) in LISTS {
        check_refused(&rt, &plan, listed, *fault);
    }
    Ok(())
}

/// So many lists in one another.
fn nested(rt: &impl AllocGlobal, depth: usize) -> Result<String, Fail> {
    let mut text = String::new(rt.alloc());
    for _turn in 0..depth {
        text.push('[')?;
    }
    for _turn in 0..depth {
        text.push(']')?;
    }
    Ok(text)
}

/// Such lists as a text, or as a cell of one.
fn nested_text(rt: &impl AllocGlobal, depth: usize, is_cell: bool) -> Result<String, Fail> {
    let lists = nested(rt, depth)?;
    if !is_cell {
        return Ok(lists);
    }
    Ok(format!(in rt.alloc(); r#"{{"s":[[{{"rows":[[1,1,{lists}]]}}],[]],"a":[[]]}}"#)?)
}

#[test]
fn texts_that_nest(rt: HostRuntime) -> Result<(), Fail> {
    for (depth, is_cell, fault) in [
        (127, false, InputFault::Member),
        (128, false, InputFault::NotJson),
        (121, true, InputFault::Number),
        (122, true, InputFault::NotJson),
    ] {
        let text = nested_text(&rt, depth, is_cell)?;
        check_all(&rt, &[text.as_str()], Some(fault))?;
    }
    Ok(())
}

/// A text with so many rows in a batch.
fn text_of_rows(rt: &impl AllocGlobal, count: u32) -> Result<String, Fail> {
    let mut text = String::new(rt.alloc());
    text.push_str(r#"{"s":[[{"rows":[[1,1,1]"#)?;
    for _row in 1..count {
        text.push_str(",[1,1,1]")?;
    }
    text.push_str(r#"]}],[]],"a":[[]]}"#)?;
    Ok(text)
}

#[test]
fn batches_at_their_limit(rt: HostRuntime) -> Result<(), Fail> {
    for (count, fault) in [(4096, None), (4097, Some(InputFault::Rows))] {
        let text = text_of_rows(&rt, count)?;
        check_all(&rt, &[text.as_str()], fault)?;
    }
    Ok(())
}
