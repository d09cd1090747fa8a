//! The text of a layout.

ghost use Rattle.std.specs.Prelude.{◌≡◌, ◌<◌, ◌++◌, ◌∷◌, length, IfOk, OnOk, string_bytes, codes};
ghost use Rattle.std.specs.List.{flat_map};
ghost use Rattle.layout_rules.specs.Stages.{task_count};
ghost use Rattle.job_texts.specs.LayoutText as said;

use crate::number::push_numbers;
use plan_compiler::{Edge, Layout, Operator, Role};
use plan_model::Plan;
use row_lines::push_spaced;
use std::alloc::{AllocError, Global};

/// The uid of an operator; the sink has none.
fn operator_name(plan: &Plan, operator: Operator) -> &str
    ensures { result.now ≡ said.name_of plan.now operator }
{
    match operator {
        Operator::Source(source) => match plan.sources().get(source as usize) {
            Some(spec) => spec.uid.as_str(),
            None => "",
        },
        Operator::Filter(filter) => match plan.filters().get(filter as usize) {
            Some(spec) => spec.uid.as_str(),
            None => "",
        },
        Operator::Window => plan.window().uid.as_str(),
        Operator::Sink => "(sink)",
    }
}

fn write_spaced(text: &mut String, word: &str) -> Result<(), AllocError>
    ensures { OnOk result (string_bytes text.new ≡ string_bytes text.old ++ (32 ∷ word.now)) }
{
    write!(text, " {word}")
}

fn write_operators(text: &mut String, plan: &Plan, operators: &[Operator]) -> Result<(), AllocError>
    ensures { OnOk result (string_bytes text.new ≡ string_bytes text.old ++ flat_map (λ o. 32 ∷ said.name_of plan.now o) operators.now) }
{
    for operator in operators {
        write_spaced(text, operator_name(plan, *operator))?;
    }
    Ok(())
}

fn write_head(text: &mut String, word: &str, first: u32, second: u32) -> Result<(), AllocError>
    ensures { OnOk result (string_bytes text.new ≡ string_bytes text.old ++ (word.now ++ said.spaced first ++ said.spaced second)) }
{
    text.push_str(word)?;
    push_spaced(text, first)?;
    push_spaced(text, second)
}

/// The line of a stage.
fn write_stage(text: &mut String, plan: &Plan, layout: &Layout, a: u32) -> Result<(), AllocError>
    requires { a < length layout.now.stages }
    ensures { OnOk result (string_bytes text.new ≡ string_bytes text.old ++ said.stage_text plan.now layout.now.stages a) }
{
    let stage = &layout.stages()[a as usize];
    write_head(text, "stage", a, stage.parallelism)?;
    write_operators(text, plan, stage.operators.as_slice())?;
    writeln!(text)?;
    Ok(())
}

fn name_of_edge(edge: Edge) -> &'static str
    ensures { result.now ≡ said.edge_name edge }
{
    match edge {
        Edge::Forward => "forward",
        Edge::ByGroup => "group",
        Edge::Rebalance => "rebalance",
    }
}

fn write_edge(text: &mut String, from: u32, into: u32, edge: Edge) -> Result<(), AllocError>
    ensures { OnOk result (string_bytes text.new ≡ string_bytes text.old ++ said.edge_line from into edge) }
{
    write_head(text, "edge", from, into)?;
    write_spaced(text, name_of_edge(edge))?;
    writeln!(text)?;
    Ok(())
}

/// The line of the edge that leads out of a stage.
fn write_edge_from(text: &mut String, layout: &Layout, a: u32) -> Result<(), AllocError>
    requires { a < length layout.now.stages }
    ensures { OnOk result (string_bytes text.new ≡ string_bytes text.old ++ said.edge_text layout.now.stages a) }
{
    match layout.stages()[a as usize].edge {
        Some(edge) => write_edge(text, a, layout.next_stage(a), edge),
        None => Ok(()),
    }
}

/// The line of a task: a word, where the task stands, numbers.
fn write_task(
    text: &mut String,
    word: &str,
    layout: &Layout,
    task: u32,
    numbers: &[u32],
) -> Result<(), AllocError>
    requires { task < task_count layout.now.stages }
    ensures { OnOk result (string_bytes text.new ≡ string_bytes text.old ++ said.task_line word.now layout.now.stages task numbers.now) }
{
    let place = layout.place(task);
    write_head(text, word, place.stage, place.subtask)?;
    push_numbers(text, numbers)?;
    writeln!(text)?;
    Ok(())
}

/// The line of a task's partitions, if it reads a source.
fn write_partitions(text: &mut String, layout: &Layout, task: u32) -> Result<(), AllocError>
    requires { task < task_count layout.now.stages }
    ensures { OnOk result (string_bytes text.new ≡ string_bytes text.old ++ said.partitions_text layout.now task) }
{
    match layout.role(task) {
        Role::Source => write_task(text, "partitions", layout, task, layout.partitions_of(task)),
        _ => Ok(()),
    }
}

/// The line of a task's key groups, if it has windows.
fn write_groups(text: &mut String, layout: &Layout, task: u32) -> Result<(), AllocError>
    requires { task < task_count layout.now.stages }
    ensures { OnOk result (string_bytes text.new ≡ string_bytes text.old ++ said.groups_text layout.now task) }
{
    match layout.role(task) {
        Role::Window => {
            let range = layout.groups_of(task);
            write_task(text, "groups", layout, task, &[range.first, range.last])
        }
        _ => Ok(()),
    }
}

fn write_stages(text: &mut String, plan: &Plan, layout: &Layout) -> Result<(), AllocError>
    ensures { OnOk result (string_bytes text.new ≡ string_bytes text.old ++ said.of_each (length layout.now.stages) (said.stage_text plan.now layout.now.stages)) }
{
    for a in 0..layout.stages().len() as u32 {
        write_stage(text, plan, layout, a)?;
    }
    Ok(())
}

fn write_edges(text: &mut String, layout: &Layout) -> Result<(), AllocError>
    ensures { OnOk result (string_bytes text.new ≡ string_bytes text.old ++ said.of_each (length layout.now.stages) (said.edge_text layout.now.stages)) }
{
    for a in 0..layout.stages().len() as u32 {
        write_edge_from(text, layout, a)?;
    }
    Ok(())
}

fn write_source_tasks(text: &mut String, layout: &Layout) -> Result<(), AllocError>
    ensures { OnOk result (string_bytes text.new ≡ string_bytes text.old ++ said.of_each (task_count layout.now.stages) (said.partitions_text layout.now)) }
{
    for task in 0..layout.task_count() {
        write_partitions(text, layout, task)?;
    }
    Ok(())
}

fn write_window_tasks(text: &mut String, layout: &Layout) -> Result<(), AllocError>
    ensures { OnOk result (string_bytes text.new ≡ string_bytes text.old ++ said.of_each (task_count layout.now.stages) (said.groups_text layout.now)) }
{
    for task in 0..layout.task_count() {
        write_groups(text, layout, task)?;
    }
    Ok(())
}

/// The text of the layout of a plan: its stages, the edges between them, the partitions of each subtask of
/// a source, and the key groups of each subtask of the window.
pub fn text_of_layout(alloc: Global, plan: &Plan, layout: &Layout) -> Result<String, AllocError>
    ensures { IfOk result (λ text. string_bytes text ≡ said.layout_text plan.now layout.now) }
{
    let mut text = String::new(alloc);
    write_stages(&mut text, plan, layout)?;
    write_edges(&mut text, layout)?;
    write_source_tasks(&mut text, layout)?;
    write_window_tasks(&mut text, layout)?;
    Ok(text)
}
