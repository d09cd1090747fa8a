//! The entries of a savepoint that no job leaves, beside a plan and how far an input was read.

ghost use Rattle.std.specs.Prelude.{◌≡◌, true};
ghost use Rattle.plan_model.specs.PlanData.{IsWindow};
ghost use Rattle.restore.specs.Requirements as required;

use crate::saved::is_full;
use key_groups::{MaxParallelism, group_of};
use plan_model::{Pane, TIME_LIMIT, WindowSpec};
use savepoint_codec::{Entries, Entry, SavedGroup};
use std::alloc::{AllocError, Global};
use text_places::Findings;

/// What is asked of each entry.
#[derive(Clone, Copy)]
pub(crate) enum Test {
    /// That it stands in the key group of its key, where there are so many.
    InGroup(MaxParallelism),
    /// That its window is one of the operator's, which has not fired by the watermark.
    Open(i64),
    /// That it counts at most so many records.
    Counted(u64),
}

const DAMAGED: &str = "the file was not written by a job, or it was damaged";

/// Tells of an entry that stands under another key group than its key's.
fn check_group(
    alloc: Global,
    found: &mut Findings,
    max: MaxParallelism,
    group: u16,
    pane: Pane,
) -> Result<(), AllocError> {
    let (start, key) = (pane.start, pane.key);
    let right = group_of(key, max);
    if right == u32::from(group) {
        return Ok(());
    }
    let sentence = format!(in alloc;
        "the entry of key {key} in the window from {start} stands in key group {group}, and the key is of group {right}: {DAMAGED}"
    )?;
    found.tell(0, sentence)
}

/// Whether a time in range can have a window that begins so.
fn is_reached(window: &WindowSpec, start: i64) -> bool
    requires { IsWindow window.now }
    ensures { result ≡ required.is_reached window.now start }
{
    1 - window.size - TIME_LIMIT <= start && start < TIME_LIMIT
}

/// Whether a window of the operator begins so.
fn is_first(window: &WindowSpec, start: i64) -> bool
    requires operator { IsWindow window.now }
    requires reached { required.is_reached window.now start ≡ true }
{
    (start - window.offset).rem_euclid(window.slide) == 0
}

/// The last time of the window that begins so.
fn last_time(window: &WindowSpec, start: i64) -> i64
    requires operator { IsWindow window.now }
    requires reached { required.is_reached window.now start ≡ true }
{
    start + window.size - 1
}

/// Tells of an entry whose window is none of the operator's.
fn tell_unknown(alloc: Global, found: &mut Findings, pane: Pane) -> Result<(), AllocError> {
    let (start, key) = (pane.start, pane.key);
    let sentence = format!(in alloc;
        "the entry of key {key} is of a window from {start}, and the plan has no window that begins there: {DAMAGED}"
    )?;
    found.tell(0, sentence)
}

/// Tells of an entry whose window has fired.
fn check_fired(
    alloc: Global,
    found: &mut Findings,
    last: i64,
    watermark: i64,
    pane: Pane,
) -> Result<(), AllocError> {
    if last > watermark {
        return Ok(());
    }
    let (start, key) = (pane.start, pane.key);
    let sentence = format!(in alloc;
        "the entry of key {key} is of the window from {start}, which has fired at the watermark {watermark} of the partitions, as its last time is {last}: {DAMAGED}"
    )?;
    found.tell(0, sentence)
}

/// Tells of an entry whose window is none of the operator's, or has fired.
fn check_open(
    alloc: Global,
    found: &mut Findings,
    window: &WindowSpec,
    watermark: i64,
    pane: Pane,
) -> Result<(), AllocError>
    requires { IsWindow window.now }
{
    if !is_reached(window, pane.start) {
        return tell_unknown(alloc, found, pane);
    }
    if !is_first(window, pane.start) {
        return tell_unknown(alloc, found, pane);
    }
    let last = last_time(window, pane.start);
    check_fired(alloc, found, last, watermark, pane)
}

/// Tells of an entry that counts more records than were read.
fn check_count(
    alloc: Global,
    found: &mut Findings,
    most: u64,
    entry: Entry<'_>,
) -> Result<(), AllocError> {
    let (start, key, count) = (entry.pane.start, entry.pane.key, entry.count);
    if count <= most {
        return Ok(());
    }
    let sentence = format!(in alloc;
        "the entry of key {key} in the window from {start} has {count} records, and the input has {most} before the savepoint's cut: other data, or {DAMAGED}"
    )?;
    found.tell(0, sentence)
}

fn check_entry(
    alloc: Global,
    found: &mut Findings,
    window: &WindowSpec,
    test: &Test,
    group: u16,
    entry: Entry<'_>,
) -> Result<(), AllocError>
    requires { IsWindow window.now }
{
    match test {
        Test::InGroup(max) => check_group(alloc, found, *max, group, entry.pane),
        Test::Open(watermark) => check_open(alloc, found, window, *watermark, entry.pane),
        Test::Counted(most) => check_count(alloc, found, *most, entry),
    }
}

fn check_saved_group(
    alloc: Global,
    found: &mut Findings,
    window: &WindowSpec,
    test: &Test,
    group: u16,
    entries: &Entries,
) -> Result<(), AllocError>
    requires { IsWindow window.now }
{
    for i in 0..entries.len() {
        if is_full(found) {
            break;
        }
        check_entry(alloc, found, window, test, group, entries.entry(i))?;
    }
    Ok(())
}

/// Tells of the entries that do not pass a test.
pub(crate) fn check_entries(
    alloc: Global,
    found: &mut Findings,
    window: &WindowSpec,
    test: &Test,
    groups: &[SavedGroup],
) -> Result<(), AllocError>
    requires { IsWindow window.now }
{
    for group in groups {
        check_saved_group(alloc, found, window, test, group.group, &group.entries)?;
    }
    Ok(())
}
