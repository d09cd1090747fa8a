//! What is asked of each entry of a savepoint.

ghost use Rattle.std.specs.Prelude.{◌≡◌, true};
ghost use Rattle.std.specs.List.{list_all};
ghost use Rattle.plan_model.specs.PlanData.{IsWindow};
ghost use Rattle.plan_model.specs.Windows.{is_start};
ghost use Rattle.plan_model.specs.Rows.{is_due};
ghost use Rattle.savepoint_codec.specs.EntriesView.{entry_data};
ghost use Rattle.restore.specs.EntryTest.{passes};
ghost use Rattle.restore.specs.Requirements as required;

use key_groups::{MaxParallelism, group_of};
use plan_model::{TIME_LIMIT, WindowSpec};
use savepoint_codec::{Entries, Entry, SavedGroup};

/// What is asked of each entry.
#[derive(Clone, Copy, Debug)]
pub enum EntryTest {
    /// That it stands in the key group of its key, where there are so many.
    InGroup(MaxParallelism),
    /// That its window is one of the operator's, which has not fired by the watermark.
    Open(i64),
    /// That it counts at most so many records.
    Counted(u64),
}

/// Whether a time in range can have a window that begins so.
fn is_reached(window: &WindowSpec, start: i64) -> bool
    requires { IsWindow window.now }
    ensures { result ≡ required.is_reached window.now start }
{
    1 - window.size - TIME_LIMIT <= start && start < TIME_LIMIT
}

/// Whether a window of the operator begins so.
fn is_first(window: &WindowSpec, start: i64) -> bool
    requires operator { IsWindow window.now }
    requires reached { required.is_reached window.now start ≡ true }
    ensures { result ≡ is_start window.now start }
{
    (start - window.offset).rem_euclid(window.slide) == 0
}

/// Whether the window that begins so has fired by a watermark.
fn has_fired(window: &WindowSpec, watermark: i64, start: i64) -> bool
    requires operator { IsWindow window.now }
    requires reached { required.is_reached window.now start ≡ true }
    ensures { result ≡ is_due window.now watermark start }
{
    start + window.size - 1 <= watermark
}

fn is_open(window: &WindowSpec, watermark: i64, entry: Entry<'_>) -> bool
    requires { IsWindow window.now }
    ensures { result ≡ required.is_open window.now watermark (entry_data entry.entry) }
{
    let start = entry.pane.start;
    is_reached(window, start) && is_first(window, start) && !has_fired(window, watermark, start)
}

fn is_passed(window: &WindowSpec, test: &EntryTest, group: u16, entry: Entry<'_>) -> bool
    requires { IsWindow window.now }
    ensures { result ≡ passes window.now test.now group (entry_data entry.entry) }
{
    match test {
        EntryTest::InGroup(max) => group_of(entry.pane.key, *max) == u32::from(group),
        EntryTest::Open(watermark) => is_open(window, *watermark, entry),
        EntryTest::Counted(most) => entry.count <= *most,
    }
}

fn is_each_passed(window: &WindowSpec, test: &EntryTest, group: u16, entries: &Entries) -> bool
    requires { IsWindow window.now }
    ensures { result ≡ list_all (passes window.now test.now group) entries.now.entries }
{
    for i in 0..entries.len() {
        if !is_passed(window, test, group, entries.entry(i)) {
            return false;
        }
    }
    true
}

/// Whether each entry of each key group passes a test.
pub fn every_entry(window: &WindowSpec, test: &EntryTest, groups: &[SavedGroup]) -> bool
    requires { IsWindow window.now }
    ensures { result ≡ required.every_entry (passes window.now test.now) groups.now }
{
    groups.iter().all(|group| is_each_passed(window, test, group.group, &group.entries))
}
