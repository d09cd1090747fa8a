//! The panes of a state one by one, as a savepoint keeps them.

ghost use Rattle.std.specs.Prelude.{◌≡◌, int_lt, map, None, OnOk, IfOk, if◌then◌else◌};
ghost use Rattle.std.specs.FinMap.{entries, get};
ghost use Rattle.std.specs.List.{All};
ghost use Rattle.aggregates.specs.Kinds.{kind_of};
ghost use Rattle.window_state.specs.Windows.{total_at};
ghost use Rattle.window_state.specs.Parts.{entries_of, IsPartOf, PutsParts};

use crate::opened::later_panes;
use crate::places::Places;
use crate::windows::Windows;
use aggregates::Kind;
pub use packed_parts::Part;
use packed_parts::{PackedParts, Packing};
use plan_model::Aggregate;
use std::alloc::{AllocError, Global};

/// What stands in each pane, in order.
pub(crate) fn parts_of(alloc: Global, windows: &Windows) -> Result<PackedParts, AllocError>
    ensures says { IfOk result (λ parts. entries_of parts ≡ entries windows.now.totals) }
    ensures sound { IfOk result (λ parts. All (IsPartOf windows.now.window) parts) }
{
    let kinds = kinds_of(alloc, windows.window().aggregates.as_slice())?;
    let mut parts = Packing::new(alloc, kinds);
    push_placed(alloc, &windows.places, &mut parts)?;
    push_later(alloc, windows, &mut parts)?;
    Ok(PackedParts::from_packing(parts))
}

/// Puts what stands in places behind the parts, in the order of the panes.
fn push_placed(alloc: Global, places: &Places, parts: &mut Packing) -> Result<(), AllocError>
    requires kinds { parts.old.kinds ≡ map kind_of places.now.window.aggregates }
    requires sound { All (IsPartOf places.now.window) parts.old.parts }
    ensures pushed { OnOk result (PutsParts parts.old.kinds (total_at places.now.entries) parts.old parts.new) }
    ensures sound { OnOk result (All (IsPartOf places.now.window) parts.new.parts) }
{
    let placed = places.in_order(alloc)?;
    parts.reserve(placed.len())?;
    for it in &placed {
        places.push_part(parts, *it)?;
    }
    Ok(())
}

/// The same of what stands in the windows that begin at `from` or later.
fn push_later(alloc: Global, windows: &Windows, parts: &mut Packing) -> Result<(), AllocError>
    requires kinds { parts.old.kinds ≡ map kind_of windows.now.window.aggregates }
    requires sound { All (IsPartOf windows.now.window) parts.old.parts }
    ensures pushed { OnOk result (PutsParts parts.old.kinds (λ q. if int_lt q.start windows.now.from then None else get windows.now.totals q) parts.old parts.new) }
    ensures sound { OnOk result (All (IsPartOf windows.now.window) parts.new.parts) }
{
    let panes = later_panes(alloc, &windows.opened, windows.from)?;
    for pane in &panes {
        if let Some(acc) = windows.later_acc(pane) {
            parts.push(&Part { pane: *pane, acc })?;
        }
    }
    Ok(())
}

/// The kind of each aggregate.
fn kinds_of(alloc: Global, aggregates: &[Aggregate]) -> Result<Vec<Kind>, AllocError>
    ensures { IfOk result (λ kinds. kinds.items ≡ map kind_of aggregates.now) }
{
    aggregates.iter().map(|a| Kind::of(*a)).collect(alloc)
}
