ghost use Rattle.std.specs.Prelude.{◌≡◌, true, false, not, ◌≤◌, ◌↔◌, length, Option, IfOk, IfErr, OnOk, OnErr, IsErrOf};
ghost use Rattle.std.specs.List.{All};
ghost use Rattle.std.specs.List.Sorted.{IsSortedByKey};
ghost use Rattle.std.specs.FinMap as map;
ghost use Rattle.plain_data.specs.Record.{at};
ghost use Rattle.plan_model.specs.declared.spec.Pane.{Pane as PaneValue};
ghost use Rattle.plan_model.specs.Windows.{IsTime};
ghost use Rattle.plan_model.specs.Aggregates.{merge};
ghost use Rattle.plan_model.specs.Rows.{aggregate_at, is_due, pane_of, pane_cmp, AreRowsOf};
ghost use Rattle.window_state.specs.Windows.{IsOperator, CanAggregate};
ghost use Rattle.window_state.specs.State.{HasRoomFor, fired};
ghost use Rattle.window_state.specs.Parts.{entries_of, IsPartOf};

use crate::adding::add_batch;
use crate::fault::StateFault;
use crate::firing::{remove_due, rows_of};
use crate::parts::parts_of;
use crate::windows::Windows;
use columns::Batch;
use packed_parts::PackedParts;
use pane_hashes::HashKeys;
use plan_model::{Row, WindowSpec};
use std::alloc::Global;
use std::marker::Model;

/// What stands in the windows that have not fired: for each pane, a window's start and a key, what its
/// records come to.
pub struct WindowState {
    alloc: Global,
    windows: Windows,
    has_failed: bool,
}

// By hand, since a proof goes over a derived drop field by field.
impl Drop for WindowState {
    fn drop(self) {
        let WindowState {
            alloc: _,
            windows: _,
            has_failed: _,
        } = self;
    }
}

impl Model for WindowState {
    ghost use Rattle.window_state.specs.State.{StateData};

    ghost Value = { StateData };

    ghost use Rattle.std.specs.Coded.{codes};
    ghost use Rattle.window_state.specs.Codes.{windows_code};

    ghost coded = { Prim.hlevel (codes, windows_code) };

    ghost view = { λ s. record {
      window = s.windows.window;
      windows = s.windows.totals;
      has_failed = s.has_failed;
    } };
}

impl WindowState {
    /// The state of a window operator that no record has reached. Its panes are hashed by the keys.
    ///
    /// # Errors
    ///
    /// Only where memory runs out.
    pub fn new(
        alloc: Global,
        keys: HashKeys,
        window: &WindowSpec,
    ) -> Result<WindowState, StateFault>
        requires { IsOperator window.now }
        ensures made { IfOk result (λ state. state ≡ record { window = window.now; windows = map.empty; has_failed = false }) }
        ensures fault { IfErr result (λ fault. fault ≡ StateFault.Memory) }
    {
        let windows = Windows::new(alloc, keys, window.copy(alloc)?);
        Ok(WindowState {
            alloc,
            windows,
            has_failed: false,
        })
    }

    /// Brings each row of a batch in at each window of its time.
    ///
    /// # Errors
    ///
    /// `Memory`: some rows may be in and others not, and every later call answers `Failed`.
    pub fn add(&mut self, batch: &Batch) -> Result<(), StateFault>
        requires window { CanAggregate batch.now.width self.old.window }
        requires times { All (λ r. IsTime (at self.old.window.time r)) batch.now.rows }
        requires room { HasRoomFor self.old.window batch.now.rows self.old.windows }
        ensures added { OnOk result ((q : PaneValue) → map.get self.new.windows q
            ≡ merge self.old.window.aggregates (map.get self.old.windows q) (aggregate_at self.old.window batch.now.rows q)) }
        ensures window_stays { self.new.window ≡ self.old.window }
        ensures ok { OnOk result (self.new.has_failed ≡ false) }
        ensures err { OnErr result (self.new.has_failed ≡ true) }
        ensures failed { IsErrOf result StateFault.Failed ↔ (self.old.has_failed ≡ true) }
        ensures kept { self.old.has_failed ≡ true → self.new ≡ self.old }
    {
        // Rows of an earlier batch may be missing, so that no more are brought in.
        if self.has_failed {
            return Err(StateFault::Failed);
        }
        match add_batch(&mut self.windows, batch) {
            Ok(()) => Ok(()),
            Err(_) => {
                self.has_failed = true;
                Err(StateFault::Memory)
            }
        }
    }

    /// Takes out the windows that fire by the watermark, those whose end less 1 is at most that, and gives
    /// their rows in the order of start and key.
    ///
    /// # Errors
    ///
    /// `Failed` after an `add` that found no memory; `Memory`. Then nothing is taken out.
    pub fn fire(&mut self, watermark: i64) -> Result<Vec<Row>, StateFault>
        ensures rows { IfOk result (λ rows. AreRowsOf (fired self.old.window watermark (map.get self.old.windows)) rows.items) }
        ensures ordered { IfOk result (λ rows. IsSortedByKey pane_of pane_cmp rows.items) }
        ensures left { OnOk result (self.new
            ≡ record self.old { windows = map.retain_keys self.old.windows (λ q. not (is_due self.old.window watermark q.start)) }) }
        ensures err { OnErr result (self.new ≡ self.old) }
        ensures failed { IsErrOf result StateFault.Failed ↔ (self.old.has_failed ≡ true) }
    {
        if self.has_failed {
            return Err(StateFault::Failed);
        }
        let rows = rows_of(self.alloc, &self.windows, watermark)?;
        remove_due(&mut self.windows, watermark);
        Ok(rows)
    }

    /// The window operator.
    pub fn window(&self) -> &WindowSpec
        ensures { result.now ≡ self.now.window }
    {
        self.windows.window()
    }

    /// What stands in each pane, in the order of start and key.
    ///
    /// # Errors
    ///
    /// `Failed` after an `add` that found no memory; `Memory`.
    pub fn parts(&self, alloc: Global) -> Result<PackedParts, StateFault>
        ensures says { IfOk result (λ parts. entries_of parts ≡ map.entries self.now.windows) }
        ensures sound { IfOk result (λ parts. All (IsPartOf self.now.window) parts) }
        ensures failed { IsErrOf result StateFault.Failed ↔ (self.now.has_failed ≡ true) }
    {
        if self.has_failed {
            return Err(StateFault::Failed);
        }
        Ok(parts_of(alloc, &self.windows)?)
    }

    /// The state that holds the parts, with its panes hashed by the keys. Where a pane stands twice, the
    /// first part counts.
    ///
    /// # Errors
    ///
    /// Only where memory runs out.
    pub fn from_parts(
        alloc: Global,
        keys: HashKeys,
        window: &WindowSpec,
        parts: &PackedParts,
    ) -> Result<WindowState, StateFault>
        requires operator { IsOperator window.now }
        requires parts { All (IsPartOf window.now) parts.now }
        ensures made { IfOk result (λ state. state ≡ record {
          window = window.now;
          windows = map.from_entries (entries_of parts.now);
          has_failed = false;
        }) }
        ensures fault { IfErr result (λ fault. fault ≡ StateFault.Memory) }
    {
        let windows = Windows::from_parts(alloc, keys, window.copy(alloc)?, parts)?;
        let has_failed = false;
        Ok(WindowState {
            alloc,
            windows,
            has_failed,
        })
    }
}
