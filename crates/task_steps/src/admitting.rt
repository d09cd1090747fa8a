//! Which records a task admits.

ghost use Rattle.std.specs.Prelude.{◌<◌, IsTrue, ◌↔◌};
ghost use Rattle.std.specs.List.{All};
ghost use Rattle.plain_data.specs.Record.{at};
ghost use Rattle.plan_model.specs.Windows.{IsTime};

use columns::Batch;

/// Whether all times of a batch are in range.
pub(crate) fn are_times(batch: &Batch, time: u32) -> bool
    requires { time < batch.now.width }
    ensures { IsTrue result ↔ All (λ r. IsTime (at time r)) batch.now.rows }
{
    plan_model::are_times(batch.column(time as usize))
}
