//! What stands in one pane.

use aggregates::Acc;
use plan_model::Pane;

/// What stands in one pane of a window state.
#[derive(Clone, Copy, Debug)]
pub struct Part {
    pub pane: Pane,
    pub acc: Acc,
}
