//! What goes from task to task.

use columns::Batch;
use plain_data::Items;
use plan_model::Row;

/// What goes from task to task along a ring.
#[derive(Drop)]
pub enum Message {
    /// Records of the plan's columns.
    Rows(Batch),
    /// Rows of windows that fired.
    Fired(Items<Row>),
    /// No record that follows on the ring has a time of at most this.
    Watermark(i64),
    /// The barrier of the savepoint with this number: what came before it is in the savepoint.
    Barrier(u64),
    /// The stream has ended.
    End,
}
