//! What goes from one thread to another, or is seen by several.

use dataflow_model::Message;
use std::test::Fail;
use stream_model::Input;
use task_steps::Task;

/// A type whose values may be sent to another thread, and seen by several.
fn is_shared<T: Send + Sync>() {}

#[test]
fn tasks_messages_and_inputs_may_be_shared(_rt: HostRuntime) -> Result<(), Fail> {
    is_shared::<Task>();
    is_shared::<Message>();
    is_shared::<Input>();
    Ok(())
}
