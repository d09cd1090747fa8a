//! Plans that are checked.

use fault_places::check_plan;
use logical_plan::PlanFault;

#[test]
fn goes_on_where_nothing_is_taken(rt: HostRuntime) {
    let mut out: &mut [u8] = &mut [];
    let refused = check_plan(rt.alloc(), b"{", "plan.json", &mut out);
    assert!(rt; matches!(refused, Err(PlanFault::NotJson)));
}
