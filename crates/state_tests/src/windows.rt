use std::test::Fail;
use window_state::StateFault;

#[test]
fn faults_have_their_codes(rt: HostRuntime) -> Result<(), Fail> {
    let alloc = rt.alloc();
    assert_eq!(rt;
        format!(in alloc; "{}", StateFault::Memory)?.as_str(),
        "K1 Memory"
    );
    assert_eq!(rt;
        format!(in alloc; "{}", StateFault::Failed)?.as_str(),
        "K2 Failed"
    );
    Ok(())
}
