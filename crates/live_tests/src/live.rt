//! Clusters that live on threads.

use crate::merges::script_of;
use dog_report::report;
use live_run::{FreeGate, Kept, run_live};
use std::test::Fail;

const LOCKED: &str =
    "cluster 4\nsession 1 node 0\nsession 2 node 1\n1 vdi create a 1M\n1 vdi open a\nsettle\n2 vdi open a\nsettle\n\
fail 0\nsettle\n2 vdi open a\ncluster info\n";

const LOCKED_REPORT: &str =
    "1 ok\n2 ok\n3 refused 07 VDI_LOCKED session 1\n4 ok\ncluster epoch 2 settled 2 members 1 2 3\n";

#[test]
fn a_lost_holder_is_followed(rt: HostRuntime) -> Result<(), Fail> {
    let alloc = rt.alloc();
    let script = script_of(alloc, LOCKED)?;
    let mut kept = Kept::new(alloc);
    let run = run_live(&rt, alloc, &script, &FreeGate, &mut kept)?;
    let text = report(alloc, &script, &run)?;
    assert_eq!(rt; text.as_slice(), LOCKED_REPORT.as_bytes());
    Ok(())
}
