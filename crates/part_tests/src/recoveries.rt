//! Recoveries of a node. What no clause says: that each call comes through with ample memory, and what recoveries come to that were
//! worked out apart from this program.

mod answers;
mod copies;
mod node;
mod steps;
mod strips;
mod trial;

use object_id::{Epoch, NodeId, Oid, Vid};
use peer_proto::{PeerAsk, PeerReq, SendList};
use recovery::{RecoverSends, Recovery};
use std::test::Fail;

#[test]
fn a_new_recovery_waits_for_nothing(rt: HostRuntime) {
    let recovery = Recovery::new(rt.alloc(), NodeId(2));
    assert!(rt; !recovery.waits_for(0) && !recovery.missing(Oid::object(Vid(9), 2)));
}

#[test]
fn copies_what_a_tick_sends(rt: HostRuntime) -> Result<(), Fail> {
    let mut list = SendList::new(rt.alloc());
    let request = PeerReq {
        from: NodeId(2),
        number: 7,
        epoch: Epoch(3),
        ask: PeerAsk::List,
    };
    list.push((NodeId(1), request))?;
    let sends = RecoverSends { list };
    let copy = sends.copy(rt.alloc())?;
    assert_eq!(rt; copy.list.len(), 1);
    assert!(rt;
        copy.list
            .get(0)
            .is_some_and(|send| send.0 == NodeId(1) && send.1.number == 7)
    );
    Ok(())
}
