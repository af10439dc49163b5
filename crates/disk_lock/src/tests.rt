//! Happy paths with ample memory, and one of each refusal to hold.

use crate::holder::Holder;
use crate::locks::Locks;
use object_id::{NodeId, Vid};
use std::test::Fail;

fn session(node: u32, session: u32) -> Holder {
    Holder {
        node: NodeId(node),
        session,
    }
}

#[test]
fn holds_and_frees(rt: HostRuntime) -> Result<(), Fail> {
    let mut locks = Locks::new(rt.alloc());
    assert_eq!(rt; locks.holder(Vid(7)), None);
    locks.grant(Vid(7), session(1, 2))?;
    locks.grant(Vid(8), session(1, 3))?;
    locks.grant(Vid(9), session(4, 5))?;
    assert_eq!(rt; locks.holder(Vid(7)), Some(session(1, 2)));
    locks.free(Vid(7));
    locks.free(Vid(70));
    assert_eq!(rt; locks.holder(Vid(7)), None);
    assert_eq!(rt; locks.holder(Vid(8)), Some(session(1, 3)));
    Ok(())
}

#[test]
fn a_grant_takes_the_place_of_another(rt: HostRuntime) -> Result<(), Fail> {
    let mut locks = Locks::new(rt.alloc());
    locks.grant(Vid(7), session(1, 2))?;
    locks.grant(Vid(7), session(3, 4))?;
    assert_eq!(rt; locks.holder(Vid(7)), Some(session(3, 4)));
    Ok(())
}

#[test]
fn a_lost_node_holds_nothing(rt: HostRuntime) -> Result<(), Fail> {
    let mut locks = Locks::new(rt.alloc());
    for vid in 1..100 {
        locks.grant(Vid(vid), session(vid % 3, vid))?;
    }
    locks.free_node(NodeId(1));
    for vid in 1..100 {
        let want = if vid % 3 == 1 {
            None
        } else {
            Some(session(vid % 3, vid))
        };
        assert_eq!(rt; locks.holder(Vid(vid)), want);
    }
    Ok(())
}
