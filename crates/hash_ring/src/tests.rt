//! What no clause says: that the clauses mean the worked look-ups, and that each call comes through with ample
//! memory.
use crate::hash::virtual_hash;
use crate::{Point, Ring, are_weighted, nodes_have_one_zone, object_hash};
use object_id::{Member, NodeId, Oid};
use std::test::Fail;

fn point(hash: u64, node: u32, zone: u32) -> Point {
    Point {
        hash,
        node: NodeId(node),
        zone,
    }
}

// Worked by hand. Where no zone is spoken of, a node's zone is its number.
#[test]
fn finds_the_worked_targets(rt: HostRuntime) -> Result<(), Fail> {
    let four = [
        point(100, 0, 0),
        point(200, 1, 1),
        point(300, 0, 0),
        point(400, 2, 2),
    ];
    let same = [point(50, 3, 3), point(50, 1, 1)];
    let zones = [point(100, 0, 0), point(200, 1, 0), point(300, 2, 1)];
    let cases: [(&[Point], u64, usize, &[u32]); 9] = [
        (&four, 200, 3, &[1, 0, 2]),
        // It goes round.
        (&four, 401, 3, &[0, 1, 2]),
        (&four, 401, 1, &[0]),
        (&four, 401, 0, &[]),
        (&four, 400, 4, &[2, 0, 1]),
        // Equal points go by number.
        (&same, 0, 2, &[1, 3]),
        // Two nodes of one zone.
        (&zones, 0, 3, &[0, 2]),
        (&zones, 150, 2, &[1, 2]),
        (&[], 7, 2, &[]),
    ];
    for (points, hash, n, wanted) in cases {
        let points = Vec::from_slice(rt.alloc(), points)?;
        assert!(rt; nodes_have_one_zone(points.as_slice()));
        let ring = Ring::from_points(points);
        assert!(rt; n <= 4);
        let mut out = [NodeId(99); 4];
        let count = ring.targets(hash, n, &mut out);
        assert_eq!(rt; count, wanted.len(), "at {hash} and {n}");
        for k in 0..4 {
            let node = if k < wanted.len() { wanted[k] } else { 99 };
            assert_eq!(rt; out[k], NodeId(node), "at {hash} and {n}");
        }
    }
    Ok(())
}

// By the Python reference program.
#[test]
fn hashes_nodes_and_objects(rt: HostRuntime) {
    assert_eq!(rt; virtual_hash(NodeId(5), 7), 0x6dbc_c93f_4ce5_ef17);
    match Oid::from_u64(0x0001_ec8c_0000_0000) {
        Ok(oid) => assert_eq!(rt; object_hash(oid), 0xf383_f227_b570_3054),
        Err(_) => assert!(rt; false, "it is an id"),
    }
}

#[test]
fn builds_the_points_of_members(rt: HostRuntime) -> Result<(), Fail> {
    let members = [
        Member {
            node: NodeId(1),
            zone: 4,
            vnodes: 2,
        },
        Member {
            node: NodeId(0),
            zone: 4,
            vnodes: 1,
        },
        Member {
            node: NodeId(2),
            zone: 0,
            vnodes: 256,
        },
    ];
    assert!(rt; are_weighted(&members));
    let ring = Ring::build(rt.alloc(), &members)?;
    let mut out = [NodeId(99); 3];
    assert_eq!(rt; ring.targets(virtual_hash(NodeId(1), 1), 3, &mut out), 2);
    assert_eq!(rt; (out[0], out[1]), (NodeId(1), NodeId(2)));
    assert!(rt; !are_weighted(&[members[0], members[0]]));
    Ok(())
}

// A body that gives up at many points would meet every contract.
#[test]
fn builds_the_points_of_all_the_members_that_there_may_be(rt: HostRuntime) -> Result<(), Fail> {
    let mut members = Vec::new(rt.alloc());
    for number in 0..64 {
        members.push(Member {
            node: NodeId(number),
            zone: number,
            vnodes: 256,
        })?;
    }
    if !are_weighted(members.as_slice()) {
        return Ok(assert!(rt; false, "64 members have the greatest weight"));
    }
    let ring = Ring::build(rt.alloc(), members.as_slice())?;
    let mut out = [NodeId(99); 64];
    assert_eq!(rt;
        ring.targets(virtual_hash(NodeId(63), 255), 64, &mut out),
        64
    );
    assert_eq!(rt; out[0], NodeId(63));
    Ok(())
}
