use super::*;
use object_id::{Bytes, NodeId};
use std::alloc::Global;
use std::test::Fail;

fn name(sender: u32, number: u32) -> MessageName {
    MessageName {
        sender: NodeId(sender),
        number,
    }
}

fn request(alloc: Global, to: u32) -> Packet {
    Packet::Request {
        to: NodeId(to),
        bytes: Bytes::new(alloc),
    }
}

fn reply(alloc: Global, from: u32) -> Packet {
    Packet::Reply {
        from: NodeId(from),
        bytes: Bytes::new(alloc),
    }
}

// A body that never finds memory would meet every contract here.
#[test]
fn keeps_messages_by_sender_and_number(rt: HostRuntime) -> Result<(), Fail> {
    let alloc = rt.alloc();
    let mut wire = Wire::new(alloc);
    for (sender, number, to) in [(7, 2, 1), (3, 9, 7), (7, 1, 3)] {
        wire.put(name(sender, number), request(alloc, to))?;
    }
    wire.put(name(7, 2), reply(alloc, 1))?;
    assert_eq!(rt;
        (
            wire.sender_count(),
            wire.count_at(0),
            wire.count_at(1),
            wire.count_at(2)
        ),
        (2, 1, 2, 0)
    );
    assert!(rt;
        wire.message_at(1, 1)
            .is_some_and(|found| found.0 == name(7, 2) && found.1.is_reply())
    );
    assert!(rt; wire.message_at(0, 1).is_none() && wire.message_at(2, 0).is_none());
    assert!(rt; wire.has_end(NodeId(1)) && wire.has_end(NodeId(7)) && !wire.has_end(NodeId(9)));

    wire.drop_replies_to(NodeId(3));
    assert!(rt; wire.get(name(7, 2)).is_some());
    wire.drop_replies_to(NodeId(7));
    assert!(rt; wire.get(name(7, 2)).is_none() && wire.get(name(7, 1)).is_some());
    assert!(rt;
        wire.take(name(3, 9))
            .is_some_and(|packet| packet.receiver(name(3, 9)) == NodeId(7))
    );
    assert!(rt; wire.take(name(3, 9)).is_none());
    assert_eq!(rt; (wire.sender_count(), wire.count_at(0)), (1, 1));
    Ok(())
}

// A set that takes 64 as 0, or a count that a message leaves behind, would meet a contract that only says what `true` means.
#[test]
fn knows_whether_the_ends_are_within_a_set(rt: HostRuntime) -> Result<(), Fail> {
    let alloc = rt.alloc();
    let mut wire = Wire::new(alloc);
    for (number, to) in [(1, 0), (2, 63), (3, 0), (4, 64)] {
        wire.put(name(5, number), request(alloc, to))?;
    }
    let mut nodes = NodeSet::new();
    assert!(rt; nodes.insert(NodeId(0)) && nodes.insert(NodeId(63)) && !nodes.insert(NodeId(64)));
    assert!(rt;
        nodes.contains(NodeId(63)) && !nodes.contains(NodeId(64)) && !nodes.contains(NodeId(1))
    );
    assert!(rt; wire.sender_at(0) == Some(NodeId(5)) && wire.sender_at(1).is_none());
    assert!(rt; !wire.are_ends_within(0, nodes) && wire.are_ends_within(1, nodes));

    assert!(rt; wire.take(name(5, 4)).is_some() && wire.are_ends_within(0, nodes));
    nodes.remove(NodeId(0));
    assert!(rt; wire.take(name(5, 1)).is_some() && !wire.are_ends_within(0, nodes));
    wire.put(name(5, 3), reply(alloc, 63))?;
    assert!(rt; wire.are_ends_within(0, nodes));
    nodes.remove(NodeId(63));
    assert!(rt; !wire.are_ends_within(0, nodes));
    wire.put(name(5, 2), reply(alloc, 0))?;
    wire.put(name(5, 6), request(alloc, 9))?;
    wire.drop_replies_to(NodeId(5));
    nodes.insert(NodeId(9));
    assert!(rt; wire.are_ends_within(0, nodes) && wire.count_at(0) == 1);
    Ok(())
}
