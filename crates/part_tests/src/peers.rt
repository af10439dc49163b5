//! Peers over the plain store. Each call with ample memory: a body that never finds any would meet the contracts too. And what the worked
//! calls give. The values were worked out by hand from the rules of rows, epochs and disks.

mod entries;
mod trial;

use entries::{LIFE, Next, come_back, grants_disk, reads};
use object_id::{Epoch, NoMemory, Oid, Policy, Vid};
use object_store::ObjStore;
use peer_proto::Refusal;
use std::alloc::Global;
use std::test::Fail;
use trial::{
    A, PlainPeer, awaits, create, enters, fresh, gives, has_no_objects, has_row, holds,
    holds_nothing, is_inside, is_outside, key, lists, makes, object, peer_of_epoch_2,
    peer_with_row, puts_row, read, refuses, tells_no_row, tells_row, unknown_object, write,
};

/// The row stays.
#[test]
fn other_epochs_are_refused(rt: HostRuntime) -> Result<(), Fail> {
    let alloc = rt.alloc();
    let mut peer = peer_of_epoch_2(alloc)?;
    assert!(rt;
        refuses(
            &mut peer,
            1,
            write(alloc, 0, 0),
            Refusal::OldEpoch { own: Epoch(2) }
        )
    );
    assert!(rt;
        refuses(
            &mut peer,
            3,
            write(alloc, 0, 0),
            Refusal::NewEpoch { own: Epoch(2) }
        )
    );
    assert!(rt; gives(&mut peer, 2, &[0, 7, 8, 0, 0]));
    Ok(())
}

#[test]
fn its_own_epoch_is_served(rt: HostRuntime) -> Result<(), Fail> {
    let alloc = rt.alloc();
    let mut peer = peer_of_epoch_2(alloc)?;
    assert!(rt; makes(&mut peer, 2, write(alloc, 0, 0)));
    assert!(rt; gives(&mut peer, 2, &[9, 9, 8, 0, 0]));
    Ok(())
}

fn admits(peer: &PlainPeer, epoch: u32) -> Option<Refusal> {
    peer.admits(Epoch(epoch)).err()
}

#[test]
fn admits_its_own_epoch(rt: HostRuntime) -> Result<(), Fail> {
    let peer = peer_of_epoch_2(rt.alloc())?;
    assert!(rt; admits(&peer, 1) == Some(Refusal::OldEpoch { own: Epoch(2) }));
    assert!(rt; admits(&peer, 2).is_none());
    assert!(rt; admits(&peer, 3) == Some(Refusal::NewEpoch { own: Epoch(2) }));
    Ok(())
}

#[test]
fn tells_what_it_has(rt: HostRuntime) -> Result<(), Fail> {
    let alloc = rt.alloc();
    let mut peer = peer_with_row(alloc)?;
    assert!(rt; lists(&mut peer, 1, object()));
    assert!(rt; tells_row(&mut peer, 1));
    assert!(rt; tells_no_row(&mut peer, 0));
    assert!(rt; refuses(&mut peer, 1, write(alloc, 1, 0), Refusal::NoObj));
    Ok(())
}

/// The row has five bytes: a piece may end with it and not behind it.
#[test]
fn pieces_end_inside_their_row(rt: HostRuntime) -> Result<(), Fail> {
    let alloc = rt.alloc();
    let peer = peer_with_row(alloc)?;
    assert!(rt; is_inside(&peer, read(5)));
    assert!(rt; is_outside(&peer, read(6)));
    assert!(rt; is_inside(&peer, write(alloc, 0, 3)));
    assert!(rt; is_outside(&peer, create(alloc, object(), 2)));
    Ok(())
}

/// The greatest offset.
fn last_offset() -> u32 {
    u32::MAX
}

/// A piece may not end behind what 32 bits count. Without a row it is let through, to be refused by name.
#[test]
fn pieces_end_where_bytes_are_counted(rt: HostRuntime) -> Result<(), Fail> {
    let alloc = rt.alloc();
    let peer = peer_with_row(alloc)?;
    assert!(rt; is_outside(&peer, write(alloc, 0, last_offset())));
    assert!(rt; peer.has_open(&key(0)));
    assert!(rt; is_inside(&peer, write(alloc, 1, last_offset())));
    assert!(rt; !peer.has_open(&key(1)));
    Ok(())
}

#[test]
fn waits_until_its_list_is_finished(rt: HostRuntime) -> Result<(), Fail> {
    let mut peer = peer_with_row(rt.alloc())?;
    peer.start_list();
    assert!(rt; refuses(&mut peer, 1, read(5), Refusal::Recovery));
    assert!(rt; peer.pending().is_none());
    assert!(rt; peer.is_waiting(object()));
    assert!(rt; !peer.is_pending(object()));
    Ok(())
}

/// A peer with a row, which waits for an object.
fn peer_that_awaits(alloc: Global, oid: Oid) -> Result<PlainPeer, NoMemory> {
    let mut peer = peer_with_row(alloc)?;
    if awaits(alloc, &mut peer, oid) {
        Ok(peer)
    } else {
        Err(NoMemory)
    }
}

#[test]
fn waits_until_recovered(rt: HostRuntime) -> Result<(), Fail> {
    let alloc = rt.alloc();
    let mut peer = peer_that_awaits(alloc, object())?;
    assert!(rt; peer.first_pending() == Some(object()));
    assert!(rt; peer.is_pending(object()));
    assert!(rt; refuses(&mut peer, 1, write(alloc, 0, 0), Refusal::Recovery));
    Ok(())
}

#[test]
fn serves_what_is_recovered(rt: HostRuntime) -> Result<(), Fail> {
    let mut peer = peer_that_awaits(rt.alloc(), object())?;
    assert!(rt; puts_row(&mut peer));
    assert!(rt; peer.first_pending().is_none());
    assert!(rt; gives(&mut peer, 1, &[1, 2, 0, 0, 0]));
    Ok(())
}

#[test]
fn serves_what_is_given_up(rt: HostRuntime) -> Result<(), Fail> {
    let mut peer = peer_that_awaits(rt.alloc(), object())?;
    peer.give_up(object());
    assert!(rt; !peer.is_waiting(object()));
    assert!(rt; gives(&mut peer, 1, &[0, 7, 8, 0, 0]));
    Ok(())
}

/// In epoch 2 node 0 is the only member, so its row stays open; in epoch 3 it is none.
#[test]
fn rows_end_where_another_node_keeps_them(rt: HostRuntime) -> Result<(), Fail> {
    let alloc = rt.alloc();
    let mut peer = peer_with_row(alloc)?;
    assert!(rt; reads(alloc, &mut peer, &LIFE[..2]));
    assert!(rt; enters(alloc, &mut peer, 0));
    assert!(rt; has_row(&peer, object(), 1, 0));
    assert!(rt; enters(alloc, &mut peer, 1));
    assert!(rt; has_row(&peer, object(), 1, 2));
    assert!(rt; peer.epoch() == Epoch(3));
    Ok(())
}

#[test]
fn rows_of_unknown_disks_end(rt: HostRuntime) -> Result<(), Fail> {
    let alloc = rt.alloc();
    let mut peer = fresh(alloc);
    assert!(rt; makes(&mut peer, 1, create(alloc, unknown_object(), 5)));
    assert!(rt; enters(alloc, &mut peer, 0));
    assert!(rt; has_row(&peer, unknown_object(), 1, 1));
    Ok(())
}

/// A peer of epoch 2 whose row ended with epoch 1.
fn peer_with_ended_row(alloc: Global) -> Result<PlainPeer, NoMemory> {
    let mut peer = peer_with_row(alloc)?;
    if enters(alloc, &mut peer, 0) {
        Ok(peer)
    } else {
        Err(NoMemory)
    }
}

#[test]
fn rows_stay_until_their_end_is_settled(rt: HostRuntime) -> Result<(), Fail> {
    let mut peer = peer_with_ended_row(rt.alloc())?;
    peer.settle(Epoch(1));
    assert!(rt; peer.settled() == Epoch(1));
    assert!(rt; holds(&peer, 1, 1));
    assert!(rt; holds_nothing(&peer, 2));
    Ok(())
}

#[test]
fn old_rows_go_with_the_settled_epoch(rt: HostRuntime) -> Result<(), Fail> {
    let mut peer = peer_with_ended_row(rt.alloc())?;
    peer.settle(Epoch(2));
    assert!(rt; peer.settled() == Epoch(2));
    assert!(rt; holds_nothing(&peer, 1));
    assert!(rt; has_no_objects(&peer));
    Ok(())
}

/// Two data strips and one of parity.
const STRIPS: Policy = Policy::Coded { d: 2, p: 1 };

/// How many bytes an inode has.
fn inode_bytes() -> u32 {
    4_198_968
}

/// Of an object of 4,096 bytes each of the two strips has half.
#[test]
fn tells_what_a_recovery_asks(rt: HostRuntime) -> Result<(), Fail> {
    let alloc = rt.alloc();
    let mut peer = fresh(alloc);
    assert!(rt; peer.live_policy(object()).is_none());
    assert!(rt; grants_disk(alloc, &mut peer, STRIPS));
    assert!(rt; peer.length_of_rows(object()) == Some(2_048));
    assert!(rt; peer.length_of_rows(Oid::inode(Vid(A))) == Some(inode_bytes()));
    assert!(rt; peer.live_policy(object()) == Some(STRIPS));
    Ok(())
}

#[test]
fn rows_go_with_their_disk(rt: HostRuntime) -> Result<(), Fail> {
    let alloc = rt.alloc();
    let mut peer = peer_that_awaits(alloc, object())?;
    assert!(rt; reads(alloc, &mut peer, &LIFE));
    assert!(rt; peer.directory().dead(Vid(A)));
    assert!(rt; has_no_objects(&peer));
    assert!(rt; peer.live_policy(object()).is_none());
    assert!(rt; !peer.is_pending(object()));
    Ok(())
}

#[test]
fn other_objects_stay_pending(rt: HostRuntime) -> Result<(), Fail> {
    let alloc = rt.alloc();
    let mut peer = peer_that_awaits(alloc, unknown_object())?;
    assert!(rt; reads(alloc, &mut peer, &LIFE));
    assert!(rt; peer.is_pending(unknown_object()));
    Ok(())
}

/// A row that is made of a dead object is a row like any other.
#[test]
fn late_rows_of_dead_disks_stay(rt: HostRuntime) -> Result<(), Fail> {
    let alloc = rt.alloc();
    let mut peer = fresh(alloc);
    assert!(rt; reads(alloc, &mut peer, &LIFE));
    assert!(rt; makes(&mut peer, 1, create(alloc, object(), 5)));
    assert!(rt; has_row(&peer, object(), 1, 0));
    Ok(())
}

/// A node that was lost in epoch 1 with an open row comes back, given a log that goes on with these entries.
fn peer_that_came_back(alloc: Global, later: &[Next]) -> Result<PlainPeer, NoMemory> {
    let mut peer = peer_with_row(alloc)?;
    come_back(alloc, &mut peer, later)?;
    Ok(peer)
}

/// In epoch 3, where nobody has recovered: the row is from 1 to 1.
#[test]
fn comes_back_with_closed_rows(rt: HostRuntime) -> Result<(), Fail> {
    let mut peer = peer_that_came_back(rt.alloc(), &[Next::Leave, Next::Join])?;
    assert!(rt; peer.epoch() == Epoch(3));
    assert!(rt; peer.settled() == Epoch(1));
    assert!(rt; has_row(&peer, object(), 1, 1));
    assert!(rt; refuses(&mut peer, 3, read(5), Refusal::NoObj));
    Ok(())
}

/// Until its list is finished again, a read waits.
#[test]
fn waits_once_it_came_back(rt: HostRuntime) -> Result<(), Fail> {
    let mut peer = peer_that_came_back(rt.alloc(), &[Next::Leave, Next::Join])?;
    peer.start_list();
    assert!(rt; refuses(&mut peer, 3, read(5), Refusal::Recovery));
    Ok(())
}

#[test]
fn comes_back_without_rows_of_dead_disks(rt: HostRuntime) -> Result<(), Fail> {
    let peer = peer_that_came_back(rt.alloc(), &LIFE)?;
    assert!(rt; has_no_objects(&peer));
    assert!(rt; peer.directory().dead(Vid(A)));
    assert!(rt; peer.first_pending().is_none());
    Ok(())
}

#[test]
fn gives_its_store_back(rt: HostRuntime) -> Result<(), Fail> {
    let store = peer_with_row(rt.alloc())?.into_store();
    assert!(rt; store.row_count() == 1);
    Ok(())
}
