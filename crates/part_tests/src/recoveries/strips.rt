//! Strips of coded objects, recovered from those of other members.

use super::node::{Layout, Node};
use super::trial::Trial;
use object_id::{Bytes, Epoch, NoMemory, NodeId, Oid, Policy, Vid};
use object_store::{Key, OidList, RowCopy};
use peer_proto::PeerSay;
use std::alloc::Global;
use std::test::*;

/// The targets before the node's epoch, of which node 6 is a member no more. In the node's epoch node 2 has one of the places.
const TARGETS: [NodeId; 6] = [
    NodeId(0),
    NodeId(1),
    NodeId(3),
    NodeId(4),
    NodeId(5),
    NodeId(6),
];

/// How many of the targets are members.
const ASKED: u32 = 5;

/// The strip of a target: its place among the targets, the strip's index, and the byte that the strip repeats.
type Strip = (u32, u8, u8);

const CODED_2_1: Policy = Policy::Coded { d: 2, p: 1 };

const CODED_2_3: Policy = Policy::Coded { d: 2, p: 3 };

const CODED_4_2: Policy = Policy::Coded { d: 4, p: 2 };

/// Node 2 of epoch 2, before it recovers the strip of an index.
fn a_trial(alloc: Global, policy: Policy, length: u32, own: u8) -> Result<Option<Trial>, NoMemory> {
    let Some(layout) = Layout::of(policy, length) else {
        return Ok(None);
    };
    let mut node = Node::new(alloc, layout);
    node.targets_before = Vec::from_array(alloc, TARGETS)?;
    let mut targets = TARGETS;
    if let Some(place) = targets.get_mut(usize::from(own)) {
        *place = NodeId(2);
    }
    node.targets_now = Vec::from_array(alloc, targets)?;
    Ok(Trial::new(alloc, node))
}

/// How many bytes a strip object of one block has.
fn strip_bytes(policy: Policy) -> u32 {
    match policy {
        Policy::Coded { d: 2, .. } => 256,
        Policy::Coded { d: 4, .. } => 128,
        _ => 512,
    }
}

/// The row of a strip.
fn row(alloc: Global, length: u32, index: u8, byte: u8) -> Result<PeerSay, NoMemory> {
    let mut bytes = Vec::new(alloc);
    bytes.resize(length as usize, byte)?;
    Ok(PeerSay::Row(RowCopy {
        index,
        from: Epoch(1),
        to: Some(Epoch(2)),
        length,
        bytes: Bytes::from_vec(bytes),
    }))
}

/// What the target of a place says: its row, if it has a strip.
fn told(alloc: Global, length: u32, strips: &[Strip], target: u32) -> Result<PeerSay, NoMemory> {
    for (place, index, byte) in strips {
        if *place == target {
            return row(alloc, length, *index, *byte);
        }
    }
    Ok(PeerSay::NoRow)
}

/// The answer to a List: the object.
fn list_of(alloc: Global, oid: Oid) -> Result<PeerSay, NoMemory> {
    let mut oids = OidList::new(alloc);
    oids.push(oid)?;
    Ok(PeerSay::Objects(oids))
}

/// Begins, and asks the other members for their lists, from message 7 on. Whether each step may come.
fn asks_for_lists(trial: &mut Trial) -> Result<bool, NoMemory> {
    let begins = trial.begin(&[
        NodeId(0),
        NodeId(1),
        NodeId(2),
        NodeId(3),
        NodeId(4),
        NodeId(5),
    ])?;
    Ok(begins && trial.tick(7)?.is_some())
}

/// The members name the object. Whether each answer fits.
fn lists_come(trial: &mut Trial, alloc: Global, oid: Oid) -> Result<bool, NoMemory> {
    for number in 7..7 + ASKED {
        if !trial.answer(number, list_of(alloc, oid)?)? {
            return Ok(false);
        }
    }
    Ok(true)
}

/// The members have named the object, and are asked for their rows, from message 20 on. Whether each step may come.
fn asks_for_rows(trial: &mut Trial, alloc: Global, oid: Oid) -> Result<bool, NoMemory> {
    if !asks_for_lists(trial)? || !lists_come(trial, alloc, oid)? {
        return Ok(false);
    }
    Ok(trial.tick(20)?.is_some())
}

/// Each member that is asked tells its row, the last one first. Whether each answer fits.
fn rows_come(
    trial: &mut Trial,
    alloc: Global,
    length: u32,
    strips: &[Strip],
) -> Result<bool, NoMemory> {
    for behind in 0..ASKED {
        let place = ASKED - 1 - behind;
        let number = 20 + place;
        let say = told(alloc, length, strips, place)?;
        if trial.waits_for(number) && !trial.answer(number, say)? {
            return Ok(false);
        }
    }
    Ok(true)
}

/// The first byte of the strip of an index that node 2 recovers from these; `None` in it if it recovers none, and `None` if a step may not
/// come.
fn recovered(
    alloc: Global,
    policy: Policy,
    own: u8,
    strips: &[Strip],
) -> Result<Option<Option<u8>>, NoMemory> {
    let oid = Oid::object(Vid(1), 0);
    let length = strip_bytes(policy);
    let Some(mut trial) = a_trial(alloc, policy, length, own)? else {
        return Ok(None);
    };
    if !asks_for_rows(&mut trial, alloc, oid)? || !rows_come(&mut trial, alloc, length, strips)? {
        return Ok(None);
    }
    Ok(Some(trial.first_byte(Key { oid, index: own })?))
}

/// Whether each step may come, and node 2 recovers the strip of an index from these, one that begins with the byte; `None` if it is to
/// recover none.
fn recovers(alloc: Global, policy: Policy, own: u8, strips: &[Strip], byte: Option<u8>) -> bool {
    recovered(alloc, policy, own, strips) == Ok(Some(byte))
}

// The blocks are of strips of one byte each: 1 and 2, whose parity is 7; 17 and 238, with 242, 13 and 202; 1 to 4, with 69 and 94; and
// 128, 64, 32 and 16, with 117 and 175.

#[test]
fn recovers_each_strip_of_three(rt: HostRuntime) {
    let alloc = rt.alloc();
    assert!(rt; recovers(alloc, CODED_2_1, 0, &[(1, 1, 2), (2, 2, 7)], Some(1)));
    assert!(rt; recovers(alloc, CODED_2_1, 1, &[(0, 0, 1), (2, 2, 7)], Some(2)));
    assert!(rt; recovers(alloc, CODED_2_1, 2, &[(0, 0, 1), (1, 1, 2)], Some(7)));
}

// Of two strips of one index the first in the order of the targets counts, and the other doesn't.
#[test]
fn takes_one_strip_of_an_index(rt: HostRuntime) {
    let alloc = rt.alloc();
    assert!(rt;
        recovers(
            alloc,
            CODED_2_1,
            1,
            &[(0, 0, 1), (1, 0, 9), (2, 2, 7)],
            Some(2)
        )
    );
    assert!(rt; recovers(alloc, CODED_2_1, 2, &[(0, 0, 1), (1, 0, 9)], None));
}

// In the last case there are more strips than are needed: the smallest indexes are taken.
#[test]
fn recovers_strips_of_five(rt: HostRuntime) {
    let alloc = rt.alloc();
    assert!(rt; recovers(alloc, CODED_2_3, 0, &[(3, 3, 13), (4, 4, 202)], Some(17)));
    assert!(rt; recovers(alloc, CODED_2_3, 2, &[(0, 0, 17), (4, 4, 202)], Some(242)));
    assert!(rt;
        recovers(
            alloc,
            CODED_2_3,
            3,
            &[(0, 0, 17), (1, 1, 238), (4, 4, 0)],
            Some(13)
        )
    );
}

#[test]
fn recovers_strips_of_six(rt: HostRuntime) {
    let alloc = rt.alloc();
    let data = [(0, 0, 1), (1, 1, 2), (2, 2, 3), (4, 4, 69)];
    assert!(rt; recovers(alloc, CODED_4_2, 3, &data, Some(4)));
    let all = [(0, 0, 1), (1, 1, 2), (2, 2, 3), (3, 3, 4), (4, 4, 69)];
    assert!(rt; recovers(alloc, CODED_4_2, 5, &all, Some(94)));
    let later = [(1, 1, 2), (2, 2, 3), (3, 3, 4), (4, 4, 69)];
    assert!(rt; recovers(alloc, CODED_4_2, 0, &later, Some(1)));
}

#[test]
fn recovers_nothing_from_too_few_strips(rt: HostRuntime) {
    let alloc = rt.alloc();
    assert!(rt;
        recovers(
            alloc,
            CODED_4_2,
            3,
            &[(0, 0, 1), (1, 1, 2), (2, 2, 3)],
            None
        )
    );
}

#[test]
fn recovers_strips_of_another_block(rt: HostRuntime) {
    let alloc = rt.alloc();
    let in_place = [(0, 0, 128), (2, 2, 32), (3, 3, 16), (4, 4, 117)];
    assert!(rt; recovers(alloc, CODED_4_2, 1, &in_place, Some(64)));
    let moved = [(0, 4, 117), (1, 3, 16), (2, 2, 32), (3, 0, 128)];
    assert!(rt; recovers(alloc, CODED_4_2, 5, &moved, Some(175)));
}
