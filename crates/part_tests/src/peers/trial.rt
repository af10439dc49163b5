//! A peer over the plain store, which is asked only for what it may be asked. Each helper answers a plain value, so that a test has no
//! more than its peer to keep.

ghost use Rattle.std.specs.Prelude.{◌+◌, IfOk, IsTrue};
ghost use Rattle.vnode_table.specs.Epochs.{is_entered};

use hash_ring::are_weighted;
use object_id::{Bytes, Epoch, Member, NoMemory, NodeId, Oid, Vid};
use object_store::{Key, ObjStore, OidList, PlainStore, RowCopy};
use peer_proto::{PeerAsk, PeerReq, PeerRsp, PeerSay, Refusal};
use peer_service::{PeerState, conditions_are_tests};
use std::alloc::Global;
use vnode_table::Placement;

pub(super) type PlainPeer = PeerState<PlainStore>;

/// The first id of a disk of the name `a`.
pub(super) const A: u32 = 0x01_ec8c;

/// The first data object of disk `a`.
pub(super) fn object() -> Oid {
    Oid::object(Vid(A), 0)
}

/// A data object of a disk that no entry made.
pub(super) fn unknown_object() -> Oid {
    Oid::object(Vid(1), 3)
}

pub(super) fn key(index: u8) -> Key {
    Key {
        oid: object(),
        index,
    }
}

/// A node in a zone of its own.
pub(super) fn member(node: u32) -> Member {
    Member {
        node: NodeId(node),
        zone: node,
        vnodes: 8,
    }
}

/// A Create of an object's row: so many bytes, of which the second and third are 7 and 8.
pub(super) fn create(alloc: Global, oid: Oid, length: u32) -> Result<PeerAsk, NoMemory> {
    Ok(PeerAsk::Create {
        key: Key { oid, index: 0 },
        length,
        offset: 1,
        bytes: Bytes::from_slice(alloc, &[7, 8])?,
    })
}

/// A Write of two bytes 9 into the row of disk `a` that has this index.
pub(super) fn write(alloc: Global, index: u8, offset: u32) -> Result<PeerAsk, NoMemory> {
    Ok(PeerAsk::Write {
        key: key(index),
        offset,
        bytes: Bytes::from_slice(alloc, &[9, 9])?,
    })
}

/// A Read of the first row of disk `a` from its begin.
pub(super) fn read(length: u32) -> Result<PeerAsk, NoMemory> {
    Ok(PeerAsk::Read {
        key: key(0),
        offset: 0,
        length,
    })
}

/// Whether a piece ends inside its row, or has none.
pub(super) fn is_inside(peer: &PlainPeer, ask: Result<PeerAsk, NoMemory>) -> bool {
    match ask {
        Ok(ask) => peer.may_serve(&ask),
        Err(NoMemory) => false,
    }
}

/// Whether a piece ends behind its row.
pub(super) fn is_outside(peer: &PlainPeer, ask: Result<PeerAsk, NoMemory>) -> bool {
    match ask {
        Ok(ask) => !peer.may_serve(&ask),
        Err(NoMemory) => false,
    }
}

/// A request is served, if it may be.
fn served(peer: &mut PlainPeer, req: &PeerReq) -> Result<PeerRsp, NoMemory> {
    conditions_are_tests();
    if peer.may_serve(&req.ask) {
        peer.serve(req)
    } else {
        Err(NoMemory)
    }
}

/// The reply to a request of an epoch. It has the request's number and the peer's epoch.
fn reply_to(
    peer: &mut PlainPeer,
    epoch: u32,
    ask: Result<PeerAsk, NoMemory>,
) -> Result<PeerRsp, NoMemory> {
    let ask = ask?;
    let req = PeerReq {
        from: NodeId(1),
        number: 9,
        epoch: Epoch(epoch),
        ask,
    };
    let rsp = served(peer, &req)?;
    if rsp.number == 9 && rsp.epoch == peer.epoch() {
        Ok(rsp)
    } else {
        Err(NoMemory)
    }
}

fn is_refusal(say: &PeerSay, refusal: Refusal) -> bool {
    match say {
        PeerSay::Refused(own) => *own == refusal,
        _ => false,
    }
}

fn is_piece(say: &PeerSay, bytes: &[u8]) -> bool {
    match say {
        PeerSay::Piece(piece) => piece.as_slice() == bytes,
        _ => false,
    }
}

fn is_list(say: &PeerSay, oid: Oid) -> bool {
    match say {
        PeerSay::Objects(oids) => oids.len() == 1 && oids.has(oid),
        _ => false,
    }
}

fn is_told(say: &PeerSay) -> bool {
    match say {
        PeerSay::Row(row) => is_row(row, 0),
        _ => false,
    }
}

/// Whether a create or write is made.
pub(super) fn makes(peer: &mut PlainPeer, epoch: u32, ask: Result<PeerAsk, NoMemory>) -> bool {
    match reply_to(peer, epoch, ask) {
        Ok(rsp) => matches!(&rsp.say, PeerSay::Success),
        Err(NoMemory) => false,
    }
}

pub(super) fn refuses(
    peer: &mut PlainPeer,
    epoch: u32,
    ask: Result<PeerAsk, NoMemory>,
    refusal: Refusal,
) -> bool {
    match reply_to(peer, epoch, ask) {
        Ok(rsp) => is_refusal(&rsp.say, refusal),
        Err(NoMemory) => false,
    }
}

/// Whether the first row of disk `a` has these bytes, by a Read of five.
pub(super) fn gives(peer: &mut PlainPeer, epoch: u32, bytes: &[u8]) -> bool {
    match reply_to(peer, epoch, read(5)) {
        Ok(rsp) => is_piece(&rsp.say, bytes),
        Err(NoMemory) => false,
    }
}

/// Whether a List has this object alone.
pub(super) fn lists(peer: &mut PlainPeer, epoch: u32, oid: Oid) -> bool {
    match reply_to(peer, epoch, Ok(PeerAsk::List)) {
        Ok(rsp) => is_list(&rsp.say, oid),
        Err(NoMemory) => false,
    }
}

/// What a RecoverRead of the first object of disk `a` is told in epoch 1.
fn told(peer: &mut PlainPeer, level: u32) -> Result<PeerRsp, NoMemory> {
    let ask = PeerAsk::RecoverRead {
        oid: object(),
        level: Epoch(level),
    };
    reply_to(peer, 1, Ok(ask))
}

/// Whether a RecoverRead is told the open row that `peer_with_row` made.
pub(super) fn tells_row(peer: &mut PlainPeer, level: u32) -> bool {
    match told(peer, level) {
        Ok(rsp) => is_told(&rsp.say),
        Err(NoMemory) => false,
    }
}

pub(super) fn tells_no_row(peer: &mut PlainPeer, level: u32) -> bool {
    match told(peer, level) {
        Ok(rsp) => matches!(&rsp.say, PeerSay::NoRow),
        Err(NoMemory) => false,
    }
}

/// A peer of epoch 1 that has no row and has read no entry.
pub(super) fn fresh(alloc: Global) -> PlainPeer {
    let store = PlainStore::new(alloc);
    PeerState::new(alloc, store, Epoch(1))
}

/// A peer of node 0 in epoch 1, with an open row of the first object of disk `a`: the bytes 0 7 8 0 0.
pub(super) fn peer_with_row(alloc: Global) -> Result<PlainPeer, NoMemory> {
    let mut peer = fresh(alloc);
    if makes(&mut peer, 1, create(alloc, object(), 5)) {
        Ok(peer)
    } else {
        Err(NoMemory)
    }
}

/// The same row in epoch 2, which it was made in.
pub(super) fn peer_of_epoch_2(alloc: Global) -> Result<PlainPeer, NoMemory> {
    let mut peer = fresh(alloc);
    if enters(alloc, &mut peer, 0) && makes(&mut peer, 2, create(alloc, object(), 5)) {
        Ok(peer)
    } else {
        Err(NoMemory)
    }
}

/// Whether the object's first row is from one epoch to another, 0 for no end.
pub(super) fn has_row(peer: &PlainPeer, oid: Oid, from: u32, to: u32) -> bool {
    match peer.store().row_summary(oid, 0) {
        Some(row) => row.from.0 == from && end_of(row.to) == to,
        None => false,
    }
}

fn end_of(to: Option<Epoch>) -> u32 {
    match to {
        Some(epoch) => epoch.0,
        None => 0,
    }
}

/// Whether a row is the one that `peer_with_row` made, to this epoch.
fn is_row(row: &RowCopy, to: u32) -> bool {
    row.from.0 == 1
        && end_of(row.to) == to
        && row.length == 5
        && row.bytes.as_slice() == [0, 7, 8].as_slice()
}

/// Whether a level is held by the row that `peer_with_row` made, to this epoch.
pub(super) fn holds(peer: &PlainPeer, level: u32, to: u32) -> bool {
    match &peer.row_at(object(), Epoch(level)) {
        Ok(Some(row)) => is_row(row, to),
        _ => false,
    }
}

pub(super) fn holds_nothing(peer: &PlainPeer, level: u32) -> bool {
    matches!(&peer.row_at(object(), Epoch(level)), Ok(None))
}

pub(super) fn has_no_objects(peer: &PlainPeer) -> bool {
    match peer.objects() {
        Ok(oids) => oids.is_empty(),
        Err(NoMemory) => false,
    }
}

/// Makes the row of an object that was recovered: the bytes 1 2 0 0 0.
pub(super) fn puts_row(peer: &mut PlainPeer) -> bool {
    peer.put_row(key(0), 5, &[1, 2]).is_ok()
}

fn list_of(alloc: Global, oid: Oid) -> Result<OidList, NoMemory> {
    let mut list = OidList::new(alloc);
    list.push(oid)?;
    Ok(list)
}

/// The list is finished, and an object is pending.
pub(super) fn awaits(alloc: Global, peer: &mut PlainPeer, oid: Oid) -> bool {
    match list_of(alloc, oid) {
        Ok(list) => {
            peer.set_pending(list);
            true
        }
        Err(NoMemory) => false,
    }
}

/// A placement that has entered the epoch after the peer's, of the first nine, with one member.
fn next_placement(alloc: Global, peer: &PlainPeer, node: u32) -> Result<Placement, NoMemory>
    ensures { IfOk result (λ place. IsTrue (is_entered place (peer.now.epoch + 1))) }
{
    let members = [member(node)];
    let epoch = peer.epoch();
    if 9 < epoch.0 || !are_weighted(&members) {
        return Err(NoMemory);
    }
    let mut place = Placement::new(alloc);
    place.enter(Epoch(epoch.0 + 1), &members)?;
    Ok(place)
}

/// Node 0 goes to the next epoch, of which this node is the only member.
pub(super) fn enters(alloc: Global, peer: &mut PlainPeer, node: u32) -> bool {
    match next_placement(alloc, peer, node) {
        Ok(place) => peer.enter(NodeId(0), &place).is_ok(),
        Err(NoMemory) => false,
    }
}
