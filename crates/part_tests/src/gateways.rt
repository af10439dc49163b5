//! Gateways. What no clause says: that each call comes through with ample memory.

ghost use Rattle.std.specs.Prelude.{IfOk, IsTrue, OnOk};
ghost use Rattle.vnode_table.specs.Epochs.{is_entered};
ghost use Rattle.peer_proto.specs.Work.{IsWork};
ghost use Rattle.part_tests.specs.SoleWork.{IsSole};

use gateway::{Act, Gateway, Sends};
use hash_ring::are_weighted;
use object_id::{Bytes, Cause, Epoch, Member, NoMemory, NodeId, Oid, Policy, Vid};
use peer_proto::{ObjWork, PeerAsk, PeerReq, PeerRsp, PeerSay, Refusal, SendList, WorkDone};
use std::alloc::Global;
use std::process::Abort;
use std::test::*;
use vnode_table::Placement;

/// One message, to node 5.
fn one_send(alloc: Global) -> Result<Sends, NoMemory> {
    let mut list = SendList::new(alloc);
    let req = PeerReq {
        from: NodeId(3),
        number: 7,
        epoch: Epoch(2),
        ask: PeerAsk::List,
    };
    list.push((NodeId(5), req))?;
    Ok(Sends { list })
}

fn is_one_send(sends: &Sends) -> bool {
    sends.list.len() == 1
        && matches!(
            sends.list.get(0),
            Some((NodeId(5), PeerReq { number: 7, .. }))
        )
}

fn sends_one(act: &Act) -> bool {
    match act {
        Act::Send(sends) => is_one_send(sends),
        _ => false,
    }
}

#[test]
fn copies_what_is_sent(rt: HostRuntime) -> Result<(), Fail> {
    let alloc = rt.alloc();
    let sends = one_send(alloc)?;
    assert!(rt; is_one_send(&sends.copy(alloc)?));
    assert!(rt; sends_one(&Act::Send(sends).copy(alloc)?));
    Ok(())
}

/// A read of object 2 of disk 9.
fn a_read() -> ObjWork
    ensures { IsWork result }
{
    ObjWork::Read {
        oid: Oid::object(Vid(9), 2),
        policy: Policy::Copies(3),
        offset: 512,
        length: 1024,
    }
}

fn is_a_read(work: &ObjWork) -> bool {
    matches!(
        work,
        ObjWork::Read {
            offset: 512,
            length: 1024,
            ..
        }
    )
}

fn is_done_read(act: &Act) -> bool {
    match act {
        Act::Done { work, done } => {
            is_a_read(work) && done.req == 9 && done.bytes.as_slice() == b"read".as_slice()
        }
        _ => false,
    }
}

#[test]
fn copies_what_was_done(rt: HostRuntime) -> Result<(), Fail> {
    let alloc = rt.alloc();
    let bytes = Bytes::from_slice(alloc, b"read")?;
    let act = Act::Done {
        work: a_read(),
        done: WorkDone { req: 9, bytes },
    };
    assert!(rt; is_done_read(&act.copy(alloc)?));
    Ok(())
}

#[test]
fn copies_a_wait(rt: HostRuntime) -> Result<(), Fail> {
    assert!(rt; matches!(&Act::Wait.copy(rt.alloc())?, Act::Wait));
    Ok(())
}

fn is_refused_read(act: &Act) -> bool {
    match act {
        Act::Refused { work, req, cause } => {
            is_a_read(work) && *req == 4 && matches!(cause, Cause::Link { node: NodeId(1) })
        }
        _ => false,
    }
}

#[test]
fn copies_a_refusal(rt: HostRuntime) -> Result<(), Fail> {
    let act = Act::Refused {
        work: a_read(),
        req: 4,
        cause: Cause::Link { node: NodeId(1) },
    };
    assert!(rt; is_refused_read(&act.copy(rt.alloc())?));
    Ok(())
}

/// A placement with one epoch of so many nodes, each in a zone of its own.
fn placement(rt: &impl Abort, alloc: Global, nodes: u32) -> Result<Placement, NoMemory>
    ensures entered { IfOk result (λ place. IsTrue (is_entered place 1)) }
{
    let mut members = Vec::new(alloc);
    for node in 0..nodes {
        members.push(Member {
            node: NodeId(node),
            zone: node,
            vnodes: 64,
        })?;
    }
    let mut place = Placement::new(alloc);
    assert!(rt; are_weighted(members.as_slice()) && !place.has_entered(Epoch(1)));
    place.enter(Epoch(1), members.as_slice())?;
    Ok(place)
}

/// A gateway of node 0 in which a work of request 4 began, with messages from number 10 on, and what came of that.
fn started(
    alloc: Global,
    tries: u32,
    work: ObjWork,
    place: &Placement,
) -> Result<(Gateway, Act), NoMemory>
    requires work { IsWork work }
    requires entered { IsTrue (is_entered place.now 1) }
    ensures { IfOk result (λ started. IsSole started.0) }
{
    let mut gateway = Gateway::new(alloc, NodeId(0), tries);
    let act = gateway.start(4, work, 10, Epoch(1), place)?;
    Ok((gateway, act))
}

/// How many messages are sent.
fn sends(act: &Act) -> usize {
    match act {
        Act::Send(sends) => sends.list.len(),
        _ => 0,
    }
}

/// A work that began among so many nodes, and what came of that.
fn first_step(
    rt: &impl Abort,
    alloc: Global,
    nodes: u32,
    tries: u32,
    work: ObjWork,
) -> Result<(Gateway, Act), NoMemory>
    requires { IsWork work }
{
    let place = placement(rt, alloc, nodes)?;
    started(alloc, tries, work, &place)
}

/// A work that began among so many nodes, with so many messages.
fn begun(
    rt: &impl Abort,
    alloc: Global,
    nodes: u32,
    tries: u32,
    work: ObjWork,
    messages: usize,
) -> Result<Gateway, NoMemory>
    requires { IsWork work }
{
    let (gateway, act) = first_step(rt, alloc, nodes, tries, work)?;
    assert_eq!(rt; sends(&act), messages);
    Ok(gateway)
}

/// What comes of a reply to a message; `None` if it doesn't fit.
fn replied(
    gateway: &mut Gateway,
    number: u32,
    say: Result<PeerSay, NoMemory>,
) -> Result<Option<Act>, NoMemory> {
    let rsp = PeerRsp {
        number,
        epoch: Epoch(1),
        say: say?,
    };
    if gateway.fits(&rsp) {
        Ok(Some(gateway.on_reply(&rsp)?))
    } else {
        Ok(None)
    }
}

/// What comes of the loss of a message; `None` if nobody waits for it.
fn lost(gateway: &mut Gateway, number: u32) -> Result<Option<Act>, NoMemory>
    ensures { OnOk result (IsSole gateway.old → IsSole gateway.new) }
{
    if gateway.waits_for(number) {
        Ok(Some(gateway.on_lost(number)?))
    } else {
        Ok(None)
    }
}

fn is_wait(act: &Option<Act>) -> bool {
    matches!(act, Some(Act::Wait))
}

/// Whether a work is done, and gave these bytes.
fn is_done(act: &Option<Act>, bytes: &[u8]) -> bool {
    matches!(act, Some(Act::Done { done, .. }) if done.req == 4 && done.bytes.as_slice() == bytes)
}

/// Whether a reply fits no message.
fn fits_nothing(gateway: &mut Gateway, number: u32, say: Result<PeerSay, NoMemory>) -> bool {
    match replied(gateway, number, say) {
        Ok(act) => act.is_none(),
        Err(NoMemory) => false,
    }
}

/// Whether the work goes on after a reply.
fn waits_on(gateway: &mut Gateway, number: u32, say: Result<PeerSay, NoMemory>) -> bool {
    match replied(gateway, number, say) {
        Ok(act) => is_wait(&act),
        Err(NoMemory) => false,
    }
}

/// Whether a reply ends the work, which gives these bytes.
fn ends(gateway: &mut Gateway, number: u32, say: Result<PeerSay, NoMemory>, bytes: &[u8]) -> bool {
    match replied(gateway, number, say) {
        Ok(act) => is_done(&act, bytes),
        Err(NoMemory) => false,
    }
}

/// What the work would give by a reply, if that ended it.
fn done_by(
    gateway: &Gateway,
    number: u32,
    say: Result<PeerSay, NoMemory>,
) -> Result<Option<WorkDone>, NoMemory> {
    let rsp = PeerRsp {
        number,
        epoch: Epoch(1),
        say: say?,
    };
    if gateway.fits(&rsp) {
        gateway.work_done_by(&rsp)
    } else {
        Ok(None)
    }
}

/// Whether a reply would end the work, which gives these bytes.
fn would_end(gateway: &Gateway, number: u32, say: Result<PeerSay, NoMemory>, bytes: &[u8]) -> bool {
    match &done_by(gateway, number, say) {
        Ok(Some(done)) => done.req == 4 && done.bytes.as_slice() == bytes,
        _ => false,
    }
}

/// Whether the work goes on after a loss.
fn outlives(gateway: &mut Gateway, number: u32) -> Result<bool, NoMemory>
    ensures { OnOk result (IsSole gateway.old → IsSole gateway.new) }
{
    Ok(is_wait(&lost(gateway, number)?))
}

/// Whether the work may be tried again, in an attempt of two messages from number 12 on.
fn is_tried_again(gateway: &mut Gateway, place: &Placement) -> Result<bool, NoMemory>
    requires sole { IsSole gateway.old }
    requires entered { IsTrue (is_entered place.now 1) }
{
    if gateway.can_retry(Epoch(1)) {
        let act = gateway.retry(12, Epoch(1), place)?;
        Ok(sends(&act) == 2 && gateway.waits_for(13))
    } else {
        Ok(false)
    }
}

/// Whether nobody waits for a message, so that its loss is none.
fn loses_nothing(gateway: &mut Gateway, number: u32) -> bool {
    match lost(gateway, number) {
        Ok(act) => act.is_none(),
        Err(NoMemory) => false,
    }
}

fn piece(alloc: Global, bytes: &[u8]) -> Result<PeerSay, NoMemory> {
    Ok(PeerSay::Piece(Bytes::from_slice(alloc, bytes)?))
}

/// A write of object 2 of disk 9.
fn a_write(alloc: Global) -> Result<ObjWork, NoMemory>
    ensures { IfOk result IsWork }
{
    Ok(ObjWork::Write {
        oid: Oid::object(Vid(9), 2),
        policy: Policy::Copies(2),
        offset: 512,
        bytes: Bytes::from_slice(alloc, b"data")?,
    })
}

/// A write that began among three nodes.
fn begun_write(rt: &impl Abort, alloc: Global) -> Result<Gateway, NoMemory> {
    begun(rt, alloc, 3, 8, a_write(alloc)?, 2)
}

#[test]
fn waits_for_each_copy(rt: HostRuntime) -> Result<(), Fail> {
    let mut gateway = begun_write(&rt, rt.alloc())?;
    assert!(rt; gateway.waits_for(11));
    assert!(rt; !gateway.waits_for(12));
    assert!(rt; fits_nothing(&mut gateway, 10, piece(rt.alloc(), b"data")));
    Ok(())
}

#[test]
fn writes_to_each_copy(rt: HostRuntime) -> Result<(), Fail> {
    let mut gateway = begun_write(&rt, rt.alloc())?;
    assert!(rt; waits_on(&mut gateway, 11, Ok(PeerSay::Success)));
    assert!(rt; !gateway.can_retry(Epoch(1)));
    assert!(rt; ends(&mut gateway, 10, Ok(PeerSay::Success), &[]));
    Ok(())
}

#[test]
fn tries_again_after_a_loss(rt: HostRuntime) -> Result<(), Fail> {
    let mut gateway = begun_write(&rt, rt.alloc())?;
    assert!(rt; outlives(&mut gateway, 10) == Ok(true));
    assert!(rt; loses_nothing(&mut gateway, 10));
    assert!(rt; outlives(&mut gateway, 11) == Ok(true));
    assert!(rt; gateway.can_retry(Epoch(1)));
    Ok(())
}

#[test]
fn begins_the_next_attempt(rt: HostRuntime) -> Result<(), Fail> {
    let alloc = rt.alloc();
    let place = placement(&rt, alloc, 3)?;
    let (mut gateway, _) = started(alloc, 8, a_write(alloc)?, &place)?;
    assert!(rt; outlives(&mut gateway, 10)?);
    assert!(rt; outlives(&mut gateway, 11)?);
    assert!(rt; is_tried_again(&mut gateway, &place)?);
    Ok(())
}

/// A read of a block of two data strips and one parity strip.
fn a_coded_read() -> ObjWork
    ensures { IsWork result }
{
    ObjWork::Read {
        oid: Oid::object(Vid(9), 2),
        policy: Policy::Coded { d: 2, p: 1 },
        offset: 512,
        length: 512,
    }
}

/// Whether a request is message 12, and asks for the strip of the second block.
fn asks_for_a_strip(req: &PeerReq) -> bool {
    match &req.ask {
        PeerAsk::Read { offset, length, .. } => {
            req.number == 12 && *offset == 256 && *length == 256
        }
        _ => false,
    }
}

/// Whether the third message asks for the strip of the second block.
fn asks_for_strips(act: &Act) -> bool {
    match act {
        Act::Send(sends) => match sends.list.get(2) {
            Some((_, req)) => asks_for_a_strip(req),
            None => false,
        },
        _ => false,
    }
}

#[test]
fn asks_each_target_for_its_strip(rt: HostRuntime) -> Result<(), Fail> {
    let (_, act) = first_step(&rt, rt.alloc(), 3, 1, a_coded_read())?;
    assert!(rt; asks_for_strips(&act));
    Ok(())
}

/// 256 bytes 1 and as many 2.
fn ones_and_twos(alloc: Global) -> Result<Vec<u8>, NoMemory> {
    let mut bytes = Vec::from_slice(alloc, &[1; 256])?;
    bytes.extend_from_slice(&[2; 256])?;
    Ok(bytes)
}

// One and two are the data strips of a block, and seven is its parity strip.
#[test]
fn reads_through_parity(rt: HostRuntime) -> Result<(), Fail> {
    let alloc = rt.alloc();
    let block = ones_and_twos(alloc)?;
    let mut gateway = begun(&rt, alloc, 3, 1, a_coded_read(), 3)?;
    assert!(rt; waits_on(&mut gateway, 12, piece(alloc, &[7; 256])));
    assert!(rt; outlives(&mut gateway, 10) == Ok(true));
    assert!(rt; ends(&mut gateway, 11, piece(alloc, &[2; 256]), block.as_slice()));
    Ok(())
}

/// A read of both copies of object 2 of disk 9.
fn a_read_of_all() -> ObjWork
    ensures { IsWork result }
{
    ObjWork::ReadAll {
        oid: Oid::object(Vid(9), 2),
        policy: Policy::Copies(2),
        length: 1,
    }
}

#[test]
fn reads_all_copies(rt: HostRuntime) -> Result<(), Fail> {
    let alloc = rt.alloc();
    let mut gateway = begun(&rt, alloc, 2, 1, a_read_of_all(), 2)?;
    assert_eq!(rt; gateway.asker(11), Some(4));
    assert!(rt; waits_on(&mut gateway, 11, piece(alloc, b"2")));
    assert!(rt; would_end(&gateway, 10, piece(alloc, b"1"), b"12"));
    assert!(rt; ends(&mut gateway, 10, piece(alloc, b"1"), b"12"));
    Ok(())
}

fn is_of_old_epoch(cause: &Cause) -> bool {
    matches!(
        cause,
        Cause::OldEpoch {
            own: Epoch(1),
            peer: Epoch(3),
            ..
        }
    )
}

fn is_refused_as_old(act: &Option<Act>) -> bool {
    match act {
        Some(Act::Refused { req, cause, .. }) => *req == 4 && is_of_old_epoch(cause),
        _ => false,
    }
}

// A read has one attempt only, and the node that it asks has a later epoch.
#[test]
fn refuses_with_the_cause(rt: HostRuntime) -> Result<(), Fail> {
    let mut gateway = begun(&rt, rt.alloc(), 2, 1, a_read(), 1)?;
    let old = PeerSay::Refused(Refusal::OldEpoch { own: Epoch(3) });
    assert!(rt; is_refused_as_old(&replied(&mut gateway, 10, Ok(old))?));
    assert!(rt; !gateway.can_retry(Epoch(1)));
    Ok(())
}

/// A create of an object that is to have three copies.
fn a_create(alloc: Global) -> ObjWork
    ensures { IsWork result }
{
    ObjWork::Create {
        oid: Oid::object(Vid(9), 2),
        policy: Policy::Copies(3),
        length: 8,
        offset: 0,
        bytes: Bytes::new(alloc),
    }
}

fn is_halt(cause: &Cause) -> bool {
    matches!(
        cause,
        Cause::Halt {
            members: 2,
            wanted: 3
        }
    )
}

fn is_halted(act: &Act) -> bool {
    match act {
        Act::Refused { req, cause, .. } => *req == 4 && is_halt(cause),
        _ => false,
    }
}

#[test]
fn halts_for_want_of_zones(rt: HostRuntime) -> Result<(), Fail> {
    let alloc = rt.alloc();
    let (mut gateway, act) = first_step(&rt, alloc, 2, 2, a_create(alloc))?;
    assert!(rt; is_halted(&act));
    assert!(rt; !gateway.can_retry(Epoch(2)));
    assert!(rt; loses_nothing(&mut gateway, 10));
    Ok(())
}
