//! What an attempt asks of whom: its messages, and what is sent.

ghost use Rattle.std.specs.Prelude.{◌≡◌, ◌^◌, ◌-◌, ◌<◌, ◌≤◌, true, false, length, map, IfOk};
ghost use Rattle.std.specs.List.{enumerate_from};
ghost use Rattle.object_id.specs.declared.limits.TheConstants.{NODES_MAX, TARGETS_MAX};
ghost use Rattle.object_id.specs.Policy.{IsPolicy};
ghost use Rattle.gf256.specs.Part.{IsAligned, part, part_size, is_in_strips};
ghost use Rattle.peer_proto.specs.Work.{IsWork};
ghost use Rattle.gateway.specs.Work.{ask_for, asks_all, zones_for, is_making, is_piece};
ghost use Rattle.gateway.specs.Attempt.{message_for, messages_of, send_of};
ghost use Rattle.gateway.specs.Messages.{IndexesFit};

use crate::message::{Message, Status};
use crate::messages::Messages;
use object_id::{Bytes, Epoch, Kind, NoMemory, NodeId, Policy};
use object_store::Key;
use peer_proto::{ObjWork, PeerAsk, PeerReq, SendList};
use std::alloc::Global;
use strip_lanes::{part, part_size};

/// Whether a work makes something: a create or a write.
pub(crate) fn is_making(work: &ObjWork) -> bool
    ensures { result ≡ is_making work.now }
{
    match work {
        ObjWork::Create { .. } => true,
        ObjWork::Write { .. } => true,
        ObjWork::Read { .. } => false,
        ObjWork::ReadAll { .. } => false,
    }
}

/// In how many zones an attempt has to begin.
pub(crate) fn zones_for(work: &ObjWork) -> u8
    requires { IsWork work.now }
    ensures { result ≡ zones_for work.now }
{
    match work {
        ObjWork::Create { oid, policy, .. } => policy.wanted(oid.kind()),
        ObjWork::Write { oid, policy, .. } => policy.wanted(oid.kind()),
        ObjWork::Read { oid, policy, .. } => policy.need(oid.kind()),
        ObjWork::ReadAll { oid, policy, .. } => policy.wanted(oid.kind()),
    }
}

/// Whether the targets of an object keep strips of it.
fn is_in_strips(policy: Policy, kind: Kind) -> bool
    ensures { result ≡ is_in_strips policy kind }
{
    match policy {
        Policy::Copies(_) => false,
        Policy::Coded { .. } => match kind {
            Kind::Block => true,
            Kind::Inode => false,
        },
    }
}

/// Whether each attempt of a work asks all targets.
fn asks_all(work: &ObjWork) -> bool
    ensures { result ≡ asks_all work.now }
{
    match work {
        ObjWork::Create { .. } => true,
        ObjWork::Write { .. } => true,
        ObjWork::Read { oid, policy, .. } => is_in_strips(*policy, oid.kind()),
        ObjWork::ReadAll { .. } => true,
    }
}

/// How long the part of so many bytes is.
fn size_in_part(policy: Policy, kind: Kind, n: u32) -> u32
    requires { IsPolicy policy }
    ensures { result ≡ part_size policy kind n }
{
    part_size(policy, kind, n as usize) as u32
}

/// The part of some bytes under an index. Takes its bytes.
fn part_of(
    alloc: Global,
    policy: Policy,
    kind: Kind,
    index: u8,
    bytes: &[u8],
) -> Result<Bytes, NoMemory>
    requires policy { IsPolicy policy }
    requires index { index < TARGETS_MAX }
    requires whole { IsAligned policy kind (length bytes.now) }
    ensures { IfOk result (λ made. made ≡ part policy kind index bytes.now) }
{
    let mut made = Vec::new(alloc);
    made.resize(part_size(policy, kind, bytes.len()), 0)?;
    part(policy, kind, index, bytes, made.as_mut_slice());
    Ok(Bytes::from_vec(made))
}

/// What the target that keeps the part of an index is asked. Takes the part's bytes.
fn ask_for(alloc: Global, work: &ObjWork, index: u8) -> Result<PeerAsk, NoMemory>
    requires work { IsWork work.now }
    requires index { index < TARGETS_MAX }
    ensures { IfOk result (λ ask. ask ≡ ask_for work.now index) }
{
    let key = Key {
        oid: work.oid(),
        index,
    };
    let policy = work.policy();
    let kind = work.oid().kind();
    Ok(match work {
        ObjWork::Create {
            length,
            offset,
            bytes,
            ..
        } => PeerAsk::Create {
            key,
            length: size_in_part(policy, kind, *length),
            offset: size_in_part(policy, kind, *offset),
            bytes: part_of(alloc, policy, kind, index, bytes.as_slice())?,
        },
        ObjWork::Write { offset, bytes, .. } => PeerAsk::Write {
            key,
            offset: size_in_part(policy, kind, *offset),
            bytes: part_of(alloc, policy, kind, index, bytes.as_slice())?,
        },
        ObjWork::Read { offset, length, .. } => PeerAsk::Read {
            key,
            offset: size_in_part(policy, kind, *offset),
            length: size_in_part(policy, kind, *length),
        },
        ObjWork::ReadAll { length, .. } => PeerAsk::Read {
            key,
            offset: 0,
            length: size_in_part(policy, kind, *length),
        },
    })
}

/// Whether a piece is as long as a read asks for.
pub(crate) fn is_piece(work: &ObjWork, n: usize) -> bool
    requires { IsWork work.now }
    ensures { result ≡ is_piece work.now n }
{
    match work {
        ObjWork::Create { .. } => false,
        ObjWork::Write { .. } => false,
        ObjWork::Read {
            oid,
            policy,
            length,
            ..
        } => n == part_size(*policy, oid.kind(), *length as usize),
        ObjWork::ReadAll {
            oid,
            policy,
            length,
        } => n == part_size(*policy, oid.kind(), *length as usize),
    }
}

/// The message of a number to the target at a place of the target list.
fn message_for(work: &ObjWork, number: u32, place: u8, node: NodeId) -> Message
    ensures { result ≡ message_for work.now (number, (place, node)) }
{
    let index = if is_in_strips(work.policy(), work.oid().kind()) {
        place
    } else {
        0
    };
    Message {
        number,
        node,
        index,
        status: Status::Unanswered,
    }
}

/// A message to each target.
fn messages_to_all(
    alloc: Global,
    work: &ObjWork,
    first: u32,
    targets: &[NodeId],
) -> Result<Messages, NoMemory>
    requires few { length targets.now ≤ TARGETS_MAX }
    requires room { first ≤ 2 ^ 32 - NODES_MAX }
    ensures { IfOk result (λ messages. messages
        ≡ map (message_for work.now) (enumerate_from first (enumerate_from 0 targets.now))) }
{
    let mut messages = Messages::new(alloc);
    for place in 0..targets.len() {
        messages.push(message_for(work, first + place as u32, place as u8, targets[place]))?;
    }
    Ok(messages)
}

/// A message to the one target whose turn it is.
fn message_in_turn(
    alloc: Global,
    work: &ObjWork,
    ended: u64,
    first: u32,
    targets: &[NodeId],
) -> Result<Messages, NoMemory>
    requires some { 0 < length targets.now }
    requires few { length targets.now ≤ TARGETS_MAX }
    requires one { asks_all work.now ≡ false }
    ensures { IfOk result (λ messages. messages ≡ messages_of work.now ended first targets.now) }
{
    let place = (ended % targets.len() as u64) as usize;
    let mut messages = Messages::new(alloc);
    messages.push(message_for(work, first, place as u8, targets[place]))?;
    Ok(messages)
}

/// The messages of a work's attempt, after so many that ended. Takes one for each target that it asks.
pub(crate) fn messages_of(
    alloc: Global,
    work: &ObjWork,
    ended: u64,
    first: u32,
    targets: &[NodeId],
) -> Result<Messages, NoMemory>
    requires some { 0 < length targets.now }
    requires few { length targets.now ≤ TARGETS_MAX }
    requires room { first ≤ 2 ^ 32 - NODES_MAX }
    ensures { IfOk result (λ messages. messages ≡ messages_of work.now ended first targets.now) }
{
    if asks_all(work) {
        messages_to_all(alloc, work, first, targets)
    } else {
        message_in_turn(alloc, work, ended, first, targets)
    }
}

/// How a message is sent. Takes the bytes of what it asks for.
fn send_of(
    alloc: Global,
    me: NodeId,
    epoch: Epoch,
    work: &ObjWork,
    message: &Message,
) -> Result<(NodeId, PeerReq), NoMemory>
    requires work { IsWork work.now }
    requires index { message.now.index < TARGETS_MAX }
    ensures { IfOk result (λ send. send ≡ send_of me epoch work.now message.now) }
{
    let req = PeerReq {
        from: me,
        number: message.number,
        epoch,
        ask: ask_for(alloc, work, message.index)?,
    };
    Ok((message.node, req))
}

/// How the messages of an attempt are sent.
pub(crate) fn sends_of(
    alloc: Global,
    me: NodeId,
    epoch: Epoch,
    work: &ObjWork,
    messages: &[Message],
) -> Result<SendList, NoMemory>
    requires work { IsWork work.now }
    requires indexes { IndexesFit messages.now }
    ensures { IfOk result (λ sends. sends ≡ map (send_of me epoch work.now) messages.now) }
{
    let mut sends = SendList::new(alloc);
    for message in messages {
        sends.push(send_of(alloc, me, epoch, work, message)?)?;
    }
    Ok(sends)
}
