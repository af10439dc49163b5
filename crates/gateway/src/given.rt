//! The bytes that a done work gives.

ghost use Rattle.std.specs.Prelude.{◌≡◌, ◌≤◌, true, length, map, take, flat_map, IfOk, IsOk, OnOk};
ghost use Rattle.object_id.specs.Policy.{IsPolicy, need_of};
ghost use Rattle.gf256.specs.Part.{IsAligned, part_size};
ghost use Rattle.gf256.specs.Polynomial.{ArePoints};
ghost use Rattle.peer_proto.specs.Work.{IsWork};
ghost use Rattle.gateway.specs.declared.message.Message.{Message as TheMessage};
ghost use Rattle.gateway.specs.Attempt.{is_done, successes, bytes_in, bytes_through, bytes_given};
ghost use Rattle.gateway.specs.Work.{is_making};
ghost use Rattle.gateway.specs.Messages.{AreMessagesFor, HaveLength, indexes_with, bytes_with};

use crate::message::Message;
use object_id::{Bytes, Kind, NoMemory, Policy};
use peer_proto::ObjWork;
use std::alloc::Global;
use strip_lanes::bytes_of_parts;

/// The first parts that came, one behind the other, and their indexes.
#[derive(Drop)]
struct Parts {
    indexes: Vec<u8>,
    bytes: Vec<u8>,
}

/// Adds the part that a message gave, if it gave one and some are missing.
fn add_part(parts: &mut Parts, need: usize, message: &Message) -> Result<(), NoMemory>
    ensures indexes { OnOk result (parts.new.indexes.items ≡ indexes_with need message.now parts.old.indexes.items) }
    ensures bytes { OnOk result (parts.new.bytes.items ≡ bytes_with need message.now parts.old.indexes.items parts.old.bytes.items) }
{
    if parts.indexes.len() < need && message.status.is_success() {
        parts.indexes.push(message.index)?;
        parts.bytes.extend_from_slice(message.status.bytes())?;
    }
    Ok(())
}

/// The first parts that came, as many as are needed.
fn first_parts(alloc: Global, need: usize, messages: &[Message]) -> Result<Parts, NoMemory>
    ensures indexes { IfOk result (λ parts. parts.indexes.items
        ≡ map (λ (message : TheMessage). message.index) (take need (successes messages.now))) }
    ensures bytes { IfOk result (λ parts. parts.bytes.items
        ≡ flat_map (λ (message : TheMessage). bytes_in message.status) (take need (successes messages.now))) }
{
    let mut parts = Parts {
        indexes: Vec::new(alloc),
        bytes: Vec::new(alloc),
    };
    for message in messages {
        add_part(&mut parts, need, message)?;
    }
    Ok(parts)
}

/// The bytes of a read by the first parts that came. Takes them, and the memory of the parts as long as it joins them.
fn joined(
    alloc: Global,
    policy: Policy,
    kind: Kind,
    size: usize,
    messages: &[Message],
) -> Result<Bytes, NoMemory>
    requires policy { IsPolicy policy }
    requires aligned { IsAligned policy kind size }
    requires enough { need_of policy kind ≤ length (successes messages.now) }
    requires indexes { ArePoints (map (λ (message : TheMessage). message.index) messages.now) }
    requires pieces { HaveLength (part_size policy kind size) messages.now }
    ensures { IfOk result (λ bytes. bytes ≡ bytes_through policy kind (take (need_of policy kind) (successes messages.now))) }
{
    let need = policy.need(kind) as usize;
    let parts = first_parts(alloc, need, messages)?;
    let mut bytes = Vec::new(alloc);
    bytes.resize(size, 0)?;
    bytes_of_parts(
        policy,
        kind,
        parts.indexes.as_slice(),
        parts.bytes.as_slice(),
        bytes.as_mut_slice(),
    );
    Ok(Bytes::from_vec(bytes))
}

/// The pieces of all messages, one behind the other.
fn all_pieces(alloc: Global, messages: &[Message]) -> Result<Bytes, NoMemory>
    ensures { IfOk result (λ bytes. bytes ≡ flat_map (λ (message : TheMessage). bytes_in message.status) messages.now) }
{
    let mut bytes = Vec::new(alloc);
    for message in messages {
        bytes.extend_from_slice(message.status.bytes())?;
    }
    Ok(Bytes::from_vec(bytes))
}

/// What a done work gives. Takes the bytes of a read, and no memory for any other work.
pub(crate) fn bytes_given(
    alloc: Global,
    work: &ObjWork,
    messages: &[Message],
) -> Result<Bytes, NoMemory>
    requires work { IsWork work.now }
    requires messages { AreMessagesFor work.now messages.now }
    requires done { is_done work.now messages.now ≡ true }
    ensures given { IfOk result (λ bytes. bytes ≡ bytes_given work.now messages.now) }
    ensures memory { is_making work.now ≡ true → IsOk result }
{
    match work {
        ObjWork::Create { .. } => Ok(Bytes::new(alloc)),
        ObjWork::Write { .. } => Ok(Bytes::new(alloc)),
        ObjWork::Read {
            oid,
            policy,
            length,
            ..
        } => joined(alloc, *policy, oid.kind(), *length as usize, messages),
        ObjWork::ReadAll { .. } => all_pieces(alloc, messages),
    }
}
