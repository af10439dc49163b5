//! What a delivered message comes to, read before the node steps on it.

ghost use Rattle.std.specs.Prelude.{◌≡◌, ◌≢◌, IfOk, IsOk};
ghost use Rattle.std.specs.Option.{option_copied};
ghost use Rattle.peer_proto.specs.declared.fault.PeerFault.TheVariants as faults;
ghost use Rattle.peer_proto.specs.Ask.{ask_in};
ghost use Rattle.peer_proto.specs.Say.{say_in};
ghost use Rattle.sheep_world.specs.declared.delivery.Delivery.TheVariants.{Unreadable};
ghost use Rattle.sheep_world.specs.Deliveries.{delivery_of_request, delivery_of_reply, delivery_of};

use message_wire::Packet;
use object_id::{NoMemory, NodeId};
use peer_proto::{PeerFault, PeerReq, PeerRsp, decode_ask, decode_say};
use std::alloc::Global;

/// A message as its receiver reads it.
#[derive(Debug, Drop)]
pub(crate) enum Delivery {
    /// There is no message of this name.
    NoMessage,
    /// Its bytes are no message's.
    Unreadable,
    /// A request, for this node.
    Request { to: NodeId, request: PeerReq },
    /// A reply, for the node that sent the request.
    Reply(PeerRsp),
}

/// What bytes come to that a codec refused: they are no message's, unless memory was wanting.
fn unreadable(fault: PeerFault) -> Result<Delivery, NoMemory>
    ensures unreadable { IfOk result (λ delivery. delivery ≡ Unreadable) }
    ensures refused { IsOk result → fault ≢ faults.NoMemory }
{
    match fault {
        PeerFault::NoMemory => Err(NoMemory),
        _ => Ok(Delivery::Unreadable),
    }
}

/// A request to a node, as its bytes have it. Takes memory for what it carries.
fn delivery_of_request(alloc: Global, to: NodeId, bytes: &[u8]) -> Result<Delivery, NoMemory>
    ensures { IfOk result (λ delivery. delivery ≡ delivery_of_request to (ask_in bytes.now)) }
{
    match decode_ask(alloc, bytes) {
        Ok(request) => Ok(Delivery::Request { to, request }),
        Err(fault) => unreadable(fault),
    }
}

/// A reply, as its bytes have it. Takes memory for what it carries.
fn delivery_of_reply(alloc: Global, bytes: &[u8]) -> Result<Delivery, NoMemory>
    ensures { IfOk result (λ delivery. delivery ≡ delivery_of_reply (say_in bytes.now)) }
{
    match decode_say(alloc, bytes) {
        Ok(rsp) => Ok(Delivery::Reply(rsp)),
        Err(fault) => unreadable(fault),
    }
}

/// What a message comes to, if it is there.
pub(crate) fn delivery_of(alloc: Global, packet: Option<&Packet>) -> Result<Delivery, NoMemory>
    ensures { IfOk result (λ delivery. delivery ≡ delivery_of (option_copied packet.entry)) }
{
    match packet {
        None => Ok(Delivery::NoMessage),
        Some(Packet::Request { to, bytes }) => delivery_of_request(alloc, *to, bytes.as_slice()),
        Some(Packet::Reply { from: _, bytes }) => delivery_of_reply(alloc, bytes.as_slice()),
    }
}
