ghost use Rattle.std.specs.Prelude.{◌≡◌};
ghost use Rattle.message_wire.specs.Message.{asked_node, receiver_of, has_end, is_reply};

use crate::name::MessageName;
use object_id::{Bytes, NodeId};

/// A message in the wire, as its bytes.
#[derive(Debug)]
pub enum Packet {
    /// A request on its way to a node.
    Request { to: NodeId, bytes: Bytes },
    /// That node's reply on its way back.
    Reply { from: NodeId, bytes: Bytes },
}

/// Written out, so that letting one go is one call wherever it is done, and no cases there.
impl Drop for Packet {
    fn drop(self) {
        match self {
            Packet::Request { to: _, bytes } => drop(bytes),
            Packet::Reply { from: _, bytes } => drop(bytes),
        }
    }
}

impl Packet {
    /// The node that a request goes to, and that a reply comes from.
    pub fn asked_node(&self) -> NodeId
        ensures { result ≡ asked_node self.now }
    {
        match self {
            Packet::Request { to, bytes: _ } => *to,
            Packet::Reply { from, bytes: _ } => *from,
        }
    }

    /// Who gets the message of this name.
    pub fn receiver(&self, name: MessageName) -> NodeId
        ensures { result ≡ receiver_of name self.now }
    {
        match self {
            Packet::Request { to, bytes: _ } => *to,
            Packet::Reply { from: _, bytes: _ } => name.sender,
        }
    }

    /// Whether this is a reply on its way back.
    pub fn is_reply(&self) -> bool
        ensures { result ≡ is_reply self.now }
    {
        match self {
            Packet::Request { to: _, bytes: _ } => false,
            Packet::Reply { from: _, bytes: _ } => true,
        }
    }

    /// Whether a node is an end of the message of this name: its sender, or the node that it asks.
    pub fn has_end(&self, name: MessageName, node: NodeId) -> bool
        ensures { result ≡ has_end node.0 name self.now }
    {
        name.sender.0 == node.0 || self.asked_node().0 == node.0
    }
}
