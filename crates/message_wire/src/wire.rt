ghost use Rattle.std.specs.Prelude.{◌≡◌, ◌==◌, ℕ, true, List, [], length, unwrap_or, slice_get, OnOk, OnErr};
ghost use Rattle.std.specs.List.{list_any, list_all};
ghost use Rattle.std.specs.Option.{option_map, option_and_then, option_copied, IfSome};
ghost use Rattle.std.specs.FinMap as tree;
ghost use Rattle.message_wire.specs.declared.name.MessageName.{MessageName as TheName};
ghost use Rattle.message_wire.specs.declared.packet.Packet.{Packet as ThePacket};
ghost use Rattle.message_wire.specs.Message.{asked_node, has_end, without_replies, messages_by_sender, first_sender};
ghost use Rattle.message_wire.specs.NodeSet.{contains_node};

use crate::entries::entry_at;
use crate::name::MessageName;
use crate::node_set::NodeSet;
use crate::packet::Packet;
use crate::sender_messages::{SenderMessages, message_name};
use crate::senders;
use object_id::{NoMemory, NodeId};
use std::alloc::Global;
use std::marker::Model;

/// The messages that are on their way, by name. Contracts see the finite map. Each sender's messages stand together, in the order of
/// their numbers: a look-up costs two searches, by sender and by number.
pub struct Wire {
    by_sender: Vec<(u32, SenderMessages)>,
}

/// Written out, so that letting one go is one call wherever it is done, and no cases there.
impl Drop for Wire {
    fn drop(self) {
        let Wire { by_sender } = self;
        drop(by_sender);
    }
}

impl Model for Wire {
    ghost use Rattle.std.specs.Coded.{codes};
    ghost use Rattle.std.specs.FinMap as tree;
    ghost use Rattle.message_wire.specs.declared.packet.Packet.{Packet};
    ghost use Rattle.message_wire.specs.Message.{name_cmp};
    ghost use Rattle.message_wire.specs.Senders.{AreSenders, wire_of};

    ghost Value = { tree.FinMap name_cmp Packet };

    ghost coded = { tree.code (Prim.hlevel codes) (Prim.hlevel codes) };

    ghost view = { λ wire. wire_of wire.by_sender.items };

    ghost invariant = { λ wire. AreSenders wire.by_sender.items };
}

impl Wire {
    /// The wire without messages. Takes no memory.
    pub fn new(alloc: Global) -> Wire
        ensures { result ≡ tree.empty }
    {
        Wire {
            by_sender: Vec::new(alloc),
        }
    }

    /// The message of a name. Costs a look-up.
    pub fn get(&self, name: MessageName) -> Option<&Packet>
        ensures { option_copied result ≡ tree.get self.now name }
    {
        senders::message_of(self.by_sender.as_slice(), name)
    }

    /// A message enters the wire, in the place of one of the same name. Costs a few look-ups, and a move of the messages of its sender with
    /// greater numbers. Without memory the wire stays.
    pub fn put(&mut self, name: MessageName, packet: Packet) -> Result<(), NoMemory>
        ensures ok { OnOk result (self.new ≡ tree.insert self.old name packet) }
        ensures err { OnErr result (self.new ≡ self.old) }
    {
        senders::put_message(&mut self.by_sender, name, packet)
    }

    /// A message leaves the wire. Takes no memory. Costs a look-up, and a move of the messages of its sender with greater numbers.
    pub fn take(&mut self, name: MessageName) -> Option<Packet>
        ensures value { result ≡ tree.get self.old name }
        ensures others { self.new ≡ tree.remove self.old name }
    {
        senders::take_message(&mut self.by_sender, name)
    }

    /// The replies to a node leave the wire. Takes no memory. Costs the messages of which it is the sender.
    pub fn drop_replies_to(&mut self, node: NodeId)
        ensures { self.new ≡ without_replies node.0 self.old }
    {
        senders::drop_replies_to(&mut self.by_sender, node.0);
    }

    /// Whether a node is an end of a message. Costs all messages.
    pub fn has_end(&self, node: NodeId) -> bool
        ensures { result ≡ list_any (λ (found : TheName × ThePacket). has_end node.0 found.0 found.1) (tree.entries self.now) }
    {
        senders::has_end(self.by_sender.as_slice(), node)
    }

    /// How many senders have messages: the parts of the messages by sender. Costs nothing.
    pub fn sender_count(&self) -> usize
        ensures { result ≡ length (messages_by_sender (tree.entries self.now)) }
    {
        self.by_sender.len()
    }

    /// How many messages the sender at a place has, in the order of the senders; none past the last. Costs nothing.
    pub fn count_at(&self, sender: usize) -> usize
        ensures { result ≡ length (unwrap_or (slice_get (messages_by_sender (tree.entries self.now)) sender) []) }
    {
        match entry_at(self.by_sender.as_slice(), sender) {
            Some(own) => own.1.len(),
            None => 0,
        }
    }

    /// The sender at a place, in the order of the senders: each of the messages there is its. Costs nothing.
    pub fn sender_at(&self, sender: usize) -> Option<NodeId>
        ensures first { result ≡ option_map first_sender (slice_get (messages_by_sender (tree.entries self.now)) sender) }
        ensures each { IfSome result (λ node. list_all (λ (found : TheName × ThePacket). found.0.sender.0 == node.0)
            (unwrap_or (slice_get (messages_by_sender (tree.entries self.now)) sender) []) ≡ true) }
    {
        match entry_at(self.by_sender.as_slice(), sender) {
            Some(own) => Some(NodeId(own.0)),
            None => None,
        }
    }

    /// Whether all nodes that the messages of the sender at a place ask are in a set, which none of 64 or more is; so it is past the
    /// last. Costs nothing.
    pub fn are_ends_within(&self, sender: usize, nodes: NodeSet) -> bool
        ensures { result ≡ list_all (λ (found : TheName × ThePacket). contains_node (asked_node found.1).0 nodes)
            (unwrap_or (slice_get (messages_by_sender (tree.entries self.now)) sender) []) }
    {
        match entry_at(self.by_sender.as_slice(), sender) {
            Some(own) => own.1.are_ends_within(nodes),
            None => true,
        }
    }

    /// The message at a place among those of the sender at a place, in the order of their numbers, with its name. Costs nothing.
    pub fn message_at(&self, sender: usize, place: usize) -> Option<(MessageName, &Packet)>
        ensures { option_map (λ found. (found.0, found.1.now)) result
            ≡ option_and_then (λ (own : List (TheName × ThePacket)). slice_get own place)
            (slice_get (messages_by_sender (tree.entries self.now)) sender) }
    {
        let Some(own) = entry_at(self.by_sender.as_slice(), sender) else {
            return None;
        };
        let Some(message) = own.1.at(place) else {
            return None;
        };
        Some((message_name(own.0, message.0), &message.1))
    }
}
