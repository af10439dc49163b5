ghost use Rattle.std.specs.Prelude.{◌≡◌, ℕ, T, OnOk, OnErr, slice_get};
ghost use Rattle.std.specs.Ordering.{nat_cmp};
ghost use Rattle.std.specs.List.{list_any, list_all};
ghost use Rattle.std.specs.Option.{option_copied, option_map};
ghost use Rattle.std.specs.FinMap as tree;
ghost use Rattle.message_wire.specs.declared.packet.Packet.{Packet as ThePacket};
ghost use Rattle.message_wire.specs.Message.{asked_node, has_end, is_reply, message_name};
ghost use Rattle.message_wire.specs.NodeSet.{contains_node};
ghost use Rattle.message_wire.specs.Senders.{requests_among};

use crate::end_counts::{EndCounts, count_ends};
use crate::entries::{entry_at, put, take, value_at};
use crate::name::MessageName;
use crate::node_set::NodeSet;
use crate::packet::Packet;
use object_id::{NoMemory, NodeId};
use std::alloc::Global;
use std::marker::Model;

/// The messages of one sender, by number, and how many of them ask each node. Contracts see the finite map.
pub(crate) struct SenderMessages {
    messages: Vec<(u32, Packet)>,
    ends: EndCounts,
}

/// Written out, so that letting one go is one call wherever it is done, and no cases there.
impl Drop for SenderMessages {
    fn drop(self) {
        let SenderMessages { messages, ends } = self;
        drop(messages);
        drop(ends);
    }
}

impl Model for SenderMessages {
    ghost use Rattle.std.specs.Prelude.{T};
    ghost use Rattle.std.specs.Coded.{codes, coded_ℕ};
    ghost use Rattle.std.specs.FinMap as tree;
    ghost use Rattle.std.specs.Ordering.{nat_cmp};
    ghost use Rattle.message_wire.specs.declared.packet.Packet.{Packet};
    ghost use Rattle.message_wire.specs.NodeSet.{AreEndCounts};

    ghost Value = { tree.FinMap nat_cmp Packet };

    ghost coded = { tree.code coded_ℕ (Prim.hlevel codes) };

    ghost view = { λ own. tree.from_sorted own.messages.items };

    ghost invariant = { λ own. T (tree.is_sorted nat_cmp own.messages.items) × AreEndCounts own.messages.items own.ends };
}

impl SenderMessages {
    pub fn new(alloc: Global) -> SenderMessages
        ensures { result ≡ tree.empty }
    {
        SenderMessages {
            messages: Vec::new(alloc),
            ends: EndCounts::new(),
        }
    }

    pub fn len(&self) -> usize
        ensures { result ≡ tree.len self.now }
    {
        self.messages.len()
    }

    pub fn get(&self, number: u32) -> Option<&Packet>
        ensures { option_copied result ≡ tree.get self.now number }
    {
        value_at(self.messages.as_slice(), number)
    }

    /// The message at a place, in the order of the numbers, with its number.
    pub fn at(&self, place: usize) -> Option<&(u32, Packet)>
        ensures { option_copied result ≡ slice_get (tree.entries self.now) place }
    {
        entry_at(self.messages.as_slice(), place)
    }

    pub fn put(&mut self, number: u32, packet: Packet) -> Result<(), NoMemory>
        ensures ok { OnOk result (self.new ≡ tree.insert self.old number packet) }
        ensures err { OnErr result (self.new ≡ self.old) }
    {
        let asked = packet.asked_node();
        let replaced = asked_at(self.messages.as_slice(), number);
        put(&mut self.messages, number, packet)?;
        self.ends.subtract_if_any(replaced);
        self.ends.add(asked);
        Ok(())
    }

    pub fn take(&mut self, number: u32) -> Option<Packet>
        ensures value { result ≡ tree.get self.old number }
        ensures others { self.new ≡ tree.remove self.old number }
    {
        let packet = take(&mut self.messages, number)?;
        self.ends.subtract(packet.asked_node());
        Some(packet)
    }

    /// Drops the replies to the sender.
    pub fn drop_replies(&mut self, sender: u32)
        ensures { self.new ≡ requests_among sender self.old }
    {
        self.messages.retain(|message| !message.1.is_reply());
        self.ends = count_ends(self.messages.as_slice());
    }

    /// Whether all nodes that the messages ask are in a set. Costs nothing.
    pub fn are_ends_within(&self, nodes: NodeSet) -> bool
        ensures { result ≡ list_all (λ (message : ℕ × ThePacket). contains_node (asked_node message.1).0 nodes) (tree.entries self.now) }
    {
        self.ends.are_within(nodes)
    }

    /// Whether a node is an end of one of the messages of this sender.
    pub fn has_end(&self, sender: u32, node: NodeId) -> bool
        ensures { result ≡ list_any (λ (message : ℕ × ThePacket). has_end node.0 (message_name sender message.0) message.1)
            (tree.entries self.now) }
    {
        any_has_end(self.messages.as_slice(), sender, node)
    }
}

/// The node that the message of a number asks.
fn asked_at(messages: &[(u32, Packet)], number: u32) -> Option<NodeId>
    requires { T (tree.is_sorted nat_cmp messages.now) }
    ensures { result ≡ option_map asked_node (tree.find nat_cmp number messages.now) }
{
    match value_at(messages, number) {
        Some(packet) => Some(packet.asked_node()),
        None => None,
    }
}

fn any_has_end(messages: &[(u32, Packet)], sender: u32, node: NodeId) -> bool
    ensures { result ≡ list_any (λ (message : ℕ × ThePacket). has_end node.0 (message_name sender message.0) message.1) messages.now }
{
    messages.iter().any(|message| message.1.has_end(message_name(sender, message.0), node))
}

/// The name of a sender's message.
pub(crate) fn message_name(sender: u32, number: u32) -> MessageName
    ensures { result ≡ message_name sender number }
{
    MessageName {
        sender: NodeId(sender),
        number,
    }
}
