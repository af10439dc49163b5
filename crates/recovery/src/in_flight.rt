//! The messages of a recovery that aren't answered. A tick sends its messages only if there are none, so all of them are of one tick
//! and ask for the same: only the nodes that they go to are kept, by their numbers.

ghost use Rattle.std.specs.Prelude.{◌≡◌, ◌<◌, ◌≤◌, ◌^◌, ◌+◌, ℕ, true, false, [], length, map, IfOk, Some};
ghost use Rattle.std.specs.Prelude.{slice_index_or, not, ◌==◌};
ghost use Rattle.std.specs.List.{enumerate_from, find};
ghost use Rattle.std.specs.Option.{option_map};
ghost use Rattle.object_id.specs.declared.node.NodeId.{NodeId as TheNode};
ghost use Rattle.recovery.specs.State.{Message};
ghost use Rattle.recovery.specs.Kept.{ask_of, message_to, messages_in, no_messages};
ghost use Rattle.recovery.specs.Kept.{node_of, sent_without, has_sent_number, has_others as has_other_nodes};
ghost use Rattle.recovery.specs.Kept.{flight_without, current_node, is_current_read, AscendByNumber};

use object_id::{Epoch, NoMemory, NodeId, Oid};
use peer_proto::{PeerAsk, PeerReq, SendList};
use std::alloc::Global;
use std::marker::Model;

/// What the messages of a tick ask for.
#[derive(Clone, Copy, Debug, PartialEq, Eq)]
pub enum Asked {
    /// The ids of all objects that the node has rows of.
    Lists,
    /// The object's row that holds the level, of an index below the wanted number.
    Rows { oid: Oid, level: Epoch, wanted: u8 },
}

/// The messages that aren't answered. Contracts see a record.
pub(crate) struct InFlight {
    asked: Asked,
    epoch: Epoch,
    is_older: bool,
    /// The number of each message with the node that it goes to, by ascending numbers.
    nodes: Vec<(u32, NodeId)>,
}

/// Written out, so that letting one go is one call wherever it is done, and no cases there.
impl Drop for InFlight {
    fn drop(self) {
        let InFlight {
            asked,
            epoch: _,
            is_older: _,
            nodes,
        } = self;
        drop(asked);
        drop(nodes);
    }
}

impl Model for InFlight {
    ghost use Rattle.recovery.specs.Kept.{InFlight as TheInFlight, AscendByNumber};

    ghost Value = { TheInFlight };

    ghost view = { λ flight. record {
      asked = flight.asked;
      epoch = flight.epoch.0;
      is_older = flight.is_older;
      nodes = flight.nodes.items;
    } };

    ghost invariant = { λ flight. AscendByNumber flight.nodes.items };
}

/// What messages of this kind ask for.
fn ask_of(asked: &Asked) -> PeerAsk
    ensures { result ≡ ask_of asked.now }
{
    match asked {
        Asked::Lists => PeerAsk::List,
        Asked::Rows { oid, level, .. } => PeerAsk::RecoverRead {
            oid: *oid,
            level: *level,
        },
    }
}

/// A message as it is sent.
fn send_of(me: NodeId, epoch: Epoch, asked: &Asked, sent: (u32, NodeId)) -> (NodeId, PeerReq)
    ensures to { result.0 ≡ (message_to me epoch.0 asked.now sent).to }
    ensures request { result.1 ≡ (message_to me epoch.0 asked.now sent).request }
{
    let req = PeerReq {
        from: me,
        number: sent.0,
        epoch,
        ask: ask_of(asked),
    };
    (sent.1, req)
}

/// Nodes with numbers upwards from `first`.
fn numbered(alloc: Global, first: u32, nodes: &[NodeId]) -> Result<Vec<(u32, NodeId)>, NoMemory>
    requires { first + length nodes.now ≤ 2 ^ 32 }
    ensures { IfOk result (λ sent. sent.items ≡ enumerate_from first nodes.now) }
{
    let mut sent = Vec::new(alloc);
    for place in 0..nodes.len() {
        sent.push((first + place as u32, nodes[place]))?;
    }
    Ok(sent)
}

/// The place of the first message whose number isn't below this one. Costs the logarithm of the messages.
fn place_of(sent: &[(u32, NodeId)], number: u32) -> usize
    requires { AscendByNumber sent.now }
    ensures within { result ≤ length sent.now }
    ensures before { (k : ℕ) (d : ℕ × TheNode) → k < result → (slice_index_or sent.now k d).0 < number }
    ensures behind { (k : ℕ) (d : ℕ × TheNode) → result ≤ k → k < length sent.now → number ≤ (slice_index_or sent.now k d).0 }
{
    sent.partition_point(|message| message.0 < number)
}

/// The place of the message of a number. Costs the logarithm of the messages.
fn find(sent: &[(u32, NodeId)], number: u32) -> Option<NodeId>
    requires { AscendByNumber sent.now }
    ensures { result ≡ node_of number sent.now }
{
    let place = place_of(sent, number);
    if place < sent.len() && sent[place].0 == number {
        Some(sent[place].1)
    } else {
        None
    }
}

/// Removes the message of a number. Costs the logarithm of the messages, and a move of those behind it.
fn remove(sent: &mut Vec<(u32, NodeId)>, number: u32)
    requires { AscendByNumber sent.old.items }
    ensures { sent.new.items ≡ sent_without number sent.old.items }
{
    let place = place_of(sent.as_slice(), number);
    if find(sent.as_slice(), number).is_some() {
        sent.remove(place);
    }
}

impl InFlight {
    /// No message. Takes no memory.
    pub fn none(alloc: Global) -> InFlight
        ensures { result ≡ no_messages }
    {
        InFlight {
            asked: Asked::Lists,
            epoch: Epoch(1),
            is_older: false,
            nodes: Vec::new(alloc),
        }
    }

    /// A message to each of the nodes, numbered upwards from `first`. Takes the numbers and nodes.
    pub fn to_all(
        alloc: Global,
        asked: Asked,
        epoch: Epoch,
        first: u32,
        nodes: &[NodeId],
    ) -> Result<InFlight, NoMemory>
        requires { first + length nodes.now ≤ 2 ^ 32 }
        ensures { IfOk result (λ flight. flight ≡ record {
          asked = asked;
          epoch = epoch.0;
          is_older = false;
          nodes = enumerate_from first nodes.now;
        }) }
    {
        let nodes = numbered(alloc, first, nodes)?;
        Ok(InFlight {
            asked,
            epoch,
            is_older: false,
            nodes,
        })
    }

    pub fn asked(&self) -> Asked
        ensures { result ≡ self.now.asked }
    {
        self.asked
    }

    pub fn is_empty(&self) -> bool
        ensures { result ≡ (length self.now.nodes == 0) }
    {
        self.nodes.as_slice().is_empty()
    }

    /// The node that the message of a number goes to. Costs the logarithm of the messages.
    pub fn node(&self, number: u32) -> Option<NodeId>
        ensures { result ≡ node_of number self.now.nodes }
    {
        find(self.nodes.as_slice(), number)
    }

    /// The same, if the message is of the recovery itself.
    pub fn current_node(&self, number: u32) -> Option<NodeId>
        ensures { result ≡ current_node number self.now }
    {
        if self.is_older {
            None
        } else {
            self.node(number)
        }
    }

    /// Whether the messages are of the recovery itself and ask for rows of this object.
    pub fn is_current_read(&self, oid: Oid) -> bool
        ensures { result ≡ is_current_read oid self.now }
    {
        if self.is_older {
            return false;
        }
        match self.asked {
            Asked::Lists => false,
            Asked::Rows { oid: other, .. } => other == oid,
        }
    }

    /// Whether there is a message beside that of a number. Looks at no more than two messages.
    pub fn has_others(&self, number: u32) -> bool
        ensures { result ≡ has_other_nodes number self.now.nodes }
    {
        has_others(self.nodes.as_slice(), number)
    }

    /// The message of a number is answered. Takes no memory.
    pub fn remove(&mut self, number: u32)
        ensures { self.new ≡ flight_without number self.old }
    {
        remove(&mut self.nodes, number);
    }

    /// A newer recovery begins. Takes no memory.
    pub fn grow_old(&mut self)
        ensures { self.new ≡ record self.old { is_older = true } }
    {
        self.is_older = true;
    }

    /// How the messages are sent. Takes them.
    pub fn sends(&self, alloc: Global, me: NodeId) -> Result<SendList, NoMemory>
        ensures { IfOk result (λ sends. sends ≡ map (λ (message : Message). (message.to, message.request)) (messages_in me self.now)) }
    {
        sends_of(alloc, me, self.epoch, &self.asked, self.nodes.as_slice())
    }
}

fn has_others(sent: &[(u32, NodeId)], number: u32) -> bool
    ensures { result ≡ has_other_nodes number sent.now }
{
    sent.iter().any(|message| message.0 != number)
}

fn sends_of(
    alloc: Global,
    me: NodeId,
    epoch: Epoch,
    asked: &Asked,
    sent: &[(u32, NodeId)],
) -> Result<SendList, NoMemory>
    ensures { IfOk result (λ sends. sends
        ≡ map (λ (message : Message). (message.to, message.request)) (map (message_to me epoch.0 asked.now) sent.now)) }
{
    let mut sends = SendList::new(alloc);
    for message in sent {
        sends.push(send_of(me, epoch, asked, *message))?;
    }
    Ok(sends)
}
