ghost use Rattle.std.specs.Prelude.{◌≡◌, ◌==◌, ◌<◌, ◌+◌, ◌^◌, ℕ, true, ◌↔◌, get_or};
ghost use Rattle.std.specs.Option.{IfSome};
ghost use Rattle.message_wire.specs.NodeSet.{contains_node, end_place, one_end, maybe_end, AreEndCounts};

use crate::node_set::NodeSet;
use crate::packet::Packet;
use object_id::NodeId;
use std::marker::Model;

/// The place of the nodes of 64 or more, which are counted together.
const BEYOND: usize = 64;

/// How many places there are.
const PLACES: usize = 65;

/// How many messages of a sender have each node as their other end. Contracts see the counts by place: a node's is its number, and all
/// of 64 or more have one behind the others.
#[derive(Drop)]
pub(crate) struct EndCounts {
    counts: [usize; PLACES],
    nodes: NodeSet,
}

impl Model for EndCounts {
    ghost use Rattle.std.specs.Prelude.{ℕ, List};
    ghost use Rattle.message_wire.specs.NodeSet.{AreCountsWith};

    ghost Value = { List ℕ };

    ghost view = { λ ends. ends.counts };

    ghost invariant = { λ ends. AreCountsWith ends.counts ends.nodes };
}

impl EndCounts {
    pub fn new() -> EndCounts
        ensures { (place : ℕ) → get_or result place 0 ≡ 0 }
    {
        EndCounts {
            counts: [0; PLACES],
            nodes: NodeSet::new(),
        }
    }

    /// Counts one more message that asks a node.
    pub fn add(&mut self, node: NodeId)
        requires { get_or self.old (end_place node.0) 0 + 1 < 2 ^ 64 }
        ensures { (place : ℕ) → get_or self.new place 0 ≡ get_or self.old place 0 + one_end node.0 place }
    {
        self.counts[end_place(node)] += 1;
        self.nodes.insert(node);
    }

    /// Counts one message less that asks a node.
    pub fn subtract(&mut self, node: NodeId)
        requires { 0 < get_or self.old (end_place node.0) 0 }
        ensures { (place : ℕ) → get_or self.new place 0 + one_end node.0 place ≡ get_or self.old place 0 }
    {
        let place = end_place(node);
        let left = self.counts[place] - 1;
        self.counts[place] = left;
        if left == 0 {
            self.nodes.remove(node);
        }
    }

    /// Counts one message less, if there is one.
    pub fn subtract_if_any(&mut self, node: Option<NodeId>)
        requires { IfSome node (λ node. 0 < get_or self.old (end_place node.0) 0) }
        ensures { (place : ℕ) → get_or self.new place 0 + maybe_end node place ≡ get_or self.old place 0 }
    {
        match node {
            Some(node) => self.subtract(node),
            None => {}
        }
    }

    /// Whether each node that has a count is in a set. Costs nothing.
    pub fn are_within(&self, nodes: NodeSet) -> bool
        ensures { (result ≡ true) ↔ ((place : ℕ) → 0 < get_or self.now place 0 → contains_node place nodes ≡ true) }
    {
        self.nodes.is_subset_of(nodes) && self.counts[BEYOND] == 0
    }
}

/// Where the messages that ask a node are counted.
fn end_place(node: NodeId) -> usize
    ensures { result ≡ end_place node.0 }
{
    (node.0 as usize).min(BEYOND)
}

/// Counts the nodes that messages ask. Costs all of these.
pub(crate) fn count_ends(messages: &[(u32, Packet)]) -> EndCounts
    ensures { AreEndCounts messages.now result }
{
    let mut ends = EndCounts::new();
    for message in messages {
        ends.add(message.1.asked_node());
    }
    ends
}
