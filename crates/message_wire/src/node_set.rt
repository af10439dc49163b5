ghost use Rattle.std.specs.Prelude.{◌≡◌, ◌==◌, ◌<◌, ◌&&◌, ◌||◌, not, nat_lt, ℕ, true, false, ◌↔◌};
ghost use Rattle.std.specs.Int.{bit_at};
ghost use Rattle.message_wire.specs.NodeSet.{contains_node};

use object_id::NodeId;

/// How many numbers a set may have: as many as its word has bits.
const NUMBERS: u32 = 64;

/// A set of node numbers below 64. No call costs more than a few steps.
#[derive(Clone, Copy, Debug)]
pub struct NodeSet {
    bits: u64,
}

impl NodeSet {
    /// The set without nodes.
    pub fn new() -> NodeSet
        ensures { (node : ℕ) → contains_node node result ≡ false }
    {
        NodeSet { bits: 0 }
    }

    /// Whether a node is in the set: none of 64 or more is.
    pub fn contains(self, node: NodeId) -> bool
        ensures { result ≡ contains_node node.0 self }
    {
        node.0 < NUMBERS && (self.bits >> node.0) & 1 == 1
    }

    /// Takes a node in, and says whether the set may have it: none of 64 or more is taken.
    pub fn insert(&mut self, node: NodeId) -> bool
        ensures taken { result ≡ nat_lt node.0 64 }
        ensures nodes { (other : ℕ) → contains_node other self.new
            ≡ (contains_node other self.old || (other == node.0 && nat_lt node.0 64)) }
    {
        if node.0 >= NUMBERS {
            return false;
        }
        self.bits |= 1u64 << node.0;
        true
    }

    /// Takes a node out.
    pub fn remove(&mut self, node: NodeId)
        ensures { (other : ℕ) → contains_node other self.new ≡ (contains_node other self.old && not (other == node.0)) }
    {
        if node.0 < NUMBERS {
            self.bits &= !(1u64 << node.0);
        }
    }

    /// Whether each node of the set is in another.
    pub fn is_subset_of(self, other: NodeSet) -> bool
        ensures { (result ≡ true) ↔ ((node : ℕ) → contains_node node self ≡ true → contains_node node other ≡ true) }
    {
        are_bits_among(self.bits, other.bits)
    }
}

/// Whether each bit of a word is one of another.
fn are_bits_among(bits: u64, others: u64) -> bool
    ensures { (result ≡ true) ↔ ((node : ℕ) → node < 64 → bit_at bits node ≡ 1 → bit_at others node ≡ 1) }
{
    bits & others == bits
}
