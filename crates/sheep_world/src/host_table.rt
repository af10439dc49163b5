//! The summaries of the hosts of nodes below 64, by number.

ghost use Rattle.std.specs.Prelude.{◌≡◌, ◌==◌, ◌<◌, ℕ, get_or, replicate, if◌then◌else◌, IfOk};
ghost use Rattle.message_wire.specs.NodeSet.{contains_node};
ghost use Rattle.sheep_world.specs.HostSummaries.{no_summary};

use crate::host_summary::HostSummary;
use message_wire::NodeSet;
use object_id::{NODES_MAX, NoMemory, NodeId};
use std::alloc::Global;
use std::marker::Model;

/// How many numbers have a summary here: as many as a set of nodes may have.
const NUMBERS: usize = 64;

/// A summary for each number below 64, and the set of those that are up. Contracts see the summaries. No call but `new` costs more than a
/// few steps.
#[derive(Drop)]
pub(crate) struct HostTable {
    by_number: Vec<HostSummary>,
    up: NodeSet,
}

impl Model for HostTable {
    ghost use Rattle.std.specs.Prelude.{List};
    ghost use Rattle.sheep_world.specs.declared.host_summary.HostSummary.{HostSummary};
    ghost use Rattle.sheep_world.specs.HostSummaries.{AreUpIn};

    ghost Value = { List HostSummary };

    ghost view = { λ table. table.by_number.items };

    ghost invariant = { λ table. AreUpIn table.by_number.items table.up };
}

impl HostTable {
    /// The table without hosts. Takes room for each number.
    pub fn new(alloc: Global) -> Result<HostTable, NoMemory>
        ensures { IfOk result (λ table. table ≡ replicate 64 no_summary) }
    {
        let empty = HostSummary::none();
        let by_number = Vec::from_array(alloc, [empty; NUMBERS])?;
        let up = NodeSet::new();
        Ok(HostTable { by_number, up })
    }

    /// The summary at a number.
    pub fn summary_at(&self, node: u32) -> HostSummary
        requires { node < 64 }
        ensures { result ≡ get_or self.now node no_summary }
    {
        self.by_number[node as usize]
    }

    /// The nodes below 64 that are up.
    pub fn up_nodes(&self) -> NodeSet
        ensures { (node : ℕ) → node < 64 → contains_node node result ≡ (get_or self.now node no_summary).is_up }
    {
        self.up
    }

    /// Puts a summary at a number. One of 64 or more has no place.
    pub fn put(&mut self, node: u32, summary: HostSummary)
        ensures { (other : ℕ) → other < 64 → get_or self.new other no_summary
            ≡ (if other == node then summary else get_or self.old other no_summary) }
    {
        if node >= NODES_MAX {
            return;
        }
        self.by_number[node as usize] = summary;
        self.up = with_node(self.up, NodeId(node), summary.is_up);
    }
}

/// A set of nodes, with a node in it or not.
fn with_node(nodes: NodeSet, node: NodeId, is_in: bool) -> NodeSet
    requires { node.0 < 64 }
    ensures { (other : ℕ) → contains_node other result ≡ (if other == node.0 then is_in else contains_node other nodes) }
{
    let mut changed = nodes;
    if is_in {
        changed.insert(node);
        return changed;
    }
    changed.remove(node);
    changed
}
