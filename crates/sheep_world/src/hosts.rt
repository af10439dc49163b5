//! The hosts of the cluster.

ghost use Rattle.std.specs.Prelude.{◌≡◌, ◌<◌, ℕ, false, slice_get, IfOk, OnOk};
ghost use Rattle.std.specs.Option.{option_copied, option_map_or};
ghost use Rattle.std.specs.FinMap as tree;
ghost use Rattle.message_wire.specs.NodeSet.{contains_node};
ghost use Rattle.sheep_world.specs.World.{is_host_up};
ghost use Rattle.sheep_world.specs.HostSummaries.{summary_of};

use crate::host::Host;
use crate::host_summary::HostSummary;
use crate::host_table::HostTable;
use message_wire::NodeSet;
use object_id::{NODES_MAX, NoMemory};
use std::alloc::Global;
use std::collections::BTreeMap;
use std::collections::btree_map::Keys;
use std::marker::Model;

/// The hosts by the numbers of their nodes, with the summaries of those below 64. Contracts see the finite map.
pub(crate) struct Hosts {
    by_number: BTreeMap<u32, Host>,
    table: HostTable,
}

/// Written out, so that letting one go is one call wherever it is done, and no cases there.
impl Drop for Hosts {
    fn drop(self) {
        let Hosts { by_number, table } = self;
        drop(by_number);
        drop(table);
    }
}

impl Model for Hosts {
    ghost use Rattle.std.specs.Prelude.{List};
    ghost use Rattle.std.specs.Coded.{codes, coded_ℕ};
    ghost use Rattle.std.specs.FinMap as tree;
    ghost use Rattle.std.specs.FinSet as set;
    ghost use Rattle.std.specs.Ordering.{nat_cmp};
    ghost use Rattle.object_store.specs.Store.{SeenRow};
    ghost use Rattle.gateway.specs.State.{Work};
    ghost use Rattle.sheep_node.specs.declared.course.Request.{Request};
    ghost use Rattle.sheep_node.specs.declared.session.Session.{Session};
    ghost use Rattle.sheep_world.specs.World.{Host};
    ghost use Rattle.sheep_world.specs.HostSummaries.{AreSummariesOf};

    ghost Value = { tree.FinMap nat_cmp Host };

    ghost coded = { tree.code coded_ℕ (Prim.hlevel (
      codes,
      tree.code {X = List SeenRow} {R = nat_cmp} coded_ℕ (Prim.hlevel codes),
      tree.code {X = Work} {R = nat_cmp} coded_ℕ (Prim.hlevel codes),
      set.code {R = nat_cmp} coded_ℕ,
      tree.code {X = Session} {R = nat_cmp} coded_ℕ (Prim.hlevel codes),
      tree.code {X = Request} {R = nat_cmp} coded_ℕ (Prim.hlevel codes),
    )) };

    ghost view = { λ hosts. tree.from_entries hosts.by_number.entries };

    ghost invariant = { λ hosts. AreSummariesOf (tree.from_entries hosts.by_number.entries) hosts.table };
}

impl Hosts {
    /// No node exists. Takes room for the summaries.
    pub fn new(alloc: Global) -> Result<Hosts, NoMemory>
        ensures { IfOk result (λ hosts. hosts ≡ tree.empty) }
    {
        let table = HostTable::new(alloc)?;
        let by_number = BTreeMap::new(alloc);
        Ok(Hosts { by_number, table })
    }

    /// The host of a node; none for a number that was never used. Costs a look-up.
    pub fn get(&self, node: u32) -> Option<&Host>
        ensures { option_copied result ≡ tree.get self.now node }
    {
        self.by_number.get(&node)
    }

    /// The summary of a node's host. Costs nothing; for a number of 64 or more what the summary costs.
    pub fn summary(&self, node: u32) -> HostSummary
        ensures { result ≡ summary_of (tree.get self.now node) }
    {
        if node < NODES_MAX {
            return self.table.summary_at(node);
        }
        match self.get(node) {
            Some(host) => host.summary(),
            None => HostSummary::none(),
        }
    }

    /// The nodes below 64 that are up. Costs nothing.
    pub fn up_nodes(&self) -> NodeSet
        ensures { (node : ℕ) → node < 64 → contains_node node result ≡ option_map_or is_host_up (tree.get self.now node) false }
    {
        self.table.up_nodes()
    }

    /// The numbers of the nodes that have hosts, ascending. Costs nothing.
    pub fn numbers(&self) -> Keys<'_, u32, Host>
        ensures { result ≡ tree.keys self.now }
    {
        self.by_number.keys()
    }

    /// The number at a place, from 0, ascending; none past the last. Passes over those before it.
    pub fn number_at(&self, place: usize) -> Option<u32>
        ensures { result ≡ slice_get (tree.keys self.now) place }
    {
        let mut left = place;
        for number in self.numbers() {
            if left == 0 {
                return Some(*number);
            }
            left -= 1;
        }
        None
    }

    /// The host of a node, which is no more among the others. Costs a look-up.
    pub fn take(&mut self, node: u32) -> Option<Host>
        ensures value { result ≡ tree.get self.old node }
        ensures others { self.new ≡ tree.remove self.old node }
    {
        self.table.put(node, HostSummary::none());
        self.by_number.remove(&node)
    }

    /// The host of a node, in the place of the one that it had. Costs a look-up, and what the summary costs.
    pub fn put(&mut self, node: u32, host: Host) -> Result<(), NoMemory>
        ensures { OnOk result (self.new ≡ tree.insert self.old node host) }
    {
        let summary = host.summary();
        drop(self.by_number.insert(node, host)?);
        self.table.put(node, summary);
        Ok(())
    }
}
