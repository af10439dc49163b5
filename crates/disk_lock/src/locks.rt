ghost use Rattle.std.specs.Prelude.{◌≡◌, ℕ, OnOk, OnErr};
ghost use Rattle.std.specs.FinMap as tree;
ghost use Rattle.disk_lock.specs.Locks.{without_node};

use crate::holder::Holder;
use object_id::{NoMemory, NodeId, Vid};
use std::alloc::Global;
use std::collections::BTreeMap;
use std::marker::Model;

/// The disks that are held, each with its holder.
#[derive(Drop)]
pub struct Locks {
    held: BTreeMap<u32, Holder>,
}

impl Model for Locks {
    ghost use Rattle.std.specs.Coded.{codes, coded_ℕ};
    ghost use Rattle.std.specs.FinMap as tree;
    ghost use Rattle.std.specs.Ordering.{nat_cmp};
    ghost use Rattle.disk_lock.specs.declared.holder.Holder.{Holder};

    ghost Value = { tree.FinMap nat_cmp Holder };

    ghost coded = { tree.code coded_ℕ (Prim.hlevel codes) };

    ghost view = { λ locks. tree.from_entries locks.held.entries };
}

impl Locks {
    /// Nobody holds anything. Takes no memory.
    pub fn new(alloc: Global) -> Locks
        ensures { result ≡ tree.empty }
    {
        Locks {
            held: BTreeMap::new(alloc),
        }
    }

    /// Who holds a disk; `None` where nobody does. Costs the logarithm of the locks.
    pub fn holder(&self, vid: Vid) -> Option<Holder>
        ensures { result ≡ tree.get self.now vid.0 }
    {
        self.held.get(&vid.0).copied()
    }

    /// Makes a session the holder of a disk, whoever held it. Without memory nothing changes. Costs the logarithm of the locks.
    pub fn grant(&mut self, vid: Vid, holder: Holder) -> Result<(), NoMemory>
        ensures ok { OnOk result (self.new ≡ tree.insert self.old vid.0 holder) }
        ensures err { OnErr result (self.new ≡ self.old) }
    {
        self.held.insert(vid.0, holder)?;
        Ok(())
    }

    /// Takes a disk from its holder, if it has one. Costs the logarithm of the locks.
    pub fn free(&mut self, vid: Vid)
        ensures { self.new ≡ tree.remove self.old vid.0 }
    {
        self.held.remove(&vid.0);
    }

    /// Takes from a node all that its sessions hold. Every other disk keeps its holder. Looks at each lock.
    pub fn free_node(&mut self, node: NodeId)
        ensures { (vid : ℕ) → tree.get self.new vid ≡ without_node node.0 (tree.get self.old vid) }
    {
        self.held.retain(|_, holder| holder.node != node);
    }
}
