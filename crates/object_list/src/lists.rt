ghost use Rattle.std.specs.Prelude.{◌≡◌, ◌↔◌, [], IfOk, OnOk, OnErr, IsTrue};
ghost use Rattle.std.specs.List.Sorted.{IsStrictlyIncreasing};
ghost use Rattle.object_id.specs.declared.node.NodeId.{NodeId as TheNode};
ghost use Rattle.object_list.specs.Union.{union};
ghost use Rattle.object_list.specs.Gathered.{GatheredLists, gathered_of_none, gathered_with_answer, has_node};

use crate::union::union;
use object_id::{NoMemory, NodeId, Oid};
use object_store::OidList;
use std::alloc::Global;
use std::marker::Model;

/// What a node has gathered from the other members of its epoch.
#[derive(Drop)]
pub struct Lists {
    alloc: Global,
    /// The other members that haven't answered.
    waiting: Vec<NodeId>,
    objects: OidList,
}

impl Model for Lists {
    ghost use Rattle.object_list.specs.Gathered.{GatheredLists};

    ghost Value = { GatheredLists };

    ghost view = { λ lists. record { waiting = lists.waiting.items; objects = lists.objects } };
}

impl Lists {
    /// Waits for every member but oneself.
    pub fn new(alloc: Global, me: NodeId, members: &[NodeId]) -> Result<Lists, NoMemory>
        ensures { IfOk result (λ lists. lists ≡ gathered_of_none me members.now) }
    {
        let mut waiting = Vec::from_slice(alloc, members)?;
        waiting.retain(|node| *node != me);
        Ok(Lists {
            alloc,
            waiting,
            objects: OidList::new(alloc),
        })
    }

    /// Waits for nobody. Takes no memory.
    pub fn of_nobody(alloc: Global) -> Lists
        ensures { (me : TheNode) → result ≡ gathered_of_none me [] }
    {
        Lists {
            alloc,
            waiting: Vec::new(alloc),
            objects: OidList::new(alloc),
        }
    }

    /// What [`Lists::add`] would make of this, which stays. Takes and costs all that is gathered.
    pub fn with_answer(&self, from: NodeId, list: &OidList) -> Result<Lists, NoMemory>
        ensures { IfOk result (λ lists. lists ≡ gathered_with_answer from list.now self.now) }
    {
        let objects = union(self.alloc, self.objects.as_slice(), list.as_slice())?;
        let mut waiting = Vec::from_slice(self.alloc, self.waiting.as_slice())?;
        waiting.retain(|node| *node != from);
        Ok(Lists {
            alloc: self.alloc,
            waiting,
            objects,
        })
    }

    /// Takes the list that a node answered with. A node that isn't waited for (any more) only adds its ids. Without
    /// memory everything stays.
    pub fn add(&mut self, from: NodeId, list: &OidList) -> Result<(), NoMemory>
        ensures ok { OnOk result (self.new ≡ gathered_with_answer from list.now self.old) }
        ensures err { OnErr result (self.new ≡ self.old) }
    {
        *self = self.with_answer(from, list)?;
        Ok(())
    }

    /// Whether the node is another member that hasn't answered.
    pub fn waits_for(&self, node: NodeId) -> bool
        ensures { result ≡ has_node node self.now.waiting }
    {
        self.waiting.as_slice().contains(&node)
    }

    /// The other members that haven't answered, in the order of the members.
    pub fn waiting(&self) -> &[NodeId]
        ensures { result.now ≡ self.now.waiting }
    {
        self.waiting.as_slice()
    }

    /// Whether every other member has answered.
    pub fn finished(&self) -> bool
        ensures { IsTrue result ↔ (self.now.waiting ≡ []) }
    {
        self.waiting.is_empty()
    }

    /// The ids of all lists so far, ascending and each once.
    pub fn objects(&self) -> &[Oid]
        ensures value { result.now ≡ self.now.objects }
        ensures ascending { IsStrictlyIncreasing result.now }
    {
        self.objects.as_slice()
    }

    /// These ids with those of one list more. Takes and costs all of them.
    pub fn objects_with(&self, list: &OidList) -> Result<OidList, NoMemory>
        ensures { IfOk result (λ oids. oids ≡ union self.now.objects list.now) }
    {
        union(self.alloc, self.objects.as_slice(), list.as_slice())
    }
}
