ghost use Rattle.std.specs.Prelude.{◌≡◌, ◌↔◌, ◌≤◌, ℕ, List, [], ◌∷◌, ◌++◌, length, take, drop, IfOk, OnOk, OnErr, IsTrue, if◌then◌else◌};
ghost use Rattle.epoch_log.specs.Members.{is_member_node, members_with, members_without, members_reweighted};

use object_id::{Member, NoMemory, NodeId};
use std::alloc::Global;
use std::marker::Model;

/// Members of an epoch, ascending by number.
#[derive(Debug)]
pub struct Roster {
    members: Vec<Member>,
}

/// Written out, so that letting one go is one call wherever it is done, and no cases there.
impl Drop for Roster {
    fn drop(self) {
        let Roster { members } = self;
        drop(members);
    }
}

impl Model for Roster {
    ghost use Rattle.std.specs.Prelude.{List};
    ghost use Rattle.object_id.specs.declared.entry.Member.{Member};

    ghost Value = { List Member };

    ghost view = { λ roster. roster.members.items };
}

/// Where a node of this number would stand.
fn place_of(members: &[Member], member: Member) -> usize
    ensures within { result ≤ length members.now }
    ensures place { members_with member members.now ≡ take result members.now ++ member ∷ drop result members.now }
{
    for place in 0..members.len() {
        if member.node < members[place].node {
            return place;
        }
    }
    members.len()
}

/// The member, with the weight where it is the node.
fn with_weight(member: Member, node: NodeId, vnodes: u16) -> Member
    ensures { result ≡ (if is_member_node node.0 member then record member { vnodes = vnodes } else member) }
{
    if member.node == node {
        Member { vnodes, ..member }
    } else {
        member
    }
}

impl Roster {
    pub fn from_slice(alloc: Global, members: &[Member]) -> Result<Self, NoMemory>
        ensures { IfOk result (λ roster. roster ≡ members.now) }
    {
        Ok(Roster {
            members: Vec::from_slice(alloc, members)?,
        })
    }

    /// The members of a vector, without copying them.
    pub fn from_vec(members: Vec<Member>) -> Self
        ensures { result ≡ members.items }
    {
        Roster { members }
    }

    pub fn as_slice(&self) -> &[Member]
        ensures { result.now ≡ self.now }
    {
        self.members.as_slice()
    }

    pub fn is_empty(&self) -> bool
        ensures { IsTrue result ↔ (self.now ≡ []) }
    {
        self.members.is_empty()
    }

    pub fn join(&mut self, member: Member) -> Result<(), NoMemory>
        ensures { OnOk result (self.new ≡ members_with member self.old) }
    {
        let place = place_of(self.members.as_slice(), member);
        self.members.insert(place, member)?;
        Ok(())
    }

    pub fn remove(&mut self, node: NodeId)
        ensures { self.new ≡ members_without node.0 self.old }
    {
        self.members.retain(|member| member.node != node);
    }

    /// The same members, with another weight for a node.
    pub fn reweigh(&self, alloc: Global, node: NodeId, vnodes: u16) -> Result<Self, NoMemory>
        ensures { IfOk result (λ roster. roster ≡ members_reweighted node.0 vnodes self.now) }
    {
        let mut members = Vec::new(alloc);
        for member in self.as_slice() {
            members.push(with_weight(*member, node, vnodes))?;
        }
        Ok(Roster { members })
    }
}
