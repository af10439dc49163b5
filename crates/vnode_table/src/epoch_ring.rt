ghost use Rattle.std.specs.Prelude.{◌≡◌, ℕ, ◌≤◌, length, take, drop, IfOk};
ghost use Rattle.hash_ring.specs.Placement.{AreWeighted, targets_of};

use hash_ring::Ring;
use object_id::{Epoch, Member, MemberList, NoMemory, NodeId};
use std::alloc::Global;
use std::marker::Model;

/// An epoch with its members, and the ring of their points. Contracts see the epoch and the members.
pub struct EpochRing {
    epoch: Epoch,
    members: MemberList,
    ring: Ring,
}

/// Written out, so that letting one go is one call wherever it is done, and no cases there.
impl Drop for EpochRing {
    fn drop(self) {
        let EpochRing {
            epoch: _,
            members,
            ring,
        } = self;
        drop(members);
        drop(ring);
    }
}

impl Model for EpochRing {
    ghost use Rattle.std.specs.Prelude.{◌≡◌, ℕ};
    ghost use Rattle.hash_ring.specs.Placement.{targets_of};
    ghost use Rattle.hash_ring.specs.Points.{targets_among};
    ghost use Rattle.vnode_table.specs.Epochs.{EpochMembers};

    ghost Value = { EpochMembers };

    ghost view = { λ term. record { epoch = term.epoch.0; members = term.members } };

    ghost invariant = { λ term. (object wanted : ℕ) → targets_among term.ring object wanted ≡ targets_of term.members object wanted };
}

impl EpochRing {
    /// Costs the sorting of the members' virtual nodes.
    pub fn new(alloc: Global, epoch: Epoch, members: &[Member]) -> Result<EpochRing, NoMemory>
        requires { AreWeighted members.now }
        ensures { IfOk result (λ term. term ≡ record { epoch = epoch.0; members = members.now }) }
    {
        Ok(EpochRing {
            epoch,
            members: MemberList::from_vec(Vec::from_slice(alloc, members)?),
            ring: Ring::build(alloc, members)?,
        })
    }

    /// The first `n` targets of an object of this hash. The rest of `out` stays.
    pub fn targets(&self, hash: u64, n: usize, out: &mut [NodeId]) -> usize
        requires { n ≤ length out.old }
        ensures count { result ≡ length (targets_of self.now.members hash n) }
        ensures filled { take result out.new ≡ targets_of self.now.members hash n }
        ensures rest { drop result out.new ≡ drop result out.old }
    {
        self.ring.targets(hash, n, out)
    }
}
