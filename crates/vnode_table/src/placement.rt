ghost use Rattle.std.specs.Prelude.{◌≡◌, false, [], ◌∷◌, length, take, drop, find, option_copied, OnOk, OnErr, IsTrue};
ghost use Rattle.object_id.specs.Policy.{IsPolicy};
ghost use Rattle.hash_ring.specs.Placement.{AreWeighted};
ghost use Rattle.vnode_table.specs.Epochs.{is_entered};
ghost use Rattle.vnode_table.specs.Places.{is_of};
ghost use Rattle.vnode_table.specs.Targets.{targets_in};

use crate::epoch_ring::EpochRing;
use hash_ring::object_hash;
use object_id::{Epoch, Member, NoMemory, NodeId, Oid, Policy, TARGETS_MAX};
use std::alloc::Global;
use std::collections::BTreeMap;
use std::marker::Model;

/// The epochs that were entered, each with its members. Contracts see them in a list, the last entered first.
pub struct Placement {
    terms: Vec<EpochRing>,
    /// At which place of `terms` an epoch stands.
    places: BTreeMap<u32, usize>,
}

/// Written out, so that letting one go is one call wherever it is done, and no cases there.
impl Drop for Placement {
    fn drop(self) {
        let Placement { terms, places } = self;
        drop(terms);
        drop(places);
    }
}

impl Model for Placement {
    ghost use Rattle.std.specs.Prelude.{List, reverse};
    ghost use Rattle.vnode_table.specs.Epochs.{EpochMembers};
    ghost use Rattle.vnode_table.specs.Places.{ArePlaces};

    ghost Value = { List EpochMembers };

    ghost view = { λ placement. reverse placement.terms.items };

    ghost invariant = { λ placement. ArePlaces placement.terms.items placement.places };
}

impl Placement {
    /// No epoch was entered. Takes no memory, and costs nothing.
    pub fn new(alloc: Global) -> Self
        ensures { result ≡ [] }
    {
        Placement {
            terms: Vec::new(alloc),
            places: BTreeMap::new(alloc),
        }
    }

    fn term_of(&self, epoch: Epoch) -> Option<&EpochRing>
        ensures { option_copied result ≡ find (is_of epoch.0) self.now }
    {
        match self.places.get(&epoch.0) {
            Some(place) => self.terms.get(*place),
            None => None,
        }
    }

    /// Whether the epoch was entered. Costs the logarithm of the epochs.
    pub fn has_entered(&self, epoch: Epoch) -> bool
        ensures { result ≡ is_entered self.now epoch.0 }
    {
        self.term_of(epoch).is_some()
    }

    /// Enters an epoch with its members, which may be none. Without memory it isn't entered, and nothing changes. Costs the sorting of
    /// the members' virtual nodes, and the logarithm of the epochs.
    pub fn enter(&mut self, epoch: Epoch, members: &[Member]) -> Result<(), NoMemory>
        requires new { is_entered self.old epoch.0 ≡ false }
        requires members { AreWeighted members.now }
        ensures ok { OnOk result (self.new ≡ record { epoch = epoch.0; members = members.now } ∷ self.old) }
        ensures err { OnErr result (self.new ≡ self.old) }
    {
        let alloc = *self.terms.allocator();
        self.terms.reserve(1)?;
        let term = EpochRing::new(alloc, epoch, members)?;
        self.places.insert(epoch.0, self.terms.len())?;
        self.terms.push_reserved(term);
        Ok(())
    }

    /// Fills in the targets of an object in an epoch that was entered, and answers how many they are: as many as
    /// the policy wants for the object's kind, or fewer where the epoch's members have fewer zones. The rest of
    /// `out` stays. Takes no memory. Costs the logarithm of the epochs, and what [`hash_ring::Ring::targets`] costs.
    pub fn targets_at(
        &self,
        epoch: Epoch,
        oid: Oid,
        policy: Policy,
        out: &mut [NodeId; TARGETS_MAX],
    ) -> usize
        requires entered { IsTrue (is_entered self.now epoch.0) }
        requires policy { IsPolicy policy }
        ensures count { result ≡ length (targets_in self.now epoch.0 oid policy) }
        ensures filled { take result out.new ≡ targets_in self.now epoch.0 oid policy }
        ensures rest { drop result out.new ≡ drop result out.old }
    {
        let wanted = usize::from(policy.wanted(oid.kind()));
        let term = self.term_of(epoch).unwrap();
        term.targets(object_hash(oid), wanted, out)
    }
}
