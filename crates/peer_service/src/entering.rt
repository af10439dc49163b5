//! Going to the next epoch: which open rows stay open is told by the placement there.

ghost use Rattle.std.specs.Prelude.{◌≡◌, ℕ, ◌+◌, ◌==◌, ◌&&◌, ◌||◌, false, IfOk, OnOk, OnErr, IsTrue};
ghost use Rattle.std.specs.Option.{option_map_or};
ghost use Rattle.object_id.specs.Oid.{kind_of};
ghost use Rattle.object_id.specs.Policy.{IsPolicy};
ghost use Rattle.gf256.specs.Part.{index_among};
ghost use Rattle.object_store.specs.Rows.{is_kept};
ghost use Rattle.vnode_table.specs.Epochs.{is_entered};
ghost use Rattle.vnode_table.specs.Targets.{targets_in};
ghost use Rattle.peer_service.specs.Epochs.{AreKept, kept_index, peer_in_next_epoch};

use crate::peer_state::PeerState;
use object_id::{Epoch, NoMemory, NodeId, Oid, Policy, TARGETS_MAX};
use object_store::{Key, ObjStore};
use strip_coding::index_among;
use vnode_table::Placement;

/// The index under which a node keeps its part of an object in an epoch; `None` exactly where it isn't one of the targets.
fn index_in_epoch(
    me: NodeId,
    place: &Placement,
    epoch: Epoch,
    oid: Oid,
    policy: Policy,
) -> Option<u8>
    requires entered { IsTrue (is_entered place.now epoch.0) }
    requires policy { IsPolicy policy }
    ensures { result ≡ index_among me (targets_in place.now epoch.0 oid policy) policy (kind_of oid) }
{
    let mut targets = [NodeId(0); TARGETS_MAX];
    let count = place.targets_at(epoch, oid, policy, &mut targets);
    index_among(me, &targets[..count], policy, oid.kind())
}

/// Adds the key of an object's row, if it has an index under which one stays open.
fn add_key(keys: &mut Vec<Key>, oid: Oid, index: Option<u8>) -> Result<(), NoMemory>
    ensures { OnOk result ((other at : ℕ) → is_kept keys.new.items other at
        ≡ (is_kept keys.old.items other at || (oid == other && option_map_or (λ own. own == at) index false))) }
{
    if let Some(index) = index {
        keys.push(Key { oid, index })?;
    }
    Ok(())
}

impl<O: ObjStore> PeerState<O> {
    /// The index of an object whose open row stays open in an epoch, if there is one.
    fn kept_index(&self, me: NodeId, place: &Placement, next: Epoch, oid: Oid) -> Option<u8>
        requires entered { IsTrue (is_entered place.now next.0) }
        requires next { next.0 ≡ self.now.epoch + 1 }
        ensures { result ≡ kept_index me (targets_in place.now) self.now oid }
    {
        match self.directory.spec(oid.vid()) {
            Some(spec) => index_in_epoch(me, place, next, oid, spec.policy),
            None => None,
        }
    }

    /// The keys of the rows that stay open in an epoch, if they are open.
    fn kept_keys(&self, me: NodeId, place: &Placement, next: Epoch) -> Result<Vec<Key>, NoMemory>
        requires entered { IsTrue (is_entered place.now next.0) }
        requires next { next.0 ≡ self.now.epoch + 1 }
        ensures { IfOk result (λ keys. AreKept keys.items me (targets_in place.now) self.now) }
    {
        let objects = self.store.list()?;
        let mut keys = Vec::new(self.alloc);
        for oid in objects.as_slice() {
            let index = self.kept_index(me, place, next, *oid);
            add_key(&mut keys, *oid, index)?;
        }
        Ok(keys)
    }

    /// Goes to the next epoch, which the placement has entered: an open row stays open where its object is known and has this node at
    /// the row's index among its targets there, and else it ends with the epoch before. No row is dropped. Without memory nothing
    /// changes. Costs for each object of the node a look-up of its disk and of its targets, and what [`ObjStore::advance`] costs.
    #[tactic(auto, unfolding(crate::specs::Epochs::peer_in_next_epoch))]
    pub fn enter(&mut self, me: NodeId, place: &Placement) -> Result<(), NoMemory>
        requires { IsTrue (is_entered place.now (self.old.epoch + 1)) }
        ensures ok { OnOk result (self.new ≡ peer_in_next_epoch me (targets_in place.now) self.old) }
        ensures err { OnErr result (self.new ≡ self.old) }
    {
        // No epoch has a number past the greatest: that is answered as out of memory.
        if self.epoch.0 == u32::MAX {
            return Err(NoMemory);
        }
        let next = Epoch(self.epoch.0 + 1);
        let keys = self.kept_keys(me, place, next)?;
        self.store.advance(next, keys.as_slice());
        self.epoch = next;
        Ok(())
    }
}
