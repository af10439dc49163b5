//! Laws of the definitions, for the proofs of the layers above: each is the contract of a function that does nothing.
ghost use Rattle.std.specs.Prelude.{◌≡◌, ◌≢◌, ℕ, ◌∷◌, min, List, length, take, Any, AllPairs, Contains, IsTrue};
ghost use Rattle.object_id.specs.declared.node.NodeId.{NodeId};
ghost use Rattle.object_id.specs.declared.entry.Member.{Member};
ghost use Rattle.object_id.specs.declared.policy.Policy.{Policy};
ghost use Rattle.object_id.specs.Oid.{kind_of};
ghost use Rattle.object_id.specs.Policy.{wanted_of};
ghost use Rattle.hash_ring.specs.Placement.{AreWeighted, zone_count};
ghost use Rattle.vnode_table.specs.Epochs.{EpochMembers, is_entered, members_at};
ghost use Rattle.vnode_table.specs.Targets.{targets_in};

/// Entering an epoch changes no other epoch's members, so none of its lists.
pub fn entering_leaves_others()
    ensures members { (entered : EpochMembers) (epochs : List EpochMembers) (epoch : ℕ) → entered.epoch ≢ epoch
        → members_at (entered ∷ epochs) epoch ≡ members_at epochs epoch }
    ensures targets { (entered : EpochMembers) (epochs : List EpochMembers) (epoch oid : ℕ) (policy : Policy) → entered.epoch ≢ epoch
        → targets_in (entered ∷ epochs) epoch oid policy ≡ targets_in epochs epoch oid policy }
    ensures entered { (entered : EpochMembers) (epochs : List EpochMembers) (epoch : ℕ) → IsTrue (is_entered epochs epoch)
        → IsTrue (is_entered (entered ∷ epochs) epoch) }
    ensures itself { (entered : EpochMembers) (epochs : List EpochMembers) → members_at (entered ∷ epochs) entered.epoch ≡ entered.members }
{}

/// The lists of one epoch: different members of it, no two of one zone, as many as are wanted or as there are
/// zones.
pub fn lists_of_an_epoch()
    ensures members { (epochs : List EpochMembers) (epoch oid : ℕ) (policy : Policy) (node : NodeId)
        → Contains (targets_in epochs epoch oid policy) node
        → Any (λ (m : Member). m.node ≡ node) (members_at epochs epoch) }
    ensures different { (epochs : List EpochMembers) (epoch oid : ℕ) (policy : Policy) → AreWeighted (members_at epochs epoch)
        → AllPairs (λ (a b : NodeId). a ≢ b) (targets_in epochs epoch oid policy) }
    ensures zones { (epochs : List EpochMembers) (epoch oid : ℕ) (policy : Policy) → AreWeighted (members_at epochs epoch)
        → AllPairs (λ (a b : NodeId). (m n : Member) → Contains (members_at epochs epoch) m → Contains (members_at epochs epoch) n
        → m.node ≡ a → n.node ≡ b → m.zone ≢ n.zone) (targets_in epochs epoch oid policy) }
    ensures count { (epochs : List EpochMembers) (epoch oid : ℕ) (policy : Policy)
        → length (targets_in epochs epoch oid policy) ≡ min (wanted_of policy (kind_of oid)) (zone_count (members_at epochs epoch)) }
{}
