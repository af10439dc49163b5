//! Laws of the definitions, for the proofs of the layers above: each is the contract of a function that does nothing.
ghost use Rattle.std.specs.Prelude.{◌≡◌, ◌⊎◌, ℕ, suc, ◌+◌, ◌<◌, ◌≤◌, List, [], ◌∷◌, ◌++◌, length, take, IsTrue, Contains, slice_index_or};
ghost use Rattle.std.specs.Prelude.{if◌then◌else◌};
ghost use Rattle.object_id.specs.declared.node.NodeId.{NodeId};
ghost use Rattle.object_id.specs.declared.entry.Member.{Member};
ghost use Rattle.object_id.specs.declared.entry.Entry.{Entry};
ghost use Rattle.epoch_log.specs.Members.{AreMembers, HaveWeights};
ghost use Rattle.epoch_log.specs.Epochs.{begins_epoch, epoch_of, epoch_at, settled_of, settled_at, is_settled, members_in};
ghost use Rattle.epoch_log.specs.Appending.{MayAppend, AreAppended, IsLog};

use object_id::{EPOCH_MAX, NODES_MAX};

/// What later entries leave as it was, at every place before them and for every epoch that had begun.
pub fn later_entries_change_nothing()
    ensures epoch { (entries later : List Entry) (place : ℕ) → place ≤ length entries
        → epoch_at (entries ++ later) place ≡ epoch_at entries place }
    ensures settled { (entries later : List Entry) (place : ℕ) → place ≤ length entries
        → settled_at (entries ++ later) place ≡ settled_at entries place }
    ensures members { (entries later : List Entry) (epoch : ℕ) → 1 ≤ length entries → epoch ≤ epoch_of entries
        → members_in (entries ++ later) epoch ≡ members_in entries epoch }
    // The entries of one list before a place have the same members as all of them.
    ensures members_at { (entries : List Entry) (place epoch : ℕ) → 1 ≤ place → epoch ≤ epoch_at entries place
        → members_in (take place entries) epoch ≡ members_in entries epoch }
{}

/// The epoch grows by one at each `Join`, `Leave` and `Reweight`, and nowhere else.
pub fn epochs_grow_by_one()
    ensures push { (entries : List Entry) (entry : Entry)
        → epoch_of (entries ++ entry ∷ []) ≡ epoch_of entries + (if begins_epoch entry then 1 else 0) }
    ensures step { (entries : List Entry) (place : ℕ) (d : Entry) → place < length entries
        → epoch_at entries (place + 1) ≡ epoch_at entries place + (if begins_epoch (slice_index_or entries place d) then 1 else 0) }
    ensures grows { (entries : List Entry) (place later : ℕ) → place ≤ later → epoch_at entries place ≤ epoch_at entries later }
{}

/// The settled epoch is the greatest of the epochs begun that is settled; it never falls.
pub fn settled_only_grows()
    ensures is_one { (entries : List Entry) → IsTrue (is_settled entries (settled_of entries)) }
    ensures begun { (entries : List Entry) → (1 ≤ settled_of entries) × (settled_of entries ≤ epoch_of entries) }
    ensures greatest { (entries : List Entry) (epoch : ℕ) → 1 ≤ epoch → epoch ≤ epoch_of entries → IsTrue (is_settled entries epoch)
        → epoch ≤ settled_of entries }
    ensures grows { (entries : List Entry) (place later : ℕ) → 1 ≤ place → place ≤ later
        → settled_at entries place ≤ settled_at entries later }
{}

/// Every member of a settled epoch above 1 has put `Recovered` of it, and where they all have, it is settled.
pub fn a_settled_epoch_has_recovered()
    ensures recovered { (entries : List Entry) (epoch : ℕ) → 1 < epoch → IsTrue (is_settled entries epoch)
        → (member : Member) → Contains (members_in entries epoch) member
        → Contains entries (Entry.Recovered member.node (record { 0 = epoch })) }
    ensures settled { (entries : List Entry) (epoch : ℕ)
        → ((member : Member) → Contains (members_in entries epoch) member
        → Contains entries (Entry.Recovered member.node (record { 0 = epoch })))
        → IsTrue (is_settled entries epoch) }
    ensures first { (entries : List Entry) → IsTrue (is_settled entries 1) }
{}

/// What is true of every log.
pub fn log_epochs()
    // The members of each epoch ascend, so they are as many as there may be nodes at most.
    ensures members { (entries : List Entry) (epoch : ℕ) → IsLog entries → epoch ≤ epoch_of entries
        → AreMembers (members_in entries epoch) × (length (members_in entries epoch) ≤ NODES_MAX) }
    // Each has a weight that there may be.
    ensures weights { (entries : List Entry) (epoch : ℕ) → IsLog entries → epoch ≤ epoch_of entries
        → HaveWeights (members_in entries epoch) }
    // Epochs are numbers of 32 bits.
    ensures epochs { (entries : List Entry) → IsLog entries → epoch_of entries ≤ EPOCH_MAX }
    // A log goes on with each entry that may stand there.
    ensures push { (entries : List Entry) (entry : Entry) → IsLog entries → MayAppend entries entry → IsLog (entries ++ entry ∷ []) }
    // So it does with several, each of which may stand there in its turn; and what a log begins with is a log.
    ensures append { (entries later : List Entry) → IsLog entries → AreAppended entries later → IsLog (entries ++ later) }
    ensures prefix { (entries later : List Entry) → 1 ≤ length entries → IsLog (entries ++ later)
        → IsLog entries × AreAppended entries later }
{}
