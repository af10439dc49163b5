//! Laws of the definitions, for the proofs of the layers above: each is the contract of a function that does nothing.
ghost use Rattle.std.specs.Prelude.{◌≡◌, ◌↔◌, ◌⊎◌, ℕ, ◌<◌, ◌≤◌, ◌==◌, ◌&&◌, Bool, true, false, List, [], ◌∷◌, ◌++◌, Option, Some, None};
ghost use Rattle.std.specs.Prelude.{All, IsTrue};
ghost use Rattle.std.specs.List.{list_any};
ghost use Rattle.std.specs.FinMap as tree;
ghost use Rattle.std.specs.List.Sorted.{IsStrictlyIncreasing};
ghost use Rattle.object_id.specs.Hash.{own_vid};
ghost use Rattle.object_id.specs.Oid.{IsVid};
ghost use Rattle.object_id.specs.declared.oid.Vid.{Vid};
ghost use Rattle.object_id.specs.declared.node.NodeId.{NodeId};
ghost use Rattle.object_id.specs.declared.entry.Origin.TheVariants as origins;
ghost use Rattle.object_id.specs.declared.entry.Entry.{Entry};
ghost use Rattle.object_id.specs.declared.entry.Entry.TheVariants as the_entries;
ghost use Rattle.epoch_log.specs.Appending.{IsReservable};
ghost use Rattle.disk_lock.specs.declared.holder.Holder.{Holder};
ghost use Rattle.vdi_directory.specs.declared.live_snapshot.LiveSnapshot.{LiveSnapshot};
ghost use Rattle.vdi_directory.specs.declared.header.Header.{Header};
ghost use Rattle.vdi_directory.specs.declared.effect.Reservation.{Reservation};
ghost use Rattle.vdi_directory.specs.declared.effect.Grant.{Grant};
ghost use Rattle.vdi_directory.specs.declared.effect.Effect.{Effect};
ghost use Rattle.vdi_directory.specs.declared.effect.Effect.TheVariants as effects;
ghost use Rattle.vdi_directory.specs.declared.decision.Decision.TheVariants as decisions;
ghost use Rattle.object_id.specs.declared.limits.TheConstants.{VID_MAX};
ghost use Rattle.vdi_directory.specs.Vids.{free_id};
ghost use Rattle.vdi_directory.specs.Sources.{is_for, tag_for};
ghost use Rattle.vdi_directory.specs.Effects.{is_used, header_of, name_of, reservations_of, reservation_on, live_of, holder_of};
ghost use Rattle.vdi_directory.specs.Decisions.{outcome, log_effects, nothing, decision_after, disk_found, held_disk};
ghost use Rattle.vdi_directory.specs.States.{Working, Snapshot, rank, state_of, owner_of, is_live_state};
ghost use Rattle.vdi_directory.specs.Known.{IsHeaderOf};
ghost use Rattle.vdi_directory.specs.Holders.{takes_disk, may_take_disk};
ghost use Rattle.vdi_directory.specs.Sound.{In, IsWorking, IsNameTaken};
ghost use Rattle.vdi_directory.specs.Chains.{is_above, grant_place};
ghost use Rattle.vdi_directory.specs.Dead.{IsDead, is_dead};
ghost use Rattle.vdi_directory.specs.DirectoryState.{AreLocks};

/// Before any entry was read nobody holds a disk: a new directory and new locks fit each other.
pub fn nobody_holds_at_first()
    ensures { AreLocks (log_effects []) tree.empty }
{}

/// An id that is granted is one that was never granted before, and it is used for ever after.
pub fn an_id_is_granted_once()
    ensures unused { (entries : List Entry) (entry : Entry) (grant : Grant)
        → (outcome (log_effects entries) entry).effect ≡ effects.Reserved grant
        → IsVid grant.reservation.vid.0 × (is_used (log_effects entries) grant.reservation.vid.0 ≡ false) }
    ensures used { (entries : List Entry) (entry : Entry) (grant : Grant)
        → (outcome (log_effects entries) entry).effect ≡ effects.Reserved grant
        → is_used (log_effects (entries ++ entry ∷ [])) grant.reservation.vid.0 ≡ true }
    ensures stays { (entries later : List Entry) (vid : ℕ) → is_used (log_effects entries) vid ≡ true
        → is_used (log_effects (entries ++ later)) vid ≡ true }
{}

/// An id that is granted has a header once the entry is read. The parent of an id that is reserved for a clone is the snapshot
/// that the base's name and the tag find; of one that is reserved for a snapshot, the name's working disk, which the session holds.
pub fn grants_are_known()
    ensures header { (entries : List Entry) (entry : Entry) (vid : Vid) → decision_after entries entry ≡ decisions.Granted vid
        → (header : Header) × (header_of (log_effects (entries ++ entry ∷ [])) vid.0 ≡ Some header) }
    ensures clone { (entries : List Entry) (by : NodeId) (session : ℕ) (name base tag : List ℕ) (vid : Vid)
        → decision_after entries (the_entries.Reserve by session name (origins.CloneOf base tag)) ≡ decisions.Granted vid
        → (header : Header) × (parent : Vid)
        × (header_of (log_effects (entries ++ the_entries.Reserve by session name (origins.CloneOf base tag) ∷ [])) vid.0 ≡ Some header)
        × (header.parent ≡ Some parent) × (disk_found entries base (Some tag) ≡ Some parent) }
    ensures snapshot { (entries : List Entry) (by : NodeId) (session : ℕ) (name tag : List ℕ) (vid : Vid)
        → decision_after entries (the_entries.Reserve by session name (origins.SnapshotOf tag)) ≡ decisions.Granted vid
        → (header : Header) × (parent : Vid)
        × (header_of (log_effects (entries ++ the_entries.Reserve by session name (origins.SnapshotOf tag) ∷ [])) vid.0 ≡ Some header)
        × (header.parent ≡ Some parent) × (held_disk (log_effects entries) by session (disk_found entries name None) ≡ Some parent) }
{}

/// What is known of an id is valid, where each entry was one that may be reserved: the id is an id, its name a name, its tag empty or a
/// tag, its spec valid. The same holds of what it was made from, which has its spec. A live snapshot's header has the snapshot's tag.
pub fn what_is_known_is_valid()
    ensures headers { (entries : List Entry) → All IsReservable entries → (vid : ℕ) (header : Header)
        → header_of (log_effects entries) vid ≡ Some header → IsHeaderOf (log_effects entries) vid header }
    ensures parents { (entries : List Entry) → All IsReservable entries → (vid : ℕ) (header : Header) (parent : Vid)
        → header_of (log_effects entries) vid ≡ Some header → header.parent ≡ Some parent
        → (base : Header) × (header_of (log_effects entries) parent.0 ≡ Some base) × IsHeaderOf (log_effects entries) parent.0 base
        × (base.spec ≡ header.spec) }
    ensures snapshots { (entries : List Entry) → All IsReservable entries → (vid : ℕ) (tag : List ℕ)
        → state_of (log_effects entries) vid ≡ Snapshot tag
        → (header : Header) × (header_of (log_effects entries) vid ≡ Some header) × (header.tag ≡ tag) }
{}

/// An id is reserved, then published, then a snapshot, then deleted; it may leave steps out, and never goes back.
pub fn states_move_forward()
    ensures { (entries later : List Entry) (vid : ℕ)
        → rank (state_of (log_effects entries) vid) ≤ rank (state_of (log_effects (entries ++ later)) vid) }
{}

/// What a name finds is in that state, and was reserved for that name. Every working disk and
/// every snapshot is found by the name that it was reserved for.
pub fn names_find_their_disks()
    ensures working { (entries : List Entry) (name : List ℕ) (vid : Vid) → (name_of (log_effects entries) name).working ≡ Some vid
        → IsWorking (log_effects entries) name vid.0 }
    ensures live_snapshots { (entries : List Entry) (name : List ℕ) (live_snapshot : LiveSnapshot)
        → In live_snapshot (name_of (log_effects entries) name).live_snapshots
        → IsNameTaken (log_effects entries) name live_snapshot.vid.0 }
    ensures found { (entries : List Entry) (name : List ℕ) (vid : Vid) → IsWorking (log_effects entries) name vid.0
        → (name_of (log_effects entries) name).working ≡ Some vid }
    ensures listed { (entries : List Entry) (name tag : List ℕ) (vid : Vid) → state_of (log_effects entries) vid.0 ≡ Snapshot tag
        → owner_of (log_effects entries) vid.0 ≡ Some name
        → In (record { vid = vid; tag = tag }) (name_of (log_effects entries) name).live_snapshots }
{}

/// The live ids are the working disks and the snapshots, each once, ascending.
pub fn live_ids_are_published()
    ensures each { (entries : List Entry) (vid : ℕ)
        → list_any (λ other. other == vid) (live_of (log_effects entries)) ≡ is_live_state (state_of (log_effects entries) vid) }
    ensures ascending { (entries : List Entry) → IsStrictlyIncreasing (live_of (log_effects entries)) }
{}

/// A lock is granted where nobody holds the disk, and only working disks are held.
pub fn one_holds_a_disk()
    ensures free { (entries : List Entry) (entry : Entry) (vid : Vid) (holder : Holder)
        → (outcome (log_effects entries) entry).effect ≡ effects.Held vid holder
        → (state_of (log_effects entries) vid.0 ≡ Working) × (holder_of (log_effects entries) vid.0 ≡ None) }
    ensures works { (entries : List Entry) (vid : ℕ) (holder : Holder) → holder_of (log_effects entries) vid ≡ Some holder
        → state_of (log_effects entries) vid ≡ Working }
{}

/// After its leave a node holds nothing, and no reservation of it stands.
pub fn a_node_that_left_has_nothing()
    ensures locks { (entries : List Entry) (node : NodeId) (vid : ℕ) (holder : Holder)
        → holder_of (log_effects (entries ++ the_entries.Leave node ∷ [])) vid ≡ Some holder → (holder.node.0 == node.0) ≡ false }
    ensures reservations { (entries : List Entry) (node : NodeId) (reservation : Reservation)
        → In reservation (reservations_of (log_effects (entries ++ the_entries.Leave node ∷ []))) → (reservation.by.0 == node.0) ≡ false }
{}

/// Three effects take a disk from its holder, and no other does: its lock is freed, it becomes a snapshot, or its holder's node
/// leaves. So does one of three entries: the holder's own unlock, a snapshot of the disk, the leave of its node.
pub fn three_effects_take_a_disk()
    ensures stays { (entries : List Entry) (entry : Entry) (vid : ℕ) (holder : Holder) → holder_of (log_effects entries) vid ≡ Some holder
        → takes_disk vid holder.node (outcome (log_effects entries) entry).effect ≡ false
        → holder_of (log_effects (entries ++ entry ∷ [])) vid ≡ Some holder }
    ensures goes { (entries : List Entry) (entry : Entry) (vid : ℕ) (holder : Holder) → holder_of (log_effects entries) vid ≡ Some holder
        → takes_disk vid holder.node (outcome (log_effects entries) entry).effect ≡ true
        → holder_of (log_effects (entries ++ entry ∷ [])) vid ≡ None }
    ensures by_entry { (entries : List Entry) (entry : Entry) (vid : ℕ) (holder : Holder)
        → holder_of (log_effects entries) vid ≡ Some holder
        → takes_disk vid holder.node (outcome (log_effects entries) entry).effect ≡ true → may_take_disk vid holder entry ≡ true }
    ensures later { (later entries : List Entry) (vid : ℕ) (holder : Holder) → holder_of (log_effects entries) vid ≡ Some holder
        → list_any (may_take_disk vid holder) later ≡ false → holder_of (log_effects (entries ++ later)) vid ≡ Some holder }
{}

/// An entry that publishes an id without a reservation of its node and of its origin decides nothing and changes nothing.
pub fn only_reservations_are_published()
    ensures unclaimed { (entries : List Entry) (by : NodeId) (vid : Vid) → reservation_on vid (reservations_of (log_effects entries)) ≡ None
        → (outcome (log_effects entries) (the_entries.Publish by vid) ≡ nothing)
        × (outcome (log_effects entries) (the_entries.Clone by vid) ≡ nothing)
        × ((old : Vid) → outcome (log_effects entries) (the_entries.Snapshot by old vid) ≡ nothing) }
    ensures publish { (entries : List Entry) (by : NodeId) (vid : Vid) (reservation : Reservation)
        → reservation_on vid (reservations_of (log_effects entries)) ≡ Some reservation
        → (reservation.by.0 == by.0 && is_for false reservation.source) ≡ false
        → outcome (log_effects entries) (the_entries.Publish by vid) ≡ nothing }
    ensures clone { (entries : List Entry) (by : NodeId) (vid : Vid) (reservation : Reservation)
        → reservation_on vid (reservations_of (log_effects entries)) ≡ Some reservation
        → (reservation.by.0 == by.0 && is_for true reservation.source) ≡ false
        → outcome (log_effects entries) (the_entries.Clone by vid) ≡ nothing }
    ensures snapshot { (entries : List Entry) (by : NodeId) (old vid : Vid) (reservation : Reservation)
        → reservation_on vid (reservations_of (log_effects entries)) ≡ Some reservation
        → (reservation.by.0 == by.0) ≡ false → outcome (log_effects entries) (the_entries.Snapshot by old vid) ≡ nothing }
    ensures base { (entries : List Entry) (by : NodeId) (old vid : Vid) (reservation : Reservation)
        → reservation_on vid (reservations_of (log_effects entries)) ≡ Some reservation
        → tag_for old reservation.source ≡ None → outcome (log_effects entries) (the_entries.Snapshot by old vid) ≡ nothing }
    ensures unheld { (entries : List Entry) (by : NodeId) (old vid : Vid) → holder_of (log_effects entries) old.0 ≡ None
        → outcome (log_effects entries) (the_entries.Snapshot by old vid) ≡ nothing }
{}

/// What is dead stays dead, and takes along every id whose parent chain has it.
pub fn the_dead_stay_dead()
    ensures heirs { (entries : List Entry) (vid other : ℕ) → IsDead (log_effects entries) vid
        → is_above (log_effects entries) vid other ≡ true
        → IsDead (log_effects entries) other }
    ensures stays { (entries later : List Entry) (vid : ℕ) → IsDead (log_effects entries) vid
        → IsDead (log_effects (entries ++ later)) vid }
{}

/// A parent chain goes back in the log: each id that is above another was granted before it.
pub fn chains_go_back_in_the_log()
    ensures { (entries : List Entry) (elder vid : ℕ) → is_above (log_effects entries) elder vid ≡ true
        → grant_place (log_effects entries) elder < grant_place (log_effects entries) vid }
{}

/// The test over the ids that were granted tells exactly which ids are dead.
pub fn a_test_finds_the_dead()
    ensures { (entries : List Entry) (vid : ℕ) → IsTrue (is_dead (log_effects entries) vid) ↔ IsDead (log_effects entries) vid }
{}

/// The free id of a name is the first that is not used, from the name's own id on, where the first id follows on the last.
/// There is none exactly where every id is used.
pub fn a_free_id_is_the_first()
    ensures unused { (name : List ℕ) (used : ℕ → Bool) (vid : ℕ) → free_id name used ≡ Some vid → IsVid vid × (used vid ≡ false) }
    ensures none { (name : List ℕ) (used : ℕ → Bool) → free_id name used ≡ None → (vid : ℕ) → IsVid vid → used vid ≡ true }
    ensures ahead { (name : List ℕ) (used : ℕ → Bool) (vid : ℕ) → free_id name used ≡ Some vid
        → own_vid name ≤ vid → (other : ℕ) → own_vid name ≤ other → other < vid → used other ≡ true }
    ensures round { (name : List ℕ) (used : ℕ → Bool) (vid : ℕ) → free_id name used ≡ Some vid
        → vid < own_vid name → (other : ℕ) → ((1 ≤ other) × (other < vid)) ⊎ ((own_vid name ≤ other) × (other ≤ VID_MAX))
        → used other ≡ true }
{}
