//! What a node's recovery sees of it and changes: its peer, and the targets of the epochs that it entered.

ghost use Rattle.std.specs.Prelude.{◌≡◌, ◌≤◌, length, take, Some, IfSome};
ghost use Rattle.object_id.specs.Policy.{IsPolicy};
ghost use Rattle.object_store.specs.Rows.{reaches};
ghost use Rattle.peer_service.specs.State.{object_policy};
ghost use Rattle.recovery.specs.Shown.{is_asked_row};
ghost use Rattle.vnode_table.specs.Targets.{targets_in};

use disk_lock::Locks;
use epoch_log::Tally;
use object_id::{Epoch, NoMemory, NodeId, Oid, Policy, TARGETS_MAX};
use object_store::{Key, ObjStore, OidList, RowCopy};
use peer_service::PeerState;
use recovery::Rows;
use std::marker::Model;
use vnode_table::Placement;

/// A peer over any store, with the epochs that its node entered, and what is kept of the entries that it has read.
#[derive(Drop)]
pub(crate) struct NodeRows<O: ObjStore> {
    pub peer: PeerState<O>,
    pub place: Placement,
    /// The entries read, counted; none before the first.
    pub tally: Option<Tally>,
    /// Who holds which disk, by the entries read.
    pub locks: Locks,
}

impl<O: ObjStore> Model for NodeRows<O> {
    ghost use Rattle.std.specs.Prelude.{List};
    ghost use Rattle.std.specs.Coded.{codes, coded_ℕ};
    ghost use Rattle.std.specs.FinMap as tree;
    ghost use Rattle.std.specs.Ordering.{nat_cmp};
    ghost use Rattle.object_store.specs.Store.{SeenRow};
    ghost use Rattle.vdi_directory.specs.DirectoryState.{AreLocks};
    ghost use Rattle.peer_service.specs.State.{effects_of};
    ghost use Rattle.sheep_node.specs.KeptLog.{IsTallySoFar};
    ghost use Rattle.sheep_node.specs.RecoveryView.{PlacedPeer};

    ghost Value = { PlacedPeer };

    ghost coded = { Prim.hlevel (codes, tree.code {X = List SeenRow} {R = nat_cmp} coded_ℕ (Prim.hlevel codes)) };

    ghost view = { λ rows. record { peer = rows.peer; epochs = rows.place } };

    ghost invariant = { λ rows. IsTallySoFar rows.peer.entries rows.tally × AreLocks (effects_of rows.peer) rows.locks };
}

/// Whether a row ends at this level or later.
fn reaches(level: Epoch, to: Option<Epoch>) -> bool
    ensures { result ≡ reaches level.0 to }
{
    match to {
        None => true,
        Some(to) => level <= to,
    }
}

/// Whether a row is as the object's rows are at a level.
fn is_asked_row(level: Epoch, wanted: u8, length: u32, row: &RowCopy) -> bool
    ensures { result ≡ is_asked_row level.0 wanted (Some length) row.now }
{
    row.from <= level && reaches(level, row.to) && row.index < wanted && row.length == length
}

impl<O: ObjStore> NodeRows<O> {
    /// The policy of an object; `None` exactly where its id isn't known.
    fn policy(&self, oid: Oid) -> Option<Policy>
        ensures value { result ≡ object_policy self.now.peer oid }
        ensures valid { IfSome result IsPolicy }
    {
        match self.peer.directory().spec(oid.vid()) {
            Some(spec) => Some(spec.policy),
            None => None,
        }
    }

    /// Writes the targets of an object at a level to the front of `out`, and answers how many they are.
    fn place_targets(
        &self,
        level: Epoch,
        oid: Oid,
        policy: Policy,
        out: &mut [NodeId; TARGETS_MAX],
    ) -> usize
        requires { IsPolicy policy }
        ensures within { result ≤ length out.new }
        ensures filled { take result out.new ≡ targets_in self.now.epochs level.0 oid policy }
    {
        // A node that has read nothing is in epoch 1, and has entered none.
        if self.place.has_entered(level) {
            self.place.targets_at(level, oid, policy, out)
        } else {
            0
        }
    }
}

impl<O: ObjStore> Rows for NodeRows<O> {
    ghost use Rattle.std.specs.Prelude.{List};
    ghost use Rattle.object_id.specs.declared.entry.Entry.{Entry};
    ghost use Rattle.vnode_table.specs.Epochs.{EpochMembers};
    ghost use Rattle.sheep_node.specs.RecoveryView.{PlacedPeer, shown_peer};

    ghost shown = { λ rows. shown_peer rows };

    ghost Rest = { List Entry × List EpochMembers };

    ghost rest = { λ rows. (rows.peer.entries, rows.epochs) };

    fn objects(&self) -> Result<OidList, NoMemory> {
        self.peer.objects()
    }

    fn targets(
        &self,
        level: Epoch,
        oid: Oid,
        out: &mut [NodeId; TARGETS_MAX],
    ) -> Option<(usize, Policy)> {
        let policy = self.peer.live_policy(oid)?;
        Some((self.place_targets(level, oid, policy, out), policy))
    }

    fn settled(&self) -> Epoch {
        self.peer.settled()
    }

    fn length(&self, oid: Oid) -> Option<u32> {
        self.peer.length_of_rows(oid)
    }

    fn has_open(&self, key: Key) -> bool {
        self.peer.has_open(&key)
    }

    fn row_at(&self, oid: Oid, level: Epoch) -> Result<Option<RowCopy>, NoMemory> {
        let Some(policy) = self.policy(oid) else {
            return Ok(None);
        };
        let Some(length) = self.length(oid) else {
            return Ok(None);
        };
        let Some(row) = self.peer.row_at(oid, level)? else {
            return Ok(None);
        };
        if is_asked_row(level, policy.wanted(oid.kind()), length, &row) {
            Ok(Some(row))
        } else {
            Ok(None)
        }
    }

    fn start_list(&mut self) {
        self.peer.start_list();
    }

    fn set_pending(&mut self, list: OidList) {
        self.peer.set_pending(list);
    }

    fn pending(&self, oid: Oid) -> bool {
        self.peer.is_pending(oid)
    }

    fn first_pending(&self) -> Option<Oid> {
        self.peer.first_pending()
    }

    fn put_row(&mut self, key: Key, length: u32, bytes: &[u8]) -> Result<(), NoMemory> {
        self.peer.put_row(key, length, bytes)
    }

    fn give_up(&mut self, oid: Oid) {
        self.peer.give_up(oid);
    }
}
