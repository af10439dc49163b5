ghost use Rattle.std.specs.Prelude.{◌≡◌, ◌+◌, ◌≤◌, length, is_some, OnOk, OnErr};
ghost use Rattle.std.specs.Option.{option_copied};
ghost use Rattle.object_store.specs.Store.{open_row, OpenUpTo};
ghost use Rattle.peer_service.specs.State.{initial_peer, is_waiting};
ghost use Rattle.peer_service.specs.Fence.{epoch_refusal, admission};
ghost use Rattle.peer_service.specs.Pending.{row_made, row_put, FitsRow, with_unfinished_list, with_pending, without_pending};
ghost use Rattle.peer_service.specs.Epochs.{peer_settled_to};

use object_id::{Epoch, NoMemory, Oid};
use object_store::{Key, ObjStore, OidList};
use peer_proto::Refusal;
use std::alloc::Global;
use std::marker::Model;
use vdi_directory::Directory;

/// What of a node its peers reach: its rows, its epoch, the settled epoch that it has read, what is still to be recovered, and the
/// entries of the log that it has read, as a directory of disks.
#[derive(Drop)]
pub struct PeerState<O: ObjStore> {
    pub(crate) alloc: Global,
    pub(crate) store: O,
    pub(crate) epoch: Epoch,
    pub(crate) settled: Epoch,
    /// The objects that are still to be recovered; none while the list is unfinished.
    pub(crate) pending: Option<OidList>,
    pub(crate) directory: Directory,
}

impl<O: ObjStore> Model for PeerState<O> {
    ghost use Rattle.std.specs.Prelude.{List};
    ghost use Rattle.std.specs.Coded.{codes, coded_ℕ};
    ghost use Rattle.std.specs.FinMap as tree;
    ghost use Rattle.std.specs.Ordering.{nat_cmp};
    ghost use Rattle.object_store.specs.Store.{SeenRow, OpenUpTo};
    ghost use Rattle.peer_service.specs.State.{Peer};

    ghost Value = { Peer };

    ghost coded = { Prim.hlevel (codes, tree.code {X = List SeenRow} {R = nat_cmp} coded_ℕ (Prim.hlevel codes)) };

    ghost view = { λ state. record {
      epoch = state.epoch.0;
      settled = state.settled.0;
      rows = O.rows state.store;
      pending = state.pending;
      entries = state.directory;
    } };

    ghost invariant = { λ state. OpenUpTo state.epoch.0 (O.rows state.store) };
}

/// Why a node of an epoch refuses a request of another one; `None` exactly where it doesn't.
fn epoch_refusal(own: Epoch, requested: Epoch) -> Option<Refusal>
    ensures { result ≡ epoch_refusal own.0 requested.0 }
{
    if requested < own {
        Some(Refusal::OldEpoch { own })
    } else if own < requested {
        Some(Refusal::NewEpoch { own })
    } else {
        None
    }
}

impl<O: ObjStore> PeerState<O> {
    /// A peer that has read no entry: its list is finished, and nothing is pending. Takes no memory, and costs nothing.
    pub fn new(alloc: Global, store: O, epoch: Epoch) -> PeerState<O>
        requires { OpenUpTo epoch.0 (O.rows store) }
        ensures { result ≡ initial_peer (O.rows store) epoch.0 }
    {
        PeerState {
            alloc,
            store,
            epoch,
            settled: Epoch(1),
            pending: Some(OidList::new(alloc)),
            directory: Directory::new(alloc),
        }
    }

    /// Whether a request of an epoch is taken: OldEpoch exactly of an older one than the node's own, NewEpoch exactly of a newer one,
    /// and no other refusal. Takes no memory, and costs nothing.
    pub fn admits(&self, epoch: Epoch) -> Result<(), Refusal>
        ensures { result ≡ admission self.now.epoch epoch.0 }
    {
        match epoch_refusal(self.epoch, epoch) {
            None => Ok(()),
            Some(refusal) => Err(refusal),
        }
    }

    /// The node's epoch. Costs nothing.
    pub fn epoch(&self) -> Epoch
        ensures { result.0 ≡ self.now.epoch }
    {
        self.epoch
    }

    /// The settled epoch that the node has read, 1 at first. Costs nothing.
    pub fn settled(&self) -> Epoch
        ensures { result.0 ≡ self.now.settled }
    {
        self.settled
    }

    /// The store of the node's rows. Costs nothing.
    pub fn store(&self) -> &O
        ensures { O.rows result.now ≡ self.now.rows }
    {
        &self.store
    }

    /// The store, with the rows as they are. Takes no memory, and costs nothing.
    pub fn into_store(self) -> O
        ensures rows { O.rows result ≡ self.rows }
        ensures opened { OpenUpTo self.epoch (O.rows result) }
    {
        self.store
    }

    /// The directory of the entries that were read. Costs nothing.
    pub fn directory(&self) -> &Directory
        ensures { result.now ≡ self.now.entries }
    {
        &self.directory
    }

    /// The objects that are still to be recovered; `None` exactly while the list is unfinished. Costs nothing.
    pub fn pending(&self) -> Option<&OidList>
        ensures { option_copied result ≡ self.now.pending }
    {
        self.pending.as_ref()
    }

    /// Whether reads and writes of an object are refused until it is recovered: while the list is unfinished those of each object, then
    /// those of the pending ones. Costs the logarithm of what is pending.
    pub fn is_waiting(&self, oid: Oid) -> bool
        ensures { result ≡ is_waiting self.now oid }
    {
        match &self.pending {
            None => true,
            Some(oids) => oids.has(oid),
        }
    }

    /// Whether there is an open row of the key. Takes no memory. Costs a look-up in the store.
    pub fn has_open(&self, key: &Key) -> bool
        ensures { result ≡ is_some (open_row self.now.rows key.now) }
    {
        self.store.read(*key, 0, &mut []).is_ok()
    }

    /// The settled epoch rises: the closed rows that ended below it go. Takes no memory. Costs a look at each row.
    #[tactic(auto, unfolding(crate::specs::Epochs::peer_settled_to))]
    pub fn settle(&mut self, settled: Epoch)
        ensures { self.new ≡ peer_settled_to settled.0 self.old }
    {
        self.store.purge_below(settled);
        self.settled = settled;
    }

    /// The list of what is pending is unfinished. Takes no memory, and costs nothing.
    pub fn start_list(&mut self)
        ensures { self.new ≡ with_unfinished_list self.old }
    {
        self.pending = None;
    }

    /// The list is finished, and these objects are pending. Takes no memory, and costs nothing.
    pub fn set_pending(&mut self, list: OidList)
        ensures { self.new ≡ with_pending list self.old }
    {
        self.pending = Some(list);
    }

    /// The object is pending no more. Takes no memory. Costs the logarithm of what is pending, and a move of what is behind the object
    /// where it isn't the first.
    pub fn give_up(&mut self, oid: Oid)
        ensures { self.new ≡ without_pending oid self.old }
    {
        if let Some(oids) = &mut self.pending {
            oids.remove(oid);
        }
    }

    /// Makes the object's open row of the key, from the node's epoch on: so many bytes, those of the piece from `offset` on and else 0.
    /// The object is pending no more. Without memory nothing changes.
    pub(crate) fn make_row(
        &mut self,
        key: &Key,
        size: u32,
        offset: u32,
        bytes: &[u8],
    ) -> Result<(), NoMemory>
        requires { offset + length bytes.now ≤ size }
        ensures ok { OnOk result (self.new ≡ row_made key.now size offset bytes.now self.old) }
        ensures err { OnErr result (self.new ≡ self.old) }
    {
        let epoch = self.epoch;
        match self.store.create(*key, epoch, size, offset, bytes) {
            Ok(()) => {
                self.give_up(key.oid);
                Ok(())
            }
            Err(_) => Err(NoMemory),
        }
    }

    /// Makes the object's open row that was recovered, from the node's epoch on: `length` bytes that begin with these and are else 0.
    /// The object is pending no more. Without memory nothing changes. Costs the logarithm of the objects and of what is pending, and
    /// the bytes.
    pub fn put_row(&mut self, key: Key, length: u32, bytes: &[u8]) -> Result<(), NoMemory>
        requires { FitsRow length bytes.now }
        ensures ok { OnOk result (self.new ≡ row_put key length bytes.now self.old) }
        ensures err { OnErr result (self.new ≡ self.old) }
    {
        self.make_row(&key, length, 0, bytes)
    }
}
