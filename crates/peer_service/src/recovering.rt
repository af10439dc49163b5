//! What a node's recovery asks of it beside the calls of the peer itself.

ghost use Rattle.std.specs.Prelude.{◌≡◌, IfOk, IfSome};
ghost use Rattle.std.specs.FinMap as tree;
ghost use Rattle.object_id.specs.Policy.{IsPolicy};
ghost use Rattle.object_id.specs.Spec.{IsSpec};
ghost use Rattle.object_store.specs.Store.{copy_at};
ghost use Rattle.peer_service.specs.State.{object_size, row_size, length_of_rows, policy_unless_dead, is_listed_pending, first_listed};

use crate::log_reading::is_dead;
use crate::peer_state::PeerState;
use inode::INODE_BYTES;
use object_id::{Epoch, Kind, NoMemory, Oid, Policy, VdiSpec};
use object_store::{ObjStore, OidList, RowCopy};
use strip_coding::part_size;

/// How many bytes an object of this kind has, on a disk of this spec. Costs nothing.
pub fn object_size(spec: VdiSpec, kind: Kind) -> u32
    requires { IsSpec spec }
    ensures { result ≡ object_size spec kind }
{
    match kind {
        Kind::Block => 1 << spec.shift,
        Kind::Inode => INODE_BYTES,
    }
}

/// How many bytes each row of an object has.
fn row_size(kind: Kind, spec: VdiSpec) -> u32
    requires { IsSpec spec }
    ensures { result ≡ row_size kind spec }
{
    part_size(spec.policy, kind, object_size(spec, kind) as usize) as u32
}

impl<O: ObjStore> PeerState<O> {
    /// The ids of the objects that have rows. Takes these ids, and costs them.
    pub fn objects(&self) -> Result<OidList, NoMemory>
        ensures { IfOk result (λ oids. oids ≡ tree.keys self.now.rows) }
    {
        self.store.list()
    }

    /// A copy of the object's row that holds the level; of several the one from the latest epoch, and of equal ones the one made last.
    /// Costs a look at each row of the object, and the bytes of the copy.
    pub fn row_at(&self, oid: Oid, level: Epoch) -> Result<Option<RowCopy>, NoMemory>
        ensures { IfOk result (λ row. row ≡ copy_at self.now.rows oid level.0) }
    {
        self.store.row_at(oid, level)
    }

    /// How many bytes each row of an object has; `None` exactly where its id isn't known. Takes no memory. Costs the logarithm of the
    /// known ids.
    pub fn length_of_rows(&self, oid: Oid) -> Option<u32>
        ensures { result ≡ length_of_rows self.now oid }
    {
        match self.directory.spec(oid.vid()) {
            Some(spec) => Some(row_size(oid.kind(), spec)),
            None => None,
        }
    }

    /// The policy of an object; `None` exactly where its id isn't known or is dead. Takes no memory. Costs the logarithm of the known
    /// ids.
    pub fn live_policy(&self, oid: Oid) -> Option<Policy>
        ensures value { result ≡ policy_unless_dead self.now oid }
        ensures valid { IfSome result IsPolicy }
    {
        if is_dead(&self.directory, oid.vid()) {
            return None;
        }
        match self.directory.spec(oid.vid()) {
            Some(spec) => Some(spec.policy),
            None => None,
        }
    }

    /// Whether an object is pending: none is while the list is unfinished. Costs the logarithm of what is pending.
    pub fn is_pending(&self, oid: Oid) -> bool
        ensures { result ≡ is_listed_pending oid self.now.pending }
    {
        match &self.pending {
            None => false,
            Some(oids) => oids.has(oid),
        }
    }

    /// The smallest pending object; `None` exactly where nothing is pending. Costs nothing.
    pub fn first_pending(&self) -> Option<Oid>
        ensures { result ≡ first_listed self.now.pending }
    {
        match &self.pending {
            None => None,
            Some(oids) => oids.get(0).copied(),
        }
    }
}
