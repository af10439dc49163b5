ghost use Rattle.std.specs.Prelude.{◌≡◌, ◌≤◌, is_some, IfOk, OnOk, OnErr};
ghost use Rattle.std.specs.FinMap as tree;
ghost use Rattle.object_store.specs.Store.{open_row};
ghost use Rattle.recovery.specs.Shown.{NodeView, TargetsOf, live_policy, first_in, is_pending_object, own_row, shown_with_unfinished_list};
ghost use Rattle.recovery.specs.Shown.{shown_with_pending, shown_without_pending, with_row, IsUpTo};

use object_id::{Epoch, NoMemory, NodeId, Oid, Policy, TARGETS_MAX};
use object_store::{Key, OidList, RowCopy};

/// What a recovery needs of its node: to see its rows, its settled epoch, what is pending, the placement and the
/// lengths of objects, and to change rows and what is pending.
pub trait Rows {
    /// What the node shows.
    ghost shown: { Self → NodeView };

    /// What else the node is: a recovery reads nothing of it, and changes nothing.
    ghost Rest: { Type 0 };

    ghost rest: { Self → Rest };

    /// The ids of the objects that have rows.
    fn objects(&self) -> Result<OidList, NoMemory>
        ensures { IfOk result (λ oids. oids ≡ tree.keys (shown self.now).rows) };

    /// Writes the object's targets at the level to the front of `out`, and answers how many they are, with the object's
    /// policy; `None` exactly where its id isn't known or is dead.
    fn targets(
        &self,
        level: Epoch,
        oid: Oid,
        out: &mut [NodeId; TARGETS_MAX],
    ) -> Option<(usize, Policy)>
        requires from { 1 ≤ level.0 }
        requires to { level.0 ≤ (shown self.now).epoch }
        ensures { TargetsOf (shown self.now) level.0 oid out.new result (live_policy (shown self.now) oid) };

    /// The settled epoch that the node has read.
    fn settled(&self) -> Epoch
        ensures { result.0 ≡ (shown self.now).settled };

    /// The length of the object's rows; `None` exactly where its id isn't known.
    fn length(&self, oid: Oid) -> Option<u32>
        ensures { result ≡ (shown self.now).size_of oid };

    /// Whether there is an open row of the key.
    fn has_open(&self, key: Key) -> bool
        ensures { result ≡ is_some (open_row (shown self.now).rows key) };

    /// A copy of the node's own row that holds the level, where it has the length of the object's rows and an index
    /// below the wanted number.
    fn row_at(&self, oid: Oid, level: Epoch) -> Result<Option<RowCopy>, NoMemory>
        ensures { IfOk result (λ row. row ≡ own_row (shown self.now) oid level.0) };

    /// The node doesn't know any more what is pending. Takes no memory.
    fn start_list(&mut self)
        ensures shown { shown self.new ≡ shown_with_unfinished_list (shown self.old) }
        ensures rest { rest self.new ≡ rest self.old };

    /// These objects are pending. Takes no memory.
    fn set_pending(&mut self, list: OidList)
        ensures shown { shown self.new ≡ shown_with_pending list (shown self.old) }
        ensures rest { rest self.new ≡ rest self.old };

    /// Whether the object is pending.
    fn pending(&self, oid: Oid) -> bool
        ensures { result ≡ is_pending_object oid (shown self.now).pending };

    /// The smallest pending object; `None` exactly where nothing is pending.
    fn first_pending(&self) -> Option<Oid>
        ensures { result ≡ first_in (shown self.now).pending };

    /// Makes the object's open row, from the node's epoch on: `length` bytes that begin with these and are else 0. The
    /// object is pending no more.
    fn put_row(&mut self, key: Key, length: u32, bytes: &[u8]) -> Result<(), NoMemory>
        requires { IsUpTo length bytes.now }
        ensures ok { OnOk result (shown self.new ≡ with_row key length bytes.now (shown self.old)) }
        ensures err { OnErr result (shown self.new ≡ shown self.old) }
        ensures rest { rest self.new ≡ rest self.old };

    /// The object is pending no more. Takes no memory.
    fn give_up(&mut self, oid: Oid)
        ensures shown { shown self.new ≡ shown_without_pending oid (shown self.old) }
        ensures rest { rest self.new ≡ rest self.old };
}
