//! A node for the tests of a recovery: its rows in a plain store, one policy for all objects, and two target lists.

ghost use Rattle.std.specs.Prelude.{◌≡◌, ℕ, ◌+◌, ◌-◌, ◌^◌, ◌==◌, ◌≤◌, ◌<◌, take, length, is_some, Some, IfOk, IfSome, OnOk, OnErr};
ghost use Rattle.std.specs.Prelude.{if◌then◌else◌};
ghost use Rattle.std.specs.List.{list_any};
ghost use Rattle.std.specs.FinMap as tree;
ghost use Rattle.object_id.specs.Oid.{kind_of};
ghost use Rattle.object_id.specs.Policy.{IsPolicy, wanted_of};
ghost use Rattle.object_store.specs.Rows.{reaches};
ghost use Rattle.object_store.specs.Store.{rows_of, open_row, copy_at, create_in};
ghost use Rattle.recovery.specs.Shown.{fitting, is_asked_row, IsUpTo};
ghost use Rattle.recovery.specs.Step.{IsPartSize};

use object_id::{Epoch, Kind, NoMemory, NodeId, Oid, Policy, TARGETS_MAX};
use object_store::{Key, ObjStore, OidList, PlainStore, RowCopy};
use recovery::Rows;
use std::alloc::Global;
use std::marker::Model;

/// How the objects are kept: by one policy, in rows of one length.
#[derive(Drop)]
pub struct Layout {
    policy: Policy,
    length: u32,
}

impl Model for Layout {
    ghost use Rattle.std.specs.Prelude.{ℕ};
    ghost use Rattle.object_id.specs.declared.policy.Policy.{Policy};
    ghost use Rattle.object_id.specs.Policy.{IsPolicy};
    ghost use Rattle.recovery.specs.Step.{IsPartSize};

    ghost Value = { Policy × ℕ };

    ghost view = { λ layout. (layout.policy, layout.length) };

    ghost invariant = { λ layout. IsPolicy layout.policy × ((oid : ℕ) → IsPartSize layout.policy oid layout.length) };
}

impl Layout {
    /// `None` if the policy isn't valid, or the rows aren't parts of whole blocks.
    pub fn of(policy: Policy, length: u32) -> Option<Layout> {
        if policy.is_valid() && u64::from(length) * u64::from(policy.need(Kind::Block)) % 512 == 0 {
            Some(Layout { policy, length })
        } else {
            None
        }
    }

    pub fn policy(&self) -> Policy
        ensures value { result ≡ self.now.0 }
        ensures valid { IsPolicy result }
    {
        self.policy
    }

    pub fn length(&self) -> u32
        ensures value { result ≡ self.now.1 }
        ensures parts { (oid : ℕ) → IsPartSize self.now.0 oid result }
    {
        self.length
    }
}

/// The rows of a node, and its epoch.
#[derive(Drop)]
pub struct Kept {
    store: PlainStore,
    epoch: Epoch,
}

impl Model for Kept {
    ghost use Rattle.std.specs.Prelude.{ℕ, List};
    ghost use Rattle.std.specs.Coded.{codes, coded_ℕ};
    ghost use Rattle.std.specs.FinMap as tree;
    ghost use Rattle.std.specs.Ordering.{nat_cmp};
    ghost use Rattle.object_store.specs.Store.{SeenRow, AllRows, OpenUpTo};

    ghost Value = { ℕ × AllRows };

    ghost coded = { Prim.hlevel (codes, tree.code {X = List SeenRow} {R = nat_cmp} coded_ℕ (Prim.hlevel codes)) };

    ghost view = { λ kept. (kept.epoch.0, ⟦<PlainStore as ObjStore>⟧.rows kept.store) };

    ghost invariant = { λ kept. OpenUpTo kept.epoch.0 (⟦<PlainStore as ObjStore>⟧.rows kept.store) };
}

impl Kept {
    /// No rows, at an epoch.
    pub fn new(alloc: Global, epoch: Epoch) -> Kept
        ensures { result ≡ (epoch.0, tree.empty) }
    {
        Kept {
            store: PlainStore::new(alloc),
            epoch,
        }
    }

    pub fn epoch(&self) -> Epoch
        ensures { result.0 ≡ self.now.0 }
    {
        self.epoch
    }

    fn objects(&self) -> Result<OidList, NoMemory>
        ensures { IfOk result (λ oids. oids ≡ tree.keys self.now.1) }
    {
        self.store.list()
    }

    fn has_open(&self, key: Key) -> bool
        ensures { result ≡ is_some (open_row self.now.1 key) }
    {
        self.store.read(key, 0, &mut []).is_ok()
    }

    fn row_at(&self, oid: Oid, level: Epoch) -> Result<Option<RowCopy>, NoMemory>
        ensures { IfOk result (λ row. row ≡ copy_at self.now.1 oid level.0) }
    {
        self.store.row_at(oid, level)
    }

    /// Makes an open row, from the epoch on.
    pub fn put(&mut self, key: &Key, length: u32, bytes: &[u8]) -> Result<(), NoMemory>
        requires { IsUpTo length bytes.now }
        ensures ok { OnOk result (self.new ≡ (
          self.old.0,
          tree.insert self.old.1 key.now.oid (create_in key.now.index self.old.0 length 0 bytes.now (rows_of self.old.1 key.now.oid)),
        )) }
        ensures err { OnErr result (self.new ≡ self.old) }
    {
        match self.store.create(*key, self.epoch, length, 0, bytes) {
            Ok(()) => Ok(()),
            Err(_) => Err(NoMemory),
        }
    }

    /// Goes to the next epoch, in which no row stays open.
    pub fn advance(&mut self)
        requires { self.old.0 < 2 ^ 32 - 1 }
        ensures { self.new.0 ≡ self.old.0 + 1 }
    {
        let next = Epoch(self.epoch.0 + 1);
        self.store.advance(next, &[]);
        self.epoch = next;
    }
}

/// Whether a row of this ending reaches to the level.
fn reaches(level: Epoch, to: Option<Epoch>) -> bool
    ensures { result ≡ reaches level.0 to }
{
    match to {
        Some(to) => level <= to,
        None => true,
    }
}

/// Whether a row is as the objects' rows are at a level.
fn is_asked_row(level: Epoch, wanted: u8, length: u32, row: &RowCopy) -> bool
    ensures { result ≡ is_asked_row level.0 wanted (Some length) row.now }
{
    row.from <= level && reaches(level, row.to) && row.index < wanted && row.length == length
}

/// A node.
#[derive(Drop)]
pub struct Node {
    pub kept: Kept,
    pub settled: Epoch,
    pub pending: Option<OidList>,
    pub layout: Layout,
    /// The objects whose ids are dead.
    pub dead: Vec<Oid>,
    /// The targets of each object in the node's epoch, and in those before it.
    pub targets_now: Vec<NodeId>,
    pub targets_before: Vec<NodeId>,
}

impl Node {
    /// A node of epoch 2 without rows and targets.
    pub fn new(alloc: Global, layout: Layout) -> Node {
        Node {
            kept: Kept::new(alloc, Epoch(2)),
            settled: Epoch(1),
            pending: Some(OidList::new(alloc)),
            layout,
            dead: Vec::new(alloc),
            targets_now: Vec::new(alloc),
            targets_before: Vec::new(alloc),
        }
    }

    fn is_dead(&self, oid: Oid) -> bool
        ensures { result ≡ list_any (λ other. other == oid) self.now.dead.items }
    {
        self.dead.as_slice().contains(&oid)
    }

    fn list_at(&self, level: Epoch) -> &[NodeId]
        ensures { result.now ≡ (if level.0 == self.now.kept.0 then self.now.targets_now.items else self.now.targets_before.items) }
    {
        if level == self.kept.epoch() {
            self.targets_now.as_slice()
        } else {
            self.targets_before.as_slice()
        }
    }
}

impl Rows for Node {
    ghost shown = { λ node. record {
      epoch = node.kept.0;
      settled = node.settled.0;
      rows = node.kept.1;
      pending = node.pending;
      policy_of = λ oid. Some node.layout.0;
      is_dead = λ oid. list_any (λ other. other == oid) node.dead.items;
      size_of = λ oid. Some node.layout.1;
      targets = λ level oid policy. take (wanted_of policy (kind_of oid))
          (if level == node.kept.0 then node.targets_now.items else node.targets_before.items);
    } };

    ghost Rest = { Unit {0} };

    ghost rest = { λ node. tt };

    fn objects(&self) -> Result<OidList, NoMemory> {
        self.kept.objects()
    }

    fn targets(
        &self,
        level: Epoch,
        oid: Oid,
        out: &mut [NodeId; TARGETS_MAX],
    ) -> Option<(usize, Policy)> {
        if self.is_dead(oid) {
            return None;
        }
        let policy = self.layout.policy();
        let list = self.list_at(level);
        let count = list.len().min(policy.wanted(oid.kind()) as usize);
        out[..count].copy_from_slice(&list[..count]);
        Some((count, policy))
    }

    fn settled(&self) -> Epoch {
        self.settled
    }

    fn length(&self, _oid: Oid) -> Option<u32> {
        Some(self.layout.length())
    }

    fn has_open(&self, key: Key) -> bool {
        self.kept.has_open(key)
    }

    fn row_at(&self, oid: Oid, level: Epoch) -> Result<Option<RowCopy>, NoMemory> {
        let Some(row) = self.kept.row_at(oid, level)? else {
            return Ok(None);
        };
        let wanted = self.layout.policy().wanted(oid.kind());
        if is_asked_row(level, wanted, self.layout.length(), &row) {
            Ok(Some(row))
        } else {
            Ok(None)
        }
    }

    fn start_list(&mut self) {
        self.pending = None;
    }

    fn set_pending(&mut self, list: OidList) {
        self.pending = Some(list);
    }

    fn pending(&self, oid: Oid) -> bool {
        match &self.pending {
            None => false,
            Some(oids) => oids.has(oid),
        }
    }

    fn first_pending(&self) -> Option<Oid> {
        match &self.pending {
            None => None,
            Some(oids) => oids.get(0).copied(),
        }
    }

    fn put_row(&mut self, key: Key, length: u32, bytes: &[u8]) -> Result<(), NoMemory> {
        self.kept.put(&key, length, bytes)?;
        self.give_up(key.oid);
        Ok(())
    }

    fn give_up(&mut self, oid: Oid) {
        if let Some(oids) = &mut self.pending {
            oids.remove(oid);
        }
    }
}
