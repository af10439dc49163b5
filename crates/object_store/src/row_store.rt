ghost use Rattle.std.specs.Prelude.{◌≡◌, ℕ, ◌+◌, ◌≤◌, true, List, [], ◌∷◌, ◌++◌, length, nat_eq, slice_get, IfSome, IfOk, OnOk, OnErr, IsSome};
ghost use Rattle.std.specs.Prelude.{if◌then◌else◌, Ok, None};
ghost use Rattle.std.specs.Option.{option_map, option_copied};
ghost use Rattle.std.specs.Map.{lookup};
ghost use Rattle.std.specs.BTreeMap.{is_at};
ghost use Rattle.std.specs.Ordering.{nat_cmp};
ghost use Rattle.std.specs.FinMap as tree;
ghost use Rattle.object_id.specs.Oid.{IsVid, vid_of};
ghost use Rattle.object_store.specs.Rows.{open_at, created};
ghost use Rattle.object_store.specs.Store.{open_row, rows_of, piece_there, write_at, value_within, copy_of, summary_of};
ghost use Rattle.object_store.specs.Answers.{KeepsRoom};
ghost use Rattle.object_store.specs.KeptRows.{seen_row};
ghost use Rattle.object_store.specs.Objects.{seen_objects, kept_of, HasRoomIn, IsPut, LacksOnly, is_block_of, HaveRows-seen_objects};

use crate::fault::StoreFault;
use crate::keeps::Keeps;
use crate::key::Key;
use crate::object_rows::ObjectRows;
use crate::oid_list::OidList;
use crate::row::{Row, RowCopy, RowSummary};
use crate::row_bytes::RowBytes;
use crate::store::ObjStore;
use object_id::{Epoch, NoMemory, OBJECTS_MAX, Oid, Vid};
use std::alloc::Global;
use std::collections::BTreeMap;
use std::marker::Model;

/// A store in memory, for any way of keeping a row's bytes.
#[derive(Drop)]
pub struct RowStore<B: RowBytes> {
    alloc: Global,
    objects: BTreeMap<Oid, ObjectRows<B>>,
}

impl<B: RowBytes> Model for RowStore<B> {
    ghost use Rattle.object_store.specs.Objects.{Objects, HaveIds};

    ghost Value = { Objects B };

    ghost view = { λ s. s.objects.entries };

    ghost invariant = { λ s. HaveIds s.objects.entries };
}

impl<B: RowBytes> RowStore<B> {
    /// The store without rows. Takes no memory.
    pub fn new(alloc: Global) -> RowStore<B>
        ensures { ⟦<RowStore<B> as ObjStore>⟧.rows result ≡ tree.empty }
    {
        RowStore {
            alloc,
            objects: BTreeMap::new(alloc),
        }
    }

    /// The open row of a key.
    fn open_row(&self, key: &Key) -> Option<&Row<B>>
        ensures { option_map (seen_row B.bytes) (option_copied result) ≡ open_row (seen_objects B.bytes self.now) key.now }
    {
        match self.objects.get(&key.oid) {
            Some(rows) => rows.open_row(key.index),
            None => None,
        }
    }

    /// Row number `k` of an object.
    fn row(&self, oid: Oid, k: usize) -> Option<&Row<B>>
        ensures { option_map (seen_row B.bytes) (option_copied result) ≡ slice_get (rows_of (seen_objects B.bytes self.now) oid) k }
    {
        match self.objects.get(&oid) {
            Some(rows) => rows.get(k),
            None => None,
        }
    }

    /// Whether a piece is inside the open row of a key, or why not.
    fn check_piece(&self, key: &Key, offset: u32, length: usize) -> Result<(), StoreFault>
        ensures { result ≡ piece_there (seen_objects B.bytes self.now) key.now offset length }
    {
        match self.open_row(key) {
            Some(row) => check_end(offset, length, row.bytes.len()),
            None => Err(StoreFault::NoObj),
        }
    }

    /// Makes the open row of an object. Without memory the rows stay.
    fn put(&mut self, key: &Key, epoch: Epoch, bytes: B) -> Result<(), NoMemory>
        ensures ok { OnOk result (IsPut self.old self.new key.now.oid
            (created key.now.index epoch.0 bytes (kept_of self.old key.now.oid))) }
        ensures err { OnErr result (self.new ≡ self.old) }
    {
        if self.objects.contains_key(&key.oid) {
            self.put_there(key, epoch, bytes)
        } else {
            self.put_new(key, epoch, bytes)
        }
    }

    fn put_there(&mut self, key: &Key, epoch: Epoch, bytes: B) -> Result<(), NoMemory>
        requires { IsSome (lookup (is_at (nat_cmp key.now.oid)) self.old) }
        ensures ok { OnOk result (IsPut self.old self.new key.now.oid
            (created key.now.index epoch.0 bytes (kept_of self.old key.now.oid))) }
        ensures err { OnErr result (self.new ≡ self.old) }
    {
        let Some(rows) = self.objects.get_mut(&key.oid) else {
            return Ok(());
        };
        rows.create(key.index, epoch, bytes)
    }

    fn put_new(&mut self, key: &Key, epoch: Epoch, bytes: B) -> Result<(), NoMemory>
        requires { lookup (is_at (nat_cmp key.now.oid)) self.old ≡ None }
        ensures ok { OnOk result (IsPut self.old self.new key.now.oid
            (created key.now.index epoch.0 bytes (kept_of self.old key.now.oid))) }
        ensures err { OnErr result (self.new ≡ self.old) }
    {
        let mut rows = ObjectRows::new(self.alloc);
        rows.create(key.index, epoch, bytes)?;
        let _number = key.oid.as_u64();
        self.objects.insert(key.oid, rows)?;
        Ok(())
    }

    /// Gives a piece of the open row of a key room.
    fn keep(&mut self, key: &Key, offset: u32, count: u32) -> Result<(), NoMemory>
        requires { piece_there (seen_objects B.bytes self.old) key.now offset count ≡ Ok (tt {0}) }
        ensures rows { seen_objects B.bytes self.new ≡ seen_objects B.bytes self.old }
        ensures room { KeepsRoom (HasRoomIn B.HasRoom self.old) (HasRoomIn B.HasRoom self.new) }
        ensures ok { OnOk result (HasRoomIn B.HasRoom self.new key.now offset count) }
    {
        let alloc = self.alloc;
        let Some(rows) = self.objects.get_mut(&key.oid) else {
            return Ok(());
        };
        rows.reserve(alloc, key.index, offset, count)
    }

    /// Lays a piece over the open row of a key.
    fn lay(&mut self, key: &Key, offset: u32, piece: &[u8])
        requires there { piece_there (seen_objects B.bytes self.old) key.now offset (length piece.now) ≡ Ok (tt {0}) }
        requires room { HasRoomIn B.HasRoom self.old key.now offset (length piece.now) }
        ensures rows { write_at (seen_objects B.bytes self.old) key.now offset piece.now ≡ Ok (seen_objects B.bytes self.new) }
        ensures room { KeepsRoom (HasRoomIn B.HasRoom self.old) (HasRoomIn B.HasRoom self.new) }
    {
        let Some(rows) = self.objects.get_mut(&key.oid) else {
            return;
        };
        rows.write(key.index, offset, piece);
    }

    /// A data object of a disk that is there, if there is one.
    fn block_of(&self, vid: Vid) -> Option<Oid>
        requires { IsVid vid.0 }
        ensures some { IfSome result (λ oid. (is_block_of vid.0 oid ≡ true) × IsSome (lookup (is_at (nat_cmp oid)) self.now)) }
        ensures none { result ≡ None → (q : ℕ) → is_block_of vid.0 q ≡ true → lookup (is_at (nat_cmp q)) self.now ≡ None }
    {
        let first = Oid::object(vid, 0);
        let last = Oid::object(vid, OBJECTS_MAX - 1);
        match self.objects.range(first..=last).next() {
            Some((oid, _)) => Some(*oid),
            None => None,
        }
    }

    /// Drops the data objects of a disk, each with a look-up.
    fn drop_blocks(&mut self, vid: Vid)
        requires { IsVid vid.0 }
        ensures { LacksOnly (is_block_of vid.0) self.old self.new }
    {
        while let Some(oid) = self.block_of(vid) {
            self.objects.remove(&oid);
        }
    }

    /// Drops the objects of a disk. No other number is the id of one.
    fn drop_disk(&mut self, vid: Vid)
        ensures { LacksOnly (λ q. nat_eq (vid_of q) vid.0) self.old self.new }
    {
        let objects = &mut self.objects;
        if !vid.is_valid() {
            return;
        }
        objects.remove(&Oid::inode(vid));
        self.drop_blocks(vid);
    }
}

impl<B: RowBytes> ObjStore for RowStore<B> {
    ghost rows = { seen_objects B.bytes };

    ghost HasRoom = { HasRoomIn B.HasRoom };

    ghost there = { HaveRows-seen_objects B.bytes };

    fn create(
        &mut self,
        key: Key,
        epoch: Epoch,
        length: u32,
        offset: u32,
        bytes: &[u8],
    ) -> Result<(), StoreFault> {
        check_end(offset, bytes.len(), length)?;
        let kept = B::new(self.alloc, length, offset, bytes)?;
        self.put(&key, epoch, kept)?;
        Ok(())
    }

    fn reserve_write(&mut self, key: Key, offset: u32, length: u32) -> Result<(), StoreFault> {
        self.check_piece(&key, offset, length as usize)?;
        self.keep(&key, offset, length)?;
        Ok(())
    }

    fn write(&mut self, key: Key, offset: u32, bytes: &[u8]) -> Result<(), StoreFault> {
        self.check_piece(&key, offset, bytes.len())?;
        self.lay(&key, offset, bytes);
        Ok(())
    }

    fn read(&self, key: Key, offset: u32, out: &mut [u8]) -> Result<(), StoreFault> {
        let Some(row) = self.open_row(&key) else {
            return Err(StoreFault::NoObj);
        };
        check_end(offset, out.len(), row.bytes.len())?;
        row.bytes.read(offset, out);
        Ok(())
    }

    fn open_length(&self, key: Key) -> Option<u32> {
        match self.open_row(&key) {
            Some(row) => Some(row.bytes.len()),
            None => None,
        }
    }

    fn row_at(&self, oid: Oid, level: Epoch) -> Result<Option<RowCopy>, NoMemory> {
        let Some(rows) = self.objects.get(&oid) else {
            return Ok(None);
        };
        let Some(row) = rows.row_holding(level) else {
            return Ok(None);
        };
        Ok(Some(copy_row(self.alloc, row)?))
    }

    fn row_summary(&self, oid: Oid, k: usize) -> Option<RowSummary> {
        match self.row(oid, k) {
            Some(row) => Some(summary(row)),
            None => None,
        }
    }

    fn row_count(&self) -> u128 {
        let _objects = self.objects.len();
        self.objects.values().map(|rows| rows.len() as u128).sum()
    }

    fn advance(&mut self, next: Epoch, keeps: &[Key]) {
        let keeps = Keeps::new(keeps);
        self.objects.retain(|oid, rows| {
            rows.advance(&keeps, next, *oid);
            !rows.is_empty()
        });
    }

    fn close_all(&mut self, last: Epoch) {
        self.objects.retain(|_, rows| {
            rows.close_all(last);
            !rows.is_empty()
        });
    }

    fn purge_below(&mut self, settled: Epoch) {
        self.objects.retain(|_, rows| {
            rows.purge_below(settled);
            !rows.is_empty()
        });
    }

    fn drop_vid(&mut self, vid: Vid) {
        self.drop_disk(vid);
    }

    fn list(&self) -> Result<OidList, NoMemory> {
        let mut oids = Vec::new(self.alloc);
        for (oid, rows) in self.objects.iter() {
            add_id(&mut oids, *oid, rows)?;
        }
        Ok(OidList::from_vec(oids))
    }
}

/// Adds the id of an object, if it has rows.
fn add_id<B: RowBytes>(oids: &mut Vec<Oid>, oid: Oid, rows: &ObjectRows<B>) -> Result<(), NoMemory>
    ensures { OnOk result (oids.new.items ≡ oids.old.items ++ (if nat_eq (length rows.now) 0 then [] else oid ∷ [])) }
{
    if !rows.is_empty() {
        oids.push(oid)?;
    }
    Ok(())
}

/// Whether a piece of `length` bytes from `offset` on ends within `size` bytes.
fn check_end(offset: u32, length: usize, size: u32) -> Result<(), StoreFault>
    ensures { result ≡ value_within (offset + length) size tt }
{
    if length <= size as usize && offset as usize <= size as usize - length {
        Ok(())
    } else {
        Err(StoreFault::OutOfObject)
    }
}

fn summary<B: RowBytes>(row: &Row<B>) -> RowSummary
    ensures { result ≡ summary_of (seen_row B.bytes row.now) }
{
    RowSummary {
        index: row.index,
        from: row.from,
        to: row.to,
        length: row.bytes.len(),
        hash: row.bytes.hash(),
    }
}

fn copy_row<B: RowBytes>(alloc: Global, row: &Row<B>) -> Result<RowCopy, NoMemory>
    ensures { IfOk result (λ copy. copy ≡ copy_of (seen_row B.bytes row.now)) }
{
    Ok(RowCopy {
        index: row.index,
        from: row.from,
        to: row.to,
        length: row.bytes.len(),
        bytes: row.bytes.trimmed(alloc)?,
    })
}
