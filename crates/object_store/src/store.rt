ghost use Rattle.std.specs.Prelude.{◌≡◌, ℕ, ◌≤◌, ◌<◌, length, IfOk, OnOk, OnErr};
ghost use Rattle.std.specs.FinMap as tree;
ghost use Rattle.object_store.specs.declared.key.Key.{Key};
ghost use Rattle.object_store.specs.Rows.{OpenFrom, closed_all, advanced, purged, without_disk};
ghost use Rattle.object_store.specs.Store.{AllRows, rows_of, create_at, piece_there, write_at, read_at, copy_at, summary_at, row_count};
ghost use Rattle.object_store.specs.Store.{open_length, each, HaveRows, OpenUpTo, OpenBelow};
ghost use Rattle.object_store.specs.Answers.{Makes, MakesSurely, KeepsRoom, KeepsOtherRoom};

use crate::fault::StoreFault;
use crate::key::Key;
use crate::oid_list::OidList;
use crate::row::{RowCopy, RowSummary};
use object_id::{Epoch, NoMemory, Oid, Vid};

/// What keeps the rows of objects. Two stores are equal where their rows are: no 'unchanged' speaks of room.
pub trait ObjStore: Drop {
    /// From an object's id to its rows, in the order in which they were made.
    ghost rows: { Self → AllRows };

    /// Of a key, an offset and a length: the open row of that key has room for that piece.
    ghost HasRoom: { Self → Key → ℕ → ℕ → Type 0 };

    /// Makes the object's open row, from `epoch` on: `length` bytes that are those of the piece from `offset` on,
    /// and else 0. An open row from an earlier epoch ends with the epoch before this one, and an open row from
    /// this epoch is replaced. No other row changes. Costs the logarithm of the objects, and the bytes up to the piece's end.
    fn create(
        &mut self,
        key: Key,
        epoch: Epoch,
        length: u32,
        offset: u32,
        bytes: &[u8],
    ) -> Result<(), StoreFault>
        requires { OpenFrom (λ from. from ≤ epoch.0) (rows_of (rows self.old) key.oid) }
        ensures rows { Makes (create_at (rows self.old) key epoch.0 length offset bytes.now)
            (λ all. rows self.new ≡ all) (rows self.new ≡ rows self.old) result }
        ensures room { KeepsOtherRoom key.oid (HasRoom self.old) (HasRoom self.new) }
        ensures err { OnErr result (KeepsRoom (HasRoom self.old) (HasRoom self.new)) };

    /// Gives a piece of an open row room, so that `write` needs no memory for it. No row changes. Costs the logarithm of the objects,
    /// and the bytes up to the piece's end that had no room.
    fn reserve_write(&mut self, key: Key, offset: u32, length: u32) -> Result<(), StoreFault>
        ensures answer { Makes (piece_there (rows self.old) key offset length)
            (λ _. HasRoom self.new key offset length) (rows self.new ≡ rows self.old) result }
        ensures rows { rows self.new ≡ rows self.old }
        ensures room { KeepsRoom (HasRoom self.old) (HasRoom self.new) };

    /// Lays a piece that has room over the bytes of an open row. Takes no memory. Costs the logarithm of the objects, and the piece.
    fn write(&mut self, key: Key, offset: u32, bytes: &[u8]) -> Result<(), StoreFault>
        requires { OnOk (piece_there (rows self.old) key offset (length bytes.now))
            (HasRoom self.old key offset (length bytes.now)) }
        ensures rows { MakesSurely (write_at (rows self.old) key offset bytes.now)
            (λ all. rows self.new ≡ all) (rows self.new ≡ rows self.old) result }
        ensures room { KeepsRoom (HasRoom self.old) (HasRoom self.new) };

    /// Copies the bytes of an open row from `offset` on into all of `out`. Takes no memory. Costs the logarithm of the objects, and
    /// `out`.
    fn read(&self, key: Key, offset: u32, out: &mut [u8]) -> Result<(), StoreFault>
        ensures { MakesSurely (read_at (rows self.now) key offset (length out.old))
            (λ piece. out.new ≡ piece) (out.new ≡ out.old) result };

    /// How many bytes the open row of a key has, or `None` exactly where there is none. Takes no memory. Costs the logarithm of the
    /// objects.
    fn open_length(&self, key: Key) -> Option<u32>
        ensures { result ≡ open_length (rows self.now) key };

    /// A copy of the object's row whose epochs hold the level, or `None` where no row holds it. Of several it is
    /// the one with the greatest `from`, and of equal ones the one made last. Costs the logarithm of the objects, a look at each row of
    /// this one, and the bytes of the copy.
    fn row_at(&self, oid: Oid, level: Epoch) -> Result<Option<RowCopy>, NoMemory>
        ensures { IfOk result (λ row. row ≡ copy_at (rows self.now) oid level.0) };

    /// Row number `k` of an object, from 0 in the order in which they were made, without its bytes; `None` exactly past the last. So rows
    /// are visited without a copy. Takes no memory. Costs the logarithm of the objects, and a look at the row's bytes.
    fn row_summary(&self, oid: Oid, k: usize) -> Option<RowSummary>
        ensures { result ≡ summary_at (rows self.now) oid k };

    /// How many rows all objects have. Takes no memory. Costs a look at each object.
    fn row_count(&self) -> u128
        ensures { result ≡ row_count (rows self.now) };

    /// Goes to the next epoch: an open row whose key isn't among `keeps` ends with the epoch before. Takes no memory.
    /// Costs a look at each object, with the logarithm of the keys where their objects ascend.
    fn advance(&mut self, next: Epoch, keeps: &[Key])
        requires { OpenBelow next.0 (rows self.old) }
        ensures rows { rows self.new ≡ each (advanced keeps.now next.0) (rows self.old) }
        ensures room { KeepsRoom (HasRoom self.old) (HasRoom self.new) };

    /// Ends every open row with the epoch `last`. Takes no memory. Costs a look at each object.
    fn close_all(&mut self, last: Epoch)
        requires { OpenUpTo last.0 (rows self.old) }
        ensures rows { rows self.new ≡ each (λ _. closed_all last.0) (rows self.old) }
        ensures room { KeepsRoom (HasRoom self.old) (HasRoom self.new) };

    /// Drops the closed rows that ended below the settled epoch. Takes no memory. Costs a look at each row.
    fn purge_below(&mut self, settled: Epoch)
        ensures rows { rows self.new ≡ each (λ _. purged settled.0) (rows self.old) }
        ensures room { KeepsRoom (HasRoom self.old) (HasRoom self.new) };

    /// Drops all rows of the objects of a disk. Takes no memory. Costs the logarithm of the objects, for each object of the disk.
    fn drop_vid(&mut self, vid: Vid)
        ensures rows { rows self.new ≡ each (without_disk vid.0) (rows self.old) }
        ensures room { KeepsRoom (HasRoom self.old) (HasRoom self.new) };

    /// The ids of the objects that have rows. Costs these ids.
    fn list(&self) -> Result<OidList, NoMemory>
        ensures { IfOk result (λ list. list ≡ tree.keys (rows self.now)) };

    /// No object is there without rows.
    ghost there: { (store : Self) → HaveRows (rows store) };
}
