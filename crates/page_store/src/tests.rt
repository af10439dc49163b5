//! What no clause says: that each call comes through with ample memory, and that a row has the pages that were written. The
//! values were worked out by hand from the rules of rows.
ghost use Rattle.std.specs.Prelude.{◌≡◌, ◌<◌, ◌^◌, length};
ghost use Rattle.std.specs.FinMap as tree;

use crate::PageStore;
use object_id::{Epoch, NoMemory, Oid, Vid};
use object_store::{Key, ObjStore, OidList, PlainStore, RowCopy, RowSummary, StoreFault};
use std::alloc::Global;
use std::marker::Model;
use std::test::Fail;

/// A store, and an epoch that no open row is from a later one than.
#[derive(Drop)]
struct Tried<O: ObjStore> {
    store: O,
    newest: u32,
}

impl<O: ObjStore> Model for Tried<O> {
    ghost use Rattle.std.specs.Prelude.{ℕ};
    ghost use Rattle.object_store.specs.Store.{OpenUpTo};

    ghost Value = { ℕ };

    ghost view = { λ s. s.newest };

    ghost invariant = { λ s. OpenUpTo s.newest (O.rows s.store) };
}

impl<O: ObjStore> Tried<O> {
    fn new(store: O) -> Tried<O>
        requires { O.rows store ≡ tree.empty }
    {
        Tried { store, newest: 0 }
    }

    /// Makes a row of 4,096 bytes, from the epoch or from that of the newest open row.
    fn create(
        &mut self,
        key: &Key,
        epoch: u32,
        offset: u32,
        bytes: &[u8],
    ) -> Result<(), StoreFault> {
        self.create_long(key, epoch, 4096, offset, bytes)
    }

    /// Makes a row of so many bytes.
    fn create_long(
        &mut self,
        key: &Key,
        epoch: u32,
        length: u32,
        offset: u32,
        bytes: &[u8],
    ) -> Result<(), StoreFault> {
        let from = self.newest.max(epoch);
        self.newest = from;
        self.store.create(*key, Epoch(from), length, offset, bytes)
    }

    fn write(&mut self, key: &Key, offset: u32, bytes: &[u8]) -> Result<(), StoreFault>
        requires { length bytes.now < 2 ^ 32 }
    {
        self.store.reserve_write(*key, offset, bytes.len() as u32)?;
        self.store.write(*key, offset, bytes)
    }

    fn advance(&mut self, next: u32, keeps: &[Key]) {
        if self.newest < next {
            self.store.advance(Epoch(next), keeps);
        }
    }

    fn close_all(&mut self, last: u32) {
        if self.newest <= last {
            self.store.close_all(Epoch(last));
            self.newest = 0;
        }
    }

    fn purge_below(&mut self, settled: u32) {
        self.store.purge_below(Epoch(settled));
    }

    fn drop_vid(&mut self, vid: u32) {
        self.store.drop_vid(Vid(vid));
    }

    /// Two bytes from the offset on.
    fn read(&self, key: &Key, offset: u32) -> Result<[u8; 2], StoreFault> {
        let mut out = [9; 2];
        self.store.read(*key, offset, &mut out)?;
        Ok(out)
    }

    fn open_length(&self, key: &Key) -> Option<u32> {
        self.store.open_length(*key)
    }

    fn row_at(&self, key: &Key, level: u32) -> Result<Option<RowCopy>, NoMemory> {
        self.store.row_at(key.oid, Epoch(level))
    }

    fn list(&self) -> Result<OidList, NoMemory> {
        self.store.list()
    }

    fn row_summary(&self, key: &Key, k: usize) -> Option<RowSummary> {
        self.store.row_summary(key.oid, k)
    }

    fn row_count(&self) -> u128 {
        self.store.row_count()
    }
}

/// Object `object` of disk `vid`, row `index`.
fn key(vid: u32, object: u32, index: u8) -> Key {
    let vid = Vid(vid.clamp(1, 9));
    Key {
        oid: Oid::object(vid, object.min(9)),
        index,
    }
}

/// Makes a strip of three pages, with pieces over their bounds.
fn lay_pieces<O: ObjStore>(node: &mut Tried<O>, strip: &Key) -> Result<(), StoreFault> {
    node.create_long(strip, 1, 12_288, 6, &[5, 6])?;
    node.write(strip, 4095, &[7, 8])?;
    node.write(strip, 8191, &[9, 0])?;
    node.write(strip, 12_286, &[4, 3])
}

/// The pairs of bytes from these offsets on, one behind another.
fn pairs_at<O: ObjStore>(
    alloc: Global,
    node: &Tried<O>,
    key: &Key,
    offsets: &[u32],
) -> Result<Vec<u8>, Fail> {
    let mut bytes = Vec::new(alloc);
    for offset in offsets {
        bytes.extend_from_slice(&node.read(key, *offset)?)?;
    }
    Ok(bytes)
}

// The bytes of a piece that passes a page's end are in both pages, and what was never written is 0.
#[test]
fn lays_pieces_over_pages(rt: HostRuntime) -> Result<(), Fail> {
    let mut node = Tried::new(PageStore::new(rt.alloc()));
    let strip = key(1, 0, 3);
    lay_pieces(&mut node, &strip)?;
    let offsets = [0, 6, 4094, 4096, 8190, 8192, 12_286];
    let pairs = pairs_at(rt.alloc(), &node, &strip, &offsets)?;
    let want = [0, 0, 5, 6, 0, 7, 8, 0, 0, 9, 0, 0, 4, 3];
    assert_eq!(rt; pairs.as_slice(), want.as_slice());
    Ok(())
}

#[test]
fn refuses_to_write_past_the_row(rt: HostRuntime) -> Result<(), Fail> {
    let mut node = Tried::new(PageStore::new(rt.alloc()));
    let strip = key(1, 0, 3);
    lay_pieces(&mut node, &strip)?;
    let past = node.write(&strip, 12_287, &[1, 2]);
    assert_eq!(rt; past, Err(StoreFault::OutOfObject));
    let absent = node.write(&key(1, 0, 2), 12_287, &[1, 2]);
    assert_eq!(rt; absent, Err(StoreFault::NoObj));
    Ok(())
}

/// The first byte of the row at a level, and 0 where no row holds it.
fn row_byte_at<O: ObjStore>(node: &Tried<O>, key: &Key, level: u32) -> Result<u8, NoMemory> {
    let Some(row) = node.row_at(key, level)? else {
        return Ok(0);
    };
    match row.bytes.as_slice().first() {
        Some(byte) => Ok(*byte),
        None => Ok(0),
    }
}

/// Makes a row in epoch 1 and again in epoch 2, and writes there.
fn make_twice<O: ObjStore>(node: &mut Tried<O>, key: &Key) -> Result<(), StoreFault> {
    node.create(key, 1, 0, &[1])?;
    node.create(key, 2, 0, &[2])?;
    node.write(key, 0, &[3])
}

/// The first byte of the row at levels 1 and 2.
fn first_bytes<O: ObjStore>(node: &Tried<O>, key: &Key) -> Result<(u8, u8), NoMemory> {
    let old = row_byte_at(node, key, 1)?;
    Ok((old, row_byte_at(node, key, 2)?))
}

#[test]
fn a_closed_row_stays_as_it_was(rt: HostRuntime) -> Result<(), Fail> {
    let mut node = Tried::new(PageStore::new(rt.alloc()));
    let first = key(1, 0, 0);
    make_twice(&mut node, &first)?;
    assert_eq!(rt; first_bytes(&node, &first), Ok((1, 3)));
    node.advance(3, &[]);
    assert_eq!(rt; node.read(&first, 0), Err(StoreFault::NoObj));
    assert_eq!(rt; row_byte_at(&node, &first, 3), Ok(0));
    Ok(())
}

#[test]
fn purges_rows_below_the_settled_epoch(rt: HostRuntime) -> Result<(), Fail> {
    let mut node = Tried::new(PageStore::new(rt.alloc()));
    let first = key(1, 0, 0);
    make_twice(&mut node, &first)?;
    node.advance(3, &[]);
    node.purge_below(2);
    assert_eq!(rt; first_bytes(&node, &first), Ok((0, 3)));
    Ok(())
}

/// Makes a strip with its last byte that isn't 0 in the second page; the third was written with zeros.
fn lay_zeros<O: ObjStore>(node: &mut Tried<O>, strip: &Key) -> Result<(), StoreFault> {
    node.create_long(strip, 1, 12_288, 4095, &[5, 0, 6, 0])?;
    node.write(strip, 9000, &[0, 0])
}

/// The row at level 1.
fn first_row<O: ObjStore>(node: &Tried<O>, key: &Key) -> Result<RowCopy, StoreFault> {
    node.row_at(key, 1)?.ok_or(StoreFault::NoObj)
}

#[test]
fn copies_up_to_the_last_byte(rt: HostRuntime) -> Result<(), Fail> {
    let mut node = Tried::new(PageStore::new(rt.alloc()));
    let strip = key(1, 0, 3);
    lay_zeros(&mut node, &strip)?;
    let row = first_row(&node, &strip)?;
    assert_eq!(rt; (row.index, row.length), (3, 12_288));
    let bytes = row.bytes.as_slice();
    assert_eq!(rt;
        (bytes.len(), bytes.last(), bytes.get(4095)),
        (4098, Some(&6), Some(&5))
    );
    Ok(())
}

#[test]
fn says_how_long_an_open_row_is(rt: HostRuntime) -> Result<(), Fail> {
    let mut node = Tried::new(PageStore::new(rt.alloc()));
    let strip = key(1, 0, 3);
    lay_zeros(&mut node, &strip)?;
    assert_eq!(rt; node.open_length(&strip), Some(12_288));
    assert_eq!(rt; node.open_length(&key(1, 0, 2)), None);
    Ok(())
}

/// Makes a row of the greatest length, and writes its last two bytes.
fn make_longest<O: ObjStore>(node: &mut Tried<O>, key: &Key) -> Result<(), StoreFault> {
    node.create_long(key, 1, 16_777_216, 0, &[3])?;
    node.write(key, 16_777_214, &[5, 6])
}

#[test]
fn reads_the_end_of_the_longest_row(rt: HostRuntime) -> Result<(), Fail> {
    let mut node = Tried::new(PageStore::new(rt.alloc()));
    let last = key(1, 9, 0);
    make_longest(&mut node, &last)?;
    assert_eq!(rt; node.read(&last, 16_777_214), Ok([5, 6]));
    assert_eq!(rt; node.read(&last, 16_777_215), Err(StoreFault::OutOfObject));
    Ok(())
}

// A body that gives up at a long row would meet every contract.
#[test]
fn keeps_a_row_of_the_greatest_length(rt: HostRuntime) -> Result<(), Fail> {
    let mut node = Tried::new(PageStore::new(rt.alloc()));
    let last = key(1, 9, 0);
    make_longest(&mut node, &last)?;
    let row = first_row(&node, &last)?;
    assert_eq!(rt; row.bytes.as_slice().len(), 16_777_216);
    Ok(())
}

/// Rows of disk 3 and of disk 2: only the second outlives the advance.
fn three_keys() -> [Key; 3] {
    [key(3, 0, 0), key(2, 1, 1), key(2, 0, 0)]
}

/// Makes the three rows, and advances. Another index of an object is another row.
fn keep_second<O: ObjStore>(node: &mut Tried<O>) -> Result<(), StoreFault> {
    for key in three_keys() {
        node.create(&key, 1, 0, &[1])?;
    }
    node.advance(2, &[key(2, 1, 1), key(2, 0, 1)]);
    Ok(())
}

#[test]
fn keeps_the_rows_that_are_named(rt: HostRuntime) -> Result<(), Fail> {
    let mut node = Tried::new(PageStore::new(rt.alloc()));
    keep_second(&mut node)?;
    let [_, kept, closed] = three_keys();
    assert_eq!(rt; node.read(&kept, 0), Ok([1, 0]));
    assert_eq!(rt; node.read(&closed, 0), Err(StoreFault::NoObj));
    Ok(())
}

#[test]
fn drops_a_disk_and_closes_all(rt: HostRuntime) -> Result<(), Fail> {
    let mut node = Tried::new(PageStore::new(rt.alloc()));
    keep_second(&mut node)?;
    let [_, kept, closed] = three_keys();
    node.drop_vid(3);
    assert_eq!(rt; node.list()?.as_slice(), [closed.oid, kept.oid].as_slice());
    node.close_all(2);
    assert_eq!(rt; node.read(&kept, 0), Err(StoreFault::NoObj));
    Ok(())
}

// The hash of `a` is the published one.
#[test]
fn visits_rows_without_a_copy(rt: HostRuntime) -> Result<(), Fail> {
    let mut node = Tried::new(PageStore::new(rt.alloc()));
    let first = key(1, 0, 3);
    node.create(&first, 1, 0, b"a")?;
    assert_eq!(rt; node.row_count(), 1);
    let row = RowSummary {
        index: 3,
        from: Epoch(1),
        to: None,
        length: 4096,
        hash: 0xaf63_dc4c_8601_ec8c,
    };
    assert_eq!(rt; node.row_summary(&first, 0), Some(row));
    assert_eq!(rt; node.row_summary(&first, 1), None);
    Ok(())
}

/// The hash of the row after a piece that is in three pages was laid over it.
fn hash_of<O: ObjStore>(node: &mut Tried<O>) -> Result<u64, StoreFault> {
    let first = key(1, 0, 0);
    node.create_long(&first, 1, 20_000, 5000, &[7; 9000])?;
    node.write(&first, 19_999, &[8])?;
    match node.row_summary(&first, 0) {
        Some(row) => Ok(row.hash),
        None => Err(StoreFault::NoObj),
    }
}

fn hash_in_pages(alloc: Global) -> Result<u64, StoreFault> {
    let mut node = Tried::new(PageStore::new(alloc));
    hash_of(&mut node)
}

fn hash_in_plain_store(alloc: Global) -> Result<u64, StoreFault> {
    let mut node = Tried::new(PlainStore::new(alloc));
    hash_of(&mut node)
}

#[test]
fn hashes_as_a_plain_store_does(rt: HostRuntime) -> Result<(), Fail> {
    let hash = hash_in_pages(rt.alloc())?;
    assert_eq!(rt; hash, hash_in_plain_store(rt.alloc())?);
    Ok(())
}
