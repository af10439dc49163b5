//! Stores of rows. What no clause says: that each call comes through with ample memory, and what the worked calls give. Every store
//! goes through the same calls, by the trait alone. The values were worked out by hand from the rules of rows.
ghost use Rattle.std.specs.Prelude.{◌≡◌, ◌<◌, ◌^◌, length};
ghost use Rattle.std.specs.FinMap as tree;

use object_id::{Epoch, NoMemory, Oid, Vid};
use object_store::{Key, ObjStore, OidList, PlainStore, RowCopy, RowSummary, StoreFault};
use std::alloc::Global;
use std::marker::Model;
use std::test::Fail;

/// A store, and an epoch that no open row is from a later one than.
#[derive(Drop)]
struct Tried<O: ObjStore> {
    store: O,
    newest: u32,
}

impl<O: ObjStore> Model for Tried<O> {
    ghost use Rattle.std.specs.Prelude.{ℕ};
    ghost use Rattle.object_store.specs.Store.{OpenUpTo};

    ghost Value = { ℕ };

    ghost view = { λ s. s.newest };

    ghost invariant = { λ s. OpenUpTo s.newest (O.rows s.store) };
}

impl<O: ObjStore> Tried<O> {
    fn new(store: O) -> Tried<O>
        requires { O.rows store ≡ tree.empty }
    {
        Tried { store, newest: 0 }
    }

    /// Makes a row of 4,096 bytes, from the epoch or from that of the newest open row.
    fn create(
        &mut self,
        key: &Key,
        epoch: u32,
        offset: u32,
        bytes: &[u8],
    ) -> Result<(), StoreFault> {
        self.create_long(key, epoch, 4096, offset, bytes)
    }

    /// Makes a row of so many bytes.
    fn create_long(
        &mut self,
        key: &Key,
        epoch: u32,
        length: u32,
        offset: u32,
        bytes: &[u8],
    ) -> Result<(), StoreFault> {
        let from = self.newest.max(epoch);
        self.newest = from;
        self.store.create(*key, Epoch(from), length, offset, bytes)
    }

    fn write(&mut self, key: &Key, offset: u32, bytes: &[u8]) -> Result<(), StoreFault>
        requires { length bytes.now < 2 ^ 32 }
    {
        self.store.reserve_write(*key, offset, bytes.len() as u32)?;
        self.store.write(*key, offset, bytes)
    }

    fn advance(&mut self, next: u32, keeps: &[Key]) {
        if self.newest < next {
            self.store.advance(Epoch(next), keeps);
        }
    }

    fn close_all(&mut self, last: u32) {
        if self.newest <= last {
            self.store.close_all(Epoch(last));
            self.newest = 0;
        }
    }

    fn purge_below(&mut self, settled: u32) {
        self.store.purge_below(Epoch(settled));
    }

    fn drop_vid(&mut self, vid: u32) {
        self.store.drop_vid(Vid(vid));
    }

    /// Two bytes from the offset on.
    fn read(&self, key: &Key, offset: u32) -> Result<[u8; 2], StoreFault> {
        let mut out = [9; 2];
        self.store.read(*key, offset, &mut out)?;
        Ok(out)
    }

    fn open_length(&self, key: &Key) -> Option<u32> {
        self.store.open_length(*key)
    }

    fn row_at(&self, key: &Key, level: u32) -> Result<Option<RowCopy>, NoMemory> {
        self.store.row_at(key.oid, Epoch(level))
    }

    fn list(&self) -> Result<OidList, NoMemory> {
        self.store.list()
    }

    fn row_summary(&self, key: &Key, k: usize) -> Option<RowSummary> {
        self.store.row_summary(key.oid, k)
    }

    fn row_count(&self) -> u128 {
        self.store.row_count()
    }
}

/// Object `object` of disk `vid`, row `index`.
pub fn key(vid: u32, object: u32, index: u8) -> Key {
    let vid = Vid(vid.clamp(1, 9));
    Key {
        oid: Oid::object(vid, object.min(9)),
        index,
    }
}

/// One call on an object, with the epoch or disk that it is given, and the byte of a new row.
#[derive(Clone, Copy)]
enum Step {
    Create(u32, u8),
    Advance(u32),
    Close(u32),
    Purge(u32),
}

fn make<O: ObjStore>(node: &mut Tried<O>, key: &Key, step: Step) -> Result<(), StoreFault> {
    match step {
        Step::Create(epoch, byte) => return node.create(key, epoch, 0, &[byte]),
        Step::Advance(next) => node.advance(next, &[]),
        Step::Close(last) => node.close_all(last),
        Step::Purge(settled) => node.purge_below(settled),
    }
    Ok(())
}

/// The `from`, the `to` and the first byte of the row at a level: 0 where it is open, and 0s where no row holds it.
fn row_facts<O: ObjStore>(node: &Tried<O>, key: &Key, level: u32) -> Result<[u32; 3], NoMemory> {
    let Some(row) = node.row_at(key, level)? else {
        return Ok([0; 3]);
    };
    let to = match row.to {
        Some(to) => to.0,
        None => 0,
    };
    let byte = match row.bytes.as_slice().first() {
        Some(byte) => *byte,
        None => 0,
    };
    Ok([row.from.0, to, byte.into()])
}

/// Makes a step, after which no row is open. Whether the row at level 1 is so, there is none at level 2, and so many objects have rows.
fn ends_so<O: ObjStore>(
    node: &mut Tried<O>,
    key: &Key,
    step: Step,
    row: [u32; 3],
    objects: usize,
) -> Result<bool, StoreFault> {
    make(node, key, step)?;
    Ok(
        node.read(key, 0) == Err(StoreFault::NoObj)
            && row_facts(node, key, 1)? == row
            && row_facts(node, key, 2)? == [0, 0, 0]
            && node.list()?.len() == objects,
    )
}

/// A store with an open row from epoch 1, which begins with 1.
fn node_with_row(alloc: Global) -> Result<Tried<PlainStore>, StoreFault> {
    let mut node = Tried::new(PlainStore::new(alloc));
    node.create(&key(1, 0, 0), 1, 0, &[1])?;
    Ok(node)
}

#[test]
fn begins_the_life_of_a_row(rt: HostRuntime) -> Result<(), Fail> {
    let node = node_with_row(rt.alloc())?;
    let first = key(1, 0, 0);
    assert_eq!(rt; node.read(&first, 0), Ok([1, 0]));
    assert_eq!(rt; node.read(&first, 4095), Err(StoreFault::OutOfObject));
    Ok(())
}

#[test]
fn goes_through_the_life_of_a_row(rt: HostRuntime) -> Result<(), Fail> {
    let mut node = node_with_row(rt.alloc())?;
    let first = key(1, 0, 0);
    assert!(rt; ends_so(&mut node, &first, Step::Advance(2), [1, 1, 1], 1)?);
    assert!(rt; ends_so(&mut node, &first, Step::Purge(1), [1, 1, 1], 1)?);
    assert!(rt; ends_so(&mut node, &first, Step::Purge(2), [0, 0, 0], 0)?);
    Ok(())
}

/// Makes a row, and lays pieces over it.
fn lay_pieces<O: ObjStore>(node: &mut Tried<O>, strip: &Key) -> Result<(), StoreFault> {
    node.create(strip, 1, 6, &[5, 6])?;
    node.write(strip, 2, &[7, 8])?;
    node.write(strip, 3, &[9, 0])?;
    node.write(strip, 4094, &[4, 0])
}

/// The pairs of bytes from these offsets on, one behind another.
fn pairs_at<O: ObjStore>(
    alloc: Global,
    node: &Tried<O>,
    key: &Key,
    offsets: &[u32],
) -> Result<Vec<u8>, Fail> {
    let mut bytes = Vec::new(alloc);
    for offset in offsets {
        bytes.extend_from_slice(&node.read(key, *offset)?)?;
    }
    Ok(bytes)
}

#[test]
fn lays_pieces_over(rt: HostRuntime) -> Result<(), Fail> {
    let mut node = Tried::new(PlainStore::new(rt.alloc()));
    let strip = key(1, 0, 3);
    lay_pieces(&mut node, &strip)?;
    let pairs = pairs_at(rt.alloc(), &node, &strip, &[0, 2, 4, 6, 7, 4094])?;
    let want = [0, 0, 7, 9, 0, 0, 5, 6, 6, 0, 4, 0];
    assert_eq!(rt; pairs.as_slice(), want.as_slice());
    Ok(())
}

#[test]
fn refuses_to_write_past_the_row(rt: HostRuntime) -> Result<(), Fail> {
    let mut node = Tried::new(PlainStore::new(rt.alloc()));
    let strip = key(1, 0, 3);
    lay_pieces(&mut node, &strip)?;
    let past = node.write(&strip, 4095, &[1, 2]);
    assert_eq!(rt; past, Err(StoreFault::OutOfObject));
    let absent = node.write(&key(1, 0, 2), 4095, &[1, 2]);
    assert_eq!(rt; absent, Err(StoreFault::NoObj));
    Ok(())
}

/// Makes a row of the greatest length, and writes its last two bytes.
fn make_longest<O: ObjStore>(node: &mut Tried<O>, key: &Key) -> Result<(), StoreFault> {
    node.create_long(key, 1, 16_777_216, 0, &[3])?;
    node.write(key, 16_777_214, &[5, 6])
}

#[test]
fn reads_the_end_of_the_longest_row(rt: HostRuntime) -> Result<(), Fail> {
    let mut node = Tried::new(PlainStore::new(rt.alloc()));
    let last = key(1, 9, 0);
    make_longest(&mut node, &last)?;
    assert_eq!(rt; node.read(&last, 16_777_214), Ok([5, 6]));
    assert_eq!(rt; node.read(&last, 16_777_215), Err(StoreFault::OutOfObject));
    Ok(())
}

// A body that gives up at a long row would meet every contract.
#[test]
fn keeps_a_row_of_the_greatest_length(rt: HostRuntime) -> Result<(), Fail> {
    let mut node = Tried::new(PlainStore::new(rt.alloc()));
    let last = key(1, 9, 0);
    make_longest(&mut node, &last)?;
    let row = node.row_at(&last, 1)?.ok_or(StoreFault::NoObj)?;
    assert_eq!(rt; row.bytes.as_slice().len(), 16_777_216);
    Ok(())
}

/// Whether a copy of a row has index 3, 4,096 bytes, and of these the first ones.
fn is_copied(alloc: Global, row: &RowCopy, bytes: &[u8]) -> Result<bool, NoMemory> {
    let copy = row.copy(alloc)?;
    Ok(copy.index == 3 && copy.length == 4096 && copy.bytes.as_slice() == bytes)
}

/// Whether there is a row at level 1, of which such a copy is made.
fn tells_copy<O: ObjStore>(
    node: &Tried<O>,
    alloc: Global,
    key: &Key,
    bytes: &[u8],
) -> Result<bool, NoMemory> {
    match node.row_at(key, 1)? {
        Some(row) => is_copied(alloc, &row, bytes),
        None => Ok(false),
    }
}

#[test]
fn copies_up_to_the_last_byte(rt: HostRuntime) -> Result<(), Fail> {
    let mut node = Tried::new(PlainStore::new(rt.alloc()));
    let strip = key(1, 0, 3);
    node.create(&strip, 1, 2, &[5, 0, 6, 0])?;
    assert_eq!(rt; node.open_length(&strip), Some(4096));
    assert_eq!(rt; node.open_length(&key(1, 0, 2)), None);
    assert!(rt; tells_copy(&node, rt.alloc(), &strip, &[0, 0, 5, 0, 6])?);
    Ok(())
}

/// Whether a copy of the list of objects that have rows has these ids.
fn lists<O: ObjStore>(node: &Tried<O>, alloc: Global, oids: &[Oid]) -> Result<bool, NoMemory> {
    Ok(node.list()?.copy(alloc)?.as_slice() == oids)
}

/// Rows of disk 3 and of disk 2: only the second outlives the advance.
fn three_keys() -> [Key; 3] {
    [key(3, 0, 0), key(2, 1, 1), key(2, 0, 0)]
}

/// Makes the three rows, and advances. Another index of an object is another row.
fn keep_second<O: ObjStore>(node: &mut Tried<O>) -> Result<(), StoreFault> {
    for key in three_keys() {
        node.create(&key, 1, 0, &[1])?;
    }
    node.advance(2, &[key(2, 1, 1), key(2, 0, 1)]);
    Ok(())
}

#[test]
fn keeps_the_rows_that_are_named(rt: HostRuntime) -> Result<(), Fail> {
    let mut node = Tried::new(PlainStore::new(rt.alloc()));
    keep_second(&mut node)?;
    let [_, kept, closed] = three_keys();
    assert_eq!(rt; node.read(&kept, 0), Ok([1, 0]));
    assert_eq!(rt; node.read(&closed, 0), Err(StoreFault::NoObj));
    Ok(())
}

#[test]
fn lists_the_objects_that_have_rows(rt: HostRuntime) -> Result<(), Fail> {
    let mut node = Tried::new(PlainStore::new(rt.alloc()));
    keep_second(&mut node)?;
    let [other, kept, closed] = three_keys();
    assert!(rt; lists(&node, rt.alloc(), &[closed.oid, kept.oid, other.oid])?);
    node.drop_vid(3);
    assert!(rt; lists(&node, rt.alloc(), &[closed.oid, kept.oid])?);
    Ok(())
}

fn make_all<O: ObjStore>(node: &mut Tried<O>, steps: &[Step]) -> Result<(), StoreFault> {
    for step in steps {
        make(node, &key(1, 0, 0), *step)?;
    }
    Ok(())
}

/// Makes rows from 2 to 3, and from 4 to 4, made anew in its epoch.
fn make_two_rows<O: ObjStore>(node: &mut Tried<O>) -> Result<(), StoreFault> {
    let steps = [
        Step::Create(2, 10),
        Step::Create(4, 20),
        Step::Create(4, 30),
        Step::Close(4),
    ];
    make_all(node, &steps)
}

/// Makes a row from 1 to 4.
fn make_a_long_row<O: ObjStore>(node: &mut Tried<O>, byte: u8) -> Result<(), StoreFault> {
    make_all(node, &[Step::Create(1, byte), Step::Close(4)])
}

/// What `row_facts` says of levels 0 to 5, one behind another.
fn facts_of_levels<O: ObjStore>(alloc: Global, node: &Tried<O>) -> Result<Vec<u32>, NoMemory> {
    let mut facts = Vec::new(alloc);
    for level in 0..6 {
        facts.extend_from_slice(&row_facts(node, &key(1, 0, 0), level)?)?;
    }
    Ok(facts)
}

#[test]
fn gives_the_row_at_a_level(rt: HostRuntime) -> Result<(), Fail> {
    let mut node = Tried::new(PlainStore::new(rt.alloc()));
    make_two_rows(&mut node)?;
    make_a_long_row(&mut node, 40)?;
    make_a_long_row(&mut node, 50)?;
    let facts = facts_of_levels(rt.alloc(), &node)?;
    let want = [0, 0, 0, 1, 4, 50, 2, 3, 10, 2, 3, 10, 4, 4, 30, 0, 0, 0];
    assert_eq!(rt; facts.as_slice(), want.as_slice());
    Ok(())
}

/// The summary of a row of 4,096 bytes of which the first is `a`. The hash of `a` is the published one.
fn summary(index: u8, from: u32, to: Option<Epoch>) -> RowSummary {
    RowSummary {
        index,
        from: Epoch(from),
        to,
        length: 4096,
        hash: 0xaf63_dc4c_8601_ec8c,
    }
}

/// Makes two rows of one object, of which the first is closed, and one of another.
fn make_three_rows<O: ObjStore>(node: &mut Tried<O>) -> Result<(), StoreFault> {
    node.create(&key(1, 0, 0), 1, 0, b"a")?;
    node.create(&key(1, 0, 0), 2, 0, b"b")?;
    node.create(&key(2, 0, 3), 2, 0, b"a")
}

#[test]
fn visits_rows_without_a_copy(rt: HostRuntime) -> Result<(), Fail> {
    let mut node = Tried::new(PlainStore::new(rt.alloc()));
    make_three_rows(&mut node)?;
    assert_eq!(rt; node.row_count(), 3);
    let closed = node.row_summary(&key(1, 0, 0), 0);
    assert_eq!(rt; closed, Some(summary(0, 1, Some(Epoch(1)))));
    let open = node.row_summary(&key(2, 0, 3), 0);
    assert_eq!(rt; open, Some(summary(3, 2, None)));
    Ok(())
}

#[test]
fn visits_no_other_rows(rt: HostRuntime) -> Result<(), Fail> {
    let mut node = Tried::new(PlainStore::new(rt.alloc()));
    make_three_rows(&mut node)?;
    let past = node.row_summary(&key(2, 0, 3), 1);
    let absent = node.row_summary(&key(3, 0, 0), 0);
    assert_eq!(rt; (past, absent), (None, None));
    Ok(())
}

/// Whether a fault is displayed as this text.
fn is_said(alloc: Global, fault: StoreFault, text: &str) -> Result<bool, Fail> {
    Ok(format!(in alloc; "{fault}")?.as_str() == text)
}

#[test]
fn says_why_a_call_is_refused(rt: HostRuntime) -> Result<(), Fail> {
    let alloc = rt.alloc();
    assert!(rt; is_said(alloc, StoreFault::NoObj, "no such object")?);
    assert!(rt;
        is_said(
            alloc,
            StoreFault::OutOfObject,
            "the piece ends outside the object"
        )?
    );
    assert!(rt; is_said(alloc, StoreFault::NoMemory, "no memory")?);
    Ok(())
}
