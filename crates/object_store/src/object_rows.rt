ghost use Rattle.std.specs.Prelude.{◌≡◌, ◌↔◌, ℕ, ◌+◌, ◌-◌, ◌≤◌, Bool, true, not, ◌&&◌, List, [], ◌∷◌, length, map, filter, slice_get};
ghost use Rattle.std.specs.Prelude.{IfSome, OnOk, OnErr, IsTrue, nat_eq, if◌then◌else◌, Some, vec_len, vec_capacity};
ghost use Rattle.std.specs.Option.{option_copied};
ghost use Rattle.object_id.specs.Piece.{laid_over};
ghost use Rattle.object_store.specs.Rows.{is_open_at, is_replaced, ended, open_at, closed, closed_all, created, advanced_row, advanced};
ghost use Rattle.object_store.specs.Rows.{purged, has_ended_below, row_holding, better, IsOrderly};
ghost use Rattle.object_store.specs.Bytes.{KeepsPieces};
ghost use Rattle.object_store.specs.Store.{write_in};
ghost use Rattle.object_store.specs.KeptRows.{seen_row, RoomIn, KeepsRowRoom};

use crate::keeps::Keeps;
use crate::row::Row;
use crate::row_bytes::RowBytes;
use object_id::{Epoch, NoMemory, Oid};
use std::alloc::Global;
use std::marker::Model;

/// The rows of one object, in the order in which they were made. At most the last is open, so that it is found
/// without a look at the others.
#[derive(Drop)]
pub struct ObjectRows<B: RowBytes> {
    rows: Vec<Row<B>>,
}

impl<B: RowBytes> Model for ObjectRows<B> {
    ghost use Rattle.std.specs.Prelude.{List};
    ghost use Rattle.object_store.specs.declared.row.Row.{Row};
    ghost use Rattle.object_store.specs.Rows.{IsOrderly};

    ghost Value = { List (Row B) };

    ghost view = { λ s. s.rows.items };

    ghost invariant = { λ s. IsOrderly s.rows.items };
}

impl<B: RowBytes> ObjectRows<B> {
    /// No rows. Takes no memory.
    pub fn new(alloc: Global) -> ObjectRows<B>
        ensures { result ≡ [] }
    {
        ObjectRows {
            rows: Vec::new(alloc),
        }
    }

    pub fn is_empty(&self) -> bool
        ensures { result ≡ nat_eq (length self.now) 0 }
    {
        self.rows.is_empty()
    }

    pub fn len(&self) -> usize
        ensures { result ≡ length self.now }
    {
        self.rows.as_slice().len()
    }

    /// Row number `k`, from 0.
    pub fn get(&self, k: usize) -> Option<&Row<B>>
        ensures { option_copied result ≡ slice_get self.now k }
    {
        self.rows.get(k)
    }

    /// The open row of an index.
    pub fn open_row(&self, index: u8) -> Option<&Row<B>>
        ensures { option_copied result ≡ open_at index self.now }
    {
        let count = self.rows.len();
        if count == 0 {
            return None;
        }
        let last = &self.rows[count - 1];
        if is_open_row(last, index) {
            Some(last)
        } else {
            None
        }
    }

    /// Makes the open row. Without memory the rows stay.
    pub fn create(&mut self, index: u8, epoch: Epoch, bytes: B) -> Result<(), NoMemory>
        ensures ok { OnOk result (self.new ≡ created index epoch.0 bytes self.old) }
        ensures err { OnErr result (self.new ≡ self.old) }
    {
        // Behind this nothing can fail, so that no row is closed in vain.
        self.rows.reserve(1)?;
        end_open(&mut self.rows, epoch);
        let row = Row {
            index,
            from: epoch,
            to: None,
            bytes,
        };
        self.rows.push(row)?;
        Ok(())
    }

    /// Gives a piece of the open row of an index room. With memory or without, no row changes, and each piece that had room has it.
    pub fn reserve(
        &mut self,
        alloc: Global,
        index: u8,
        offset: u32,
        count: u32,
    ) -> Result<(), NoMemory>
        requires { IfSome (open_at index self.old) (λ row. offset + count ≤ length (B.bytes row.bytes)) }
        ensures rows { map (seen_row B.bytes) self.new ≡ map (seen_row B.bytes) self.old }
        ensures room { KeepsRowRoom B.HasRoom self.old self.new }
        ensures ok { OnOk result (RoomIn B.HasRoom (open_at index self.new) offset count) }
    {
        let rows = self.rows.len();
        if rows == 0 {
            return Ok(());
        }
        reserve_in(&mut self.rows[rows - 1], alloc, index, offset, count)
    }

    /// Lays a piece over the bytes of the open row of an index.
    pub fn write(&mut self, index: u8, offset: u32, piece: &[u8])
        requires within { IfSome (open_at index self.old) (λ row. offset + length piece.now ≤ length (B.bytes row.bytes)) }
        requires room { RoomIn B.HasRoom (open_at index self.old) offset (length piece.now) }
        ensures rows { map (seen_row B.bytes) self.new ≡ write_in index offset piece.now (map (seen_row B.bytes) self.old) }
        ensures room { KeepsRowRoom B.HasRoom self.old self.new }
    {
        let count = self.rows.len();
        if count > 0 {
            write_in(&mut self.rows[count - 1], index, offset, piece);
        }
    }

    /// Ends the open row with the epoch before `next`, unless its key is kept.
    pub fn advance(&mut self, keeps: &Keeps, next: Epoch, oid: Oid)
        ensures { self.new ≡ advanced keeps.now next.0 oid self.old }
    {
        let count = self.rows.len();
        if count > 0 {
            advance_row(&mut self.rows[count - 1], keeps, next, oid);
        }
    }

    /// Ends the open row with the epoch `last`.
    pub fn close_all(&mut self, last: Epoch)
        ensures { self.new ≡ closed_all last.0 self.old }
    {
        let count = self.rows.len();
        if count > 0 {
            close(&mut self.rows[count - 1], last);
        }
    }

    /// Drops the rows that ended below the settled epoch.
    pub fn purge_below(&mut self, settled: Epoch)
        ensures { self.new ≡ purged settled.0 self.old }
    {
        self.rows.retain(|row| !is_old(row, settled));
    }

    /// The row whose epochs hold the level: of several the one with the greatest `from`, of equal ones the last.
    pub fn row_holding(&self, level: Epoch) -> Option<&Row<B>>
        ensures { option_copied result ≡ row_holding level.0 self.now }
    {
        let mut best = None;
        for row in self.rows.as_slice() {
            if is_better(row, best, level) {
                best = Some(row);
            }
        }
        best
    }
}

fn is_open_row<B>(row: &Row<B>, index: u8) -> bool
    ensures { result ≡ is_open_at index row.now }
{
    row.to.is_none() && row.index == index
}

fn is_replaced<B>(row: &Row<B>, epoch: Epoch) -> bool
    ensures { result ≡ is_replaced epoch.0 row.now }
{
    row.to.is_none() && row.from == epoch
}

fn is_old<B>(row: &Row<B>, settled: Epoch) -> bool
    ensures { result ≡ has_ended_below settled.0 row.now.to }
{
    match row.to {
        Some(to) => to.0 < settled.0,
        None => false,
    }
}

fn is_better<B>(row: &Row<B>, best: Option<&Row<B>>, level: Epoch) -> bool
    ensures { better level.0 (option_copied best.entry) row.now ≡ (if result then Some row.now else option_copied best.entry) }
{
    let holds = row.from.0 <= level.0
        && match row.to {
            Some(to) => level.0 <= to.0,
            None => true,
        };
    let is_no_later = match best {
        Some(best) => best.from.0 <= row.from.0,
        None => true,
    };
    holds && is_no_later
}

fn close<B>(row: &mut Row<B>, last: Epoch)
    ensures { row.new ≡ closed last.0 row.old }
{
    if row.to.is_none() {
        row.to = Some(last);
    }
}

fn advance_row<B>(row: &mut Row<B>, keeps: &Keeps, next: Epoch, oid: Oid)
    ensures { row.new ≡ advanced_row keeps.now next.0 oid row.old }
{
    if !keeps.has(oid, row.index) {
        close(row, Epoch(next.0.saturating_sub(1)));
    }
}

/// Makes room for a new open row: the last one ends with the epoch before, and goes if it is from this epoch.
fn end_open<B: Drop>(rows: &mut Vec<Row<B>>, epoch: Epoch)
    requires { IsOrderly rows.old.items }
    ensures items { rows.new.items ≡ ended epoch.0 rows.old.items }
    ensures len { vec_len rows.new ≤ vec_len rows.old }
    ensures capacity { vec_capacity rows.new ≡ vec_capacity rows.old }
{
    let count = rows.len();
    if count == 0 {
        return;
    }
    if is_replaced(&rows[count - 1], epoch) {
        rows.truncate(count - 1);
    } else {
        close(&mut rows[count - 1], Epoch(epoch.0.saturating_sub(1)));
    }
}

/// Gives a piece of a row room, if the row is the open one of the index.
fn reserve_in<B: RowBytes>(
    row: &mut Row<B>,
    alloc: Global,
    index: u8,
    offset: u32,
    count: u32,
) -> Result<(), NoMemory>
    requires { is_open_at index row.old ≡ true → offset + count ≤ length (B.bytes row.old.bytes) }
    ensures row { seen_row B.bytes row.new ≡ seen_row B.bytes row.old }
    ensures room { KeepsPieces (B.HasRoom row.old.bytes) (B.HasRoom row.new.bytes) }
    ensures ok { OnOk result (is_open_at index row.new ≡ true → B.HasRoom row.new.bytes offset count) }
{
    if is_open_row(row, index) {
        row.bytes.reserve(alloc, offset, count)?;
    }
    Ok(())
}

fn write_in<B: RowBytes>(row: &mut Row<B>, index: u8, offset: u32, piece: &[u8])
    requires within { is_open_at index row.old ≡ true → offset + length piece.now ≤ length (B.bytes row.old.bytes) }
    requires room { is_open_at index row.old ≡ true → B.HasRoom row.old.bytes offset (length piece.now) }
    ensures row { seen_row B.bytes row.new ≡ (if is_open_at index row.old
        then (record (seen_row B.bytes row.old) { bytes = laid_over (B.bytes row.old.bytes) offset piece.now })
        else seen_row B.bytes row.old) }
    ensures room { KeepsPieces (B.HasRoom row.old.bytes) (B.HasRoom row.new.bytes) }
{
    if is_open_row(row, index) {
        row.bytes.write(offset, piece);
    }
}
