ghost use Rattle.std.specs.Prelude.{◌≡◌, ◌+◌, ◌≤◌, length, take};
ghost use Rattle.object_store.specs.Bytes.{trimmed_bytes};
ghost use Rattle.object_store.specs.PlainBytes.{seen_bytes, HasBytesKept};

use crate::row_bytes::RowBytes;
use crate::row_store::RowStore;
use object_id::{Bytes, NoMemory, fnv1a, lay_over};
use std::alloc::Global;
use std::marker::Model;

/// A store in memory that keeps the first bytes of each row, up to the last one that was written or reserved.
pub type PlainStore = RowStore<PlainRow>;

/// The bytes of a row. Only the first ones are kept, and behind them all are 0.
#[derive(Debug, Drop)]
pub struct PlainRow {
    size: u32,
    kept: Vec<u8>,
}

impl Model for PlainRow {
    ghost use Rattle.std.specs.Prelude.{◌++◌, ◌-◌, ◌≤◌, length};
    ghost use Rattle.object_id.specs.Fields.{zeros};
    ghost use Rattle.object_store.specs.PlainBytes.{KeptBytes};

    ghost Value = { KeptBytes };

    ghost view = { λ c. record { bytes = c.kept.items ++ zeros (c.size - length c.kept.items); room = length c.kept.items } };

    ghost invariant = { λ c. length c.kept.items ≤ c.size };
}

impl RowBytes for PlainRow {
    ghost bytes = { seen_bytes };

    ghost HasRoom = { HasBytesKept };

    fn new(alloc: Global, size: u32, offset: u32, piece: &[u8]) -> Result<PlainRow, NoMemory> {
        let end = offset as usize + piece.len();
        let mut kept = Vec::with_capacity(alloc, end)?;
        kept.resize(offset as usize, 0)?;
        kept.extend_from_slice(piece)?;
        Ok(PlainRow { size, kept })
    }

    fn len(&self) -> u32 {
        self.size
    }

    fn reserve(&mut self, _alloc: Global, offset: u32, count: u32) -> Result<(), NoMemory> {
        let end = offset as usize + count as usize;
        if self.kept.as_slice().len() < end {
            self.kept.resize(end, 0)?;
        }
        Ok(())
    }

    fn write(&mut self, offset: u32, piece: &[u8]) {
        lay_over(&mut self.kept, offset as usize, piece);
    }

    fn read(&self, offset: u32, out: &mut [u8]) {
        let start = offset as usize;
        let kept = self.kept.as_slice();
        if kept.len() <= start {
            out.fill(0);
            return;
        }
        let front = &kept[start..];
        if out.len() <= front.len() {
            out.copy_from_slice(&front[..out.len()]);
            return;
        }
        out.fill(0);
        lay_over(out, 0, front);
    }

    fn hash(&self) -> u64 {
        let kept = self.kept.as_slice();
        fnv1a(&kept[..trimmed_len(kept)])
    }

    fn trimmed(&self, alloc: Global) -> Result<Bytes, NoMemory> {
        let kept = self.kept.as_slice();
        Bytes::from_slice(alloc, &kept[..trimmed_len(kept)])
    }
}

/// Up to where bytes go that end at their last one that isn't 0.
pub fn trimmed_len(bytes: &[u8]) -> usize
    ensures value { take result bytes.now ≡ trimmed_bytes bytes.now }
    ensures within { result ≤ length bytes.now }
{
    let mut end = bytes.len();
    while end > 0 && bytes[end - 1] == 0 {
        end -= 1;
    }
    end
}
