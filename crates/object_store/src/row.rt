ghost use Rattle.std.specs.Prelude.{◌≡◌, IfOk};

use object_id::{Bytes, Epoch, NoMemory};
use std::alloc::Global;

/// A row of an object: its bytes, and the epochs in which they are the object's. A row without `to` is open, and
/// reaches to its node's epoch.
#[derive(Debug, Drop)]
pub struct Row<B> {
    pub index: u8,
    pub from: Epoch,
    pub to: Option<Epoch>,
    pub bytes: B,
}

/// What a row is, without its bytes: it has `length` of them, and `hash` is FNV-1a of those up to the last one that isn't 0.
#[derive(Clone, Copy, Debug, PartialEq, Eq)]
pub struct RowSummary {
    pub index: u8,
    pub from: Epoch,
    pub to: Option<Epoch>,
    pub length: u32,
    pub hash: u64,
}

/// A copy of a row. It has `length` bytes: those of `bytes`, which end at the last one that isn't 0, and zeros.
#[derive(Debug)]
pub struct RowCopy {
    pub index: u8,
    pub from: Epoch,
    pub to: Option<Epoch>,
    pub length: u32,
    pub bytes: Bytes,
}

/// Written out, so that letting one go is one call wherever it is done, and no cases there.
impl Drop for RowCopy {
    fn drop(self) {
        let RowCopy {
            index: _,
            from: _,
            to: _,
            length: _,
            bytes,
        } = self;
        drop(bytes);
    }
}

impl RowCopy {
    pub fn copy(&self, alloc: Global) -> Result<RowCopy, NoMemory>
        ensures { IfOk result (λ copy. copy ≡ self.now) }
    {
        Ok(RowCopy {
            index: self.index,
            from: self.from,
            to: self.to,
            length: self.length,
            bytes: self.bytes.copy(alloc)?,
        })
    }
}
