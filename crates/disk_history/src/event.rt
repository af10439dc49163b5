ghost use Rattle.std.specs.Prelude.{◌≡◌, IfOk};

use object_id::{Bytes, Duplicate, Items, NoMemory};
use std::alloc::Global;

/// One event of a history. A block is its number in units of 512 bytes; requests and disks go by number.
#[derive(Debug)]
pub enum HistEvent {
    /// A new disk of so many blocks, all zeros.
    Create {
        disk: u32,
        blocks: u64,
    },
    /// The new disk begins with what is known of the old one's blocks.
    Copy {
        old: u32,
        new: u32,
    },
    Delete {
        disk: u32,
    },
    /// A request begins to write a block; one event for each of its blocks.
    WriteStart {
        req: u32,
        disk: u32,
        block: u64,
        coded: bool,
        bytes: Bytes,
    },
    /// The request was acknowledged.
    WriteDone {
        req: u32,
    },
    /// The request was refused, so none of its writes may ever be read.
    WriteRefused {
        req: u32,
    },
    /// The writer was lost before it had an answer: its writes may be read or not.
    WriterLost {
        req: u32,
    },
    /// The block was read, with these bytes.
    Read {
        disk: u32,
        block: u64,
        bytes: Bytes,
    },
}

/// Written out, so that letting one go is one call wherever it is done, and no cases there.
impl Drop for HistEvent {
    fn drop(self) {
        match self {
            HistEvent::Create { disk: _, blocks: _ } => {}
            HistEvent::Copy { old: _, new: _ } => {}
            HistEvent::Delete { disk: _ } => {}
            HistEvent::WriteStart {
                req: _,
                disk: _,
                block: _,
                coded: _,
                bytes,
            } => drop(bytes),
            HistEvent::WriteDone { req: _ } => {}
            HistEvent::WriteRefused { req: _ } => {}
            HistEvent::WriterLost { req: _ } => {}
            HistEvent::Read {
                disk: _,
                block: _,
                bytes,
            } => drop(bytes),
        }
    }
}

pub type HistList = Items<HistEvent>;

impl HistEvent {
    pub fn copy(&self, alloc: Global) -> Result<Self, NoMemory>
        ensures { IfOk result (λ copy. copy ≡ self.now) }
    {
        Ok(match self {
            HistEvent::Create { disk, blocks } => HistEvent::Create {
                disk: *disk,
                blocks: *blocks,
            },
            HistEvent::Copy { old, new } => HistEvent::Copy {
                old: *old,
                new: *new,
            },
            HistEvent::Delete { disk } => HistEvent::Delete { disk: *disk },
            HistEvent::WriteStart {
                req,
                disk,
                block,
                coded,
                bytes,
            } => HistEvent::WriteStart {
                req: *req,
                disk: *disk,
                block: *block,
                coded: *coded,
                bytes: bytes.copy(alloc)?,
            },
            HistEvent::WriteDone { req } => HistEvent::WriteDone { req: *req },
            HistEvent::WriteRefused { req } => HistEvent::WriteRefused { req: *req },
            HistEvent::WriterLost { req } => HistEvent::WriterLost { req: *req },
            HistEvent::Read { disk, block, bytes } => HistEvent::Read {
                disk: *disk,
                block: *block,
                bytes: bytes.copy(alloc)?,
            },
        })
    }
}

impl Duplicate for HistEvent {
    fn duplicate(&self, alloc: Global) -> Result<Self, NoMemory> {
        self.copy(alloc)
    }
}

#[cfg(test)]
mod tests {
    use super::*;
    use std::test::Fail;

    #[test]
    fn copies_a_history(rt: HostRuntime) -> Result<(), Fail> {
        let alloc = rt.alloc();
        let mut events = HistList::new(alloc);
        events.push(HistEvent::Create { disk: 5, blocks: 8 })?;
        events.push(HistEvent::Read {
            disk: 5,
            block: 7,
            bytes: Bytes::from_slice(alloc, &[0; 512])?,
        })?;
        let copy = events.copy(alloc)?;
        match copy.get(1) {
            Some(HistEvent::Read { disk, block, bytes }) => {
                assert_eq!(rt; (*disk, *block, bytes.len()), (5, 7, 512));
            }
            _ => assert!(rt; false, "the copy has another event"),
        }
        Ok(())
    }
}
