ghost use Rattle.std.specs.Prelude.{◌≡◌, IfOk};

use object_id::{Bytes, Duplicate, Epoch, NoMemory, NodeId, Oid};
use object_store::Key;
use std::alloc::Global;

/// What a node asks of another one.
#[derive(Debug)]
pub enum PeerAsk {
    /// Make the open row of the key: `length` bytes, the piece from `offset` on and else zeros.
    Create {
        key: Key,
        length: u32,
        offset: u32,
        bytes: Bytes,
    },
    /// Lay the piece over the open row of the key.
    Write {
        key: Key,
        offset: u32,
        bytes: Bytes,
    },
    /// The bytes of the open row of the key.
    Read {
        key: Key,
        offset: u32,
        length: u32,
    },
    /// The objects of which the node has rows.
    List,
    /// The object's row that holds the level.
    RecoverRead {
        oid: Oid,
        level: Epoch,
    },
}

/// Written out, so that letting one go is one call wherever it is done, and no cases there.
impl Drop for PeerAsk {
    fn drop(self) {
        match self {
            PeerAsk::Create {
                key: _,
                length: _,
                offset: _,
                bytes,
            } => drop(bytes),
            PeerAsk::Write {
                key: _,
                offset: _,
                bytes,
            } => drop(bytes),
            PeerAsk::Read {
                key: _,
                offset: _,
                length: _,
            } => {}
            PeerAsk::List => {}
            PeerAsk::RecoverRead { oid: _, level: _ } => {}
        }
    }
}

impl PeerAsk {
    pub fn copy(&self, alloc: Global) -> Result<Self, NoMemory>
        ensures { IfOk result (λ copy. copy ≡ self.now) }
    {
        Ok(match self {
            PeerAsk::Create {
                key,
                length,
                offset,
                bytes,
            } => PeerAsk::Create {
                key: *key,
                length: *length,
                offset: *offset,
                bytes: bytes.copy(alloc)?,
            },
            PeerAsk::Write { key, offset, bytes } => PeerAsk::Write {
                key: *key,
                offset: *offset,
                bytes: bytes.copy(alloc)?,
            },
            PeerAsk::Read {
                key,
                offset,
                length,
            } => PeerAsk::Read {
                key: *key,
                offset: *offset,
                length: *length,
            },
            PeerAsk::List => PeerAsk::List,
            PeerAsk::RecoverRead { oid, level } => PeerAsk::RecoverRead {
                oid: *oid,
                level: *level,
            },
        })
    }
}

/// A request from node to node. A message is named by its sender and number; its epoch is that of the attempt or
/// recovery which it belongs to.
#[derive(Debug)]
pub struct PeerReq {
    pub from: NodeId,
    pub number: u32,
    pub epoch: Epoch,
    pub ask: PeerAsk,
}

/// Written out, so that letting one go is one call wherever it is done, and no cases there.
impl Drop for PeerReq {
    fn drop(self) {
        let PeerReq {
            from: _,
            number: _,
            epoch: _,
            ask,
        } = self;
        drop(ask);
    }
}

impl PeerReq {
    pub fn copy(&self, alloc: Global) -> Result<Self, NoMemory>
        ensures { IfOk result (λ copy. copy ≡ self.now) }
    {
        Ok(PeerReq {
            from: self.from,
            number: self.number,
            epoch: self.epoch,
            ask: self.ask.copy(alloc)?,
        })
    }
}

impl Duplicate for PeerReq {
    fn duplicate(&self, alloc: Global) -> Result<Self, NoMemory> {
        self.copy(alloc)
    }
}
