ghost use Rattle.std.specs.Prelude.{◌≡◌, IfOk};

use object_id::{Entry, NoMemory};
use peer_proto::{DiskAsk, ObjWork, VdiAsk};
use std::alloc::Global;

/// What is asked of a node: by a session of its open disk, or a command on disks; by a client without a script one work on
/// one object, or an entry of the log.
#[derive(Debug, Drop)]
pub enum Ask {
    Disk(DiskAsk),
    Vdi(VdiAsk),
    Object(ObjWork),
    Entry(Entry),
}

impl Ask {
    pub fn copy(&self, alloc: Global) -> Result<Self, NoMemory>
        ensures { IfOk result (λ copy. copy ≡ self.now) }
    {
        Ok(match self {
            Ask::Disk(ask) => Ask::Disk(ask.copy(alloc)?),
            Ask::Vdi(ask) => Ask::Vdi(ask.copy(alloc)?),
            Ask::Object(work) => Ask::Object(work.copy(alloc)?),
            Ask::Entry(entry) => Ask::Entry(entry.copy(alloc)?),
        })
    }
}
