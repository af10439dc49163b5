ghost use Rattle.std.specs.Prelude.{◌≡◌, IfOk};

use object_id::{Entry, NoMemory};
use peer_proto::{GuestRsp, ObjWork};
use std::alloc::Global;

/// What a command does next.
#[derive(Debug, Drop)]
pub enum OpAct {
    /// This entry is put into the log; when it is decided there the command goes on.
    Append(Entry),
    /// This work is begun; when it is done the command goes on.
    Work(ObjWork),
    /// The command ends, with this reply.
    Reply(GuestRsp),
}

impl OpAct {
    pub fn copy(&self, alloc: Global) -> Result<Self, NoMemory>
        ensures { IfOk result (λ copy. copy ≡ self.now) }
    {
        Ok(match self {
            OpAct::Append(entry) => OpAct::Append(entry.copy(alloc)?),
            OpAct::Work(work) => OpAct::Work(work.copy(alloc)?),
            OpAct::Reply(reply) => OpAct::Reply(reply.copy(alloc)?),
        })
    }
}
