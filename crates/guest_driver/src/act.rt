ghost use Rattle.std.specs.Prelude.{◌≡◌, IfOk};

use object_id::NoMemory;
use peer_proto::{GuestRsp, ObjWork};
use std::alloc::Global;

/// What a driver does next.
#[derive(Debug, Drop)]
pub enum DriverAct {
    /// This work is begun; when it is done the driver goes on.
    Work(ObjWork),
    /// The request ends, with this reply.
    Reply(GuestRsp),
}

impl DriverAct {
    /// Takes memory for the bytes in it, and costs them.
    pub fn copy(&self, alloc: Global) -> Result<Self, NoMemory>
        ensures { IfOk result (λ copy. copy ≡ self.now) }
    {
        Ok(match self {
            DriverAct::Work(work) => DriverAct::Work(work.copy(alloc)?),
            DriverAct::Reply(reply) => DriverAct::Reply(reply.copy(alloc)?),
        })
    }
}
