ghost use Rattle.std.specs.Prelude.{◌≡◌, IfOk};

use object_id::NoMemory;
use peer_proto::{Checked, ObjWork};
use std::alloc::Global;

/// What a check does next.
#[derive(Debug, Drop)]
pub enum CheckAct {
    /// This work is begun; when it is done the check goes on.
    Work(ObjWork),
    /// The check ends, and tells this.
    Reply(Checked),
}

impl CheckAct {
    /// Takes memory for the bytes or ids in it, and costs them.
    pub fn copy(&self, alloc: Global) -> Result<Self, NoMemory>
        ensures { IfOk result (λ copy. copy ≡ self.now) }
    {
        Ok(match self {
            CheckAct::Work(work) => CheckAct::Work(work.copy(alloc)?),
            CheckAct::Reply(checked) => CheckAct::Reply(checked.copy(alloc)?),
        })
    }
}
