ghost use Rattle.std.specs.Prelude.{◌≡◌, IfOk};

use object_id::NoMemory;
use peer_proto::SendList;
use std::alloc::Global;

/// The messages of a tick in the order of their numbers, each with the node that it goes to.
#[derive(Debug, Drop)]
pub struct RecoverSends {
    pub list: SendList,
}

impl RecoverSends {
    pub fn copy(&self, alloc: Global) -> Result<Self, NoMemory>
        ensures { IfOk result (λ copy. copy ≡ self.now) }
    {
        Ok(RecoverSends {
            list: self.list.copy(alloc)?,
        })
    }
}
