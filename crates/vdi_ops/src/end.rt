ghost use Rattle.std.specs.Prelude.{◌≡◌, IfOk};

use object_id::{Entry, NoMemory};
use peer_proto::GuestRsp;
use std::alloc::Global;

/// How a command ends whose work was refused.
#[derive(Debug, Drop)]
pub struct OpEnd {
    /// What gives back the id that the command was granted.
    pub unlock: Option<Entry>,
    pub reply: GuestRsp,
}

impl OpEnd {
    pub fn copy(&self, alloc: Global) -> Result<Self, NoMemory>
        ensures { IfOk result (λ copy. copy ≡ self.now) }
    {
        let unlock = match &self.unlock {
            Some(entry) => Some(entry.copy(alloc)?),
            None => None,
        };
        Ok(OpEnd {
            unlock,
            reply: self.reply.copy(alloc)?,
        })
    }
}
